//! The words of a script's lines: the parts of a text, their counts, and the numbers, names, bytes and values that they write.
#![tactic(auto)]

pub mod arity;
pub mod numbers;
mod parts;
mod refusal;
pub mod texts;

pub use parts::Parts;
pub use refusal::Refusal;
