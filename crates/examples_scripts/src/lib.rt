//! Worked examples of scripts and transcripts, as theorems: each function's clause says what the definitions give, and its
//! body is empty.
#![tactic(auto)]

pub mod lines;
pub mod scripts;
pub mod values;
