//! Worked examples of the definitions, of versions and of conflicts. Each function has an empty body, and its clause says what
//! the definitions give.
#![tactic(auto)]

pub mod entries;
pub mod equivalence;
pub mod histories;
pub mod indexes;
pub mod keys;
pub mod records;
pub mod rows;
pub mod states;
pub mod sums;
pub mod values;
pub mod version_keys;
