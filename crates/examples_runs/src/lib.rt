//! Worked examples of runs: scripts with the replies, or the whole transcript, that the definitions give.
#![tactic(auto)]

pub mod indexes;
pub mod intersections;
pub mod navigation;
pub mod outcomes;
pub mod records;
pub mod sessions;
pub mod temporary_tables;
pub mod transactions;
pub mod transcripts;
