//! What is told of an image that was examined: the line of what is found first of it, or that it is consistent.
#![tactic(auto)]

pub mod examples;
mod findings;
mod lines;

pub use findings::{clean_line, finding_line};
