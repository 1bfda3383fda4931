//! Trees of any pages, as they were read from a file: a walk of each finds that it is a tree, or its first fault.
#![tactic(auto)]

pub mod examples;
mod fault;
mod marks;
mod pages;
mod walk;

pub use fault::WalkFault;
pub use marks::is_marked;
pub use walk::{no_fault_is_told_of_a_tree, walk_tree};
