//! The changes of the past that the engine still holds, each with the row before it.
#![tactic(auto)]

mod calls;
mod chains;
mod ends;
pub mod examples;
mod fault;
mod hash;
mod item;
mod records;
mod versions;

pub use calls::{By, ChangeKind, Held, Reader, Undone, Variant};
pub use fault::VersionFault;
pub use item::Status;
pub use versions::Versions;
