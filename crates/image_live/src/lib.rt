//! Whether the live part of an image is sound beside its tables.
#![tactic(auto)]

mod apart;
mod changes;
mod keys;
mod levels;
mod live;
mod order;
mod parts;
mod placing;
mod sessions;
mod tables;

pub use keys::{DuplicateKey, duplicate_key};
pub use tables::ImageTables;
