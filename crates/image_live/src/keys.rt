//! Whether the keys of an image's unique indexes are those of one record each.

mod derived;
mod duplicate;
mod shared;
mod spans;

pub use duplicate::{DuplicateKey, duplicate_key};
