//! The words that every layer of the engine shares: identifiers, column types, replies, names, byte strings and lists.
#![tactic(auto)]

mod ids;
mod items;
mod memory;
mod replies;
mod small_bytes;
mod text;
mod words;

pub use ids::{ColumnId, CursorId, IndexId, Session, TableId};
pub use items::Items;
pub use memory::OutOfMemory;
pub use replies::{Jet, name};
pub use small_bytes::SmallBytes;
pub use text::{LONGEST_NAME, Name, Octets};
pub use words::{ColType, ColumnFlags, Given, Prepare, Way};
