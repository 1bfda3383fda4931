//! Indexes: their rules, the places in them, the entries that a record has in one, and the schema calls and log
//! entries that speak of them.
#![tactic(auto)]

pub mod derive;
mod doubles;
mod entries;
mod entry;
mod faults;
mod laws;
mod legality;
mod log;
mod plan;
mod primary;
mod rules;
mod schema_calls;
mod values;
mod walk;

pub use doubles::has_double;
pub use entries::{IndexEntry, Place};
pub use faults::DeriveFault;
pub use laws::{entries_rise, next_entries_are_entries};
pub use legality::{GREATEST_KEY_MOST, MOST_KEY_COLUMNS, USUAL_KEY_MOST, legal};
pub use log::{Entry, EntryKind, Step};
pub use primary::primary_key;
pub use rules::{Condition, IndexFlags, IndexRule, Schema, Segment};
pub use schema_calls::{NamedCondition, NamedSegment, SchemaCall, SchemaStep};
