//! The bytes of log entries, written and read, and which bytes are cut from one.
//!
//! What is told of a column, of an index and of a name is spelled in the same way elsewhere, and an entry stands in other files
//! too: for that the calls that write and read these and their fields are public too.
#![tactic(auto)]

mod append;
mod changes;
mod decoding;
mod decoding_schema;
mod encoding;
mod encoding_schema;
mod fault;
mod fields;
mod front;
mod fronts;
mod measuring;
mod parsing;
mod put;
mod reading;
mod records;
mod schemas;
mod spelling;

pub use append::{append as append_bytes, append_byte};
pub use decoding::entry_of;
pub use decoding_schema::{KEY_MOST, index_flags_of, read_column, read_conditions, read_segments};
pub use encoding::{append_entry, encode};
pub use encoding_schema::{column_flags, index_flags, type_number};
pub use fault::EntryFault;
pub use front::read_front;
pub use fronts::is_cut;
pub use measuring::entry_size;
pub use parsing::{Parsed, decode};
pub use reading::{bytes_of, flag_of, read_name, read_u16, read_u32, u8_at};
pub use spelling::{column_fits, has_spelling, index_fits, name_fits};
