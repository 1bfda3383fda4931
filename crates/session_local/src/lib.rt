//! A session's side of a call: the request, and the reply; and which columns, indexes, tables, log entries and calls are built.
#![tactic(auto)]

mod answering;
mod apart;
mod begun;
mod buffers;
mod calls;
mod decision;
mod finishing;
mod laws;
mod local;
mod making_keys;
mod navigating;
mod open_cursor;
mod open_temp;
mod prepared;
mod preparing;
mod putting_rows;
mod reading_rows;
mod reply;
mod reply_buffer;
mod request;
mod retrieved_value;
mod retrieving_copies;
mod schemas;
mod setting_columns;
mod showing;
mod temp_steps;
mod temps;

pub use answering::local_step;
pub use apart::Apart;
pub use buffers::{Buffers, MOST_CURSORS};
pub use calls::is_local;
pub use decision::Decision;
pub use finishing::finish;
pub use laws::{
    a_filled_table_has_its_bookmarks_in_order, agreeing_states_are_well_formed,
    finish_is_the_answer, finish_keeps_well_formed, local_calls_keep_well_formed,
    local_calls_take_no_step, navigation_keeps_well_formed,
};
pub use local::Local;
pub use open_cursor::OpenCursor;
pub use open_temp::OpenTemp;
pub use prepared::{Prepared, Purpose};
pub use reply::{Reply, Value};
pub use request::Request;
pub use retrieved_value::RetrievedValue;
pub use schemas::is_well_formed;
pub use temps::MOST_TEMPS;
