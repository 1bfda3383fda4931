//! The parts of an engine with versions, how a reader sees its tables, and what the calls that move a cursor or read are
//! answered. Its definitions end with laws on how a call is decided, for the proofs of the crates that decide.
#![tactic(auto)]

mod answers;
mod creating_indexes;
mod cursor_calls;
mod engine;
mod index_records;
mod intersecting;
mod laws;
mod record_calls;
mod row_values;
mod schema_calls;
mod schema_steps;
mod session_calls;
mod sums;
mod view;

pub use answers::{done, one, refusal, refused};
pub use creating_indexes::create_index;
pub use engine::{Engine, LOG_LIMIT};
pub use laws::a_session_reads_its_view;
pub use schema_calls::change_schema;
pub use schema_steps::decide_schema;
pub use session_calls::{
    begin_session, begin_transaction, commit_transaction, end_session, rollback,
};
