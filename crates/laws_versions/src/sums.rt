//! Laws of the sums of escrow columns among versions: what a session sees of a record is the stored one without the amounts
//! that it does not see. The functions do nothing: their contracts are the laws.

mod stored;
mod undone;

pub use stored::{
    a_session_finds_its_record_with_unseen_sums, a_session_sees_its_record_without_unseen_sums,
    an_amount_is_taken_away_wrapping, an_escrow_column_is_read_as_a_long,
    an_unhindered_change_finds_the_stored_record_newest,
};
pub use undone::an_undone_sum_is_taken_away;
