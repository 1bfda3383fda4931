//! An engine whose log is kept on a volume: the bytes of its entries are flushed to a store, and images of it are written there as
//! checkpoints, so that every crash leaves what was flushed. It is opened on a volume with what that recovers to.
#![tactic(auto)]

mod examples;
mod kept;
mod laws;
mod opening;
mod runs;
mod serving;

pub use examples::checkpoints_that_are_due;
pub use kept::KeptEngine;
pub use laws::what_is_kept_stands;
pub use opening::OpenFault;
pub use runs::{
    a_line_is_kept, a_run_comes_as_far_as_its_lengths_say, a_run_is_kept_line_by_line,
    a_run_of_lines_is_kept, a_served_line_is_kept, the_log_of_a_run_leads_to_its_state,
};
