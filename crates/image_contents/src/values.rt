//! The long values of a table of an image.

mod counts;
mod fault;
mod laws;
mod miscounted;
mod missing;
mod references;
mod referring;
mod whole;

pub use fault::ValueFault;
pub use laws::{values_that_are_not_broken_are_whole, whole_values_with_references_are_a_store};
pub use miscounted::miscounted_value;
pub use missing::missing_or_broken_value;
pub use whole::broken_value;
