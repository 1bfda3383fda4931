//! What a written value stores in a column of a type, and copy buffers: the record that a session prepares, and the one call
//! that changes it.
#![tactic(auto)]

mod buffer;
mod effect;
mod fault;
mod kinds;
mod new_value;
mod numbers;
mod values;

pub use buffer::CopyBuffer;
pub use fault::EditFault;
pub use kinds::{fixed_width, is_number_type, largest_value, width_fits};
pub use numbers::{number_fits, number_of, stored_number};
pub use values::{FRONT_BYTES, fits, stored_front};
