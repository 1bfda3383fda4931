//! The one answer of an object of the outside that could not do its work.

use thiserror::Error;

/// The call failed, and the count of faults of the object rose in it.
#[derive(Clone, Copy, Debug, PartialEq, Eq, Error)]
#[error("the outside failed")]
pub struct Failed;
