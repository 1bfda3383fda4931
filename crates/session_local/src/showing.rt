//! Values that are shown.

/// A value that a call shows.
pub(crate) enum Shown<'a> {
    /// A number of the data.
    Number(i64),
    /// Bytes, of which a front is shown.
    Bytes(&'a [u8]),
}
