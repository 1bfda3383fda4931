//! The ways to seek.

/// Which entry a seek looks for, compared with the key that was made.
#[derive(Clone, Copy, Debug, PartialEq, Eq)]
pub enum SeekBy {
    /// The first with an equal key.
    Eq,
    /// The last with a key below.
    Lt,
    /// The last with a key not above.
    Le,
    /// The first with a key not below.
    Ge,
    /// The first with a key above.
    Gt,
}
