//! What a call answers.

use jet_base::Jet;

/// The value of a reply.
#[derive(Clone, Copy, Debug, PartialEq, Eq)]
pub enum Value {
    /// There is none.
    Nothing,
    /// A number of the data.
    Number(i64),
    /// A count of entries or rows.
    Count(u64),
    /// So many bytes, which lie at the front of the session's reply buffer, and the length of the whole value in bytes.
    Bytes(usize, u64),
}

/// The reply of a call. A refusal has no value.
#[derive(Clone, Copy, Debug, PartialEq, Eq)]
pub struct Reply {
    pub jet: Jet,
    pub value: Value,
}
