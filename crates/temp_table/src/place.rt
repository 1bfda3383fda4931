//! Places in a temporary table.

/// Where a temporary table stands among its rows.
#[derive(Clone, Copy, Debug, PartialEq, Eq)]
pub enum TempPlace {
    /// Before the first row.
    Before,
    /// After the last row.
    After,
    /// On the row with so many rows before it.
    On(u64),
}
