//! The columns of a temporary table.

ghost use Rattle.std.specs.Prelude.{◌≡◌};
ghost use Rattle.temp_table.specs.TempColumns.{are_short, are_temp_columns, key_columns_first};

use jet_base::ColType;

/// The most columns of a temporary table.
pub const MAX_COLUMNS: usize = 12;

/// A column of a temporary table.
#[derive(Clone, Copy, Debug, PartialEq, Eq)]
pub struct TempColumn {
    /// The column's type, any but the two long ones.
    pub kind: ColType,
    /// Rows are sorted by it.
    pub is_key: bool,
    /// Greater values come first. It concerns key columns alone.
    pub descending: bool,
}

/// Whether a temporary table may have these columns: at least one and at most [`MAX_COLUMNS`], one or more key columns
/// before all others, and none of a long type.
pub fn are_temp_columns(columns: &[TempColumn]) -> bool
    ensures { result ≡ are_temp_columns columns.now }
{
    match columns {
        [first, ..] => {
            first.is_key
                && columns.len() <= MAX_COLUMNS
                && key_columns_first(columns)
                && are_short(columns)
        }
        [] => false,
    }
}

/// Whether no key column stands behind another one.
fn key_columns_first(columns: &[TempColumn]) -> bool
    ensures { result ≡ key_columns_first columns.now }
{
    let mut is_behind = false;
    for column in columns {
        if column.is_key && is_behind {
            return false;
        }
        is_behind = !column.is_key;
    }
    true
}

/// Whether no column has a long type.
fn are_short(columns: &[TempColumn]) -> bool
    ensures { result ≡ are_short columns.now }
{
    for column in columns {
        if column.kind.is_long() {
            return false;
        }
    }
    true
}
