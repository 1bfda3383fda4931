//! The numbers of columns: which were given, and the next free one of each kind.

ghost use Rattle.std.specs.Prelude.{◌≡◌, Some, None, if◌then◌else◌};
ghost use Rattle.database_state.specs.SchemaChanges.{with_column_id, next_column_id, has_column_id};

use jet_base::{ColType, ColumnId};
use std::marker::Model;

/// The greatest number that a fixed column may have. The numbers of fixed columns begin at 1.
pub const LAST_FIXED: u16 = 127;

/// The greatest number that a variable column may have. The numbers of variable columns begin behind `LAST_FIXED`.
pub const LAST_VARIABLE: u16 = 255;

/// The greatest number that a tagged column may have. The numbers of tagged columns begin behind `LAST_VARIABLE`.
pub const LAST_TAGGED: u16 = 511;

/// The greatest column number of each kind that a table ever gave.
///
/// A number is never given twice: that of a deleted column stays below these.
#[derive(Debug, Drop)]
pub struct GreatestColumns {
    pub fixed: u16,
    pub variable: u16,
    pub tagged: u16,
}

impl Model for GreatestColumns {
    ghost use Rattle.database_state.specs.Table.{GreatestColumns};

    ghost Value = { GreatestColumns };

    ghost view = { λ a. record { fixed = a.fixed; variable = a.variable; tagged = a.tagged } };
}

impl GreatestColumns {
    /// What a table has that gave no number yet.
    pub fn none() -> GreatestColumns
        ensures { result ≡ record { fixed = 0; variable = 127; tagged = 255 } }
    {
        GreatestColumns {
            fixed: 0,
            variable: LAST_FIXED,
            tagged: LAST_VARIABLE,
        }
    }

    /// The number of the next column of this kind, where the kind has one left.
    pub fn next(&self, kind: ColType, tagged: bool) -> Option<ColumnId>
        ensures { result ≡ (let id = next_column_id self.now kind tagged in if has_column_id kind tagged id then Some (record { 0 = id }) else None) }
    {
        let (greatest, last) = if tagged || kind.is_long() {
            (self.tagged, LAST_TAGGED)
        } else if kind.is_variable() {
            (self.variable, LAST_VARIABLE)
        } else {
            (self.fixed, LAST_FIXED)
        };
        if greatest < last {
            Some(ColumnId(greatest + 1))
        } else {
            None
        }
    }

    /// Takes note of a number that is given.
    pub fn give(&mut self, id: ColumnId)
        ensures { self.new ≡ with_column_id self.old id.0 }
    {
        if id.0 <= LAST_FIXED {
            self.fixed = self.fixed.max(id.0);
        } else if id.0 <= LAST_VARIABLE {
            self.variable = self.variable.max(id.0);
        } else {
            self.tagged = self.tagged.max(id.0);
        }
    }
}
