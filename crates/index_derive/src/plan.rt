//! The columns of a key, with what the schema says of each.

ghost use Rattle.std.specs.Prelude.{◌≡◌, ◌≤◌, false, map, length};
ghost use Rattle.jet_base.specs.declared.words.ColType.TheVariants.{Binary};
ghost use Rattle.index_derive.specs.Walks.{plan_of, planned_column};

use crate::legality::{MOST_KEY_COLUMNS, is_multi, kind_of};
use crate::rules::{IndexRule, Schema, Segment};
use arrayvec::ArrayVec;
use jet_base::{ColType, ColumnId};

/// A column of a key.
#[derive(Clone, Copy, Debug)]
pub struct KeyPart {
    pub column: ColumnId,
    pub kind: ColType,
    /// It brings all of its values, in the walk over them.
    pub multi: bool,
    pub descending: bool,
}

impl Default for KeyPart {
    ghost is_default = { λ part. (part.column.0 ≡ 0) × (part.kind ≡ Binary) × (part.multi ≡ false) × (part.descending ≡ false) };

    /// What fills the places that no column takes.
    fn default() -> KeyPart {
        KeyPart {
            column: ColumnId(0),
            kind: ColType::Binary,
            multi: false,
            descending: false,
        }
    }
}

/// The columns of the rule's key, in their order, looked up once.
pub(crate) fn plan(rule: &IndexRule, schema: &Schema) -> ArrayVec<KeyPart, MOST_KEY_COLUMNS>
    requires { length rule.now.segments ≤ 12 }
    ensures { result.items ≡ plan_of rule.now schema.now }
{
    let mut parts = ArrayVec::new();
    for segment in rule.segments.as_slice() {
        parts.push(part(*segment, schema));
    }
    parts
}

/// The column of the key, with what the schema says of it.
fn part(segment: Segment, schema: &Schema) -> KeyPart
    ensures { result ≡ planned_column schema.now segment }
{
    KeyPart {
        column: segment.column,
        kind: kind_of(schema, segment.column),
        multi: is_multi(schema, segment.column),
        descending: segment.descending,
    }
}
