//! The key of a record in a primary index.

ghost use Rattle.std.specs.Prelude.{◌≡◌, ◌≤◌};
ghost use Rattle.index_derive.specs.Entries.{primary_key};

use crate::legality::kind_of;
use crate::rules::{IndexRule, Schema};
use crate::values::value_at;
use column_set::Values;
use key_normal::{Key, KeyMaker, Part};

/// The key of the record where each column of the rule has one value at most: in a primary index its bookmark.
///
/// Each column takes part with its first value, or with NULL, and no flag is asked whether the record is refused. It
/// takes no memory, and visits no other value. A key holds 255 bytes, so the index may ask for no more.
pub fn primary_key<R: Values>(rule: &IndexRule, schema: &Schema, record: &R) -> Key
    requires short { rule.now.key_most ≤ 255 }
    ensures { result ≡ primary_key rule.now schema.now (R.fields «record».now) }
{
    let mut maker = KeyMaker::new(usize::from(rule.key_most));
    for segment in rule.segments.as_slice() {
        maker.add(Part {
            kind: kind_of(schema, segment.column),
            value: value_at(record, segment.column, 0),
            descending: segment.descending,
            nulls_high: rule.flags.sortnullshigh,
        });
    }
    maker.finish()
}
