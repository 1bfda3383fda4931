//! Writing the fields of nodes. There is room for each.

ghost use Rattle.std.specs.Prelude.{◌≡◌, ◌+◌, ◌*◌, ◌<◌, ◌≤◌, ◌∷◌, [], ◌++◌, length};
ghost use Rattle.std.specs.Int.{w16, w32, to_be_bytes, to_le_bytes};
ghost use Rattle.std.specs.List.{flat_map};
ghost use Rattle.log_grammar.specs.EntryBytes.{bool_byte, condition_bytes, name_bytes, segment_bytes};
ghost use Rattle.catalog_grammar.specs.CatalogBytes.{catalog_key};

use crate::buffer::{KEY_BYTES, NodeData};
use index_derive::{Condition, Segment};
use jet_base::Name;

/// The key of a kind, a table, and a column or an index: 0 in the place of what it has not. The kinds are 0 for the greatest
/// number, 1 for tables, 2 for columns and 3 for indexes.
pub fn key_of(kind: u8, table: u32, id: u16) -> [u8; KEY_BYTES]
    ensures { result ≡ catalog_key kind table id }
{
    let table = table.to_be_bytes();
    let id = id.to_be_bytes();
    [kind, table[0], table[1], table[2], table[3], id[0], id[1]]
}

/// Writes bytes behind the others.
pub fn put(data: &mut NodeData, bytes: &[u8])
    requires { length «data».old.items + length bytes.now ≤ 1607 }
    ensures { «data».new.items ≡ «data».old.items ++ bytes.now }
{
    match data.try_extend_from_slice(bytes) {
        Ok(()) => {}
        Err(_) => unreachable!(),
    }
}

/// Writes a number of two bytes.
pub fn put_u16(data: &mut NodeData, number: u16)
    requires { length «data».old.items + 2 ≤ 1607 }
    ensures { «data».new.items ≡ «data».old.items ++ to_le_bytes w16 number }
{
    put(data, &number.to_le_bytes());
}

/// Writes a number of four bytes.
pub fn put_u32(data: &mut NodeData, number: u32)
    requires { length «data».old.items + 4 ≤ 1607 }
    ensures { «data».new.items ≡ «data».old.items ++ to_le_bytes w32 number }
{
    put(data, &number.to_le_bytes());
}

/// Writes a name, its length before it.
pub fn put_name(data: &mut NodeData, name: &Name)
    requires room { length «data».old.items + 65 ≤ 1607 }
    requires short { length name.now ≤ 64 }
    ensures { «data».new.items ≡ «data».old.items ++ name_bytes name.now }
{
    let text = name.as_bytes();
    put(data, &[text.len() as u8]);
    put(data, text);
}

/// Writes a column's number and a flag.
pub fn put_flagged(data: &mut NodeData, column: u16, flag: bool)
    requires { length «data».old.items + 3 ≤ 1607 }
    ensures { «data».new.items ≡ «data».old.items ++ (to_le_bytes w16 column ++ (bool_byte flag ∷ [])) }
{
    put_u16(data, column);
    put(data, &[flag as u8]);
}

/// Writes the segments of an index, their count before them.
pub fn put_segments(data: &mut NodeData, segments: &[Segment])
    requires few { length segments.now < 256 }
    requires room { length «data».old.items + 1 + 3 * length segments.now ≤ 1607 }
    ensures { «data».new.items ≡ «data».old.items ++ (length segments.now ∷ flat_map segment_bytes segments.now) }
{
    put(data, &[segments.len() as u8]);
    for segment in segments {
        put_flagged(data, segment.column.0, segment.descending);
    }
}

/// Writes the conditions of an index, their count before them.
pub fn put_conditions(data: &mut NodeData, conditions: &[Condition])
    requires few { length conditions.now < 256 }
    requires room { length «data».old.items + 1 + 3 * length conditions.now ≤ 1607 }
    ensures { «data».new.items ≡ «data».old.items ++ (length conditions.now ∷ flat_map condition_bytes conditions.now) }
{
    put(data, &[conditions.len() as u8]);
    for condition in conditions {
        put_flagged(data, condition.column.0, condition.must_be_null);
    }
}
