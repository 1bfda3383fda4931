//! The keys of rows and of their nodes.

ghost use Rattle.std.specs.Prelude.{◌≡◌, ◌≤◌, ◌+◌, ◌++◌, ℕ, List, length, map, option_copied};
ghost use Rattle.key_normal.specs.KeySoFar.{key_so_far};
ghost use Rattle.temp_table.specs.TempRows.{own_segment, row_key};
ghost use Rattle.temp_table.specs.Held.{node_key};

use crate::columns::TempColumn;
use arrayvec::ArrayVec;
use key_normal::{Key, KeyMaker, LONGEST_KEY, Part};

/// The bytes of a row's number of arrival.
const ARRIVAL_BYTES: usize = 8;

/// The most bytes of the key of a node.
pub const MAX_NODE_KEY_BYTES: usize = LONGEST_KEY + ARRIVAL_BYTES;

/// The key of a node.
pub type NodeKey = ArrayVec<u8, MAX_NODE_KEY_BYTES>;

/// The key of a row.
pub fn row_key(columns: &[TempColumn], values: &[Option<&[u8]>]) -> Key
    ensures { result ≡ row_key columns.now (map option_copied values.now) }
{
    let mut maker = KeyMaker::new(LONGEST_KEY);
    for (column, value) in columns.iter().zip(values) {
        add_segment(&mut maker, column, *value);
    }
    maker.finish()
}

/// Puts the column's segment behind those that stand, where it is a key column.
fn add_segment(maker: &mut KeyMaker, column: &TempColumn, value: Option<&[u8]>)
    ensures { (given : List ℕ) → maker.old ≡ key_so_far 255 given → maker.new ≡ key_so_far 255 (given ++ own_segment column.now (option_copied value.entry)) }
{
    if column.is_key {
        maker.add(Part {
            kind: column.kind,
            value,
            descending: column.descending,
            nulls_high: false,
        });
    }
}

/// The key of the node of a row with this key, which came behind so many others.
pub fn node_key(key: &Key, unique: bool, arrival: u64) -> NodeKey
    ensures { result.items ≡ node_key unique key.now arrival }
{
    let mut bytes = NodeKey::new();
    push(&mut bytes, key.as_bytes());
    if !unique {
        push(&mut bytes, &arrival.to_be_bytes());
    }
    bytes
}

/// Makes it the key with these bytes, where it lies.
pub fn set(key: &mut NodeKey, bytes: &[u8])
    requires { length bytes.now ≤ MAX_NODE_KEY_BYTES }
    ensures { key.new.items ≡ bytes.now }
{
    key.clear();
    push(key, bytes);
}

/// Puts bytes behind those that are there.
fn push(key: &mut NodeKey, more: &[u8])
    requires { length key.old.items + length more.now ≤ MAX_NODE_KEY_BYTES }
    ensures { key.new.items ≡ key.old.items ++ more.now }
{
    if key.try_extend_from_slice(more).is_err() {
        unreachable!()
    }
}
