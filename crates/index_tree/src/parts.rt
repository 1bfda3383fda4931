//! Keys of nodes, put together of an entry's key and bookmark, and cut apart again.

ghost use Rattle.std.specs.Prelude.{◌≡◌, ◌+◌, ◌≤◌, ◌++◌, Option, length, IfSome};
ghost use Rattle.std.specs.Option.{option_map};
ghost use Rattle.btree_inplace.specs.Order.{key_and_data};
ghost use Rattle.cursor_nav.specs.Places.{Pair};
ghost use Rattle.index_tree.specs.Entries.{IsShort, gap_bookmark, node_of_entry};

use arrayvec::ArrayVec;
use byteorder::{ByteOrder, LittleEndian};

/// The most bytes of a key, and of a bookmark.
pub const MAX_PART_BYTES: usize = 255;

/// The most bytes that stand behind a key: one more than a bookmark has at most.
pub const MAX_BEHIND_BYTES: usize = MAX_PART_BYTES + 1;

/// The most bytes of the key of a node.
pub const MAX_NODE_KEY_BYTES: usize = MAX_PART_BYTES + MAX_BEHIND_BYTES;

/// The key of a node: a key and what stands behind it.
pub type NodeKey = ArrayVec<u8, MAX_NODE_KEY_BYTES>;

/// What stands above each bookmark.
const TOP: [u8; MAX_BEHIND_BYTES] = [0xff; MAX_BEHIND_BYTES];

/// A key and a bookmark, one behind the other.
pub fn joined(key: &[u8], bookmark: &[u8]) -> NodeKey
    requires key { length key.now ≤ MAX_PART_BYTES }
    requires bookmark { length bookmark.now ≤ MAX_BEHIND_BYTES }
    ensures { result.items ≡ key.now ++ bookmark.now }
{
    let mut bytes = ArrayVec::new();
    push(&mut bytes, key);
    push(&mut bytes, bookmark);
    bytes
}

/// Makes it a key, a bookmark and what stands behind it, one behind the other.
pub fn join(bytes: &mut NodeKey, key: &[u8], bookmark: &[u8], behind: &[u8])
    requires key { length key.now ≤ MAX_PART_BYTES }
    requires bookmark { length bookmark.now + length behind.now ≤ MAX_BEHIND_BYTES }
    ensures { bytes.new.items ≡ key.now ++ bookmark.now ++ behind.now }
{
    bytes.clear();
    push(bytes, key);
    push(bytes, bookmark);
    push(bytes, behind);
}

/// Puts bytes behind those that are there.
fn push(bytes: &mut NodeKey, more: &[u8])
    requires { length bytes.old.items + length more.now ≤ MAX_NODE_KEY_BYTES }
    ensures { bytes.new.items ≡ bytes.old.items ++ more.now }
{
    if bytes.try_extend_from_slice(more).is_err() {
        unreachable!()
    }
}

/// The key and the bookmark of a node that was found.
pub fn parts<'a>(found: Option<(&'a [u8], &'a [u8])>) -> Option<(&'a [u8], &'a [u8])>
    requires { (entry : Option Pair) × IfSome entry IsShort × (option_map (λ node. (node.0.now, node.1.now)) found ≡ option_map (λ e. key_and_data (node_of_entry e)) entry) }
    ensures { (entry : Option Pair) → IfSome entry IsShort → option_map (λ node. (node.0.now, node.1.now)) found.entry ≡ option_map (λ e. key_and_data (node_of_entry e)) entry → option_map (λ pair. (pair.0.now, pair.1.now)) result ≡ entry }
{
    match found {
        Some((key, length)) => Some(key.split_at(usize::from(LittleEndian::read_u16(length)))),
        None => None,
    }
}

/// A bookmark above those of all entries with a key, or below them.
pub fn gap_bookmark(above: bool) -> &'static [u8]
    ensures bytes { result.now ≡ gap_bookmark above }
    ensures short { length result.now ≤ MAX_BEHIND_BYTES }
{
    if above { &TOP } else { &[] }
}
