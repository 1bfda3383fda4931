//! The chunks of a value as nodes of a tree.

ghost use Rattle.std.specs.Prelude.{◌≡◌, ◌≤◌, ◌<◌, ◌+◌, ◌-◌, ◌*◌, ◌++◌, ℕ, suc, None, length, find, take, drop, IsSome, OnErr, OnOk};
ghost use Rattle.byteorder.specs.Endian.{little_bytes};
ghost use Rattle.btree_inplace.specs.Changes.{inserted};
ghost use Rattle.btree_inplace.specs.Order.{has_key};
ghost use Rattle.btree_inplace.specs.Trees.{IsTree, nodes_of};
ghost use Rattle.long_value.specs.Values.{LacksValue, chunk_count, chunk_key, chunk_node, chunk_of, with_chunks, with_value, without_chunks};
ghost use Rattle.long_value.specs.Stores.{Becomes, id_bytes};

use crate::values::LongId;
use btree_inplace::Tree;
use byteorder::{BigEndian, ByteOrder, LittleEndian};
use jet_base::OutOfMemory;
use page_space::Space;

/// A value has more bytes than stand in its row: so many at least.
pub const MIN_VALUE_BYTES: usize = 256;

/// The most bytes of a value: 2^20.
pub const MAX_VALUE_BYTES: usize = 1 << 20;

/// The most references to a value: 2^32 - 1.
pub const MAX_REFERENCES: u32 = 0xffff_ffff;

/// The bytes of each chunk but the last.
pub const CHUNK_BYTES: usize = 1024;

/// The most chunks of a value, without its head.
pub const MAX_CHUNKS: usize = MAX_VALUE_BYTES / CHUNK_BYTES;

/// The bytes of a value's head: its count and its length.
const HEAD_BYTES: usize = 8;

/// The key of a chunk: the head is chunk 0.
pub fn chunk_key(id: LongId, chunk: u32) -> [u8; 16]
    ensures { result ≡ chunk_key (id_bytes id) chunk }
{
    let mut key = [0; 16];
    BigEndian::write_u64(&mut key, id.entry);
    BigEndian::write_u32(&mut key[8..], id.place);
    BigEndian::write_u32(&mut key[12..], chunk);
    key
}

/// The head of a value.
pub fn head_bytes(count: u32, size: u32) -> [u8; 8]
    ensures { result ≡ little_bytes 4 count ++ little_bytes 4 size }
{
    let mut head = [0; HEAD_BYTES];
    LittleEndian::write_u32(&mut head, count);
    LittleEndian::write_u32(&mut head[4..], size);
    head
}

/// How many chunks so many bytes make.
pub fn chunk_count(size: usize) -> u32
    requires { size ≤ MAX_VALUE_BYTES }
    ensures count { result ≡ chunk_count size }
    ensures few { result ≤ MAX_CHUNKS }
{
    ((size + CHUNK_BYTES - 1) / CHUNK_BYTES) as u32
}

/// A chunk of bytes, counted from 0.
pub fn chunk_of(bytes: &[u8], k: u32) -> &[u8]
    requires { CHUNK_BYTES * k < length bytes.now }
    ensures chunk { result.now ≡ chunk_of bytes.now k }
    ensures short { length result.now ≤ CHUNK_BYTES }
{
    let start = CHUNK_BYTES * k as usize;
    let end = if bytes.len() - start > CHUNK_BYTES {
        start + CHUNK_BYTES
    } else {
        bytes.len()
    };
    &bytes[start..end]
}

/// Puts a value with one reference into a tree that has no node of it. After a refusal the tree has
/// the nodes that it had.
pub fn put_value(
    tree: &mut Tree,
    space: &mut Space,
    id: LongId,
    bytes: &[u8],
) -> Result<(), OutOfMemory>
    requires tree { IsTree space.old tree.old }
    requires absent { LacksValue (id_bytes id) (nodes_of space.old tree.old) }
    requires short { length bytes.now ≤ MAX_VALUE_BYTES }
    ensures ok { OnOk result (Becomes space.old tree.old space.new tree.new (with_value (id_bytes id) (record { count = 1; bytes = bytes.now }) (nodes_of space.old tree.old))) }
    ensures err { OnErr result (Becomes space.old tree.old space.new tree.new (nodes_of space.old tree.old)) }
{
    put_chunks(tree, space, id, bytes)?;
    let key = chunk_key(id, 0);
    let head = head_bytes(1, bytes.len() as u32);
    match tree.insert(space, key.as_slice(), head.as_slice(), HEAD_BYTES) {
        Ok(()) => Ok(()),
        Err(fault) => {
            take_chunks(tree, space, id, chunk_count(bytes.len()));
            Err(fault)
        }
    }
}

/// Puts the chunks of a value into a tree that has no node of it, one after the other. Where there is
/// no memory for one, those before it are taken out again.
fn put_chunks(
    tree: &mut Tree,
    space: &mut Space,
    id: LongId,
    bytes: &[u8],
) -> Result<(), OutOfMemory>
    requires tree { IsTree space.old tree.old }
    requires absent { LacksValue (id_bytes id) (nodes_of space.old tree.old) }
    requires short { length bytes.now ≤ MAX_VALUE_BYTES }
    ensures ok { OnOk result (Becomes space.old tree.old space.new tree.new (with_chunks (id_bytes id) bytes.now (chunk_count (length bytes.now)) (nodes_of space.old tree.old))) }
    ensures err { OnErr result (Becomes space.old tree.old space.new tree.new (nodes_of space.old tree.old)) }
{
    for k in 0..chunk_count(bytes.len()) {
        if put_chunk(tree, space, id, bytes, k).is_err() {
            take_chunks(tree, space, id, k);
            return Err(OutOfMemory);
        }
    }
    Ok(())
}

/// Puts one chunk of a value into a tree.
fn put_chunk(
    tree: &mut Tree,
    space: &mut Space,
    id: LongId,
    bytes: &[u8],
    k: u32,
) -> Result<(), OutOfMemory>
    requires tree { IsTree space.old tree.old }
    requires absent { find (has_key (chunk_key (id_bytes id) (suc k))) (nodes_of space.old tree.old) ≡ None }
    requires within { CHUNK_BYTES * k < length bytes.now }
    requires few { k < MAX_CHUNKS }
    ensures ok { OnOk result (Becomes space.old tree.old space.new tree.new (inserted (nodes_of space.old tree.old) (chunk_node (id_bytes id) bytes.now k))) }
    ensures err { OnErr result (Becomes space.old tree.old space.new tree.new (nodes_of space.old tree.old)) }
{
    let key = chunk_key(id, k + 1);
    let chunk = chunk_of(bytes, k);
    tree.insert(space, key.as_slice(), chunk, chunk.len())
}

/// Takes the first chunks of a value out of a tree.
pub fn take_chunks(tree: &mut Tree, space: &mut Space, id: LongId, count: u32)
    requires tree { IsTree space.old tree.old }
    requires there { (k : ℕ) → k < count → IsSome (find (has_key (chunk_key (id_bytes id) (suc k))) (nodes_of space.old tree.old)) }
    requires few { count ≤ MAX_CHUNKS }
    ensures { Becomes space.old tree.old space.new tree.new (without_chunks (id_bytes id) count (nodes_of space.old tree.old)) }
{
    for k in 0..count {
        let key = chunk_key(id, k + 1);
        tree.remove(space, key.as_slice());
    }
}

/// Puts the first bytes of a chunk where they belong.
pub fn copy_chunk(into: &mut [u8], start: usize, end: usize, chunk: &[u8])
    requires rises { start ≤ end }
    requires within { end ≤ length into.old }
    requires enough { end ≤ start + length chunk.now }
    ensures { into.new ≡ take start into.old ++ (take (end - start) chunk.now ++ drop end into.old) }
{
    into[start..end].copy_from_slice(&chunk[..end - start]);
}
