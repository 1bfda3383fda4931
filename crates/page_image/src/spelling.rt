//! The bytes of a page: its checksum, its head and its nodes.

ghost use Rattle.std.specs.Prelude.{◌≡◌, ℕ, List, ◌+◌, ◌-◌, ◌<◌, ◌≤◌, ◌++◌, bytes_eq, length, take, drop, replicate, slice_range};
ghost use Rattle.byteorder.specs.Endian.{little_bytes, little_number};
ghost use Rattle.page_image.specs.Page.{AreBytes, Node, PageContents, node_area, node_bytes, page_body, page_head, xor_of_words};

use byteorder::{ByteOrder, LittleEndian};

/// The bytes of a page, in memory and in each of its slots in the database file: 4,096, ESE's default page size.
pub const PAGE_BYTES: usize = 4096;

/// The kind of a leaf.
pub const LEAF: u8 = 1;

/// The kind of an inner page.
pub const INNER: u8 = 2;

/// The bytes of the checksum, the first ones.
pub const CHECKSUM_BYTES: usize = 8;

/// The bytes before the first node.
pub const HEAD_BYTES: usize = 32;

/// The bytes of a node before its key: u16 length of the key, u16 length of the data, u16 extent.
pub const NODE_HEAD_BYTES: usize = 6;

/// The words of eight bytes behind the first one, over which the checksum goes.
const CHECKED_WORDS: usize = PAGE_BYTES / CHECKSUM_BYTES - 1;

/// The exclusive or of the words behind the first one.
fn checksum(bytes: &[u8; PAGE_BYTES]) -> u64
    ensures { result ≡ xor_of_words CHECKED_WORDS (drop 8 bytes.now) }
{
    let mut sum = 0;
    for word in 0..CHECKED_WORDS {
        sum ^= LittleEndian::read_u64(&bytes[8 + 8 * word..]);
    }
    sum
}

/// A copy of the bytes with the checksum of the other words in the first one.
pub fn sealed(bytes: &[u8; PAGE_BYTES]) -> [u8; PAGE_BYTES]
    ensures { result ≡ little_bytes 8 (xor_of_words CHECKED_WORDS (drop 8 bytes.now)) ++ drop 8 bytes.now }
{
    let sum = checksum(bytes);
    let mut sealed = *bytes;
    LittleEndian::write_u64(&mut sealed, sum);
    sealed
}

/// Whether all words behind the first one are the same.
pub fn has_same_words(own: &[u8; PAGE_BYTES], other: &[u8; PAGE_BYTES]) -> bool
    ensures { result ≡ bytes_eq (drop 8 own.now) (drop 8 other.now) }
{
    let own = &own[CHECKSUM_BYTES..];
    let other = &other[CHECKSUM_BYTES..];
    own == other
}

/// Each item of a slice of bytes is a byte.
pub fn items_are_bytes(bytes: &[u8])
    ensures { AreBytes bytes.now }
{}

/// The number in the two bytes at a place.
pub fn number_at(bytes: &[u8; PAGE_BYTES], at: usize) -> usize
    requires { at + 2 ≤ PAGE_BYTES }
    ensures value { result ≡ little_number 2 (drop at bytes.now) }
    ensures small { result < 65536 }
{
    LittleEndian::read_u16(&bytes[at..]) as usize
}

/// Writes the count of nodes, after which the bytes behind the checksum are a page's again.
pub fn finish(bytes: &mut [u8; PAGE_BYTES], count: usize)
    requires { count < 65536 }
    ensures { (p q : PageContents) → q.number ≡ p.number → q.kind ≡ p.kind → count ≡ length q.nodes → drop 8 bytes.old ≡ page_head p ++ node_area q.nodes → drop 8 bytes.new ≡ page_body q }
{
    set_count(bytes, count as u16);
}

/// Writes the count of nodes.
fn set_count(bytes: &mut [u8; PAGE_BYTES], count: u16)
    ensures { bytes.new ≡ take 14 bytes.old ++ (little_bytes 2 count ++ drop 16 bytes.old) }
{
    LittleEndian::write_u16(&mut bytes[14..16], count);
}

/// Writes the lengths of a node's key and data, and its extent.
fn write_node_head(head: &mut [u8], key: u16, data: u16, extent: u16)
    requires { length head.old ≡ 6 }
    ensures { head.new ≡ little_bytes 2 key ++ little_bytes 2 «data» ++ little_bytes 2 extent }
{
    LittleEndian::write_u16(head, key);
    LittleEndian::write_u16(&mut head[2..], data);
    LittleEndian::write_u16(&mut head[4..], extent);
}

/// Writes a node over bytes of its size.
#[tactic(auto, unfolding(crate::specs::Page::node_bytes))]
fn write_node(node: &mut [u8], key: &[u8], data: &[u8], extent: usize)
    requires whole { length node.old ≡ 6 + length key.now + extent }
    requires small { length node.old ≤ PAGE_BYTES }
    requires fits { length «data».now ≤ extent }
    ensures { node.new ≡ node_bytes (record { key = key.now; extent = extent; «data» = «data».now }) }
{
    let (head, rest) = node.split_at_mut(NODE_HEAD_BYTES);
    let (key_part, rest) = rest.split_at_mut(key.len());
    let (data_part, spare) = rest.split_at_mut(data.len());
    write_node_head(head, key.len() as u16, data.len() as u16, extent as u16);
    key_part.copy_from_slice(key);
    data_part.copy_from_slice(data);
    spare.fill(0);
}

/// Writes a node at a place, and moves what stands from there to the end behind it.
pub fn insert_node(
    bytes: &mut [u8; PAGE_BYTES],
    at: usize,
    end: usize,
    key: &[u8],
    data: &[u8],
    extent: usize,
)
    requires order { at ≤ end }
    requires room { end + (6 + length key.now + extent) ≤ PAGE_BYTES }
    requires fits { length «data».now ≤ extent }
    ensures { bytes.new ≡ take at bytes.old ++ (node_bytes (record { key = key.now; extent = extent; «data» = «data».now }) ++ (slice_range bytes.old at end ++ drop (end + (6 + length key.now + extent)) bytes.old)) }
{
    let size = NODE_HEAD_BYTES + key.len() + extent;
    bytes.copy_within(at..end, at + size);
    write_node(&mut bytes[at..at + size], key, data, extent);
}

/// Takes `size` bytes out at a place, and moves what stands behind them up to the end, with zeros behind it.
pub fn remove_bytes(bytes: &mut [u8; PAGE_BYTES], at: usize, size: usize, end: usize)
    requires order { at + size ≤ end }
    requires within { end ≤ PAGE_BYTES }
    ensures { bytes.new ≡ take at bytes.old ++ (slice_range bytes.old (at + size) end ++ (replicate size 0 ++ drop end bytes.old)) }
{
    bytes.copy_within(at + size..end, at);
    bytes[end - size..end].fill(0);
}

/// Writes other data into a node's bytes, with zeros behind it.
pub fn replace_data(node: &mut [u8], key_length: usize, data: &[u8])
    requires room { 6 + key_length + length «data».now ≤ length node.old }
    requires small { length «data».now < 65536 }
    ensures { (n : Node) → node.old ≡ node_bytes n → length n.key ≡ key_length → length n.data ≤ n.extent → node.new ≡ node_bytes (record n { «data» = «data».now }) }
{
    let (head, rest) = node.split_at_mut(NODE_HEAD_BYTES);
    let (_, place) = rest.split_at_mut(key_length);
    let (data_part, spare) = place.split_at_mut(data.len());
    LittleEndian::write_u16(&mut head[2..4], data.len() as u16);
    data_part.copy_from_slice(data);
    spare.fill(0);
}

/// Puts zeros in at a place, and moves what stands from there to the end behind them.
fn insert_zeros(bytes: &mut [u8; PAGE_BYTES], at: usize, size: usize, end: usize)
    requires order { at ≤ end }
    requires room { end + size ≤ PAGE_BYTES }
    ensures { bytes.new ≡ take at bytes.old ++ (replicate size 0 ++ (slice_range bytes.old at end ++ drop (end + size) bytes.old)) }
{
    bytes.copy_within(at..end, at + size);
    bytes[at..at + size].fill(0);
}

/// Makes `new` zeros of `old` ones at a place, and moves what stands behind them up to the end.
pub fn resize_zeros(bytes: &mut [u8; PAGE_BYTES], at: usize, old: usize, new: usize, end: usize)
    requires order { at + old ≤ end }
    requires within { end ≤ PAGE_BYTES }
    requires room { end + new ≤ PAGE_BYTES + old }
    ensures { (a y : List ℕ) → bytes.old ≡ a ++ (replicate old 0 ++ (y ++ replicate (PAGE_BYTES - end) 0)) → length a ≡ at → at + old + length y ≡ end → bytes.new ≡ a ++ (replicate new 0 ++ (y ++ replicate (PAGE_BYTES + old - (end + new)) 0)) }
{
    if new > old {
        insert_zeros(bytes, at, new - old, end);
    } else {
        remove_bytes(bytes, at, old - new, end);
    }
}
