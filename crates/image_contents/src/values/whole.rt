//! Values that are not whole.

ghost use Rattle.std.specs.Prelude.{◌≡◌, ◌==◌, ◌&&◌, true, length, nat_le, take, bytes_eq};
ghost use Rattle.std.specs.Option.{option_map};
ghost use Rattle.image_findings.specs.CatalogFindings.{is_same_node};
ghost use Rattle.image_findings.specs.Images.{least_key};
ghost use Rattle.image_findings.specs.TableContents.{TableContents};
ghost use Rattle.image_findings.specs.ValueFindings.{broken_values};
ghost use Rattle.image_opening.specs.OpenedTrees.{HasContents};
ghost use Rattle.image_contents.specs.NodesLeft.{node_in, node_of};
ghost use Rattle.image_contents.specs.ValuePass.{IsWithin, found_by, is_chunk, is_sound_head, lacks, pass_of, passed, told_head, whole};
ghost use Rattle.long_value.specs.Values.{chunk_key};

use crate::nodes::{NodeRef, NodeWalk};
use crate::numbers::is_made;
use crate::values::laws::the_pass_finds_the_least_broken_value;
use btree_inplace::nodes_of_a_tree_rise;
use byteorder::{BigEndian, ByteOrder, LittleEndian};
use image_opening::OpenedTable;
use long_value::{CHUNK_BYTES, MAX_VALUE_BYTES, MIN_VALUE_BYTES};
use page_space::Space;

/// The bytes of an identifier: those of the number of an entry, and those of a place in it.
pub(crate) const ID_BYTES: usize = 12;

/// The bytes of a head: a count and a length.
const HEAD_BYTES: usize = 8;

/// How far a pass over the nodes of long values, by rising key, has come.
#[derive(Clone, Copy)]
pub(crate) enum Progress<'a> {
    /// Each value so far is whole.
    Whole,
    /// The last value lacks its chunks from this one on, of so many bytes.
    Lacks {
        id: &'a [u8],
        chunk: u32,
        left: usize,
    },
    /// A value is not whole.
    Broken {
        id: &'a [u8],
    },
}

impl<'a> Progress<'a> {
    /// The progress behind one node more.
    fn past(self, number: u64, node: NodeRef<'a>) -> Progress<'a>
        requires { IsWithin (pass_of self) }
        ensures pass { pass_of result ≡ passed number (pass_of self.entry) (node_in node.entry) }
        ensures within { IsWithin (pass_of result) }
    {
        match self {
            Progress::Whole => past_head(number, node),
            Progress::Lacks { id, chunk, left } => past_chunk(id, chunk, left, node),
            Progress::Broken { id } => Progress::Broken { id },
        }
    }

    /// The identifier of the value that is not whole, where the nodes end here.
    fn found(self) -> Option<&'a [u8]>
        ensures { option_map (λ id. id.now) result ≡ found_by (pass_of self.entry) }
    {
        match self {
            Progress::Whole => None,
            Progress::Lacks { id, .. } => Some(id),
            Progress::Broken { id } => Some(id),
        }
    }
}

/// The identifier at the front of a key.
pub(crate) fn id_of(key: &[u8]) -> &[u8]
    ensures { result.now ≡ take 12 key.now }
{
    if key.len() < ID_BYTES {
        key
    } else {
        &key[..ID_BYTES]
    }
}

/// Whether a key is that of a chunk of a value.
pub(crate) fn is_chunk_key(key: &[u8], id: &[u8], chunk: u32) -> bool
    ensures { result ≡ bytes_eq key.now (chunk_key id.now chunk) }
{
    let mut number = [0; 4];
    BigEndian::write_u32(&mut number, chunk);
    if key.len() < id.len() {
        return false;
    }
    let (front, rest) = key.split_at(id.len());
    front == id && rest == number.as_slice()
}

/// Whether a node has the extent and as many bytes as a head.
fn has_head_sizes(extent: usize, bytes: &[u8]) -> bool
    ensures { result ≡ ((extent == 8) && (length bytes.now == 8)) }
{
    extent == HEAD_BYTES && bytes.len() == HEAD_BYTES
}

/// Whether a node has the form of a head.
fn has_head_form(key: &[u8], extent: usize, bytes: &[u8]) -> bool
    ensures value { result ≡ is_same_node (told_head (node_of key.now extent bytes.now)) (node_of key.now extent bytes.now) }
    ensures lengths { result ≡ true → (length key.now ≡ 16) × (length bytes.now ≡ 8) }
{
    if !is_chunk_key(key, id_of(key), 0) {
        return false;
    }
    has_head_sizes(extent, bytes)
}

/// Whether a long value may have so many bytes.
fn is_long(length: u32) -> bool
    ensures { result ≡ (nat_le 256 length && nat_le length 1048576) }
{
    length as usize >= MIN_VALUE_BYTES && length as usize <= MAX_VALUE_BYTES
}

/// Whether a node is the head of a value of an entry that was made.
fn is_sound_head(number: u64, node: NodeRef<'_>) -> bool
    ensures value { result ≡ is_sound_head number (node_in node.entry) }
    ensures lengths { result ≡ true → length node.entry.bytes.now ≡ 8 }
{
    if !has_head_form(node.key, node.extent, node.bytes) {
        return false;
    }
    let entry = BigEndian::read_u64(node.key);
    let length = LittleEndian::read_u32(&node.bytes[4..]);
    if !is_made(number, entry) {
        return false;
    }
    is_long(length)
}

/// The progress behind a node that is to be the head of a value.
fn past_head<'a>(number: u64, node: NodeRef<'a>) -> Progress<'a>
    ensures pass { pass_of result ≡ passed number whole (node_in node.entry) }
    ensures within { IsWithin (pass_of result) }
{
    let id = id_of(node.key);
    if !is_sound_head(number, node) {
        return Progress::Broken { id };
    }
    let left = LittleEndian::read_u32(&node.bytes[4..]) as usize;
    Progress::Lacks { id, chunk: 1, left }
}

/// Whether a node is a chunk of a value that lacks so many bytes from it on.
fn is_chunk(id: &[u8], chunk: u32, left: usize, node: NodeRef<'_>) -> bool
    ensures { result ≡ is_chunk id.now chunk left (node_in node.entry) }
{
    is_chunk_key(node.key, id, chunk)
        && node.extent == node.bytes.len()
        && node.bytes.len() == left.min(CHUNK_BYTES)
}

/// The progress behind a node that is to be a chunk of a value.
fn past_chunk<'a>(id: &'a [u8], chunk: u32, left: usize, node: NodeRef<'a>) -> Progress<'a>
    requires { IsWithin (lacks id.now chunk left) }
    ensures pass { pass_of result ≡ passed 0 (lacks id.now chunk left) (node_in node.entry) }
    ensures within { IsWithin (pass_of result) }
{
    if !is_chunk(id, chunk, left, node) {
        return Progress::Broken { id };
    }
    if left <= CHUNK_BYTES {
        return Progress::Whole;
    }
    Progress::Lacks {
        id,
        chunk: chunk + 1,
        left: left - CHUNK_BYTES,
    }
}

/// The least identifier of the long values of a table that are not whole, in an image of so many entries: of those that a node is of.
#[tactic(none)]
pub fn broken_value<'a>(space: &'a Space, table: &'a OpenedTable, number: u64) -> Option<&'a [u8]>
    requires { (t : TableContents) × HasContents space.now table.now t }
    ensures { (t : TableContents) → HasContents space.now table.now t → option_map (λ id. id.now) result ≡ least_key (broken_values number t) }
{
    the_pass_finds_the_least_broken_value();
    nodes_of_a_tree_rise();
    let mut walk = NodeWalk::new(space, &table.long_values);
    let mut progress = Progress::Whole;
    while let Some(node) = walk.next() {
        progress = progress.past(number, node);
    }
    progress.found()
}
