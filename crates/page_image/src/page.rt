//! A page in memory.

ghost use Rattle.std.specs.Prelude.{◌≡◌, ℕ, ◌+◌, ◌<◌, ◌≤◌, ◌⊎◌, ◌↔◌, [], ◌++◌, length, drop, take, replicate, insert, remove, slice_set, None, IfOk, IfSome, IsOk, IsTrue, MatchResult, OnErr, OnOk};
ghost use Rattle.std.specs.List.{AllByRecursion};
ghost use Rattle.byteorder.specs.Endian.{big_number};
ghost use Rattle.page_image.specs.Page.{AreBytes, HasRisingKeys, IsInsertPlace, IsPage, Node, PageContents, node_area, node_at, node_size, page_bytes, page_head, page_size, with_data, with_extent};

use crate::offsets::{MAX_NODES, copy_offsets, insert_offset, move_offsets, remove_offset};
use crate::order::{compare, front, is_lower};
use crate::spelling::{
    HEAD_BYTES, INNER, LEAF, NODE_HEAD_BYTES, PAGE_BYTES, finish, has_same_words, insert_node,
    items_are_bytes, number_at, remove_bytes, replace_data, resize_zeros, sealed,
};
use byteorder::{ByteOrder, LittleEndian};
use std::cmp::Ordering;
use std::marker::Model;
use thiserror::Error;

/// How far from a guess the second look is that goes on from it.
const NEAR: usize = 3;

/// A page of fewer nodes has no two keys that a guess can go by.
const FEW: usize = 3;

/// Numbers below it, times 1,024 places, are below 2^64.
const EXACT: u64 = 1 << 54;

/// The bytes are no page.
#[derive(Debug, Drop, Error)]
#[error("the bytes are no page")]
pub struct BadPage;

/// The page has no room for the node.
#[derive(Debug, Drop, Error)]
#[error("the page is full")]
pub struct Full;

/// A page of [`PAGE_BYTES`], seen as its number, its kind and its nodes in rising key order.
#[derive(Drop)]
pub struct Page {
    // The page as it is stored but for its checksum, which no change of it makes.
    bytes: [u8; PAGE_BYTES],
    // Where each node begins, so that a search reaches any node at once.
    offsets: [u16; MAX_NODES],
    count: usize,
    end: usize,
}

impl Model for Page {
    ghost use Rattle.page_image.specs.Page.{PageContents};

    ghost Value = { PageContents };

    ghost use Rattle.page_image.specs.Shown.{contents, IsShown};

    ghost view = { contents };

    ghost invariant = { IsShown };
}

impl Page {
    /// A page with no node. Its kind is [`LEAF`], 1, or [`INNER`], 2.
    pub fn empty(number: u32, kind: u8) -> Page
        requires { (kind ≡ 1) ⊎ (kind ≡ 2) }
        ensures value { result ≡ record { number = number; kind = kind; nodes = [] } }
        ensures page { IsPage result }
    {
        let offsets = [0; MAX_NODES];
        let mut bytes = [0; PAGE_BYTES];
        write_head(&mut bytes, number, kind);
        Page {
            bytes,
            offsets,
            count: 0,
            end: HEAD_BYTES,
        }
    }

    /// A copy. It takes no memory, makes no checksum and looks at no node.
    pub fn copy(&self) -> Page
        ensures value { result ≡ self.now }
        ensures page { IsPage result }
    {
        Page {
            bytes: self.bytes,
            offsets: self.offsets,
            count: self.count,
            end: self.end,
        }
    }

    /// The page that the bytes spell, if they spell one.
    pub fn check(bytes: [u8; PAGE_BYTES]) -> Result<Page, BadPage>
        ensures found { IfOk result (λ page. IsPage page × (bytes ≡ page_bytes page)) }
        ensures only { (p : PageContents) → IsPage p → bytes ≡ page_bytes p → result ≡ Ok p }
    {
        let kind = bytes[12];
        if kind != LEAF && kind != INNER {
            return Err(BadPage);
        }
        let mut page = Page::empty(LittleEndian::read_u32(&bytes[8..]), kind);
        for _ in 0..number_at(&bytes, 14) {
            page.take_over(&bytes)?;
        }
        if sealed(&page.bytes) == bytes {
            Ok(page)
        } else {
            Err(BadPage)
        }
    }

    /// Takes the next node over from bytes that may be a page's.
    fn take_over(&mut self, bytes: &[u8; PAGE_BYTES]) -> Result<(), BadPage>
        ensures { (p : PageContents) (k : ℕ) → IsPage p → bytes.now ≡ page_bytes p → self.old ≡ record p { nodes = take k p.nodes } → k < length p.nodes → IsOk result × (self.new ≡ record p { nodes = take (k + 1) p.nodes }) }
    {
        let at = self.end;
        if at + NODE_HEAD_BYTES > PAGE_BYTES {
            return Err(BadPage);
        }
        let key_end = at + NODE_HEAD_BYTES + number_at(bytes, at);
        let data_end = key_end + number_at(bytes, at + 2);
        let extent = number_at(bytes, at + 4);
        if data_end > PAGE_BYTES || data_end - key_end > extent {
            return Err(BadPage);
        }
        let key = &bytes[at + NODE_HEAD_BYTES..key_end];
        if !self.may_follow(key) {
            return Err(BadPage);
        }
        let count = self.len();
        match self.insert(count, key, &bytes[key_end..data_end], extent) {
            Ok(()) => Ok(()),
            Err(Full) => Err(BadPage),
        }
    }

    /// Whether a key is above all keys of the page.
    fn may_follow(&self, key: &[u8]) -> bool
        ensures { IsTrue result ↔ IsInsertPlace self.now.nodes key.now (length self.now.nodes) }
    {
        let count = self.len();
        count == 0 || self.key(count - 1).cmp(key).is_lt()
    }

    /// How many nodes the page has.
    pub fn len(&self) -> usize
        ensures value { result ≡ length self.now.nodes }
        ensures page { IsPage self.now }
    {
        self.count
    }

    /// The page is in its form, and the keys and data of its nodes are bytes. Nothing is looked at for it.
    pub fn nodes_are_bytes(&self)
        ensures page { IsPage self.now }
        ensures keys { AllByRecursion (λ (n : Node). AreBytes n.key) self.now.nodes }
        ensures values { AllByRecursion (λ (n : Node). AreBytes n.data) self.now.nodes }
    {
        items_are_bytes(&self.bytes);
    }

    /// The page as it is stored. Its checksum is made here, and goes over the whole page.
    pub fn bytes(&self) -> [u8; PAGE_BYTES]
        ensures { result ≡ page_bytes self.now }
    {
        sealed(&self.bytes)
    }

    /// Whether another page has the same bytes. No checksum is made for it.
    pub fn has_same_bytes(&self, other: &Page) -> bool
        ensures { IsTrue result ↔ (page_bytes self.now ≡ page_bytes other.now) }
    {
        has_same_words(&self.bytes, &other.bytes)
    }

    /// The page's number.
    pub fn number(&self) -> u32
        ensures { result ≡ self.now.number }
    {
        LittleEndian::read_u32(&self.bytes[8..])
    }

    /// 1 for a leaf, 2 for an inner page.
    pub fn kind(&self) -> u8
        ensures value { result ≡ self.now.kind }
        ensures one_of_two { (result ≡ 1) ⊎ (result ≡ 2) }
    {
        self.bytes[12]
    }

    /// How many of the [`PAGE_BYTES`] are in use: 32, and for each node 6, its key and its extent.
    pub fn used(&self) -> usize
        ensures value { result ≡ page_size self.now.nodes }
        ensures within { result ≤ PAGE_BYTES }
    {
        self.end
    }

    /// The key of a node, a part of the page.
    pub fn key(&self, i: usize) -> &[u8]
        requires { i < length self.now.nodes }
        ensures { result.now ≡ (node_at self.now.nodes i).key }
    {
        let bytes = &self.bytes;
        let at = self.offset(i);
        let start = at + NODE_HEAD_BYTES;
        let end = start + number_at(bytes, at);
        &bytes[start..end]
    }

    /// The data of a node, a part of the page.
    pub fn data(&self, i: usize) -> &[u8]
        requires { i < length self.now.nodes }
        ensures { result.now ≡ (node_at self.now.nodes i).data }
    {
        let bytes = &self.bytes;
        let at = self.offset(i);
        let start = at + NODE_HEAD_BYTES + number_at(bytes, at);
        let end = start + number_at(bytes, at + 2);
        &bytes[start..end]
    }

    /// How many bytes the page keeps for the data of a node.
    pub fn extent(&self, i: usize) -> usize
        requires { i < length self.now.nodes }
        ensures { result ≡ (node_at self.now.nodes i).extent }
    {
        number_at(&self.bytes, self.offset(i) + 4)
    }

    /// The place of the node with this key, or else the place where it would stand.
    pub fn find(&self, key: &[u8]) -> Result<usize, usize>
        ensures { MatchResult result (λ i. (i < length self.now.nodes) × ((node_at self.now.nodes i).key ≡ key.now)) (λ i. IsInsertPlace self.now.nodes key.now i) }
    {
        let key_front = front(key);
        let (mut low, mut high) = (0, self.count);
        let Some(mut probe) = self.guess(key, key_front) else {
            return Err(high);
        };
        let mut reach = 0;
        while low < high {
            let near = reach;
            reach = wider(near);
            match compare(self.key(probe), key, key_front) {
                Ordering::Less => {
                    low = probe + 1;
                    probe = low + near.min((high - low) / 2);
                }
                Ordering::Greater => {
                    high = probe;
                    probe = high - (near + 1).min(high - low - (high - low) / 2);
                }
                Ordering::Equal => return Ok(probe),
            }
        }
        Err(low)
    }

    /// Where a key stands if the fronts of the keys rise evenly from the second one on, since the first one of an inner page
    /// is empty. None: the front of the last key is lower, so that the key is behind all others, as rising keys are.
    fn guess(&self, key: &[u8], key_front: u64) -> Option<usize>
        requires { key_front ≡ big_number 8 key.now }
        ensures place { IfSome result (λ i. 0 < length self.now.nodes → i < length self.now.nodes) }
        ensures behind { result ≡ None → IsInsertPlace self.now.nodes key.now (length self.now.nodes) }
    {
        let count = self.len();
        if count < FEW {
            return Some(count / 2);
        }
        let last = count - 1;
        let highest = self.key(last);
        let high = front(highest);
        if is_lower(highest, high, key, key_front) {
            return None;
        }
        let low = front(self.key(1));
        if key_front <= low {
            return Some(0);
        }
        Some(1 + share(key_front - low, high - low, last - 1))
    }

    /// Where a node begins, or, for the place behind the last one, where the nodes end.
    fn offset(&self, i: usize) -> usize
        requires { i ≤ length self.now.nodes }
        ensures value { result ≡ page_size (take i self.now.nodes) }
        ensures within { result ≤ PAGE_BYTES }
    {
        if i < self.count {
            self.offsets[i] as usize
        } else {
            self.end
        }
    }

    /// Where a node begins, and how many bytes it takes.
    fn span(&self, i: usize) -> (usize, usize)
        requires { i < length self.now.nodes }
        ensures at { result.0 ≡ page_size (take i self.now.nodes) }
        ensures size { result.1 ≡ node_size (node_at self.now.nodes i) }
        ensures order { result.0 + result.1 ≤ page_size self.now.nodes }
        ensures within { page_size self.now.nodes ≤ PAGE_BYTES }
    {
        let _ = &self.count;
        let at = self.offset(i);
        (at, self.offset(i + 1) - at)
    }

    /// Puts a node in at place `i`, as `find` gives it for a key that the page has not.
    pub fn insert(&mut self, i: usize, key: &[u8], data: &[u8], extent: usize) -> Result<(), Full>
        requires place { IsInsertPlace self.old.nodes key.now i }
        requires fits { length «data».now ≤ extent }
        ensures full { IsOk result ↔ (page_size self.old.nodes + (6 + length key.now + extent) ≤ PAGE_BYTES) }
        ensures ok { OnOk result (self.new ≡ record self.old { nodes = insert self.old.nodes i (record { key = key.now; extent = extent; «data» = «data».now }) }) }
        ensures err { OnErr result (self.new ≡ self.old) }
        ensures page { IsPage self.new }
    {
        let free = PAGE_BYTES - self.end;
        if key.len() > free || extent > free || NODE_HEAD_BYTES + key.len() + extent > free {
            return Err(Full);
        }
        let at = self.offset(i);
        let size = NODE_HEAD_BYTES + key.len() + extent;
        insert_node(&mut self.bytes, at, self.end, key, data, extent);
        insert_offset(&mut self.offsets, self.count, i, at, size);
        self.count += 1;
        self.end += size;
        finish(&mut self.bytes, self.count);
        Ok(())
    }

    /// Puts other data into a node, within its extent.
    pub fn replace(&mut self, i: usize, data: &[u8])
        requires place { i < length self.old.nodes }
        requires fits { length «data».now ≤ (node_at self.old.nodes i).extent }
        ensures value { self.new ≡ record self.old { nodes = with_data self.old.nodes i «data».now } }
        ensures page { IsPage self.new }
    {
        let (at, size) = self.span(i);
        let key = self.key(i).len();
        replace_data(&mut self.bytes[at..at + size], key, data);
        finish(&mut self.bytes, self.count);
    }

    /// Keeps another number of bytes for the data of a node, at least as many as the data has.
    pub fn set_extent(&mut self, i: usize, extent: usize) -> Result<(), Full>
        requires place { i < length self.old.nodes }
        requires fits { length (node_at self.old.nodes i).data ≤ extent }
        ensures full { IsOk result ↔ (page_size (with_extent self.old.nodes i extent) ≤ PAGE_BYTES) }
        ensures ok { OnOk result (self.new ≡ record self.old { nodes = with_extent self.old.nodes i extent }) }
        ensures err { OnErr result (self.new ≡ self.old) }
        ensures page { IsPage self.new }
    {
        let (at, _) = self.span(i);
        let old = self.extent(i);
        if extent > PAGE_BYTES - (self.end - old) {
            return Err(Full);
        }
        let spare = at + NODE_HEAD_BYTES + self.key(i).len() + self.data(i).len();
        let data = self.data(i).len();
        resize_zeros(&mut self.bytes, spare, old - data, extent - data, self.end);
        LittleEndian::write_u16(&mut self.bytes[at + 4..at + 6], extent as u16);
        move_offsets(&mut self.offsets, i + 1, self.count, old, extent);
        self.end = self.end - old + extent;
        finish(&mut self.bytes, self.count);
        Ok(())
    }

    /// Moves the nodes from place `at` on to an empty page.
    pub fn move_tail(&mut self, at: usize, to: &mut Page)
        requires place { at ≤ length self.old.nodes }
        requires empty { to.old.nodes ≡ [] }
        ensures kept { self.new ≡ record self.old { nodes = take at self.old.nodes } }
        ensures moved { to.new ≡ record to.old { nodes = drop at self.old.nodes } }
        ensures pages { IsPage self.new × IsPage to.new }
    {
        let start = self.offset(at);
        let end = self.end;
        let moved = self.count - at;
        to.bytes[HEAD_BYTES..HEAD_BYTES + (end - start)].copy_from_slice(&self.bytes[start..end]);
        copy_offsets(&self.offsets, at, self.count, start, &mut to.offsets);
        to.count = moved;
        to.end = HEAD_BYTES + (end - start);
        finish(&mut to.bytes, moved);
        self.bytes[start..end].fill(0);
        self.count = at;
        self.end = start;
        finish(&mut self.bytes, at);
    }

    /// Takes a node out.
    pub fn remove(&mut self, i: usize)
        requires { i < length self.old.nodes }
        ensures value { self.new ≡ record self.old { nodes = remove self.old.nodes i } }
        ensures page { IsPage self.new }
    {
        let (at, size) = self.span(i);
        remove_bytes(&mut self.bytes, at, size, self.end);
        remove_offset(&mut self.offsets, self.count, i, size);
        self.count -= 1;
        self.end -= size;
        finish(&mut self.bytes, self.count);
    }
}

/// How far the look after the next one may go on: no step at first, then a few, then half of what is left.
fn wider(reach: usize) -> usize
    ensures { result ≤ MAX_NODES }
{
    if reach == 0 { NEAR } else { MAX_NODES }
}

/// Which place of so many it is, if a part of a whole is gone.
fn share(part: u64, whole: u64, places: usize) -> usize
    requires part { part ≤ whole }
    requires some { 0 < whole }
    requires few { places < 1024 }
    ensures { result ≤ places }
{
    let places = places as u64;
    let place = if whole < EXACT {
        part * places / whole
    } else {
        (part >> 10) * places / (whole >> 10)
    };
    place.min(places) as usize
}

/// Writes the number and the kind into bytes of zeros.
fn write_head(bytes: &mut [u8; PAGE_BYTES], number: u32, kind: u8)
    requires { bytes.old ≡ replicate PAGE_BYTES 0 }
    ensures { drop 8 bytes.new ≡ page_head (record { number = number; kind = kind; nodes = [] }) ++ node_area [] }
{
    LittleEndian::write_u32(&mut bytes[8..12], number);
    bytes[12] = kind;
}
