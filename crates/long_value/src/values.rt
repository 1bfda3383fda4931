//! Long values in a tree of a space that it shares with other trees.

ghost use Rattle.std.specs.Prelude.{◌≡◌, ◌≤◌, ◌<◌, ◌*◌, ℕ, suc, List, true, false, Some, is_some, [], length, take, nat_lt, if◌then◌else◌, bytes_eq, IfOk, OnErr, OnOk};
ghost use Rattle.page_space.specs.Frames.{Frames};
ghost use Rattle.btree_inplace.specs.Trees.{AreApart, Exchanges};
ghost use Rattle.long_value.specs.declared.chunks.TheConstants.{MAX_REFERENCES, MAX_VALUE_BYTES, MIN_VALUE_BYTES};
ghost use Rattle.long_value.specs.Values.{LongValue, Values, chunk_of, head_data, put_value, released, value_of, without_value};
ghost use Rattle.long_value.specs.Stores.{HasNoValue, HasValues, HoldsValue, IsLongStore, id_bytes, own_pages, read_upto, root_of};
ghost use Rattle.long_value.specs.Shown.{values_in};
ghost use Rattle.long_value.specs.declared.values.LongValues.{LongValues};

use crate::chunks::{
    CHUNK_BYTES, chunk_count, chunk_key, chunk_of, copy_chunk, head_bytes, put_value, take_chunks,
};
use btree_inplace::{Tree, other_tree_stays};
use byteorder::{ByteOrder, LittleEndian};
use jet_base::OutOfMemory;
use page_space::Space;

/// What names a long value: the number of the log entry that made it, and a place in that entry.
#[derive(Clone, Copy, Debug, PartialEq, Eq)]
pub struct LongId {
    pub entry: u64,
    pub place: u32,
}

/// Long values, each with a count of the references to it. Every call is lent the space that has their
/// pages, and leaves all pages of other trees as they are.
#[derive(Drop)]
pub struct LongValues {
    tree: Tree,
}

impl LongValues {
    /// No value.
    pub fn new(space: &mut Space) -> Result<LongValues, OutOfMemory>
        ensures empty { IfOk result (λ made. HasValues space.new made []) }
        ensures pages { IfOk result (λ made. Exchanges space.old space.new [] (own_pages space.new made)) }
        ensures err { OnErr result (space.new ≡ space.old) }
    {
        match Tree::new(space) {
            Ok(tree) => Ok(LongValues { tree }),
            Err(fault) => Err(fault),
        }
    }

    /// The long values of a tree whose nodes are theirs, as one that was read back.
    pub fn of(tree: Tree) -> LongValues
        ensures { result.tree ≡ tree }
    {
        LongValues { tree }
    }

    /// Gives all pages of the values to the space. It takes no memory.
    pub fn give_back(self, space: &mut Space)
        requires { IsLongStore space.old self }
        ensures { Exchanges space.old space.new (own_pages space.old self) [] }
    {
        self.tree.give_back(space);
    }

    /// The number of the root page of the values, which stays the same while they stand.
    pub fn root(&self) -> u32
        ensures { result ≡ root_of self.now }
    {
        self.tree.root()
    }

    /// Whether a value is there.
    pub fn has(&self, space: &Space, id: LongId) -> bool
        requires { IsLongStore space.now self.now }
        ensures value { (values : Values) → HasValues space.now self.now values → result ≡ is_some (value_of (id_bytes id) values) }
        ensures there { result ≡ true → (value : LongValue) × HoldsValue space.now self.now id value }
        ensures absent { result ≡ false → HasNoValue space.now self.now id }
    {
        self.tree.get(space, chunk_key(id, 0).as_slice()).is_some()
    }

    /// Puts a value that is not there, with one reference to it. After a refusal the values are the
    /// same.
    pub fn put(&mut self, space: &mut Space, id: LongId, bytes: &[u8]) -> Result<(), OutOfMemory>
        requires absent { HasNoValue space.old self.old id }
        requires long { MIN_VALUE_BYTES ≤ length bytes.now }
        requires short { length bytes.now ≤ MAX_VALUE_BYTES }
        ensures store { IsLongStore space.new self.new }
        ensures ok { OnOk result ((values : Values) → HasValues space.old self.old values → HasValues space.new self.new (put_value (id_bytes id) (record { count = 1; bytes = bytes.now }) values)) }
        ensures err { OnErr result ((values : Values) → HasValues space.old self.old values → HasValues space.new self.new values) }
        ensures pages { Exchanges space.old space.new (own_pages space.old self.old) (own_pages space.new self.new) }
        ensures root { root_of self.new ≡ root_of self.old }
    {
        put_value(&mut self.tree, space, id, bytes)
    }

    /// One reference more. It takes no memory.
    pub fn share(&mut self, space: &mut Space, id: LongId)
        requires { (value : LongValue) × HoldsValue space.old self.old id value × (value.count < MAX_REFERENCES) }
        ensures store { IsLongStore space.new self.new }
        ensures values { (values : Values) (value : LongValue) → HasValues space.old self.old values → value_of (id_bytes id) values ≡ Some value → HasValues space.new self.new (put_value (id_bytes id) (record value { count = suc value.count }) values) }
        ensures pages { Exchanges space.old space.new (own_pages space.old self.old) (own_pages space.new self.new) }
        ensures root { root_of self.new ≡ root_of self.old }
    {
        let count = self.count(space, id);
        self.set_count(space, id, count + 1);
    }

    /// One reference less; with the last one the value is gone. It takes no memory.
    pub fn release(&mut self, space: &mut Space, id: LongId)
        requires { (value : LongValue) × HoldsValue space.old self.old id value }
        ensures store { IsLongStore space.new self.new }
        ensures values { (values : Values) (value : LongValue) → HasValues space.old self.old values → value_of (id_bytes id) values ≡ Some value → HasValues space.new self.new (released (id_bytes id) value values) }
        ensures pages { Exchanges space.old space.new (own_pages space.old self.old) (own_pages space.new self.new) }
        ensures root { root_of self.new ≡ root_of self.old }
    {
        let count = self.count(space, id);
        if count == 1 {
            self.take_out(space, id);
        } else {
            self.set_count(space, id, count - 1);
        }
    }

    /// How many references a value has.
    pub fn count(&self, space: &Space, id: LongId) -> u32
        requires { (value : LongValue) × HoldsValue space.now self.now id value }
        ensures { (value : LongValue) → HoldsValue space.now self.now id value → result ≡ value.count }
    {
        LittleEndian::read_u32(self.head(space, id))
    }

    /// How many bytes a value has.
    pub fn length(&self, space: &Space, id: LongId) -> u32
        requires { (value : LongValue) × HoldsValue space.now self.now id value }
        ensures { (value : LongValue) → HoldsValue space.now self.now id value → result ≡ length value.bytes }
    {
        LittleEndian::read_u32(&self.head(space, id)[4..])
    }

    /// The first bytes of a value, at most [`CHUNK_BYTES`]: a part of its page.
    pub fn first_part<'a>(&self, space: &'a Space, id: LongId) -> &'a [u8]
        requires { (value : LongValue) × HoldsValue space.now self.now id value }
        ensures { (value : LongValue) → HoldsValue space.now self.now id value → result.now ≡ take CHUNK_BYTES value.bytes }
    {
        self.chunk(space, id, 0)
    }

    /// Reads the first bytes of a value, as many as there is room for, and says how many. What is
    /// behind them in the slice stays.
    pub fn read(&self, space: &Space, id: LongId, into: &mut [u8]) -> usize
        requires { (value : LongValue) × HoldsValue space.now self.now id value }
        ensures bytes { (value : LongValue) → HoldsValue space.now self.now id value → into.new ≡ read_upto result value.bytes into.old }
        ensures count { (value : LongValue) → HoldsValue space.now self.now id value → result ≡ (if nat_lt (length into.old) (length value.bytes) then length into.old else length value.bytes) }
    {
        let size = self.length(space, id) as usize;
        let wanted = if into.len() < size { into.len() } else { size };
        for k in 0..chunk_count(wanted) {
            let chunk = self.chunk(space, id, k);
            let start = k as usize * CHUNK_BYTES;
            let end = if wanted - start < CHUNK_BYTES {
                wanted
            } else {
                start + CHUNK_BYTES
            };
            copy_chunk(into, start, end, chunk);
        }
        wanted
    }

    /// Whether a value has these bytes: chunk by chunk, so that none is copied.
    pub fn equals(&self, space: &Space, id: LongId, bytes: &[u8]) -> bool
        requires { (value : LongValue) × HoldsValue space.now self.now id value }
        ensures { (value : LongValue) → HoldsValue space.now self.now id value → result ≡ bytes_eq value.bytes bytes.now }
    {
        if self.length(space, id) as usize != bytes.len() {
            return false;
        }
        for k in 0..chunk_count(bytes.len()) {
            if self.chunk(space, id, k) != chunk_of(bytes, k) {
                return false;
            }
        }
        true
    }

    /// The head of a value.
    fn head<'a>(&self, space: &'a Space, id: LongId) -> &'a [u8]
        requires { (value : LongValue) × HoldsValue space.now self.now id value }
        ensures head { (value : LongValue) → HoldsValue space.now self.now id value → result.now ≡ head_data value }
        ensures size { length result.now ≡ 8 }
    {
        match self.tree.get(space, chunk_key(id, 0).as_slice()) {
            Some(head) => head,
            None => &[],
        }
    }

    /// A chunk of a value, counted from 0.
    fn chunk<'a>(&self, space: &'a Space, id: LongId, k: u32) -> &'a [u8]
        requires { (value : LongValue) × HoldsValue space.now self.now id value × (CHUNK_BYTES * k < length value.bytes) }
        ensures { (value : LongValue) → HoldsValue space.now self.now id value → result.now ≡ chunk_of value.bytes k }
    {
        match self.tree.get(space, chunk_key(id, k + 1).as_slice()) {
            Some(chunk) => chunk,
            None => &[],
        }
    }

    /// Gives a value another count.
    fn set_count(&mut self, space: &mut Space, id: LongId, count: u32)
        requires there { (value : LongValue) × HoldsValue space.old self.old id value }
        requires some { 1 ≤ count }
        ensures values { (values : Values) (value : LongValue) → HasValues space.old self.old values → value_of (id_bytes id) values ≡ Some value → HasValues space.new self.new (put_value (id_bytes id) (record value { count = count }) values) }
        ensures pages { Exchanges space.old space.new (own_pages space.old self.old) (own_pages space.new self.new) }
        ensures root { root_of self.new ≡ root_of self.old }
    {
        let head = head_bytes(count, self.length(space, id));
        self.tree
            .replace(space, chunk_key(id, 0).as_slice(), head.as_slice());
    }

    /// Takes all chunks of a value out.
    fn take_out(&mut self, space: &mut Space, id: LongId)
        requires { (value : LongValue) × HoldsValue space.old self.old id value }
        ensures values { (values : Values) (value : LongValue) → HasValues space.old self.old values → value_of (id_bytes id) values ≡ Some value → HasValues space.new self.new (without_value (id_bytes id) values) }
        ensures pages { Exchanges space.old space.new (own_pages space.old self.old) (own_pages space.new self.new) }
        ensures root { root_of self.new ≡ root_of self.old }
    {
        let count = chunk_count(self.length(space, id) as usize);
        take_chunks(&mut self.tree, space, id, count);
        self.tree.remove(space, chunk_key(id, 0).as_slice());
    }
}

/// A change of one tree of a space leaves the values of a store that has no page of it.
pub fn other_long_values_stay()
    ensures { (old new : Frames) (before after : List ℕ) (store : LongValues) (values : Values) → Exchanges old new before after → HasValues old store values → AreApart (own_pages old store) before → HasValues new store values × (own_pages new store ≡ own_pages old store) × AreApart (own_pages new store) after }
{
    other_tree_stays();
}

/// The values of a store are those that its tree shows.
pub fn values_are_shown()
    ensures { (frames : Frames) (store : LongValues) (values : Values) → HasValues frames store values → values_in frames store ≡ values }
{}
