//! The long values of one table: a tree in the space that all trees share.

ghost use Rattle.std.specs.Prelude.{◌≡◌, ◌≤◌, ◌<◌, None, [], length, nat_lt, if◌then◌else◌, bytes_eq, is_some, take, IfOk, IsSome, IsSomeAnd, OnErr, OnOk};
ghost use Rattle.long_value.specs.Stores.{id_bytes, read_upto};
ghost use Rattle.long_value.specs.Values.{put_value, value_of, with_reference, without_reference};
ghost use Rattle.table_trees.specs.Pages.{Rearranges};
ghost use Rattle.table_trees.specs.LongTrees.{IsLongTree, LongBecomes, long_pages, long_root, long_values_in};

use crate::nodes::tree_pages_are_own;
use jet_base::OutOfMemory;
use long_value::{LongId, LongValues, values_are_shown};
use page_space::Space;

/// The long values of a table.
#[derive(Drop)]
pub struct LongTree {
    store: LongValues,
}

impl LongTree {
    /// No value.
    pub fn new(space: &mut Space) -> Result<LongTree, OutOfMemory>
        ensures empty { IfOk result (λ made. IsLongTree space.new made × (long_values_in space.new made ≡ []) × Rearranges space.old space.new [] (long_pages space.new made)) }
        ensures err { OnErr result (space.new ≡ space.old) }
    {
        tree_pages_are_own();
        values_are_shown();
        match LongValues::new(space) {
            Ok(store) => Ok(LongTree { store }),
            Err(fault) => Err(fault),
        }
    }

    /// The values of a store.
    pub fn of(store: LongValues) -> LongTree
        ensures { result.store ≡ store }
    {
        LongTree { store }
    }

    /// The number of the root page, which stays the same while the tree stands.
    pub fn root(&self) -> u32
        ensures { result ≡ long_root self.now }
    {
        self.store.root()
    }

    /// Whether a value is there.
    pub fn has(&self, space: &Space, id: LongId) -> bool
        requires { IsLongTree space.now self.now }
        ensures { result ≡ is_some (value_of (id_bytes id) (long_values_in space.now self.now)) }
    {
        self.store.has(space, id)
    }

    /// How many references a value has.
    pub fn count(&self, space: &Space, id: LongId) -> u32
        requires tree { IsLongTree space.now self.now }
        requires there { IsSome (value_of (id_bytes id) (long_values_in space.now self.now)) }
        ensures { IsSomeAnd (value_of (id_bytes id) (long_values_in space.now self.now)) (λ value. result ≡ value.count) }
    {
        self.store.count(space, id)
    }

    /// The first bytes of a value, at most 1,024: a part of its page.
    pub fn first_part<'a>(&self, space: &'a Space, id: LongId) -> &'a [u8]
        requires tree { IsLongTree space.now self.now }
        requires there { IsSome (value_of (id_bytes id) (long_values_in space.now self.now)) }
        ensures { IsSomeAnd (value_of (id_bytes id) (long_values_in space.now self.now)) (λ value. result.now ≡ take 1024 value.bytes) }
    {
        self.store.first_part(space, id)
    }

    /// Reads the first bytes of a value, as many as there is room for, and says how many.
    pub fn read(&self, space: &Space, id: LongId, into: &mut [u8]) -> usize
        requires tree { IsLongTree space.now self.now }
        requires there { IsSome (value_of (id_bytes id) (long_values_in space.now self.now)) }
        ensures bytes { IsSomeAnd (value_of (id_bytes id) (long_values_in space.now self.now)) (λ value. into.new ≡ read_upto result value.bytes into.old) }
        ensures count { IsSomeAnd (value_of (id_bytes id) (long_values_in space.now self.now)) (λ value. result ≡ (if nat_lt (length into.old) (length value.bytes) then length into.old else length value.bytes)) }
    {
        self.store.read(space, id, into)
    }

    /// Whether a value has these bytes. None is copied.
    pub fn equals(&self, space: &Space, id: LongId, bytes: &[u8]) -> bool
        requires tree { IsLongTree space.now self.now }
        requires there { IsSome (value_of (id_bytes id) (long_values_in space.now self.now)) }
        ensures { IsSomeAnd (value_of (id_bytes id) (long_values_in space.now self.now)) (λ value. result ≡ bytes_eq value.bytes bytes.now) }
    {
        self.store.equals(space, id, bytes)
    }

    /// Puts a value that is not there, with one reference to it.
    pub fn put(&mut self, space: &mut Space, id: LongId, bytes: &[u8]) -> Result<(), OutOfMemory>
        requires tree { IsLongTree space.old self.old }
        requires absent { value_of (id_bytes id) (long_values_in space.old self.old) ≡ None }
        requires long { 256 ≤ length bytes.now }
        requires short { length bytes.now ≤ 1048576 }
        ensures ok { OnOk result (LongBecomes space.old self.old space.new self.new (put_value (id_bytes id) (record { count = 1; bytes = bytes.now }) (long_values_in space.old self.old))) }
        ensures err { OnErr result (LongBecomes space.old self.old space.new self.new (long_values_in space.old self.old)) }
    {
        tree_pages_are_own();
        values_are_shown();
        self.store.put(space, id, bytes)
    }

    /// One reference more. It takes no memory.
    pub fn share(&mut self, space: &mut Space, id: LongId)
        requires tree { IsLongTree space.old self.old }
        requires few { IsSomeAnd (value_of (id_bytes id) (long_values_in space.old self.old)) (λ value. value.count < 4294967295) }
        ensures { LongBecomes space.old self.old space.new self.new (with_reference (id_bytes id) (long_values_in space.old self.old)) }
    {
        tree_pages_are_own();
        values_are_shown();
        self.store.share(space, id);
    }

    /// One reference less; with the last one the value is gone. It takes no memory.
    pub fn release(&mut self, space: &mut Space, id: LongId)
        requires tree { IsLongTree space.old self.old }
        requires there { IsSome (value_of (id_bytes id) (long_values_in space.old self.old)) }
        ensures { LongBecomes space.old self.old space.new self.new (without_reference (id_bytes id) (long_values_in space.old self.old)) }
    {
        tree_pages_are_own();
        values_are_shown();
        self.store.release(space, id);
    }

    /// Gives the pages of the values to the space. It takes no memory.
    pub fn give_back(self, space: &mut Space)
        requires { IsLongTree space.old self }
        ensures { Rearranges space.old space.new (long_pages space.old self) [] }
    {
        tree_pages_are_own();
        self.store.give_back(space);
    }
}
