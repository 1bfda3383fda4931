//! The changes of a record, from the newest back: all of them, and its standing puts and drops alone.

ghost use Rattle.std.specs.Prelude.{◌≡◌, ℕ, ◌≤◌, ◌<◌, List, length, map, take, Some, slice_get, IfSome};
ghost use Rattle.std.specs.List.{list_any};
ghost use Rattle.version_store.specs.Chained.{latest, Walk};
ghost use Rattle.version_store.specs.HeldChanges.{last_place, is_record, is_standing_rewrite};
ghost use Rattle.version_store.specs.Items.{held_changes, item_hash};
ghost use Rattle.version_store.specs.Hashes.{hash_of as the_hash};

use crate::chains::Chains;
use crate::hash::hash_of;
use crate::item::Item;
use jet_base::TableId;
use std::collections::VecDeque;

/// How many items there are up to the newest one with the record's hash, 0 where none has it.
pub(crate) fn newest_hashed(chains: &Chains, table: TableId, bookmark: &[u8]) -> usize
    ensures { result ≡ latest (the_hash table.0 bookmark.now) chains.now }
{
    if chains.is_empty() {
        0
    } else {
        chains.newest(hash_of(table, bookmark))
    }
}

/// The place of the newest standing put or drop of the record among the items up to `from`, behind an item of the record's hash.
pub(crate) fn newest_standing(
    items: &VecDeque<Item>,
    chains: &Chains,
    from: usize,
    table: TableId,
    bookmark: &[u8],
) -> Option<usize>
    requires hashes { chains.now ≡ map item_hash items.now.items }
    requires walk { Walk (the_hash table.0 bookmark.now) chains.now from }
    ensures place { (rows : List (List ℕ)) → length rows ≡ length items.now.items → result ≡ last_place (is_standing_rewrite table.0 bookmark.now) (take from (held_changes items.now.items rows)) }
    ensures within { IfSome result (λ place. place < from) }
{
    let mut end = from;
    while end > 0 {
        let place = end - 1;
        if items[place].is_standing_rewrite(table, bookmark) {
            return Some(place);
        }
        end = chains.before(place);
    }
    None
}

/// The place of the newest change of the record among the items up to `from`, behind an item of the record's hash.
pub(crate) fn newest_touching(
    items: &VecDeque<Item>,
    chains: &Chains,
    from: usize,
    table: TableId,
    bookmark: &[u8],
) -> Option<usize>
    requires hashes { chains.now ≡ map item_hash items.now.items }
    requires walk { Walk (the_hash table.0 bookmark.now) chains.now from }
    ensures place { (rows : List (List ℕ)) → length rows ≡ length items.now.items → result ≡ last_place (is_record table.0 bookmark.now) (take from (held_changes items.now.items rows)) }
    ensures within { IfSome result (λ place. place < from) }
{
    let mut end = from;
    while end > 0 {
        let place = end - 1;
        if items[place].is_record(table, bookmark) {
            return Some(place);
        }
        end = chains.before(place);
    }
    None
}
