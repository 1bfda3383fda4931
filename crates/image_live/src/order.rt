//! Whether the held changes of an image follow one another.

ghost use Rattle.std.specs.Prelude.{◌≡◌, ◌+◌, ◌<◌, not, length, List, Some, drop, slice_get, take, IfOk};
ghost use Rattle.std.specs.List.{list_any};
ghost use Rattle.image_findings.specs.LiveFindings.{are_in_order, is_fresh_put, leaves_node, node_under};
ghost use Rattle.image_findings.specs.TableContents.{TableContents};
ghost use Rattle.image_live.specs.Orders.{ArePlaced, all_follow, all_leave, follows, follows_last, leaves};
ghost use Rattle.image_live.specs.TablesRead.{AreTablesOf};
ghost use Rattle.version_store.specs.Answers.{told_change};
ghost use Rattle.version_store.specs.HeldChanges.{HeldChange, is_record};

use crate::apart::are_all_apart;
use crate::changes::{is_drop, is_rewrite};
use crate::levels::all_levels_rise;
use crate::tables::{ImageTables, trees_of};
use jet_base::OutOfMemory;
use std::alloc::Global;
use version_cleanup::Sessions;
use version_store::{ChangeKind, Held, Versions};

impl<'a> ImageTables<'a> {
    /// Whether the changes are in order: each goes on where the one before it of its record left off, the last of a record left what its
    /// node has, those of one record are apart, and the levels of a session's open changes do not fall.
    #[tactic(none)]
    pub(crate) fn are_in_order(
        &self,
        alloc: Global,
        sessions: &Sessions,
        changes: &Versions,
    ) -> Result<bool, OutOfMemory>
        requires tables { (tables : List TableContents) × AreTablesOf self.now tables }
        requires placed { ArePlaced changes.now }
        ensures { IfOk result (λ ordered. (tables : List TableContents) → AreTablesOf self.now tables → ordered ≡ are_in_order tables sessions.now changes.now) }
    {
        if !all_follow(changes) {
            return Ok(false);
        }
        if !self.all_leave(changes) {
            return Ok(false);
        }
        if !all_levels_rise(changes) {
            return Ok(false);
        }
        are_all_apart(alloc, sessions, changes)
    }

    /// Whether the last change of each record left what its node has.
    fn all_leave(&self, changes: &Versions) -> bool
        requires { (tables : List TableContents) × AreTablesOf self.now tables }
        ensures { (tables : List TableContents) → AreTablesOf self.now tables → result ≡ all_leave tables changes.now }
    {
        for place in 0..changes.len() {
            if !self.leaves(changes, place) {
                return false;
            }
        }
        true
    }

    /// Whether the change at a place left what its node has, if it is the last of its record.
    fn leaves(&self, changes: &Versions, place: usize) -> bool
        requires tables { (tables : List TableContents) × AreTablesOf self.now tables }
        requires within { place < length changes.now }
        ensures { (tables : List TableContents) (h : HeldChange) → AreTablesOf self.now tables → slice_get changes.now place ≡ Some h → result ≡ leaves tables h (drop (place + 1) changes.now) }
    {
        if !is_last(changes, place) {
            return true;
        }
        self.leaves_node(changes.change_at(place))
    }

    /// Whether a change left what its node has.
    fn leaves_node(&self, change: Held<'_>) -> bool
        requires { (tables : List TableContents) × AreTablesOf self.now tables }
        ensures { (tables : List TableContents) → AreTablesOf self.now tables → result ≡ leaves_node change.entry.kind (node_under tables (told_change change.entry)) }
    {
        let Some(trees) = trees_of(self.trees, change.table) else {
            return true;
        };
        match trees.nodes.get(self.space, change.bookmark) {
            Some(row) => left_so(change.kind, row),
            None => true,
        }
    }
}

/// Whether a change left this data of a node: a drop none, and any other some.
fn left_so(kind: ChangeKind, row: &[u8]) -> bool
    ensures { result ≡ leaves_node kind (Some row.now) }
{
    if row.is_empty() {
        return is_drop(kind);
    }
    !is_drop(kind)
}

/// Whether no later change is of the record of the change at a place.
fn is_last(changes: &Versions, place: usize) -> bool
    requires { place < length changes.now }
    ensures { (h : HeldChange) → slice_get changes.now place ≡ Some h → result ≡ not (list_any (is_record h.table h.bookmark) (drop (place + 1) changes.now)) }
{
    let change = changes.change_at(place);
    let Some(newest) = changes.newest_change(change.table, change.bookmark) else {
        return true;
    };
    newest <= place
}

/// Whether each change goes on where the one before it of its record left off.
fn all_follow(changes: &Versions) -> bool
    ensures { result ≡ all_follow changes.now }
{
    for place in 0..changes.len() {
        if !follows_last(changes, place) {
            return false;
        }
    }
    true
}

/// Whether the change at a place goes on where the one before it of its record left off, if there is one.
fn follows_last(changes: &Versions, place: usize) -> bool
    requires { place < length changes.now }
    ensures { (h : HeldChange) → slice_get changes.now place ≡ Some h → result ≡ follows_last (take place changes.now) h }
{
    let Some(older) = changes.older_change(place) else {
        return true;
    };
    follows(changes.change_at(older), changes.change_at(place))
}

/// Whether the later of two changes puts a record that was not there, exactly where the earlier dropped it.
fn follows(earlier: Held<'_>, later: Held<'_>) -> bool
    ensures { result ≡ follows (told_change earlier.entry) (told_change later.entry) }
{
    if is_drop(earlier.kind) {
        return is_fresh_put(later);
    }
    !is_fresh_put(later)
}

/// Whether a change puts a record that was not there.
fn is_fresh_put(change: Held<'_>) -> bool
    ensures { result ≡ is_fresh_put (told_change change.entry) }
{
    is_rewrite(change.kind) && change.before.is_none()
}
