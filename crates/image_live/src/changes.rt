//! Whether the held changes of an image are sound by themselves.

ghost use Rattle.std.specs.Prelude.{◌≡◌, ℕ, [], true, Some, List, slice_get, IfOk};
ghost use Rattle.std.specs.List.{list_all};
ghost use Rattle.database_state.specs.State.{is_undone};
ghost use Rattle.image_contents.specs.RowsRead.{AreReadable, contents_read, values_read};
ghost use Rattle.image_findings.specs.LiveFindings.{adds_to_sum, is_drop, is_sound_before, is_sound_change, is_sound_of};
ghost use Rattle.image_findings.specs.TableContents.{TableContents};
ghost use Rattle.image_live.specs.TablesRead.{AreTablesOf, HasWholeBefore, NamesWholeValues};
ghost use Rattle.version_store.specs.Answers.{told_change};
ghost use Rattle.version_store.specs.HeldChanges.{HeldChange, is_rewrite};
ghost use Rattle.version_store.specs.Items.{state_of};

use crate::placing::is_placed;
use crate::tables::ImageTables;
use image_contents::TableRows;
use jet_base::OutOfMemory;
use jet_catalog::TableDef;
use std::alloc::Global;
use version_cleanup::Sessions;
use version_store::{ChangeKind, Held, Status, Versions};

impl<'a> ImageTables<'a> {
    /// Whether each held change is sound by itself: of an entry that was made, in its place among the sessions, and of a table of the
    /// catalog, with a row before it that may stand there; of an undone one its row before fits the columns, and no more is asked. The
    /// rows before the others name long values that are there.
    pub fn are_sound_changes(
        &self,
        alloc: Global,
        sessions: &Sessions,
        changes: &Versions,
    ) -> Result<bool, OutOfMemory>
        requires { (tables : List TableContents) × (AreTablesOf self.now tables × ((place : ℕ) (h : HeldChange) → slice_get changes.now place ≡ Some h → NamesWholeValues tables h)) }
        ensures { IfOk result (λ sound. (tables : List TableContents) → AreTablesOf self.now tables → sound ≡ list_all (is_sound_change self.now.number tables sessions.now) changes.now) }
    {
        for place in 0..changes.len() {
            match self.is_sound_change(alloc, sessions, changes.change_at(place)) {
                Ok(true) => {}
                Ok(false) => return Ok(false),
                Err(fault) => return Err(fault),
            }
        }
        Ok(true)
    }

    /// Whether a held change is sound by itself.
    fn is_sound_change(
        &self,
        alloc: Global,
        sessions: &Sessions,
        change: Held<'_>,
    ) -> Result<bool, OutOfMemory>
        requires { (tables : List TableContents) × (AreTablesOf self.now tables × NamesWholeValues tables (told_change change)) }
        ensures { IfOk result (λ sound. (tables : List TableContents) → AreTablesOf self.now tables → sound ≡ is_sound_change self.now.number tables sessions.now (told_change change.entry)) }
    {
        if change.number > self.number {
            return Ok(false);
        }
        if !is_placed(self.number, sessions, change) {
            return Ok(false);
        }
        match self.rows_of(change.table) {
            Some(rows) => is_sound_of(alloc, &rows, change),
            None => Ok(false),
        }
    }
}

/// Whether a change of a table is sound: a sum is one of an escrow column, and the row before may stand there.
fn is_sound_of(alloc: Global, rows: &TableRows<'_>, change: Held<'_>) -> Result<bool, OutOfMemory>
    requires readable { AreReadable rows.now }
    requires whole { HasWholeBefore (values_read rows.now) (told_change change) }
    ensures { IfOk result (λ sound. sound ≡ is_sound_of rows.now.number (told_change change.entry) (Some (contents_read rows.now []))) }
{
    if !adds_to_sum(rows.table, change.kind) {
        return Ok(false);
    }
    is_sound_before(alloc, rows, change)
}

/// Whether the row before a change may stand there, or none.
fn is_sound_before(
    alloc: Global,
    rows: &TableRows<'_>,
    change: Held<'_>,
) -> Result<bool, OutOfMemory>
    requires readable { AreReadable rows.now }
    requires whole { HasWholeBefore (values_read rows.now) (told_change change) }
    ensures { IfOk result (λ sound. let h = told_change change.entry in sound ≡ is_sound_before rows.now.number (contents_read rows.now []) h h.before) }
{
    let undone = is_undone(change.status);
    let Some(row) = change.before else {
        return Ok(undone || !is_drop(change.kind));
    };
    if !is_rewrite(change.kind) {
        return Ok(false);
    }
    if undone {
        return Ok(rows.row_fits(row));
    }
    rows.is_row_under(alloc, change.bookmark, row)
}

/// Whether a change is undone.
fn is_undone(status: Status) -> bool
    ensures { result ≡ is_undone (state_of status) }
{
    matches!(status, Status::Undone)
}

/// Whether a sum is one of an escrow column.
fn adds_to_sum(table: &TableDef, kind: ChangeKind) -> bool
    ensures { result ≡ adds_to_sum table.now kind }
{
    match kind {
        ChangeKind::Add(column, _) => match table.column_of(column) {
            Some(column) => column.escrow,
            None => false,
        },
        _ => true,
    }
}

/// Whether a change is a drop.
pub(crate) fn is_drop(kind: ChangeKind) -> bool
    ensures { result ≡ is_drop kind }
{
    matches!(kind, ChangeKind::Drop)
}

/// Whether a change sets or removes the row.
pub(crate) fn is_rewrite(kind: ChangeKind) -> bool
    ensures { result ≡ is_rewrite kind }
{
    matches!(kind, ChangeKind::Put | ChangeKind::Drop)
}
