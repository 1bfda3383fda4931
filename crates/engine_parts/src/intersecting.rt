//! IntersectIndexes.

ghost use Rattle.std.specs.Prelude.{◌≡◌, ◌==◌, [], ◌∷◌, None, Some, true, false, Ok, Err, IfOk, MatchResult, OnOk, length};
ghost use Rattle.std.specs.List.{list_all};
ghost use Rattle.session_local.specs.declared.request.Request.TheVariants as call;
ghost use Rattle.session_local.specs.IntersectCalls.{bookmark_columns, table_of_bookmarks};
ghost use Rattle.session_local.specs.Local.{cursor_labelled};
ghost use Rattle.session_local.specs.LocalCalls.{is_answered_locally};
ghost use Rattle.stored_variants.specs.StoredVersions.{seen_entries};
ghost use Rattle.temp_table.specs.TempRows.{put_row};
ghost use Rattle.engine_parts.specs.Deciding.{Decides, HoldsSession, IsDecision};
ghost use Rattle.engine_parts.specs.Intersecting.{are_of_one_table, common_at, filled_decision, range_at, ranges_behind};
ghost use Rattle.engine_parts.specs.Reading.{has_shown};

use crate::answers::{refused, replied};
use crate::engine::Engine;
use crate::laws::a_session_reads_its_view;
use crate::view::EngineView;
use index_intersect::{IndexRange, intersect};
use jet_base::{ColType, CursorId, Items, Jet, OutOfMemory, TableId};
use key_normal::Key;
use session_local::{Decision, Local, MOST_TEMPS, Reply, Value};
use std::alloc::Global;
use temp_table::{TempColumn, TempFault, TempTable};

impl Engine {
    /// IntersectIndexes with a label that no temporary table has: the bookmarks that lie in the ranges of all the cursors, in a
    /// temporary table of one column. It reads each range once.
    pub fn intersect_indexes(
        &self,
        local: &Local,
        temp: CursorId,
        cursors: &Items<CursorId>,
    ) -> Result<Decision, OutOfMemory>
        requires beside { HoldsSession self.now local.now }
        requires shared { is_answered_locally local.now.state (call.IntersectIndexes temp cursors.now) ≡ false }
        ensures answer { IfOk result (λ decision. Decides self.now local.now (call.IntersectIndexes temp cursors.now) local.now decision) }
        ensures decided { IfOk result (λ decision. IsDecision self.now local.now (call.IntersectIndexes temp cursors.now) local.now decision) }
    {
        a_session_reads_its_view();
        if local.open_temps() >= MOST_TEMPS {
            return Ok(refused(Jet::OutOfCursors));
        }
        let view = self.view(local);
        match common_bookmarks(self.alloc, &view, local, cursors.as_slice()) {
            Ok(Ok(bookmarks)) => filled(self.alloc, bookmarks),
            Ok(Err(jet)) => Ok(refused(jet)),
            Err(fault) => Err(fault),
        }
    }
}

// The bookmarks that lie in the ranges of all the cursors, or the first refusal.
fn common_bookmarks(
    alloc: Global,
    view: &EngineView<'_>,
    local: &Local,
    cursors: &[CursorId],
) -> Result<Result<Vec<Key>, Jet>, OutOfMemory>
    ensures { IfOk result (λ told. MatchResult told
        (λ bookmarks. common_at (seen_entries view.now.reader view.now.tables.now.store) (has_shown view.now.reader view.now.tables.now.store) local.now.state cursors.now ≡ Ok bookmarks.items)
        (λ jet. common_at (seen_entries view.now.reader view.now.tables.now.store) (has_shown view.now.reader view.now.tables.now.store) local.now.state cursors.now ≡ Err jet)) }
{
    match ranges_of(alloc, view, local, cursors) {
        Ok(Ok(ranges)) => {
            if !are_of_one_table(ranges.as_slice()) {
                return Ok(Err(Jet::InvalidParameter));
            }
            let bookmarks = intersect(alloc, view, ranges.as_slice())?;
            Ok(Ok(bookmarks))
        }
        Ok(Err(jet)) => Ok(Err(jet)),
        Err(fault) => Err(fault),
    }
}

// The ranges of the cursors, each on a record that is there, or the first refusal.
fn ranges_of(
    alloc: Global,
    view: &EngineView<'_>,
    local: &Local,
    cursors: &[CursorId],
) -> Result<Result<Items<IndexRange>, Jet>, OutOfMemory>
    ensures { IfOk result (λ told. told ≡ ranges_behind (has_shown view.now.reader view.now.tables.now.store) local.now.state [] cursors.now) }
{
    let mut ranges = Items::empty(alloc);
    for label in cursors {
        match range_at(view, local, *label) {
            Ok(range) => ranges.push(range)?,
            Err(jet) => return Ok(Err(jet)),
        }
    }
    Ok(Ok(ranges))
}

// The range of the cursor with this label.
fn range_at(view: &EngineView<'_>, local: &Local, label: CursorId) -> Result<IndexRange, Jet>
    ensures { result ≡ range_at (has_shown view.now.reader view.now.tables.now.store) (cursor_labelled local.now.state label.0) }
{
    let Some(found) = local.cursor(label) else {
        return Err(Jet::InvalidTableId);
    };
    let cursor = found.cursor();
    match cursor.bookmark(view) {
        Ok(_) => Ok(IndexRange::of_cursor(cursor)),
        Err(jet) => Err(jet),
    }
}

// Whether all ranges are of one table.
fn are_of_one_table(ranges: &[IndexRange]) -> bool
    ensures { result ≡ are_of_one_table ranges.now }
{
    match ranges {
        [first, others @ ..] => are_of(first.table, others),
        [] => true,
    }
}

// Whether all ranges are of this table.
fn are_of(table: TableId, ranges: &[IndexRange]) -> bool
    ensures { result ≡ list_all (λ range. range.table.0 == table.0) ranges.now }
{
    ranges.iter().all(|range| range.table.0 == table.0)
}

// The decision of a table that is filled with bookmarks.
fn filled(alloc: Global, bookmarks: Vec<Key>) -> Result<Decision, OutOfMemory>
    ensures { IfOk result (λ decision. decision ≡ filled_decision (table_of_bookmarks bookmarks.items) (length bookmarks.items)) }
{
    let count = bookmarks.len() as u64;
    let table = table_of(alloc, bookmarks.as_slice())?;
    let mut decision = replied(Reply {
        jet: Jet::Success,
        value: Value::Count(count),
    });
    decision.temp = Some(table);
    Ok(decision)
}

// A temporary table of one rising column of bytes, with a row for each bookmark.
fn table_of(alloc: Global, bookmarks: &[Key]) -> Result<TempTable, OutOfMemory>
    ensures { IfOk result (λ table. table ≡ table_of_bookmarks bookmarks.now) }
{
    let columns = bookmark_columns(alloc)?;
    let mut table = TempTable::open(alloc, columns, false)?;
    for bookmark in bookmarks {
        put(&mut table, bookmark)?;
    }
    Ok(table)
}

// The column.
fn bookmark_columns(alloc: Global) -> Result<Vec<TempColumn>, OutOfMemory>
    ensures { IfOk result (λ columns. columns.items ≡ bookmark_columns) }
{
    let mut columns = Vec::with_capacity(alloc, 1)?;
    columns.push(TempColumn {
        kind: ColType::Binary,
        is_key: true,
        descending: false,
    })?;
    Ok(columns)
}

// Puts a row of one bookmark. Its one error is want of memory.
fn put(table: &mut TempTable, bookmark: &Key) -> Result<(), OutOfMemory>
    requires columns { table.old.columns ≡ bookmark_columns }
    requires many { table.old.unique ≡ false }
    ensures { OnOk result (table.new ≡ put_row table.old (Some bookmark.now ∷ [])) }
{
    match table.put(&[Some(bookmark.as_bytes())]) {
        Ok(()) => Ok(()),
        Err(TempFault::OutOfMemory) => Err(OutOfMemory),
        Err(TempFault::TooBig | TempFault::Double) => unreachable!(),
    }
}
