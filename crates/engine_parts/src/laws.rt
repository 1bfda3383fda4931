//! Laws of what a session reads of the tables that the engine holds.

ghost use Rattle.std.specs.Prelude.{◌≡◌, ◌≤◌, ℕ, List, Some, IsTrue, is_some};
ghost use Rattle.column_set.specs.RecordValues.{RecordFields, record_fits, record_size};
ghost use Rattle.database_state.specs.State.{DatabaseState};
ghost use Rattle.session_local.specs.Local.{LocalState, OpenCursor, cursor_labelled};
ghost use Rattle.laws_engine.specs.InStep.{IsInStep};
ghost use Rattle.laws_engine.specs.EngineState.{EngineState};
ghost use Rattle.laws_engine.specs.HoldsState.{HoldsState};
ghost use Rattle.engine_parts.specs.HeldLaws.{SeesEntries, SeesRecords, SeesRows};
ghost use Rattle.engine_parts.specs.Reading.{record_for};

use laws_engine::{
    a_reader_finds_the_records_that_it_is_shown, a_reader_is_shown_records_with_unseen_sums,
    a_reader_is_shown_the_entries_of_its_view, a_session_views_its_very_record,
};
use laws_versions::{every_record_seen_holds_numbers, every_record_seen_is_stored};

/// The entries of each index of a cursor's table, and its records, are for the session those of its view. Each record fits its
/// row and its columns. The row that the session is shown tells its record.
pub fn a_session_reads_its_view()
    ensures entries { SeesEntries }
    ensures records { SeesRecords }
    ensures stored { (engine : EngineState) (state : DatabaseState) (session : ℕ) (local : LocalState) (label : ℕ) (c : OpenCursor) → HoldsState engine state → IsInStep state session local → cursor_labelled local label ≡ Some c
        → (bookmark : List ℕ) (values : RecordFields) → record_for engine session c.cursor.table bookmark ≡ Some values → (record_size values ≤ 1700) × IsTrue (record_fits c.schema.columns values) }
    ensures rows { SeesRows }
{
    a_reader_is_shown_the_entries_of_its_view();
    a_session_views_its_very_record();
    a_reader_is_shown_records_with_unseen_sums();
    a_reader_finds_the_records_that_it_is_shown();
    every_record_seen_is_stored();
    every_record_seen_holds_numbers();
}
