//! Laws: what the engine holds tells what the definitions ask of a state that it holds. The functions do nothing.

ghost use Rattle.engine_parts.specs.HeldLaws.{SeesRecords};
ghost use Rattle.record_decisions.specs.Changing.{TellsConflicts, TellsRoom};
ghost use Rattle.record_decisions.specs.Preparing.{HasFormedRecords};

use engine_parts::{Engine, a_session_reads_its_view};
use laws_engine::{conflicts_are_told, newest_records_are_told};

/// A session is shown the records of its view.
pub(crate) fn sessions_see_their_records()
    ensures { SeesRecords }
{
    a_session_reads_its_view();
}

/// A change meets the same conflicts, and leaves the same room.
pub(crate) fn changes_are_refused_alike()
    ensures conflicts { TellsConflicts }
    ensures room { TellsRoom }
{
    conflicts_are_told();
    newest_records_are_told();
}

/// The columns of a record that a session sees rise, and each has a value.
pub(crate) fn records_are_formed(engine: &Engine)
    ensures { HasFormedRecords engine.now }
{
    engine.tables().seen_records_are_formed();
}
