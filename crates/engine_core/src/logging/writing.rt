//! The bytes of a step.

ghost use Rattle.std.specs.Prelude.{◌≡◌, ◌≤◌, ◌<◌, ◌+◌, ◌^◌, Some, length, IsTrue};
ghost use Rattle.index_derive.specs.declared.log.Step.TheVariants.{Alone};
ghost use Rattle.index_derive.specs.Steps.{entries_of_step};
ghost use Rattle.log_grammar.specs.EntryBytes.{entry_bytes};
ghost use Rattle.log_grammar.specs.EntryStreams.{stream_bytes};
ghost use Rattle.entry_log.specs.LogState.{appended, stream_end};
ghost use Rattle.loggable_steps.specs.Loggable.{is_label, is_loggable, made_by};
ghost use Rattle.engine_core.specs.Ends.{begun_bytes, ended_bytes};

use entry_log::EntryLog;
use index_derive::{Entry, EntryKind, Step};
use jet_base::Session;
use log_record::entry_size;

/// The bytes of an entry without fields.
pub(crate) const PLAIN_BYTES: usize = 9;

/// The bytes of an entry that has a table alone.
pub(crate) const TABLE_BYTES: usize = 13;

/// The entry of a step that is not its begin or its commit.
pub(crate) fn made_by(step: &Step) -> &Entry
    ensures { result.now ≡ made_by step.now }
{
    match step {
        Step::One(made) => made,
        Step::Alone(made) => made,
    }
}

/// Whether the session that takes a step has a label, 1 to 99.
pub fn has_label(step: &Step) -> bool
    ensures { result ≡ is_label (made_by step.now).session.0 }
{
    let label = made_by(step).session.0;
    1 <= label && label <= 99
}

/// How many bytes the entries of a step have.
pub(crate) fn step_size(step: &Step) -> usize
    requires { IsTrue (is_loggable (made_by step.now)) }
    ensures value { result ≡ length (stream_bytes (entries_of_step (Some step.now))) }
    ensures small { result < 2 ^ 27 + 18 }
{
    match step {
        Step::One(made) => entry_size(made),
        Step::Alone(made) => PLAIN_BYTES + entry_size(made) + PLAIN_BYTES,
    }
}

/// The entry of the session that has no field.
fn plain(session: Session, kind: EntryKind) -> Entry
    ensures { result ≡ record { session = session; kind = kind } }
{
    Entry { session, kind }
}

/// Writes the entries of a step behind the others, in the room that is there.
pub(crate) fn write(log: &mut EntryLog, step: &Step)
    requires loggable { IsTrue (is_loggable (made_by step.now)) }
    requires room { length (stream_bytes (entries_of_step (Some step.now))) ≤ log.old.room }
    requires position { stream_end log.old.stream + length (stream_bytes (entries_of_step (Some step.now))) < 2 ^ 64 }
    ensures stream { log.new.stream ≡ appended (stream_bytes (entries_of_step (Some step.now))) log.old.stream }
    ensures room { log.old.room ≤ log.new.room + length (stream_bytes (entries_of_step (Some step.now))) }
{
    match step {
        Step::One(made) => log.append(made),
        Step::Alone(made) => write_alone(log, made),
    }
}

/// Writes an entry between a begin and a commit.
fn write_alone(log: &mut EntryLog, made: &Entry)
    requires loggable { IsTrue (is_loggable made.now) }
    requires room { 18 + length (entry_bytes made.now) ≤ log.old.room }
    requires position { stream_end log.old.stream + (18 + length (entry_bytes made.now)) < 2 ^ 64 }
    ensures stream { log.new.stream ≡ appended (stream_bytes (entries_of_step (Some (Alone made.now)))) log.old.stream }
    ensures room { log.old.room ≤ log.new.room + (18 + length (entry_bytes made.now)) }
{
    let begin = plain(made.session, EntryKind::Begin);
    let commit = plain(made.session, EntryKind::Commit);
    log.append(&begin);
    log.append(made);
    log.append(&commit);
}

/// The bytes by which what an entry begins is to end.
fn begun_bytes(kind: &EntryKind) -> usize
    ensures value { result ≡ begun_bytes kind.now }
    ensures small { result ≤ 13 }
{
    match kind {
        EntryKind::Enter | EntryKind::Begin | EntryKind::Save => PLAIN_BYTES,
        EntryKind::Open(_) => TABLE_BYTES,
        _ => 0,
    }
}

/// The bytes of an entry that ends something.
fn ended_bytes(kind: &EntryKind) -> usize
    ensures { result ≡ ended_bytes kind.now }
{
    match kind {
        EntryKind::Leave
        | EntryKind::Release
        | EntryKind::Undo
        | EntryKind::UndoAll
        | EntryKind::Commit => PLAIN_BYTES,
        EntryKind::Shut(_) => TABLE_BYTES,
        _ => 0,
    }
}

/// Room that is enough for all ends once a step is made.
pub(crate) fn ends_after(ends: usize, step: &Step) -> usize
    requires few { ends < 2 ^ 40 }
    requires there { ended_bytes (made_by step.now).kind ≤ ends + begun_bytes (made_by step.now).kind }
    ensures { result + ended_bytes (made_by step.now).kind ≡ ends + begun_bytes (made_by step.now).kind }
{
    let kind = &made_by(step).kind;
    ends + begun_bytes(kind) - ended_bytes(kind)
}
