//! A session's own state, at calls that no script has.

ghost use Rattle.std.specs.Prelude.{◌≡◌, true, IsTrue};
ghost use Rattle.session_local.specs.BuiltCalls.{is_built_call};
ghost use Rattle.session_local.specs.Deciding.{CopiedFits, decided_in};
ghost use Rattle.session_local.specs.WellFormed.{IsWellFormed, is_well_formed_copy, is_well_formed_table};

use column_set::{Column, Columns};
use index_derive::{Entry, EntryKind, Schema, Step};
use jet_base::{ColType, ColumnId, CursorId, Given, Items, Jet, Name, Prepare, Session, TableId};
use session_local::{
    Buffers, Decision, Local, Reply, Request, Value, finish, finish_keeps_well_formed, is_local,
    is_well_formed, local_step,
};
use std::alloc::Global;
use std::process::Abort;
use std::test::*;

/// What is decided where a call has one entry and no more.
fn decided(kind: EntryKind) -> Decision {
    Decision {
        step: Some(Step::One(Entry {
            session: Session(1),
            kind,
        })),
        reply: Reply {
            jet: Jet::Success,
            value: Value::Nothing,
        },
        table: None,
        copied: None,
        temp: None,
        buffers: None,
        flush: false,
    }
}

/// A session that is begun.
fn begun(rt: &impl Abort, alloc: Global) -> Local
    ensures { IsWellFormed result.state }
{
    let mut local = Local::new(Session(1));
    let mut decision = decided(EntryKind::Enter);
    decision.buffers = Some(Buffers::take(alloc).expect(rt, "memory"));
    finish(&mut local, &Request::BeginSession, decision);
    local
}

#[test]
fn a_session_begins_and_ends(rt: HostRuntime) {
    assert!(&rt; Local::new(Session(1)).reply().is_empty());
    let mut local = begun(&rt, rt.alloc());
    assert!(&rt; local.session() == Session(1));
    assert!(&rt; local.reply().is_empty());
    finish(&mut local, &Request::EndSession, decided(EntryKind::Leave));
    assert!(&rt; local.reply().is_empty());
}

#[test]
fn a_session_that_was_not_begun_does_not_end(rt: HostRuntime) {
    let mut local = Local::new(Session(1));
    let end = local_step(&mut local, &Request::EndSession).expect(&rt, "memory");
    assert!(&rt; end.expect(&rt, "a local call").jet == Jet::InvalidSesid);
}

#[test]
fn local_calls_are_told_from_the_others(rt: HostRuntime) {
    let insert = prepare_insert();
    let close = Request::CloseTable {
        cursor: CursorId(7),
    };
    assert!(rt; is_local(&insert, Jet::Success));
    assert!(rt; !is_local(&close, Jet::Success));
    assert!(rt; is_local(&close, Jet::InvalidTableId));
}

fn prepare_insert() -> Request
    ensures { is_built_call result ≡ true }
{
    Request::PrepareUpdate {
        cursor: CursorId(7),
        how: Prepare::Insert,
    }
}

/// Opens a cursor on a table without columns.
fn with_cursor(rt: &impl Abort, alloc: Global, local: &mut Local, label: u32) {
    let mut decision = decided(EntryKind::Open(TableId(3)));
    let schema = Schema {
        columns: Columns::empty(alloc),
        indexes: Items::empty(alloc),
    };
    decision.table = Some((TableId(3), schema));
    let request = Request::OpenTable {
        cursor: CursorId(label),
        table: Name::new(alloc, "load").expect(rt, "memory"),
    };
    finish(local, &request, decision);
}

/// A session with cursors 7 and 9, the first of which was opened twice.
fn with_two_cursors(rt: &impl Abort, alloc: Global) -> Local {
    let mut local = begun(rt, alloc);
    with_cursor(rt, alloc, &mut local, 7);
    with_cursor(rt, alloc, &mut local, 9);
    with_cursor(rt, alloc, &mut local, 7);
    local
}

#[test]
fn cursors_are_opened_once_and_closed(rt: HostRuntime) {
    let mut local = with_two_cursors(&rt, rt.alloc());
    assert!(&rt; local.cursors().len() == 2);
    let close = Request::CloseTable {
        cursor: CursorId(7),
    };
    finish(&mut local, &close, decided(EntryKind::Shut(TableId(3))));
    assert!(&rt; local.cursors().len() == 1);
    assert!(&rt; local.cursor(CursorId(7)).is_none());
}

#[test]
fn an_open_cursor_has_its_label(rt: HostRuntime) {
    let local = with_two_cursors(&rt, rt.alloc());
    match local.cursor(CursorId(9)) {
        Some(cursor) => {
            assert!(&rt; cursor.label() == CursorId(9));
            assert!(&rt; cursor.prepared().is_none());
            assert!(&rt; cursor.schema().indexes.as_slice().is_empty());
        }
        None => assert!(&rt; false),
    }
}

/// A table of one sum.
fn schema_of_a_sum(rt: &impl Abort, alloc: Global) -> Schema {
    let mut columns = Columns::empty(alloc);
    let column = Column {
        id: ColumnId(1),
        name: Name::new(alloc, "sum").expect(rt, "memory"),
        kind: ColType::Long,
        tagged: false,
        multi: false,
        not_null: false,
        escrow: true,
        version: false,
        auto: false,
    };
    columns.push(column).expect(rt, "memory");
    Schema {
        columns,
        indexes: Items::empty(alloc),
    }
}

/// A session with a cursor on that table.
fn with_a_sum(rt: &impl Abort, alloc: Global) -> Local
    ensures { IsWellFormed result.state }
{
    let mut local = begun(rt, alloc);
    let schema = schema_of_a_sum(rt, alloc);
    assert!(rt; is_well_formed(&schema));
    let mut decision = decided(EntryKind::Open(TableId(3)));
    decision.table = Some((TableId(3), schema));
    let request = Request::OpenTable {
        cursor: CursorId(7),
        table: Name::new(alloc, "load").expect(rt, "memory"),
    };
    finish_well_formed(&mut local, &request, decision);
    local
}

/// A session after a call for which this was decided.
fn finish_well_formed(local: &mut Local, request: &Request, decision: Decision)
    requires state { IsWellFormed local.old.state }
    requires table { IsTrue (is_well_formed_table (decided_in decision).table) }
    requires copy { IsTrue (is_well_formed_copy local.old.state request.now (decided_in decision).copied) }
    requires copied { CopiedFits local.old.state request.now decision.copied }
    ensures { IsWellFormed local.new.state }
{
    finish_keeps_well_formed();
    finish(local, request, decision);
}

/// The reply to a local call.
fn answered(rt: &impl Abort, local: &mut Local, request: &Request) -> Reply
    requires well_formed { IsWellFormed local.old.state }
    requires built { is_built_call request.now ≡ true }
    ensures { IsWellFormed local.new.state }
{
    let reply = local_step(local, request).expect(rt, "memory");
    reply.expect(rt, "a local call")
}

/// The sum of the record that is prepared, as it is set.
fn set_sum(rt: &impl Abort, alloc: Global) -> Request
    ensures { is_built_call result ≡ true }
{
    Request::SetColumn {
        cursor: CursorId(7),
        column: Name::new(alloc, "sum").expect(rt, "memory"),
        sequence: 1,
        value: Given::Number(4),
    }
}

fn retrieve_sum(rt: &impl Abort, alloc: Global) -> Request
    ensures { is_built_call result ≡ true }
{
    Request::RetrieveColumn {
        cursor: CursorId(7),
        column: Name::new(alloc, "sum").expect(rt, "memory"),
        sequence: 1,
        copy: true,
        most: 4,
    }
}

#[test]
fn a_sum_is_0_and_not_set(rt: HostRuntime) {
    let mut local = with_a_sum(&rt, rt.alloc());
    assert!(&rt; answered(&rt, &mut local, &prepare_insert()).jet == Jet::Success);
    let set = set_sum(&rt, rt.alloc());
    assert!(&rt; answered(&rt, &mut local, &set).jet == Jet::ColumnNotUpdatable);
    let retrieve = retrieve_sum(&rt, rt.alloc());
    assert!(&rt; answered(&rt, &mut local, &retrieve).value == Value::Number(0));
}
