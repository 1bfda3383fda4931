//! Scripts, parsed.

use jet_base::{CursorId, Session};
use script_text::{ScriptCalls, ScriptFault, ScriptParser};
use session_local::Request;
use std::alloc::Global;
use std::test::*;

/// Every form of a call, in no order that an engine would serve. Lines 4 and 7 are skipped, and the last line lacks its end.
const SCRIPT: &[u8] = b"1 BeginSession
1 RetrieveKey 1
1 AddColumn Staff id Long notnull
# columns in any place

1 AddColumn Staff name LongText tagged multi
#\xff
1 CreateTable Staff
1 CreateIndex Staff pk +id primary -name disallownull ifnotnull:id
1 CreateIndex Staff other primary unique +name
1 OpenTable 99 Staff
1 CloseTable 99
1 DeleteIndex Staff pk
1 DeleteTable Staff
1 SetCurrentIndex 99
1 SetCurrentIndex 99 pk
1 BeginTransaction
1 PrepareUpdate 1 insert
1 SetColumn 1 id 1 n:-9223372036854775808
1 SetColumn 1 name 0 x:626f62
1 SetColumn 1 name 2 t:bob
1 SetColumn 1 name 3 r:300:00
1 SetColumn 1 name 4 null
1 RetrieveColumn 1 name 2 copy
1 Update 1
1 PrepareUpdate 1 cancel
1 CommitTransaction
1 CommitTransaction lazy
1 Move 1 First
1 Move 1 Last
1 Move 1 Next
1 Move 1 Previous
1 RetrieveColumn 1 name 0
1 RetrieveColumn 1 name 1 max 3
1 RetrieveColumn 1 name 1 copy max 3
1 MakeKey 1 new n:-3
1 MakeKey 1 t:bob
1 Seek 1 EQ
1 Seek 1 LT
1 Seek 1 LE
1 Seek 1 GE
1 Seek 1 GT
1 SetIndexRange 1
1 SetIndexRange 1 upper
1 SetIndexRange 1 inclusive
1 SetIndexRange 1 upper inclusive
1 SetIndexRange 1 remove
1 IndexRecordCount 1
1 IndexRecordCount 1 4294967295
1 GetBookmark 1
1 GotoBookmark 1 x:7f80000001
1 GotoBookmark 1 x:
1 TempOpen 1 unique +Long -Text Binary
1 TempOpen 1 -GUID
1 TempPut 1 n:5 t:a null
1 TempMove 1 First
1 TempRead 1 2
1 TempCount 1
1 TempClose 1
1 IntersectIndexes 1 1 2 99
1 BeginSession
1 RetrieveKey 2";

/// The calls of a whole script.
fn parse(alloc: Global, script: &[u8]) -> Result<ScriptCalls, ScriptFault> {
    ScriptParser::new(alloc)?.finish(script)
}

#[test]
fn a_script_gives_its_calls(rt: HostRuntime) -> Result<(), Fail> {
    let calls = parse(rt.alloc(), SCRIPT).ok().ok_or("the script is read")?;
    let pieces = calls.into_pieces();
    assert_eq!(rt; pieces.len(), 1);
    let calls = &pieces[0];
    assert_eq!(rt; calls.len(), 59);
    assert!(rt; *calls.call(0) == (Session(1), Request::BeginSession));
    let last = Request::RetrieveKey {
        cursor: CursorId(2),
    };
    assert!(rt; *calls.call(58) == (Session(1), last));
    Ok(())
}

#[test]
fn a_call_keeps_the_label_of_its_line(rt: HostRuntime) -> Result<(), Fail> {
    let script = b"2 BeginSession\n99 GetLock 3\n1 Rollback all\n";
    let calls = parse(rt.alloc(), script).ok().ok_or("the script is read")?;
    let pieces = calls.into_pieces();
    assert_eq!(rt; pieces.len(), 1);
    let calls = &pieces[0];
    assert_eq!(rt; calls.len(), 3);
    let lock = Request::GetLock {
        cursor: CursorId(3),
    };
    assert!(rt; *calls.call(0) == (Session(2), Request::BeginSession));
    assert!(rt; *calls.call(1) == (Session(99), lock));
    assert!(rt; *calls.call(2) == (Session(1), Request::Rollback { all: true }));
    Ok(())
}

#[test]
fn the_first_bad_line_is_named(rt: HostRuntime) {
    for (script, line) in [
        (b"2 BeginSession\n100 BeginSession\n".as_slice(), 2),
        (b"1 AddColumn T a LongText\n\n# none\n1 Fly\n1 Fly\n", 4),
        (b"1 PrepareUpdate 1 insert\n1 PrepareUpdate 1 other\n", 2),
        (b"1 BeginSession\r\n", 1),
        (b"\n\n1  BeginSession", 3),
    ] {
        let fault = parse(rt.alloc(), script).err();
        assert_eq!(rt; fault, Some(ScriptFault::BadLine(line)));
    }
}
