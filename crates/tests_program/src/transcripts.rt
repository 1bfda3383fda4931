//! Transcript lines of the greatest and the least numbers.

use jet_base::{CursorId, Jet, Session};
use script_transcript::Transcript;
use session_local::{Reply, Request, Value};
use std::test::*;

#[test]
fn a_transcript_keeps_its_room(rt: HostRuntime) -> Result<(), Fail> {
    let mut transcript = Transcript::new(rt.alloc());
    transcript.make_room().ok().ok_or("there is memory")?;
    let reply = Reply {
        jet: Jet::Success,
        value: Value::Bytes(3, 3),
    };
    let request = Request::RetrieveKey {
        cursor: CursorId(7),
    };
    transcript.line(
        18_446_744_073_709_551_615,
        Session(99),
        &request,
        &reply,
        &[0x7f, 0x80, 0x0a, 1],
    );
    assert_eq!(rt;
        transcript.text(),
        b"18446744073709551615 99 RetrieveKey JET_errSuccess x:7f800a\n".as_slice()
    );
    transcript.clear();
    let reply = Reply {
        jet: Jet::Success,
        value: Value::Number(-9_223_372_036_854_775_808),
    };
    transcript.line(0, Session(1), &Request::BeginSession, &reply, &[]);
    assert_eq!(rt;
        transcript.text(),
        b"0 1 BeginSession JET_errSuccess n:-9223372036854775808\n".as_slice()
    );
    Ok(())
}
