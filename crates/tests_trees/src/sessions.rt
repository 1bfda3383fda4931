//! Live sessions.

use jet_base::{Session, TableId};
use version_cleanup::Sessions;

#[test]
fn sessions_begin_and_end(rt: HostRuntime) {
    let mut sessions = Sessions::new(rt.alloc());
    sessions.enter(Session(9)).expect(&rt, "memory");
    sessions.enter(Session(2)).expect(&rt, "memory");
    sessions
        .open_table(Session(9), TableId(4))
        .expect(&rt, "memory");
    sessions.begin(Session(2), 20);
    sessions.begin(Session(9), 30);
    assert!(&rt; sessions.oldest_begin() == Some(20));
    assert!(&rt; sessions.other_in_transaction(Session(2)));
    sessions.end_transaction(Session(2));
    assert!(&rt; sessions.oldest_begin() == Some(30));
    assert!(&rt; sessions.is_open(TableId(4)));
    sessions.leave(Session(9));
    assert!(&rt; !sessions.is_open(TableId(4)));
    assert!(&rt; sessions.len() == 1);
}
