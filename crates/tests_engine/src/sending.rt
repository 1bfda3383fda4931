//! What may go to another thread.

use engine_core::{Engine, LoggedEngine};
use jet_base::Session;
use session_local::Local;
use std::test::*;

/// A value that may go to another thread.
fn sent<T: Send>(value: T) -> T {
    value
}

#[test]
fn an_engine_and_a_session_may_go_to_another_thread(rt: HostRuntime) {
    let engine = sent(LoggedEngine::new(rt.alloc(), Engine::new(rt.alloc(), 1_000_000)));
    let local = sent(Local::new(Session(7)));
    assert!(rt; engine.number() == 0 && local.session() == Session(7));
}
