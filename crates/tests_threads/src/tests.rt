use crate::run::{two_in_threads, two_in_turns};
use jet_base::Session;
use std::process::Abort;
use std::test::*;

#[test]
fn sessions_take_turns(rt: HostRuntime) -> Result<(), Fail> {
    let ended = two_in_turns(rt.alloc(), Session(1), Session(2))?;
    assert!(rt; ended.agrees);
    assert_eq!(rt;
        (ended.made.0 as usize, ended.made.1 as usize),
        ended.listed
    );
    assert_eq!(rt;
        ended.listed.0.saturating_add(ended.listed.1),
        ended.entries
    );
    assert!(rt; ended.listed.0 > 100 && ended.listed.1 > 100);
    Ok(())
}

#[test]
fn threads_append_under_a_lock(rt: HostRuntime) -> Result<(), Fail> {
    let ended = two_in_threads(&rt, rt.alloc(), Session(7), Session(3))?;
    assert!(rt; ended.agrees);
    assert_eq!(rt; ended.made, (500, 334));
    assert_eq!(rt; ended.listed, (500, 334));
    assert_eq!(rt; ended.entries, 834);
    Ok(())
}
