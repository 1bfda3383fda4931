//! What the first run's volume is told as.

use crate::first_run::{database, first_checkpoint, log, second_checkpoint, stopped};
use jet_volume::MemVolume;
use page_space::Space;
use std::alloc::Global;
use std::process::Abort;
use std::test::*;
use store_core::Store;
use tool_dump::{DatabaseHeader, header, space};

/// The text of the checkpoint that stands on a volume.
fn checkpoint_text(rt: &impl Abort, alloc: Global, volume: MemVolume) -> Vec<u8> {
    match Store::open(alloc, volume) {
        Ok((_found, _bytes, store)) => tool_dump::checkpoint(alloc, store.standing()).expect(
            rt, "memory",
        ),
        Err(_) => Vec::new(alloc),
    }
}

#[test]
fn the_closed_volume_has_its_second_checkpoint(rt: HostRuntime) {
    let alloc = rt.alloc();
    let database = database(&rt, alloc);
    let first = first_checkpoint(&rt, alloc);
    let second = second_checkpoint(&rt, alloc);
    let volume = MemVolume::of_files(alloc, database, first, second, log(&rt, alloc, 5));
    let text = checkpoint_text(&rt, alloc, volume);
    assert!(&rt;
        text.as_slice()
            == b"checkpoint 2\ngeneration 1\noffset 314\nposition 209\npages 3\n".as_slice()
    );
}

#[test]
fn a_new_volume_has_no_checkpoint(rt: HostRuntime) {
    let volume = MemVolume::new(rt.alloc(), Vec::new(rt.alloc()), None);
    let text = checkpoint_text(&rt, rt.alloc(), volume);
    assert!(&rt;
        text.as_slice() == b"checkpoint 0\ngeneration 1\noffset 0\nposition 0\npages 0\n".as_slice()
    );
}

/// The text of the log behind the checkpoint of a volume, which has no entry yet.
fn log_text(rt: &impl Abort, alloc: Global, volume: MemVolume) -> Vec<u8> {
    match Store::open(alloc, volume) {
        Ok((_found, bytes, _store)) => {
            tool_dump::log(alloc, 0, bytes.as_slice()).expect(rt, "memory")
        }
        Err(_) => Vec::new(alloc),
    }
}

static LOG: &[u8] =
    b"1 Enter 1\n2 Schema 1\n3 Schema 1\n4 Schema 1\n5 Schema 1\n6 Open 1\n7 Begin 1\n8 Put 1\n9 Put 1\n10 Commit 1\n";

#[test]
fn the_log_of_the_run_is_told_by_its_entries(rt: HostRuntime) {
    let volume = stopped(&rt, rt.alloc(), log(&rt, rt.alloc(), 5));
    let text = log_text(&rt, rt.alloc(), volume);
    assert!(&rt; text.as_slice() == LOG);
}

#[test]
fn the_header_of_the_closed_volume_is_clean(rt: HostRuntime) {
    let told = DatabaseHeader {
        has_session: false,
        has_entry: false,
        format: 1,
        number: 10,
        tables: 1,
    };
    let text = header(rt.alloc(), &told).expect(&rt, "memory");
    assert!(&rt; text.as_slice() == b"state clean\nformat 1\nnumber 10\ntables 1\n".as_slice());
}

#[test]
fn a_new_volume_has_no_page(rt: HostRuntime) {
    let none = Space::new(rt.alloc());
    let text = space(rt.alloc(), &none, None).expect(&rt, "memory");
    assert!(&rt; text.as_slice() == b"space pages 0 free 0\n".as_slice());
}
