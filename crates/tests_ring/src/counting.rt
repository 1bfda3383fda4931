//! How often an append and a scan call the volume, and how many bytes they read and write.

use crate::blocks::{ENTRY, LOG, START, append, of_log};
use jet_io::Failed;
use jet_volume::{File, LogStart, MemVolume, Volume};
use log_ring::{LogRing, scan};
use std::alloc::Global;
use std::process::Abort;
use std::test::*;

/// How often a volume was called, and how many bytes came and went.
#[derive(Clone, Copy, Debug, PartialEq, Eq)]
struct Counts {
    reads: u64,
    bytes_read: usize,
    writes: u64,
    bytes_written: usize,
    syncs: u64,
}

const NONE: Counts = Counts {
    reads: 0,
    bytes_read: 0,
    writes: 0,
    bytes_written: 0,
    syncs: 0,
};

/// A volume whose calls are counted.
#[derive(Drop)]
struct Counted<V: Volume + Drop> {
    volume: V,
    counts: Counts,
}

impl<V: Volume + Drop> Volume for Counted<V> {
    ghost tells_contents = { V.tells_contents };

    ghost seen = { λ v. V.seen v.volume };

    ghost moment = { λ v. V.moment v.volume };

    ghost left_at = { λ v k image. V.left_at v.volume k image };

    ghost faults = { λ v. V.faults v.volume };

    ghost identity = { λ v. V.identity v.volume };

    ghost seen_may_stay = { λ v t. V.seen_may_stay v.volume t };

    fn size(&mut self, file: File) -> Result<u64, Failed> {
        self.volume.size(file)
    }

    fn read(&mut self, file: File, at: u64, into: &mut [u8]) -> Result<usize, Failed> {
        let outcome = self.volume.read(file, at, into);
        self.counts.reads = self.counts.reads.saturating_add(1);
        if let Ok(count) = outcome {
            self.counts.bytes_read = self.counts.bytes_read.saturating_add(count);
        }
        outcome
    }

    fn write_at(&mut self, file: File, at: u64, piece: &[u8]) -> Result<(), Failed> {
        self.counts.writes = self.counts.writes.saturating_add(1);
        self.counts.bytes_written = self.counts.bytes_written.saturating_add(piece.len());
        self.volume.write_at(file, at, piece)
    }

    fn sync(&mut self, file: File) -> Result<(), Failed> {
        self.counts.syncs = self.counts.syncs.saturating_add(1);
        self.volume.sync(file)
    }

    fn faults(&self) -> u64 {
        self.volume.faults()
    }
}

/// What one append of the entry takes at a place of a log.
fn counts_of_append(rt: &impl Abort, alloc: Global, log: &[u8], end: LogStart) -> Counts {
    if end.generation < 1 || end.offset > 1 << 19 {
        return NONE;
    }
    let volume = of_log(rt, alloc, log);
    let mut counted = Counted {
        volume,
        counts: NONE,
    };
    let mut ring = LogRing::at(alloc, end, 1).expect(rt, "memory");
    assert!(rt; append(&mut ring, &mut counted, ENTRY) == Ok(()));
    counted.counts
}

// The 31 bytes of a block behind its gate, and a gate behind it, and then its own gate.
#[test]
fn an_append_behind_a_block_has_two_writes_and_two_syncs(rt: HostRuntime) {
    let end = LogStart {
        generation: 1,
        offset: 30,
        position: 9,
    };
    let counts = counts_of_append(&rt, rt.alloc(), LOG, end);
    assert!(&rt; counts.writes == 2 && counts.bytes_written == 31);
    assert!(&rt; counts.syncs == 2 && counts.reads == 0);
}

// One more write and sync where the gate of a generation is 1 or not in the file, and one where the generation
// after it is not barred. What is read is a gate, and the front of the slot behind.
#[test]
fn an_append_that_begins_a_generation_writes_no_more_than_it_must(rt: HostRuntime) {
    let missing = counts_of_append(&rt, rt.alloc(), &[], START);
    assert!(&rt; missing.syncs == 3 && missing.bytes_written == 32);
    let old = counts_of_append(&rt, rt.alloc(), LOG, START);
    assert!(&rt; old.syncs == 3 && old.bytes_written == 32);
    let free = counts_of_append(&rt, rt.alloc(), &[0], START);
    assert!(&rt; free.syncs == 2 && free.bytes_written == 31);
    assert!(&rt; free.reads == 2 && free.bytes_read == 1);
}

// The generation 9 has the slot of generation 1, so its block there is one of a generation to come.
#[test]
fn an_append_that_begins_a_generation_bars_the_next_one(rt: HostRuntime) {
    let end = LogStart {
        generation: 8,
        offset: 0,
        position: 9,
    };
    let mut log = [0; 31];
    log.copy_from_slice(LOG);
    log[1] = 9;
    let barred = counts_of_append(&rt, rt.alloc(), &log, end);
    assert!(&rt; barred.syncs == 4 && barred.bytes_written == 33);
    let other = counts_of_append(&rt, rt.alloc(), LOG, end);
    assert!(&rt; other.syncs == 3 && other.bytes_written == 32);
}

/// What a scan of a log of so many blocks of the entry takes.
fn counts_of_scan(rt: &impl Abort, alloc: Global, blocks: u32) -> Counts {
    let mut volume = MemVolume::new(alloc, Vec::new(alloc), None);
    let mut ring = LogRing::at(alloc, START, 1).expect(rt, "memory");
    for _ in 0..blocks {
        assert!(rt; append(&mut ring, &mut volume, ENTRY) == Ok(()));
    }
    let mut counted = Counted {
        volume,
        counts: NONE,
    };
    assert!(rt; scan(alloc, &mut counted, START).is_ok());
    counted.counts
}

// A block is read in two parts, its front and its payload. Behind the last one the gate is read, and nothing more is
// in the file.
#[test]
fn a_scan_reads_each_block_once(rt: HostRuntime) {
    for blocks in 0..4 {
        let counts = counts_of_scan(&rt, rt.alloc(), blocks);
        let bytes = if blocks == 0 { 0 } else { 30 * blocks + 1 };
        assert!(&rt; counts.bytes_read == bytes as usize, "{blocks}");
        assert!(&rt; counts.reads == 2 * u64::from(blocks) + 2, "{blocks}");
        assert!(&rt; counts.writes == 0 && counts.syncs == 0, "{blocks}");
    }
}
