//! Checkpoints that are read: bytes that are changed, files that are cut, and slots that are bad.

use checkpoint::CheckFault::{CheckpointCorrupt, LogSequenceEnd, ReadVerifyFailure};
use checkpoint::{CheckFault, Found, Image, read};
use jet_volume::MemVolume;
use page_image::Page;
use std::alloc::{AllocError, Global};
use std::test::Fail;

/// The file of a first checkpoint: five log entries, generation 1, offset 40, stream position 18, catalog root 3, one
/// page, which is free, a live part of four bytes, and a byte behind it.
const FIRST: [u8; 64] = [
    1, 0x4a, 0x45, 0x54, 0x43, 0x4b, 1, 0, 0, 0, 1, 0, 0, 0, 0, 0, 0, 0, 5, 0, 0, 0, 0, 0, 0, 0, 1,
    0, 0, 0, 0, 0, 0, 0, 40, 0, 0, 0, 18, 0, 0, 0, 0, 0, 0, 0, 3, 0, 0, 0, 1, 0, 0, 0, 2, 4, 0, 0,
    0, 9, 8, 7, 6, 77,
];

/// The number of the checkpoint that stands, 0 on a new volume.
fn number_on(
    alloc: Global,
    database: Vec<u8>,
    checkpoint_a: Vec<u8>,
    checkpoint_b: Vec<u8>,
    log: Vec<u8>,
) -> Result<u64, CheckFault> {
    let mut volume = MemVolume::of_files(alloc, database, checkpoint_a, checkpoint_b, log);
    match read(alloc, &mut volume) {
        Ok((_found, standing)) => Ok(standing.number),
        Err(fault) => Err(fault),
    }
}

/// The first bytes of the file, with other bytes at some places.
fn edited(alloc: Global, len: usize, edits: &[(usize, u8)]) -> Result<Vec<u8>, AllocError> {
    let mut bytes = FIRST.to_vec(alloc)?;
    for (place, value) in edits {
        if let Some(byte) = bytes.get_mut(*place) {
            *byte = *value;
        }
    }
    bytes.truncate(len);
    Ok(bytes)
}

/// The number on a volume that has only this as its first file.
fn number_in(alloc: Global, edits: &[(usize, u8)]) -> Result<Result<u64, CheckFault>, AllocError> {
    let file = edited(alloc, 64, edits)?;
    let none = Vec::new(alloc);
    Ok(number_on(alloc, Vec::new(alloc), file, none, Vec::new(alloc)))
}

/// The image that was found.
fn image_in(found: Found) -> Option<Image> {
    match found {
        Found::Old(image) => Some(image),
        Found::New => None,
    }
}

#[test]
fn an_image_is_read(rt: HostRuntime) -> Result<(), Fail> {
    let alloc = rt.alloc();
    let page = Page::empty(0, 1).bytes().to_vec(alloc)?;
    let file = edited(alloc, 64, &[(54, 0)])?;
    let mut volume = MemVolume::of_files(alloc, page, file, Vec::new(alloc), Vec::new(alloc));
    let (found, standing) = read(alloc, &mut volume)?;
    let image = image_in(found).ok_or("no image")?;
    assert_eq!(rt; (image.number, image.catalog_root), (5, 3));
    assert_eq!(rt; image.live.as_slice(), [9, 8, 7, 6].as_slice());
    assert_eq!(rt; image.slots.as_slice(), [0].as_slice());
    assert_eq!(rt; (image.pages.len(), standing.pages.len()), (1, 1));
    assert_eq!(rt; (standing.number, standing.format), (1, 1));
    let start = standing.start;
    assert_eq!(rt;
        (start.generation, start.offset, start.position),
        (1, 40, 18)
    );
    Ok(())
}

#[test]
fn each_field_is_checked(rt: HostRuntime) -> Result<(), Fail> {
    let alloc = rt.alloc();
    let corrupt = Err(CheckpointCorrupt);
    let table: [(&[(usize, u8)], Result<u64, CheckFault>); 13] = [
        (&[], Ok(1)),
        (&[(0, 2)], Ok(0)),
        (&[(5, 0x6b)], corrupt),
        (&[(6, 2)], corrupt),
        (&[(10, 0)], corrupt),
        (&[(10, 2)], corrupt),
        (&[(26, 0)], corrupt),
        (&[(34, 0), (36, 16)], corrupt),
        (&[(34, 255), (35, 255), (36, 15)], Ok(1)),
        (&[(50, 7)], corrupt),
        (&[(54, 3)], corrupt),
        (&[(55, 5)], Ok(1)),
        (&[(55, 6)], corrupt),
    ];
    for (edits, want) in table {
        assert_eq!(rt; number_in(alloc, edits)?, want);
    }
    Ok(())
}

// The limit is 2^62. Of two causes the earlier one is answered.
#[test]
fn numbers_that_end_are_refused(rt: HostRuntime) -> Result<(), Fail> {
    let alloc = rt.alloc();
    let ends = Err(LogSequenceEnd);
    let table: [(&[(usize, u8)], Result<u64, CheckFault>); 6] = [
        (&[(17, 0x40)], ends),
        (&[(18, 0), (25, 0x40)], ends),
        (&[(33, 0x40)], ends),
        (&[(38, 0), (45, 0x40)], ends),
        (&[(45, 0x40), (54, 0)], ends),
        (&[(45, 0x40), (55, 6)], Err(CheckpointCorrupt)),
    ];
    for (edits, want) in table {
        assert_eq!(rt; number_in(alloc, edits)?, want);
    }
    Ok(())
}

// Two files, the first whole, and the second of so many bytes and of this number.
#[test]
fn one_of_two_files_is_looked_at(rt: HostRuntime) -> Result<(), Fail> {
    let alloc = rt.alloc();
    for (len, number, want) in [
        (64, 2, Ok(2)),
        (64, 0, Ok(1)),
        (64, 1, Ok(1)),
        (18, 2, Err(CheckpointCorrupt)),
        (18, 0, Ok(1)),
        (17, 0, Err(CheckpointCorrupt)),
        (2, 0, Err(CheckpointCorrupt)),
        (1, 0, Ok(1)),
        (0, 0, Ok(1)),
    ] {
        let a = edited(alloc, 64, &[])?;
        let b = edited(alloc, len, &[(10, number)])?;
        let none = Vec::new(alloc);
        assert_eq!(rt;
            number_on(alloc, Vec::new(alloc), a, b, none),
            want,
            "{len} bytes"
        );
    }
    Ok(())
}

// Both gates closed, and both files cut to nothing.
#[test]
fn a_log_without_a_checkpoint_is_corrupt(rt: HostRuntime) -> Result<(), Fail> {
    let alloc = rt.alloc();
    for len in [0, 64] {
        for (log, want) in [(0, Ok(0)), (1, Err(CheckpointCorrupt))] {
            let a = edited(alloc, len, &[(0, 0)])?;
            let b = edited(alloc, len, &[(0, 2)])?;
            let log = FIRST[..log].to_vec(alloc)?;
            assert_eq!(rt; number_on(alloc, Vec::new(alloc), a, b, log), want);
        }
    }
    Ok(())
}

/// The number on a volume whose checkpoint has one page in slot 0, of which so many bytes are there, one of them changed.
fn number_with_page(
    alloc: Global,
    page: &Page,
    len: usize,
    place: usize,
) -> Result<Result<u64, CheckFault>, AllocError> {
    let file = edited(alloc, 64, &[(54, 0)])?;
    let mut database = page.bytes().to_vec(alloc)?;
    if let Some(byte) = database.get_mut(place) {
        *byte ^= 1;
    }
    database.truncate(len);
    let none = Vec::new(alloc);
    Ok(number_on(alloc, database, file, none, Vec::new(alloc)))
}

#[test]
fn a_bad_slot_is_refused(rt: HostRuntime) -> Result<(), Fail> {
    let alloc = rt.alloc();
    let bad = Err(ReadVerifyFailure);
    for (number, len, place, want) in [
        (0, 4096, 4096, Ok(1)),
        (0, 4096, 4095, bad),
        (0, 4096, 0, bad),
        (0, 4095, 4096, bad),
        (1, 4096, 4096, bad),
    ] {
        let page = Page::empty(number, 1);
        assert_eq!(rt; number_with_page(alloc, &page, len, place)?, want);
    }
    Ok(())
}
