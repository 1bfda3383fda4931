//! The bytes of pages, of checkpoint files and of blocks, put together as their formats say.

use page_image::Page;
use std::alloc::Global;
use std::process::Abort;
use std::test::*;

/// A node of a page: its key, and its data, whose length is its extent.
pub type Node = (&'static [u8], &'static [u8]);

/// The bytes of a page of the database.
const PAGE_BYTES: usize = 4096;

/// The numbers of a checkpoint file, of which the log begins in generation 1.
#[derive(Clone, Copy)]
pub struct Numbers {
    pub checkpoint: u64,
    pub entries: u64,
    pub offset: u32,
    pub position: u64,
    pub catalog_root: u32,
}

/// Puts bytes at the end.
pub fn put(rt: &impl Abort, bytes: &mut Vec<u8>, piece: &[u8]) {
    bytes.extend_from_slice(piece).expect(rt, "memory");
}

/// Puts a number of two bytes at the end.
fn put_length(rt: &impl Abort, bytes: &mut Vec<u8>, length: usize) {
    assert!(rt; length < 65_536);
    put(rt, bytes, &(length as u16).to_le_bytes());
}

/// Puts a node at the end.
fn put_node(rt: &impl Abort, bytes: &mut Vec<u8>, node: &Node) {
    let (key, data) = *node;
    put_length(rt, bytes, key.len());
    put_length(rt, bytes, data.len());
    put_length(rt, bytes, data.len());
    put(rt, bytes, key);
    put(rt, bytes, data);
}

/// Puts the checksum into the first word of a page: the exclusive or of all other words.
fn seal(page: &mut [u8]) {
    let mut sum = [0u8; 8];
    for place in 8..page.len() {
        sum[place % 8] ^= page[place];
    }
    for place in 0..page.len().min(8) {
        page[place] = sum[place];
    }
}

/// A page of this kind, 1 for a leaf and 2 for an inner page, with these nodes.
pub fn page(rt: &impl Abort, alloc: Global, number: u32, kind: u8, nodes: &[Node]) -> Vec<u8> {
    let mut bytes = vec![in alloc; 0; 8].expect(rt, "memory");
    put(rt, &mut bytes, &number.to_le_bytes());
    put(rt, &mut bytes, &[kind, 0]);
    put_length(rt, &mut bytes, nodes.len());
    put(rt, &mut bytes, &[0; 16]);
    for place in 0..nodes.len() {
        put_node(rt, &mut bytes, &nodes[place]);
    }
    bytes.resize(PAGE_BYTES, 0).expect(rt, "memory");
    seal(&mut bytes);
    bytes
}

/// The page of this number that the bytes spell, with a checksum of their own, if they spell one.
pub fn checked(bytes: &[u8], place: usize) -> Option<Page> {
    let mut copy = [0; 4096];
    if bytes.len() != copy.len() {
        return None;
    }
    copy.copy_from_slice(bytes);
    seal(&mut copy);
    match Page::check(copy) {
        Ok(page) if page.number() as usize == place => Some(page),
        _ => None,
    }
}

/// A checkpoint file whose gate is open. Each page stands in one of its two slots, or is free.
pub fn checkpoint(
    rt: &impl Abort,
    alloc: Global,
    numbers: &Numbers,
    slots: &[u8],
    live: &[u8],
) -> Vec<u8> {
    let mut bytes = Vec::new(alloc);
    put(rt, &mut bytes, b"\x01JETCK\x01\0\0\0");
    put(rt, &mut bytes, &numbers.checkpoint.to_le_bytes());
    put(rt, &mut bytes, &numbers.entries.to_le_bytes());
    put(rt, &mut bytes, &1u64.to_le_bytes());
    put(rt, &mut bytes, &numbers.offset.to_le_bytes());
    put(rt, &mut bytes, &numbers.position.to_le_bytes());
    put(rt, &mut bytes, &numbers.catalog_root.to_le_bytes());
    assert!(rt; slots.len() < 1_000 && live.len() < 100_000);
    put(rt, &mut bytes, &(slots.len() as u32).to_le_bytes());
    put(rt, &mut bytes, slots);
    put(rt, &mut bytes, &(live.len() as u32).to_le_bytes());
    put(rt, &mut bytes, live);
    bytes
}

/// Puts an open block of generation 1 over the closed gate at the end of a log, and a closed gate behind it.
pub fn put_block(rt: &impl Abort, log: &mut Vec<u8>, position: u64, payload: &[u8]) {
    let _gate = log.pop();
    put(rt, log, b"\x01\x01\0\0\0\0\0\0\0");
    put(rt, log, &position.to_le_bytes());
    assert!(rt; payload.len() < 65_536);
    put(rt, log, &(payload.len() as u32).to_le_bytes());
    put(rt, log, payload);
    put(rt, log, &[0]);
}
