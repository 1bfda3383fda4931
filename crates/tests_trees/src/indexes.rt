//! Indexes beside plain marks of which entries they have.

ghost use Rattle.std.specs.Prelude.{◌≡◌, ◌+◌, ◌≤◌, ◌<◌, All, length, slice_index};
ghost use Rattle.index_tree.specs.IndexTrees.{IsIndexTree, entries_of};

use index_derive::{IndexEntry, Place};
use index_tree::{IndexTree, entries_fit_their_space};
use key_normal::Key;
use page_space::Space;
use std::alloc::{AllocError, Global};
use std::process::Abort;

/// How many entries may stand in an index: four bookmarks under each of 80 keys.
const COUNT: usize = 320;

/// One key, in rising order. Its first byte tells how many follow it, so that none begins another.
fn key_of(number: usize) -> Key
    ensures { slice_index result 0 + 1 ≡ length result }
{
    let mut bytes = [(number % 20 * 12) as u8; 256];
    let size = (number / 20 % 4) as u8 * 50 + 1;
    bytes[0] = size;
    Key::from_slice(&bytes[..size as usize + 1])
}

/// One bookmark, in rising order: the least and the greatest that there are, and two between them.
fn bookmark_of(number: usize) -> Key {
    match number % 4 {
        0 => Key::new(),
        1 => Key::from_slice(&[0, 7]),
        2 => Key::from_slice(&[0x80; 9]),
        _ => Key::from_slice(&[0xff; 255]),
    }
}

/// All entries that may stand in an index, in rising order.
fn all_entries(alloc: Global) -> Result<Vec<IndexEntry>, AllocError> {
    let mut entries = Vec::new(alloc);
    for number in 0..COUNT {
        entries.push(IndexEntry {
            key: key_of(number / 4),
            bookmark: bookmark_of(number),
        })?;
    }
    Ok(entries)
}

/// Whether an entry lies beyond a place.
fn is_beyond(place: &Place, entry: &IndexEntry) -> bool {
    match place {
        Place::Before => true,
        Place::After => false,
        Place::On(key, bookmark) => {
            entry.key.cmp(key).is_gt()
                || (entry.key == *key && entry.bookmark.cmp(bookmark).is_gt())
        }
        Place::Gap(key, true) => entry.key.cmp(key).is_gt(),
        Place::Gap(key, false) => entry.key.cmp(key).is_ge(),
    }
}

/// Whether an entry stands on a place itself, neither beyond it nor before it.
fn is_at(place: &Place, entry: &IndexEntry) -> bool {
    match place {
        Place::On(key, bookmark) => entry.key == *key && entry.bookmark == *bookmark,
        _ => false,
    }
}

/// Whether what was found is an entry, or nothing where there is none.
fn is_entry(found: Option<(&[u8], &[u8])>, expected: Option<&IndexEntry>) -> bool {
    match (found, expected) {
        (Some((key, bookmark)), Some(other)) => {
            key == other.key.as_bytes() && bookmark == other.bookmark.as_bytes()
        }
        (None, None) => true,
        _ => false,
    }
}

/// The first marked entry beyond a place.
fn next_of<'a>(
    entries: &'a [IndexEntry],
    marks: &[bool; COUNT],
    place: &Place,
) -> Option<&'a IndexEntry> {
    for (entry, mark) in entries.iter().zip(marks) {
        if *mark && is_beyond(place, entry) {
            return Some(entry);
        }
    }
    None
}

/// The last marked entry before a place.
fn previous_of<'a>(
    entries: &'a [IndexEntry],
    marks: &[bool; COUNT],
    place: &Place,
) -> Option<&'a IndexEntry> {
    let mut last = None;
    for (entry, mark) in entries.iter().zip(marks) {
        if *mark && !is_beyond(place, entry) && !is_at(place, entry) {
            last = Some(entry);
        }
    }
    last
}

/// A key with another one behind it, as far as a key goes.
fn longer(key: &Key, behind: &[u8]) -> Key {
    let mut bytes = [0; 255];
    let mut size = 0;
    for byte in key.as_bytes().iter().chain(behind) {
        if size < 255 {
            bytes[size] = *byte;
            size += 1;
        }
    }
    Key::from_slice(&bytes[..size])
}

/// A key without its last byte.
fn shorter(key: &Key) -> Key {
    match key.as_bytes() {
        [front @ .., _] if front.len() <= 255 => Key::from_slice(front),
        _ => Key::new(),
    }
}

/// A place beside an entry: on it, on bookmarks that no entry has, about its key, about what begins
/// its key, and about what its key begins.
fn place_of(kind: usize, number: usize) -> Place {
    let (key, bookmark) = (key_of(number / 4), bookmark_of(number));
    match kind {
        0 => Place::On(key, bookmark),
        1 => Place::On(key, longer(&bookmark, &[0])),
        2 => Place::On(key, shorter(&bookmark)),
        3 => Place::Gap(key, true),
        4 => Place::Gap(key, false),
        5 => Place::Gap(shorter(&key), true),
        6 => Place::On(shorter(&key), bookmark),
        7 => Place::Gap(longer(&key, bookmark.as_bytes()), false),
        8 => Place::Gap(longer(&key, &[0x40]), true),
        9 => Place::On(longer(&key, &[0, 7, 3]), bookmark),
        10 => Place::On(longer(&key, &[0xff; 3]), Key::new()),
        11 => Place::Before,
        _ => Place::After,
    }
}

/// How many kinds of places there are.
const KINDS: usize = 13;

/// Puts an entry, or takes it out, unless that is done, and says whether it did.
fn change_one(space: &mut Space, index: &mut IndexTree, number: usize, puts: bool) -> bool
    requires index { IsIndexTree space.old index.old }
    requires sized { All (λ entry. slice_index entry.0 0 + 1 ≡ length entry.0) (entries_of space.old index.old) }
    ensures index { IsIndexTree space.new index.new }
    ensures sized { All (λ entry. slice_index entry.0 0 + 1 ≡ length entry.0) (entries_of space.new index.new) }
{
    let (key, bookmark) = (key_of(number / 4), bookmark_of(number));
    let (key, bookmark) = (key.as_bytes(), bookmark.as_bytes());
    if puts && number % 2 == 1 {
        return matches!(index.insert_if_absent(space, key, bookmark), Ok(true));
    }
    if index.has(space, key, bookmark) {
        if puts {
            return false;
        }
        index.remove(space, key, bookmark);
        return true;
    }
    puts && index.insert(space, key, bookmark).is_ok()
}

/// How many pages are taken.
fn taken(space: &Space) -> usize {
    (0..space.len())
        .filter(|page| space.is_taken((*page % 65_536) as u32))
        .count()
}

/// Compares which entries and keys an index has with the marks of its entries.
fn check_entry(
    rt: &impl Abort,
    space: &Space,
    index: &IndexTree,
    marks: &[bool; COUNT],
    number: usize,
)
    requires index { IsIndexTree space.now index.now }
    requires number { number < 320 }
{
    let (key, bookmark) = (key_of(number / 4), bookmark_of(number));
    let has_entry = index.has(space, key.as_bytes(), bookmark.as_bytes());
    assert!(rt; has_entry == marks[number]);
    let first = number / 4 * 4;
    let has_mark = marks[first..first + 4].iter().any(|mark| *mark);
    assert!(rt; index.has_key(space, key.as_bytes()) == has_mark);
    assert!(rt; !index.has_key(space, shorter(&key).as_bytes()));
}

/// Compares what lies after a place and before it with the marks.
fn check_place(
    rt: &impl Abort,
    space: &Space,
    index: &IndexTree,
    entries: &[IndexEntry],
    marks: &[bool; COUNT],
    place: &Place,
)
    requires { IsIndexTree space.now index.now }
{
    let after = index.after(space, place);
    assert!(rt; is_entry(after, next_of(entries, marks, place)));
    let before = index.before(space, place);
    assert!(rt; is_entry(before, previous_of(entries, marks, place)));
}

/// Compares an index with the marks of its entries, at the places beside every so many of them.
fn check_same(
    rt: &impl Abort,
    space: &Space,
    index: &IndexTree,
    entries: &[IndexEntry],
    marks: &[bool; COUNT],
    step: usize,
)
    requires index { IsIndexTree space.now index.now }
    requires step { 1 ≤ step }
{
    for number in (0..COUNT).step_by(step) {
        let number = number % COUNT;
        check_entry(rt, space, index, marks, number);
        for kind in 0..KINDS {
            check_place(rt, space, index, entries, marks, &place_of(kind, number));
        }
    }
}

/// An entry whose node has the same key as another's, cut elsewhere, is not that entry.
fn check_cuts(rt: &impl Abort, space: &Space, index: &IndexTree)
    requires { IsIndexTree space.now index.now }
{
    let key = key_of(0);
    let (whole, bookmark) = (longer(&key, &[0]), [7]);
    assert!(rt; index.has(space, key.as_bytes(), &[0, 7]));
    assert!(rt; !index.has(space, whole.as_bytes(), &bookmark));
    assert!(rt; !index.has_key(space, whole.as_bytes()));
}

/// Puts an entry that is not there, or takes out one that is there, which is done only once, and marks it so.
fn change_and_mark(
    rt: &impl Abort,
    space: &mut Space,
    index: &mut IndexTree,
    marks: &mut [bool; COUNT],
    number: usize,
    puts: bool,
)
    requires index { IsIndexTree space.old index.old }
    requires sized { All (λ entry. slice_index entry.0 0 + 1 ≡ length entry.0) (entries_of space.old index.old) }
    requires number { number < 320 }
    ensures index { IsIndexTree space.new index.new }
    ensures sized { All (λ entry. slice_index entry.0 0 + 1 ≡ length entry.0) (entries_of space.new index.new) }
{
    assert!(rt; change_one(space, index, number, puts));
    assert!(rt; !change_one(space, index, number, puts));
    marks[number] = puts;
}

/// Compares an index with the marks in one of 64 turns.
fn check_at_times(
    rt: &impl Abort,
    space: &Space,
    index: &IndexTree,
    entries: &[IndexEntry],
    marks: &[bool; COUNT],
    turn: usize,
)
    requires { IsIndexTree space.now index.now }
{
    if turn % 64 == 9 {
        check_same(rt, space, index, entries, marks, 23);
    }
}

#[test]
fn an_index_has_the_entries_that_were_put(rt: HostRuntime) {
    let mut space = Space::new(rt.alloc());
    let mut index = IndexTree::new(&mut space).expect(&rt, "memory");
    entries_fit_their_space();
    let entries = all_entries(rt.alloc()).expect(&rt, "memory");
    let mut marks = [false; COUNT];
    check_same(&rt, &space, &index, entries.as_slice(), &marks, 40);
    for turn in 0..COUNT {
        let number = turn * 77 % COUNT;
        change_and_mark(&rt, &mut space, &mut index, &mut marks, number, true);
        check_at_times(&rt, &space, &index, entries.as_slice(), &marks, turn);
    }
    check_same(&rt, &space, &index, entries.as_slice(), &marks, 3);
    check_cuts(&rt, &space, &index);
    assert!(&rt; taken(&space) > 10);
    for turn in 0..COUNT {
        let number = turn * 121 % COUNT;
        change_and_mark(&rt, &mut space, &mut index, &mut marks, number, false);
        check_at_times(&rt, &space, &index, entries.as_slice(), &marks, turn);
    }
    check_same(&rt, &space, &index, entries.as_slice(), &marks, 40);
    assert!(&rt; taken(&space) == 1);
}

/// Whichever allocation fails, an entry that was refused is not there, and all others are.
#[test]
fn a_refused_entry_leaves_the_others(rt: HostRuntime) {
    let mut space = Space::new(rt.alloc());
    let Ok(mut index) = IndexTree::new(&mut space) else {
        return;
    };
    let Ok(entries) = all_entries(rt.alloc()) else {
        return;
    };
    entries_fit_their_space();
    let mut marks = [false; COUNT];
    for turn in 0..60 {
        let number = turn * 77 % COUNT;
        marks[number] = change_one(&mut space, &mut index, number, true);
    }
    check_same(&rt, &space, &index, entries.as_slice(), &marks, 7);
    index.give_back(&mut space);
    assert!(&rt; taken(&space) == 0);
}
