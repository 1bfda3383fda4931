//! Moves, seeks, ranges and counts at a plain list.

ghost use Rattle.std.specs.Prelude.{◌≡◌};
ghost use Rattle.cursor_nav.specs.MakingKeys.{has_short_keys, rule_of_cursor};

use column_set::{Column, Columns};
use cursor_nav::{Cursor, Moved, SeekBy, SortedEntries};
use index_derive::{IndexEntry, IndexFlags, IndexRule, Place, Schema, Segment};
use jet_base::{ColType, ColumnId, Given, IndexId, Items, Jet, Name, TableId, Way};
use key_normal::Key;
use std::alloc::Global;
use std::process::Abort;
use std::test::*;

/// The key of the `Long` n, ascending.
fn key(n: u8) -> Key {
    Key::from_slice(&[0x7f, 0x80, 0, 0, n])
}

/// A view of the ids, whose bookmarks are their keys; None where they do not rise.
fn ids(rt: &impl Abort, alloc: Global, numbers: &[u8]) -> Option<SortedEntries> {
    let mut entries = Vec::new(alloc);
    for n in numbers {
        let entry = IndexEntry {
            key: key(*n),
            bookmark: key(*n),
        };
        entries.push(entry).expect(rt, "memory");
    }
    SortedEntries::new(entries)
}

/// The view of 10, 20 and 30.
fn three_ids(rt: &impl Abort, alloc: Global) -> SortedEntries {
    ids(rt, alloc, &[10, 20, 30]).expect(rt, "the ids rise")
}

fn columns(rt: &impl Abort, alloc: Global) -> Columns {
    let mut columns = Columns::empty(alloc);
    let column = Column {
        id: ColumnId(1),
        name: Name::new(alloc, "id").expect(rt, "memory"),
        kind: ColType::Long,
        tagged: false,
        multi: false,
        not_null: false,
        escrow: false,
        version: false,
        auto: false,
    };
    columns.push(column).expect(rt, "memory");
    columns
}

const PRIMARY: IndexFlags = IndexFlags {
    primary: true,
    unique: true,
    ..IndexFlags::NONE
};

fn indexes(rt: &impl Abort, alloc: Global) -> Items<IndexRule> {
    let mut segments = Items::empty(alloc);
    let segment = Segment {
        column: ColumnId(1),
        descending: false,
    };
    segments.push(segment).expect(rt, "memory");
    let rule = IndexRule {
        id: IndexId(1),
        name: Name::new(alloc, "pk").expect(rt, "memory"),
        order: 1,
        segments,
        flags: PRIMARY,
        conditions: Items::empty(alloc),
        key_most: 255,
    };
    let mut indexes = Items::empty(alloc);
    indexes.push(rule).expect(rt, "memory");
    indexes
}

/// A table whose primary index has the column id.
fn schema(rt: &impl Abort, alloc: Global) -> Schema {
    Schema {
        columns: columns(rt, alloc),
        indexes: indexes(rt, alloc),
    }
}

/// The reply of a call.
fn reply(answer: Result<Moved, Jet>) -> Jet {
    match answer {
        Ok(moved) => moved.jet,
        Err(jet) => jet,
    }
}

/// Whether keys are made in the current index, as `make_key` asks.
fn has_short_keys(cursor: &Cursor, schema: &Schema) -> bool
    ensures { result ≡ has_short_keys (rule_of_cursor cursor.now schema.now) }
{
    match schema.rule_with_id(cursor.index()) {
        Some(rule) => rule.key_most <= 255,
        None => true,
    }
}

/// Makes the key of the id.
fn make(cursor: &mut Cursor, schema: &Schema, n: i64) -> Jet {
    if has_short_keys(cursor, schema) {
        reply(cursor.make_key(schema, true, &Given::Number(n)))
    } else {
        Jet::InvalidParameter
    }
}

/// Whether the cursor stands on the id.
fn is_on(cursor: &Cursor, n: u8) -> bool {
    *cursor.place() == Place::On(key(n), key(n))
}

/// Seeks of ids: the id, the way, the reply, and the id on which the cursor stands where it found one.
const SEEKS: [(i64, SeekBy, Jet, u8); 11] = [
    (20, SeekBy::Eq, Jet::Success, 20),
    (25, SeekBy::Eq, Jet::RecordNotFound, 0),
    (25, SeekBy::Ge, Jet::SeekNotEqual, 30),
    (30, SeekBy::Ge, Jet::Success, 30),
    (31, SeekBy::Ge, Jet::RecordNotFound, 0),
    (20, SeekBy::Gt, Jet::Success, 30),
    (30, SeekBy::Gt, Jet::RecordNotFound, 0),
    (25, SeekBy::Le, Jet::SeekNotEqual, 20),
    (20, SeekBy::Le, Jet::Success, 20),
    (20, SeekBy::Lt, Jet::Success, 10),
    (10, SeekBy::Lt, Jet::RecordNotFound, 0),
];

/// Seeks with a key, which is used up, and tells the reply and whether the cursor stands on the id then.
fn seek(
    rt: &impl Abort,
    schema: &Schema,
    view: &SortedEntries,
    n: i64,
    by: SeekBy,
    found: u8,
) -> (Jet, bool) {
    let mut cursor = Cursor::new(TableId(1), IndexId(1));
    assert!(rt; make(&mut cursor, schema, n) == Jet::Success);
    let jet = reply(cursor.seek(view, by));
    let is_found = is_on(&cursor, found);
    assert!(rt; reply(cursor.seek(view, by)) == Jet::KeyNotMade);
    (jet, is_found)
}

#[test]
fn seeks_find_what_they_should(rt: HostRuntime) {
    let schema = schema(&rt, rt.alloc());
    let view = three_ids(&rt, rt.alloc());
    for (n, by, jet, found) in SEEKS {
        assert!(&rt;
            seek(&rt, &schema, &view, n, by, found) == (jet, found != 0),
            "the seek of {n}"
        );
    }
}

/// A cursor on 10 with a range up to 20, and 20 itself.
fn ranged(rt: &impl Abort, schema: &Schema, view: &SortedEntries) -> Cursor {
    let mut cursor = Cursor::new(TableId(1), IndexId(1));
    assert!(rt; reply(cursor.move_to(view, Way::First)) == Jet::Success);
    assert!(rt; make(&mut cursor, schema, 20) == Jet::Success);
    assert!(rt; reply(cursor.set_range(view, true, true)) == Jet::Success);
    cursor
}

/// The count of a call; 0 where it is refused.
fn number(answer: Result<Moved, Jet>) -> u64 {
    match answer {
        Ok(moved) => moved.number,
        Err(_) => 0,
    }
}

#[test]
fn a_range_is_counted(rt: HostRuntime) {
    let view = three_ids(&rt, rt.alloc());
    let cursor = ranged(&rt, &schema(&rt, rt.alloc()), &view);
    assert!(&rt; number(cursor.count(&view, Some(9))) == 2);
    assert!(&rt; number(cursor.count(&view, Some(1))) == 1);
}

#[test]
fn a_range_ends_at_its_limit(rt: HostRuntime) {
    let view = three_ids(&rt, rt.alloc());
    let mut cursor = ranged(&rt, &schema(&rt, rt.alloc()), &view);
    assert!(&rt; reply(cursor.move_to(&view, Way::Next)) == Jet::Success);
    assert!(&rt; is_on(&cursor, 20));
    assert!(&rt; reply(cursor.move_to(&view, Way::Next)) == Jet::NoCurrentRecord);
    assert!(&rt; reply(cursor.move_to(&view, Way::Next)) == Jet::Success);
    assert!(&rt; is_on(&cursor, 30));
}

#[test]
fn a_range_that_is_empty_is_refused(rt: HostRuntime) {
    let view = three_ids(&rt, rt.alloc());
    let schema = schema(&rt, rt.alloc());
    let mut cursor = ranged(&rt, &schema, &view);
    cursor.drop_range();
    assert!(&rt; reply(cursor.move_to(&view, Way::Last)) == Jet::Success);
    assert!(&rt; make(&mut cursor, &schema, 5) == Jet::Success);
    assert!(&rt; reply(cursor.set_range(&view, true, false)) == Jet::NoCurrentRecord);
}

/// Moves in an empty index, and the place after each.
const MOVES: [(Way, Place); 4] = [
    (Way::First, Place::Before),
    (Way::Last, Place::After),
    (Way::Next, Place::After),
    (Way::Previous, Place::Before),
];

#[test]
fn an_empty_index_has_no_entry(rt: HostRuntime) {
    let mut cursor = Cursor::new(TableId(1), IndexId(1));
    let view = ids(&rt, rt.alloc(), &[]).expect(&rt, "no id");
    for (way, place) in MOVES {
        assert!(&rt; reply(cursor.move_to(&view, way)) == Jet::NoCurrentRecord);
        assert!(&rt; *cursor.place() == place);
    }
    assert!(&rt; reply(cursor.set_index(&view, IndexId(2))) == Jet::Success);
    assert!(&rt; reply(cursor.key(&view)) == Jet::NoCurrentRecord);
}

#[test]
fn bookmarks_are_gone_to(rt: HostRuntime) {
    let mut cursor = Cursor::new(TableId(1), IndexId(1));
    let view = three_ids(&rt, rt.alloc());
    assert!(&rt; reply(cursor.goto(&view, b"")) == Jet::InvalidBookmark);
    assert!(&rt; reply(cursor.goto(&view, key(31).as_bytes())) == Jet::RecordDeleted);
    assert!(&rt; reply(cursor.goto(&view, key(20).as_bytes())) == Jet::Success);
    assert!(&rt; is_on(&cursor, 20));
    assert!(&rt; reply(cursor.bookmark(&view)) == Jet::Success);
}

#[test]
fn entries_that_fall_are_no_view(rt: HostRuntime) {
    assert!(&rt; ids(&rt, rt.alloc(), &[20, 10]).is_none());
}
