//! Entries of small records.

mod cases;

ghost use Rattle.std.specs.Prelude.{◌≡◌, ◌≤◌, ◌∷◌, [], true, map, IsOk};
ghost use Rattle.column_set.specs.RecordValues.{values_of};
ghost use Rattle.index_derive.specs.Entries.{entries, is_legal};

use crate::entries::cases::{CASES, Case};
use column_set::{Column, Columns, Values};
use index_derive::derive::{entries, next_entry, yields};
use index_derive::{
    Condition, DeriveFault, IndexFlags, IndexRule, Schema, Segment, entries_rise, legal,
    next_entries_are_entries,
};
use jet_base::{ColType, ColumnId, IndexId, Items, Name};
use key_normal::Key;
use std::alloc::Global;
use std::process::Abort;
use std::test::*;

/// A record with values in columns 256 and 257.
#[derive(Clone, Copy)]
struct Pair<'a> {
    first: &'a [&'a [u8]],
    second: &'a [&'a [u8]],
}

impl<'a> Pair<'a> {
    fn values(&self, column: ColumnId) -> &'a [&'a [u8]]
        ensures { map (λ value. value.now) result.now ≡ values_of ((256, map (λ value. value.now) self.now.first.now) ∷ (257, map (λ value. value.now) self.now.second.now) ∷ []) column.0 }
    {
        match column.0 {
            256 => self.first,
            257 => self.second,
            _ => &[],
        }
    }
}

impl<'a> Values for Pair<'a> {
    ghost fields = { λ pair. (256, map (λ value. value.now) pair.first.now) ∷ (257, map (λ value. value.now) pair.second.now) ∷ [] };

    fn count(&self, column: ColumnId) -> usize {
        self.values(column).len()
    }

    fn value(&self, column: ColumnId, at: usize) -> Option<&[u8]> {
        self.values(column).get(at).copied()
    }
}

/// A column of the type, which may be multi-valued.
fn column(rt: &impl Abort, alloc: Global, id: u16, kind: ColType, multi: bool) -> Column {
    Column {
        id: ColumnId(id),
        name: Name::new(alloc, "column").expect(rt, "memory"),
        kind,
        tagged: true,
        multi,
        not_null: false,
        escrow: false,
        version: false,
        auto: false,
    }
}

/// Columns 256 and 257 of the type, which may be multi-valued.
fn columns(rt: &impl Abort, alloc: Global, kind: ColType, multi: bool) -> Columns {
    let mut columns = Columns::empty(alloc);
    columns
        .push(column(rt, alloc, 256, kind, multi))
        .expect(rt, "memory");
    columns
        .push(column(rt, alloc, 257, kind, multi))
        .expect(rt, "memory");
    columns
}

/// The schema of a table with these columns and no index.
fn schema(rt: &impl Abort, alloc: Global, kind: ColType, multi: bool) -> Schema {
    Schema {
        columns: columns(rt, alloc, kind, multi),
        indexes: Items::empty(alloc),
    }
}

/// Segments over the columns, descending where the flag is set.
fn segments(rt: &impl Abort, alloc: Global, columns: &[(u16, bool)]) -> Items<Segment> {
    let mut segments = Items::empty(alloc);
    for (id, descending) in columns {
        let segment = Segment {
            column: ColumnId(*id),
            descending: *descending,
        };
        segments.push(segment).expect(rt, "memory");
    }
    segments
}

/// Conditions on the columns: that they have no value where the flag is set, else that they have one.
fn conditions(rt: &impl Abort, alloc: Global, columns: &[(u16, bool)]) -> Items<Condition> {
    let mut conditions = Items::empty(alloc);
    for (id, must_be_null) in columns {
        let condition = Condition {
            column: ColumnId(*id),
            must_be_null: *must_be_null,
        };
        conditions.push(condition).expect(rt, "memory");
    }
    conditions
}

/// The rule over these segments under these conditions.
fn rule(
    rt: &impl Abort,
    alloc: Global,
    flags: IndexFlags,
    segments: Items<Segment>,
    conditions: Items<Condition>,
) -> IndexRule {
    IndexRule {
        id: IndexId(1),
        name: Name::new(alloc, "index").expect(rt, "memory"),
        order: 1,
        segments,
        flags,
        conditions,
        key_most: 255,
    }
}

/// Compares the keys with what `yields` and `next_entry` tell, one behind the other.
fn check_keys(rt: &impl Abort, rule: &IndexRule, schema: &Schema, pair: &Pair, keys: &[Key])
    requires legal { is_legal rule.now schema.now ≡ true }
    requires short { rule.now.key_most ≤ 255 }
    requires taken { IsOk (entries rule.now schema.now ((256, map (λ value. value.now) pair.now.first.now) ∷ (257, map (λ value. value.now) pair.now.second.now) ∷ [])) }
{
    let mut after = None;
    for key in keys {
        let next = next_entry(rule, schema, pair, after);
        assert!(rt; next.as_ref() == Some(key) && yields(rule, schema, pair, key));
        after = Some(key);
    }
    assert!(rt; next_entry(rule, schema, pair, after).is_none());
}

/// The keys, which `yields` and `next_entry` tell of too.
fn keys_of(
    rt: &impl Abort,
    alloc: Global,
    rule: &IndexRule,
    schema: &Schema,
    pair: &Pair,
) -> Result<Items<Key>, DeriveFault> {
    assert!(rt; legal(rule, schema) && rule.key_most <= 255);
    match entries(alloc, rule, schema, pair) {
        Ok(keys) => {
            check_keys(rt, rule, schema, pair, keys.as_slice());
            Ok(keys)
        }
        Err(fault) => Err(fault),
    }
}

/// Whether the keys are these bytes.
fn are(keys: &[Key], expected: &[&[u8]]) -> bool {
    keys.len() == expected.len()
        && keys
            .iter()
            .zip(expected.iter())
            .all(|(key, bytes)| key.as_bytes() == *bytes)
}

/// Whether the record has what is expected.
fn holds(rt: &impl Abort, alloc: Global, case: &Case) -> bool {
    let schema = schema(rt, alloc, case.kind, case.multi);
    let segments = segments(rt, alloc, case.columns);
    let conditions = conditions(rt, alloc, case.conditions);
    let rule = rule(rt, alloc, case.flags, segments, conditions);
    let pair = Pair {
        first: case.first,
        second: case.second,
    };
    match keys_of(rt, alloc, &rule, &schema, &pair) {
        Ok(keys) => case.refused.is_none() && are(keys.as_slice(), case.keys),
        Err(fault) => case.refused == Some(fault),
    }
}

#[test]
fn entries_follow_the_rule(rt: HostRuntime) {
    for (i, case) in CASES.iter().enumerate() {
        assert!(&rt; holds(&rt, rt.alloc(), case), "case {i}");
    }
    entries_rise();
    next_entries_are_entries();
}

/// Bytes of which no two starts are alike, and none is a small letter.
fn distinct_starts(rt: &impl Abort, alloc: Global, length: u16) -> Vec<u8>
    requires { length ≤ 4096 }
{
    let mut bytes = Vec::new(alloc);
    for i in 0..length {
        let counter = i / 2;
        let byte = if i % 2 == 0 {
            (counter % 64) as u8
        } else {
            64 + (counter / 64) as u8
        };
        bytes.push(byte).expect(rt, "memory");
    }
    bytes
}

/// Texts of one record, and how many parts of them are keys.
static TEXTS: &[(&[&[u8]], usize)] = &[
    (&[], 0),
    (&[b"ab"], 0),
    (&[b"abc"], 1),
    (&[b"abcdefghij"], 8),
    (&[b"abcdefghijkl"], 10),
    (&[b"ab", b"abcd", b"ABC"], 3),
];

/// The rule of an index on the parts of column 256.
fn rule_of_parts(rt: &impl Abort, alloc: Global) -> IndexRule {
    let flags = IndexFlags {
        tuples: true,
        disallownull: true,
        ..IndexFlags::NONE
    };
    let segments = segments(rt, alloc, &[(256, false)]);
    rule(rt, alloc, flags, segments, Items::empty(alloc))
}

/// How many keys the parts of the texts have.
fn count_of_parts(rt: &impl Abort, alloc: Global, texts: &[&[u8]]) -> usize {
    let schema = schema(rt, alloc, ColType::LongText, true);
    let rule = rule_of_parts(rt, alloc);
    let pair = Pair {
        first: texts,
        second: &[],
    };
    assert!(rt; legal(&rule, &schema) && rule.key_most <= 255);
    match entries(alloc, &rule, &schema, &pair) {
        Ok(keys) => keys.as_slice().len(),
        Err(_) => usize::MAX,
    }
}

#[test]
fn parts_of_texts_are_counted(rt: HostRuntime) {
    for (texts, count) in TEXTS {
        assert!(&rt;
            count_of_parts(&rt, rt.alloc(), texts) == *count,
            "{count} parts"
        );
    }
}

#[test]
fn parts_begin_in_the_first_1024_bytes(rt: HostRuntime) {
    let long = distinct_starts(&rt, rt.alloc(), 1100);
    assert!(&rt; count_of_parts(&rt, rt.alloc(), &[&long]) == 1022);
}

/// The keys of the parts of the texts.
fn keys_of_parts(rt: &impl Abort, alloc: Global, texts: &[&[u8]]) -> Items<Key> {
    let schema = schema(rt, alloc, ColType::LongText, true);
    let rule = rule_of_parts(rt, alloc);
    let pair = Pair {
        first: texts,
        second: &[],
    };
    match keys_of(rt, alloc, &rule, &schema, &pair) {
        Ok(keys) => keys,
        Err(_) => Items::empty(alloc),
    }
}

/// Whether there are so many keys, the first of them of these bytes.
fn begin_with(keys: &[Key], count: usize, bytes: &[u8]) -> bool {
    match keys {
        [first, ..] => keys.len() == count && first.as_bytes() == bytes,
        [] => false,
    }
}

#[test]
fn parts_of_texts_are_keys(rt: HostRuntime) {
    let keys = keys_of_parts(&rt, rt.alloc(), &[b"abcdefghijk", b"XbcdefghijZ"]);
    let first = b"\x7fABCDEFGH\x09IJ\0\0\0\0\0\0\x02";
    assert!(&rt; begin_with(keys.as_slice(), 18, first));
}
