//! The tables of a catalog that was told, which are made where it is sound.

use catalog_grammar::TableItem;
use column_set::Column;
use image_opening::{OpenFault, ToldCatalog, ToldTable, TreeRoots, sound_catalog};
use index_derive::{IndexFlags, IndexRule, Segment};
use jet_base::{ColType, ColumnId, IndexId, Items, Name, TableId};
use jet_catalog::{GreatestColumns, TableDef};
use std::alloc::Global;
use std::process::Abort;
use std::test::*;

fn name(rt: &impl Abort, alloc: Global, text: &str) -> Name {
    Name::new(alloc, text).expect(rt, "memory")
}

/// A table without columns and indexes.
fn table(rt: &impl Abort, alloc: Global, number: u32, text: &str) -> ToldTable {
    ToldTable {
        table: TableItem {
            id: TableId(number),
            name: name(rt, alloc, text),
            greatest: GreatestColumns {
                fixed: 1,
                variable: 127,
                tagged: 256,
            },
            records: 10,
            long_values: 11,
        },
        columns: Vec::new(alloc),
        indexes: Vec::new(alloc),
    }
}

/// A column, which is tagged where its number is one of a tagged column.
fn column(rt: &impl Abort, alloc: Global, number: u16, text: &str, kind: ColType) -> Column {
    Column {
        id: ColumnId(number),
        name: name(rt, alloc, text),
        kind,
        tagged: number > 255,
        multi: false,
        not_null: false,
        escrow: false,
        version: false,
        auto: false,
    }
}

/// The key of an index over the first column.
fn first_column(rt: &impl Abort, alloc: Global) -> Items<Segment> {
    let mut segments = Items::empty(alloc);
    let segment = Segment {
        column: ColumnId(1),
        descending: false,
    };
    segments.push(segment).expect(rt, "memory");
    segments
}

/// An index over the first column.
fn index(rt: &impl Abort, alloc: Global, number: u16, text: &str, order: u32) -> IndexRule {
    IndexRule {
        id: IndexId(number),
        name: name(rt, alloc, text),
        order,
        segments: first_column(rt, alloc),
        flags: IndexFlags::NONE,
        conditions: Items::empty(alloc),
        key_most: 255,
    }
}

/// The primary index, which was made second.
fn primary(rt: &impl Abort, alloc: Global) -> IndexRule {
    let mut rule = index(rt, alloc, 1, "pk", 2);
    rule.flags.primary = true;
    rule
}

fn add_column(rt: &impl Abort, told: &mut ToldTable, column: Column) {
    told.columns.push(column).expect(rt, "memory");
}

fn add_index(rt: &impl Abort, told: &mut ToldTable, root: u32, rule: IndexRule) {
    told.indexes.push((root, rule)).expect(rt, "memory");
}

/// The table 1 with its first column.
fn people(rt: &impl Abort, alloc: Global) -> ToldTable {
    let mut told = table(rt, alloc, 1, "people");
    add_column(rt, &mut told, column(rt, alloc, 1, "id", ColType::Long));
    told
}

/// The table 1 with two columns and two indexes.
fn indexed_people(rt: &impl Abort, alloc: Global) -> ToldTable {
    let mut told = people(rt, alloc);
    let note = column(rt, alloc, 256, "note", ColType::LongText);
    add_column(rt, &mut told, note);
    add_index(rt, &mut told, 0, primary(rt, alloc));
    add_index(rt, &mut told, 7, index(rt, alloc, 2, "by_id", 1));
    told
}

/// A catalog of two tables, in which 3 is the greatest number that a table was given.
fn catalog(rt: &impl Abort, alloc: Global, first: ToldTable, second: ToldTable) -> ToldCatalog {
    let mut tables = Vec::new(alloc);
    tables.push(first).expect(rt, "memory");
    tables.push(second).expect(rt, "memory");
    ToldCatalog {
        greatest: 3,
        tables,
    }
}

fn has_columns(table: &TableDef) -> bool {
    match table.columns() {
        [id, note] => id.id.0 == 1
            && note.id.0 == 256
            && note.name.as_bytes() == b"note".as_slice()
            && note.tagged,
        _ => false,
    }
}

/// Whether a table has its indexes in the order of their making.
fn has_indexes(table: &TableDef) -> bool {
    match table.indexes() {
        [by_id, pk] => by_id.id.0 == 2 && pk.id.0 == 1 && pk.flags.primary,
        _ => false,
    }
}

fn are_made(tables: &[TableDef]) -> bool {
    match tables {
        [people, notes] => people.id().0 == 1
            && people.name().as_bytes() == b"people".as_slice()
            && has_columns(people)
            && has_indexes(people)
            && notes.id().0 == 3
            && notes.columns().is_empty(),
        _ => false,
    }
}

/// Whether a table has the roots of its trees: a primary index has none.
fn has_roots(roots: &TreeRoots) -> bool {
    match roots.indexes.as_slice() {
        [(index, root)] => index.0 == 2
            && *root == 7
            && (roots.table.0, roots.records, roots.long_values) == (1, 10, 11),
        _ => false,
    }
}

fn are_roots(roots: &[TreeRoots]) -> bool {
    match roots {
        [people, notes] => has_roots(people) && notes.table.0 == 3 && notes.indexes.is_empty(),
        _ => false,
    }
}

/// Whether the two tables of a catalog are made, with the roots of their trees.
fn is_made(alloc: Global, told: &ToldCatalog) -> bool {
    match sound_catalog(alloc, told) {
        Ok((tables, roots)) => are_made(tables.as_slice()) && are_roots(roots.as_slice()),
        Err(_) => false,
    }
}

#[test]
fn the_tables_of_a_sound_catalog_are_made(rt: HostRuntime) {
    let alloc = rt.alloc();
    let notes = table(&rt, alloc, 3, "notes");
    let told = catalog(&rt, alloc, indexed_people(&rt, alloc), notes);
    assert!(&rt; is_made(alloc, &told));
}

/// What is found first of a catalog of these two tables.
fn fault_of(
    rt: &impl Abort,
    alloc: Global,
    first: ToldTable,
    second: ToldTable,
) -> Option<OpenFault> {
    let told = catalog(rt, alloc, first, second);
    sound_catalog(alloc, &told).err()
}

/// What is found first of a catalog with another table of this number and this name.
fn fault_of_other(rt: &impl Abort, alloc: Global, number: u32, text: &str) -> Option<OpenFault> {
    let other = table(rt, alloc, number, text);
    fault_of(rt, alloc, people(rt, alloc), other)
}

#[test]
fn tables_that_no_catalog_has_together_are_found(rt: HostRuntime) {
    let alloc = rt.alloc();
    assert!(&rt; fault_of_other(&rt, alloc, 3, "notes").is_none());
    assert!(&rt; fault_of_other(&rt, alloc, 3, "people") == Some(OpenFault::Catalog));
    assert!(&rt; fault_of_other(&rt, alloc, 4, "notes") == Some(OpenFault::Catalog));
}

/// What is found first of a catalog with a long column more.
fn fault_of_long(rt: &impl Abort, alloc: Global, tagged: bool) -> Option<OpenFault> {
    let mut note = column(rt, alloc, 256, "note", ColType::LongText);
    note.tagged = tagged;
    let mut told = people(rt, alloc);
    add_column(rt, &mut told, note);
    fault_of(rt, alloc, told, table(rt, alloc, 3, "notes"))
}

#[test]
fn a_long_column_that_is_not_tagged_is_found(rt: HostRuntime) {
    let alloc = rt.alloc();
    assert!(&rt; fault_of_long(&rt, alloc, true).is_none());
    assert!(&rt; fault_of_long(&rt, alloc, false) == Some(OpenFault::Catalog));
}

/// What is found first of a catalog with an index of this number.
fn fault_of_index(rt: &impl Abort, alloc: Global, number: u16) -> Option<OpenFault> {
    let mut told = people(rt, alloc);
    add_index(rt, &mut told, 7, index(rt, alloc, number, "by_id", 1));
    fault_of(rt, alloc, told, table(rt, alloc, 3, "notes"))
}

#[test]
fn an_index_without_a_number_is_found(rt: HostRuntime) {
    let alloc = rt.alloc();
    assert!(&rt; fault_of_index(&rt, alloc, 1).is_none());
    assert!(&rt; fault_of_index(&rt, alloc, 0) == Some(OpenFault::Catalog));
}
