//! The catalog that its own calls made, of as many tables as an engine has, and of one more.

ghost use Rattle.catalog_record.specs.CatalogTrees.{IsCatalogTree};

use catalog_record::{CatalogTree, NodeBuffer};
use image_opening::{
    OpenFault, ToldCatalog, ToldTable, open_catalog, open_told, open_trees, unmarked_page,
};
use jet_base::{Name, TableId};
use jet_catalog::GreatestColumns;
use log_record::name_fits;
use page_space::Space;
use std::alloc::Global;
use std::process::Abort;
use std::test::*;

/// A name so long that the tables need several pages. All of them have it: whether they are sound is not asked.
static NAME: &[u8] = b"a_table_whose_name_has_as_many_bytes_as_a_name_has_in_this_test";

/// Writes the node of a table, whose roots are told by its number.
fn write(rt: &impl Abort, alloc: Global, number: u32, node: &mut NodeBuffer) {
    let name = Name::from_slice(alloc, NAME).expect(rt, "memory");
    assert!(rt; name_fits(&name));
    let greatest = GreatestColumns {
        fixed: 0,
        variable: 127,
        tagged: 255,
    };
    node.write_table(TableId(number), &name, &greatest, u32::MAX - number, number);
}

/// Puts the node of a table behind the others, and its number as the greatest.
fn add_table(
    rt: &impl Abort,
    alloc: Global,
    space: &mut Space,
    catalog: &mut CatalogTree,
    number: u32,
)
    requires { IsCatalogTree space.old catalog.old }
    ensures { IsCatalogTree space.new catalog.new }
{
    let mut node = NodeBuffer::new();
    write(rt, alloc, number, &mut node);
    assert!(rt; catalog.get(space, node.key()).is_none());
    catalog.add(space, &node).expect(rt, "memory");
    node.write_greatest(number);
    assert!(rt; catalog.extent(space, node.key()) == Some(node.data().len()));
    catalog.replace(space, &node);
}

/// A space with a catalog of so many tables, and its root page.
fn catalog_of(rt: &impl Abort, alloc: Global, count: u32) -> (Space, u32) {
    let mut space = Space::new(alloc);
    let mut catalog = CatalogTree::new(&mut space).expect(rt, "memory");
    for number in 1..=count {
        add_table(rt, alloc, &mut space, &mut catalog, number);
    }
    (space, catalog.root())
}

/// Whether the table with this number is told.
fn is_told(told: &ToldTable, number: usize) -> bool {
    let table = &told.table;
    table.id.0 as usize == number
        && table.name.as_bytes() == NAME
        && (table.records, table.long_values) == (u32::MAX - table.id.0, table.id.0)
}

/// Whether so many tables are told, in order.
fn are_told(catalog: &ToldCatalog, count: u32) -> bool {
    let tables = catalog.tables.as_slice();
    for place in 0..tables.len() {
        if !is_told(&tables[place], place + 1) {
            return false;
        }
    }
    tables.len() == count as usize && catalog.greatest == count
}

/// Opens the catalog of a space, which is to tell so many tables or have a fault.
fn open(rt: &impl Abort, alloc: Global, space: &Space, root: u32, count: u32) -> Option<OpenFault> {
    let mut marks = vec![in alloc; false; space.len()].expect(rt, "memory");
    match open_told(alloc, space, root, marks.as_mut_slice()) {
        Ok((tree, told)) => {
            assert!(rt; tree.root() == root);
            assert!(rt; are_told(&told, count));
            assert!(rt; unmarked_page(space, marks.as_slice()).is_none());
            None
        }
        Err(fault) => Some(fault),
    }
}

/// Makes a catalog of so many tables and opens it.
fn fault_of(rt: &impl Abort, alloc: Global, count: u32) -> Option<OpenFault> {
    let (space, root) = catalog_of(rt, alloc, count);
    assert!(rt; count < 64 || space.len() > 2);
    open(rt, alloc, &space, root, count)
}

#[test]
fn a_catalog_that_was_made_is_told(rt: HostRuntime) {
    let alloc = rt.alloc();
    assert!(&rt; fault_of(&rt, alloc, 0).is_none());
    assert!(&rt; fault_of(&rt, alloc, 1).is_none());
    assert!(&rt; fault_of(&rt, alloc, 64).is_none());
}

#[test]
fn more_tables_than_an_engine_has_are_no_catalog(rt: HostRuntime) {
    assert!(&rt; fault_of(&rt, rt.alloc(), 65) == Some(OpenFault::Catalog));
}

/// Opens the catalog of a space and the trees of its tables, and tells how many tables there are, or the fault.
fn open_all(
    rt: &impl Abort,
    alloc: Global,
    space: &Space,
    root: u32,
) -> (usize, Option<OpenFault>) {
    let mut marks = vec![in alloc; false; space.len()].expect(rt, "memory");
    match open_catalog(alloc, space, root, marks.as_mut_slice()) {
        Ok(opened) => {
            let count = opened.catalog.len();
            match open_trees(alloc, space, opened.roots.as_slice(), marks.as_mut_slice()) {
                Ok(tables) => (tables.len(), None),
                Err(fault) => (count, Some(fault)),
            }
        }
        Err(fault) => (0, Some(fault)),
    }
}

#[test]
fn trees_of_tables_are_opened_behind_the_catalog(rt: HostRuntime) {
    let alloc = rt.alloc();
    let (space, root) = catalog_of(&rt, alloc, 0);
    assert!(&rt; open_all(&rt, alloc, &space, root) == (0, None));
    let (space, root) = catalog_of(&rt, alloc, 1);
    let missing = OpenFault::Tree(u32::MAX - 1, u32::MAX - 1);
    assert!(&rt; open_all(&rt, alloc, &space, root) == (1, Some(missing)));
    let (space, root) = catalog_of(&rt, alloc, 2);
    assert!(&rt; open_all(&rt, alloc, &space, root) == (0, Some(OpenFault::Catalog)));
}
