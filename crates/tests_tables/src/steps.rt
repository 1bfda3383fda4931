//! The tree of a catalog through schema steps, with ample memory.

ghost use Rattle.std.specs.Prelude.{IfOk};
ghost use Rattle.catalog_record.specs.CatalogsKept.{HoldsCatalog};
ghost use Rattle.tests_tables.specs.OneTable.{one_table, roots};

use catalog_record::CatalogTree;
use column_set::Column;
use index_derive::{IndexFlags, IndexRule};
use jet_base::{ColType, ColumnId, IndexId, Items, Name, OutOfMemory, TableId};
use jet_catalog::{GreatestColumns, TableDef};
use page_space::Space;
use std::alloc::Global;
use std::test::Fail;

/// A catalog of one table, whose records have their root on page 5 and whose long values on page 6.
fn one_table(alloc: Global, space: &mut Space) -> Result<CatalogTree, OutOfMemory>
    ensures { IfOk result (λ made. HoldsCatalog space.new made roots one_table) }
{
    let mut catalog = CatalogTree::new(space)?;
    let name = Name::new(alloc, "t")?;
    catalog.create_table(space, TableId(1), &name, 5, 6)?;
    Ok(catalog)
}

#[test]
fn a_new_table_has_a_node(rt: HostRuntime) -> Result<(), Fail> {
    let mut space = Space::new(rt.alloc());
    let catalog = one_table(rt.alloc(), &mut space)?;
    assert!(rt; catalog.get(&space, &[0; 7]) == Some(&[1, 0, 0, 0]));
    let table = b"\x05\0\0\0\x06\0\0\0\0\0\x7f\0\xff\0\x01t";
    assert!(rt; catalog.get(&space, &[1, 0, 0, 0, 1, 0, 0]) == Some(table.as_slice()));
    Ok(())
}

#[test]
fn a_new_column_has_a_node(rt: HostRuntime) -> Result<(), Fail> {
    let mut space = Space::new(rt.alloc());
    let mut catalog = one_table(rt.alloc(), &mut space)?;
    let table = TableDef::new(rt.alloc(), TableId(1), Name::new(rt.alloc(), "t")?);
    let column = Column {
        id: ColumnId(1),
        name: Name::new(rt.alloc(), "c")?,
        kind: ColType::Long,
        tagged: false,
        multi: false,
        not_null: true,
        escrow: false,
        version: false,
        auto: false,
    };
    let greatest = GreatestColumns {
        fixed: 1,
        variable: 127,
        tagged: 255,
    };
    catalog.add_column(&mut space, &table, &column, &greatest, 5, 6)?;
    assert!(rt; catalog.get(&space, &[2, 0, 0, 0, 1, 0, 1]) == Some(b"\x05\x04\x01c".as_slice()));
    let changed = b"\x05\0\0\0\x06\0\0\0\x01\0\x7f\0\xff\0\x01t";
    assert!(rt; catalog.get(&space, &[1, 0, 0, 0, 1, 0, 0]) == Some(changed.as_slice()));
    Ok(())
}

#[test]
fn a_new_index_has_a_node(rt: HostRuntime) -> Result<(), Fail> {
    let mut space = Space::new(rt.alloc());
    let mut catalog = one_table(rt.alloc(), &mut space)?;
    let rule = IndexRule {
        id: IndexId(1),
        name: Name::new(rt.alloc(), "i")?,
        order: 1,
        segments: Items::new(Vec::new(rt.alloc())),
        flags: IndexFlags::NONE,
        conditions: Items::new(Vec::new(rt.alloc())),
        key_most: 255,
    };
    catalog.create_index(&mut space, TableId(1), 7, &rule)?;
    let index = b"\x07\0\0\0\x01\0\0\0\0\0\0\0\x01i";
    assert!(rt; catalog.get(&space, &[3, 0, 0, 0, 1, 0, 1]) == Some(index.as_slice()));
    Ok(())
}
