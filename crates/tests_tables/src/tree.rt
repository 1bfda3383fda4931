//! A catalog's tree, with ample memory.

use catalog_record::{CatalogTree, NodeBuffer};
use page_space::Space;
use std::test::Fail;

/// The key of the greatest number of a table.
const GREATEST: [u8; 7] = [0; 7];

#[test]
fn a_new_catalog_has_one_node(rt: HostRuntime) -> Result<(), Fail> {
    let mut space = Space::new(rt.alloc());
    let catalog = CatalogTree::new(&mut space)?;
    assert!(rt; catalog.get(&space, &GREATEST) == Some(&[0, 0, 0, 0]));
    assert!(rt; catalog.after(&space, &GREATEST).is_none());
    catalog.give_back(&mut space);
    Ok(())
}

#[test]
fn a_node_has_other_data(rt: HostRuntime) -> Result<(), Fail> {
    let mut space = Space::new(rt.alloc());
    let mut catalog = CatalogTree::new(&mut space)?;
    let mut node = NodeBuffer::new();
    node.write_greatest(300);
    catalog.replace(&mut space, &node);
    assert!(rt; catalog.get(&space, &GREATEST) == Some(&[0x2c, 1, 0, 0]));
    catalog.remove(&mut space, &GREATEST);
    assert!(rt; catalog.first(&space).is_none());
    catalog.add(&mut space, &node)?;
    assert!(rt; catalog.first(&space) == Some((&GREATEST, &[0x2c, 1, 0, 0])));
    Ok(())
}
