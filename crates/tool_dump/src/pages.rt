//! The pages of a database, and what its trees have of them.

ghost use Rattle.std.specs.Prelude.{◌≡◌, ◌+◌, ◌<◌, ◌≤◌, ◌^◌, ◌++◌, [], ◌∷◌, None, Some, codes, is_none, length, if◌then◌else◌, IfOk, IfSome, OnOk};
ghost use Rattle.page_space.specs.Frames.{page_at};
ghost use Rattle.std.specs.List.{flat_map};
ghost use Rattle.image_findings.specs.CatalogFindings.{catalog_told, roots_of};
ghost use Rattle.image_findings.specs.Findings.{IsConsistent};
ghost use Rattle.image_findings.specs.Images.{ImageContents};
ghost use Rattle.image_findings.specs.TreeFindings.{no_marks, nodes_below, pages_below, trees_finding};
ghost use Rattle.long_value.specs.Values.{AreLong, Values, nodes_of_values};
ghost use Rattle.tree_check.specs.Walks.{tree_fault};
ghost use Rattle.tool_dump.specs.SoundTrees.{HasSoundTrees, IsTold, lines_of_index, roots_of_index};
ghost use Rattle.tool_dump.specs.SpaceTexts.{counts_text, free_count, nodes_line, space_line, space_text, table_lines, trees_text, value_count, values_line};

use crate::lines::append_number;
use crate::walks::{heads_below, walk};
use image_findings::each_check_of_a_consistent_image_passes;
use image_opening::{ToldCatalog, ToldTable, open_told};
use index_derive::IndexRule;
use jet_base::OutOfMemory;
use page_space::Space;
use std::alloc::Global;

/// The text of the pages of a database: `space pages P free F`; then, where its catalog has a root page, `tree catalog nodes N pages Q`,
/// and of each table, by rising number, `tree T records N pages Q`, `tree T I nodes N pages Q` for each index that has a tree, by rising
/// number, and `tree T long N pages Q` with the number of its long values.
///
/// The trees of the catalog and of all tables are walked, each page a few times. No memory is taken but for the text, for what
/// the catalog tells, and for a byte for each page.
pub fn space(
    alloc: Global,
    space: &Space,
    catalog_root: Option<u32>,
) -> Result<Vec<u8>, OutOfMemory>
    requires { IfSome catalog_root (HasSoundTrees space.now) }
    ensures { IfOk result (λ text. text.items ≡ space_text space.now catalog_root) }
{
    let mut text = Vec::new(alloc);
    append_space(alloc, &mut text, space, catalog_root)?;
    Ok(text)
}

/// Of a consistent image nothing is found that would keep its trees from being told.
pub fn trees_of_a_consistent_image_are_sound()
    ensures { (image : ImageContents) → IsConsistent image → HasSoundTrees image.pages image.catalog_root }
{
    each_check_of_a_consistent_image_passes();
}

/// Among the nodes of long values are as many heads as there are values: so their tree is told with the number of its values.
pub fn each_long_value_has_one_head()
    ensures { (values : Values) → AreLong values → value_count (nodes_of_values values) ≡ length values }
{}

/// One more, if a page is free.
fn with_free(space: &Space, page: u32, count: usize) -> usize
    requires { count + 1 < 2 ^ 64 }
    ensures count { result ≡ count + (if is_none (page_at space.now page) then 1 else 0) }
    ensures few { result ≤ count + 1 }
{
    if space.is_taken(page) {
        count
    } else {
        count + 1
    }
}

/// How many pages are free.
fn free_count(space: &Space) -> usize
    ensures { result ≡ free_count space.now }
{
    let mut count = 0;
    for page in 0..space.len() {
        count = with_free(space, page as u32, count);
    }
    count
}

/// Puts the line of the whole space at the end.
fn append_pages(text: &mut Vec<u8>, space: &Space) -> Result<(), OutOfMemory>
    ensures { OnOk result (text.new.items ≡ text.old.items ++ space_line space.now) }
{
    text.extend_from_slice(b"space pages ")?;
    append_number(text, space.len() as u64)?;
    text.extend_from_slice(b" free ")?;
    append_number(text, free_count(space) as u64)?;
    text.push(b'\n')?;
    Ok(())
}

/// Puts the beginning of the line of a tree at the end, with a name.
fn append_name(text: &mut Vec<u8>, name: &[u8]) -> Result<(), OutOfMemory>
    ensures { OnOk result (text.new.items ≡ text.old.items ++ (codes "tree " ++ name.now)) }
{
    text.extend_from_slice(b"tree ")?;
    text.extend_from_slice(name)?;
    Ok(())
}

/// The same with the name of an index behind that of its table.
fn append_index_name(text: &mut Vec<u8>, table: &[u8], index: &[u8]) -> Result<(), OutOfMemory>
    ensures { OnOk result (text.new.items ≡ text.old.items ++ (codes "tree " ++ (table.now ++ codes " " ++ index.now))) }
{
    append_name(text, table)?;
    text.push(b' ')?;
    text.extend_from_slice(index)?;
    Ok(())
}

/// Puts the end of the line of a tree at the end.
fn append_counts(
    text: &mut Vec<u8>,
    counted: &[u8],
    count: u64,
    pages: u64,
) -> Result<(), OutOfMemory>
    ensures { OnOk result (text.new.items ≡ text.old.items ++ counts_text counted.now count pages) }
{
    text.push(b' ')?;
    text.extend_from_slice(counted)?;
    text.push(b' ')?;
    append_number(text, count)?;
    text.extend_from_slice(b" pages ")?;
    append_number(text, pages)?;
    text.push(b'\n')?;
    Ok(())
}

/// Puts the counts of the tree below a root page at the end, and marks its pages.
fn append_nodes(
    text: &mut Vec<u8>,
    space: &Space,
    counted: &[u8],
    root: u32,
    marks: &mut [bool],
) -> Result<(), OutOfMemory>
    requires { tree_fault space.now marks.old root ≡ None }
    ensures { OnOk result (IsTold space.now (root ∷ []) (counts_text counted.now (length (nodes_below space.now root)) (length (pages_below space.now root))) text.old.items text.new.items marks.old marks.new) }
{
    let walked = walk(space, root, marks);
    let nodes = walked.tree.node_count(space);
    let pages = walked.tree.page_count(space);
    append_counts(text, counted, nodes as u64, pages as u64)
}

/// Puts the counts of the long values below a root page at the end, and marks its pages.
fn append_values(
    text: &mut Vec<u8>,
    space: &Space,
    root: u32,
    marks: &mut [bool],
) -> Result<(), OutOfMemory>
    requires { tree_fault space.now marks.old root ≡ None }
    ensures { OnOk result (IsTold space.now (root ∷ []) (counts_text (codes "long") (value_count (nodes_below space.now root)) (length (pages_below space.now root))) text.old.items text.new.items marks.old marks.new) }
{
    let walked = walk(space, root, marks);
    let values = heads_below(space, root, walked.depth);
    let pages = walked.tree.page_count(space);
    append_counts(text, b"long", values as u64, pages as u64)
}

/// Puts the line of a tree of nodes at the end.
fn append_tree(
    text: &mut Vec<u8>,
    space: &Space,
    name: &[u8],
    counted: &[u8],
    root: u32,
    marks: &mut [bool],
) -> Result<(), OutOfMemory>
    requires { tree_fault space.now marks.old root ≡ None }
    ensures { OnOk result (IsTold space.now (root ∷ []) (nodes_line space.now name.now counted.now root) text.old.items text.new.items marks.old marks.new) }
{
    append_name(text, name)?;
    append_nodes(text, space, counted, root, marks)
}

/// Puts the line of the long values of a table at the end.
fn append_long_values(
    text: &mut Vec<u8>,
    space: &Space,
    table: &[u8],
    root: u32,
    marks: &mut [bool],
) -> Result<(), OutOfMemory>
    requires { tree_fault space.now marks.old root ≡ None }
    ensures { OnOk result (IsTold space.now (root ∷ []) (values_line space.now table.now root) text.old.items text.new.items marks.old marks.new) }
{
    append_name(text, table)?;
    append_values(text, space, root, marks)
}

/// Puts the line of an index at the end, if it has a tree.
fn append_index(
    text: &mut Vec<u8>,
    space: &Space,
    table: &[u8],
    index: &(u32, IndexRule),
    marks: &mut [bool],
) -> Result<(), OutOfMemory>
    requires { trees_finding space.now (roots_of_index index.now) marks.old ≡ None }
    ensures { OnOk result (IsTold space.now (roots_of_index index.now) (lines_of_index space.now table.now index.now) text.old.items text.new.items marks.old marks.new) }
{
    if index.1.flags.primary {
        return Ok(());
    }
    append_index_name(text, table, index.1.name.as_bytes())?;
    append_nodes(text, space, b"nodes", index.0, marks)
}

/// Puts the lines of the indexes of a table at the end.
fn append_indexes(
    text: &mut Vec<u8>,
    space: &Space,
    table: &[u8],
    indexes: &[(u32, IndexRule)],
    marks: &mut [bool],
) -> Result<(), OutOfMemory>
    requires { trees_finding space.now (flat_map roots_of_index indexes.now) marks.old ≡ None }
    ensures { OnOk result (IsTold space.now (flat_map roots_of_index indexes.now) (flat_map (lines_of_index space.now table.now) indexes.now) text.old.items text.new.items marks.old marks.new) }
{
    for index in indexes {
        append_index(text, space, table, index, marks)?;
    }
    Ok(())
}

/// Puts the lines of a table at the end.
fn append_table(
    text: &mut Vec<u8>,
    space: &Space,
    told: &ToldTable,
    marks: &mut [bool],
) -> Result<(), OutOfMemory>
    requires { trees_finding space.now (roots_of told.now) marks.old ≡ None }
    ensures { OnOk result (IsTold space.now (roots_of told.now) (table_lines space.now told.now) text.old.items text.new.items marks.old marks.new) }
{
    let table = told.table.name.as_bytes();
    append_tree(text, space, table, b"records", told.table.records, marks)?;
    append_indexes(text, space, table, told.indexes.as_slice(), marks)?;
    append_long_values(text, space, table, told.table.long_values, marks)
}

/// Puts the lines of tables at the end.
fn append_tables(
    text: &mut Vec<u8>,
    space: &Space,
    tables: &[ToldTable],
    marks: &mut [bool],
) -> Result<(), OutOfMemory>
    requires { trees_finding space.now (flat_map roots_of tables.now) marks.old ≡ None }
    ensures { OnOk result (IsTold space.now (flat_map roots_of tables.now) (flat_map (table_lines space.now) tables.now) text.old.items text.new.items marks.old marks.new) }
{
    for told in tables {
        append_table(text, space, told, marks)?;
    }
    Ok(())
}

/// No page of a space is marked.
fn unmarked(alloc: Global, space: &Space) -> Result<Vec<bool>, OutOfMemory>
    ensures { IfOk result (λ marks. marks.items ≡ no_marks space.now) }
{
    Ok(vec![in alloc; false; space.len()]?)
}

/// What the catalog below a root page tells.
fn told_below(
    alloc: Global,
    space: &Space,
    root: u32,
    marks: &mut [bool],
) -> Result<ToldCatalog, OutOfMemory>
    ensures { IfOk result (λ told. catalog_told (nodes_below space.now root) ≡ Some told) }
{
    // Nothing is found of the catalog, so that a fault is want of memory.
    match open_told(alloc, space, root, marks) {
        Ok((_, told)) => Ok(told),
        Err(_) => Err(OutOfMemory),
    }
}

/// What the catalog below a root page tells. No page has a mark yet.
fn catalog_below(alloc: Global, space: &Space, root: u32) -> Result<ToldCatalog, OutOfMemory>
    ensures { IfOk result (λ told. catalog_told (nodes_below space.now root) ≡ Some told) }
{
    match unmarked(alloc, space) {
        Ok(mut marks) => told_below(alloc, space, root, marks.as_mut_slice()),
        Err(fault) => Err(fault),
    }
}

/// Puts the lines of the catalog and of its tables at the end. No page has a mark yet.
fn append_told(
    text: &mut Vec<u8>,
    space: &Space,
    root: u32,
    told: &ToldCatalog,
    marks: &mut [bool],
) -> Result<(), OutOfMemory>
    requires sound { HasSoundTrees space.now root }
    requires told { catalog_told (nodes_below space.now root) ≡ Some told.now }
    requires marks { marks.old ≡ no_marks space.now }
    ensures { OnOk result (text.new.items ≡ text.old.items ++ trees_text space.now (Some root)) }
{
    append_tree(text, space, b"catalog", b"nodes", root, marks)?;
    append_tables(text, space, told.tables.as_slice(), marks)
}

/// Puts the lines of the catalog below a root page and of its tables at the end.
fn append_trees(
    alloc: Global,
    text: &mut Vec<u8>,
    space: &Space,
    root: u32,
) -> Result<(), OutOfMemory>
    requires { HasSoundTrees space.now root }
    ensures { OnOk result (text.new.items ≡ text.old.items ++ trees_text space.now (Some root)) }
{
    let told = catalog_below(alloc, space, root)?;
    let mut marks = unmarked(alloc, space)?;
    append_told(text, space, root, &told, marks.as_mut_slice())
}

/// Puts the lines of a space and of its trees at the end.
fn append_space(
    alloc: Global,
    text: &mut Vec<u8>,
    space: &Space,
    catalog_root: Option<u32>,
) -> Result<(), OutOfMemory>
    requires { IfSome catalog_root (HasSoundTrees space.now) }
    ensures { OnOk result (text.new.items ≡ text.old.items ++ space_text space.now catalog_root) }
{
    append_pages(text, space)?;
    match catalog_root {
        Some(root) => append_trees(alloc, text, space, root),
        None => Ok(()),
    }
}
