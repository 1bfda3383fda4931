//! The indexes of a table, with the trees that were opened for them.

ghost use Rattle.std.specs.Prelude.{◌≡◌, [], List, IfOk, OnOk};
ghost use Rattle.std.specs.List.{position_from};
ghost use Rattle.image_opening.specs.declared.opened.OpenedIndex.{OpenedIndex};
ghost use Rattle.engine_image.specs.MadeTables.{MoveTrees, MovesTree, PutsIndex, TakesTree, TakesUnless, has_number};

use btree_inplace::Tree;
use image_opening::OpenedIndex;
use index_derive::IndexRule;
use index_tree::IndexTree;
use jet_base::{IndexId, OutOfMemory};
use std::alloc::Global;
use table_trees::TableIndex;

/// The place of the first of some indexes that has a number.
fn place_of(indexes: &[OpenedIndex], index: IndexId) -> Option<usize>
    ensures { result ≡ position_from (has_number index.0) 0 indexes.now }
{
    indexes.iter().position(|opened| opened.index == index)
}

/// Takes the tree of an index out of the others.
fn take_tree(indexes: &mut Vec<OpenedIndex>, index: IndexId) -> Option<Tree>
    ensures { TakesTree index.0 indexes.old.items result indexes.new.items }
{
    match place_of(indexes.as_slice(), index) {
        Some(place) => Some(indexes.remove(place).tree),
        None => None,
    }
}

/// Takes the tree of the index of a rule out of the others: none for the primary index, whose order is that of the records.
fn tree_of(indexes: &mut Vec<OpenedIndex>, rule: &IndexRule) -> Option<Tree>
    ensures { TakesUnless rule.now.flags.primary rule.now.id.0 indexes.old.items result indexes.new.items }
{
    if rule.flags.primary {
        None
    } else {
        take_tree(indexes, rule.id)
    }
}

/// Puts an index with a tree behind the others, if there is a tree.
fn put_index(
    made: &mut Vec<TableIndex>,
    index: IndexId,
    tree: Option<Tree>,
) -> Result<(), OutOfMemory>
    ensures { OnOk result (PutsIndex index tree made.old.items made.new.items) }
{
    match tree {
        Some(tree) => match made.push(TableIndex::of(index, IndexTree::of(tree))) {
            Ok(()) => Ok(()),
            Err(_) => Err(OutOfMemory),
        },
        None => Ok(()),
    }
}

/// Moves the tree of the index of a rule from the opened ones to the made ones.
fn move_tree(
    opened: &mut Vec<OpenedIndex>,
    made: &mut Vec<TableIndex>,
    rule: &IndexRule,
) -> Result<(), OutOfMemory>
    ensures { OnOk result (MovesTree rule.now opened.old.items made.old.items opened.new.items made.new.items) }
{
    let tree = tree_of(opened, rule);
    put_index(made, rule.id, tree)
}

/// The indexes of these rules, in their order, with the trees that were opened for them.
pub(crate) fn made_indexes(
    alloc: Global,
    rules: &[IndexRule],
    opened: Vec<OpenedIndex>,
) -> Result<Vec<TableIndex>, OutOfMemory>
    ensures { IfOk result (λ made. (left : List OpenedIndex) × MoveTrees rules.now opened.items [] left made.items) }
{
    let mut opened = opened;
    let mut made = Vec::new(alloc);
    let mut place = 0;
    while place < rules.len() {
        match move_tree(&mut opened, &mut made, &rules[place]) {
            Ok(()) => {}
            Err(fault) => return Err(fault),
        }
        place += 1;
    }
    Ok(made)
}
