//! What is known of long values once none is broken, before their counts are compared and after.

ghost use Rattle.std.specs.Prelude.{◌≡◌, ◌≤◌, ℕ, List, [], filter, map, not};
ghost use Rattle.std.specs.List.{AllByRecursion};
ghost use Rattle.btree_inplace.specs.declared.Tree.{Tree};
ghost use Rattle.image_findings.specs.Images.{least_key};
ghost use Rattle.image_findings.specs.TableContents.{TableContents, long_values};
ghost use Rattle.image_findings.specs.ValueFindings.{broken_values, is_whole_value, nodes_of_value};
ghost use Rattle.image_opening.specs.OpenedTrees.{HasContents};
ghost use Rattle.image_opening.specs.declared.opened.OpenedTable.{OpenedTable};
ghost use Rattle.image_contents.specs.ValuePass.{all_passed, found_by, whole};
ghost use Rattle.image_contents.specs.WholeValues.{HasWholeValues};
ghost use Rattle.long_value.specs.Shown.{id_of};
ghost use Rattle.long_value.specs.Stores.{HasValues};
ghost use Rattle.long_value.specs.Values.{LongValue, Values};
ghost use Rattle.long_value.specs.declared.values.LongValues.{LongValues};
ghost use Rattle.page_image.specs.Page.{HasRisingKeys, Node};
ghost use Rattle.page_space.specs.Frames.{Frames};

use btree_inplace::nodes_of_a_tree_rise;

/// What a pass over the nodes of long values, by rising key, ends in: none where each value is whole, and else the least one that is
/// not.
#[tactic(none)]
pub fn the_pass_finds_the_least_broken_value()
    ensures { (number : ℕ) (nodes : List Node) → HasRisingKeys nodes → least_key (filter (λ id. not (is_whole_value number id (nodes_of_value id nodes))) (map id_of nodes)) ≡ found_by (all_passed number whole nodes) }
{}

/// Where no value of a table is broken, the tree has the nodes of the values that it shows and no other. Their counts may be any.
#[tactic(none)]
pub fn values_that_are_not_broken_are_whole()
    ensures { (frames : Frames) (table : OpenedTable) (t : TableContents) (number : ℕ) → HasContents frames table t → broken_values number t ≡ [] → HasWholeValues frames table.long_values (long_values t) }
{
    nodes_of_a_tree_rise();
}

/// Whole values that each have a reference are those of a store.
#[tactic(none)]
pub fn whole_values_with_references_are_a_store()
    ensures { (frames : Frames) (tree : Tree) (store : LongValues) (values : Values) → store.tree ≡ tree → HasWholeValues frames tree values → AllByRecursion (λ (row : List ℕ × LongValue). 1 ≤ row.1.count) values → HasValues frames store values }
{}
