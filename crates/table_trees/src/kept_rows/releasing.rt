//! The values that a row gives up.

ghost use Rattle.std.specs.Prelude.{◌≡◌, ◌<◌, ℕ, List, true, Some, IsSome};
ghost use Rattle.std.specs.Option.{option_map};
ghost use Rattle.column_set.specs.declared.rows.RowValue.{RowValue};
ghost use Rattle.long_value.specs.Stores.{id_bytes};
ghost use Rattle.long_value.specs.Values.{value_of};
ghost use Rattle.long_rows.specs.RowReferences.{named_by, not_among, times_among};
ghost use Rattle.long_rows.specs.ReferenceCounts.{with_all_released};
ghost use Rattle.column_set.specs.OtherValues.{StandIn};
ghost use Rattle.table_trees.specs.StoredTables.{has_table, table_long_values};
ghost use Rattle.table_trees.specs.FirstValues.{CanGiveUp, unless_among, without_first};
ghost use Rattle.table_trees.specs.ValuesChanged.{HasLongValues};

use crate::kept_rows::named::{first_named, names};
use crate::laws::long_values_after_a_change;
use crate::trees::TableTrees;
use jet_base::TableId;
use long_value::{LongId, references_after_a_change, values_after_a_change};

/// Gives up one reference to the long value that is named, if one is, unless the values behind name it too. It takes no memory.
pub fn release_first(trees: &mut TableTrees, table: TableId, named: Option<LongId>, rest: &[u8])
    requires table { has_table trees.old.tables table.0 ≡ true }
    requires there { (xs : List (ℕ × RowValue)) × StandIn rest.now xs × CanGiveUp (option_map id_bytes named) (named_by xs) (table_long_values trees.old.tables table.0) }
    ensures tables { (xs : List (ℕ × RowValue)) → StandIn rest.now xs → HasLongValues table.0 (without_first (option_map id_bytes named) (named_by xs) (table_long_values trees.old.tables table.0)) trees.old.tables trees.new.tables }
    ensures catalog { trees.new.catalog ≡ trees.old.catalog }
{
    long_values_after_a_change();
    if let Some(id) = named {
        if !names(rest, id) {
            trees.release_long(table, id);
        }
    }
}

/// What is named, unless some values of a row name it too.
fn unless_named(named: Option<LongId>, kept: &[u8]) -> Option<LongId>
    ensures { (ys : List (ℕ × RowValue)) → StandIn kept.now ys → option_map id_bytes result ≡ unless_among (named_by ys) (option_map id_bytes named) }
{
    match named {
        Some(id) => { if names(kept, id) { None } else { Some(id) } }
        None => None,
    }
}

/// Gives up one reference to each long value that some values of a row name and those that are kept do not. It takes no memory.
pub fn release_values(trees: &mut TableTrees, table: TableId, values: &[u8], kept: &[u8])
    requires table { has_table trees.old.tables table.0 ≡ true }
    requires there { (xs : List (ℕ × RowValue)) × StandIn values.now xs × ((id : List ℕ) → 0 < times_among id (named_by xs) → IsSome (value_of id (table_long_values trees.old.tables table.0))) }
    requires kept { (ys : List (ℕ × RowValue)) × StandIn kept.now ys }
    ensures tables { (xs ys : List (ℕ × RowValue)) → StandIn values.now xs → StandIn kept.now ys → HasLongValues table.0 (with_all_released (not_among (named_by ys) (named_by xs)) (table_long_values trees.old.tables table.0)) trees.old.tables trees.new.tables }
    ensures catalog { trees.new.catalog ≡ trees.old.catalog }
{
    references_after_a_change();
    values_after_a_change();
    match first_named(values) {
        Some((named, rest)) => {
            release_first(trees, table, unless_named(named, kept), rest);
            release_values(trees, table, rest, kept);
        }
        None => {}
    }
}
