//! The values that a row takes.

ghost use Rattle.std.specs.Prelude.{◌≡◌, ℕ, List, true, length, OnErr, OnOk};
ghost use Rattle.std.specs.List.{AllByRecursion};
ghost use Rattle.std.specs.Option.{option_map};
ghost use Rattle.column_set.specs.declared.rows.RowValue.{RowValue};
ghost use Rattle.long_value.specs.Stores.{id_bytes};
ghost use Rattle.long_rows.specs.RowReferences.{named_by};
ghost use Rattle.long_rows.specs.ReferenceCounts.{with_all_taken, with_taken};
ghost use Rattle.long_rows.specs.KeptRows.{MayTake};
ghost use Rattle.column_set.specs.OtherValues.{StandIn};
ghost use Rattle.table_trees.specs.StoredTables.{has_table, table_long_values};
ghost use Rattle.table_trees.specs.FirstValues.{CanTake, with_first};
ghost use Rattle.table_trees.specs.NamedValues.{given_of, values_left};
ghost use Rattle.table_trees.specs.ValuesChanged.{HasLongValues};

use crate::kept_rows::named::{first_named, names};
use crate::kept_rows::releasing::release_first;
use crate::laws::long_values_after_a_change;
use crate::trees::TableTrees;
use column_set::Field;
use jet_base::{Octets, OutOfMemory, TableId};
use long_value::{LongId, references_after_a_change, values_after_a_change};

/// Takes one reference to the long value that is named, if one is, unless the values behind name it too. One that is not there is
/// put with these bytes.
fn take_first(
    trees: &mut TableTrees,
    table: TableId,
    named: Option<LongId>,
    rest: &[u8],
    bytes: &[u8],
) -> Result<(), OutOfMemory>
    requires table { has_table trees.old.tables table.0 ≡ true }
    requires may { (xs : List (ℕ × RowValue)) × StandIn rest.now xs × CanTake (option_map id_bytes named) (named_by xs) bytes.now (table_long_values trees.old.tables table.0) }
    ensures ok { OnOk result ((xs : List (ℕ × RowValue)) → StandIn rest.now xs → HasLongValues table.0 (with_first (option_map id_bytes named) (named_by xs) bytes.now (table_long_values trees.old.tables table.0)) trees.old.tables trees.new.tables) }
    ensures err { OnErr result (trees.new.tables ≡ trees.old.tables) }
    ensures catalog { trees.new.catalog ≡ trees.old.catalog }
{
    match named {
        Some(id) => {
            if names(rest, id) {
                Ok(())
            } else {
                take(trees, table, id, bytes)
            }
        }
        None => Ok(()),
    }
}

/// Takes one reference to a long value. One that is not there is put with these bytes.
fn take(trees: &mut TableTrees, table: TableId, id: LongId, bytes: &[u8]) -> Result<(), OutOfMemory>
    requires table { has_table trees.old.tables table.0 ≡ true }
    requires may { MayTake (table_long_values trees.old.tables table.0) (id_bytes id, bytes.now) }
    ensures ok { OnOk result (HasLongValues table.0 (with_taken (table_long_values trees.old.tables table.0) (id_bytes id, bytes.now)) trees.old.tables trees.new.tables) }
    ensures err { OnErr result (trees.new.tables ≡ trees.old.tables) }
    ensures catalog { trees.new.catalog ≡ trees.old.catalog }
{
    long_values_after_a_change();
    if trees.has_long(table, id) {
        trees.share_long(table, id);
        Ok(())
    } else {
        trees.put_long(table, id, bytes)
    }
}

/// Takes one reference to each long value that some values of a row name. Those that are not there are put with the bytes of the
/// record's values: those that are left of a column, and those of the columns behind it. Where there is no memory, all that was
/// taken is given up again.
pub fn take_values(
    trees: &mut TableTrees,
    table: TableId,
    row: &[u8],
    values: &[Octets],
    fields: &[Field],
) -> Result<(), OutOfMemory>
    requires table { has_table trees.old.tables table.0 ≡ true }
    requires may { (xs : List (ℕ × RowValue)) × StandIn row.now xs × (length xs ≡ length (values_left values.now fields.now)) × AllByRecursion (MayTake (table_long_values trees.old.tables table.0)) (given_of xs (values_left values.now fields.now)) }
    ensures ok { OnOk result ((xs : List (ℕ × RowValue)) → StandIn row.now xs → length xs ≡ length (values_left values.now fields.now) → HasLongValues table.0 (with_all_taken (given_of xs (values_left values.now fields.now)) (table_long_values trees.old.tables table.0)) trees.old.tables trees.new.tables) }
    ensures err { OnErr result (HasLongValues table.0 (table_long_values trees.old.tables table.0) trees.old.tables trees.new.tables) }
    ensures catalog { trees.new.catalog ≡ trees.old.catalog }
{
    references_after_a_change();
    values_after_a_change();
    trees.long_values_are_whole();
    match values.split_first() {
        Some((value, others)) => match first_named(row) {
            Some((named, rest)) => match take_first(trees, table, named, rest, value.as_bytes()) {
                Ok(()) => match take_values(trees, table, rest, others, fields) {
                    Ok(()) => Ok(()),
                    Err(fault) => {
                        release_first(trees, table, named, rest);
                        Err(fault)
                    }
                },
                Err(fault) => Err(fault),
            },
            None => Ok(()),
        },
        None => match fields.split_first() {
            Some((field, later)) => take_values(trees, table, row, field.values(), later),
            None => Ok(()),
        },
    }
}
