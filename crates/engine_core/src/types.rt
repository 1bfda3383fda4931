//! What the types of the program say of a schema step.

ghost use Rattle.std.specs.Prelude.{◌≡◌, ◌^◌, true, nat_lt};
ghost use Rattle.loggable_steps.specs.Loggable.{schema_fits_types};

use index_derive::SchemaStep;
use jet_base::{ColumnId, IndexId, TableId};

/// The numbers of a schema step have the bits of their types.
pub fn numbers_fit_their_types(made: &SchemaStep)
    ensures { schema_fits_types made.now ≡ true }
{
    match made {
        SchemaStep::CreateTable { table, .. } | SchemaStep::DeleteTable { table } => {
            table_fits(*table)
        }
        SchemaStep::AddColumn { table, column } => {
            table_fits(*table);
            column_fits(column.id);
        }
        SchemaStep::DeleteColumn { table, column } => {
            table_fits(*table);
            column_fits(*column);
        }
        SchemaStep::CreateIndex { table, index } => {
            table_fits(*table);
            index_fits(index.id);
            order_fits(index.order);
        }
        SchemaStep::DeleteIndex { table, index } => {
            table_fits(*table);
            index_fits(*index);
        }
    }
}

fn table_fits(table: TableId)
    ensures { nat_lt table.0 (2 ^ 32) ≡ true }
{
    let _ = table.0;
}

fn column_fits(column: ColumnId)
    ensures { nat_lt column.0 (2 ^ 16) ≡ true }
{
    let _ = column.0;
}

fn index_fits(index: IndexId)
    ensures { nat_lt index.0 (2 ^ 16) ≡ true }
{
    let _ = index.0;
}

fn order_fits(order: u32)
    ensures { nat_lt order (2 ^ 32) ≡ true }
{
    let _ = order;
}
