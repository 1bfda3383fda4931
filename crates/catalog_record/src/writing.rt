//! Writing the nodes of a catalog.

ghost use Rattle.std.specs.Prelude.{◌≡◌, [], IsTrue};
ghost use Rattle.log_grammar.specs.EntryBytes.{column_bytes, column_fits, index_fits, name_fits};
ghost use Rattle.catalog_grammar.specs.CatalogBytes.{index_data, table_data};
ghost use Rattle.catalog_grammar.specs.declared.items.CatalogItem.TheVariants as item;
ghost use Rattle.jet_base.specs.declared.ids.TableId.{TableId};
ghost use Rattle.catalog_record.specs.Buffers.{text_of};

use crate::buffer::{NodeBuffer, NodeData};
use crate::fields::{key_of, put, put_conditions, put_name, put_segments, put_u16, put_u32};
use column_set::Column;
use index_derive::IndexRule;
use jet_base::{Name, TableId};
use jet_catalog::GreatestColumns;
use log_record::{column_flags, index_flags, type_number};

impl NodeBuffer {
    /// Writes the node of the greatest number that a table was ever given.
    pub fn write_greatest(&mut self, greatest: u32)
        ensures { self.new ≡ text_of (item.Greatest greatest) }
    {
        self.key = key_of(0, 0, 0);
        self.data.clear();
        put_u32(&mut self.data, greatest);
    }

    /// Writes the node of a table, with the root pages of the trees of its records and of its long values. Its name can
    /// be written, as `log_record::name_fits` tells.
    pub fn write_table(
        &mut self,
        id: TableId,
        name: &Name,
        greatest: &GreatestColumns,
        records: u32,
        long_values: u32,
    )
        requires { IsTrue (name_fits name.now) }
        ensures { self.new ≡ text_of (item.Table (record { id = id; name = name.now; greatest = greatest.now; records = records; long_values = long_values })) }
    {
        self.key = key_of(1, id.0, 0);
        self.data.clear();
        put_table(&mut self.data, name, greatest, records, long_values);
    }

    /// Writes the node of a column of a table. The column can be written, as `log_record::column_fits` tells.
    pub fn write_column(&mut self, table: TableId, column: &Column)
        requires { IsTrue (column_fits column.now) }
        ensures { self.new ≡ text_of (item.Column table column.now) }
    {
        self.key = key_of(2, table.0, column.id.0);
        self.data.clear();
        put_column(&mut self.data, column);
    }

    /// Writes the node of an index of a table, with the root page of its tree: 0 for a primary index, which has none.
    /// The index can be written, as `log_record::index_fits` tells.
    pub fn write_index(&mut self, table: TableId, root: u32, index: &IndexRule)
        requires { IsTrue (index_fits index.now) }
        ensures { self.new ≡ text_of (item.Index table root index.now) }
    {
        self.key = key_of(3, table.0, index.id.0);
        self.data.clear();
        put_index(&mut self.data, root, index);
    }
}

/// Writes the data of a table.
#[tactic(auto, unfolding(catalog_grammar::specs::CatalogBytes::table_data))]
fn put_table(
    data: &mut NodeData,
    name: &Name,
    greatest: &GreatestColumns,
    records: u32,
    long_values: u32,
)
    requires empty { «data».old.items ≡ [] }
    requires name { IsTrue (name_fits name.now) }
    ensures { (id : TableId) → «data».new.items ≡ table_data (record { id = id; name = name.now; greatest = greatest.now; records = records; long_values = long_values }) }
{
    put_u32(data, records);
    put_u32(data, long_values);
    put_u16(data, greatest.fixed);
    put_u16(data, greatest.variable);
    put_u16(data, greatest.tagged);
    put_name(data, name);
}

/// Writes the data of a column.
fn put_column(data: &mut NodeData, column: &Column)
    requires empty { «data».old.items ≡ [] }
    requires fits { IsTrue (column_fits column.now) }
    ensures { «data».new.items ≡ column_bytes column.now }
{
    put(data, &[type_number(column.kind), column_flags(column)]);
    put_name(data, &column.name);
}

/// Writes the data of an index.
#[tactic(auto, unfolding(catalog_grammar::specs::CatalogBytes::index_data))]
fn put_index(data: &mut NodeData, root: u32, index: &IndexRule)
    requires empty { «data».old.items ≡ [] }
    requires fits { IsTrue (index_fits index.now) }
    ensures { «data».new.items ≡ index_data root index.now }
{
    put_u32(data, root);
    put_u32(data, index.order);
    put_u16(data, index_flags(&index.flags));
    put_segments(data, index.segments.as_slice());
    put_conditions(data, index.conditions.as_slice());
    put_name(data, &index.name);
}
