//! Temporary tables.

ghost use Rattle.std.specs.Prelude.{◌≡◌, ◌<◌, ◌↔◌, ℕ, List, length, slice_get, map, option_copied, Some, None, true, IfOk, OnOk, OnErr, IsErrOf};
ghost use Rattle.temp_table.specs.TempColumns.{are_temp_columns, row_fits};
ghost use Rattle.temp_table.specs.Held.{IsWithin, place_beside_key};
ghost use Rattle.temp_table.specs.declared.columns.TempColumn.{TempColumn};
ghost use Rattle.temp_table.specs.TempRows.{current_value, is_on, opened, put_refusal, put_row};
ghost use Rattle.column_set.specs.RecordValues.{value_fits};

use crate::columns::TempColumn;
use crate::fault::TempFault;
use crate::keys::{NodeKey, node_key, row_key};
use crate::place::TempPlace;
use crate::rows::{row_size, value_in, write_row};
use btree_inplace::{Tree, nodes_fit_their_space, nodes_of_a_tree_rise};
use column_set::MAX_ROW_SIZE;
use jet_base::OutOfMemory;
use key_normal::order_of_whole_keys;
use page_space::Space;
use std::alloc::Global;
use std::fmt;
use std::marker::Model;

/// Rows sorted by the key of their key columns, and rows of one key by their arrival, with a place among them. All its memory
/// goes back when it is dropped.
#[derive(Drop)]
pub struct TempTable {
    pub(crate) columns: Vec<TempColumn>,
    pub(crate) unique: bool,
    // The pages are of this table alone.
    pub(crate) space: Space,
    pub(crate) tree: Tree,
    pub(crate) count: u64,
    pub(crate) place: TempPlace,
    // The key of the node that the place is on.
    pub(crate) key: NodeKey,
    // The bytes of the last row that was put: room for those of the next one.
    row: Vec<u8>,
}

impl Model for TempTable {
    ghost use Rattle.temp_table.specs.Held.{IsKept, table_rows};
    ghost use Rattle.temp_table.specs.TempRows.{TempRows};

    ghost Value = { TempRows };

    ghost view = { table_rows };

    ghost invariant = { IsKept };
}

impl TempTable {
    /// A table without a row, before its first one. It takes its first page.
    pub fn open(
        alloc: Global,
        columns: Vec<TempColumn>,
        unique: bool,
    ) -> Result<TempTable, OutOfMemory>
        requires { are_temp_columns columns.items ≡ true }
        ensures { IfOk result (λ table. table ≡ opened columns.items unique) }
    {
        let mut space = Space::new(alloc);
        let tree = Tree::new(&mut space)?;
        Ok(TempTable {
            columns,
            unique,
            space,
            tree,
            count: 0,
            place: TempPlace::Before,
            key: NodeKey::new(),
            row: Vec::new(alloc),
        })
    }

    /// Puts a row, a value or NULL for each column, behind all rows whose keys are not above its own. The place stays on its
    /// row. Its size is looked at first, then its key; after a refusal the table is as it was. One way down the tree finds
    /// where the row belongs.
    #[tactic(none)]
    pub fn put(&mut self, values: &[Option<&[u8]>]) -> Result<(), TempFault>
        requires { row_fits self.old.columns (map option_copied values.now) ≡ true }
        ensures ok { OnOk result (put_refusal self.old (map option_copied values.now) ≡ None) }
        ensures put { OnOk result (self.new ≡ put_row self.old (map option_copied values.now)) }
        ensures too_big { IsErrOf result TempFault.TooBig ↔ (put_refusal self.old (map option_copied values.now) ≡ Some TempFault.TooBig) }
        ensures double { IsErrOf result TempFault.Double → put_refusal self.old (map option_copied values.now) ≡ Some TempFault.Double }
        ensures err { OnErr result (self.new ≡ self.old) }
    {
        nodes_of_a_tree_rise();
        nodes_fit_their_space();
        order_of_whole_keys();
        let _ = self.space.len();
        if row_size(values) > MAX_ROW_SIZE {
            return Err(TempFault::TooBig);
        }
        match write_row(&mut self.row, values) {
            Ok(()) => {}
            Err(_) => return Err(TempFault::OutOfMemory),
        }
        let key = node_key(&row_key(&self.columns, values), self.unique, self.count);
        match self
            .tree
            .insert_if_absent(&mut self.space, key.as_slice(), &self.row, self.row.len())
        {
            Ok(None) => {
                self.place = beside(self.place, self.count, &self.key, &key);
                self.count += 1;
                Ok(())
            }
            Ok(Some(_)) => Err(TempFault::Double),
            Err(OutOfMemory) => Err(TempFault::OutOfMemory),
        }
    }

    /// The value of the current row in a column, counted from 0, or `None` where it is NULL: a part of its page.
    #[tactic(none)]
    pub fn read(&self, column: usize) -> Option<&[u8]>
        requires is_on { is_on self.now.place ≡ true }
        requires there { column < length self.now.columns }
        ensures value { option_copied result ≡ current_value self.now column }
        // It is of its column's type.
        ensures fits { (found : TempColumn) (bytes : List ℕ) → slice_get self.now.columns column ≡ Some found → option_copied result ≡ Some bytes → value_fits found.kind bytes ≡ true }
    {
        nodes_of_a_tree_rise();
        match self.tree.get(&self.space, self.key.as_slice()) {
            Some(row) => value_in(row, column),
            None => unreachable!(),
        }
    }

    /// Whether the place is on a row.
    pub fn is_on(&self) -> bool
        ensures { result ≡ is_on self.now.place }
    {
        matches!(self.place, TempPlace::On(_))
    }

    /// How many rows there are.
    pub fn count(&self) -> u64
        ensures { result ≡ length self.now.rows }
    {
        self.count
    }

    /// The columns.
    pub fn columns(&self) -> &[TempColumn]
        ensures value { result.now ≡ self.now.columns }
        ensures legal { are_temp_columns result.now ≡ true }
    {
        self.columns.as_slice()
    }
}

impl fmt::Debug for TempTable {
    fn fmt<W: fmt::Write>(&self, f: &mut fmt::Formatter<W>) -> fmt::Result {
        f.debug_struct("TempTable")
            .field("columns", &self.columns)
            .field("rows", &self.count)
            .finish_non_exhaustive()
    }
}

/// The place of a table whose current node has a key, once there is one more node, with another key, and so many others.
fn beside(place: TempPlace, count: u64, key: &NodeKey, added: &NodeKey) -> TempPlace
    requires { IsWithin count place }
    ensures { result ≡ place_beside_key key.now.items added.now.items place }
{
    match place {
        TempPlace::On(at) if added.as_slice().cmp(key.as_slice()).is_lt() => TempPlace::On(at + 1),
        _ => place,
    }
}
