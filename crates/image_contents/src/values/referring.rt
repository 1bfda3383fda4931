//! The rows that may refer to the long values of a table, one after another.

ghost use Rattle.std.specs.Prelude.{◌≡◌, ℕ, [], ◌∷◌, List, MatchOption};
ghost use Rattle.column_set.specs.OtherValues.{StandIn};
ghost use Rattle.column_set.specs.declared.rows.RowValue.{RowValue};
ghost use Rattle.btree_inplace.specs.Trees.{IsTree, nodes_of};
ghost use Rattle.database_state.specs.State.{is_undone};
ghost use Rattle.image_contents.specs.ReferringRows.{before_of, referring_rows};
ghost use Rattle.version_store.specs.Answers.{told_change};
ghost use Rattle.version_store.specs.Items.{state_of};

use crate::nodes::NodeWalk;
use crate::values::references::values_of;
use image_opening::OpenedTable;
use jet_base::TableId;
use page_space::Space;
use std::marker::Model;
use version_store::{Held, Status, Versions};

/// A row that may refer to long values.
#[derive(Clone, Copy)]
pub(crate) struct ReferringRow<'a> {
    /// The bytes of its values: none where there is no row.
    pub values: &'a [u8],
    /// It is the one before a change that is undone.
    pub is_undone: bool,
}

/// The rows that are still to come: the newest ones of a table, by rising bookmark, and then those before the held changes, oldest
/// first. It takes no memory.
#[derive(Drop)]
pub(crate) struct ReferringRows<'a> {
    nodes: NodeWalk<'a>,
    versions: &'a Versions,
    table: TableId,
    next: usize,
}

impl<'a> Model for ReferringRows<'a> {
    ghost use Rattle.std.specs.Prelude.{List, drop};
    ghost use Rattle.image_contents.specs.ReferringRows.{Referring, referring_rows};

    ghost Value = { List Referring };

    ghost view = { λ a. referring_rows a.table.0 a.nodes (drop a.next a.versions.now) };
}

impl<'a> ReferringRows<'a> {
    /// All of a table.
    pub(crate) fn new(
        space: &'a Space,
        table: &'a OpenedTable,
        versions: &'a Versions,
    ) -> ReferringRows<'a>
        requires { IsTree space.now table.now.nodes }
        ensures { result ≡ referring_rows table.now.table.0 (nodes_of space.now table.now.nodes) versions.now }
    {
        ReferringRows {
            nodes: NodeWalk::new(space, &table.nodes),
            versions,
            table: table.table,
            next: 0,
        }
    }

    /// The next one, none behind the last.
    pub(crate) fn next(&mut self) -> Option<ReferringRow<'a>>
        ensures { MatchOption result (self.old ≡ []) (λ row. (values : List (ℕ × RowValue)) × StandIn row.values.now values × (self.old ≡ (values, row.is_undone) ∷ self.new)) }
    {
        if let Some(node) = self.nodes.next() {
            return Some(ReferringRow {
                values: values_of(node.bytes),
                is_undone: false,
            });
        }
        if self.next >= self.versions.len() {
            return None;
        }
        let change = self.versions.change_at(self.next);
        self.next += 1;
        Some(ReferringRow {
            values: values_before(change, self.table),
            is_undone: is_undone(change.status),
        })
    }
}

/// The bytes of the values of the row before a held change, if it is one of the table.
fn values_before<'a>(change: Held<'a>, table: TableId) -> &'a [u8]
    ensures { StandIn result.now (before_of table.0 (told_change change.entry)).0 }
{
    if change.table != table {
        return &[];
    }
    let row = match change.before {
        Some(row) => row,
        None => &[],
    };
    values_of(row)
}

/// Whether a change is undone.
fn is_undone(status: Status) -> bool
    ensures { result ≡ is_undone (state_of status) }
{
    matches!(status, Status::Undone)
}
