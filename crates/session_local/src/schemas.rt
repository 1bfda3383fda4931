//! The schemas of tables that cursors may be opened on.

ghost use Rattle.std.specs.Prelude.{◌≡◌, length, filter, map};
ghost use Rattle.std.specs.List.{list_all};
ghost use Rattle.session_local.specs.SessionSide.{are_distinct};
ghost use Rattle.session_local.specs.WellFormed.{number_of_column, is_sum, is_long_if_sum, has_short_keys, is_well_formed_schema};

use column_set::{Column, has_number};
use index_derive::{IndexRule, Schema};
use jet_base::ColType;

/// The most sums of a table: each has one of the numbers of fixed columns.
const MOST_SUMS: usize = 127;

/// Whether the schema is well formed, as `local_step` asks of the tables of a session's cursors: no two columns have one
/// number, a sum is a Long, there are 127 sums at most, and the keys of each index have 255 bytes at most.
pub fn is_well_formed(schema: &Schema) -> bool
    ensures { result ≡ is_well_formed_schema schema.now }
{
    let columns = schema.columns.as_slice();
    are_distinct(columns)
        && are_long(columns)
        && count_of_sums(columns) <= MOST_SUMS
        && are_short(schema.indexes.as_slice())
}

fn are_distinct(columns: &[Column]) -> bool
    ensures { result ≡ are_distinct (map number_of_column columns.now) }
{
    match columns {
        [] => true,
        [first, rest @ ..] => !has_number(rest, first.id) && are_distinct(rest),
    }
}

fn are_long(columns: &[Column]) -> bool
    ensures { result ≡ list_all is_long_if_sum columns.now }
{
    columns
        .iter()
        .all(|column| !column.escrow || column.kind == ColType::Long)
}

fn count_of_sums(columns: &[Column]) -> usize
    ensures { result ≡ length (filter is_sum columns.now) }
{
    columns.iter().filter(|column| column.escrow).count()
}

fn are_short(rules: &[IndexRule]) -> bool
    ensures { result ≡ list_all has_short_keys rules.now }
{
    rules.iter().all(|rule| rule.key_most <= 255)
}
