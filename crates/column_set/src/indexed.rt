//! Columns that are found by their names.

ghost use Rattle.std.specs.Prelude.{◌≡◌, ◌<◌, length, replicate, IfOk, option_copied};
ghost use Rattle.column_set.specs.NameIndex.{GoesOn, IsIndex, IsSoughtFrom, bucket};
ghost use Rattle.column_set.specs.RecordValues.{column_named};

use crate::columns::Column;
use jet_base::Name;
use std::alloc::AllocError;
use std::marker::Model;

/// Columns in their order, each found by its name. Their names are in buckets by their hashes, as many as there are columns.
#[derive(Debug, Drop)]
pub(crate) struct IndexedColumns {
    columns: Vec<Column>,
    // For each bucket the place of the first column in it, or the number of the columns.
    firsts: Vec<usize>,
    // For each column the place of the next one in its bucket, or the number of the columns.
    nexts: Vec<usize>,
}

impl Model for IndexedColumns {
    ghost use Rattle.std.specs.Prelude.{List};
    ghost use Rattle.column_set.specs.declared.columns.Column.{Column};
    ghost use Rattle.column_set.specs.NameIndex.{IsIndex};

    ghost Value = { List Column };

    ghost view = { λ a. a.columns.items };

    ghost invariant = { λ a. IsIndex a.columns.items a.firsts.items a.nexts.items };
}

impl IndexedColumns {
    /// These columns, which it takes over.
    pub(crate) fn new(columns: Vec<Column>) -> Result<IndexedColumns, AllocError>
        ensures { IfOk result (λ made. made ≡ columns.items) }
    {
        let alloc = *columns.allocator();
        let count = columns.len();
        let mut firsts = vec![in alloc; count; count]?;
        let mut nexts = vec![in alloc; count; count]?;
        link(
            columns.as_slice(),
            firsts.as_mut_slice(),
            nexts.as_mut_slice(),
        );
        Ok(IndexedColumns {
            columns,
            firsts,
            nexts,
        })
    }

    /// The columns.
    pub(crate) fn as_slice(&self) -> &[Column]
        ensures { result.now ≡ self.now }
    {
        self.columns.as_slice()
    }

    /// The first column of this name.
    pub(crate) fn named(&self, name: &Name) -> Option<&Column>
        ensures { option_copied result ≡ column_named self.now name.now }
    {
        let count = self.columns.len();
        if count == 0 {
            return None;
        }
        let first = self.firsts[bucket_of(name, count)];
        named_from(self.columns.as_slice(), self.nexts.as_slice(), name, first)
    }
}

/// The first column of this name, from the place of the first one in its bucket on.
fn named_from<'a>(
    columns: &'a [Column],
    nexts: &[usize],
    name: &Name,
    first: usize,
) -> Option<&'a Column>
    requires places { length nexts.now ≡ length columns.now }
    requires links { GoesOn columns.now nexts.now }
    requires first { IsSoughtFrom columns.now name.now first }
    ensures { option_copied result ≡ column_named columns.now name.now }
{
    let mut place = first;
    while let Some(column) = columns.get(place) {
        if column.name == *name {
            return Some(column);
        }
        place = nexts[place];
    }
    None
}

/// Puts each column in front of those of its bucket, from the last one on.
fn link(columns: &[Column], firsts: &mut [usize], nexts: &mut [usize])
    requires firsts { firsts.old ≡ replicate (length columns.now) (length columns.now) }
    requires nexts { length nexts.old ≡ length columns.now }
    ensures { IsIndex columns.now firsts.new nexts.new }
{
    let mut place = columns.len();
    while place > 0 {
        place -= 1;
        let bucket = bucket_of(&columns[place].name, columns.len());
        nexts[place] = firsts[bucket];
        firsts[bucket] = place;
    }
}

/// The bucket of a name among so many.
fn bucket_of(name: &Name, count: usize) -> usize
    requires { 0 < count }
    ensures value { result ≡ bucket count name.now }
    ensures within { result < count }
{
    let scaled = name.hash() as u128 * count as u128;
    (scaled >> 64) as usize
}
