//! Rows of an image that are read with their long values.

ghost use Rattle.std.specs.Prelude.{◌≡◌, ◌<◌, ◌≤◌, ◌++◌, [], length, slice_index_or, take, IsSome, IsSomeAnd, IsTrue, MatchOption};
ghost use Rattle.btree_inplace.specs.Trees.{IsTree, nodes_of};
ghost use Rattle.column_set.specs.Reading.{IsFront};
ghost use Rattle.column_set.specs.RecordValues.{values_of};
ghost use Rattle.column_set.specs.Rows.{IsRowBytes};
ghost use Rattle.column_set.specs.RowReading.{row_in};
ghost use Rattle.image_contents.specs.FirstParts.{HaveFirstParts};
ghost use Rattle.long_rows.specs.RowReferences.{identifier};
ghost use Rattle.long_rows.specs.WholeRows.{is_whole};
ghost use Rattle.long_value.specs.Shown.{shown_values};
ghost use Rattle.long_value.specs.Values.{chunk_key, value_of};
ghost use Rattle.stored_variants.specs.RecordRows.{record_of};

use btree_inplace::Tree;
use byteorder::{BigEndian, ByteOrder};
use column_set::{RowRef, Values, rows_are_read_back};
use jet_base::ColumnId;
use page_space::Space;
use std::marker::Model;

/// A row of an image that is read in place with the long values of its table, without memory. Nothing needs to be known of how
/// often these are referred to.
///
/// Contracts see it as the record that it stands for. As `Values` it gives of a long value the first 1,024 bytes, as they lie in
/// their page, and every other value whole.
#[derive(Drop)]
pub struct ImageRow<'a> {
    space: &'a Space,
    long_values: &'a Tree,
    row: RowRef<'a>,
}

impl<'a> Model for ImageRow<'a> {
    ghost use Rattle.std.specs.Prelude.{IsTrue};
    ghost use Rattle.btree_inplace.specs.Trees.{IsTree, nodes_of};
    ghost use Rattle.column_set.specs.RecordValues.{RecordFields};
    ghost use Rattle.column_set.specs.Rows.{is_row};
    ghost use Rattle.image_contents.specs.FirstParts.{HaveFirstParts};
    ghost use Rattle.long_rows.specs.WholeRows.{is_whole, record_in};
    ghost use Rattle.long_value.specs.Shown.{shown_values};

    ghost Value = { RecordFields };

    ghost view = { λ a. record_in (shown_values (nodes_of a.space.now a.long_values.now)) a.row };

    ghost invariant = { λ a. IsTree a.space.now a.long_values.now × HaveFirstParts (nodes_of a.space.now a.long_values.now) × IsTrue (is_whole (shown_values (nodes_of a.space.now a.long_values.now)) a.row) };
}

impl<'a> ImageRow<'a> {
    /// The row that has these bytes, of a table that has its long values in the tree. Each long value that it names is there.
    pub fn new(space: &'a Space, long_values: &'a Tree, row: &'a [u8]) -> ImageRow<'a>
        requires tree { IsTree space.now long_values.now }
        requires values { HaveFirstParts (nodes_of space.now long_values.now) }
        requires row { IsRowBytes row.now }
        requires whole { IsTrue (is_whole (shown_values (nodes_of space.now long_values.now)) (row_in row.now)) }
        ensures { result ≡ record_of (shown_values (nodes_of space.now long_values.now)) row.now }
    {
        rows_are_read_back();
        ImageRow {
            space,
            long_values,
            row: RowRef::new(row),
        }
    }
}

/// The key of the first chunk of a long value: its identifier, and the number of the chunk, highest byte first.
fn first_chunk(entry: u64, place: u32) -> [u8; 16]
    ensures { result ≡ chunk_key (identifier entry place) 1 }
{
    let mut key = [0; 16];
    BigEndian::write_u64(&mut key, entry);
    BigEndian::write_u32(&mut key[8..], place);
    BigEndian::write_u32(&mut key[12..], 1);
    key
}

/// The first bytes of a long value, at most 1,024, as they lie in their page.
fn first_part<'a>(space: &'a Space, long_values: &Tree, entry: u64, place: u32) -> &'a [u8]
    requires tree { IsTree space.now long_values.now }
    requires values { HaveFirstParts (nodes_of space.now long_values.now) }
    requires there { IsSome (value_of (identifier entry place) (shown_values (nodes_of space.now long_values.now))) }
    ensures { IsSomeAnd (value_of (identifier entry place) (shown_values (nodes_of space.now long_values.now))) (λ value. result.now ≡ take 1024 value.bytes) }
{
    match long_values.get(space, first_chunk(entry, place).as_slice()) {
        Some(bytes) => bytes,
        None => &[],
    }
}

impl<'a> Values for ImageRow<'a> {
    ghost fields = { λ s. s };

    fn count(&self, column: ColumnId) -> usize {
        self.row.count(column)
    }

    fn value(&self, column: ColumnId, at: usize) -> Option<&[u8]> {
        match self.row.apart(column, at) {
            Some((entry, place, _)) => {
                Some(first_part(self.space, self.long_values, entry, place))
            }
            None => self.row.value(column, at),
        }
    }
}
