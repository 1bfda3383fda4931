//! What the cursors of a session see of the engine.

ghost use Rattle.std.specs.Prelude.{◌≡◌, ℕ, true, is_some};
ghost use Rattle.cursor_nav.specs.Places.{are_sorted};
ghost use Rattle.stored_variants.specs.StoredVersions.{seen_entries};
ghost use Rattle.engine_parts.specs.Reading.{has_shown};

use cursor_nav::View;
use index_derive::{IndexEntry, Place};
use jet_base::{IndexId, TableId};
use table_versions::TableVersions;
use version_store::Reader;

/// The tables as a reader sees them: of each index the entries of the records that it sees.
#[derive(Drop)]
pub(crate) struct EngineView<'a> {
    tables: &'a TableVersions,
    reader: Reader,
    ghost in_order: { (table index : ℕ) → are_sorted (seen_entries reader tables.now.store table index) ≡ true },
}

impl<'a> EngineView<'a> {
    /// The view of these tables.
    pub(crate) fn new(tables: &'a TableVersions, reader: Reader) -> EngineView<'a>
        ensures tables { result.tables.now ≡ tables.now }
        ensures reader { result.reader ≡ reader }
    {
        tables.seen_entries_are_in_order();
        EngineView { tables, reader }
    }
}

impl<'a> View for EngineView<'a> {
    ghost entries = { λ view. seen_entries view.reader view.tables.now.store };

    ghost has_record = { λ view. has_shown view.reader view.tables.now.store };

    fn after(&self, table: TableId, index: IndexId, place: &Place) -> Option<IndexEntry> {
        match self.tables.by_id(table) {
            Some(found) => self
                .tables
                .walk(table, found.schema(), index, place, self.reader),
            None => None,
        }
    }

    fn before(&self, table: TableId, index: IndexId, place: &Place) -> Option<IndexEntry> {
        match self.tables.by_id(table) {
            Some(found) => self
                .tables
                .walk_back(table, found.schema(), index, place, self.reader),
            None => None,
        }
    }

    fn advance(&self, table: TableId, index: IndexId, place: &mut Place) -> bool {
        match self.tables.by_id(table) {
            Some(found) => self
                .tables
                .advance(table, found.schema(), index, place, self.reader),
            None => {
                *place = Place::After;
                false
            }
        }
    }

    fn retreat(&self, table: TableId, index: IndexId, place: &mut Place) -> bool {
        match self.tables.by_id(table) {
            Some(found) => self
                .tables
                .retreat(table, found.schema(), index, place, self.reader),
            None => {
                *place = Place::Before;
                false
            }
        }
    }

    fn least(&self, table: TableId, index: IndexId, bookmark: &[u8]) -> Option<IndexEntry> {
        match self.tables.by_id(table) {
            Some(found) => self
                .tables
                .least(table, found.schema(), index, bookmark, self.reader),
            None => None,
        }
    }

    fn has(&self, table: TableId, bookmark: &[u8]) -> bool {
        self.tables.look_up(table, bookmark, self.reader).is_some()
    }

    ghost sorted = { λ view. view.in_order };
}
