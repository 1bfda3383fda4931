//! Whether a node of a record is sound.

ghost use Rattle.std.specs.Prelude.{◌≡◌, ◌&&◌, [], true, length, nat_le, IfOk, IfSome};
ghost use Rattle.column_set.specs.RowReading.{row_in};
ghost use Rattle.image_contents.specs.NodesLeft.{node_in};
ghost use Rattle.image_contents.specs.RowsRead.{AreReadable, contents_read, values_read};
ghost use Rattle.image_findings.specs.RowFindings.{is_sound_node};
ghost use Rattle.long_rows.specs.WholeRows.{is_whole};
ghost use Rattle.stored_variants.specs.RecordRows.{row_in_node};

use crate::nodes::NodeRef;
use crate::rows::before::rows_before;
use crate::rows::table::TableRows;
use column_set::row_format::MAX_ROW_SIZE;
use jet_base::OutOfMemory;
use std::alloc::Global;
use version_store::Versions;

/// The most bytes of a bookmark.
const MAX_BOOKMARK_BYTES: usize = 255;

/// Whether a key has as many bytes as a bookmark may have.
fn is_bookmark(key: &[u8]) -> bool
    ensures { result ≡ (nat_le 1 (length key.now) && nat_le (length key.now) 255) }
{
    1 <= key.len() && key.len() <= MAX_BOOKMARK_BYTES
}

impl<'a> TableRows<'a> {
    /// Whether a node is sound, besides the held changes: its key is a bookmark, its extent has room for the row before each open
    /// change and is none but a row's, and it has a row that may stand there, or none while a held change has one before it.
    pub fn is_sound_node(
        &self,
        alloc: Global,
        versions: &Versions,
        node: NodeRef<'_>,
    ) -> Result<bool, OutOfMemory>
        requires readable { AreReadable self.now }
        requires whole { IfSome (row_in_node node.bytes.now) (λ row. is_whole (values_read self.now) (row_in row) ≡ true) }
        ensures { IfOk result (λ sound. sound ≡ is_sound_node self.now.number versions.now (contents_read self.now []) (node_in node.entry)) }
    {
        if !is_bookmark(node.key) {
            return Ok(false);
        }
        if node.extent > MAX_ROW_SIZE {
            return Ok(false);
        }
        let before = rows_before(versions, self.table.id(), node.key, node.extent);
        if before.lacks_room {
            return Ok(false);
        }
        if node.bytes.is_empty() {
            return Ok(before.has_row);
        }
        self.is_row_under(alloc, node.key, node.bytes)
    }
}
