//! What the engine decided of a call.

use crate::buffers::Buffers;
use crate::prepared::Prepared;
use crate::reply::Reply;
use index_derive::{Schema, Step};
use jet_base::TableId;
use temp_table::TempTable;

/// What the engine decided of a call that looks at the shared state, before anything changes.
#[derive(Debug, Drop)]
pub struct Decision {
    /// The entries that the log takes: none where the call is refused or only reads.
    pub step: Option<Step>,
    pub reply: Reply,
    /// The table that an OpenTable opens, with its schema.
    pub table: Option<(TableId, Schema)>,
    /// The update that a PrepareUpdate `insertcopy` or `replace` prepares.
    pub copied: Option<Prepared>,
    /// The temporary table that an IntersectIndexes fills.
    pub temp: Option<TempTable>,
    /// The memory of a session that begins.
    pub buffers: Option<Buffers>,
    /// The call waits for the log.
    pub flush: bool,
}
