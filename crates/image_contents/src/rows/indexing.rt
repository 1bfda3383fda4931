//! Whether the indexes of a table take a record.

ghost use Rattle.std.specs.Prelude.{◌≡◌, ◌≤◌, true, is_ok, IfOk};
ghost use Rattle.database_state.specs.Lawful.{is_indexable};
ghost use Rattle.image_findings.specs.RowFindings.{is_hidden_key};
ghost use Rattle.image_contents.specs.LegalRules.{HasLegalRules};
ghost use Rattle.index_derive.specs.Entries.{entries, is_legal};

use crate::numbers::is_made;
use byteorder::{BigEndian, ByteOrder};
use column_set::Values;
use index_derive::{DeriveFault, IndexRule, Schema, derive};
use jet_base::OutOfMemory;
use std::alloc::Global;

/// The bytes of a hidden key.
const HIDDEN_KEY_BYTES: usize = 8;

/// Whether no index refuses the record, for a NULL or for a cut key.
pub(crate) fn is_indexable<R: Values>(
    alloc: Global,
    schema: &Schema,
    values: &R,
) -> Result<bool, OutOfMemory>
    requires { HasLegalRules schema.now }
    ensures { IfOk result (λ is. is ≡ is_indexable schema.now (R.fields values.now)) }
{
    for rule in schema.indexes.as_slice() {
        match takes(alloc, rule, schema, values) {
            Ok(true) => {}
            Ok(false) => return Ok(false),
            Err(fault) => return Err(fault),
        }
    }
    Ok(true)
}

/// Whether an index takes the record. It takes memory only where the index disallows something.
fn takes<R: Values>(
    alloc: Global,
    rule: &IndexRule,
    schema: &Schema,
    values: &R,
) -> Result<bool, OutOfMemory>
    requires legal { is_legal rule.now schema.now ≡ true }
    requires short { rule.now.key_most ≤ 255 }
    ensures { IfOk result (λ takes. takes ≡ is_ok (entries rule.now schema.now (R.fields values.now))) }
{
    if !rule.flags.disallownull && !rule.flags.disallowtruncation {
        return Ok(true);
    }
    match derive::entries(alloc, rule, schema, values) {
        Ok(_) => Ok(true),
        Err(DeriveFault::NullKeyDisallowed) => Ok(false),
        Err(DeriveFault::KeyTruncated) => Ok(false),
        Err(DeriveFault::OutOfMemory) => Err(OutOfMemory),
    }
}

/// Whether a bookmark is the number of an entry that was made, in 8 bytes, the highest first.
pub(crate) fn is_hidden_key(number: u64, bookmark: &[u8]) -> bool
    ensures { result ≡ is_hidden_key number bookmark.now }
{
    if bookmark.len() != HIDDEN_KEY_BYTES {
        return false;
    }
    is_made(number, BigEndian::read_u64(bookmark))
}
