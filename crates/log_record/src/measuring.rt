//! How many bytes an entry has.

ghost use Rattle.std.specs.Prelude.{◌≡◌, ◌+◌, ◌<◌, ◌^◌, length, IsTrue};
ghost use Rattle.log_grammar.specs.EntryBytes.{change_fits, entry_bytes, has_spelling, index_fits, kind_fits, schema_fits};
ghost use Rattle.log_record.specs.EntrySizes.{size_of_bookmark, size_of_change, size_of_copied, size_of_index, size_of_kind, size_of_name, size_of_schema};

use crate::spelling::{size_of_copied, size_of_fields};
use column_set::{Bookmark, Change};
use index_derive::{Entry, EntryKind, IndexRule, SchemaStep};
use jet_base::Name;

/// The bytes of an entry in front of its fields: its length, its tag and its session.
const HEAD_BYTES: usize = 9;

/// How many bytes a name has, with its length.
fn size_of_name(name: &Name) -> usize
    requires { length name.now < 256 }
    ensures { result ≡ size_of_name name.now }
{
    1 + name.as_bytes().len()
}

/// How many bytes a bookmark has, with its length.
fn size_of_bookmark(bookmark: &Bookmark) -> usize
    requires { length bookmark.now < 2 ^ 16 }
    ensures { result ≡ size_of_bookmark bookmark.now }
{
    2 + bookmark.as_bytes().len()
}

/// How many bytes the fields of a change have.
fn size_of_change(change: &Change) -> usize
    requires fits { IsTrue (change_fits change.now) }
    requires short { size_of_change change.now < 2 ^ 32 }
    ensures { result ≡ size_of_change change.now }
{
    match change {
        Change::Put {
            bookmark,
            copied,
            values,
            ..
        } => {
            let head = 6 + size_of_bookmark(bookmark) + size_of_copied(copied);
            head + size_of_fields(values.fields())
        }
        Change::Drop { bookmark, .. } | Change::Hold { bookmark, .. } => {
            4 + size_of_bookmark(bookmark)
        }
        Change::Add { bookmark, .. } => 10 + size_of_bookmark(bookmark),
    }
}

/// How many bytes what is told of an index beside its number has.
fn size_of_index(index: &IndexRule) -> usize
    requires { IsTrue (index_fits index.now) }
    ensures value { result ≡ size_of_index index.now }
    ensures small { result < 2 ^ 12 }
{
    let lists = 3 * index.segments.as_slice().len() + 3 * index.conditions.as_slice().len();
    12 + lists + size_of_name(&index.name)
}

/// How many bytes a schema change has behind its kind.
fn size_of_schema(step: &SchemaStep) -> usize
    requires { IsTrue (schema_fits step.now) }
    ensures value { result ≡ size_of_schema step.now }
    ensures small { result < 2 ^ 13 }
{
    match step {
        SchemaStep::CreateTable { name, .. } => 4 + size_of_name(name),
        SchemaStep::DeleteTable { .. } => 4,
        SchemaStep::AddColumn { column, .. } => 8 + size_of_name(&column.name),
        SchemaStep::CreateIndex { index, .. } => 6 + size_of_index(index),
        SchemaStep::DeleteColumn { .. } | SchemaStep::DeleteIndex { .. } => 6,
    }
}

/// How many bytes the fields of an entry have.
fn size_of_kind(kind: &EntryKind) -> usize
    requires fits { IsTrue (kind_fits kind.now) }
    requires short { size_of_kind kind.now < 2 ^ 32 }
    ensures { result ≡ size_of_kind kind.now }
{
    match kind {
        EntryKind::Open(_) | EntryKind::Shut(_) => 4,
        EntryKind::Change(change) => size_of_change(change),
        EntryKind::Schema(step) => 1 + size_of_schema(step),
        _ => 0,
    }
}

/// How many bytes an entry has in the log.
#[tactic(auto, unfolding(log_grammar::specs::EntryBytes::has_spelling))]
pub fn entry_size(entry: &Entry) -> usize
    requires { IsTrue (has_spelling entry.now) }
    ensures value { result ≡ length (entry_bytes entry.now) }
    ensures small { result < 2 ^ 32 + 4 }
{
    HEAD_BYTES + size_of_kind(&entry.kind)
}
