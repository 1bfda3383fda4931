//! Why a prepared update may not be put, before its room is asked for.

ghost use Rattle.std.specs.Prelude.{◌≡◌, ◌≤◌, [], true, if◌then◌else◌, None, Some, IfOk, IsOk, IsSomeAnd, option_copied};
ghost use Rattle.column_set.specs.RecordValues.{is_missing_a_value};
ghost use Rattle.index_derive.specs.Entries.{entries, is_legal, is_unique};
ghost use Rattle.database_state.specs.Puts.{null_refusals};
ghost use Rattle.column_set.specs.Refusals.{first_refusal};
ghost use Rattle.database_state.specs.Table.{schema_of, table_with_id};
ghost use Rattle.index_derive.specs.Schemas.{primary_rule, rule_with_id};
ghost use Rattle.session_local.specs.Preparing.{for_of, update_of};
ghost use Rattle.session_local.specs.RecordCalls.{is_other_key, is_primary_changed, replaced_by};
ghost use Rattle.table_versions.specs.KeyConflicts.{unique_refusals};
ghost use Rattle.record_decisions.specs.Updating.{HasLegalRules, IsSchemaOf, entry_refusals, keys_in, own_key, record_in, values_in};

use column_set::{Bookmark, Record};
use engine_parts::Engine;
use index_derive::{DeriveFault, IndexRule, Schema, derive, primary_key};
use jet_base::{Jet, OutOfMemory, Session, TableId};
use key_normal::Key;
use session_local::{OpenCursor, Prepared, Purpose};
use std::alloc::Global;
use table_versions::TableVersions;
use version_store::Reader;

/// Why the record may not be put, before its room is asked for.
pub(crate) fn record_refusal(
    engine: &Engine,
    session: Session,
    found: &OpenCursor,
    prepared: &Prepared,
    key: Option<&Key>,
) -> Result<Option<Jet>, OutOfMemory>
    requires named { IsSchemaOf engine.now found.now.cursor.table found.now.schema }
    requires rules { HasLegalRules found.now.schema }
    requires key { option_copied key ≡ own_key found.now.schema prepared.now.buffer.fields }
    ensures { IfOk result (λ refusal. refusal ≡ first_refusal (record_in engine.now session.0 found.now (update_of prepared.now))) }
{
    let table = found.cursor().table();
    let schema = found.schema();
    match values_refusal(engine.alloc, schema, prepared) {
        Ok(None) => {
            let own = replaced_by(&prepared.purpose);
            let values = prepared.buffer.values();
            Ok(keys_refusal(engine, session, table, schema, own, values, key))
        }
        Ok(Some(refusal)) => Ok(Some(refusal)),
        Err(fault) => Err(fault),
    }
}

// Why the values alone may not be put: one is missing, a replace has another primary key, or an index refuses them.
fn values_refusal(
    alloc: Global,
    schema: &Schema,
    prepared: &Prepared,
) -> Result<Option<Jet>, OutOfMemory>
    requires rules { HasLegalRules schema.now }
    ensures { IfOk result (λ refusal. refusal ≡ first_refusal (values_in schema.now (update_of prepared.now))) }
{
    let values = prepared.buffer.values();
    if is_missing_a_value(schema, values) {
        Ok(Some(Jet::NullInvalid))
    } else if is_primary_changed(schema, &prepared.purpose, values) {
        Ok(Some(Jet::RecordPrimaryChanged))
    } else {
        null_refusal(alloc, schema, values)
    }
}

/// Whether a column that must not be NULL has no value.
pub fn is_missing_a_value(schema: &Schema, values: &Record) -> bool
    ensures { result ≡ is_missing_a_value schema.now.columns values.now }
{
    schema.columns.as_slice().iter().any(|column| column.not_null
        && values.values(column.id).is_empty())
}

// Whether a replace would change the record's key in the primary index.
fn is_primary_changed(schema: &Schema, purpose: &Purpose, values: &Record) -> bool
    requires rules { HasLegalRules schema.now }
    ensures { result ≡ is_primary_changed schema.now (for_of purpose.now) values.now }
{
    match purpose {
        Purpose::Insert(_) => false,
        Purpose::Replace(bookmark) => is_other_key(schema, bookmark, values),
    }
}

// Whether the record's key in the primary index is another than the bookmark. Apart, since a key is large and an insert makes
// none here.
#[inline(never)]
fn is_other_key(schema: &Schema, bookmark: &Bookmark, values: &Record) -> bool
    requires rules { HasLegalRules schema.now }
    ensures { result ≡ is_other_key schema.now bookmark.now values.now (primary_rule schema.now) }
{
    match schema.primary_rule() {
        Some(rule) => {
            let key = primary_key(rule, schema, values);
            key.as_bytes() != bookmark.as_bytes()
        }
        None => false,
    }
}

/// Why an index refuses the record for a NULL or for a cut key: the primary one is asked first. It takes memory only where an
/// index disallows something.
pub fn null_refusal(
    alloc: Global,
    schema: &Schema,
    values: &Record,
) -> Result<Option<Jet>, OutOfMemory>
    requires rules { HasLegalRules schema.now }
    ensures { IfOk result (λ refusal. refusal ≡ first_refusal (null_refusals schema.now values.now)) }
{
    for rule in schema.indexes.as_slice() {
        match entries_refusal(alloc, rule, schema, values) {
            Ok(None) => {}
            Ok(Some(refusal)) => return Ok(Some(refusal)),
            Err(fault) => return Err(fault),
        }
    }
    Ok(None)
}

// Why one index refuses the record. It takes memory only where the index disallows something.
fn entries_refusal(
    alloc: Global,
    rule: &IndexRule,
    schema: &Schema,
    values: &Record,
) -> Result<Option<Jet>, OutOfMemory>
    requires legal { is_legal rule.now schema.now ≡ true }
    requires short { rule.now.key_most ≤ 255 }
    ensures { IfOk result (λ refusal. refusal ≡ first_refusal (entry_refusals schema.now values.now rule.now)) }
{
    if !rule.flags.disallownull && !rule.flags.disallowtruncation {
        return Ok(None);
    }
    match derive::entries(alloc, rule, schema, values) {
        Ok(_) => Ok(None),
        Err(DeriveFault::NullKeyDisallowed) => Ok(Some(Jet::NullKeyDisallowed)),
        Err(DeriveFault::KeyTruncated) => Ok(Some(Jet::KeyTruncated)),
        Err(DeriveFault::OutOfMemory) => Err(OutOfMemory),
    }
}

/// Why a record may not be put for its keys in the unique indexes, none of which refuses the record itself. It comes in the place
/// of the one under the bookmark of `own`, if one is given; `key` is its key in the primary index, if the table has one. It takes
/// no memory.
pub fn keys_refusal(
    engine: &Engine,
    session: Session,
    table: TableId,
    schema: &Schema,
    own: Option<&[u8]>,
    values: &Record,
    key: Option<&Key>,
) -> Option<Jet>
    requires named { IsSchemaOf engine.now table.0 schema.now }
    requires rules { HasLegalRules schema.now }
    requires taken { first_refusal (null_refusals schema.now values.now) ≡ None }
    requires key { option_copied key ≡ own_key schema.now values.now }
    ensures { result ≡ first_refusal (keys_in engine.now session.0 table.0 schema.now (option_copied own.entry) values.now) }
{
    let reader = engine.reader(session);
    let tables = engine.tables();
    for rule in schema.indexes.as_slice() {
        match rule_refusal(tables, reader, table, schema, rule, own, values, key) {
            Some(refusal) => return Some(refusal),
            None => {}
        }
    }
    None
}

// The same of one index, which is asked where it is unique.
fn rule_refusal(
    tables: &TableVersions,
    reader: Reader,
    table: TableId,
    schema: &Schema,
    rule: &IndexRule,
    own: Option<&[u8]>,
    values: &Record,
    key: Option<&Key>,
) -> Option<Jet>
    requires named { IsSomeAnd (table_with_id tables.now.store.tables table.0) (λ t. schema.now ≡ schema_of t) }
    requires rule { rule_with_id schema.now rule.now.id.0 ≡ Some rule.now }
    requires rules { HasLegalRules schema.now }
    requires taken { IsOk (entries rule.now schema.now values.now) }
    requires key { option_copied key ≡ own_key schema.now values.now }
    ensures { result ≡ first_refusal (if is_unique rule.now then unique_refusals reader tables.now.store table.0 schema.now rule.now (option_copied own.entry) values.now else []) }
{
    if is_unique(rule) {
        unique_refusal(tables, reader, table, schema, rule, own, values, key)
    } else {
        None
    }
}

// The same of a unique index. The key in the primary one is not made again.
fn unique_refusal(
    tables: &TableVersions,
    reader: Reader,
    table: TableId,
    schema: &Schema,
    rule: &IndexRule,
    own: Option<&[u8]>,
    values: &Record,
    key: Option<&Key>,
) -> Option<Jet>
    requires named { IsSomeAnd (table_with_id tables.now.store.tables table.0) (λ t. schema.now ≡ schema_of t) }
    requires rule { rule_with_id schema.now rule.now.id.0 ≡ Some rule.now }
    requires rules { HasLegalRules schema.now }
    requires taken { IsOk (entries rule.now schema.now values.now) }
    requires key { option_copied key ≡ own_key schema.now values.now }
    ensures { result ≡ first_refusal (unique_refusals reader tables.now.store table.0 schema.now rule.now (option_copied own.entry) values.now) }
{
    if let Some(key) = key
        && is_primary_rule(schema, rule)
    {
        tables.primary_refusal(reader, table, schema, rule, own, key)
    } else {
        tables.key_refusal(reader, table, schema, rule, own, values)
    }
}

// Whether the index is the primary one, whose key is the bookmark of a new record.
fn is_primary_rule(schema: &Schema, rule: &IndexRule) -> bool
    requires rule { rule_with_id schema.now rule.now.id.0 ≡ Some rule.now }
    requires rules { HasLegalRules schema.now }
    ensures { result ≡ true → primary_rule schema.now ≡ Some rule.now }
{
    match schema.primary_rule() {
        Some(primary) => primary.id.0 == rule.id.0,
        None => false,
    }
}

// Whether no two records may have an equal key.
fn is_unique(rule: &IndexRule) -> bool
    ensures { result ≡ is_unique rule.now }
{
    rule.flags.primary || rule.flags.unique
}

// The bookmark of the record in whose place another comes.
fn replaced_by(purpose: &Purpose) -> Option<&[u8]>
    ensures { option_copied result ≡ replaced_by (for_of purpose.now) }
{
    match purpose {
        Purpose::Insert(_) => None,
        Purpose::Replace(bookmark) => Some(bookmark.as_bytes()),
    }
}
