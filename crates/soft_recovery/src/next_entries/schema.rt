//! Schema steps.

ghost use Rattle.std.specs.Prelude.{◌≡◌, ◌==◌, ◌↔◌, true, find, IfOk, IfSome, IsTrue, option_copied, map};
ghost use Rattle.index_derive.specs.declared.log.EntryKind.TheVariants as entry;
ghost use Rattle.index_derive.specs.declared.schema_calls.SchemaStep.{SchemaStep};
ghost use Rattle.database_state.specs.Lawful.{has_next_numbers, is_name};
ghost use Rattle.database_state.specs.SchemaSteps.{step_of_call};
ghost use Rattle.database_state.specs.State.{DatabaseState};
ghost use Rattle.session_local.specs.BuiltTables.{makes_built};
ghost use Rattle.laws_engine.specs.EngineState.{EngineState};
ghost use Rattle.laws_engine.specs.HoldsState.{HoldsState};
ghost use Rattle.laws_images.specs.SoundStates.{HasSoundCatalog};
ghost use Rattle.engine_parts.specs.SchemaRequests.{has_built_keys};
ghost use Rattle.soft_recovery.specs.LawfulSteps.{AsksFor, HaveOwnNames, as_asked, call_of, column_call, column_name, deleted_column_call, deleted_index_call, deleted_table_call, flags_of, index_call, is_lawful_step, lacks_column, makes_named, named_condition, named_segment};

use column_set::Column;
use engine_parts::{Engine, decide_schema};
use index_derive::{
    Condition, IndexRule, NamedCondition, NamedSegment, SchemaCall, SchemaStep, Segment,
};
use jet_base::{ColumnFlags, ColumnId, IndexId, Items, LONGEST_NAME, Name, OutOfMemory, Session};
use jet_catalog::{
    Catalog, TableDef, steps_of_calls_have_next_numbers, tables_are_found_without_records,
};
use laws_engine::tables_are_told;
use std::alloc::Global;

/// Whether a session's schema step may come next: nothing refuses it, and it carries the next free numbers. It is the same in
/// every state that the engine holds. Whether the session is live, and the log not full, is not asked here. Tables, columns and
/// indexes have names of their own, as in each state that lawful entries lead to, and the keys of an index have at most 255
/// bytes, as in each entry that the log has bytes for.
///
/// A step may come exactly where the call that names what it names would ask for it. So the call is made, its names copied, and
/// decided as any other.
pub(crate) fn lawful_step(
    engine: &Engine,
    session: Session,
    made: &SchemaStep,
) -> Result<bool, OutOfMemory>
    requires names { HaveOwnNames engine.now.store.tables }
    requires built { makes_built (entry.Schema made.now) ≡ true }
    ensures { IfOk result (λ lawful. (state : DatabaseState) → HoldsState engine.now state → lawful ≡ is_lawful_step state session.0 made.now) }
{
    tables_are_told();
    tables_are_found_without_records();
    steps_of_calls_have_next_numbers();
    if makes_named(made) {
        let catalog = engine.tables().catalog();
        let _numbered = catalog.tables();
        match call_of(engine.alloc, catalog, made)? {
            Some(call) => is_asked(engine, session, &call, made),
            None => Ok(false),
        }
    } else {
        Ok(false)
    }
}

// Whether what the step makes has a name.
fn makes_named(made: &SchemaStep) -> bool
    ensures { result ≡ makes_named made.now }
{
    match made {
        SchemaStep::CreateTable { name, .. } => is_name(name),
        SchemaStep::DeleteTable { .. } => true,
        SchemaStep::AddColumn { column, .. } => is_name(&column.name),
        SchemaStep::DeleteColumn { .. } => true,
        SchemaStep::CreateIndex { index, .. } => is_name(&index.name),
        SchemaStep::DeleteIndex { .. } => true,
    }
}

fn is_name(name: &Name) -> bool
    ensures { result ≡ is_name name.now }
{
    let count = name.as_bytes().len();
    1 <= count && count <= LONGEST_NAME
}

// Whether the call asks for the step, and nothing refuses it.
fn is_asked(
    engine: &Engine,
    session: Session,
    call: &SchemaCall,
    made: &SchemaStep,
) -> Result<bool, OutOfMemory>
    requires { has_built_keys call.now ≡ true }
    ensures { IfOk result (λ asked. (state : DatabaseState) → HoldsState engine.now state → (IsTrue asked ↔ AsksFor state session.0 call.now made.now)) }
{
    match decide_schema(engine, session, call)? {
        Ok(decided) => is_as_asked(&decided, made),
        Err(_) => Ok(false),
    }
}

// Whether a step that was decided is this one, in which a long column may be written without its being tagged.
fn is_as_asked(decided: &SchemaStep, made: &SchemaStep) -> Result<bool, OutOfMemory>
    ensures { IfOk result (λ same. IsTrue same ↔ (decided.now ≡ as_asked made.now)) }
{
    match made {
        SchemaStep::AddColumn { table, column } => {
            let asked = SchemaStep::AddColumn {
                table: *table,
                column: column.tagged_if_long()?,
            };
            Ok(decided.is(&asked))
        }
        SchemaStep::CreateTable { .. }
        | SchemaStep::DeleteTable { .. }
        | SchemaStep::DeleteColumn { .. }
        | SchemaStep::CreateIndex { .. }
        | SchemaStep::DeleteIndex { .. } => Ok(decided.is(made)),
    }
}

// The call, with the names of the table, the columns and the index that the step has by their numbers.
fn call_of(
    alloc: Global,
    catalog: &Catalog,
    made: &SchemaStep,
) -> Result<Option<SchemaCall>, OutOfMemory>
    ensures { IfOk result (λ call. call ≡ call_of catalog.now.tables made.now) }
{
    match made {
        SchemaStep::CreateTable { name, .. } => Ok(Some(SchemaCall::CreateTable {
            table: name.copy()?,
        })),
        SchemaStep::DeleteTable { table } => match catalog.by_id(*table) {
            Some(found) => Ok(Some(deleted_table_call(found)?)),
            None => Ok(None),
        },
        SchemaStep::AddColumn { table, column } => match catalog.by_id(*table) {
            Some(found) => Ok(Some(column_call(found, column)?)),
            None => Ok(None),
        },
        SchemaStep::DeleteColumn { table, column } => match catalog.by_id(*table) {
            Some(found) => deleted_column_call(found, *column),
            None => Ok(None),
        },
        SchemaStep::CreateIndex { table, index } => match catalog.by_id(*table) {
            Some(found) => index_call(alloc, found, index),
            None => Ok(None),
        },
        SchemaStep::DeleteIndex { table, index } => match catalog.by_id(*table) {
            Some(found) => deleted_index_call(found, *index),
            None => Ok(None),
        },
    }
}

fn deleted_table_call(table: &TableDef) -> Result<SchemaCall, OutOfMemory>
    ensures { IfOk result (λ call. call ≡ deleted_table_call table.now) }
{
    Ok(SchemaCall::DeleteTable {
        table: table.name().copy()?,
    })
}

fn column_call(table: &TableDef, column: &Column) -> Result<SchemaCall, OutOfMemory>
    ensures { IfOk result (λ call. call ≡ column_call table.now column.now) }
{
    Ok(SchemaCall::AddColumn {
        table: table.name().copy()?,
        column: column.name.copy()?,
        kind: column.kind,
        flags: flags_of(column),
    })
}

// The flags with which the column is asked for.
fn flags_of(column: &Column) -> ColumnFlags
    ensures { result ≡ flags_of column.now }
{
    ColumnFlags {
        not_null: column.not_null,
        tagged: column.tagged,
        multi: column.multi,
        escrow: column.escrow,
        version: column.version,
        auto: column.auto,
    }
}

// The call that deletes the column of a number, where there is one.
fn deleted_column_call(
    table: &TableDef,
    column: ColumnId,
) -> Result<Option<SchemaCall>, OutOfMemory>
    ensures { IfOk result (λ call. call ≡ deleted_column_call table.now column) }
{
    match table.column_of(column) {
        Some(found) => Ok(Some(SchemaCall::DeleteColumn {
            table: table.name().copy()?,
            column: found.name.copy()?,
        })),
        None => Ok(None),
    }
}

// The call that makes the index, where all of its columns are there.
fn index_call(
    alloc: Global,
    table: &TableDef,
    rule: &IndexRule,
) -> Result<Option<SchemaCall>, OutOfMemory>
    ensures { IfOk result (λ call. call ≡ index_call table.now rule.now) }
{
    if lacks_column(table, rule) {
        Ok(None)
    } else {
        Ok(Some(SchemaCall::CreateIndex {
            table: table.name().copy()?,
            index: rule.name.copy()?,
            flags: rule.flags,
            key_most: rule.key_most,
            segments: named_segments(alloc, table, rule.segments.as_slice())?,
            conditions: named_conditions(alloc, table, rule.conditions.as_slice())?,
        }))
    }
}

// Whether a column of the rule is not there.
fn lacks_column(table: &TableDef, rule: &IndexRule) -> bool
    ensures { result ≡ lacks_column table.now rule.now }
{
    rule.segments
        .as_slice()
        .iter()
        .any(|segment| !table.has_column(segment.column))
        || rule
            .conditions
            .as_slice()
            .iter()
            .any(|condition| !table.has_column(condition.column))
}

// The key columns by their names.
fn named_segments(
    alloc: Global,
    table: &TableDef,
    segments: &[Segment],
) -> Result<Items<NamedSegment>, OutOfMemory>
    ensures { IfOk result (λ made. made ≡ map (named_segment table.now.columns) segments.now) }
{
    let mut made = Items::empty(alloc);
    for segment in segments {
        made.push(NamedSegment {
            column: column_name(alloc, table, segment.column)?,
            descending: segment.descending,
        })?;
    }
    Ok(made)
}

// The conditions by the names of their columns.
fn named_conditions(
    alloc: Global,
    table: &TableDef,
    conditions: &[Condition],
) -> Result<Items<NamedCondition>, OutOfMemory>
    ensures { IfOk result (λ made. made ≡ map (named_condition table.now.columns) conditions.now) }
{
    let mut made = Items::empty(alloc);
    for condition in conditions {
        made.push(NamedCondition {
            column: column_name(alloc, table, condition.column)?,
            must_be_null: condition.must_be_null,
        })?;
    }
    Ok(made)
}

// The name of the column of a number, without a byte where there is none.
fn column_name(alloc: Global, table: &TableDef, column: ColumnId) -> Result<Name, OutOfMemory>
    ensures { IfOk result (λ name. name ≡ column_name table.now.columns column) }
{
    match table.column_of(column) {
        Some(found) => found.name.copy(),
        None => Name::from_slice(alloc, &[]),
    }
}

// The call that deletes the index of a number, where there is one.
fn deleted_index_call(table: &TableDef, index: IndexId) -> Result<Option<SchemaCall>, OutOfMemory>
    ensures { IfOk result (λ call. call ≡ deleted_index_call table.now index) }
{
    match index_with_id(table, index) {
        Some(found) => Ok(Some(SchemaCall::DeleteIndex {
            table: table.name().copy()?,
            index: found.name.copy()?,
        })),
        None => Ok(None),
    }
}

// The index of a number.
fn index_with_id(table: &TableDef, index: IndexId) -> Option<&IndexRule>
    ensures { option_copied result ≡ find (λ r. r.id.0 == index.0) table.now.indexes }
{
    table.indexes().iter().find(|rule| rule.id == index)
}

/// The tables of an engine that holds a state with a sound catalog have names of their own, and so have the parts of each.
pub fn sound_catalogs_have_own_names()
    ensures { (engine : EngineState) (state : DatabaseState) → HoldsState engine state → HasSoundCatalog state → HaveOwnNames engine.store.tables }
{
    tables_are_told();
    tables_are_found_without_records();
}

/// A schema step that carries the next free numbers is the step of the call that names what it names, where there is such a call.
pub fn steps_with_next_numbers_are_those_of_their_calls()
    ensures { (state : DatabaseState) (made : SchemaStep) → HaveOwnNames state.tables → has_next_numbers state made ≡ true → IfSome (call_of state.tables made) (λ called. step_of_call state called ≡ as_asked made) }
{}
