//! Laws of the catalog of a database: what it says without records holds of the database, and how a call's refusals
//! are composed.

ghost use Rattle.std.specs.Prelude.{◌≡◌, ℕ, Bool, IsTrue, List, map, option_map};
ghost use Rattle.std.specs.Option.{option_or};
ghost use Rattle.index_derive.specs.declared.schema_calls.SchemaCall.{SchemaCall};
ghost use Rattle.index_derive.specs.declared.schema_calls.SchemaStep.{SchemaStep};
ghost use Rattle.database_state.specs.Table.{Table, table_named, table_with_id};
ghost use Rattle.database_state.specs.State.{DatabaseState};
ghost use Rattle.column_set.specs.Refusals.{first_refusal};
ghost use Rattle.database_state.specs.SchemaChanges.{schema_refusal, has_records};
ghost use Rattle.database_state.specs.SchemaSteps.{step_of_call};
ghost use Rattle.database_state.specs.Step.{with_schema_step};
ghost use Rattle.database_state.specs.Lawful.{has_next_numbers};
ghost use Rattle.jet_catalog.specs.Catalog.{IsNumbered, without_rows, catalog_of, database_of, catalog_after, has_new_id};
ghost use Rattle.jet_catalog.specs.Decisions.{decided, session_refusals, refusal_after, table_or_new, makes_named};

/// A table is found by its name and by its number with or without records.
pub fn tables_are_found_without_records()
    ensures named { (tables : List Table) (name : List ℕ) → table_named (map without_rows tables) name ≡ option_map without_rows (table_named tables name) }
    ensures numbered { (tables : List Table) (id : ℕ) → table_with_id (map without_rows tables) id ≡ option_map without_rows (table_with_id tables id) }
{}

/// A schema step does to the catalog of a database what it does to the database.
pub fn steps_are_the_same_without_records()
    ensures { (state : DatabaseState) (made : SchemaStep) → catalog_after (catalog_of state) made ≡ catalog_of (with_schema_step made state) }
{}

/// What a catalog decides of a call is what its database decides, and so is the step that the call asks for.
pub fn calls_ask_the_same_without_records()
    ensures step { (state : DatabaseState) (asked : SchemaCall) → step_of_call (database_of (catalog_of state)) asked ≡ step_of_call state asked }
    ensures decided { (state : DatabaseState) (holds_records : Bool) (asked : SchemaCall) → decided (database_of (catalog_of state)) holds_records asked ≡ decided state holds_records asked }
{}

/// A call is refused because of what sessions do or its table is not there, or else by what is decided of it, given
/// whether its table has records, or else because of those records.
pub fn refusals_of_a_call()
    ensures { (state : DatabaseState) (session : ℕ) (asked : SchemaCall)
        → IsNumbered (catalog_of state)
        → schema_refusal state session (step_of_call state asked)
        ≡ option_or (first_refusal (session_refusals state session asked)) (refusal_after (decided state (has_records (table_or_new state asked)) asked) (table_or_new state asked)) }
{}

/// A step that a call asks for has the next numbers, where the name of what it makes is one.
pub fn steps_of_calls_have_next_numbers()
    ensures { (state : DatabaseState) (asked : SchemaCall)
        → IsNumbered (catalog_of state)
        → IsTrue (makes_named asked)
        → IsTrue (has_next_numbers state (step_of_call state asked)) }
{}

/// A step that has the next numbers may be made in the catalog of its database.
pub fn steps_with_next_numbers_have_new_ids()
    ensures { (state : DatabaseState) (made : SchemaStep) → IsTrue (has_next_numbers state made) → IsTrue (has_new_id (catalog_of state) made) }
{}
