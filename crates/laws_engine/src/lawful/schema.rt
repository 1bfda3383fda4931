//! Schema calls.

ghost use Rattle.std.specs.Prelude.{◌≡◌, ℕ, true, List};
ghost use Rattle.jet_base.specs.declared.words.ColType.{ColType};
ghost use Rattle.jet_base.specs.declared.words.ColumnFlags.{ColumnFlags};
ghost use Rattle.index_derive.specs.declared.rules.IndexFlags.{IndexFlags};
ghost use Rattle.index_derive.specs.declared.schema_calls.NamedCondition.{NamedCondition};
ghost use Rattle.index_derive.specs.declared.schema_calls.NamedSegment.{NamedSegment};
ghost use Rattle.database_state.specs.Lawful.{is_name};
ghost use Rattle.laws_versions.specs.TableOrder.{HasTablesInOrder};
ghost use Rattle.session_local.specs.declared.request.Request.TheVariants as call;
ghost use Rattle.session_local.specs.Agreement.{Agrees};
ghost use Rattle.session_local.specs.Calls.{answer};
ghost use Rattle.session_local.specs.Outcome.{CallInputs};
ghost use Rattle.laws_engine.specs.LawfulSteps.{HasLawfulStep};

/// The steps of making and deleting a table. What is made needs a name of 1 to 64 bytes.
pub fn steps_of_tables_are_lawful()
    ensures create { (asked : CallInputs) (table : List ℕ) → Agrees asked.state asked.session asked.local → is_name table ≡ true → HasLawfulStep asked.state (answer asked (call.CreateTable table)) }
    ensures delete { (asked : CallInputs) (table : List ℕ) → Agrees asked.state asked.session asked.local → HasLawfulStep asked.state (answer asked (call.DeleteTable table)) }
{}

/// The steps of making and deleting a column, which carry the next free number of the table.
pub fn steps_of_columns_are_lawful()
    ensures create { (asked : CallInputs) (table column : List ℕ) (kind : ColType) (flags : ColumnFlags) → Agrees asked.state asked.session asked.local → HasTablesInOrder asked.state → is_name column ≡ true
        → HasLawfulStep asked.state (answer asked (call.AddColumn table column kind flags)) }
    ensures delete { (asked : CallInputs) (table column : List ℕ) → Agrees asked.state asked.session asked.local → HasLawfulStep asked.state (answer asked (call.DeleteColumn table column)) }
{}

/// The steps of making and deleting an index.
pub fn steps_of_indexes_are_lawful()
    ensures create { (asked : CallInputs) (table index : List ℕ) (flags : IndexFlags) (key_most : ℕ) (segments : List NamedSegment) (conditions : List NamedCondition) → Agrees asked.state asked.session asked.local → HasTablesInOrder asked.state → is_name index ≡ true
        → HasLawfulStep asked.state (answer asked (call.CreateIndex table index flags key_most segments conditions)) }
    ensures delete { (asked : CallInputs) (table index : List ℕ) → Agrees asked.state asked.session asked.local → HasLawfulStep asked.state (answer asked (call.DeleteIndex table index)) }
{}
