//! Schema calls.

ghost use Rattle.std.specs.Prelude.{ℕ, List};
ghost use Rattle.jet_base.specs.declared.words.ColType.{ColType};
ghost use Rattle.jet_base.specs.declared.words.ColumnFlags.{ColumnFlags};
ghost use Rattle.index_derive.specs.declared.rules.IndexFlags.{IndexFlags};
ghost use Rattle.index_derive.specs.declared.schema_calls.NamedCondition.{NamedCondition};
ghost use Rattle.index_derive.specs.declared.schema_calls.NamedSegment.{NamedSegment};
ghost use Rattle.database_state.specs.State.{PastChange};
ghost use Rattle.laws_versions.specs.Records.{Records};
ghost use Rattle.laws_versions.specs.History.{IsHistory};
ghost use Rattle.session_local.specs.declared.request.Request.TheVariants as call;
ghost use Rattle.session_local.specs.Calls.{answer};
ghost use Rattle.session_local.specs.Outcome.{CallInputs};
ghost use Rattle.laws_engine.specs.InStep.{IsInStep, StaysInStep};

/// A schema call changes no table that the session has open, and comes outside its transaction, where only inserts are prepared.
pub fn schema_calls_keep_a_session_in_step()
    ensures create_table { (base : Records) (dropped kept : List PastChange) (asked : CallInputs) (table : List ℕ) → IsHistory base dropped kept asked.state → IsInStep asked.state asked.session asked.local → StaysInStep asked (answer asked (call.CreateTable table)) }
    ensures delete_table { (base : Records) (dropped kept : List PastChange) (asked : CallInputs) (table : List ℕ) → IsHistory base dropped kept asked.state → IsInStep asked.state asked.session asked.local → StaysInStep asked (answer asked (call.DeleteTable table)) }
    ensures add_column { (base : Records) (dropped kept : List PastChange) (asked : CallInputs) (table column : List ℕ) (kind : ColType) (flags : ColumnFlags) → IsHistory base dropped kept asked.state → IsInStep asked.state asked.session asked.local
        → StaysInStep asked (answer asked (call.AddColumn table column kind flags)) }
    ensures delete_column { (base : Records) (dropped kept : List PastChange) (asked : CallInputs) (table column : List ℕ) → IsHistory base dropped kept asked.state → IsInStep asked.state asked.session asked.local → StaysInStep asked (answer asked (call.DeleteColumn table column)) }
    ensures create_index { (base : Records) (dropped kept : List PastChange) (asked : CallInputs) (table index : List ℕ) (flags : IndexFlags) (key_most : ℕ) (segments : List NamedSegment) (conditions : List NamedCondition) → IsHistory base dropped kept asked.state
        → IsInStep asked.state asked.session asked.local → StaysInStep asked (answer asked (call.CreateIndex table index flags key_most segments conditions)) }
    ensures delete_index { (base : Records) (dropped kept : List PastChange) (asked : CallInputs) (table index : List ℕ) → IsHistory base dropped kept asked.state → IsInStep asked.state asked.session asked.local → StaysInStep asked (answer asked (call.DeleteIndex table index)) }
{}
