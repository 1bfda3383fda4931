//! Tables and sessions are well formed.

ghost use Rattle.std.specs.Prelude.{◌≡◌, ℕ, true, IfSome, IsTrue};
ghost use Rattle.database_state.specs.Table.{schema_of, table_with_id};
ghost use Rattle.database_state.specs.State.{DatabaseState};
ghost use Rattle.session_local.specs.Local.{LocalState};
ghost use Rattle.session_local.specs.WellFormed.{IsWellFormed, is_well_formed_schema};
ghost use Rattle.laws_engine.specs.InStep.{IsInStep};
ghost use Rattle.laws_engine.specs.EngineState.{EngineState};
ghost use Rattle.laws_engine.specs.HoldsState.{HoldsState};

/// The schema of every table is well formed.
pub fn tables_are_well_formed()
    ensures { (engine : EngineState) (state : DatabaseState) → HoldsState engine state → (table : ℕ) → IfSome (table_with_id state.tables table) (λ t. is_well_formed_schema (schema_of t) ≡ true) }
{}

/// So is the own state of a session that is in step.
pub fn sessions_in_step_are_well_formed()
    ensures { (engine : EngineState) (state : DatabaseState) → HoldsState engine state → (session : ℕ) (local : LocalState) → IsInStep state session local → IsWellFormed local }
{}
