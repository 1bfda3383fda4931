//! What sessions see of equivalent states, and what conflicts there.

ghost use Rattle.std.specs.Prelude.{◌≡◌, ℕ, true, List, Some};
ghost use Rattle.column_set.specs.declared.changes.Change.{Change};
ghost use Rattle.index_derive.specs.declared.rules.IndexRule.{IndexRule};
ghost use Rattle.database_state.specs.Table.{Table, schema_of, table_with_id};
ghost use Rattle.database_state.specs.State.{DatabaseState};
ghost use Rattle.database_state.specs.View.{newest, view};
ghost use Rattle.database_state.specs.Conflicts.{has_write_conflict, has_key_conflict};
ghost use Rattle.database_state.specs.VersionStore.{version_span};
ghost use Rattle.database_state.specs.Equivalence.{AreEquivalent};
ghost use Rattle.laws_engine.specs.PlainIndexes.{reads_no_sum};

/// In two equivalent states every session sees the same tables, and the newest tables are the same.
pub fn equivalent_states_show_every_session_the_same()
    ensures view { (one other : DatabaseState) → AreEquivalent one other → (session : ℕ) → view one session ≡ view other session }
    ensures newest { (one other : DatabaseState) → AreEquivalent one other → newest one ≡ newest other }
{}

/// The same changes meet a write conflict, and the same keys a key conflict, where their index reads no sum.
pub fn equivalent_states_have_the_same_conflicts()
    ensures write { (one other : DatabaseState) → AreEquivalent one other → (session : ℕ) (change : Change)
        → has_write_conflict one session change ≡ has_write_conflict other session change }
    ensures key { (one other : DatabaseState) → AreEquivalent one other → (session id : ℕ) (table : Table) → table_with_id one.tables id ≡ Some table
        → (rule : IndexRule) → reads_no_sum table rule ≡ true → (key : List ℕ)
        → has_key_conflict one session id (schema_of table) rule key ≡ has_key_conflict other session id (schema_of table) rule key }
{}

/// The version store has the same span.
pub fn equivalent_states_have_the_same_span()
    ensures { (one other : DatabaseState) → AreEquivalent one other → version_span one ≡ version_span other }
{}
