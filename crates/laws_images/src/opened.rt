//! What an engine's newest records and held changes alone say of the database state: an engine that is opened holds the state
//! that these show. The functions do nothing: their contracts are the laws.

ghost use Rattle.std.specs.List.{AllByRecursion};
ghost use Rattle.std.specs.Prelude.{◌≡◌, true, List, ℕ, Bool, []};
ghost use Rattle.database_state.specs.State.{DatabaseState, PastChange};
ghost use Rattle.database_state.specs.Table.{Table};
ghost use Rattle.laws_engine.specs.EngineState.{EngineState};
ghost use Rattle.laws_engine.specs.HeldRecords.{HeldRecord};
ghost use Rattle.laws_engine.specs.Holding.{AllMatch, AllRise, Holds};
ghost use Rattle.laws_engine.specs.HoldsState.{HoldsState};
ghost use Rattle.laws_engine.specs.VersionedTables.{VersionedTables};
ghost use Rattle.laws_images.specs.GivenBack.{AllStand, SumsGiveBack};
ghost use Rattle.laws_images.specs.InTurn.{AreInTurn, ArePlaced, HaveTheirCosts};
ghost use Rattle.laws_images.specs.ShowableEngines.{IsShowable, state_of};
ghost use Rattle.laws_images.specs.ShownStates.{past_of, shown_state, tables_before, tables_with};
ghost use Rattle.laws_versions.specs.History.{HasBefores, IsHistory};
ghost use Rattle.laws_versions.specs.Readers.{is_standing};
ghost use Rattle.laws_versions.specs.Records.{Records, records_after_items, records_of};
ghost use Rattle.version_cleanup.specs.LiveSessions.{LiveState};

/// Held changes in turn that are taken back, the newest first, and made again lead to the newest records, and each that is no sum
/// has the record before it.
pub fn held_changes_come_back()
    ensures newest { (changes : List HeldRecord) (tables : List Table) → AreInTurn changes tables → records_after_items is_standing (records_of (tables_before changes tables)) (past_of changes tables) ≡ records_of tables }
    ensures befores { (changes : List HeldRecord) (tables : List Table) → AreInTurn changes tables → HasBefores (records_of (tables_before changes tables)) (past_of changes tables) }
    ensures readers { (changes : List HeldRecord) (tables : List Table) → AreInTurn changes tables → (test : PastChange → Bool) → records_of (tables_with test (tables_before changes tables) (past_of changes tables)) ≡ records_after_items test (records_of (tables_before changes tables)) (past_of changes tables) }
{}

/// So the state that an engine shows has a history, where its held changes are in turn and each is placed in it.
pub fn a_shown_state_has_a_history()
    ensures { (number greatest : ℕ) (sessions : List LiveState) (store : VersionedTables) → AreInTurn store.held store.tables → ArePlaced number greatest sessions store
        → IsHistory (records_of (tables_before store.held store.tables)) [] (past_of store.held store.tables) (shown_state number greatest sessions store) }
{}

/// And the tables with versions hold it, where their records rise and each held change costs what it is to cost.
pub fn a_shown_state_is_held()
    ensures { (number greatest : ℕ) (sessions : List LiveState) (store : VersionedTables) → AreInTurn store.held store.tables → ArePlaced number greatest sessions store → HaveTheirCosts store.held store.tables → AllRise store.tables
        → Holds (records_of (tables_before store.held store.tables)) [] (past_of store.held store.tables) store (shown_state number greatest sessions store) }
{}

/// So an engine of which all that is asked holds, however it came to be, holds the state that it shows: an engine that is read
/// from files is as good as one that lawful entries led to.
pub fn a_showable_engine_holds_its_state()
    ensures { (engine : EngineState) → IsShowable engine → HoldsState engine (state_of engine) }
{}

/// The other way round, held changes that are those of a history, all of which stand, are in turn, and taken back they lead to
/// its first records.
pub fn a_history_is_in_turn()
    ensures { (base : Records) (items : List PastChange) (held : List HeldRecord) (tables : List Table) → AllMatch items held → AllStand tables items → HasBefores base items → SumsGiveBack base items
        → records_after_items is_standing base items ≡ records_of tables → AreInTurn held tables × (records_of (tables_before held tables) ≡ base) }
{}

/// So are those of an engine that holds a state of which all kept changes stand.
pub fn a_settled_engine_is_in_turn()
    ensures { (engine : EngineState) (state : DatabaseState) (h : HoldsState engine state) → AllByRecursion (λ item. is_standing item ≡ true) h.kept
        → AreInTurn engine.store.held engine.store.tables × (records_of (tables_before engine.store.held engine.store.tables) ≡ h.base) }
{}
