//! Temporary tables.
#![tactic(auto, unfolding(script_text::specs::ScriptRun::running))]

ghost use Rattle.std.specs.Prelude.{IsTrue, [], ◌∷◌, codes};
ghost use Rattle.examples_runs.specs.Tables.{runs_as};

/// The rows come by falling number, and those of one number in the order in which they were put.
pub fn order_of_rows()
    ensures { IsTrue (runs_as 4194304 (
        (codes "1 BeginSession", codes "JET_errSuccess")
        ∷ (codes "1 TempOpen 1 -Long Text", codes "JET_errSuccess")
        ∷ (codes "1 TempPut 1 n:1 t:a", codes "JET_errSuccess")
        ∷ (codes "1 TempPut 1 n:2 t:b", codes "JET_errSuccess")
        ∷ (codes "1 TempPut 1 n:2 t:c", codes "JET_errSuccess")
        ∷ (codes "1 TempMove 1 First", codes "JET_errSuccess")
        ∷ (codes "1 TempRead 1 2", codes "JET_errSuccess x:62")
        ∷ (codes "1 TempMove 1 Next", codes "JET_errSuccess")
        ∷ (codes "1 TempRead 1 2", codes "JET_errSuccess x:63")
        ∷ (codes "1 TempMove 1 Next", codes "JET_errSuccess")
        ∷ (codes "1 TempRead 1 2", codes "JET_errSuccess x:61")
        ∷ (codes "1 TempCount 1", codes "JET_errSuccess 3")
        ∷ [])) }
{}

/// Where keys are unique a second row of one key is refused, letters a to z having no case in it.
pub fn unique_keys()
    ensures { IsTrue (runs_as 4194304 (
        (codes "1 BeginSession", codes "JET_errSuccess")
        ∷ (codes "1 TempOpen 2 unique +Text", codes "JET_errSuccess")
        ∷ (codes "1 TempPut 2 t:a", codes "JET_errSuccess")
        ∷ (codes "1 TempPut 2 t:A", codes "JET_errKeyDuplicate")
        ∷ (codes "1 TempPut 2 t:b t:c", codes "JET_errInvalidParameter")
        ∷ (codes "1 TempRead 2 1", codes "JET_errNoCurrentRecord")
        ∷ [])) }
{}

/// A session has four temporary tables at most, under labels that no cursor and no other session has a part in. They end with it.
pub fn labels_of_their_own()
    ensures { IsTrue (runs_as 4194304 (
        (codes "1 TempOpen 1 +Long", codes "JET_errInvalidSesid")
        ∷ (codes "1 BeginSession", codes "JET_errSuccess")
        ∷ (codes "1 TempCount 1", codes "JET_errInvalidTableId")
        ∷ (codes "1 TempOpen 1 +Long", codes "JET_errSuccess")
        ∷ (codes "1 TempOpen 1 +Text", codes "JET_errInvalidTableId")
        ∷ (codes "1 TempOpen 2 +Text", codes "JET_errSuccess")
        ∷ (codes "1 TempOpen 3 +Binary", codes "JET_errSuccess")
        ∷ (codes "1 TempOpen 99 +GUID", codes "JET_errSuccess")
        ∷ (codes "1 TempOpen 4 +Bit", codes "JET_errOutOfCursors")
        ∷ (codes "1 TempOpen 2 +Bit", codes "JET_errInvalidTableId")
        ∷ (codes "1 CloseTable 1", codes "JET_errInvalidTableId")
        ∷ (codes "1 TempClose 3", codes "JET_errSuccess")
        ∷ (codes "1 TempClose 3", codes "JET_errInvalidTableId")
        ∷ (codes "1 TempOpen 4 +Bit", codes "JET_errSuccess")
        ∷ (codes "1 TempPut 1 n:1", codes "JET_errSuccess")
        ∷ (codes "1 TempCount 1", codes "JET_errSuccess 1")
        ∷ (codes "1 EndSession", codes "JET_errSuccess")
        ∷ (codes "1 TempCount 1", codes "JET_errInvalidSesid")
        ∷ (codes "1 BeginSession", codes "JET_errSuccess")
        ∷ (codes "1 TempCount 1", codes "JET_errInvalidTableId")
        ∷ (codes "2 BeginSession", codes "JET_errSuccess")
        ∷ (codes "2 TempOpen 1 +Long", codes "JET_errSuccess")
        ∷ (codes "1 TempCount 1", codes "JET_errInvalidTableId")
        ∷ [])) }
{}

/// Each value is one that SetColumn would take, and a row has 1,700 bytes at most. A number is read as one.
pub fn values_of_rows()
    ensures { IsTrue (runs_as 4194304 (
        (codes "1 BeginSession", codes "JET_errSuccess")
        ∷ (codes "1 TempOpen 1 +Short +Text Bit LongLong Text Text Text Text Text Text", codes "JET_errSuccess")
        ∷ (codes "1 TempPut 1 n:32768 r:256:61 null null null null null null null null", codes "JET_errInvalidBufferSize")
        ∷ (codes "1 TempPut 1 n:1 r:256:61 n:2 null null null null null null null", codes "JET_errColumnTooBig")
        ∷ (codes "1 TempPut 1 n:1 t:a n:2 null null null null null null null", codes "JET_errInvalidBufferSize")
        ∷ (codes "1 TempPut 1 n:1 r:255:61 n:1 null r:255:61 r:255:61 r:255:61 r:255:61 r:255:61 r:121:61", codes "JET_errRecordTooBig")
        ∷ (codes "1 TempPut 1 n:1 r:255:61 n:1 null r:255:61 r:255:61 r:255:61 r:255:61 r:255:61 r:120:61", codes "JET_errSuccess")
        ∷ (codes "1 TempPut 1 n:-5 x: x:07 n:-1 null null null null null null", codes "JET_errSuccess")
        ∷ (codes "1 TempPut 1 null null null null null null null null null null", codes "JET_errSuccess")
        ∷ (codes "1 TempMove 1 First", codes "JET_errSuccess")
        ∷ (codes "1 TempRead 1 1", codes "JET_wrnColumnNull")
        ∷ (codes "1 TempMove 1 Next", codes "JET_errSuccess")
        ∷ (codes "1 TempRead 1 1", codes "JET_errSuccess n:-5")
        ∷ (codes "1 TempRead 1 2", codes "JET_errSuccess x:")
        ∷ (codes "1 TempRead 1 3", codes "JET_errSuccess n:1")
        ∷ (codes "1 TempRead 1 4", codes "JET_errSuccess n:-1")
        ∷ (codes "1 TempRead 1 5", codes "JET_wrnColumnNull")
        ∷ (codes "1 TempRead 1 11", codes "JET_errColumnNotFound")
        ∷ (codes "1 TempMove 1 Last", codes "JET_errSuccess")
        ∷ (codes "1 TempMove 1 Next", codes "JET_errNoCurrentRecord")
        ∷ (codes "1 TempRead 1 99", codes "JET_errNoCurrentRecord")
        ∷ (codes "1 TempMove 1 Previous", codes "JET_errSuccess")
        ∷ (codes "1 TempRead 1 1", codes "JET_errSuccess n:1")
        ∷ [])) }
{}

/// A rollback takes no row away.
pub fn outside_transactions()
    ensures { IsTrue (runs_as 4194304 (
        (codes "1 BeginSession", codes "JET_errSuccess")
        ∷ (codes "1 BeginTransaction", codes "JET_errSuccess")
        ∷ (codes "1 TempOpen 1 +Long", codes "JET_errSuccess")
        ∷ (codes "1 TempPut 1 n:7", codes "JET_errSuccess")
        ∷ (codes "1 Rollback", codes "JET_errSuccess")
        ∷ (codes "1 TempMove 1 First", codes "JET_errSuccess")
        ∷ (codes "1 TempRead 1 1", codes "JET_errSuccess n:7")
        ∷ [])) }
{}
