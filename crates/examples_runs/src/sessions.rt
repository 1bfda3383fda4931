//! Sessions, cursors and schema calls: labels, limits and refusals.
#![tactic(auto, unfolding(script_text::specs::ScriptRun::running))]

ghost use Rattle.std.specs.Prelude.{IsTrue, List, [], ◌∷◌, ◌++◌, codes};
ghost use Rattle.examples_runs.specs.Tables.{runs_as, small_table};

/// A label that was not begun, and one that is begun twice.
pub fn session_labels()
    ensures { IsTrue (runs_as 4194304 (
        (codes "1 BeginTransaction", codes "JET_errInvalidSesid")
        ∷ (codes "1 BeginSession", codes "JET_errSuccess")
        ∷ (codes "1 BeginSession", codes "JET_errSessionInUse")
        ∷ [])) }
{}

/// Sixty-four sessions live at most.
pub fn sixty_four_sessions()
    ensures { IsTrue (runs_as 4194304 (
        (codes "1 BeginSession", codes "JET_errSuccess")
        ∷ (codes "2 BeginSession", codes "JET_errSuccess")
        ∷ (codes "3 BeginSession", codes "JET_errSuccess")
        ∷ (codes "4 BeginSession", codes "JET_errSuccess")
        ∷ (codes "5 BeginSession", codes "JET_errSuccess")
        ∷ (codes "6 BeginSession", codes "JET_errSuccess")
        ∷ (codes "7 BeginSession", codes "JET_errSuccess")
        ∷ (codes "8 BeginSession", codes "JET_errSuccess")
        ∷ (codes "9 BeginSession", codes "JET_errSuccess")
        ∷ (codes "10 BeginSession", codes "JET_errSuccess")
        ∷ (codes "11 BeginSession", codes "JET_errSuccess")
        ∷ (codes "12 BeginSession", codes "JET_errSuccess")
        ∷ (codes "13 BeginSession", codes "JET_errSuccess")
        ∷ (codes "14 BeginSession", codes "JET_errSuccess")
        ∷ (codes "15 BeginSession", codes "JET_errSuccess")
        ∷ (codes "16 BeginSession", codes "JET_errSuccess")
        ∷ (codes "17 BeginSession", codes "JET_errSuccess")
        ∷ (codes "18 BeginSession", codes "JET_errSuccess")
        ∷ (codes "19 BeginSession", codes "JET_errSuccess")
        ∷ (codes "20 BeginSession", codes "JET_errSuccess")
        ∷ (codes "21 BeginSession", codes "JET_errSuccess")
        ∷ (codes "22 BeginSession", codes "JET_errSuccess")
        ∷ (codes "23 BeginSession", codes "JET_errSuccess")
        ∷ (codes "24 BeginSession", codes "JET_errSuccess")
        ∷ (codes "25 BeginSession", codes "JET_errSuccess")
        ∷ (codes "26 BeginSession", codes "JET_errSuccess")
        ∷ (codes "27 BeginSession", codes "JET_errSuccess")
        ∷ (codes "28 BeginSession", codes "JET_errSuccess")
        ∷ (codes "29 BeginSession", codes "JET_errSuccess")
        ∷ (codes "30 BeginSession", codes "JET_errSuccess")
        ∷ (codes "31 BeginSession", codes "JET_errSuccess")
        ∷ (codes "32 BeginSession", codes "JET_errSuccess")
        ∷ (codes "33 BeginSession", codes "JET_errSuccess")
        ∷ (codes "34 BeginSession", codes "JET_errSuccess")
        ∷ (codes "35 BeginSession", codes "JET_errSuccess")
        ∷ (codes "36 BeginSession", codes "JET_errSuccess")
        ∷ (codes "37 BeginSession", codes "JET_errSuccess")
        ∷ (codes "38 BeginSession", codes "JET_errSuccess")
        ∷ (codes "39 BeginSession", codes "JET_errSuccess")
        ∷ (codes "40 BeginSession", codes "JET_errSuccess")
        ∷ (codes "41 BeginSession", codes "JET_errSuccess")
        ∷ (codes "42 BeginSession", codes "JET_errSuccess")
        ∷ (codes "43 BeginSession", codes "JET_errSuccess")
        ∷ (codes "44 BeginSession", codes "JET_errSuccess")
        ∷ (codes "45 BeginSession", codes "JET_errSuccess")
        ∷ (codes "46 BeginSession", codes "JET_errSuccess")
        ∷ (codes "47 BeginSession", codes "JET_errSuccess")
        ∷ (codes "48 BeginSession", codes "JET_errSuccess")
        ∷ (codes "49 BeginSession", codes "JET_errSuccess")
        ∷ (codes "50 BeginSession", codes "JET_errSuccess")
        ∷ (codes "51 BeginSession", codes "JET_errSuccess")
        ∷ (codes "52 BeginSession", codes "JET_errSuccess")
        ∷ (codes "53 BeginSession", codes "JET_errSuccess")
        ∷ (codes "54 BeginSession", codes "JET_errSuccess")
        ∷ (codes "55 BeginSession", codes "JET_errSuccess")
        ∷ (codes "56 BeginSession", codes "JET_errSuccess")
        ∷ (codes "57 BeginSession", codes "JET_errSuccess")
        ∷ (codes "58 BeginSession", codes "JET_errSuccess")
        ∷ (codes "59 BeginSession", codes "JET_errSuccess")
        ∷ (codes "60 BeginSession", codes "JET_errSuccess")
        ∷ (codes "61 BeginSession", codes "JET_errSuccess")
        ∷ (codes "62 BeginSession", codes "JET_errSuccess")
        ∷ (codes "63 BeginSession", codes "JET_errSuccess")
        ∷ (codes "64 BeginSession", codes "JET_errSuccess")
        ∷ (codes "65 BeginSession", codes "JET_errOutOfSessions")
        ∷ [])) }
{}

/// A session has sixteen cursors at most.
pub fn seventeenth_cursor()
    ensures { IsTrue (runs_as 4194304 (
        small_table
        ++ (codes "1 OpenTable 1 T", codes "JET_errSuccess")
        ∷ (codes "1 OpenTable 2 T", codes "JET_errSuccess")
        ∷ (codes "1 OpenTable 3 T", codes "JET_errSuccess")
        ∷ (codes "1 OpenTable 4 T", codes "JET_errSuccess")
        ∷ (codes "1 OpenTable 5 T", codes "JET_errSuccess")
        ∷ (codes "1 OpenTable 6 T", codes "JET_errSuccess")
        ∷ (codes "1 OpenTable 7 T", codes "JET_errSuccess")
        ∷ (codes "1 OpenTable 8 T", codes "JET_errSuccess")
        ∷ (codes "1 OpenTable 9 T", codes "JET_errSuccess")
        ∷ (codes "1 OpenTable 10 T", codes "JET_errSuccess")
        ∷ (codes "1 OpenTable 11 T", codes "JET_errSuccess")
        ∷ (codes "1 OpenTable 12 T", codes "JET_errSuccess")
        ∷ (codes "1 OpenTable 13 T", codes "JET_errSuccess")
        ∷ (codes "1 OpenTable 14 T", codes "JET_errSuccess")
        ∷ (codes "1 OpenTable 15 T", codes "JET_errSuccess")
        ∷ (codes "1 OpenTable 16 T", codes "JET_errSuccess")
        ∷ (codes "1 OpenTable 17 T", codes "JET_errOutOfCursors")
        ∷ [])) }
{}

/// Schema calls that the tables refuse.
pub fn schema_refusals()
    ensures { IsTrue (runs_as 4194304 (
        small_table
        ++ (codes "1 DeleteIndex T pk", codes "JET_errIndexMustStay")
        ∷ (codes "1 DeleteColumn T id", codes "JET_errColumnInUse")
        ∷ (codes "1 CreateTable T", codes "JET_errTableDuplicate")
        ∷ (codes "1 AddColumn T z Long multi", codes "JET_errMultiValuedColumnMustBeTagged")
        ∷ (codes "1 CreateIndex T p2 primary +a", codes "JET_errIndexHasPrimary")
        ∷ [])) }
{}

/// Schema calls in a transaction, and on a table with a cursor open.
pub fn schema_in_use()
    ensures { IsTrue (runs_as 4194304 (
        small_table
        ++ (codes "1 BeginTransaction", codes "JET_errSuccess")
        ∷ (codes "1 CreateTable T", codes "JET_errInTransaction")
        ∷ (codes "1 CommitTransaction", codes "JET_errSuccess")
        ∷ (codes "1 OpenTable 1 T", codes "JET_errSuccess")
        ∷ (codes "1 DeleteTable T", codes "JET_errTableInUse")
        ∷ [])) }
{}
