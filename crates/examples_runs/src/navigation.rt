//! Cursors: seeks, ranges, bookmarks and the calls that walks do not need.
#![tactic(auto, unfolding(script_text::specs::ScriptRun::running))]

ghost use Rattle.std.specs.Prelude.{IsTrue, List, [], ◌∷◌, ◌++◌, codes};
ghost use Rattle.examples_runs.specs.Tables.{runs_as, small_table, record_in_hidden_order};

/// The five comparisons of a seek, the gaps that they leave, and ranges.
pub fn seeks_and_ranges()
    ensures { IsTrue (runs_as 4194304 (
        small_table
        ++ (codes "1 OpenTable 1 T", codes "JET_errSuccess")
        ∷ (codes "1 PrepareUpdate 1 insert", codes "JET_errSuccess")
        ∷ (codes "1 SetColumn 1 id 1 n:10", codes "JET_errSuccess")
        ∷ (codes "1 Update 1", codes "JET_errSuccess")
        ∷ (codes "1 PrepareUpdate 1 insert", codes "JET_errSuccess")
        ∷ (codes "1 SetColumn 1 id 1 n:20", codes "JET_errSuccess")
        ∷ (codes "1 Update 1", codes "JET_errSuccess")
        ∷ (codes "1 PrepareUpdate 1 insert", codes "JET_errSuccess")
        ∷ (codes "1 SetColumn 1 id 1 n:30", codes "JET_errSuccess")
        ∷ (codes "1 Update 1", codes "JET_errSuccess")
        ∷ (codes "1 MakeKey 1 new n:20", codes "JET_errSuccess")
        ∷ (codes "1 Seek 1 EQ", codes "JET_errSuccess")
        ∷ (codes "1 Seek 1 EQ", codes "JET_errKeyNotMade")
        ∷ (codes "1 MakeKey 1 new n:25", codes "JET_errSuccess")
        ∷ (codes "1 Seek 1 GE", codes "JET_wrnSeekNotEqual")
        ∷ (codes "1 RetrieveColumn 1 id 1", codes "JET_errSuccess n:30")
        ∷ (codes "1 MakeKey 1 new n:25", codes "JET_errSuccess")
        ∷ (codes "1 Seek 1 LE", codes "JET_wrnSeekNotEqual")
        ∷ (codes "1 RetrieveColumn 1 id 1", codes "JET_errSuccess n:20")
        ∷ (codes "1 MakeKey 1 new n:25", codes "JET_errSuccess")
        ∷ (codes "1 Seek 1 EQ", codes "JET_errRecordNotFound")
        ∷ (codes "1 Move 1 Next", codes "JET_errSuccess")
        ∷ (codes "1 RetrieveColumn 1 id 1", codes "JET_errSuccess n:30")
        ∷ (codes "1 MakeKey 1 new n:30", codes "JET_errSuccess")
        ∷ (codes "1 Seek 1 GT", codes "JET_errRecordNotFound")
        ∷ (codes "1 Move 1 Previous", codes "JET_errSuccess")
        ∷ (codes "1 RetrieveColumn 1 id 1", codes "JET_errSuccess n:30")
        ∷ (codes "1 Move 1 First", codes "JET_errSuccess")
        ∷ (codes "1 MakeKey 1 new n:20", codes "JET_errSuccess")
        ∷ (codes "1 SetIndexRange 1 upper inclusive", codes "JET_errSuccess")
        ∷ (codes "1 IndexRecordCount 1", codes "JET_errSuccess 2")
        ∷ (codes "1 Move 1 Next", codes "JET_errSuccess")
        ∷ (codes "1 RetrieveColumn 1 id 1", codes "JET_errSuccess n:20")
        ∷ (codes "1 Move 1 Next", codes "JET_errNoCurrentRecord")
        ∷ (codes "1 Move 1 Next", codes "JET_errSuccess")
        ∷ (codes "1 RetrieveColumn 1 id 1", codes "JET_errSuccess n:30")
        ∷ (codes "1 MakeKey 1 new n:5", codes "JET_errSuccess")
        ∷ (codes "1 SetIndexRange 1 upper", codes "JET_errNoCurrentRecord")
        ∷ [])) }
{}

/// A bookmark leads to a record in the current index, or nothing moves.
pub fn goto_bookmark()
    ensures { IsTrue (runs_as 4194304 (
        small_table
        ++ (codes "1 CreateIndex T ia ignorenull +a", codes "JET_errSuccess")
        ∷ (codes "1 OpenTable 1 T", codes "JET_errSuccess")
        ∷ (codes "1 SetCurrentIndex 1 ia", codes "JET_errSuccess")
        ∷ (codes "1 PrepareUpdate 1 insert", codes "JET_errSuccess")
        ∷ (codes "1 SetColumn 1 id 1 n:1", codes "JET_errSuccess")
        ∷ (codes "1 Update 1", codes "JET_errSuccess")
        ∷ (codes "1 GotoBookmark 1 x:7f80000001", codes "JET_errNoCurrentRecord")
        ∷ (codes "1 GotoBookmark 1 x:7f80000009", codes "JET_errRecordDeleted")
        ∷ (codes "1 GotoBookmark 1 x:", codes "JET_errInvalidBookmark")
        ∷ [])) }
{}

/// A table without a primary index gives its records the numbers of their entries.
pub fn hidden_key()
    ensures { IsTrue (runs_as 4194304 (
        record_in_hidden_order)) }
{}

/// No key is made for the order of hidden keys.
pub fn no_key_in_hidden_order()
    ensures { IsTrue (runs_as 4194304 (
        record_in_hidden_order
        ++ (codes "1 MakeKey 1 new n:1", codes "JET_errNoCurrentIndex")
        ∷ [])) }
{}

/// Every other call once.
pub fn remaining_calls()
    ensures { IsTrue (runs_as 4194304 (
        small_table
        ++ (codes "1 CreateIndex T im +m", codes "JET_errSuccess")
        ∷ (codes "1 OpenTable 1 T", codes "JET_errSuccess")
        ∷ (codes "1 PrepareUpdate 1 insert", codes "JET_errSuccess")
        ∷ (codes "1 SetColumn 1 id 1 n:1", codes "JET_errSuccess")
        ∷ (codes "1 SetColumn 1 a 1 t:x", codes "JET_errSuccess")
        ∷ (codes "1 Update 1", codes "JET_errSuccess")
        ∷ (codes "1 GotoBookmark 1 x:7f80000001", codes "JET_errSuccess")
        ∷ (codes "1 GetBookmark 1", codes "JET_errSuccess x:7f80000001")
        ∷ (codes "1 BeginTransaction", codes "JET_errSuccess")
        ∷ (codes "1 GetLock 1", codes "JET_errSuccess")
        ∷ (codes "1 PrepareUpdate 1 replace", codes "JET_errSuccess")
        ∷ (codes "1 PrepareUpdate 1 cancel", codes "JET_errSuccess")
        ∷ (codes "1 CommitTransaction lazy", codes "JET_errSuccess")
        ∷ (codes "1 CloseTable 1", codes "JET_errSuccess")
        ∷ (codes "1 DeleteIndex T im", codes "JET_errSuccess")
        ∷ (codes "1 DeleteColumn T m", codes "JET_errSuccess")
        ∷ (codes "1 DeleteTable T", codes "JET_errSuccess")
        ∷ (codes "1 CreateTable T", codes "JET_errSuccess")
        ∷ (codes "1 EndSession", codes "JET_errSuccess")
        ∷ [])) }
{}
