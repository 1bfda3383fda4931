//! Transactions: levels, snapshots, conflicts, locks, roll back and the limit of the version store.
#![tactic(auto, unfolding(script_text::specs::ScriptRun::running))]

ghost use Rattle.std.specs.Prelude.{IsTrue, List, [], ◌∷◌, ◌++◌, codes};
ghost use Rattle.examples_runs.specs.Tables.{runs_as, small_table, small_table_of_two, key_of_a_deleted_record};

/// A reader sees the records as its transaction began.
pub fn reader_that_began_earlier()
    ensures { IsTrue (runs_as 4194304 (
        small_table
        ++ (codes "1 CreateIndex T ia +a", codes "JET_errSuccess")
        ∷ (codes "1 CreateIndex T im +m", codes "JET_errSuccess")
        ∷ (codes "2 BeginSession", codes "JET_errSuccess")
        ∷ (codes "1 OpenTable 1 T", codes "JET_errSuccess")
        ∷ (codes "2 OpenTable 1 T", codes "JET_errSuccess")
        ∷ (codes "1 BeginTransaction", codes "JET_errSuccess")
        ∷ (codes "2 PrepareUpdate 1 insert", codes "JET_errSuccess")
        ∷ (codes "2 SetColumn 1 id 1 n:1", codes "JET_errSuccess")
        ∷ (codes "2 SetColumn 1 a 1 t:x", codes "JET_errSuccess")
        ∷ (codes "2 SetColumn 1 m 0 t:y", codes "JET_errSuccess")
        ∷ (codes "2 Update 1", codes "JET_errSuccess")
        ∷ (codes "1 Move 1 First", codes "JET_errNoCurrentRecord")
        ∷ (codes "1 SetCurrentIndex 1 ia", codes "JET_errSuccess")
        ∷ (codes "1 Move 1 First", codes "JET_errNoCurrentRecord")
        ∷ (codes "1 SetCurrentIndex 1 im", codes "JET_errSuccess")
        ∷ (codes "1 Move 1 First", codes "JET_errNoCurrentRecord")
        ∷ (codes "1 CommitTransaction", codes "JET_errSuccess")
        ∷ (codes "1 SetCurrentIndex 1 pk", codes "JET_errSuccess")
        ∷ (codes "1 Move 1 First", codes "JET_errSuccess")
        ∷ (codes "1 SetCurrentIndex 1 ia", codes "JET_errSuccess")
        ∷ (codes "1 Move 1 First", codes "JET_errSuccess")
        ∷ (codes "1 SetCurrentIndex 1 im", codes "JET_errSuccess")
        ∷ (codes "1 Move 1 First", codes "JET_errSuccess")
        ∷ [])) }
{}

/// A replace locks its record; a commit since the begin is a conflict, and a new transaction has none.
pub fn record_write_conflict()
    ensures { IsTrue (runs_as 4194304 (
        small_table_of_two
        ++ (codes "1 PrepareUpdate 1 insert", codes "JET_errSuccess")
        ∷ (codes "1 SetColumn 1 id 1 n:1", codes "JET_errSuccess")
        ∷ (codes "1 Update 1", codes "JET_errSuccess")
        ∷ (codes "1 BeginTransaction", codes "JET_errSuccess")
        ∷ (codes "2 BeginTransaction", codes "JET_errSuccess")
        ∷ (codes "1 Move 1 First", codes "JET_errSuccess")
        ∷ (codes "2 Move 1 First", codes "JET_errSuccess")
        ∷ (codes "1 PrepareUpdate 1 replace", codes "JET_errSuccess")
        ∷ (codes "2 PrepareUpdate 1 replace", codes "JET_errWriteConflict")
        ∷ (codes "2 GetLock 1", codes "JET_errWriteConflict")
        ∷ (codes "1 SetColumn 1 a 1 t:new", codes "JET_errSuccess")
        ∷ (codes "1 Update 1", codes "JET_errSuccess")
        ∷ (codes "1 CommitTransaction", codes "JET_errSuccess")
        ∷ (codes "2 PrepareUpdate 1 replace", codes "JET_errWriteConflict")
        ∷ (codes "2 Rollback", codes "JET_errSuccess")
        ∷ (codes "2 BeginTransaction", codes "JET_errSuccess")
        ∷ (codes "2 PrepareUpdate 1 replace", codes "JET_errSuccess")
        ∷ [])) }
{}

/// A key that another session gave up, and has not committed, is a conflict for an insert; after it is free, a duplicate is told apart.
pub fn unique_key_conflict()
    ensures { IsTrue (runs_as 4194304 (
        small_table
        ++ (codes "1 CreateIndex T ia unique +a", codes "JET_errSuccess")
        ∷ (codes "2 BeginSession", codes "JET_errSuccess")
        ∷ (codes "1 OpenTable 1 T", codes "JET_errSuccess")
        ∷ (codes "2 OpenTable 1 T", codes "JET_errSuccess")
        ∷ (codes "1 PrepareUpdate 1 insert", codes "JET_errSuccess")
        ∷ (codes "1 SetColumn 1 id 1 n:1", codes "JET_errSuccess")
        ∷ (codes "1 SetColumn 1 a 1 t:k", codes "JET_errSuccess")
        ∷ (codes "1 Update 1", codes "JET_errSuccess")
        ∷ (codes "1 BeginTransaction", codes "JET_errSuccess")
        ∷ (codes "2 Move 1 First", codes "JET_errSuccess")
        ∷ (codes "2 Delete 1", codes "JET_errSuccess")
        ∷ (codes "1 PrepareUpdate 1 insert", codes "JET_errSuccess")
        ∷ (codes "1 SetColumn 1 id 1 n:2", codes "JET_errSuccess")
        ∷ (codes "1 SetColumn 1 a 1 t:k", codes "JET_errSuccess")
        ∷ (codes "1 Update 1", codes "JET_errWriteConflict")
        ∷ (codes "1 Rollback", codes "JET_errSuccess")
        ∷ (codes "1 BeginTransaction", codes "JET_errSuccess")
        ∷ (codes "1 PrepareUpdate 1 insert", codes "JET_errSuccess")
        ∷ (codes "1 SetColumn 1 id 1 n:2", codes "JET_errSuccess")
        ∷ (codes "1 SetColumn 1 a 1 t:k", codes "JET_errSuccess")
        ∷ (codes "1 Update 1", codes "JET_errSuccess")
        ∷ (codes "1 PrepareUpdate 1 insert", codes "JET_errSuccess")
        ∷ (codes "1 SetColumn 1 id 1 n:3", codes "JET_errSuccess")
        ∷ (codes "1 SetColumn 1 a 1 t:k", codes "JET_errSuccess")
        ∷ (codes "1 Update 1", codes "JET_errKeyDuplicate")
        ∷ [])) }
{}

/// A transaction may delete a record and insert one under the same keys.
pub fn delete_then_insert_one_key()
    ensures { IsTrue (runs_as 4194304 (
        key_of_a_deleted_record)) }
{}

/// The same, counted in the index.
pub fn delete_then_insert_one_key_counted()
    ensures { IsTrue (runs_as 4194304 (
        key_of_a_deleted_record
        ++ (codes "1 SetCurrentIndex 1 ia", codes "JET_errSuccess")
        ∷ (codes "1 Move 1 First", codes "JET_errSuccess")
        ∷ (codes "1 IndexRecordCount 1", codes "JET_errSuccess 1")
        ∷ [])) }
{}

/// Seven levels stand at most, and each is undone or kept by itself.
pub fn seven_levels()
    ensures { IsTrue (runs_as 4194304 (
        small_table
        ++ (codes "1 OpenTable 1 T", codes "JET_errSuccess")
        ∷ (codes "1 BeginTransaction", codes "JET_errSuccess")
        ∷ (codes "1 BeginTransaction", codes "JET_errSuccess")
        ∷ (codes "1 BeginTransaction", codes "JET_errSuccess")
        ∷ (codes "1 BeginTransaction", codes "JET_errSuccess")
        ∷ (codes "1 BeginTransaction", codes "JET_errSuccess")
        ∷ (codes "1 BeginTransaction", codes "JET_errSuccess")
        ∷ (codes "1 BeginTransaction", codes "JET_errSuccess")
        ∷ (codes "1 BeginTransaction", codes "JET_errTransTooDeep")
        ∷ (codes "1 PrepareUpdate 1 insert", codes "JET_errSuccess")
        ∷ (codes "1 SetColumn 1 id 1 n:7", codes "JET_errSuccess")
        ∷ (codes "1 Update 1", codes "JET_errSuccess")
        ∷ (codes "1 Rollback", codes "JET_errSuccess")
        ∷ (codes "1 Move 1 First", codes "JET_errNoCurrentRecord")
        ∷ (codes "1 CommitTransaction", codes "JET_errSuccess")
        ∷ (codes "1 CommitTransaction", codes "JET_errSuccess")
        ∷ (codes "1 CommitTransaction", codes "JET_errSuccess")
        ∷ (codes "1 CommitTransaction", codes "JET_errSuccess")
        ∷ (codes "1 CommitTransaction", codes "JET_errSuccess")
        ∷ (codes "1 CommitTransaction", codes "JET_errSuccess")
        ∷ (codes "1 CommitTransaction", codes "JET_errNotInTransaction")
        ∷ (codes "1 Rollback", codes "JET_errNotInTransaction")
        ∷ [])) }
{}

/// A roll back brings back a record that was larger than the one in its place, while another session fills the pages.
pub fn roll_back_to_a_larger_record()
    ensures { IsTrue (runs_as 4194304 (
        small_table_of_two
        ++ (codes "1 PrepareUpdate 1 insert", codes "JET_errSuccess")
        ∷ (codes "1 SetColumn 1 id 1 n:1", codes "JET_errSuccess")
        ∷ (codes "1 SetColumn 1 a 1 r:255:61", codes "JET_errSuccess")
        ∷ (codes "1 Update 1", codes "JET_errSuccess")
        ∷ (codes "1 BeginTransaction", codes "JET_errSuccess")
        ∷ (codes "1 Move 1 First", codes "JET_errSuccess")
        ∷ (codes "1 PrepareUpdate 1 replace", codes "JET_errSuccess")
        ∷ (codes "1 SetColumn 1 a 1 t:x", codes "JET_errSuccess")
        ∷ (codes "1 Update 1", codes "JET_errSuccess")
        ∷ (codes "2 PrepareUpdate 1 insert", codes "JET_errSuccess")
        ∷ (codes "2 SetColumn 1 id 1 n:2", codes "JET_errSuccess")
        ∷ (codes "2 SetColumn 1 a 1 r:255:62", codes "JET_errSuccess")
        ∷ (codes "2 Update 1", codes "JET_errSuccess")
        ∷ (codes "2 PrepareUpdate 1 insert", codes "JET_errSuccess")
        ∷ (codes "2 SetColumn 1 id 1 n:3", codes "JET_errSuccess")
        ∷ (codes "2 SetColumn 1 a 1 r:255:62", codes "JET_errSuccess")
        ∷ (codes "2 Update 1", codes "JET_errSuccess")
        ∷ (codes "2 PrepareUpdate 1 insert", codes "JET_errSuccess")
        ∷ (codes "2 SetColumn 1 id 1 n:4", codes "JET_errSuccess")
        ∷ (codes "2 SetColumn 1 a 1 r:255:62", codes "JET_errSuccess")
        ∷ (codes "2 Update 1", codes "JET_errSuccess")
        ∷ (codes "2 PrepareUpdate 1 insert", codes "JET_errSuccess")
        ∷ (codes "2 SetColumn 1 id 1 n:5", codes "JET_errSuccess")
        ∷ (codes "2 SetColumn 1 a 1 r:255:62", codes "JET_errSuccess")
        ∷ (codes "2 Update 1", codes "JET_errSuccess")
        ∷ (codes "1 Rollback", codes "JET_errSuccess")
        ∷ (codes "1 Move 1 First", codes "JET_errSuccess")
        ∷ (codes "1 RetrieveColumn 1 id 1", codes "JET_errSuccess n:1")
        ∷ (codes "1 RetrieveColumn 1 a 1", codes "JET_errSuccess x:616161616161616161616161616161616161616161616161616161616161616161616161616161616161616161616161616161616161616161616161616161616161616161616161616161616161616161616161616161616161616161616161616161616161616161616161616161616161616161616161616161616161616161616161616161616161616161616161616161616161616161616161616161616161616161616161616161616161616161616161616161616161616161616161616161616161616161616161616161616161616161616161616161616161616161616161616161616161616161616161616161616161616161616161616161")
        ∷ [])) }
{}

/// Changes that a reader may still need fill the version store to its limit; when the reader has ended, the same update succeeds.
pub fn version_store_limit()
    ensures { IsTrue (runs_as 256 (
        small_table_of_two
        ++ (codes "1 BeginTransaction", codes "JET_errSuccess")
        ∷ (codes "2 PrepareUpdate 1 insert", codes "JET_errSuccess")
        ∷ (codes "2 SetColumn 1 id 1 n:1", codes "JET_errSuccess")
        ∷ (codes "2 Update 1", codes "JET_errSuccess")
        ∷ (codes "2 PrepareUpdate 1 insert", codes "JET_errSuccess")
        ∷ (codes "2 SetColumn 1 id 1 n:2", codes "JET_errSuccess")
        ∷ (codes "2 Update 1", codes "JET_errSuccess")
        ∷ (codes "2 PrepareUpdate 1 insert", codes "JET_errSuccess")
        ∷ (codes "2 SetColumn 1 id 1 n:3", codes "JET_errSuccess")
        ∷ (codes "2 Update 1", codes "JET_errSuccess")
        ∷ (codes "2 PrepareUpdate 1 insert", codes "JET_errSuccess")
        ∷ (codes "2 SetColumn 1 id 1 n:4", codes "JET_errSuccess")
        ∷ (codes "2 Update 1", codes "JET_errSuccess")
        ∷ (codes "2 PrepareUpdate 1 insert", codes "JET_errSuccess")
        ∷ (codes "2 SetColumn 1 id 1 n:5", codes "JET_errSuccess")
        ∷ (codes "2 Update 1", codes "JET_errVersionStoreOutOfMemory")
        ∷ (codes "1 CommitTransaction", codes "JET_errSuccess")
        ∷ (codes "2 Update 1", codes "JET_errSuccess")
        ∷ [])) }
{}

/// A second record under a primary key is refused, and stays prepared.
pub fn double_key()
    ensures { IsTrue (runs_as 4194304 (
        (codes "1 BeginSession", codes "JET_errSuccess")
        ∷ (codes "1 CreateTable T", codes "JET_errSuccess")
        ∷ (codes "1 AddColumn T K Long", codes "JET_errSuccess")
        ∷ (codes "1 AddColumn T V Text", codes "JET_errSuccess")
        ∷ (codes "1 CreateIndex T I primary +K", codes "JET_errSuccess")
        ∷ (codes "1 OpenTable 1 T", codes "JET_errSuccess")
        ∷ (codes "1 BeginTransaction", codes "JET_errSuccess")
        ∷ (codes "1 PrepareUpdate 1 insert", codes "JET_errSuccess")
        ∷ (codes "1 SetColumn 1 K 1 n:2", codes "JET_errSuccess")
        ∷ (codes "1 Update 1", codes "JET_errSuccess")
        ∷ (codes "1 PrepareUpdate 1 insert", codes "JET_errSuccess")
        ∷ (codes "1 SetColumn 1 K 1 n:2", codes "JET_errSuccess")
        ∷ (codes "1 Update 1", codes "JET_errKeyDuplicate")
        ∷ (codes "1 PrepareUpdate 1 insert", codes "JET_errAlreadyPrepared")
        ∷ (codes "1 SetColumn 1 K 1 n:3", codes "JET_errSuccess")
        ∷ (codes "1 Update 1", codes "JET_errSuccess")
        ∷ [])) }
{}
