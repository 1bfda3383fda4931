//! Records: values of every kind, sizes, long values, replaces and sums.
#![tactic(auto, unfolding(script_text::specs::ScriptRun::running))]

ghost use Rattle.std.specs.Prelude.{IsTrue, List, [], ◌∷◌, ◌++◌, codes};
ghost use Rattle.examples_runs.specs.Tables.{runs_as, small_table, letters_of_both_cases};

/// Values go in as numbers, bytes or text, as far as the type takes them.
pub fn values_of_types()
    ensures { IsTrue (runs_as 4194304 (
        (codes "1 BeginSession", codes "JET_errSuccess")
        ∷ (codes "1 CreateTable T", codes "JET_errSuccess")
        ∷ (codes "1 AddColumn T id Long", codes "JET_errSuccess")
        ∷ (codes "1 AddColumn T b Bit", codes "JET_errSuccess")
        ∷ (codes "1 AddColumn T s Short", codes "JET_errSuccess")
        ∷ (codes "1 AddColumn T t Text", codes "JET_errSuccess")
        ∷ (codes "1 CreateIndex T pk primary +id", codes "JET_errSuccess")
        ∷ (codes "1 OpenTable 1 T", codes "JET_errSuccess")
        ∷ (codes "1 BeginTransaction", codes "JET_errSuccess")
        ∷ (codes "1 PrepareUpdate 1 insert", codes "JET_errSuccess")
        ∷ (codes "1 SetColumn 1 id 1 n:1", codes "JET_errSuccess")
        ∷ (codes "1 SetColumn 1 b 1 x:07", codes "JET_errSuccess")
        ∷ (codes "1 RetrieveColumn 1 b 1 copy", codes "JET_errSuccess n:1")
        ∷ (codes "1 SetColumn 1 b 1 n:2", codes "JET_errInvalidBufferSize")
        ∷ (codes "1 SetColumn 1 s 1 x:0102", codes "JET_errSuccess")
        ∷ (codes "1 RetrieveColumn 1 s 1 copy", codes "JET_errSuccess n:513")
        ∷ (codes "1 SetColumn 1 s 1 x:01", codes "JET_errInvalidBufferSize")
        ∷ (codes "1 SetColumn 1 t 1 n:5", codes "JET_errInvalidBufferSize")
        ∷ (codes "1 SetColumn 1 t 1 t:", codes "JET_errSuccess")
        ∷ (codes "1 RetrieveColumn 1 t 1 copy", codes "JET_errSuccess x:")
        ∷ (codes "1 SetColumn 1 t 2 t:a", codes "JET_errBadItagSequence")
        ∷ (codes "1 Update 1", codes "JET_errSuccess")
        ∷ (codes "1 CommitTransaction", codes "JET_errSuccess")
        ∷ (codes "1 Move 1 First", codes "JET_errSuccess")
        ∷ (codes "1 RetrieveColumn 1 b 1", codes "JET_errSuccess n:1")
        ∷ (codes "1 RetrieveColumn 1 s 1", codes "JET_errSuccess n:513")
        ∷ (codes "1 RetrieveColumn 1 t 1", codes "JET_errSuccess x:")
        ∷ [])) }
{}

/// A record takes at most 1,700 bytes of its page.
pub fn record_sizes()
    ensures { IsTrue (runs_as 4194304 (
        (codes "1 BeginSession", codes "JET_errSuccess")
        ∷ (codes "1 CreateTable T", codes "JET_errSuccess")
        ∷ (codes "1 AddColumn T id Long", codes "JET_errSuccess")
        ∷ (codes "1 AddColumn T t1 Text", codes "JET_errSuccess")
        ∷ (codes "1 AddColumn T t2 Text", codes "JET_errSuccess")
        ∷ (codes "1 AddColumn T t3 Text", codes "JET_errSuccess")
        ∷ (codes "1 AddColumn T t4 Text", codes "JET_errSuccess")
        ∷ (codes "1 AddColumn T t5 Text", codes "JET_errSuccess")
        ∷ (codes "1 AddColumn T t6 Text", codes "JET_errSuccess")
        ∷ (codes "1 AddColumn T t7 Text", codes "JET_errSuccess")
        ∷ (codes "1 CreateIndex T pk primary +id", codes "JET_errSuccess")
        ∷ (codes "1 OpenTable 1 T", codes "JET_errSuccess")
        ∷ (codes "1 BeginTransaction", codes "JET_errSuccess")
        ∷ (codes "1 PrepareUpdate 1 insert", codes "JET_errSuccess")
        ∷ (codes "1 SetColumn 1 id 1 n:1", codes "JET_errSuccess")
        ∷ (codes "1 SetColumn 1 t1 1 r:255:61", codes "JET_errSuccess")
        ∷ (codes "1 SetColumn 1 t2 1 r:255:61", codes "JET_errSuccess")
        ∷ (codes "1 SetColumn 1 t3 1 r:255:61", codes "JET_errSuccess")
        ∷ (codes "1 SetColumn 1 t4 1 r:255:61", codes "JET_errSuccess")
        ∷ (codes "1 SetColumn 1 t5 1 r:255:61", codes "JET_errSuccess")
        ∷ (codes "1 SetColumn 1 t6 1 r:255:61", codes "JET_errSuccess")
        ∷ (codes "1 SetColumn 1 t7 1 r:125:61", codes "JET_errRecordTooBig")
        ∷ (codes "1 SetColumn 1 t7 1 r:124:61", codes "JET_errSuccess")
        ∷ [])) }
{}

/// Values of a multi-valued column are numbered from 1; taking one out closes up.
pub fn multi_valued_replace()
    ensures { IsTrue (runs_as 4194304 (
        letters_of_both_cases
        ++ (codes "1 BeginTransaction", codes "JET_errSuccess")
        ∷ (codes "1 Move 1 First", codes "JET_errSuccess")
        ∷ (codes "1 PrepareUpdate 1 replace", codes "JET_errSuccess")
        ∷ (codes "1 SetColumn 1 m 1 null", codes "JET_errSuccess")
        ∷ (codes "1 Update 1", codes "JET_errSuccess")
        ∷ (codes "1 RetrieveColumn 1 m 0", codes "JET_errSuccess n:2")
        ∷ (codes "1 RetrieveColumn 1 m 1", codes "JET_errSuccess x:42")
        ∷ (codes "1 RetrieveColumn 1 m 2", codes "JET_errSuccess x:61")
        ∷ (codes "1 RetrieveColumn 1 m 3", codes "JET_wrnColumnNull")
        ∷ (codes "1 Move 1 First", codes "JET_errSuccess")
        ∷ (codes "1 RetrieveKey 1", codes "JET_errSuccess x:7f410000000000000001")
        ∷ (codes "1 Move 1 Next", codes "JET_errSuccess")
        ∷ (codes "1 RetrieveKey 1", codes "JET_errSuccess x:7f420000000000000001")
        ∷ (codes "1 Move 1 Next", codes "JET_errNoCurrentRecord")
        ∷ [])) }
{}

/// Long values are read by their first bytes, copied, and seen by a reader that began before they went. A value of 300 bytes stands for one of a million.
pub fn long_values()
    ensures { IsTrue (runs_as 4194304 (
        small_table
        ++ (codes "1 AddColumn T t LongText", codes "JET_errSuccess")
        ∷ (codes "2 BeginSession", codes "JET_errSuccess")
        ∷ (codes "1 OpenTable 1 T", codes "JET_errSuccess")
        ∷ (codes "2 OpenTable 1 T", codes "JET_errSuccess")
        ∷ (codes "1 PrepareUpdate 1 insert", codes "JET_errSuccess")
        ∷ (codes "1 SetColumn 1 id 1 n:1", codes "JET_errSuccess")
        ∷ (codes "1 SetColumn 1 t 1 r:1048577:61", codes "JET_errColumnTooBig")
        ∷ (codes "1 SetColumn 1 t 1 r:300:61", codes "JET_errSuccess")
        ∷ (codes "1 Update 1", codes "JET_errSuccess")
        ∷ (codes "1 Move 1 First", codes "JET_errSuccess")
        ∷ (codes "1 RetrieveColumn 1 t 1 max 2", codes "JET_wrnBufferTruncated 300 x:6161")
        ∷ (codes "1 PrepareUpdate 1 insertcopy", codes "JET_errSuccess")
        ∷ (codes "1 SetColumn 1 id 1 n:2", codes "JET_errSuccess")
        ∷ (codes "1 Update 1", codes "JET_errSuccess")
        ∷ (codes "1 BeginTransaction", codes "JET_errSuccess")
        ∷ (codes "1 Move 1 First", codes "JET_errSuccess")
        ∷ (codes "2 Move 1 First", codes "JET_errSuccess")
        ∷ (codes "2 Delete 1", codes "JET_errSuccess")
        ∷ (codes "1 RetrieveColumn 1 t 1 max 2", codes "JET_wrnBufferTruncated 300 x:6161")
        ∷ [])) }
{}

/// A value of more than 255 bytes takes 21 bytes of its row, whatever its length.
pub fn long_value_sizes()
    ensures { IsTrue (runs_as 4194304 (
        (codes "1 BeginSession", codes "JET_errSuccess")
        ∷ (codes "1 CreateTable T", codes "JET_errSuccess")
        ∷ (codes "1 AddColumn T t LongText", codes "JET_errSuccess")
        ∷ (codes "1 AddColumn T b1 Binary", codes "JET_errSuccess")
        ∷ (codes "1 AddColumn T b2 Binary", codes "JET_errSuccess")
        ∷ (codes "1 AddColumn T b3 Binary", codes "JET_errSuccess")
        ∷ (codes "1 AddColumn T b4 Binary", codes "JET_errSuccess")
        ∷ (codes "1 AddColumn T b5 Binary", codes "JET_errSuccess")
        ∷ (codes "1 AddColumn T b6 Binary", codes "JET_errSuccess")
        ∷ (codes "1 AddColumn T b7 Binary", codes "JET_errSuccess")
        ∷ (codes "1 OpenTable 1 T", codes "JET_errSuccess")
        ∷ (codes "1 PrepareUpdate 1 insert", codes "JET_errSuccess")
        ∷ (codes "1 SetColumn 1 b1 1 r:255:00", codes "JET_errSuccess")
        ∷ (codes "1 SetColumn 1 b2 1 r:255:00", codes "JET_errSuccess")
        ∷ (codes "1 SetColumn 1 b3 1 r:255:00", codes "JET_errSuccess")
        ∷ (codes "1 SetColumn 1 b4 1 r:255:00", codes "JET_errSuccess")
        ∷ (codes "1 SetColumn 1 b5 1 r:255:00", codes "JET_errSuccess")
        ∷ (codes "1 SetColumn 1 b6 1 r:133:00", codes "JET_errSuccess")
        ∷ (codes "1 SetColumn 1 t 1 r:255:61", codes "JET_errSuccess")
        ∷ (codes "1 SetColumn 1 b6 1 r:134:00", codes "JET_errRecordTooBig")
        ∷ (codes "1 SetColumn 1 t 1 r:256:61", codes "JET_errSuccess")
        ∷ (codes "1 SetColumn 1 b7 1 r:234:00", codes "JET_errSuccess")
        ∷ (codes "1 SetColumn 1 b7 1 r:235:00", codes "JET_errRecordTooBig")
        ∷ (codes "1 SetColumn 1 t 1 r:2000:61", codes "JET_errSuccess")
        ∷ [])) }
{}

/// Sums of two sessions are no conflict; each reads its own, they wrap at 32 bits, and any other change conflicts.
pub fn escrow_sums()
    ensures { IsTrue (runs_as 4194304 (
        small_table
        ++ (codes "1 AddColumn T h Long escrow", codes "JET_errSuccess")
        ∷ (codes "2 BeginSession", codes "JET_errSuccess")
        ∷ (codes "1 OpenTable 1 T", codes "JET_errSuccess")
        ∷ (codes "2 OpenTable 1 T", codes "JET_errSuccess")
        ∷ (codes "1 PrepareUpdate 1 insert", codes "JET_errSuccess")
        ∷ (codes "1 SetColumn 1 id 1 n:1", codes "JET_errSuccess")
        ∷ (codes "1 Update 1", codes "JET_errSuccess")
        ∷ (codes "1 BeginTransaction", codes "JET_errSuccess")
        ∷ (codes "2 BeginTransaction", codes "JET_errSuccess")
        ∷ (codes "1 Move 1 First", codes "JET_errSuccess")
        ∷ (codes "2 Move 1 First", codes "JET_errSuccess")
        ∷ (codes "1 EscrowUpdate 1 h 5", codes "JET_errSuccess n:0")
        ∷ (codes "2 EscrowUpdate 1 h 7", codes "JET_errSuccess n:0")
        ∷ (codes "1 RetrieveColumn 1 h 1", codes "JET_errSuccess n:5")
        ∷ (codes "1 Rollback", codes "JET_errSuccess")
        ∷ (codes "2 CommitTransaction", codes "JET_errSuccess")
        ∷ (codes "1 RetrieveColumn 1 h 1", codes "JET_errSuccess n:7")
        ∷ (codes "2 RetrieveColumn 1 h 1", codes "JET_errSuccess n:7")
        ∷ (codes "1 BeginTransaction", codes "JET_errSuccess")
        ∷ (codes "1 EscrowUpdate 1 h 2147483640", codes "JET_errSuccess n:7")
        ∷ (codes "1 EscrowUpdate 1 h 1", codes "JET_errSuccess n:2147483647")
        ∷ (codes "1 RetrieveColumn 1 h 1", codes "JET_errSuccess n:-2147483648")
        ∷ (codes "2 BeginTransaction", codes "JET_errSuccess")
        ∷ (codes "2 PrepareUpdate 1 replace", codes "JET_errWriteConflict")
        ∷ [])) }
{}

/// An escrow column is set by sums alone, and begins at 0 in a copy.
pub fn escrow_not_updatable()
    ensures { IsTrue (runs_as 4194304 (
        small_table
        ++ (codes "1 AddColumn T h Long escrow", codes "JET_errSuccess")
        ∷ (codes "1 OpenTable 1 T", codes "JET_errSuccess")
        ∷ (codes "1 PrepareUpdate 1 insert", codes "JET_errSuccess")
        ∷ (codes "1 SetColumn 1 id 1 n:1", codes "JET_errSuccess")
        ∷ (codes "1 Update 1", codes "JET_errSuccess")
        ∷ (codes "1 PrepareUpdate 1 insert", codes "JET_errSuccess")
        ∷ (codes "1 SetColumn 1 h 1 n:1", codes "JET_errColumnNotUpdatable")
        ∷ (codes "1 PrepareUpdate 1 cancel", codes "JET_errSuccess")
        ∷ (codes "1 BeginTransaction", codes "JET_errSuccess")
        ∷ (codes "1 Move 1 First", codes "JET_errSuccess")
        ∷ (codes "1 EscrowUpdate 1 a 1", codes "JET_errInvalidColumnType")
        ∷ [])) }
{}

/// An escrow column is added to an empty table only.
pub fn escrow_on_a_table_with_a_record()
    ensures { IsTrue (runs_as 4194304 (
        small_table
        ++ (codes "1 OpenTable 1 T", codes "JET_errSuccess")
        ∷ (codes "1 PrepareUpdate 1 insert", codes "JET_errSuccess")
        ∷ (codes "1 SetColumn 1 id 1 n:1", codes "JET_errSuccess")
        ∷ (codes "1 Update 1", codes "JET_errSuccess")
        ∷ (codes "1 CloseTable 1", codes "JET_errSuccess")
        ∷ (codes "1 AddColumn T h Long escrow", codes "JET_errTableNotEmpty")
        ∷ [])) }
{}

/// No index is made over an escrow column.
pub fn no_index_on_escrow()
    ensures { IsTrue (runs_as 4194304 (
        small_table
        ++ (codes "1 AddColumn T h Long escrow", codes "JET_errSuccess")
        ∷ (codes "1 CreateIndex T ih +h", codes "JET_errCannotIndex")
        ∷ [])) }
{}
