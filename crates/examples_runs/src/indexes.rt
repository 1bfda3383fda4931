//! Index entries: what each kind of index holds, seen by walks.
#![tactic(auto, unfolding(script_text::specs::ScriptRun::running))]

ghost use Rattle.std.specs.Prelude.{IsTrue, List, [], ◌∷◌, ◌++◌, codes};
ghost use Rattle.examples_runs.specs.Tables.{runs_as, small_table, letters_of_both_cases, three_letters_and_two};

/// An index over a multi-valued column has one entry for each key: letters that differ in case alone are one.
pub fn multi_valued_keys()
    ensures { IsTrue (runs_as 4194304 (
        letters_of_both_cases)) }
{}

/// Two multi-valued columns: the first gives the entries; with `crossproduct` there is one for each pair.
pub fn cross_product()
    ensures { IsTrue (runs_as 4194304 (
        three_letters_and_two
        ++ (codes "1 Move 1 First", codes "JET_errSuccess")
        ∷ (codes "1 Move 1 Next", codes "JET_errSuccess")
        ∷ (codes "1 Move 1 Next", codes "JET_errSuccess")
        ∷ (codes "1 Move 1 Next", codes "JET_errNoCurrentRecord")
        ∷ (codes "1 SetCurrentIndex 1 i6", codes "JET_errSuccess")
        ∷ (codes "1 Move 1 First", codes "JET_errSuccess")
        ∷ (codes "1 Move 1 Next", codes "JET_errSuccess")
        ∷ (codes "1 Move 1 Next", codes "JET_errSuccess")
        ∷ (codes "1 Move 1 Next", codes "JET_errSuccess")
        ∷ (codes "1 Move 1 Next", codes "JET_errSuccess")
        ∷ (codes "1 Move 1 Next", codes "JET_errSuccess")
        ∷ (codes "1 Move 1 Next", codes "JET_errNoCurrentRecord")
        ∷ [])) }
{}

/// The same, counted.
pub fn cross_product_counted()
    ensures { IsTrue (runs_as 4194304 (
        three_letters_and_two
        ++ (codes "1 IndexRecordCount 1", codes "JET_errSuccess 3")
        ∷ (codes "1 SetCurrentIndex 1 i6", codes "JET_errSuccess")
        ∷ (codes "1 IndexRecordCount 1", codes "JET_errSuccess 6")
        ∷ [])) }
{}

/// An index of parts holds up to ten bytes from each start with three bytes left.
pub fn tuples()
    ensures { IsTrue (runs_as 4194304 (
        (codes "1 BeginSession", codes "JET_errSuccess")
        ∷ (codes "1 CreateTable A", codes "JET_errSuccess")
        ∷ (codes "1 AddColumn A a Text", codes "JET_errSuccess")
        ∷ (codes "1 CreateIndex A tu tuples +a", codes "JET_errSuccess")
        ∷ (codes "1 CreateTable B", codes "JET_errSuccess")
        ∷ (codes "1 AddColumn B a Text", codes "JET_errSuccess")
        ∷ (codes "1 CreateIndex B tu tuples +a", codes "JET_errSuccess")
        ∷ (codes "1 CreateTable C", codes "JET_errSuccess")
        ∷ (codes "1 AddColumn C a Text", codes "JET_errSuccess")
        ∷ (codes "1 CreateIndex C tu tuples +a", codes "JET_errSuccess")
        ∷ (codes "1 CreateTable D", codes "JET_errSuccess")
        ∷ (codes "1 AddColumn D a Text", codes "JET_errSuccess")
        ∷ (codes "1 CreateIndex D tu tuples +a", codes "JET_errSuccess")
        ∷ (codes "1 OpenTable 2 A", codes "JET_errSuccess")
        ∷ (codes "1 PrepareUpdate 2 insert", codes "JET_errSuccess")
        ∷ (codes "1 SetColumn 2 a 1 t:ab", codes "JET_errSuccess")
        ∷ (codes "1 Update 2", codes "JET_errSuccess")
        ∷ (codes "1 SetCurrentIndex 2 tu", codes "JET_errSuccess")
        ∷ (codes "1 Move 2 First", codes "JET_errNoCurrentRecord")
        ∷ (codes "1 OpenTable 3 B", codes "JET_errSuccess")
        ∷ (codes "1 PrepareUpdate 3 insert", codes "JET_errSuccess")
        ∷ (codes "1 SetColumn 3 a 1 t:abc", codes "JET_errSuccess")
        ∷ (codes "1 Update 3", codes "JET_errSuccess")
        ∷ (codes "1 SetCurrentIndex 3 tu", codes "JET_errSuccess")
        ∷ (codes "1 Move 3 First", codes "JET_errSuccess")
        ∷ (codes "1 Move 3 Next", codes "JET_errNoCurrentRecord")
        ∷ (codes "1 OpenTable 4 C", codes "JET_errSuccess")
        ∷ (codes "1 PrepareUpdate 4 insert", codes "JET_errSuccess")
        ∷ (codes "1 SetColumn 4 a 1 t:abcdefghij", codes "JET_errSuccess")
        ∷ (codes "1 Update 4", codes "JET_errSuccess")
        ∷ (codes "1 SetCurrentIndex 4 tu", codes "JET_errSuccess")
        ∷ (codes "1 Move 4 First", codes "JET_errSuccess")
        ∷ (codes "1 Move 4 Next", codes "JET_errSuccess")
        ∷ (codes "1 Move 4 Next", codes "JET_errSuccess")
        ∷ (codes "1 Move 4 Next", codes "JET_errSuccess")
        ∷ (codes "1 Move 4 Next", codes "JET_errSuccess")
        ∷ (codes "1 Move 4 Next", codes "JET_errSuccess")
        ∷ (codes "1 Move 4 Next", codes "JET_errSuccess")
        ∷ (codes "1 Move 4 Next", codes "JET_errSuccess")
        ∷ (codes "1 Move 4 Next", codes "JET_errNoCurrentRecord")
        ∷ (codes "1 OpenTable 5 D", codes "JET_errSuccess")
        ∷ (codes "1 PrepareUpdate 5 insert", codes "JET_errSuccess")
        ∷ (codes "1 SetColumn 5 a 1 t:abcdefghijkl", codes "JET_errSuccess")
        ∷ (codes "1 Update 5", codes "JET_errSuccess")
        ∷ (codes "1 SetCurrentIndex 5 tu", codes "JET_errSuccess")
        ∷ (codes "1 Move 5 First", codes "JET_errSuccess")
        ∷ (codes "1 Move 5 Next", codes "JET_errSuccess")
        ∷ (codes "1 Move 5 Next", codes "JET_errSuccess")
        ∷ (codes "1 Move 5 Next", codes "JET_errSuccess")
        ∷ (codes "1 Move 5 Next", codes "JET_errSuccess")
        ∷ (codes "1 Move 5 Next", codes "JET_errSuccess")
        ∷ (codes "1 Move 5 Next", codes "JET_errSuccess")
        ∷ (codes "1 Move 5 Next", codes "JET_errSuccess")
        ∷ (codes "1 Move 5 Next", codes "JET_errSuccess")
        ∷ (codes "1 Move 5 Next", codes "JET_errSuccess")
        ∷ (codes "1 Move 5 Next", codes "JET_errNoCurrentRecord")
        ∷ [])) }
{}

/// A conditional index holds a record only while its condition holds.
pub fn conditional_index()
    ensures { IsTrue (runs_as 4194304 (
        small_table
        ++ (codes "1 CreateIndex T ic +a ifnotnull:m", codes "JET_errSuccess")
        ∷ (codes "1 OpenTable 1 T", codes "JET_errSuccess")
        ∷ (codes "1 PrepareUpdate 1 insert", codes "JET_errSuccess")
        ∷ (codes "1 SetColumn 1 id 1 n:1", codes "JET_errSuccess")
        ∷ (codes "1 SetColumn 1 a 1 t:x", codes "JET_errSuccess")
        ∷ (codes "1 Update 1", codes "JET_errSuccess")
        ∷ (codes "1 SetCurrentIndex 1 ic", codes "JET_errSuccess")
        ∷ (codes "1 Move 1 First", codes "JET_errNoCurrentRecord")
        ∷ (codes "1 SetCurrentIndex 1", codes "JET_errSuccess")
        ∷ (codes "1 BeginTransaction", codes "JET_errSuccess")
        ∷ (codes "1 PrepareUpdate 1 replace", codes "JET_errSuccess")
        ∷ (codes "1 SetColumn 1 m 0 t:y", codes "JET_errSuccess")
        ∷ (codes "1 Update 1", codes "JET_errSuccess")
        ∷ (codes "1 SetCurrentIndex 1 ic", codes "JET_errSuccess")
        ∷ (codes "1 Move 1 First", codes "JET_errSuccess")
        ∷ (codes "1 PrepareUpdate 1 replace", codes "JET_errSuccess")
        ∷ (codes "1 SetColumn 1 m 1 null", codes "JET_errSuccess")
        ∷ (codes "1 Update 1", codes "JET_errSuccess")
        ∷ (codes "1 Move 1 First", codes "JET_errNoCurrentRecord")
        ∷ [])) }
{}

/// A descending column turns every byte of its segment; NULL comes last there, and first with `sortnullshigh`.
pub fn descending_and_null_keys()
    ensures { IsTrue (runs_as 4194304 (
        small_table
        ++ (codes "1 AddColumn T v Long", codes "JET_errSuccess")
        ∷ (codes "1 CreateIndex T iv -v", codes "JET_errSuccess")
        ∷ (codes "1 CreateIndex T ih sortnullshigh -v", codes "JET_errSuccess")
        ∷ (codes "1 OpenTable 1 T", codes "JET_errSuccess")
        ∷ (codes "1 PrepareUpdate 1 insert", codes "JET_errSuccess")
        ∷ (codes "1 SetColumn 1 id 1 n:1", codes "JET_errSuccess")
        ∷ (codes "1 SetColumn 1 v 1 n:2147483647", codes "JET_errSuccess")
        ∷ (codes "1 Update 1", codes "JET_errSuccess")
        ∷ (codes "1 PrepareUpdate 1 insert", codes "JET_errSuccess")
        ∷ (codes "1 SetColumn 1 id 1 n:2", codes "JET_errSuccess")
        ∷ (codes "1 SetColumn 1 v 1 n:-2147483648", codes "JET_errSuccess")
        ∷ (codes "1 Update 1", codes "JET_errSuccess")
        ∷ (codes "1 PrepareUpdate 1 insert", codes "JET_errSuccess")
        ∷ (codes "1 SetColumn 1 id 1 n:3", codes "JET_errSuccess")
        ∷ (codes "1 Update 1", codes "JET_errSuccess")
        ∷ (codes "1 SetCurrentIndex 1 iv", codes "JET_errSuccess")
        ∷ (codes "1 Move 1 First", codes "JET_errSuccess")
        ∷ (codes "1 RetrieveKey 1", codes "JET_errSuccess x:8000000000")
        ∷ (codes "1 RetrieveColumn 1 v 1", codes "JET_errSuccess n:2147483647")
        ∷ (codes "1 Move 1 Next", codes "JET_errSuccess")
        ∷ (codes "1 RetrieveKey 1", codes "JET_errSuccess x:80ffffffff")
        ∷ (codes "1 RetrieveColumn 1 v 1", codes "JET_errSuccess n:-2147483648")
        ∷ (codes "1 Move 1 Next", codes "JET_errSuccess")
        ∷ (codes "1 RetrieveKey 1", codes "JET_errSuccess x:ff")
        ∷ (codes "1 RetrieveColumn 1 v 1", codes "JET_wrnColumnNull")
        ∷ (codes "1 SetCurrentIndex 1 ih", codes "JET_errSuccess")
        ∷ (codes "1 Move 1 First", codes "JET_errSuccess")
        ∷ (codes "1 RetrieveKey 1", codes "JET_errSuccess x:3f")
        ∷ (codes "1 RetrieveColumn 1 v 1", codes "JET_wrnColumnNull")
        ∷ [])) }
{}

/// Keys are cut at 255 bytes, so two records may have an equal cut key: a unique index takes one.
pub fn cut_keys_collide()
    ensures { IsTrue (runs_as 4194304 (
        (codes "1 BeginSession", codes "JET_errSuccess")
        ∷ (codes "1 CreateTable T", codes "JET_errSuccess")
        ∷ (codes "1 AddColumn T a Text", codes "JET_errSuccess")
        ∷ (codes "1 AddColumn T b UnsignedByte", codes "JET_errSuccess")
        ∷ (codes "1 AddColumn T s Short", codes "JET_errSuccess")
        ∷ (codes "1 CreateIndex T u unique +a +s", codes "JET_errSuccess")
        ∷ (codes "1 OpenTable 1 T", codes "JET_errSuccess")
        ∷ (codes "1 PrepareUpdate 1 insert", codes "JET_errSuccess")
        ∷ (codes "1 SetColumn 1 a 1 r:224:61", codes "JET_errSuccess")
        ∷ (codes "1 SetColumn 1 s 1 n:1", codes "JET_errSuccess")
        ∷ (codes "1 Update 1", codes "JET_errSuccess")
        ∷ (codes "1 PrepareUpdate 1 insert", codes "JET_errSuccess")
        ∷ (codes "1 SetColumn 1 a 1 r:224:61", codes "JET_errSuccess")
        ∷ (codes "1 SetColumn 1 s 1 n:2", codes "JET_errSuccess")
        ∷ (codes "1 Update 1", codes "JET_errKeyDuplicate")
        ∷ [])) }
{}

/// With `disallowtruncation` a record with a cut key is refused.
pub fn cut_key_disallowed()
    ensures { IsTrue (runs_as 4194304 (
        (codes "1 BeginSession", codes "JET_errSuccess")
        ∷ (codes "1 CreateTable T", codes "JET_errSuccess")
        ∷ (codes "1 AddColumn T a Text", codes "JET_errSuccess")
        ∷ (codes "1 AddColumn T b UnsignedByte", codes "JET_errSuccess")
        ∷ (codes "1 AddColumn T s Short", codes "JET_errSuccess")
        ∷ (codes "1 CreateIndex T u unique disallowtruncation +a +s", codes "JET_errSuccess")
        ∷ (codes "1 OpenTable 1 T", codes "JET_errSuccess")
        ∷ (codes "1 PrepareUpdate 1 insert", codes "JET_errSuccess")
        ∷ (codes "1 SetColumn 1 a 1 r:224:61", codes "JET_errSuccess")
        ∷ (codes "1 SetColumn 1 s 1 n:1", codes "JET_errSuccess")
        ∷ (codes "1 Update 1", codes "JET_errKeyTruncated")
        ∷ [])) }
{}

/// A key of 255 bytes is whole, and one of 256 is cut.
pub fn key_of_255_and_256()
    ensures { IsTrue (runs_as 4194304 (
        (codes "1 BeginSession", codes "JET_errSuccess")
        ∷ (codes "1 CreateTable T", codes "JET_errSuccess")
        ∷ (codes "1 AddColumn T a Text", codes "JET_errSuccess")
        ∷ (codes "1 AddColumn T b UnsignedByte", codes "JET_errSuccess")
        ∷ (codes "1 AddColumn T s Short", codes "JET_errSuccess")
        ∷ (codes "1 CreateIndex T ab +a +b", codes "JET_errSuccess")
        ∷ (codes "1 CreateIndex T abt disallowtruncation +a +b", codes "JET_errSuccess")
        ∷ (codes "1 CreateIndex T as +a +s", codes "JET_errSuccess")
        ∷ (codes "1 OpenTable 1 T", codes "JET_errSuccess")
        ∷ (codes "1 PrepareUpdate 1 insert", codes "JET_errSuccess")
        ∷ (codes "1 SetColumn 1 a 1 r:224:61", codes "JET_errSuccess")
        ∷ (codes "1 SetColumn 1 b 1 n:1", codes "JET_errSuccess")
        ∷ (codes "1 SetColumn 1 s 1 n:1", codes "JET_errSuccess")
        ∷ (codes "1 Update 1", codes "JET_errSuccess")
        ∷ (codes "1 SetCurrentIndex 1 ab", codes "JET_errSuccess")
        ∷ (codes "1 RetrieveKey 1", codes "JET_errSuccess x:7f4141414141414141094141414141414141094141414141414141094141414141414141094141414141414141094141414141414141094141414141414141094141414141414141094141414141414141094141414141414141094141414141414141094141414141414141094141414141414141094141414141414141094141414141414141094141414141414141094141414141414141094141414141414141094141414141414141094141414141414141094141414141414141094141414141414141094141414141414141094141414141414141094141414141414141094141414141414141094141414141414141094141414141414141087f01")
        ∷ (codes "1 SetCurrentIndex 1 as", codes "JET_errSuccess")
        ∷ (codes "1 RetrieveKey 1", codes "JET_errSuccess x:7f4141414141414141094141414141414141094141414141414141094141414141414141094141414141414141094141414141414141094141414141414141094141414141414141094141414141414141094141414141414141094141414141414141094141414141414141094141414141414141094141414141414141094141414141414141094141414141414141094141414141414141094141414141414141094141414141414141094141414141414141094141414141414141094141414141414141094141414141414141094141414141414141094141414141414141094141414141414141094141414141414141094141414141414141087f80")
        ∷ [])) }
{}

/// Moves in an empty index and after its last entry.
pub fn moves_in_an_empty_index()
    ensures { IsTrue (runs_as 4194304 (
        small_table
        ++ (codes "1 CreateIndex T ia +a", codes "JET_errSuccess")
        ∷ (codes "1 OpenTable 1 T", codes "JET_errSuccess")
        ∷ (codes "1 SetCurrentIndex 1 ia", codes "JET_errSuccess")
        ∷ (codes "1 RetrieveKey 1", codes "JET_errNoCurrentRecord")
        ∷ (codes "1 Move 1 Next", codes "JET_errNoCurrentRecord")
        ∷ (codes "1 Move 1 Next", codes "JET_errNoCurrentRecord")
        ∷ (codes "1 Move 1 Previous", codes "JET_errNoCurrentRecord")
        ∷ (codes "1 PrepareUpdate 1 insert", codes "JET_errSuccess")
        ∷ (codes "1 SetColumn 1 id 1 n:1", codes "JET_errSuccess")
        ∷ (codes "1 Update 1", codes "JET_errSuccess")
        ∷ (codes "1 Move 1 First", codes "JET_errSuccess")
        ∷ (codes "1 Move 1 Next", codes "JET_errNoCurrentRecord")
        ∷ (codes "1 Move 1 Next", codes "JET_errNoCurrentRecord")
        ∷ (codes "1 Move 1 Previous", codes "JET_errSuccess")
        ∷ [])) }
{}
