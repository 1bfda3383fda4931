//! Worked examples of the grammar. Each function has an empty body, and its clause says what the definitions give.
#![tactic(auto, unfolding(crate::specs::EntryBytes::entry_bytes, crate::specs::EntryBytes::has_spelling))]

ghost use Rattle.std.specs.Prelude.{◌≡◌, [], ◌∷◌, ◌++◌, true, false, codes, negsuc, replicate, Some, None};
ghost use Rattle.jet_base.specs.Ids.{column_id, index_id, session_id, table_id};
ghost use Rattle.column_set.specs.declared.changes.Change.TheVariants as change;
ghost use Rattle.index_derive.specs.declared.log.EntryKind.TheVariants as kind;
ghost use Rattle.log_grammar.specs.EntryBytes.{entry_bytes, has_spelling};
ghost use Rattle.log_grammar.specs.Samples.{new_table, of_session_1, put_bob};

/// An entry without fields is its tag and its session behind their length.
pub fn bytes_of_a_begin()
    ensures { entry_bytes (of_session_1 kind.Begin) ≡ 5 ∷ 0 ∷ 0 ∷ 0 ∷ 5 ∷ 1 ∷ 0 ∷ 0 ∷ 0 ∷ [] }
{}

/// A record has its values by rising column, each with its column and its length.
pub fn bytes_of_a_put()
    ensures new { entry_bytes (put_bob None) ≡ 0x26 ∷ 0 ∷ 0 ∷ 0 ∷ 7 ∷ 1 ∷ 0 ∷ 0 ∷ 0 ∷ 1 ∷ 0 ∷ 0 ∷ 0 ∷ 5 ∷ 0 ∷ 0x7f ∷ 0x80 ∷ 0 ∷ 0 ∷ 2 ∷ 0 ∷ 2 ∷ 0 ∷ 1 ∷ 0 ∷ 4 ∷ 0 ∷ 0 ∷ 0 ∷ 2 ∷ 0 ∷ 0 ∷ 0 ∷ 0x80 ∷ 0 ∷ 3 ∷ 0 ∷ 0 ∷ 0 ∷ 0x62 ∷ 0x6f ∷ 0x62 ∷ [] }
    ensures copied { entry_bytes (put_bob (Some (9 ∷ []))) ≡ 0x29 ∷ 0 ∷ 0 ∷ 0 ∷ 7 ∷ 1 ∷ 0 ∷ 0 ∷ 0 ∷ 1 ∷ 0 ∷ 0 ∷ 0 ∷ 5 ∷ 0 ∷ 0x7f ∷ 0x80 ∷ 0 ∷ 0 ∷ 2 ∷ 1 ∷ 1 ∷ 0 ∷ 9 ∷ 2 ∷ 0 ∷ 1 ∷ 0 ∷ 4 ∷ 0 ∷ 0 ∷ 0 ∷ 2 ∷ 0 ∷ 0 ∷ 0 ∷ 0x80 ∷ 0 ∷ 3 ∷ 0 ∷ 0 ∷ 0 ∷ 0x62 ∷ 0x6f ∷ 0x62 ∷ [] }
    ensures spelled { has_spelling (put_bob None) ≡ true }
    ensures empty_bookmark { has_spelling (put_bob (Some [])) ≡ false }
    ensures longest_bookmark { has_spelling (put_bob (Some (replicate 255 9))) ≡ true }
    ensures long_bookmark { has_spelling (put_bob (Some (replicate 256 9))) ≡ false }
{}

/// The amount of an Add is a number with its sign, in two's complement.
pub fn bytes_of_an_add()
    ensures { entry_bytes (of_session_1 (kind.Change (change.Add (table_id 1) (9 ∷ []) (column_id 2) (negsuc 1)))) ≡ 18 ∷ 0 ∷ 0 ∷ 0 ∷ 9 ∷ 1 ∷ 0 ∷ 0 ∷ 0 ∷ 1 ∷ 0 ∷ 0 ∷ 0 ∷ 1 ∷ 0 ∷ 9 ∷ 2 ∷ 0 ∷ 254 ∷ 255 ∷ 255 ∷ 255 ∷ [] }
{}

/// A new table has its number and its name, which is any 1 to 64 bytes.
pub fn bytes_of_a_new_table()
    ensures bytes { entry_bytes (new_table (codes "t")) ≡ 12 ∷ 0 ∷ 0 ∷ 0 ∷ 15 ∷ 1 ∷ 0 ∷ 0 ∷ 0 ∷ 1 ∷ 1 ∷ 0 ∷ 0 ∷ 0 ∷ 1 ∷ 0x74 ∷ [] }
    ensures no_text { has_spelling (new_table (255 ∷ [])) ≡ true }
    ensures longest { has_spelling (new_table (replicate 64 97)) ≡ true }
    ensures long { has_spelling (new_table (replicate 65 97)) ≡ false }
    ensures nameless { has_spelling (new_table []) ≡ false }
{}

/// A session's label is 1 to 99.
pub fn sessions_that_are_spelled()
    ensures none { has_spelling (record { session = session_id 0; kind = kind.Begin }) ≡ false }
    ensures first { has_spelling (record { session = session_id 1; kind = kind.Begin }) ≡ true }
    ensures last { has_spelling (record { session = session_id 99; kind = kind.Begin }) ≡ true }
    ensures past { has_spelling (record { session = session_id 100; kind = kind.Begin }) ≡ false }
{}
