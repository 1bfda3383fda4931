//! The laws of the bytes of log entries. Each function has an empty body, and its clause is the law.

ghost use Rattle.std.specs.Prelude.{◌≡◌, ◌++◌, List, ℕ, IsTrue};
ghost use Rattle.index_derive.specs.declared.log.Entry.{Entry};
ghost use Rattle.log_grammar.specs.EntryBytes.{BeginsWith, BeginsWithNone, IsCut};
ghost use Rattle.log_grammar.specs.EntryStreams.{Holds, HoldsFirst, stream_bytes, stream_fits};

/// Bytes begin with one entry at most, whatever follows it.
pub fn entries_have_one_spelling()
    ensures { (bytes : List ℕ) (a b : Entry) → BeginsWith bytes a → BeginsWith bytes b → a ≡ b }
{}

/// Bytes that are cut from an entry begin with no other one, so they are not the whole of one.
pub fn cut_bytes_begin_with_no_entry()
    ensures { (bytes : List ℕ) → IsCut bytes → BeginsWithNone bytes }
{}

/// Entries one after the other are read back from their bytes in one way alone, up to the rest that begins with none.
pub fn streams_are_read_back()
    ensures { (bytes : List ℕ) (a b : List Entry) (s t : List ℕ) → Holds bytes a s → Holds bytes b t → (a ≡ b) × (s ≡ t) }
{}

/// Any front of the bytes of entries has the bytes of the first of them, and behind these a rest that is cut from the
/// next one. The rest may have no byte, which is cut from each entry.
pub fn fronts_of_streams_hold_the_first()
    ensures { (entries : List Entry) (front behind : List ℕ) → IsTrue (stream_fits entries) → stream_bytes entries ≡ front ++ behind → HoldsFirst front entries }
{}
