//! A worked example: record 7 of table 1 is replaced by session 2 under session 1, which began before.

ghost use Rattle.std.specs.Prelude.{◌≡◌, true, false, [], ◌∷◌, Some, None};
ghost use Rattle.laws_versions.specs.Records.{records_of};
ghost use Rattle.laws_versions.specs.ChangeSamples.{counting};
ghost use Rattle.laws_engine.specs.HeldRecords.{has_conflict, is_open_of, span};
ghost use Rattle.laws_engine.specs.VersionedTables.{seen_tables, with_changes_undone, with_session_committed};
ghost use Rattle.laws_engine.specs.Samples.{early_reader, late_reader, new_bytes, old_bytes, replaced, replacement, stored};

/// The reader goes on seeing the old record, also once the other session has committed; one that begins then sees the new one.
pub fn a_reader_that_began_before_sees_the_old_record()
    ensures newest { records_of replaced.tables 1 (7 ∷ []) ≡ Some (counting new_bytes) }
    ensures before { records_of (seen_tables early_reader replaced) 1 (7 ∷ []) ≡ Some (counting old_bytes) }
    ensures after { records_of (seen_tables early_reader (with_session_committed 2 6 replaced)) 1 (7 ∷ []) ≡ Some (counting old_bytes) }
    ensures later { records_of (seen_tables late_reader (with_session_committed 2 6 replaced)) 1 (7 ∷ []) ≡ Some (counting new_bytes) }
{}

/// The reader's own replace meets a write conflict, before the commit and after it, and none once the other is undone.
pub fn a_replaced_record_is_in_conflict()
    ensures before { has_conflict early_reader replacement replaced.held ≡ true }
    ensures after { has_conflict early_reader replacement (with_session_committed 2 6 replaced).held ≡ true }
    ensures undone { has_conflict early_reader replacement (with_changes_undone (is_open_of 2) replaced).held ≡ false }
{}

/// An undone replace gives the old record back, and costs nothing once no transaction needs it.
pub fn an_undone_replace_gives_the_old_record_back()
    ensures newest { records_of (with_changes_undone (is_open_of 2) replaced).tables 1 (7 ∷ []) ≡ Some (counting old_bytes) }
    ensures tables { (with_changes_undone (is_open_of 2) replaced).tables ≡ stored.tables }
    ensures open { span (Some 4) replaced.held ≡ 80 }
    ensures undone { span (Some 4) (with_changes_undone (is_open_of 2) replaced).held ≡ 0 }
{}
