//! Changes that are undone one by one.

ghost use Rattle.std.specs.Prelude.{◌≡◌, ℕ, Bool, false};
ghost use Rattle.std.specs.List.{list_any};
ghost use Rattle.laws_engine.specs.HeldRecords.{HeldRecord, is_open_at, is_open_of};
ghost use Rattle.laws_engine.specs.VersionedTables.{LeavesUndone, VersionedTables, with_changes_undone, with_last_undone};

/// Held changes that are undone one by one, the newest first, are undone as at once. An undone change is no open one.
pub fn changes_undone_one_by_one_are_undone_at_once()
    ensures first { (test : HeldRecord → Bool) (store : VersionedTables) → LeavesUndone test → with_changes_undone test (with_last_undone test store) ≡ with_changes_undone test store }
    ensures none_left { (test : HeldRecord → Bool) (store : VersionedTables) → list_any test store.held ≡ false → with_changes_undone test store ≡ store }
    ensures level { (session level : ℕ) → LeavesUndone (is_open_at session level) }
    ensures session { (session : ℕ) → LeavesUndone (is_open_of session) }
{}
