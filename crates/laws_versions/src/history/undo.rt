//! What an undo gives back.

ghost use Rattle.std.specs.Prelude.{◌≡◌, ℕ, ◌==◌, ◌≤◌, ◌&&◌, true, false, List, ◌∷◌, ◌++◌, map, Option};
ghost use Rattle.std.specs.List.{AllByRecursion};
ghost use Rattle.database_state.specs.Table.{Table};
ghost use Rattle.database_state.specs.Changes.{is_sum};
ghost use Rattle.column_set.specs.ChangedRecords.{changed_table, changed_bookmark};
ghost use Rattle.database_state.specs.State.{PastChange, Transaction, is_open_change_of};
ghost use Rattle.database_state.specs.Conflicts.{collide};
ghost use Rattle.laws_versions.specs.Records.{Records, after_item, records_after_items};
ghost use Rattle.laws_versions.specs.Readers.{is_standing};
ghost use Rattle.laws_versions.specs.History.{HasBefores, KeepsHistory};
ghost use Rattle.laws_versions.specs.KeptSteps.{is_own_open, undone_where};

/// A change behind which none that stands collides with it may as well have been made last. Without it its record is the one
/// before it, where it is no sum.
pub fn an_undone_change_gives_its_record_back()
    ensures last { (base : Records) (front : List PastChange) (item : PastChange) (rest : List PastChange) → is_standing item ≡ true
        → AllByRecursion (λ later. is_standing later ≡ true → collide item.change later.change ≡ false) rest
        → records_after_items is_standing base (front ++ item ∷ rest) ≡ after_item (records_after_items is_standing base (front ++ rest)) item }
    ensures before { (base : Records) (front : List PastChange) (item : PastChange) (rest : List PastChange) → HasBefores base (front ++ item ∷ rest) → is_standing item ≡ true → is_sum item.change ≡ false
        → AllByRecursion (λ later. is_standing later ≡ true → collide item.change later.change ≡ false) rest
        → records_after_items is_standing base (front ++ rest) (changed_table item.change) (changed_bookmark item.change) ≡ item.before }
{}

/// The newest open change of a session can be undone alone, so a level is undone one by one: nothing that stands behind it
/// collides with it, and without it all that holds of the kept changes still does.
pub fn a_level_is_undone_one_by_one()
    ensures kept { (number : ℕ) (tables : List Table) (transactions : ℕ → Option Transaction) (base : Records) (kept : List PastChange) (session last : ℕ)
        → AllByRecursion (λ item. is_open_change_of session item ≡ true → item.number ≤ last) kept → KeepsHistory number tables transactions base kept
        → KeepsHistory number tables transactions base (map (undone_where (is_own_open session (λ item. item.number == last))) kept) }
    ensures apart { (number : ℕ) (tables : List Table) (transactions : ℕ → Option Transaction) (base : Records) (front : List PastChange) (item : PastChange) (rest : List PastChange) (session : ℕ)
        → KeepsHistory number tables transactions base (front ++ item ∷ rest) → is_open_change_of session item ≡ true
        → AllByRecursion (λ later. is_open_change_of session later ≡ false) rest
        → AllByRecursion (λ later. is_standing later ≡ true → collide item.change later.change ≡ false) rest }
{}
