//! The variants of a record, and what changes, undos and cleans make of their keys.

ghost use Rattle.std.specs.Prelude.{◌≡◌, ℕ, Bool, true, false, ◌&&◌, ◌||◌, List, [], ◌∷◌, ◌++◌, Option, IfSome};
ghost use Rattle.column_set.specs.RecordValues.{RecordFields};
ghost use Rattle.index_derive.specs.declared.rules.IndexRule.{IndexRule};
ghost use Rattle.index_derive.specs.declared.rules.Schema.{Schema};
ghost use Rattle.database_state.specs.Changes.{is_sum};
ghost use Rattle.database_state.specs.Conflicts.{yields_key};
ghost use Rattle.database_state.specs.State.{DatabaseState, PastChange, undone, transaction_of};
ghost use Rattle.database_state.specs.View.{newest, view};
ghost use Rattle.laws_versions.specs.Records.{Records, records_of, after_item, records_after_items, is_change_of};
ghost use Rattle.laws_versions.specs.Readers.{is_standing, found_record};
ghost use Rattle.laws_versions.specs.History.{IsHistory};
ghost use Rattle.laws_versions.specs.Variants.{HasNoSums, is_standing_rewrite, is_variant_key, EachLeaves};

/// Where no escrow column was changed, a session finds the very record that it sees.
pub fn a_session_finds_its_very_record()
    ensures { (base : Records) (dropped kept : List PastChange) (state : DatabaseState) → IsHistory base dropped kept state → HasNoSums kept → (session table : ℕ) (bookmark : List ℕ)
        → found_record session (transaction_of state session) table bookmark (records_of (newest state) table bookmark) kept ≡ records_of (view state session) table bookmark }
{}

/// A change that is no sum adds the keys of the record that it leaves, and takes none.
pub fn keys_of_variants_after_a_change()
    ensures { (newest : Records) (kept : List PastChange) (made : PastChange) (rule : IndexRule) (schema : Schema) (table : ℕ) (key bookmark : List ℕ) → is_sum made.change ≡ false → is_standing made ≡ true
        → (is_change_of table bookmark made.change ≡ true → made.before ≡ newest table bookmark)
        → is_variant_key (after_item newest made) (kept ++ made ∷ []) rule schema table key bookmark
        ≡ (is_variant_key newest kept rule schema table key bookmark || (is_change_of table bookmark made.change && yields_key rule schema key (after_item newest made table bookmark))) }
{}

/// An undo of one put or drop takes the keys of the newest record that no variant has then, and adds none.
pub fn keys_of_variants_after_an_undo()
    ensures { (newest before : Records) (front : List PastChange) (item : PastChange) (rest : List PastChange) (rule : IndexRule) (schema : Schema) (table : ℕ) (key bookmark : List ℕ)
        → is_standing_rewrite table bookmark item ≡ true → before table bookmark ≡ item.before
        → is_variant_key newest (front ++ item ∷ rest) rule schema table key bookmark
        ≡ (is_variant_key before (front ++ record item { status = undone } ∷ rest) rule schema table key bookmark || yields_key rule schema key (newest table bookmark)) }
{}

/// A clean of the oldest change takes the keys of the record before it that no variant has then.
pub fn keys_of_variants_after_a_clean()
    ensures { (newest : Records) (item : PastChange) (kept : List PastChange) (rule : IndexRule) (schema : Schema) (table : ℕ) (key bookmark : List ℕ)
        → is_variant_key newest (item ∷ kept) rule schema table key bookmark
        ≡ (is_variant_key newest kept rule schema table key bookmark || (is_standing_rewrite table bookmark item && yields_key rule schema key item.before)) }
{}

/// What the record at first has, and each change leaves to a record that has it, every variant has.
pub fn what_every_variant_has()
    ensures { (holds : RecordFields → Bool) (test : PastChange → Bool) (table : ℕ) (bookmark : List ℕ) (items : List PastChange) → EachLeaves (λ values. holds values ≡ true) table bookmark items
        → (base : Records) → IfSome (base table bookmark) (λ values. holds values ≡ true)
        → IfSome (records_after_items test base items table bookmark) (λ values. holds values ≡ true) }
{}
