//! The keys of all variants of a record, and whether it has a variant, as changes come, are undone and are forgotten.

ghost use Rattle.std.specs.Prelude.{◌≡◌, ℕ, true, false, ◌&&◌, ◌||◌, List, [], ◌∷◌, ◌++◌, Option, is_some};
ghost use Rattle.column_set.specs.RecordValues.{RecordFields};
ghost use Rattle.index_derive.specs.declared.rules.IndexRule.{IndexRule};
ghost use Rattle.index_derive.specs.declared.rules.Schema.{Schema};
ghost use Rattle.database_state.specs.Conflicts.{yields_key};
ghost use Rattle.laws_engine.specs.HeldRecords.{HeldRecord, as_undone, is_standing_rewrite};
ghost use Rattle.laws_engine.specs.Variants.{has_variant, is_variant_key};

/// A put or a drop of a record adds the keys of the record that it leaves; any other change adds none.
pub fn a_change_adds_the_keys_that_it_leaves()
    ensures own { (newest after : Option RecordFields) (held : List HeldRecord) (new : HeldRecord) (rule : IndexRule) (schema : Schema) (table : ℕ) (key bookmark : List ℕ) → is_standing_rewrite table bookmark new ≡ true → new.before ≡ newest
        → is_variant_key after (held ++ new ∷ []) rule schema table key bookmark ≡ (is_variant_key newest held rule schema table key bookmark || yields_key rule schema key after) }
    ensures other { (newest : Option RecordFields) (held : List HeldRecord) (new : HeldRecord) (rule : IndexRule) (schema : Schema) (table : ℕ) (key bookmark : List ℕ) → is_standing_rewrite table bookmark new ≡ false
        → is_variant_key newest (held ++ new ∷ []) rule schema table key bookmark ≡ is_variant_key newest held rule schema table key bookmark }
    ensures there { (newest after : Option RecordFields) (held : List HeldRecord) (new : HeldRecord) (table : ℕ) (bookmark : List ℕ) → is_standing_rewrite table bookmark new ≡ true → new.before ≡ newest
        → has_variant after (held ++ new ∷ []) table bookmark ≡ (has_variant newest held table bookmark || is_some after) }
{}

/// Once a put or a drop is undone, the keys of the record that it left are gone, but for those that another variant has.
pub fn an_undo_takes_the_keys_that_no_variant_has()
    ensures keys { (newest : Option RecordFields) (front : List HeldRecord) (gone : HeldRecord) (rest : List HeldRecord) (rule : IndexRule) (schema : Schema) (table : ℕ) (key bookmark : List ℕ) → is_standing_rewrite table bookmark gone ≡ true
        → is_variant_key newest (front ++ gone ∷ rest) rule schema table key bookmark
        ≡ (is_variant_key gone.before (front ++ as_undone gone ∷ rest) rule schema table key bookmark || yields_key rule schema key newest) }
    ensures there { (newest : Option RecordFields) (front : List HeldRecord) (gone : HeldRecord) (rest : List HeldRecord) (table : ℕ) (bookmark : List ℕ) → is_standing_rewrite table bookmark gone ≡ true
        → has_variant newest (front ++ gone ∷ rest) table bookmark ≡ (has_variant gone.before (front ++ as_undone gone ∷ rest) table bookmark || is_some newest) }
{}

/// Once the oldest change is forgotten, the keys of the record before it are gone, but for those that another variant has.
pub fn a_clean_takes_the_keys_that_no_variant_has()
    ensures keys { (newest : Option RecordFields) (oldest : HeldRecord) (held : List HeldRecord) (rule : IndexRule) (schema : Schema) (table : ℕ) (key bookmark : List ℕ)
        → is_variant_key newest (oldest ∷ held) rule schema table key bookmark
        ≡ (is_variant_key newest held rule schema table key bookmark || (is_standing_rewrite table bookmark oldest && yields_key rule schema key oldest.before)) }
    ensures there { (newest : Option RecordFields) (oldest : HeldRecord) (held : List HeldRecord) (table : ℕ) (bookmark : List ℕ)
        → has_variant newest (oldest ∷ held) table bookmark ≡ (has_variant newest held table bookmark || (is_standing_rewrite table bookmark oldest && is_some oldest.before)) }
{}
