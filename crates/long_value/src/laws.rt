//! What a map of long values is after a change.

ghost use Rattle.std.specs.Prelude.{◌≡◌, ◌≢◌, ◌<◌, ◌==◌, ◌-◌, ◌^◌, ℕ, suc, List, Some, None, if◌then◌else◌};
ghost use Rattle.long_value.specs.Values.{LongValue, Values, put_value, value_of, with_reference, without_reference, without_value};
ghost use Rattle.long_value.specs.Stores.{id_bytes};
ghost use Rattle.long_value.specs.declared.values.LongId.{LongId};

/// A value that was put is there, one that was taken out is not, and all others are as they were.
pub fn values_after_a_change()
    ensures put { (values : Values) (id : List ℕ) (value : LongValue) → value_of id (put_value id value values) ≡ Some value }
    ensures beside { (values : Values) (id other : List ℕ) (value : LongValue) → other ≢ id → value_of other (put_value id value values) ≡ value_of other values }
    ensures gone { (values : Values) (id : List ℕ) → value_of id (without_value id values) ≡ None }
    ensures left { (values : Values) (id other : List ℕ) → other ≢ id → value_of other (without_value id values) ≡ value_of other values }
{}

/// A reference more or less changes the count of one value, which is gone with its last reference, and no other value.
pub fn references_after_a_change()
    ensures more { (values : Values) (id : List ℕ) (value : LongValue) → value_of id values ≡ Some value → value_of id (with_reference id values) ≡ Some (record value { count = suc value.count }) }
    ensures more_beside { (values : Values) (id other : List ℕ) → other ≢ id → value_of other (with_reference id values) ≡ value_of other values }
    ensures less { (values : Values) (id : List ℕ) (value : LongValue) → value_of id values ≡ Some value → value_of id (without_reference id values) ≡ (if value.count == 1 then None else Some (record value { count = value.count - 1 })) }
    ensures less_beside { (values : Values) (id other : List ℕ) → other ≢ id → value_of other (without_reference id values) ≡ value_of other values }
{}

/// Two identifiers are not the same twelve bytes.
pub fn identifiers_differ()
    ensures { (a b : LongId) → a.entry < 2 ^ 64 → b.entry < 2 ^ 64 → a.place < 2 ^ 32 → b.place < 2 ^ 32 → id_bytes a ≡ id_bytes b → (a.entry ≡ b.entry) × (a.place ≡ b.place) }
{}
