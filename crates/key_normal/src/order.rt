//! What the order of keys means.

ghost use Rattle.std.specs.Prelude.{◌≡◌, ℕ, Bool, true, false, List, [], ◌++◌, Option};
ghost use Rattle.std.specs.Ordering.{nat_cmp};
ghost use Rattle.std.specs.Cmp.Lexicographic.{slice_cmp};
ghost use Rattle.key_normal.specs.KeyBytes.{KeyColumn, key_bytes, cut_key, is_cut};
ghost use Rattle.key_normal.specs.KeyOrder.{key_order, are_values};

/// Keys of one index that are not cut compare as the values that they stand for, column by column, and none of them
/// begins another.
///
/// It does nothing: its contract is the law.
pub fn order_of_whole_keys()
    ensures order { (columns : List KeyColumn) (nulls_high : Bool) (most : ℕ) (xs ys : List (Option (List ℕ)))
        → are_values columns xs ≡ true → are_values columns ys ≡ true
        → is_cut most (key_bytes columns nulls_high xs) ≡ false → is_cut most (key_bytes columns nulls_high ys) ≡ false
        → slice_cmp nat_cmp (cut_key most (key_bytes columns nulls_high xs)) (cut_key most (key_bytes columns nulls_high ys)) ≡ key_order columns nulls_high xs ys }
    ensures no_prefix { (columns : List KeyColumn) (nulls_high : Bool) (most : ℕ) (xs ys : List (Option (List ℕ))) (rest : List ℕ)
        → are_values columns xs ≡ true → are_values columns ys ≡ true
        → is_cut most (key_bytes columns nulls_high xs) ≡ false → is_cut most (key_bytes columns nulls_high ys) ≡ false
        → cut_key most (key_bytes columns nulls_high ys) ≡ cut_key most (key_bytes columns nulls_high xs) ++ rest → rest ≡ [] }
{}
