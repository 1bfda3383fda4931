//! Worked examples. Each function has an empty body, and its clause says what the definitions give.

ghost use Rattle.std.specs.Prelude.{◌≡◌, ◌∷◌, [], true, false, pos, negsuc, Some, None};
ghost use Rattle.database_state.specs.Conflicts.{collide};
ghost use Rattle.laws_versions.specs.Records.{record_after, records_after};
ghost use Rattle.laws_versions.specs.ChangeSamples.{counting, put, drop, lock, add};

/// Two sums of one column wrap at 32 bits, and come to the same in either order.
pub fn two_sums_of_one_column()
    ensures apart { collide (add (pos 2147483647)) (add (negsuc 2)) ≡ false }
    ensures in_order { record_after (add (negsuc 2)) (record_after (add (pos 2147483647)) (Some (counting (5 ∷ 0 ∷ 0 ∷ 0 ∷ [])))) ≡ Some (counting (1 ∷ 0 ∷ 0 ∷ 128 ∷ [])) }
    ensures turned { record_after (add (pos 2147483647)) (record_after (add (negsuc 2)) (Some (counting (5 ∷ 0 ∷ 0 ∷ 0 ∷ [])))) ≡ Some (counting (1 ∷ 0 ∷ 0 ∷ 128 ∷ [])) }
    ensures no_record { record_after (add (pos 1)) None ≡ None }
{}

/// A put collides with a sum of its record, and which comes last tells.
pub fn a_put_and_a_sum()
    ensures collide { collide (put (9 ∷ 0 ∷ 0 ∷ 0 ∷ [])) (add (pos 1)) ≡ true }
    ensures put_last { record_after (put (9 ∷ 0 ∷ 0 ∷ 0 ∷ [])) (record_after (add (pos 1)) (Some (counting (5 ∷ 0 ∷ 0 ∷ 0 ∷ [])))) ≡ Some (counting (9 ∷ 0 ∷ 0 ∷ 0 ∷ [])) }
    ensures sum_last { record_after (add (pos 1)) (record_after (put (9 ∷ 0 ∷ 0 ∷ 0 ∷ [])) (Some (counting (5 ∷ 0 ∷ 0 ∷ 0 ∷ [])))) ≡ Some (counting (10 ∷ 0 ∷ 0 ∷ 0 ∷ [])) }
{}

/// A drop removes its record, a lock leaves it, and neither touches a record of another bookmark or table.
pub fn a_drop_and_a_lock()
    ensures dropped { records_after (λ table bookmark. Some []) drop 1 (7 ∷ []) ≡ None }
    ensures locked { records_after (λ table bookmark. Some []) lock 1 (7 ∷ []) ≡ Some [] }
    ensures other_bookmark { records_after (λ table bookmark. Some []) drop 1 (7 ∷ 0 ∷ []) ≡ Some [] }
    ensures other_table { records_after (λ table bookmark. Some []) drop 2 (7 ∷ []) ≡ Some [] }
    ensures collide { collide drop lock ≡ true }
{}
