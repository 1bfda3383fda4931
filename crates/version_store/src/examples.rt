//! Worked examples. Each function has an empty body, and its clause says what the definitions give.

ghost use Rattle.std.specs.Prelude.{◌≡◌, [], ◌∷◌, ◌++◌, true, false, Some, None, map, replicate, negsuc};
ghost use Rattle.database_state.specs.State.{uncommitted, committed, undone};
ghost use Rattle.version_store.specs.declared.calls.ChangeKind.TheVariants as kind;
ghost use Rattle.version_store.specs.HeldChanges.{seen_row, current, row_before, absent, has_conflict, span, has_room, newest_undone, released_change, committed_change, with_status};
ghost use Rattle.version_store.specs.Sums.{unseen_sum};
ghost use Rattle.jet_base.specs.Ids.{column_id};
ghost use Rattle.version_store.specs.Samples.{sample, sample_at, reader_of, by_first, dropped, added, sum};

/// A reader sees the row before the oldest put that was committed after its begin, or that is open elsewhere.
pub fn rows_of_readers()
    ensures before_the_commit { seen_row 1 (1 ∷ []) (reader_of 2 (Some 5)) (sample 1 kind.Put (Some (7 ∷ [])) (committed 9) ∷ sample 1 kind.Drop (Some (8 ∷ [])) uncommitted ∷ []) ≡ row_before (7 ∷ []) }
    ensures between { seen_row 1 (1 ∷ []) (reader_of 2 (Some 10)) (sample 1 kind.Put (Some (7 ∷ [])) (committed 9) ∷ sample 1 kind.Drop (Some (8 ∷ [])) uncommitted ∷ []) ≡ row_before (8 ∷ []) }
    ensures its_own { seen_row 1 (1 ∷ []) (reader_of 1 (Some 10)) (sample 1 kind.Put (Some (7 ∷ [])) (committed 9) ∷ sample 1 kind.Drop (Some (8 ∷ [])) uncommitted ∷ []) ≡ current }
    ensures outside_a_transaction { seen_row 1 (1 ∷ []) (reader_of 2 None) (sample 1 kind.Put (Some (7 ∷ [])) (committed 9) ∷ []) ≡ current }
    ensures no_row { seen_row 1 (1 ∷ []) (reader_of 2 (Some 5)) (sample 1 kind.Put None uncommitted ∷ []) ≡ absent }
    ensures another_record { seen_row 1 (2 ∷ []) (reader_of 2 (Some 5)) (sample 1 kind.Put None uncommitted ∷ []) ≡ current }
{}

/// An undone change, a lock and a sum hide no row.
pub fn changes_that_hide_no_row()
    ensures undone_between { seen_row 1 (1 ∷ []) (reader_of 2 (Some 5)) (sample 1 kind.Put (Some (7 ∷ [])) undone ∷ sample 1 kind.Put (Some (8 ∷ [])) (committed 9) ∷ []) ≡ row_before (8 ∷ []) }
    ensures lock { seen_row 1 (1 ∷ []) (reader_of 2 (Some 5)) (sample 1 kind.Hold (Some (7 ∷ [])) uncommitted ∷ []) ≡ current }
    ensures escrow { seen_row 1 (1 ∷ []) (reader_of 2 (Some 5)) (sample 1 sum (Some (7 ∷ [])) uncommitted ∷ []) ≡ current }
{}

/// A change conflicts with one of another session that is open or was committed since; two sums never do.
pub fn conflicts_of_changes()
    ensures open { has_conflict (reader_of 2 (Some 5)) dropped (sample 1 kind.Hold None uncommitted ∷ []) ≡ true }
    ensures committed_since { has_conflict (reader_of 2 (Some 5)) dropped (sample 1 kind.Put None (committed 6) ∷ []) ≡ true }
    ensures committed_before { has_conflict (reader_of 2 (Some 5)) dropped (sample 1 kind.Put None (committed 5) ∷ []) ≡ false }
    ensures its_own { has_conflict (reader_of 1 (Some 5)) dropped (sample 1 kind.Put None uncommitted ∷ []) ≡ false }
    ensures undone_again { has_conflict (reader_of 2 (Some 5)) dropped (sample 1 kind.Put None undone ∷ []) ≡ false }
    ensures two_sums { has_conflict (reader_of 2 (Some 5)) added (sample 1 sum None uncommitted ∷ []) ≡ false }
    ensures sum_and_put { has_conflict (reader_of 2 (Some 5)) added (sample 1 kind.Put None uncommitted ∷ []) ≡ true }
{}

/// 64 changes of cost 64 fill a span of 4,096 bytes. It begins at the oldest kept change, and counts those behind that are undone.
pub fn spans()
    ensures full { span (Some 2) (replicate 64 (sample 1 kind.Put None uncommitted)) ≡ 4096 }
    ensures last_one { has_room (by_first 4096) dropped None (replicate 63 (sample 1 kind.Put None uncommitted)) ≡ true }
    ensures one_more { has_room (by_first 4096) dropped None (replicate 64 (sample 1 kind.Put None uncommitted)) ≡ false }
    ensures not_kept { span (Some 9) (sample 1 kind.Put None (committed 9) ∷ sample 1 kind.Put None undone ∷ []) ≡ 0 }
    ensures behind { span (Some 8) (sample 1 kind.Put None undone ∷ sample 1 kind.Put (Some (7 ∷ [])) (committed 9) ∷ sample 1 kind.Hold (Some (7 ∷ [])) undone ∷ []) ≡ 136 }
    ensures after_all { span None (sample 1 kind.Put None (committed 9) ∷ []) ≡ 0 }
{}

/// A release moves the changes of a level to the one below, and an undo takes the newest of its level.
pub fn levels()
    ensures release { map (released_change 1 2) (sample_at 1 1 kind.Put None uncommitted ∷ sample_at 1 2 kind.Drop None uncommitted ∷ sample_at 2 2 kind.Put None uncommitted ∷ [])
        ≡ sample_at 1 1 kind.Put None uncommitted ∷ sample_at 1 1 kind.Drop None uncommitted ∷ sample_at 2 2 kind.Put None uncommitted ∷ [] }
    ensures undo { newest_undone 1 1 (sample_at 1 1 kind.Put None uncommitted ∷ sample_at 1 1 kind.Drop None uncommitted ∷ sample_at 1 2 kind.Hold None uncommitted ∷ [])
        ≡ sample_at 1 1 kind.Put None uncommitted ∷ sample_at 1 1 kind.Drop None undone ∷ sample_at 1 2 kind.Hold None uncommitted ∷ [] }
    ensures commit { map (committed_change 1 9) (sample 1 kind.Put None uncommitted ∷ sample 1 kind.Put None undone ∷ sample 2 kind.Put None uncommitted ∷ [])
        ≡ sample 1 kind.Put None (committed 9) ∷ sample 1 kind.Put None undone ∷ sample 2 kind.Put None uncommitted ∷ [] }
{}

/// A reader does not see the sums of others that are open or were committed after its begin. Those behind a put that it does
/// not see either are no part of the row that it sees, and those of another column are of no matter.
pub fn sums_of_readers()
    ensures open_elsewhere { unseen_sum 1 (1 ∷ []) 2 (reader_of 2 (Some 5)) (sample 1 sum None uncommitted ∷ []) ≡ 5 }
    ensures its_own { unseen_sum 1 (1 ∷ []) 2 (reader_of 1 (Some 5)) (sample 1 sum None uncommitted ∷ []) ≡ 0 }
    ensures committed_before { unseen_sum 1 (1 ∷ []) 2 (reader_of 2 (Some 5)) (sample 1 sum None (committed 5) ∷ []) ≡ 0 }
    ensures committed_since { unseen_sum 1 (1 ∷ []) 2 (reader_of 2 (Some 5)) (sample 1 sum None (committed 6) ∷ []) ≡ 5 }
    ensures outside_a_transaction { unseen_sum 1 (1 ∷ []) 2 (reader_of 2 None) (sample 1 sum None (committed 6) ∷ sample 3 sum None uncommitted ∷ []) ≡ 5 }
    ensures undone_again { unseen_sum 1 (1 ∷ []) 2 (reader_of 2 (Some 5)) (sample 1 sum None undone ∷ []) ≡ 0 }
    ensures another_column { unseen_sum 1 (1 ∷ []) 3 (reader_of 2 (Some 5)) (sample 1 sum None uncommitted ∷ []) ≡ 0 }
    ensures before_a_put { unseen_sum 1 (1 ∷ []) 2 (reader_of 2 (Some 5)) (sample 1 sum None (committed 6) ∷ sample 1 kind.Put None uncommitted ∷ sample 1 sum None uncommitted ∷ []) ≡ 5 }
    ensures behind_a_put { unseen_sum 1 (1 ∷ []) 2 (reader_of 2 (Some 5)) (sample 1 kind.Put None uncommitted ∷ sample 1 sum None uncommitted ∷ []) ≡ 0 }
    ensures wrapping { unseen_sum 1 (1 ∷ []) 2 (reader_of 2 (Some 5)) (sample 1 sum None uncommitted ∷ sample 3 (kind.Add (column_id 2) (negsuc 6)) None uncommitted ∷ []) ≡ 4294967294 }
{}
