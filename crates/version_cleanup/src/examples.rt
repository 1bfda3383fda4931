//! Worked examples. Each function has an empty body, and its clause says what the definitions give.

ghost use Rattle.std.specs.Prelude.{◌≡◌, [], ◌∷◌, true, false, Some, None};
ghost use Rattle.database_state.specs.State.{uncommitted, committed, undone};
ghost use Rattle.version_store.specs.HeldChanges.{is_kept_status};
ghost use Rattle.version_store.specs.Samples.{reader_of};
ghost use Rattle.version_cleanup.specs.LiveSessions.{entered, left, with_session, opened, shut, began, ended, saved, lowered, level_ended, transaction_in, has_open, has_open_in, has_other_transaction, oldest_begin};
ghost use Rattle.version_cleanup.specs.Cleaning.{reader_in};
ghost use Rattle.version_cleanup.specs.Samples.{three_sessions, outside, in_transaction};

/// A session takes its place by its label, and leaves the others as they are.
pub fn sessions_come_and_go()
    ensures first { entered 1 three_sessions ≡ outside 1 [] ∷ three_sessions }
    ensures between { entered 7 (outside 2 [] ∷ outside 9 [] ∷ []) ≡ outside 2 [] ∷ outside 7 [] ∷ outside 9 [] ∷ [] }
    ensures goes { left 5 three_sessions ≡ outside 2 (4 ∷ 4 ∷ []) ∷ in_transaction 9 20 ∷ [] }
    ensures not_live { left 6 three_sessions ≡ three_sessions }
{}

/// A table is open as often as cursors stand on it, by rising number.
pub fn tables_open_and_shut()
    ensures once_more { with_session 2 (opened 4) three_sessions ≡ with_session 2 (λ s. outside 2 (4 ∷ 4 ∷ 4 ∷ [])) three_sessions }
    ensures lower { with_session 2 (opened 3) (outside 2 (4 ∷ 4 ∷ []) ∷ []) ≡ outside 2 (3 ∷ 4 ∷ 4 ∷ []) ∷ [] }
    ensures one_goes { with_session 2 (shut 4) (outside 2 (4 ∷ 4 ∷ []) ∷ []) ≡ outside 2 (4 ∷ []) ∷ [] }
    ensures open { has_open 4 three_sessions ≡ true }
    ensures closed { has_open 5 three_sessions ≡ false }
    ensures of_its_session { has_open_in 2 4 three_sessions ≡ true }
    ensures of_another { has_open_in 5 4 three_sessions ≡ false }
{}

/// Levels come and go, and the begin number stays.
pub fn levels_of_a_transaction()
    ensures begun { transaction_in 2 (with_session 2 (began 40) three_sessions) ≡ Some (record { levels = 1; begin = 40 }) }
    ensures saved { transaction_in 9 (with_session 9 saved three_sessions) ≡ Some (record { levels = 3; begin = 20 }) }
    ensures lowered { transaction_in 9 (with_session 9 lowered three_sessions) ≡ Some (record { levels = 1; begin = 20 }) }
    ensures a_level_undone { transaction_in 9 (level_ended 9 three_sessions) ≡ Some (record { levels = 1; begin = 20 }) }
    ensures all_undone { transaction_in 9 (level_ended 9 (level_ended 9 three_sessions)) ≡ None }
    ensures ended { reader_in 9 (with_session 9 ended three_sessions) ≡ reader_of 9 None }
    ensures others { has_other_transaction 5 (with_session 9 ended three_sessions) ≡ false }
{}

/// The oldest transaction need not be of the first session. A change that is open, or was committed after it began, is kept.
pub fn what_is_kept()
    ensures oldest { oldest_begin three_sessions ≡ Some 20 }
    ensures after_the_oldest { is_kept_status (oldest_begin three_sessions) (committed 21) ≡ true }
    ensures before_the_oldest { is_kept_status (oldest_begin three_sessions) (committed 19) ≡ false }
    ensures open { is_kept_status (oldest_begin []) uncommitted ≡ true }
    ensures undone { is_kept_status (oldest_begin three_sessions) undone ≡ false }
{}
