//! What sessions see, from the changes that are kept.

ghost use Rattle.std.specs.Prelude.{◌≡◌, ◌==◌, ℕ, true, false, List, Some};
ghost use Rattle.index_derive.specs.declared.log.Entry.{Entry};
ghost use Rattle.database_state.specs.State.{DatabaseState, PastChange, Transaction, transaction_of};
ghost use Rattle.database_state.specs.Conflicts.{collide};
ghost use Rattle.database_state.specs.Step.{state_after};
ghost use Rattle.database_state.specs.Lawful.{is_lawful};
ghost use Rattle.database_state.specs.View.{newest, view};
ghost use Rattle.laws_versions.specs.Records.{Records, records_of, records_after_items};
ghost use Rattle.laws_versions.specs.Readers.{is_standing, sees, is_unseen, hides, found_record, until};
ghost use Rattle.laws_versions.specs.History.{EachTwo, IsHistory};

/// The newest records are those after every kept change that stands, and a session's view those after the changes that it
/// sees, both made in the order of the changes, whatever order they were committed in.
pub fn views_come_of_kept_changes()
    ensures newest { (base : Records) (dropped kept : List PastChange) (state : DatabaseState) → IsHistory base dropped kept state
        → records_of (newest state) ≡ records_after_items is_standing base kept }
    ensures view { (base : Records) (dropped kept : List PastChange) (state : DatabaseState) → IsHistory base dropped kept state → (session : ℕ)
        → records_of (view state session) ≡ records_after_items (sees session (transaction_of state session)) base kept }
{}

/// Whoever sees the later of two changes that collide sees the earlier, unless it was undone.
pub fn colliding_changes_are_seen_in_their_order()
    ensures { (base : Records) (dropped kept : List PastChange) (state : DatabaseState) → IsHistory base dropped kept state → (session : ℕ)
        → EachTwo (λ earlier later. is_standing earlier ≡ true → sees session (transaction_of state session) later ≡ true → collide earlier.change later.change ≡ true
        → sees session (transaction_of state session) earlier ≡ true) kept }
{}

/// The record before the oldest put or drop that a session does not see, or else the newest one, is the record that it sees,
/// but for the changes before it that it does not see either. These are locks and sums, so without sums it is the very record.
pub fn a_session_finds_its_record()
    ensures { (base : Records) (dropped kept : List PastChange) (state : DatabaseState) → IsHistory base dropped kept state → (session table : ℕ) (bookmark : List ℕ)
        → found_record session (transaction_of state session) table bookmark (records_of (newest state) table bookmark) kept
        ≡ records_after_items (is_unseen session (transaction_of state session)) (records_of (view state session)) (until (hides session (transaction_of state session) table bookmark) kept) table bookmark }
{}

/// In a transaction a session sees the same whatever lawful entries others make.
pub fn a_transaction_sees_the_same_as_others_go_on()
    ensures { (state : DatabaseState) (made : Entry) (session : ℕ) (t : Transaction) → transaction_of state session ≡ Some t → (session == made.session.0) ≡ false → is_lawful state made ≡ true
        → view (state_after state made) session ≡ view state session }
{}
