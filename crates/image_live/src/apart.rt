//! Whether the held changes of each record are apart.
//!
//! Of two that are not both sums, both have the same session and state, or the earlier was committed before the later was made. What is
//! apart goes on through a change that is no sum: so a sum is held against the last change before it of its record that is none, and any
//! other change against the sums since that one, and against that one. Each sum is met once from behind.

ghost use Rattle.std.specs.Prelude.{◌≡◌, ℕ, ◌+◌, ◌<◌, true, false, length, List, Option, Some, None, slice_get, take, get_or, option_map, IfOk};
ghost use Rattle.std.specs.List.{list_all};
ghost use Rattle.database_state.specs.State.{committed};
ghost use Rattle.image_findings.specs.LiveFindings.{are_apart};
ghost use Rattle.image_live.specs.Orders.{ArePlaced, all_pairs, base_of, stays_apart};
ghost use Rattle.laws_images.specs.ShownStates.{with_empty_snapshot};
ghost use Rattle.laws_versions.specs.History.{is_same_status, is_settled_for};
ghost use Rattle.version_cleanup.specs.LiveSessions.{transaction_in};
ghost use Rattle.version_store.specs.Answers.{told_change};
ghost use Rattle.version_store.specs.HeldChanges.{HeldChange, is_add};
ghost use Rattle.version_store.specs.Items.{state_of};

use jet_base::OutOfMemory;
use std::alloc::Global;
use version_cleanup::Sessions;
use version_store::{ChangeKind, Held, Status, Versions};

/// Whether the changes of each record are apart where not both are sums. It takes memory in proportion to the changes.
pub(crate) fn are_all_apart(
    alloc: Global,
    sessions: &Sessions,
    changes: &Versions,
) -> Result<bool, OutOfMemory>
    requires { ArePlaced changes.now }
    ensures { IfOk result (λ apart. apart ≡ all_pairs (stays_apart sessions.now) changes.now) }
{
    // By place the last change up to it of its record that is no sum.
    let mut bases: Vec<Option<usize>> = Vec::with_capacity(alloc, changes.len())?;
    for place in 0..changes.len() {
        let base = base_at(&bases, changes, place);
        if !is_apart(sessions, changes, base, place) {
            return Ok(false);
        }
        bases.push(base)?;
    }
    Ok(true)
}

/// The last change up to a place of its record that is no sum, where it is known for all before.
fn base_at(bases: &[Option<usize>], changes: &Versions, place: usize) -> Option<usize>
    requires within { place < length changes.now }
    requires count { length bases.now ≡ place }
    requires known { (i : ℕ) (h : HeldChange) → i < place → slice_get changes.now i ≡ Some h → get_or bases.now i None ≡ base_of changes.now (i + 1) h }
    ensures { (h : HeldChange) → slice_get changes.now place ≡ Some h → result ≡ base_of changes.now (place + 1) h }
{
    if !is_add(changes.kind_at(place)) {
        return Some(place);
    }
    let Some(older) = changes.older_change(place) else {
        return None;
    };
    bases[older]
}

/// Whether the change at a place is apart from those before it of its record, but a sum from a sum. Those before it are apart.
fn is_apart(sessions: &Sessions, changes: &Versions, base: Option<usize>, place: usize) -> bool
    requires within { place < length changes.now }
    requires placed { ArePlaced changes.now }
    requires base { (h : HeldChange) → slice_get changes.now place ≡ Some h → base ≡ base_of changes.now (place + 1) h }
    requires before { all_pairs (stays_apart sessions.now) (take place changes.now) ≡ true }
    ensures { (h : HeldChange) → slice_get changes.now place ≡ Some h → result ≡ list_all (λ (x : HeldChange). stays_apart sessions.now x h) (take place changes.now) }
{
    if is_add(changes.kind_at(place)) {
        return is_apart_from_base(sessions, changes, base, place);
    }
    is_apart_from_older(sessions, changes, place)
}

/// Whether a sum is apart from its base, if it has one.
fn is_apart_from_base(
    sessions: &Sessions,
    changes: &Versions,
    base: Option<usize>,
    place: usize,
) -> bool
    requires within { place < length changes.now }
    requires placed { ArePlaced changes.now }
    requires sum { (h : HeldChange) → slice_get changes.now place ≡ Some h → is_add h.kind ≡ true }
    requires base { (h : HeldChange) → slice_get changes.now place ≡ Some h → base ≡ base_of changes.now (place + 1) h }
    requires before { all_pairs (stays_apart sessions.now) (take place changes.now) ≡ true }
    ensures { (h : HeldChange) → slice_get changes.now place ≡ Some h → result ≡ list_all (λ (x : HeldChange). stays_apart sessions.now x h) (take place changes.now) }
{
    let Some(base) = base else {
        return true;
    };
    are_apart(sessions, changes.change_at(base), changes.change_at(place))
}

/// Whether a change that is no sum is apart from the sums since its base, and from its base.
fn is_apart_from_older(sessions: &Sessions, changes: &Versions, place: usize) -> bool
    requires within { place < length changes.now }
    requires placed { ArePlaced changes.now }
    requires other { (h : HeldChange) → slice_get changes.now place ≡ Some h → is_add h.kind ≡ false }
    requires before { all_pairs (stays_apart sessions.now) (take place changes.now) ≡ true }
    ensures { (h : HeldChange) → slice_get changes.now place ≡ Some h → result ≡ list_all (λ (x : HeldChange). stays_apart sessions.now x h) (take place changes.now) }
{
    let mut at = changes.older_change(place);
    while let Some(older) = at {
        if !are_apart(sessions, changes.change_at(older), changes.change_at(place)) {
            return false;
        }
        if !is_add(changes.kind_at(older)) {
            return true;
        }
        at = changes.older_change(older);
    }
    true
}

/// Whether two changes have the same session and state, or the earlier was committed before the later was made and, where that is open,
/// before its transaction began.
pub(crate) fn are_apart(sessions: &Sessions, earlier: Held<'_>, later: Held<'_>) -> bool
    ensures { result ≡ are_apart sessions.now (told_change earlier.entry) (told_change later.entry) }
{
    if earlier.session.0 == later.session.0 && is_same_status(earlier.status, later.status) {
        return true;
    }
    match earlier.status {
        Status::Committed(at) => at < later.number && is_settled_for(sessions, later, at),
        _ => false,
    }
}

/// Whether two changes are both open, both undone, or committed by the same entry.
fn is_same_status(earlier: Status, later: Status) -> bool
    ensures { result ≡ is_same_status (state_of earlier) (state_of later) }
{
    match (earlier, later) {
        (Status::Uncommitted, Status::Uncommitted) => true,
        (Status::Committed(number), Status::Committed(other)) => number == other,
        (Status::Undone, Status::Undone) => true,
        _ => false,
    }
}

/// Whether the transaction of a change that is open began behind a commit.
fn is_settled_for(sessions: &Sessions, later: Held<'_>, at: u64) -> bool
    ensures { result ≡ is_settled_for (option_map with_empty_snapshot (transaction_in later.entry.session.0 sessions.now)) (state_of later.entry.status) (committed at) }
{
    match later.status {
        Status::Uncommitted => match sessions.transaction(later.session) {
            Some(transaction) => at < transaction.begin,
            None => false,
        },
        _ => true,
    }
}

/// Whether a change is a sum.
fn is_add(kind: ChangeKind) -> bool
    ensures { result ≡ is_add kind }
{
    matches!(kind, ChangeKind::Add(_, _))
}
