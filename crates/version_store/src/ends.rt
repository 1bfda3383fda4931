//! The open changes of a session, from the newest back.

ghost use Rattle.std.specs.Prelude.{◌≡◌, ℕ, suc, ◌-◌, ◌≤◌, ◌<◌, ◌==◌, Some, length, map, slice_get, slice_index, slice_set, OnOk, if◌then◌else◌};
ghost use Rattle.version_store.specs.declared.item.Item.{Item};
ghost use Rattle.database_state.specs.State.{is_open};
ghost use Rattle.version_store.specs.Items.{committed_item, released_item, state_of};
ghost use Rattle.version_store.specs.OpenChanges.{Reach, AreLinked, AreBelow};

use crate::item::{Item, Status};
use jet_base::{OutOfMemory, Session};
use std::collections::VecDeque;

/// How many items there are up to the one of the number, where `first` have gone: 0 where it has gone, or is none.
pub(crate) fn end_of(number: u64, first: u64) -> usize
    ensures { result ≡ number - first }
{
    number.saturating_sub(first) as usize
}

/// The number of the session's newest open change, or 0.
pub(crate) fn newest_of(newest: &[u64], session: Session) -> u64
    ensures { result ≡ slice_index newest.now session.0 }
{
    match newest.get(session.0 as usize) {
        Some(number) => *number,
        None => 0,
    }
}

/// Makes room for the session's newest open change. Labels of sessions are small numbers.
pub(crate) fn make_room(newest: &mut Vec<u64>, session: Session) -> Result<(), OutOfMemory>
    ensures same { (label : ℕ) → slice_index newest.new.items label ≡ slice_index newest.old.items label }
    ensures room { OnOk result (session.0 < length newest.new.items) }
{
    let label = session.0 as usize;
    if newest.len() <= label {
        newest.resize(label + 1, 0)?;
    }
    Ok(())
}

/// Puts the number of the session's newest open change.
pub(crate) fn set_newest(newest: &mut Vec<u64>, session: Session, number: u64)
    ensures { newest.new.items ≡ slice_set newest.old.items session.0 number }
{
    let label = session.0 as usize;
    if label < newest.len() {
        newest[label] = number;
    }
}

/// The number of the session's newest open change after one of this number is held, where it was `before`: a change that is
/// not open is none of them.
pub(crate) fn newest_with(status: Status, before: u64, number: u64) -> u64
    ensures { result ≡ (if is_open (state_of status) then number else before) }
{
    if status.is_open() { number } else { before }
}

/// The number of the session's newest open change after the one at the place is undone: the one before it, of this number,
/// where it was the newest.
pub(crate) fn newest_without(newest: u64, first: u64, place: usize, before: u64) -> u64
    ensures { result ≡ (if newest - first == suc place then before else newest) }
{
    let end = end_of(newest, first);
    if end > 0 && end - 1 == place {
        before
    } else {
        newest
    }
}

/// The highest level that the item before the end tells, 0 where there is none.
pub(crate) fn highest_before(items: &VecDeque<Item>, end: usize) -> u8
    requires { end ≤ length items.now.items }
    ensures { (place : ℕ) (x : Item) → end ≡ suc place → slice_get items.now.items place ≡ Some x → result ≡ x.highest }
{
    if end == 0 { 0 } else { items[end - 1].highest }
}

/// The session's open changes are committed at the number.
pub(crate) fn commit_all(
    items: &mut VecDeque<Item>,
    first: u64,
    newest: u64,
    session: Session,
    number: u64,
)
    requires reach { Reach session.0 items.old.items (newest - first) (length items.old.items) }
    requires links { AreLinked first items.old.items }
    ensures { items.new.items ≡ map (committed_item session.0 number) items.old.items }
{
    let mut end = end_of(newest, first);
    while end > 0 {
        let item = &mut items[end - 1];
        item.commit(session, number);
        end = end_of(item.own_before, first);
    }
}

/// The session's open changes at the level go to the level below. The walk ends where no change before is of that level.
pub(crate) fn release_all(
    items: &mut VecDeque<Item>,
    first: u64,
    newest: u64,
    session: Session,
    level: u8,
)
    requires two { 2 ≤ level }
    requires reach { Reach session.0 items.old.items (newest - first) (length items.old.items) }
    requires links { AreLinked first items.old.items }
    requires levels { AreBelow items.old.items }
    ensures { items.new.items ≡ map (released_item session.0 level) items.old.items }
{
    let mut end = end_of(newest, first);
    while end > 0 {
        let item = &mut items[end - 1];
        if item.highest < level {
            return;
        }
        item.release(session, level);
        end = end_of(item.own_before, first);
    }
}
