//! Whether a held change stands in its place among the sessions.

ghost use Rattle.std.specs.Prelude.{◌≡◌};
ghost use Rattle.std.specs.List.{list_all};
ghost use Rattle.image_findings.specs.LiveFindings.{begins_behind, begins_elsewhere, is_open_in, is_placed};
ghost use Rattle.version_cleanup.specs.LiveSessions.{LiveState};
ghost use Rattle.version_store.specs.Answers.{told_change};
ghost use Rattle.version_store.specs.Items.{state_of};

use version_cleanup::{Sessions, Transaction};
use version_store::{Held, Status};

/// Whether a change is in its place: an open one at a level of its session's transaction, which began before it; a committed one was
/// committed behind its own entry, before the transaction of its session that stands now, and at nobody's begin.
pub(crate) fn is_placed(number: u64, sessions: &Sessions, change: Held<'_>) -> bool
    ensures { result ≡ is_placed number sessions.now (told_change change.entry) (state_of change.entry.status) }
{
    match change.status {
        Status::Uncommitted => is_open_in(
            change.number,
            change.level,
            sessions.transaction(change.session),
        ),
        Status::Committed(at) => {
            change.number < at
                && at <= number
                && begins_behind(at, sessions.transaction(change.session))
                && all_begin_elsewhere(at, sessions)
        }
        Status::Undone => true,
    }
}

/// Whether there is a transaction that began below a number and has the level.
fn is_open_in(number: u64, level: u8, transaction: Option<Transaction>) -> bool
    ensures { result ≡ is_open_in number level transaction }
{
    match transaction {
        Some(transaction) => transaction.begin < number && level <= transaction.levels,
        None => false,
    }
}

/// Whether the transaction, if there is one, began behind a number.
fn begins_behind(number: u64, transaction: Option<Transaction>) -> bool
    ensures { result ≡ begins_behind number transaction }
{
    match transaction {
        Some(transaction) => number < transaction.begin,
        None => true,
    }
}

/// Whether the transaction, if there is one, began at another number.
fn begins_elsewhere(number: u64, transaction: Option<Transaction>) -> bool
    ensures { result ≡ begins_elsewhere number transaction }
{
    match transaction {
        Some(transaction) => number != transaction.begin,
        None => true,
    }
}

/// Whether no transaction of the sessions began at a number.
fn all_begin_elsewhere(number: u64, sessions: &Sessions) -> bool
    ensures { result ≡ list_all (λ (s : LiveState). begins_elsewhere number s.transaction) sessions.now }
{
    for place in 0..sessions.len() {
        if !begins_elsewhere(number, sessions.at(place).transaction()) {
            return false;
        }
    }
    true
}
