//! Reading the fields of a live part.

ghost use Rattle.std.specs.Prelude.{◌≤◌, [], length, option_copied, unwrap_or, IfOk};
ghost use Rattle.std.specs.Int.{w64};
ghost use Rattle.column_set.specs.NumberReading.{number_at};
ghost use Rattle.log_grammar.specs.EntryReading.{byte_at, tested};
ghost use Rattle.log_record.specs.EntrySeen.{Gives};
ghost use Rattle.version_store.specs.Items.{state_of};
ghost use Rattle.live_part.specs.LiveReading.{is_level, row_at, short_row_at, status_at, status_of};

use column_set::MAX_ROW_SIZE;
use log_record::{EntryFault, bytes_of, flag_of, read_u16, u8_at};
use version_cleanup::MAX_LEVELS;
use version_store::Status;

/// A change that is open.
pub(crate) const OPEN: u8 = 0;

/// A change that is committed.
pub(crate) const COMMITTED: u8 = 1;

/// A change that is undone.
pub(crate) const UNDONE: u8 = 2;

/// The number in the first eight bytes, and the bytes behind them.
pub(crate) fn read_u64(bytes: &[u8]) -> Result<(u64, &[u8]), EntryFault>
    ensures { Gives (λ x. (x.0, x.1.now)) result (number_at w64 bytes.now) }
{
    if bytes.len() < 8 {
        return Err(EntryFault::BadEntry);
    }
    let (front, rest) = bytes.split_at(8);
    let number = u64::from_le_bytes([
        front[0], front[1], front[2], front[3], front[4], front[5], front[6], front[7],
    ]);
    Ok((number, rest))
}

/// A level of a transaction, from 1 to 7.
pub(crate) fn level_of(bytes: &[u8]) -> Result<(u8, &[u8]), EntryFault>
    ensures { Gives (λ x. (x.0, x.1.now)) result (tested is_level byte_at bytes.now) }
{
    let (level, rest) = u8_at(bytes)?;
    if level < 1 || level > MAX_LEVELS {
        return Err(EntryFault::BadEntry);
    }
    Ok((level, rest))
}

/// Where a change stands, and the number of its commit or 0.
#[tactic(auto, unfolding(crate::specs::LiveReading::status_at))]
pub(crate) fn status_of(bytes: &[u8]) -> Result<(Status, &[u8]), EntryFault>
    ensures { Gives (λ x. (state_of x.0, x.1.now)) result (status_at bytes.now) }
{
    let (state, rest) = u8_at(bytes)?;
    let (commit, rest) = read_u64(rest)?;
    let status = status_from(state, commit)?;
    Ok((status, rest))
}

/// The row before a change, or that there is none.
#[tactic(auto, unfolding(crate::specs::LiveReading::row_at))]
pub(crate) fn row_of(bytes: &[u8]) -> Result<(Option<&[u8]>, &[u8]), EntryFault>
    ensures read { Gives (λ x. (option_copied x.0, x.1.now)) result (row_at bytes.now) }
    ensures short { IfOk result (λ x. length (unwrap_or (option_copied x.0) []) ≤ 4096) }
{
    let (is_there, rest) = flag_of(bytes)?;
    if !is_there {
        return Ok((None, rest));
    }
    let (row, rest) = short_row_of(rest)?;
    Ok((Some(row), rest))
}

/// A row behind its length.
#[tactic(auto, unfolding(crate::specs::LiveReading::short_row_at))]
fn short_row_of(bytes: &[u8]) -> Result<(&[u8], &[u8]), EntryFault>
    ensures read { Gives (λ x. (x.0.now, x.1.now)) result (short_row_at bytes.now) }
    ensures short { IfOk result (λ x. length x.0.now ≤ 4096) }
{
    let (size, rest) = read_u16(bytes)?;
    if size as usize > MAX_ROW_SIZE {
        return Err(EntryFault::BadEntry);
    }
    bytes_of(rest, size as usize)
}

/// What a state and the number of a commit say.
fn status_from(state: u8, commit: u64) -> Result<Status, EntryFault>
    ensures { Gives (λ x. state_of x) result (status_of state commit) }
{
    match state {
        OPEN if commit == 0 => Ok(Status::Uncommitted),
        COMMITTED if commit > 0 => Ok(Status::Committed(commit)),
        UNDONE if commit == 0 => Ok(Status::Undone),
        _ => Err(EntryFault::BadEntry),
    }
}
