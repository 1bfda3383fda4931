//! What the run of the generated script is told as.

ghost use Rattle.std.specs.Prelude.{◌≡◌, ◌+◌, ◌-◌, ◌<◌, ◌^◌, ◌++◌, [], ◌∷◌, IfOk, List, if◌then◌else◌, is_ok, length, slice_index};
ghost use Rattle.session_local.specs.Answer.{Row};
ghost use Rattle.load_gen.specs.Summary.{begins_walk, count_of_nothing, count_of_rows, counted, counted_call, index_lines, is_move, is_success, one_more, summary_line, summary_text};

use crate::table::{LOAD_INDEXES, LoadIndex};
use itoa::Buffer;
use jet_base::{Jet, OutOfMemory};
use session_local::Request;
use std::alloc::Global;
use std::marker::Model;

/// The walks of a run, counted call by call: for each index that was chosen, how many of the moves since then were answered
/// with success.
#[derive(Debug, Drop)]
pub struct WalkCounts {
    /// How many calls were counted.
    calls: u64,
    counts: Vec<u64>,
}

impl Model for WalkCounts {
    ghost use Rattle.std.specs.Prelude.{◌-◌, ◌≤◌, length, slice_index};
    ghost use Rattle.load_gen.specs.Summary.{WalkCount};

    ghost Value = { WalkCount };

    ghost view = { λ walks. record { calls = walks.calls; counts = walks.counts.items } };

    ghost invariant = { λ walks. slice_index walks.counts.items (length walks.counts.items - 1) ≤ walks.calls };
}

impl WalkCounts {
    /// The count of no call. It takes no memory.
    pub fn new(alloc: Global) -> WalkCounts
        ensures { result ≡ count_of_nothing }
    {
        WalkCounts {
            calls: 0,
            counts: Vec::new(alloc),
        }
    }

    /// How many calls were counted.
    pub fn calls(&self) -> u64
        ensures { result ≡ self.now.calls }
    {
        self.calls
    }

    /// Counts a call with its reply. Where there is no memory it is not counted.
    #[tactic(auto, using(crate::proofs::Counts::last_counts))]
    pub fn count(&mut self, request: &Request, reply: Jet) -> Result<(), OutOfMemory>
        requires { self.old.calls + 1 < 2 ^ 64 }
        ensures { self.new ≡ (if is_ok result then counted_call self.old request.now reply else self.old) }
    {
        count_call(&mut self.counts, request, reply)?;
        self.calls += 1;
        Ok(())
    }

    /// The summary of the run of the script for so many records: their number, and the count of each index, a line each.
    pub fn text(&self, alloc: Global, records: u32) -> Result<Vec<u8>, OutOfMemory>
        ensures { IfOk result (λ text. text.items ≡ summary_text records self.now.counts) }
    {
        let mut text = Vec::new(alloc);
        append_line(&mut text, b"records", u64::from(records))?;
        append_lines(&mut text, &LOAD_INDEXES, &self.counts)?;
        Ok(text)
    }
}

fn begins_walk(request: &Request) -> bool
    ensures { result ≡ begins_walk request.now }
{
    matches!(request, Request::SetCurrentIndex { .. })
}

fn is_move(request: &Request) -> bool
    ensures { result ≡ is_move request.now }
{
    matches!(request, Request::Move { .. })
}

fn is_success(reply: Jet) -> bool
    ensures { result ≡ is_success reply }
{
    matches!(reply, Jet::Success)
}

/// Counts a call with its reply. Where there is no memory the counts stay.
fn count_call(counts: &mut Vec<u64>, request: &Request, reply: Jet) -> Result<(), OutOfMemory>
    requires { slice_index counts.old.items (length counts.old.items - 1) + 1 < 2 ^ 64 }
    ensures { counts.new.items ≡ (if is_ok result then counted counts.old.items request.now reply else counts.old.items) }
{
    if begins_walk(request) {
        counts.push(0)?;
    } else if is_move(request) && is_success(reply) {
        add_one_to_last(counts);
    }
    Ok(())
}

/// One more in the last count.
#[tactic(auto, using(crate::proofs::Counts::ends))]
fn add_one_to_last(counts: &mut Vec<u64>)
    requires { slice_index counts.old.items (length counts.old.items - 1) + 1 < 2 ^ 64 }
    ensures { counts.new.items ≡ one_more counts.old.items }
{
    if let Some(count) = counts.last_mut() {
        *count += 1;
    }
}

/// Puts a line of the summary at the end.
fn append_line(text: &mut Vec<u8>, name: &[u8], count: u64) -> Result<(), OutOfMemory>
    ensures { IfOk result (λ _. text.new.items ≡ text.old.items ++ summary_line name.now count) }
{
    let mut buffer = Buffer::new();
    text.extend_from_slice(b"load ")?;
    text.extend_from_slice(name)?;
    text.push(b' ')?;
    text.extend_from_slice(buffer.format(count).as_bytes())?;
    text.push(b'\n')?;
    Ok(())
}

/// Puts a line for each index with its count at the end.
fn append_lines(
    text: &mut Vec<u8>,
    indexes: &[LoadIndex],
    counts: &[u64],
) -> Result<(), OutOfMemory>
    ensures { IfOk result (λ _. text.new.items ≡ text.old.items ++ index_lines indexes.now counts.now) }
{
    for (index, count) in indexes.iter().zip(counts) {
        append_line(text, index.name(), *count)?;
    }
    Ok(())
}

/// The calls of a run are counted as its rows: one row more is one call more.
pub fn rows_are_counted_one_by_one()
    ensures none { count_of_rows [] ≡ count_of_nothing }
    ensures next { (rows : List Row) (row : Row) → count_of_rows (rows ++ row ∷ []) ≡ counted_call (count_of_rows rows) row.request row.answered.jet }
{}
