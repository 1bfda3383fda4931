//! The lines of the generated script.

ghost use Rattle.std.specs.Prelude.{◌≡◌, ◌<◌, ℕ, IfOk, length, slice_get, true};
ghost use Rattle.std.specs.List.{flat_map, list_all};
ghost use Rattle.session_local.specs.BuiltCalls.{is_built_request};
ghost use Rattle.load_gen.specs.Records.{records_calls};
ghost use Rattle.load_gen.specs.Script.{ending_calls, entries_in, generated_calls, generated_line, walk_calls};

use crate::records::{calls_of_records, record_call, records_before};
use crate::table::{CURSOR, LOAD_INDEXES, LoadIndex, OPENING_CALLS, opening_call};
use jet_base::{Name, OutOfMemory, Session, Way};
use session_local::Request;
use std::alloc::Global;

/// How many entries the records 1 to `records` have in an index.
#[tactic(auto, using(crate::proofs::Lengths::entries))]
pub fn entries_in(index: LoadIndex, records: u32) -> u64
    ensures { result ≡ entries_in index records }
{
    let records = u64::from(records);
    match index {
        LoadIndex::Primary | LoadIndex::Name => records,
        LoadIndex::Mail => 2 * records + (records + 1) / 3 - records / 3,
        LoadIndex::Group | LoadIndex::Conditional => records - records / 10,
        LoadIndex::Note => 3 * records,
    }
}

/// The call at this place of the walk along an index, from 0.
#[tactic(auto, using(crate::proofs::Walks::walk_places))]
fn walk_call(
    alloc: Global,
    index: LoadIndex,
    records: u32,
    place: u64,
) -> Result<Option<Request>, OutOfMemory>
    ensures { IfOk result (λ made. made ≡ slice_get (walk_calls records index) place) }
{
    if place == 0 {
        let name = Name::from_slice(alloc, index.name())?;
        Ok(Some(Request::SetCurrentIndex {
            cursor: CURSOR,
            index: Some(name),
        }))
    } else if place == 1 {
        Ok(Some(Request::Move {
            cursor: CURSOR,
            way: Way::First,
        }))
    } else if place - 2 < entries_in(index, records) {
        Ok(Some(Request::Move {
            cursor: CURSOR,
            way: Way::Next,
        }))
    } else {
        Ok(None)
    }
}

/// The call at this place of the walks along these indexes, from 0.
#[tactic(auto, using(crate::proofs::Lengths::entries_bound))]
fn call_of_walks(
    alloc: Global,
    indexes: &[LoadIndex],
    records: u32,
    place: u64,
) -> Result<Option<Request>, OutOfMemory>
    ensures { IfOk result (λ made. made ≡ slice_get (flat_map (walk_calls records) indexes.now) place) }
{
    let mut place = place;
    for index in indexes {
        let calls = 2 + entries_in(*index, records);
        if place < calls {
            return walk_call(alloc, *index, records, place);
        }
        place -= calls;
    }
    Ok(None)
}

/// The call at this place of those behind the records, from 0.
#[tactic(auto, using(crate::proofs::Walks::behind_records))]
fn ending_call(alloc: Global, records: u32, place: u64) -> Result<Option<Request>, OutOfMemory>
    ensures { IfOk result (λ made. made ≡ slice_get (ending_calls records) place) }
{
    if records % 100 == 0 {
        call_of_walks(alloc, &LOAD_INDEXES, records, place)
    } else if place == 0 {
        Ok(Some(Request::CommitTransaction { lazy: false }))
    } else {
        call_of_walks(alloc, &LOAD_INDEXES, records, place - 1)
    }
}

/// The call at this place of those of the records, from 0. There are more.
fn call_of_records(alloc: Global, records: u32, place: u64) -> Result<Option<Request>, OutOfMemory>
    requires { place < length (records_calls records) }
    ensures { IfOk result (λ made. made ≡ slice_get (records_calls records) place) }
{
    let before = records_before(records, place);
    let start = calls_of_records(u64::from(before));
    record_call(alloc, before + 1, place - start)
}

/// Call `i` of the script, from 0.
#[tactic(auto, using(crate::proofs::Walks::parts))]
fn call(alloc: Global, n: u32, i: u64) -> Result<Option<Request>, OutOfMemory>
    ensures { IfOk result (λ made. made ≡ slice_get (generated_calls n) i) }
{
    if i < OPENING_CALLS {
        return opening_call(alloc, i);
    }
    let place = i - OPENING_CALLS;
    let calls = calls_of_records(u64::from(n));
    if place < calls {
        call_of_records(alloc, n, place)
    } else {
        ending_call(alloc, n, place - calls)
    }
}

/// Line `i` of the script for `n` records, from 0; None behind the last.
///
/// Every line of every script takes about the same time: its place is computed, and no line before it is made. It allocates
/// only what its own call holds.
///
/// The program takes 1 to 20,000 records. Names and mails tell up to 999,999 apart.
pub fn request(alloc: Global, n: u32, i: u64) -> Result<Option<(Session, Request)>, OutOfMemory>
    ensures { IfOk result (λ made. made ≡ generated_line n i) }
{
    match call(alloc, n, i)? {
        Some(request) => Ok(Some((Session(1), request))),
        None => Ok(None),
    }
}

/// How many calls the walks along these indexes have.
#[tactic(auto, using(crate::proofs::Lengths::entries_bound))]
fn calls_of_walks(indexes: &[LoadIndex], records: u32) -> u64
    requires { length indexes.now < 100 }
    ensures { result ≡ length (flat_map (walk_calls records) indexes.now) }
{
    let mut calls = 0;
    for index in indexes {
        calls += 2 + entries_in(*index, records);
    }
    calls
}

/// How many lines the script for `n` records has.
#[tactic(auto, using(crate::proofs::Walks::script_length))]
pub fn lines(n: u32) -> u64
    ensures { result ≡ length (generated_calls n) }
{
    let last_commit = if n % 100 == 0 { 0 } else { 1 };
    let walks = calls_of_walks(&LOAD_INDEXES, n);
    OPENING_CALLS + calls_of_records(u64::from(n)) + last_commit + walks
}

/// Every call of the script is one that is built, for every number of records.
pub fn all_lines_are_built()
    ensures { (n : ℕ) → list_all is_built_request (generated_calls n) ≡ true }
{}
