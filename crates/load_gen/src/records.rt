//! The records of the generated script.

ghost use Rattle.std.specs.Prelude.{◌≡◌, ◌+◌, ◌<◌, ◌≤◌, ◌^◌, ◌++◌, IfOk, Some, codes, length, slice_get};
ghost use Rattle.jet_base.specs.declared.words.Given.TheVariants as given;
ghost use Rattle.load_gen.specs.Records.{filling_calls, four_digits, record_calls, records_calls, set_last_values, set_later_values, set_mail, set_note, set_number, set_value, set_values, six_digits};

use crate::table::{CURSOR, NUMBERED_COLUMNS, last_digit, numbered_name};
use jet_base::{Given, Name, Octets, OutOfMemory, Prepare};
use session_local::Request;
use std::alloc::Global;

/// The last four decimal digits of a number.
fn four_digits(number: u32) -> [u8; 4]
    ensures { result ≡ four_digits number }
{
    [
        last_digit(number / 1000),
        last_digit(number / 100),
        last_digit(number / 10),
        last_digit(number),
    ]
}

/// The last six decimal digits of a number.
fn six_digits(number: u32) -> [u8; 6]
    ensures { result ≡ six_digits number }
{
    let [thousands, hundreds, tens, ones] = four_digits(number);
    [
        last_digit(number / 100_000),
        last_digit(number / 10_000),
        thousands,
        hundreds,
        tens,
        ones,
    ]
}

/// The call that sets a value of a column.
fn set_value(
    alloc: Global,
    column: &[u8],
    sequence: u32,
    value: Given,
) -> Result<Option<Request>, OutOfMemory>
    ensures { IfOk result (λ made. made ≡ Some (set_value column.now sequence value)) }
{
    let column = Name::from_slice(alloc, column)?;
    Ok(Some(Request::SetColumn {
        cursor: CURSOR,
        column,
        sequence,
        value,
    }))
}

/// The call that sets `name`.
fn set_name(alloc: Global, number: u32) -> Result<Option<Request>, OutOfMemory>
    ensures { IfOk result (λ made. made ≡ Some (set_value (codes "name") 1 (given.Bytes (codes "u" ++ six_digits number)))) }
{
    let [a, b, c, d, e, f] = six_digits(number);
    let text = Octets::from_slice(alloc, &[b'u', a, b, c, d, e, f])?;
    set_value(alloc, b"name", 1, Given::Bytes(text))
}

/// The call that sets a value of `mail`.
fn set_mail(alloc: Global, number: u32, sequence: u32) -> Result<Option<Request>, OutOfMemory>
    ensures { IfOk result (λ made. made ≡ Some (set_mail number sequence)) }
{
    let [a, b, c, d, e, f] = six_digits(number);
    let text = [b'm', a, b, c, d, e, f, b'x', last_digit(sequence)];
    let text = Octets::from_slice(alloc, &text)?;
    set_value(alloc, b"mail", sequence, Given::Bytes(text))
}

/// The call that sets `note`.
fn set_note(alloc: Global, number: u32) -> Result<Option<Request>, OutOfMemory>
    ensures { IfOk result (λ made. made ≡ Some (set_note number)) }
{
    let [a, b, c, d] = four_digits(number % 100);
    let text = Octets::from_slice(alloc, &[b'n', a, b, c, d])?;
    set_value(alloc, b"note", 1, Given::Bytes(text))
}

/// The call that sets a numbered column.
fn set_number(alloc: Global, number: u32, column: u32) -> Result<Option<Request>, OutOfMemory>
    ensures { IfOk result (λ made. made ≡ Some (set_number number column)) }
{
    let name = numbered_name(alloc, column)?;
    let value = u64::from(number) * u64::from(column) % 1000;
    Ok(Some(Request::SetColumn {
        cursor: CURSOR,
        column: name,
        sequence: 1,
        value: Given::Number(value as i64),
    }))
}

/// The call at this place, from 0, of those that set `note` and the numbered columns.
#[tactic(auto, using(crate::proofs::RecordCalls::values))]
fn last_value(alloc: Global, number: u32, place: u64) -> Result<Option<Request>, OutOfMemory>
    ensures { IfOk result (λ made. made ≡ slice_get (set_last_values number) place) }
{
    if place == 0 {
        set_note(alloc, number)
    } else if place <= NUMBERED_COLUMNS {
        set_number(alloc, number, 6 + place as u32)
    } else {
        Ok(None)
    }
}

/// The call at this place, from 0, of those that set the values behind `mail`.
#[tactic(auto, using(crate::proofs::RecordCalls::values))]
fn later_value(alloc: Global, number: u32, place: u64) -> Result<Option<Request>, OutOfMemory>
    ensures { IfOk result (λ made. made ≡ slice_get (set_later_values number) place) }
{
    if number % 10 == 0 {
        last_value(alloc, number, place)
    } else if place == 0 {
        set_value(alloc, b"grp", 1, Given::Number(i64::from(number % 7)))
    } else {
        last_value(alloc, number, place - 1)
    }
}

/// The call at this place, from 0, of those that set a record's values.
#[tactic(auto, using(crate::proofs::RecordCalls::values))]
fn value(alloc: Global, number: u32, place: u64) -> Result<Option<Request>, OutOfMemory>
    ensures { IfOk result (λ made. made ≡ slice_get (set_values number) place) }
{
    let behind_mails = 3 + u64::from(number % 3);
    if place == 0 {
        set_value(alloc, b"id", 1, Given::Number(i64::from(number)))
    } else if place == 1 {
        set_name(alloc, number)
    } else if place < behind_mails {
        set_mail(alloc, number, place as u32 - 1)
    } else {
        later_value(alloc, number, place - behind_mails)
    }
}

/// How many values are set in a record.
#[tactic(auto, using(crate::proofs::RecordCalls::value_counts))]
fn values_of(number: u32) -> u64
    ensures { result ≡ length (set_values number) }
{
    let group = if number % 10 == 0 { 0 } else { 1 };
    38 + u64::from(number % 3) + group
}

/// The call at this place, from 0, of those that put a record and commit behind it.
#[tactic(auto, using(crate::proofs::RecordCalls::fillings))]
fn filling_call(alloc: Global, number: u32, place: u64) -> Result<Option<Request>, OutOfMemory>
    ensures { IfOk result (λ made. made ≡ slice_get (filling_calls number) place) }
{
    let values = values_of(number);
    if place == 0 {
        Ok(Some(Request::PrepareUpdate {
            cursor: CURSOR,
            how: Prepare::Insert,
        }))
    } else if place <= values {
        value(alloc, number, place - 1)
    } else if place == values + 1 {
        Ok(Some(Request::Update { cursor: CURSOR }))
    } else if place == values + 2 && number % 100 == 0 {
        Ok(Some(Request::CommitTransaction { lazy: false }))
    } else {
        Ok(None)
    }
}

/// The call at this place of those of a record, from 0. Records are counted from 1.
#[tactic(auto, using(crate::proofs::RecordCalls::places))]
pub(crate) fn record_call(
    alloc: Global,
    number: u32,
    place: u64,
) -> Result<Option<Request>, OutOfMemory>
    requires { 1 ≤ number }
    ensures { IfOk result (λ made. made ≡ slice_get (record_calls number) place) }
{
    if (number - 1) % 100 != 0 {
        filling_call(alloc, number, place)
    } else if place == 0 {
        Ok(Some(Request::BeginTransaction))
    } else {
        filling_call(alloc, number, place - 1)
    }
}

/// How many calls the first records have.
///
/// A record has 42, but for a third value of `mail` in the place of a single one, for `grp` where it is left NULL, and for
/// the begins and commits of transactions.
#[tactic(auto, using(crate::proofs::Lengths::records_length))]
pub(crate) fn calls_of_records(records: u64) -> u64
    requires { records < 2 ^ 40 }
    ensures { result ≡ length (records_calls records) }
{
    let more = (records + 1) / 3 + (records + 99) / 100 + records / 100;
    let fewer = records / 3 + records / 10;
    42 * records + more - fewer
}

/// How many records stand before the one with the call at this place, from 0, of the first `records`.
///
/// 300 records have 12,576 calls, whichever is the first. So the quotient is that record or one less.
pub(crate) fn records_before(records: u32, place: u64) -> u32
    requires { place < length (records_calls records) }
    ensures fewer { result < records }
    ensures least { length (records_calls result) ≤ place }
    ensures most { place < length (records_calls (result + 1)) }
{
    let guess = (25 * place).saturating_sub(73) / 1048;
    let before = if calls_of_records(guess + 1) <= place {
        guess + 1
    } else {
        guess
    };
    before as u32
}
