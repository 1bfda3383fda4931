//! The entries of a log.

ghost use Rattle.std.specs.Prelude.{◌≡◌, ◌<◌, ◌^◌, ◌++◌, ℕ, List, Some, IfOk, IsTrue, OnOk};
ghost use Rattle.index_derive.specs.declared.log.Entry.{Entry};
ghost use Rattle.log_grammar.specs.EntryBytes.{IsCut};
ghost use Rattle.log_grammar.specs.EntryStreams.{stream_bytes, stream_fits};
ghost use Rattle.tool_dump.specs.DumpTexts.{change_name, entry_line, IsLogText, log_text, tag_name};
ghost use Rattle.tool_dump.specs.LogSteps.{AppendsFront, AppendsLog};

use crate::lines::append_number;
use column_set::Change;
use index_derive::{Entry, EntryKind};
use jet_base::OutOfMemory;
use log_grammar::{cut_bytes_begin_with_no_entry, streams_are_read_back};
use log_record::{EntryFault, read_front};
use std::alloc::Global;

/// The text of the log behind a checkpoint that holds so many entries: a line for each whole entry that the bytes begin with, one after
/// another, with its number, the name of its tag and its session. It ends where the bytes end, or begin with no whole entry.
///
/// The number is below 2^62, as that of each image that is read. Each entry is read once, and no memory is taken but for one entry and
/// the text.
pub fn log(alloc: Global, number: u64, bytes: &[u8]) -> Result<Vec<u8>, OutOfMemory>
    requires { number < 2 ^ 62 }
    ensures { IfOk result (λ text. IsLogText number bytes.now text.items) }
{
    let mut text = Vec::new(alloc);
    append_log(alloc, &mut text, number, bytes)?;
    Ok(text)
}

/// Bytes have one text.
pub fn a_log_has_one_text()
    ensures { (number : ℕ) (bytes one other : List ℕ) → IsLogText number bytes one → IsLogText number bytes other → one ≡ other }
{
    streams_are_read_back();
}

/// Entries one after another, and behind them bytes that are cut from one or none at all, as a crash leaves a log, are told as just
/// these entries.
pub fn a_log_is_told_as_its_whole_entries()
    ensures { (number : ℕ) (entries : List Entry) (rest : List ℕ) → IsTrue (stream_fits entries) → IsCut rest → IsLogText number (stream_bytes entries ++ rest) (log_text number entries) }
{
    cut_bytes_begin_with_no_entry();
}

/// The name of the tag of a change.
fn change_name(change: &Change) -> &'static [u8]
    ensures { result.now ≡ change_name change.now }
{
    match change {
        Change::Put { .. } => b"Put",
        Change::Drop { .. } => b"Drop",
        Change::Add { .. } => b"Add",
        Change::Hold { .. } => b"Hold",
    }
}

/// The name of the tag of an entry.
fn tag_name(kind: &EntryKind) -> &'static [u8]
    ensures { result.now ≡ tag_name kind.now }
{
    match kind {
        EntryKind::Enter => b"Enter",
        EntryKind::Leave => b"Leave",
        EntryKind::Open { .. } => b"Open",
        EntryKind::Shut { .. } => b"Shut",
        EntryKind::Begin => b"Begin",
        EntryKind::Save => b"Save",
        EntryKind::Change(change) => change_name(change),
        EntryKind::Release => b"Release",
        EntryKind::Undo => b"Undo",
        EntryKind::UndoAll => b"UndoAll",
        EntryKind::Commit => b"Commit",
        EntryKind::Schema(_) => b"Schema",
    }
}

/// Puts the line of an entry at the end.
fn append_entry(text: &mut Vec<u8>, number: u64, entry: &Entry) -> Result<(), OutOfMemory>
    ensures { OnOk result (text.new.items ≡ text.old.items ++ entry_line number entry.now) }
{
    append_number(text, number)?;
    text.push(b' ')?;
    text.extend_from_slice(tag_name(&entry.kind))?;
    text.push(b' ')?;
    append_number(text, u64::from(entry.session.0))?;
    text.push(b'\n')?;
    Ok(())
}

/// Puts the line of an entry at the end, and hands back how many bytes it has.
fn append_sized(
    text: &mut Vec<u8>,
    number: u64,
    entry: &Entry,
    size: usize,
) -> Result<Option<usize>, OutOfMemory>
    ensures { IfOk result (λ taken. (taken ≡ Some size) × (text.new.items ≡ text.old.items ++ entry_line number entry.now)) }
{
    match append_entry(text, number, entry) {
        Ok(()) => Ok(Some(size)),
        Err(fault) => Err(fault),
    }
}

/// Puts the line of the entry that the bytes begin with at the end, and tells how many bytes it has; none where they begin with no whole
/// entry.
#[tactic(none)]
fn append_front(
    alloc: Global,
    text: &mut Vec<u8>,
    number: u64,
    bytes: &[u8],
) -> Result<Option<usize>, OutOfMemory>
    ensures { IfOk result (AppendsFront number bytes.now text.old.items text.new.items) }
{
    match read_front(alloc, bytes) {
        Ok((entry, size)) => append_sized(text, number, &entry, size),
        Err(EntryFault::BadEntry) => Ok(None),
        Err(EntryFault::OutOfMemory) => Err(OutOfMemory),
    }
}

/// Puts the lines of the whole entries at the end.
fn append_log(
    alloc: Global,
    text: &mut Vec<u8>,
    number: u64,
    bytes: &[u8],
) -> Result<(), OutOfMemory>
    requires { number < 2 ^ 62 }
    ensures { OnOk result (AppendsLog number bytes.now text.old.items text.new.items) }
{
    let mut last = number;
    let mut at = 0;
    while at < bytes.len() {
        match append_front(alloc, text, last + 1, &bytes[at..]) {
            Ok(Some(size)) => {
                last += 1;
                at += size;
            }
            Ok(None) => return Ok(()),
            Err(fault) => return Err(fault),
        }
    }
    Ok(())
}
