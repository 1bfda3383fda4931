//! A crash of a volume in memory picks one of the images that it may leave.

ghost use Rattle.std.specs.Prelude.{◌≡◌, ◌≤◌, ◌+◌, ◌++◌, ◌-◌, reverse, length, take, drop, min, max, IfOk, OnOk};
ghost use Rattle.jet_volume.specs.Crash.{Torn};
ghost use Rattle.jet_volume.specs.Record.{Reaches, MayHold, MayLeave, changes_of, settled_bytes};
ghost use Rattle.jet_volume.specs.Image.{file_bytes};

use crate::contents::Contents;
use crate::dice::{Dice, Way};
use crate::files::File;
use crate::record::{Call, Change};
use std::alloc::{AllocError, Global};

/// What the four files may hold after a crash.
pub fn crashed(
    alloc: Global,
    contents: &Contents,
    calls: &[Call],
    pick: u64,
) -> Result<Contents, AllocError>
    ensures may { IfOk result (MayLeave contents.now (reverse calls.now)) }
    ensures whole { pick ≡ 0 → IfOk result (λ left. left ≡ contents.now) }
    ensures settled { pick ≡ 1 → IfOk result (λ left. (file : File) → file_bytes file left ≡ settled_bytes (file_bytes file contents.now) (changes_of file (reverse calls.now))) }
{
    let mut dice = Dice::new(pick);
    let database = held(
        alloc,
        File::Database,
        contents.get(File::Database),
        calls,
        pick,
        &mut dice,
    )?;
    let checkpoint_a = held(
        alloc,
        File::CheckpointA,
        contents.get(File::CheckpointA),
        calls,
        pick,
        &mut dice,
    )?;
    let checkpoint_b = held(
        alloc,
        File::CheckpointB,
        contents.get(File::CheckpointB),
        calls,
        pick,
        &mut dice,
    )?;
    let log = held(
        alloc,
        File::Log,
        contents.get(File::Log),
        calls,
        pick,
        &mut dice,
    )?;
    Ok(Contents::of_files(database, checkpoint_a, checkpoint_b, log))
}

/// What one file may hold after a crash: all that was written at pick 0, what its last sync left at pick 1,
/// and what the dice say at any other.
fn held(
    alloc: Global,
    file: File,
    now: &[u8],
    calls: &[Call],
    pick: u64,
    dice: &mut Dice,
) -> Result<Vec<u8>, AllocError>
    ensures may { IfOk result (λ bytes. MayHold now.now (changes_of file (reverse calls.now)) bytes.items) }
    ensures whole { pick ≡ 0 → IfOk result (λ bytes. bytes.items ≡ now.now) }
    ensures settled { pick ≡ 1 → IfOk result (λ bytes. bytes.items ≡ settled_bytes now.now (changes_of file (reverse calls.now))) }
{
    if pick == 0 {
        return now.to_vec(alloc);
    }
    if pick == 1 {
        return settled(alloc, file, now, calls);
    }
    if dice.up_to(3) == 0 {
        return now.to_vec(alloc);
    }
    reached(alloc, file, now, calls, dice)
}

/// What a file's last sync left.
fn settled(alloc: Global, file: File, now: &[u8], calls: &[Call]) -> Result<Vec<u8>, AllocError>
    ensures { IfOk result (λ bytes. bytes.items ≡ settled_bytes now.now (changes_of file (reverse calls.now))) }
{
    let [earlier @ .., call] = calls else {
        return now.to_vec(alloc);
    };
    if call.file != file {
        return settled(alloc, file, now, earlier);
    }
    match &call.change {
        Change::Synced => now.to_vec(alloc),
        Change::Missed { .. } => settled(alloc, file, now, earlier),
        Change::Wrote {
            at,
            covered,
            size,
            ..
        } => {
            let before = undo(alloc, now, *at, covered, *size)?;
            settled(alloc, file, &before, earlier)
        }
    }
}

/// What the writes since the file's last sync may have left, each of them torn.
fn reached(
    alloc: Global,
    file: File,
    now: &[u8],
    calls: &[Call],
    dice: &mut Dice,
) -> Result<Vec<u8>, AllocError>
    ensures { IfOk result (λ bytes. Reaches now.now (changes_of file (reverse calls.now)) bytes.items) }
{
    let [earlier @ .., call] = calls else {
        return now.to_vec(alloc);
    };
    if call.file != file {
        return reached(alloc, file, now, earlier, dice);
    }
    match &call.change {
        Change::Synced => now.to_vec(alloc),
        Change::Missed { at, len } => {
            let mut bytes = reached(alloc, file, now, earlier, dice)?;
            tear(&mut bytes, *at, *len, &[], dice)?;
            Ok(bytes)
        }
        Change::Wrote {
            at,
            len,
            covered,
            size,
        } => {
            let before = undo(alloc, now, *at, covered, *size)?;
            let mut bytes = reached(alloc, file, &before, earlier, dice)?;
            tear(&mut bytes, *at, *len, part(now, *at, *len), dice)?;
            Ok(bytes)
        }
    }
}

/// The part of the bytes that a range covers.
fn part(bytes: &[u8], at: usize, len: usize) -> &[u8] {
    let start = at.min(bytes.len());
    let end = at.saturating_add(len).min(bytes.len());
    &bytes[start..end]
}

/// The bytes before a write, from those that it covered and the size before it.
fn undo(
    alloc: Global,
    now: &[u8],
    at: usize,
    covered: &[u8],
    size: usize,
) -> Result<Vec<u8>, AllocError>
    ensures { IfOk result (λ bytes. bytes.items ≡ take size (take at now.now ++ covered.now ++ drop (at + length covered.now) now.now)) }
{
    let front = at.min(now.len());
    let rest = at.saturating_add(covered.len()).min(now.len());
    let mut bytes = now[..front].to_vec(alloc)?;
    bytes.extend_from_slice(covered)?;
    bytes.extend_from_slice(&now[rest..])?;
    bytes.truncate(size);
    Ok(bytes)
}

/// Leaves of a write of `len` bytes what the dice say.
fn tear(
    bytes: &mut Vec<u8>,
    at: usize,
    len: usize,
    piece: &[u8],
    dice: &mut Dice,
) -> Result<(), AllocError>
    ensures { OnOk result (Torn at len bytes.old.items bytes.new.items) }
{
    let old = bytes.len();
    let end = at.saturating_add(len);
    let way = dice.way();
    let cut = at.saturating_add(dice.up_to(piece.len()));
    let size = dice.size(way, old, end, cut);
    bytes.resize(size, 0)?;
    let range = Range {
        low: at.min(old),
        high: end.min(size),
    };
    let write = Write {
        way,
        at,
        cut,
        piece,
    };
    fill(bytes, range, &write, dice);
    Ok(())
}

/// From where to where bytes may have changed.
#[derive(Drop)]
struct Range {
    low: usize,
    high: usize,
}

/// A write that came in some way. What `piece` lacks was not known.
#[derive(Drop)]
struct Write<'a> {
    way: Way,
    at: usize,
    cut: usize,
    piece: &'a [u8],
}

/// Leaves bytes in a range as the dice say.
fn fill(bytes: &mut [u8], range: Range, write: &Write<'_>, dice: &mut Dice)
    requires { range.high ≤ length bytes.old }
    ensures front { take range.low bytes.new ≡ take range.low bytes.old }
    ensures back { drop range.high bytes.new ≡ drop range.high bytes.old }
{
    let Range { low, high } = range;
    for i in low..high {
        let old = bytes[i];
        let written = i.checked_sub(write.at).and_then(|k| write.piece.get(k));
        let new = written.copied().unwrap_or(old);
        bytes[i] = dice.byte(write.way, i < write.cut, old, new);
    }
}
