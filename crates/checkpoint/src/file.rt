//! A checkpoint file is read: its fixed part, its slots, and its live part.

ghost use Rattle.std.specs.Prelude.{◌≡◌, ◌<◌, ◌≤◌, ℕ, ◌+◌, ◌-◌, ◌^◌, List, [], true, false, length, take, drop, nat_le, IfErr, IfOk, IfSome, MatchOption, MatchResult};
ghost use Rattle.std.specs.Bool.{OnTrue};
ghost use Rattle.std.specs.List.{list_all};
ghost use Rattle.jet_io.specs.Faults.{CountsFault};
ghost use Rattle.jet_volume.specs.Image.{file_bytes};
ghost use Rattle.checkpoint.specs.declared.image.TheConstants.{MAX_LIVE_BYTES, MAX_PAGES};
ghost use Rattle.checkpoint.specs.declared.rest.TheConstants.{MAX_OFFSET};
ghost use Rattle.checkpoint.specs.Contents.{has_slots, is_checkpoint_file, is_slot, may_go_on, number_at, page_count};
ghost use Rattle.checkpoint.specs.Opening.Verdict.{Stands};
ghost use Rattle.checkpoint.specs.Opening.{file_verdict};
ghost use Rattle.checkpoint.specs.Shape.{contents_with};
ghost use Rattle.checkpoint.specs.Found.{CountsCheckFault, IsFromOutside, IsWithinBounds};
ghost use Rattle.checkpoint.specs.Parts.{ExplainsFile, IsFixedOf, IsSlotsOf, IsContentsOf, LooksOnly};

use crate::fault::CheckFault;
use crate::looking::{Fixed, read_fixed, u32_at};
use crate::pages::FREE;
use crate::rest::{Head, LENGTH_BYTES, SLOTS_AT};
use jet_io::Failed;
use jet_volume::{File, Volume};
use std::alloc::Global;

/// The numbers of a checkpoint that go on growing are below this when it is read: 2^62.
const LIMIT: u64 = 1 << 62;

/// Whether a file has so many bytes.
fn has_bytes<V: Volume>(volume: &mut V, file: File, end: u64) -> Result<bool, Failed>
    ensures value { IfOk result (λ has. V.tells_contents → has ≡ nat_le end (length (file_bytes file (V.seen volume.old)))) }
    ensures seen { V.seen volume.new ≡ V.seen volume.old }
    ensures quiet { LooksOnly V.moment V.left_at volume.old volume.new }
    ensures faults { CountsFault result (V.faults volume.old) (V.faults volume.new) }
    ensures identity { V.identity volume.new ≡ V.identity volume.old }
{
    match volume.size(file) {
        Ok(size) => Ok(end <= size),
        Err(fault) => Err(fault),
    }
}

/// Fills a buffer with the bytes of a file from a place on. Answers whether the file has as many.
fn fill<V: Volume>(volume: &mut V, file: File, at: u64, into: &mut [u8]) -> Result<bool, Failed>
    ensures whole { IfOk result (λ whole. V.tells_contents → whole ≡ nat_le (length into.old) (length (file_bytes file (V.seen volume.old)) - at)) }
    ensures filled { IfOk result (λ whole. V.tells_contents → OnTrue whole (into.new ≡ take (length into.old) (drop at (file_bytes file (V.seen volume.old))))) }
    ensures seen { V.seen volume.new ≡ V.seen volume.old }
    ensures quiet { LooksOnly V.moment V.left_at volume.old volume.new }
    ensures faults { CountsFault result (V.faults volume.old) (V.faults volume.new) }
    ensures identity { V.identity volume.new ≡ V.identity volume.old }
{
    match volume.read(file, at, into) {
        Ok(count) => Ok(count == into.len()),
        Err(fault) => Err(fault),
    }
}

/// Takes memory for so many bytes of a file, and reads them.
fn take_piece<V: Volume>(
    alloc: Global,
    volume: &mut V,
    file: File,
    at: u64,
    len: usize,
) -> Result<Option<Vec<u8>>, CheckFault>
    ensures piece { IfOk result (λ found. V.tells_contents → at + len ≤ length (file_bytes file (V.seen volume.old))
        → MatchOption found ⊥ (λ piece. piece.items ≡ take len (drop at (file_bytes file (V.seen volume.old))))) }
    ensures len { IfOk result (λ found. IfSome found (λ piece. length piece.items ≡ len)) }
    ensures outside { IfErr result IsFromOutside }
    ensures seen { V.seen volume.new ≡ V.seen volume.old }
    ensures quiet { LooksOnly V.moment V.left_at volume.old volume.new }
    ensures faults { CountsCheckFault result (V.faults volume.old) (V.faults volume.new) }
    ensures identity { V.identity volume.new ≡ V.identity volume.old }
{
    match vec![in alloc; 0; len] {
        Ok(mut piece) => match fill(volume, file, at, &mut piece) {
            Ok(true) => Ok(Some(piece)),
            Ok(false) => Ok(None),
            Err(_) => Err(CheckFault::VolumeFault),
        },
        Err(_) => Err(CheckFault::OutOfMemory),
    }
}

/// Reads so many bytes of a file, `None` where it has not so many. Memory is taken only where it has them.
fn read_piece<V: Volume>(
    alloc: Global,
    volume: &mut V,
    file: File,
    at: u64,
    len: usize,
) -> Result<Option<Vec<u8>>, CheckFault>
    requires { at + len < 2 ^ 63 }
    ensures piece { IfOk result (λ found. V.tells_contents → MatchOption found (length (file_bytes file (V.seen volume.old)) < at + len)
        (λ piece. (at + len ≤ length (file_bytes file (V.seen volume.old))) × (piece.items ≡ take len (drop at (file_bytes file (V.seen volume.old)))))) }
    ensures len { IfOk result (λ found. IfSome found (λ piece. length piece.items ≡ len)) }
    ensures outside { IfErr result IsFromOutside }
    ensures seen { V.seen volume.new ≡ V.seen volume.old }
    ensures quiet { LooksOnly V.moment V.left_at volume.old volume.new }
    ensures faults { CountsCheckFault result (V.faults volume.old) (V.faults volume.new) }
    ensures identity { V.identity volume.new ≡ V.identity volume.old }
{
    match has_bytes(volume, file, at + len as u64) {
        Ok(true) => take_piece(alloc, volume, file, at, len),
        Ok(false) => Ok(None),
        Err(_) => Err(CheckFault::VolumeFault),
    }
}

/// The slots of a checkpoint file, and the length of the live part behind them.
#[derive(Drop)]
pub struct Slots {
    pub items: Vec<u8>,
    pub live_length: u32,
}

/// Whether each byte is a slot.
fn are_slots(bytes: &[u8]) -> bool
    ensures { result ≡ list_all is_slot bytes.now }
{
    bytes.iter().all(|slot| *slot <= FREE)
}

/// The slots in a piece, with the length behind them, `None` where one is no slot.
fn slots_in(mut piece: Vec<u8>, count: usize) -> Option<Slots>
    requires { length piece.items ≡ count + LENGTH_BYTES }
    ensures slots { MatchOption result (list_all is_slot (take count piece.items) ≡ false)
        (λ slots. (list_all is_slot slots.items.items ≡ true) × (slots.items.items ≡ take count piece.items) × (slots.live_length ≡ number_at 4 count piece.items)) }
    ensures len { IfSome result (λ slots. length slots.items.items ≡ count) }
{
    let live_length = u32_at(&piece, count);
    piece.truncate(count);
    if are_slots(&piece) {
        Some(Slots {
            items: piece,
            live_length,
        })
    } else {
        None
    }
}

/// Reads the slots of so many pages, `None` where the file does not have them, or one is no slot.
fn read_slots<V: Volume>(
    alloc: Global,
    volume: &mut V,
    file: File,
    count: u32,
) -> Result<Option<Slots>, CheckFault>
    requires { count ≤ MAX_PAGES }
    ensures slots { IfOk result (λ found. V.tells_contents → count ≡ page_count (file_bytes file (V.seen volume.old))
        → MatchOption found (has_slots (file_bytes file (V.seen volume.old)) ≡ false) (λ slots. IsSlotsOf slots (file_bytes file (V.seen volume.old)))) }
    ensures each { IfOk result (λ found. IfSome found (λ slots. list_all is_slot slots.items.items ≡ true)) }
    ensures len { IfOk result (λ found. IfSome found (λ slots. length slots.items.items ≡ count)) }
    ensures outside { IfErr result IsFromOutside }
    ensures seen { V.seen volume.new ≡ V.seen volume.old }
    ensures quiet { LooksOnly V.moment V.left_at volume.old volume.new }
    ensures faults { CountsCheckFault result (V.faults volume.old) (V.faults volume.new) }
    ensures identity { V.identity volume.new ≡ V.identity volume.old }
{
    let count = count as usize;
    match read_piece(alloc, volume, file, SLOTS_AT as u64, count + LENGTH_BYTES) {
        Ok(Some(piece)) => Ok(slots_in(piece, count)),
        Ok(None) => Ok(None),
        Err(fault) => Err(fault),
    }
}

/// What a checkpoint file says.
#[derive(Drop)]
pub struct FileContents {
    pub head: Head,
    pub slots: Vec<u8>,
    pub live: Vec<u8>,
}

/// Reads the live part behind the slots, `None` where the file does not have it.
fn read_live<V: Volume>(
    alloc: Global,
    volume: &mut V,
    file: File,
    fixed: Fixed,
    slots: Slots,
) -> Result<Option<FileContents>, CheckFault>
    requires { fixed.count ≤ MAX_PAGES }
    ensures told { IfOk result (λ found. V.tells_contents → IsFixedOf fixed file (file_bytes file (V.seen volume.old)) → IsSlotsOf slots (file_bytes file (V.seen volume.old))
        → MatchOption found (is_checkpoint_file file (file_bytes file (V.seen volume.old)) ≡ false) (λ told. IsContentsOf told file (file_bytes file (V.seen volume.old)))) }
    ensures parts { IfOk result (λ found. IfSome found (λ told. (told.head ≡ fixed.head) × (told.slots.items ≡ slots.items.items) × (length told.live.items ≤ MAX_LIVE_BYTES))) }
    ensures outside { IfErr result IsFromOutside }
    ensures seen { V.seen volume.new ≡ V.seen volume.old }
    ensures quiet { LooksOnly V.moment V.left_at volume.old volume.new }
    ensures faults { CountsCheckFault result (V.faults volume.old) (V.faults volume.new) }
    ensures identity { V.identity volume.new ≡ V.identity volume.old }
{
    let at = (SLOTS_AT + LENGTH_BYTES) as u64 + fixed.count as u64;
    match read_piece(alloc, volume, file, at, slots.live_length as usize) {
        Ok(Some(live)) => Ok(Some(FileContents {
            head: fixed.head,
            slots: slots.items,
            live,
        })),
        Ok(None) => Ok(None),
        Err(fault) => Err(fault),
    }
}

/// Reads what stands behind the fixed part, `None` where the file is no checkpoint file.
fn read_behind<V: Volume>(
    alloc: Global,
    volume: &mut V,
    file: File,
    fixed: Fixed,
) -> Result<Option<FileContents>, CheckFault>
    requires { fixed.count ≤ MAX_PAGES }
    ensures told { IfOk result (λ found. V.tells_contents → IsFixedOf fixed file (file_bytes file (V.seen volume.old))
        → MatchOption found (is_checkpoint_file file (file_bytes file (V.seen volume.old)) ≡ false) (λ told. IsContentsOf told file (file_bytes file (V.seen volume.old)))) }
    ensures parts { IfOk result (λ found. IfSome found (λ told. (told.head ≡ fixed.head) × (list_all is_slot told.slots.items ≡ true) × (length told.slots.items ≤ MAX_PAGES) × (length told.live.items ≤ MAX_LIVE_BYTES))) }
    ensures outside { IfErr result IsFromOutside }
    ensures seen { V.seen volume.new ≡ V.seen volume.old }
    ensures quiet { LooksOnly V.moment V.left_at volume.old volume.new }
    ensures faults { CountsCheckFault result (V.faults volume.old) (V.faults volume.new) }
    ensures identity { V.identity volume.new ≡ V.identity volume.old }
{
    match read_slots(alloc, volume, file, fixed.count) {
        Ok(Some(slots)) => read_live(alloc, volume, file, fixed, slots),
        Ok(None) => Ok(None),
        Err(fault) => Err(fault),
    }
}

/// Reads a file, `None` where it is no checkpoint file.
fn read_whole<V: Volume>(
    alloc: Global,
    volume: &mut V,
    file: File,
) -> Result<Option<FileContents>, CheckFault>
    ensures told { IfOk result (λ found. V.tells_contents
        → MatchOption found (is_checkpoint_file file (file_bytes file (V.seen volume.old)) ≡ false) (λ told. IsContentsOf told file (file_bytes file (V.seen volume.old)))) }
    ensures bounds { IfOk result (λ found. IfSome found (λ told. (1 ≤ told.head.number) × (1 ≤ told.head.start.generation) × (told.head.start.offset ≤ MAX_OFFSET))) }
    ensures parts { IfOk result (λ found. IfSome found (λ told. (list_all is_slot told.slots.items ≡ true) × (length told.slots.items ≤ MAX_PAGES) × (length told.live.items ≤ MAX_LIVE_BYTES))) }
    ensures outside { IfErr result IsFromOutside }
    ensures seen { V.seen volume.new ≡ V.seen volume.old }
    ensures quiet { LooksOnly V.moment V.left_at volume.old volume.new }
    ensures faults { CountsCheckFault result (V.faults volume.old) (V.faults volume.new) }
    ensures identity { V.identity volume.new ≡ V.identity volume.old }
{
    match read_fixed(volume, file) {
        Ok(Some(fixed)) => read_behind(alloc, volume, file, fixed),
        Ok(None) => Ok(None),
        Err(_) => Err(CheckFault::VolumeFault),
    }
}

/// Whether a checkpoint of these numbers may be read.
fn is_within_limit(head: Head) -> bool
    ensures value { result ≡ may_go_on (contents_with head [] []) }
{
    head.number < LIMIT
        && head.entries < LIMIT
        && head.start.generation < LIMIT
        && head.start.position < LIMIT
}

/// Reads the checkpoint file that is looked at.
pub fn read_file<V: Volume>(
    alloc: Global,
    volume: &mut V,
    file: File,
) -> Result<FileContents, CheckFault>
    ensures told { V.tells_contents → MatchResult result (λ told. IsContentsOf told file (file_bytes file (V.seen volume.old))) (ExplainsFile file (file_bytes file (V.seen volume.old))) }
    ensures stands { IfOk result (λ told. V.tells_contents → file_verdict file (file_bytes file (V.seen volume.old)) ≡ Stands (contents_with told.head told.slots.items told.live.items)) }
    ensures bounds { IfOk result (λ told. IsWithinBounds told.head.number told.head.entries told.head.start) }
    ensures parts { IfOk result (λ told. (list_all is_slot told.slots.items ≡ true) × (length told.slots.items ≤ MAX_PAGES) × (length told.live.items ≤ MAX_LIVE_BYTES)) }
    ensures seen { V.seen volume.new ≡ V.seen volume.old }
    ensures quiet { LooksOnly V.moment V.left_at volume.old volume.new }
    ensures faults { CountsCheckFault result (V.faults volume.old) (V.faults volume.new) }
    ensures identity { V.identity volume.new ≡ V.identity volume.old }
{
    match read_whole(alloc, volume, file) {
        Ok(Some(told)) => {
            if is_within_limit(told.head) {
                Ok(told)
            } else {
                Err(CheckFault::LogSequenceEnd)
            }
        }
        Ok(None) => Err(CheckFault::CheckpointCorrupt),
        Err(fault) => Err(fault),
    }
}
