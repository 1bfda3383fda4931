//! Which checkpoint file is looked at, and the numbers in it.

ghost use Rattle.std.specs.Prelude.{◌≡◌, ◌⊎◌, ℕ, ◌+◌, ◌<◌, ◌≤◌, List, Some, None, true, false, length, take, IfOk, IfSome, IsTrue, MatchOption};
ghost use Rattle.jet_io.specs.Faults.{CountsFault};
ghost use Rattle.jet_volume.specs.Image.{file_bytes, is_file};
ghost use Rattle.checkpoint.specs.Contents.{contents_in, file_of, has_head, number_at, page_count};
ghost use Rattle.checkpoint.specs.Opening.{chosen, has_open_gate, looked_at, shown_number};
ghost use Rattle.checkpoint.specs.Parts.{IsFixedOf, LooksOnly};
ghost use Rattle.checkpoint.specs.Shape.{contents_with};

use crate::gate::OPEN;
use crate::image::MAX_PAGES;
use crate::rest::{FORMAT_VERSION, Head, MAX_OFFSET, SLOTS_AT};
use byteorder::{ByteOrder, LittleEndian};
use jet_io::Failed;
use jet_volume::{File, LogStart, Volume};

/// The number in eight bytes from a place on.
#[tactic(auto, unfolding(crate::specs::Contents::number_at))]
fn u64_at(bytes: &[u8], at: usize) -> u64
    requires { at + 8 ≤ length bytes.now }
    ensures { result ≡ number_at 8 at bytes.now }
{
    LittleEndian::read_u64(&bytes[at..])
}

/// The number in four bytes from a place on.
#[tactic(auto, unfolding(crate::specs::Contents::number_at))]
pub fn u32_at(bytes: &[u8], at: usize) -> u32
    requires { at + 4 ≤ length bytes.now }
    ensures { result ≡ number_at 4 at bytes.now }
{
    LittleEndian::read_u32(&bytes[at..])
}

/// What tells two checkpoint files apart: whether the gate is open, and the number, where there is one.
#[derive(Clone, Copy)]
struct Front {
    open: bool,
    number: Option<u64>,
}

/// What the front of a file shows.
fn front_of(bytes: &[u8]) -> Front
    ensures open { result.open ≡ has_open_gate bytes.now }
    ensures number { result.number ≡ shown_number bytes.now }
{
    Front {
        open: bytes.len() >= 2 && bytes[0] == OPEN,
        number: if bytes.len() >= 18 {
            Some(u64_at(bytes, 10))
        } else {
            None
        },
    }
}

/// Reads the gate and the number of a checkpoint file.
fn read_front<V: Volume>(volume: &mut V, file: File) -> Result<Front, Failed>
    ensures open { IfOk result (λ front. V.tells_contents → front.open ≡ has_open_gate (file_bytes file (V.seen volume.old))) }
    ensures number { IfOk result (λ front. V.tells_contents → front.number ≡ shown_number (file_bytes file (V.seen volume.old))) }
    ensures seen { V.seen volume.new ≡ V.seen volume.old }
    ensures quiet { LooksOnly V.moment V.left_at volume.old volume.new }
    ensures faults { CountsFault result (V.faults volume.old) (V.faults volume.new) }
    ensures identity { V.identity volume.new ≡ V.identity volume.old }
{
    let mut front = [0; 18];
    let count = volume.read(file, 0, &mut front)?;
    Ok(front_of(&front[..count]))
}

/// The file to look at, by the two gates and the two numbers.
fn choose(a: Front, b: Front) -> Option<File>
    ensures { result ≡ chosen a.open b.open a.number b.number }
{
    match (a.open, b.open) {
        (false, false) => None,
        (true, false) => Some(File::CheckpointA),
        (false, true) => Some(File::CheckpointB),
        (true, true) => Some(greater(a.number, b.number)),
    }
}

/// The file of the greater number. One without a number counts as greater.
fn greater(a: Option<u64>, b: Option<u64>) -> File
    ensures { Some result ≡ chosen true true a b }
{
    match (a, b) {
        (None, _) => File::CheckpointA,
        (Some(_), None) => File::CheckpointB,
        (Some(a), Some(b)) => {
            if a < b {
                File::CheckpointB
            } else {
                File::CheckpointA
            }
        }
    }
}

/// The file that is looked at, `None` where no gate is open.
pub fn look<V: Volume>(volume: &mut V) -> Result<Option<File>, Failed>
    ensures looked { IfOk result (λ file. V.tells_contents → file ≡ looked_at (V.seen volume.old)) }
    ensures seen { V.seen volume.new ≡ V.seen volume.old }
    ensures quiet { LooksOnly V.moment V.left_at volume.old volume.new }
    ensures faults { CountsFault result (V.faults volume.old) (V.faults volume.new) }
    ensures identity { V.identity volume.new ≡ V.identity volume.old }
{
    let a = read_front(volume, File::CheckpointA)?;
    let b = read_front(volume, File::CheckpointB)?;
    Ok(choose(a, b))
}

/// Whether a checkpoint of this number goes to this file.
fn belongs(file: File, number: u64) -> bool
    ensures { result ≡ is_file file (file_of number) }
{
    match file {
        File::CheckpointA => number % 2 == 1,
        File::CheckpointB => number % 2 != 1,
        File::Database | File::Log => false,
    }
}

/// Whether the front of a file is the fixed part of a checkpoint in this file.
#[tactic(auto, unfolding(crate::specs::Contents::has_head))]
fn has_head(file: File, bytes: &[u8]) -> bool
    ensures value { result ≡ has_head file bytes.now }
    ensures whole { IsTrue result → SLOTS_AT ≤ length bytes.now }
    ensures number { IsTrue result → 1 ≤ number_at 8 10 bytes.now }
    ensures generation { IsTrue result → 1 ≤ number_at 8 26 bytes.now }
    ensures offset { IsTrue result → number_at 4 34 bytes.now ≤ MAX_OFFSET }
    ensures pages { IsTrue result → page_count bytes.now ≤ MAX_PAGES }
{
    bytes.len() >= SLOTS_AT
        && bytes[1..6] == b"JETCK"[..]
        && u32_at(bytes, 6) == FORMAT_VERSION
        && u64_at(bytes, 10) >= 1
        && belongs(file, u64_at(bytes, 10))
        && u64_at(bytes, 26) >= 1
        && u32_at(bytes, 34) <= MAX_OFFSET
        && u32_at(bytes, 50) <= MAX_PAGES
}

/// The numbers in the fixed part of a checkpoint file.
fn head_in(bytes: &[u8]) -> Head
    requires { SLOTS_AT ≤ length bytes.now }
    ensures { (slots live : List ℕ) → contents_with result slots live ≡ record (contents_in bytes.now) { slots = slots; live = live } }
{
    Head {
        number: u64_at(bytes, 10),
        entries: u64_at(bytes, 18),
        start: LogStart {
            generation: u64_at(bytes, 26),
            offset: u32_at(bytes, 34),
            position: u64_at(bytes, 38),
        },
        catalog_root: u32_at(bytes, 46),
    }
}

/// The fixed part of a checkpoint file: its numbers and its count of pages.
#[derive(Clone, Copy)]
pub struct Fixed {
    pub head: Head,
    pub count: u32,
}

/// Reads the fixed part of a file, `None` where it is not that of a checkpoint there.
pub fn read_fixed<V: Volume>(volume: &mut V, file: File) -> Result<Option<Fixed>, Failed>
    ensures fixed { IfOk result (λ found. V.tells_contents → MatchOption found (has_head file (file_bytes file (V.seen volume.old)) ≡ false) (λ fixed. IsFixedOf fixed file (file_bytes file (V.seen volume.old)))) }
    ensures bounds { IfOk result (λ found. IfSome found (λ fixed. (1 ≤ fixed.head.number) × (1 ≤ fixed.head.start.generation) × (fixed.head.start.offset ≤ MAX_OFFSET) × (fixed.count ≤ MAX_PAGES))) }
    ensures seen { V.seen volume.new ≡ V.seen volume.old }
    ensures quiet { LooksOnly V.moment V.left_at volume.old volume.new }
    ensures faults { CountsFault result (V.faults volume.old) (V.faults volume.new) }
    ensures identity { V.identity volume.new ≡ V.identity volume.old }
{
    let mut bytes = [0; SLOTS_AT];
    let count = volume.read(file, 0, &mut bytes)?;
    let front = &bytes[..count];
    if !has_head(file, front) {
        return Ok(None);
    }
    Ok(Some(Fixed {
        head: head_in(front),
        count: u32_at(front, 50),
    }))
}
