//! The third part of writing a checkpoint: all of its file behind the gate.

ghost use Rattle.std.specs.Prelude.{◌≡◌, ◌≢◌, ◌⊎◌, ℕ, ◌+◌, ◌<◌, ◌≤◌, ◌^◌, List, ◌++◌, length, take, codes, OnOk};
ghost use Rattle.byteorder.specs.Endian.{little_bytes};
ghost use Rattle.jet_io.specs.Faults.{CountsFault};
ghost use Rattle.jet_volume.specs.Image.{SameBut, file_bytes};
ghost use Rattle.jet_volume.specs.Crash.{CrashLeaves};
ghost use Rattle.checkpoint.specs.declared.image.TheConstants.{MAX_LIVE_BYTES, MAX_PAGES};
ghost use Rattle.checkpoint.specs.Contents.{file_of, head_bytes};
ghost use Rattle.checkpoint.specs.Shape.{contents_with};
ghost use Rattle.checkpoint.specs.Steps.{EachFollows, KeepsFirst, SaysOpenly, WritesFile};

use crate::gate::{close_gate, open_gate};
use byteorder::{ByteOrder, LittleEndian};
use jet_io::Failed;
use jet_volume::{File, LogStart, Volume};

/// The version of the format of a checkpoint file, which stands behind its mark: 1, the first and only one. A file with
/// another one is no checkpoint.
pub const FORMAT_VERSION: u32 = 1;

/// The bytes between the gate and the slots.
pub const HEAD_BYTES: usize = 53;

/// Where the slots begin in a checkpoint file: behind the gate and those bytes.
pub const SLOTS_AT: usize = 54;

/// The bytes of the length before the live part.
pub const LENGTH_BYTES: usize = 4;

/// The greatest offset in a log generation, which has 2^20 bytes.
pub const MAX_OFFSET: u32 = 1_048_575;

/// The numbers that a checkpoint file says.
#[derive(Clone, Copy)]
pub struct Head {
    /// The checkpoint's own number.
    pub number: u64,
    /// The number of log entries that it holds.
    pub entries: u64,
    /// Where the log goes on.
    pub start: LogStart,
    /// The page number of the catalog's root.
    pub catalog_root: u32,
}

/// Writes the mark, the format, the checkpoint's number and the number of log entries.
fn write_numbers(head: &mut [u8], number: u64, entries: u64)
    requires { length head.old ≡ 25 }
    ensures value { head.new ≡ codes "JETCK" ++ (little_bytes 4 FORMAT_VERSION ++ (little_bytes 8 number ++ little_bytes 8 entries)) }
    ensures fits { (number < 2 ^ 64) × (entries < 2 ^ 64) }
{
    let (mark, numbers) = head.split_at_mut(5);
    mark.copy_from_slice(b"JETCK");
    LittleEndian::write_u32(numbers, FORMAT_VERSION);
    LittleEndian::write_u64(&mut numbers[4..], number);
    LittleEndian::write_u64(&mut numbers[12..], entries);
}

/// Writes where the log goes on.
fn write_start(head: &mut [u8], generation: u64, offset: u32, position: u64)
    requires { length head.old ≡ 20 }
    ensures value { head.new ≡ little_bytes 8 generation ++ (little_bytes 4 offset ++ little_bytes 8 position) }
    ensures fits { (generation < 2 ^ 64) × (position < 2 ^ 64) }
{
    LittleEndian::write_u64(head, generation);
    LittleEndian::write_u32(&mut head[8..], offset);
    LittleEndian::write_u64(&mut head[12..], position);
}

/// Writes the root of the catalog and the count of pages.
fn write_sizes(head: &mut [u8], catalog_root: u32, count: u32)
    requires { length head.old ≡ 8 }
    ensures value { head.new ≡ little_bytes 4 catalog_root ++ little_bytes 4 count }
    ensures fits { catalog_root < 2 ^ 32 }
{
    LittleEndian::write_u32(head, catalog_root);
    LittleEndian::write_u32(&mut head[4..], count);
}

/// Writes the bytes between the gate and the slots: the mark, the format and the numbers.
fn write_head(into: &mut [u8], head: Head, count: u32)
    requires { length into.old ≡ HEAD_BYTES }
    ensures fits { (head.number < 2 ^ 64) × (head.entries < 2 ^ 64) × (head.catalog_root < 2 ^ 32) × (head.start.generation < 2 ^ 64) × (head.start.position < 2 ^ 64) }
    ensures value { (slots live : List ℕ) → length slots ≡ count → into.new ≡ head_bytes (contents_with head slots live) }
{
    let (numbers, rest) = into.split_at_mut(25);
    let (log, sizes) = rest.split_at_mut(20);
    write_numbers(numbers, head.number, head.entries);
    write_start(
        log,
        head.start.generation,
        head.start.offset,
        head.start.position,
    );
    write_sizes(sizes, head.catalog_root, count);
}

/// The file of a checkpoint, by its number.
pub fn file_of(number: u64) -> File
    ensures { result ≡ file_of number }
{
    if number % 2 == 1 {
        File::CheckpointA
    } else {
        File::CheckpointB
    }
}

/// Writes a piece of a file behind bytes that are there. An empty piece is not written.
fn write_piece<V: Volume>(volume: &mut V, file: File, at: u64, piece: &[u8]) -> Result<(), Failed>
    requires behind { 1 ≤ at }
    requires end { at + length piece.now ≤ 2 ^ 40 }
    ensures written { OnOk result (V.tells_contents → (front : List ℕ) → length front ≡ at → take at (file_bytes file (V.seen volume.old)) ≡ front
        → take (at + length piece.now) (file_bytes file (V.seen volume.new)) ≡ front ++ piece.now) }
    ensures seen { V.tells_contents → SameBut file (V.seen volume.old) (V.seen volume.new) }
    ensures each { EachFollows V.moment V.left_at (KeepsFirst file) volume.old volume.new }
    ensures faults { CountsFault result (V.faults volume.old) (V.faults volume.new) }
    ensures identity { V.identity volume.new ≡ V.identity volume.old }
{
    if piece.is_empty() {
        return Ok(());
    }
    volume.write_at(file, at, piece)
}

/// Writes the live part, with its length before it.
fn write_live<V: Volume>(volume: &mut V, file: File, at: u64, live: &[u8]) -> Result<(), Failed>
    requires behind { 1 ≤ at }
    requires end { at ≤ 2 ^ 32 }
    requires fits { length live.now ≤ MAX_LIVE_BYTES }
    ensures written { OnOk result (V.tells_contents → (front : List ℕ) → length front ≡ at → take at (file_bytes file (V.seen volume.old)) ≡ front
        → take (at + LENGTH_BYTES + length live.now) (file_bytes file (V.seen volume.new)) ≡ front ++ (little_bytes 4 (length live.now) ++ live.now)) }
    ensures seen { V.tells_contents → SameBut file (V.seen volume.old) (V.seen volume.new) }
    ensures each { EachFollows V.moment V.left_at (KeepsFirst file) volume.old volume.new }
    ensures faults { CountsFault result (V.faults volume.old) (V.faults volume.new) }
    ensures identity { V.identity volume.new ≡ V.identity volume.old }
{
    let mut size = [0; LENGTH_BYTES];
    LittleEndian::write_u32(&mut size, live.len() as u32);
    write_piece(volume, file, at, &size)?;
    write_piece(volume, file, at + LENGTH_BYTES as u64, live)
}

/// Writes the file behind its gate, and syncs it.
fn write_rest<V: Volume>(
    volume: &mut V,
    file: File,
    head: &[u8],
    slots: &[u8],
    live: &[u8],
) -> Result<(), Failed>
    requires head { length head.now ≡ HEAD_BYTES }
    requires pages { length slots.now ≤ MAX_PAGES }
    requires fits { length live.now ≤ MAX_LIVE_BYTES }
    ensures written { OnOk result (V.tells_contents → (gate : List ℕ) → length gate ≡ 1 → take 1 (file_bytes file (V.seen volume.old)) ≡ gate
        → take (SLOTS_AT + LENGTH_BYTES + length slots.now + length live.now) (file_bytes file (V.seen volume.new)) ≡ gate ++ (head.now ++ (slots.now ++ (little_bytes 4 (length live.now) ++ live.now)))) }
    ensures durable { OnOk result (CrashLeaves V.moment V.left_at volume.new (λ image. file_bytes file image ≡ file_bytes file (V.seen volume.new))) }
    ensures seen { V.tells_contents → SameBut file (V.seen volume.old) (V.seen volume.new) }
    ensures each { EachFollows V.moment V.left_at (KeepsFirst file) volume.old volume.new }
    ensures faults { CountsFault result (V.faults volume.old) (V.faults volume.new) }
    ensures identity { V.identity volume.new ≡ V.identity volume.old }
{
    write_piece(volume, file, 1, head)?;
    write_piece(volume, file, SLOTS_AT as u64, slots)?;
    write_live(volume, file, (SLOTS_AT + slots.len()) as u64, live)?;
    volume.sync(file)
}

/// Writes the file of a checkpoint: closes its gate, writes the rest, and opens the gate.
pub fn write_file<V: Volume>(
    volume: &mut V,
    head: Head,
    slots: &[u8],
    live: &[u8],
) -> Result<(), Failed>
    requires pages { length slots.now ≤ MAX_PAGES }
    requires fits { length live.now ≤ MAX_LIVE_BYTES }
    ensures fits { (head.number < 2 ^ 64) × (head.entries < 2 ^ 64) × (head.catalog_root < 2 ^ 32) × (head.start.generation < 2 ^ 64) × (head.start.position < 2 ^ 64) }
    ensures written { OnOk result (V.tells_contents
        → CrashLeaves V.moment V.left_at volume.new (λ files. SaysOpenly (contents_with head slots.now live.now) (file_bytes (file_of head.number) files))) }
    ensures each { V.tells_contents
        → EachFollows V.moment V.left_at (WritesFile (file_of head.number) (contents_with head slots.now live.now)) volume.old volume.new }
    ensures seen { V.tells_contents → SameBut (file_of head.number) (V.seen volume.old) (V.seen volume.new) }
    ensures faults { CountsFault result (V.faults volume.old) (V.faults volume.new) }
    ensures identity { V.identity volume.new ≡ V.identity volume.old }
{
    let file = file_of(head.number);
    let mut bytes = [0; HEAD_BYTES];
    let count = slots.len() as u32;
    write_head(&mut bytes, head, count);
    close_gate(volume, file)?;
    write_rest(volume, file, &bytes, slots, live)?;
    open_gate(volume, file)
}
