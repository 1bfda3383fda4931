//! Four files, as a database sees them: what a read gives, and what a crash may leave.

ghost use Rattle.std.specs.Prelude.{◌≡◌, ◌<◌, ◌≤◌, ℕ, ◌+◌, ◌-◌, ◌^◌, min, List, length, take, drop, IfOk, OnOk};
ghost use Rattle.jet_io.specs.Faults.{CountsFault};
ghost use Rattle.jet_volume.specs.Image.{Image, file_bytes, with_file};
ghost use Rattle.jet_volume.specs.Crash.{written, TornFile, CrashLeaves, CrashFollows, Elapses};

use crate::files::File;
use jet_io::Failed;

/// The greatest end of a write, in bytes: 2^40.
pub const MAX_END: u64 = 1 << 40;

/// Four files. A crash hits them together, at any moment, also inside a call.
///
/// A volume over memory tells what it holds. One over real files does not, since no clause can say what a
/// file gives: that it behaves so is a premise.
pub trait Volume {
    /// The volume tells what a read gives.
    ghost tells_contents: { Type 0 };

    /// What a read gives.
    ghost seen: { Self → Image };

    /// The clock: a number that does not fall.
    ghost moment: { Self → ℕ };

    /// What a crash at that moment, of those up to now, may leave.
    ghost left_at: { Self → ℕ → Image → Type 0 };

    /// How often a call has failed.
    ghost faults: { Self → ℕ };

    /// Which object it is, where it is one that is lent: each `&mut V` has a number of its own, and every volume that is
    /// owned has 0. No call changes it. By it what takes a volume by value tells that it still has the one that it was
    /// handed, so that the lender knows its volume again when that is gone.
    ghost identity: { Self → ℕ };

    /// The size of a file in bytes. A file that was never written has none.
    fn size(&mut self, file: File) -> Result<u64, Failed>
        ensures size { IfOk result (λ n. tells_contents → n ≡ length (file_bytes file (seen self.old))) }
        ensures seen { seen self.new ≡ seen self.old }
        ensures crash { CrashLeaves moment left_at self.new (left_at self.old (moment self.old)) }
        ensures time { Elapses moment left_at self.old self.new }
        ensures faults { CountsFault result (faults self.old) (faults self.new) }
        ensures identity { identity self.new ≡ identity self.old };

    /// Writes to the front of `into` as many bytes as the file has from `at`, up to the slice, and answers
    /// how many. What stands in `into` behind them means nothing.
    fn read(&mut self, file: File, at: u64, into: &mut [u8]) -> Result<usize, Failed>
        ensures within { IfOk result (λ n. n ≤ length into.old) }
        ensures count { IfOk result (λ n. tells_contents → n ≡ min (length into.old) (length (file_bytes file (seen self.old)) - at)) }
        ensures bytes { IfOk result (λ n. tells_contents → take n into.new ≡ take n (drop at (file_bytes file (seen self.old)))) }
        ensures seen { seen self.new ≡ seen self.old }
        ensures crash { CrashLeaves moment left_at self.new (left_at self.old (moment self.old)) }
        ensures time { Elapses moment left_at self.old self.new }
        ensures faults { CountsFault result (faults self.old) (faults self.new) }
        ensures identity { identity self.new ≡ identity self.old };

    /// Writes a piece that is not empty and ends at most at 2^40. A gap behind the old end reads as zeros.
    /// Until the file's next sync that succeeds, a crash may leave any bytes in the range and behind the
    /// old end, also where the write failed.
    fn write_at(&mut self, file: File, at: u64, piece: &[u8]) -> Result<(), Failed>
        requires some { 0 < length piece.now }
        requires end { at + length piece.now ≤ 2 ^ 40 }
        ensures written { OnOk result (tells_contents → seen self.new ≡ with_file file (written at piece.now (file_bytes file (seen self.old))) (seen self.old)) }
        ensures torn { tells_contents → TornFile file at (length piece.now) (seen self.old) (seen self.new) }
        ensures crash { CrashFollows moment left_at (TornFile file at (length piece.now)) self.old self.new }
        ensures time { Elapses moment left_at self.old self.new }
        ensures faults { CountsFault result (faults self.old) (faults self.new) }
        ensures identity { identity self.new ≡ identity self.old };

    /// After it, a crash leaves of this file what a read gives. It does nothing for the other files.
    fn sync(&mut self, file: File) -> Result<(), Failed>
        ensures durable { OnOk result (CrashLeaves moment left_at self.new (λ image. file_bytes file image ≡ file_bytes file (seen self.old))) }
        ensures seen { seen self.new ≡ seen self.old }
        ensures crash { CrashLeaves moment left_at self.new (left_at self.old (moment self.old)) }
        ensures time { Elapses moment left_at self.old self.new }
        ensures faults { CountsFault result (faults self.old) (faults self.new) }
        ensures identity { identity self.new ≡ identity self.old };

    /// How often a call has failed, or 2^64 - 1 where that is more. It changes nothing.
    fn faults(&self) -> u64
        ensures { result ≡ min (faults self.now) (2 ^ 64 - 1) };

    /// A process that dies leaves what it has written, so a crash may leave what a read gives.
    ghost seen_may_stay: { (volume : Self) → tells_contents → left_at volume (moment volume) (seen volume) };
}
