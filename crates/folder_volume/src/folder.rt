//! What a folder offers to a volume that keeps its files there.

ghost use Rattle.std.specs.Prelude.{◌≡◌, ◌<◌, ◌≤◌, ℕ, ◌+◌, ◌^◌, List, length, take, drop, IfOk, OnOk};
ghost use Rattle.jet_io.specs.Faults.{CountsFault};
ghost use Rattle.jet_volume.specs.Crash.{written, Torn};
ghost use Rattle.folder_volume.specs.Failures.{CountsShortWrite};
ghost use Rattle.folder_volume.specs.Folder.{SameFiles, SameOtherFiles};

use std::io;

/// A folder of files, each known by its path.
///
/// A folder over memory tells what its files hold. That of the system does not, since no clause can say
/// what a file gives: that it behaves so is a premise.
pub trait Folder {
    /// A file that is open.
    type Handle: Drop;

    /// The folder tells what its files hold.
    ghost tells: { Type 0 };

    /// The path that a file was opened at.
    ghost path_of: { Self.Handle → List ℕ };

    /// The bytes of the file at a path. There are none where no file is.
    ghost bytes_at: { Self → List ℕ → List ℕ };

    /// All that was written to the file at a path has been synced.
    ghost is_synced: { Self → List ℕ → Type 0 };

    /// The folder has been synced since the file at a path was made.
    ghost is_listed: { Self → List ℕ → Type 0 };

    /// How often a call has failed. A write that took a part of its piece alone is one of them.
    ghost failures: { Self → ℕ };

    /// Opens a file to be read and written. It is made where it is not there, and keeps its bytes where it is.
    fn open_or_make(&mut self, path: &str) -> io::Result<Self::Handle>
        ensures path { tells → IfOk result (λ handle. path_of handle ≡ path.now) }
        ensures files { tells → SameFiles bytes_at is_synced is_listed self.old self.new }
        ensures failures { CountsFault result (failures self.old) (failures self.new) };

    /// Syncs the folder that a file lies in, so that the file is found there after a crash.
    fn sync_folder_of(&mut self, path: &str) -> io::Result<()>
        ensures listed { tells → OnOk result (is_listed self.new path.now) }
        ensures files { tells → SameFiles bytes_at is_synced is_listed self.old self.new }
        ensures failures { CountsFault result (failures self.old) (failures self.new) };

    /// The size of a file in bytes.
    fn size(&mut self, handle: &mut Self::Handle) -> io::Result<u64>
        ensures size { tells → IfOk result (λ n. n ≡ length (bytes_at self.old (path_of handle.old))) }
        ensures path { tells → path_of handle.new ≡ path_of handle.old }
        ensures files { tells → SameFiles bytes_at is_synced is_listed self.old self.new }
        ensures failures { CountsFault result (failures self.old) (failures self.new) };

    /// Writes to the front of `into` some of the bytes that the file has from `at` on, and answers how many.
    /// It answers 0 for a slice that is not empty only where the file has no byte there. No file has 2^64 bytes.
    fn read_at(&mut self, handle: &mut Self::Handle, at: u64, into: &mut [u8]) -> io::Result<usize>
        ensures within { IfOk result (λ n. n ≤ length into.old) }
        ensures bytes { tells → IfOk result (λ n. take n into.new ≡ take n (drop at (bytes_at self.old (path_of handle.old)))) }
        ensures fits { tells → IfOk result (λ n. at + n < 2 ^ 64) }
        ensures ends { tells → IfOk result (λ n. n ≡ 0 → 0 < length into.old → length (bytes_at self.old (path_of handle.old)) ≤ at) }
        ensures path { tells → path_of handle.new ≡ path_of handle.old }
        ensures files { tells → SameFiles bytes_at is_synced is_listed self.old self.new }
        ensures failures { CountsFault result (failures self.old) (failures self.new) };

    /// Writes a front of a piece that is not empty, and answers how many bytes. A gap behind the old end reads
    /// as zeros.
    fn write_at(&mut self, handle: &mut Self::Handle, at: u64, piece: &[u8]) -> io::Result<usize>
        requires some { 0 < length piece.now }
        requires end { at + length piece.now ≤ 2 ^ 40 }
        ensures within { IfOk result (λ n. n ≤ length piece.now) }
        ensures written { tells → IfOk result (λ n. 0 < n → bytes_at self.new (path_of handle.old) ≡ written at (take n piece.now) (bytes_at self.old (path_of handle.old))) }
        ensures torn { tells → Torn at (length piece.now) (bytes_at self.old (path_of handle.old)) (bytes_at self.new (path_of handle.old)) }
        ensures path { tells → path_of handle.new ≡ path_of handle.old }
        ensures others { tells → SameOtherFiles bytes_at is_synced is_listed (path_of handle.old) self.old self.new }
        ensures failures { CountsShortWrite (length piece.now) result (failures self.old) (failures self.new) };

    /// Syncs a file, its size too.
    fn sync(&mut self, handle: &mut Self::Handle) -> io::Result<()>
        ensures synced { tells → OnOk result (is_synced self.new (path_of handle.old)) }
        ensures path { tells → path_of handle.new ≡ path_of handle.old }
        ensures files { tells → SameFiles bytes_at is_synced is_listed self.old self.new }
        ensures failures { CountsFault result (failures self.old) (failures self.new) };
}
