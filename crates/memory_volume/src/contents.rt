//! The bytes of four files, each of which grows as a `Vec` does.

ghost use Rattle.std.specs.Prelude.{◌≡◌, ◌≤◌, ◌+◌, ◌^◌, length, IsOk, OnOk, OnErr};
ghost use Rattle.jet_volume.specs.Crash.{written};

use jet_volume::{File, overwrite};
use std::alloc::{AllocError, Global};
use std::marker::Model;

/// Four files. A clause sees them as an image.
#[derive(Drop)]
pub struct Contents {
    database: Vec<u8>,
    checkpoint_a: Vec<u8>,
    checkpoint_b: Vec<u8>,
    log: Vec<u8>,
}

impl Model for Contents {
    ghost use Rattle.jet_volume.specs.Image.{Image};

    ghost Value = { Image };

    ghost view = { λ c. record { database = c.database.items; checkpoint_a = c.checkpoint_a.items; checkpoint_b = c.checkpoint_b.items; log = c.log.items } };
}

impl Contents {
    ghost use Rattle.jet_volume.specs.Image.{no_bytes, file_bytes, with_file};

    /// Four files without a byte. They take no memory.
    pub fn new(alloc: Global) -> Contents
        ensures { result ≡ no_bytes }
    {
        Contents {
            database: Vec::new(alloc),
            checkpoint_a: Vec::new(alloc),
            checkpoint_b: Vec::new(alloc),
            log: Vec::new(alloc),
        }
    }

    /// The bytes of one file.
    pub fn bytes(&self, file: File) -> &[u8]
        ensures { result.now ≡ file_bytes file self.now }
    {
        match file {
            File::Database => &self.database,
            File::CheckpointA => &self.checkpoint_a,
            File::CheckpointB => &self.checkpoint_b,
            File::Log => &self.log,
        }
    }

    /// Writes a piece into one file. Without memory for a longer file it writes nothing.
    pub fn write(&mut self, file: File, at: usize, piece: &[u8]) -> Result<(), AllocError>
        requires { at + length piece.now ≤ 2 ^ 40 }
        ensures written { OnOk result (self.new ≡ with_file file (written at piece.now (file_bytes file self.old)) self.old) }
        ensures same { OnErr result (self.new ≡ self.old) }
        ensures sure { at + length piece.now ≤ length (file_bytes file self.old) → IsOk result }
    {
        match file {
            File::Database => write(&mut self.database, at, piece),
            File::CheckpointA => write(&mut self.checkpoint_a, at, piece),
            File::CheckpointB => write(&mut self.checkpoint_b, at, piece),
            File::Log => write(&mut self.log, at, piece),
        }
    }
}

/// Writes a piece over the bytes of a file and behind them.
fn write(bytes: &mut Vec<u8>, at: usize, piece: &[u8]) -> Result<(), AllocError>
    requires { at + length piece.now ≤ 2 ^ 40 }
    ensures written { OnOk result (bytes.new.items ≡ written at piece.now bytes.old.items) }
    ensures same { OnErr result (bytes.new.items ≡ bytes.old.items) }
    ensures sure { at + length piece.now ≤ length bytes.old.items → IsOk result }
{
    let end = at + piece.len();
    bytes.reserve(end.saturating_sub(bytes.len()))?;
    overwrite(bytes, at, piece);
    Ok(())
}
