//! The bytes of four files in memory.

ghost use Rattle.std.specs.Prelude.{◌≡◌, []};

use crate::files::File;
use std::alloc::Global;
use std::marker::Model;
use std::mem;

/// Four files. A clause sees them as an image.
#[derive(Drop)]
pub struct Contents {
    database: Vec<u8>,
    checkpoint_a: Vec<u8>,
    checkpoint_b: Vec<u8>,
    log: Vec<u8>,
}

impl Model for Contents {
    ghost use Rattle.jet_volume.specs.Image.{Image};

    ghost Value = { Image };

    ghost view = { λ c. record { database = c.database.items; checkpoint_a = c.checkpoint_a.items; checkpoint_b = c.checkpoint_b.items; log = c.log.items } };
}

impl Contents {
    ghost use Rattle.jet_volume.specs.Image.{no_bytes, file_bytes, with_file};

    /// Four files without a byte.
    pub fn new(alloc: Global) -> Contents
        ensures { result ≡ no_bytes }
    {
        Contents {
            database: Vec::new(alloc),
            checkpoint_a: Vec::new(alloc),
            checkpoint_b: Vec::new(alloc),
            log: Vec::new(alloc),
        }
    }

    /// These files.
    pub fn of_files(
        database: Vec<u8>,
        checkpoint_a: Vec<u8>,
        checkpoint_b: Vec<u8>,
        log: Vec<u8>,
    ) -> Contents
        ensures { result ≡ record { database = database.items; checkpoint_a = checkpoint_a.items; checkpoint_b = checkpoint_b.items; log = log.items } }
    {
        Contents {
            database,
            checkpoint_a,
            checkpoint_b,
            log,
        }
    }

    /// The bytes of one file.
    pub fn get(&self, file: File) -> &[u8]
        ensures { result.now ≡ file_bytes file self.now }
    {
        match file {
            File::Database => &self.database,
            File::CheckpointA => &self.checkpoint_a,
            File::CheckpointB => &self.checkpoint_b,
            File::Log => &self.log,
        }
    }

    /// Takes the bytes of one file out, and leaves none there.
    pub fn take(&mut self, file: File) -> Vec<u8>
        ensures taken { result.items ≡ file_bytes file self.old }
        ensures rest { self.new ≡ with_file file [] self.old }
    {
        let alloc = *self.log.allocator();
        match file {
            File::Database => mem::replace(&mut self.database, Vec::new(alloc)),
            File::CheckpointA => mem::replace(&mut self.checkpoint_a, Vec::new(alloc)),
            File::CheckpointB => mem::replace(&mut self.checkpoint_b, Vec::new(alloc)),
            File::Log => mem::replace(&mut self.log, Vec::new(alloc)),
        }
    }

    /// Puts other bytes into one file.
    pub fn put(&mut self, file: File, bytes: Vec<u8>)
        ensures { self.new ≡ with_file file bytes.items self.old }
    {
        match file {
            File::Database => self.database = bytes,
            File::CheckpointA => self.checkpoint_a = bytes,
            File::CheckpointB => self.checkpoint_b = bytes,
            File::Log => self.log = bytes,
        }
    }
}
