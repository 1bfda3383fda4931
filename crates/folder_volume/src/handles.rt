//! The open files of a volume.

ghost use Rattle.std.specs.Prelude.{◌≡◌, Some, None};

use jet_volume::File;

/// The four files of a volume, each once it was used.
#[derive(Drop)]
pub struct Handles<H: Drop> {
    database: Option<H>,
    checkpoint_a: Option<H>,
    checkpoint_b: Option<H>,
    log: Option<H>,
}

impl<H: Drop> Handles<H> {
    ghost use Rattle.folder_volume.specs.Handles.{no_handles, handle_of, with_handle};

    /// No file was used yet.
    pub fn new() -> Handles<H>
        ensures { result ≡ no_handles }
    {
        Handles {
            database: None,
            checkpoint_a: None,
            checkpoint_b: None,
            log: None,
        }
    }

    /// Takes a file out of the table, where it is open.
    pub fn take(&mut self, file: File) -> Option<H>
        ensures taken { result ≡ handle_of file self.old }
        ensures rest { self.new ≡ with_handle file None self.old }
    {
        match file {
            File::Database => self.database.take(),
            File::CheckpointA => self.checkpoint_a.take(),
            File::CheckpointB => self.checkpoint_b.take(),
            File::Log => self.log.take(),
        }
    }

    /// Keeps a file open.
    pub fn put(&mut self, file: File, handle: H)
        ensures { self.new ≡ with_handle file (Some handle) self.old }
    {
        match file {
            File::Database => self.database = Some(handle),
            File::CheckpointA => self.checkpoint_a = Some(handle),
            File::CheckpointB => self.checkpoint_b = Some(handle),
            File::Log => self.log = Some(handle),
        }
    }
}
