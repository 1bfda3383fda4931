//! The names of the files, and the place in the log that a checkpoint names.

/// One of the four files of a volume.
#[derive(Clone, Copy, Debug, PartialEq, Eq)]
pub enum File {
    /// The pages.
    Database,
    /// The checkpoints of odd number.
    CheckpointA,
    /// The checkpoints of even number.
    CheckpointB,
    /// The ring of log generations.
    Log,
}

/// Where the log of a checkpoint begins.
#[derive(Clone, Copy, Debug, PartialEq, Eq)]
pub struct LogStart {
    /// The generation, from 1.
    pub generation: u64,
    /// The offset in bytes within the generation.
    pub offset: u32,
    /// The count of payload bytes before it, from the first entry of the volume on.
    pub position: u64,
}
