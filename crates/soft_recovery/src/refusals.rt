//! Why a volume is not recovered.

ghost use Rattle.std.specs.Prelude.{◌≡◌, true, ℕ, List, Option};
ghost use Rattle.database_state.specs.State.{DatabaseState};
ghost use Rattle.jet_volume.specs.Image.{Image as Files};
ghost use Rattle.recovered_states.specs.Recovers.{RecoversFrom};
ghost use Rattle.soft_recovery.specs.Refusals.{Refuses};
ghost use Rattle.store_core.specs.Stands.{Checkpoint, Stands};
ghost use Rattle.store_core.specs.Store.{may_be_opened};

use checkpoint::{CheckFault, what_stands_is_read};
use engine_image::Finding;
use recovered_states::one_checkpoint_stands_on_files;
use thiserror::Error;

/// Why no engine is recovered from a checkpoint and the bytes of the log behind it. Where both causes stand, the first is answered.
#[derive(Debug, Drop, Error)]
pub enum EngineFault {
    /// The image of the checkpoint is not consistent: this is found first of it.
    #[error("JET_errDatabaseCorrupted")]
    DatabaseCorrupted(Finding),
    /// Somewhere the bytes are neither an entry that may come next nor the front of one that ends them.
    #[error("JET_errLogFileCorrupt")]
    LogFileCorrupt,
    /// There was no memory. It tells nothing of the checkpoint.
    #[error("out of memory")]
    OutOfMemory,
}

/// Why a volume is not recovered. Where several causes stand together, the first in this list is answered; a fault of the volume and want
/// of memory may come in the place of each.
#[derive(Debug, Drop, Error)]
pub enum RecoverCause {
    /// No gate is open though the log has bytes, or the file that is looked at is no checkpoint file.
    #[error("JET_errCheckpointCorrupt")]
    CheckpointCorrupt,
    /// The number of the checkpoint, its number of log entries, or the generation or the stream position where its log goes on is 2^62 or
    /// more.
    #[error("JET_errLogSequenceEnd")]
    LogSequenceEnd,
    /// A slot in use is not whole, holds no page, or holds a page of another number.
    #[error("JET_errReadVerifyFailure")]
    ReadVerifyFailure,
    /// The image of the checkpoint is not consistent: this is found first of it.
    #[error("JET_errDatabaseCorrupted")]
    DatabaseCorrupted(Finding),
    /// Somewhere the log behind the checkpoint has neither an entry that may come next nor the front of one that ends it.
    #[error("JET_errLogFileCorrupt")]
    LogFileCorrupt,
    /// A call of the volume failed, and its count of faults rose.
    #[error("the volume failed")]
    VolumeFault,
    /// There was no memory. It tells nothing of the volume.
    #[error("out of memory")]
    OutOfMemory,
}

/// A volume that was not recovered, and why.
#[derive(Drop)]
pub struct RecoverFault<V> {
    /// The volume. But where it failed while its log was sealed, its files are those that it was handed in with.
    pub volume: V,
    /// The refusal that came first.
    pub cause: RecoverCause,
}

impl From<CheckFault> for RecoverCause {
    ghost use Rattle.soft_recovery.specs.Refusals.{cause_of_check};

    ghost from_gives = { λ fault cause. cause ≡ cause_of_check fault };

    fn from(fault: CheckFault) -> RecoverCause {
        match fault {
            CheckFault::CheckpointCorrupt => RecoverCause::CheckpointCorrupt,
            CheckFault::LogSequenceEnd => RecoverCause::LogSequenceEnd,
            CheckFault::ReadVerifyFailure => RecoverCause::ReadVerifyFailure,
            CheckFault::VolumeFault => RecoverCause::VolumeFault,
            CheckFault::OutOfMemory => RecoverCause::OutOfMemory,
        }
    }
}

impl From<EngineFault> for RecoverCause {
    ghost use Rattle.soft_recovery.specs.Refusals.{cause_of_engine};

    ghost from_gives = { λ fault cause. cause ≡ cause_of_engine fault };

    fn from(fault: EngineFault) -> RecoverCause {
        match fault {
            EngineFault::DatabaseCorrupted(found) => RecoverCause::DatabaseCorrupted(found),
            EngineFault::LogFileCorrupt => RecoverCause::LogFileCorrupt,
            EngineFault::OutOfMemory => RecoverCause::OutOfMemory,
        }
    }
}

/// Files are refused for one cause at most, and for none where a state is recovered from what stands on them, within its bounds. It does
/// nothing: its clauses are the law.
#[tactic(none)]
pub fn files_are_refused_for_one_cause()
    ensures once { (files : Files) (one other : RecoverCause) → Refuses files one → Refuses files other → one ≡ other }
    ensures recovered { (files : Files) (checkpoint : Option Checkpoint) (stream : List ℕ) (state : DatabaseState) → Stands checkpoint stream files → may_be_opened checkpoint ≡ true → RecoversFrom checkpoint stream state
        → (cause : RecoverCause) → Refuses files cause → ⊥ }
{
    what_stands_is_read();
    one_checkpoint_stands_on_files();
}
