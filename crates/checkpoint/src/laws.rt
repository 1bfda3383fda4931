//! What holds of the bytes of checkpoint files, and worked examples of the definitions.

ghost use Rattle.std.specs.Prelude.{◌≡◌, ◌++◌, ℕ, List, [], ◌∷◌, Option, Some, None, true, false, drop, replicate, take};
ghost use Rattle.jet_volume.specs.Image.{Image, no_bytes};
ghost use Rattle.checkpoint.specs.Contents.{Contents, IsLawful, bytes_behind_gate, contents_in, file_of, is_checkpoint_file, may_go_on};
ghost use Rattle.checkpoint.specs.Opening.{HasCheckpoint, IsNew, looked_at, verdict};
ghost use Rattle.checkpoint.specs.Opening.Verdict.{New, Corrupt, SequenceEnd, Stands};
ghost use Rattle.page_image.specs.Page.{PageContents};
ghost use Rattle.checkpoint.specs.declared.fault.CheckFault.{CheckFault};
ghost use Rattle.checkpoint.specs.declared.image.Found.{Found};
ghost use Rattle.checkpoint.specs.declared.image.Standing.{Standing};
ghost use Rattle.checkpoint.specs.Found.{Explains, Finds, IsFromOutside, IsNewAnswer, IsRead};

use jet_volume::File;

/// What was written to a checkpoint file is read from it, whatever stands behind it.
pub fn what_is_written_is_read()
    ensures { (gate : ℕ) (c : Contents) (tail : List ℕ) → IsLawful c
        → (is_checkpoint_file (file_of c.number) (gate ∷ (bytes_behind_gate c ++ tail)) ≡ true) × (contents_in (gate ∷ (bytes_behind_gate c ++ tail)) ≡ c) }
{}

/// What stands is read: an answer is the image of the checkpoint that stands, with its pages. Where its numbers are
/// below 2^62, the files give no cause to refuse it. A new volume is answered as new.
pub fn what_stands_is_read()
    ensures found { (files : Image) (c : Contents) (pages : List (Option PageContents)) → HasCheckpoint files c pages
        → (answer : Found) (standing : Standing) → Finds files answer standing → IsRead c pages answer standing }
    ensures not_refused { (files : Image) (c : Contents) (pages : List (Option PageContents)) → HasCheckpoint files c pages → may_go_on c ≡ true
        → (fault : CheckFault) → Explains files fault → IsFromOutside fault }
    ensures new { (files : Image) → IsNew files → (answer : Found) (standing : Standing) → Finds files answer standing → IsNewAnswer answer }
    ensures new_not_refused { (files : Image) → IsNew files → (fault : CheckFault) → Explains files fault → IsFromOutside fault }
{}

/// The file of a first checkpoint: five log entries, the log goes on in generation 1 at offset 40 and stream
/// position 18, one page, which is free, a live part of four bytes, and a byte behind it.
const FIRST: [u8; 64] = [
    1, 0x4a, 0x45, 0x54, 0x43, 0x4b, 1, 0, 0, 0, 1, 0, 0, 0, 0, 0, 0, 0, 5, 0, 0, 0, 0, 0, 0, 0, 1,
    0, 0, 0, 0, 0, 0, 0, 40, 0, 0, 0, 18, 0, 0, 0, 0, 0, 0, 0, 0, 0, 0, 0, 1, 0, 0, 0, 2, 4, 0, 0,
    0, 9, 8, 7, 6, 77,
];

/// The bytes of a file say what stands in them, and a checkpoint stands on a volume that has this file.
#[tactic(auto, unfolding(crate::specs::Contents::number_at, crate::specs::Contents::has_head))]
pub fn first_checkpoint_file()
    ensures is_file { is_checkpoint_file File.CheckpointA FIRST ≡ true }
    ensures other_file { is_checkpoint_file File.CheckpointB FIRST ≡ false }
    ensures says { contents_in FIRST ≡ record { number = 1; entries = 5; start = record { generation = 1; offset = 40; position = 18 }; catalog_root = 0; slots = 2 ∷ []; live = 9 ∷ 8 ∷ 7 ∷ 6 ∷ [] } }
    ensures stands { verdict (record no_bytes { checkpoint_a = FIRST }) ≡ Stands (record { number = 1; entries = 5; start = record { generation = 1; offset = 40; position = 18 }; catalog_root = 0; slots = 2 ∷ []; live = 9 ∷ 8 ∷ 7 ∷ 6 ∷ [] }) }
{}

/// The first cause is answered: a field that is not as it must be, or a part that is not there, and behind these a
/// number of 2^62. The byte behind the live part is not looked at.
#[tactic(auto, unfolding(crate::specs::Contents::number_at, crate::specs::Contents::has_head))]
pub fn why_a_file_is_refused()
    ensures other_file { verdict (record no_bytes { checkpoint_b = FIRST }) ≡ Corrupt }
    ensures generation { verdict (record no_bytes { checkpoint_a = take 26 FIRST ++ 0 ∷ drop 27 FIRST }) ≡ Corrupt }
    ensures offset { verdict (record no_bytes { checkpoint_a = take 34 FIRST ++ 0 ∷ 0 ∷ 16 ∷ drop 37 FIRST }) ≡ Corrupt }
    ensures slot { verdict (record no_bytes { checkpoint_a = take 54 FIRST ++ 3 ∷ drop 55 FIRST }) ≡ Corrupt }
    ensures live { verdict (record no_bytes { checkpoint_a = take 62 FIRST }) ≡ Corrupt }
    ensures behind { verdict (record no_bytes { checkpoint_a = take 63 FIRST }) ≡ verdict (record no_bytes { checkpoint_a = FIRST }) }
    ensures number_ends { verdict (record no_bytes { checkpoint_a = take 17 FIRST ++ 64 ∷ drop 18 FIRST }) ≡ SequenceEnd }
    ensures entries_end { verdict (record no_bytes { checkpoint_a = take 25 FIRST ++ 64 ∷ drop 26 FIRST }) ≡ SequenceEnd }
    ensures generation_ends { verdict (record no_bytes { checkpoint_a = take 33 FIRST ++ 64 ∷ drop 34 FIRST }) ≡ SequenceEnd }
    ensures position_ends { verdict (record no_bytes { checkpoint_a = take 45 FIRST ++ 64 ∷ drop 46 FIRST }) ≡ SequenceEnd }
    ensures both { verdict (record no_bytes { checkpoint_a = take 45 FIRST ++ 64 ∷ take 16 (drop 46 FIRST) }) ≡ Corrupt }
{}

/// A volume is new without an open gate and without a log. A gate is one only where a byte follows it.
pub fn new_volumes()
    ensures empty { verdict no_bytes ≡ New }
    ensures lone_byte { verdict (record no_bytes { checkpoint_a = 1 ∷ [] }) ≡ New }
    ensures closed { verdict (record no_bytes { checkpoint_b = 2 ∷ 1 ∷ [] }) ≡ New }
    ensures logged { verdict (record no_bytes { log = 0 ∷ [] }) ≡ Corrupt }
    ensures short { verdict (record no_bytes { checkpoint_a = 1 ∷ 1 ∷ [] }) ≡ Corrupt }
{}

/// Of two open files the one of the greater number is looked at. One of fewer than 18 bytes counts as the greater,
/// and where neither is greater it is the first.
#[tactic(auto, unfolding(crate::specs::Contents::number_at))]
pub fn which_file_is_looked_at()
    ensures greater { looked_at (record no_bytes { checkpoint_a = 1 ∷ replicate 17 1; checkpoint_b = 1 ∷ replicate 17 2 }) ≡ Some File.CheckpointB }
    ensures equal { looked_at (record no_bytes { checkpoint_a = 1 ∷ replicate 17 2; checkpoint_b = 1 ∷ replicate 17 2 }) ≡ Some File.CheckpointA }
    ensures short { looked_at (record no_bytes { checkpoint_a = 1 ∷ replicate 17 2; checkpoint_b = 1 ∷ replicate 16 0 }) ≡ Some File.CheckpointB }
    ensures both_short { looked_at (record no_bytes { checkpoint_a = 1 ∷ replicate 16 0; checkpoint_b = 1 ∷ replicate 16 9 }) ≡ Some File.CheckpointA }
    ensures closed { looked_at (record no_bytes { checkpoint_a = 1 ∷ replicate 17 1; checkpoint_b = 0 ∷ replicate 17 2 }) ≡ Some File.CheckpointA }
{}
