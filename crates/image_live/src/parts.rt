//! Whether what a live part has is sound, each session and change by itself.

ghost use Rattle.std.specs.Prelude.{◌≡◌, List, IfOk};
ghost use Rattle.image_findings.specs.TableContents.{TableContents};
ghost use Rattle.image_live.specs.LoadedParts.{CanBeChecked, IsLoaded, has_sound_parts};
ghost use Rattle.image_live.specs.TablesRead.{AreTablesOf};
ghost use Rattle.live_part.specs.LiveBytes.{LivePart};

use crate::tables::ImageTables;
use jet_base::OutOfMemory;
use live_part::LoadedPart;
use std::alloc::Global;

impl<'a> ImageTables<'a> {
    /// Whether the sessions of a live part are sound, and each of its held changes by itself, also those that are undone. How the changes
    /// follow one another is not asked.
    #[tactic(none)]
    pub fn has_sound_parts(&self, alloc: Global, part: &LoadedPart) -> Result<bool, OutOfMemory>
        requires { CanBeChecked self.now part.now }
        ensures { IfOk result (λ sound. (tables : List TableContents) (live : LivePart) → AreTablesOf self.now tables → IsLoaded live part.now → sound ≡ has_sound_parts self.now.number tables live) }
    {
        if !self.are_sound_sessions(&part.sessions) {
            return Ok(false);
        }
        match self.are_sound_changes(alloc, &part.sessions, &part.versions) {
            Ok(true) => self.are_sound_changes(alloc, &part.sessions, &part.undone),
            Ok(false) => Ok(false),
            Err(fault) => Err(fault),
        }
    }
}
