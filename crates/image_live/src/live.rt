//! Whether a live part is sound.

ghost use Rattle.std.specs.Prelude.{◌≡◌, List, IfOk};
ghost use Rattle.image_findings.specs.LiveFindings.{is_sound_live};
ghost use Rattle.image_findings.specs.TableContents.{TableContents};
ghost use Rattle.image_live.specs.LoadedParts.{CanBeChecked, IsLoaded};
ghost use Rattle.image_live.specs.Orders.{HasSpelling};
ghost use Rattle.image_live.specs.TablesRead.{AreTablesOf};
ghost use Rattle.live_part.specs.LiveBytes.{LivePart};

use crate::tables::ImageTables;
use jet_base::OutOfMemory;
use live_part::LoadedPart;
use std::alloc::Global;

impl<'a> ImageTables<'a> {
    /// Whether a live part is sound: its sessions are, each of its held changes is by itself, also those that are undone, and those that
    /// stand are in order. The time it takes is near linear in the changes, and the memory in proportion to them.
    #[tactic(none)]
    pub fn is_sound_live(&self, alloc: Global, part: &LoadedPart) -> Result<bool, OutOfMemory>
        requires checked { CanBeChecked self.now part.now }
        requires spelled { HasSpelling part.now }
        ensures { IfOk result (λ sound. (tables : List TableContents) (live : LivePart) → AreTablesOf self.now tables → IsLoaded live part.now → sound ≡ is_sound_live self.now.number tables live) }
    {
        match self.has_sound_parts(alloc, part) {
            Ok(true) => self.are_in_order(alloc, &part.sessions, &part.versions),
            Ok(false) => Ok(false),
            Err(fault) => Err(fault),
        }
    }
}
