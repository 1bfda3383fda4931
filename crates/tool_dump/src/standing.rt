//! The checkpoint that stands on a volume.

ghost use Rattle.std.specs.Prelude.{◌≡◌, ◌++◌, IfOk, OnOk, length};
ghost use Rattle.tool_dump.specs.DumpTexts.{checkpoint_text};

use crate::lines::append_line;
use checkpoint::Standing;
use jet_base::OutOfMemory;
use jet_volume::LogStart;
use std::alloc::Global;

/// The text of a checkpoint, in five lines: `checkpoint K`, its own number, 0 on a new volume; `generation G`, `offset O` and
/// `position P`, where the log goes on behind it; and `pages C`, how many pages it has, free ones among them.
pub fn checkpoint(alloc: Global, standing: &Standing) -> Result<Vec<u8>, OutOfMemory>
    ensures { IfOk result (λ text. text.items ≡ checkpoint_text standing.now.number standing.now.start (length standing.now.pages.items)) }
{
    let mut text = Vec::new(alloc);
    append_checkpoint(
        &mut text,
        standing.number,
        standing.start,
        standing.pages.len() as u64,
    )?;
    Ok(text)
}

/// Puts the lines of a checkpoint at the end.
fn append_checkpoint(
    text: &mut Vec<u8>,
    number: u64,
    start: LogStart,
    pages: u64,
) -> Result<(), OutOfMemory>
    ensures { OnOk result (text.new.items ≡ text.old.items ++ checkpoint_text number start pages) }
{
    append_line(text, b"checkpoint", number)?;
    append_line(text, b"generation", start.generation)?;
    append_line(text, b"offset", start.offset as u64)?;
    append_line(text, b"position", start.position)?;
    append_line(text, b"pages", pages)
}
