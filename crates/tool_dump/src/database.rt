//! The header of a database.

ghost use Rattle.std.specs.Prelude.{◌≡◌, ◌++◌, ◌||◌, IfOk, OnOk};
ghost use Rattle.tool_dump.specs.DumpTexts.{header_text, state_line};

use crate::lines::append_line;
use jet_base::OutOfMemory;
use std::alloc::Global;

/// What is told of a database as a whole.
#[derive(Clone, Copy, Debug)]
pub struct DatabaseHeader {
    /// Whether the checkpoint that stands has a session.
    pub has_session: bool,
    /// Whether the log has a whole entry behind that checkpoint. Bytes that are cut from one are none.
    pub has_entry: bool,
    /// The version of the format of that checkpoint, 1 on a new volume.
    pub format: u32,
    /// How many log entries led to the database that is recovered.
    pub number: u64,
    /// How many tables it has.
    pub tables: u64,
}

impl DatabaseHeader {
    /// Whether the database was not closed well.
    fn is_dirty(&self) -> bool
        ensures { result ≡ (self.now.has_session || self.now.has_entry) }
    {
        self.has_session || self.has_entry
    }
}

/// The text of a header, in four lines: `state clean` where the database was closed well, else `state dirty`; `format F`; `number N`;
/// `tables K`.
pub fn header(alloc: Global, header: &DatabaseHeader) -> Result<Vec<u8>, OutOfMemory>
    ensures { IfOk result (λ text. text.items ≡ header_text header.now) }
{
    let mut text = Vec::new(alloc);
    append_header(&mut text, header)?;
    Ok(text)
}

/// Puts the line of the state at the end.
fn append_state(text: &mut Vec<u8>, is_dirty: bool) -> Result<(), OutOfMemory>
    ensures { OnOk result (text.new.items ≡ text.old.items ++ state_line is_dirty) }
{
    let line = if is_dirty {
        b"state dirty\n"
    } else {
        b"state clean\n"
    };
    text.extend_from_slice(line)?;
    Ok(())
}

/// Puts the lines of a header at the end.
fn append_header(text: &mut Vec<u8>, header: &DatabaseHeader) -> Result<(), OutOfMemory>
    ensures { OnOk result (text.new.items ≡ text.old.items ++ header_text header.now) }
{
    append_state(text, header.is_dirty())?;
    append_line(text, b"format", header.format as u64)?;
    append_line(text, b"number", header.number)?;
    append_line(text, b"tables", header.tables)
}
