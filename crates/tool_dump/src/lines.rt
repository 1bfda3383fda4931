//! Numbers and lines at the end of a text.

ghost use Rattle.std.specs.Prelude.{◌≡◌, ◌++◌, OnOk};
ghost use Rattle.std.specs.Fmt.{decimal};
ghost use Rattle.tool_dump.specs.DumpTexts.{number_line};

use itoa::Buffer;
use jet_base::OutOfMemory;

/// Puts a number at the end, in decimal digits.
pub(crate) fn append_number(text: &mut Vec<u8>, number: u64) -> Result<(), OutOfMemory>
    ensures { OnOk result (text.new.items ≡ text.old.items ++ decimal number) }
{
    let mut buffer = Buffer::new();
    text.extend_from_slice(buffer.format(number).as_bytes())?;
    Ok(())
}

/// Puts a line of a word and a number at the end.
pub(crate) fn append_line(text: &mut Vec<u8>, word: &[u8], number: u64) -> Result<(), OutOfMemory>
    ensures { OnOk result (text.new.items ≡ text.old.items ++ number_line word.now number) }
{
    text.extend_from_slice(word)?;
    text.push(b' ')?;
    append_number(text, number)?;
    text.push(b'\n')?;
    Ok(())
}
