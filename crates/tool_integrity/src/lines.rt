//! Words, names, numbers and keys at the end of a text.

ghost use Rattle.std.specs.Prelude.{◌≡◌, ◌<◌, [], ◌∷◌, ◌++◌, OnOk};
ghost use Rattle.std.specs.Char.{digit_char};
ghost use Rattle.std.specs.Fmt.{decimal};
ghost use Rattle.image_findings.specs.FindingTexts.{have_want_text, key_digits};

use itoa::Buffer;
use jet_base::{Name, Octets, OutOfMemory};

/// Puts words at the end.
pub(crate) fn append(text: &mut Vec<u8>, words: &[u8]) -> Result<(), OutOfMemory>
    ensures { OnOk result (text.new.items ≡ text.old.items ++ words.now) }
{
    text.extend_from_slice(words)?;
    Ok(())
}

/// Puts a name at the end.
pub(crate) fn append_name(text: &mut Vec<u8>, name: &Name) -> Result<(), OutOfMemory>
    ensures { OnOk result (text.new.items ≡ text.old.items ++ name.now) }
{
    append(text, name.as_bytes())
}

/// Puts a number at the end, in decimal digits.
pub(crate) fn append_number(text: &mut Vec<u8>, number: u64) -> Result<(), OutOfMemory>
    ensures { OnOk result (text.new.items ≡ text.old.items ++ decimal number) }
{
    let mut buffer = Buffer::new();
    text.extend_from_slice(buffer.format(number).as_bytes())?;
    Ok(())
}

/// A hexadecimal digit, in lower case.
fn digit(value: u8) -> u8
    requires { value < 16 }
    ensures { result ≡ digit_char value }
{
    if value < 10 {
        b'0' + value
    } else {
        b'a' + (value - 10)
    }
}

/// The two hexadecimal digits of a byte, the high one first.
fn digits_of(byte: u8) -> [u8; 2]
    ensures { result ≡ key_digits (byte ∷ []) }
{
    [digit(byte / 16), digit(byte % 16)]
}

/// Puts two hexadecimal digits at the end for each byte.
fn append_digits(text: &mut Vec<u8>, bytes: &[u8]) -> Result<(), OutOfMemory>
    ensures { OnOk result (text.new.items ≡ text.old.items ++ key_digits bytes.now) }
{
    for byte in bytes {
        text.extend_from_slice(&digits_of(*byte))?;
    }
    Ok(())
}

/// Puts a key at the end, in hexadecimal digits.
pub(crate) fn append_key(text: &mut Vec<u8>, key: &Octets) -> Result<(), OutOfMemory>
    ensures { OnOk result (text.new.items ≡ text.old.items ++ key_digits key.now) }
{
    append_digits(text, key.as_bytes())
}

/// Puts two counts at the end: how many there are, and how many there should be.
pub(crate) fn append_counts(text: &mut Vec<u8>, have: u64, want: u64) -> Result<(), OutOfMemory>
    ensures { OnOk result (text.new.items ≡ text.old.items ++ have_want_text have want) }
{
    append(text, b" have ")?;
    append_number(text, have)?;
    append(text, b" want ")?;
    append_number(text, want)
}
