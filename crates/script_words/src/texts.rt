//! Names, bytes and values as a script writes them.

ghost use Rattle.std.specs.Prelude.{◌≡◌, ◌==◌, ◌||◌, ◌<◌, IsTrue, IfSome, take, drop};
ghost use Rattle.std.specs.Char.{is_ascii_alphanumeric, is_ascii_graphic};
ghost use Rattle.std.specs.List.{list_all};
ghost use Rattle.std.specs.Str.{bytes_eq};
ghost use Rattle.script_words.specs.Reading.{Reads};
ghost use Rattle.script_words.specs.Words.{is_name_byte, is_name, name_of, nibble_of, byte_of, hex_bytes_of};
ghost use Rattle.script_words.specs.Values.{single_byte_of, fill_value, text_value, hex_value, number_value, given_of};

use crate::arity::two_words;
use crate::numbers::{number_within, signed_number};
use crate::parts::Parts;
use crate::refusal::Refusal;
use jet_base::{Given, Name, Octets};
use std::alloc::Global;

/// Whether a word is the one that is expected.
pub fn is_word(word: &[u8], expected: &[u8]) -> bool
    ensures { result ≡ bytes_eq word.now expected.now }
{
    word == expected
}

/// Whether a byte may stand in a name behind its first.
fn is_name_byte(byte: u8) -> bool
    ensures { result ≡ is_name_byte byte }
{
    byte.is_ascii_alphanumeric() || byte == b'_'
}

/// Whether each byte may stand in a name behind its first.
fn are_name_bytes(bytes: &[u8]) -> bool
    ensures { result ≡ list_all is_name_byte bytes.now }
{
    bytes.iter().all(|byte| is_name_byte(*byte))
}

/// Whether a word is a name.
pub fn is_name(word: &[u8]) -> bool
    ensures { result ≡ is_name word.now }
{
    match word {
        [] => false,
        [letter, rest @ ..] => {
            letter.is_ascii_alphabetic() && rest.len() <= 63 && are_name_bytes(rest)
        }
    }
}

/// A name.
#[tactic(auto, unfolding(crate::specs::Words::name_of))]
#[inline(always)]
pub fn name(alloc: Global, word: &[u8]) -> Result<Name, Refusal>
    ensures { Reads (λ name. name) result (name_of word.now) }
{
    if !is_name(word) {
        return Err(Refusal::Bad);
    }
    Ok(Name::from_slice(alloc, word)?)
}

/// The value of a hexadecimal digit.
#[tactic(auto, unfolding(crate::specs::Words::nibble_of))]
fn nibble(digit: u8) -> Option<u8>
    ensures value { result ≡ nibble_of digit }
    ensures small { IfSome result (λ n. n < 16) }
{
    match digit {
        b'0'..=b'9' => Some(digit - b'0'),
        b'A'..=b'F' => Some(digit - b'A' + 10),
        b'a'..=b'f' => Some(digit - b'a' + 10),
        _ => None,
    }
}

/// The byte of two hexadecimal digits, the high one first.
#[tactic(auto, unfolding(crate::specs::Words::byte_of))]
fn byte(high: u8, low: u8) -> Option<u8>
    ensures { result ≡ byte_of high low }
{
    let high = nibble(high)?;
    let low = nibble(low)?;
    Some(16 * high + low)
}

/// The bytes that pairs of hexadecimal digits stand for.
#[tactic(auto, using(crate::proofs::HexPairs::pairs))]
pub fn hex_bytes(alloc: Global, digits: &[u8]) -> Result<Vec<u8>, Refusal>
    ensures { Reads (λ bytes. bytes.items) result (hex_bytes_of digits.now) }
{
    let mut bytes = Vec::with_capacity(alloc, digits.len() / 2)?;
    let mut rest = digits;
    while let [high, low, others @ ..] = rest {
        match byte(*high, *low) {
            None => return Err(Refusal::Bad),
            Some(byte) => bytes.push(byte)?,
        }
        rest = others;
    }
    if !rest.is_empty() {
        return Err(Refusal::Bad);
    }
    Ok(bytes)
}

/// The one byte that two hexadecimal digits stand for.
#[tactic(auto, unfolding(crate::specs::Values::single_byte_of))]
fn single_byte(digits: &[u8]) -> Result<u8, Refusal>
    ensures { Reads (λ n. n) result (single_byte_of digits.now) }
{
    match digits {
        [high, low] => byte(*high, *low).ok_or(Refusal::Bad),
        _ => Err(Refusal::Bad),
    }
}

/// A count of at most 2,097,152, a colon and the two digits of the byte that is repeated.
#[tactic(auto, unfolding(crate::specs::Values::fill_value, crate::specs::Values::fill_of))]
fn fill(text: &[u8]) -> Result<Given, Refusal>
    ensures { Reads (λ value. value) result (fill_value text.now) }
{
    let mut parts = Parts::of(text, b':');
    let (count, digits) = two_words(&mut parts)?;
    let count = number_within(0, 2_097_152, count)?;
    let byte = single_byte(digits)?;
    Ok(Given::Fill(count as u32, byte))
}

/// Bytes that stand for themselves, from 21 to 7E.
#[tactic(auto, unfolding(crate::specs::Values::text_value))]
fn text(alloc: Global, text: &[u8]) -> Result<Given, Refusal>
    ensures { Reads (λ value. value) result (text_value text.now) }
{
    if !are_graphic(text) {
        return Err(Refusal::Bad);
    }
    Ok(Given::Bytes(Octets::from_slice(alloc, text)?))
}

/// Whether each byte is from 21 to 7E.
///
/// It does not stop at the first that is not, so that the compiler may test many bytes at once.
fn are_graphic(bytes: &[u8]) -> bool
    ensures { result ≡ list_all is_ascii_graphic bytes.now }
{
    let mut graphic = true;
    for byte in bytes {
        graphic &= byte.is_ascii_graphic();
    }
    graphic
}

/// The bytes of pairs of hexadecimal digits, as a value.
#[tactic(auto, unfolding(crate::specs::Values::hex_value))]
fn hex(alloc: Global, digits: &[u8]) -> Result<Given, Refusal>
    ensures { Reads (λ value. value) result (hex_value digits.now) }
{
    let bytes = hex_bytes(alloc, digits)?;
    Ok(Given::Bytes(Octets::new(bytes)?))
}

/// A number from -2^63 to 2^63 - 1, as a value.
#[tactic(auto, unfolding(crate::specs::Values::number_value))]
fn number(text: &[u8]) -> Result<Given, Refusal>
    ensures { Reads (λ value. value) result (number_value text.now) }
{
    let number = signed_number(9_223_372_036_854_775_808, text)?;
    Ok(Given::Number(number))
}

/// The first two bytes of a word, or all where it has fewer, and the others.
fn split_form(word: &[u8]) -> (&[u8], &[u8])
    ensures form { result.0.now ≡ take 2 word.now }
    ensures text { result.1.now ≡ drop 2 word.now }
{
    match word {
        [_, _, text @ ..] => (&word[..2], text),
        _ => (word, &[]),
    }
}

/// A value, by its form.
#[tactic(auto, unfolding(crate::specs::Values::given_of))]
fn given_by_form(alloc: Global, word: &[u8]) -> Result<Given, Refusal>
    ensures { Reads (λ value. value) result (given_of word.now) }
{
    if is_word(word, b"null") {
        return Ok(Given::Null);
    }
    let (form, rest) = split_form(word);
    if is_word(form, b"n:") {
        number(rest)
    } else if is_word(form, b"x:") {
        hex(alloc, rest)
    } else if is_word(form, b"t:") {
        text(alloc, rest)
    } else if is_word(form, b"r:") {
        fill(rest)
    } else {
        Err(Refusal::Bad)
    }
}

/// A value.
///
/// Most are texts and numbers, which their first two bytes tell.
#[tactic(auto, using(crate::proofs::Forms::forms))]
#[inline(always)]
pub fn given(alloc: Global, word: &[u8]) -> Result<Given, Refusal>
    ensures { Reads (λ value. value) result (given_of word.now) }
{
    match word {
        [b't', b':', rest @ ..] => text(alloc, rest),
        [b'n', b':', rest @ ..] => number(rest),
        _ => given_by_form(alloc, word),
    }
}
