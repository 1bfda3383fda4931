//! The parts of a text between the bytes of one value.

ghost use Rattle.std.specs.Prelude.{◌≡◌, ◌==◌, [], ◌∷◌, ◌<◌, List, ℕ, length, IsNone, IfNone, IfSome, Option};
ghost use Rattle.std.specs.List.{slice_split, position};
ghost use Rattle.std.specs.Option.{option_copied, option_map};
ghost use Rattle.script_words.specs.Words.{parts_left, is_empty_list};

use memchr::memchr;
use std::marker::Model;

/// From so many bytes on, a search by vectors is quicker than one byte by byte.
const LONG: usize = 64;

/// What is left of the parts of a text: the lines of a script, or the words of a line.
#[derive(Drop)]
pub struct Parts<'a> {
    separator: u8,
    /// The text that is not taken yet, or none where its last part is taken.
    rest: Option<&'a [u8]>,
}

impl<'a> Model for Parts<'a> {
    ghost use Rattle.std.specs.Prelude.{List, ℕ};
    ghost use Rattle.std.specs.Option.{option_copied};
    ghost use Rattle.script_words.specs.Words.{parts_left};

    ghost Value = { List (List ℕ) };

    ghost view = { λ a. parts_left a.separator (option_copied a.rest) };
}

impl<'a> Parts<'a> {
    /// The parts of a text between the bytes `separator`, none of them taken.
    pub fn of(text: &'a [u8], separator: u8) -> Parts<'a>
        ensures { result ≡ slice_split (λ b. b == separator) text.now }
    {
        Parts {
            separator,
            rest: Some(text),
        }
    }

    /// Whether all parts are taken.
    #[tactic(auto, using(crate::proofs::Cuts::cuts))]
    pub fn is_empty(&self) -> bool
        ensures { result ≡ is_empty_list self.now }
    {
        match self.rest {
            None => true,
            Some(_) => false,
        }
    }

    /// The same parts, taken apart from these.
    pub fn copy(&self) -> Parts<'a>
        ensures { result ≡ self.now }
    {
        Parts {
            separator: self.separator,
            rest: self.rest,
        }
    }

    /// Takes the next part.
    #[inline(always)]
    pub fn next(&mut self) -> Option<&'a [u8]>
        ensures none { IfNone result ((self.old ≡ []) × (self.new ≡ [])) }
        ensures some { IfSome result (λ part. self.old ≡ part.now ∷ self.new) }
    {
        match self.rest {
            None => None,
            Some(text) => {
                let (part, rest) = cut(text, self.separator);
                self.rest = rest;
                Some(part)
            }
        }
    }
}

/// The first place of a byte, if it stands in the text.
///
/// A line's words are short, and its own end lies far before the end of the script.
#[inline(always)]
fn place_of(text: &[u8], byte: u8) -> Option<usize>
    ensures { result ≡ position (λ b. b == byte) text.now }
{
    if text.len() < LONG {
        text.iter().position(|b| *b == byte)
    } else {
        place_in_long(text, byte)
    }
}

/// The same, apart, so that the search of short texts stays small where it is used.
#[tactic(auto, using(crate::proofs::Cuts::first_bytes))]
#[inline(never)]
fn place_in_long(text: &[u8], byte: u8) -> Option<usize>
    ensures { result ≡ position (λ b. b == byte) text.now }
{
    memchr(byte, text)
}

/// The first part of a text, and what follows its separator where there is one.
#[tactic(auto, using(crate::proofs::Cuts::cuts))]
#[inline(always)]
fn cut(text: &[u8], separator: u8) -> (&[u8], Option<&[u8]>)
    ensures { slice_split (λ b. b == separator) text.now ≡ result.0.now ∷ parts_left separator (option_copied result.1) }
{
    match place_of(text, separator) {
        Some(end) => (&text[..end], Some(&text[end + 1..])),
        None => (text, None),
    }
}
