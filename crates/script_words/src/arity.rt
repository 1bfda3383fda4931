//! The words of a call, where their number is the one that is asked for.

ghost use Rattle.std.specs.Prelude.{◌≡◌, Some, None, if◌then◌else◌, drop};
ghost use Rattle.script_words.specs.Reading.{Reads};
ghost use Rattle.script_words.specs.Words.{first_word, only_word, two_words, three_words, is_empty_list, begins_with_word, optional_word};

use crate::parts::Parts;
use crate::refusal::Refusal;
use crate::texts::is_word;

/// The next word.
pub fn first_word<'a>(words: &mut Parts<'a>) -> Result<&'a [u8], Refusal>
    ensures { Reads (λ word. (word.now, words.new)) result (first_word words.old) }
{
    match words.next() {
        Some(word) => Ok(word),
        None => Err(Refusal::Bad),
    }
}

/// Nothing more.
pub fn no_more(words: &Parts<'_>) -> Result<(), Refusal>
    ensures { Reads (λ _. words.now) result (if is_empty_list words.now then Some words.now else None) }
{
    if words.is_empty() {
        Ok(())
    } else {
        Err(Refusal::Bad)
    }
}

/// The one word that is left.
#[tactic(auto, using(crate::proofs::WordCounts::arities))]
pub fn only_word<'a>(words: &mut Parts<'a>) -> Result<&'a [u8], Refusal>
    ensures { Reads (λ word. word.now) result (only_word words.old) }
{
    let first = first_word(words)?;
    no_more(words)?;
    Ok(first)
}

/// The two words that are left.
#[tactic(auto, using(crate::proofs::WordCounts::arities))]
pub fn two_words<'a>(words: &mut Parts<'a>) -> Result<(&'a [u8], &'a [u8]), Refusal>
    ensures { Reads (λ word. (word.0.now, word.1.now)) result (two_words words.old) }
{
    let first = first_word(words)?;
    let second = first_word(words)?;
    no_more(words)?;
    Ok((first, second))
}

/// The three words that are left.
#[tactic(auto, using(crate::proofs::WordCounts::arities))]
pub fn three_words<'a>(words: &mut Parts<'a>) -> Result<(&'a [u8], &'a [u8], &'a [u8]), Refusal>
    ensures { Reads (λ word. (word.0.now, word.1.now, word.2.now)) result (three_words words.old) }
{
    let first = first_word(words)?;
    let second = first_word(words)?;
    let third = first_word(words)?;
    no_more(words)?;
    Ok((first, second, third))
}

/// Takes the next word where it is the one that is expected, and says whether it is.
pub fn takes_word(words: &mut Parts<'_>, expected: &[u8]) -> bool
    ensures first { result ≡ begins_with_word expected.now words.old }
    ensures rest { words.new ≡ (if result then drop 1 words.old else words.old) }
{
    let mut ahead = words.copy();
    match ahead.next() {
        Some(word) if is_word(word, expected) => {
            *words = ahead;
            true
        }
        _ => false,
    }
}

/// Whether the one word stands, where nothing else does.
#[tactic(auto, unfolding(crate::specs::Words::optional_word))]
pub fn optional_word(words: &mut Parts<'_>, expected: &[u8]) -> Result<bool, Refusal>
    ensures { Reads (λ stands. stands) result (optional_word expected.now words.old) }
{
    if words.is_empty() {
        return Ok(false);
    }
    let word = only_word(words)?;
    if !is_word(word, expected) {
        return Err(Refusal::Bad);
    }
    Ok(true)
}
