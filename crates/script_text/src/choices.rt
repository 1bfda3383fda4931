//! Words that stand for one of a few things.

ghost use Rattle.std.specs.Prelude.{◌≡◌};
ghost use Rattle.script_words.specs.Reading.{Reads};
ghost use Rattle.script_words.specs.Words.{choice_of};
ghost use Rattle.script_text.specs.Calls.{column_types, ways, comparisons, preparations};

use cursor_nav::SeekBy;
use jet_base::{ColType, Prepare, Way};
use script_words::Refusal;
use script_words::texts::is_word;

/// The type of a column.
pub fn column_type(word: &[u8]) -> Result<ColType, Refusal>
    ensures { Reads (λ kind. kind) result (choice_of column_types word.now) }
{
    if is_word(word, b"Bit") {
        Ok(ColType::Bit)
    } else if is_word(word, b"UnsignedByte") {
        Ok(ColType::UnsignedByte)
    } else if is_word(word, b"Short") {
        Ok(ColType::Short)
    } else if is_word(word, b"UnsignedShort") {
        Ok(ColType::UnsignedShort)
    } else if is_word(word, b"Long") {
        Ok(ColType::Long)
    } else if is_word(word, b"UnsignedLong") {
        Ok(ColType::UnsignedLong)
    } else if is_word(word, b"LongLong") {
        Ok(ColType::LongLong)
    } else if is_word(word, b"Currency") {
        Ok(ColType::Currency)
    } else if is_word(word, b"GUID") {
        Ok(ColType::Guid)
    } else if is_word(word, b"Binary") {
        Ok(ColType::Binary)
    } else if is_word(word, b"Text") {
        Ok(ColType::Text)
    } else if is_word(word, b"LongBinary") {
        Ok(ColType::LongBinary)
    } else if is_word(word, b"LongText") {
        Ok(ColType::LongText)
    } else {
        Err(Refusal::Bad)
    }
}

/// A move.
pub fn way(word: &[u8]) -> Result<Way, Refusal>
    ensures { Reads (λ way. way) result (choice_of ways word.now) }
{
    if is_word(word, b"First") {
        Ok(Way::First)
    } else if is_word(word, b"Last") {
        Ok(Way::Last)
    } else if is_word(word, b"Next") {
        Ok(Way::Next)
    } else if is_word(word, b"Previous") {
        Ok(Way::Previous)
    } else {
        Err(Refusal::Bad)
    }
}

/// A comparison.
pub fn comparison(word: &[u8]) -> Result<SeekBy, Refusal>
    ensures { Reads (λ by. by) result (choice_of comparisons word.now) }
{
    if is_word(word, b"EQ") {
        Ok(SeekBy::Eq)
    } else if is_word(word, b"LT") {
        Ok(SeekBy::Lt)
    } else if is_word(word, b"LE") {
        Ok(SeekBy::Le)
    } else if is_word(word, b"GE") {
        Ok(SeekBy::Ge)
    } else if is_word(word, b"GT") {
        Ok(SeekBy::Gt)
    } else {
        Err(Refusal::Bad)
    }
}

/// What an update is prepared for.
pub fn preparation(word: &[u8]) -> Result<Prepare, Refusal>
    ensures { Reads (λ how. how) result (choice_of preparations word.now) }
{
    if is_word(word, b"insert") {
        Ok(Prepare::Insert)
    } else if is_word(word, b"insertcopy") {
        Ok(Prepare::InsertCopy)
    } else if is_word(word, b"replace") {
        Ok(Prepare::Replace)
    } else if is_word(word, b"cancel") {
        Ok(Prepare::Cancel)
    } else {
        Err(Refusal::Bad)
    }
}
