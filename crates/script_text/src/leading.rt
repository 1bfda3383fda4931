//! The first word of a text, where its end need not be searched.

ghost use Rattle.std.specs.Prelude.{◌≡◌, ◌==◌, ◌<◌, ◌≤◌, ◌+◌, ◌-◌, ◌∷◌, ℕ, [], length, not, slice_index, take, Some, IfSome, IsTrue};
ghost use Rattle.std.specs.List.{list_all, position};
ghost use Rattle.std.specs.Option.{option_copied};
ghost use Rattle.script_words.specs.Words.{label_of, parts_left, words_of};

/// Whether a byte is a digit from 1 to 9, and so a label.
#[tactic(auto, using(crate::proofs::FirstWords::digits))]
#[inline(always)]
fn is_label_digit(byte: u8) -> bool
    ensures label { IsTrue result → label_of (byte ∷ []) ≡ Some (byte - 48) }
    ensures digit { IsTrue result → 48 < byte }
{
    b'1' <= byte && byte <= b'9'
}

/// The digit from 1 to 9 that is the first word of a text, and the text behind the space that ends it, if there is one.
#[tactic(auto, using(crate::proofs::FirstWords::first_words))]
#[inline(always)]
pub fn leading_digit(text: &[u8]) -> Option<(u8, Option<&[u8]>)>
    ensures cut { IfSome result (λ found. words_of text.now ≡ (found.0 ∷ []) ∷ parts_left 32 (option_copied found.1)) }
    // It is the label of a session or of a cursor.
    ensures label { IfSome result (λ found. label_of (found.0 ∷ []) ≡ Some (found.0 - 48)) }
    ensures digit { IfSome result (λ found. 48 < found.0) }
{
    match text {
        [digit] if is_label_digit(*digit) => Some((*digit, None)),
        [digit, b' ', rest @ ..] if is_label_digit(*digit) => Some((*digit, Some(rest))),
        _ => None,
    }
}

// Whether the eight bytes from a place on are the same in both.
#[inline(always)]
fn have_same_eight(text: &[u8], word: &[u8], at: usize) -> bool
    requires text { at + 8 ≤ length text.now }
    requires word { at + 8 ≤ length word.now }
    ensures { IsTrue result → (k : ℕ) → k < 8 → slice_index text.now (at + k) ≡ slice_index word.now (at + k) }
{
    let own = u64::from_le_bytes([
        text[at],
        text[at + 1],
        text[at + 2],
        text[at + 3],
        text[at + 4],
        text[at + 5],
        text[at + 6],
        text[at + 7],
    ]);
    let other = u64::from_le_bytes([
        word[at],
        word[at + 1],
        word[at + 2],
        word[at + 3],
        word[at + 4],
        word[at + 5],
        word[at + 6],
        word[at + 7],
    ]);
    own == other
}

// The same of four bytes.
#[inline(always)]
fn have_same_four(text: &[u8], word: &[u8], at: usize) -> bool
    requires text { at + 4 ≤ length text.now }
    requires word { at + 4 ≤ length word.now }
    ensures { IsTrue result → (k : ℕ) → k < 4 → slice_index text.now (at + k) ≡ slice_index word.now (at + k) }
{
    let own = u32::from_le_bytes([text[at], text[at + 1], text[at + 2], text[at + 3]]);
    let other = u32::from_le_bytes([word[at], word[at + 1], word[at + 2], word[at + 3]]);
    own == other
}

// Whether the bytes before a place are the same in both, one after the other.
#[inline(always)]
fn have_same_front(text: &[u8], word: &[u8], end: usize) -> bool
    requires text { end ≤ length text.now }
    requires word { end ≤ length word.now }
    ensures { IsTrue result → take end text.now ≡ take end word.now }
{
    for i in 0..end {
        if text[i] != word[i] {
            return false;
        }
    }
    true
}

// The same, of which the last four bytes are compared at once where there are more.
#[inline(always)]
fn have_same_few(text: &[u8], word: &[u8], end: usize) -> bool
    requires text { end ≤ length text.now }
    requires word { end ≤ length word.now }
    ensures { IsTrue result → take end text.now ≡ take end word.now }
{
    if end <= 4 {
        return have_same_front(text, word, end);
    }
    have_same_four(text, word, end - 4) && have_same_front(text, word, end - 4)
}

/// Whether a text begins with a word.
///
/// It stands where it is used, so that a literal is compared without a loop, many bytes at once from the last ones on. The first
/// byte is compared alone: where it is known already nothing is left to do for it.
#[inline(always)]
fn begins_with(text: &[u8], word: &[u8]) -> bool
    requires { length word.now ≤ length text.now }
    ensures { IsTrue result → take (length word.now) text.now ≡ word.now }
{
    let end = word.len();
    if end <= 8 {
        return have_same_few(text, word, end);
    }
    have_same_eight(text, word, end - 8) && have_same_few(text, word, end - 8)
}

/// The text behind a word and the space that ends it, where it begins with them.
#[tactic(auto, using(crate::proofs::FirstWords::behind_words))]
#[inline(always)]
pub fn behind_word<'a>(text: &'a [u8], word: &[u8]) -> Option<&'a [u8]>
    requires { IsTrue (list_all (λ b. not (b == 32)) word.now) }
    ensures { IfSome result (λ rest. words_of text.now ≡ word.now ∷ words_of rest.now) }
{
    let end = word.len();
    if text.len() <= end {
        return None;
    }
    if text[end] != b' ' {
        return None;
    }
    if !begins_with(text, word) {
        return None;
    }
    Some(&text[end + 1..])
}

/// The place of the first space.
#[inline(always)]
fn place_of_space(text: &[u8]) -> Option<usize>
    ensures { result ≡ position (λ b. b == 32) text.now }
{
    text.iter().position(|byte| *byte == b' ')
}

/// The first word of a text and the text behind the space that ends it, where one does.
#[inline(always)]
pub fn leading_word(text: &[u8]) -> Option<(&[u8], &[u8])>
    ensures { IfSome result (λ found. words_of text.now ≡ found.0.now ∷ words_of found.1.now) }
{
    let end = place_of_space(text)?;
    Some((&text[..end], &text[end + 1..]))
}

/// Whether a text is this word.
#[tactic(auto, using(crate::proofs::LastWords::whole_word))]
#[inline(always)]
pub fn is_the_word(text: &[u8], word: &[u8]) -> bool
    ensures { IsTrue result → text.now ≡ word.now }
{
    text.len() == word.len() && begins_with(text, word)
}
