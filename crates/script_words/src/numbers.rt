//! Numbers as a script writes them.

ghost use Rattle.std.specs.Prelude.{◌≡◌, ℕ, pos, neg_ℤ, ◌≤ℤ◌, ◌<ℤ◌, ◌^◌, ◌-◌, ◌<◌, ◌≤◌, Some, IfOk, IsOkUnless, MatchResult};
ghost use Rattle.script_words.specs.Reading.{Reads};
ghost use Rattle.script_words.specs.Words.{number_from, is_badly_led, number_within, label_of, signed_number_of};

use crate::refusal::Refusal;

/// The greatest number that any word of a script may stand for: 2^63, behind a minus sign.
const GREATEST: u64 = 9_223_372_036_854_775_808;

#[tactic(auto, using(crate::proofs::Decimal::large_numbers))]
/// The number that decimal digits stand for, if it is at most `most`.
fn digits_up_to(most: u64, digits: &[u8]) -> Result<u64, Refusal>
    requires { most ≤ GREATEST }
    ensures number { MatchResult result
        (λ n. (number_from 0 digits.now ≡ Some n) × (n ≤ most))
        (λ _. (n : ℕ) → number_from 0 digits.now ≡ Some n → most < n) }
    ensures bad { IsOkUnless result Refusal.Bad }
{
    let mut number: u64 = 0;
    for digit in digits {
        if !digit.is_ascii_digit() {
            return Err(Refusal::Bad);
        }
        if number > most / 10 {
            return Err(Refusal::Bad);
        }
        number = number * 10 + u64::from(*digit - b'0');
    }
    if number > most {
        return Err(Refusal::Bad);
    }
    Ok(number)
}

/// Whether no digit leads the word, or a zero that stands before another byte.
fn is_badly_led(word: &[u8]) -> bool
    ensures { result ≡ is_badly_led word.now }
{
    match word {
        [] => true,
        [first, rest @ ..] => *first == b'0' && !rest.is_empty(),
    }
}

/// A number from `least` to `most`: one decimal digit or more, and no leading zero.
#[tactic(auto, using(crate::proofs::Decimal::above_is_none), unfolding(crate::specs::Words::number_within, crate::specs::Words::number_of))]
pub fn number_within(least: u64, most: u64, word: &[u8]) -> Result<u64, Refusal>
    requires { most ≤ GREATEST }
    ensures number { Reads (λ n. n) result (number_within least most word.now) }
    ensures most { IfOk result (λ n. n ≤ most) }
    // It takes no memory.
    ensures bad { IsOkUnless result Refusal.Bad }
{
    if is_badly_led(word) {
        return Err(Refusal::Bad);
    }
    let number = digits_up_to(most, word)?;
    if number < least {
        return Err(Refusal::Bad);
    }
    Ok(number)
}

/// The label of a session or a cursor: 1 to 99.
#[tactic(auto, unfolding(crate::specs::Words::label_of))]
pub fn label(word: &[u8]) -> Result<u32, Refusal>
    ensures { Reads (λ n. n) result (label_of word.now) }
{
    let label = number_within(1, 99, word)?;
    Ok(label as u32)
}

/// Zero less a number that is at most 2^63.
fn negative(number: u64) -> i64
    requires { number ≤ GREATEST }
    ensures { result ≡ neg_ℤ (pos number) }
{
    if number == 0 {
        0
    } else {
        -1 - (number - 1) as i64
    }
}

/// A number from -`limit` to `limit` - 1.
#[tactic(auto, unfolding(crate::specs::Words::signed_number_of))]
pub fn signed_number(limit: u64, word: &[u8]) -> Result<i64, Refusal>
    requires { (0 < limit) × (limit ≤ GREATEST) }
    ensures number { Reads (λ n. n) result (signed_number_of limit word.now) }
    ensures range { IfOk result (λ n. (neg_ℤ (pos limit) ≤ℤ n) × (n <ℤ pos limit)) }
{
    match word {
        [] => Err(Refusal::Bad),
        [b'-', digits @ ..] => {
            let number = number_within(0, limit, digits)?;
            Ok(negative(number))
        }
        _ => {
            let number = number_within(0, limit - 1, word)?;
            Ok(number as i64)
        }
    }
}
