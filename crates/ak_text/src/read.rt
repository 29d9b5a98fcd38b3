//! The numbers that words write.

ghost use Rattle.std.specs.Prelude.{◌≡◌, ℕ, ◌<◌, ◌≤◌, ◌^◌, pos, neg_ℤ, ℤ, MatchOption, FitsSigned};
ghost use Rattle.std.specs.Int.{w64};
ghost use Rattle.std.specs.List.{list_all};
ghost use Rattle.std.specs.Option.{SomeIff};
ghost use Rattle.ak_text.specs.Numbers.{Writes, AreDigits, digits_value, has_minus, is_digit, without_minus};

use std::str;

/// The number that a word writes: a `-` or none, and then one decimal digit or more, of which leading zeros are
/// allowed. `None` exactly where the word has another form or its number is not an `i64`.
pub fn read_num(word: &[u8]) -> Option<i64>
    ensures { MatchOption result ((number : ℤ) → FitsSigned w64 number → Writes word.now number → ⊥)
        (λ number. Writes word.now number) }
{
    let number = read_digits(digits_of(word))?;
    if begins_with_minus(word) {
        negated(number)
    } else {
        i64::try_from(number).ok()
    }
}

/// The number that a word writes, as in `read_num`, so that `-0` is 0. `None` exactly where the word has another
/// form or its number is not a `u64`.
pub fn read_u64(word: &[u8]) -> Option<u64>
    ensures { MatchOption result ((number : ℕ) → number < 2 ^ 64 → Writes word.now (pos number) → ⊥)
        (λ number. Writes word.now (pos number)) }
{
    let number = read_digits(digits_of(word))?;
    if begins_with_minus(word) && number != 0 {
        return None;
    }
    Some(number)
}

fn begins_with_minus(word: &[u8]) -> bool
    ensures { result ≡ has_minus word.now }
{
    matches!(word, [b'-', ..])
}

fn digits_of(word: &[u8]) -> &[u8]
    ensures { result.now ≡ without_minus word.now }
{
    match word {
        [b'-', digits @ ..] => digits,
        _ => word,
    }
}

fn read_digits(digits: &[u8]) -> Option<u64>
    ensures { SomeIff result (AreDigits digits.now × (digits_value digits.now < 2 ^ 64))
        (digits_value digits.now) }
{
    if !are_digits(digits) {
        return None;
    }
    let Ok(text) = str::from_utf8(digits) else {
        return None;
    };
    text.parse().ok()
}

fn are_digits(bytes: &[u8]) -> bool
    ensures { result ≡ list_all is_digit bytes.now }
{
    bytes.iter().all(|byte| matches!(*byte, b'0'..=b'9'))
}

fn negated(number: u64) -> Option<i64>
    ensures { SomeIff result (number ≤ 2 ^ 63) (neg_ℤ (pos number)) }
{
    0i64.checked_sub_unsigned(number)
}
