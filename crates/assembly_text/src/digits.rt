//! The numbers that words name.

ghost use Rattle.std.specs.Prelude.{◌≡◌, ◌-◌, drop, length};
ghost use Rattle.assembly_text.specs.Digits as spec;

use crate::line::{behind, byte_at, front_of};
use text_parts::digit_values::{LetterCase, digit_value};

/// A number with a digit of a radix after it, if it is below 2 to the 64.
#[tactic(auto, unfolding(crate::specs::Digits::with_digit))]
fn with_digit(radix: u8, value: u64, digit: Option<u8>) -> Option<u64>
    ensures { result ≡ spec.with_digit radix value digit }
{
    match digit {
        None => None,
        Some(d) => {
            let more = radix as u128 * value as u128 + d as u128;
            if d < radix && more < 0x1_0000_0000_0000_0000 {
                Some(more as u64)
            } else {
                None
            }
        }
    }
}

/// The value of one digit or more.
#[tactic(auto, unfolding(crate::specs::Digits::digits_in))]
fn digits_in(radix: u8, digits: &[u8]) -> Option<u64>
    ensures { result ≡ spec.digits_in radix digits.now }
{
    if digits.is_empty() {
        return None;
    }
    digits_value(radix, digits)
}

/// The value of some digits.
#[tactic(auto, unfolding(crate::specs::Digits::digits_behind))]
fn digits_value(radix: u8, digits: &[u8]) -> Option<u64>
    ensures { result ≡ spec.digits_behind radix (Some 0) digits.now }
{
    let mut value = 0;
    'digits: for k in 0..digits.len() {
        match with_digit(radix, value, digit_value(LetterCase::Lower, digits[k])) {
            None => return None,
            Some(more) => value = more,
        }
    }
    Some(value)
}

/// The last byte of a word, 0 if it has none.
pub(crate) fn last_byte(word: &[u8]) -> u8
    ensures { result ≡ spec.last_byte word.now }
{
    byte_at(word, word.len().saturating_sub(1))
}

/// A word without its last byte.
fn front(word: &[u8]) -> &[u8]
    ensures { result.now ≡ spec.front word.now }
{
    front_of(word, word.len().saturating_sub(1))
}

/// Whether a word begins with 0 and this letter.
fn has_mark(word: &[u8], letter: u8) -> bool
    ensures { result ≡ spec.has_mark word.now letter }
{
    byte_at(word, 0) == b'0' && byte_at(word, 1) == letter
}

/// The number that a word names.
#[tactic(auto, unfolding(crate::specs::Digits::number_of_word))]
pub(crate) fn number_of_word(word: &[u8]) -> Option<u64>
    ensures { result ≡ spec.number_of_word word.now }
{
    if has_mark(word, b'x') {
        digits_in(16, behind(word, 2))
    } else if last_byte(word) == b'h' {
        digits_in(16, front(word))
    } else if has_mark(word, b'b') {
        digits_in(2, behind(word, 2))
    } else if last_byte(word) == b'b' {
        digits_in(2, front(word))
    } else {
        digits_in(10, word)
    }
}
