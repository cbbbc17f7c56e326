//! Reading numbers.

ghost use Rattle.std.specs.Prelude.{◌≡◌};
ghost use Rattle.intel_words.specs.ReadNumbers as spec;

use crate::scanning::{first, rest};
use text_parts::digit_values::{LetterCase, digits_value};

/// The number that 1 to 16 hexadecimal digits without leading zeros name.
#[tactic(auto, unfolding(crate::specs::ReadNumbers::number_in, crate::specs::ReadNumbers::has_digit_form))]
fn number_in(digits: &[u8]) -> Option<u64>
    ensures { result ≡ spec.number_in digits.now }
{
    if digits.len() > 0 && digits.len() <= 16 && (digits.len() == 1 || first(digits) != b'0') {
        digits_value(LetterCase::Lower, digits)
    } else {
        None
    }
}

/// Returns the number that a word names: `0x` and its digits.
#[tactic(auto, unfolding(crate::specs::ReadNumbers::number_named))]
pub fn number_named(word: &[u8]) -> Option<u64>
    ensures { result ≡ spec.number_named word.now }
{
    if first(word) == b'0' && first(rest(word)) == b'x' {
        number_in(rest(rest(word)))
    } else {
        None
    }
}

/// Returns the value of a decimal digit.
#[inline]
#[tactic(auto, unfolding(crate::specs::ReadNumbers::decimal_digit))]
pub fn decimal_digit(c: u8) -> Option<u8>
    ensures { result ≡ spec.decimal_digit c }
{
    if b'0' <= c && c <= b'9' {
        Some(c - b'0')
    } else {
        None
    }
}

/// Returns 10 to 15, given the digit after the 1.
#[inline]
#[tactic(auto, unfolding(crate::specs::ReadNumbers::teen))]
fn teen(c: u8) -> Option<u8>
    ensures { result ≡ spec.teen c }
{
    if b'0' <= c && c <= b'5' {
        Some(c - 38)
    } else {
        None
    }
}

/// Returns a decimal number from 0 to 15.
#[tactic(auto, unfolding(crate::specs::ReadNumbers::decimal_in))]
pub fn decimal_in(digits: &[u8]) -> Option<u8>
    ensures { result ≡ spec.decimal_in digits.now }
{
    match digits {
        [c] => decimal_digit(*c),
        [c, d] => if *c == b'1' { teen(*d) } else { None },
        _ => None,
    }
}
