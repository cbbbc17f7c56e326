//! The numbers that hexadecimal digits name.

ghost use Rattle.std.specs.Prelude.{◌≡◌, ◌<◌, ◌≤◌, IfSome, length};
ghost use Rattle.text_parts.specs.DigitValues as spec;

/// The case that letters among hexadecimal digits may have.
#[derive(Clone, Copy)]
pub enum LetterCase {
    /// `a` to `f` only.
    Lower,
    /// `a` to `f` and `A` to `F`.
    Either,
}

/// Returns the value of the digits `A` to `F`, if letters may have either case.
#[inline]
#[tactic(auto, unfolding(crate::specs::DigitValues::upper_value))]
fn upper_value(letters: LetterCase, c: u8) -> Option<u8>
    ensures value { result ≡ spec.upper_value letters c }
    ensures small { IfSome result (λ d. d < 16) }
{
    match letters {
        LetterCase::Lower => None,
        LetterCase::Either => if b'A' <= c && c <= b'F' {
            Some(c - 55)
        } else {
            None
        },
    }
}

/// Returns the value of a hexadecimal digit, 0 to 15, or None for any other byte.
#[inline]
#[tactic(auto, unfolding(crate::specs::DigitValues::digit_value))]
pub fn digit_value(letters: LetterCase, c: u8) -> Option<u8>
    ensures value { result ≡ spec.digit_value letters c }
    ensures small { IfSome result (λ d. d < 16) }
{
    if b'0' <= c && c <= b'9' {
        Some(c - b'0')
    } else if b'a' <= c && c <= b'f' {
        Some(c - 87)
    } else {
        upper_value(letters, c)
    }
}

/// Returns the number that at most 16 hexadecimal digits name, if all of them are digits. No digits name 0.
#[inline]
pub fn digits_value(letters: LetterCase, digits: &[u8]) -> Option<u64>
    requires { length digits.now ≤ 16 }
    ensures { result ≡ spec.digits_from letters 0 digits.now }
{
    let mut value = 0;
    for c in digits {
        match digit_value(letters, *c) {
            None => return None,
            Some(d) => value = 16 * value + u64::from(d),
        }
    }
    Some(value)
}
