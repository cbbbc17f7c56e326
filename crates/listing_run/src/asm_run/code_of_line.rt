//! The bytes of one line.

ghost use Rattle.std.specs.Prelude.{◌≡◌, ◌<◌, ℕ, List, [], ◌∷◌, IfSome, MatchOption};
ghost use Rattle.listing_run.specs.AsmRun.Bytes as spec;
ghost use Rattle.listing_run.specs.AsmRun.Lines.{IsByteLine, IsCodeOfLine};

use arrayvec::ArrayVec;
use intel_reader::assemble;
use text_parts::digit_values::{LetterCase, digit_value};
use x86_values::Bits;

/// Returns the number of two digits, the first of which is not 0.
#[inline]
#[tactic(auto, unfolding(crate::specs::AsmRun::Bytes::two_digits))]
fn two_digits(high: Option<u8>, low: Option<u8>) -> Option<u8>
    requires high { IfSome high (λ d. d < 16) }
    requires low { IfSome low (λ d. d < 16) }
    ensures { result ≡ spec.two_digits high low }
{
    match (high, low) {
        (Some(high), Some(low)) if high != 0 => Some(16 * high + low),
        _ => None,
    }
}

/// The byte of one or two digits without leading zeros.
#[tactic(auto, unfolding(crate::specs::AsmRun::Bytes::byte_of_digits))]
fn byte_of_digits(digits: &[u8]) -> Option<u8>
    ensures { result ≡ spec.byte_of_digits digits.now }
{
    match digits {
        [low] => digit_value(LetterCase::Lower, *low),
        [high, low] => two_digits(
            digit_value(LetterCase::Lower, *high),
            digit_value(LetterCase::Lower, *low),
        ),
        _ => None,
    }
}

/// The byte of a line that is `db 0x` and its number in lower-case hexadecimal digits without leading zeros.
fn single_byte(line: &[u8]) -> Option<u8>
    ensures { MatchOption result ((bytes : List ℕ) → IsByteLine line.now bytes → ⊥) (λ byte. IsByteLine line.now (byte ∷ [])) }
{
    match line.strip_prefix(b"db 0x") {
        Some(digits) => byte_of_digits(digits),
        None => None,
    }
}

/// One byte.
fn one(byte: u8) -> ArrayVec<u8, 15>
    ensures { result.items ≡ byte ∷ [] }
{
    let mut bytes = ArrayVec::new();
    bytes.push(byte);
    bytes
}

/// Returns the bytes that a line stands for at an address of the mode: those of an instruction's text, or a single byte.
pub fn code_of_line(bits: Bits, ip: u64, line: &[u8]) -> Option<ArrayVec<u8, 15>>
    ensures { MatchOption result ((bytes : List ℕ) → IsCodeOfLine bits ip line.now bytes → ⊥) (λ code. IsCodeOfLine bits ip line.now code.items) }
{
    match single_byte(line) {
        Some(byte) => Some(one(byte)),
        None => match assemble(bits, ip, line) {
            Ok(code) => Some(code),
            Err(_) => None,
        },
    }
}
