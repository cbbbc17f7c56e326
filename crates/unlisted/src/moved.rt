//! The number of an instruction without a row, set anew so that the instruction refers to a goal from another address.

ghost use Rattle.std.specs.Prelude.{◌≡◌, ◌≤◌, ◌+◌, length};
ghost use Rattle.arrayvec.specs.ArrayVec.{array_vec_len};
ghost use Rattle.plain_spelling.specs.Values as values;
ghost use Rattle.unlisted.specs.Measured as measured;
ghost use Rattle.unlisted.specs.Measured.{StandsInside};
ghost use Rattle.unlisted.specs.Moved as spec;

use crate::{Reference, Relative, Shape};
use arrayvec::ArrayVec;
use instruction_parts::append::append_few;
use plain_spelling::numbers::{distance, is_extended_of, push_low_bytes};
use x86_values::{Bits, wrap};

/// Returns the size of the address that a number refers to: 64 bits at RIP, 32 at EIP, and that of the mode for a branch.
pub fn reference_size(bits: Bits, to: Reference) -> Bits
    ensures { result ≡ measured.reference_size bits to }
{
    match to {
        Reference::Rip => Bits::B64,
        Reference::Eip => Bits::B32,
        Reference::Branch => bits,
    }
}

/// What has to be added to the address behind an instruction of `len` bytes to come to a goal.
#[tactic(auto, unfolding(crate::specs::Moved::distance_to))]
fn distance_to(bits: Bits, len: u8, at: u64, goal: u64, relative: &Relative) -> u64
    ensures { result ≡ spec.distance_to bits len at goal relative.now }
{
    let end = wrap(Bits::B64, u128::from(at) + u128::from(len));
    distance(reference_size(bits, relative.to), end, goal)
}

/// Whether the bytes of a number, sign-extended, give the distance to a goal.
#[tactic(auto, unfolding(crate::specs::Moved::number_fits))]
fn number_fits(bits: Bits, len: u8, at: u64, goal: u64, relative: &Relative) -> bool
    ensures { result ≡ spec.number_fits bits len at goal relative.now }
{
    let size = reference_size(bits, relative.to);
    wrap(size, u128::from(goal)) == goal
        && relative.len <= 8
        && is_extended_of(
            relative.len,
            size,
            distance_to(bits, len, at, goal, relative),
        )
}

/// Returns the number with which the instruction of a shape at the address `at` refers to `goal`: what has to be added to the address after the
/// instruction, modulo 2 to the power of the size of the address (Intel SDM volume 2, 2.2.1.6).
///
/// `None` if the shape has no number, if its bytes do not hold that number, or if `goal` is no address of the size.
pub fn number_to(bits: Bits, shape: &Shape, at: u64, goal: u64) -> Option<u64>
    ensures { result ≡ spec.number_to bits shape.now at goal }
{
    match &shape.relative {
        None => None,
        Some(relative) => {
            if number_fits(bits, shape.len, at, goal, relative) {
                Some(distance_to(bits, shape.len, at, goal, relative))
            } else {
                None
            }
        }
    }
}

/// The bytes of an instruction with another number.
#[tactic(auto, unfolding(crate::specs::Moved::with_bytes))]
fn with_number(own: &[u8], relative: &Relative, number: u64) -> ArrayVec<u8, 15>
    requires short { length own.now ≤ 15 }
    requires inside { relative.now.at + relative.now.len ≤ length own.now }
    ensures bytes { result.items ≡ spec.with_bytes relative.now.at (values.low_bytes relative.now.len number) own.now }
    ensures len { array_vec_len result ≡ length own.now }
{
    let at = usize::from(relative.at);
    let end = at + usize::from(relative.len);
    let mut bytes = ArrayVec::new();
    append_few(&mut bytes, &own[..at]);
    push_low_bytes(&mut bytes, relative.len, number);
    append_few(&mut bytes, &own[end..]);
    bytes
}

/// Returns the bytes of the instruction of a shape at the address `at`, so that it refers to `goal`: its own bytes but for those of its number, which
/// hold [`number_to`], cut to their length. An instruction without a number has its own bytes.
///
/// `own` has the bytes of the instruction, at most 15.
pub fn bytes_at(bits: Bits, own: &[u8], shape: &Shape, at: u64, goal: u64) -> ArrayVec<u8, 15>
    requires short { length own.now ≤ 15 }
    requires inside { StandsInside (length own.now) shape.now.relative }
    ensures bytes { result.items ≡ spec.bytes_at bits shape.now at goal own.now }
    ensures len { array_vec_len result ≡ length own.now }
{
    match &shape.relative {
        None => {
            let mut bytes = ArrayVec::new();
            append_few(&mut bytes, own);
            bytes
        }
        Some(relative) => {
            let number = distance_to(bits, shape.len, at, goal, relative);
            with_number(own, relative, number)
        }
    }
}
