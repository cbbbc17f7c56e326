//! The block of an instruction without a row, at a place that the caller chooses.

ghost use Rattle.std.specs.Prelude.{◌≡◌, ◌+◌, ◌<◌, ◌≤◌, ◌^◌, ◌++◌, true, length, take, drop, Some, IfOk, IfErr};
ghost use Rattle.arrayvec.specs.ArrayVec.{array_vec_len};
ghost use Rattle.x86_values.specs.Wrapping.{width};
ghost use Rattle.plain_spelling.specs.Values as values;
ghost use Rattle.unlisted.specs.Measured as measured;
ghost use Rattle.unlisted.specs.Measured.{StandsInside};
ghost use Rattle.step_slots.specs.UnlistedStep as spec;
ghost use Rattle.step_slots.specs.UnlistedStep.{IsJumped, IsNumberFar, IsShapeStood, IsUnlistedStood, Reaches};

use crate::block::jump_to;
use arrayvec::ArrayVec;
use encoder::encode;
use instruction_parts::append::append_few;
use move_goals::passes;
use plain_spelling::numbers::{distance, is_extended_of, push_low_bytes};
use thiserror::Error;
use unlisted::{MeasureError, Reference, Relative, Shape, measure};
use x86_values::{Bits, wrap};

/// The bytes of a block: at most 15 of the instruction and 5 of the jump back.
type StepBytes = ArrayVec<u8, 20>;

/// The block of an instruction without a row at an address.
#[derive(Drop)]
pub struct UnlistedStep {
    /// The bytes of the instruction and of the jump back to the address after the original instruction.
    pub bytes: ArrayVec<u8, 20>,
    /// The length of the instruction in bytes: the offset of the jump back. When control is there, the instruction is complete; before, it has not
    /// happened.
    pub len: u8,
}

/// Why an instruction without a row has no block at an address.
#[derive(Clone, Copy, PartialEq, Eq, Debug, Error)]
pub enum UnlistedStepError {
    /// The bytes begin with no instruction that is measured.
    #[error("{0}")]
    NotMeasured(MeasureError),
    /// The block would end at this address, which passes the address space of the mode.
    #[error("the block ends at {end:#x}, past the address space")]
    Wraps { end: u128 },
    /// The instruction does not reach from the place what it refers to, or the jump back its target: this address.
    #[error("cannot reach {target:#x}")]
    TooFar { target: u64 },
}

/// How many bytes the jump back has.
fn jump_len(bits: Bits) -> u8
    ensures value { result ≡ spec.jump_len bits }
    ensures some { 0 < result }
    ensures few { result ≤ 5 }
{
    match bits {
        Bits::B16 => 3,
        Bits::B32 | Bits::B64 => 5,
    }
}

/// The size of the address that a number refers to.
fn reference_size(bits: Bits, to: Reference) -> Bits
    ensures { result ≡ measured.reference_size bits to }
{
    match to {
        Reference::Rip => Bits::B64,
        Reference::Eip => Bits::B32,
        Reference::Branch => bits,
    }
}

/// Whether `len` bytes, sign-extended, hold a number of a size.
fn is_held(len: u8, size: Bits, number: u64) -> bool
    requires { number < 2 ^ width size }
    ensures { result ≡ values.is_extended_of len (width size) number }
{
    len > 8 || is_extended_of(len, size, number)
}

/// The number with which an instruction of `len` bytes refers from a place to the address that it refers to at `ip`, or that address if the bytes of
/// the number do not hold it.
fn number_at(bits: Bits, ip: u64, place: u64, len: u8, relative: &Relative) -> Result<u64, u64>
    requires { place + len < 2 ^ 64 }
    ensures number { IfOk result (λ n. (n ≡ spec.number_at bits ip place len relative.now) × (spec.number_fits bits ip place len relative.now ≡ true)) }
    ensures far { IfErr result (λ t. IsNumberFar bits ip place len (Some relative.now) t) }
{
    let size = reference_size(bits, relative.to);
    let next = u128::from(ip) + u128::from(len);
    let target = wrap(size, next + u128::from(relative.distance));
    let number = distance(size, place + u64::from(len), target);
    if is_held(relative.len, size, number) {
        Ok(number)
    } else {
        Err(target)
    }
}

/// The bytes of an instruction with another number.
fn with_number(own: &[u8], relative: &Relative, number: u64) -> StepBytes
    requires short { length own.now ≤ 15 }
    requires inside { relative.now.at + relative.now.len ≤ length own.now }
    ensures bytes { result.items ≡ take relative.now.at own.now ++ (values.low_bytes relative.now.len number ++ drop (relative.now.at + relative.now.len) own.now) }
    ensures len { array_vec_len result ≡ length own.now }
{
    let at = usize::from(relative.at);
    let end = at + usize::from(relative.len);
    let mut bytes = StepBytes::new();
    append_few(&mut bytes, &own[..at]);
    push_low_bytes(&mut bytes, relative.len, number);
    append_few(&mut bytes, &own[end..]);
    bytes
}

/// The bytes of an instruction at a place, or the address that it does not reach from there.
fn bytes_at(
    bits: Bits,
    ip: u64,
    own: &[u8],
    place: u64,
    relative: Option<Relative>,
) -> Result<StepBytes, u64>
    requires short { length own.now ≤ 15 }
    requires inside { StandsInside (length own.now) relative }
    requires place { place + length own.now < 2 ^ 64 }
    ensures bytes { IfOk result (λ bytes. (bytes.items ≡ spec.bytes_at bits ip place (length own.now) relative own.now) × Reaches bits ip place (length own.now) relative) }
    ensures len { IfOk result (λ bytes. array_vec_len bytes ≡ length own.now) }
    ensures far { IfErr result (λ target. IsNumberFar bits ip place (length own.now) relative target) }
{
    match relative {
        None => {
            let mut bytes = StepBytes::new();
            append_few(&mut bytes, own);
            Ok(bytes)
        }
        Some(relative) => match number_at(bits, ip, place, own.len() as u8, &relative) {
            Ok(number) => Ok(with_number(own, &relative, number)),
            Err(target) => Err(target),
        },
    }
}

/// The block whose instruction has these bytes: with the jump back, if that reaches.
fn with_jump(
    bits: Bits,
    ip: u64,
    place: u64,
    instruction: StepBytes,
    len: u8,
) -> Result<UnlistedStep, UnlistedStepError>
    requires len { array_vec_len instruction ≡ len }
    requires short { len ≤ 15 }
    requires place { place + len < 2 ^ 64 }
    ensures jumped { IsJumped bits ip place len instruction.items result }
    ensures len { IfOk result (λ step. array_vec_len step.bytes ≡ step.len + spec.jump_len bits) }
    ensures short { IfOk result (λ step. array_vec_len step.bytes ≤ 20) }
{
    move_goals::moved_targets::laws::spellings_are_moved();
    move_goals::branch_forms::laws::pieces_have_their_lengths();
    let back = wrap(bits, u128::from(ip) + u128::from(len));
    match encode(bits, place + u64::from(len), &jump_to(bits, back)) {
        Ok(jump) => {
            let mut bytes = instruction;
            append_few(&mut bytes, &jump);
            Ok(UnlistedStep { bytes, len })
        }
        Err(_) => Err(UnlistedStepError::TooFar { target: back }),
    }
}

/// The block of an instruction with these bytes and this shape at a place.
fn stand_shape(
    bits: Bits,
    ip: u64,
    own: &[u8],
    place: u64,
    shape: &Shape,
) -> Result<UnlistedStep, UnlistedStepError>
    requires len { length own.now ≡ shape.now.len }
    requires short { shape.now.len ≤ 15 }
    requires inside { StandsInside shape.now.len shape.now.relative }
    ensures answer { IsShapeStood bits ip own.now place shape.now result }
    ensures len { IfOk result (λ step. array_vec_len step.bytes ≡ step.len + spec.jump_len bits) }
    ensures short { IfOk result (λ step. array_vec_len step.bytes ≤ 20) }
{
    let end = u128::from(place) + u128::from(shape.len) + u128::from(jump_len(bits));
    if passes(bits, end) {
        return Err(UnlistedStepError::Wraps { end });
    }
    match bytes_at(bits, ip, own, place, shape.relative) {
        Ok(bytes) => with_jump(bits, ip, place, bytes, shape.len),
        Err(target) => Err(UnlistedStepError::TooFar { target }),
    }
}

/// Returns the block at an address of the instruction at the front of the bytes, if the opcode table leaves it out (`unlisted::measure`): its bytes, and a
/// near jump back to the address after the original instruction, at `ip`.
///
/// If it has a number that is relative to the address after it, that is set anew, so that it refers to the same address: memory at RIP or EIP, or for
/// XBEGIN the instruction at which an aborted transaction continues. All other bytes stay.
///
/// The block has the length of the instruction plus 5 bytes, in 16-bit mode plus 3. The table's own instructions are stepped by
/// [`step_at`](crate::step_at).
///
/// Errors, in this order: the bytes begin with no instruction that is measured; the block would end past the address space of the mode; the
/// instruction does not reach its address from the place; the jump back does not reach. Nothing is out of reach outside 64-bit mode, except for an
/// XBEGIN with a number of 16 bits in 32-bit mode.
pub fn step_unlisted_at(
    bits: Bits,
    ip: u64,
    bytes: &[u8],
    place: u64,
) -> Result<UnlistedStep, UnlistedStepError>
    ensures answer { IsUnlistedStood bits ip bytes.now place result }
    ensures len { IfOk result (λ step. array_vec_len step.bytes ≡ step.len + spec.jump_len bits) }
    ensures short { IfOk result (λ step. array_vec_len step.bytes ≤ 20) }
{
    match measure(bits, bytes) {
        Ok(shape) => stand_shape(bits, ip, &bytes[..usize::from(shape.len)], place, &shape),
        Err(why) => Err(UnlistedStepError::NotMeasured(why)),
    }
}
