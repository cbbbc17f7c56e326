//! The shape of an instruction without a row.

ghost use Rattle.std.specs.Prelude.{◌≡◌, ◌<◌, ◌≤◌, length, true, IsTrue, IfOk};
ghost use Rattle.unlisted.specs.Encodings as encodings;
ghost use Rattle.unlisted.specs.Measured as spec;
ghost use Rattle.unlisted.specs.Measured.{IsMeasured, IsNeverRead, ReadsNothing, StandsInside};

use crate::encodings::format_of;
use crate::moved::reference_size;
use crate::{MeasureError, Shape};
use decoder::{DecodeError, decode_in};
use x86_values::{Bits, wrap};

/// Whether no instruction of the table is read at the front of the bytes, whatever follows them.
fn is_never_read(bits: Bits, bytes: &[u8]) -> bool
    ensures yes { result ≡ true → IsNeverRead bits bytes.now }
    ensures no { IsNeverRead bits bytes.now → result ≡ true }
{
    match decode_in(bits, 0, bytes) {
        Ok(_) => false,
        Err(DecodeError::TooShort) => false,
        Err(DecodeError::Invalid) => true,
    }
}

/// Whether no instruction of the table is read at the front of the bytes.
fn reads_nothing(bits: Bits, bytes: &[u8]) -> bool
    ensures yes { result ≡ true → ReadsNothing bits bytes.now }
    ensures no { ReadsNothing bits bytes.now → result ≡ true }
{
    match decode_in(bits, 0, bytes) {
        Ok(_) => false,
        Err(_) => true,
    }
}

/// Returns the shape of the instruction at the front of the bytes if the opcode table leaves it out: its length, its kind, and its number that is
/// relative to the address after it.
///
/// The encoding formats alone determine the shape: EVEX, VEX, XOP, 3DNow!, and legacy opcode bytes and groups (Intel SDM volume 2, 2.3, 2.7 and
/// appendix A). Whether a processor has the instruction is not checked. Its opcode determines where control goes after it ([`crate::ShapeFlow`]): most
/// continue with the next instruction. The shape depends on its own bytes alone. Bytes at whose front an instruction of the table is read are not measured.
///
/// Errors: `Ended`: the bytes, fewer than 15, end inside an encoding that is measured, as far as they show. `Unknown`: no such encoding starts here, or
/// an instruction of the table does.
pub fn measure(bits: Bits, bytes: &[u8]) -> Result<Shape, MeasureError>
    ensures measured { IsMeasured bits bytes.now result }
    ensures length { IfOk result (λ s. (0 < s.len) × (s.len ≤ 15) × (s.len ≤ length bytes.now)) }
    ensures inside { IfOk result (λ s. StandsInside s.len s.relative) }
{
    match format_of(bits, bytes) {
        Err(MeasureError::Unknown) => Err(MeasureError::Unknown),
        Err(MeasureError::Ended) => {
            if reads_nothing(bits, bytes) {
                Err(MeasureError::Ended)
            } else {
                Err(MeasureError::Unknown)
            }
        }
        Ok(shape) => {
            if is_never_read(bits, &bytes[..shape.len as usize]) {
                Ok(shape)
            } else {
                Err(MeasureError::Unknown)
            }
        }
    }
}

/// Returns the address that the number of an instruction at `ip` refers to, if it has one: memory at RIP or EIP, or the target of a branch (XBEGIN, JKZD,
/// JKNZD). It wraps at 64 bits, at 32 bits for EIP, and for a branch at the address size of the mode.
pub fn target(bits: Bits, ip: u64, shape: &Shape) -> Option<u64>
    ensures { result ≡ spec.relative_target bits ip shape.now.len shape.now.relative }
{
    match shape.relative {
        None => None,
        Some(relative) => {
            let size = reference_size(bits, relative.to);
            let next = ip as u128 + shape.len as u128;
            Some(wrap(size, next + relative.distance as u128))
        }
    }
}
