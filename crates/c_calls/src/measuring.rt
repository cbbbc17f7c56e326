//! The shape of an instruction without a row.

ghost use Rattle.std.specs.Prelude.{◌≡◌};
ghost use Rattle.c_calls.specs.Measuring as spec;
ghost use Rattle.c_calls.specs.Numbers.{bits_numbered};

use crate::flat::FlatShape;
use crate::numbers::bits_numbered;
use crate::refusal::{Refusal, refusal_status};
use unlisted::{Kind, MeasureError, Reference, Shape};
use x86_values::Bits;

/// The number of a kind.
fn kind_number(kind: Kind) -> u8
    ensures { result ≡ spec.kind_number kind }
{
    match kind {
        Kind::Evex => 0,
        Kind::Mask => 1,
        Kind::Vex => 2,
        Kind::Xop => 3,
        Kind::Now3d => 4,
        Kind::Legacy => 5,
    }
}

/// The number of what a number refers to.
fn reference_number(reference: Reference) -> u8
    ensures { result ≡ spec.reference_number reference }
{
    match reference {
        Reference::Rip => 1,
        Reference::Eip => 2,
        Reference::Branch => 3,
    }
}

/// A shape as a flat struct.
fn flat_shape(shape: &Shape) -> FlatShape
    ensures { result ≡ spec.flat_shape shape.now }
{
    let kind = kind_number(shape.kind);
    match shape.relative {
        None => FlatShape {
            distance: 0,
            kind,
            reference: 0,
            at: 0,
            len: 0,
        },
        Some(relative) => FlatShape {
            distance: relative.distance,
            kind,
            reference: reference_number(relative.to),
            at: relative.at,
            len: relative.len,
        },
    }
}

/// Writes the shape of the instruction at the front of some bytes in a known mode, and returns its length or the refusal.
fn measure_into(bits: Bits, bytes: &[u8], shape: &mut FlatShape) -> i32
    ensures { spec.IsShapeIn bits bytes.now shape.old shape.new result }
{
    match unlisted::measure(bits, bytes) {
        Ok(found) => {
            *shape = flat_shape(&found);
            i32::from(found.len)
        }
        Err(MeasureError::Ended) => refusal_status(Refusal::TooShort),
        Err(MeasureError::Unknown) => refusal_status(Refusal::Invalid),
    }
}

/// Writes the shape of the instruction at the front of some bytes if the table leaves it out, and returns its length.
pub fn measure(bits: u32, bytes: &[u8], shape: &mut FlatShape) -> i32
    ensures { spec.IsShapeOf (bits_numbered bits) bytes.now shape.old shape.new result }
{
    match bits_numbered(bits) {
        None => refusal_status(Refusal::Mode),
        Some(bits) => measure_into(bits, bytes, shape),
    }
}
