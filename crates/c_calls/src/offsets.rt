//! The parts of an instruction in its bytes.

ghost use Rattle.std.specs.Prelude.{◌≡◌};
ghost use Rattle.c_calls.specs.Numbers.{bits_numbered};
ghost use Rattle.c_calls.specs.Offsets as spec;

use crate::flat::{FlatOffsets, FlatPart};
use crate::numbers::bits_numbered;
use crate::refusal::{Refusal, refusal_status};
use decoder::DecodeError;
use decoder::byte_offsets::{self, ByteOffsets, Part};
use x86_values::Bits;

/// A part as a flat struct.
fn flat_part(part: Part) -> FlatPart
    ensures { result ≡ spec.flat_part part }
{
    FlatPart {
        at: part.at,
        len: part.len,
    }
}

/// All parts as a flat struct.
#[tactic(auto, unfolding(crate::specs::Offsets::flat_offsets))]
fn flat_offsets(offsets: &ByteOffsets) -> FlatOffsets
    ensures { result ≡ spec.flat_offsets offsets.now }
{
    let [first, second, third, fourth] = offsets.immediates;
    FlatOffsets {
        prefixes: flat_part(offsets.prefixes),
        lead: flat_part(offsets.lead),
        opcode: flat_part(offsets.opcode),
        modrm: flat_part(offsets.modrm),
        sib: flat_part(offsets.sib),
        displacement: flat_part(offsets.displacement),
        immediate0: flat_part(first),
        immediate1: flat_part(second),
        immediate2: flat_part(third),
        immediate3: flat_part(fourth),
    }
}

/// Writes the parts of the instruction at the front of some bytes in a known mode, and returns its length or the refusal.
fn offsets_into(bits: Bits, bytes: &[u8], parts: &mut FlatOffsets) -> i32
    ensures { spec.AreOffsetsIn bits bytes.now parts.old parts.new result }
{
    match byte_offsets::offsets(bits, 0, bytes) {
        Ok(found) => {
            *parts = flat_offsets(&found);
            i32::from(found.len)
        }
        Err(DecodeError::TooShort) => refusal_status(Refusal::TooShort),
        Err(DecodeError::Invalid) => refusal_status(Refusal::Invalid),
    }
}

/// Writes where the parts of the instruction at the front of some bytes lie, and returns its length.
pub fn offsets(bits: u32, bytes: &[u8], parts: &mut FlatOffsets) -> i32
    ensures { spec.AreOffsetsOf (bits_numbered bits) bytes.now parts.old parts.new result }
{
    match bits_numbered(bits) {
        None => refusal_status(Refusal::Mode),
        Some(bits) => offsets_into(bits, bytes, parts),
    }
}
