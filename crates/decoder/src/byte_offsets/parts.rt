//! The parts of the instruction at the front of some bytes.

ghost use Rattle.std.specs.Prelude.{◌≡◌, ◌+◌, ◌<◌, ◌≤◌, length, IsTrue};
ghost use Rattle.instruction_parts.specs.Bytes.{lead_bytes};
ghost use Rattle.instruction_parts.specs.Front.{front_of, Known};
ghost use Rattle.row_relation.specs.Spells.{Read};
ghost use Rattle.opcode_rows.specs.Allowed.{is_well_formed};
ghost use Rattle.opcode_rows.specs.Reading.{IsRead};
ghost use Rattle.decoder.specs.ByteOffsets.Offsets.{AreOffsets, IsOffsetsAnswer};

use crate::byte_offsets::layout::{ByteOffsets, offsets_by};
use crate::byte_offsets::tail::lengths_in;
use crate::{DecodeError, decode_in};
use instruction_parts::PrefixState;
use instruction_parts::sizes::state_size;
use opcode_rows::laws::well_formed_codes_are_in_the_table;
use opcode_rows::row_of;
use prefixes::read_front;
use row_fit::laws::{fits_each_condition, front_is_state};
use x86_values::{Bits, Decoded};

/// The front of bytes that an instruction is read from.
fn front_read(bits: Bits, ip: u64, bytes: &[u8], decoded: &Decoded) -> PrefixState
    requires { IsRead bits ip bytes.now (Read decoded.now) }
    ensures known { front_of bits bytes.now ≡ Known result }
    ensures short { result.used < 15 }
    ensures inside { result.used + 1 ≤ length bytes.now }
    ensures lead { length (lead_bytes result.map result.vex) ≤ result.used }
{
    front_is_state();
    match read_front(bits, bytes) {
        Ok(state) => state,
        Err(_) => unreachable!(),
    }
}

/// The parts of an instruction that is read from some bytes.
fn offsets_read(bits: Bits, ip: u64, bytes: &[u8], decoded: &Decoded) -> ByteOffsets
    requires reads { IsRead bits ip bytes.now (Read decoded.now) }
    requires form { IsTrue (is_well_formed decoded.now.instr) }
    ensures { AreOffsets bits ip bytes.now result }
{
    front_is_state();
    fits_each_condition();
    well_formed_codes_are_in_the_table();
    let row = row_of(decoded.instr.code);
    let state = front_read(bits, ip, bytes, decoded);
    let (_, tail) = bytes.split_at(usize::from(state.used) + 1);
    let lengths = lengths_in(bits, &row, &state, tail);
    offsets_by(lengths, state_size(bits, &row, &state), &row)
}

/// Returns where the parts of the instruction at the front of some bytes lie.
///
/// `ip` is the address of the first byte. It affects what the instruction means, not where its parts lie.
///
/// Errors are those of [`decode_in`].
///
/// ```
/// let mov = b"\x48\xc7\x40\x08\x01\x00\x00\x00"; // mov qword [rax+0x8], 0x1
/// let parts = offsets(Bits::B64, 0x40_1000, mov)?;
/// println!(rt; "{:?}", parts.displacement)?; // Part { at: 3, len: 1 }
/// println!(rt; "{:?}", parts.immediates[1])?; // Part { at: 4, len: 4 }
/// ```
pub fn offsets(bits: Bits, ip: u64, bytes: &[u8]) -> Result<ByteOffsets, DecodeError>
    ensures { IsOffsetsAnswer bits ip bytes.now result }
{
    match decode_in(bits, ip, bytes) {
        Ok(decoded) => Ok(offsets_read(bits, ip, bytes, &decoded)),
        Err(why) => Err(why),
    }
}
