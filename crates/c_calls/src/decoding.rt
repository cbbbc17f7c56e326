//! Reading an instruction.

ghost use Rattle.std.specs.Prelude.{◌≡◌};
ghost use Rattle.c_calls.specs.Numbers.{bits_numbered};
ghost use Rattle.c_calls.specs.Answers as spec;

use crate::flat::FlatInstr;
use crate::flatten::flat_into;
use crate::numbers::bits_numbered;
use crate::refusal::{Refusal, refusal_status};
use decoder::{DecodeError, UNREAD, decode_onto};
use x86_values::Bits;

/// Decodes the instruction at the front of some bytes, in a known mode, into a flat struct. Returns its length or the refusal.
fn decode_into(bits: Bits, ip: u64, bytes: &[u8], instr: &mut FlatInstr) -> i32
    ensures { spec.IsDecodedIn bits ip bytes.now instr.old instr.new result }
{
    let mut decoded = UNREAD;
    match decode_onto(bits, ip, bytes, &mut decoded) {
        Ok(()) => {
            flat_into(&decoded, instr);
            i32::from(decoded.len)
        }
        Err(DecodeError::TooShort) => refusal_status(Refusal::TooShort),
        Err(DecodeError::Invalid) => refusal_status(Refusal::Invalid),
    }
}

/// Decodes the instruction at the front of some bytes into a struct, and returns its length.
pub fn decode(bits: u32, ip: u64, bytes: &[u8], instr: &mut FlatInstr) -> i32
    ensures { spec.IsDecoded (bits_numbered bits) ip bytes.now instr.old instr.new result }
{
    match bits_numbered(bits) {
        None => refusal_status(Refusal::Mode),
        Some(bits) => decode_into(bits, ip, bytes, instr),
    }
}
