//! The reading of some bytes in a mode that is a value.

ghost use Rattle.std.specs.Prelude.{◌<◌, ◌≤◌, length, IsTrue, IfOk};
ghost use Rattle.modrm_sib.specs.Answer.{answer_in};
ghost use Rattle.opcode_rows.specs.Allowed.{is_well_formed};
ghost use Rattle.opcode_rows.specs.Reading.{IsRead};
ghost use Rattle.opcode_rows.specs.Sweep.{IsReadAt};
ghost use Rattle.decoder.specs.Answer.{reading_of, IsOnlyReading};

use crate::DecodeError;
use crate::reading::read_uncounted;
use crate::reading_laws::wrapped_addresses_read_alike;
use modrm_sib::UNREAD;
use std::marker::Brand;
use std::sync::ledger::Blank;
use x86_values::{Bits, Decoded, wrap};

/// Decodes the instruction at the front of some bytes, in a mode that is known at run time. Results and errors are those of
/// [`decode`](crate::decode).
///
/// ```
/// let read = decode_in(Bits::B64, 0x40_1000, b"\x48\x89\xe5\xc3")?;
/// let instr = read.instr;
/// let text = Intel {
///     bits: Bits::B64,
///     instr,
/// };
/// println!(rt; "{} bytes: {text}", read.len)?; // 3 bytes: mov rbp, rsp
/// ```
pub fn decode_in(bits: Bits, ip: u64, bytes: &[u8]) -> Result<Decoded, DecodeError>
    ensures reading { IsRead bits ip bytes.now (reading_of result) }
    ensures length { IfOk result (λ d. (0 < d.len) × (d.len ≤ 15) × (d.len ≤ length bytes.now)) }
    ensures form { IfOk result (λ d. IsTrue (is_well_formed d.instr)) }
    ensures alone { IfOk result (λ d. IsOnlyReading bits ip bytes.now d) }
{
    let mut decoded = UNREAD;
    match decode_onto(bits, ip, bytes, &mut decoded) {
        Ok(()) => Ok(decoded),
        Err(error) => Err(error),
    }
}

/// Decodes like [`decode_in`], but writes the instruction to `out`, which saves a copy. After an error `out` holds no instruction.
#[inline(always)]
pub fn decode_onto(bits: Bits, ip: u64, bytes: &[u8], out: &mut Decoded) -> Result<(), DecodeError>
    ensures reading { IsRead bits ip bytes.now (reading_of (answer_in result out.new)) }
    ensures length { IfOk result (λ _. (0 < out.new.len) × (out.new.len ≤ 15) × (out.new.len ≤ length bytes.now)) }
    ensures form { IfOk result (λ _. IsTrue (is_well_formed out.new.instr)) }
    ensures alone { IfOk result (λ _. IsOnlyReading bits ip bytes.now out.new) }
{
    read_uncounted::<Brand>(Blank::new(1), bits, ip, bytes, out)
}

/// Decodes the bytes at an offset of code whose first byte has the address `base`. The address of the offset wraps in the mode.
#[inline]
pub fn read_at(bits: Bits, base: u64, offset: usize, bytes: &[u8]) -> Result<Decoded, DecodeError>
    ensures reading { IsReadAt bits base offset bytes.now (reading_of result) }
    ensures length { IfOk result (λ d. (0 < d.len) × (d.len ≤ 15) × (d.len ≤ length bytes.now)) }
    ensures well { IfOk result (λ d. IsTrue (is_well_formed d.instr)) }
{
    wrapped_addresses_read_alike();
    let ip = wrap(bits, u128::from(base) + offset as u128);
    decode_in(bits, ip, bytes)
}
