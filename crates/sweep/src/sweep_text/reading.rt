//! What is read at an offset of some code.

ghost use Rattle.std.specs.Prelude.{◌≡◌, ◌<◌, ◌≤◌, length, IsTrue, IfOk};
ghost use Rattle.opcode_rows.specs.Allowed.{is_well_formed};
ghost use Rattle.decoder.specs.Answer.{reading_of};
ghost use Rattle.opcode_rows.specs.Sweep as spec;
ghost use Rattle.sweep.specs.SweepText.Sweeping.{TakesSome};

use decoder::reading_laws::wrapped_addresses_read_alike;
use decoder::{DecodeError, decode_onto};
use x86_values::{Bits, Decoded, wrap};

/// Decodes the bytes at an offset of code whose first byte has the address `base`. Addresses wrap in the mode.
#[inline]
#[tactic(auto, using(crate::proofs::SweepText::Covering::takes_some))]
pub fn read_at(bits: Bits, base: u64, offset: usize, bytes: &[u8]) -> Result<Decoded, DecodeError>
    ensures reading { spec.IsReadAt bits base offset bytes.now (reading_of result) }
    ensures length { IfOk result (λ d. (0 < d.len) × (d.len ≤ 15) × (d.len ≤ length bytes.now)) }
    ensures well { IfOk result (λ d. IsTrue (is_well_formed d.instr)) }
    ensures takes { 0 < length bytes.now → TakesSome (reading_of result) (length bytes.now) }
{
    decoder::read_at(bits, base, offset, bytes)
}

/// Decodes like [`read_at`], but writes the result to `out`, so that no instruction is copied. An instruction that is there is written over.
#[inline(always)]
#[tactic(auto, using(crate::proofs::SweepText::Covering::takes_some))]
pub fn read_onto(
    bits: Bits,
    base: u64,
    offset: usize,
    bytes: &[u8],
    out: &mut Result<Decoded, DecodeError>,
)
    ensures reading { spec.IsReadAt bits base offset bytes.now (reading_of out.new) }
    ensures length { IfOk out.new (λ d. (0 < d.len) × (d.len ≤ 15) × (d.len ≤ length bytes.now)) }
    ensures well { IfOk out.new (λ d. IsTrue (is_well_formed d.instr)) }
    ensures takes { 0 < length bytes.now → TakesSome (reading_of out.new) (length bytes.now) }
{
    wrapped_addresses_read_alike();
    let address = wrap(bits, u128::from(base) + offset as u128);
    match out {
        Ok(place) => match decode_onto(bits, address, bytes, place) {
            Ok(()) => {}
            Err(error) => *out = Err(error),
        },
        Err(_) => *out = read_at(bits, base, offset, bytes),
    }
}

/// Returns the length in bytes of an item of the sweep: that of its instruction, or 1 if none starts there.
#[inline]
pub fn item_len(reading: &Result<Decoded, DecodeError>) -> usize
    ensures { result ≡ spec.item_len (reading_of reading.now) }
{
    match reading {
        Ok(d) => usize::from(d.len),
        Err(_) => 1,
    }
}
