//! The reading of some bytes.

ghost use Rattle.std.specs.Prelude.{◌≡◌, ◌+◌, ◌<◌, ◌≤◌, length, IsTrue, IfOk, Err};
ghost use Rattle.instruction_parts.specs.Front.{front_of, Known};
ghost use Rattle.prefixes.specs.Answer.{is_mode, mode_of};
ghost use Rattle.modrm_sib.specs.Answer.{answer_in};
ghost use Rattle.row_relation.specs.Spells.{IsReading, SpellsNothing};
ghost use Rattle.opcode_rows.specs.Table.{table};
ghost use Rattle.opcode_rows.specs.Allowed.{is_well_formed};
ghost use Rattle.opcode_rows.specs.Reading.{IsRead};
ghost use Rattle.decoder.specs.Answer.{reading_of, IsOnlyReading};
ghost use Rattle.decoder.specs.Cells.{cell_count, most_steps};

use crate::DecodeError;
use crate::by_mode::decode_onto;
use crate::cell::{cell_of, error_of};
use crate::found::{copy_of, read_found};
use instruction_parts::PrefixState;
use modrm_sib::UNREAD;
use prefixes::{NO_FRONT, PrefixError, mode_of, read_front_into, simple_front};
use std::sync::ledger::{Blank, Ledger};
use step_count::Steps;
use x86_values::{Bits, Decoded, wrap};

/// Decodes the instruction at the front of the bytes. Returns it with its length in bytes, 1 to 15.
///
/// `BITS` is the mode: 16, 32 or 64. `ip` is the address of the first byte; it wraps at the address size of the mode. The bytes spell no other
/// instruction and no other length.
///
/// Errors: `TooShort`: no instruction starts here yet, fewer than 15 bytes are given, and they end before the opcode byte, or more bytes could
/// complete an instruction. `Invalid`: no instruction starts here, whatever follows (Intel SDM volume 2, 2.1 to 2.3).
// Built into its callers, which take the result apart: so it is not copied once more.
#[inline(always)]
pub fn decode<const BITS: u32>(ip: u64, bytes: &[u8]) -> Result<Decoded, DecodeError>
    requires { IsTrue (is_mode BITS) }
    ensures reading { IsRead (mode_of BITS) ip bytes.now (reading_of result) }
    ensures length { IfOk result (λ d. (0 < d.len) × (d.len ≤ 15) × (d.len ≤ length bytes.now)) }
    ensures form { IfOk result (λ d. IsTrue (is_well_formed d.instr)) }
    ensures alone { IfOk result (λ d. IsOnlyReading (mode_of BITS) ip bytes.now d) }
{
    let mut decoded = UNREAD;
    match decode_onto(mode_of::<BITS>(), ip, bytes, &mut decoded) {
        Ok(()) => Ok(decoded),
        Err(error) => Err(error),
    }
}

/// Decodes the instruction at the front of some bytes with its own counter, and writes it to `out`. After an error `out` holds no instruction.
// A ledger is picked only at a call without const parameters, so the mode is a value here.
#[inline(always)]
pub(crate) fn read_uncounted<L: Ledger>(
    blank: Blank,
    bits: Bits,
    ip: u64,
    bytes: &[u8],
    out: &mut Decoded,
) -> Result<(), DecodeError>
    requires name { blank.name ≡ L.name }
    requires parts { blank.parts ≡ L.parts }
    requires some { 0 < L.parts }
    ensures reading { IsRead bits ip bytes.now (reading_of (answer_in result out.new)) }
    ensures length { IfOk (answer_in result out.new)
        (λ d. (0 < d.len) × (d.len ≤ 15) × (d.len ≤ length bytes.now)) }
    ensures form { IfOk (answer_in result out.new) (λ d. IsTrue (is_well_formed d.instr)) }
    ensures alone { IfOk (answer_in result out.new) (λ d. IsOnlyReading bits ip bytes.now d) }
{
    let mut steps = Steps::<L>::open(blank);
    match bits {
        Bits::B16 => read_counted::<16, L>(ip, bytes, out, &mut steps),
        Bits::B32 => read_counted::<32, L>(ip, bytes, out, &mut steps),
        Bits::B64 => read_counted::<64, L>(ip, bytes, out, &mut steps),
    }
}

/// Decodes like [`decode`], and counts each look-up of a row and each look-up in a node as a step.
///
/// An instruction takes 3 to 12 steps. An error takes at most 12, plus one for each row of the opcode byte, if there is one.
pub fn decode_counted<const BITS: u32, L: Ledger>(
    ip: u64,
    bytes: &[u8],
    steps: &mut Steps<L>,
) -> Result<Decoded, DecodeError>
    requires { IsTrue (is_mode BITS) }
    ensures reading { IsRead (mode_of BITS) ip bytes.now (reading_of result) }
    ensures length { IfOk result (λ d. (0 < d.len) × (d.len ≤ 15) × (d.len ≤ length bytes.now)) }
    ensures form { IfOk result (λ d. IsTrue (is_well_formed d.instr)) }
    ensures alone { IfOk result (λ d. IsOnlyReading (mode_of BITS) ip bytes.now d) }
    ensures instruction { IfOk result (λ d. (steps.old + 3 ≤ steps.new) × (steps.new ≤ steps.old + 12)) }
    ensures most { steps.new ≤ steps.old + most_steps (front_of (mode_of BITS) bytes.now) }
{
    let mut decoded = UNREAD;
    match read_counted::<BITS, L>(ip, bytes, &mut decoded, steps) {
        Ok(()) => Ok(decoded),
        Err(error) => Err(error),
    }
}

/// Reads and counts as [`decode_counted`], and writes the instruction to `out`: as a value it would be copied at each call on the way.
#[inline(never)]
fn read_counted<const BITS: u32, L: Ledger>(
    ip: u64,
    bytes: &[u8],
    out: &mut Decoded,
    steps: &mut Steps<L>,
) -> Result<(), DecodeError>
    requires { IsTrue (is_mode BITS) }
    ensures reading { IsRead (mode_of BITS) ip bytes.now (reading_of (answer_in result out.new)) }
    ensures length { IfOk (answer_in result out.new)
        (λ d. (0 < d.len) × (d.len ≤ 15) × (d.len ≤ length bytes.now)) }
    ensures form { IfOk (answer_in result out.new) (λ d. IsTrue (is_well_formed d.instr)) }
    ensures alone { IfOk (answer_in result out.new) (λ d. IsOnlyReading (mode_of BITS) ip bytes.now d) }
    ensures instruction { IfOk (answer_in result out.new)
        (λ d. (steps.old + 3 ≤ steps.new) × (steps.new ≤ steps.old + 12)) }
    ensures most { steps.new ≤ steps.old + most_steps (front_of (mode_of BITS) bytes.now) }
{
    let bits = mode_of::<BITS>();
    match simple_front(bits, bytes) {
        None => read_behind_any::<BITS, L>(ip, bytes, out, steps),
        Some(state) => read_known::<BITS, L>(wrap(bits, u128::from(ip)), &state, bytes, out, steps),
    }
}

/// Reads and counts as [`decode_counted`] behind any front.
#[cold]
#[inline(never)]
fn read_behind_any<const BITS: u32, L: Ledger>(
    ip: u64,
    bytes: &[u8],
    out: &mut Decoded,
    steps: &mut Steps<L>,
) -> Result<(), DecodeError>
    requires { IsTrue (is_mode BITS) }
    ensures reading { IsRead (mode_of BITS) ip bytes.now (reading_of (answer_in result out.new)) }
    ensures length { IfOk (answer_in result out.new)
        (λ d. (0 < d.len) × (d.len ≤ 15) × (d.len ≤ length bytes.now)) }
    ensures form { IfOk (answer_in result out.new) (λ d. IsTrue (is_well_formed d.instr)) }
    ensures alone { IfOk (answer_in result out.new) (λ d. IsOnlyReading (mode_of BITS) ip bytes.now d) }
    ensures instruction { IfOk (answer_in result out.new)
        (λ d. (steps.old + 3 ≤ steps.new) × (steps.new ≤ steps.old + 12)) }
    ensures most { steps.new ≤ steps.old + most_steps (front_of (mode_of BITS) bytes.now) }
{
    let bits = mode_of::<BITS>();
    let mut state = NO_FRONT;
    match read_front_into(bits, bytes, &mut state) {
        Err(PrefixError::Ended) => Err(DecodeError::TooShort),
        Err(PrefixError::Forbidden) => Err(DecodeError::Invalid),
        Ok(()) => read_known::<BITS, L>(wrap(bits, u128::from(ip)), &state, bytes, out, steps),
    }
}

/// Decodes the instruction of bytes with a known front. Only if there is none it looks at the rows of the cell, to distinguish the two errors.
#[inline(always)]
fn read_known<const BITS: u32, L: Ledger>(
    ip: u64,
    state: &PrefixState,
    bytes: &[u8],
    out: &mut Decoded,
    steps: &mut Steps<L>,
) -> Result<(), DecodeError>
    requires mode { IsTrue (is_mode BITS) }
    requires front { front_of (mode_of BITS) bytes.now ≡ Known state.now }
    ensures reading { IsReading table (mode_of BITS) ip bytes.now (reading_of (answer_in result out.new)) }
    ensures length { IfOk (answer_in result out.new)
        (λ d. (0 < d.len) × (d.len ≤ 15) × (d.len ≤ length bytes.now)) }
    ensures form { IfOk (answer_in result out.new) (λ d. IsTrue (is_well_formed d.instr)) }
    ensures instruction { IfOk (answer_in result out.new)
        (λ d. (steps.old + 3 ≤ steps.new) × (steps.new ≤ steps.old + 12)) }
    ensures most { steps.new ≤ steps.old + 12 + cell_count state.now }
{
    match read_found::<BITS, L>(ip, state, bytes, out, steps) {
        Some(()) => Ok(()),
        None => Err(copied_error(mode_of::<BITS>(), ip, state, bytes, steps)),
    }
}

/// Returns why bytes with a known front begin with no instruction, from a copy of the front.
#[inline(always)]
fn copied_error<L: Ledger>(
    bits: Bits,
    ip: u64,
    state: &PrefixState,
    bytes: &[u8],
    steps: &mut Steps<L>,
) -> DecodeError
    requires front { front_of bits bytes.now ≡ Known state.now }
    requires nothing { SpellsNothing table bits ip bytes.now }
    ensures reading { IsReading table bits ip bytes.now (reading_of (Err result)) }
    ensures steps { steps.new ≤ steps.old + cell_count state.now }
{
    let state = copy_of(state);
    error_of(bits, ip, &state, bytes, cell_of(&state), steps)
}
