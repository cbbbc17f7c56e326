//! ModRM and SIB of the bytes after an opcode byte, and the lengths that follow.

ghost use Rattle.std.specs.Prelude.{◌≡◌, ◌+◌, ◌≤◌, length};
ghost use Rattle.instruction_parts.specs.Bytes.{lead_bytes, modrm_bytes, sib_bytes};
ghost use Rattle.modrm_sib.specs.Parts as parts;
ghost use Rattle.decoder.specs.ByteOffsets.Tails as spec;

use crate::byte_offsets::layout::Lengths;
use instruction_parts::bytes::lead_len;
use instruction_parts::row_types::Row;
use instruction_parts::sizes::{size_bytes, state_address_size};
use instruction_parts::{ModRm, PrefixState, Sib};
use modrm_sib::{modrm_of_byte, sib_of_byte};
use row_fit::fits::{has_modrm, reads_mode, reads_offset};
use row_fit::tail_fits::{displacement_bytes, needs_sib};
use x86_values::Bits;

/// Returns the ModRM at the front of the tail, if the row has one.
fn modrm_in(row: &Row, tail: &[u8]) -> Option<ModRm>
    ensures { result ≡ parts.modrm_in row.now tail.now }
{
    match tail.split_first() {
        None => None,
        Some((byte, _)) => if has_modrm(row) {
            Some(modrm_of_byte(*byte))
        } else {
            None
        },
    }
}

/// Whether a SIB follows this ModRM.
#[tactic(auto, unfolding(modrm_sib::specs::Parts::takes_sib))]
fn takes_sib(bits: Bits, row: &Row, state: &PrefixState, modrm: ModRm) -> bool
    ensures { result ≡ parts.takes_sib bits row.now state.now modrm }
{
    reads_mode(row) && needs_sib(state_address_size(bits, state), modrm)
}

/// Returns the SIB, if the ModRM before it requires one.
#[tactic(auto, unfolding(crate::specs::ByteOffsets::Tails::sib_in))]
fn sib_in(
    bits: Bits,
    row: &Row,
    state: &PrefixState,
    modrm: Option<ModRm>,
    tail: &[u8],
) -> Option<Sib>
    ensures { result ≡ spec.sib_in bits row.now state.now modrm tail.now }
{
    match modrm {
        None => None,
        Some(modrm) => if takes_sib(bits, row, state, modrm) {
            match tail.get(1) {
                None => None,
                Some(byte) => Some(sib_of_byte(*byte)),
            }
        } else {
            None
        },
    }
}

/// Returns the number of bytes of the displacement that ModRM and SIB require, or of an absolute address.
#[tactic(auto, unfolding(modrm_sib::specs::Parts::displacement_len))]
fn displacement_len(
    bits: Bits,
    row: &Row,
    state: &PrefixState,
    modrm: Option<ModRm>,
    sib: Option<Sib>,
) -> u8
    ensures value { result ≡ parts.displacement_len bits row.now state.now modrm sib }
    ensures short { result ≤ 8 }
{
    let size = state_address_size(bits, state);
    match modrm {
        None => if reads_offset(row) {
            size_bytes(size)
        } else {
            0
        },
        Some(modrm) => if reads_mode(row) {
            displacement_bytes(size, modrm, sib)
        } else {
            0
        },
    }
}

/// The bytes of a ModRM that may be absent.
fn modrm_len(modrm: Option<ModRm>) -> u8
    ensures value { result ≡ length (modrm_bytes modrm) }
    ensures short { result ≤ 1 }
{
    match modrm {
        None => 0,
        Some(_) => 1,
    }
}

/// The bytes of a SIB that may be absent.
fn sib_len(sib: Option<Sib>) -> u8
    ensures value { result ≡ length (sib_bytes sib) }
    ensures short { result ≤ 1 }
{
    match sib {
        None => 0,
        Some(_) => 1,
    }
}

/// The lengths of the parts of a front and a tail.
#[tactic(auto, unfolding(crate::specs::ByteOffsets::Tails::lengths_in))]
pub(crate) fn lengths_in(bits: Bits, row: &Row, state: &PrefixState, tail: &[u8]) -> Lengths
    requires { length (lead_bytes state.now.map state.now.vex) ≤ state.now.used }
    ensures value { result ≡ spec.lengths_in bits row.now state.now tail.now }
    ensures front { result.prefixes + result.lead ≡ state.now.used }
    ensures modrm { result.modrm ≤ 1 }
    ensures sib { result.sib ≤ 1 }
    ensures displacement { result.displacement ≤ 8 }
{
    let lead = lead_len(state.map, state.vex);
    let modrm = modrm_in(row, tail);
    let sib = sib_in(bits, row, state, modrm, tail);
    Lengths {
        prefixes: state.used - lead,
        lead,
        modrm: modrm_len(modrm),
        sib: sib_len(sib),
        displacement: displacement_len(bits, row, state, modrm, sib),
    }
}
