//! The parts after an opcode byte, and when they fit a row.

ghost use Rattle.std.specs.Prelude.{◌≡◌, IsTrue};
ghost use Rattle.modrm_sib.specs.Parts as spec;
ghost use Rattle.row_fit.specs.Fits as fits;

use instruction_parts::row_types::Row;
use instruction_parts::sizes::{is_vex_row, size_bytes, state_address_size};
use instruction_parts::{ModRm, PrefixState, Sib};
use row_fit::fits::{
    opcode_allows, opcode_and_modrm_fit, reads_mode, reads_offset, same_map, state_fits,
};
use row_fit::tail_fits::{displacement_bytes, lock_fits, needs_sib, registers_fit};
use x86_values::Bits;

/// Returns the fields of a ModRM byte: mod in bits 6 and 7, reg in bits 3 to 5, rm in bits 0 to 2 (Intel SDM volume 2, 2.1.3).
#[inline]
#[tactic(auto, unfolding(crate::specs::Parts::modrm_of_byte, row_fit::specs::Fits::modrm_in_range))]
pub fn modrm_of_byte(b: u8) -> ModRm
    ensures fields { result ≡ spec.modrm_of_byte b }
    ensures in_range { IsTrue (fits.modrm_in_range (Some result)) }
{
    ModRm {
        mode3: b / 64,
        reg: b / 8 % 8,
        rm: b % 8,
    }
}

/// Returns the fields of a SIB byte: scale in bits 6 and 7, index in bits 3 to 5, base in bits 0 to 2 (Intel SDM volume 2, 2.1.3).
#[inline]
#[tactic(auto, unfolding(crate::specs::Parts::sib_of_byte, row_fit::specs::Fits::sib_in_range))]
pub fn sib_of_byte(b: u8) -> Sib
    ensures fields { result ≡ spec.sib_of_byte b }
    ensures in_range { IsTrue (fits.sib_in_range (Some result)) }
{
    Sib {
        scale: b / 64,
        index: b / 8 % 8,
        base: b % 8,
    }
}

/// Whether a SIB follows this ModRM.
#[inline]
#[tactic(auto, unfolding(crate::specs::Parts::takes_sib))]
pub(crate) fn takes_sib(bits: Bits, row: &Row, state: &PrefixState, m: ModRm) -> bool
    ensures { result ≡ spec.takes_sib bits row.now state.now m }
{
    needs_sib(state_address_size(bits, state), m) && reads_mode(row)
}

/// The number of bytes of the displacement.
#[inline]
#[tactic(auto, unfolding(crate::specs::Parts::displacement_len))]
pub(crate) fn displacement_len(
    bits: Bits,
    row: &Row,
    state: &PrefixState,
    m: Option<ModRm>,
    sib: Option<Sib>,
) -> u8
    ensures { result ≡ spec.displacement_len bits row.now state.now m sib }
{
    let asize = state_address_size(bits, state);
    match m {
        None => if reads_offset(row) {
            size_bytes(asize)
        } else {
            0
        },
        Some(m) => {
            let len = displacement_bytes(asize, m, sib);
            if len == 0 || reads_mode(row) { len } else { 0 }
        }
    }
}

/// Whether map and VEX of the state are those of the row, and a legacy opcode byte allows the ModRM.
#[tactic(auto, unfolding(crate::specs::Parts::lead_fits))]
fn lead_fits(bits: Bits, row: &Row, state: &PrefixState, m: Option<ModRm>) -> bool
    ensures { result ≡ spec.lead_fits bits row.now state.now m }
{
    same_map(state.map, row.map)
        && match state.vex {
            None => !is_vex_row(row) && opcode_allows(bits, row.map, state.opcode, m),
            Some(_) => is_vex_row(row),
        }
}

/// Returns whether the row accepts this ModRM and SIB after the state.
#[inline(always)]
#[tactic(auto, unfolding(crate::specs::Parts::parts_fit))]
pub(crate) fn parts_fit(
    bits: Bits,
    row: &Row,
    state: &PrefixState,
    m: Option<ModRm>,
    sib: Option<Sib>,
) -> bool
    ensures { result ≡ spec.parts_fit bits row.now state.now m sib }
{
    state_fits(bits, row, state)
        && lead_fits(bits, row, state, m)
        && opcode_and_modrm_fit(row, state.opcode, m)
        && lock_fits(row, state, m)
        && registers_fit(bits, row, state, m, sib)
}
