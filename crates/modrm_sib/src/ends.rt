//! Whether more bytes can complete bytes that end after the opcode byte or after ModRM.

ghost use Rattle.std.specs.Prelude.{◌≡◌};
ghost use Rattle.modrm_sib.specs.Parts as spec;

use crate::parts::{parts_fit, takes_sib};
use instruction_parts::row_types::Row;
use instruction_parts::{ModRm, PrefixState, Sib};
use x86_values::Bits;

/// Whether some SIB can follow this ModRM. Of a SIB only the index decides.
#[cold]
#[inline(never)]
#[tactic(auto, unfolding(crate::specs::Parts::some_sib_fits))]
pub(crate) fn some_sib_fits(bits: Bits, row: &Row, state: &PrefixState, m: ModRm) -> bool
    ensures { result ≡ spec.some_sib_fits bits row.now state.now m }
{
    [0, 1, 2, 3, 4, 5, 6, 7].iter().any(|index| {
        let sib = Sib {
            scale: 0,
            index: *index,
            base: 0,
        };
        parts_fit(bits, row, state, Some(m), Some(sib))
    })
}

/// Returns whether the ModRM can follow the state, with some SIB if it requires one.
#[tactic(auto, unfolding(crate::specs::Parts::modrm_can_fit))]
fn modrm_can_fit(bits: Bits, row: &Row, state: &PrefixState, m: ModRm) -> bool
    ensures { result ≡ spec.modrm_can_fit bits row.now state.now m }
{
    if takes_sib(bits, row, state, m) {
        some_sib_fits(bits, row, state, m)
    } else {
        parts_fit(bits, row, state, Some(m), None)
    }
}

/// Whether some ModRM with this mod (`mode3`) and reg can.
#[tactic(auto, unfolding(crate::specs::Parts::some_rm_fits))]
fn some_rm_fits(bits: Bits, row: &Row, state: &PrefixState, mode3: u8, reg: u8) -> bool
    ensures { result ≡ spec.some_rm_fits bits row.now state.now mode3 reg }
{
    [0, 1, 2, 3, 4, 5, 6, 7].iter().any(|rm| {
        let m = ModRm {
            mode3,
            reg,
            rm: *rm,
        };
        modrm_can_fit(bits, row, state, m)
    })
}

/// Whether some ModRM with this mod (`mode3`) can.
#[tactic(auto, unfolding(crate::specs::Parts::some_reg_fits))]
fn some_reg_fits(bits: Bits, row: &Row, state: &PrefixState, mode3: u8) -> bool
    ensures { result ≡ spec.some_reg_fits bits row.now state.now mode3 }
{
    [0, 1, 2, 3, 4, 5, 6, 7]
        .iter()
        .any(|reg| some_rm_fits(bits, row, state, mode3, *reg))
}

/// Whether some ModRM can.
#[cold]
#[inline(never)]
#[tactic(auto, unfolding(crate::specs::Parts::some_modrm_fits))]
pub(crate) fn some_modrm_fits(bits: Bits, row: &Row, state: &PrefixState) -> bool
    ensures { result ≡ spec.some_modrm_fits bits row.now state.now }
{
    [0, 1, 2, 3]
        .iter()
        .any(|mode3| some_reg_fits(bits, row, state, *mode3))
}
