//! Whether a spelling fits a row.

ghost use Rattle.std.specs.Prelude.{◌≡◌, ◌<◌, IsTrue, nat_lt};
ghost use Rattle.row_fit.specs.Fits as spec;
ghost use Rattle.row_fit.specs.Sound.{sound};

use crate::fits::{is_map_one, prefixes_fit, same_map, state_fits, vex_fits};
use crate::tail_fits::tail_fits;
use instruction_parts::bytes::state_of;
use instruction_parts::row_types::{Map, Row};
use instruction_parts::spelling::{ModRm, Sib, Spelling, Vex};
use x86_values::Bits;

/// Each byte is below 256, as its type says.
fn are_bytes(bytes: &[u8]) -> bool
    ensures { result ≡ spec.are_bytes bytes.now }
{
    // Read, since what the type says is known of bytes that are read.
    let _bytes = bytes;
    true
}

/// A byte is below 256, as its type says.
fn is_byte(b: u8) -> bool
    ensures { result ≡ nat_lt b 256 }
{
    // Read, for the same reason.
    let _b = b;
    true
}

/// The fields of a VEX are values of theirs.
#[tactic(auto, unfolding(crate::specs::Fits::vex_in_range))]
fn vex_in_range(vex: Option<Vex>) -> bool
    ensures { result ≡ spec.vex_in_range vex }
{
    match vex {
        None => true,
        Some(v) => {
            v.vvvv < 16
                && v.pp < 4
                && !is_map_one(v.map)
                && (v.three || (!v.x && !v.b && !v.w && same_map(v.map, Map::M0f)))
        }
    }
}

/// The fields of a ModRM are values of theirs.
#[tactic(auto, unfolding(crate::specs::Fits::modrm_in_range))]
fn modrm_in_range(m: Option<ModRm>) -> bool
    ensures { result ≡ spec.modrm_in_range m }
{
    match m {
        None => true,
        Some(m) => m.mode3 < 4 && m.reg < 8 && m.rm < 8,
    }
}

/// The fields of a SIB are values of theirs.
#[tactic(auto, unfolding(crate::specs::Fits::sib_in_range))]
fn sib_in_range(s: Option<Sib>) -> bool
    ensures { result ≡ spec.sib_in_range s }
{
    match s {
        None => true,
        Some(s) => s.scale < 4 && s.index < 8 && s.base < 8,
    }
}

/// Each part of a spelling is a value of its field.
#[tactic(auto, unfolding(crate::specs::Fits::fields_in_range))]
fn fields_in_range(s: &Spelling) -> bool
    ensures { result ≡ spec.fields_in_range s.now }
{
    are_bytes(s.prefixes.as_slice())
        && vex_in_range(s.vex)
        && is_byte(s.opcode)
        && modrm_in_range(s.modrm)
        && sib_in_range(s.sib)
        && are_bytes(s.disp.as_slice())
        && are_bytes(s.imm.as_slice())
}

/// Returns whether a spelling fits a row in a mode.
#[tactic(auto, unfolding(crate::specs::Fits::fits))]
pub fn row_fits(bits: Bits, row: &Row, s: &Spelling) -> bool
    requires { IsTrue (sound row.now) }
    ensures { result ≡ spec.fits bits row.now s.now }
{
    let state = state_of(bits, row, s);
    state_fits(bits, row, &state)
        && prefixes_fit(bits, s.prefixes.as_slice())
        && vex_fits(bits, row, s.prefixes.as_slice(), s.vex, s.opcode, s.modrm)
        && tail_fits(bits, row, &state, s.modrm, s.sib, s.disp.len(), s.imm.len())
        && fields_in_range(s)
}
