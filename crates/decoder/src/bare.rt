//! Rows without further conditions once a front and a ModRM lead to them.

ghost use Rattle.std.specs.Prelude.{◌≡◌, ◌<◌, slice_get, Some};
ghost use Rattle.decoder.specs.Bare as spec;

use crate::generated_bare_rows::BARE_ROWS;
use instruction_parts::PrefixState;
use instruction_parts::counting::is_64;
use opcode_rows::ROWS;
use x86_values::{Bits, Code};

/// What is known of a row in advance: whether a bare front that leads to it leaves no condition open, and the number of bytes of its immediates at
/// each operand size.
#[derive(Clone, Copy)]
pub(crate) struct BareRow {
    pub(crate) bare: bool,
    pub(crate) at_16: u8,
    pub(crate) at_32: u8,
    pub(crate) at_64: u8,
}

/// Returns whether a front has no LOCK and no VEX, and, outside 64-bit mode, no REX.
#[inline]
#[tactic(auto, unfolding(crate::specs::Bare::is_bare_front))]
pub(crate) fn is_bare_front(bits: Bits, state: &PrefixState) -> bool
    ensures { result ≡ spec.is_bare_front bits state.now }
{
    !state.lock && state.vex.is_none() && (is_64(bits) || state.rex.is_none())
}

/// What is known of the row of a code below `ROWS`.
#[inline]
pub(crate) fn bare_row(code: Code) -> BareRow
    requires { code.0 < ROWS }
    ensures { slice_get spec.bare_rows code.0 ≡ Some result }
{
    BARE_ROWS[code.0 as usize]
}

/// The bytes of a row's immediates at an operand size.
#[inline]
pub(crate) fn immediates_at(size: Bits, known: BareRow) -> u8
    ensures { result ≡ spec.immediates_at size known }
{
    match size {
        Bits::B16 => known.at_16,
        Bits::B32 => known.at_32,
        Bits::B64 => known.at_64,
    }
}
