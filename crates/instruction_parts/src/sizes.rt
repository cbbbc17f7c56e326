//! Operand size, address size and the bits of REX and VEX.

ghost use Rattle.std.specs.Prelude.{◌≡◌, ◌<◌};
ghost use Rattle.instruction_parts.specs.Sizes as spec;
ghost use Rattle.instruction_parts.specs.Counting.{bit_of, rex_bit};

use crate::counting::is_64;
use crate::row_types::{Row, RowKind};
use crate::spelling::PrefixState;
use x86_values::Bits;

/// Returns bit `n` of a byte.
#[inline]
pub fn bit_of_byte(n: u8, b: u8) -> bool
    requires { n < 8 }
    ensures { result ≡ bit_of n b }
{
    (b >> n) % 2 == 1
}

/// Returns bit `n` of the effective REX, or 0 without one.
#[inline]
pub fn bit_of_rex(n: u8, rex: Option<u8>) -> bool
    requires { n < 8 }
    ensures { result ≡ rex_bit n rex }
{
    match rex {
        Some(b) => bit_of_byte(n, b),
        None => false,
    }
}

/// Returns whether the row allows LOCK.
#[inline]
pub fn is_lockable(row: &Row) -> bool
    ensures { result ≡ spec.is_lockable row.now }
{
    row.marks.0 & 1 == 1
}

/// Returns whether the row has the mark `ADDRESS`.
#[inline]
pub fn has_address_mark(row: &Row) -> bool
    ensures { result ≡ spec.has_address_mark row.now }
{
    row.marks.0 & 2 == 2
}

/// Returns whether the row has the mark `CARET`.
#[inline]
pub fn has_caret(row: &Row) -> bool
    ensures { result ≡ spec.has_caret row.now }
{
    row.marks.0 & 8 == 8
}

/// Returns whether the row has the mark `BANG`.
#[inline]
pub fn has_bang(row: &Row) -> bool
    ensures { result ≡ spec.has_bang row.now }
{
    row.marks.0 & 16 == 16
}

/// Returns whether the row exists in the mode.
#[inline]
#[tactic(auto, unfolding(crate::specs::Sizes::exists_in))]
pub fn exists_in(bits: Bits, row: &Row) -> bool
    ensures { result ≡ spec.exists_in bits row.now }
{
    match bits {
        Bits::B16 => row.modes.0 & 1 == 1,
        Bits::B32 => row.modes.0 & 2 == 2,
        Bits::B64 => row.modes.0 & 4 == 4,
    }
}

/// Returns whether the row is a VEX row.
#[inline]
pub fn is_vex_row(row: &Row) -> bool
    ensures { result ≡ spec.is_vex_row row.now }
{
    match row.kind {
        RowKind::Legacy => false,
        RowKind::Vex => true,
    }
}

/// Returns the operand size of a row in a mode, with or without REX.W and 66.
#[inline]
#[tactic(auto, unfolding(crate::specs::Sizes::operand_size))]
pub fn operand_size(bits: Bits, row: &Row, w: bool, size66: bool) -> Bits
    ensures { result ≡ spec.operand_size bits row.now w size66 }
{
    if is_64(bits) && has_bang(row) {
        Bits::B64
    } else if w {
        Bits::B64
    } else if size66 {
        match bits {
            Bits::B16 => Bits::B32,
            _ => Bits::B16,
        }
    } else if is_64(bits) && has_caret(row) {
        Bits::B64
    } else {
        match bits {
            Bits::B16 => Bits::B16,
            _ => Bits::B32,
        }
    }
}

/// Returns the address size of a mode, with or without 67.
#[inline]
#[tactic(auto, unfolding(crate::specs::Sizes::address_size))]
pub fn address_size(bits: Bits, addr67: bool) -> Bits
    ensures { result ≡ spec.address_size bits addr67 }
{
    match (bits, addr67) {
        (Bits::B16, false) => Bits::B16,
        (Bits::B16, true) => Bits::B32,
        (Bits::B32, false) => Bits::B32,
        (Bits::B32, true) => Bits::B16,
        (Bits::B64, false) => Bits::B64,
        (Bits::B64, true) => Bits::B32,
    }
}

/// Returns the number of bytes of a size.
#[inline]
pub fn size_bytes(bits: Bits) -> u8
    ensures { result ≡ spec.size_bytes bits }
{
    match bits {
        Bits::B16 => 2,
        Bits::B32 => 4,
        Bits::B64 => 8,
    }
}

/// Returns R, which adds 8 to ModRM.reg.
#[inline]
#[tactic(auto, unfolding(crate::specs::Sizes::bit_r))]
pub fn bit_r(state: &PrefixState) -> bool
    ensures { result ≡ spec.bit_r state.now }
{
    match state.vex {
        None => bit_of_rex(2, state.rex),
        Some(v) => v.r,
    }
}

/// Returns X, which adds 8 to SIB.index.
#[inline]
#[tactic(auto, unfolding(crate::specs::Sizes::bit_x))]
pub fn bit_x(state: &PrefixState) -> bool
    ensures { result ≡ spec.bit_x state.now }
{
    match state.vex {
        None => bit_of_rex(1, state.rex),
        Some(v) => v.x,
    }
}

/// Returns B, which adds 8 to ModRM.rm, to SIB.base or to the register in the opcode byte.
#[inline]
#[tactic(auto, unfolding(crate::specs::Sizes::bit_b))]
pub fn bit_b(bits: Bits, state: &PrefixState) -> bool
    ensures { result ≡ spec.bit_b bits state.now }
{
    is_64(bits)
        && match state.vex {
            None => bit_of_rex(0, state.rex),
            Some(v) => v.b,
        }
}

/// Returns W, which is ignored outside 64-bit mode.
#[inline]
#[tactic(auto, unfolding(crate::specs::Sizes::bit_w))]
pub fn bit_w(bits: Bits, state: &PrefixState) -> bool
    ensures { result ≡ spec.bit_w bits state.now }
{
    is_64(bits)
        && match state.vex {
            None => bit_of_rex(3, state.rex),
            Some(v) => v.w,
        }
}

/// Returns the operand size under the prefixes of a state.
#[inline]
#[tactic(auto, unfolding(crate::specs::Sizes::state_size))]
pub fn state_size(bits: Bits, row: &Row, state: &PrefixState) -> Bits
    ensures { result ≡ spec.state_size bits row.now state.now }
{
    operand_size(bits, row, bit_of_rex(3, state.rex), state.size66)
}

/// Returns the address size under the prefixes of a state.
#[inline]
pub fn state_address_size(bits: Bits, state: &PrefixState) -> Bits
    ensures { result ≡ spec.state_address_size bits state.now }
{
    address_size(bits, state.addr67)
}
