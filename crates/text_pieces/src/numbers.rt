//! Numbers of operands as pieces: the value, its bytes, and what it is there for.

ghost use Rattle.std.specs.Prelude.{◌≡◌, ◌≤◌, ◌<◌, ◌+◌, length, Some};
ghost use Rattle.arrayvec.specs.ArrayVec.{array_vec_len};
ghost use Rattle.row_fit.specs.Fits as fits;
ghost use Rattle.text_parts.specs.Numbers as text;
ghost use Rattle.text_pieces.specs.Lines.{laid, grown};
ghost use Rattle.text_pieces.specs.Numbers as spec;

use crate::line::close_some;
use crate::piece::{Kind, Number, PIECES, Printed, Role};
use instruction_parts::row_types::{OpKind, Row, Size};
use row_fit::tail_fits::kind_at;
use text_parts::numbers::append_number;
use text_parts::style::Style;
use text_parts::text::TEXT_LEN;
use x86_values::{Bits, Mem};

/// The bytes of a size in bits.
#[inline]
#[tactic(auto, unfolding(crate::specs::Numbers::bytes_of))]
fn bytes_of(bits: Bits) -> u8
    ensures { result ≡ spec.bytes_of bits }
{
    match bits {
        Bits::B16 => 2,
        Bits::B32 => 4,
        Bits::B64 => 8,
    }
}

/// The bytes of the operand size of a row.
#[tactic(auto, unfolding(crate::specs::Numbers::operand_bytes))]
fn operand_bytes(bits: Bits, size: Size) -> u8
    ensures { result ≡ spec.operand_bytes bits size }
{
    match size {
        Size::None => bytes_of(bits),
        Size::O16 => 2,
        Size::O32 | Size::W0 => 4,
        Size::O32or64 => match bits {
            Bits::B64 => 8,
            _ => 4,
        },
        Size::O64 | Size::W1 => 8,
    }
}

/// The bytes of an immediate of a kind.
#[tactic(auto, unfolding(crate::specs::Numbers::immediate_bytes))]
fn immediate_bytes(bits: Bits, size: Size, kind: OpKind) -> u8
    ensures { result ≡ spec.immediate_bytes bits size kind }
{
    match kind {
        OpKind::Ib | OpKind::One => 1,
        OpKind::Iw => 2,
        _ => operand_bytes(bits, size),
    }
}

/// The bytes of the offset of a far pointer.
#[inline]
#[tactic(auto, unfolding(crate::specs::Numbers::offset_bytes))]
fn offset_bytes(size: Size) -> u8
    ensures { result ≡ spec.offset_bytes size }
{
    match size {
        Size::O16 => 2,
        _ => 4,
    }
}

/// An immediate, operand `n` of a row.
#[inline]
pub fn immediate(bits: Bits, row: &Row, n: u8, value: u64) -> Number
    requires { n < 4 }
    ensures { result ≡ spec.immediate bits row.now n value }
{
    let width = immediate_bytes(bits, row.size, kind_at(row, usize::from(n)));
    Number {
        value,
        width,
        role: Role::Immediate,
    }
}

/// The target of a near branch.
#[inline]
pub fn near_target(bits: Bits, row: &Row, value: u64) -> Number
    ensures { result ≡ spec.near_target bits row.now value }
{
    Number {
        value,
        width: operand_bytes(bits, row.size),
        role: Role::Target,
    }
}

/// The selector of a far pointer.
#[inline]
pub fn far_selector(value: u64) -> Number
    ensures { result ≡ spec.far_selector value }
{
    Number {
        value,
        width: 2,
        role: Role::Selector,
    }
}

/// The offset of a far pointer.
#[inline]
pub fn far_offset(row: &Row, value: u64) -> Number
    ensures { result ≡ spec.far_offset row.now value }
{
    Number {
        value,
        width: offset_bytes(row.size),
        role: Role::Offset,
    }
}

/// The displacement beside a register, with its sign.
#[inline]
pub fn displacement(asize: Bits, m: &Mem) -> Number
    ensures { result ≡ spec.displacement asize m.now }
{
    Number {
        value: m.disp,
        width: bytes_of(asize),
        role: Role::Displacement,
    }
}

/// The address of an operand without registers, or relative to the instruction pointer.
#[inline]
pub fn address(asize: Bits, m: &Mem) -> Number
    ensures { result ≡ spec.address asize m.now }
{
    Number {
        value: m.disp,
        width: bytes_of(asize),
        role: Role::Address,
    }
}

/// The scale of an index.
#[inline]
pub fn index_scale(m: &Mem) -> Number
    ensures { result ≡ spec.index_scale m.now }
{
    Number {
        value: u64::from(m.scale),
        width: 1,
        role: Role::Scale,
    }
}

/// Puts down a number of operand `n`, with the characters of `shown`.
#[tactic(auto, unfolding(crate::specs::Lines::laid, crate::specs::Lines::put), using(crate::proofs::Short::number_short))]
pub fn put_number(line: &mut Printed, style: Style, n: u8, shown: u64, x: Number)
    requires room { length line.old.pieces.items + 1 ≤ PIECES }
    requires text { array_vec_len line.old.text + 18 ≤ TEXT_LEN }
    ensures laid { laid line.new ≡ grown (laid line.old) (spec.number_pieces style n shown x) }
    ensures len { length line.new.pieces.items ≤ length line.old.pieces.items + 1 }
    ensures size { array_vec_len line.new.text ≤ array_vec_len line.old.text + 18 }
{
    let start = line.text.len();
    append_number(&mut line.text, style, shown);
    close_some(line, start, Some(n), Kind::Number(x));
}
