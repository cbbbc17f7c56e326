//! The size of a row's memory operand.

ghost use Rattle.std.specs.Prelude.{◌≡◌, ◌<◌, IsTrue};
ghost use Rattle.row_meaning.specs.MemorySize as spec;
ghost use Rattle.row_fit.specs.Sound.{sound};
ghost use Rattle.instruction_parts.specs.Kinds.{IsShort, memory_width};

use instruction_parts::kinds::{Width, memory_width_of_kind};
use instruction_parts::row_types::{LBit, OpKind, Place, Row, Size, WBit};
use row_fit::tail_fits::kind_at;

/// The operand size that a row has in bytes.
#[tactic(auto, unfolding(crate::specs::MemorySize::row_size_bytes))]
fn row_size_bytes(size: Size) -> u8
    ensures value { result ≡ spec.row_size_bytes size }
    ensures small { result < 9 }
{
    match size {
        Size::O16 => 2,
        Size::O64 => 8,
        _ => 4,
    }
}

/// Whether the row has W 1.
#[tactic(auto, unfolding(crate::specs::MemorySize::has_w))]
fn has_w(row: &Row) -> bool
    ensures { result ≡ spec.has_w row.now }
{
    match row.w {
        WBit::W1 => true,
        _ => match row.size {
            Size::W1 | Size::O64 => true,
            _ => false,
        },
    }
}

/// The bytes of the row's vectors.
#[tactic(auto, unfolding(crate::specs::MemorySize::vector_bytes))]
fn vector_bytes(l: LBit) -> u8
    ensures value { result ≡ spec.vector_bytes l }
    ensures small { result < 33 }
{
    match l {
        LBit::L256 => 32,
        _ => 16,
    }
}

/// A width in bytes, in a row.
#[tactic(auto, unfolding(crate::specs::MemorySize::width_in_row))]
fn width_in_row(row: &Row, width: Width) -> u8
    requires { IsShort width }
    ensures value { result ≡ spec.width_in_row row.now width }
    ensures small { result < 33 }
{
    match width {
        Width::Zero => 0,
        Width::Bytes(n) => n,
        Width::OperandSize => row_size_bytes(row.size),
        Width::TwiceOperandSize => 2 * row_size_bytes(row.size),
        Width::WordOrDword => match row.size {
            Size::O16 => 2,
            _ => 4,
        },
        Width::ByW => if has_w(row) { 8 } else { 4 },
        Width::Vector => vector_bytes(row.l),
        Width::HalfVector => vector_bytes(row.l) / 2,
        Width::QuarterVector => vector_bytes(row.l) / 4,
        Width::EighthVector => vector_bytes(row.l) / 8,
        Width::PointerOfSize => 0,
    }
}

/// The bytes that an operand of a kind has in memory, in a row.
#[inline(never)]
fn size_of_kind(row: &Row, kind: OpKind) -> u8
    ensures value { result ≡ spec.width_in_row row.now (memory_width kind) }
    ensures small { result < 33 }
{
    width_in_row(row, memory_width_of_kind(kind))
}

/// The bytes that operand n has in memory. Nothing is called for one that is absent.
#[inline(always)]
#[tactic(auto, unfolding(crate::specs::MemorySize::size_at, crate::specs::MemorySize::width_in_row, instruction_parts::specs::Kinds::memory_width))]
fn size_at(row: &Row, n: usize) -> u8
    requires { n < 4 }
    ensures value { result ≡ spec.size_at row.now n }
    ensures small { result < 33 }
{
    match kind_at(row, n) {
        OpKind::Absent => 0,
        kind => size_of_kind(row, kind),
    }
}

/// Returns the size in bytes of the row's memory operand, or 0 if there is none.
#[tactic(auto, unfolding(crate::specs::MemorySize::memory_size))]
pub fn row_memory_size(row: &Row) -> u8
    requires { IsTrue (sound row.now) }
    ensures { result ≡ spec.memory_size row.now }
{
    match row.place {
        Place::Register => 0,
        _ => {
            let first = size_at(row, 0);
            let second = size_at(row, 1);
            let third = size_at(row, 2);
            let fourth = size_at(row, 3);
            first + (second + (third + fourth))
        }
    }
}
