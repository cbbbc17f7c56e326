//! The condition on the address size: it is that of the operand, and one of the mode.

ghost use Rattle.std.specs.Prelude.{◌≡◌};
ghost use Rattle.plain_spelling.specs.Expressible as spec;

use crate::addresses::{has_address_size, told_size};
use crate::forms::operand_at;
use instruction_parts::counting::is_16;
use instruction_parts::row_types::Row;
use instruction_parts::sizes::has_address_mark;
use row_fit::fits::reads_gather;
use x86_values::{Bits, Instr, Operand, same_bits};

/// Whether some operand is memory.
#[inline(always)]
#[tactic(auto, unfolding(crate::specs::Expressible::has_memory_operand))]
fn has_memory_operand(instr: &Instr) -> bool
    ensures { result ≡ spec.has_memory_operand instr.now }
{
    operand_at(instr, 0).is_memory()
        || operand_at(instr, 1).is_memory()
        || operand_at(instr, 2).is_memory()
        || operand_at(instr, 3).is_memory()
}

/// An address size agrees with what an operand shows.
#[inline(always)]
#[tactic(auto, unfolding(crate::specs::Expressible::size_agrees))]
fn size_agrees(asize: Bits, operand: Operand) -> bool
    ensures { result ≡ spec.size_agrees asize operand }
{
    match operand {
        Operand::Mem(memory) => match told_size(memory) {
            None => true,
            Some(size) => same_bits(size, asize),
        },
        _ => true,
    }
}

/// An address size of the mode that agrees with all operands, and not 16 on a gather.
#[inline(never)]
#[tactic(auto, unfolding(crate::specs::Expressible::is_size_of))]
fn is_size_of(bits: Bits, row: &Row, instr: &Instr, asize: Bits) -> bool
    ensures { result ≡ spec.is_size_of bits row.now instr.now asize }
{
    has_address_size(bits, asize)
        && (size_agrees(asize, operand_at(instr, 0))
            && size_agrees(asize, operand_at(instr, 1))
            && size_agrees(asize, operand_at(instr, 2))
            && size_agrees(asize, operand_at(instr, 3)))
        && !(is_16(asize) && reads_gather(row))
}

/// Returns whether an address size is given exactly if an operand is memory or the row uses one without.
#[inline(always)]
#[tactic(auto, unfolding(crate::specs::Expressible::address_size_suits))]
pub(crate) fn address_size_suits(bits: Bits, row: &Row, instr: &Instr) -> bool
    ensures { result ≡ spec.address_size_suits bits row.now instr.now }
{
    if has_memory_operand(instr) || has_address_mark(row) {
        match instr.asize {
            None => false,
            Some(asize) => is_size_of(bits, row, instr, asize),
        }
    } else {
        instr.asize.is_none()
    }
}
