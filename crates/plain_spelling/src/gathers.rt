//! The rule on a gather's numbers: of destination, index and mask those that are vector registers differ (2.3.12).

ghost use Rattle.std.specs.Prelude.{◌≡◌, if◌then◌else◌, Some, None};
ghost use Rattle.plain_spelling.specs.PlainFront as front;
ghost use Rattle.plain_spelling.specs.Expressible as spec;

use crate::forms::operand_at;
use crate::registers::numbers_asked;
use instruction_parts::kinds::{Method, method_of_kind};
use instruction_parts::row_types::Row;
use row_fit::fits::reads_gather;
use row_fit::tail_fits::kind_at;
use x86_values::{Instr, Operand, Register};

/// Whether a register is XMM or YMM.
fn is_vector_register(register: Register) -> bool
    ensures { result ≡ spec.is_vector_register register }
{
    match register {
        Register::Xmm(_) | Register::Ymm(_) => true,
        _ => false,
    }
}

/// Whether the operand is a vector register that is read from ModRM.reg.
#[tactic(auto, unfolding(crate::specs::Expressible::vector_in_reg))]
fn vector_in_reg(method: Method, operand: Operand) -> bool
    ensures { result ≡ spec.vector_in_reg method operand }
{
    match (method, operand) {
        (Method::ModRmReg, Operand::Reg(register)) => is_vector_register(register),
        _ => false,
    }
}

/// Whether the operand is an address of a gather whose index is a vector register.
#[tactic(auto, unfolding(crate::specs::Expressible::vector_in_index))]
fn vector_in_index(method: Method, operand: Operand) -> bool
    ensures { result ≡ spec.vector_in_index method operand }
{
    match (method, operand) {
        (Method::Gather, Operand::Mem(memory)) => match memory.index {
            None => false,
            Some(register) => is_vector_register(register),
        },
        _ => false,
    }
}

/// Whether the operand is a vector register that is read from vvvv.
#[tactic(auto, unfolding(crate::specs::Expressible::vector_in_vvvv))]
fn vector_in_vvvv(method: Method, operand: Operand) -> bool
    ensures { result ≡ spec.vector_in_vvvv method operand }
{
    match (method, operand) {
        (Method::Vvvv, Operand::Reg(register)) => is_vector_register(register),
        _ => false,
    }
}

/// Returns a number if its register is a vector register.
fn number_if(is_vector: bool, number: u16) -> Option<u16>
    ensures { result ≡ (if is_vector then Some number else None) }
{
    if is_vector { Some(number) } else { None }
}

/// Returns the number of a gather's destination, if that is a vector register.
fn destination_number(row: &Row, instr: &Instr) -> Option<u16>
    ensures { result ≡ spec.asked_vector spec.vector_in_reg front.number_in_reg row.now instr.now }
{
    let is_vector = vector_in_reg(method_of_kind(kind_at(row, 0)), operand_at(instr, 0))
        || vector_in_reg(method_of_kind(kind_at(row, 1)), operand_at(instr, 1))
        || vector_in_reg(method_of_kind(kind_at(row, 2)), operand_at(instr, 2))
        || vector_in_reg(method_of_kind(kind_at(row, 3)), operand_at(instr, 3));
    number_if(is_vector, numbers_asked(row, instr).reg)
}

/// Returns the number of a gather's index, if that is a vector register.
fn index_number(row: &Row, instr: &Instr) -> Option<u16>
    ensures { result ≡ spec.asked_vector spec.vector_in_index front.number_in_index row.now instr.now }
{
    let is_vector = vector_in_index(method_of_kind(kind_at(row, 0)), operand_at(instr, 0))
        || vector_in_index(method_of_kind(kind_at(row, 1)), operand_at(instr, 1))
        || vector_in_index(method_of_kind(kind_at(row, 2)), operand_at(instr, 2))
        || vector_in_index(method_of_kind(kind_at(row, 3)), operand_at(instr, 3));
    number_if(is_vector, numbers_asked(row, instr).index)
}

/// Returns the number of a gather's mask, if that is a vector register.
fn mask_number(row: &Row, instr: &Instr) -> Option<u16>
    ensures { result ≡ spec.asked_vector spec.vector_in_vvvv front.number_in_vvvv row.now instr.now }
{
    let is_vector = vector_in_vvvv(method_of_kind(kind_at(row, 0)), operand_at(instr, 0))
        || vector_in_vvvv(method_of_kind(kind_at(row, 1)), operand_at(instr, 1))
        || vector_in_vvvv(method_of_kind(kind_at(row, 2)), operand_at(instr, 2))
        || vector_in_vvvv(method_of_kind(kind_at(row, 3)), operand_at(instr, 3));
    number_if(is_vector, numbers_asked(row, instr).vvvv)
}

/// Whether of two numbers one is absent, or they differ.
fn differ(first: Option<u16>, second: Option<u16>) -> bool
    ensures { result ≡ spec.differ first second }
{
    match (first, second) {
        (Some(m), Some(n)) => m != n,
        _ => true,
    }
}

/// Of a gather's destination, index and mask those that are vector registers have numbers that differ pairwise (2.3.12).
#[cold]
#[inline(never)]
#[tactic(auto, unfolding(crate::specs::Expressible::gather_numbers_differ))]
pub(crate) fn gather_numbers_differ(row: &Row, instr: &Instr) -> bool
    ensures { result ≡ spec.gather_numbers_differ row.now instr.now }
{
    let destination = destination_number(row, instr);
    let index = index_number(row, instr);
    let mask = mask_number(row, instr);
    differ(destination, index) && differ(destination, mask) && differ(index, mask)
}

/// The rule on a gather's numbers, which counts with operand 0.
#[inline(always)]
pub(crate) fn gather_suits(row: &Row, instr: &Instr, n: usize) -> bool
    ensures { result ≡ spec.gather_suits row.now instr.now n }
{
    !(n == 0) || !reads_gather(row) || gather_numbers_differ(row, instr)
}
