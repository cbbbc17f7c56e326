//! Whether an instruction has the form of its row.

ghost use Rattle.std.specs.Prelude.{◌≡◌, ◌<◌};
ghost use Rattle.opcode_rows.specs.Allowed as spec;

use crate::generated_spots::ROWS;
use instruction_parts::kinds::method_of_kind;
use instruction_parts::row_types::Row;
use plain_spelling::forms::{is_scale, is_variant_of, operand_at};
use row_fit::tail_fits::kind_at;
use x86_values::{Instr, Operand, Register};

/// Returns whether an instruction is well-formed: its code is below `ROWS`, each operand's variant is one that the row's kind allows, each scale is
/// 1, 2, 4 or 8, and each register's number is below the size of its class: 4 for the high byte registers, 8 for x87, MMX and debug registers, 16 for
/// all others.
///
/// Every decoded instruction is well-formed.
#[tactic(auto, unfolding(crate::specs::Allowed::is_well_formed))]
pub fn well_formed(instr: &Instr) -> bool
    ensures { result ≡ spec.is_well_formed instr.now }
{
    if instr.code.0 < ROWS {
        is_formed(&crate::row_at(instr.code), instr)
    } else {
        false
    }
}

/// Returns whether all operands have the form that the row requires.
#[tactic(auto, unfolding(crate::specs::Allowed::is_formed))]
fn is_formed(row: &Row, instr: &Instr) -> bool
    ensures { result ≡ spec.is_formed row.now instr.now }
{
    operand_is_formed(row, instr, 0)
        && operand_is_formed(row, instr, 1)
        && operand_is_formed(row, instr, 2)
        && operand_is_formed(row, instr, 3)
}

/// Whether operand `n` is of a variant that the row's kind takes, with registers that exist.
#[tactic(auto, unfolding(crate::specs::Allowed::operand_is_formed))]
fn operand_is_formed(row: &Row, instr: &Instr, n: usize) -> bool
    requires { n < 4 }
    ensures { result ≡ spec.operand_is_formed row.now instr.now n }
{
    let operand = operand_at(instr, n);
    is_variant_of(row.place, method_of_kind(kind_at(row, n)), operand) && has_numbers(operand)
}

/// Whether each register of an operand exists and a scale is one that SIB can hold (2.1.5).
#[tactic(auto, unfolding(crate::specs::Allowed::has_numbers))]
fn has_numbers(operand: Operand) -> bool
    ensures { result ≡ spec.has_numbers operand }
{
    match operand {
        Operand::Reg(register) => register.is_named(),
        Operand::Mem(memory) => is_scale(memory.scale)
            && is_named_if(memory.base)
            && is_named_if(memory.index),
        _ => true,
    }
}

/// Returns whether an optional register, if present, exists.
#[tactic(auto, unfolding(crate::specs::Allowed::is_named_if))]
fn is_named_if(register: Option<Register>) -> bool
    ensures { result ≡ spec.is_named_if register }
{
    match register {
        None => true,
        Some(register) => register.is_named(),
    }
}
