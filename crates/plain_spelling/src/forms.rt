//! Which variant of an operand a row requires.

ghost use Rattle.std.specs.Prelude.{◌≡◌, ◌<◌};
ghost use Rattle.plain_spelling.specs.Forms as spec;

use instruction_parts::kinds::Method;
use instruction_parts::row_types::Place;
use x86_values::{Instr, Operand};

/// Returns operand `n`.
#[inline]
pub fn operand_at(instr: &Instr, n: usize) -> Operand
    requires { n < 4 }
    ensures { result ≡ spec.operand_at instr.now n }
{
    instr.ops[n]
}

/// Returns whether an operand is a register.
#[inline]
pub fn is_register(operand: Operand) -> bool
    ensures { result ≡ spec.is_register operand }
{
    matches!(operand, Operand::Reg(_))
}

/// Whether an operand is one that a row with this limit of r/m allows.
#[tactic(auto, unfolding(crate::specs::Forms::is_allowed_in))]
fn is_allowed_in(place: Place, operand: Operand) -> bool
    ensures { result ≡ spec.is_allowed_in place operand }
{
    match place {
        Place::Any => is_register(operand) || operand.is_memory(),
        Place::Memory => operand.is_memory(),
        Place::Register => is_register(operand),
    }
}

/// Returns whether an operand's variant is one that its kind allows: a register, memory, either, an immediate, a near or far target, or nothing.
#[tactic(auto, unfolding(crate::specs::Forms::is_variant_of))]
pub fn is_variant_of(place: Place, method: Method, operand: Operand) -> bool
    ensures { result ≡ spec.is_variant_of place method operand }
{
    match method {
        Method::Nothing => matches!(operand, Operand::Absent),
        Method::RegisterOrMemory => is_allowed_in(place, operand),
        Method::MemoryOnly | Method::Gather | Method::Offset => operand.is_memory(),
        Method::AsWritten | Method::Extended | Method::One => matches!(operand, Operand::Imm(_)),
        Method::Near => matches!(operand, Operand::Near(_)),
        Method::Pointer => matches!(operand, Operand::Far { .. }),
        _ => is_register(operand),
    }
}

/// Returns whether a number is a SIB scale: 1, 2, 4 or 8 (Intel SDM volume 2, table 2-3).
#[inline]
pub fn is_scale(scale: u8) -> bool
    ensures { result ≡ spec.is_scale scale }
{
    scale == 1 || scale == 2 || scale == 4 || scale == 8
}
