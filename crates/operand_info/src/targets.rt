//! The addresses that an instruction names.

ghost use Rattle.std.specs.Prelude.{◌≡◌};
ghost use Rattle.operand_info.specs.Operands as spec;

use x86_values::{Instr, Operand, Register};

/// The target of a near branch.
#[inline]
#[tactic(auto, unfolding(crate::specs::Operands::near_value))]
fn near_value(operand: &Operand) -> Option<u64>
    ensures { result ≡ spec.near_value operand.now }
{
    match operand {
        Operand::Near(target) => Some(*target),
        _ => None,
    }
}

/// The address of a memory operand that RIP or EIP is the base of.
#[inline]
#[tactic(auto, unfolding(crate::specs::Operands::ip_value))]
fn ip_value(operand: &Operand) -> Option<u64>
    ensures { result ≡ spec.ip_value operand.now }
{
    match operand {
        Operand::Mem(m) => match m.base {
            Some(Register::Rip | Register::Eip) => Some(m.disp),
            _ => None,
        },
        _ => None,
    }
}

/// Returns the absolute target of a near branch, the first `Near` operand; None exactly if there is none.
#[inline]
pub fn near_target(instr: &Instr) -> Option<u64>
    ensures { result ≡ spec.first_value spec.near_value instr.now }
{
    let [first, second, third, fourth] = &instr.ops;
    near_value(first).or(near_value(second).or(near_value(third).or(near_value(fourth))))
}

/// Returns the absolute address of the memory operand with base RIP or EIP (Intel SDM volume 2, 2.2.1.6); None exactly if there is none.
#[inline]
pub fn ip_operand(instr: &Instr) -> Option<u64>
    ensures { result ≡ spec.first_value spec.ip_value instr.now }
{
    let [first, second, third, fourth] = &instr.ops;
    ip_value(first).or(ip_value(second).or(ip_value(third).or(ip_value(fourth))))
}
