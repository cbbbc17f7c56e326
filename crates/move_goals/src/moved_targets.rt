//! The target of an instruction, and the same instruction with another target (Intel SDM volume 2, 2.2.1.6; CALL, JMP, Jcc).

ghost use Rattle.std.specs.Prelude.{◌≡◌, ◌<◌, is_some};
ghost use Rattle.operand_info.specs.Operands.{near_value, ip_value};
ghost use Rattle.move_goals.specs.MovedTargets.Targets as spec;

use branch_sizes::Reach;
use opcode_rows::{ROWS, row_of};
use operand_info::{ip_operand, near_target};
use plain_spelling::parts::plain_parts;
use x86_values::{Bits, Instr, Mem, Operand, Register};

mod independent;
pub mod laws;

pub use independent::independent_bytes;

/// Whether an operand is the target of a near branch.
#[inline]
#[tactic(auto, unfolding(operand_info::specs::Operands::near_value))]
fn is_near(operand: &Operand) -> bool
    ensures { result ≡ is_some (near_value operand.now) }
{
    matches!(operand, Operand::Near(_))
}

/// Whether an operand is an address at RIP or EIP.
#[inline]
#[tactic(auto, unfolding(operand_info::specs::Operands::ip_value))]
fn is_at_ip(operand: &Operand) -> bool
    ensures { result ≡ is_some (ip_value operand.now) }
{
    match operand {
        Operand::Mem(m) => matches!(m.base, Some(Register::Rip | Register::Eip)),
        _ => false,
    }
}

/// Returns the target of an instruction: the target of a near branch, or else the address of a RIP or EIP operand. Returns None if it has neither.
/// Far pointers and absolute addresses are no targets.
///
/// Most instructions have neither, so the function tests that first.
#[tactic(auto, unfolding(crate::specs::MovedTargets::Targets::target_of))]
pub fn target_of(instr: &Instr) -> Option<u64>
    ensures { result ≡ spec.target_of instr.now }
{
    let [first, second, third, fourth] = &instr.ops;
    if is_near(first) || is_near(second) || is_near(third) || is_near(fourth) {
        return near_target(instr);
    }
    if is_at_ip(first) || is_at_ip(second) || is_at_ip(third) || is_at_ip(fourth) {
        return ip_operand(instr);
    }
    None
}

/// Returns the operand with another target, if it is one.
#[inline]
#[tactic(auto, unfolding(crate::specs::MovedTargets::Targets::aimed_operand, crate::specs::MovedTargets::Targets::aimed_base))]
fn aimed_operand(operand: Operand, target: u64) -> Operand
    ensures { result ≡ spec.aimed_operand target operand }
{
    match operand {
        Operand::Near(_) => Operand::Near(target),
        Operand::Mem(m) => match m.base {
            Some(Register::Rip | Register::Eip) => Operand::Mem(Mem { disp: target, ..m }),
            _ => operand,
        },
        _ => operand,
    }
}

/// Returns the instruction with another target: each near target and each address at RIP or EIP is replaced, and everything else stays.
#[tactic(auto, unfolding(crate::specs::MovedTargets::Targets::with_target))]
pub fn with_target(instr: &Instr, target: u64) -> Instr
    ensures { result ≡ spec.with_target target instr.now }
{
    let [first, second, third, fourth] = instr.ops;
    Instr {
        ops: [
            aimed_operand(first, target),
            aimed_operand(second, target),
            aimed_operand(third, target),
            aimed_operand(fourth, target),
        ],
        ..*instr
    }
}

/// Returns what an operand reaches, if it is an address at RIP or EIP.
#[inline]
#[tactic(auto, unfolding(crate::specs::MovedTargets::Targets::operand_reach, crate::specs::MovedTargets::Targets::base_reach))]
fn operand_reach(operand: Operand) -> Option<Reach>
    ensures { result ≡ spec.operand_reach operand }
{
    match operand {
        Operand::Mem(m) => match m.base {
            Some(Register::Rip) => Some(Reach::Signed32),
            Some(Register::Eip) => Some(Reach::Below(32)),
            _ => None,
        },
        _ => None,
    }
}

/// Returns which targets a RIP or EIP operand of an instruction reaches. A RIP operand reaches those at a signed 32-bit distance from the end of the
/// instruction, an EIP operand those below 2^32. Without such an operand there is nothing to reach.
#[tactic(auto, unfolding(crate::specs::MovedTargets::Targets::target_reach))]
pub fn target_reach(instr: &Instr) -> Reach
    ensures { result ≡ spec.target_reach instr.now }
{
    let [first, second, third, fourth] = instr.ops;
    operand_reach(first)
        .or(operand_reach(second).or(operand_reach(third).or(operand_reach(fourth))))
        .unwrap_or(Reach::Always)
}

/// Returns the length in bytes of the plain spelling of an instruction, which is the same at every address and for every target; 0 if its code is not
/// in the table.
#[tactic(auto, unfolding(crate::specs::MovedTargets::Targets::plain_length))]
pub fn plain_length(bits: Bits, instr: &Instr) -> u8
    ensures value { result ≡ spec.plain_length bits instr.now }
    ensures small { result < 64 }
{
    let [_first, _second, _third, _fourth] = instr.ops;
    opcode_rows::laws::rows_are_counted();
    opcode_rows::laws::rows_are_sound();
    if instr.code.0 >= ROWS {
        return 0;
    }
    plain_parts(bits, 0, &row_of(instr.code), instr).len
}
