//! Relative branches, and the codes of the rows that their images use.

ghost use Rattle.std.specs.Prelude.{◌≡◌, ◌<◌};
ghost use Rattle.move_goals.specs.BranchForms.Branches as spec;

use crate::branch_forms::generated_codes::{
    CALL_REL16, CALL_RM64, JMP_REL8, JMP_REL16, JMP_RM64, JO_REL8, JO_REL16, LOOPNE_REL8,
};
use instruction_parts::row_types::{OpKind, Row, Size};
use opcode_rows::{ROWS, row_of};
use operand_info::near_target;
use x86_values::{Bits, Instr, size_number};

/// What a relative branch does.
#[derive(Clone, Copy)]
pub enum Action {
    /// JMP.
    Jump,
    /// CALL.
    Call,
    /// Jcc of this condition, 0 to 15.
    Condition(u8),
    /// A branch on the counter, 0 to 3: LOOPNE, LOOPE, LOOP and JRCXZ.
    Count(u8),
}

/// A relative branch: what it does, whether its offset has 8 bits, and its operand size.
#[derive(Clone, Copy)]
pub struct RelativeBranch {
    pub action: Action,
    pub is_short: bool,
    pub size: Bits,
}

/// The operand size of the row of a relative branch.
#[tactic(auto, unfolding(crate::specs::BranchForms::Branches::size_of))]
fn size_of(size: Size) -> Bits
    ensures { result ≡ spec.size_of size }
{
    match size {
        Size::O16 => Bits::B16,
        Size::O32 => Bits::B32,
        _ => Bits::B64,
    }
}

/// What the branch of an opcode byte with an offset of 8 bits does.
#[tactic(auto, unfolding(crate::specs::BranchForms::Branches::short_action))]
fn short_action(opcode: u8) -> Action
    ensures { result ≡ spec.short_action opcode }
{
    if opcode == 0xEB {
        Action::Jump
    } else if opcode < 0x80 {
        Action::Condition(opcode % 16)
    } else {
        Action::Count(opcode % 4)
    }
}

/// What the branch of an opcode byte with an offset of 16 or 32 bits does.
#[tactic(auto, unfolding(crate::specs::BranchForms::Branches::near_action))]
fn near_action(opcode: u8) -> Action
    ensures { result ≡ spec.near_action opcode }
{
    if opcode == 0xE8 {
        Action::Call
    } else if opcode == 0xE9 {
        Action::Jump
    } else {
        Action::Condition(opcode % 16)
    }
}

/// The relative branch of a row, if its first operand is an offset.
#[tactic(auto, unfolding(crate::specs::BranchForms::Branches::branch_in))]
fn branch_in(row: &Row) -> Option<RelativeBranch>
    ensures { result ≡ spec.branch_in row.now }
{
    let [first, _second, _third, _fourth] = row.ops;
    match first {
        OpKind::Jb => Some(RelativeBranch {
            action: short_action(row.opcode),
            is_short: true,
            size: size_of(row.size),
        }),
        OpKind::Jz => Some(RelativeBranch {
            action: near_action(row.opcode),
            is_short: false,
            size: size_of(row.size),
        }),
        _ => None,
    }
}

/// Returns the relative branch that an instruction is: JMP, CALL, Jcc, LOOP and its variants, JCXZ and its variants, with a code offset as the
/// operand. Returns None for any other instruction.
#[tactic(auto, unfolding(crate::specs::BranchForms::Branches::branch_of))]
pub fn branch_of(instr: &Instr) -> Option<RelativeBranch>
    ensures { result ≡ spec.branch_of instr.now }
{
    opcode_rows::laws::rows_are_counted();
    if instr.code.0 >= ROWS {
        return None;
    }
    if near_target(instr).is_none() {
        return None;
    }
    branch_in(&row_of(instr.code))
}

/// Returns the code of the branch with an 8-bit offset. A CALL has none; the result is its own code.
#[tactic(auto, unfolding(crate::specs::BranchForms::Branches::short_code))]
pub fn short_code(action: Action, size: Bits) -> u16
    ensures { result ≡ spec.short_code action size }
{
    match action {
        Action::Jump => JMP_REL8 + u16::from(size_number(size)),
        Action::Call => CALL_REL16 + u16::from(size_number(size)),
        Action::Condition(n) => JO_REL8 + 3 * u16::from(n) + u16::from(size_number(size)),
        Action::Count(n) => LOOPNE_REL8 + 3 * u16::from(n) + u16::from(size_number(size)),
    }
}

/// Returns the code of the branch with a 16 or 32-bit offset. A branch on a counter has none; the result is that of JMP.
#[tactic(auto, unfolding(crate::specs::BranchForms::Branches::near_code))]
pub fn near_code(action: Action, size: Bits) -> u16
    ensures { result ≡ spec.near_code action size }
{
    match action {
        Action::Jump => JMP_REL16 + u16::from(size_number(size)),
        Action::Call => CALL_REL16 + u16::from(size_number(size)),
        Action::Condition(n) => JO_REL16 + 3 * u16::from(n) + u16::from(size_number(size)),
        Action::Count(_) => JMP_REL16 + u16::from(size_number(size)),
    }
}

/// Returns the code of CALL or JMP through memory in 64-bit mode.
#[tactic(auto, unfolding(crate::specs::BranchForms::Branches::far_code))]
pub fn far_code(action: Action) -> u16
    ensures { result ≡ spec.far_code action }
{
    match action {
        Action::Call => CALL_RM64,
        _ => JMP_RM64,
    }
}

/// Returns the opposite condition, whose number differs in the lowest bit.
#[tactic(auto, unfolding(crate::specs::BranchForms::Branches::opposite_condition))]
pub fn opposite_condition(condition: u8) -> u8
    ensures { result ≡ spec.opposite_condition condition }
{
    condition ^ 1
}
