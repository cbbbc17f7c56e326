//! The registers that an instruction names.

ghost use Rattle.std.specs.Prelude.{◌≡◌, ◌<◌, ◌≤◌, ◌+◌, ◌++◌, IsTrue, length};
ghost use Rattle.arrayvec.specs.ArrayVec.{array_vec_len};
ghost use Rattle.opcode_rows.specs.Allowed.{is_well_formed};
ghost use Rattle.operand_info.specs.Operands as spec;

use crate::columns::{Access, access_of};
use arrayvec::ArrayVec;
use opcode_rows::ROWS;
use x86_values::{Instr, Operand, Register};

/// A register that an instruction names, and its access.
#[derive(Clone, Copy, PartialEq, Eq, Debug)]
pub struct RegUse {
    pub reg: Register,
    pub access: Access,
}

/// AL, which nothing reads or writes.
impl Default for RegUse {
    fn default() -> RegUse {
        RegUse {
            reg: Register::Low8(0),
            access: Access::None,
        }
    }
}

/// At most 16 uses of registers.
type Uses = ArrayVec<RegUse, 16>;

/// Appends a register operand with its access, if there is one.
#[tactic(auto, unfolding(crate::specs::Operands::operand_use))]
fn push_operand(uses: &mut Uses, reg: Register, access: Access)
    requires { array_vec_len uses.old + length (spec.operand_use reg access) ≤ 16 }
    ensures { uses.new.items ≡ uses.old.items ++ spec.operand_use reg access }
{
    match access {
        Access::None => {}
        _ => uses.push(RegUse { reg, access }),
    }
}

/// Appends a register of an address.
fn push_address(uses: &mut Uses, reg: Option<Register>)
    requires { array_vec_len uses.old + length (spec.address_use reg) ≤ 16 }
    ensures { uses.new.items ≡ uses.old.items ++ spec.address_use reg }
{
    match reg {
        None => {}
        Some(reg) => uses.push(RegUse {
            reg,
            access: Access::Read,
        }),
    }
}

/// Appends the registers of an operand.
#[tactic(auto, unfolding(crate::specs::Operands::uses_of))]
fn push_uses(uses: &mut Uses, operand: Operand, access: Access)
    requires { array_vec_len uses.old + length (spec.uses_of operand access) ≤ 16 }
    ensures { uses.new.items ≡ uses.old.items ++ spec.uses_of operand access }
{
    match operand {
        Operand::Reg(reg) => push_operand(uses, reg, access),
        Operand::Mem(m) => {
            push_address(uses, m.base);
            push_address(uses, m.index);
        }
        _ => {}
    }
}

/// Appends the registers of operand `n`.
#[tactic(auto, unfolding(crate::specs::Operands::uses_at))]
fn push_uses_at(uses: &mut Uses, instr: &Instr, n: usize)
    requires code { instr.now.code.0 < ROWS }
    requires number { n < 4 }
    requires room { array_vec_len uses.old + length (spec.uses_at instr.now n) ≤ 16 }
    ensures { uses.new.items ≡ uses.old.items ++ spec.uses_at instr.now n }
{
    push_uses(uses, instr.ops[n], access_of(instr.code, n));
}

/// Returns the registers that a well-formed instruction names, operand by operand; at most 8. A register operand comes with its access, unless the
/// access is `None`. A memory operand gives its base, then its index, as read. RIP and EIP count as bases.
#[tactic(auto, unfolding(crate::specs::Operands::uses))]
pub fn used_registers(instr: &Instr) -> ArrayVec<RegUse, 16>
    requires { IsTrue (is_well_formed instr.now) }
    ensures { result.items ≡ spec.uses instr.now }
{
    let mut uses = ArrayVec::new();
    push_uses_at(&mut uses, instr, 0);
    push_uses_at(&mut uses, instr, 1);
    push_uses_at(&mut uses, instr, 2);
    push_uses_at(&mut uses, instr, 3);
    uses
}
