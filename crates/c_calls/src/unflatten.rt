//! Reads the instruction of a struct that came from C.

ghost use Rattle.std.specs.Prelude.{◌≡◌};
ghost use Rattle.c_calls.specs.Back as spec;
ghost use Rattle.c_calls.specs.Numbers as numbers;

use crate::flat::{FlatInstr, FlatOperand};
use crate::numbers::{
    asize_numbered, base_numbered, disp_numbered, lock_numbered, prefix_numbered,
    register_numbered, rep_numbered,
};
use decoder::UNREAD;
use x86_values::{Code, Instr, Mem, Operand, Rep};

/// Writes the register operand of a struct to `out`. If there is none, `out` may hold anything.
#[inline(always)]
fn register_back_into(f: &FlatOperand, out: &mut Operand) -> Option<()>
    ensures { spec.register_operand (numbers.register_numbered f.now.reg_class f.now.reg_number) ≡ spec.written_value result out.new }
{
    *out = Operand::Reg(register_numbered(f.reg_class, f.reg_number)?);
    Some(())
}

/// Writes the address of a struct to `out`. If there is none, `out` may hold anything.
#[inline(always)]
fn memory_back_into(f: &FlatOperand, out: &mut Operand) -> Option<()>
    ensures { spec.memory_from_fields f.now.scale f.now.value (numbers.base_numbered f.now.reg_class f.now.reg_number)
        (numbers.base_numbered f.now.index_class f.now.index_number) (numbers.disp_numbered f.now.disp_bits) ≡ spec.written_value result out.new }
{
    let base = base_numbered(f.reg_class, f.reg_number)?;
    let index = base_numbered(f.index_class, f.index_number)?;
    let disp_size = disp_numbered(f.disp_bits)?;
    *out = Operand::Mem(Mem {
        base,
        index,
        scale: f.scale,
        disp_size,
        disp: f.value,
    });
    Some(())
}

/// Writes the operand of a struct to `out`, if its kind is one and the fields of this kind are in range; the others are ignored. If there is none, `out` may
/// hold anything.
// Each arm writes `out`: an operand that all arms hand on is put together from its parts again.
#[inline(never)]
#[tactic(auto, unfolding(crate::specs::Back::operand_back))]
fn present_back_into(f: &FlatOperand, out: &mut Operand) -> Option<()>
    ensures { spec.operand_back f.now ≡ spec.written_value result out.new }
{
    match f.kind {
        0 => {
            *out = Operand::Absent;
            Some(())
        }
        1 => register_back_into(f, out),
        2 => memory_back_into(f, out),
        3 => {
            *out = Operand::Imm(f.value);
            Some(())
        }
        4 => {
            *out = Operand::Near(f.value);
            Some(())
        }
        5 => {
            *out = Operand::Far {
                selector: f.selector,
                offset: f.offset,
            };
            Some(())
        }
        _ => None,
    }
}

/// Writes the operand of a struct to `out`, as [`present_back_into`] does. Most are absent, and these are passed over at once.
#[inline(always)]
#[tactic(auto, unfolding(crate::specs::Back::operand_back))]
fn operand_back_into(f: &FlatOperand, out: &mut Operand) -> Option<()>
    ensures { spec.operand_back f.now ≡ spec.written_value result out.new }
{
    if f.kind == 0 {
        *out = Operand::Absent;
        Some(())
    } else {
        present_back_into(f, out)
    }
}

/// Writes the instruction of a struct to `out`, if each field is in range. Its length is ignored. If there is none, `out` may hold anything.
// Built into its callers, as a call of its own takes as long as what it does for an operand.
#[inline(always)]
#[tactic(auto, unfolding(crate::specs::Back::instr_back, crate::specs::Back::operands_back))]
pub(crate) fn instr_back_into(f: &FlatInstr, out: &mut Instr) -> Option<()>
    ensures { spec.instr_back f.now ≡ spec.written_value result out.new }
{
    operand_back_into(&f.op0, &mut out.ops[0])?;
    operand_back_into(&f.op1, &mut out.ops[1])?;
    operand_back_into(&f.op2, &mut out.ops[2])?;
    operand_back_into(&f.op3, &mut out.ops[3])?;
    out.code = Code(f.code);
    // most instructions have no prefix of these and no address size
    if f.lock == 0 && f.rep == 0 && f.segment == 0 && f.asize == 0 {
        out.lock = false;
        out.rep = Rep::None;
        out.seg = None;
        out.asize = None;
        return Some(());
    }
    out.lock = lock_numbered(f.lock)?;
    out.rep = rep_numbered(f.rep)?;
    out.seg = prefix_numbered(f.segment)?;
    out.asize = asize_numbered(f.asize)?;
    Some(())
}

/// The instruction of a struct, if each field is in range.
pub(crate) fn instr_back(f: &FlatInstr) -> Option<Instr>
    ensures { result ≡ spec.instr_back f.now }
{
    let mut instr = UNREAD.instr;
    match instr_back_into(f, &mut instr) {
        Some(()) => Some(instr),
        None => None,
    }
}
