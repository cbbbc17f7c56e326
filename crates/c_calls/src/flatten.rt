//! From an instruction to the struct that crosses to C.

ghost use Rattle.std.specs.Prelude.{◌≡◌, length, Some};
ghost use Rattle.c_calls.specs.Flat as spec;
ghost use Rattle.c_calls.specs.Back.{instr_back};
ghost use Rattle.c_calls.specs.Numbers as numbers;
ghost use Rattle.x86_values.specs.Registers as registers;

use crate::flat::{FlatInstr, FlatOperand};
use crate::numbers::{class_number, disp_number, prefix_number, rep_number};
use x86_values::{Decoded, Instr, Mem, Operand, Register, Rep, width};

/// An operand that is absent.
pub(crate) const ABSENT: FlatOperand = FlatOperand {
    value: 0,
    offset: 0,
    selector: 0,
    kind: 0,
    reg_class: 0,
    reg_number: 0,
    index_class: 0,
    index_number: 0,
    scale: 0,
    disp_bits: 0,
};

/// A struct to which nothing has been written.
pub(crate) const NO_INSTR: FlatInstr = FlatInstr {
    op0: ABSENT,
    op1: ABSENT,
    op2: ABSENT,
    op3: ABSENT,
    code: 0,
    len: 0,
    lock: 0,
    rep: 0,
    segment: 0,
    asize: 0,
};

/// The class of a register that may be absent.
pub(crate) fn base_class(register: Option<Register>) -> u8
    ensures { result ≡ spec.base_class register }
{
    match register {
        None => 0,
        Some(register) => class_number(register),
    }
}

/// The number of a register that may be absent.
pub(crate) fn base_number(register: Option<Register>) -> u8
    ensures { result ≡ spec.base_number register }
{
    match register {
        None => 0,
        Some(register) => register.number(),
    }
}

/// Writes the class and the number of a register.
#[inline(always)]
fn named_into(register: Register, class: &mut u8, number: &mut u8)
    ensures class { class.new ≡ numbers.class_number register }
    ensures number { number.new ≡ registers.number register }
{
    *class = class_number(register);
    *number = register.number();
}

/// Writes a register to an absent operand.
#[inline(always)]
#[tactic(auto, unfolding(crate::specs::Flat::flat_operand))]
fn register_into(register: Register, out: &mut FlatOperand)
    requires { out.old ≡ spec.bare_operand 0 }
    ensures { out.new ≡ spec.flat_operand (Operand.Reg register) }
{
    out.kind = 1;
    named_into(register, &mut out.reg_class, &mut out.reg_number);
}

/// Writes an address to an absent operand.
#[inline(always)]
#[tactic(auto, unfolding(crate::specs::Flat::flat_operand))]
fn memory_into(m: &Mem, out: &mut FlatOperand)
    requires { out.old ≡ spec.bare_operand 0 }
    ensures { out.new ≡ spec.flat_operand (Operand.Mem m.now) }
{
    out.kind = 2;
    out.value = m.disp;
    if let Some(base) = m.base {
        named_into(base, &mut out.reg_class, &mut out.reg_number);
    }
    if let Some(index) = m.index {
        named_into(index, &mut out.index_class, &mut out.index_number);
    }
    out.scale = m.scale;
    out.disp_bits = disp_number(m.disp_size);
}

/// Writes an operand to an absent one.
#[inline(always)]
#[tactic(auto, unfolding(crate::specs::Flat::flat_operand))]
fn operand_into(operand: &Operand, out: &mut FlatOperand)
    requires { out.old ≡ spec.bare_operand 0 }
    ensures { out.new ≡ spec.flat_operand operand.now }
{
    match operand {
        Operand::Absent => (),
        Operand::Reg(register) => register_into(*register, out),
        Operand::Mem(m) => memory_into(m, out),
        Operand::Imm(value) => {
            out.kind = 3;
            out.value = *value;
        }
        Operand::Near(value) => {
            out.kind = 4;
            out.value = *value;
        }
        Operand::Far { selector, offset } => {
            out.kind = 5;
            out.selector = *selector;
            out.offset = *offset;
        }
    }
}

/// Writes two operands to absent ones.
#[inline(never)]
fn late_into(a: &Operand, b: &Operand, place: &mut FlatOperand, next: &mut FlatOperand)
    requires no_place { place.old ≡ spec.bare_operand 0 }
    requires no_next { next.old ≡ spec.bare_operand 0 }
    ensures first { place.new ≡ spec.flat_operand a.now }
    ensures second { next.new ≡ spec.flat_operand b.now }
{
    operand_into(a, place);
    operand_into(b, next);
}

/// Writes the last two operands to absent ones. Those of most instructions are absent.
#[inline(always)]
#[tactic(auto, unfolding(crate::specs::Flat::flat_operand))]
fn last_into(a: &Operand, b: &Operand, place: &mut FlatOperand, next: &mut FlatOperand)
    requires no_place { place.old ≡ spec.bare_operand 0 }
    requires no_next { next.old ≡ spec.bare_operand 0 }
    ensures first { place.new ≡ spec.flat_operand a.now }
    ensures second { next.new ≡ spec.flat_operand b.now }
{
    match (a, b) {
        (Operand::Absent, Operand::Absent) => (),
        _ => late_into(a, b, place, next),
    }
}

/// Writes a repeat and a segment prefix.
#[inline(never)]
fn rare_prefixes_into(instr: &Instr, rep: &mut u8, segment: &mut u8)
    ensures rep { rep.new ≡ numbers.rep_number instr.now.rep }
    ensures segment { segment.new ≡ numbers.prefix_number instr.now.seg }
{
    *rep = rep_number(instr.rep);
    *segment = prefix_number(instr.seg);
}

/// Writes a repeat and a segment prefix where there are none. Most instructions have none.
#[inline(always)]
fn prefixes_into(instr: &Instr, rep: &mut u8, segment: &mut u8)
    requires no_rep { rep.old ≡ 0 }
    requires no_segment { segment.old ≡ 0 }
    ensures rep { rep.new ≡ numbers.rep_number instr.now.rep }
    ensures segment { segment.new ≡ numbers.prefix_number instr.now.seg }
{
    match (instr.rep, instr.seg) {
        (Rep::None, None) => (),
        _ => rare_prefixes_into(instr, rep, segment),
    }
}

/// Writes an instruction and its length to a struct.
// The struct is made of zeros first: most of its fields stay so.
#[inline(always)]
#[tactic(auto, unfolding(crate::specs::Flat::flat_instr))]
fn fields_into(d: &Decoded, out: &mut FlatInstr)
    ensures flat { out.new ≡ spec.flat_decoded d.now }
    ensures four { length d.now.instr.ops ≡ 4 }
{
    *out = NO_INSTR;
    operand_into(&d.instr.ops[0], &mut out.op0);
    operand_into(&d.instr.ops[1], &mut out.op1);
    last_into(&d.instr.ops[2], &d.instr.ops[3], &mut out.op2, &mut out.op3);
    out.code = d.instr.code.0;
    out.len = d.len;
    if d.instr.lock {
        out.lock = 1;
    }
    prefixes_into(&d.instr, &mut out.rep, &mut out.segment);
    if let Some(size) = d.instr.asize {
        out.asize = width(size);
    }
}

/// Writes an instruction and its length to a struct, from which the instruction can be read back.
#[inline(always)]
pub(crate) fn flat_into(d: &Decoded, out: &mut FlatInstr)
    ensures flat { out.new ≡ spec.flat_decoded d.now }
    ensures back { instr_back out.new ≡ Some d.now.instr }
{
    fields_into(d, out);
}

/// Returns the struct of an instruction and its length. The instruction can be read back from it.
pub(crate) fn flat_decoded(d: &Decoded) -> FlatInstr
    ensures flat { result ≡ spec.flat_decoded d.now }
    ensures back { instr_back result ≡ Some d.now.instr }
{
    let mut flat = NO_INSTR;
    flat_into(d, &mut flat);
    flat
}
