//! Operands in AT&T.

ghost use Rattle.std.specs.Prelude.{◌≡◌, ◌<◌, ◌≤◌, ◌+◌, ◌++◌, length, codes};
ghost use Rattle.arrayvec.specs.ArrayVec.{array_vec_len};
ghost use Rattle.text_parts.specs.Numbers.{number};
ghost use Rattle.text_parts.specs.declared.style.Style.TheVariants.{Att};
ghost use Rattle.att_text.specs.Operands as spec;

use crate::names::is_word;
use arrayvec::ArrayVec;
use instruction_parts::row_types::{OpKind, Row};
use row_fit::tail_fits::kind_at;
use text_parts::addresses::{
    append_base, append_lone_displacement, append_scale, append_signed_displacement, is_absolute,
    is_instruction_pointer,
};
use text_parts::layout::{append_separator, is_far_pointer, operand_at};
use text_parts::numbers::append_number;
use text_parts::prefix_words::text_address_size;
use text_parts::registers::{append_override, append_register};
use text_parts::style::Style;
use text_parts::text::append_few;
use x86_values::{Bits, Instr, Mem, Operand, Segment};

/// Appends an index with its scale, if there is one.
#[tactic(auto, unfolding(crate::specs::Operands::att_index))]
fn append_index<const N: usize>(out: &mut ArrayVec<u8, N>, asize: Bits, m: &Mem)
    requires { array_vec_len out.old + length (spec.att_index asize m.now) ≤ N }
    ensures { out.new.items ≡ out.old.items ++ spec.att_index asize m.now }
{
    match m.index {
        None => {}
        Some(r) => {
            append_few(out, b",");
            append_register(out, Style::Att, r);
            append_scale(out, b",", asize, m.scale);
        }
    }
}

/// Appends base and index in parentheses.
#[tactic(auto, unfolding(crate::specs::Operands::att_registers))]
fn append_registers<const N: usize>(out: &mut ArrayVec<u8, N>, asize: Bits, m: &Mem)
    requires { array_vec_len out.old + length (spec.att_registers asize m.now) ≤ N }
    ensures { out.new.items ≡ out.old.items ++ spec.att_registers asize m.now }
{
    append_few(out, b"(");
    append_base(out, Style::Att, m.base);
    append_index(out, asize, m);
    append_few(out, b")");
}

/// Appends a target in front of the instruction pointer.
#[tactic(auto, unfolding(crate::specs::Operands::att_relative))]
fn append_relative<const N: usize>(out: &mut ArrayVec<u8, N>, m: &Mem)
    requires { array_vec_len out.old + length (spec.att_relative m.now) ≤ N }
    ensures { out.new.items ≡ out.old.items ++ spec.att_relative m.now }
{
    append_number(out, Style::Att, m.disp);
    append_few(out, b"(");
    append_base(out, Style::Att, m.base);
    append_few(out, b")");
}

/// Appends an address.
#[tactic(auto, unfolding(crate::specs::Operands::att_address))]
fn append_address<const N: usize>(out: &mut ArrayVec<u8, N>, asize: Bits, m: &Mem)
    requires { array_vec_len out.old + length (spec.att_address asize m.now) ≤ N }
    ensures { out.new.items ≡ out.old.items ++ spec.att_address asize m.now }
{
    if is_instruction_pointer(m.base) {
        append_relative(out, m);
    } else if is_absolute(m) {
        append_lone_displacement(out, Style::Att, m);
    } else {
        append_signed_displacement(out, Style::Att, asize, m);
        append_registers(out, asize, m);
    }
}

/// Appends an address with its segment.
#[inline(never)]
#[tactic(auto, unfolding(crate::specs::Operands::att_memory))]
fn append_memory<const N: usize>(
    out: &mut ArrayVec<u8, N>,
    segment: Option<Segment>,
    asize: Bits,
    m: &Mem,
)
    requires { array_vec_len out.old + length (spec.att_memory segment asize m.now) ≤ N }
    ensures { out.new.items ≡ out.old.items ++ spec.att_memory segment asize m.now }
{
    append_override(out, Style::Att, segment);
    append_address(out, asize, m);
}

/// Appends a far pointer: its selector and its offset, as constants.
#[inline(never)]
fn append_far<const N: usize>(out: &mut ArrayVec<u8, N>, selector: u16, offset: u32)
    requires { array_vec_len out.old
        + length (codes "$" ++ (number Att selector ++ (codes ", $" ++ number Att offset))) ≤ N }
    ensures { out.new.items ≡ out.old.items
        ++ (codes "$" ++ (number Att selector ++ (codes ", $" ++ number Att offset))) }
{
    append_few(out, b"$");
    append_number(out, Style::Att, u64::from(selector));
    append_few(out, b", $");
    append_number(out, Style::Att, u64::from(offset));
}

/// Appends an operand.
#[inline(always)]
#[tactic(auto, unfolding(crate::specs::Operands::att_operand))]
fn append_operand<const N: usize>(
    out: &mut ArrayVec<u8, N>,
    bits: Bits,
    instr: &Instr,
    op: &Operand,
)
    requires { array_vec_len out.old + length (spec.att_operand bits instr.now op.now) ≤ N }
    ensures { out.new.items ≡ out.old.items ++ spec.att_operand bits instr.now op.now }
{
    match op {
        Operand::Absent => {}
        Operand::Reg(r) => append_register(out, Style::Att, *r),
        Operand::Imm(x) => {
            append_few(out, b"$");
            append_number(out, Style::Att, *x);
        }
        Operand::Near(x) => append_number(out, Style::Att, *x),
        Operand::Far { selector, offset } => append_far(out, *selector, *offset),
        Operand::Mem(m) => append_memory(out, instr.seg, text_address_size(bits, instr), m),
    }
}

/// Whether a kind holds the target of an indirect branch.
#[inline]
#[tactic(auto, unfolding(crate::specs::Operands::holds_target))]
fn holds_target(kind: OpKind) -> bool
    ensures { result ≡ spec.holds_target kind }
{
    match kind {
        OpKind::Ev => true,
        _ => is_far_pointer(kind),
    }
}

/// Whether a name is that of a call or an unconditional jump.
#[tactic(auto, unfolding(crate::specs::Operands::is_branch_name))]
fn is_branch_name(name: &[u8]) -> bool
    ensures { result ≡ spec.is_branch_name name.now }
{
    is_word(name, b"call")
        || is_word(name, b"jmp")
        || is_word(name, b"callf")
        || is_word(name, b"jmpf")
}

/// Appends the star in front of the target of an indirect call or jump.
#[inline]
#[tactic(auto, unfolding(crate::specs::Operands::star))]
pub fn append_star<const N: usize>(out: &mut ArrayVec<u8, N>, row: &Row, name: &[u8])
    requires { array_vec_len out.old + length (spec.star row.now name.now 0) ≤ N }
    ensures { out.new.items ≡ out.old.items ++ spec.star row.now name.now 0 }
{
    if holds_target(kind_at(row, 0)) && is_branch_name(name) {
        append_few(out, b"*");
    }
}

/// Returns whether no operand follows operand `n`.
#[inline]
#[tactic(auto, unfolding(crate::specs::Operands::is_last))]
pub fn is_last(instr: &Instr, n: usize) -> bool
    requires { n < 4 }
    ensures { result ≡ spec.is_last instr.now n }
{
    n == 3 || operand_at(instr, n + 1).is_absent()
}

/// Appends the first operand and the space before it.
#[inline(always)]
#[tactic(auto, unfolding(crate::specs::Operands::att_part))]
pub fn append_first_part<const N: usize>(
    out: &mut ArrayVec<u8, N>,
    bits: Bits,
    row: &Row,
    name: &[u8],
    instr: &Instr,
)
    requires { array_vec_len out.old + length (spec.att_part bits row.now name.now instr.now 0) ≤ N }
    ensures { out.new.items ≡ out.old.items ++ spec.att_part bits row.now name.now instr.now 0 }
{
    let op = operand_at(instr, 0);
    append_separator(out, is_last(instr, 0), op);
    append_star(out, row, name);
    append_operand(out, bits, instr, op);
}

/// Appends operand `n`, which is not the first, and the separator before it. Absent operands are never passed.
#[inline(always)]
#[tactic(auto, unfolding(crate::specs::Operands::att_part, crate::specs::Operands::att_operand, crate::specs::Operands::star, text_parts::specs::Layout::separator))]
pub fn append_later_part<const N: usize>(
    out: &mut ArrayVec<u8, N>,
    bits: Bits,
    row: &Row,
    name: &[u8],
    instr: &Instr,
    n: usize,
)
    requires later { 0 < n }
    requires number { n < 4 }
    requires room { array_vec_len out.old + length (spec.att_part bits row.now name.now instr.now n) ≤ N }
    ensures { out.new.items ≡ out.old.items ++ spec.att_part bits row.now name.now instr.now n }
{
    let op = operand_at(instr, n);
    match op {
        Operand::Absent => {}
        _ => {
            append_separator(out, is_last(instr, n), op);
            append_operand(out, bits, instr, op);
        }
    }
}
