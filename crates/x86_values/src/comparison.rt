//! When two instructions are the same: a comparison of each type, which is equality.

ghost use Rattle.std.specs.Prelude.{◌≡◌, ◌↔◌, IsTrue};
ghost use Rattle.x86_values.specs.Comparing as spec;

use crate::{Bits, DispSize, Instr, Mem, Operand, Register, Rep, Segment};

/// Whether two segment registers are one.
fn same_segment(a: Segment, b: Segment) -> bool
    ensures value { result ≡ spec.same_segment a b }
    ensures equal { IsTrue result ↔ (a ≡ b) }
{
    match (a, b) {
        (Segment::Es, Segment::Es) => true,
        (Segment::Cs, Segment::Cs) => true,
        (Segment::Ss, Segment::Ss) => true,
        (Segment::Ds, Segment::Ds) => true,
        (Segment::Fs, Segment::Fs) => true,
        (Segment::Gs, Segment::Gs) => true,
        _ => false,
    }
}

/// Returns whether two registers are equal.
#[inline(always)]
#[tactic(auto, unfolding(crate::specs::Comparing::same_register))]
pub fn same_register(a: Register, b: Register) -> bool
    ensures value { result ≡ spec.same_register a b }
    ensures equal { IsTrue result ↔ (a ≡ b) }
{
    match (a, b) {
        (Register::Low8(n), Register::Low8(m)) => n == m,
        (Register::High8(n), Register::High8(m)) => n == m,
        (Register::R16(n), Register::R16(m)) => n == m,
        (Register::R32(n), Register::R32(m)) => n == m,
        (Register::R64(n), Register::R64(m)) => n == m,
        (Register::Seg(s), Register::Seg(t)) => same_segment(s, t),
        (Register::Cr(n), Register::Cr(m)) => n == m,
        (Register::Dr(n), Register::Dr(m)) => n == m,
        (Register::St(n), Register::St(m)) => n == m,
        (Register::Mm(n), Register::Mm(m)) => n == m,
        (Register::Xmm(n), Register::Xmm(m)) => n == m,
        (Register::Ymm(n), Register::Ymm(m)) => n == m,
        (Register::Eip, Register::Eip) => true,
        (Register::Rip, Register::Rip) => true,
        _ => false,
    }
}

/// Returns whether two optional registers are equal.
fn same_register_option(a: Option<Register>, b: Option<Register>) -> bool
    ensures { IsTrue result ↔ (a ≡ b) }
{
    match (a, b) {
        (Some(r), Some(s)) => same_register(r, s),
        (None, None) => true,
        _ => false,
    }
}

/// Whether two sizes of a displacement are one.
fn same_disp_size(a: DispSize, b: DispSize) -> bool
    ensures { IsTrue result ↔ (a ≡ b) }
{
    a == b
}

/// Whether two memory operands are the same: all their fields are equal.
fn same_mem(a: Mem, b: Mem) -> bool
    ensures { IsTrue result ↔ (a ≡ b) }
{
    same_register_option(a.base, b.base)
        && same_register_option(a.index, b.index)
        && a.scale == b.scale
        && a.disp == b.disp
        && same_disp_size(a.disp_size, b.disp_size)
}

/// Whether two operands are the same.
fn same_operand(a: Operand, b: Operand) -> bool
    ensures { IsTrue result ↔ (a ≡ b) }
{
    match (a, b) {
        (Operand::Absent, Operand::Absent) => true,
        (Operand::Reg(r), Operand::Reg(s)) => same_register(r, s),
        (Operand::Mem(m), Operand::Mem(n)) => same_mem(m, n),
        (Operand::Imm(x), Operand::Imm(y)) => x == y,
        (Operand::Near(x), Operand::Near(y)) => x == y,
        (
            Operand::Far {
                selector: s,
                offset: x,
            },
            Operand::Far {
                selector: t,
                offset: y,
            },
        ) => s == t && x == y,
        _ => false,
    }
}

/// Whether the operands are the same, one by one.
fn same_operands(a: &[Operand; 4], b: &[Operand; 4]) -> bool
    ensures { IsTrue result ↔ (a.now ≡ b.now) }
{
    let [a0, a1, a2, a3] = *a;
    let [b0, b1, b2, b3] = *b;
    same_operand(a0, b0) && same_operand(a1, b1) && same_operand(a2, b2) && same_operand(a3, b3)
}

/// Whether two repeat prefixes are one.
fn same_rep(a: Rep, b: Rep) -> bool
    ensures { IsTrue result ↔ (a ≡ b) }
{
    a == b
}

/// Returns whether two optional segment registers are equal.
fn same_segment_option(a: Option<Segment>, b: Option<Segment>) -> bool
    ensures { IsTrue result ↔ (a ≡ b) }
{
    match (a, b) {
        (Some(s), Some(t)) => same_segment(s, t),
        (None, None) => true,
        _ => false,
    }
}

/// Returns whether two sizes are equal.
#[inline]
pub fn same_bits(a: Bits, b: Bits) -> bool
    ensures value { result ≡ spec.same_bits a b }
    ensures equal { IsTrue result ↔ (a ≡ b) }
{
    match (a, b) {
        (Bits::B16, Bits::B16) => true,
        (Bits::B32, Bits::B32) => true,
        (Bits::B64, Bits::B64) => true,
        _ => false,
    }
}

/// Returns whether two optional sizes are equal.
fn same_bits_option(a: Option<Bits>, b: Option<Bits>) -> bool
    ensures { IsTrue result ↔ (a ≡ b) }
{
    match (a, b) {
        (Some(s), Some(t)) => same_bits(s, t),
        (None, None) => true,
        _ => false,
    }
}

/// Returns whether two instructions are equal in all fields.
pub fn same(a: &Instr, b: &Instr) -> bool
    ensures { IsTrue result ↔ (a.now ≡ b.now) }
{
    a.code.0 == b.code.0
        && same_operands(&a.ops, &b.ops)
        && a.lock == b.lock
        && same_rep(a.rep, b.rep)
        && same_segment_option(a.seg, b.seg)
        && same_bits_option(a.asize, b.asize)
}
