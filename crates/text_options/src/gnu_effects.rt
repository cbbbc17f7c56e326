//! Which prefixes of an instruction have an effect that GNU's text shows.

ghost use Rattle.std.specs.Prelude.{◌≡◌};
ghost use Rattle.text_options.specs.GnuEffects as spec;

use crate::generated_gnu::NOP;
use crate::gnu_form::{Branch, Form, Implied};
use crate::gnu_prefixes::Effects;
use instruction_parts::row_types::{Class, ModRmRule, OpKind, Plus, Row, Size};
use text_parts::addresses::is_absolute;
use text_parts::prefix_words::has_memory;
use x86_values::{Bits, Instr, Mem, Operand, Register, Segment, same_bits};

/// Returns whether a segment has no effect in a mode: ES, CS, SS and DS in 64-bit mode.
#[tactic(auto, unfolding(crate::specs::GnuEffects::is_idle_segment))]
pub fn is_idle_segment(bits: Bits, s: Segment) -> bool
    ensures { result ≡ spec.is_idle_segment bits s }
{
    match bits {
        Bits::B64 => match s {
            Segment::Fs | Segment::Gs => false,
            _ => true,
        },
        _ => false,
    }
}

/// Returns the segment that has an effect.
#[tactic(auto, unfolding(crate::specs::GnuEffects::working_segment))]
pub fn working_segment(bits: Bits, segment: Option<Segment>) -> Option<Segment>
    ensures { result ≡ spec.working_segment bits segment }
{
    match segment {
        None => None,
        Some(s) => {
            if is_idle_segment(bits, s) {
                None
            } else {
                Some(s)
            }
        }
    }
}

/// Whether an operand that the row does not name is in the segment that a prefix names.
#[inline]
#[tactic(auto, unfolding(crate::specs::GnuEffects::is_source))]
fn is_source(operand: Implied) -> bool
    ensures { result ≡ spec.is_source operand }
{
    matches!(operand, Implied::Source | Implied::Table)
}

/// Whether some operand is in the segment that a prefix names.
#[tactic(auto, unfolding(crate::specs::GnuEffects::has_place))]
fn has_place(form: &Form, instr: &Instr) -> bool
    ensures { result ≡ spec.has_place form.now instr.now }
{
    has_memory(instr) || is_source(form.first) || is_source(form.second)
}

/// Whether the segment is shown by memory.
#[tactic(auto, unfolding(crate::specs::GnuEffects::shows_segment))]
fn shows_segment(bits: Bits, form: &Form, instr: &Instr) -> bool
    ensures { result ≡ spec.shows_segment bits form.now instr.now }
{
    working_segment(bits, instr.seg).is_some() && has_place(form, instr)
}

/// Whether 66 has an effect on a row.
#[tactic(auto, unfolding(crate::specs::GnuEffects::takes_66))]
fn takes_66(bits: Bits, row: &Row) -> bool
    ensures { result ≡ spec.takes_66 bits row.now }
{
    match row.class {
        Class::P66 => true,
        _ => match row.size {
            Size::O16 => !same_bits(bits, Bits::B16),
            Size::O32 | Size::O32or64 => same_bits(bits, Bits::B16),
            _ => false,
        },
    }
}

/// Whether there is an operand that the row does not name.
#[inline]
#[tactic(auto, unfolding(crate::specs::GnuEffects::is_some_implied))]
pub fn is_some_implied(operand: Implied) -> bool
    ensures { result ≡ spec.is_some_implied operand }
{
    !matches!(operand, Implied::No)
}

/// Whether the address size has an effect.
#[tactic(auto, unfolding(crate::specs::GnuEffects::takes_67))]
fn takes_67(row: &Row, form: &Form, instr: &Instr) -> bool
    ensures { result ≡ spec.takes_67 row.now form.now instr.now }
{
    has_memory(instr) || row.marks.0 / 2 % 2 == 1 || is_some_implied(form.first)
}

/// Whether W sets the operand size of a row.
#[tactic(auto, unfolding(crate::specs::GnuEffects::takes_w))]
fn takes_w(row: &Row) -> bool
    ensures { result ≡ spec.takes_w row.now }
{
    match row.size {
        Size::O64 => row.marks.0 < 8,
        Size::W1 => true,
        _ => false,
    }
}

/// Whether a kind is a register that R extends.
#[tactic(auto, unfolding(crate::specs::GnuEffects::is_extended))]
fn is_extended(kind: OpKind) -> bool
    ensures { result ≡ spec.is_extended kind }
{
    matches!(
        kind,
        OpKind::Gb
            | OpKind::Gw
            | OpKind::Gd
            | OpKind::Gv
            | OpKind::Gy
            | OpKind::Cn
            | OpKind::Dn
            | OpKind::Vx
            | OpKind::Vo
    )
}

/// Whether R extends a register of the row.
#[tactic(auto, unfolding(crate::specs::GnuEffects::takes_r))]
fn takes_r(row: &Row) -> bool
    ensures { result ≡ spec.takes_r row.now }
{
    row.ops.iter().any(|kind| is_extended(*kind))
}

/// Whether B extends a register of the row.
#[tactic(auto, unfolding(crate::specs::GnuEffects::takes_b))]
fn takes_b(row: &Row) -> bool
    ensures { result ≡ spec.takes_b row.now }
{
    match row.modrm {
        ModRmRule::No => matches!(row.plus, Plus::Register),
        ModRmRule::Fixed(_) => false,
        _ => true,
    }
}

/// Whether a base is encoded with a SIB byte: RSP, ESP, R12 or R12D.
#[tactic(auto, unfolding(crate::specs::GnuEffects::is_stack_base))]
fn is_stack_base(base: Option<Register>) -> bool
    ensures { result ≡ spec.is_stack_base base }
{
    match base {
        Some(Register::R64(n)) => n == 4 || n == 12,
        Some(Register::R32(n)) => n == 4 || n == 12,
        _ => false,
    }
}

/// Whether an operand is memory that has a SIB byte.
#[tactic(auto, unfolding(crate::specs::GnuEffects::has_sib))]
fn has_sib(op: Operand) -> bool
    ensures { result ≡ spec.has_sib op }
{
    match op {
        Operand::Mem(m) => m.index.is_some() || is_stack_base(m.base) || is_absolute(&m),
        _ => false,
    }
}

/// Whether X extends a register of the instruction.
#[tactic(auto, unfolding(crate::specs::GnuEffects::takes_x))]
fn takes_x(instr: &Instr) -> bool
    ensures { result ≡ spec.takes_x instr.now }
{
    instr.ops.iter().any(|op| has_sib(*op))
}

/// Whether an operand is the register of a byte.
#[inline]
#[tactic(auto, unfolding(crate::specs::GnuEffects::is_byte_register))]
fn is_byte_register(op: Operand) -> bool
    ensures { result ≡ spec.is_byte_register op }
{
    matches!(op, Operand::Reg(Register::Low8(_)))
}

/// Whether a kind may be a register of a byte that REX changes.
#[inline]
#[tactic(auto, unfolding(crate::specs::GnuEffects::is_byte_kind))]
fn is_byte_kind(kind: OpKind) -> bool
    ensures { result ≡ spec.is_byte_kind kind }
{
    matches!(kind, OpKind::Eb | OpKind::Gb | OpKind::Zb)
}

/// Whether a row has a register of a byte that REX changes.
#[tactic(auto, unfolding(crate::specs::GnuEffects::has_byte_kind))]
fn has_byte_kind(row: &Row) -> bool
    ensures { result ≡ spec.has_byte_kind row.now }
{
    row.ops.iter().any(|kind| is_byte_kind(*kind))
}

/// Whether an instruction has the register of a byte.
#[tactic(auto, unfolding(crate::specs::GnuEffects::has_byte_register))]
fn has_byte_register(instr: &Instr) -> bool
    ensures { result ≡ spec.has_byte_register instr.now }
{
    instr.ops.iter().any(|op| is_byte_register(*op))
}

/// Whether REX changes the register of a byte.
#[tactic(auto, unfolding(crate::specs::GnuEffects::takes_rex))]
fn takes_rex(row: &Row, instr: &Instr) -> bool
    ensures { result ≡ spec.takes_rex row.now instr.now }
{
    has_byte_kind(row) && has_byte_register(instr)
}

/// Whether F2 is part of the opcode.
#[inline]
#[tactic(auto, unfolding(crate::specs::GnuEffects::is_f2_row))]
fn is_f2_row(row: &Row) -> bool
    ensures { result ≡ spec.is_f2_row row.now }
{
    matches!(row.class, Class::F2)
}

/// Whether F3 is part of the opcode.
#[inline]
#[tactic(auto, unfolding(crate::specs::GnuEffects::is_f3_row))]
fn is_f3_row(row: &Row) -> bool
    ensures { result ≡ spec.is_f3_row row.now }
{
    matches!(row.class, Class::F3)
}

/// Whether F2 is called `bnd`.
#[inline]
#[tactic(auto, unfolding(crate::specs::GnuEffects::is_branch))]
fn is_branch(branch: Branch) -> bool
    ensures { result ≡ spec.is_branch branch }
{
    !matches!(branch, Branch::No)
}

/// Whether DS is called `notrack`.
#[inline]
#[tactic(auto, unfolding(crate::specs::GnuEffects::is_indirect))]
fn is_indirect(branch: Branch) -> bool
    ensures { result ≡ spec.is_indirect branch }
{
    matches!(branch, Branch::Indirect)
}

/// Returns what the prefixes of an instruction do, by its row and its form.
#[tactic(auto, unfolding(crate::specs::GnuEffects::effects_of))]
pub fn effects_of(bits: Bits, row: &Row, form: &Form, instr: &Instr) -> Effects
    ensures { result ≡ spec.effects_of bits row.now form.now instr.now }
{
    Effects {
        bits,
        operand_size: takes_66(bits, row) || instr.code.0 == NOP,
        address_size: takes_67(row, form, instr),
        segment: shows_segment(bits, form, instr),
        f2: is_f2_row(row),
        f3: is_f3_row(row),
        repeats: form.repeats,
        bnd: is_branch(form.branch),
        notrack: is_indirect(form.branch),
        w: takes_w(row),
        r: takes_r(row),
        x: takes_x(instr),
        b: takes_b(row),
        byte: takes_rex(row, instr),
    }
}
