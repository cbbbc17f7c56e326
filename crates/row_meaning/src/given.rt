//! The operands of a row with at most one operand that has bytes of the immediates, given the operand size.

ghost use Rattle.std.specs.Prelude.{◌≡◌, ◌<◌, ◌≤◌, ◌%◌, length, IsTrue};
ghost use Rattle.row_meaning.specs.Meaning as spec;
ghost use Rattle.row_meaning.specs.Given.{has_one_immediate, IsInRange};
ghost use Rattle.instruction_parts.specs.declared.row_types.Row.{Row};
ghost use Rattle.row_fit.specs.Fits as fits;
ghost use Rattle.instruction_parts.specs.Kinds.{method_of, file_of};
ghost use Rattle.instruction_parts.specs.Sizes.{bit_b};
ghost use Rattle.x86_values.specs.Wrapping.{width};
ghost use Rattle.x86_values.specs.declared.Operand.TheVariants.{Reg, Imm};
ghost use Rattle.instruction_parts.specs.declared.row_types.OpKind.TheVariants.{Absent};
ghost use Rattle.instruction_parts.specs.declared.kinds.Method.TheVariants.{Pointer as PointerMethod};
ghost use Rattle.instruction_parts.specs.declared.kinds.File.TheVariants.{OperandSize};

use crate::meaning::general_register;
use crate::numbers::{little_endian, sign_extended};
use crate::operands::{
    Behind, any_of, kept_address_size, kept_repeat, memory_into, near_target, number_u8,
    operand_into, reg_number_u8, register_into, rm_number_u8,
};
use instruction_parts::kinds::{Method, method_of_kind};
use instruction_parts::row_types::{LBit, OpKind, Row};
use instruction_parts::sizes::bit_b;
use instruction_parts::spelling::PrefixState;
use row_fit::fits::mode_is_memory;
use row_fit::tail_fits::with_high_bit;
use x86_values::{Bits, Code, Instr, Operand};

/// What determines each operand of an instruction: the mode, the operand size, the row's L, and what follows the opcode byte.
#[derive(Clone, Copy)]
pub struct Given<'a> {
    pub bits: Bits,
    pub size: Bits,
    pub l: LBit,
    pub behind: &'a Behind<'a>,
}

/// Writes to `out` an operand of any kind to which all bytes of the immediates belong. Returns whether the operand is memory.
#[inline(never)]
fn any_given_into(given: &Given, state: &PrefixState, kind: OpKind, out: &mut Operand) -> bool
    requires behind { IsInRange given.now.behind.now }
    requires pointer { method_of kind ≡ PointerMethod → length given.now.behind.now.imm.now ≤ 6 }
    ensures operand { (row : Row) → spec.HasSizes given.now.bits state.now given.now.size given.now.l row
        → out.new ≡ spec.operand_by given.now.bits row state.now
        (spec.tail given.now.behind.now.modrm given.now.behind.now.sib given.now.behind.now.disp.now given.now.behind.now.next)
        kind (method_of kind) given.now.behind.now.imm.now }
    ensures memory { result ≡ fits.is_memory_method (method_of kind) given.now.behind.now.modrm }
{
    let method = method_of_kind(kind);
    let behind = given.behind;
    operand_into(
        given.bits, given.size, given.l, state, behind, kind, method, behind.imm, out,
    )
}

/// Writes to `out` the immediate as encoded.
#[inline(never)]
fn written_into(given: &Given, out: &mut Operand)
    requires { length given.now.behind.now.imm.now ≤ 8 }
    ensures { out.new ≡ Imm (spec.little_endian given.now.behind.now.imm.now) }
{
    *out = Operand::Imm(little_endian(given.behind.imm));
}

/// Writes to `out` the immediate, sign-extended to the operand size.
#[inline(never)]
fn extended_into(given: &Given, out: &mut Operand)
    requires { length given.now.behind.now.imm.now ≤ 8 }
    ensures { out.new ≡ Imm (spec.sign_extended (width given.now.size) given.now.behind.now.imm.now) }
{
    *out = Operand::Imm(sign_extended(given.size, given.behind.imm));
}

/// Writes to `out` the register that the low three bits of the opcode byte name.
#[inline(never)]
fn opcode_register_into(given: &Given, state: &PrefixState, kind: OpKind, out: &mut Operand)
    ensures { (row : Row) → spec.HasSizes given.now.bits state.now given.now.size given.now.l row
        → out.new ≡ Reg (spec.register_of given.now.bits row state.now (file_of kind)
        (fits.with_high_bit (bit_b given.now.bits state.now) (state.now.opcode % 8))) }
{
    let n = number_u8(with_high_bit(bit_b(given.bits, state), state.opcode % 8));
    register_into(given.bits, given.size, given.l, state, kind, n, out);
}

/// Writes the operand of a kind to its place, and returns whether it is memory. The most frequent methods are tested first.
#[inline(never)]
#[tactic(auto, unfolding(crate::specs::Meaning::operand_by, row_fit::specs::Fits::is_memory_method))]
fn given_into(given: &Given, state: &PrefixState, kind: OpKind, out: &mut Operand) -> bool
    requires behind { IsInRange given.now.behind.now }
    requires pointer { method_of kind ≡ PointerMethod → length given.now.behind.now.imm.now ≤ 6 }
    ensures operand { (row : Row) → spec.HasSizes given.now.bits state.now given.now.size given.now.l row
        → out.new ≡ spec.operand_by given.now.bits row state.now
        (spec.tail given.now.behind.now.modrm given.now.behind.now.sib given.now.behind.now.disp.now given.now.behind.now.next)
        kind (method_of kind) given.now.behind.now.imm.now }
    ensures memory { result ≡ fits.is_memory_method (method_of kind) given.now.behind.now.modrm }
{
    match method_of_kind(kind) {
        Method::ModRmReg => {
            let n = reg_number_u8(state, given.behind.modrm);
            register_into(given.bits, given.size, given.l, state, kind, n, out);
            false
        }
        Method::RegisterOrMemory => {
            if mode_is_memory(given.behind.modrm) {
                memory_into(given.bits, state, given.behind, out);
                true
            } else {
                let n = rm_number_u8(given.bits, state, given.behind.modrm);
                register_into(given.bits, given.size, given.l, state, kind, n, out);
                false
            }
        }
        Method::MemoryOnly => {
            memory_into(given.bits, state, given.behind, out);
            true
        }
        Method::OpcodeLow => {
            opcode_register_into(given, state, kind, out);
            false
        }
        Method::AsWritten => {
            written_into(given, out);
            false
        }
        Method::Extended => {
            extended_into(given, out);
            false
        }
        _ => any_given_into(given, state, kind, out),
    }
}

/// A copy of a front.
// Field by field: so LLVM need not keep the front itself in memory.
#[inline(always)]
fn copy_of(state: &PrefixState) -> PrefixState
    ensures { result ≡ state.now }
{
    PrefixState {
        used: state.used,
        size66: state.size66,
        addr67: state.addr67,
        lock: state.lock,
        rep: state.rep,
        seg: state.seg,
        rex: state.rex,
        vex: state.vex,
        map: state.map,
        opcode: state.opcode,
    }
}

/// Writes the operand of a kind to its place like [`given_into`], from copies.
// Their own copies are handed on: so the originals need not stand in memory.
#[inline(always)]
fn copied_into(given: &Given, state: &PrefixState, kind: OpKind, out: &mut Operand) -> bool
    requires behind { IsInRange given.now.behind.now }
    requires pointer { method_of kind ≡ PointerMethod → length given.now.behind.now.imm.now ≤ 6 }
    ensures operand { (row : Row) → spec.HasSizes given.now.bits state.now given.now.size given.now.l row
        → out.new ≡ spec.operand_by given.now.bits row state.now
        (spec.tail given.now.behind.now.modrm given.now.behind.now.sib given.now.behind.now.disp.now given.now.behind.now.next)
        kind (method_of kind) given.now.behind.now.imm.now }
    ensures memory { result ≡ fits.is_memory_method (method_of kind) given.now.behind.now.modrm }
{
    let behind = *given.behind;
    let copy = Given {
        bits: given.bits,
        size: given.size,
        l: given.l,
        behind: &behind,
    };
    let state = copy_of(state);
    given_into(&copy, &state, kind, out)
}

/// Writes the operand that is memory by ModRM to its place, from a copy of what follows the opcode byte.
#[inline(always)]
fn memory_copied_into(given: &Given, state: &PrefixState, out: &mut Operand)
    requires behind { IsInRange given.now.behind.now }
    ensures { out.new ≡ spec.memory_operand given.now.bits state.now given.now.behind.now.modrm given.now.behind.now.sib given.now.behind.now.disp.now given.now.behind.now.next }
{
    let behind = *given.behind;
    memory_into(given.bits, state, &behind, out);
}

/// Writes to `out` the register of a number that an operand of the kind names, whose registers have the operand size.
#[inline(always)]
#[tactic(auto, unfolding(crate::specs::Meaning::register_of))]
fn sized_into(given: &Given, state: &PrefixState, kind: OpKind, n: u8, out: &mut Operand)
    requires { file_of kind ≡ OperandSize }
    ensures { (row : Row) → spec.HasSizes given.now.bits state.now given.now.size given.now.l row
        → out.new ≡ Reg (spec.register_of given.now.bits row state.now (file_of kind) n) }
{
    *out = Operand::Reg(general_register(given.size, n));
}

/// Writes the first operand of a row to its place like [`given_into`]. The most frequent kinds are built into the caller.
#[inline(always)]
#[tactic(auto, unfolding(crate::specs::Meaning::operand_by, instruction_parts::specs::Kinds::method_of, instruction_parts::specs::Kinds::file_of, row_fit::specs::Fits::is_memory_method))]
fn first_into(given: &Given, state: &PrefixState, kind: OpKind, out: &mut Operand) -> bool
    requires behind { IsInRange given.now.behind.now }
    requires pointer { method_of kind ≡ PointerMethod → length given.now.behind.now.imm.now ≤ 6 }
    ensures operand { (row : Row) → spec.HasSizes given.now.bits state.now given.now.size given.now.l row
        → out.new ≡ spec.operand_by given.now.bits row state.now
        (spec.tail given.now.behind.now.modrm given.now.behind.now.sib given.now.behind.now.disp.now given.now.behind.now.next)
        kind (method_of kind) given.now.behind.now.imm.now }
    ensures memory { result ≡ fits.is_memory_method (method_of kind) given.now.behind.now.modrm }
{
    match kind {
        OpKind::Gv => {
            let n = reg_number_u8(state, given.behind.modrm);
            sized_into(given, state, kind, n, out);
            false
        }
        OpKind::Ev => {
            if mode_is_memory(given.behind.modrm) {
                memory_copied_into(given, state, out);
                true
            } else {
                let n = rm_number_u8(given.bits, state, given.behind.modrm);
                sized_into(given, state, kind, n, out);
                false
            }
        }
        OpKind::Zv => {
            let n = number_u8(with_high_bit(bit_b(given.bits, state), state.opcode % 8));
            sized_into(given, state, kind, n, out);
            false
        }
        OpKind::Jb | OpKind::Jz => {
            *out = near_target(given.size, given.behind.next, given.behind.imm);
            false
        }
        _ => copied_into(given, state, kind, out),
    }
}

/// Writes the second operand of a row to its place like [`given_into`]. The most frequent kinds are built into the caller.
#[inline(always)]
#[tactic(auto, unfolding(crate::specs::Meaning::operand_by, instruction_parts::specs::Kinds::method_of, instruction_parts::specs::Kinds::file_of, row_fit::specs::Fits::is_memory_method))]
fn second_into(given: &Given, state: &PrefixState, kind: OpKind, out: &mut Operand) -> bool
    requires behind { IsInRange given.now.behind.now }
    requires pointer { method_of kind ≡ PointerMethod → length given.now.behind.now.imm.now ≤ 6 }
    ensures operand { (row : Row) → spec.HasSizes given.now.bits state.now given.now.size given.now.l row
        → out.new ≡ spec.operand_by given.now.bits row state.now
        (spec.tail given.now.behind.now.modrm given.now.behind.now.sib given.now.behind.now.disp.now given.now.behind.now.next)
        kind (method_of kind) given.now.behind.now.imm.now }
    ensures memory { result ≡ fits.is_memory_method (method_of kind) given.now.behind.now.modrm }
{
    match kind {
        OpKind::Gv => {
            let n = reg_number_u8(state, given.behind.modrm);
            sized_into(given, state, kind, n, out);
            false
        }
        OpKind::Ev => {
            if mode_is_memory(given.behind.modrm) {
                memory_copied_into(given, state, out);
                true
            } else {
                let n = rm_number_u8(given.bits, state, given.behind.modrm);
                sized_into(given, state, kind, n, out);
                false
            }
        }
        OpKind::M => {
            memory_copied_into(given, state, out);
            true
        }
        OpKind::Ibs | OpKind::Iz => {
            *out = Operand::Imm(sign_extended(given.size, given.behind.imm));
            false
        }
        OpKind::Ib => {
            *out = Operand::Imm(little_endian(given.behind.imm));
            false
        }
        _ => copied_into(given, state, kind, out),
    }
}

/// Writes operand `n` to `out`. Returns whether the operand is memory.
#[inline(always)]
#[tactic(auto, unfolding(instruction_parts::specs::Kinds::method_of, row_fit::specs::Fits::is_memory_method))]
fn given_operand_into(
    given: &Given,
    row: &Row,
    state: &PrefixState,
    n: usize,
    kind: OpKind,
    out: &mut Operand,
) -> bool
    requires size { spec.HasSizes given.now.bits state.now given.now.size given.now.l row.now }
    requires one { IsTrue (has_one_immediate row.now) }
    requires modrm { IsTrue (fits.modrm_in_range given.now.behind.now.modrm) }
    requires sib { IsTrue (fits.sib_in_range given.now.behind.now.sib) }
    requires disp { length given.now.behind.now.disp.now ≤ 8 }
    requires imm { length given.now.behind.now.imm.now ≤ 8 }
    requires whole { length given.now.behind.now.imm.now ≡ fits.immediates_bytes given.now.size row.now }
    requires number { n < 4 }
    requires kind { kind ≡ fits.kind_at row.now n }
    ensures operand { out.new ≡ spec.operand_at given.now.bits row.now state.now
        (spec.tail given.now.behind.now.modrm given.now.behind.now.sib given.now.behind.now.disp.now given.now.behind.now.next) given.now.behind.now.imm.now n }
    ensures memory { result ≡ fits.is_memory_method (method_of kind) given.now.behind.now.modrm }
{
    match kind {
        OpKind::Absent => {
            *out = Operand::Absent;
            false
        }
        _ => copied_into(given, state, kind, out),
    }
}

/// Writes operand `n`, which the row has not, like [`given_operand_into`].
#[inline(always)]
#[tactic(auto, unfolding(instruction_parts::specs::Kinds::method_of, row_fit::specs::Fits::is_memory_method))]
fn absent_into(
    given: &Given,
    row: &Row,
    state: &PrefixState,
    n: usize,
    kind: OpKind,
    out: &mut Operand,
) -> bool
    requires absent { kind ≡ Absent }
    requires number { n < 4 }
    requires kind { kind ≡ fits.kind_at row.now n }
    ensures operand { out.new ≡ spec.operand_at given.now.bits row.now state.now
        (spec.tail given.now.behind.now.modrm given.now.behind.now.sib given.now.behind.now.disp.now given.now.behind.now.next) given.now.behind.now.imm.now n }
    ensures memory { result ≡ fits.is_memory_method (method_of kind) given.now.behind.now.modrm }
{
    *out = Operand::Absent;
    false
}

/// Writes operand `n`, the first one, like [`given_operand_into`].
#[inline(always)]
#[tactic(auto, unfolding(instruction_parts::specs::Kinds::method_of, row_fit::specs::Fits::is_memory_method))]
fn first_operand_into(
    given: &Given,
    row: &Row,
    state: &PrefixState,
    n: usize,
    kind: OpKind,
    out: &mut Operand,
) -> bool
    requires size { spec.HasSizes given.now.bits state.now given.now.size given.now.l row.now }
    requires one { IsTrue (has_one_immediate row.now) }
    requires modrm { IsTrue (fits.modrm_in_range given.now.behind.now.modrm) }
    requires sib { IsTrue (fits.sib_in_range given.now.behind.now.sib) }
    requires disp { length given.now.behind.now.disp.now ≤ 8 }
    requires imm { length given.now.behind.now.imm.now ≤ 8 }
    requires whole { length given.now.behind.now.imm.now ≡ fits.immediates_bytes given.now.size row.now }
    requires number { n < 4 }
    requires kind { kind ≡ fits.kind_at row.now n }
    ensures operand { out.new ≡ spec.operand_at given.now.bits row.now state.now
        (spec.tail given.now.behind.now.modrm given.now.behind.now.sib given.now.behind.now.disp.now given.now.behind.now.next) given.now.behind.now.imm.now n }
    ensures memory { result ≡ fits.is_memory_method (method_of kind) given.now.behind.now.modrm }
{
    match kind {
        OpKind::Absent => {
            *out = Operand::Absent;
            false
        }
        _ => first_into(given, state, kind, out),
    }
}

/// Writes operand `n`, the second one, like [`given_operand_into`].
#[inline(always)]
#[tactic(auto, unfolding(instruction_parts::specs::Kinds::method_of, row_fit::specs::Fits::is_memory_method))]
fn second_operand_into(
    given: &Given,
    row: &Row,
    state: &PrefixState,
    n: usize,
    kind: OpKind,
    out: &mut Operand,
) -> bool
    requires size { spec.HasSizes given.now.bits state.now given.now.size given.now.l row.now }
    requires one { IsTrue (has_one_immediate row.now) }
    requires modrm { IsTrue (fits.modrm_in_range given.now.behind.now.modrm) }
    requires sib { IsTrue (fits.sib_in_range given.now.behind.now.sib) }
    requires disp { length given.now.behind.now.disp.now ≤ 8 }
    requires imm { length given.now.behind.now.imm.now ≤ 8 }
    requires whole { length given.now.behind.now.imm.now ≡ fits.immediates_bytes given.now.size row.now }
    requires number { n < 4 }
    requires kind { kind ≡ fits.kind_at row.now n }
    ensures operand { out.new ≡ spec.operand_at given.now.bits row.now state.now
        (spec.tail given.now.behind.now.modrm given.now.behind.now.sib given.now.behind.now.disp.now given.now.behind.now.next) given.now.behind.now.imm.now n }
    ensures memory { result ≡ fits.is_memory_method (method_of kind) given.now.behind.now.modrm }
{
    match kind {
        OpKind::Absent => {
            *out = Operand::Absent;
            false
        }
        _ => second_into(given, state, kind, out),
    }
}

/// Writes to `out` what a state, a tail and its immediates mean, like [`instr_into`](crate::operands::instr_into). At most one of the row's operands
/// may have bytes of the immediates, and operand size and L must be those of the row.
#[inline(always)]
#[tactic(auto, unfolding(crate::specs::Meaning::instr_of))]
pub fn given_instr_into(given: &Given, code: Code, row: &Row, state: &PrefixState, out: &mut Instr)
    requires size { spec.HasSizes given.now.bits state.now given.now.size given.now.l row.now }
    requires one { IsTrue (has_one_immediate row.now) }
    requires modrm { IsTrue (fits.modrm_in_range given.now.behind.now.modrm) }
    requires sib { IsTrue (fits.sib_in_range given.now.behind.now.sib) }
    requires disp { length given.now.behind.now.disp.now ≤ 8 }
    requires imm { length given.now.behind.now.imm.now ≤ 8 }
    requires whole { length given.now.behind.now.imm.now ≡ fits.immediates_bytes given.now.size row.now }
    ensures { out.new ≡ spec.instr_of given.now.bits code row.now state.now
        (spec.tail given.now.behind.now.modrm given.now.behind.now.sib given.now.behind.now.disp.now given.now.behind.now.next) given.now.behind.now.imm.now }
{
    let [first_kind, second_kind, third_kind, fourth_kind] = row.ops;
    let first = first_operand_into(given, row, state, 0, first_kind, &mut out.ops[0]);
    let second = second_operand_into(given, row, state, 1, second_kind, &mut out.ops[1]);
    out.code = code;
    out.lock = state.lock;
    out.rep = kept_repeat(row.class, state.rep);
    out.seg = state.seg;
    if matches!(third_kind, OpKind::Absent) && matches!(fourth_kind, OpKind::Absent) {
        let third = absent_into(given, row, state, 2, third_kind, &mut out.ops[2]);
        let fourth = absent_into(given, row, state, 3, fourth_kind, &mut out.ops[3]);
        let memory = any_of(first, second, third, fourth);
        out.asize = kept_address_size(given.bits, row, state, memory);
    } else {
        let third = given_operand_into(given, row, state, 2, third_kind, &mut out.ops[2]);
        let fourth = given_operand_into(given, row, state, 3, fourth_kind, &mut out.ops[3]);
        let memory = any_of(first, second, third, fourth);
        out.asize = kept_address_size(given.bits, row, state, memory);
    }
}
