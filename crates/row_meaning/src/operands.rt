//! The operands of a fitting spelling.

ghost use Rattle.std.specs.Prelude.{◌≡◌, ◌<◌, ◌≤◌, ◌+◌, ◌||◌, false, length, IsTrue, Some, None, if◌then◌else◌};
ghost use Rattle.row_meaning.specs.Meaning as spec;
ghost use Rattle.instruction_parts.specs.declared.row_types.Row.{Row};
ghost use Rattle.instruction_parts.specs.declared.spelling.PrefixState.{PrefixState};
ghost use Rattle.row_fit.specs.Fits as fits;
ghost use Rattle.instruction_parts.specs.Bytes as bytes;
ghost use Rattle.x86_values.specs.declared.Bits.{Bits};
ghost use Rattle.instruction_parts.specs.Kinds.{method_of, file_of};
ghost use Rattle.x86_values.specs.declared.Operand.TheVariants.{Reg, Mem as MemOperand};
ghost use Rattle.instruction_parts.specs.Sizes.{bit_b, bit_x, state_size, state_address_size, has_address_mark};
ghost use Rattle.row_fit.specs.Sound.{sound};
ghost use Rattle.instruction_parts.specs.declared.kinds.Method.TheVariants.{Pointer as PointerMethod};

use crate::meaning::{
    disp_size_of, general_register, ip_or_absolute, memory_16, register_of_size, target,
};
use crate::numbers::{little_endian, sign_extended};
use instruction_parts::bytes::{lead_len, state_of};
use instruction_parts::counting::is_64;
use instruction_parts::kinds::{File, Method, file_of_kind, fixed_number_of_kind, method_of_kind};
use instruction_parts::row_types::{Class, LBit, OpKind, Row};
use instruction_parts::sizes::{bit_b, bit_x, has_address_mark, state_address_size, state_size};
use instruction_parts::spelling::{ModRm, PrefixState, Sib, Spelling};
use row_fit::fits::mode_is_memory;
use row_fit::tail_fits::{
    immediate_bytes, index_number, kind_at, reg_number, rm_number, vvvv_number, with_high_bit,
};
use x86_values::{Bits, Code, Instr, Mem, Operand, Register, Rep, wrap};

/// A register number, which is small.
pub(crate) fn number_u8(n: u16) -> u8
    requires { n < 256 }
    ensures { result ≡ n }
{
    n as u8
}

/// The base of an address with a SIB, given B.
#[inline(always)]
#[tactic(auto, unfolding(crate::specs::Meaning::sib_base))]
fn sib_base(asize: Bits, b: bool, m: ModRm, s: Sib) -> Option<Register>
    requires { s.base < 8 }
    ensures { (bits : Bits) (state : PrefixState) → b ≡ bit_b bits state → result ≡ spec.sib_base bits asize state m s }
{
    if m.mode3 == 0 && s.base == 5 {
        None
    } else {
        Some(general_register(asize, number_u8(with_high_bit(b, s.base))))
    }
}

/// The index of an address with a SIB, given X.
#[inline(always)]
#[tactic(auto, unfolding(crate::specs::Meaning::sib_index, row_fit::specs::Fits::index_number))]
fn sib_index(asize: Bits, x: bool, s: Sib) -> Option<Register>
    requires { s.index < 8 }
    ensures { (state : PrefixState) → x ≡ bit_x state → result ≡ spec.sib_index asize state s }
{
    let n = with_high_bit(x, s.index);
    if n == 4 {
        None
    } else {
        Some(general_register(asize, number_u8(n)))
    }
}

/// The scale, which is 1 without an index.
#[inline(always)]
fn scale_of(index: Option<Register>, s: Sib) -> u8
    requires { s.scale < 4 }
    ensures { result ≡ spec.scale_of index s }
{
    match index {
        None => 1,
        Some(_) => match s.scale {
            0 => 1,
            1 => 2,
            2 => 4,
            _ => 8,
        },
    }
}

/// An address with a SIB and this index, given B.
#[inline(always)]
#[tactic(auto, unfolding(crate::specs::Meaning::memory_with_sib))]
fn memory_with_sib(
    asize: Bits,
    b: bool,
    index: Option<Register>,
    m: ModRm,
    s: Sib,
    disp: &[u8],
) -> Mem
    requires base { s.base < 8 }
    requires scale { s.scale < 4 }
    requires disp { length disp.now ≤ 8 }
    ensures { (bits : Bits) (state : PrefixState) → b ≡ bit_b bits state
        → result ≡ spec.memory_with_sib bits asize state index m s disp.now }
{
    Mem {
        base: sib_base(asize, b, m, s),
        index,
        scale: scale_of(index, s),
        disp: sign_extended(asize, disp),
        disp_size: disp_size_of(disp.len()),
    }
}

/// An address of a general register, given B.
#[inline(always)]
#[tactic(auto, unfolding(crate::specs::Meaning::memory_at_base))]
fn memory_at_base(asize: Bits, b: bool, m: ModRm, disp: &[u8]) -> Mem
    requires rm { m.rm < 8 }
    requires disp { length disp.now ≤ 8 }
    ensures { (bits : Bits) (state : PrefixState) → b ≡ bit_b bits state
        → result ≡ spec.memory_at_base bits asize state m disp.now }
{
    Mem {
        base: Some(general_register(asize, number_u8(with_high_bit(b, m.rm)))),
        index: None,
        scale: 1,
        disp: sign_extended(asize, disp),
        disp_size: disp_size_of(disp.len()),
    }
}

/// Writes to `out` an address without SIB in 32 and 64-bit addressing, given B.
// Each arm writes `out`: an address that the arms hand on is put together from its parts again.
#[inline(always)]
#[tactic(auto, unfolding(crate::specs::Meaning::memory_wide))]
fn base_into(bits: Bits, asize: Bits, b: bool, m: ModRm, behind: &Behind, out: &mut Operand)
    requires rm { m.rm < 8 }
    requires disp { length behind.now.disp.now ≤ 8 }
    ensures { (state : PrefixState) → b ≡ bit_b bits state
        → out.new ≡ MemOperand (spec.memory_wide bits asize state m None behind.now.next behind.now.disp.now) }
{
    if m.mode3 == 0 && m.rm == 5 {
        *out = Operand::Mem(ip_or_absolute(bits, asize, behind.next, behind.disp));
    } else {
        *out = Operand::Mem(memory_at_base(asize, b, m, behind.disp));
    }
}

/// Writes to `out` an address in 32 and 64-bit addressing, given B and X.
#[inline(always)]
#[tactic(auto, unfolding(crate::specs::Meaning::memory_wide, row_fit::specs::Fits::sib_in_range))]
fn wide_into(
    bits: Bits,
    asize: Bits,
    b: bool,
    x: bool,
    m: ModRm,
    behind: &Behind,
    out: &mut Operand,
)
    requires rm { m.rm < 8 }
    requires sib { IsTrue (fits.sib_in_range behind.now.sib) }
    requires disp { length behind.now.disp.now ≤ 8 }
    ensures { (state : PrefixState) → b ≡ bit_b bits state → x ≡ bit_x state
        → out.new ≡ MemOperand (spec.memory_wide bits asize state m behind.now.sib behind.now.next behind.now.disp.now) }
{
    match behind.sib {
        Some(s) => {
            let index = sib_index(asize, x, s);
            *out = Operand::Mem(memory_with_sib(asize, b, index, m, s, behind.disp));
        }
        None => base_into(bits, asize, b, m, behind, out),
    }
}

/// Writes to `out` the operand that is memory by ModRM, for any address size, given B and X.
#[inline(never)]
#[tactic(auto, unfolding(crate::specs::Meaning::memory_operand, crate::specs::Meaning::memory_of, row_fit::specs::Fits::modrm_in_range))]
fn memory_by_size_into(
    bits: Bits,
    asize: Bits,
    b: bool,
    x: bool,
    behind: &Behind,
    out: &mut Operand,
)
    requires modrm { IsTrue (fits.modrm_in_range behind.now.modrm) }
    requires sib { IsTrue (fits.sib_in_range behind.now.sib) }
    requires disp { length behind.now.disp.now ≤ 8 }
    ensures { (state : PrefixState) → spec.HasAddressParts bits state asize b x
        → out.new ≡ spec.memory_operand bits state behind.now.modrm behind.now.sib behind.now.disp.now behind.now.next }
{
    match behind.modrm {
        None => *out = Operand::Absent,
        Some(m) => match asize {
            Bits::B16 => *out = Operand::Mem(memory_16(m, behind.disp)),
            Bits::B32 => wide_into(bits, Bits::B32, b, x, m, behind, out),
            Bits::B64 => wide_into(bits, Bits::B64, b, x, m, behind, out),
        },
    }
}

/// Writes to `out` the operand that is memory by ModRM, given the address size, B and X.
// The most frequent addresses, 64-bit without SIB, take few registers here; the others are written by a call.
#[inline(never)]
#[tactic(auto, unfolding(crate::specs::Meaning::memory_operand, crate::specs::Meaning::memory_of, row_fit::specs::Fits::modrm_in_range))]
fn memory_by_into(bits: Bits, asize: Bits, b: bool, x: bool, behind: &Behind, out: &mut Operand)
    requires modrm { IsTrue (fits.modrm_in_range behind.now.modrm) }
    requires sib { IsTrue (fits.sib_in_range behind.now.sib) }
    requires disp { length behind.now.disp.now ≤ 8 }
    ensures { (state : PrefixState) → spec.HasAddressParts bits state asize b x
        → out.new ≡ spec.memory_operand bits state behind.now.modrm behind.now.sib behind.now.disp.now behind.now.next }
{
    match (asize, behind.modrm, behind.sib) {
        (Bits::B64, Some(m), None) => base_into(bits, Bits::B64, b, m, behind, out),
        _ => memory_by_size_into(bits, asize, b, x, behind, out),
    }
}

/// Writes to `out` the operand that is memory by ModRM.
// The front itself is not handed on: so it need not stand in memory.
#[inline(always)]
pub(crate) fn memory_into(bits: Bits, state: &PrefixState, behind: &Behind, out: &mut Operand)
    requires modrm { IsTrue (fits.modrm_in_range behind.now.modrm) }
    requires sib { IsTrue (fits.sib_in_range behind.now.sib) }
    requires disp { length behind.now.disp.now ≤ 8 }
    ensures { out.new ≡ spec.memory_operand bits state.now behind.now.modrm behind.now.sib behind.now.disp.now behind.now.next }
{
    let asize = state_address_size(bits, state);
    memory_by_into(bits, asize, bit_b(bits, state), bit_x(state), behind, out);
}

/// The address of a gather.
#[tactic(auto, unfolding(crate::specs::Meaning::gather_memory, row_fit::specs::Fits::sib_in_range, row_fit::specs::Fits::index_number))]
fn gather_memory(
    bits: Bits,
    size: Bits,
    l: LBit,
    state: &PrefixState,
    file: File,
    m: ModRm,
    sib: Option<Sib>,
    disp: &[u8],
) -> Operand
    requires sib { IsTrue (fits.sib_in_range sib) }
    requires disp { length disp.now ≤ 8 }
    ensures { (row : Row) → spec.HasSizes bits state.now size l row
        → result ≡ spec.gather_memory bits row state.now file m sib disp.now }
{
    match sib {
        None => Operand::Absent,
        Some(s) => {
            let index = register_of_size(
                bits,
                size,
                l,
                state,
                file,
                number_u8(index_number(state, Some(s))),
            );
            let asize = state_address_size(bits, state);
            let b = bit_b(bits, state);
            Operand::Mem(memory_with_sib(asize, b, Some(index), m, s, disp))
        }
    }
}

/// The register number in the upper four bits of the last byte.
#[tactic(auto, unfolding(crate::specs::Meaning::last_byte_number))]
fn last_byte_number(bits: Bits, imm: &[u8]) -> u8
    ensures { result ≡ spec.last_byte_number bits imm.now }
{
    let b = if imm.len() > 0 { imm[0] } else { 0 };
    if is_64(bits) { b / 16 } else { b / 16 % 8 }
}

/// An absolute address.
#[tactic(auto, unfolding(crate::specs::Meaning::memory_absolute))]
fn memory_absolute(asize: Bits, disp: &[u8]) -> Mem
    requires { length disp.now ≤ 8 }
    ensures { result ≡ spec.memory_absolute asize disp.now }
{
    Mem {
        base: None,
        index: None,
        scale: 1,
        disp: sign_extended(asize, disp),
        disp_size: disp_size_of(disp.len()),
    }
}

/// A near target.
#[inline(always)]
#[tactic(auto, unfolding(crate::specs::Meaning::near_target))]
pub(crate) fn near_target(size: Bits, next: u64, imm: &[u8]) -> Operand
    requires { length imm.now ≤ 8 }
    ensures { result ≡ spec.near_target size next imm.now }
{
    Operand::Near(target(size, next, imm))
}

/// Returns the number that the fields encode, below 16.
#[tactic(auto, unfolding(row_fit::specs::Fits::modrm_in_range, row_fit::specs::Fits::reg_number))]
pub(crate) fn reg_number_u8(state: &PrefixState, m: Option<ModRm>) -> u8
    requires { IsTrue (fits.modrm_in_range m) }
    ensures { result ≡ fits.reg_number state.now m }
{
    number_u8(reg_number(state, m))
}

/// Returns the number that r/m encodes, below 16.
#[tactic(auto, unfolding(row_fit::specs::Fits::modrm_in_range, row_fit::specs::Fits::rm_number))]
pub(crate) fn rm_number_u8(bits: Bits, state: &PrefixState, m: Option<ModRm>) -> u8
    requires { IsTrue (fits.modrm_in_range m) }
    ensures { result ≡ fits.rm_number bits state.now m }
{
    number_u8(rm_number(bits, state, m))
}

/// A far pointer: the offset, then the selector of two bytes.
#[tactic(auto, unfolding(crate::specs::Meaning::far_pointer))]
fn far_pointer(imm: &[u8]) -> Operand
    requires { length imm.now ≤ 6 }
    ensures { result ≡ spec.far_pointer imm.now }
{
    let at = imm.len().saturating_sub(2);
    let (offset, selector) = imm.split_at(at);
    Operand::Far {
        selector: little_endian(selector) as u16,
        offset: little_endian(offset) as u32,
    }
}

/// The operand of a gather.
fn gather_operand(
    bits: Bits,
    size: Bits,
    l: LBit,
    state: &PrefixState,
    file: File,
    m: Option<ModRm>,
    sib: Option<Sib>,
    disp: &[u8],
) -> Operand
    requires sib { IsTrue (fits.sib_in_range sib) }
    requires disp { length disp.now ≤ 8 }
    ensures { (row : Row) → spec.HasSizes bits state.now size l row
        → result ≡ spec.with_modrm (λ m. spec.gather_memory bits row state.now file m sib disp.now) m }
{
    match m {
        None => Operand::Absent,
        Some(m) => gather_memory(bits, size, l, state, file, m, sib, disp),
    }
}

/// The bytes after the opcode byte of an instruction, and the address after its last byte.
#[derive(Clone, Copy)]
pub struct Behind<'a> {
    pub modrm: Option<ModRm>,
    pub sib: Option<Sib>,
    pub disp: &'a [u8],
    pub imm: &'a [u8],
    pub next: u64,
}

/// The register of a number that an operand of the kind names, written to `out`.
#[inline(always)]
pub(crate) fn register_into(
    bits: Bits,
    size: Bits,
    l: LBit,
    state: &PrefixState,
    kind: OpKind,
    n: u8,
    out: &mut Operand,
)
    ensures { (row : Row) → spec.HasSizes bits state.now size l row
        → out.new ≡ Reg (spec.register_of bits row state.now (file_of kind) n) }
{
    *out = Operand::Reg(register_of_size(bits, size, l, state, file_of_kind(kind), n));
}

/// Writes to `out` the operand of a method; `imm` are its own bytes of the immediates. Returns whether the operand is memory.
// Each arm writes `out`: an operand that all arms hand on is put together from its parts again.
#[inline(always)]
#[tactic(auto, unfolding(crate::specs::Meaning::operand_by, row_fit::specs::Fits::is_memory_method))]
pub(crate) fn operand_into(
    bits: Bits,
    size: Bits,
    l: LBit,
    state: &PrefixState,
    behind: &Behind,
    kind: OpKind,
    method: Method,
    imm: &[u8],
    out: &mut Operand,
) -> bool
    requires modrm { IsTrue (fits.modrm_in_range behind.now.modrm) }
    requires sib { IsTrue (fits.sib_in_range behind.now.sib) }
    requires disp { length behind.now.disp.now ≤ 8 }
    requires imm { length imm.now ≤ 8 }
    requires pointer { method ≡ PointerMethod → length imm.now ≤ 6 }
    ensures operand { (row : Row) → spec.HasSizes bits state.now size l row → out.new ≡ spec.operand_by bits row state.now
        (spec.tail behind.now.modrm behind.now.sib behind.now.disp.now behind.now.next) kind method imm.now }
    ensures memory { result ≡ fits.is_memory_method method behind.now.modrm }
{
    match method {
        Method::Nothing => {
            *out = Operand::Absent;
            false
        }
        Method::ModRmReg => {
            let n = reg_number_u8(state, behind.modrm);
            register_into(bits, size, l, state, kind, n, out);
            false
        }
        Method::RegisterOrMemory => {
            if mode_is_memory(behind.modrm) {
                memory_into(bits, state, behind, out);
                true
            } else {
                let n = rm_number_u8(bits, state, behind.modrm);
                register_into(bits, size, l, state, kind, n, out);
                false
            }
        }
        Method::RegisterOnly | Method::AnyMode => {
            let n = rm_number_u8(bits, state, behind.modrm);
            register_into(bits, size, l, state, kind, n, out);
            false
        }
        Method::MemoryOnly => {
            memory_into(bits, state, behind, out);
            true
        }
        Method::OpcodeLow => {
            let n = number_u8(with_high_bit(bit_b(bits, state), state.opcode % 8));
            register_into(bits, size, l, state, kind, n, out);
            false
        }
        Method::Vvvv => {
            let n = vvvv_number(bits, state);
            register_into(bits, size, l, state, kind, n, out);
            false
        }
        Method::LastByte => {
            let n = last_byte_number(bits, imm);
            register_into(bits, size, l, state, kind, n, out);
            false
        }
        Method::Gather => {
            *out = gather_operand(
                bits,
                size,
                l,
                state,
                file_of_kind(kind),
                behind.modrm,
                behind.sib,
                behind.disp,
            );
            true
        }
        Method::Offset => {
            *out = Operand::Mem(memory_absolute(state_address_size(bits, state), behind.disp));
            true
        }
        Method::AsWritten => {
            *out = Operand::Imm(little_endian(imm));
            false
        }
        Method::Extended => {
            *out = Operand::Imm(sign_extended(size, imm));
            false
        }
        Method::Near => {
            *out = near_target(size, behind.next, imm);
            false
        }
        Method::Pointer => {
            *out = far_pointer(imm);
            false
        }
        Method::Fixed => {
            let n = fixed_number_of_kind(kind);
            register_into(bits, size, l, state, kind, n, out);
            false
        }
        Method::One => {
            *out = Operand::Imm(1);
            false
        }
    }
}

/// The bytes of the immediates before those of operand n.
#[tactic(auto, unfolding(crate::specs::Meaning::immediates_before))]
fn immediates_before(size: Bits, row: &Row, n: usize) -> usize
    requires { n < 4 }
    ensures { result ≡ spec.immediates_before size row.now n }
{
    if n == 0 {
        0
    } else {
        immediate_bytes(size, kind_at(row, 0)) as usize
            + (if n == 1 {
                0
            } else {
                immediate_bytes(size, kind_at(row, 1)) as usize
                    + (if n == 2 {
                        0
                    } else {
                        immediate_bytes(size, kind_at(row, 2)) as usize
                    })
            })
    }
}

/// The bytes of the immediates that are those of operand n, which has so many.
// Nearly every row with immediates has them in one operand, whose they all are.
#[inline(always)]
#[tactic(auto, unfolding(crate::specs::Meaning::own_immediate))]
fn own_immediate<'a>(size: Bits, row: &Row, n: usize, imm: &'a [u8], len: usize) -> &'a [u8]
    requires whole { length imm.now ≡ fits.immediates_bytes size row.now }
    requires number { n < 4 }
    requires len { len ≡ fits.immediate_bytes size (fits.kind_at row.now n) }
    ensures { result.now ≡ spec.own_immediate size row.now n imm.now }
{
    if len == 0 {
        &[]
    } else if len == imm.len() {
        imm
    } else {
        // A copy, so that the row itself need not stand in memory.
        let row = *row;
        let (_, rest) = imm.split_at(immediates_before(size, &row, n));
        let (own, _) = rest.split_at(len);
        own
    }
}

/// Whether an operand of the kind has bytes of the immediates.
#[inline(always)]
#[tactic(auto, unfolding(row_fit::specs::Fits::immediate_bytes, instruction_parts::specs::Kinds::immediate_width))]
fn has_immediate(kind: OpKind) -> bool
    ensures { result ≡ false → (size : Bits) → fits.immediate_bytes size kind ≡ 0 }
{
    match kind {
        OpKind::Ib
        | OpKind::Iw
        | OpKind::Ibs
        | OpKind::Iz
        | OpKind::Iv
        | OpKind::Jb
        | OpKind::Jz
        | OpKind::Ap
        | OpKind::Lx => true,
        _ => false,
    }
}

/// Returns the bytes of an operand's own immediate. It is called only if its kind has some.
#[inline(always)]
#[tactic(auto, unfolding(crate::specs::Meaning::own_immediate))]
fn immediate_of<'a>(size: Bits, row: &Row, n: usize, kind: OpKind, imm: &'a [u8]) -> &'a [u8]
    requires whole { length imm.now ≡ fits.immediates_bytes size row.now }
    requires number { n < 4 }
    requires kind { kind ≡ fits.kind_at row.now n }
    ensures { result.now ≡ spec.own_immediate size row.now n imm.now }
{
    if has_immediate(kind) {
        let len = immediate_bytes(size, kind) as usize;
        own_immediate(size, row, n, imm, len)
    } else {
        &[]
    }
}

/// Writes to `out` the operand of a kind, if there is one; `own` are its own bytes of the immediates. Returns whether the operand is memory.
// Of the row it gets what it needs, so that the row need not stand in memory.
#[inline(never)]
fn present_into(
    bits: Bits,
    size: Bits,
    l: LBit,
    state: &PrefixState,
    behind: &Behind,
    kind: OpKind,
    own: &[u8],
    out: &mut Operand,
) -> bool
    requires modrm { IsTrue (fits.modrm_in_range behind.now.modrm) }
    requires sib { IsTrue (fits.sib_in_range behind.now.sib) }
    requires disp { length behind.now.disp.now ≤ 8 }
    requires own { length own.now ≤ 8 }
    requires pointer { method_of kind ≡ PointerMethod → length own.now ≤ 6 }
    ensures operand { (row : Row) → spec.HasSizes bits state.now size l row → out.new ≡ spec.operand_by bits row state.now
        (spec.tail behind.now.modrm behind.now.sib behind.now.disp.now behind.now.next) kind (method_of kind) own.now }
    ensures memory { result ≡ fits.is_memory_method (method_of kind) behind.now.modrm }
{
    let method = method_of_kind(kind);
    operand_into(bits, size, l, state, behind, kind, method, own, out)
}

/// Writes operand `n` to `out`. Returns whether the operand is memory.
#[inline(always)]
#[tactic(auto, unfolding(crate::specs::Meaning::operand_at, instruction_parts::specs::Kinds::method_of, row_fit::specs::Fits::is_memory_method))]
fn operand_at_into(
    bits: Bits,
    size: Bits,
    row: &Row,
    state: &PrefixState,
    behind: &Behind,
    n: usize,
    kind: OpKind,
    out: &mut Operand,
) -> bool
    requires size { size ≡ state_size bits row.now state.now }
    requires modrm { IsTrue (fits.modrm_in_range behind.now.modrm) }
    requires sib { IsTrue (fits.sib_in_range behind.now.sib) }
    requires disp { length behind.now.disp.now ≤ 8 }
    requires imm { length behind.now.imm.now ≤ 8 }
    requires whole { length behind.now.imm.now ≡ fits.immediates_bytes size row.now }
    requires number { n < 4 }
    requires kind { kind ≡ fits.kind_at row.now n }
    ensures operand { out.new ≡ spec.operand_at bits row.now state.now
        (spec.tail behind.now.modrm behind.now.sib behind.now.disp.now behind.now.next) behind.now.imm.now n }
    ensures memory { result ≡ fits.is_memory_method (method_of kind) behind.now.modrm }
{
    match kind {
        OpKind::Absent => {
            *out = Operand::Absent;
            false
        }
        _ => {
            let own = immediate_of(size, row, n, kind, behind.imm);
            present_into(bits, size, row.l, state, behind, kind, own, out)
        }
    }
}

/// The classes any and NF3 keep the counting repeat prefix.
#[tactic(auto, unfolding(crate::specs::Meaning::kept_repeat))]
pub(crate) fn kept_repeat(class: Class, rep: Rep) -> Rep
    ensures { result ≡ spec.kept_repeat class rep }
{
    match class {
        Class::Any => rep,
        Class::Nf3 => rep,
        _ => Rep::None,
    }
}

/// Whether one of four operands is memory.
pub(crate) fn any_of(first: bool, second: bool, third: bool, fourth: bool) -> bool
    ensures { result ≡ first || (second || (third || fourth)) }
{
    first || second || third || fourth
}

/// Returns the address size of an instruction, if some operand is memory or the row has the mark `ADDRESS`.
#[inline(always)]
pub(crate) fn kept_address_size(
    bits: Bits,
    row: &Row,
    state: &PrefixState,
    memory: bool,
) -> Option<Bits>
    ensures { result ≡ if memory || has_address_mark row.now then Some (state_address_size bits state.now) else None }
{
    if memory || has_address_mark(row) {
        Some(state_address_size(bits, state))
    } else {
        None
    }
}

/// The value of an instruction that has not been read.
pub const UNREAD: Instr = Instr {
    code: Code(0),
    lock: false,
    rep: Rep::None,
    seg: None,
    asize: None,
    ops: [Operand::Absent; 4],
};

/// Writes to `out` what a state, a tail and its immediates mean. Returning the instruction would copy it at each call.
#[inline(always)]
#[tactic(auto, unfolding(crate::specs::Meaning::instr_of))]
pub fn instr_into(
    bits: Bits,
    code: Code,
    row: &Row,
    state: &PrefixState,
    behind: &Behind,
    out: &mut Instr,
)
    requires modrm { IsTrue (fits.modrm_in_range behind.now.modrm) }
    requires sib { IsTrue (fits.sib_in_range behind.now.sib) }
    requires disp { length behind.now.disp.now ≤ 8 }
    requires imm { length behind.now.imm.now ≤ 8 }
    requires whole { length behind.now.imm.now ≡ fits.immediates_bytes (state_size bits row.now state.now) row.now }
    ensures { out.new ≡ spec.instr_of bits code row.now state.now
        (spec.tail behind.now.modrm behind.now.sib behind.now.disp.now behind.now.next) behind.now.imm.now }
{
    let size = state_size(bits, row, state);
    let [first_kind, second_kind, third_kind, fourth_kind] = row.ops;
    let first = operand_at_into(
        bits,
        size,
        row,
        state,
        behind,
        0,
        first_kind,
        &mut out.ops[0],
    );
    let second = operand_at_into(
        bits,
        size,
        row,
        state,
        behind,
        1,
        second_kind,
        &mut out.ops[1],
    );
    let third = operand_at_into(
        bits,
        size,
        row,
        state,
        behind,
        2,
        third_kind,
        &mut out.ops[2],
    );
    let fourth = operand_at_into(
        bits,
        size,
        row,
        state,
        behind,
        3,
        fourth_kind,
        &mut out.ops[3],
    );
    out.code = code;
    out.lock = state.lock;
    out.rep = kept_repeat(row.class, state.rep);
    out.seg = state.seg;
    out.asize = kept_address_size(bits, row, state, any_of(first, second, third, fourth));
}

/// The length of a spelling of the row.
#[tactic(auto, unfolding(instruction_parts::specs::Bytes::bytes_of, instruction_parts::specs::Bytes::front_bytes, instruction_parts::specs::Bytes::tail_bytes))]
fn spelling_len(row: &Row, s: &Spelling) -> usize
    ensures value { result ≡ length (bytes.bytes_of row.now s.now) }
    ensures small { result < 64 }
{
    let modrm = if s.modrm.is_some() { 1 } else { 0 };
    let sib = if s.sib.is_some() { 1 } else { 0 };
    s.prefixes.len()
        + lead_len(row.map, s.vex) as usize
        + 1
        + modrm
        + sib
        + s.disp.len()
        + s.imm.len()
}

/// Returns what a fitting spelling means at an address.
#[tactic(auto, unfolding(crate::specs::Meaning::meaning))]
pub fn row_meaning(bits: Bits, ip: u64, code: Code, row: &Row, s: &Spelling) -> Instr
    requires sound { IsTrue (sound row.now) }
    requires fitting { IsTrue (fits.fits bits row.now s.now) }
    ensures { result ≡ spec.meaning bits ip code row.now s.now }
{
    let state = state_of(bits, row, s);
    let next = wrap(bits, ip as u128 + spelling_len(row, s) as u128);
    let behind = Behind {
        modrm: s.modrm,
        sib: s.sib,
        disp: s.disp.as_slice(),
        imm: s.imm.as_slice(),
        next,
    };
    let mut instr = UNREAD;
    instr_into(bits, code, row, &state, &behind, &mut instr);
    instr
}
