//! The conditions on what follows the opcode byte.

ghost use Rattle.std.specs.Prelude.{◌≡◌, ◌<◌, ◌+◌};
ghost use Rattle.std.specs.List.{list_all};
ghost use Rattle.row_fit.specs.Fits as spec;
ghost use Rattle.instruction_parts.specs.Bytes as bytes;

use crate::fits::{
    is_map_one, is_repeat_f3, mode_is_memory, opcode_and_modrm_fit, reads_gather, reads_mode,
    reads_offset,
};
use instruction_parts::counting::{is_16, is_64};
use instruction_parts::kinds::{Method, method_of_kind};
use instruction_parts::row_types::{Class, OpKind, Plus, Row};
use instruction_parts::sizes::{
    bit_b, bit_r, bit_x, is_lockable, is_vex_row, size_bytes, state_address_size, state_size,
};
use instruction_parts::spelling::{ModRm, PrefixState, Sib};
use x86_values::Bits;

/// Whether both hold, or neither.
fn same_bool(a: bool, b: bool) -> bool
    ensures { result ≡ spec.same_bool a b }
{
    if a { b } else { !b }
}

/// Returns ModRM.reg, or 0 without a ModRM.
pub fn reg_field(m: Option<ModRm>) -> u8
    ensures { result ≡ spec.reg_field m }
{
    match m {
        None => 0,
        Some(m) => m.reg,
    }
}

/// Returns ModRM.rm, or 0 without a ModRM.
pub fn rm_field(m: Option<ModRm>) -> u8
    ensures { result ≡ spec.rm_field m }
{
    match m {
        None => 0,
        Some(m) => m.rm,
    }
}

/// Returns a number, plus 8 if its high bit is set.
pub fn with_high_bit(b: bool, n: u8) -> u16
    ensures { result ≡ spec.with_high_bit b n }
{
    if b { 8 + n as u16 } else { n as u16 }
}

/// Returns the number in ModRM.reg with R.
#[tactic(auto, unfolding(crate::specs::Fits::reg_number))]
pub fn reg_number(state: &PrefixState, m: Option<ModRm>) -> u16
    ensures { result ≡ spec.reg_number state.now m }
{
    with_high_bit(bit_r(state), reg_field(m))
}

/// Returns the number in ModRM.rm with B.
#[tactic(auto, unfolding(crate::specs::Fits::rm_number))]
pub fn rm_number(bits: Bits, state: &PrefixState, m: Option<ModRm>) -> u16
    ensures { result ≡ spec.rm_number bits state.now m }
{
    with_high_bit(bit_b(bits, state), rm_field(m))
}

/// Returns the number in vvvv.
#[tactic(auto, unfolding(crate::specs::Fits::vvvv_number))]
pub fn vvvv_number(bits: Bits, state: &PrefixState) -> u8
    ensures { result ≡ spec.vvvv_number bits state.now }
{
    match state.vex {
        None => 0,
        Some(v) => { if is_64(bits) { v.vvvv } else { v.vvvv % 8 } }
    }
}

/// Returns the number in SIB.index with X, or 0 without a SIB.
#[tactic(auto, unfolding(crate::specs::Fits::index_number))]
pub fn index_number(state: &PrefixState, sib: Option<Sib>) -> u16
    ensures { result ≡ spec.index_number state.now sib }
{
    match sib {
        None => with_high_bit(bit_x(state), 0),
        Some(s) => with_high_bit(bit_x(state), s.index),
    }
}

/// Returns whether ModRM requires a SIB: rm is 4 and mod is not 3, in 32 and 64-bit addressing.
#[tactic(auto, unfolding(crate::specs::Fits::needs_sib))]
pub fn needs_sib(asize: Bits, m: ModRm) -> bool
    ensures { result ≡ spec.needs_sib asize m }
{
    !is_16(asize) && m.mode3 < 3 && m.rm == 4
}

/// The field base of a SIB, 0 without one.
fn base_field(sib: Option<Sib>) -> u8
    ensures { result ≡ spec.base_field sib }
{
    match sib {
        None => 0,
        Some(s) => s.base,
    }
}

/// Returns whether mod 0 encodes a displacement alone.
#[tactic(auto, unfolding(crate::specs::Fits::is_displacement_alone))]
pub fn is_displacement_alone(asize: Bits, m: ModRm, sib: Option<Sib>) -> bool
    ensures { result ≡ spec.is_displacement_alone asize m sib }
{
    m.mode3 == 0
        && (if is_16(asize) {
            m.rm == 6
        } else {
            m.rm == 5 || (m.rm == 4 && base_field(sib) == 5)
        })
}

/// The bytes of a displacement that is no byte: 2 in 16-bit addressing, else 4.
fn full_displacement(asize: Bits) -> u8
    ensures { result ≡ spec.full_displacement asize }
{
    if is_16(asize) { 2 } else { 4 }
}

/// Returns the number of displacement bytes that ModRM and SIB require.
#[tactic(auto, unfolding(crate::specs::Fits::displacement_bytes))]
pub fn displacement_bytes(asize: Bits, m: ModRm, sib: Option<Sib>) -> u8
    ensures { result ≡ spec.displacement_bytes asize m sib }
{
    if is_displacement_alone(asize, m, sib) {
        full_displacement(asize)
    } else if m.mode3 == 1 {
        1
    } else if m.mode3 == 2 {
        full_displacement(asize)
    } else {
        0
    }
}

/// Returns whether SIB and displacement have the lengths that ModRM requires.
#[tactic(auto, unfolding(crate::specs::Fits::address_fits))]
fn address_fits(asize: Bits, row: &Row, m: Option<ModRm>, sib: Option<Sib>, given: usize) -> bool
    ensures { result ≡ spec.address_fits asize row.now m sib given }
{
    match m {
        None => {
            sib.is_none()
                && given
                    == (if reads_offset(row) {
                        size_bytes(asize) as usize
                    } else {
                        0
                    })
        }
        Some(m) => {
            if reads_mode(row) {
                same_bool(sib.is_some(), needs_sib(asize, m))
                    && given == displacement_bytes(asize, m, sib) as usize
            } else {
                sib.is_none() && given == 0
            }
        }
    }
}

/// Returns the number of immediate bytes of an operand, given the operand size.
#[inline(always)]
#[tactic(auto, unfolding(crate::specs::Fits::immediate_bytes, instruction_parts::specs::Kinds::immediate_width))]
pub fn immediate_bytes(size: Bits, kind: OpKind) -> u8
    ensures value { result ≡ spec.immediate_bytes size kind }
    ensures short { result < 17 }
{
    match kind {
        OpKind::Ib | OpKind::Ibs | OpKind::Jb | OpKind::Lx => 1,
        OpKind::Iw => 2,
        OpKind::Iz | OpKind::Jz => if is_16(size) { 2 } else { 4 },
        OpKind::Iv => size_bytes(size),
        OpKind::Ap => if is_16(size) { 4 } else { 6 },
        _ => 0,
    }
}

/// Returns the kind of an operand.
pub fn kind_at(row: &Row, n: usize) -> OpKind
    requires { n < 4 }
    ensures { result ≡ spec.kind_at row.now n }
{
    row.ops[n]
}

/// Returns the number of bytes of all immediates.
#[inline(always)]
#[tactic(auto, unfolding(crate::specs::Fits::immediates_bytes))]
pub fn immediates_bytes(size: Bits, row: &Row) -> u8
    ensures value { result ≡ spec.immediates_bytes size row.now }
    ensures short { result < 65 }
{
    let first = immediate_bytes(size, kind_at(row, 0));
    let second = immediate_bytes(size, kind_at(row, 1));
    let third = immediate_bytes(size, kind_at(row, 2));
    let fourth = immediate_bytes(size, kind_at(row, 3));
    first + (second + (third + fourth))
}

/// Returns whether the lengths of SIB, displacement and immediates are right.
#[tactic(auto, unfolding(crate::specs::Fits::lengths_fit))]
pub fn lengths_fit(
    bits: Bits,
    row: &Row,
    state: &PrefixState,
    m: Option<ModRm>,
    sib: Option<Sib>,
    disp: usize,
    imm: usize,
) -> bool
    ensures { result ≡ spec.lengths_fit bits row.now state.now m sib disp imm }
{
    address_fits(state_address_size(bits, state), row, m, sib, disp)
        && imm == immediates_bytes(state_size(bits, row, state), row) as usize
}

/// Returns whether an operand with this method is memory.
#[tactic(auto, unfolding(crate::specs::Fits::is_memory_method))]
pub fn is_memory_method(method: Method, m: Option<ModRm>) -> bool
    ensures { result ≡ spec.is_memory_method method m }
{
    match method {
        Method::RegisterOrMemory => mode_is_memory(m),
        Method::MemoryOnly => true,
        Method::Gather => true,
        Method::Offset => true,
        _ => false,
    }
}

/// Returns whether LOCK occurs only on a lockable row whose first operand is memory.
#[tactic(auto, unfolding(crate::specs::Fits::lock_fits))]
pub fn lock_fits(row: &Row, state: &PrefixState, m: Option<ModRm>) -> bool
    ensures { result ≡ spec.lock_fits row.now state.now m }
{
    !state.lock || (is_lockable(row) && is_memory_method(method_of_kind(kind_at(row, 0)), m))
}

/// Returns whether a control register exists: CR0, CR2, CR3, CR4 and, in 64-bit mode, CR8.
#[tactic(auto, unfolding(crate::specs::Fits::is_control_number))]
pub fn is_control_number(bits: Bits, n: u16) -> bool
    ensures { result ≡ spec.is_control_number bits n }
{
    n == 0 || n == 2 || n == 3 || n == 4 || (is_64(bits) && n == 8)
}

/// The register in ModRM.reg is one that the kind names.
#[tactic(auto, unfolding(crate::specs::Fits::register_fits))]
fn register_fits(bits: Bits, state: &PrefixState, m: Option<ModRm>, kind: OpKind) -> bool
    ensures { result ≡ spec.register_fits bits state.now m kind }
{
    match kind {
        OpKind::Sw => reg_field(m) < 6,
        OpKind::Cn => is_control_number(bits, reg_number(state, m)),
        OpKind::Dn => !bit_r(state),
        _ => true,
    }
}

/// The registers in ModRM.reg.
fn all_registers_fit(bits: Bits, row: &Row, state: &PrefixState, m: Option<ModRm>) -> bool
    ensures { result ≡ list_all (spec.register_fits bits state.now m) row.now.ops }
{
    row.ops
        .iter()
        .all(|kind| register_fits(bits, state, m, *kind))
}

/// A segment register that is written is not CS.
#[tactic(auto, unfolding(crate::specs::Fits::destination_fits))]
fn destination_fits(row: &Row, m: Option<ModRm>) -> bool
    ensures { result ≡ spec.destination_fits row.now m }
{
    match kind_at(row, 0) {
        OpKind::Sw => !(reg_field(m) == 1),
        _ => true,
    }
}

/// Returns whether there is a ModRM that requires a SIB.
fn modrm_needs_sib(asize: Bits, m: Option<ModRm>) -> bool
    ensures { result ≡ spec.has_modrm (λ m. spec.needs_sib asize m) m }
{
    match m {
        None => false,
        Some(m) => needs_sib(asize, m),
    }
}

/// A gather has 32 or 64-bit addressing and a SIB, and its three registers differ.
#[tactic(auto, unfolding(crate::specs::Fits::gather_fits))]
fn gather_fits(bits: Bits, state: &PrefixState, m: Option<ModRm>, sib: Option<Sib>) -> bool
    ensures { result ≡ spec.gather_fits bits state.now m sib }
{
    let destination = reg_number(state, m);
    let index = index_number(state, sib);
    let mask = vvvv_number(bits, state) as u16;
    modrm_needs_sib(state_address_size(bits, state), m)
        && !(destination == index)
        && !(destination == mask)
        && !(index == mask)
}

/// The opcode byte 90 of the one-byte map.
#[tactic(auto, unfolding(crate::specs::Fits::nop_fits))]
fn nop_fits(bits: Bits, row: &Row, state: &PrefixState) -> bool
    ensures { result ≡ spec.nop_fits bits row.now state.now }
{
    match row.plus {
        Plus::Register => bit_b(bits, state) && !is_repeat_f3(state.rep),
        _ => match row.class {
            Class::F3 => true,
            _ => !bit_b(bits, state),
        },
    }
}

/// Returns whether the byte is 90 of the one-byte map.
pub fn is_nop_byte(row: &Row, opcode: u8) -> bool
    ensures { result ≡ spec.is_nop_byte row.now opcode }
{
    !is_vex_row(row) && is_map_one(row.map) && opcode == 0x90
}

/// Returns whether the conditions on registers hold.
#[inline(always)]
#[tactic(auto, unfolding(crate::specs::Fits::registers_fit))]
pub fn registers_fit(
    bits: Bits,
    row: &Row,
    state: &PrefixState,
    m: Option<ModRm>,
    sib: Option<Sib>,
) -> bool
    ensures { result ≡ spec.registers_fit bits row.now state.now m sib }
{
    all_registers_fit(bits, row, state, m)
        && destination_fits(row, m)
        && (!reads_gather(row) || gather_fits(bits, state, m, sib))
        && (!is_nop_byte(row, state.opcode) || nop_fits(bits, row, state))
}

/// Returns whether the conditions on the bytes after the opcode byte hold.
#[tactic(auto, unfolding(crate::specs::Fits::tail_fits))]
pub fn tail_fits(
    bits: Bits,
    row: &Row,
    state: &PrefixState,
    m: Option<ModRm>,
    sib: Option<Sib>,
    disp: usize,
    imm: usize,
) -> bool
    ensures { result ≡ spec.tail_fits bits row.now state.now m sib disp imm }
{
    opcode_and_modrm_fit(row, state.opcode, m)
        && lengths_fit(bits, row, state, m, sib, disp, imm)
        && lock_fits(row, state, m)
        && registers_fit(bits, row, state, m, sib)
}
