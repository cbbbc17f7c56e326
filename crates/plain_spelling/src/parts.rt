//! What the plain spelling of an instruction is made of, computed once.

ghost use Rattle.std.specs.Prelude.{◌≡◌, ◌<◌, ◌≤◌, ◌+◌, min, IsTrue, false};
ghost use Rattle.x86_values.specs.declared.Bits.TheVariants.{B16, B32, B64};
ghost use Rattle.row_fit.specs.Fits.{immediate_bytes as bytes_of_kind, immediates_bytes as bytes_of_row};
ghost use Rattle.instruction_parts.specs.Sizes as sizes;
ghost use Rattle.row_fit.specs.Sound.{sound};
ghost use Rattle.plain_spelling.specs.PlainFront as front;
ghost use Rattle.plain_spelling.specs.PlainTail as spec;
ghost use Rattle.plain_spelling.specs.Parts.{ArePartsOf};
ghost use Rattle.plain_spelling.specs.Asked.{AreAskedOf};

use crate::front::{asks_66_of, asks_rex_w, byte_vex, front_with, plain_size_of};
use crate::registers::{Asked, numbers_asked};
use crate::tail::{Addressing, plain_addressing};
use instruction_parts::row_types::{OpKind, Row};
use instruction_parts::sizes::is_vex_row;
use instruction_parts::spelling::{PrefixState, Vex};
use row_fit::tail_fits::{immediate_bytes, kind_at};
use x86_values::{Bits, Instr, wrap};

/// The parts of the plain spelling of an instruction at an address.
#[derive(Clone, Copy)]
pub struct PlainParts {
    /// The address.
    pub ip: u64,
    /// The front, with a vvvv of at most 255.
    pub state: PrefixState,
    pub addressing: Addressing,
    /// The operand size.
    pub size: Bits,
    /// How many bytes the displacement has, 0 to 8.
    pub displacement: u8,
    /// How many bytes the immediates have together, 0 to 32.
    pub immediates: u8,
    /// How many bytes it has, 1 to 63.
    pub len: u8,
    /// The address after it.
    pub next: u64,
}

/// Returns the number of immediate bytes of an operand, at most 8.
#[inline(always)]
#[tactic(auto, unfolding(row_fit::specs::Fits::immediate_bytes, instruction_parts::specs::Kinds::immediate_width))]
pub fn immediate_len(size: Bits, kind: OpKind) -> u8
    ensures value { result ≡ bytes_of_kind size kind }
    ensures small { result ≤ 8 }
{
    match kind {
        OpKind::Absent => 0,
        _ => immediate_bytes(size, kind),
    }
}

/// Returns the number of immediate bytes of an operand at operand size 16. Each size has its own function, in which a kind is one look-up in a table.
/// One function over the size would test the size again for each operand.
#[inline(always)]
#[tactic(auto, unfolding(row_fit::specs::Fits::immediate_bytes, instruction_parts::specs::Kinds::immediate_width))]
fn immediate_len_16(kind: OpKind) -> u8
    ensures value { result ≡ bytes_of_kind B16 kind }
    ensures small { result ≤ 8 }
{
    match kind {
        OpKind::Ib | OpKind::Ibs | OpKind::Jb | OpKind::Lx => 1,
        OpKind::Iw | OpKind::Iz | OpKind::Jz | OpKind::Iv => 2,
        OpKind::Ap => 4,
        _ => 0,
    }
}

/// How many immediate bytes a kind of operand has at operand size 32.
#[inline(always)]
#[tactic(auto, unfolding(row_fit::specs::Fits::immediate_bytes, instruction_parts::specs::Kinds::immediate_width))]
fn immediate_len_32(kind: OpKind) -> u8
    ensures value { result ≡ bytes_of_kind B32 kind }
    ensures small { result ≤ 8 }
{
    match kind {
        OpKind::Ib | OpKind::Ibs | OpKind::Jb | OpKind::Lx => 1,
        OpKind::Iw => 2,
        OpKind::Iz | OpKind::Jz | OpKind::Iv => 4,
        OpKind::Ap => 6,
        _ => 0,
    }
}

/// How many immediate bytes a kind of operand has at operand size 64.
#[inline(always)]
#[tactic(auto, unfolding(row_fit::specs::Fits::immediate_bytes, instruction_parts::specs::Kinds::immediate_width))]
fn immediate_len_64(kind: OpKind) -> u8
    ensures value { result ≡ bytes_of_kind B64 kind }
    ensures small { result ≤ 8 }
{
    match kind {
        OpKind::Ib | OpKind::Ibs | OpKind::Jb | OpKind::Lx => 1,
        OpKind::Iw => 2,
        OpKind::Iz | OpKind::Jz => 4,
        OpKind::Iv => 8,
        OpKind::Ap => 6,
        _ => 0,
    }
}

/// The bytes of all immediates, at most 32. At a size that is known each kind's is one look-up in a table.
#[inline(always)]
#[tactic(auto, unfolding(row_fit::specs::Fits::immediates_bytes))]
fn immediates_len(size: Bits, row: &Row) -> u8
    ensures value { result ≡ bytes_of_row size row.now }
    ensures small { result ≤ 32 }
{
    let first = kind_at(row, 0);
    let second = kind_at(row, 1);
    let third = kind_at(row, 2);
    let fourth = kind_at(row, 3);
    match size {
        Bits::B16 => immediate_len_16(first)
            + (immediate_len_16(second) + (immediate_len_16(third) + immediate_len_16(fourth))),
        Bits::B32 => immediate_len_32(first)
            + (immediate_len_32(second) + (immediate_len_32(third) + immediate_len_32(fourth))),
        Bits::B64 => immediate_len_64(first)
            + (immediate_len_64(second) + (immediate_len_64(third) + immediate_len_64(fourth))),
    }
}

/// The bytes of the displacement, at most 8.
#[inline(always)]
fn displacement_len(row: &Row, instr: &Instr, asked: &Asked) -> u8
    requires sound { IsTrue (sound row.now) }
    requires asked { AreAskedOf row.now instr.now asked.now }
    ensures value { result ≡ spec.operand_displacement (spec.address_operand row.now instr.now) }
    ensures small { result ≤ 8 }
{
    asked.displacement as u8
}

/// How many bytes the plain spelling has, by those of its front, its displacement and its immediates.
#[tactic(auto, unfolding(crate::specs::PlainTail::plain_len, row_fit::specs::Fits::immediates_bytes))]
fn plain_len(
    bits: Bits,
    row: &Row,
    instr: &Instr,
    used: u8,
    addressing: Addressing,
    displacement: u8,
    immediates: u8,
) -> u8
    requires used { used ≡ (front.plain_front_of bits row.now instr.now).used }
    requires few { used < 16 }
    requires modrm { addressing.modrm ≡ spec.plain_modrm bits row.now instr.now }
    requires sib { addressing.sib ≡ spec.plain_sib_of bits row.now instr.now }
    requires displacement { displacement ≡ spec.operand_displacement (spec.address_operand row.now instr.now) }
    requires displaced { displacement ≤ 8 }
    requires immediates { immediates ≡ bytes_of_row (spec.plain_size bits row.now) row.now }
    requires immediate { immediates ≤ 32 }
    ensures value { result ≡ spec.plain_len bits row.now instr.now }
    ensures small { result < 64 }
{
    let modrm = if addressing.modrm.is_some() { 1 } else { 0 };
    let sib = if addressing.sib.is_some() { 1 } else { 0 };
    used + (1 + (modrm + (sib + (displacement + immediates))))
}

/// Returns the parts of the plain spelling of an instruction of a row at an address, given the numbers that it requires, whether the row is a VEX
/// row, and the VEX of its front.
#[inline(always)]
#[tactic(auto, unfolding(crate::specs::PlainTail::plain_next, crate::specs::PlainFront::byte_front, crate::specs::PlainFront::plain_front_of))]
fn parts_with(
    bits: Bits,
    ip: u64,
    row: &Row,
    instr: &Instr,
    asked: &Asked,
    is_vex: bool,
    vex: Option<Vex>,
) -> PlainParts
    requires sound { IsTrue (sound row.now) }
    requires asked { AreAskedOf row.now instr.now asked.now }
    requires is_vex { is_vex ≡ sizes.is_vex_row row.now }
    requires vex { vex ≡ front.vex_with row.now instr.now (min 255 (front.number_asked_of front.number_in_vvvv row.now instr.now)) }
    ensures parts { ArePartsOf bits row.now instr.now result }
    ensures ip { result.ip ≡ ip }
    ensures small { result.len < 64 }
{
    let w = asks_rex_w(row);
    let size66 = asks_66_of(bits, row, is_vex);
    let addressing = plain_addressing(bits, row, instr, asked);
    let size = plain_size_of(bits, row, w, size66, is_vex);
    let displacement = displacement_len(row, instr, asked);
    let immediates = immediates_len(size, row);
    // Last, since its many fields would else be kept through the calls above.
    let state = front_with(bits, row, instr, asked, w, size66, is_vex, vex);
    let used = state.used;
    let len = plain_len(bits, row, instr, used, addressing, displacement, immediates);
    let next = wrap(bits, ip as u128 + len as u128);
    PlainParts {
        ip,
        state,
        addressing,
        size,
        displacement,
        immediates,
        len,
        next,
    }
}

/// Returns the parts of the plain spelling of an instruction of a VEX row. They are few, so [`plain_parts`] does not inline this.
#[inline(never)]
fn vex_parts(bits: Bits, ip: u64, row: &Row, instr: &Instr) -> PlainParts
    requires { IsTrue (sound row.now) }
    ensures parts { ArePartsOf bits row.now instr.now result }
    ensures ip { result.ip ≡ ip }
    ensures small { result.len < 64 }
{
    let asked = numbers_asked(row, instr);
    let vex = byte_vex(row, instr, &asked);
    parts_with(bits, ip, row, instr, &asked, is_vex_row(row), vex)
}

/// Returns the parts of the plain spelling of an instruction of a legacy row at an address.
///
/// It is inlined, so that the parts lie in the caller's frame once.
#[inline(always)]
pub fn legacy_parts(bits: Bits, ip: u64, row: &Row, instr: &Instr) -> PlainParts
    requires sound { IsTrue (sound row.now) }
    requires legacy { sizes.is_vex_row row.now ≡ false }
    ensures parts { ArePartsOf bits row.now instr.now result }
    ensures ip { result.ip ≡ ip }
    ensures small { result.len < 64 }
{
    let asked = numbers_asked(row, instr);
    parts_with(bits, ip, row, instr, &asked, false, None)
}

/// Returns the parts of the plain spelling of an instruction of a row at an address.
#[inline(always)]
pub fn plain_parts(bits: Bits, ip: u64, row: &Row, instr: &Instr) -> PlainParts
    requires { IsTrue (sound row.now) }
    ensures parts { ArePartsOf bits row.now instr.now result }
    ensures ip { result.ip ≡ ip }
    ensures small { result.len < 64 }
{
    if is_vex_row(row) {
        vex_parts(bits, ip, row, instr)
    } else {
        legacy_parts(bits, ip, row, instr)
    }
}
