//! What nodes split by, as numbers of the fields.
ghost use Rattle.std.specs.Prelude.{◌≡◌, is_some};
ghost use Rattle.prefixes.specs.Answer.{mode_of};
ghost use Rattle.instruction_parts.specs.RowFields.Holds.{map_number, prefix_of, byte_of};
ghost use Rattle.instruction_parts.specs.RowFields.FieldNumbers.{plain_size};
ghost use Rattle.x86_values.specs.Modes.{size_number};
ghost use Rattle.instruction_parts.specs.Bytes as parts;
ghost use Rattle.instruction_parts.specs.Counting.{rex_bit};
ghost use Rattle.opcode_rows.specs.UniqueSpelling.FieldsOf as fields;
ghost use Rattle.handler_tables.specs.Splits.{field_at};

use crate::node::Split;
use instruction_parts::PrefixState;
use instruction_parts::row_fields::{Fields, Map, Rep};
use instruction_parts::sizes::bit_of_rex;
use prefixes::mode_of;
use x86_values::{Bits, size_number};

/// Returns the number of the field by which a node splits, from a front and the byte after its opcode byte.
// Not built into the walk: there each of these numbers would be made before the first node, and most walks need one or two.
#[inline(never)]
#[tactic(auto, unfolding(opcode_rows::specs::UniqueSpelling::FieldsOf::fields_of))]
fn stored_field<const BITS: u32>(split: Split, state: &PrefixState, byte: Option<u8>) -> usize
    ensures { result ≡ field_at (mode_of BITS) split (fields.fields_of state.now byte) }
{
    match split {
        Split::Kind => front_kind(state),
        Split::Opcode => state.opcode as usize,
        Split::Prefix => prefix_number(repeat_of(state), size66_of(state)),
        Split::Place => bit(byte_number(byte) / 64 == 3),
        Split::Reg => (byte_number(byte) / 8 % 8) as usize,
        Split::Rm => (byte_number(byte) % 8) as usize,
        Split::Size => usize::from(size_number(plain_size(
            mode_of::<BITS>(),
            size66_of(state),
            w_of(state),
        ))),
        Split::W => bit(w_of(state)),
        Split::L => bit(l_of(state)),
        Split::RexB => bit(bit_of_rex(0, state.rex)),
    }
}

/// A copy of a front.
// Field by field: so LLVM need not keep the front itself in memory.
#[inline(always)]
fn copy_of(state: &PrefixState) -> PrefixState
    ensures { result ≡ state.now }
{
    PrefixState {
        used: state.used,
        size66: state.size66,
        addr67: state.addr67,
        lock: state.lock,
        rep: state.rep,
        seg: state.seg,
        rex: state.rex,
        vex: state.vex,
        map: state.map,
        opcode: state.opcode,
    }
}

/// Returns the number of the field by which a node splits, like [`stored_field`], from a copy of the front.
#[inline(always)]
pub(crate) fn front_field<const BITS: u32>(
    split: Split,
    state: &PrefixState,
    byte: Option<u8>,
) -> usize
    ensures { result ≡ field_at (mode_of BITS) split (fields.fields_of state.now byte) }
{
    let state = copy_of(state);
    stored_field::<BITS>(split, &state, byte)
}

/// The number of what a node splits by, from the nine fields.
#[inline(never)]
pub(crate) fn given_field<const BITS: u32>(split: Split, fields: &Fields) -> usize
    ensures { result ≡ field_at (mode_of BITS) split fields.now }
{
    match split {
        Split::Kind => kind_of(fields.vex, fields.map),
        Split::Opcode => fields.opcode as usize,
        Split::Prefix => prefix_number(fields.rep, fields.size66),
        Split::Place => bit(byte_number(fields.modrm) / 64 == 3),
        Split::Reg => (byte_number(fields.modrm) / 8 % 8) as usize,
        Split::Rm => (byte_number(fields.modrm) % 8) as usize,
        Split::Size => usize::from(size_number(plain_size(
            mode_of::<BITS>(),
            fields.size66,
            fields.w,
        ))),
        Split::W => bit(fields.w),
        Split::L => bit(fields.l),
        Split::RexB => bit(fields.rex_b),
    }
}

/// The number of the field by which a node of three entries splits: the operand size, which is tested before the others.
#[inline(always)]
#[tactic(auto, unfolding(opcode_rows::specs::UniqueSpelling::FieldsOf::fields_of))]
pub(crate) fn front_size_field<const BITS: u32>(
    split: Split,
    state: &PrefixState,
    byte: Option<u8>,
) -> usize
    ensures { result ≡ field_at (mode_of BITS) split (fields.fields_of state.now byte) }
{
    match split {
        Split::Size => state_size_number::<BITS>(state),
        _ => front_field::<BITS>(split, state, byte),
    }
}

/// Returns the number of the operand size, from the prefixes and the mode only.
// Built into the walk: there it is made before the first node, in few instructions where no prefix but REX stands before the opcode byte.
#[inline(always)]
fn state_size_number<const BITS: u32>(state: &PrefixState) -> usize
    ensures { result ≡ size_number
        (plain_size (mode_of BITS) (fields.size66_of state.now.vex state.now.size66) (fields.w_of state.now.vex state.now.rex)) }
{
    usize::from(size_number(plain_size(mode_of::<BITS>(), size66_of(state), w_of(state))))
}

/// A bit as a number.
fn bit(b: bool) -> usize
    ensures { result ≡ parts.bit b }
{
    if b { 1 } else { 0 }
}

/// The number of the kind and the map of a front.
#[inline(always)]
pub(crate) fn front_kind(state: &PrefixState) -> usize
    ensures { result ≡ map_number (is_some state.now.vex) state.now.map }
{
    kind_of(state.vex.is_some(), state.map)
}

/// The number of the kind and the map.
#[inline(always)]
pub(crate) fn kind_of(vex: bool, map: Map) -> usize
    ensures { result ≡ map_number vex map }
{
    match (vex, map) {
        (false, Map::One) => 0,
        (false, Map::M0f) => 1,
        (false, Map::M0f38) => 2,
        (false, Map::M0f3a) => 3,
        (true, Map::One) => 4,
        (true, Map::M0f) => 5,
        (true, Map::M0f38) => 6,
        (true, Map::M0f3a) => 7,
    }
}

/// The repeat prefix that counts, or that pp of the VEX says.
fn repeat_of(state: &PrefixState) -> Rep
    ensures { result ≡ fields.repeat_of state.now.vex state.now.rep }
{
    match state.vex {
        None => state.rep,
        Some(vex) => {
            if vex.pp == 2 {
                Rep::F3
            } else if vex.pp == 3 {
                Rep::F2
            } else {
                Rep::None
            }
        }
    }
}

/// Whether 66 occurs, or pp of the VEX says it.
fn size66_of(state: &PrefixState) -> bool
    ensures { result ≡ fields.size66_of state.now.vex state.now.size66 }
{
    match state.vex {
        None => state.size66,
        Some(vex) => vex.pp == 1,
    }
}

/// W of the VEX, else of the REX.
fn w_of(state: &PrefixState) -> bool
    ensures { result ≡ fields.w_of state.now.vex state.now.rex }
{
    match state.vex {
        None => bit_of_rex(3, state.rex),
        Some(vex) => vex.w,
    }
}

/// L of the VEX, else no.
fn l_of(state: &PrefixState) -> bool
    ensures { result ≡ fields.l_of state.now.vex }
{
    match state.vex {
        None => false,
        Some(vex) => vex.l,
    }
}

/// The prefixes that count, by number: 0 for none, 1 for 66, 2 for F3 and 3 for F2, which outrank 66 (2.1.1, 3.1.1.1).
fn prefix_number(rep: Rep, size66: bool) -> usize
    ensures { result ≡ prefix_of rep size66 }
{
    match (rep, size66) {
        (Rep::F3, _) => 2,
        (Rep::F2, _) => 3,
        (Rep::None, true) => 1,
        (Rep::None, false) => 0,
    }
}

/// Returns the operand size, from the prefixes and the mode only: W gives 64 in 64-bit mode, 66 the other one of 16 and 32.
fn plain_size(bits: Bits, size66: bool, w: bool) -> Bits
    ensures { result ≡ plain_size bits size66 w }
{
    match (bits, w, size66) {
        (Bits::B64, true, _) => Bits::B64,
        (Bits::B16, _, false) => Bits::B16,
        (Bits::B16, _, true) => Bits::B32,
        (_, _, false) => Bits::B32,
        (_, _, true) => Bits::B16,
    }
}

/// Returns the ModRM byte, or 0 if there is none.
fn byte_number(byte: Option<u8>) -> u8
    ensures { result ≡ byte_of byte }
{
    match byte {
        Some(b) => b,
        None => 0,
    }
}
