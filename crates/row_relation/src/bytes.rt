//! The bytes of a spelling.

ghost use Rattle.std.specs.Prelude.{◌≡◌, ◌<◌, ◌≤◌, ◌+◌, ◌∷◌, ◌++◌, ℕ, length, IsTrue, is_some};
ghost use Rattle.instruction_parts.specs.Bytes as spec;
ghost use Rattle.row_fit.specs.Fits as fits;
ghost use Rattle.instruction_parts.specs.Sizes.{is_vex_row};
ghost use Rattle.row_fit.specs.Sound.{sound};
ghost use Rattle.arrayvec.specs.ArrayVec.{array_vec_len};
ghost use Rattle.plain_spelling.specs.Forms.{operand_at};
ghost use Rattle.plain_spelling.specs.PlainFront.{operand_number};
ghost use Rattle.plain_spelling.specs.PlainTail.{address_operand, operand_displacement, displacement_of_operand, plain_immediates};
ghost use Rattle.row_relation.specs.PlainBytes.{plain_tail_bytes, tail_count};

use arrayvec::ArrayVec;
use instruction_parts::append::{append, append_few};
use instruction_parts::row_types::{Map, Row};
use instruction_parts::{ModRm, Sib, Spelling, Vex};
use plain_spelling::parts::PlainParts;
use plain_spelling::tail::{self, append_displacement, append_immediates};
use x86_values::{Bits, Instr};

/// The escape bytes of a map.
fn escape_bytes<'a>(map: Map) -> &'a [u8]
    ensures { result.now ≡ spec.escape_bytes map }
{
    match map {
        Map::One => &[],
        Map::M0f => &[0x0F],
        Map::M0f38 => &[0x0F, 0x38],
        Map::M0f3a => &[0x0F, 0x3A],
    }
}

/// The number of a map in a three-byte VEX.
fn map_number(map: Map) -> u8
    ensures value { result ≡ spec.map_number map }
    ensures small { result < 4 }
{
    match map {
        Map::One => 0,
        Map::M0f => 1,
        Map::M0f38 => 2,
        Map::M0f3a => 3,
    }
}

/// A bit as a number.
fn bit(b: bool) -> u8
    ensures value { result ≡ spec.bit b }
    ensures small { result < 2 }
{
    if b { 1 } else { 0 }
}

/// Returns a bit as a VEX encodes it, inverted (Intel SDM volume 2, 2.3.5).
fn inverted_bit(b: bool) -> u8
    ensures value { result ≡ spec.inverted_bit b }
    ensures small { result < 2 }
{
    if b { 0 } else { 1 }
}

/// The byte of a VEX that has vvvv, L and pp, with the bit in front of them.
#[tactic(auto, unfolding(instruction_parts::specs::Bytes::vex_last_byte))]
fn vex_last_byte(front: u8, v: Vex) -> u8
    requires front { front < 2 }
    requires vvvv { v.vvvv < 16 }
    requires pp { v.pp < 4 }
    ensures { result ≡ spec.vex_last_byte front v }
{
    let l = bit(v.l);
    front * 128 + (15 - v.vvvv) * 8 + l * 4 + v.pp
}

/// The byte of a three-byte VEX that has R, X, B and the map.
#[tactic(auto, unfolding(instruction_parts::specs::Bytes::vex_map_byte))]
fn vex_map_byte(v: Vex) -> u8
    ensures { result ≡ spec.vex_map_byte v }
{
    let r = inverted_bit(v.r);
    let x = inverted_bit(v.x);
    let b = inverted_bit(v.b);
    let map = map_number(v.map);
    r * 128 + x * 64 + b * 32 + map
}

/// Appends a VEX.
#[tactic(auto, unfolding(instruction_parts::specs::Bytes::vex_bytes))]
fn append_vex(out: &mut ArrayVec<u8, 15>, v: Vex)
    requires vvvv { v.vvvv < 16 }
    requires pp { v.pp < 4 }
    requires room { array_vec_len out.old + length (spec.vex_bytes v) ≤ 15 }
    ensures { out.new.items ≡ out.old.items ++ spec.vex_bytes v }
{
    if v.three {
        append_few(out, &[0xC4, vex_map_byte(v), vex_last_byte(bit(v.w), v)]);
    } else {
        append_few(out, &[0xC5, vex_last_byte(inverted_bit(v.r), v)]);
    }
}

/// Appends the bytes between the prefixes and the opcode byte: the VEX, or else the escape bytes of the map (Intel SDM volume 2, 2.1.2 and 2.3.5).
#[tactic(auto, unfolding(instruction_parts::specs::Bytes::lead_bytes, row_fit::specs::Fits::vex_in_range))]
pub fn append_lead(out: &mut ArrayVec<u8, 15>, map: Map, vex: Option<Vex>)
    requires range { IsTrue (fits.vex_in_range vex) }
    requires room { array_vec_len out.old + length (spec.lead_bytes map vex) ≤ 15 }
    ensures { out.new.items ≡ out.old.items ++ spec.lead_bytes map vex }
{
    match vex {
        // Mostly there is no escape byte, which is seen before the bytes are looked up.
        None => match map {
            Map::One => {}
            _ => append_few(out, escape_bytes(map)),
        },
        Some(v) => append_vex(out, v),
    }
}

/// Returns the ModRM byte.
pub fn modrm_byte(m: ModRm) -> u8
    requires mode { m.mode3 < 4 }
    requires reg { m.reg < 8 }
    requires rm { m.rm < 8 }
    ensures { result ≡ spec.modrm_byte m }
{
    m.mode3 * 64 + m.reg * 8 + m.rm
}

/// Returns the SIB byte.
pub fn sib_byte(s: Sib) -> u8
    requires scale { s.scale < 4 }
    requires index { s.index < 8 }
    requires base { s.base < 8 }
    ensures { result ≡ spec.sib_byte s }
{
    s.scale * 64 + s.index * 8 + s.base
}

/// Appends ModRM.
#[tactic(auto, unfolding(row_fit::specs::Fits::modrm_in_range))]
fn append_modrm(out: &mut ArrayVec<u8, 15>, m: Option<ModRm>)
    requires range { IsTrue (fits.modrm_in_range m) }
    requires room { array_vec_len out.old + length (spec.modrm_bytes m) ≤ 15 }
    ensures { out.new.items ≡ out.old.items ++ spec.modrm_bytes m }
{
    match m {
        None => {}
        Some(m) => out.push(modrm_byte(m)),
    }
}

/// Appends a SIB.
#[tactic(auto, unfolding(row_fit::specs::Fits::sib_in_range))]
fn append_sib(out: &mut ArrayVec<u8, 15>, s: Option<Sib>)
    requires range { IsTrue (fits.sib_in_range s) }
    requires room { array_vec_len out.old + length (spec.sib_bytes s) ≤ 15 }
    ensures { out.new.items ≡ out.old.items ++ spec.sib_bytes s }
{
    match s {
        None => {}
        Some(s) => out.push(sib_byte(s)),
    }
}

/// Appends the opcode byte of a spelling and what follows it: ModRM, SIB, displacement and immediates (Intel SDM volume 2, 2.1).
#[tactic(auto, unfolding(instruction_parts::specs::Bytes::tail_bytes))]
pub fn append_tail(out: &mut ArrayVec<u8, 15>, s: &Spelling)
    requires room { array_vec_len out.old + (1 + length (spec.tail_bytes s.now)) ≤ 15 }
    requires modrm { IsTrue (fits.modrm_in_range s.now.modrm) }
    requires sib { IsTrue (fits.sib_in_range s.now.sib) }
    ensures { out.new.items ≡ out.old.items ++ s.now.opcode ∷ spec.tail_bytes s.now }
{
    out.push(s.opcode);
    append_modrm(out, s.modrm);
    append_sib(out, s.sib);
    append(out, s.disp.as_slice());
    append(out, s.imm.as_slice());
}

/// Appends the displacement before the next address, of so many bytes: mostly there is none, and then the operand is not looked for.
#[inline(always)]
fn append_displacement_if(
    out: &mut ArrayVec<u8, 15>,
    count: u8,
    row: &Row,
    instr: &Instr,
    next: u64,
)
    requires count { count ≡ operand_displacement (address_operand row.now instr.now) }
    requires room { array_vec_len out.old + count ≤ 15 }
    ensures items { out.new.items ≡ out.old.items ++ displacement_of_operand next (address_operand row.now instr.now) }
    ensures len { array_vec_len out.new ≡ array_vec_len out.old + count }
{
    if count > 0 {
        append_displacement(out, next, tail::address_operand(row, instr));
    }
}

/// Appends the immediates, of so many bytes together: mostly there is none.
#[inline(always)]
fn append_immediates_if(
    out: &mut ArrayVec<u8, 15>,
    count: u8,
    size: Bits,
    row: &Row,
    instr: &Instr,
    next: u64,
)
    requires numbers { (n : ℕ) → n < 4 → operand_number (operand_at instr.now n) < 16 }
    requires count { count ≡ fits.immediates_bytes size row.now }
    requires room { array_vec_len out.old + count ≤ 15 }
    ensures { out.new.items ≡ out.old.items ++ plain_immediates size row.now instr.now next }
{
    if count > 0 {
        append_immediates(out, size, row, instr, next);
    }
}

/// Appends the opcode byte of the plain spelling of an instruction and what follows it, given the parts of the plain spelling (Intel SDM volume 2,
/// 2.1).
#[inline(always)]
#[tactic(auto, unfolding(instruction_parts::specs::Bytes::modrm_bytes, instruction_parts::specs::Bytes::sib_bytes))]
pub fn append_plain_tail(out: &mut ArrayVec<u8, 15>, row: &Row, instr: &Instr, parts: &PlainParts)
    requires room { array_vec_len out.old + tail_count row.now instr.now parts.now ≤ 15 }
    requires modrm { IsTrue (fits.modrm_in_range parts.now.addressing.modrm) }
    requires sib { IsTrue (fits.sib_in_range parts.now.addressing.sib) }
    requires numbers { (n : ℕ) → n < 4 → operand_number (operand_at instr.now n) < 16 }
    requires displacement { parts.now.displacement ≡ operand_displacement (address_operand row.now instr.now) }
    requires immediates { parts.now.immediates ≡ fits.immediates_bytes parts.now.size row.now }
    ensures { out.new.items ≡ out.old.items ++ plain_tail_bytes row.now instr.now parts.now }
{
    out.push(parts.state.opcode);
    append_modrm(out, parts.addressing.modrm);
    append_sib(out, parts.addressing.sib);
    append_displacement_if(out, parts.displacement, row, instr, parts.next);
    append_immediates_if(out, parts.immediates, parts.size, row, instr, parts.next);
}

/// Returns the bytes of a spelling of the row.
#[tactic(auto, unfolding(instruction_parts::specs::Bytes::bytes_of, instruction_parts::specs::Bytes::front_bytes, instruction_parts::specs::Bytes::tail_bytes, row_fit::specs::Fits::fields_in_range))]
pub fn spelling_bytes(row: &Row, s: &Spelling) -> ArrayVec<u8, 15>
    requires sound { IsTrue (sound row.now) }
    requires short { length (spec.bytes_of row.now s.now) ≤ 15 }
    requires vex { is_vex_row row.now ≡ is_some s.now.vex }
    requires ranges { IsTrue (fits.fields_in_range s.now) }
    ensures { result.items ≡ spec.bytes_of row.now s.now }
{
    let mut out = ArrayVec::new();
    append(&mut out, s.prefixes.as_slice());
    append_lead(&mut out, row.map, s.vex);
    append_tail(&mut out, s);
    out
}
