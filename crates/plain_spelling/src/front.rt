//! The front of a plain spelling: prefixes, VEX, map and opcode byte.

ghost use Rattle.std.specs.Prelude.{◌≡◌, ◌<◌, min, IsTrue};
ghost use Rattle.instruction_parts.specs.Bytes as bytes;
ghost use Rattle.instruction_parts.specs.Sizes as sizes;
ghost use Rattle.row_fit.specs.Sound.{sound};
ghost use Rattle.plain_spelling.specs.PlainFront as spec;
ghost use Rattle.plain_spelling.specs.Expressible.{each_operand, register_suits};
ghost use Rattle.plain_spelling.specs.PlainTail as tail;
ghost use Rattle.plain_spelling.specs.Asked.{AreAskedOf};

use crate::registers::{Asked, asks_low_byte, numbers_asked};
use instruction_parts::bytes::lead_len;
use instruction_parts::counting::is_16;
use instruction_parts::row_types::{Class, LBit, Map, Plus, Row, Size, WBit};
use instruction_parts::sizes::{has_bang, has_caret, is_vex_row, operand_size};
use instruction_parts::spelling::{PrefixState, Vex};
use row_fit::fits::same_map;
use x86_values::{Bits, Instr, Rep, same_bits};

/// A flag as a bit.
fn bit(flag: bool) -> u8
    ensures value { result ≡ bytes.bit flag }
    ensures small { result < 2 }
{
    if flag { 1 } else { 0 }
}

/// Returns whether a legacy row requires REX.W 1.
#[tactic(auto, unfolding(crate::specs::PlainFront::asks_rex_w))]
pub fn asks_rex_w(row: &Row) -> bool
    ensures { result ≡ spec.asks_rex_w row.now }
{
    match row.size {
        Size::O64 => !(has_caret(row) || has_bang(row)),
        Size::W1 => true,
        _ => false,
    }
}

/// W 1 of a VEX row.
#[tactic(auto, unfolding(crate::specs::PlainFront::asks_vex_w))]
fn asks_vex_w(row: &Row) -> bool
    ensures { result ≡ spec.asks_vex_w row.now }
{
    match row.w {
        WBit::W1 => true,
        _ => false,
    }
}

/// Returns whether the row requires 66: for its class, or for an operand size of 16 or 32 that is not its default in the mode.
pub fn asks_66(bits: Bits, row: &Row) -> bool
    ensures { result ≡ spec.asks_66 bits row.now }
{
    asks_66_of(bits, row, is_vex_row(row))
}

/// Whether 66 is written, given whether the row is a VEX row.
#[inline(always)]
#[tactic(auto, unfolding(crate::specs::PlainFront::asks_66))]
pub(crate) fn asks_66_of(bits: Bits, row: &Row, is_vex: bool) -> bool
    requires { is_vex ≡ sizes.is_vex_row row.now }
    ensures { result ≡ spec.asks_66 bits row.now }
{
    !is_vex
        && match row.class {
            Class::P66 => true,
            _ => match row.size {
                Size::O16 => !is_16(bits),
                Size::O32 => is_16(bits),
                Size::O32or64 => is_16(bits),
                _ => false,
            },
        }
}

/// 67: for an address size that is not the mode's.
#[tactic(auto, unfolding(crate::specs::PlainFront::asks_67))]
fn asks_67(bits: Bits, asize: Option<Bits>) -> bool
    ensures { result ≡ spec.asks_67 bits asize }
{
    match asize {
        None => false,
        Some(asize) => !same_bits(asize, bits),
    }
}

/// F2 or F3: for the class of a legacy row, else for the repeat prefix that the instruction keeps.
#[inline]
#[tactic(auto, unfolding(crate::specs::PlainFront::asked_repeat))]
fn asked_repeat(row: &Row, instr: &Instr, is_vex: bool) -> Rep
    requires { is_vex ≡ sizes.is_vex_row row.now }
    ensures { result ≡ spec.asked_repeat row.now instr.now }
{
    if is_vex {
        instr.rep
    } else {
        match row.class {
            Class::F2 => Rep::F2,
            Class::F3 => Rep::F3,
            _ => instr.rep,
        }
    }
}

/// Returns the REX of a legacy row, if one is needed: `w` is what the row requires of W, and the numbers what they require of R, X and B.
#[inline(always)]
#[tactic(auto, unfolding(crate::specs::PlainFront::asked_rex, crate::specs::PlainFront::asks_r, crate::specs::PlainFront::asks_x, crate::specs::PlainFront::asks_b))]
fn asked_rex(row: &Row, instr: &Instr, asked: &Asked, w: bool, is_vex: bool) -> Option<u8>
    requires asked { AreAskedOf row.now instr.now asked.now }
    requires w { w ≡ spec.asks_rex_w row.now }
    requires vex { is_vex ≡ sizes.is_vex_row row.now }
    ensures { result ≡ spec.asked_rex row.now instr.now }
{
    let r = 8 <= asked.reg;
    let x = 8 <= asked.index;
    let b = 8 <= asked.rm;
    if !is_vex && (w || r || x || b || asks_low_byte(instr)) {
        Some(0x40 + (bit(w) * 8 + (bit(r) * 4 + (bit(x) * 2 + bit(b)))))
    } else {
        None
    }
}

/// The value of pp by the class of a VEX row.
#[tactic(auto, unfolding(crate::specs::PlainFront::class_pp))]
fn class_pp(class: Class) -> u8
    ensures { result ≡ spec.class_pp class }
{
    match class {
        Class::P66 => 1,
        Class::F3 => 2,
        Class::F2 => 3,
        _ => 0,
    }
}

/// The VEX of a VEX row; a vvvv of more than 255, which no spelling has, is 255.
#[tactic(auto, unfolding(crate::specs::PlainFront::asked_vex, crate::specs::PlainFront::asks_r, crate::specs::PlainFront::asks_x, crate::specs::PlainFront::asks_b))]
pub(crate) fn byte_vex(row: &Row, instr: &Instr, asked: &Asked) -> Option<Vex>
    requires { AreAskedOf row.now instr.now asked.now }
    ensures { result ≡ spec.vex_with row.now instr.now (min 255 (spec.number_asked_of spec.number_in_vvvv row.now instr.now)) }
{
    let r = 8 <= asked.reg;
    let x = 8 <= asked.index;
    let b = 8 <= asked.rm;
    let w = asks_vex_w(row);
    if is_vex_row(row) {
        Some(Vex {
            three: !same_map(row.map, Map::M0f) || x || b || w,
            r,
            x,
            b,
            w,
            l: match row.l {
                LBit::L256 => true,
                _ => false,
            },
            map: row.map,
            vvvv: asked.vvvv.min(255) as u8,
            pp: class_pp(row.class),
        })
    } else {
        None
    }
}

/// The opcode byte, with the low three bits of a register that it adds.
#[tactic(auto, unfolding(crate::specs::PlainFront::asked_opcode))]
fn asked_opcode(row: &Row, instr: &Instr, asked: &Asked) -> u8
    requires sound { IsTrue (sound row.now) }
    requires asked { AreAskedOf row.now instr.now asked.now }
    ensures { result ≡ spec.asked_opcode row.now instr.now }
{
    match row.plus {
        Plus::Register => row.opcode + (asked.opcode % 8) as u8,
        _ => row.opcode,
    }
}

/// How many bytes a repeat prefix has.
fn count_repeat(rep: Rep) -> u8
    ensures value { result ≡ spec.count_repeat rep }
    ensures small { result < 2 }
{
    match rep {
        Rep::None => 0,
        _ => 1,
    }
}

/// Returns the front of the plain spelling of an instruction of a row: its prefixes, VEX, map and opcode byte.
///
/// The result is exact if each register operand is one that its kind can name in the mode. Otherwise a vvvv above 255 becomes 255.
pub fn plain_front(bits: Bits, row: &Row, instr: &Instr) -> PrefixState
    requires { IsTrue (sound row.now) }
    ensures value { result ≡ spec.byte_front bits row.now instr.now }
    ensures exact { IsTrue (each_operand (register_suits bits row.now instr.now)) → result ≡ spec.plain_front_of bits row.now instr.now }
    ensures small { result.used < 16 }
{
    let asked = numbers_asked(row, instr);
    front_asked(
        bits,
        row,
        instr,
        &asked,
        asks_rex_w(row),
        asks_66(bits, row),
    )
}

/// Returns the front of the plain spelling, given the register numbers that the instruction requires and whether the row requires REX.W and 66.
pub fn front_asked(
    bits: Bits,
    row: &Row,
    instr: &Instr,
    asked: &Asked,
    w: bool,
    size66: bool,
) -> PrefixState
    requires sound { IsTrue (sound row.now) }
    requires asked { AreAskedOf row.now instr.now asked.now }
    requires w { w ≡ spec.asks_rex_w row.now }
    requires size66 { size66 ≡ spec.asks_66 bits row.now }
    ensures value { result ≡ spec.byte_front bits row.now instr.now }
    ensures exact { IsTrue (each_operand (register_suits bits row.now instr.now)) → result ≡ spec.plain_front_of bits row.now instr.now }
    ensures small { result.used < 16 }
{
    let vex = byte_vex(row, instr, asked);
    front_with(bits, row, instr, asked, w, size66, is_vex_row(row), vex)
}

/// Returns the front of the plain spelling, given what is required and its VEX. A caller that knows the row as a legacy one passes None, which needs
/// no copy.
#[inline(always)]
#[tactic(auto, unfolding(crate::specs::PlainFront::byte_front, crate::specs::PlainFront::plain_front_of, crate::specs::PlainFront::asked_used))]
pub(crate) fn front_with(
    bits: Bits,
    row: &Row,
    instr: &Instr,
    asked: &Asked,
    w: bool,
    size66: bool,
    is_vex: bool,
    vex: Option<Vex>,
) -> PrefixState
    requires sound { IsTrue (sound row.now) }
    requires asked { AreAskedOf row.now instr.now asked.now }
    requires w { w ≡ spec.asks_rex_w row.now }
    requires size66 { size66 ≡ spec.asks_66 bits row.now }
    requires is_vex { is_vex ≡ sizes.is_vex_row row.now }
    requires vex { vex ≡ spec.vex_with row.now instr.now (min 255 (spec.number_asked_of spec.number_in_vvvv row.now instr.now)) }
    ensures value { result ≡ spec.byte_front bits row.now instr.now }
    ensures exact { IsTrue (each_operand (register_suits bits row.now instr.now)) → result ≡ spec.plain_front_of bits row.now instr.now }
    ensures small { result.used < 16 }
{
    let addr67 = asks_67(bits, instr.asize);
    let rep = asked_repeat(row, instr, is_vex);
    let rex = asked_rex(row, instr, asked, w, is_vex);
    PrefixState {
        used: bit(instr.lock)
            + (count_repeat(rep)
                + (bit(instr.seg.is_some())
                    + (bit(size66)
                        + (bit(addr67) + (bit(rex.is_some()) + lead_len(row.map, vex)))))),
        size66,
        addr67,
        lock: instr.lock,
        rep,
        seg: instr.seg,
        rex,
        vex,
        map: row.map,
        opcode: asked_opcode(row, instr, asked),
    }
}

/// Returns the operand size under the plain prefixes, which is that of the row, given whether the row requires REX.W and 66.
#[inline]
pub fn plain_size(bits: Bits, row: &Row, w: bool, size66: bool) -> Bits
    requires w { w ≡ spec.asks_rex_w row.now }
    requires size66 { size66 ≡ spec.asks_66 bits row.now }
    ensures { result ≡ tail.plain_size bits row.now }
{
    plain_size_of(bits, row, w, size66, is_vex_row(row))
}

/// The operand size of the plain spelling, given whether the row is a VEX row too.
#[inline(always)]
#[tactic(auto, unfolding(crate::specs::PlainTail::plain_size))]
pub(crate) fn plain_size_of(bits: Bits, row: &Row, w: bool, size66: bool, is_vex: bool) -> Bits
    requires w { w ≡ spec.asks_rex_w row.now }
    requires size66 { size66 ≡ spec.asks_66 bits row.now }
    requires vex { is_vex ≡ sizes.is_vex_row row.now }
    ensures { result ≡ tail.plain_size bits row.now }
{
    operand_size(bits, row, if is_vex { false } else { w }, size66)
}
