//! The pieces of addresses.

ghost use Rattle.std.specs.Prelude.{◌≡◌, ◌≤◌, ◌+◌, ◌++◌, length, Some};
ghost use Rattle.arrayvec.specs.ArrayVec.{array_vec_len};
ghost use Rattle.text_parts.specs.Numbers as number;
ghost use Rattle.text_parts.specs.Registers as text;
ghost use Rattle.text_parts.specs.Addresses as address_text;
ghost use Rattle.text_pieces.specs.Tokens as tokens;
ghost use Rattle.x86_values.specs.declared.Register.TheVariants.{Seg};
ghost use Rattle.text_pieces.specs.declared.piece.Kind.TheVariants as kind;
ghost use Rattle.text_pieces.specs.Lines.{laid, put, grown};
ghost use Rattle.text_pieces.specs.Numbers as numbers;
ghost use Rattle.text_pieces.specs.Addresses as spec;

use crate::line::{close, close_some, put_mark, put_space, put_text};
use crate::numbers::{address, displacement, index_scale, put_number};
use crate::piece::{Kind, PIECES, Printed};
use text_parts::addresses::{is_absolute, is_instruction_pointer};
use text_parts::numbers::append_decimal;
use text_parts::registers::append_register;
use text_parts::style::Style;
use text_parts::text::TEXT_LEN;
use x86_values::{Bits, DispSize, Mem, Register, Segment, modulus, wrap};

/// Puts down a register of operand `n`.
#[tactic(auto, unfolding(crate::specs::Lines::laid, crate::specs::Lines::put), using(crate::proofs::Short::register_short))]
pub fn put_register(line: &mut Printed, style: Style, n: u8, r: Register)
    requires room { length line.old.pieces.items + 1 ≤ PIECES }
    requires text { array_vec_len line.old.text + 7 ≤ TEXT_LEN }
    ensures laid { laid line.new ≡ grown (laid line.old) (spec.register_pieces style n r) }
    ensures len { length line.new.pieces.items ≤ length line.old.pieces.items + 1 }
    ensures size { array_vec_len line.new.text ≤ array_vec_len line.old.text + 7 }
{
    let start = line.text.len();
    append_register(&mut line.text, style, r);
    close_some(line, start, Some(n), Kind::Register);
}

/// Whether a displacement is below zero as a signed number of address size.
#[inline]
#[tactic(auto, unfolding(text_parts::specs::Addresses::is_negative))]
fn is_negative(asize: Bits, d: u64) -> bool
    ensures { result ≡ address_text.is_negative asize d }
{
    modulus(asize) - 1 < 2 * wrap(asize, d as u128) as u128
}

/// Its distance from zero.
#[inline]
#[tactic(auto, unfolding(text_parts::specs::Addresses::is_negative, text_parts::specs::Addresses::magnitude))]
fn magnitude(asize: Bits, d: u64) -> u64
    ensures { result ≡ address_text.magnitude asize d }
{
    let x = wrap(asize, d as u128);
    if is_negative(asize, d) {
        (modulus(asize) - x as u128) as u64
    } else {
        x
    }
}

/// The sign in front of a displacement.
#[inline]
#[tactic(auto, unfolding(text_parts::specs::Addresses::sign))]
fn sign(style: Style, negative: bool) -> &'static [u8]
    ensures sign { result.now ≡ address_text.sign style negative }
    ensures short { length result.now ≤ 1 }
{
    if negative {
        b"-"
    } else {
        match style {
            Style::Att => b"",
            _ => b"+",
        }
    }
}

/// Puts down a displacement beside a register.
#[tactic(auto, unfolding(crate::specs::Addresses::signed_pieces))]
pub fn put_signed(line: &mut Printed, style: Style, asize: Bits, n: u8, m: &Mem)
    requires room { length line.old.pieces.items + 2 ≤ PIECES }
    requires text { array_vec_len line.old.text + 19 ≤ TEXT_LEN }
    ensures laid { laid line.new ≡ grown (laid line.old) (spec.signed_pieces style asize n m.now) }
    ensures len { length line.new.pieces.items ≤ length line.old.pieces.items + 2 }
    ensures size { array_vec_len line.new.text ≤ array_vec_len line.old.text + 19 }
{
    match m.disp_size {
        DispSize::D0 => {}
        _ => {
            put_text(
                line,
                sign(style, is_negative(asize, m.disp)),
                Some(n),
                Kind::Operator,
            );
            put_number(
                line,
                style,
                n,
                magnitude(asize, m.disp),
                displacement(asize, m),
            );
        }
    }
}

/// Puts down a displacement that stands alone.
#[tactic(auto, unfolding(crate::specs::Addresses::lone_pieces))]
pub fn put_lone(line: &mut Printed, style: Style, asize: Bits, n: u8, m: &Mem)
    requires room { length line.old.pieces.items + 1 ≤ PIECES }
    requires text { array_vec_len line.old.text + 18 ≤ TEXT_LEN }
    ensures laid { laid line.new ≡ grown (laid line.old) (spec.lone_pieces style asize n m.now) }
    ensures len { length line.new.pieces.items ≤ length line.old.pieces.items + 1 }
    ensures size { array_vec_len line.new.text ≤ array_vec_len line.old.text + 18 }
{
    match m.disp_size {
        DispSize::D0 => {}
        _ => put_number(line, style, n, m.disp, address(asize, m)),
    }
}

/// Puts down a word and the space behind it.
#[inline]
fn put_keyword(line: &mut Printed, n: u8, word: &[u8])
    requires room { length line.old.pieces.items + 2 ≤ PIECES }
    requires text { array_vec_len line.old.text + (length word.now + 1) ≤ TEXT_LEN }
    ensures laid { laid line.new ≡ grown (laid line.old) (tokens.keyword n word.now ++ tokens.space (Some n)) }
    ensures len { length line.new.pieces.items ≤ length line.old.pieces.items + 2 }
    ensures size { array_vec_len line.new.text ≤ array_vec_len line.old.text + (length word.now + 1) }
{
    put_text(line, word, Some(n), Kind::Keyword);
    put_space(line, Some(n));
}

/// Puts down the word in front of a target that is relative to the instruction pointer.
#[inline]
#[tactic(auto, unfolding(crate::specs::Addresses::relative_pieces))]
fn put_relative_word(line: &mut Printed, style: Style, n: u8, base: Option<Register>)
    requires room { length line.old.pieces.items + 2 ≤ PIECES }
    requires text { array_vec_len line.old.text + 6 ≤ TEXT_LEN }
    ensures laid { laid line.new ≡ grown (laid line.old) (spec.relative_pieces style n base) }
    ensures len { length line.new.pieces.items ≤ length line.old.pieces.items + 2 }
    ensures size { array_vec_len line.new.text ≤ array_vec_len line.old.text + 6 }
{
    match style {
        Style::Intel => match base {
            Some(Register::Eip) => put_keyword(line, n, b"rel32"),
            _ => put_keyword(line, n, b"rel"),
        },
        _ => {}
    }
}

/// Puts down a base, if there is one.
#[tactic(auto, unfolding(crate::specs::Addresses::base_pieces))]
pub fn put_base(line: &mut Printed, style: Style, n: u8, base: Option<Register>)
    requires room { length line.old.pieces.items + 1 ≤ PIECES }
    requires text { array_vec_len line.old.text + 7 ≤ TEXT_LEN }
    ensures laid { laid line.new ≡ grown (laid line.old) (spec.base_pieces style n base) }
    ensures len { length line.new.pieces.items ≤ length line.old.pieces.items + 1 }
    ensures size { array_vec_len line.new.text ≤ array_vec_len line.old.text + 7 }
{
    match base {
        None => {}
        Some(r) => put_register(line, style, n, r),
    }
}

/// Puts down the plus between a base and an index.
#[inline]
#[tactic(auto, unfolding(crate::specs::Addresses::joint_pieces))]
fn put_joint(line: &mut Printed, n: u8, base: Option<Register>)
    requires room { length line.old.pieces.items + 1 ≤ PIECES }
    requires text { array_vec_len line.old.text + 1 ≤ TEXT_LEN }
    ensures laid { laid line.new ≡ grown (laid line.old) (spec.joint_pieces n base) }
    ensures len { length line.new.pieces.items ≤ length line.old.pieces.items + 1 }
    ensures size { array_vec_len line.new.text ≤ array_vec_len line.old.text + 1 }
{
    match base {
        None => {}
        Some(_) => put_mark(line, b'+', Some(n), Kind::Operator),
    }
}

/// Puts down what stands in front of a scale.
#[inline]
#[tactic(auto, unfolding(crate::specs::Addresses::scale_mark))]
fn put_scale_mark(line: &mut Printed, style: Style, n: u8)
    requires room { length line.old.pieces.items + 1 ≤ PIECES }
    requires text { array_vec_len line.old.text + 1 ≤ TEXT_LEN }
    ensures laid { laid line.new ≡ grown (laid line.old) (spec.scale_mark style n) }
    ensures len { length line.new.pieces.items ≤ length line.old.pieces.items + 1 }
    ensures size { array_vec_len line.new.text ≤ array_vec_len line.old.text + 1 }
{
    match style {
        Style::Att => put_mark(line, b',', Some(n), Kind::Punctuation),
        _ => put_mark(line, b'*', Some(n), Kind::Operator),
    }
}

/// Puts down the number of a scale.
#[inline]
#[tactic(auto, unfolding(crate::specs::Lines::laid, crate::specs::Lines::put), using(crate::proofs::Short::decimal_short))]
fn put_scale_number(line: &mut Printed, n: u8, m: &Mem)
    requires room { length line.old.pieces.items + 1 ≤ PIECES }
    requires text { array_vec_len line.old.text + 2 ≤ TEXT_LEN }
    ensures laid { laid line.new ≡ put (number.decimal m.now.scale) (Some n) (kind.Number (numbers.index_scale m.now)) (laid line.old) }
    ensures len { length line.new.pieces.items ≤ length line.old.pieces.items + 1 }
    ensures size { array_vec_len line.new.text ≤ array_vec_len line.old.text + 2 }
{
    let start = line.text.len();
    append_decimal(&mut line.text, m.scale);
    close(line, start, Some(n), Kind::Number(index_scale(m)));
}

/// Puts down a scale. 16-bit addressing has none.
#[tactic(auto, unfolding(crate::specs::Addresses::scale_pieces), using(crate::proofs::Grown::grown_rules))]
pub fn put_scale(line: &mut Printed, style: Style, asize: Bits, n: u8, m: &Mem)
    requires room { length line.old.pieces.items + 2 ≤ PIECES }
    requires text { array_vec_len line.old.text + 3 ≤ TEXT_LEN }
    ensures laid { laid line.new ≡ grown (laid line.old) (spec.scale_pieces style asize n m.now) }
    ensures len { length line.new.pieces.items ≤ length line.old.pieces.items + 2 }
    ensures size { array_vec_len line.new.text ≤ array_vec_len line.old.text + 3 }
{
    match asize {
        Bits::B16 => {}
        _ => {
            put_scale_mark(line, style, n);
            put_scale_number(line, n, m);
        }
    }
}

/// Puts down an index with its scale, if there is one.
#[tactic(auto, unfolding(crate::specs::Addresses::index_pieces), using(crate::proofs::Grown::grown_rules))]
fn put_index(line: &mut Printed, style: Style, asize: Bits, n: u8, m: &Mem)
    requires room { length line.old.pieces.items + 4 ≤ PIECES }
    requires text { array_vec_len line.old.text + 11 ≤ TEXT_LEN }
    ensures laid { laid line.new ≡ grown (laid line.old) (spec.index_pieces style asize n m.now) }
    ensures len { length line.new.pieces.items ≤ length line.old.pieces.items + 4 }
    ensures size { array_vec_len line.new.text ≤ array_vec_len line.old.text + 11 }
{
    match m.index {
        None => {}
        Some(r) => {
            put_joint(line, n, m.base);
            put_register(line, style, n, r);
            put_scale(line, style, asize, n, m);
        }
    }
}

/// Puts down base, index and displacement.
#[tactic(auto, unfolding(crate::specs::Addresses::sum_pieces), using(crate::proofs::Grown::grown_rules))]
fn put_sum(line: &mut Printed, style: Style, asize: Bits, n: u8, m: &Mem)
    requires room { length line.old.pieces.items + 7 ≤ PIECES }
    requires text { array_vec_len line.old.text + 37 ≤ TEXT_LEN }
    ensures laid { laid line.new ≡ grown (laid line.old) (spec.sum_pieces style asize n m.now) }
    ensures len { length line.new.pieces.items ≤ length line.old.pieces.items + 7 }
    ensures size { array_vec_len line.new.text ≤ array_vec_len line.old.text + 37 }
{
    put_base(line, style, n, m.base);
    put_index(line, style, asize, n, m);
    put_signed(line, style, asize, n, m);
}

/// Puts down what is inside the brackets.
#[tactic(auto, unfolding(crate::specs::Addresses::inside_pieces), using(crate::proofs::Grown::grown_rules))]
fn put_inside(line: &mut Printed, style: Style, asize: Bits, n: u8, m: &Mem)
    requires room { length line.old.pieces.items + 7 ≤ PIECES }
    requires text { array_vec_len line.old.text + 37 ≤ TEXT_LEN }
    ensures laid { laid line.new ≡ grown (laid line.old) (spec.inside_pieces style asize n m.now) }
    ensures len { length line.new.pieces.items ≤ length line.old.pieces.items + 7 }
    ensures size { array_vec_len line.new.text ≤ array_vec_len line.old.text + 37 }
{
    if is_instruction_pointer(m.base) {
        put_relative_word(line, style, n, m.base);
        put_number(line, style, n, m.disp, address(asize, m));
    } else if is_absolute(m) {
        put_lone(line, style, asize, n, m);
    } else {
        put_sum(line, style, asize, n, m);
    }
}

/// Puts down a segment register.
#[inline]
#[tactic(auto, unfolding(crate::specs::Lines::laid, crate::specs::Lines::put), using(crate::proofs::Short::segment_register_short))]
fn put_segment_register(line: &mut Printed, style: Style, n: u8, s: Segment)
    requires room { length line.old.pieces.items + 1 ≤ PIECES }
    requires text { array_vec_len line.old.text + 3 ≤ TEXT_LEN }
    ensures laid { laid line.new ≡ grown (laid line.old) (spec.register_pieces style n (Seg s)) }
    ensures len { length line.new.pieces.items ≤ length line.old.pieces.items + 1 }
    ensures size { array_vec_len line.new.text ≤ array_vec_len line.old.text + 3 }
{
    let before = line.text.len();
    append_register(&mut line.text, style, Register::Seg(s));
    close(line, before, Some(n), Kind::Register);
}

/// Puts down a segment in front of an address, with its colon.
#[tactic(auto, unfolding(crate::specs::Addresses::override_pieces), using(crate::proofs::Grown::grown_rules))]
pub fn put_override(line: &mut Printed, style: Style, n: u8, segment: Option<Segment>)
    requires room { length line.old.pieces.items + 2 ≤ PIECES }
    requires text { array_vec_len line.old.text + 4 ≤ TEXT_LEN }
    ensures laid { laid line.new ≡ grown (laid line.old) (spec.override_pieces style n segment) }
    ensures len { length line.new.pieces.items ≤ length line.old.pieces.items + 2 }
    ensures size { array_vec_len line.new.text ≤ array_vec_len line.old.text + 4 }
{
    match segment {
        None => {}
        Some(s) => {
            put_segment_register(line, style, n, s);
            put_mark(line, b':', Some(n), Kind::Punctuation);
        }
    }
}

/// Puts down the segment in front of the brackets.
#[tactic(auto, unfolding(crate::specs::Addresses::bracket_segment_pieces, crate::specs::Addresses::override_pieces))]
fn put_bracket_segment(line: &mut Printed, style: Style, n: u8, segment: Option<Segment>, m: &Mem)
    requires room { length line.old.pieces.items + 2 ≤ PIECES }
    requires text { array_vec_len line.old.text + 4 ≤ TEXT_LEN }
    ensures laid { laid line.new ≡ grown (laid line.old) (spec.bracket_segment_pieces style n segment m.now) }
    ensures len { length line.new.pieces.items ≤ length line.old.pieces.items + 2 }
    ensures size { array_vec_len line.new.text ≤ array_vec_len line.old.text + 4 }
{
    match style {
        Style::Masm => match segment {
            None => {
                if is_absolute(m) {
                    put_text(line, b"ds", Some(n), Kind::Register);
                    put_mark(line, b':', Some(n), Kind::Punctuation);
                }
            }
            Some(_) => put_override(line, style, n, segment),
        },
        _ => put_override(line, style, n, segment),
    }
}

/// Puts down an address in brackets.
#[tactic(auto, unfolding(crate::specs::Addresses::bracketed_pieces), using(crate::proofs::Grown::grown_rules))]
pub fn put_bracketed(
    line: &mut Printed,
    style: Style,
    segment: Option<Segment>,
    asize: Bits,
    n: u8,
    m: &Mem,
)
    requires room { length line.old.pieces.items + 11 ≤ PIECES }
    requires text { array_vec_len line.old.text + 43 ≤ TEXT_LEN }
    ensures laid { laid line.new ≡ grown (laid line.old) (spec.bracketed_pieces style segment asize n m.now) }
    ensures len { length line.new.pieces.items ≤ length line.old.pieces.items + 11 }
    ensures size { array_vec_len line.new.text ≤ array_vec_len line.old.text + 43 }
{
    put_bracket_segment(line, style, n, segment, m);
    put_mark(line, b'[', Some(n), Kind::Punctuation);
    put_inside(line, style, asize, n, m);
    put_mark(line, b']', Some(n), Kind::Punctuation);
}
