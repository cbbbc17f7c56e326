//! Addresses in a text.

ghost use Rattle.std.specs.Prelude.{◌≡◌, ◌<◌, ◌≤◌, ◌+◌, [], ◌++◌, length};
ghost use Rattle.arrayvec.specs.ArrayVec.{array_vec_len};
ghost use Rattle.text_parts.specs.Addresses as spec;

use crate::numbers::{append_decimal, append_number};
use crate::registers::{append_frequent_register, append_override, append_register};
use crate::style::Style;
use crate::text::append_few;
use arrayvec::ArrayVec;
use x86_values::{Bits, DispSize, Mem, Register, Segment, modulus, wrap};

/// Returns whether a base is the instruction pointer.
#[inline]
#[tactic(auto, unfolding(crate::specs::Addresses::is_instruction_pointer))]
pub fn is_instruction_pointer(base: Option<Register>) -> bool
    ensures { result ≡ spec.is_instruction_pointer base }
{
    match base {
        Some(Register::Rip) => true,
        Some(Register::Eip) => true,
        _ => false,
    }
}

/// Returns whether an address has neither base nor index.
#[inline]
pub fn is_absolute(m: &Mem) -> bool
    ensures { result ≡ spec.is_absolute m.now }
{
    m.base.is_none() && m.index.is_none()
}

/// Whether a number of address size is below zero as a signed number.
#[inline]
#[tactic(auto, unfolding(crate::specs::Addresses::is_negative))]
fn is_negative(asize: Bits, d: u64) -> bool
    ensures { result ≡ spec.is_negative asize d }
{
    match asize {
        Bits::B64 => 0x8000_0000_0000_0000 <= d,
        _ => modulus(asize) - 1 < 2 * wrap(asize, d as u128) as u128,
    }
}

/// Its distance from zero as a signed number.
#[inline]
#[tactic(auto, unfolding(crate::specs::Addresses::is_negative, crate::specs::Addresses::magnitude))]
fn magnitude(asize: Bits, d: u64) -> u64
    ensures { result ≡ spec.magnitude asize d }
{
    let x = wrap(asize, d as u128);
    if is_negative(asize, d) {
        (modulus(asize) - x as u128) as u64
    } else {
        x
    }
}

/// Appends the sign of a displacement beside a register.
#[inline]
#[tactic(auto, unfolding(crate::specs::Addresses::sign))]
fn append_sign<const N: usize>(out: &mut ArrayVec<u8, N>, style: Style, negative: bool)
    requires { array_vec_len out.old + length (spec.sign style negative) ≤ N }
    ensures { out.new.items ≡ out.old.items ++ spec.sign style negative }
{
    if negative {
        append_few(out, b"-");
    } else {
        match style {
            Style::Att => {}
            _ => append_few(out, b"+"),
        }
    }
}

/// Appends a displacement next to a register, as a signed number of the address size.
#[tactic(auto, unfolding(crate::specs::Addresses::signed_displacement))]
pub fn append_signed_displacement<const N: usize>(
    out: &mut ArrayVec<u8, N>,
    style: Style,
    asize: Bits,
    m: &Mem,
)
    requires { array_vec_len out.old + length (spec.signed_displacement style asize m.now) ≤ N }
    ensures { out.new.items ≡ out.old.items ++ spec.signed_displacement style asize m.now }
{
    match m.disp_size {
        DispSize::D0 => {}
        _ => {
            append_sign(out, style, is_negative(asize, m.disp));
            append_number(out, style, magnitude(asize, m.disp));
        }
    }
}

/// Appends a displacement without a register, unsigned.
#[tactic(auto, unfolding(crate::specs::Addresses::lone_displacement))]
pub fn append_lone_displacement<const N: usize>(out: &mut ArrayVec<u8, N>, style: Style, m: &Mem)
    requires { array_vec_len out.old + length (spec.lone_displacement style m.now) ≤ N }
    ensures { out.new.items ≡ out.old.items ++ spec.lone_displacement style m.now }
{
    match m.disp_size {
        DispSize::D0 => {}
        _ => append_number(out, style, m.disp),
    }
}

/// Appends the word in front of a target that is relative to the instruction pointer.
#[inline]
#[tactic(auto, unfolding(crate::specs::Addresses::relative_word))]
fn append_relative_word<const N: usize>(
    out: &mut ArrayVec<u8, N>,
    style: Style,
    base: Option<Register>,
)
    requires { array_vec_len out.old + length (spec.relative_word style base) ≤ N }
    ensures { out.new.items ≡ out.old.items ++ spec.relative_word style base }
{
    match style {
        Style::Intel => match base {
            Some(Register::Eip) => append_few(out, b"rel32 "),
            _ => append_few(out, b"rel "),
        },
        _ => {}
    }
}

/// Appends a base, if there is one.
#[tactic(auto, unfolding(crate::specs::Addresses::base_text))]
pub fn append_base<const N: usize>(out: &mut ArrayVec<u8, N>, style: Style, base: Option<Register>)
    requires { array_vec_len out.old + length (spec.base_text style base) ≤ N }
    ensures { out.new.items ≡ out.old.items ++ spec.base_text style base }
{
    match base {
        None => {}
        Some(r) => append_frequent_register(out, style, r),
    }
}

/// Appends the plus between a base and an index.
#[inline]
#[tactic(auto, unfolding(crate::specs::Addresses::joint))]
fn append_joint<const N: usize>(out: &mut ArrayVec<u8, N>, base: Option<Register>)
    requires { array_vec_len out.old + length (spec.joint base) ≤ N }
    ensures { out.new.items ≡ out.old.items ++ spec.joint base }
{
    match base {
        None => {}
        Some(_) => append_few(out, b"+"),
    }
}

/// Appends a scale after its sign. 16-bit addressing has none.
#[tactic(auto, unfolding(crate::specs::Addresses::scale_text))]
pub fn append_scale<const N: usize>(out: &mut ArrayVec<u8, N>, mark: &[u8], asize: Bits, scale: u8)
    requires { array_vec_len out.old + length (spec.scale_text mark.now asize scale) ≤ N }
    ensures { out.new.items ≡ out.old.items ++ spec.scale_text mark.now asize scale }
{
    match asize {
        Bits::B16 => {}
        _ => {
            append_few(out, mark);
            append_decimal(out, scale);
        }
    }
}

/// Appends an index with its scale, if there is one.
#[tactic(auto, unfolding(crate::specs::Addresses::index_text))]
fn append_index<const N: usize>(out: &mut ArrayVec<u8, N>, style: Style, asize: Bits, m: &Mem)
    requires { array_vec_len out.old + length (spec.index_text style asize m.now) ≤ N }
    ensures { out.new.items ≡ out.old.items ++ spec.index_text style asize m.now }
{
    match m.index {
        None => {}
        Some(r) => {
            append_joint(out, m.base);
            append_register(out, style, r);
            append_scale(out, b"*", asize, m.scale);
        }
    }
}

/// Appends base, index and displacement.
#[tactic(auto, unfolding(crate::specs::Addresses::sum_text))]
fn append_sum<const N: usize>(out: &mut ArrayVec<u8, N>, style: Style, asize: Bits, m: &Mem)
    requires { array_vec_len out.old + length (spec.sum_text style asize m.now) ≤ N }
    ensures { out.new.items ≡ out.old.items ++ spec.sum_text style asize m.now }
{
    append_base(out, style, m.base);
    append_index(out, style, asize, m);
    append_signed_displacement(out, style, asize, m);
}

/// Appends what is inside the brackets.
#[tactic(auto, unfolding(crate::specs::Addresses::inside))]
fn append_inside<const N: usize>(out: &mut ArrayVec<u8, N>, style: Style, asize: Bits, m: &Mem)
    requires { array_vec_len out.old + length (spec.inside style asize m.now) ≤ N }
    ensures { out.new.items ≡ out.old.items ++ spec.inside style asize m.now }
{
    if is_instruction_pointer(m.base) {
        append_relative_word(out, style, m.base);
        append_number(out, style, m.disp);
    } else if is_absolute(m) {
        append_lone_displacement(out, style, m);
    } else {
        append_sum(out, style, asize, m);
    }
}

/// Appends the segment in front of the brackets.
#[tactic(auto, unfolding(crate::specs::Addresses::bracket_segment, crate::specs::Registers::segment_override))]
fn append_bracket_segment<const N: usize>(
    out: &mut ArrayVec<u8, N>,
    style: Style,
    segment: Option<Segment>,
    m: &Mem,
)
    requires { array_vec_len out.old + length (spec.bracket_segment style segment m.now) ≤ N }
    ensures { out.new.items ≡ out.old.items ++ spec.bracket_segment style segment m.now }
{
    match style {
        Style::Masm => match segment {
            None => {
                if is_absolute(m) {
                    append_few(out, b"ds:");
                }
            }
            Some(_) => append_override(out, style, segment),
        },
        _ => append_override(out, style, segment),
    }
}

/// Appends an address in brackets.
#[tactic(auto, unfolding(crate::specs::Addresses::bracketed_address))]
pub fn append_bracketed<const N: usize>(
    out: &mut ArrayVec<u8, N>,
    style: Style,
    segment: Option<Segment>,
    asize: Bits,
    m: &Mem,
)
    requires { array_vec_len out.old + length (spec.bracketed_address style segment asize m.now) ≤ N }
    ensures { out.new.items ≡ out.old.items ++ spec.bracketed_address style segment asize m.now }
{
    append_bracket_segment(out, style, segment, m);
    append_few(out, b"[");
    append_inside(out, style, asize, m);
    append_few(out, b"]");
}
