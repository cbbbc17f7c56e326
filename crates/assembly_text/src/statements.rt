//! What a text says as an instruction: its operands, and the texts of the printer that it may stand for.

ghost use Rattle.std.specs.Prelude.{◌≡◌, ◌≤◌, ◌<◌, ◌+◌, ◌^◌, ◌++◌, OnOk, length, drop, codes};
ghost use Rattle.x86_values.specs.Wrapping.{width as width_of};
ghost use Rattle.text_parts.specs.declared.style.Style.TheVariants.{Intel};
ghost use Rattle.text_parts.specs.Numbers.{number};
ghost use Rattle.text_parts.specs.Registers.{register};
ghost use Rattle.assembly_text.specs.Names.{head_text};
ghost use Rattle.assembly_text.specs.Statements as spec;

use crate::digits::last_byte;
use crate::drafts::{
    Draft, Place, address_bits, below_zero, has_no_size, is_pointer, is_relative, operand_in,
    wrapped,
};
use crate::line::{behind, front_of};
use crate::names::{behind_word, named_text};
use arrayvec::ArrayVec;
use intel_words::words::SizeName;
use std::alloc::AllocError;
use text_parts::laws::numbers_are_short;
use text_parts::numbers::append_number;
use text_parts::registers::{register_text, segment_name};
use text_parts::style::Style;
use x86_values::{Bits, Register, Segment, modulus, wrap};

/// The operands of a text.
#[derive(Clone, Copy)]
pub(crate) struct Statement {
    /// The first operand.
    pub(crate) first: Option<Draft>,
    /// The second.
    pub(crate) second: Option<Draft>,
    /// The third.
    pub(crate) third: Option<Draft>,
    /// The fourth.
    pub(crate) fourth: Option<Draft>,
    /// Whether nothing is left after them.
    pub(crate) closed: bool,
}

/// A width of numbers.
#[derive(Clone, Copy)]
pub(crate) enum Width {
    W64,
    W32,
    W16,
    W8,
}

/// The half of the numbers of a width.
#[tactic(auto, unfolding(crate::specs::Statements::half_of))]
fn half_of(width: Width) -> u64
    ensures value { result ≡ spec.half_of width }
    ensures small { result ≤ 2 ^ 63 }
{
    match width {
        Width::W64 => 0x8000_0000_0000_0000,
        Width::W32 => 0x8000_0000,
        Width::W16 => 0x8000,
        Width::W8 => 0x80,
    }
}

/// A number below 0 in the width of which this is the half.
#[tactic(auto, unfolding(crate::specs::Statements::negative_in))]
fn negative_in(half: u64, n: u64) -> u64
    requires half { half ≤ 2 ^ 63 }
    requires some { 0 < n }
    ensures { result ≡ spec.negative_in half n }
{
    if n <= half {
        half + (half - n)
    } else {
        u64::MAX - (n - 1)
    }
}

/// What the numbers of an operand come to, in a width.
#[tactic(auto, unfolding(crate::specs::Statements::value_in))]
fn value_in(width: Width, d: &Draft) -> u64
    ensures { result ≡ spec.value_in width d.now }
{
    if d.minus <= d.plus {
        d.plus - d.minus
    } else {
        negative_in(half_of(width), below_zero(d))
    }
}

/// Appends a number.
pub(crate) fn append_value(out: &mut Vec<u8>, n: u64) -> Result<(), AllocError>
    ensures { OnOk result (out.new.items ≡ out.old.items ++ number Intel n) }
{
    numbers_are_short();
    let mut text: ArrayVec<u8, 18> = ArrayVec::new();
    append_number(&mut text, Style::Intel, n);
    out.extend_from_slice(&text)
}

/// Appends a register.
fn put_register(out: &mut Vec<u8>, r: Register) -> Result<(), AllocError>
    ensures { OnOk result (out.new.items ≡ out.old.items ++ register Intel r) }
{
    let text = register_text(Style::Intel, r);
    out.extend_from_slice(&text)
}

/// The word of a size, with a space.
#[tactic(auto, unfolding(crate::specs::Statements::size_text))]
fn size_text(size: SizeName) -> &'static [u8]
    ensures { result.now ≡ spec.size_text size }
{
    match size {
        SizeName::None => b"",
        SizeName::Byte => b"byte ",
        SizeName::Word => b"word ",
        SizeName::Dword => b"dword ",
        SizeName::Qword => b"qword ",
        SizeName::Tbyte => b"tbyte ",
        SizeName::Xmmword => b"xmmword ",
        SizeName::Ymmword => b"ymmword ",
        SizeName::Far16 => b"far16 ",
        SizeName::Far32 => b"far32 ",
        SizeName::Far64 => b"far64 ",
    }
}

/// The size that an address has, or one for those without.
#[tactic(auto, unfolding(crate::specs::Statements::size_or))]
fn size_or(size: SizeName, other: SizeName) -> SizeName
    ensures { result ≡ spec.size_or size other }
{
    match size {
        SizeName::None => other,
        _ => size,
    }
}

/// Appends a segment and a colon.
#[tactic(auto, unfolding(crate::specs::Statements::segment_text))]
fn put_segment(out: &mut Vec<u8>, seg: Option<Segment>) -> Result<(), AllocError>
    ensures { OnOk result (out.new.items ≡ out.old.items ++ spec.segment_text seg) }
{
    match seg {
        None => Ok(()),
        Some(s) => {
            out.extend_from_slice(segment_name(s))?;
            out.extend_from_slice(b":")
        }
    }
}

/// The word before a target.
#[tactic(auto, unfolding(crate::specs::Statements::relative_text))]
fn relative_text(base: Option<Register>) -> &'static [u8]
    ensures { result.now ≡ spec.relative_text base }
{
    match base {
        Some(Register::Eip) => b"rel32 ",
        _ => b"rel ",
    }
}

/// Appends a register or nothing.
#[tactic(auto, unfolding(crate::specs::Statements::register_text))]
fn put_base(out: &mut Vec<u8>, base: Option<Register>) -> Result<(), AllocError>
    ensures { OnOk result (out.new.items ≡ out.old.items ++ spec.register_text base) }
{
    match base {
        None => Ok(()),
        Some(r) => put_register(out, r),
    }
}

/// A plus after a base.
#[tactic(auto, unfolding(crate::specs::Statements::joint))]
fn joint(base: Option<Register>) -> &'static [u8]
    ensures { result.now ≡ spec.joint base }
{
    match base {
        None => b"",
        Some(_) => b"+",
    }
}

/// The digit of a scale.
#[tactic(auto, unfolding(crate::specs::Statements::scale_digit))]
fn scale_digit(scale: u8) -> u8
    ensures { result ≡ spec.scale_digit scale }
{
    if scale == 1 {
        b'1'
    } else if scale == 2 {
        b'2'
    } else if scale == 4 {
        b'4'
    } else {
        b'8'
    }
}

/// Appends a scale, which 16-bit addressing does not have.
#[tactic(auto, unfolding(crate::specs::Statements::scale_text))]
fn put_scale(out: &mut Vec<u8>, bits: Bits, scale: u8) -> Result<(), AllocError>
    ensures { OnOk result (out.new.items ≡ out.old.items ++ spec.scale_text bits scale) }
{
    match bits {
        Bits::B16 => Ok(()),
        _ => {
            out.extend_from_slice(b"*")?;
            out.push(scale_digit(scale))?;
            Ok(())
        }
    }
}

/// Appends an index with its scale.
#[tactic(auto, unfolding(crate::specs::Statements::index_text))]
fn put_index(out: &mut Vec<u8>, d: &Draft) -> Result<(), AllocError>
    ensures { OnOk result (out.new.items ≡ out.old.items ++ spec.index_text d.now) }
{
    match d.index {
        None => Ok(()),
        Some(r) => {
            out.extend_from_slice(joint(d.base))?;
            put_register(out, r)?;
            put_scale(out, address_bits(d), d.scale)
        }
    }
}

/// Whether a base has no encoding without a displacement.
#[tactic(auto, unfolding(crate::specs::Statements::is_never_alone))]
fn is_never_alone(indexed: bool, r: Register) -> bool
    ensures { result ≡ spec.is_never_alone indexed r }
{
    match r {
        Register::R16(n) => n == 5 && !indexed,
        Register::R32(n) => n == 5 || n == 13,
        Register::R64(n) => n == 5 || n == 13,
        _ => false,
    }
}

/// Whether a displacement is needed, even if it is 0.
#[tactic(auto, unfolding(crate::specs::Statements::needs_displacement))]
fn needs_displacement(d: &Draft) -> bool
    ensures { result ≡ spec.needs_displacement d.now }
{
    match d.base {
        None => true,
        Some(r) => is_never_alone(d.index.is_some(), r),
    }
}

/// Appends a displacement of this many bits beside a register, with its sign.
#[tactic(auto, unfolding(crate::specs::Statements::signed_text))]
fn put_signed(out: &mut Vec<u8>, bits: Bits, x: u64) -> Result<(), AllocError>
    requires { x < 2 ^ width_of bits }
    ensures { OnOk result (out.new.items ≡ out.old.items ++ spec.signed_text bits x) }
{
    let all = modulus(bits);
    if all - 1 < 2 * x as u128 {
        out.extend_from_slice(b"-")?;
        append_value(out, (all - x as u128) as u64)
    } else {
        out.extend_from_slice(b"+")?;
        append_value(out, x)
    }
}

/// Appends a displacement beside a register, if one is needed.
#[tactic(auto, unfolding(crate::specs::Statements::displacement_text))]
fn put_displacement(out: &mut Vec<u8>, d: &Draft) -> Result<(), AllocError>
    ensures { OnOk result (out.new.items ≡ out.old.items ++ spec.displacement_text d.now) }
{
    let bits = address_bits(d);
    let x = wrap(bits, wrapped(d) as u128);
    if x == 0 && !needs_displacement(d) {
        Ok(())
    } else {
        put_signed(out, bits, x)
    }
}

/// Appends what is in the brackets.
#[tactic(auto, unfolding(crate::specs::Statements::inside_text))]
fn put_inside(out: &mut Vec<u8>, bits: Bits, d: &Draft) -> Result<(), AllocError>
    ensures { OnOk result (out.new.items ≡ out.old.items ++ spec.inside_text bits d.now) }
{
    if is_relative(bits, d) {
        out.extend_from_slice(relative_text(d.base))?;
        append_value(out, wrap(bits, wrapped(d) as u128))
    } else if d.base.is_none() && d.index.is_none() {
        append_value(out, wrap(bits, wrapped(d) as u128))
    } else {
        put_base(out, d.base)?;
        put_index(out, d)?;
        put_displacement(out, d)
    }
}

/// Appends an address.
#[tactic(auto, unfolding(crate::specs::Statements::address_text))]
fn put_address(out: &mut Vec<u8>, bits: Bits, size: SizeName, d: &Draft) -> Result<(), AllocError>
    ensures { OnOk result (out.new.items ≡ out.old.items ++ spec.address_text bits size d.now) }
{
    out.extend_from_slice(size_text(size_or(d.size, size)))?;
    put_segment(out, d.seg)?;
    out.extend_from_slice(b"[")?;
    put_inside(out, bits, d)?;
    out.extend_from_slice(b"]")
}

/// Appends the selector of a far pointer, with a colon.
#[tactic(auto, unfolding(crate::specs::Statements::selector_text))]
fn put_selector(out: &mut Vec<u8>, selector: Option<u64>) -> Result<(), AllocError>
    ensures { OnOk result (out.new.items ≡ out.old.items ++ spec.selector_text selector) }
{
    match selector {
        None => Ok(()),
        Some(n) => {
            append_value(out, n)?;
            out.extend_from_slice(b":")
        }
    }
}

/// Appends an operand without brackets.
#[tactic(auto, unfolding(crate::specs::Statements::plain_text))]
fn put_plain(out: &mut Vec<u8>, width: Width, d: &Draft) -> Result<(), AllocError>
    ensures { OnOk result (out.new.items ≡ out.old.items ++ spec.plain_text width d.now) }
{
    match d.base {
        Some(r) => put_register(out, r),
        None => {
            put_selector(out, d.selector)?;
            append_value(out, value_in(width, d))
        }
    }
}

/// Appends an operand.
#[tactic(auto, unfolding(crate::specs::Statements::operand_text))]
pub(crate) fn put_operand(
    out: &mut Vec<u8>,
    bits: Bits,
    size: SizeName,
    width: Width,
    d: &Draft,
) -> Result<(), AllocError>
    ensures { OnOk result (out.new.items ≡ out.old.items ++ spec.operand_text bits size width d.now) }
{
    match d.place {
        Place::Behind => put_address(out, bits, size, d),
        _ => put_plain(out, width, d),
    }
}

/// Appends an operand after what separates it, if there is one.
#[tactic(auto, unfolding(crate::specs::Statements::part_text))]
fn put_part(
    out: &mut Vec<u8>,
    bits: Bits,
    size: SizeName,
    width: Width,
    between: &[u8],
    part: &Option<Draft>,
) -> Result<(), AllocError>
    ensures { OnOk result (out.new.items ≡ out.old.items ++ spec.part_text bits size width between.now part.now) }
{
    match part {
        None => Ok(()),
        Some(d) => {
            out.extend_from_slice(between)?;
            put_operand(out, bits, size, width, d)
        }
    }
}

/// Appends operands to the head of a front: the text of the printer.
#[tactic(auto, unfolding(crate::specs::Statements::full_text))]
pub(crate) fn put_full(
    out: &mut Vec<u8>,
    bits: Bits,
    size: SizeName,
    width: Width,
    low: &[u8],
    s: &Statement,
) -> Result<(), AllocError>
    requires { out.old.items ≡ head_text low.now }
    ensures { OnOk result (out.new.items ≡ spec.full_text bits size width low.now s.now) }
{
    put_part(out, bits, size, width, b" ", &s.first)?;
    put_part(out, bits, size, width, b", ", &s.second)?;
    put_part(out, bits, size, width, b", ", &s.third)?;
    put_part(out, bits, size, width, b", ", &s.fourth)
}

/// Whether a byte is no comma.
#[tactic(auto, unfolding(crate::specs::Statements::is_no_comma))]
fn is_no_comma(c: u8) -> bool
    ensures { result ≡ spec.is_no_comma c }
{
    c != b','
}

/// How many bytes precede the first comma.
fn comma_at(text: &[u8]) -> usize
    ensures value { result ≡ spec.comma_at text.now }
    ensures within { result ≤ length text.now }
{
    for (i, c) in text.iter().enumerate() {
        if !is_no_comma(*c) {
            return i;
        }
    }
    text.len()
}

/// What follows the first comma, which so many bytes precede.
fn behind_comma(text: &[u8], len: usize) -> &[u8]
    requires { len ≡ spec.comma_at text.now }
    ensures { result.now ≡ spec.behind_comma text.now }
{
    behind(text, len.saturating_add(1))
}

/// Reads the operand before the first comma of a text that begins at a place, if it has bytes.
#[tactic(auto, unfolding(crate::specs::Statements::operand_at))]
fn read_operand(out: &mut Option<Draft>, at: usize, text: &[u8], len: usize)
    requires place { at + length text.now < 2 ^ 64 }
    requires len { len ≡ spec.comma_at text.now }
    ensures { out.new ≡ spec.operand_at at text.now }
{
    *out = if text.is_empty() {
        None
    } else {
        Some(operand_in(at, front_of(text, len)))
    };
}

/// The operands of a text that begins at a place.
#[tactic(auto, unfolding(crate::specs::Statements::operands_from, crate::specs::Statements::is_empty))]
fn operands_from(at: usize, text: &[u8]) -> Statement
    requires { at + length text.now + 4 < 2 ^ 64 }
    ensures { result ≡ spec.operands_from at text.now }
{
    let mut s = Statement {
        first: None,
        second: None,
        third: None,
        fourth: None,
        closed: false,
    };
    let first_len = comma_at(text);
    read_operand(&mut s.first, at, text, first_len);
    let second = behind_comma(text, first_len);
    let second_at = at + first_len + 1;
    let second_len = comma_at(second);
    read_operand(&mut s.second, second_at, second, second_len);
    let third = behind_comma(second, second_len);
    let third_at = second_at + second_len + 1;
    let third_len = comma_at(third);
    read_operand(&mut s.third, third_at, third, third_len);
    let fourth = behind_comma(third, third_len);
    let fourth_at = third_at + third_len + 1;
    let fourth_len = comma_at(fourth);
    read_operand(&mut s.fourth, fourth_at, fourth, fourth_len);
    s.closed = last_byte(text) != b',' && behind_comma(fourth, fourth_len).is_empty();
    s
}

/// What a text in lower case says.
pub(crate) fn statement_of(low: &[u8]) -> Statement
    requires { length low.now + 4 < 2 ^ 64 }
    ensures { result ≡ spec.statement_of low.now }
{
    let operands = behind_word(named_text(low));
    operands_from(low.len().saturating_sub(operands.len()), operands)
}

/// Whether what stands beside the instruction pointer is a name, or known to be a target.
fn is_aimed(d: &Draft) -> bool
    ensures { result ≡ spec.is_aimed d.now }
{
    !is_pointer(d.base) || (d.name.is_some() || d.rel)
}

/// Whether an operand is none, or has passed.
#[tactic(auto, unfolding(crate::specs::Statements::is_sound_part))]
fn is_sound_part(part: &Option<Draft>) -> bool
    ensures { result ≡ spec.is_sound_part part.now }
{
    match part {
        None => true,
        Some(d) => {
            (d.sound && is_aimed(d)) && (d.name.is_none() || (d.plus == 0 && d.minus == 0))
        }
    }
}

/// The place of the name of an operand.
#[tactic(auto, unfolding(crate::specs::Statements::name_in))]
fn name_in(part: &Option<Draft>) -> Option<usize>
    ensures { result ≡ spec.name_in part.now }
{
    match part {
        None => None,
        Some(d) => d.name,
    }
}

/// 1 for an operand with a name.
fn names_in(part: &Option<Draft>) -> u8
    ensures value { result ≡ spec.names_in part.now }
    ensures small { result ≤ 1 }
{
    if name_in(part).is_some() { 1 } else { 0 }
}

/// The first of two places.
#[tactic(auto, unfolding(crate::specs::Statements::either))]
fn either(one: Option<usize>, other: Option<usize>) -> Option<usize>
    ensures { result ≡ spec.either one other }
{
    match one {
        Some(at) => Some(at),
        None => other,
    }
}

/// The place of the name of a statement.
#[tactic(auto, unfolding(crate::specs::Statements::name_of))]
pub(crate) fn name_of(s: &Statement) -> Option<usize>
    ensures { result ≡ spec.name_of s.now }
{
    either(
        name_in(&s.first),
        either(
            name_in(&s.second),
            either(name_in(&s.third), name_in(&s.fourth)),
        ),
    )
}

/// Whether the operands are those of an instruction, with one name at most.
#[tactic(auto, unfolding(crate::specs::Statements::is_sound))]
pub(crate) fn is_sound(s: &Statement) -> bool
    ensures { result ≡ spec.is_sound s.now }
{
    s.closed
        && ((is_sound_part(&s.first)
            && (is_sound_part(&s.second) && (is_sound_part(&s.third) && is_sound_part(&s.fourth))))
            && names_in(&s.first)
                + (names_in(&s.second) + (names_in(&s.third) + names_in(&s.fourth)))
                <= 1)
}

/// Whether an operand is a number below 0 outside of brackets.
#[tactic(auto, unfolding(crate::specs::Statements::is_negative_part))]
fn is_negative_part(part: &Option<Draft>) -> bool
    ensures { result ≡ spec.is_negative_part part.now }
{
    match part {
        None => false,
        Some(d) => match d.place {
            Place::Behind => false,
            _ => 0 < below_zero(d),
        },
    }
}

/// Whether an operand is a number below 0.
#[tactic(auto, unfolding(crate::specs::Statements::has_negative))]
pub(crate) fn has_negative(s: &Statement) -> bool
    ensures { result ≡ spec.has_negative s.now }
{
    is_negative_part(&s.first)
        || (is_negative_part(&s.second)
            || (is_negative_part(&s.third) || is_negative_part(&s.fourth)))
}

/// Whether an operand is an address without a size.
#[tactic(auto, unfolding(crate::specs::Statements::is_unsized_part))]
pub(crate) fn is_unsized_part(part: &Option<Draft>) -> bool
    ensures { result ≡ spec.is_unsized_part part.now }
{
    match part {
        None => false,
        Some(d) => match d.place {
            Place::Behind => has_no_size(d.size),
            _ => false,
        },
    }
}

/// Whether an operand is an address without a size.
#[tactic(auto, unfolding(crate::specs::Statements::is_unsized))]
fn is_unsized(s: &Statement) -> bool
    ensures { result ≡ spec.is_unsized s.now }
{
    is_unsized_part(&s.first)
        || (is_unsized_part(&s.second) || (is_unsized_part(&s.third) || is_unsized_part(&s.fourth)))
}

/// The widths of numbers.
#[tactic(auto, unfolding(crate::specs::Statements::widths_of))]
pub(crate) fn widths_of(s: &Statement) -> &'static [Width]
    ensures { result.now ≡ spec.widths_of s.now }
{
    if has_negative(s) {
        &[Width::W64, Width::W32, Width::W16, Width::W8]
    } else {
        &[Width::W64]
    }
}

/// The sizes of an address without one.
#[tactic(auto, unfolding(crate::specs::Statements::sizes_of))]
pub(crate) fn sizes_of(s: &Statement) -> &'static [SizeName]
    ensures { result.now ≡ spec.sizes_of s.now }
{
    if is_unsized(s) {
        &[
            SizeName::None,
            SizeName::Byte,
            SizeName::Word,
            SizeName::Dword,
            SizeName::Qword,
            SizeName::Tbyte,
            SizeName::Xmmword,
            SizeName::Ymmword,
            SizeName::Far16,
            SizeName::Far32,
            SizeName::Far64,
        ]
    } else {
        &[SizeName::None]
    }
}
