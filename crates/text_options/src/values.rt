//! How the numbers of a text are written.

ghost use Rattle.std.specs.Prelude.{◌≡◌, ◌++◌, OnOk, decimal};
ghost use Rattle.text_parts.specs.Numbers as numbers;
ghost use Rattle.text_parts.specs.Addresses as addresses;
ghost use Rattle.text_options.specs.Kept.{Kept};
ghost use Rattle.text_options.specs.Values as spec;

use crate::options::{Digits, Distances, Immediates};
use crate::signed::{distance, is_below_zero, low};
use crate::spelling::{append_capitals, append_spelled};
use crate::view::View;
use arrayvec::ArrayVec;
use itoa::Buffer;
use std::alloc::AllocError;
use text_parts::numbers::append_number;
use text_parts::registers::register_text;
use text_parts::style::Style;
use text_pieces::piece::{Kind, Number, Role};
use x86_values::Register;

/// A number as a style writes it.
#[tactic(auto, using(crate::proofs::Short::number_short))]
fn number_text(style: Style, n: u64) -> ArrayVec<u8, 18>
    ensures { result.items ≡ numbers.number style n }
{
    let mut text: ArrayVec<u8, 18> = ArrayVec::new();
    append_number(&mut text, style, n);
    text
}

/// Appends a number in decimal. Under `Err` nothing is appended.
#[tactic(auto, using(crate::proofs::Kept::kept_rules))]
fn append_decimal(out: &mut Vec<u8>, n: u64) -> Result<(), AllocError>
    ensures done { OnOk result (out.new.items ≡ out.old.items ++ decimal n) }
    ensures kept { Kept out.old.items out.new.items }
{
    let mut buffer = Buffer::new();
    out.extend_from_slice(buffer.format(n).as_bytes())
}

/// Appends a number in the digits of the options. Under `Err` some of them may be appended.
#[tactic(auto, unfolding(crate::specs::Values::in_digits), using(crate::proofs::Kept::kept_rules))]
pub fn append_digits(
    out: &mut Vec<u8>,
    digits: Digits,
    style: Style,
    n: u64,
) -> Result<(), AllocError>
    ensures done { OnOk result (out.new.items ≡ out.old.items ++ spec.in_digits digits style n) }
    ensures kept { Kept out.old.items out.new.items }
{
    match digits {
        Digits::OfStyle => out.extend_from_slice(&number_text(style, n)),
        Digits::Prefixed => out.extend_from_slice(&number_text(Style::Intel, n)),
        Digits::Suffixed => append_capitals(out, b'f', &number_text(Style::Masm, n)),
        Digits::Decimal => append_decimal(out, n),
    }
}

/// The number whose digits a text shows.
#[inline]
#[tactic(auto, unfolding(crate::specs::Values::shown))]
fn shown(x: &Number) -> u64
    ensures { result ≡ spec.shown x.now }
{
    match x.role {
        Role::Displacement => distance(x.width, x.value),
        _ => x.value,
    }
}

/// Appends a number without a sign of its own. Under `Err` a part of it may be appended.
#[tactic(auto, unfolding(crate::specs::Values::plain), using(crate::proofs::Kept::kept_rules))]
fn append_plain(
    out: &mut Vec<u8>,
    view: &View,
    x: &Number,
    characters: &[u8],
) -> Result<(), AllocError>
    ensures done { OnOk result (out.new.items ≡ out.old.items ++ spec.plain view.now x.now characters.now) }
    ensures kept { Kept out.old.items out.new.items }
{
    match x.role {
        Role::Scale => out.extend_from_slice(characters),
        _ => match view.options.digits {
            Digits::OfStyle => out.extend_from_slice(characters),
            _ => append_digits(out, view.options.digits, view.style, shown(x)),
        },
    }
}

/// Appends an immediate as a signed number of its width. Under `Err` a part of it may be appended.
#[tactic(auto, unfolding(crate::specs::Values::signed), using(crate::proofs::Kept::kept_rules))]
fn append_signed(
    out: &mut Vec<u8>,
    view: &View,
    x: &Number,
    characters: &[u8],
) -> Result<(), AllocError>
    ensures done { OnOk result (out.new.items ≡ out.old.items ++ spec.signed view.now x.now characters.now) }
    ensures kept { Kept out.old.items out.new.items }
{
    if is_below_zero(x.width, x.value) {
        out.extend_from_slice(b"-")?;
        append_digits(
            out,
            view.options.digits,
            view.style,
            distance(x.width, x.value),
        )
    } else {
        append_plain(out, view, x, characters)
    }
}

/// Appends an immediate. Under `Err` a part of it may be appended.
#[tactic(auto, unfolding(crate::specs::Values::immediate), using(crate::proofs::Kept::kept_rules))]
fn append_immediate(
    out: &mut Vec<u8>,
    view: &View,
    x: &Number,
    characters: &[u8],
) -> Result<(), AllocError>
    ensures done { OnOk result (out.new.items ≡ out.old.items ++ spec.immediate view.now x.now characters.now) }
    ensures kept { Kept out.old.items out.new.items }
{
    match view.options.immediates {
        Immediates::Signed => append_signed(out, view, x, characters),
        Immediates::Unsigned => append_plain(out, view, x, characters),
    }
}

/// Appends the instruction pointer in front of a distance or a symbol. Under `Err` a part of it may be appended.
#[tactic(auto, unfolding(crate::specs::Values::pointer_name), using(crate::proofs::Kept::kept_rules))]
fn append_pointer_name(out: &mut Vec<u8>, view: &View, r: Register) -> Result<(), AllocError>
    ensures done { OnOk result (out.new.items ≡ out.old.items ++ spec.pointer_name view.now r) }
    ensures kept { Kept out.old.items out.new.items }
{
    match view.style {
        Style::Att => Ok(()),
        _ => append_spelled(
            out,
            view.options.letters,
            Kind::Register,
            &register_text(view.style, r),
        ),
    }
}

/// The sign of a distance.
#[inline]
#[tactic(auto, unfolding(text_parts::specs::Addresses::sign))]
fn sign(style: Style, negative: bool) -> &'static [u8]
    ensures { result.now ≡ addresses.sign style negative }
{
    if negative {
        b"-"
    } else {
        match style {
            Style::Att => b"",
            _ => b"+",
        }
    }
}

/// Appends the instruction pointer and the sign behind it. Under `Err` a part of it may be appended.
#[tactic(auto, unfolding(crate::specs::Values::pointer_front), using(crate::proofs::Kept::kept_rules))]
pub fn append_pointer_front(
    out: &mut Vec<u8>,
    view: &View,
    r: Register,
    negative: bool,
) -> Result<(), AllocError>
    ensures done { OnOk result (out.new.items ≡ out.old.items ++ spec.pointer_front view.now r negative) }
    ensures kept { Kept out.old.items out.new.items }
{
    append_pointer_name(out, view, r)?;
    out.extend_from_slice(sign(view.style, negative))
}

/// Appends the instruction pointer and a distance with its sign. Under `Err` a part of it may be appended.
#[tactic(auto, unfolding(crate::specs::Values::signed_distance), using(crate::proofs::Kept::kept_rules))]
fn append_signed_distance(
    out: &mut Vec<u8>,
    view: &View,
    r: Register,
    width: u8,
    gap: u64,
) -> Result<(), AllocError>
    ensures done { OnOk result (out.new.items ≡ out.old.items ++ spec.signed_distance view.now r width gap) }
    ensures kept { Kept out.old.items out.new.items }
{
    append_pointer_front(out, view, r, is_below_zero(width, gap))?;
    append_digits(out, view.options.digits, view.style, distance(width, gap))
}

/// Appends the instruction pointer and a distance as a number without a sign. Under `Err` a part of it may be appended.
#[tactic(auto, unfolding(crate::specs::Values::wrapped_distance), using(crate::proofs::Kept::kept_rules))]
fn append_wrapped_distance(
    out: &mut Vec<u8>,
    view: &View,
    r: Register,
    width: u8,
    gap: u64,
) -> Result<(), AllocError>
    ensures done { OnOk result (out.new.items ≡ out.old.items ++ spec.wrapped_distance view.now r width gap) }
    ensures kept { Kept out.old.items out.new.items }
{
    append_pointer_front(out, view, r, false)?;
    append_digits(out, view.options.digits, view.style, low(width, gap))
}

/// Appends an address as a distance from the instruction pointer. Under `Err` a part of it may be appended.
#[tactic(auto, unfolding(crate::specs::Values::by_distance), using(crate::proofs::Kept::kept_rules))]
fn append_by_distance(
    out: &mut Vec<u8>,
    view: &View,
    r: Register,
    x: &Number,
) -> Result<(), AllocError>
    ensures done { OnOk result (out.new.items ≡ out.old.items ++ spec.by_distance view.now r x.now) }
    ensures kept { Kept out.old.items out.new.items }
{
    let gap = x.value.wrapping_sub(view.end);
    match view.options.distances {
        Distances::Signed => append_signed_distance(out, view, r, x.width, gap),
        Distances::Wrapped => append_wrapped_distance(out, view, r, x.width, gap),
    }
}

/// Appends an address. Under `Err` a part of it may be appended.
#[tactic(auto, unfolding(crate::specs::Values::address), using(crate::proofs::Kept::kept_rules))]
fn append_address(
    out: &mut Vec<u8>,
    view: &View,
    x: &Number,
    characters: &[u8],
) -> Result<(), AllocError>
    ensures done { OnOk result (out.new.items ≡ out.old.items ++ spec.address view.now x.now characters.now) }
    ensures kept { Kept out.old.items out.new.items }
{
    match view.pointer {
        None => append_plain(out, view, x, characters),
        Some(r) => append_by_distance(out, view, r, x),
    }
}

/// Appends a number without a symbol, which has these characters in the printer's text. Under `Err` a part of it may be appended.
#[tactic(auto, unfolding(crate::specs::Values::value), using(crate::proofs::Kept::kept_rules))]
pub fn append_value(
    out: &mut Vec<u8>,
    view: &View,
    x: &Number,
    characters: &[u8],
) -> Result<(), AllocError>
    ensures done { OnOk result (out.new.items ≡ out.old.items ++ spec.value view.now x.now characters.now) }
    ensures kept { Kept out.old.items out.new.items }
{
    match x.role {
        Role::Immediate => append_immediate(out, view, x, characters),
        Role::Address => append_address(out, view, x, characters),
        _ => append_plain(out, view, x, characters),
    }
}
