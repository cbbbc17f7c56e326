//! How symbols are written.

ghost use Rattle.std.specs.Prelude.{◌≡◌, ◌++◌, OnOk, Some, option_map};
ghost use Rattle.text_parts.specs.Numbers as numbers;
ghost use Rattle.text_options.specs.Answers.{answer};
ghost use Rattle.text_options.specs.Kept.{Kept};
ghost use Rattle.text_options.specs.Symbolic as spec;

use crate::options::{Comments, SymbolPlace};
use crate::spelling::spaces;
use crate::symbols::{Symbol, Symbols};
use crate::values::{append_digits, append_pointer_front, append_value};
use crate::view::View;
use arrayvec::ArrayVec;
use std::alloc::AllocError;
use text_parts::numbers::append_hexadecimal;
use text_pieces::piece::{Number, Role};

/// What a resolver answers at a number.
#[tactic(auto, unfolding(crate::specs::Symbolic::asked))]
fn ask<'a, S: Symbols>(symbols: &'a S, x: &Number) -> Option<Symbol<'a>>
    ensures { option_map answer result ≡ spec.asked (S.names symbols.now) x.now }
{
    match x.role {
        Role::Target => symbols.find(x.value),
        Role::Address => symbols.find(x.value),
        _ => None,
    }
}

/// Appends a symbol: its name, and the offset unless it is 0. Under `Err` a part of it may be appended.
#[tactic(auto, unfolding(crate::specs::Symbolic::symbol), using(crate::proofs::Kept::kept_rules))]
fn append_symbol(out: &mut Vec<u8>, view: &View, s: &Symbol) -> Result<(), AllocError>
    ensures done { OnOk result (out.new.items ≡ out.old.items ++ spec.symbol view.now (answer s.now)) }
    ensures kept { Kept out.old.items out.new.items }
{
    out.extend_from_slice(s.name)?;
    if s.offset == 0 {
        return Ok(());
    }
    out.extend_from_slice(b"+")?;
    append_digits(out, view.options.digits, view.style, s.offset)
}

/// Appends a symbol in angle brackets. Under `Err` a part of it may be appended.
#[tactic(auto, unfolding(crate::specs::Symbolic::in_brackets), using(crate::proofs::Kept::kept_rules))]
fn append_in_brackets(out: &mut Vec<u8>, view: &View, s: &Symbol) -> Result<(), AllocError>
    ensures done { OnOk result (out.new.items ≡ out.old.items ++ spec.in_brackets view.now (answer s.now)) }
    ensures kept { Kept out.old.items out.new.items }
{
    out.extend_from_slice(b"<")?;
    append_symbol(out, view, s)?;
    out.extend_from_slice(b">")
}

/// Appends what stays in front of a symbol that stands for an address. Under `Err` a part of it may be appended.
#[tactic(auto, unfolding(crate::specs::Symbolic::front), using(crate::proofs::Kept::kept_rules))]
fn append_front(out: &mut Vec<u8>, view: &View, x: &Number) -> Result<(), AllocError>
    ensures done { OnOk result (out.new.items ≡ out.old.items ++ spec.front view.now x.now) }
    ensures kept { Kept out.old.items out.new.items }
{
    match x.role {
        Role::Address => match view.pointer {
            None => Ok(()),
            Some(r) => append_pointer_front(out, view, r, false),
        },
        _ => Ok(()),
    }
}

/// Where the symbol of a number is written.
#[tactic(auto, unfolding(crate::specs::Symbolic::place))]
fn place(view: &View, x: &Number) -> SymbolPlace
    ensures { result ≡ spec.place view.now x.now }
{
    match view.options.symbol_place {
        SymbolPlace::BehindOrComment => match x.role {
            Role::Address => SymbolPlace::Comment,
            _ => SymbolPlace::Behind,
        },
        _ => view.options.symbol_place,
    }
}

/// Appends a number of which the resolver knows a symbol. Under `Err` a part of it may be appended.
#[tactic(auto, unfolding(crate::specs::Symbolic::named), using(crate::proofs::Kept::kept_rules))]
fn append_named(
    out: &mut Vec<u8>,
    view: &View,
    x: &Number,
    characters: &[u8],
    s: &Symbol,
) -> Result<(), AllocError>
    ensures done { OnOk result (out.new.items ≡ out.old.items ++ spec.named view.now x.now characters.now (answer s.now)) }
    ensures kept { Kept out.old.items out.new.items }
{
    match place(view, x) {
        SymbolPlace::Instead => {
            append_front(out, view, x)?;
            append_symbol(out, view, s)
        }
        SymbolPlace::Behind => {
            append_value(out, view, x, characters)?;
            out.extend_from_slice(b" ")?;
            append_in_brackets(out, view, s)
        }
        _ => append_value(out, view, x, characters),
    }
}

/// Appends a number, with its symbol if there is one. Under `Err` a part of it may be appended.
#[tactic(auto, unfolding(crate::specs::Symbolic::resolved), using(crate::proofs::Kept::kept_rules))]
pub fn append_resolved<S: Symbols>(
    out: &mut Vec<u8>,
    view: &View,
    symbols: &S,
    x: &Number,
    characters: &[u8],
) -> Result<(), AllocError>
    ensures done { OnOk result (out.new.items ≡ out.old.items
        ++ spec.resolved view.now x.now characters.now (spec.asked (S.names symbols.now) x.now)) }
    ensures kept { Kept out.old.items out.new.items }
{
    match ask(symbols, x) {
        None => append_value(out, view, x, characters),
        Some(s) => append_named(out, view, x, characters, &s),
    }
}

/// An address in hexadecimal digits.
#[tactic(auto, using(crate::proofs::Short::number_short))]
fn address_text(address: u64) -> ArrayVec<u8, 16>
    ensures { result.items ≡ numbers.hexadecimal address }
{
    let mut text: ArrayVec<u8, 16> = ArrayVec::new();
    append_hexadecimal(&mut text, address);
    text
}

/// Appends the spaces and the address that a comment begins with. Under `Err` a part of them may be appended.
#[tactic(auto, unfolding(crate::specs::Symbolic::noted_address), using(crate::proofs::Kept::kept_rules))]
fn append_noted_address(out: &mut Vec<u8>, view: &View, x: &Number) -> Result<(), AllocError>
    ensures done { OnOk result (out.new.items ≡ out.old.items ++ spec.noted_address view.now x.now) }
    ensures kept { Kept out.old.items out.new.items }
{
    out.extend_from_slice(spaces(view.options.comment_gap))?;
    out.extend_from_slice(b"# ")?;
    out.extend_from_slice(&address_text(x.value))
}

/// Whether an address has a comment although it has no symbol.
#[tactic(auto, unfolding(crate::specs::Symbolic::notes_distance))]
fn notes_distance(view: &View) -> bool
    ensures { result ≡ spec.notes_distance view.now }
{
    match view.options.comments {
        Comments::Named => false,
        Comments::Distances => view.pointer.is_some(),
    }
}

/// Appends the comment of an address without a symbol, if it has one. Under `Err` a part of it may be appended.
#[tactic(auto, unfolding(crate::specs::Symbolic::noted_distance), using(crate::proofs::Kept::kept_rules))]
fn append_noted_distance(out: &mut Vec<u8>, view: &View, x: &Number) -> Result<(), AllocError>
    ensures done { OnOk result (out.new.items ≡ out.old.items ++ spec.noted_distance view.now x.now) }
    ensures kept { Kept out.old.items out.new.items }
{
    if notes_distance(view) {
        append_noted_address(out, view, x)
    } else {
        Ok(())
    }
}

/// Appends the comment of an address: the address and its symbol. Under `Err` a part of it may be appended.
#[tactic(auto, unfolding(crate::specs::Symbolic::noted_symbol), using(crate::proofs::Kept::kept_rules))]
fn append_noted_symbol(
    out: &mut Vec<u8>,
    view: &View,
    x: &Number,
    s: &Symbol,
) -> Result<(), AllocError>
    ensures done { OnOk result (out.new.items ≡ out.old.items ++ spec.noted_symbol view.now x.now (Some (answer s.now))) }
    ensures kept { Kept out.old.items out.new.items }
{
    append_noted_address(out, view, x)?;
    out.extend_from_slice(b" ")?;
    append_in_brackets(out, view, s)
}

/// Appends the comment of an address, by what the resolver knows. Under `Err` a part of it may be appended.
#[tactic(auto, unfolding(crate::specs::Symbolic::noted_symbol), using(crate::proofs::Kept::kept_rules))]
fn append_known<S: Symbols>(
    out: &mut Vec<u8>,
    view: &View,
    symbols: &S,
    x: &Number,
) -> Result<(), AllocError>
    ensures done { OnOk result (out.new.items ≡ out.old.items
        ++ spec.noted_symbol view.now x.now (spec.asked (S.names symbols.now) x.now)) }
    ensures kept { Kept out.old.items out.new.items }
{
    match ask(symbols, x) {
        None => append_noted_distance(out, view, x),
        Some(s) => append_noted_symbol(out, view, x, &s),
    }
}

/// Appends the comment of a number, if it has one. Under `Err` a part of it may be appended.
#[tactic(auto, unfolding(crate::specs::Symbolic::noted), using(crate::proofs::Kept::kept_rules))]
pub fn append_note<S: Symbols>(
    out: &mut Vec<u8>,
    view: &View,
    symbols: &S,
    x: &Number,
) -> Result<(), AllocError>
    ensures done { OnOk result (out.new.items ≡ out.old.items
        ++ spec.noted view.now x.now (spec.asked (S.names symbols.now) x.now)) }
    ensures kept { Kept out.old.items out.new.items }
{
    match place(view, x) {
        SymbolPlace::Comment => append_known(out, view, symbols, x),
        _ => Ok(()),
    }
}
