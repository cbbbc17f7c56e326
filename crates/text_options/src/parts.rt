//! The text of each piece.

ghost use Rattle.std.specs.Prelude.{◌≡◌, ◌++◌, OnOk};
ghost use Rattle.text_options.specs.Kept.{Kept};
ghost use Rattle.text_options.specs.Parts as spec;

use crate::behind::Behind;
use crate::gnu_front::append_port;
use crate::gnu_pieces::{Change, gnu_change};
use crate::options::Commas;
use crate::spelling::{append_spelled, spaces};
use crate::symbolic::{append_note, append_resolved};
use crate::symbols::Symbols;
use crate::values::append_digits;
use crate::view::View;
use std::alloc::AllocError;
use text_parts::style::Style;
use text_pieces::piece::Kind;

/// Appends a space behind the name, filled up to the column of the first operand. Under `Err` a part of it may be appended.
#[tactic(auto, unfolding(crate::specs::Parts::gap), using(crate::proofs::Kept::kept_rules))]
fn append_gap(out: &mut Vec<u8>, view: &View, end: u8, characters: &[u8]) -> Result<(), AllocError>
    ensures done { OnOk result (out.new.items ≡ out.old.items ++ spec.gap view.now end characters.now) }
    ensures kept { Kept out.old.items out.new.items }
{
    out.extend_from_slice(characters)?;
    out.extend_from_slice(spaces(view.options.operand_column.saturating_sub(end)))
}

/// Appends a space behind a comma. Under `Err` nothing is appended.
#[tactic(auto, unfolding(crate::specs::Parts::comma_space), using(crate::proofs::Kept::kept_rules))]
fn append_comma_space(out: &mut Vec<u8>, view: &View, characters: &[u8]) -> Result<(), AllocError>
    ensures done { OnOk result (out.new.items ≡ out.old.items ++ spec.comma_space view.now characters.now) }
    ensures kept { Kept out.old.items out.new.items }
{
    match view.options.commas {
        Commas::Spaced => out.extend_from_slice(characters),
        Commas::Tight => Ok(()),
    }
}

/// Appends a part unless a condition holds. Under `Err` nothing is appended.
#[tactic(auto, unfolding(crate::specs::Parts::unless), using(crate::proofs::Kept::kept_rules))]
fn append_unless(out: &mut Vec<u8>, condition: bool, characters: &[u8]) -> Result<(), AllocError>
    ensures done { OnOk result (out.new.items ≡ out.old.items ++ spec.unless condition characters.now) }
    ensures kept { Kept out.old.items out.new.items }
{
    if condition {
        Ok(())
    } else {
        out.extend_from_slice(characters)
    }
}

/// Appends a space, by what it follows and the place where it ends. Under `Err` a part of it may be appended.
#[tactic(auto, unfolding(crate::specs::Parts::space_text), using(crate::proofs::Kept::kept_rules))]
fn append_space(
    out: &mut Vec<u8>,
    view: &View,
    end: u8,
    behind: Behind,
    characters: &[u8],
) -> Result<(), AllocError>
    ensures done { OnOk result (out.new.items ≡ out.old.items ++ spec.space_text view.now end behind characters.now) }
    ensures kept { Kept out.old.items out.new.items }
{
    match behind {
        Behind::Name => append_gap(out, view, end, characters),
        Behind::Mark => append_comma_space(out, view, characters),
        Behind::SizeWord => append_unless(out, view.drops_sizes, characters),
        Behind::RelativeWord => append_unless(out, view.pointer.is_some(), characters),
        Behind::Other | Behind::Register => out.extend_from_slice(characters),
    }
}

/// Whether a keyword is left out.
#[inline]
#[tactic(auto, unfolding(crate::specs::Parts::drops_keyword))]
fn drops_keyword(view: &View, behind: Behind) -> bool
    ensures { result ≡ spec.drops_keyword view.now behind }
{
    match behind {
        Behind::Mark => view.pointer.is_some(),
        _ => view.drops_sizes,
    }
}

/// Appends a keyword, by what it follows. Under `Err` a part of it may be appended.
#[tactic(auto, unfolding(crate::specs::Parts::keyword_text, crate::specs::Parts::unless), using(crate::proofs::Kept::kept_rules))]
fn append_keyword(
    out: &mut Vec<u8>,
    view: &View,
    behind: Behind,
    characters: &[u8],
) -> Result<(), AllocError>
    ensures done { OnOk result (out.new.items ≡ out.old.items ++ spec.keyword_text view.now behind characters.now) }
    ensures kept { Kept out.old.items out.new.items }
{
    if drops_keyword(view, behind) {
        Ok(())
    } else {
        append_spelled(out, view.options.letters, Kind::Keyword, characters)
    }
}

/// Appends the text of a piece that ends at a place and follows another. Under `Err` a part of it may be appended.
#[tactic(auto, unfolding(crate::specs::Parts::piece_text), using(crate::proofs::Kept::kept_rules))]
fn append_piece<S: Symbols>(
    out: &mut Vec<u8>,
    view: &View,
    symbols: &S,
    end: u8,
    behind: Behind,
    kind: &Kind,
    characters: &[u8],
) -> Result<(), AllocError>
    ensures done { OnOk result (out.new.items ≡ out.old.items
        ++ spec.piece_text view.now (S.names symbols.now) end behind kind.now characters.now) }
    ensures kept { Kept out.old.items out.new.items }
{
    match kind {
        Kind::Number(x) => append_resolved(out, view, symbols, x, characters),
        Kind::Keyword => append_keyword(out, view, behind, characters),
        Kind::Space => append_space(out, view, end, behind, characters),
        _ => append_spelled(out, view.options.letters, *kind, characters),
    }
}

/// Whether a mark is not the colon behind a segment.
#[inline]
#[tactic(auto, unfolding(crate::specs::Parts::is_bracket))]
fn is_bracket(behind: Behind) -> bool
    ensures { result ≡ spec.is_bracket behind }
{
    !matches!(behind, Behind::Register)
}

/// Whether a piece is a bracket of an address that has none: a mark of its operand that is not the colon behind the segment.
#[tactic(auto, unfolding(crate::specs::Parts::is_bare_bracket))]
fn is_bare_bracket(view: &View, behind: Behind, operand: Option<u8>, kind: &Kind) -> bool
    ensures { result ≡ spec.is_bare_bracket view.now behind operand kind.now }
{
    match kind {
        Kind::Punctuation => view.bare && is_bracket(behind) && operand.is_some(),
        _ => false,
    }
}

/// What becomes of a piece.
#[tactic(auto, unfolding(crate::specs::Parts::change_of))]
fn change_of(view: &View, behind: Behind, operand: Option<u8>, kind: &Kind) -> Change
    ensures { result ≡ spec.change_of view.now behind operand kind.now }
{
    if is_bare_bracket(view, behind, operand, kind) {
        return Change::Drop;
    }
    match view.special {
        None => Change::Keep,
        Some(special) => gnu_change(&special, view.style, behind, operand, kind),
    }
}

/// The top of the x87 stack as GNU writes it.
#[inline]
#[tactic(auto, unfolding(crate::specs::Parts::top_name))]
fn top_name(style: Style) -> &'static [u8]
    ensures { result.now ≡ spec.top_name style }
{
    match style {
        Style::Att => b"%st",
        _ => b"st",
    }
}

/// Appends the text of a piece, as it is changed. Under `Err` a part of it may be appended.
#[tactic(auto, unfolding(crate::specs::Parts::changed_piece), using(crate::proofs::Kept::kept_rules))]
pub fn append_changed_piece<S: Symbols>(
    out: &mut Vec<u8>,
    view: &View,
    symbols: &S,
    end: u8,
    behind: Behind,
    operand: Option<u8>,
    kind: &Kind,
    characters: &[u8],
) -> Result<(), AllocError>
    ensures done { OnOk result (out.new.items ≡ out.old.items
        ++ spec.changed_piece view.now (S.names symbols.now) end behind operand kind.now characters.now) }
    ensures kept { Kept out.old.items out.new.items }
{
    match change_of(view, behind, operand, kind) {
        Change::Keep => append_piece(out, view, symbols, end, behind, kind, characters),
        Change::Drop => Ok(()),
        Change::One => out.extend_from_slice(b"1"),
        Change::Top => append_spelled(
            out,
            view.options.letters,
            Kind::Register,
            top_name(view.style),
        ),
        Change::Port => append_port(out, view.style, view.options.letters),
        Change::Value(n) => append_digits(out, view.options.digits, view.style, n),
    }
}

/// Appends the comment of a piece, if it has one. Under `Err` a part of it may be appended.
#[tactic(auto, unfolding(crate::specs::Parts::comment), using(crate::proofs::Kept::kept_rules))]
pub fn append_comment<S: Symbols>(
    out: &mut Vec<u8>,
    view: &View,
    symbols: &S,
    kind: &Kind,
) -> Result<(), AllocError>
    ensures done { OnOk result (out.new.items ≡ out.old.items ++ spec.comment view.now (S.names symbols.now) kind.now) }
    ensures kept { Kept out.old.items out.new.items }
{
    match kind {
        Kind::Number(x) => append_note(out, view, symbols, x),
        _ => Ok(()),
    }
}
