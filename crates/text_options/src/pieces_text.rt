//! The text of all pieces.

ghost use Rattle.std.specs.Prelude.{◌≡◌, ◌≤◌, ◌++◌, length, OnOk};
ghost use Rattle.text_pieces.specs.Tokens.{IsCover, characters_at};
ghost use Rattle.text_options.specs.Kept.{Kept};
ghost use Rattle.text_options.specs.Placed as spec;

use crate::behind::{Behind, after};
use crate::parts::{append_changed_piece, append_comment};
use crate::symbols::Symbols;
use crate::view::View;
use std::alloc::AllocError;
use text_pieces::piece::Piece;

/// The characters of a text that a piece stands for.
#[inline]
fn characters_of<'a>(text: &'a [u8], p: &Piece) -> &'a [u8]
    requires order { p.now.start ≤ p.now.end }
    requires within { p.now.end ≤ length text.now }
    ensures { result.now ≡ characters_at text.now p.now }
{
    &text[usize::from(p.start)..usize::from(p.end)]
}

/// Appends the pieces of a text from a place on, the first of which follows another. Under `Err` a part of them may be appended.
#[tactic(auto, unfolding(crate::specs::Placed::placed_text), using(crate::proofs::Kept::kept_rules, crate::proofs::Cover::cover_rules))]
pub fn append_pieces<S: Symbols>(
    out: &mut Vec<u8>,
    view: &View,
    symbols: &S,
    text: &[u8],
    at: u8,
    behind: Behind,
    pieces: &[Piece],
) -> Result<(), AllocError>
    requires { IsCover at (length text.now) pieces.now }
    ensures done { OnOk result (out.new.items ≡ out.old.items
        ++ spec.placed_text view.now (S.names symbols.now) text.now behind pieces.now) }
    ensures kept { Kept out.old.items out.new.items }
{
    match pieces {
        [] => Ok(()),
        [p, rest @ ..] => {
            append_changed_piece(
                out,
                view,
                symbols,
                p.end,
                behind,
                p.operand,
                &p.kind,
                characters_of(text, p),
            )?;
            append_pieces(out, view, symbols, text, p.end, after(behind, p.kind), rest)
        }
    }
}

/// Appends the comments of pieces. Under `Err` a part of them may be appended.
#[tactic(auto, unfolding(crate::specs::Placed::placed_comments), using(crate::proofs::Kept::kept_rules))]
pub fn append_comments<S: Symbols>(
    out: &mut Vec<u8>,
    view: &View,
    symbols: &S,
    pieces: &[Piece],
) -> Result<(), AllocError>
    ensures done { OnOk result (out.new.items ≡ out.old.items
        ++ spec.placed_comments view.now (S.names symbols.now) pieces.now) }
    ensures kept { Kept out.old.items out.new.items }
{
    match pieces {
        [] => Ok(()),
        [p, rest @ ..] => {
            append_comment(out, view, symbols, &p.kind)?;
            append_comments(out, view, symbols, rest)
        }
    }
}
