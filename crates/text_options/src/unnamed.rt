//! Texts in which nothing changes: those by the default options, of an instruction of whose addresses no symbol is known.

ghost use Rattle.std.specs.Prelude.{◌≡◌, ◌++◌, OnOk, IsTrue};
ghost use Rattle.opcode_rows.specs.Allowed.{is_well_formed};
ghost use Rattle.text_pieces.specs.Pieces.{text_of};
ghost use Rattle.text_options.specs.Defaults.{default_options};
ghost use Rattle.text_options.specs.Kept.{Kept};
ghost use Rattle.text_options.specs.Unnamed as spec;

use crate::options::{
    Absolutes, Commas, Comments, Digits, Distances, Immediates, Letters, Names, Options,
    RipOperands, SizeWords, SymbolPlace,
};
use crate::symbols::Symbols;
use std::alloc::AllocError;
use text_parts::addresses::{is_absolute, is_instruction_pointer};
use text_parts::layout::operand_at;
use text_parts::style::Style;
use text_parts::text::Text;
use text_pieces::print_text;
use x86_values::{Bits, Instr, Operand};

/// Whether these are the default options.
#[inline]
pub fn is_default(options: &Options) -> bool
    ensures { IsTrue result → options.now ≡ default_options }
{
    match options {
        Options {
            letters: Letters::Lower,
            digits: Digits::OfStyle,
            immediates: Immediates::Unsigned,
            commas: Commas::Spaced,
            size_words: SizeWords::Always,
            operand_column: 0,
            rip_operands: RipOperands::Address,
            symbol_place: SymbolPlace::Behind,
            names: Names::Manual,
            distances: Distances::Signed,
            absolutes: Absolutes::Bracketed,
            comments: Comments::Named,
            comment_gap: 2,
        } => true,
        _ => false,
    }
}

/// Whether no symbol is known of the address that an operand names.
#[inline]
#[tactic(auto, unfolding(crate::specs::Unnamed::is_unnamed))]
fn is_unnamed<S: Symbols>(symbols: &S, op: &Operand) -> bool
    ensures { result ≡ spec.is_unnamed (S.names symbols.now) op.now }
{
    match op {
        Operand::Near(x) => symbols.find(*x).is_none(),
        Operand::Mem(m) => {
            if is_instruction_pointer(m.base) || is_absolute(m) {
                symbols.find(m.disp).is_none()
            } else {
                true
            }
        }
        _ => true,
    }
}

/// Whether no symbol is known of an address that the instruction names.
#[inline]
pub fn are_unnamed<S: Symbols>(symbols: &S, instr: &Instr) -> bool
    ensures { result ≡ spec.are_unnamed (S.names symbols.now) instr.now }
{
    is_unnamed(symbols, operand_at(instr, 0))
        && is_unnamed(symbols, operand_at(instr, 1))
        && is_unnamed(symbols, operand_at(instr, 2))
        && is_unnamed(symbols, operand_at(instr, 3))
}

/// Appends the text that the printer of a style gives. Under `Err` nothing is appended.
#[inline]
pub fn append_printed(
    out: &mut Vec<u8>,
    style: Style,
    bits: Bits,
    instr: &Instr,
) -> Result<(), AllocError>
    requires { IsTrue (is_well_formed instr.now) }
    ensures done { OnOk result (out.new.items ≡ out.old.items ++ text_of style bits instr.now) }
    ensures kept { Kept out.old.items out.new.items }
{
    let mut text = Text::new();
    print_text(&mut text, style, bits, instr);
    out.extend_from_slice(&text)
}
