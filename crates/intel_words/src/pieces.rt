//! Reading the words of a text in pieces, one operand of which is an address without a size word.

ghost use Rattle.std.specs.Prelude.{◌≡◌, ℕ, ◌&&◌, not, List, IsTrue, IfSome, is_some, slice_index_or};
ghost use Rattle.std.specs.List.{list_all};
ghost use Rattle.x86_values.specs.declared.Bits.{Bits};
ghost use Rattle.x86_values.specs.declared.Instr.{Instr};
ghost use Rattle.instruction_parts.specs.declared.row_types.Row.{Row};
ghost use Rattle.text_parts.specs.declared.style.Style.TheVariants.{Intel};
ghost use Rattle.text_parts.specs.Layout.{bracket_layout};
ghost use Rattle.text_parts.specs.PrefixWords.{name_text};
ghost use Rattle.intel_words.specs.Printable.{is_printable};
ghost use Rattle.intel_words.specs.Words.{words_of};
ghost use Rattle.intel_words.specs.Scanning.{is_no_comma};
ghost use Rattle.intel_words.specs.ReadWords.{written_operands};
ghost use Rattle.intel_words.specs.Pieces as spec;

use crate::operands::operand_into;
use crate::prefixes::{Prefixes, read_prefixes};
use crate::words::{IntelWords, OperandText, SizeName};

/// A text in pieces: its prefix words and its name, and its operands without what separates them. An operand without bytes is none.
#[derive(Clone, Copy)]
pub struct TextPieces<'t> {
    pub head: &'t [u8],
    pub first: &'t [u8],
    pub second: &'t [u8],
    pub third: &'t [u8],
    pub fourth: &'t [u8],
}

/// Whether a piece has bytes.
#[inline]
#[tactic(auto, unfolding(crate::specs::Pieces::is_there))]
fn is_there(piece: &[u8]) -> bool
    ensures { result ≡ spec.is_there piece.now }
{
    match piece {
        [] => false,
        [_, _rest @ ..] => true,
    }
}

/// Whether an operand has no comma in it.
#[tactic(auto, unfolding(crate::specs::Scanning::is_no_comma))]
fn has_no_comma(piece: &[u8]) -> bool
    ensures { result ≡ list_all is_no_comma piece.now }
{
    for c in piece {
        if *c == b',' {
            return false;
        }
    }
    true
}

/// Whether no operand has a comma in it.
#[inline]
#[tactic(auto, unfolding(crate::specs::Pieces::are_commaless))]
fn are_commaless(pieces: &TextPieces<'_>) -> bool
    ensures { result ≡ spec.are_commaless pieces.now.first.now pieces.now.second.now pieces.now.third.now pieces.now.fourth.now }
{
    has_no_comma(pieces.first)
        && has_no_comma(pieces.second)
        && has_no_comma(pieces.third)
        && has_no_comma(pieces.fourth)
}

/// Whether there is a first operand, and no operand follows one that is none.
#[inline]
#[tactic(auto, unfolding(crate::specs::Pieces::are_leading))]
fn are_leading(pieces: &TextPieces<'_>) -> bool
    ensures { result ≡ spec.are_leading pieces.now.first.now pieces.now.second.now pieces.now.third.now pieces.now.fourth.now }
{
    is_there(pieces.first)
        && (is_there(pieces.second) || !is_there(pieces.third))
        && (is_there(pieces.third) || !is_there(pieces.fourth))
}

/// Whether a head ends with its name.
#[inline]
fn ends_in_name(prefixes: &Prefixes<'_>) -> bool
    ensures { result ≡ (not (spec.is_there prefixes.now.behind.now) && spec.is_there prefixes.now.name.now) }
{
    !is_there(prefixes.behind) && is_there(prefixes.name)
}

/// Whether a size is that of no size word.
#[inline]
#[tactic(auto, unfolding(crate::specs::Pieces::has_no_size_word))]
fn has_no_size_word(size: SizeName) -> bool
    ensures { result ≡ spec.has_no_size_word size }
{
    match size {
        SizeName::None => true,
        _ => false,
    }
}

/// Whether an operand is an address without a size word.
#[inline]
#[tactic(auto, unfolding(crate::specs::Pieces::is_unsized))]
fn is_unsized(operand: &OperandText) -> bool
    ensures { result ≡ spec.is_unsized operand.now }
{
    match operand {
        OperandText::Mem(address) => has_no_size_word(address.size),
        _ => false,
    }
}

/// Whether operand `n` is an address without a size word.
#[inline]
fn is_unsized_at(words: &IntelWords, n: usize) -> bool
    ensures { result ≡ spec.is_unsized (slice_index_or words.now.ops n OperandText.Absent) }
{
    n < 4 && is_unsized(&words.ops[n])
}

/// Writes the operands of a text in pieces to their places. If one cannot be read, these may hold anything.
#[inline]
#[tactic(auto, unfolding(crate::specs::Pieces::operands_of_pieces, crate::specs::ReadWords::four))]
fn operands_into(pieces: &TextPieces<'_>, ops: &mut [OperandText; 4]) -> Option<()>
    ensures { spec.operands_of_pieces pieces.now.first.now pieces.now.second.now pieces.now.third.now pieces.now.fourth.now ≡ written_operands result ops.new }
{
    operand_into(pieces.first, &mut ops[0])?;
    operand_into(pieces.second, &mut ops[1])?;
    operand_into(pieces.third, &mut ops[2])?;
    operand_into(pieces.fourth, &mut ops[3])?;
    Some(())
}

/// Writes the words of a text in pieces, operand `n` of which is an address without a size word, to `words`, and returns its name.
///
/// With any size word in front of that address the text is read as the same name and words, but for the size. The result is `None`, and `words` may hold
/// anything, if that is not told: if operand `n` is no address, or has a size word; if an operand has a comma in it, or follows one without bytes; if
/// an operand cannot be read; or if the head is not prefix words and a name.
pub fn read_unsized<'t>(
    pieces: &TextPieces<'t>,
    n: usize,
    words: &mut IntelWords,
) -> Option<&'t [u8]>
    ensures told { is_some result ≡ spec.is_told n pieces.now.head.now pieces.now.first.now pieces.now.second.now pieces.now.third.now pieces.now.fourth.now }
    ensures words { IfSome result (λ name. (name.now ≡ spec.name_of_head pieces.now.head.now)
        × (words.new ≡ spec.words_of_pieces pieces.now.head.now pieces.now.first.now pieces.now.second.now pieces.now.third.now pieces.now.fourth.now)) }
    ensures address { IfSome result (λ name. IsTrue (spec.is_unsized (slice_index_or words.new.ops n OperandText.Absent))) }
    ensures printed { IfSome result (λ name. (size : SizeName) (bits : Bits) (row : Row) (nm : List ℕ) (instr : Instr) → IsTrue (is_printable bits row nm instr)
        → bracket_layout Intel bits row nm instr
        ≡ spec.sized_pieces_text size n pieces.now.head.now pieces.now.first.now pieces.now.second.now pieces.now.third.now pieces.now.fourth.now
        → (name.now ≡ name_text bits nm instr) × (words_of bits row nm instr ≡ spec.sized_words size n words.new)) }
{
    if !are_commaless(pieces) {
        return None;
    }
    if !are_leading(pieces) {
        return None;
    }
    let prefixes = read_prefixes(pieces.head);
    if !ends_in_name(&prefixes) {
        return None;
    }
    words.lock = prefixes.lock;
    words.rep = prefixes.rep;
    words.seg = prefixes.seg;
    words.asize = prefixes.asize;
    words.osize = prefixes.osize;
    match operands_into(pieces, &mut words.ops) {
        None => None,
        Some(()) => if is_unsized_at(words, n) {
            Some(prefixes.name)
        } else {
            None
        },
    }
}
