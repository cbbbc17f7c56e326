//! Which sizes an address without one can have.

ghost use Rattle.std.specs.Prelude.{◌≡◌, ℕ, List, ◌++◌, ◌+◌, ◌≤◌, IfOk, OnOk, Some, length, take, drop};
ghost use Rattle.assembly_text.specs.Names.{head_text};
ghost use Rattle.assembly_text.specs.Sizing as spec;

use crate::drafts::Draft;
use crate::statements::{Statement, Width, has_negative, is_unsized_part, put_operand};
use intel_reader::sizes::{SizeSet, sizes_of_address};
use intel_words::pieces::TextPieces;
use intel_words::words::SizeName;
use std::alloc::AllocError;
use x86_values::Bits;

/// How many bytes the texts of three operands have.
#[derive(Clone, Copy)]
pub(crate) struct PieceLengths {
    /// The first.
    pub(crate) first: usize,
    /// The second.
    pub(crate) second: usize,
    /// The third.
    pub(crate) third: usize,
}

/// The number of the only one of four that holds.
#[tactic(auto, unfolding(crate::specs::Sizing::only_of))]
fn only_of(first: bool, second: bool, third: bool, fourth: bool) -> Option<usize>
    ensures { result ≡ spec.only_of first second third fourth }
{
    match (first, second, third, fourth) {
        (true, false, false, false) => Some(0),
        (false, true, false, false) => Some(1),
        (false, false, true, false) => Some(2),
        (false, false, false, true) => Some(3),
        _ => None,
    }
}

/// The number of the operand that is the only address without a size, if no number is below 0.
#[tactic(auto, unfolding(crate::specs::Sizing::unsized_operand))]
fn unsized_operand(s: &Statement) -> Option<usize>
    ensures { result ≡ spec.unsized_operand s.now }
{
    if has_negative(s) {
        return None;
    }
    only_of(
        is_unsized_part(&s.first),
        is_unsized_part(&s.second),
        is_unsized_part(&s.third),
        is_unsized_part(&s.fourth),
    )
}

/// Appends an operand, without a size for an address that has none. Returns how many bytes that was.
#[tactic(auto, unfolding(crate::specs::Sizing::piece_of))]
fn put_piece(out: &mut Vec<u8>, bits: Bits, part: &Option<Draft>) -> Result<usize, AllocError>
    ensures { IfOk result (λ len. (out.new.items ≡ out.old.items ++ spec.piece_of bits part.now)
        × (len ≡ length (spec.piece_of bits part.now))) }
{
    let before = out.len();
    match part {
        None => {}
        Some(d) => put_operand(out, bits, SizeName::None, Width::W64, d)?,
    }
    Ok(out.len() - before)
}

/// Writes the operands one after the other behind the head of a text. Returns how many bytes the first three have.
fn put_pieces(
    out: &mut Vec<u8>,
    bits: Bits,
    low: &[u8],
    head_len: usize,
    s: &Statement,
) -> Result<PieceLengths, AllocError>
    requires { spec.BeginWithHead low.now out.old.items head_len }
    ensures { IfOk result (λ lens. (out.new.items ≡ head_text low.now ++ spec.pieces_of bits s.now) × spec.AreLengths bits s.now lens) }
{
    out.truncate(head_len);
    let first = put_piece(out, bits, &s.first)?;
    let second = put_piece(out, bits, &s.second)?;
    let third = put_piece(out, bits, &s.third)?;
    put_piece(out, bits, &s.fourth)?;
    Ok(PieceLengths {
        first,
        second,
        third,
    })
}

/// Cuts the operands of a text apart.
fn cut_pieces<'t>(head: &'t [u8], text: &'t [u8], lens: PieceLengths) -> TextPieces<'t>
    requires { lens.first + (lens.second + lens.third) ≤ length text.now }
    ensures head { result.head.now ≡ head.now }
    ensures first { result.first.now ≡ take lens.first text.now }
    ensures second { result.second.now ≡ take lens.second (drop lens.first text.now) }
    ensures third { result.third.now ≡ take lens.third (drop lens.second (drop lens.first text.now)) }
    ensures fourth { result.fourth.now ≡ drop lens.third (drop lens.second (drop lens.first text.now)) }
{
    let (first, behind_first) = text.split_at(lens.first);
    let (second, behind_second) = behind_first.split_at(lens.second);
    let (third, fourth) = behind_second.split_at(lens.third);
    TextPieces {
        head,
        first,
        second,
        third,
        fourth,
    }
}

/// Whether an operand has a text.
#[tactic(auto, unfolding(crate::specs::Sizing::is_shown, crate::specs::Statements::is_empty))]
fn is_shown(part: &Option<Draft>, piece: &[u8]) -> bool
    ensures { result ≡ spec.is_shown part.now piece.now }
{
    match part {
        None => true,
        Some(_) => !piece.is_empty(),
    }
}

/// Whether each operand has a text.
#[tactic(auto, unfolding(crate::specs::Sizing::are_shown))]
fn are_shown(s: &Statement, pieces: &TextPieces<'_>) -> bool
    ensures { result ≡ spec.are_shown s.now pieces.now.first.now pieces.now.second.now pieces.now.third.now pieces.now.fourth.now }
{
    is_shown(&s.first, pieces.first)
        && (is_shown(&s.second, pieces.second)
            && (is_shown(&s.third, pieces.third) && is_shown(&s.fourth, pieces.fourth)))
}

/// The sizes that operand `n`, the only address without one, can have, if each operand has a text.
fn sizes_by_pieces(
    bits: Bits,
    head: &[u8],
    text: &[u8],
    lens: PieceLengths,
    s: &Statement,
    n: usize,
) -> Option<SizeSet>
    requires text { text.now ≡ spec.pieces_of bits s.now }
    requires lens { spec.AreLengths bits s.now lens }
    requires number { spec.unsized_operand s.now ≡ Some n }
    ensures { (ip : ℕ) (low : List ℕ) → head.now ≡ head_text low → spec.LeavesOut bits ip low s.now result }
{
    let pieces = cut_pieces(head, text, lens);
    if are_shown(s, &pieces) {
        Some(sizes_of_address(bits, &pieces, n))
    } else {
        None
    }
}

/// The sizes that the only address without one can have, if they are known.
pub(crate) fn possible_sizes(
    out: &mut Vec<u8>,
    bits: Bits,
    low: &[u8],
    head_len: usize,
    s: &Statement,
) -> Result<Option<SizeSet>, AllocError>
    requires { spec.BeginWithHead low.now out.old.items head_len }
    ensures sizes { IfOk result (λ set. (ip : ℕ) → spec.LeavesOut bits ip low.now s.now set) }
    ensures head { OnOk result (spec.BeginWithHead low.now out.new.items head_len) }
{
    match unsized_operand(s) {
        None => Ok(None),
        Some(n) => {
            let lens = put_pieces(out, bits, low, head_len, s)?;
            let (head, text) = out.split_at(head_len);
            Ok(sizes_by_pieces(bits, head, text, lens, s, n))
        }
    }
}

/// Whether a size may have an instruction.
#[tactic(auto, unfolding(crate::specs::Sizing::may_fit))]
pub(crate) fn may_fit(set: &Option<SizeSet>, size: SizeName) -> bool
    ensures { result ≡ spec.may_fit set.now size }
{
    match set {
        None => true,
        Some(known) => known.has(size),
    }
}
