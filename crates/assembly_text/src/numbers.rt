//! Texts in which numbers take the place of names: those of the caller's names, and the addresses of labels.

ghost use Rattle.std.specs.Prelude.{◌≡◌, ◌≤◌, ◌<◌, ◌++◌, IfOk, OnOk, length, take, drop};
ghost use Rattle.assembly_text.specs.Lines.{lines_in};
ghost use Rattle.assembly_text.specs.Constants as constants;
ghost use Rattle.assembly_text.specs.Placing as spec;

use crate::constants::{constant_named, is_free_name};
use crate::drafts::word_len;
use crate::labels::number_from;
use crate::line::{behind, byte_at, front_of, quote_behind};
use crate::round::{Round, place_at};
use crate::statements::append_value;
use std::alloc::{AllocError, Global};

/// Which words have numbers.
#[derive(Clone, Copy)]
pub(crate) enum Numbers<'a, 'b, 'c> {
    /// The caller's names.
    Names(&'a [u8]),
    /// The labels of a round.
    Labels(Round<'a, 'b, 'c>),
    /// Each name, with the number 0.
    Free,
}

/// The address of the first label of a name, if the name is no word of an operand.
#[tactic(auto, unfolding(crate::specs::Placing::place_by))]
fn label_number(
    alloc: Global,
    round: &Round<'_, '_, '_>,
    name: &[u8],
) -> Result<Option<u64>, AllocError>
    ensures { IfOk result (λ number. number ≡ spec.label_number (spec.view_of round.now) name.now) }
{
    match number_from(round.labels, name) {
        None => Ok(None),
        Some(label) => {
            let free = is_free_name(alloc, name)?;
            if free {
                Ok(Some(place_at(round, label)))
            } else {
                Ok(None)
            }
        }
    }
}

/// 0 for a name that is no word of an operand.
#[tactic(auto, unfolding(crate::specs::Placing::free_number))]
fn free_number(alloc: Global, name: &[u8]) -> Result<Option<u64>, AllocError>
    ensures { IfOk result (λ number. number ≡ spec.free_number name.now) }
{
    let free = is_free_name(alloc, name)?;
    if free { Ok(Some(0)) } else { Ok(None) }
}

/// The number of a word.
#[tactic(auto, unfolding(crate::specs::Placing::number_in))]
fn number_in(
    alloc: Global,
    numbers: &Numbers<'_, '_, '_>,
    word: &[u8],
) -> Result<Option<u64>, AllocError>
    ensures { IfOk result (λ number. number ≡ spec.number_in numbers.now word.now) }
{
    match numbers {
        Numbers::Names(names) => constant_named(alloc, names, word),
        Numbers::Labels(round) => label_number(alloc, round, word),
        Numbers::Free => free_number(alloc, word),
    }
}

/// Appends the number of a word, if it has one and no quote is open, else the word.
#[tactic(auto, unfolding(crate::specs::Constants::part_for, crate::specs::Constants::number_or))]
fn put_part(
    alloc: Global,
    out: &mut Vec<u8>,
    numbers: &Numbers<'_, '_, '_>,
    quote: u8,
    word: &[u8],
) -> Result<(), AllocError>
    ensures { OnOk result (out.new.items ≡ out.old.items ++ constants.part_for (spec.number_in numbers.now) quote word.now) }
{
    if quote != 0 {
        return out.extend_from_slice(word);
    }
    let value = number_in(alloc, numbers, word)?;
    match value {
        None => out.extend_from_slice(word),
        Some(n) => append_value(out, n),
    }
}

/// How many bytes the front of a text has: a word, or one byte if a quote is open.
#[tactic(auto, unfolding(crate::specs::Constants::part_len))]
fn part_len(quote: u8, text: &[u8]) -> usize
    requires { 0 < length text.now }
    ensures value { result ≡ constants.part_len quote text.now }
    ensures some { 0 < result }
    ensures within { result ≤ length text.now }
{
    if quote == 0 { word_len(text) } else { 1 }
}

/// Appends a text with numbers in place of words.
fn put_numbers(
    alloc: Global,
    out: &mut Vec<u8>,
    numbers: &Numbers<'_, '_, '_>,
    text: &[u8],
) -> Result<(), AllocError>
    ensures { OnOk result (out.new.items ≡ out.old.items ++ constants.resolved_from (spec.number_in numbers.now) 0 0 text.now) }
{
    let mut quote = 0;
    let mut rest = text;
    'words: while !rest.is_empty() {
        let len = part_len(quote, rest);
        let first = byte_at(rest, 0);
        let (word, behind) = rest.split_at(len);
        put_part(alloc, out, numbers, quote, word)?;
        quote = quote_behind(quote, first);
        rest = behind;
    }
    Ok(())
}

/// A text with numbers in place of the caller's names.
#[tactic(auto, unfolding(crate::specs::Placing::number_in))]
pub(crate) fn resolved(alloc: Global, names: &[u8], text: &[u8]) -> Result<Vec<u8>, AllocError>
    ensures { IfOk result (λ out. out.items ≡ constants.resolved (lines_in names.now) text.now) }
{
    let mut out = Vec::with_capacity(alloc, text.len())?;
    if names.is_empty() {
        out.extend_from_slice(text)?;
        return Ok(out);
    }
    put_numbers(alloc, &mut out, &Numbers::Names(names), text)?;
    Ok(out)
}

/// A text with addresses in place of the names of labels.
#[tactic(auto, unfolding(crate::specs::Placing::number_in))]
pub(crate) fn placed(
    alloc: Global,
    round: &Round<'_, '_, '_>,
    text: &[u8],
) -> Result<Vec<u8>, AllocError>
    ensures { IfOk result (λ out. out.items ≡ spec.placed (spec.view_of round.now) text.now) }
{
    let mut out = Vec::with_capacity(alloc, text.len())?;
    put_numbers(alloc, &mut out, &Numbers::Labels(*round), text)?;
    Ok(out)
}

/// The text of an instruction, whose operands begin at a place, with addresses in place of the names of labels in them.
#[tactic(auto, unfolding(crate::specs::Placing::number_in))]
pub(crate) fn placed_behind(
    alloc: Global,
    round: &Round<'_, '_, '_>,
    at: usize,
    text: &[u8],
) -> Result<Vec<u8>, AllocError>
    ensures { IfOk result (λ out. out.items ≡ spec.placed_behind (spec.view_of round.now) at text.now) }
{
    let mut out = Vec::with_capacity(alloc, text.len())?;
    out.extend_from_slice(front_of(text, at))?;
    put_numbers(alloc, &mut out, &Numbers::Labels(*round), behind(text, at))?;
    Ok(out)
}

/// A text with 0 in place of each name.
#[tactic(auto, unfolding(crate::specs::Placing::number_in))]
pub(crate) fn freed(alloc: Global, text: &[u8]) -> Result<Vec<u8>, AllocError>
    ensures { IfOk result (λ out. out.items ≡ spec.freed text.now) }
{
    let mut out = Vec::with_capacity(alloc, text.len())?;
    put_numbers(alloc, &mut out, &Numbers::Free, text)?;
    Ok(out)
}

/// The text of an instruction, whose operands begin at a place, with 0 in place of each name in them.
#[tactic(auto, unfolding(crate::specs::Placing::number_in))]
pub(crate) fn freed_behind(alloc: Global, at: usize, text: &[u8]) -> Result<Vec<u8>, AllocError>
    ensures { IfOk result (λ out. out.items ≡ take at text.now ++ spec.freed (drop at text.now)) }
{
    let mut out = Vec::with_capacity(alloc, text.len())?;
    out.extend_from_slice(front_of(text, at))?;
    put_numbers(alloc, &mut out, &Numbers::Free, behind(text, at))?;
    Ok(out)
}
