//! The labels of a text.

ghost use Rattle.std.specs.Prelude.{◌≡◌, ℕ, List, length, map, bytes_eq, if◌then◌else◌, true, IsTrue, IfOk, OnOk, MatchOption, Some, None};
ghost use Rattle.std.specs.HashMap as hash;
ghost use Rattle.assembly_text.specs.Lines as lines;
ghost use Rattle.assembly_text.specs.Lines.{lower_byte};
ghost use Rattle.assembly_text.specs.Labels as spec;

use crate::constants::is_free_word;
use crate::line::{
    begins_name, byte_at, first_line, is_lowered, label_in, lowered, name_at, short_lowered,
};
use crate::names::is_instruction_name;
use crate::plain::behind_unlabelled;
use code_assembler::{Assembler, Label};
use opcode_rows::laws::names_are_words;
use std::alloc::{AllocError, Global};
use std::collections::HashMap;

/// The labels of a text, found by their names.
#[derive(Drop)]
pub(crate) struct Labels<'a> {
    /// The text.
    pub(crate) text: &'a [u8],
    /// How many labels it has.
    pub(crate) count: usize,
    /// The number of the first label of each name.
    numbers: HashMap<&'a [u8], usize>,
    ghost counted: { count ≡ spec.labels_from (lines.lines_in text.now) 0 },
    ghost right: { (name : List ℕ) → hash.get_by (λ k. bytes_eq name k.now) numbers ≡ spec.number_from (lines.lines_in text.now) name 0 },
}

/// Whether a name has a dot in front, as `.L12`: neither a word of an operand nor the name of an instruction nor a prefix begins so.
fn is_dotted(name: &[u8]) -> bool
    ensures { IsTrue result → spec.is_label_name name.now ≡ true }
{
    names_are_words();
    byte_at(name, 0) == b'.' && byte_at(name, 2) != b'('
}

/// Whether a name in lower case may be that of a label.
#[tactic(auto, unfolding(crate::specs::Labels::is_label_name, crate::specs::Constants::is_free_name))]
fn is_low_label_name(alloc: Global, low: &[u8]) -> Result<bool, AllocError>
    ensures { (name : List ℕ) → low.now ≡ map lower_byte name → IfOk result (λ may. may ≡ spec.is_label_name name) }
{
    if !is_free_word(low) {
        return Ok(false);
    }
    let taken = is_instruction_name(alloc, low)?;
    Ok(!taken)
}

/// Whether a name may be that of a label: it is no word of an operand, no name of an instruction and no prefix, in any case.
pub(crate) fn is_label_name(alloc: Global, name: &[u8]) -> Result<bool, AllocError>
    ensures { IfOk result (λ may. may ≡ spec.is_label_name name.now) }
{
    if is_dotted(name) {
        return Ok(true);
    }
    if is_lowered(name) {
        return is_low_label_name(alloc, name);
    }
    if let Some(low) = short_lowered(name) {
        return is_low_label_name(alloc, &low);
    }
    let low = lowered(alloc, name)?;
    is_low_label_name(alloc, &low)
}

/// Whether a name that may be that of a label begins at a place of a text.
#[tactic(auto, unfolding(crate::specs::Labels::begins_label))]
pub(crate) fn begins_label(alloc: Global, text: &[u8], at: usize) -> Result<bool, AllocError>
    ensures { IfOk result (λ begins. begins ≡ spec.begins_label text.now at) }
{
    if !begins_name(text, at) {
        return Ok(false);
    }
    is_label_name(alloc, name_at(text, at))
}

/// Gives a name a number, if it has none.
fn add_name<'a>(
    numbers: &mut HashMap<&'a [u8], usize>,
    label: &'a [u8],
    number: usize,
) -> Result<(), AllocError>
    ensures { OnOk result ((name : List ℕ) → hash.get_by (λ k. bytes_eq name k.now) numbers.new
        ≡ spec.first_number (hash.get_by (λ k. bytes_eq name k.now) numbers.old) (if bytes_eq label.now name then Some number else None)) }
{
    if !numbers.contains_key(label) {
        numbers.insert(label, number)?;
    }
    Ok(())
}

/// The labels of a text.
#[tactic(auto, unfolding(crate::specs::Labels::number_from, crate::specs::Labels::labels_from))]
pub(crate) fn labels_in(alloc: Global, text: &[u8]) -> Result<Labels<'_>, AllocError>
    ensures { IfOk result (λ labels. labels.text.now ≡ text.now) }
{
    let mut numbers = HashMap::new(alloc);
    let mut rest = behind_unlabelled(text);
    let mut count = 0;
    'lines: while !rest.is_empty() {
        let (line, behind, kind) = first_line(rest);
        if let Some(label) = label_in(line, kind) {
            add_name(&mut numbers, label, count)?;
            count += 1;
        }
        rest = behind_unlabelled(behind);
    }
    Ok(Labels {
        text,
        count,
        numbers,
    })
}

/// The number of the first label of a name.
pub(crate) fn number_from(labels: &Labels<'_>, name: &[u8]) -> Option<usize>
    ensures { result ≡ spec.number_from (lines.lines_in labels.now.text.now) name.now 0 }
{
    labels.numbers.get(name).copied()
}

/// The label of a name.
pub(crate) fn label_named(routine: &Assembler, labels: &Labels<'_>, name: &[u8]) -> Option<Label>
    ensures { MatchOption result (spec.number_of (lines.lines_in labels.now.text.now) (length routine.now.labels) name.now ≡ None)
        (λ label. spec.number_of (lines.lines_in labels.now.text.now) (length routine.now.labels) name.now ≡ Some label.number) }
{
    match number_from(labels, name) {
        None => None,
        Some(number) => routine.label_at(number),
    }
}
