//! Names with numbers from the caller.

ghost use Rattle.std.specs.Prelude.{◌≡◌, IfOk};
ghost use Rattle.assembly_text.specs.Classes as classes;
ghost use Rattle.assembly_text.specs.Lines as lines;
ghost use Rattle.assembly_text.specs.Constants as spec;

use crate::classes::{Class, class_of};
use crate::data::is_datum;
use crate::drafts::{Draft, operand_in, wrapped};
use crate::line::{behind, byte_at, first_line, is_digit, lowered, name_len, shown};
use crate::names::{behind_word, first_word};
use std::alloc::{AllocError, Global};

/// Whether a text is a name, `=` and more.
#[tactic(auto, unfolding(crate::specs::Constants::has_equals))]
fn has_equals(text: &[u8]) -> bool
    ensures { result ≡ spec.has_equals text.now }
{
    0 < name_len(text) && (!is_digit(byte_at(text, 0)) && byte_at(behind_word(text), 0) == b'=')
}

/// Whether a word is a name.
#[tactic(auto, unfolding(crate::specs::Constants::is_name_class))]
fn is_name_class(class: Class) -> bool
    ensures { result ≡ spec.is_name_class class }
{
    match class {
        Class::Name => true,
        _ => false,
    }
}

/// Whether a word in lower case is no word of an operand.
pub(crate) fn is_free_word(low: &[u8]) -> bool
    ensures { result ≡ spec.is_name_class (classes.class_of low.now) }
{
    is_name_class(class_of(low))
}

/// Whether a name is no word of an operand.
#[tactic(auto, unfolding(crate::specs::Constants::is_free_name))]
pub(crate) fn is_free_name(alloc: Global, name: &[u8]) -> Result<bool, AllocError>
    ensures { IfOk result (λ free. free ≡ spec.is_free_name name.now) }
{
    let low = lowered(alloc, name)?;
    Ok(is_free_word(&low))
}

/// The number of an operand of at most eight bytes.
#[tactic(auto, unfolding(crate::specs::Constants::whole_number))]
pub(crate) fn whole_number(d: &Draft) -> Option<u64>
    ensures { result ≡ spec.whole_number d.now }
{
    if is_datum(8, d) {
        Some(wrapped(d))
    } else {
        None
    }
}

/// The number after `=`.
#[tactic(auto, unfolding(crate::specs::Constants::value_of))]
fn value_of(alloc: Global, text: &[u8]) -> Result<Option<u64>, AllocError>
    ensures { IfOk result (λ value. value ≡ spec.value_of text.now) }
{
    let low = lowered(alloc, behind(behind_word(text), 1))?;
    let d = operand_in(0, &low);
    Ok(whole_number(&d))
}

/// The number of the name that a text defines.
#[tactic(auto, unfolding(crate::specs::Constants::definition_of))]
fn definition_of(alloc: Global, text: &[u8]) -> Result<Option<u64>, AllocError>
    ensures { IfOk result (λ value. value ≡ spec.definition_of text.now) }
{
    if !has_equals(text) {
        return Ok(None);
    }
    let free = is_free_name(alloc, first_word(text))?;
    if free {
        value_of(alloc, text)
    } else {
        Ok(None)
    }
}

/// The number of a name: that of the first line of the name.
#[tactic(auto, unfolding(crate::specs::Constants::constant_from))]
pub(crate) fn constant_named(
    alloc: Global,
    names: &[u8],
    name: &[u8],
) -> Result<Option<u64>, AllocError>
    ensures { IfOk result (λ value. value ≡ spec.constant_from (lines.lines_in names.now) name.now) }
{
    let mut rest = names;
    'lines: while !rest.is_empty() {
        let (line, behind, _) = first_line(rest);
        let text = shown(line);
        if first_word(text) == name {
            return definition_of(alloc, text);
        }
        rest = behind;
    }
    Ok(None)
}

/// Whether a line has nothing but comment, or is a definition.
#[tactic(auto, unfolding(crate::specs::Constants::is_names_line))]
fn is_names_line(alloc: Global, text: &[u8]) -> Result<bool, AllocError>
    ensures { IfOk result (λ good. good ≡ spec.is_names_line text.now) }
{
    if text.is_empty() {
        return Ok(true);
    }
    let value = definition_of(alloc, text)?;
    Ok(value.is_some())
}

/// The first line that is neither empty nor a definition, counted from 1.
#[tactic(auto, unfolding(crate::specs::Constants::bad_from))]
pub(crate) fn bad_name(alloc: Global, names: &[u8]) -> Result<Option<u64>, AllocError>
    ensures { IfOk result (λ number. number ≡ spec.bad_from (lines.lines_in names.now) 0) }
{
    let mut rest = names;
    let mut count: u64 = 0;
    'lines: while !rest.is_empty() {
        let (line, behind, _) = first_line(rest);
        let good = is_names_line(alloc, shown(line))?;
        count += 1;
        if !good {
            return Ok(Some(count));
        }
        rest = behind;
    }
    Ok(None)
}
