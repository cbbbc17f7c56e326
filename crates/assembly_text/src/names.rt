//! The names of instructions: which the printer writes for one that the manual has besides.

ghost use Rattle.std.specs.Prelude.{◌≡◌, ◌≢◌, ◌++◌, [], IsTrue, IfOk, IfSome, OnOk, MatchBool, MatchOption};
ghost use Rattle.assembly_text.specs.Names as spec;

use crate::line::{SHORT_LEN, behind, byte_at, front_of, split_name, unindented};
use arrayvec::ArrayVec;
use intel_reader::mnemonics::is_mnemonic;
use std::alloc::{AllocError, Global};

/// The condition in place of one about carry or zero, if it has another name.
#[tactic(auto, unfolding(crate::specs::Names::carry_condition))]
fn other_carry_condition(word: &[u8]) -> Option<&'static [u8]>
    ensures { MatchOption result (spec.carry_condition word.now ≡ word.now) (λ other. spec.carry_condition word.now ≡ other.now) }
{
    if word == b"z".as_slice() {
        Some(b"e")
    } else if word == b"nz".as_slice() {
        Some(b"ne")
    } else if word == b"c".as_slice() {
        Some(b"b")
    } else if word == b"nae".as_slice() {
        Some(b"b")
    } else if word == b"nc".as_slice() {
        Some(b"ae")
    } else if word == b"nb".as_slice() {
        Some(b"ae")
    } else if word == b"na".as_slice() {
        Some(b"be")
    } else {
        None
    }
}

/// The condition in place of this one, if it has another name.
#[inline]
#[tactic(auto, unfolding(crate::specs::Names::condition))]
fn other_condition(word: &[u8]) -> Option<&'static [u8]>
    ensures { MatchOption result (spec.condition word.now ≡ word.now) (λ other. spec.condition word.now ≡ other.now) }
{
    if word == b"nbe".as_slice() {
        Some(b"a")
    } else if word == b"pe".as_slice() {
        Some(b"p")
    } else if word == b"po".as_slice() {
        Some(b"np")
    } else if word == b"nge".as_slice() {
        Some(b"l")
    } else if word == b"nl".as_slice() {
        Some(b"ge")
    } else if word == b"ng".as_slice() {
        Some(b"le")
    } else if word == b"nle".as_slice() {
        Some(b"g")
    } else {
        other_carry_condition(word)
    }
}

/// The condition that the printer writes.
fn condition(word: &[u8]) -> &[u8]
    ensures { result.now ≡ spec.condition word.now }
{
    match other_condition(word) {
        Some(other) => other,
        None => word,
    }
}

/// How many bytes precede the condition of a name.
#[tactic(auto, unfolding(crate::specs::Names::before_condition, crate::specs::Names::is_set, crate::specs::Names::is_move))]
fn before_condition(word: &[u8]) -> usize
    ensures { result ≡ spec.before_condition word.now }
{
    if byte_at(word, 0) == b'j' {
        1
    } else if front_of(word, 3) == b"set".as_slice() {
        3
    } else if front_of(word, 4) == b"cmov".as_slice() {
        4
    } else {
        word.len()
    }
}

/// The name in place of one that is not of the manual.
#[tactic(auto, unfolding(crate::specs::Names::other_name))]
fn name_for(word: &[u8]) -> Option<&'static [u8]>
    ensures { MatchOption result (spec.other_name word.now ≡ word.now) (λ other. spec.other_name word.now ≡ other.now) }
{
    if word == b"loopz".as_slice() {
        Some(b"loope")
    } else if word == b"loopnz".as_slice() {
        Some(b"loopne")
    } else if word == b"icebp".as_slice() {
        Some(b"int1")
    } else if word == b"movabs".as_slice() {
        Some(b"mov")
    } else if word == b"ud2a".as_slice() {
        Some(b"ud2")
    } else if word == b"ud2b".as_slice() {
        Some(b"ud1")
    } else {
        None
    }
}

/// The name in place of this one, if it is another name for an instruction.
#[inline]
#[tactic(auto, unfolding(crate::specs::Names::plain_name))]
fn other_name(word: &[u8]) -> Option<&'static [u8]>
    ensures { MatchOption result (spec.plain_name word.now ≡ word.now) (λ other. spec.plain_name word.now ≡ other.now) }
{
    if word == b"sal".as_slice() {
        Some(b"shl")
    } else if word == b"fwait".as_slice() {
        Some(b"wait")
    } else if word == b"xlatb".as_slice() {
        Some(b"xlat")
    } else if word == b"retn".as_slice() {
        Some(b"ret")
    } else if word == b"lcall".as_slice() {
        Some(b"callf")
    } else if word == b"ljmp".as_slice() {
        Some(b"jmpf")
    } else if word == b"lret".as_slice() {
        Some(b"retf")
    } else {
        name_for(word)
    }
}

/// The name that the printer writes.
fn plain_name(word: &[u8]) -> &[u8]
    ensures { result.now ≡ spec.plain_name word.now }
{
    match other_name(word) {
        Some(other) => other,
        None => word,
    }
}

/// Whether the printer writes a name as it stands.
fn is_own_name(word: &[u8]) -> bool
    ensures { IsTrue result → spec.stem word.now ++ spec.ending word.now ≡ word.now }
{
    let count = before_condition(word);
    if count == word.len() {
        return other_name(word).is_none();
    }
    other_name(front_of(word, count)).is_none() && other_condition(behind(word, count)).is_none()
}

/// Whether a word is a prefix that the printer writes.
#[tactic(auto, unfolding(crate::specs::Names::is_plain_prefix))]
fn is_plain_prefix(word: &[u8]) -> bool
    ensures { result ≡ spec.is_plain_prefix word.now }
{
    word == b"lock".as_slice()
        || word == b"rep".as_slice()
        || word == b"repne".as_slice()
        || word == b"o16".as_slice()
        || word == b"o32".as_slice()
        || word == b"o64".as_slice()
        || word == b"a16".as_slice()
        || word == b"a32".as_slice()
        || word == b"a64".as_slice()
}

/// Whether a word is that of a segment.
#[tactic(auto, unfolding(crate::specs::Names::is_segment))]
fn is_segment(word: &[u8]) -> bool
    ensures { result ≡ spec.is_segment word.now }
{
    let c = byte_at(word, 0);
    word.len() == 2
        && byte_at(word, 1) == b's'
        && (c == b'c' || c == b'd' || c == b'e' || c == b'f' || c == b'g' || c == b's')
}

/// The prefix of a word, nothing of another.
#[tactic(auto, unfolding(crate::specs::Names::prefix_of))]
fn prefix_of(word: &[u8]) -> &[u8]
    ensures { result.now ≡ spec.prefix_of word.now }
{
    if word == b"repe".as_slice() || word == b"repz".as_slice() {
        b"rep"
    } else if word == b"repnz".as_slice() {
        b"repne"
    } else if is_plain_prefix(word) || is_segment(word) {
        word
    } else {
        b""
    }
}

/// The first word.
pub(crate) fn first_word(text: &[u8]) -> &[u8]
    ensures { result.now ≡ spec.first_word text.now }
{
    split_name(text).0
}

/// What follows the first word.
pub(crate) fn behind_word(text: &[u8]) -> &[u8]
    ensures { result.now ≡ spec.behind_word text.now }
{
    unindented(split_name(text).1)
}

/// What follows a prefix, if there is one.
#[tactic(auto, unfolding(crate::specs::Names::unless_prefix))]
fn behind_prefix(text: &[u8]) -> &[u8]
    ensures { result.now ≡ spec.behind_prefix text.now }
{
    match prefix_of(first_word(text)) {
        [] => text,
        [_, _rest @ ..] => behind_word(text),
    }
}

/// Whether a text begins with a prefix.
fn has_prefix(text: &[u8]) -> bool
    ensures { MatchBool result (spec.prefix_of (spec.first_word text.now) ≢ []) (spec.prefix_of (spec.first_word text.now) ≡ []) }
{
    !prefix_of(first_word(text)).is_empty()
}

/// What follows three prefixes: the name and the operands. Most texts have no prefix.
pub(crate) fn named_text(text: &[u8]) -> &[u8]
    ensures { result.now ≡ spec.named_text text.now }
{
    if !has_prefix(text) {
        return text;
    }
    behind_prefix(behind_prefix(behind_prefix(text)))
}

/// Appends the prefix at the front and a space, if there is one.
#[tactic(auto, unfolding(crate::specs::Names::with_space))]
fn put_prefix(out: &mut Vec<u8>, text: &[u8]) -> Result<(), AllocError>
    ensures { OnOk result (out.new.items ≡ out.old.items ++ spec.with_space (spec.prefix_of (spec.first_word text.now))) }
{
    let prefix = prefix_of(first_word(text));
    if prefix.is_empty() {
        return Ok(());
    }
    out.extend_from_slice(prefix)?;
    out.extend_from_slice(b" ")?;
    Ok(())
}

/// Appends the name that the printer writes for a name.
fn put_name(out: &mut Vec<u8>, word: &[u8]) -> Result<(), AllocError>
    ensures { OnOk result (out.new.items ≡ out.old.items ++ (spec.stem word.now ++ spec.ending word.now)) }
{
    if is_own_name(word) {
        return out.extend_from_slice(word);
    }
    let count = before_condition(word);
    out.extend_from_slice(plain_name(front_of(word, count)))?;
    out.extend_from_slice(condition(behind(word, count)))?;
    Ok(())
}

/// Appends the prefix words and the name as the printer writes them. Most texts have no prefix.
pub(crate) fn put_head(out: &mut Vec<u8>, text: &[u8]) -> Result<(), AllocError>
    ensures { OnOk result (out.new.items ≡ out.old.items ++ spec.head_text text.now) }
{
    if !has_prefix(text) {
        return put_name(out, first_word(text));
    }
    let second = behind_prefix(text);
    let third = behind_prefix(second);
    put_prefix(out, text)?;
    put_prefix(out, second)?;
    put_prefix(out, third)?;
    put_name(out, first_word(behind_prefix(third)))
}

/// The name that the printer writes for a name, if it is short.
fn short_name(word: &[u8]) -> Option<ArrayVec<u8, SHORT_LEN>>
    ensures { IfSome result (λ name. name.items ≡ spec.stem word.now ++ spec.ending word.now) }
{
    let count = before_condition(word);
    let mut name = ArrayVec::new();
    if let Err(_) = name.try_extend_from_slice(plain_name(front_of(word, count))) {
        return None;
    }
    if let Err(_) = name.try_extend_from_slice(condition(behind(word, count))) {
        return None;
    }
    Some(name)
}

/// Whether a word in lower case is a prefix, or one of the names of an instruction.
#[tactic(auto, unfolding(crate::specs::Names::is_instruction_name))]
pub(crate) fn is_instruction_name(alloc: Global, word: &[u8]) -> Result<bool, AllocError>
    ensures { IfOk result (λ is. is ≡ spec.is_instruction_name word.now) }
{
    if !prefix_of(word).is_empty() {
        return Ok(true);
    }
    if is_own_name(word) {
        return Ok(is_mnemonic(word));
    }
    if let Some(name) = short_name(word) {
        return Ok(is_mnemonic(&name));
    }
    let mut name = Vec::new(alloc);
    put_name(&mut name, word)?;
    Ok(is_mnemonic(&name))
}
