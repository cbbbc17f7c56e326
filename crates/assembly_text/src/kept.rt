//! Texts that were read before by a part of what is required of a line: at the address 0, with 0x0 in place of a name, since the branches of a routine have few
//! such texts; and as people write them, in lower case.

ghost use Rattle.std.specs.Prelude.{◌≡◌, IfOk, IfSome, IsTrue, MatchOption};
ghost use Rattle.intel_reader.specs.Assembled.{IsAssembled, IsNoText};
ghost use Rattle.assembly_text.specs.Kept as spec;
ghost use Rattle.assembly_text.specs.Readings.{IsFreeCode};

use crate::code::Code;
use crate::known::slot_of;
use crate::line::lowered;
use crate::readings::spelled_code;
use crate::statements::statement_of;
use arrayvec::ArrayVec;
use intel_reader::read_intel;
use std::alloc::{AllocError, Global};
use std::marker::Model;
use x86_values::{Bits, Instr, same_bits};

/// How many bytes a text has at most that is kept.
const TEXT_LEN: usize = 24;

/// How many texts are kept at most.
const MOST_TEXTS: usize = 256;

/// How many bytes of the routine there are for each text that is kept.
const BYTES_EACH: usize = 64;

/// How many bytes a text in lower case has at most that is kept.
const SPELLED_LEN: usize = 40;

/// How many texts in lower case are kept at most.
const MOST_SPELLED: usize = 4096;

/// How many bytes of the routine there are for each text in lower case that is kept.
const BYTES_EACH_SPELLED: usize = 32;

/// A text that was read, and the instruction that it stands for, if there is one.
#[derive(Drop)]
pub(crate) struct KeptText {
    pub(crate) text: ArrayVec<u8, TEXT_LEN>,
    pub(crate) found: Option<Instr>,
}

/// A text in lower case, and what it stands for as people write it.
#[derive(Drop)]
pub(crate) struct SpelledText {
    pub(crate) text: ArrayVec<u8, SPELLED_LEN>,
    pub(crate) code: Code,
}

/// Texts that were read in a mode, each at its place by its bytes.
#[derive(Drop)]
pub(crate) struct KeptTexts {
    pub(crate) bits: Bits,
    pub(crate) base: u64,
    /// Those that were read at the address 0.
    pub(crate) texts: Vec<Option<KeptText>>,
    /// Those in lower case that were read at `base` as people write them.
    pub(crate) spelled: Vec<Option<SpelledText>>,
}

impl Model for KeptTexts {
    ghost use Rattle.assembly_text.specs.Kept.{AreAllKept};

    ghost Value = { Unit {0} };

    ghost view = { λ kept. tt };

    ghost invariant = { λ kept. AreAllKept kept.bits kept.base kept.texts.items kept.spelled.items };
}

/// Room for so many texts.
fn no_texts(alloc: Global, bits: Bits, count: usize) -> Result<Vec<Option<KeptText>>, AllocError>
    ensures { IfOk result (λ texts. spec.AreKept bits texts.items) }
{
    let mut texts = Vec::with_capacity(alloc, count)?;
    'texts: for _k in 0..count {
        texts.push(None)?;
    }
    Ok(texts)
}

/// Room for so many texts in lower case.
fn no_spelled(
    alloc: Global,
    bits: Bits,
    base: u64,
    count: usize,
) -> Result<Vec<Option<SpelledText>>, AllocError>
    ensures { IfOk result (λ spelled. spec.AreSpelled bits base spelled.items) }
{
    let mut spelled = Vec::with_capacity(alloc, count)?;
    'spelled: for _k in 0..count {
        spelled.push(None)?;
    }
    Ok(spelled)
}

/// Returns room for what the texts of a routine of so many bytes stand for, in a mode at an address.
pub(crate) fn no_kept(
    alloc: Global,
    bits: Bits,
    base: u64,
    bytes: usize,
) -> Result<KeptTexts, AllocError> {
    let texts = no_texts(alloc, bits, (bytes / BYTES_EACH).min(MOST_TEXTS))?;
    let spelled = no_spelled(
        alloc,
        bits,
        base,
        (bytes / BYTES_EACH_SPELLED).min(MOST_SPELLED),
    )?;
    Ok(KeptTexts {
        bits,
        base,
        texts,
        spelled,
    })
}

/// The instruction of a text, if there is one.
fn read_at_zero(bits: Bits, text: &[u8]) -> Option<Instr>
    ensures { spec.IsReadAtZero bits text.now result }
{
    match read_intel(bits, 0, text) {
        Ok(instr) => Some(instr),
        Err(_) => None,
    }
}

/// What a text stands for that was read before.
fn found_before<'a>(kept: &'a KeptTexts, bits: Bits, text: &[u8]) -> Option<&'a Option<Instr>>
    ensures { IfSome result (λ found. spec.IsReadAtZero bits text.now found.now) }
{
    if kept.texts.is_empty() || !same_bits(kept.bits, bits) {
        return None;
    }
    match &kept.texts[slot_of(text, kept.texts.len())] {
        None => None,
        Some(line) => {
            if line.text.as_slice() == text {
                Some(&line.found)
            } else {
                None
            }
        }
    }
}

/// Keeps what a text stands for, if it is short.
fn keep_text(kept: &mut KeptTexts, bits: Bits, text: &[u8], found: Option<Instr>)
    requires { spec.IsReadAtZero bits text.now found }
{
    if kept.texts.is_empty() || !same_bits(kept.bits, bits) {
        return;
    }
    let mut copy: ArrayVec<u8, TEXT_LEN> = ArrayVec::new();
    if let Ok(()) = copy.try_extend_from_slice(text) {
        let slot = slot_of(text, kept.texts.len());
        kept.texts[slot] = Some(KeptText { text: copy, found });
    }
}

/// The instruction that `asm` reads in a text at the address 0, if there is one.
pub(crate) fn read_kept(kept: &mut KeptTexts, bits: Bits, text: &[u8]) -> Option<Instr>
    ensures { spec.IsReadAtZero bits text.now result }
{
    if let Some(found) = found_before(kept, bits, text) {
        return *found;
    }
    let found = read_at_zero(bits, text);
    keep_text(kept, bits, text, found);
    found
}

/// The instruction that `asm` reads in a text at an address, if there is one. What is read at 0 is kept.
pub(crate) fn read_text(kept: &mut KeptTexts, bits: Bits, ip: u64, text: &[u8]) -> Option<Instr>
    ensures { MatchOption result (IsNoText bits ip text.now) (λ i. IsAssembled bits ip text.now i) }
{
    if ip == 0 {
        return read_kept(kept, bits, text);
    }
    match read_intel(bits, ip, text) {
        Ok(instr) => Some(instr),
        Err(_) => None,
    }
}

/// What a text in lower case stands for that was read before.
fn spelled_before<'a>(kept: &'a KeptTexts, bits: Bits, base: u64, low: &[u8]) -> Option<&'a Code>
    ensures { IfSome result (λ code. spec.IsSpelled bits base low.now code.now) }
{
    if kept.spelled.is_empty() || kept.base != base || !same_bits(kept.bits, bits) {
        return None;
    }
    match &kept.spelled[slot_of(low, kept.spelled.len())] {
        None => None,
        Some(line) => {
            if line.text.as_slice() == low {
                Some(&line.code)
            } else {
                None
            }
        }
    }
}

/// Keeps what a text in lower case stands for, if it is short.
fn keep_spelled(kept: &mut KeptTexts, bits: Bits, base: u64, low: &[u8], code: Code)
    requires { spec.IsSpelled bits base low.now code }
{
    if kept.spelled.is_empty() || kept.base != base || !same_bits(kept.bits, bits) {
        return;
    }
    let mut copy: ArrayVec<u8, SPELLED_LEN> = ArrayVec::new();
    if let Ok(()) = copy.try_extend_from_slice(low) {
        let slot = slot_of(low, kept.spelled.len());
        kept.spelled[slot] = Some(SpelledText { text: copy, code });
    }
}

/// What a text stands for as people write it. It is read once for all cases of its letters.
#[tactic(auto, using(crate::proofs::Spelling::spelled_by))]
pub(crate) fn free_code(
    alloc: Global,
    kept: &mut KeptTexts,
    bits: Bits,
    base: u64,
    text: &[u8],
) -> Result<Code, AllocError>
    ensures { IfOk result (λ code. IsFreeCode bits base text.now code) }
{
    let low = lowered(alloc, text)?;
    if let Some(code) = spelled_before(kept, bits, base, &low) {
        return Ok(*code);
    }
    let statement = statement_of(&low);
    let code = spelled_code(alloc, kept, bits, base, &low, &statement)?;
    keep_spelled(kept, bits, base, &low, code);
    Ok(code)
}
