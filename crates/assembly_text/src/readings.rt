//! Which instruction a text stands for as people write it.

ghost use Rattle.std.specs.Prelude.{◌≡◌, ◌+◌, ◌<◌, ◌^◌, Option, IfOk, OnOk, MatchOption, Some, None, length};
ghost use Rattle.x86_values.specs.declared.Instr.{Instr};
ghost use Rattle.intel_reader.specs.Assembled.{IsAssembled, IsNoText};
ghost use Rattle.assembly_text.specs.Statements as statements;
ghost use Rattle.assembly_text.specs.Readings as spec;
ghost use Rattle.assembly_text.specs.Sizing.{BeginWithHead, LeavesOut};
ghost use Rattle.assembly_text.specs.Spellings as spellings;

use crate::code::Code;
use crate::kept::{KeptTexts, read_text};
use crate::names::put_head;
use crate::sizing::{may_fit, possible_sizes};
use crate::spellings::{is_preferred, other_front, other_statement, preferred};
use crate::statements::{Statement, Width, is_sound, name_of, put_full, sizes_of, widths_of};
use intel_reader::sizes::SizeSet;
use intel_words::words::SizeName;
use std::alloc::{AllocError, Global};
use x86_values::{Bits, Instr};

/// What the sizes of an address give.
#[derive(Clone, Copy)]
pub(crate) enum Reading {
    /// No instruction.
    None,
    /// One.
    One(Instr),
    /// More than one.
    Several,
}

/// How many bytes the text of an instruction has at most.
const TEXT_LEN: usize = 160;

/// Adds an instruction to what was read.
#[tactic(auto, unfolding(crate::specs::Readings::joined))]
fn join(reading: &mut Reading, found: Option<Instr>)
    ensures { reading.new ≡ spec.joined reading.old found }
{
    match found {
        None => {}
        Some(instr) => {
            *reading = match *reading {
                Reading::None => Reading::One(instr),
                _ => Reading::Several,
            };
        }
    }
}

/// The instruction of a text with a size and a width, if there is one.
fn read_with(
    kept: &mut KeptTexts,
    out: &mut Vec<u8>,
    bits: Bits,
    ip: u64,
    low: &[u8],
    head_len: usize,
    s: &Statement,
    size: SizeName,
    width: Width,
) -> Result<Option<Instr>, AllocError>
    requires { BeginWithHead low.now out.old.items head_len }
    ensures found { IfOk result (λ found. MatchOption found (IsNoText bits ip (statements.full_text bits size width low.now s.now))
        (λ i. IsAssembled bits ip (statements.full_text bits size width low.now s.now) i)) }
    ensures head { OnOk result (BeginWithHead low.now out.new.items head_len) }
{
    out.truncate(head_len);
    put_full(out, bits, size, width, low, s)?;
    Ok(read_text(kept, bits, ip, out))
}

/// The instruction of a text with a size and the first of some widths, if there is one.
fn read_first(
    kept: &mut KeptTexts,
    out: &mut Vec<u8>,
    bits: Bits,
    ip: u64,
    low: &[u8],
    head_len: usize,
    s: &Statement,
    size: SizeName,
    widths: &[Width],
) -> Result<Option<Instr>, AllocError>
    requires { BeginWithHead low.now out.old.items head_len }
    ensures found { IfOk result (λ found. spec.IsFirstRead bits ip low.now s.now size widths.now found) }
    ensures head { OnOk result (BeginWithHead low.now out.new.items head_len) }
{
    match widths {
        [] => Ok(None),
        [width, rest @ ..] => {
            let found = read_with(kept, out, bits, ip, low, head_len, s, size, *width)?;
            match found {
                Some(instr) => Ok(Some(instr)),
                None => read_first(kept, out, bits, ip, low, head_len, s, size, rest),
            }
        }
    }
}

/// Adds the instruction of a text with a size, if it may have one, to what was read.
fn read_size(
    kept: &mut KeptTexts,
    out: &mut Vec<u8>,
    bits: Bits,
    ip: u64,
    low: &[u8],
    head_len: usize,
    s: &Statement,
    possible: &Option<SizeSet>,
    size: SizeName,
    reading: &mut Reading,
) -> Result<(), AllocError>
    requires head { BeginWithHead low.now out.old.items head_len }
    requires possible { LeavesOut bits ip low.now s.now possible.now }
    ensures found { OnOk result ((found : Option Instr) × (spec.IsFirstRead bits ip low.now s.now size (statements.widths_of s.now) found
        × (reading.new ≡ spec.joined reading.old found))) }
    ensures head { OnOk result (BeginWithHead low.now out.new.items head_len) }
{
    if may_fit(possible, size) {
        let found = read_first(kept, out, bits, ip, low, head_len, s, size, widths_of(s))?;
        join(reading, found);
    }
    Ok(())
}

/// What the sizes of a text give.
fn read_sizes(
    kept: &mut KeptTexts,
    out: &mut Vec<u8>,
    bits: Bits,
    ip: u64,
    low: &[u8],
    head_len: usize,
    s: &Statement,
    possible: &Option<SizeSet>,
) -> Result<Reading, AllocError>
    requires head { BeginWithHead low.now out.old.items head_len }
    requires possible { LeavesOut bits ip low.now s.now possible.now }
    ensures { IfOk result (λ after. spec.IsReading bits ip low.now s.now (statements.sizes_of s.now) Reading.None after) }
{
    let mut reading = Reading::None;
    let sizes = sizes_of(s);
    'sizes: for k in 0..sizes.len() {
        read_size(
            kept,
            out,
            bits,
            ip,
            low,
            head_len,
            s,
            possible,
            sizes[k],
            &mut reading,
        )?;
    }
    Ok(reading)
}

/// Where an instruction is read.
#[tactic(auto, unfolding(crate::specs::Readings::address_of))]
fn address_of(base: u64, s: &Statement) -> u64
    ensures { result ≡ spec.address_of base s.now }
{
    if name_of(s).is_some() { 0 } else { base }
}

/// The instruction that was read, with the place of its name.
#[tactic(auto, unfolding(crate::specs::Readings::code_of_reading))]
fn code_of_reading(name: Option<usize>, reading: Reading) -> Code
    ensures { result ≡ spec.code_of_reading name reading }
{
    match reading {
        Reading::None => Code::Nothing,
        Reading::Several => Code::Unsized,
        Reading::One(instr) => match name {
            None => Code::Plain(instr),
            Some(at) => Code::Named(at, instr),
        },
    }
}

/// What the operands of a text say together.
fn stated_code(
    alloc: Global,
    kept: &mut KeptTexts,
    bits: Bits,
    base: u64,
    low: &[u8],
    s: &Statement,
) -> Result<Code, AllocError>
    ensures { IfOk result (λ code. spec.IsStatedCode bits base low.now s.now code) }
{
    if !is_sound(s) {
        return Ok(Code::Nothing);
    }
    let mut out = Vec::with_capacity(alloc, TEXT_LEN)?;
    put_head(&mut out, low)?;
    let head_len = out.len();
    let possible = possible_sizes(&mut out, bits, low, head_len, s)?;
    let reading = read_sizes(
        kept,
        &mut out,
        bits,
        address_of(base, s),
        low,
        head_len,
        s,
        &possible,
    )?;
    Ok(code_of_reading(name_of(s), reading))
}

/// Whether this is an instruction.
#[tactic(auto, unfolding(crate::specs::Readings::is_found))]
fn is_found(code: &Code) -> bool
    ensures { result ≡ spec.is_found code.now }
{
    match code {
        Code::Plain(_) => true,
        Code::Named(_, _) => true,
        _ => false,
    }
}

/// What a text stands for by other operands, if it stands for something by them.
#[tactic(auto, unfolding(crate::specs::Readings::found_or))]
fn found_or(first: Code, other: Code) -> Code
    ensures { result ≡ spec.found_or first other }
{
    match other {
        Code::Nothing => first,
        _ => other,
    }
}

/// What the operands of a text say together in another order than they have.
#[inline(never)]
fn reordered_code(
    alloc: Global,
    kept: &mut KeptTexts,
    bits: Bits,
    base: u64,
    low: &[u8],
    s: &Statement,
) -> Result<Code, AllocError>
    ensures { IfOk result (λ code. spec.IsStatedCode bits base low.now (spellings.preferred low.now s.now) code) }
{
    stated_code(alloc, kept, bits, base, low, &preferred(low, s))
}

/// What the operands of a text say together in the order in which they are read first, mostly their own.
fn preferred_code(
    alloc: Global,
    kept: &mut KeptTexts,
    bits: Bits,
    base: u64,
    low: &[u8],
    s: &Statement,
) -> Result<Code, AllocError>
    ensures { IfOk result (λ code. spec.IsStatedCode bits base low.now (spellings.preferred low.now s.now) code) }
{
    if is_preferred(low, s) {
        stated_code(alloc, kept, bits, base, low, s)
    } else {
        reordered_code(alloc, kept, bits, base, low, s)
    }
}

/// What the operands of a text say by the rules for operands that people swap or leave out, or what they said first.
#[inline(never)]
fn other_code(
    alloc: Global,
    kept: &mut KeptTexts,
    bits: Bits,
    base: u64,
    low: &[u8],
    s: &Statement,
    first: Code,
) -> Result<Code, AllocError>
    ensures { IfOk result (λ code. (other : Code)
        × (spec.IsStatedCode bits base (spellings.other_front low.now s.now) (spellings.other_statement bits low.now s.now) other
        × (code ≡ spec.found_or first other))) }
{
    let statement = other_statement(bits, low, s);
    let other = stated_code(alloc, kept, bits, base, other_front(low, s), &statement)?;
    Ok(found_or(first, other))
}

/// What the operands of a text say together, or if that is no instruction by the rules for operands that people swap or leave out.
pub(crate) fn spelled_code(
    alloc: Global,
    kept: &mut KeptTexts,
    bits: Bits,
    base: u64,
    low: &[u8],
    s: &Statement,
) -> Result<Code, AllocError>
    ensures { IfOk result (λ code. spec.IsSpelledCode bits base low.now s.now code) }
{
    let first = preferred_code(alloc, kept, bits, base, low, s)?;
    if is_found(&first) {
        return Ok(first);
    }
    other_code(alloc, kept, bits, base, low, s, first)
}
