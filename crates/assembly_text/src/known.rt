//! Texts that were read before, and what they stand for. Most lines of a routine stand in it more than once.

ghost use Rattle.std.specs.Prelude.{◌≡◌, ◌<◌, ◌≤◌, ◌+◌, IfOk, IfSome, IsTrue, length};
ghost use Rattle.assembly_text.specs.Known.{IsKept, IsKnownLine, AreKnown};

use crate::code::PreparedCode;
use crate::kept::{KeptTexts, no_kept};
use arrayvec::ArrayVec;
use std::alloc::{AllocError, Global};
use x86_values::{Bits, same_bits};

/// How many bytes a text has at most that is kept.
const TEXT_LEN: usize = 40;

/// How many slots there are at most.
const MOST_SLOTS: usize = 16_384;

/// How many bytes of the routine there are for each slot.
const BYTES_EACH: usize = 8;

/// How many slots there are for each line that has room from the start.
const SLOTS_EACH: usize = 4;

/// What the bytes of a text are multiplied by.
const MIXER: u64 = 0x9E37_79B9_7F4A_7C15;

/// A text that was read, and what it stands for.
#[derive(Drop)]
pub(crate) struct KnownLine {
    pub(crate) text: ArrayVec<u8, TEXT_LEN>,
    pub(crate) read: PreparedCode,
}

/// Texts that were read in a mode at an address. The bytes of a text give it one of the slots, which has the number of its line.
#[derive(Drop)]
pub(crate) struct Known {
    pub(crate) bits: Bits,
    pub(crate) base: u64,
    pub(crate) lines: Vec<KnownLine>,
    pub(crate) slots: Vec<Option<usize>>,
    /// Texts that were read by a part of what is required of a line.
    pub(crate) kept: KeptTexts,
}

/// Returns room for what the lines of so many bytes stand for, in a mode at an address.
pub(crate) fn no_known(
    alloc: Global,
    bits: Bits,
    base: u64,
    bytes: usize,
) -> Result<Known, AllocError>
    ensures { IfOk result (λ known. AreKnown known) }
{
    let count = (bytes / BYTES_EACH).min(MOST_SLOTS);
    let mut slots = Vec::with_capacity(alloc, count)?;
    for _k in 0..count {
        slots.push(None)?;
    }
    Ok(Known {
        bits,
        base,
        lines: Vec::with_capacity(alloc, count / SLOTS_EACH)?,
        slots,
        kept: no_kept(alloc, bits, base, bytes)?,
    })
}

/// Eight bytes of a text as a number.
#[inline]
fn word_at(text: &[u8], at: usize) -> u64
    requires { at + 8 ≤ length text.now }
{
    match &text[at..at + 8] {
        [a, b, c, d, e, f, g, h] => u64::from_le_bytes([*a, *b, *c, *d, *e, *f, *g, *h]),
        _ => 0,
    }
}

/// A number in which each bit of two others counts.
#[inline]
fn mixed(sum: u64, word: u64) -> u64 {
    let product = (sum ^ word).wrapping_mul(MIXER);
    product ^ (product >> 32)
}

/// A number for a text in which each of its bytes counts.
fn number_of(text: &[u8]) -> u64 {
    let len = text.len();
    let mut sum = len as u64;
    if len < 8 {
        for c in text {
            sum = mixed(sum, *c as u64);
        }
        return sum;
    }
    'words: for k in 0..len / 8 {
        sum = mixed(sum, word_at(text, 8 * k));
    }
    mixed(sum, word_at(text, len - 8))
}

/// The slot of a text among so many.
pub(crate) fn slot_of(text: &[u8], count: usize) -> usize
    requires { 0 < count }
    ensures { result < count }
{
    let number = number_of(text).wrapping_mul(MIXER) >> 32;
    (number % count as u64) as usize
}

/// Whether texts were read in this mode at this address.
fn are_of(known: &Known, bits: Bits, base: u64) -> bool
    ensures mode { IsTrue result → known.now.bits ≡ bits }
    ensures address { IsTrue result → known.now.base ≡ base }
{
    known.base == base && same_bits(known.bits, bits)
}

/// The line that a slot has.
fn line_of<'a>(known: &'a Known, slot: usize) -> Option<&'a KnownLine>
    requires slot { slot < length known.now.slots.items }
    requires known { AreKnown known.now }
    ensures { IfSome result (λ line. IsKnownLine known.now.bits known.now.base line.now) }
{
    let count = known.lines.len();
    let number = known.slots[slot].unwrap_or(count);
    if number < count {
        Some(&known.lines[number])
    } else {
        None
    }
}

/// What a text stands for that was read before.
pub(crate) fn code_before<'a>(
    known: &'a Known,
    bits: Bits,
    base: u64,
    text: &[u8],
) -> Option<&'a PreparedCode>
    requires { AreKnown known.now }
    ensures { IfSome result (λ read. IsKept bits base text.now read.now) }
{
    if known.slots.is_empty() || !are_of(known, bits, base) {
        return None;
    }
    match line_of(known, slot_of(text, known.slots.len())) {
        None => None,
        Some(line) => {
            if line.text.as_slice() == text {
                Some(&line.read)
            } else {
                None
            }
        }
    }
}

/// Gives a line to a slot, in place of the one that it has. If there is no memory for one more, the line is not kept.
fn put(known: &mut Known, slot: usize, line: KnownLine)
    requires slot { slot < length known.old.slots.items }
    requires known { AreKnown known.old }
    requires line { IsKnownLine known.old.bits known.old.base line }
    ensures { AreKnown known.new }
{
    let count = known.lines.len();
    let number = known.slots[slot].unwrap_or(count);
    if number < count {
        known.lines[number] = line;
        return;
    }
    if let Ok(()) = known.lines.push(line) {
        known.slots[slot] = Some(count);
    }
}

/// Keeps what a text stands for, if it is short.
pub(crate) fn keep(known: &mut Known, bits: Bits, base: u64, text: &[u8], read: PreparedCode)
    requires known { AreKnown known.old }
    requires read { IsKept bits base text.now read }
    ensures { AreKnown known.new }
{
    if known.slots.is_empty() || !are_of(known, bits, base) {
        return;
    }
    let mut copy: ArrayVec<u8, TEXT_LEN> = ArrayVec::new();
    if let Ok(()) = copy.try_extend_from_slice(text) {
        let slot = slot_of(text, known.slots.len());
        put(known, slot, KnownLine { text: copy, read });
    }
}
