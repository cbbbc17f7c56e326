//! The front of a text up to the first byte that needs a closer look. Most lines have none.

ghost use Rattle.std.specs.Prelude.{◌≡◌, ℕ, ◌+◌, ◌-◌, ◌≤◌, ◌<◌, true, false, length, slice_index_or};
ghost use Rattle.assembly_text.specs.Lines as spec;
ghost use Rattle.assembly_text.specs.Labels.{HasLabelsOf};

use crate::line::is_quiet;
use std::simd::prelude::*;

/// How many bytes are tested together.
const LANES: usize = 32;

/// The place of the lowest bit that is set, or another number.
#[inline(always)]
fn first_set(mask: u64, other: usize) -> usize
    ensures { result ≡ spec.first_set mask other }
{
    if mask == 0 {
        other
    } else {
        mask.trailing_zeros() as usize
    }
}

/// Whether a byte neither ends a line, nor ends a label, nor begins a comment or a quote.
#[tactic(auto, unfolding(crate::specs::Lines::is_plain, crate::specs::Lines::is_inner))]
fn is_plain(c: u8) -> bool
    ensures { result ≡ spec.is_plain c }
{
    c != b':' && (c != b'\n' && is_quiet(c))
}

/// How many plain bytes 32 bytes of a text begin with.
// `"` and `#`, as `:` and `;`, differ in their lowest bit.
#[inline(always)]
fn plain_lanes(text: &[u8], at: usize) -> usize
    requires { at + LANES ≤ length text.now }
    ensures within { result ≤ LANES }
    ensures plain { (k : ℕ) → at ≤ k → k < at + result → spec.is_plain (slice_index_or text.now k 0) ≡ true }
    ensures stop { result < LANES → spec.is_plain (slice_index_or text.now (at + result) 0) ≡ false }
{
    let bytes = u8x32::from_slice(&text[at..]);
    let odd = bytes | u8x32::splat(1);
    let pairs = odd.simd_eq(u8x32::splat(b'#')) | odd.simd_eq(u8x32::splat(b';'));
    let ends = bytes.simd_eq(u8x32::splat(b'\'')) | bytes.simd_eq(u8x32::splat(b'\n'));
    first_set((pairs | ends).to_bitmask(), LANES)
}

/// How many plain bytes a text begins with.
pub(crate) fn plain_len(text: &[u8]) -> usize
    ensures within { result ≤ length text.now }
    ensures plain { (k : ℕ) → k < result → spec.is_plain (slice_index_or text.now k 0) ≡ true }
    ensures stop { result < length text.now → spec.is_plain (slice_index_or text.now result 0) ≡ false }
{
    let mut at = 0;
    'runs: while LANES <= text.len() - at {
        let run = plain_lanes(text, at);
        at += run;
        if run < LANES {
            return at;
        }
    }
    'bytes: while at < text.len() && is_plain(text[at]) {
        at += 1;
    }
    at
}

/// A place before which a text has neither a line feed, a comment nor a quote, behind so many plain bytes at its front.
pub(crate) fn inner_len(text: &[u8], plain: usize) -> usize
    requires within { plain ≤ length text.now }
    requires plain { (k : ℕ) → k < plain → spec.is_plain (slice_index_or text.now k 0) ≡ true }
    ensures within { result ≤ length text.now }
    ensures inner { (k : ℕ) → k < result → spec.is_inner (slice_index_or text.now k 0) ≡ true }
{
    let mut at = plain;
    'colons: while at < text.len() && text[at] == b':' {
        let (_, behind) = text.split_at(at + 1);
        at += 1 + plain_len(behind);
    }
    at
}

/// How many bytes precede the first colon of 32 bytes of a text.
#[inline(always)]
fn colon_lanes(text: &[u8], at: usize) -> usize
    requires { at + LANES ≤ length text.now }
    ensures within { result ≤ LANES }
    ensures none { (k : ℕ) → at ≤ k → k < at + result → spec.is_no_colon (slice_index_or text.now k 0) ≡ true }
    ensures stop { result < LANES → spec.is_no_colon (slice_index_or text.now (at + result) 0) ≡ false }
{
    let colons = u8x32::from_slice(&text[at..]).simd_eq(u8x32::splat(b':'));
    first_set(colons.to_bitmask(), LANES)
}

/// Whether a byte does not end a label.
#[tactic(auto, unfolding(crate::specs::Lines::is_no_colon))]
fn is_no_colon(c: u8) -> bool
    ensures { result ≡ spec.is_no_colon c }
{
    c != b':'
}

/// How many bytes precede the first colon of a text.
fn colon_len(text: &[u8]) -> usize
    ensures within { result ≤ length text.now }
    ensures none { (k : ℕ) → k < result → spec.is_no_colon (slice_index_or text.now k 0) ≡ true }
    ensures stop { result < length text.now → spec.is_no_colon (slice_index_or text.now result 0) ≡ false }
{
    let mut at = 0;
    'runs: while LANES <= text.len() - at {
        let run = colon_lanes(text, at);
        at += run;
        if run < LANES {
            return at;
        }
    }
    'bytes: while at < text.len() && is_no_colon(text[at]) {
        at += 1;
    }
    at
}

/// Where the line begins that a place of a text lies in.
fn line_start(text: &[u8], at: usize) -> usize
    requires { at ≤ length text.now }
    ensures within { result ≤ at }
    ensures behind { 0 < result → slice_index_or text.now (result - 1) 0 ≡ 10 }
{
    let mut start = at;
    'bytes: while start > 0 && text[start - 1] != b'\n' {
        start -= 1;
    }
    start
}

/// What follows the lines at the front of a text that have no colon, and so no label.
pub(crate) fn behind_unlabelled(text: &[u8]) -> &[u8]
    ensures labels { HasLabelsOf text.now result.now }
    ensures within { length result.now ≤ length text.now }
{
    text.split_at(line_start(text, colon_len(text))).1
}
