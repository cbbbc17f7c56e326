//! Lines of alignment.

ghost use Rattle.std.specs.Prelude.{◌≡◌, ◌<◌, ◌≤◌, ◌++◌, IfOk, OnOk, IfSome, length};
ghost use Rattle.assembly_text.specs.Padding as spec;

use crate::constants::whole_number;
use crate::data::put_zeros;
use crate::drafts::operand_in;
use crate::line::lowered;
use std::alloc::{AllocError, Global};
use x86_values::Bits;

/// The greatest alignment.
const MOST_ALIGNED: u64 = 4096;

/// Whether a word is `align`.
#[tactic(auto, unfolding(crate::specs::Padding::is_align))]
pub(crate) fn is_align(alloc: Global, word: &[u8]) -> Result<bool, AllocError>
    ensures { IfOk result (λ align. align ≡ spec.is_align word.now) }
{
    if word.len() != 5 {
        return Ok(false);
    }
    let low = lowered(alloc, word)?;
    Ok(low.as_slice() == b"align".as_slice())
}

/// Whether a number is a power of two from 1 to 4096.
#[tactic(auto, unfolding(crate::specs::Padding::is_alignment))]
fn is_alignment(n: u64) -> bool
    ensures { result ≡ spec.is_alignment n }
{
    0 < n && (n <= MOST_ALIGNED && MOST_ALIGNED % n == 0)
}

/// A number, if it is an alignment.
#[tactic(auto, unfolding(crate::specs::Padding::only_alignment, crate::specs::Padding::is_alignment))]
fn only_alignment(number: Option<u64>) -> Option<u64>
    ensures value { result ≡ spec.only_alignment number }
    ensures some { IfSome result (λ n. 0 < n) }
    ensures few { IfSome result (λ n. n ≤ 4096) }
{
    match number {
        None => None,
        Some(n) => if is_alignment(n) { Some(n) } else { None },
    }
}

/// The alignment of the operand of a line.
pub(crate) fn alignment_in(alloc: Global, text: &[u8]) -> Result<Option<u64>, AllocError>
    ensures value { IfOk result (λ n. n ≡ spec.alignment_in text.now) }
    ensures some { IfOk result (λ o. IfSome o (λ n. 0 < n)) }
    ensures few { IfOk result (λ o. IfSome o (λ n. n ≤ 4096)) }
{
    let low = lowered(alloc, text)?;
    let d = operand_in(0, &low);
    Ok(only_alignment(whole_number(&d)))
}

/// How many bytes lie between an address and the next multiple of a number.
#[tactic(auto, unfolding(crate::specs::Padding::gap))]
pub(crate) fn gap(n: u64, address: u64) -> u64
    requires { 0 < n }
    ensures value { result ≡ spec.gap n address }
    ensures less { result < n }
{
    (n - address % n) % n
}

/// The NOP of one to nine bytes that the manual recommends.
#[tactic(auto, unfolding(crate::specs::Padding::nop))]
fn nop(count: usize) -> &'static [u8]
    ensures { result.now ≡ spec.nop count }
{
    if count == 1 {
        &[0x90]
    } else if count == 2 {
        &[0x66, 0x90]
    } else if count == 3 {
        &[0x0F, 0x1F, 0x00]
    } else if count == 4 {
        &[0x0F, 0x1F, 0x40, 0x00]
    } else if count == 5 {
        &[0x0F, 0x1F, 0x44, 0x00, 0x00]
    } else if count == 6 {
        &[0x66, 0x0F, 0x1F, 0x44, 0x00, 0x00]
    } else if count == 7 {
        &[0x0F, 0x1F, 0x80, 0x00, 0x00, 0x00, 0x00]
    } else if count == 8 {
        &[0x0F, 0x1F, 0x84, 0x00, 0x00, 0x00, 0x00, 0x00]
    } else if count == 9 {
        &[0x66, 0x0F, 0x1F, 0x84, 0x00, 0x00, 0x00, 0x00, 0x00]
    } else {
        &[]
    }
}

/// How many bytes the longest NOP has.
#[tactic(auto, unfolding(crate::specs::Padding::longest_nop))]
fn longest_nop(bits: Bits) -> usize
    ensures value { result ≡ spec.longest_nop bits }
    ensures some { 0 < result }
{
    match bits {
        Bits::B16 => 4,
        _ => 9,
    }
}

/// Appends some bytes so many times.
fn put_repeated(out: &mut Vec<u8>, count: usize, bytes: &[u8]) -> Result<(), AllocError>
    ensures { OnOk result (out.new.items ≡ out.old.items ++ spec.repeated count bytes.now) }
{
    'times: for _k in 0..count {
        out.extend_from_slice(bytes)?;
    }
    Ok(())
}

/// Appends NOPs of so many bytes together.
#[tactic(auto, unfolding(crate::specs::Padding::nops))]
fn put_nops(out: &mut Vec<u8>, bits: Bits, count: usize) -> Result<(), AllocError>
    ensures { OnOk result (out.new.items ≡ out.old.items ++ spec.nops bits count) }
{
    let most = longest_nop(bits);
    put_repeated(out, count / most, nop(most))?;
    out.extend_from_slice(nop(count % most))
}

/// What fills so many bytes: zeros, or NOPs.
#[tactic(auto, unfolding(crate::specs::Padding::padding))]
pub(crate) fn padding(
    alloc: Global,
    bits: Bits,
    zeros: bool,
    count: usize,
) -> Result<Vec<u8>, AllocError>
    ensures { IfOk result (λ out. out.items ≡ spec.padding bits zeros count) }
{
    let mut out = Vec::new(alloc);
    if zeros {
        put_zeros(&mut out, count)?;
    } else {
        put_nops(&mut out, bits, count)?;
    }
    Ok(out)
}
