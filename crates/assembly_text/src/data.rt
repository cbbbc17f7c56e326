//! Lines of data: the bytes of numbers and strings.

ghost use Rattle.std.specs.Prelude.{◌≡◌, ℕ, List, ◌≤◌, ◌<◌, ◌+◌, ◌*◌, ◌^◌, ◌++◌, ◌∷◌, [], OnOk, IfOk, MatchOption, length, replicate};
ghost use Rattle.assembly_text.specs.Data as spec;

use crate::drafts::{Draft, Place, below_zero, operand_in, wrapped};
use crate::line::{
    behind, byte_at, front_of, is_quote, lower_byte, lowered, quote_behind, trimmed,
};
use std::alloc::{AllocError, Global};

/// How many bytes the first item has.
#[tactic(auto, unfolding(crate::specs::Data::item_len))]
fn item_len(text: &[u8]) -> usize
    ensures value { result ≡ spec.item_len 0 text.now }
    ensures within { result ≤ length text.now }
{
    let mut quote = 0;
    'bytes: for k in 0..text.len() {
        if quote == 0 && text[k] == b',' {
            return k;
        }
        quote = quote_behind(quote, text[k]);
    }
    text.len()
}

/// The first item, and what follows its comma, if it has one.
fn first_item(text: &[u8]) -> (&[u8], Option<&[u8]>)
    ensures items { MatchOption result.1 (spec.items_in 0 text.now ≡ result.0.now ∷ []) (λ more. spec.items_in 0 text.now ≡ result.0.now ∷ spec.items_in 0 more.now) }
    ensures one { (items : List (List ℕ)) × (spec.items_in 0 text.now ≡ result.0.now ∷ items) }
    ensures less { MatchOption result.1 (0 ≤ length text.now) (λ more. length more.now < length text.now) }
{
    let len = item_len(text);
    let (item, rest) = text.split_at(len);
    if len < text.len() {
        (item, Some(behind(rest, 1)))
    } else {
        (item, None)
    }
}

/// Appends so many bytes of a number, the lowest first.
fn put_low_bytes(out: &mut Vec<u8>, count: usize, n: u64) -> Result<(), AllocError>
    ensures { OnOk result (out.new.items ≡ out.old.items ++ spec.low_bytes count n) }
{
    let mut left = n;
    'bytes: for _k in 0..count {
        out.push((left % 256) as u8)?;
        left /= 256;
    }
    Ok(())
}

/// 2 to the 8 times a number of bytes.
fn all_bytes(count: usize) -> u128
    requires { count ≤ 8 }
    ensures { result ≡ 2 ^ (8 * count) }
{
    1u128 << (8 * count)
}

/// Whether a number fits so many bytes, with a sign or without.
#[tactic(auto, unfolding(crate::specs::Data::fits_bytes))]
fn fits_bytes(count: usize, d: &Draft) -> bool
    requires { count ≤ 8 }
    ensures { result ≡ spec.fits_bytes count d.now }
{
    let all = all_bytes(count);
    (d.plus.saturating_sub(d.minus) as u128) < all && 2 * below_zero(d) as u128 <= all
}

/// Whether an operand has no brackets.
#[tactic(auto, unfolding(crate::specs::Data::is_front))]
pub(crate) fn is_front(d: &Draft) -> bool
    ensures { result ≡ spec.is_front d.now }
{
    match d.place {
        Place::Front => true,
        _ => false,
    }
}

/// Whether an operand is a number, and fits.
#[tactic(auto, unfolding(crate::specs::Data::is_datum))]
pub(crate) fn is_datum(count: usize, d: &Draft) -> bool
    requires { count ≤ 8 }
    ensures { result ≡ spec.is_datum count d.now }
{
    (d.sound && (is_front(d) && (d.base.is_none() && (d.name.is_none() && d.selector.is_none()))))
        && fits_bytes(count, d)
}

/// Appends the bytes of a number, if it is one.
#[tactic(auto, unfolding(crate::specs::Data::number_bytes))]
fn put_number(out: &mut Vec<u8>, count: usize, d: &Draft) -> Result<bool, AllocError>
    requires { count ≤ 8 }
    ensures { IfOk result (λ ok. spec.IsPut ok (spec.number_bytes count d.now) out.old.items out.new.items) }
{
    if !is_datum(count, d) {
        return Ok(false);
    }
    put_low_bytes(out, count, wrapped(d))?;
    Ok(true)
}

/// Whether a byte is not this quote.
#[tactic(auto, unfolding(crate::specs::Data::is_other))]
fn is_other(quote: u8, c: u8) -> bool
    ensures { result ≡ spec.is_other quote c }
{
    c != quote
}

/// How many bytes a string has after its quote.
fn string_len(quote: u8, text: &[u8]) -> usize
    ensures value { result ≡ spec.string_len quote text.now }
    ensures within { result ≤ length text.now }
{
    for (i, c) in text.iter().enumerate() {
        if !is_other(quote, *c) {
            return i;
        }
    }
    text.len()
}

/// How many bytes fill the last number of a string up.
#[tactic(auto, unfolding(crate::specs::Data::missing))]
fn missing(count: usize, len: usize) -> usize
    requires some { 0 < count }
    requires few { count ≤ 8 }
    ensures { result ≡ spec.missing count len }
{
    (count - len % count) % count
}

/// Appends so many zeros.
#[tactic(auto, using(crate::proofs::Growing::replicate_more))]
pub(crate) fn put_zeros(out: &mut Vec<u8>, count: usize) -> Result<(), AllocError>
    ensures { OnOk result (out.new.items ≡ out.old.items ++ replicate count 0) }
{
    'bytes: for _k in 0..count {
        out.push(0)?;
    }
    Ok(())
}

/// Appends the bytes of a string, whose second quote is its last byte.
#[tactic(auto, unfolding(crate::specs::Data::string_bytes))]
fn put_string(out: &mut Vec<u8>, count: usize, quote: u8, text: &[u8]) -> Result<bool, AllocError>
    requires some { 0 < count }
    requires few { count ≤ 8 }
    ensures { IfOk result (λ ok. spec.IsPut ok (spec.string_bytes count quote text.now) out.old.items out.new.items) }
{
    let len = string_len(quote, text);
    if len.saturating_add(1) != text.len() {
        return Ok(false);
    }
    out.extend_from_slice(front_of(text, len))?;
    put_zeros(out, missing(count, len))?;
    Ok(true)
}

/// Appends the bytes of an item, each number of which has so many.
#[tactic(auto, unfolding(crate::specs::Data::item_bytes))]
fn put_item(alloc: Global, out: &mut Vec<u8>, count: usize, item: &[u8]) -> Result<bool, AllocError>
    requires some { 0 < count }
    requires few { count ≤ 8 }
    ensures { IfOk result (λ ok. spec.IsPut ok (spec.item_bytes count item.now) out.old.items out.new.items) }
{
    let quote = byte_at(item, 0);
    if is_quote(quote) {
        return put_string(out, count, quote, behind(item, 1));
    }
    let low = lowered(alloc, item)?;
    let d = operand_in(0, &low);
    put_number(out, count, &d)
}

/// Appends the bytes of a text of data, each number of which has so many.
pub(crate) fn put_data(
    alloc: Global,
    out: &mut Vec<u8>,
    count: usize,
    text: &[u8],
) -> Result<bool, AllocError>
    requires some { 0 < count }
    requires few { count ≤ 8 }
    ensures { IfOk result (λ ok. spec.IsPut ok (spec.data_of count text.now) out.old.items out.new.items) }
{
    let mut rest = text;
    'items: loop {
        let (item, more) = first_item(rest);
        let put = put_item(alloc, out, count, trimmed(item))?;
        if !put {
            return Ok(false);
        }
        match more {
            None => return Ok(true),
            Some(behind) => rest = behind,
        }
    }
}

/// How many bytes the numbers have after a `d` and this letter, 0 for another letter.
#[tactic(auto, unfolding(crate::specs::Data::width_by))]
fn width_by(c: u8) -> usize
    ensures value { result ≡ spec.width_by c }
    ensures few { result ≤ 8 }
{
    if c == b'b' {
        1
    } else if c == b'w' {
        2
    } else if c == b'd' {
        4
    } else if c == b'q' {
        8
    } else {
        0
    }
}

/// How many bytes the numbers of a line have by its first word: `db`, `dw`, `dd` or `dq`; 0 for another line.
#[tactic(auto, unfolding(crate::specs::Data::data_width))]
pub(crate) fn data_width(word: &[u8]) -> usize
    ensures value { result ≡ spec.data_width word.now }
    ensures few { result ≤ 8 }
{
    if word.len() == 2 && lower_byte(byte_at(word, 0)) == b'd' {
        width_by(lower_byte(byte_at(word, 1)))
    } else {
        0
    }
}
