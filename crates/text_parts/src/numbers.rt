//! Numbers in a text.

ghost use Rattle.std.specs.Prelude.{◌≡◌, ◌<◌, ◌≤◌, ◌+◌, ◌*◌, ◌/◌, ◌%◌, ◌^◌, ◌++◌, length};
ghost use Rattle.arrayvec.specs.ArrayVec.{array_vec_len};
ghost use Rattle.text_parts.specs.Numbers as spec;

use crate::digit_pairs::digit_pair;
use crate::style::Style;
use crate::text::append_few;
use arrayvec::ArrayVec;

/// The ASCII code of a hexadecimal digit.
#[inline]
#[tactic(auto, unfolding(crate::specs::Numbers::hex_digit))]
fn hex_digit(d: u8) -> u8
    requires { d < 16 }
    ensures { result ≡ spec.hex_digit d }
{
    match d {
        0 => b'0',
        1 => b'1',
        2 => b'2',
        3 => b'3',
        4 => b'4',
        5 => b'5',
        6 => b'6',
        7 => b'7',
        8 => b'8',
        9 => b'9',
        10 => b'a',
        11 => b'b',
        12 => b'c',
        13 => b'd',
        14 => b'e',
        _ => b'f',
    }
}

/// The hexadecimal digit at a position, counted from the last.
#[inline]
#[tactic(auto, unfolding(crate::specs::Numbers::digit_at))]
fn digit_at(n: u64, position: u32) -> u8
    requires { position < 16 }
    ensures value { result ≡ spec.digit_at n position }
    ensures small { result < 16 }
{
    ((n >> (4 * position)) % 16) as u8
}

/// How many hexadecimal digits a number has without leading zeros.
#[inline]
#[tactic(auto, unfolding(crate::specs::Numbers::digit_count))]
fn digit_count(n: u64) -> u32
    ensures value { result ≡ spec.digit_count n }
    ensures some { 0 < result }
    ensures few { result ≤ 16 }
{
    ((67 - n.leading_zeros()) / 4).max(1)
}

/// The byte at a position, counted from the last.
#[inline]
fn byte_at(n: u64, position: u32) -> u8
    requires { position < 8 }
    ensures { result ≡ n / 2 ^ (8 * position) % 256 }
{
    ((n >> (8 * position)) % 256) as u8
}

/// Appends the last hexadecimal digits of a number, two for each of so many bytes.
#[inline]
fn append_last_bytes<const N: usize>(out: &mut ArrayVec<u8, N>, count: u32, n: u64)
    requires few { count ≤ 8 }
    requires room { array_vec_len out.old + length (spec.last_digits (2 * count) n) ≤ N }
    ensures { out.new.items ≡ out.old.items ++ spec.last_digits (2 * count) n }
{
    let mut left = count;
    while left > 0 {
        left -= 1;
        let [high, low] = digit_pair(byte_at(n, left));
        out.push(high);
        out.push(low);
    }
}

/// Appends the last hexadecimal digits of a number.
#[inline]
#[tactic(auto, using(crate::proofs::Digits::digit_steps))]
fn append_last_digits<const N: usize>(out: &mut ArrayVec<u8, N>, count: u32, n: u64)
    requires few { count ≤ 16 }
    requires room { array_vec_len out.old + length (spec.last_digits count n) ≤ N }
    ensures { out.new.items ≡ out.old.items ++ spec.last_digits count n }
{
    if count % 2 == 1 {
        out.push(hex_digit(digit_at(n, count - 1)));
    }
    append_last_bytes(out, count / 2, n);
}

/// Appends a number of one byte in hexadecimal without a leading zero.
#[inline]
fn append_byte<const N: usize>(out: &mut ArrayVec<u8, N>, n: u8)
    requires { array_vec_len out.old + length (spec.hexadecimal n) ≤ N }
    ensures { out.new.items ≡ out.old.items ++ spec.hexadecimal n }
{
    let [high, low] = digit_pair(n);
    if 16 <= n {
        out.push(high);
        out.push(low);
    } else {
        out.push(low);
    }
}

/// Appends the two digits of the last byte of a number.
#[inline]
fn append_last_byte<const N: usize>(out: &mut ArrayVec<u8, N>, n: u64)
    requires { array_vec_len out.old + 2 ≤ N }
    ensures { out.new.items ≡ out.old.items ++ spec.last_digits 2 n }
{
    let [high, low] = digit_pair(byte_at(n, 0));
    out.push(high);
    out.push(low);
}

/// Appends a number of two bytes in hexadecimal without leading zeros.
#[inline]
fn append_two_bytes<const N: usize>(out: &mut ArrayVec<u8, N>, n: u64)
    requires some { 256 ≤ n }
    requires few { n < 65536 }
    requires room { array_vec_len out.old + length (spec.hexadecimal n) ≤ N }
    ensures { out.new.items ≡ out.old.items ++ spec.hexadecimal n }
{
    append_byte(out, (n / 256) as u8);
    append_last_byte(out, n);
}

/// Appends a number of three bytes in hexadecimal without leading zeros.
#[inline]
fn append_three_bytes<const N: usize>(out: &mut ArrayVec<u8, N>, n: u64)
    requires some { 65536 ≤ n }
    requires few { n < 16777216 }
    requires room { array_vec_len out.old + length (spec.hexadecimal n) ≤ N }
    ensures { out.new.items ≡ out.old.items ++ spec.hexadecimal n }
{
    append_two_bytes(out, n / 256);
    append_last_byte(out, n);
}

/// Appends a number of sixteen digits in hexadecimal.
#[inline]
fn append_eight_bytes<const N: usize>(out: &mut ArrayVec<u8, N>, n: u64)
    requires some { 2 ^ 60 ≤ n }
    requires room { array_vec_len out.old + length (spec.hexadecimal n) ≤ N }
    ensures { out.new.items ≡ out.old.items ++ spec.hexadecimal n }
{
    append_last_bytes(out, 8, n);
}

/// Appends a number of any width in hexadecimal without leading zeros. Most of those that are wide are below zero as signed numbers, with all
/// sixteen digits.
#[inline(never)]
#[tactic(auto, unfolding(crate::specs::Numbers::hexadecimal))]
fn append_any<const N: usize>(out: &mut ArrayVec<u8, N>, n: u64)
    requires { array_vec_len out.old + length (spec.hexadecimal n) ≤ N }
    ensures { out.new.items ≡ out.old.items ++ spec.hexadecimal n }
{
    if n < 0x1000_0000_0000_0000 {
        append_last_digits(out, digit_count(n), n);
    } else {
        append_eight_bytes(out, n);
    }
}

/// Appends a number in hexadecimal without leading zeros. Most numbers have one byte, and few have more than three.
#[inline]
pub fn append_hexadecimal<const N: usize>(out: &mut ArrayVec<u8, N>, n: u64)
    requires { array_vec_len out.old + length (spec.hexadecimal n) ≤ N }
    ensures { out.new.items ≡ out.old.items ++ spec.hexadecimal n }
{
    if n < 256 {
        append_byte(out, n as u8);
    } else if n < 0x1_0000 {
        append_two_bytes(out, n);
    } else if n < 0x100_0000 {
        append_three_bytes(out, n);
    } else {
        append_any(out, n);
    }
}

/// The 0 in front of a number that would begin with a letter.
#[tactic(auto, unfolding(crate::specs::Numbers::leading_zero))]
fn leading_zero(n: u64) -> &'static [u8]
    ensures { result.now ≡ spec.leading_zero n }
{
    if digit_at(n, digit_count(n) - 1) < 10 {
        b""
    } else {
        b"0"
    }
}

/// Appends a number: `0x1f`, or `1fh` in MASM.
#[inline(never)]
#[tactic(auto, unfolding(crate::specs::Numbers::number))]
pub fn append_number<const N: usize>(out: &mut ArrayVec<u8, N>, style: Style, n: u64)
    requires { array_vec_len out.old + length (spec.number style n) ≤ N }
    ensures { out.new.items ≡ out.old.items ++ spec.number style n }
{
    match style {
        Style::Masm => {
            append_few(out, leading_zero(n));
            append_hexadecimal(out, n);
            append_few(out, b"h");
        }
        _ => {
            append_few(out, b"0x");
            append_hexadecimal(out, n);
        }
    }
}

/// Appends a number below 100 in decimal digits.
#[inline]
#[tactic(auto, unfolding(crate::specs::Numbers::decimal))]
pub fn append_decimal<const N: usize>(out: &mut ArrayVec<u8, N>, n: u8)
    requires { array_vec_len out.old + length (spec.decimal n) ≤ N }
    ensures { out.new.items ≡ out.old.items ++ spec.decimal n }
{
    if n < 10 {
        out.push(b'0' + n);
    } else {
        out.push(b'0' + n / 10);
        out.push(b'0' + n % 10);
    }
}
