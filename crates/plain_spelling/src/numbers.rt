//! Numbers as they are written in bytes.

ghost use Rattle.std.specs.Prelude.{◌≡◌, ◌<◌, ◌≤◌, ◌+◌, ◌*◌, ◌^◌, ◌++◌, nat_lt};
ghost use Rattle.arrayvec.specs.ArrayVec.{array_vec_len};
ghost use Rattle.x86_values.specs.Wrapping.{width};
ghost use Rattle.plain_spelling.specs.Values as spec;

use arrayvec::ArrayVec;
use row_meaning::numbers::top_of;
use x86_values::{Bits, modulus, width, wrap};

/// Appends the low `n` bytes of a number, lowest first, to an array of eight.
pub fn append_low_bytes(bytes: &mut ArrayVec<u8, 8>, n: u8, x: u64)
    requires { array_vec_len bytes.old + n ≤ 8 }
    ensures items { bytes.new.items ≡ bytes.old.items ++ spec.low_bytes n x }
    ensures len { array_vec_len bytes.new ≡ array_vec_len bytes.old + n }
{
    push_low_bytes(bytes, n, x);
}

/// Appends the low `n` bytes of a number, lowest first.
#[tactic(auto, unfolding(crate::specs::Values::low_bytes))]
pub fn push_low_bytes<const N: usize>(bytes: &mut ArrayVec<u8, N>, n: u8, x: u64)
    requires { array_vec_len bytes.old + n ≤ N }
    ensures items { bytes.new.items ≡ bytes.old.items ++ spec.low_bytes n x }
    ensures len { array_vec_len bytes.new ≡ array_vec_len bytes.old + n }
{
    if n > 0 {
        bytes.push((x % 256) as u8);
        push_low_bytes(bytes, n - 1, x / 256);
    }
}

/// Returns whether a number is below 2 to the number of bits of a size.
pub fn is_of_width(size: Bits, x: u64) -> bool
    ensures { result ≡ nat_lt x (2 ^ width size) }
{
    (x as u128) < modulus(size)
}

/// 2 to the number of bits of a size, less 1.
fn last_of_width(size: Bits) -> u64
    ensures { result + 1 ≡ 2 ^ width size }
{
    match size {
        Bits::B16 => 0xFFFF,
        Bits::B32 => 0xFFFF_FFFF,
        Bits::B64 => 0xFFFF_FFFF_FFFF_FFFF,
    }
}

/// Returns half of 2 to the number of bits in `n` bytes; `n` is above 0.
fn half_of_bytes(n: u8) -> u64
    requires some { 0 < n }
    requires few { n ≤ 8 }
    ensures { 2 * result ≡ 2 ^ (8 * n) }
{
    match n {
        1 => 0x80,
        2 => 0x8000,
        3 => 0x80_0000,
        4 => 0x8000_0000,
        5 => 0x80_0000_0000,
        6 => 0x8000_0000_0000,
        7 => 0x80_0000_0000_0000,
        _ => 0x8000_0000_0000_0000,
    }
}

/// Returns whether a number of a size equals `n` bytes sign-extended to that size.
#[inline(always)]
#[tactic(auto, unfolding(crate::specs::Values::is_extended_of))]
pub fn is_extended_of(n: u8, size: Bits, x: u64) -> bool
    requires { n ≤ 8 }
    ensures { result ≡ spec.is_extended_of n (width size) x }
{
    let last = last_of_width(size);
    if x > last {
        return false;
    }
    if n == 0 {
        return x == 0;
    }
    let half = half_of_bytes(n);
    width(size) <= 8 * n || x < half || last - x < half
}

/// Returns the distance from one address to another, modulo 2 to the size.
#[tactic(auto, unfolding(crate::specs::Values::distance))]
pub fn distance(size: Bits, from: u64, to: u64) -> u64
    ensures { result ≡ spec.distance size from to }
{
    wrap(size, to as u128 + (0x1_0000_0000_0000_0000 - from as u128))
}

/// Returns whether a number fits `n` bytes.
#[inline(never)]
pub fn is_below_bytes(n: u8, x: u64) -> bool
    requires { n ≤ 8 }
    ensures { result ≡ nat_lt x (2 ^ (8 * n)) }
{
    (x as u128) < top_of(n as usize)
}
