//! Numbers in bytes.

ghost use Rattle.std.specs.Prelude.{◌≡◌, ◌<◌, ◌≤◌, ◌+◌, ◌-◌, ◌*◌, ◌^◌, ◌%◌, length, nat_lt, if◌then◌else◌};
ghost use Rattle.row_meaning.specs.Meaning as spec;
ghost use Rattle.x86_values.specs.Wrapping.{width};

use x86_values::{Bits, wrap};

/// The number that any bytes hold, the least byte first.
#[inline(never)]
#[tactic(auto, unfolding(crate::specs::Meaning::little_endian))]
fn any_number(bytes: &[u8]) -> u64
    requires { length bytes.now ≤ 8 }
    ensures value { result ≡ spec.little_endian bytes.now }
    ensures below { result < 2 ^ (8 * length bytes.now) }
{
    match bytes.split_first() {
        None => 0,
        Some((b, rest)) => *b as u64 + 256 * any_number(rest),
    }
}

/// Returns the number that some bytes encode, lowest byte first.
// One byte and four are read at once: most displacements and immediates have one of these lengths.
#[inline]
#[tactic(auto, unfolding(crate::specs::Meaning::little_endian))]
pub fn little_endian(bytes: &[u8]) -> u64
    requires { length bytes.now ≤ 8 }
    ensures value { result ≡ spec.little_endian bytes.now }
    ensures below { result < 2 ^ (8 * length bytes.now) }
{
    match bytes {
        [] => 0,
        [b] => *b as u64,
        [b0, b1, b2, b3] => *b0 as u64 + 256 * (*b1 as u64 + 256 * (*b2 as u64 + 256 * *b3 as u64)),
        _ => any_number(bytes),
    }
}

/// Returns 2 to the number of bits in `n` bytes.
#[inline]
pub fn top_of(len: usize) -> u128
    requires { len ≤ 8 }
    ensures value { result ≡ 2 ^ (8 * len) }
    ensures below { result ≤ 2 ^ 64 }
{
    match len {
        0 => 1,
        1 => 0x100,
        2 => 0x1_0000,
        3 => 0x100_0000,
        4 => 0x1_0000_0000,
        5 => 0x100_0000_0000,
        6 => 0x1_0000_0000_0000,
        7 => 0x100_0000_0000_0000,
        _ => 0x1_0000_0000_0000_0000,
    }
}

/// Returns a number of bytes that hold the numbers below `top`, sign-extended and reduced to a size.
#[inline(always)]
fn extended(size: Bits, x: u64, top: u128) -> u64
    requires { top ≤ 2 ^ 64 }
    ensures { result ≡ if nat_lt (2 * x) top then x % 2 ^ width size else (x + (2 ^ 64 - top)) % 2 ^ width size }
{
    let x = x as u128;
    if 2 * x < top {
        wrap(size, x)
    } else {
        wrap(size, x + (0x1_0000_0000_0000_0000 - top))
    }
}

/// The number in some bytes of any number, sign-extended and reduced to a size.
#[cold]
#[inline(never)]
#[tactic(auto, unfolding(crate::specs::Meaning::sign_extended))]
fn any_extended(size: Bits, bytes: &[u8]) -> u64
    requires { length bytes.now ≤ 8 }
    ensures { result ≡ spec.sign_extended (width size) bytes.now }
{
    extended(size, little_endian(bytes), top_of(bytes.len()))
}

/// Returns the number in these bytes, sign-extended and reduced to a size.
// Built in with one byte and with four, the most frequent lengths.
#[inline(always)]
#[tactic(auto, unfolding(crate::specs::Meaning::sign_extended, crate::specs::Meaning::little_endian))]
pub fn sign_extended(size: Bits, bytes: &[u8]) -> u64
    requires { length bytes.now ≤ 8 }
    ensures { result ≡ spec.sign_extended (width size) bytes.now }
{
    match bytes {
        [] => 0,
        [b] => extended(size, *b as u64, 0x100),
        [b0, b1, b2, b3] => {
            let x = *b0 as u64 + 256 * (*b1 as u64 + 256 * (*b2 as u64 + 256 * *b3 as u64));
            extended(size, x, 0x1_0000_0000)
        }
        _ => any_extended(size, bytes),
    }
}
