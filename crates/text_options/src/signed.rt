//! Numbers of so many bytes as signed numbers.

ghost use Rattle.std.specs.Prelude.{◌≡◌, ◌*◌, ◌<◌, ◌≤◌, ◌^◌};
ghost use Rattle.text_options.specs.Signed as spec;

/// The number of so many bytes that has only the sign bit.
#[inline]
#[tactic(auto, unfolding(crate::specs::Signed::sign_bit))]
fn sign_bit(width: u8) -> u64
    ensures value { result ≡ spec.sign_bit width }
    ensures some { 0 < result }
    ensures few { result ≤ 2 ^ 63 }
{
    match width {
        1 => 0x80,
        2 => 0x8000,
        4 => 0x8000_0000,
        _ => 0x8000_0000_0000_0000,
    }
}

/// Returns the low bytes of a number, so many of them.
#[inline]
#[tactic(auto, unfolding(crate::specs::Signed::low))]
pub fn low(width: u8, n: u64) -> u64
    ensures value { result ≡ spec.low width n }
    ensures small { result < 2 * spec.sign_bit width }
{
    (n as u128 % (2 * sign_bit(width) as u128)) as u64
}

/// Returns whether a number of so many bytes is below zero as a signed number.
#[inline]
#[tactic(auto, unfolding(crate::specs::Signed::is_below_zero))]
pub fn is_below_zero(width: u8, n: u64) -> bool
    ensures { result ≡ spec.is_below_zero width n }
{
    sign_bit(width) <= low(width, n)
}

/// Returns its distance from zero as a signed number.
#[tactic(auto, unfolding(crate::specs::Signed::is_below_zero, crate::specs::Signed::distance))]
pub fn distance(width: u8, n: u64) -> u64
    ensures { result ≡ spec.distance width n }
{
    let part = low(width, n);
    if is_below_zero(width, n) {
        (2 * sign_bit(width) as u128 - part as u128) as u64
    } else {
        part
    }
}
