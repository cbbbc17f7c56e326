//! Numbers in hexadecimal.

ghost use Rattle.std.specs.Prelude.{◌≡◌, ◌<◌, ◌≤◌, ◌+◌, ◌++◌, drop, length, false};
ghost use Rattle.std.specs.Fmt.{digit_glyph};
ghost use Rattle.arrayvec.specs.ArrayVec.{array_vec_len};
ghost use Rattle.sweep.specs.RunParts.Hexadecimal as spec;

use text_parts::text::{TEXT_LEN, Text, append};

/// The places of a number's digits, more than 128 bits need.
const PLACES: usize = 64;

/// The ASCII code of a hexadecimal digit, in lower case.
#[inline]
fn hex_digit(d: u8) -> u8
    requires { d < 16 }
    ensures { result ≡ digit_glyph false d }
{
    if d < 10 { b'0' + d } else { b'a' - 10 + d }
}

/// Writes the digits of a number to the end of a buffer, and returns where they begin.
#[tactic(auto, unfolding(crate::specs::RunParts::Hexadecimal::hex_number))]
fn write_digits(n: u128, places: &mut [u8; 64]) -> usize
    ensures within { result ≤ 64 }
    ensures digits { drop result places.new ≡ spec.hex_number n }
{
    let mut at = PLACES;
    let mut rest = n;
    while at > 0 {
        at -= 1;
        places[at] = hex_digit((rest % 16) as u8);
        rest /= 16;
        if rest == 0 {
            return at;
        }
    }
    0
}

/// Appends a number in hexadecimal digits without leading zeros.
pub fn append_hexadecimal(out: &mut Text, n: u128)
    requires { array_vec_len out.old + 64 ≤ TEXT_LEN }
    ensures items { out.new.items ≡ out.old.items ++ spec.hex_number n }
    ensures len { array_vec_len out.new ≤ array_vec_len out.old + 64 }
{
    let mut places = [0; PLACES];
    let at = write_digits(n, &mut places);
    let (_, digits) = places.split_at(at);
    append(out, digits);
}
