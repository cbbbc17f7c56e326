//! What the three decoding calls read of some bytes.

ghost use Rattle.std.specs.Prelude.{◌≡◌, ◌<◌, IsTrue};
ghost use Rattle.prefixes.specs.Answer.{is_mode};

use decoder::{DecodeError, Decoder, decode, decode_counted};
use std::marker::Brand;
use std::sync::ledger::{Blank, Ledger};
use step_count::Steps;
use x86_values::{Bits, Decoded};

/// The answers of `decode`, `Decoder::decode` and `decode_counted`.
pub type Answers = [Result<Decoded, DecodeError>; 3];

/// Returns the three results in a mode, on its own count.
fn answers_on<L: Ledger>(blank: Blank, bits: Bits, ip: u64, bytes: &[u8]) -> Answers
    requires name { blank.name ≡ L.name }
    requires parts { blank.parts ≡ L.parts }
    requires some { 0 < L.parts }
{
    let mut steps = Steps::<L>::open(blank);
    match bits {
        Bits::B16 => of_mode::<16, L>(ip, bytes, &mut steps),
        Bits::B32 => of_mode::<32, L>(ip, bytes, &mut steps),
        Bits::B64 => of_mode::<64, L>(ip, bytes, &mut steps),
    }
}

/// Returns the three results.
fn of_mode<const BITS: u32, L: Ledger>(ip: u64, bytes: &[u8], steps: &mut Steps<L>) -> Answers
    requires { IsTrue (is_mode BITS) }
{
    let mut decoder = Decoder::<BITS>::new(bytes, ip);
    [
        decode::<BITS>(ip, bytes),
        decoder.decode(),
        decode_counted::<BITS, L>(ip, bytes, steps),
    ]
}

/// The three answers for some bytes at an address.
pub fn answers(bits: Bits, ip: u64, bytes: &[u8]) -> Answers {
    answers_on::<Brand>(Blank::new(1), bits, ip, bytes)
}
