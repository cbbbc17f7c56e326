//! The fewest bytes of an instruction with some words.

ghost use Rattle.std.specs.Prelude.{◌≡◌, ◌<◌, ◌≤◌};
ghost use Rattle.instruction_parts.specs.Bytes as bytes;
ghost use Rattle.intel_reader.specs.Lengths as spec;

use crate::possible::has_address;
use instruction_parts::bytes::lead_len;
use instruction_parts::row_types::Row;
use instruction_parts::sizes::is_vex_row;
use intel_words::words::IntelWords;
use plain_spelling::addresses::displacement_count;
use plain_spelling::front::{asks_66, asks_rex_w, plain_size};
use row_fit::fits::has_modrm;
use row_fit::tail_fits::immediates_bytes;
use x86_values::{Bits, DispSize};

/// A byte that is there or not.
#[inline]
fn byte_if(there: bool) -> u8
    ensures value { result ≡ bytes.bit there }
    ensures small { result < 2 }
{
    if there { 1 } else { 0 }
}

/// The fewest bytes in front of the opcode byte.
#[tactic(auto, unfolding(crate::specs::Lengths::least_front))]
fn least_front(bits: Bits, row: &Row) -> u8
    ensures value { result ≡ spec.least_front bits row.now }
    ensures small { result < 6 }
{
    if is_vex_row(row) {
        2
    } else {
        byte_if(asks_66(bits, row)) + (byte_if(asks_rex_w(row)) + lead_len(row.map, None))
    }
}

/// The bytes of displacement in an address.
#[tactic(auto, unfolding(crate::specs::Lengths::displacement_of_words))]
fn displacement_of_words(words: &IntelWords, size: DispSize) -> u8
    ensures value { result ≡ spec.displacement_of_words words.now size }
    ensures small { result ≤ 8 }
{
    if has_address(words) {
        displacement_count(size)
    } else {
        0
    }
}

/// Returns the minimum length in bytes of an instruction of a row with these words and this displacement size.
#[tactic(auto, unfolding(crate::specs::Lengths::least_len))]
pub fn least_len(bits: Bits, row: &Row, words: &IntelWords, size: DispSize) -> u8
    ensures { result ≡ spec.least_len bits row.now words.now size }
{
    let operand_size = plain_size(bits, row, asks_rex_w(row), asks_66(bits, row));
    let front = least_front(bits, row);
    let modrm = byte_if(has_modrm(row));
    let displacement = displacement_of_words(words, size);
    let immediates = immediates_bytes(operand_size, row);
    front + (1 + (modrm + (displacement + immediates)))
}
