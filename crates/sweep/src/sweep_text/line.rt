//! The listing's line for an item of the sweep.

ghost use Rattle.std.specs.Prelude.{◌≡◌, ◌<◌, ◌≤◌, ◌+◌, ◌-◌, ◌*◌, ◌++◌, ◌∷◌, [], length, replicate, IsTrue, IfOk, slice_index};
ghost use Rattle.arrayvec.specs.ArrayVec.{array_vec_len};
ghost use Rattle.hex.specs.Hex.{encode_lower};
ghost use Rattle.opcode_rows.specs.Allowed.{is_well_formed};
ghost use Rattle.decoder.specs.Answer.{reading_of};
ghost use Rattle.opcode_rows.specs.Sweep.{item_len};
ghost use Rattle.sweep.specs.SweepText.Listing as spec;

use crate::sweep_text::texts::{append_instr_text, append_single_byte};
use arrayvec::ArrayVec;
use decoder::DecodeError;
use text_parts::digit_pairs::digit_pair;
use text_parts::style::Style;
use text_parts::text::{TEXT_LEN, append, append_few};
use x86_values::{Bits, Decoded, wrap};

/// The number of bytes of text that are buffered before they are written.
pub const CHUNK_LEN: usize = 16384;

/// The maximum number of bytes of a line of the listing.
pub const LINE_LEN: usize = 209;

/// Buffered text.
pub type Chunk = ArrayVec<u8, CHUNK_LEN>;

/// The places of the byte column: two for each of 15 bytes.
const COLUMN_LEN: usize = 30;

/// Appends the hexadecimal digits of some bytes.
#[inline]
pub(crate) fn append_bytes<const N: usize>(out: &mut ArrayVec<u8, N>, bytes: &[u8])
    requires few { length bytes.now ≤ 15 }
    requires room { array_vec_len out.old + 2 * length bytes.now ≤ N }
    ensures items { out.new.items ≡ out.old.items ++ encode_lower bytes.now }
    ensures len { array_vec_len out.new ≡ array_vec_len out.old + 2 * length bytes.now }
{
    let mut places = [b' '; 30];
    let digits = &mut places[..2 * bytes.len()];
    match hex::encode_to_slice(bytes, digits) {
        Ok(()) => append(out, digits),
        Err(_) => unreachable!(),
    }
}

/// Writes the hexadecimal digits of the bytes of a number, from the highest down, to places, two for each byte.
#[inline(always)]
fn digits_into(bytes: &[u8], places: &mut [u8])
    requires { length places.old ≡ 2 * length bytes.now }
    ensures { places.new ≡ encode_lower bytes.now }
{
    for n in 0..bytes.len() {
        let [high, low] = digit_pair(bytes[n]);
        places[2 * n] = high;
        places[2 * n + 1] = low;
    }
}

/// Appends the hexadecimal digits of a number, of whose bytes the highest comes first. Texts write their numbers by the same digits.
#[inline]
fn append_number<const N: usize>(out: &mut ArrayVec<u8, N>, bytes: &[u8])
    requires few { length bytes.now ≤ 15 }
    requires room { array_vec_len out.old + 2 * length bytes.now ≤ N }
    ensures items { out.new.items ≡ out.old.items ++ encode_lower bytes.now }
    ensures len { array_vec_len out.new ≡ array_vec_len out.old + 2 * length bytes.now }
{
    let mut places = [b' '; 30];
    let digits = &mut places[..2 * bytes.len()];
    digits_into(bytes, digits);
    append(out, digits);
}

/// Appends the address of an offset in code whose first byte has the address `base`: 4, 8 or 16 hexadecimal digits, by the mode. The address wraps in
/// the mode.
#[inline(always)]
#[tactic(auto, unfolding(crate::specs::SweepText::Listing::address_text))]
pub fn append_address(out: &mut Chunk, bits: Bits, base: u64, offset: usize)
    requires { array_vec_len out.old + 16 ≤ CHUNK_LEN }
    ensures items { out.new.items ≡ out.old.items ++ spec.address_text bits base offset }
    ensures len { array_vec_len out.new ≤ array_vec_len out.old + 16 }
{
    let address = wrap(bits, u128::from(base) + offset as u128);
    match bits {
        Bits::B16 => append_number(out, &(address as u16).to_be_bytes()),
        Bits::B32 => append_number(out, &(address as u32).to_be_bytes()),
        Bits::B64 => append_number(out, &address.to_be_bytes()),
    }
}

/// Appends the byte column: the hexadecimal digits of some bytes, filled with spaces to 30 places.
#[tactic(auto, unfolding(crate::specs::SweepText::Listing::byte_column))]
fn append_column(out: &mut Chunk, bytes: &[u8])
    requires few { length bytes.now ≤ 15 }
    requires room { array_vec_len out.old + COLUMN_LEN ≤ CHUNK_LEN }
    ensures items { out.new.items ≡ out.old.items ++ spec.byte_column bytes.now }
    ensures len { array_vec_len out.new ≡ array_vec_len out.old + COLUMN_LEN }
{
    let mut places = [b' '; COLUMN_LEN];
    match hex::encode_to_slice(bytes, &mut places[..2 * bytes.len()]) {
        Ok(()) => append(out, &places),
        Err(_) => unreachable!(),
    }
}

/// Appends the text of what is read at the front of some bytes: an instruction, or the single first byte.
#[inline(always)]
#[tactic(auto, unfolding(crate::specs::SweepText::Listing::reading_text))]
fn append_text(
    out: &mut Chunk,
    bits: Bits,
    syntax: Style,
    bytes: &[u8],
    reading: &Result<Decoded, DecodeError>,
)
    requires some { 0 < length bytes.now }
    requires well { IfOk reading.now (λ d. IsTrue (is_well_formed d.instr)) }
    requires room { array_vec_len out.old + TEXT_LEN ≤ CHUNK_LEN }
    ensures items { out.new.items ≡ out.old.items ++ spec.reading_text bits syntax bytes.now (reading_of reading.now) }
    ensures len { array_vec_len out.new ≤ array_vec_len out.old + TEXT_LEN }
{
    match reading {
        Ok(d) => append_instr_text(out, syntax, bits, &d.instr),
        Err(_) => append_single_byte(out, syntax, bytes[0]),
    }
}

/// Appends the line of an item: its address, its bytes and its text.
///
/// `base` is the address of the first byte of the code, `offset` how far the item follows it, `bytes` the bytes
/// of the item, and `reading` what is read at its front; its text is written in the style `syntax`.
#[inline(always)]
#[tactic(auto, using(crate::proofs::SweepText::Lengths::line_parts), unfolding(crate::specs::SweepText::Listing::item_line))]
pub(crate) fn append_item_line(
    out: &mut Chunk,
    bits: Bits,
    base: u64,
    syntax: Style,
    offset: usize,
    bytes: &[u8],
    reading: &Result<Decoded, DecodeError>,
)
    requires some { 0 < length bytes.now }
    requires few { length bytes.now ≤ 15 }
    requires well { IfOk reading.now (λ d. IsTrue (is_well_formed d.instr)) }
    requires room { array_vec_len out.old + LINE_LEN ≤ CHUNK_LEN }
    ensures items { out.new.items ≡ out.old.items
        ++ spec.item_line bits base syntax (record { offset = offset; bytes = bytes.now; reading = reading_of reading.now }) }
{
    append_address(out, bits, base, offset);
    append_few(out, b" ");
    append_column(out, bytes);
    append_few(out, b" ");
    append_text(out, bits, syntax, bytes, reading);
    append_few(out, b"\n");
}
