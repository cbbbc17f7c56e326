//! The lines of the commands that go through a sweep, item by item.

ghost use Rattle.std.specs.Prelude.{◌≡◌, ◌<◌, ◌≤◌, ◌+◌, ◌++◌, length, IsTrue, IfOk};
ghost use Rattle.arrayvec.specs.ArrayVec.{array_vec_len};
ghost use Rattle.opcode_rows.specs.Allowed.{is_well_formed};
ghost use Rattle.decoder.specs.Answer.{reading_of};
ghost use Rattle.sweep.specs.SweepText.Info.{info_text};
ghost use Rattle.sweep.specs.SweepText.Recode.{recode_text};
ghost use Rattle.sweep.specs.SweepText.Lines as spec;

use crate::sweep_text::info::append_info;
use crate::sweep_text::line::{CHUNK_LEN, Chunk, LINE_LEN, append_address, append_item_line};
use crate::sweep_text::recode::append_recoded;
use decoder::DecodeError;
use operand_info::laws::well_formed_codes_are_in_the_table;
use text_parts::style::Style;
use text_parts::text::append_few;
use x86_values::{Bits, Decoded, Instr};

/// The lines that a command writes, one for each item of a sweep.
#[derive(Clone, Copy, PartialEq, Eq, Debug)]
pub enum Lines {
    /// The address, the bytes and the text of each item, in a style.
    Listing { syntax: Style },
    /// What each instruction does, as `Next w r m8 @ 0x8`: its flow, the access of each operand (`n` none, `r`, `w`, `rw`),
    /// the size of its memory operand in bytes, its near target, and the address of its operand relative to the next
    /// instruction. There is no line for a single byte.
    Info,
    /// The bytes of the plain spelling of each instruction in the mode `to`. The new address of an instruction is as far from `new_base` as the old
    /// one is from the first byte. An instruction without a plain spelling gives a line such as `! 3 1`: the number of the first condition that
    /// fails, and the operand that it names. A single byte has no line.
    Recode { to: Bits, new_base: u64 },
}

/// Returns the error at which a command ends if it has no line for an item.
#[inline]
pub fn stop_of(lines: Lines, reading: &Result<Decoded, DecodeError>) -> Option<DecodeError>
    ensures { result ≡ spec.stop_of lines (reading_of reading.now) }
{
    match lines {
        Lines::Listing { .. } => None,
        Lines::Info | Lines::Recode { .. } => match reading {
            Ok(_) => None,
            Err(error) => Some(*error),
        },
    }
}

/// Appends the line of an instruction with what it does. It is not made part of its caller, which would set aside the places of
/// its texts for each line of a listing too.
#[inline(never)]
#[tactic(auto, using(crate::proofs::SweepText::Lengths::two_parts), unfolding(crate::specs::SweepText::Lines::instr_line))]
fn append_info_line(out: &mut Chunk, bits: Bits, base: u64, offset: usize, instr: &Instr)
    requires well { IsTrue (is_well_formed instr.now) }
    requires room { array_vec_len out.old + LINE_LEN ≤ CHUNK_LEN }
    ensures { out.new.items ≡ out.old.items ++ spec.instr_line bits base offset (info_text instr.now) }
{
    well_formed_codes_are_in_the_table();
    append_address(out, bits, base, offset);
    append_few(out, b" ");
    append_info(out, instr);
    append_few(out, b"\n");
}

/// Appends the line of an instruction with its spelling in the mode `to`. Like the other one it is not inlined.
#[inline(never)]
#[tactic(auto, using(crate::proofs::SweepText::Lengths::two_parts), unfolding(crate::specs::SweepText::Lines::instr_line))]
fn append_recode_line(
    out: &mut Chunk,
    bits: Bits,
    base: u64,
    to: Bits,
    new_base: u64,
    offset: usize,
    instr: &Instr,
)
    requires room { array_vec_len out.old + LINE_LEN ≤ CHUNK_LEN }
    ensures { out.new.items ≡ out.old.items
        ++ spec.instr_line bits base offset (recode_text to (new_base + offset) instr.now) }
{
    append_address(out, bits, base, offset);
    append_few(out, b" ");
    append_recoded(out, to, new_base, offset, instr);
    append_few(out, b"\n");
}

/// Appends the line of an item, or nothing if the command has none.
///
/// `base` is the address of the first byte of the code, `offset` the offset of the item, `bytes` the bytes of the item, and `reading` its decoded
/// instruction or error.
#[inline(always)]
pub fn append_line(
    out: &mut Chunk,
    bits: Bits,
    base: u64,
    lines: Lines,
    offset: usize,
    bytes: &[u8],
    reading: &Result<Decoded, DecodeError>,
)
    requires some { 0 < length bytes.now }
    requires few { length bytes.now ≤ 15 }
    requires well { IfOk reading.now (λ d. IsTrue (is_well_formed d.instr)) }
    requires room { array_vec_len out.old + LINE_LEN ≤ CHUNK_LEN }
    ensures items { out.new.items ≡ out.old.items
        ++ spec.line_of bits base lines (record { offset = offset; bytes = bytes.now; reading = reading_of reading.now }) }
{
    match lines {
        Lines::Listing { syntax } => {
            append_item_line(out, bits, base, syntax, offset, bytes, reading);
        }
        Lines::Info => {
            if let Ok(d) = reading {
                append_info_line(out, bits, base, offset, &d.instr);
            }
        }
        Lines::Recode { to, new_base } => {
            if let Ok(d) = reading {
                append_recode_line(out, bits, base, to, new_base, offset, &d.instr);
            }
        }
    }
}
