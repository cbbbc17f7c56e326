//! The text of an instruction or of a single byte in each style.

ghost use Rattle.std.specs.Prelude.{◌≡◌, ◌≤◌, ◌+◌, ◌++◌, length, IsTrue};
ghost use Rattle.arrayvec.specs.ArrayVec.{array_vec_len};
ghost use Rattle.opcode_rows.specs.Allowed.{is_well_formed};
ghost use Rattle.sweep.specs.SweepText.Listing as spec;

use crate::sweep_text::line::{CHUNK_LEN, Chunk};
use text_parts::laws::numbers_are_short;
use text_parts::numbers::append_number;
use text_parts::style::Style;
use text_parts::text::{TEXT_LEN, Text, append};
use x86_values::{Bits, Instr};

/// The directive that precedes the number of a single byte.
#[inline]
#[tactic(auto, unfolding(crate::specs::SweepText::Listing::byte_directive))]
fn byte_directive(syntax: Style) -> &'static [u8]
    ensures text { result.now ≡ spec.byte_directive syntax }
    ensures short { length result.now ≤ 6 }
{
    match syntax {
        Style::Att => b".byte ",
        _ => b"db ",
    }
}

/// The text of a byte at which no instruction is read.
#[tactic(auto, unfolding(crate::specs::SweepText::Listing::single_byte_text))]
fn single_byte_text(syntax: Style, byte: u8) -> Text
    ensures { result.items ≡ spec.single_byte_text syntax byte }
{
    numbers_are_short();
    let mut text = Text::new();
    append(&mut text, byte_directive(syntax));
    append_number(&mut text, syntax, u64::from(byte));
    text
}

/// Appends the text of a byte at which no instruction is read.
#[inline(never)]
pub(crate) fn append_single_byte(out: &mut Chunk, syntax: Style, byte: u8)
    requires { array_vec_len out.old + TEXT_LEN ≤ CHUNK_LEN }
    ensures items { out.new.items ≡ out.old.items ++ spec.single_byte_text syntax byte }
    ensures len { array_vec_len out.new ≤ array_vec_len out.old + TEXT_LEN }
{
    append(out, &single_byte_text(syntax, byte));
}

/// Appends the text of a well-formed instruction.
#[inline(always)]
pub(crate) fn append_instr_text(out: &mut Chunk, syntax: Style, bits: Bits, instr: &Instr)
    requires well { IsTrue (is_well_formed instr.now) }
    requires room { array_vec_len out.old + TEXT_LEN ≤ CHUNK_LEN }
    ensures items { out.new.items ≡ out.old.items ++ spec.instr_text syntax bits instr.now }
    ensures len { array_vec_len out.new ≤ array_vec_len out.old + TEXT_LEN }
{
    match syntax {
        Style::Intel => intel_text::print_to(out, bits, instr),
        Style::Att => att_text::print_to(out, bits, instr),
        Style::Masm => masm_text::print_to(out, bits, instr),
    }
}
