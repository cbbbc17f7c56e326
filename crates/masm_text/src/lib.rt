//! The text of an instruction in the style that MASM reads, as `mov qword ptr [rsp+10h], rbx`.
#![tactic(auto)]

ghost use Rattle.std.specs.Prelude.{◌≡◌, ◌≤◌, ◌+◌, ◌++◌, IsTrue};
ghost use Rattle.std.specs.Str.{IsAscii};
ghost use Rattle.arrayvec.specs.ArrayVec.{array_vec_len};
ghost use Rattle.opcode_rows.specs.Allowed.{is_well_formed};
ghost use Rattle.masm_text.specs.Text as spec;

use arrayvec::ArrayVec;
use text_parts::style::Style;
use text_parts::text::{TEXT_LEN, Text};
use text_rows::append_bracket_text;
use x86_values::{Bits, Instr};

/// Appends the MASM text of a well-formed instruction in a mode: ASCII, at most `TEXT_LEN` bytes. `out` must have that much space left.
#[tactic(auto, unfolding(crate::specs::Text::text, crate::specs::Text::text_of, text_rows::specs::BracketText::bracket_text))]
pub fn print_to<const N: usize>(out: &mut ArrayVec<u8, N>, bits: Bits, instr: &Instr)
    requires well { IsTrue (is_well_formed instr.now) }
    requires room { array_vec_len out.old + TEXT_LEN ≤ N }
    ensures items { out.new.items ≡ out.old.items ++ spec.text bits instr.now }
    ensures len { array_vec_len out.new ≤ array_vec_len out.old + TEXT_LEN }
    ensures ascii { IsAscii (spec.text bits instr.now) }
{
    append_bracket_text(out, Style::Masm, bits, instr);
}

/// Returns the text of a well-formed instruction as MASM accepts it, in a mode: ASCII, at most `TEXT_LEN` bytes.
pub fn print(bits: Bits, instr: &Instr) -> Text
    requires { IsTrue (is_well_formed instr.now) }
    ensures items { result.items ≡ spec.text bits instr.now }
    ensures ascii { IsAscii result.items }
{
    let mut text = Text::new();
    print_to(&mut text, bits, instr);
    text
}
