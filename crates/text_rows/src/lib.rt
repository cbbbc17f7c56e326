//! The row and the name that a well-formed instruction is printed by, with what keeps its text short, and the text in a style with brackets.
#![tactic(auto)]

pub mod row_lines;

ghost use Rattle.std.specs.Prelude.{◌≡◌, ◌≤◌, ◌+◌, ◌++◌, length, slice_get, Some, IsTrue};
ghost use Rattle.std.specs.Str.{IsAscii};
ghost use Rattle.arrayvec.specs.ArrayVec.{array_vec_len};
ghost use Rattle.row_fit.specs.Sound.{sound};
ghost use Rattle.opcode_rows.specs.Table.{table, name_of};
ghost use Rattle.opcode_rows.specs.Allowed.{is_well_formed};
ghost use Rattle.text_parts.specs.Layout.{has_one_long};
ghost use Rattle.text_rows.specs.BracketText.{bracket_text};

use arrayvec::ArrayVec;
use instruction_parts::row_types::Row;
use opcode_rows::{name, row_of};
use text_parts::layout::append_bracket_layout;
use text_parts::style::Style;
use text_parts::text::TEXT_LEN;
use x86_values::{Bits, Instr};

/// Returns the row of a well-formed instruction. The row is sound, and at most one operand of the instruction is memory or a far pointer.
#[inline]
pub fn printed_row(instr: &Instr) -> Row
    requires { IsTrue (is_well_formed instr.now) }
    ensures row { slice_get table instr.now.code.0 ≡ Some result }
    ensures sound { IsTrue (sound result) }
    ensures operands { IsTrue (has_one_long instr.now) }
{
    row_of(instr.code)
}

/// Returns the name of a well-formed instruction's row, at most 20 bytes.
#[inline]
pub fn printed_name(instr: &Instr) -> &'static [u8]
    requires { IsTrue (is_well_formed instr.now) }
    ensures name { result.now ≡ name_of instr.now.code.0 }
    ensures short { length result.now ≤ 20 }
{
    name(instr.code).as_bytes()
}

/// Appends the text of a well-formed instruction in a style with brackets, in a mode: ASCII, at most `TEXT_LEN` bytes. `out` must have that much
/// space left.
#[inline]
pub fn append_bracket_text<const N: usize>(
    out: &mut ArrayVec<u8, N>,
    style: Style,
    bits: Bits,
    instr: &Instr,
)
    requires well { IsTrue (is_well_formed instr.now) }
    requires room { array_vec_len out.old + TEXT_LEN ≤ N }
    ensures items { out.new.items ≡ out.old.items ++ bracket_text style bits instr.now }
    ensures len { array_vec_len out.new ≤ array_vec_len out.old + TEXT_LEN }
    ensures ascii { IsAscii (bracket_text style bits instr.now) }
{
    append_bracket_layout(
        out,
        style,
        bits,
        &printed_row(instr),
        printed_name(instr),
        instr,
    );
}
