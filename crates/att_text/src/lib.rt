//! The text of an instruction in the AT&T style, as `movq %rbx, 0x10(%rsp)`.
#![tactic(auto)]

pub mod laws;
pub mod names;
pub mod operands;

ghost use Rattle.std.specs.Prelude.{◌≡◌, ◌≤◌, ◌+◌, ◌++◌, length, IsTrue};
ghost use Rattle.std.specs.Str.{IsAscii};
ghost use Rattle.arrayvec.specs.ArrayVec.{array_vec_len};
ghost use Rattle.row_fit.specs.Sound.{sound};
ghost use Rattle.opcode_rows.specs.Allowed.{is_well_formed};
ghost use Rattle.text_parts.specs.Layout.{has_one_long};
ghost use Rattle.att_text.specs.Text as spec;

use crate::names::append_name;
use crate::operands::{append_first_part, append_later_part};
use arrayvec::ArrayVec;
use instruction_parts::row_types::Row;
use text_parts::prefix_words::append_prefix_words;
use text_parts::text::{TEXT_LEN, Text};
use text_rows::{printed_name, printed_row};
use x86_values::{Bits, Instr};

/// Appends the text of an instruction of a row with this name, in a mode. `out` must have enough space left.
#[tactic(auto, unfolding(crate::specs::Text::text_of))]
fn append_short<const N: usize>(
    out: &mut ArrayVec<u8, N>,
    bits: Bits,
    row: &Row,
    name: &[u8],
    instr: &Instr,
)
    requires sound { IsTrue (sound row.now) }
    requires room { array_vec_len out.old + length (spec.text_of bits row.now name.now instr.now) ≤ N }
    ensures { out.new.items ≡ out.old.items ++ spec.text_of bits row.now name.now instr.now }
{
    append_prefix_words(out, bits, row, name, instr);
    append_name(out, bits, row, name, instr);
    append_later_part(out, bits, row, name, instr, 3);
    append_later_part(out, bits, row, name, instr, 2);
    append_later_part(out, bits, row, name, instr, 1);
    append_first_part(out, bits, row, name, instr);
}

/// Appends the text of an instruction of a row with this name, in a mode.
///
/// At most one operand is memory or a far pointer, and the name has at most 20 bytes: then the
/// text has at most `TEXT_LEN`.
#[inline]
#[tactic(auto, using(crate::proofs::Bounds::text_bounds))]
fn append_row<const N: usize>(
    out: &mut ArrayVec<u8, N>,
    bits: Bits,
    row: &Row,
    name: &[u8],
    instr: &Instr,
)
    requires sound { IsTrue (sound row.now) }
    requires name { length name.now ≤ 20 }
    requires operands { IsTrue (has_one_long instr.now) }
    requires room { array_vec_len out.old + TEXT_LEN ≤ N }
    ensures items { out.new.items ≡ out.old.items ++ spec.text_of bits row.now name.now instr.now }
    ensures len { array_vec_len out.new ≤ array_vec_len out.old + TEXT_LEN }
{
    append_short(out, bits, row, name, instr);
}

/// Appends the AT&T text of a well-formed instruction: ASCII, at most `TEXT_LEN` bytes. `out` must have that much space left.
pub fn print_to<const N: usize>(out: &mut ArrayVec<u8, N>, bits: Bits, instr: &Instr)
    requires well { IsTrue (is_well_formed instr.now) }
    requires room { array_vec_len out.old + TEXT_LEN ≤ N }
    ensures items { out.new.items ≡ out.old.items ++ spec.text bits instr.now }
    ensures len { array_vec_len out.new ≤ array_vec_len out.old + TEXT_LEN }
    ensures ascii { IsAscii (spec.text bits instr.now) }
{
    append_row(out, bits, &printed_row(instr), printed_name(instr), instr);
}

/// Returns the AT&T text of a well-formed instruction in a mode: ASCII, at most `TEXT_LEN` bytes.
///
/// The text has no address and no line feed. Operands are in AT&T order: the destination comes last.
///
/// ```
/// let read = decode_in(Bits::B64, 0x40_1000, b"\xf0\xff\x44\xbe\x10")?;
/// let text = print_att(Bits::B64, &read.instr);
/// println!(rt; "{}", ascii_str(&text))?; // lock incl 0x10(%rsi,%rdi,4)
/// ```
pub fn print(bits: Bits, instr: &Instr) -> Text
    requires { IsTrue (is_well_formed instr.now) }
    ensures items { result.items ≡ spec.text bits instr.now }
    ensures ascii { IsAscii result.items }
{
    let mut text = Text::new();
    print_to(&mut text, bits, instr);
    text
}
