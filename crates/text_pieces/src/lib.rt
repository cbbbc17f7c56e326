//! The pieces of an instruction's text: where each stands, what it is, and the number that it shows.
#![tactic(auto)]

mod addresses;
mod att;
mod layout;
mod line;
mod numbers;
pub mod piece;
mod words;

ghost use Rattle.std.specs.Prelude.{◌≡◌, ◌≤◌, ◌+◌, ◌++◌, length, map, IsTrue};
ghost use Rattle.arrayvec.specs.ArrayVec.{array_vec_len};
ghost use Rattle.row_fit.specs.Sound.{sound};
ghost use Rattle.opcode_rows.specs.Allowed.{is_well_formed};
ghost use Rattle.text_parts.specs.Layout.{has_one_long};
ghost use Rattle.text_pieces.specs.Tokens.{joined, placed, IsCover, characters_at};
ghost use Rattle.text_pieces.specs.Lines.{laid, grown};
ghost use Rattle.text_pieces.specs.Pieces as spec;

use crate::att::put_att;
use crate::layout::put_layout;
use crate::piece::{Pieces, Printed};
use arrayvec::ArrayVec;
use instruction_parts::row_types::Row;
use text_parts::style::Style;
use text_parts::text::{TEXT_LEN, Text};
use text_rows::{printed_name, printed_row};
use x86_values::{Bits, Instr};

/// Puts down the pieces of an instruction of a row with this name.
#[inline]
#[tactic(auto, unfolding(crate::specs::Pieces::parts_of))]
fn put_row(line: &mut Printed, style: Style, bits: Bits, row: &Row, name: &[u8], instr: &Instr)
    requires sound { IsTrue (sound row.now) }
    requires name { length name.now ≤ 20 }
    requires operands { IsTrue (has_one_long instr.now) }
    requires empty { length line.old.pieces.items ≡ 0 }
    requires blank { array_vec_len line.old.text ≡ 0 }
    ensures { laid line.new ≡ grown (laid line.old) (spec.parts_of style bits row.now name.now instr.now) }
{
    match style {
        Style::Att => put_att(line, bits, row, name, instr),
        Style::Masm => put_layout(line, Style::Masm, bits, row, name, instr),
        Style::Intel => put_layout(line, Style::Intel, bits, row, name, instr),
    }
}

/// Appends the text that the printer of a style gives for a well-formed instruction in a mode: at most `TEXT_LEN` bytes. `out` must have that much space
/// left.
#[inline]
#[tactic(auto, unfolding(crate::specs::Pieces::text_of))]
pub fn print_text<const N: usize>(
    out: &mut ArrayVec<u8, N>,
    style: Style,
    bits: Bits,
    instr: &Instr,
)
    requires well { IsTrue (is_well_formed instr.now) }
    requires room { array_vec_len out.old + TEXT_LEN ≤ N }
    ensures { out.new.items ≡ out.old.items ++ spec.text_of style bits instr.now }
{
    match style {
        Style::Intel => intel_text::print_to(out, bits, instr),
        Style::Masm => masm_text::print_to(out, bits, instr),
        Style::Att => att_text::print_to(out, bits, instr),
    }
}

/// Prints a well-formed instruction in a style and a mode, and its pieces. What `printed` had before is gone.
///
/// `printed.text` is the text that the printer of the style gives, and `printed.pieces` are those that `pieces` returns. Nothing is allocated. One call
/// for both takes little longer than the text alone.
///
/// ```
/// let read = decode_in(Bits::B64, 0x40_1000, b"\xe8\xfb\x0f\x00\x00")?;
/// let mut printed = Printed::default();
/// print_pieces(&mut printed, Style::Intel, Bits::B64, &read.instr);
/// let count = printed.pieces.as_slice().len();
/// println!(rt; "{} has {count} pieces", from_utf8(&printed.text)?)?; // call 0x402000 has 3 pieces
/// ```
pub fn print_pieces(printed: &mut Printed, style: Style, bits: Bits, instr: &Instr)
    requires { IsTrue (is_well_formed instr.now) }
    ensures text { printed.new.text.items ≡ spec.text_of style bits instr.now }
    ensures places { printed.new.pieces.items ≡ placed 0 (spec.pieces_of style bits instr.now) }
    ensures joined { joined (spec.pieces_of style bits instr.now) ≡ spec.text_of style bits instr.now }
    ensures cover { IsCover 0 (length (spec.text_of style bits instr.now)) printed.new.pieces.items }
    ensures characters { map (characters_at (spec.text_of style bits instr.now)) printed.new.pieces.items
        ≡ map (λ t. t.characters) (spec.pieces_of style bits instr.now) }
    ensures short { length (spec.text_of style bits instr.now) ≤ 160 }
{
    printed.text = Text::new();
    printed.pieces.clear();
    put_row(
        printed,
        style,
        bits,
        &printed_row(instr),
        printed_name(instr),
        instr,
    );
}

/// Returns the pieces of the text that the printer of a style gives for a well-formed instruction in a mode: at most `PIECES`.
///
/// The pieces cover the text without a gap: the first starts at 0, each starts where the one before it ends, the last ends with the text, and none is
/// empty. A piece has its kind, the number of its operand in the manual's order, and for a number the operand's value, width and role.
///
/// ```
/// let read = decode_in(Bits::B64, 0x40_1000, b"\xe8\xfb\x0f\x00\x00")?; // call 0x402000
/// for piece in pieces(Style::Intel, Bits::B64, &read.instr).as_slice() {
///     println!(rt; "{} {} {:?}", piece.start, piece.end, piece.kind)?; // 0 4 Mnemonic, then 4 5 Space, then the number
/// }
/// ```
#[inline]
pub fn pieces(style: Style, bits: Bits, instr: &Instr) -> Pieces
    requires { IsTrue (is_well_formed instr.now) }
    ensures places { result.items ≡ placed 0 (spec.pieces_of style bits instr.now) }
    ensures joined { joined (spec.pieces_of style bits instr.now) ≡ spec.text_of style bits instr.now }
    ensures cover { IsCover 0 (length (spec.text_of style bits instr.now)) result.items }
    ensures characters { map (characters_at (spec.text_of style bits instr.now)) result.items
        ≡ map (λ t. t.characters) (spec.pieces_of style bits instr.now) }
    ensures short { length (spec.text_of style bits instr.now) ≤ 160 }
{
    let mut printed = Printed::default();
    print_pieces(&mut printed, style, bits, instr);
    printed.pieces
}
