//! The pieces of operands, and of a whole text in the styles with brackets.

ghost use Rattle.std.specs.Prelude.{◌≡◌, ◌<◌, ◌≤◌, ◌+◌, ◌*◌, ◌++◌, length, IsTrue};
ghost use Rattle.arrayvec.specs.ArrayVec.{array_vec_len};
ghost use Rattle.row_fit.specs.Sound.{sound};
ghost use Rattle.text_parts.specs.Layout as text;
ghost use Rattle.text_parts.specs.PrefixWords.{text_address_size};
ghost use Rattle.text_pieces.specs.Lines.{laid, grown};
ghost use Rattle.text_pieces.specs.Addresses as addresses;
ghost use Rattle.text_pieces.specs.Layout as spec;

use crate::addresses::{put_bracketed, put_register};
use crate::line::{put_mark, put_space, put_text};
use crate::numbers::{far_offset, far_selector, immediate, near_target, put_number};
use crate::piece::{Kind, PIECES, Printed};
use crate::words::{put_name, put_prefixes};
use instruction_parts::row_types::{Row, Size};
use row_fit::tail_fits::kind_at;
use row_meaning::row_memory_size;
use text_parts::layout::{is_far_pointer, operand_at};
use text_parts::prefix_words::text_address_size;
use text_parts::style::Style;
use text_parts::text::TEXT_LEN;
use x86_values::{Bits, Instr, Mem, Operand};

/// The name of the size of what operand `n` of a row has in memory.
#[tactic(auto, unfolding(text_parts::specs::Layout::operand_size_name, text_parts::specs::Layout::far_name, text_parts::specs::Layout::size_name))]
fn size_name(row: &Row, n: u8) -> &'static [u8]
    requires number { n < 4 }
    requires sound { IsTrue (sound row.now) }
    ensures name { result.now ≡ text.operand_size_name row.now n }
    ensures short { length result.now ≤ 7 }
{
    if is_far_pointer(kind_at(row, usize::from(n))) {
        match row.size {
            Size::O16 => b"far16",
            Size::O64 => b"far64",
            _ => b"far32",
        }
    } else {
        match row_memory_size(row) {
            1 => b"byte",
            2 => b"word",
            4 => b"dword",
            8 => b"qword",
            10 => b"tbyte",
            16 => b"xmmword",
            32 => b"ymmword",
            _ => b"",
        }
    }
}

/// Puts down what follows the name of a size.
#[inline]
#[tactic(auto, unfolding(crate::specs::Layout::behind_pieces))]
fn put_behind(line: &mut Printed, style: Style, n: u8)
    requires room { length line.old.pieces.items + 3 ≤ PIECES }
    requires text { array_vec_len line.old.text + 5 ≤ TEXT_LEN }
    ensures laid { laid line.new ≡ grown (laid line.old) (spec.behind_pieces style n) }
    ensures len { length line.new.pieces.items ≤ length line.old.pieces.items + 3 }
    ensures size { array_vec_len line.new.text ≤ array_vec_len line.old.text + 5 }
{
    match style {
        Style::Masm => {
            put_space(line, Some(n));
            put_text(line, b"ptr", Some(n), Kind::Keyword);
            put_space(line, Some(n));
        }
        _ => put_space(line, Some(n)),
    }
}

/// Puts down the name of a size and what follows it.
#[inline]
#[tactic(auto, unfolding(crate::specs::Layout::named_pieces))]
fn put_named(line: &mut Printed, style: Style, n: u8, name: &[u8])
    requires short { length name.now ≤ 7 }
    requires room { length line.old.pieces.items + 4 ≤ PIECES }
    requires text { array_vec_len line.old.text + 12 ≤ TEXT_LEN }
    ensures laid { laid line.new ≡ grown (laid line.old) (spec.named_pieces style n name.now) }
    ensures len { length line.new.pieces.items ≤ length line.old.pieces.items + 4 }
    ensures size { array_vec_len line.new.text ≤ array_vec_len line.old.text + 12 }
{
    match name {
        [] => {}
        _ => {
            put_text(line, name, Some(n), Kind::Keyword);
            put_behind(line, style, n);
        }
    }
}

/// Puts down what stands in front of an operand.
#[inline(always)]
#[tactic(auto, unfolding(crate::specs::Layout::separator_pieces))]
pub fn put_separator(line: &mut Printed, first: bool, op: &Operand)
    requires room { length line.old.pieces.items + 2 ≤ PIECES }
    requires text { array_vec_len line.old.text + 2 ≤ TEXT_LEN }
    ensures laid { laid line.new ≡ grown (laid line.old) (spec.separator_pieces first op.now) }
    ensures len { length line.new.pieces.items ≤ length line.old.pieces.items + 2 }
    ensures size { array_vec_len line.new.text ≤ array_vec_len line.old.text + 2 }
{
    match op {
        Operand::Absent => {}
        _ => {
            if first {
                put_space(line, None);
            } else {
                put_mark(line, b',', None, Kind::Punctuation);
                put_space(line, None);
            }
        }
    }
}

/// Puts down a memory operand with its size in front of it.
#[inline(never)]
#[tactic(auto, using(crate::proofs::Grown::grown_rules))]
fn put_memory(
    line: &mut Printed,
    style: Style,
    bits: Bits,
    row: &Row,
    instr: &Instr,
    n: u8,
    m: &Mem,
)
    requires number { n < 4 }
    requires sound { IsTrue (sound row.now) }
    requires room { length line.old.pieces.items + 15 ≤ PIECES }
    requires text { array_vec_len line.old.text + 55 ≤ TEXT_LEN }
    ensures laid { laid line.new ≡ grown (laid line.old)
        (spec.size_pieces style row.now n ++ addresses.bracketed_pieces style instr.now.seg (text_address_size bits instr.now) n m.now) }
    ensures len { length line.new.pieces.items ≤ length line.old.pieces.items + 15 }
    ensures size { array_vec_len line.new.text ≤ array_vec_len line.old.text + 55 }
{
    put_named(line, style, n, size_name(row, n));
    put_bracketed(line, style, instr.seg, text_address_size(bits, instr), n, m);
}

/// Puts down a far pointer.
#[inline(never)]
#[tactic(auto, unfolding(crate::specs::Layout::far_pieces))]
fn put_far(line: &mut Printed, style: Style, row: &Row, n: u8, selector: u64, offset: u64)
    requires room { length line.old.pieces.items + 3 ≤ PIECES }
    requires text { array_vec_len line.old.text + 37 ≤ TEXT_LEN }
    ensures laid { laid line.new ≡ grown (laid line.old) (spec.far_pieces style row.now n selector offset) }
    ensures len { length line.new.pieces.items ≤ length line.old.pieces.items + 3 }
    ensures size { array_vec_len line.new.text ≤ array_vec_len line.old.text + 37 }
{
    put_number(line, style, n, selector, far_selector(selector));
    put_mark(line, b':', Some(n), Kind::Punctuation);
    put_number(line, style, n, offset, far_offset(row, offset));
}

/// Puts down an operand.
#[inline(never)]
#[tactic(auto, unfolding(crate::specs::Layout::operand_pieces, text_parts::specs::Layout::is_long))]
fn put_operand(
    line: &mut Printed,
    style: Style,
    bits: Bits,
    row: &Row,
    instr: &Instr,
    n: u8,
    op: &Operand,
)
    requires number { n < 4 }
    requires sound { IsTrue (sound row.now) }
    requires room { length line.old.pieces.items + (1 + 14 * spec.weight_of op.now) ≤ PIECES }
    requires text { array_vec_len line.old.text + (18 + 37 * spec.weight_of op.now) ≤ TEXT_LEN }
    ensures laid { laid line.new ≡ grown (laid line.old) (spec.operand_pieces style bits row.now instr.now n op.now) }
    ensures len { length line.new.pieces.items ≤ length line.old.pieces.items + (1 + 14 * spec.weight_of op.now) }
    ensures size { array_vec_len line.new.text ≤ array_vec_len line.old.text + (18 + 37 * spec.weight_of op.now) }
{
    match op {
        Operand::Absent => {}
        Operand::Reg(r) => put_register(line, style, n, *r),
        Operand::Imm(x) => put_number(line, style, n, *x, immediate(bits, row, n, *x)),
        Operand::Near(x) => put_number(line, style, n, *x, near_target(bits, row, *x)),
        Operand::Far { selector, offset } => {
            put_far(
                line,
                style,
                row,
                n,
                u64::from(*selector),
                u64::from(*offset),
            )
        }
        Operand::Mem(m) => put_memory(line, style, bits, row, instr, n, m),
    }
}

/// Puts down operand `n` and the separator in front of it, if there is such an operand.
#[inline(always)]
#[tactic(auto, unfolding(crate::specs::Layout::part_pieces, crate::specs::Layout::separator_pieces, crate::specs::Layout::operand_pieces), using(crate::proofs::Grown::grown_rules))]
fn put_part(line: &mut Printed, style: Style, bits: Bits, row: &Row, instr: &Instr, n: u8)
    requires number { n < 4 }
    requires sound { IsTrue (sound row.now) }
    requires room { length line.old.pieces.items + (3 + 14 * text.long_at instr.now n) ≤ PIECES }
    requires text { array_vec_len line.old.text + (20 + 37 * text.long_at instr.now n) ≤ TEXT_LEN }
    ensures laid { laid line.new ≡ grown (laid line.old) (spec.part_pieces style bits row.now instr.now n) }
    ensures len { length line.new.pieces.items ≤ length line.old.pieces.items + (3 + 14 * text.long_at instr.now n) }
    ensures size { array_vec_len line.new.text ≤ array_vec_len line.old.text + (20 + 37 * text.long_at instr.now n) }
{
    let op = operand_at(instr, usize::from(n));
    match op {
        Operand::Absent => {}
        _ => {
            put_separator(line, n == 0, op);
            put_operand(line, style, bits, row, instr, n, op);
        }
    }
}

/// Puts down the pieces of an instruction of a row with this name, in a style with brackets.
#[tactic(auto, unfolding(crate::specs::Layout::bracket_pieces), using(crate::proofs::Grown::grown_rules))]
pub fn put_layout(
    line: &mut Printed,
    style: Style,
    bits: Bits,
    row: &Row,
    name: &[u8],
    instr: &Instr,
)
    requires sound { IsTrue (sound row.now) }
    requires name { length name.now ≤ 20 }
    requires operands { IsTrue (text.has_one_long instr.now) }
    requires empty { length line.old.pieces.items ≡ 0 }
    requires blank { array_vec_len line.old.text ≡ 0 }
    ensures { laid line.new ≡ grown (laid line.old) (spec.bracket_pieces style bits row.now name.now instr.now) }
{
    put_prefixes(line, bits, row, name, instr);
    put_name(line, bits, name, instr);
    put_part(line, style, bits, row, instr, 0);
    put_part(line, style, bits, row, instr, 1);
    put_part(line, style, bits, row, instr, 2);
    put_part(line, style, bits, row, instr, 3);
}
