//! The pieces of a whole text in AT&T.

ghost use Rattle.std.specs.Prelude.{◌≡◌, ◌<◌, ◌≤◌, ◌+◌, ◌*◌, length, IsTrue, Some, None};
ghost use Rattle.arrayvec.specs.ArrayVec.{array_vec_len};
ghost use Rattle.row_fit.specs.Sound.{sound};
ghost use Rattle.text_parts.specs.Layout as text;
ghost use Rattle.att_text.specs.Names as names;
ghost use Rattle.att_text.specs.Operands as operands;
ghost use Rattle.text_pieces.specs.declared.piece.Kind.TheVariants as kind;
ghost use Rattle.text_pieces.specs.Lines.{laid, put, grown};
ghost use Rattle.text_pieces.specs.Layout.{weight_of};
ghost use Rattle.text_pieces.specs.AttLayout as spec;

use crate::addresses::{put_base, put_lone, put_override, put_register, put_scale, put_signed};
use crate::layout::put_separator;
use crate::line::{close, put_mark, put_space};
use crate::numbers::{address, far_offset, far_selector, immediate, near_target, put_number};
use crate::piece::{Kind, PIECES, Printed};
use crate::words::put_prefixes;
use att_text::names::append_name;
use att_text::operands::{append_star, is_last};
use instruction_parts::row_types::Row;
use text_parts::addresses::{is_absolute, is_instruction_pointer};
use text_parts::layout::operand_at;
use text_parts::prefix_words::text_address_size;
use text_parts::style::Style;
use text_parts::text::TEXT_LEN;
use x86_values::{Bits, Instr, Mem, Operand, Segment};

/// Puts down an index with its scale, if there is one.
#[tactic(auto, unfolding(crate::specs::AttLayout::att_index_pieces), using(crate::proofs::Grown::grown_rules))]
fn put_index(line: &mut Printed, asize: Bits, n: u8, m: &Mem)
    requires room { length line.old.pieces.items + 4 ≤ PIECES }
    requires text { array_vec_len line.old.text + 11 ≤ TEXT_LEN }
    ensures laid { laid line.new ≡ grown (laid line.old) (spec.att_index_pieces asize n m.now) }
    ensures len { length line.new.pieces.items ≤ length line.old.pieces.items + 4 }
    ensures size { array_vec_len line.new.text ≤ array_vec_len line.old.text + 11 }
{
    match m.index {
        None => {}
        Some(r) => {
            put_mark(line, b',', Some(n), Kind::Punctuation);
            put_register(line, Style::Att, n, r);
            put_scale(line, Style::Att, asize, n, m);
        }
    }
}

/// Puts down base and index in parentheses.
#[tactic(auto, unfolding(crate::specs::AttLayout::att_register_pieces), using(crate::proofs::Grown::grown_rules))]
fn put_registers(line: &mut Printed, asize: Bits, n: u8, m: &Mem)
    requires room { length line.old.pieces.items + 7 ≤ PIECES }
    requires text { array_vec_len line.old.text + 20 ≤ TEXT_LEN }
    ensures laid { laid line.new ≡ grown (laid line.old) (spec.att_register_pieces asize n m.now) }
    ensures len { length line.new.pieces.items ≤ length line.old.pieces.items + 7 }
    ensures size { array_vec_len line.new.text ≤ array_vec_len line.old.text + 20 }
{
    put_mark(line, b'(', Some(n), Kind::Punctuation);
    put_base(line, Style::Att, n, m.base);
    put_index(line, asize, n, m);
    put_mark(line, b')', Some(n), Kind::Punctuation);
}

/// Puts down a target in front of the instruction pointer.
#[tactic(auto, unfolding(crate::specs::AttLayout::att_relative_pieces), using(crate::proofs::Grown::grown_rules))]
fn put_relative(line: &mut Printed, asize: Bits, n: u8, m: &Mem)
    requires room { length line.old.pieces.items + 4 ≤ PIECES }
    requires text { array_vec_len line.old.text + 27 ≤ TEXT_LEN }
    ensures laid { laid line.new ≡ grown (laid line.old) (spec.att_relative_pieces asize n m.now) }
    ensures len { length line.new.pieces.items ≤ length line.old.pieces.items + 4 }
    ensures size { array_vec_len line.new.text ≤ array_vec_len line.old.text + 27 }
{
    put_number(line, Style::Att, n, m.disp, address(asize, m));
    put_mark(line, b'(', Some(n), Kind::Punctuation);
    put_base(line, Style::Att, n, m.base);
    put_mark(line, b')', Some(n), Kind::Punctuation);
}

/// Puts down an address.
#[tactic(auto, unfolding(crate::specs::AttLayout::att_address_pieces), using(crate::proofs::Grown::grown_rules))]
fn put_address(line: &mut Printed, asize: Bits, n: u8, m: &Mem)
    requires room { length line.old.pieces.items + 9 ≤ PIECES }
    requires text { array_vec_len line.old.text + 39 ≤ TEXT_LEN }
    ensures laid { laid line.new ≡ grown (laid line.old) (spec.att_address_pieces asize n m.now) }
    ensures len { length line.new.pieces.items ≤ length line.old.pieces.items + 9 }
    ensures size { array_vec_len line.new.text ≤ array_vec_len line.old.text + 39 }
{
    if is_instruction_pointer(m.base) {
        put_relative(line, asize, n, m);
    } else if is_absolute(m) {
        put_lone(line, Style::Att, asize, n, m);
    } else {
        put_signed(line, Style::Att, asize, n, m);
        put_registers(line, asize, n, m);
    }
}

/// Puts down an address with its segment.
#[inline(never)]
#[tactic(auto, unfolding(crate::specs::AttLayout::att_memory_pieces), using(crate::proofs::Grown::grown_rules))]
fn put_memory(line: &mut Printed, segment: Option<Segment>, asize: Bits, n: u8, m: &Mem)
    requires room { length line.old.pieces.items + 11 ≤ PIECES }
    requires text { array_vec_len line.old.text + 43 ≤ TEXT_LEN }
    ensures laid { laid line.new ≡ grown (laid line.old) (spec.att_memory_pieces segment asize n m.now) }
    ensures len { length line.new.pieces.items ≤ length line.old.pieces.items + 11 }
    ensures size { array_vec_len line.new.text ≤ array_vec_len line.old.text + 43 }
{
    put_override(line, Style::Att, n, segment);
    put_address(line, asize, n, m);
}

/// Puts down a far pointer: its selector and its offset, as constants.
#[inline(never)]
#[tactic(auto, unfolding(crate::specs::AttLayout::att_far_pieces))]
fn put_far(line: &mut Printed, row: &Row, n: u8, selector: u64, offset: u64)
    requires room { length line.old.pieces.items + 6 ≤ PIECES }
    requires text { array_vec_len line.old.text + 40 ≤ TEXT_LEN }
    ensures laid { laid line.new ≡ grown (laid line.old) (spec.att_far_pieces row.now n selector offset) }
    ensures len { length line.new.pieces.items ≤ length line.old.pieces.items + 6 }
    ensures size { array_vec_len line.new.text ≤ array_vec_len line.old.text + 40 }
{
    put_mark(line, b'$', Some(n), Kind::Operator);
    put_number(line, Style::Att, n, selector, far_selector(selector));
    put_mark(line, b',', Some(n), Kind::Punctuation);
    put_space(line, Some(n));
    put_mark(line, b'$', Some(n), Kind::Operator);
    put_number(line, Style::Att, n, offset, far_offset(row, offset));
}

/// Puts down an operand.
#[inline(always)]
#[tactic(auto, unfolding(crate::specs::AttLayout::att_operand_pieces, text_parts::specs::Layout::is_long))]
fn put_operand(line: &mut Printed, bits: Bits, row: &Row, instr: &Instr, n: u8, op: &Operand)
    requires number { n < 4 }
    requires room { length line.old.pieces.items + (2 + 9 * weight_of op.now) ≤ PIECES }
    requires text { array_vec_len line.old.text + (19 + 24 * weight_of op.now) ≤ TEXT_LEN }
    ensures laid { laid line.new ≡ grown (laid line.old) (spec.att_operand_pieces bits row.now instr.now n op.now) }
    ensures len { length line.new.pieces.items ≤ length line.old.pieces.items + (2 + 9 * weight_of op.now) }
    ensures size { array_vec_len line.new.text ≤ array_vec_len line.old.text + (19 + 24 * weight_of op.now) }
{
    match op {
        Operand::Absent => {}
        Operand::Reg(r) => put_register(line, Style::Att, n, *r),
        Operand::Imm(x) => {
            put_mark(line, b'$', Some(n), Kind::Operator);
            put_number(line, Style::Att, n, *x, immediate(bits, row, n, *x));
        }
        Operand::Near(x) => put_number(line, Style::Att, n, *x, near_target(bits, row, *x)),
        Operand::Far { selector, offset } => {
            put_far(line, row, n, u64::from(*selector), u64::from(*offset))
        }
        Operand::Mem(m) => put_memory(line, instr.seg, text_address_size(bits, instr), n, m),
    }
}

/// Puts down the star in front of operand `n`, if it has one.
#[inline(always)]
#[tactic(auto, unfolding(crate::specs::Lines::laid, crate::specs::Lines::put, att_text::specs::Operands::star), using(crate::proofs::AttShort::star_short))]
fn put_star(line: &mut Printed, row: &Row, name: &[u8], n: u8)
    requires room { length line.old.pieces.items + 1 ≤ PIECES }
    requires text { array_vec_len line.old.text + 1 ≤ TEXT_LEN }
    ensures laid { laid line.new ≡ put (operands.star row.now name.now n) (Some n) kind.Operator (laid line.old) }
    ensures len { length line.new.pieces.items ≤ length line.old.pieces.items + 1 }
    ensures size { array_vec_len line.new.text ≤ array_vec_len line.old.text + 1 }
{
    let start = line.text.len();
    if n == 0 {
        append_star(&mut line.text, row, name);
    }
    close(line, start, Some(n), Kind::Operator);
}

/// Puts down operand `n` and the separator in front of it.
#[inline(never)]
#[tactic(auto, unfolding(crate::specs::AttLayout::att_part_pieces), using(crate::proofs::Grown::grown_rules))]
fn put_part(line: &mut Printed, bits: Bits, row: &Row, name: &[u8], instr: &Instr, n: u8)
    requires number { n < 4 }
    requires room { length line.old.pieces.items + (5 + 9 * text.long_at instr.now n) ≤ PIECES }
    requires text { array_vec_len line.old.text + (22 + 24 * text.long_at instr.now n) ≤ TEXT_LEN }
    ensures laid { laid line.new ≡ grown (laid line.old) (spec.att_part_pieces bits row.now name.now instr.now n) }
    ensures len { length line.new.pieces.items ≤ length line.old.pieces.items + (5 + 9 * text.long_at instr.now n) }
    ensures size { array_vec_len line.new.text ≤ array_vec_len line.old.text + (22 + 24 * text.long_at instr.now n) }
{
    let op = operand_at(instr, usize::from(n));
    put_separator(line, is_last(instr, usize::from(n)), op);
    put_star(line, row, name, n);
    put_operand(line, bits, row, instr, n, op);
}

/// Puts down the name with its letters.
#[tactic(auto, unfolding(crate::specs::Lines::laid, crate::specs::Lines::put), using(crate::proofs::AttShort::att_name_short))]
fn put_name(line: &mut Printed, bits: Bits, row: &Row, name: &[u8], instr: &Instr)
    requires sound { IsTrue (sound row.now) }
    requires name { length name.now ≤ 20 }
    requires room { length line.old.pieces.items + 1 ≤ PIECES }
    requires text { array_vec_len line.old.text + 21 ≤ TEXT_LEN }
    ensures laid { laid line.new ≡ put (names.att_name bits row.now name.now instr.now) None kind.Mnemonic (laid line.old) }
    ensures len { length line.new.pieces.items ≤ length line.old.pieces.items + 1 }
    ensures size { array_vec_len line.new.text ≤ array_vec_len line.old.text + 21 }
{
    let start = line.text.len();
    append_name(&mut line.text, bits, row, name, instr);
    close(line, start, None, Kind::Mnemonic);
}

/// Puts down the pieces of an instruction of a row with this name, in AT&T.
#[tactic(auto, unfolding(crate::specs::AttLayout::att_pieces), using(crate::proofs::Grown::grown_rules))]
pub fn put_att(line: &mut Printed, bits: Bits, row: &Row, name: &[u8], instr: &Instr)
    requires sound { IsTrue (sound row.now) }
    requires name { length name.now ≤ 20 }
    requires operands { IsTrue (text.has_one_long instr.now) }
    requires empty { length line.old.pieces.items ≡ 0 }
    requires blank { array_vec_len line.old.text ≡ 0 }
    ensures { laid line.new ≡ grown (laid line.old) (spec.att_pieces bits row.now name.now instr.now) }
{
    put_prefixes(line, bits, row, name, instr);
    put_name(line, bits, row, name, instr);
    put_part(line, bits, row, name, instr, 3);
    put_part(line, bits, row, name, instr, 2);
    put_part(line, bits, row, name, instr, 1);
    put_part(line, bits, row, name, instr, 0);
}
