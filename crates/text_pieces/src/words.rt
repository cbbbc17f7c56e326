//! The pieces in front of an instruction's operands: the words of its prefixes, and its name.

ghost use Rattle.std.specs.Prelude.{◌≡◌, ◌≤◌, ◌+◌, ◌++◌, length, None};
ghost use Rattle.std.specs.List.{list_any};
ghost use Rattle.arrayvec.specs.ArrayVec.{array_vec_len};
ghost use Rattle.text_parts.specs.PrefixWords as text;
ghost use Rattle.text_pieces.specs.declared.piece.Kind.TheVariants as kind;
ghost use Rattle.text_pieces.specs.Lines.{laid, put, grown};
ghost use Rattle.text_pieces.specs.Words as spec;

use crate::line::{close, put_space, put_text};
use crate::piece::{Kind, PIECES, Printed};
use instruction_parts::row_types::{Row, Size};
use instruction_parts::sizes::operand_size;
use text_parts::prefix_words::{has_memory, name_text, size_digits};
use text_parts::registers::segment_name;
use text_parts::text::{TEXT_LEN, append, append_few};
use x86_values::{Bits, Instr, Operand, Register, Rep, same_bits};

/// Puts down a prefix and the space behind it.
#[inline]
fn put_word(line: &mut Printed, word: &[u8])
    requires room { length line.old.pieces.items + 2 ≤ PIECES }
    requires text { array_vec_len line.old.text + (length word.now + 1) ≤ TEXT_LEN }
    ensures laid { laid line.new ≡ grown (laid line.old) (spec.word_pieces word.now) }
    ensures len { length line.new.pieces.items ≤ length line.old.pieces.items + 2 }
    ensures size { array_vec_len line.new.text ≤ array_vec_len line.old.text + (length word.now + 1) }
{
    put_text(line, word, None, Kind::Prefix);
    put_space(line, None);
}

/// Puts down LOCK.
#[inline]
#[tactic(auto, unfolding(crate::specs::Words::lock_pieces))]
fn put_lock(line: &mut Printed, lock: bool)
    requires room { length line.old.pieces.items + 2 ≤ PIECES }
    requires text { array_vec_len line.old.text + 5 ≤ TEXT_LEN }
    ensures laid { laid line.new ≡ grown (laid line.old) (spec.lock_pieces lock) }
    ensures len { length line.new.pieces.items ≤ length line.old.pieces.items + 2 }
    ensures size { array_vec_len line.new.text ≤ array_vec_len line.old.text + 5 }
{
    if lock {
        put_word(line, b"lock");
    }
}

/// Puts down a repeat prefix.
#[inline]
#[tactic(auto, unfolding(crate::specs::Words::repeat_pieces))]
fn put_repeat(line: &mut Printed, rep: Rep)
    requires room { length line.old.pieces.items + 2 ≤ PIECES }
    requires text { array_vec_len line.old.text + 6 ≤ TEXT_LEN }
    ensures laid { laid line.new ≡ grown (laid line.old) (spec.repeat_pieces rep) }
    ensures len { length line.new.pieces.items ≤ length line.old.pieces.items + 2 }
    ensures size { array_vec_len line.new.text ≤ array_vec_len line.old.text + 6 }
{
    match rep {
        Rep::None => {}
        Rep::F2 => put_word(line, b"repne"),
        Rep::F3 => put_word(line, b"rep"),
    }
}

/// Puts down the segment, if no operand is memory.
#[tactic(auto, unfolding(crate::specs::Words::segment_pieces), using(crate::proofs::Short::segment_short))]
fn put_segment(line: &mut Printed, instr: &Instr)
    requires room { length line.old.pieces.items + 2 ≤ PIECES }
    requires text { array_vec_len line.old.text + 3 ≤ TEXT_LEN }
    ensures laid { laid line.new ≡ grown (laid line.old) (spec.segment_pieces instr.now) }
    ensures len { length line.new.pieces.items ≤ length line.old.pieces.items + 2 }
    ensures size { array_vec_len line.new.text ≤ array_vec_len line.old.text + 3 }
{
    match instr.seg {
        None => {}
        Some(s) => {
            if !has_memory(instr) {
                put_word(line, segment_name(s));
            }
        }
    }
}

/// Puts down a letter with a size.
#[inline]
#[tactic(auto, using(crate::proofs::Short::digits_short))]
fn put_size(line: &mut Printed, letter: &[u8], size: Bits)
    requires short { length letter.now ≤ 1 }
    requires room { length line.old.pieces.items + 1 ≤ PIECES }
    requires text { array_vec_len line.old.text + 3 ≤ TEXT_LEN }
    ensures laid { laid line.new ≡ put (letter.now ++ text.size_digits size) None kind.Prefix (laid line.old) }
    ensures len { length line.new.pieces.items ≤ length line.old.pieces.items + 1 }
    ensures size { array_vec_len line.new.text ≤ array_vec_len line.old.text + 3 }
{
    let start = line.text.len();
    append_few(&mut line.text, letter);
    append_few(&mut line.text, size_digits(size));
    close(line, start, None, Kind::Prefix);
}

/// Puts down a letter with a size, as `a32`, and the space behind it.
#[inline(never)]
#[tactic(auto, unfolding(crate::specs::Words::sized_pieces))]
fn put_sized(line: &mut Printed, letter: &[u8], size: Bits)
    requires short { length letter.now ≤ 1 }
    requires room { length line.old.pieces.items + 2 ≤ PIECES }
    requires text { array_vec_len line.old.text + 4 ≤ TEXT_LEN }
    ensures laid { laid line.new ≡ grown (laid line.old) (spec.sized_pieces letter.now size) }
    ensures len { length line.new.pieces.items ≤ length line.old.pieces.items + 2 }
    ensures size { array_vec_len line.new.text ≤ array_vec_len line.old.text + 4 }
{
    put_size(line, letter, size);
    put_space(line, None);
}

/// Whether a register shows the size of an address.
#[inline]
#[tactic(auto, unfolding(text_parts::specs::PrefixWords::shows_size))]
fn shows_size(r: Option<Register>) -> bool
    ensures { result ≡ text.shows_size r }
{
    match r {
        Some(Register::R16(_)) => true,
        Some(Register::R32(_)) => true,
        Some(Register::R64(_)) => true,
        Some(Register::Eip) => true,
        Some(Register::Rip) => true,
        _ => false,
    }
}

/// Whether an operand is memory that shows its address size.
#[inline]
#[tactic(auto, unfolding(text_parts::specs::PrefixWords::shows_address_size))]
fn shows_address_size(op: Operand) -> bool
    ensures { result ≡ text.shows_address_size op }
{
    match op {
        Operand::Mem(m) => shows_size(m.base) || shows_size(m.index),
        _ => false,
    }
}

/// Whether some operand shows the address size.
fn operands_show(instr: &Instr) -> bool
    ensures { result ≡ list_any text.shows_address_size instr.now.ops }
{
    instr.ops.iter().any(|op| shows_address_size(*op))
}

/// Whether an address size has a word: it is not the mode's, and neither the name of the jump on the counter nor an operand shows it.
#[tactic(auto, unfolding(text_parts::specs::PrefixWords::needs_address_word, text_parts::specs::PrefixWords::differs, text_parts::specs::PrefixWords::is_counter_jump))]
fn is_worded(bits: Bits, size: Bits, name: &[u8], instr: &Instr) -> bool
    ensures { result ≡ text.needs_address_word bits size name.now instr.now }
{
    !same_bits(size, bits) && name != b"jrcxz".as_slice() && !operands_show(instr)
}

/// Puts down the address size, if it is not the mode's and nothing else shows it.
#[tactic(auto, unfolding(crate::specs::Words::address_pieces))]
fn put_address_size(line: &mut Printed, bits: Bits, name: &[u8], instr: &Instr)
    requires room { length line.old.pieces.items + 2 ≤ PIECES }
    requires text { array_vec_len line.old.text + 4 ≤ TEXT_LEN }
    ensures laid { laid line.new ≡ grown (laid line.old) (spec.address_pieces bits name.now instr.now) }
    ensures len { length line.new.pieces.items ≤ length line.old.pieces.items + 2 }
    ensures size { array_vec_len line.new.text ≤ array_vec_len line.old.text + 4 }
{
    match instr.asize {
        None => {}
        Some(size) => {
            if is_worded(bits, size, name, instr) {
                put_sized(line, b"a", size);
            }
        }
    }
}

/// A size, unless it is the usual one.
#[inline]
#[tactic(auto, unfolding(text_parts::specs::PrefixWords::differs))]
fn unless_usual(size: Bits, usual: Bits) -> Option<Bits>
    ensures { result ≡ spec.unless_usual size usual }
{
    if same_bits(size, usual) {
        None
    } else {
        Some(size)
    }
}

/// The operand size that a word names: that of the row, if the row is printed with it and it is not the usual one. By W the usual one is 32.
#[tactic(auto, unfolding(crate::specs::Words::worded_size, text_parts::specs::PrefixWords::named_size, text_parts::specs::PrefixWords::usual_size, text_parts::specs::PrefixWords::is_w_size))]
fn worded_size(bits: Bits, row: &Row) -> Option<Bits>
    ensures { result ≡ spec.worded_size bits row.now }
{
    if row.marks.0 & 4 == 4 {
        match row.size {
            Size::None => None,
            Size::O16 => unless_usual(Bits::B16, operand_size(bits, row, false, false)),
            Size::O32 => unless_usual(Bits::B32, operand_size(bits, row, false, false)),
            Size::O32or64 => unless_usual(Bits::B32, operand_size(bits, row, false, false)),
            Size::O64 => unless_usual(Bits::B64, operand_size(bits, row, false, false)),
            Size::W0 => unless_usual(Bits::B32, Bits::B32),
            Size::W1 => unless_usual(Bits::B64, Bits::B32),
        }
    } else {
        None
    }
}

/// Puts down the operand size, if it has a word.
#[tactic(auto, unfolding(crate::specs::Words::operand_size_pieces))]
fn put_operand_size(line: &mut Printed, bits: Bits, row: &Row)
    requires room { length line.old.pieces.items + 2 ≤ PIECES }
    requires text { array_vec_len line.old.text + 4 ≤ TEXT_LEN }
    ensures laid { laid line.new ≡ grown (laid line.old) (spec.operand_size_pieces bits row.now) }
    ensures len { length line.new.pieces.items ≤ length line.old.pieces.items + 2 }
    ensures size { array_vec_len line.new.text ≤ array_vec_len line.old.text + 4 }
{
    match worded_size(bits, row) {
        None => {}
        Some(size) => put_sized(line, b"o", size),
    }
}

/// Puts down the words of the prefixes, in their order.
#[tactic(auto, unfolding(crate::specs::Words::prefix_pieces), using(crate::proofs::Grown::grown_rules))]
pub fn put_prefixes(line: &mut Printed, bits: Bits, row: &Row, name: &[u8], instr: &Instr)
    requires room { length line.old.pieces.items + 10 ≤ PIECES }
    requires text { array_vec_len line.old.text + 22 ≤ TEXT_LEN }
    ensures laid { laid line.new ≡ grown (laid line.old) (spec.prefix_pieces bits row.now name.now instr.now) }
    ensures len { length line.new.pieces.items ≤ length line.old.pieces.items + 10 }
    ensures size { array_vec_len line.new.text ≤ array_vec_len line.old.text + 22 }
{
    put_lock(line, instr.lock);
    put_repeat(line, instr.rep);
    put_segment(line, instr);
    put_address_size(line, bits, name, instr);
    put_operand_size(line, bits, row);
}

/// Puts down the name of an instruction whose row has this name.
#[inline]
#[tactic(auto, unfolding(crate::specs::Lines::laid, crate::specs::Lines::put), using(crate::proofs::Short::name_short))]
pub fn put_name(line: &mut Printed, bits: Bits, name: &[u8], instr: &Instr)
    requires short { length name.now ≤ 20 }
    requires room { length line.old.pieces.items + 1 ≤ PIECES }
    requires text { array_vec_len line.old.text + 20 ≤ TEXT_LEN }
    ensures laid { laid line.new ≡ grown (laid line.old) (spec.name_pieces bits name.now instr.now) }
    ensures len { length line.new.pieces.items ≤ length line.old.pieces.items + 1 }
    ensures size { array_vec_len line.new.text ≤ array_vec_len line.old.text + 20 }
{
    let start = line.text.len();
    append(&mut line.text, name_text(bits, name, instr));
    close(line, start, None, Kind::Mnemonic);
}
