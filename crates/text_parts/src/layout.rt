//! Operands, and the whole text of an instruction in the styles with brackets.

ghost use Rattle.std.specs.Prelude.{◌≡◌, ◌<◌, ◌≤◌, ◌+◌, ◌++◌, ◌==◌, length, IsTrue, codes};
ghost use Rattle.arrayvec.specs.ArrayVec.{array_vec_len};
ghost use Rattle.row_fit.specs.Sound.{sound};
ghost use Rattle.text_parts.specs.Numbers.{number};
ghost use Rattle.text_parts.specs.Addresses.{bracketed_address};
ghost use Rattle.text_parts.specs.PrefixWords.{text_address_size};
ghost use Rattle.row_meaning.specs.MemorySize.{row_size_bytes, memory_size};
ghost use Rattle.text_parts.specs.Frequent as frequent;
ghost use Rattle.text_parts.specs.Layout as spec;

use crate::addresses::append_bracketed;
use crate::numbers::append_number;
use crate::prefix_words::{append_prefix_words, name_text, text_address_size};
use crate::registers::append_frequent_register;
use crate::style::Style;
use crate::text::{TEXT_LEN, append, append_few};
use arrayvec::ArrayVec;
use instruction_parts::row_types::{OpKind, Place, Row, Size};
use row_fit::tail_fits::kind_at;
use row_meaning::row_memory_size;
use x86_values::{Bits, Instr, Mem, Operand};

/// Appends a size name and what follows it.
#[inline]
#[tactic(auto, unfolding(crate::specs::Layout::behind_size))]
fn append_name<const N: usize>(out: &mut ArrayVec<u8, N>, style: Style, name: &[u8])
    requires { array_vec_len out.old + length (name.now ++ spec.behind_size style name.now) ≤ N }
    ensures { out.new.items ≡ out.old.items ++ (name.now ++ spec.behind_size style name.now) }
{
    append_few(out, name);
    match name {
        [] => {}
        _ => match style {
            Style::Masm => append_few(out, b" ptr "),
            _ => append_few(out, b" "),
        },
    }
}

/// Appends the word of a size in bytes.
#[inline]
#[tactic(auto, unfolding(crate::specs::Layout::size_name))]
fn append_size_name<const N: usize>(out: &mut ArrayVec<u8, N>, style: Style, n: u8)
    requires { array_vec_len out.old + length (spec.size_name n ++ spec.behind_size style (spec.size_name n)) ≤ N }
    ensures { out.new.items ≡ out.old.items ++ (spec.size_name n ++ spec.behind_size style (spec.size_name n)) }
{
    match n {
        1 => append_name(out, style, b"byte"),
        2 => append_name(out, style, b"word"),
        4 => append_name(out, style, b"dword"),
        8 => append_name(out, style, b"qword"),
        10 => append_name(out, style, b"tbyte"),
        16 => append_name(out, style, b"xmmword"),
        32 => append_name(out, style, b"ymmword"),
        _ => append_name(out, style, b""),
    }
}

/// Appends the word of a far pointer in memory.
#[inline]
#[tactic(auto, unfolding(crate::specs::Layout::far_name))]
fn append_far_name<const N: usize>(out: &mut ArrayVec<u8, N>, style: Style, size: Size)
    requires { array_vec_len out.old + length (spec.far_name size ++ spec.behind_size style (spec.far_name size)) ≤ N }
    ensures { out.new.items ≡ out.old.items ++ (spec.far_name size ++ spec.behind_size style (spec.far_name size)) }
{
    match size {
        Size::O16 => append_name(out, style, b"far16"),
        Size::O64 => append_name(out, style, b"far64"),
        _ => append_name(out, style, b"far32"),
    }
}

/// Returns whether a kind is a far pointer in memory.
#[inline]
#[tactic(auto, unfolding(crate::specs::Layout::is_far_pointer))]
pub fn is_far_pointer(kind: OpKind) -> bool
    ensures { result ≡ spec.is_far_pointer kind }
{
    match kind {
        OpKind::Mf => true,
        _ => false,
    }
}

/// Whether a kind is of no operand.
#[inline(always)]
fn is_absent(kind: OpKind) -> bool
    ensures { result ≡ frequent.is_absent_kind kind }
{
    match kind {
        OpKind::Absent => true,
        _ => false,
    }
}

/// Whether a row limits r/m to registers.
#[inline(always)]
fn is_register_place(place: Place) -> bool
    ensures { result ≡ frequent.is_register_place place }
{
    match place {
        Place::Register => true,
        _ => false,
    }
}

/// Whether a row has at most two operands, and may have memory in r/m.
#[inline(always)]
#[tactic(auto, unfolding(crate::specs::Frequent::has_pair_in_memory))]
fn has_pair_in_memory(row: &Row) -> bool
    ensures { result ≡ frequent.has_pair_in_memory row.now }
{
    is_absent(kind_at(row, 2)) && is_absent(kind_at(row, 3)) && !is_register_place(row.place)
}

/// The operand size that a row has in bytes.
#[inline(always)]
#[tactic(auto, unfolding(row_meaning::specs::MemorySize::row_size_bytes))]
fn row_bytes(size: Size) -> u8
    ensures { result ≡ row_size_bytes size }
{
    match size {
        Size::O16 => 2,
        Size::O64 => 8,
        _ => 4,
    }
}

/// Returns the bytes of the memory operand of a row with two operands, the most frequent ones: one beside a general register, which has the operand
/// size, or none in LEA. Returns None for all other kinds.
#[inline(always)]
fn paired_bytes(size: Size, first: OpKind, second: OpKind) -> Option<u8>
    ensures { result ≡ frequent.paired_bytes size first second }
{
    match (first, second) {
        (OpKind::Ev, OpKind::Gv) => Some(row_bytes(size)),
        (OpKind::Gv, OpKind::Ev) => Some(row_bytes(size)),
        (OpKind::Gv, OpKind::M) => Some(0),
        _ => None,
    }
}

/// Returns the bytes of the memory operand of a row of any kinds.
#[inline(never)]
fn any_memory_bytes(row: &Row) -> u8
    requires { IsTrue (sound row.now) }
    ensures { result ≡ memory_size row.now }
{
    row_memory_size(row)
}

/// Returns the bytes of a row's memory operand, or 0 if there is none.
#[inline(always)]
fn memory_bytes(row: &Row) -> u8
    requires { IsTrue (sound row.now) }
    ensures { result ≡ memory_size row.now }
{
    if has_pair_in_memory(row) {
        match paired_bytes(row.size, kind_at(row, 0), kind_at(row, 1)) {
            Some(n) => n,
            None => any_memory_bytes(row),
        }
    } else {
        any_memory_bytes(row)
    }
}

/// Appends the size of what operand `n` of a row has in memory.
#[tactic(auto, unfolding(crate::specs::Layout::size_word, crate::specs::Layout::operand_size_name))]
fn append_size_word<const N: usize>(out: &mut ArrayVec<u8, N>, style: Style, row: &Row, n: usize)
    requires number { n < 4 }
    requires sound { IsTrue (sound row.now) }
    requires room { array_vec_len out.old + length (spec.size_word style row.now n) ≤ N }
    ensures { out.new.items ≡ out.old.items ++ spec.size_word style row.now n }
{
    if is_far_pointer(kind_at(row, n)) {
        append_far_name(out, style, row.size);
    } else {
        append_size_name(out, style, memory_bytes(row));
    }
}

/// Returns operand `n` in the order of the text.
#[inline]
pub fn operand_at(instr: &Instr, n: usize) -> &Operand
    requires { n < 4 }
    ensures { result.now ≡ spec.nth_operand instr.now n }
{
    &instr.ops[n]
}

/// Appends the separator before an operand.
#[inline]
#[tactic(auto, unfolding(crate::specs::Layout::separator))]
pub fn append_separator<const N: usize>(out: &mut ArrayVec<u8, N>, first: bool, op: &Operand)
    requires { array_vec_len out.old + length (spec.separator first op.now) ≤ N }
    ensures { out.new.items ≡ out.old.items ++ spec.separator first op.now }
{
    match op {
        Operand::Absent => {}
        _ => if first {
            append_few(out, b" ")
        } else {
            append_few(out, b", ")
        },
    }
}

/// Appends a memory operand with its size in front of it.
#[inline(never)]
fn append_memory<const N: usize>(
    out: &mut ArrayVec<u8, N>,
    style: Style,
    bits: Bits,
    row: &Row,
    instr: &Instr,
    n: usize,
    m: &Mem,
)
    requires number { n < 4 }
    requires sound { IsTrue (sound row.now) }
    requires room { array_vec_len out.old
        + length (spec.size_word style row.now n ++ bracketed_address style instr.now.seg (text_address_size bits instr.now) m.now) ≤ N }
    ensures { out.new.items ≡ out.old.items
        ++ (spec.size_word style row.now n ++ bracketed_address style instr.now.seg (text_address_size bits instr.now) m.now) }
{
    append_size_word(out, style, row, n);
    append_bracketed(out, style, instr.seg, text_address_size(bits, instr), m);
}

/// Appends a far pointer: its selector, a colon and its offset.
#[inline(never)]
fn append_far<const N: usize>(out: &mut ArrayVec<u8, N>, style: Style, selector: u16, offset: u32)
    requires { array_vec_len out.old + length (number style selector ++ (codes ":" ++ number style offset)) ≤ N }
    ensures { out.new.items ≡ out.old.items ++ (number style selector ++ (codes ":" ++ number style offset)) }
{
    append_number(out, style, u64::from(selector));
    append_few(out, b":");
    append_number(out, style, u64::from(offset));
}

/// Appends operand `n` and the separator before it, in a style with brackets. Absent operands are never passed.
#[inline(always)]
#[tactic(auto, unfolding(crate::specs::Layout::operand_part, crate::specs::Layout::separator, crate::specs::Layout::bracket_operand))]
fn append_operand_part<const N: usize>(
    out: &mut ArrayVec<u8, N>,
    style: Style,
    bits: Bits,
    row: &Row,
    instr: &Instr,
    n: usize,
)
    requires number { n < 4 }
    requires sound { IsTrue (sound row.now) }
    requires room { array_vec_len out.old + length (spec.operand_part style bits row.now instr.now n) ≤ N }
    ensures { out.new.items ≡ out.old.items ++ spec.operand_part style bits row.now instr.now n }
{
    let op = operand_at(instr, n);
    match op {
        Operand::Absent => return,
        _ => append_separator(out, n == 0, op),
    }
    match op {
        Operand::Absent => {}
        Operand::Reg(r) => append_frequent_register(out, style, *r),
        Operand::Imm(x) => append_number(out, style, *x),
        Operand::Near(x) => append_number(out, style, *x),
        Operand::Far { selector, offset } => append_far(out, style, *selector, *offset),
        Operand::Mem(m) => append_memory(out, style, bits, row, instr, n, m),
    }
}

/// Appends a name. Most have two to five bytes, which are moved without a call.
#[inline(always)]
fn append_mnemonic<const N: usize>(out: &mut ArrayVec<u8, N>, name: &[u8])
    requires { array_vec_len out.old + length name.now ≤ N }
    ensures { out.new.items ≡ out.old.items ++ name.now }
{
    if name.len() == 3 {
        return append_few(out, &[name[0], name[1], name[2]]);
    }
    match name {
        [a, b] => append_few(out, &[*a, *b]),
        [a, b, c, d] => append_few(out, &[*a, *b, *c, *d]),
        [a, b, c, d, e] => append_few(out, &[*a, *b, *c, *d, *e]),
        _ => append(out, name),
    }
}

/// Appends the text of an instruction of a row with this name. `out` must have enough space left.
#[tactic(auto, unfolding(crate::specs::Layout::bracket_layout))]
fn append_short<const N: usize>(
    out: &mut ArrayVec<u8, N>,
    style: Style,
    bits: Bits,
    row: &Row,
    name: &[u8],
    instr: &Instr,
)
    requires sound { IsTrue (sound row.now) }
    requires room { array_vec_len out.old + length (spec.bracket_layout style bits row.now name.now instr.now) ≤ N }
    ensures { out.new.items ≡ out.old.items ++ spec.bracket_layout style bits row.now name.now instr.now }
{
    append_prefix_words(out, bits, row, name, instr);
    append_mnemonic(out, name_text(bits, name, instr));
    append_operand_part(out, style, bits, row, instr, 0);
    append_operand_part(out, style, bits, row, instr, 1);
    append_operand_part(out, style, bits, row, instr, 2);
    append_operand_part(out, style, bits, row, instr, 3);
}

/// Appends the text of an instruction of a row with this name, in a style with brackets.
///
/// At most one operand may be memory or a far pointer, and the name has at most 20 bytes. Then the text has at most `TEXT_LEN` bytes.
#[inline]
#[tactic(auto, using(crate::proofs::LayoutBounds::layout_bounds))]
pub fn append_bracket_layout<const N: usize>(
    out: &mut ArrayVec<u8, N>,
    style: Style,
    bits: Bits,
    row: &Row,
    name: &[u8],
    instr: &Instr,
)
    requires sound { IsTrue (sound row.now) }
    requires name { length name.now ≤ 20 }
    requires operands { IsTrue (spec.has_one_long instr.now) }
    requires room { array_vec_len out.old + TEXT_LEN ≤ N }
    ensures items { out.new.items ≡ out.old.items ++ spec.bracket_layout style bits row.now name.now instr.now }
    ensures len { array_vec_len out.new ≤ array_vec_len out.old + TEXT_LEN }
{
    append_short(out, style, bits, row, name, instr);
}
