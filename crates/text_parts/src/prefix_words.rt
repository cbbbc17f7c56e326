//! The words in front of an instruction's operands: its prefixes and its name.

ghost use Rattle.std.specs.Prelude.{◌≡◌, ◌≤◌, ◌+◌, ◌&&◌, not, [], ◌++◌, length};
ghost use Rattle.std.specs.List.{list_any};
ghost use Rattle.arrayvec.specs.ArrayVec.{array_vec_len};
ghost use Rattle.text_parts.specs.Frequent as frequent;
ghost use Rattle.text_parts.specs.PrefixWords as spec;

use crate::registers::segment_name;
use crate::text::append_few;
use arrayvec::ArrayVec;
use instruction_parts::counting::is_64;
use instruction_parts::row_types::{Row, Size};
use instruction_parts::sizes::{has_bang, has_caret, operand_size};
use x86_values::{Bits, Instr, Operand, Register, Rep, same_bits};

/// Appends the word of LOCK.
#[inline]
#[tactic(auto, unfolding(crate::specs::PrefixWords::lock_word))]
fn append_lock_word<const N: usize>(out: &mut ArrayVec<u8, N>, lock: bool)
    requires { array_vec_len out.old + length (spec.lock_word lock) ≤ N }
    ensures { out.new.items ≡ out.old.items ++ spec.lock_word lock }
{
    if lock {
        append_few(out, b"lock ");
    }
}

/// Appends the word of a repeat prefix.
#[inline]
#[tactic(auto, unfolding(crate::specs::PrefixWords::repeat_word))]
fn append_repeat_word<const N: usize>(out: &mut ArrayVec<u8, N>, rep: Rep)
    requires { array_vec_len out.old + length (spec.repeat_word rep) ≤ N }
    ensures { out.new.items ≡ out.old.items ++ spec.repeat_word rep }
{
    match rep {
        Rep::None => {}
        Rep::F2 => append_few(out, b"repne "),
        Rep::F3 => append_few(out, b"rep "),
    }
}

/// Returns whether some operand is memory.
pub fn has_memory(instr: &Instr) -> bool
    ensures { result ≡ spec.shows_memory instr.now }
{
    instr.ops.iter().any(|op| op.is_memory())
}

/// Appends the segment's name, if no operand is memory.
#[tactic(auto, unfolding(crate::specs::PrefixWords::segment_word))]
fn append_segment_word<const N: usize>(out: &mut ArrayVec<u8, N>, instr: &Instr)
    requires { array_vec_len out.old + length (spec.segment_word instr.now) ≤ N }
    ensures { out.new.items ≡ out.old.items ++ spec.segment_word instr.now }
{
    match instr.seg {
        None => {}
        Some(s) => {
            if !has_memory(instr) {
                append_few(out, segment_name(s));
                append_few(out, b" ");
            }
        }
    }
}

/// Returns the digits of a size.
#[inline]
#[tactic(auto, unfolding(crate::specs::PrefixWords::size_digits))]
pub fn size_digits(size: Bits) -> &'static [u8]
    ensures { result.now ≡ spec.size_digits size }
{
    match size {
        Bits::B16 => b"16",
        Bits::B32 => b"32",
        Bits::B64 => b"64",
    }
}

/// Appends a letter with a size, as `a32`.
#[inline(never)]
#[tactic(auto, unfolding(crate::specs::PrefixWords::sized_word))]
fn append_sized_word<const N: usize>(out: &mut ArrayVec<u8, N>, letter: &[u8], size: Bits)
    requires { array_vec_len out.old + length (spec.sized_word letter.now size) ≤ N }
    ensures { out.new.items ≡ out.old.items ++ spec.sized_word letter.now size }
{
    append_few(out, letter);
    append_few(out, size_digits(size));
    append_few(out, b" ");
}

/// Whether two sizes differ.
#[inline]
#[tactic(auto, unfolding(crate::specs::PrefixWords::differs))]
fn differs(a: Bits, b: Bits) -> bool
    ensures { result ≡ spec.differs a b }
{
    !same_bits(a, b)
}

/// Returns the address size of a text: that of the instruction, or else that of the mode.
#[inline]
pub fn text_address_size(bits: Bits, instr: &Instr) -> Bits
    ensures { result ≡ spec.text_address_size bits instr.now }
{
    instr.asize.unwrap_or(bits)
}

/// Whether a register shows the size of an address.
#[inline]
#[tactic(auto, unfolding(crate::specs::PrefixWords::shows_size))]
fn shows_size(r: Option<Register>) -> bool
    ensures { result ≡ spec.shows_size r }
{
    match r {
        Some(Register::R16(_)) => true,
        Some(Register::R32(_)) => true,
        Some(Register::R64(_)) => true,
        Some(Register::Eip) => true,
        Some(Register::Rip) => true,
        _ => false,
    }
}

/// Whether an operand is memory that shows its address size.
#[inline]
#[tactic(auto, unfolding(crate::specs::PrefixWords::shows_address_size))]
fn shows_address_size(op: Operand) -> bool
    ensures { result ≡ spec.shows_address_size op }
{
    match op {
        Operand::Mem(m) => shows_size(m.base) || shows_size(m.index),
        _ => false,
    }
}

/// Whether some operand shows the address size.
fn some_shows_address_size(instr: &Instr) -> bool
    ensures { result ≡ list_any spec.shows_address_size instr.now.ops }
{
    instr.ops.iter().any(|op| shows_address_size(*op))
}

/// Whether a name is that of the jump on CX, ECX or RCX.
#[inline]
#[tactic(auto, unfolding(crate::specs::PrefixWords::is_counter_jump))]
fn is_counter_jump(name: &[u8]) -> bool
    ensures { result ≡ spec.is_counter_jump name.now }
{
    name == b"jrcxz".as_slice()
}

/// Whether neither the name nor an operand shows the address size.
#[inline(never)]
fn is_address_size_hidden(name: &[u8], instr: &Instr) -> bool
    ensures { result ≡ (not (spec.is_counter_jump name.now) && not (list_any spec.shows_address_size instr.now.ops)) }
{
    !is_counter_jump(name) && !some_shows_address_size(instr)
}

/// Returns whether an address size has its own word. Mostly it is the mode's, and nothing is called.
#[inline(always)]
#[tactic(auto, unfolding(crate::specs::PrefixWords::needs_address_word))]
fn needs_address_word(bits: Bits, size: Bits, name: &[u8], instr: &Instr) -> bool
    ensures { result ≡ spec.needs_address_word bits size name.now instr.now }
{
    differs(size, bits) && is_address_size_hidden(name, instr)
}

/// Appends the address size, if it is not the mode's and nothing else shows it.
#[tactic(auto, unfolding(crate::specs::PrefixWords::address_word))]
fn append_address_word<const N: usize>(
    out: &mut ArrayVec<u8, N>,
    bits: Bits,
    name: &[u8],
    instr: &Instr,
)
    requires { array_vec_len out.old + length (spec.address_word bits name.now instr.now) ≤ N }
    ensures { out.new.items ≡ out.old.items ++ spec.address_word bits name.now instr.now }
{
    match instr.asize {
        None => {}
        Some(size) => {
            if needs_address_word(bits, size, name, instr) {
                append_sized_word(out, b"a", size);
            }
        }
    }
}

/// Whether a row is printed with its operand size.
#[inline]
fn is_sized(row: &Row) -> bool
    ensures { result ≡ spec.is_sized row.now }
{
    row.marks.0 & 4 == 4
}

/// The operand size that a row's condition names.
#[inline]
#[tactic(auto, unfolding(crate::specs::PrefixWords::named_size))]
fn named_size(size: Size) -> Option<Bits>
    ensures { result ≡ spec.named_size size }
{
    match size {
        Size::None => None,
        Size::O16 => Some(Bits::B16),
        Size::O32 | Size::O32or64 | Size::W0 => Some(Bits::B32),
        Size::O64 | Size::W1 => Some(Bits::B64),
    }
}

/// Whether a size is 64.
#[inline(always)]
fn is_quad(size: Size) -> bool
    ensures { result ≡ frequent.is_quad size }
{
    match size {
        Size::O64 => true,
        _ => false,
    }
}

/// The operand size that needs no word.
#[tactic(auto, unfolding(crate::specs::PrefixWords::usual_size, crate::specs::PrefixWords::is_w_size))]
fn usual_size(bits: Bits, row: &Row) -> Bits
    ensures { result ≡ spec.usual_size bits row.now }
{
    match row.size {
        Size::W0 | Size::W1 => Bits::B32,
        _ => operand_size(bits, row, false, false),
    }
}

/// Whether a row has the operand size 64 as its usual one, which needs no word. Most rows that are printed with their size are so.
#[inline(always)]
#[tactic(auto, unfolding(crate::specs::Frequent::is_usually_quad))]
fn is_usually_quad(bits: Bits, row: &Row) -> bool
    ensures { result ≡ frequent.is_usually_quad bits row.now }
{
    is_64(bits) && is_quad(row.size) && (has_bang(row) || has_caret(row))
}

/// Appends the operand size, if the row is printed with it and it is not the default.
#[tactic(auto, unfolding(crate::specs::PrefixWords::operand_size_word))]
fn append_operand_size_word<const N: usize>(out: &mut ArrayVec<u8, N>, bits: Bits, row: &Row)
    requires { array_vec_len out.old + length (spec.operand_size_word bits row.now) ≤ N }
    ensures { out.new.items ≡ out.old.items ++ spec.operand_size_word bits row.now }
{
    if is_sized(row) {
        if is_usually_quad(bits, row) {
            return;
        }
        match named_size(row.size) {
            None => {}
            Some(size) => {
                if differs(size, usual_size(bits, row)) {
                    append_sized_word(out, b"o", size);
                }
            }
        }
    }
}

/// Appends the words of the prefixes, in their order.
#[inline(always)]
#[tactic(auto, unfolding(crate::specs::PrefixWords::prefix_words))]
pub fn append_prefix_words<const N: usize>(
    out: &mut ArrayVec<u8, N>,
    bits: Bits,
    row: &Row,
    name: &[u8],
    instr: &Instr,
)
    requires { array_vec_len out.old + length (spec.prefix_words bits row.now name.now instr.now) ≤ N }
    ensures { out.new.items ≡ out.old.items ++ spec.prefix_words bits row.now name.now instr.now }
{
    append_lock_word(out, instr.lock);
    append_repeat_word(out, instr.rep);
    append_segment_word(out, instr);
    append_address_word(out, bits, name, instr);
    append_operand_size_word(out, bits, row);
}

/// The jump on the counter, by its address size.
#[inline]
#[tactic(auto, unfolding(crate::specs::PrefixWords::counter_jump))]
fn counter_jump(asize: Bits) -> &'static [u8]
    ensures { result.now ≡ spec.counter_jump asize }
{
    match asize {
        Bits::B16 => b"jcxz",
        Bits::B32 => b"jecxz",
        Bits::B64 => b"jrcxz",
    }
}

/// Returns the printed name of an instruction whose row has this name.
#[tactic(auto, unfolding(crate::specs::PrefixWords::name_text))]
pub fn name_text<'a>(bits: Bits, name: &'a [u8], instr: &Instr) -> &'a [u8]
    ensures { result.now ≡ spec.name_text bits name.now instr.now }
{
    if is_counter_jump(name) {
        counter_jump(text_address_size(bits, instr))
    } else {
        name
    }
}
