//! Names in AT&T: the letters of the sizes that the operands do not show.

ghost use Rattle.std.specs.Prelude.{◌≡◌, ◌≤◌, ◌+◌, ◌++◌, length, IsTrue, bytes_eq};
ghost use Rattle.std.specs.List.{list_any};
ghost use Rattle.arrayvec.specs.ArrayVec.{array_vec_len};
ghost use Rattle.row_fit.specs.Sound.{sound};
ghost use Rattle.att_text.specs.Names as spec;

use arrayvec::ArrayVec;
use instruction_parts::kinds::{File, file_of_kind};
use instruction_parts::row_types::{Map, OpKind, Row, Size};
use instruction_parts::sizes::is_vex_row;
use row_meaning::row_memory_size;
use text_parts::prefix_words::{has_memory, name_text};
use text_parts::text::{append, append_few};
use x86_values::{Bits, Instr};

/// Whether a row is one of the x87 unit.
#[inline]
#[tactic(auto, unfolding(crate::specs::Names::is_x87))]
fn is_x87(row: &Row) -> bool
    ensures { result ≡ spec.is_x87 row.now }
{
    !is_vex_row(row)
        && match row.map {
            Map::One => row.opcode / 8 == 27,
            _ => false,
        }
}

/// Whether a kind names MMX or vector registers.
#[inline]
#[tactic(auto, unfolding(crate::specs::Names::is_vector_kind, crate::specs::Names::is_xmm_or_ymm))]
fn is_vector_kind(kind: OpKind) -> bool
    ensures { result ≡ spec.is_vector_kind kind }
{
    match file_of_kind(kind) {
        File::Mmx | File::Xmm | File::Vector => true,
        _ => false,
    }
}

/// Whether some operand of a row names MMX or vector registers.
fn has_vector_kind(row: &Row) -> bool
    ensures { result ≡ list_any spec.is_vector_kind row.now.ops }
{
    row.ops.iter().any(|kind| is_vector_kind(*kind))
}

/// Whether a row is a legacy row that is neither x87 nor MMX nor SSE.
#[tactic(auto, unfolding(crate::specs::Names::is_integer))]
fn is_integer(row: &Row) -> bool
    ensures { result ≡ spec.is_integer row.now }
{
    !is_vex_row(row) && !is_x87(row) && !has_vector_kind(row)
}

/// The letter of a size in bytes.
#[inline]
#[tactic(auto, unfolding(crate::specs::Names::size_letter))]
fn size_letter(n: u8) -> &'static [u8]
    ensures { result.now ≡ spec.size_letter n }
{
    match n {
        1 => b"b",
        2 => b"w",
        4 => b"l",
        8 => b"q",
        _ => b"",
    }
}

/// The letter of an integer in memory that the x87 unit reads or writes.
#[inline]
#[tactic(auto, unfolding(crate::specs::Names::integer_letter))]
fn integer_letter(n: u8) -> &'static [u8]
    ensures { result.now ≡ spec.integer_letter n }
{
    match n {
        2 => b"s",
        4 => b"l",
        8 => b"q",
        _ => b"",
    }
}

/// The letter of a float in memory.
#[inline]
#[tactic(auto, unfolding(crate::specs::Names::float_letter))]
fn float_letter(n: u8) -> &'static [u8]
    ensures { result.now ≡ spec.float_letter n }
{
    match n {
        4 => b"s",
        8 => b"l",
        10 => b"t",
        _ => b"",
    }
}

/// The letter of the operand size of a row.
#[inline]
#[tactic(auto, unfolding(crate::specs::Names::operand_letter))]
fn operand_letter(size: Size) -> &'static [u8]
    ensures { result.now ≡ spec.operand_letter size }
{
    match size {
        Size::O16 => b"w",
        Size::O64 => b"q",
        _ => b"l",
    }
}

/// Returns whether a name equals this word.
#[inline]
pub fn is_word(name: &[u8], word: &[u8]) -> bool
    ensures { result ≡ bytes_eq name.now word.now }
{
    name == word
}

/// Whether a name is that of the packed decimals of the x87 unit.
#[tactic(auto, unfolding(crate::specs::Names::is_packed_decimal))]
fn is_packed_decimal(name: &[u8]) -> bool
    ensures { result ≡ spec.is_packed_decimal name.now }
{
    is_word(name, b"fbld") || is_word(name, b"fbstp")
}

/// The letter of an x87 instruction with so many bytes of memory.
#[tactic(auto, unfolding(crate::specs::Names::x87_letter))]
fn x87_letter(name: &[u8], n: u8) -> &'static [u8]
    ensures { result.now ≡ spec.x87_letter name.now n }
{
    if is_packed_decimal(name) {
        b""
    } else if name.starts_with(b"fi") {
        integer_letter(n)
    } else {
        float_letter(n)
    }
}

/// Returns the letter after a name for an instruction with a memory operand.
#[tactic(auto, unfolding(crate::specs::Names::memory_letter))]
fn memory_letter(row: &Row, name: &[u8]) -> &'static [u8]
    requires { IsTrue (sound row.now) }
    ensures { result.now ≡ spec.memory_letter row.now name.now }
{
    if is_x87(row) {
        x87_letter(name, row_memory_size(row))
    } else if is_integer(row) {
        size_letter(row_memory_size(row))
    } else {
        b""
    }
}

/// Whether a name is that of a zero extension.
#[inline]
#[tactic(auto, unfolding(crate::specs::Names::is_zero_extension))]
fn is_zero_extension(name: &[u8]) -> bool
    ensures { result ≡ spec.is_zero_extension name.now }
{
    is_word(name, b"movzx")
}

/// Whether a name is that of a sign extension.
#[inline]
#[tactic(auto, unfolding(crate::specs::Names::is_sign_extension))]
fn is_sign_extension(name: &[u8]) -> bool
    ensures { result ≡ spec.is_sign_extension name.now }
{
    is_word(name, b"movsx") || is_word(name, b"movsxd")
}

/// Appends the letters of an extension.
#[tactic(auto, unfolding(crate::specs::Names::extension_letters))]
fn append_extension_letters<const N: usize>(out: &mut ArrayVec<u8, N>, row: &Row)
    requires sound { IsTrue (sound row.now) }
    requires room { array_vec_len out.old + length (spec.extension_letters row.now) ≤ N }
    ensures { out.new.items ≡ out.old.items ++ spec.extension_letters row.now }
{
    append_few(out, size_letter(row_memory_size(row)));
    append_few(out, operand_letter(row.size));
}

/// Appends the AT&T name of an instruction whose row has this name: the name and its size letters.
#[tactic(auto, unfolding(crate::specs::Names::att_name))]
pub fn append_name<const N: usize>(
    out: &mut ArrayVec<u8, N>,
    bits: Bits,
    row: &Row,
    name: &[u8],
    instr: &Instr,
)
    requires sound { IsTrue (sound row.now) }
    requires room { array_vec_len out.old + length (spec.att_name bits row.now name.now instr.now) ≤ N }
    ensures { out.new.items ≡ out.old.items ++ spec.att_name bits row.now name.now instr.now }
{
    if is_zero_extension(name) {
        append_few(out, b"movz");
        append_extension_letters(out, row);
    } else if is_sign_extension(name) {
        append_few(out, b"movs");
        append_extension_letters(out, row);
    } else {
        append(out, name_text(bits, name, instr));
        if has_memory(instr) {
            append_few(out, memory_letter(row, name));
        }
    }
}
