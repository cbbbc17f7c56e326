//! A test of the words of a text before any instruction is made of them: whether the size word of each address is that of a row.

ghost use Rattle.std.specs.Prelude.{◌≡◌, ◌<◌, false, IsTrue};
ghost use Rattle.row_fit.specs.Sound.{sound};
ghost use Rattle.intel_words.specs.Words as words;
ghost use Rattle.intel_reader.specs.SizeWords as spec;

use instruction_parts::row_types::{Row, Size};
use intel_words::words::{IntelWords, OperandText, SizeName};
use row_fit::tail_fits::kind_at;
use row_meaning::row_memory_size;
use text_parts::layout::is_far_pointer;

/// The size word of so many bytes.
#[tactic(auto, unfolding(intel_words::specs::Words::size_of_bytes))]
fn size_of_bytes(n: u8) -> SizeName
    ensures { result ≡ words.size_of_bytes n }
{
    if n == 1 {
        SizeName::Byte
    } else if n == 2 {
        SizeName::Word
    } else if n == 4 {
        SizeName::Dword
    } else if n == 8 {
        SizeName::Qword
    } else if n == 10 {
        SizeName::Tbyte
    } else if n == 16 {
        SizeName::Xmmword
    } else if n == 32 {
        SizeName::Ymmword
    } else {
        SizeName::None
    }
}

/// The size word of a far pointer in memory.
#[tactic(auto, unfolding(intel_words::specs::Words::size_of_far))]
fn size_of_far(size: Size) -> SizeName
    ensures { result ≡ words.size_of_far size }
{
    match size {
        Size::O16 => SizeName::Far16,
        Size::O64 => SizeName::Far64,
        _ => SizeName::Far32,
    }
}

/// Returns the size word of operand `n` of the row.
#[tactic(auto, unfolding(intel_words::specs::Words::size_word_of))]
pub(crate) fn size_word_of(row: &Row, n: usize) -> SizeName
    requires number { n < 4 }
    requires sound { IsTrue (sound row.now) }
    ensures { result ≡ words.size_word_of row.now n }
{
    if is_far_pointer(kind_at(row, n)) {
        size_of_far(row.size)
    } else {
        size_of_bytes(row_memory_size(row))
    }
}

/// Whether operand `n` is no address, or has the size word of the row.
#[inline]
fn nth_is_sized(row: &Row, words: &IntelWords, n: usize) -> bool
    requires number { n < 4 }
    requires sound { IsTrue (sound row.now) }
    ensures { result ≡ false → spec.IsSizedOtherwise row.now words.now n }
{
    match &words.ops[n] {
        OperandText::Mem(address) => address.size == size_word_of(row, n),
        _ => true,
    }
}

/// Whether each address among the words has the size word of the row.
pub(crate) fn are_sized(row: &Row, words: &IntelWords) -> bool
    requires { IsTrue (sound row.now) }
    ensures { result ≡ false → spec.AreSizedOtherwise row.now words.now }
{
    nth_is_sized(row, words, 0)
        && nth_is_sized(row, words, 1)
        && nth_is_sized(row, words, 2)
        && nth_is_sized(row, words, 3)
}
