//! The size words that an address may have in a text, told by the rows of the table, before any text with one of them is read.

ghost use Rattle.std.specs.Prelude.{◌≡◌, ℕ, ◌<◌, ◌⊎◌, ◌↔◌, true, false, bytes_eq};
ghost use Rattle.opcode_rows.specs.Table.{name_of};
ghost use Rattle.intel_words.specs.Pieces.{sized_pieces_text};
ghost use Rattle.intel_words.specs.declared.words.SizeName.{SizeName};
ghost use Rattle.intel_reader.specs.Assembled.{IsNoText};
ghost use Rattle.intel_reader.specs.Sizes as spec;

use crate::buckets::{code_at, indices_of};
use crate::choice::is_counter_word;
use crate::operands::takes_at;
use crate::possible::asked_by;
use crate::size_words::size_word_of;
use intel_words::pieces::{TextPieces, read_unsized};
use intel_words::reading::NO_WORDS;
use intel_words::words::{IntelWords, SizeName};
use opcode_rows::laws::rows_are_sound;
use opcode_rows::{ROWS, name as name_of_row, row_of};
use x86_values::{Bits, Code};

/// Size words: which of them an address may have. Each field tells of one, `none` of an address without a size word.
#[derive(Clone, Copy)]
pub struct SizeSet {
    pub none: bool,
    pub byte: bool,
    pub word: bool,
    pub dword: bool,
    pub qword: bool,
    pub tbyte: bool,
    pub xmmword: bool,
    pub ymmword: bool,
    pub far16: bool,
    pub far32: bool,
    pub far64: bool,
}

/// All size words.
const ALL_SIZES: SizeSet = SizeSet {
    none: true,
    byte: true,
    word: true,
    dword: true,
    qword: true,
    tbyte: true,
    xmmword: true,
    ymmword: true,
    far16: true,
    far32: true,
    far64: true,
};

/// No size word.
const NO_SIZES: SizeSet = SizeSet {
    none: false,
    byte: false,
    word: false,
    dword: false,
    qword: false,
    tbyte: false,
    xmmword: false,
    ymmword: false,
    far16: false,
    far32: false,
    far64: false,
};

impl SizeSet {
    /// Returns whether a size word is among these.
    #[inline]
    #[tactic(auto, unfolding(crate::specs::Sizes::has_size))]
    pub fn has(self, size: SizeName) -> bool
        ensures { result ≡ spec.has_size self size }
    {
        match size {
            SizeName::None => self.none,
            SizeName::Byte => self.byte,
            SizeName::Word => self.word,
            SizeName::Dword => self.dword,
            SizeName::Qword => self.qword,
            SizeName::Tbyte => self.tbyte,
            SizeName::Xmmword => self.xmmword,
            SizeName::Ymmword => self.ymmword,
            SizeName::Far16 => self.far16,
            SizeName::Far32 => self.far32,
            SizeName::Far64 => self.far64,
        }
    }

    /// Puts a size word into the set.
    #[tactic(auto, unfolding(crate::specs::Sizes::with_size))]
    fn insert(&mut self, size: SizeName)
        ensures { self.new ≡ spec.with_size self.old size }
    {
        match size {
            SizeName::None => self.none = true,
            SizeName::Byte => self.byte = true,
            SizeName::Word => self.word = true,
            SizeName::Dword => self.dword = true,
            SizeName::Qword => self.qword = true,
            SizeName::Tbyte => self.tbyte = true,
            SizeName::Xmmword => self.xmmword = true,
            SizeName::Ymmword => self.ymmword = true,
            SizeName::Far16 => self.far16 = true,
            SizeName::Far32 => self.far32 = true,
            SizeName::Far64 => self.far64 = true,
        }
    }
}

/// Whether the row of a code has this name.
#[inline]
fn is_named(code: Code, name: &[u8]) -> bool
    requires { code.0 < ROWS }
    ensures { result ≡ bytes_eq (name_of code.0) name.now }
{
    name_of_row(code).as_bytes() == name
}

/// Puts the size word that the row at an index in the order by names has at operand `n` into a set, if the row has this name.
// A call of its own, so that the loop over the rows stays small.
#[inline(never)]
fn insert_at(set: &mut SizeSet, index: u16, name: &[u8], n: usize)
    requires index { index < ROWS }
    requires number { n < 4 }
    ensures kept { (size : SizeName) → spec.has_size set.old size ≡ true → spec.has_size set.new size ≡ true }
    ensures added { (size : SizeName) → spec.IsSizeAt index name.now n size → spec.has_size set.new size ≡ true }
    ensures only { (size : SizeName) → spec.has_size set.new size ≡ true → (spec.has_size set.old size ≡ true) ⊎ spec.IsSizeAt index name.now n size }
{
    let code = code_at(index);
    if !is_named(code, name) {
        return;
    }
    rows_are_sound();
    let row = row_of(code);
    set.insert(size_word_of(&row, n));
}

/// Returns the size words that rows of a name have at operand `n`, if they exist in a mode and take operands of the classes of these words.
fn sizes_of_rows(bits: Bits, words: &IntelWords, name: &[u8], n: usize) -> SizeSet
    requires number { n < 4 }
    ensures { (size : SizeName) → spec.has_size result size ≡ true ↔ spec.IsRowSize bits words.now name.now n size }
{
    let asked = asked_by(bits, words);
    let indices = indices_of(name);
    let mut set = NO_SIZES;
    for index in indices.first..indices.end {
        if !takes_at(index, asked) {
            continue;
        }
        insert_at(&mut set, index, name, n);
    }
    set
}

/// Returns the size words with which operand `n` of a text in pieces, an address without one, may make it the text of an instruction in a mode.
///
/// With every other size word the text is that of no instruction, at any address, so that [`read_intel`](crate::read_intel) refuses it. Size words that
/// rows of the name have for operands of these classes are in the result even if no instruction has the text in the end. All size words are the result
/// if the pieces do not tell: see `read_unsized` of `intel_words`; also for an `n` of 4 and more, and for the jump on the counter.
///
/// With `mov`, `rdi` and `[rbp-0x68]` as head and operands, operand 1 may have `qword` alone in 64-bit mode; with `mov`, `[rbp-0x68]` and `0x5`, operand 0
/// may have `byte`, `word`, `dword` and `qword`.
pub fn sizes_of_address(bits: Bits, pieces: &TextPieces<'_>, n: usize) -> SizeSet
    ensures refused { (ip : ℕ) (size : SizeName) → spec.has_size result size ≡ false
        → IsNoText bits ip (sized_pieces_text size n pieces.now.head.now pieces.now.first.now pieces.now.second.now pieces.now.third.now pieces.now.fourth.now) }
    ensures exact { (size : SizeName) → spec.has_size result size ≡ true
        ↔ spec.IsPossibleSize bits n pieces.now.head.now pieces.now.first.now pieces.now.second.now pieces.now.third.now pieces.now.fourth.now size }
{
    if n >= 4 {
        return ALL_SIZES;
    }
    let mut words = NO_WORDS;
    match read_unsized(pieces, n, &mut words) {
        None => ALL_SIZES,
        Some(name) => if is_counter_word(name) {
            ALL_SIZES
        } else {
            sizes_of_rows(bits, &words, name, n)
        },
    }
}
