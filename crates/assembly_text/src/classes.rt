//! What a word of an operand is.

ghost use Rattle.std.specs.Prelude.{◌≡◌};
ghost use Rattle.assembly_text.specs.Classes as spec;

use crate::digits::number_of_word;
use crate::line::{byte_at, is_blank, is_digit, is_name_byte};
use intel_words::registers::register_named;
use intel_words::words::SizeName;
use x86_values::Register;

/// What a word of an operand is.
#[derive(Clone, Copy)]
pub(crate) enum Class {
    /// Nothing.
    Blank,
    /// `[`
    Open,
    /// `]`
    Close,
    /// `+`
    Plus,
    /// `-`
    Minus,
    /// `*`
    Star,
    /// `:`
    Colon,
    /// A number.
    Number(u64),
    /// A register.
    Reg(Register),
    /// The size of an address.
    Size(SizeName),
    /// A word without meaning.
    Skipped,
    /// `rel`
    Rel,
    /// A name.
    Name,
    /// No word of an operand.
    Other,
}

/// A sign of one byte.
#[tactic(auto, unfolding(crate::specs::Classes::sign_class))]
fn sign_class(c: u8) -> Class
    ensures { result ≡ spec.sign_class c }
{
    if is_blank(c) {
        Class::Blank
    } else if c == b'[' {
        Class::Open
    } else if c == b']' {
        Class::Close
    } else if c == b'+' {
        Class::Plus
    } else if c == b'-' {
        Class::Minus
    } else if c == b'*' {
        Class::Star
    } else if c == b':' {
        Class::Colon
    } else {
        Class::Other
    }
}

/// A number, if the word is one.
#[tactic(auto, unfolding(crate::specs::Classes::number_class))]
fn number_class(number: Option<u64>) -> Class
    ensures { result ≡ spec.number_class number }
{
    match number {
        Some(n) => Class::Number(n),
        None => Class::Other,
    }
}

/// Whether a word has no meaning.
#[tactic(auto, unfolding(crate::specs::Classes::is_skipped))]
fn is_skipped(word: &[u8]) -> bool
    ensures { result ≡ spec.is_skipped word.now }
{
    word == b"ptr".as_slice() || word == b"short".as_slice() || word == b"near".as_slice()
}

/// A size of a vector or a far pointer, or another word.
#[tactic(auto, unfolding(crate::specs::Classes::long_size_class))]
fn long_size_class(word: &[u8]) -> Class
    ensures { result ≡ spec.long_size_class word.now }
{
    if word == b"xmmword".as_slice() || word == b"oword".as_slice() {
        Class::Size(SizeName::Xmmword)
    } else if word == b"ymmword".as_slice() || word == b"yword".as_slice() {
        Class::Size(SizeName::Ymmword)
    } else if word == b"far16".as_slice() {
        Class::Size(SizeName::Far16)
    } else if word == b"far32".as_slice() {
        Class::Size(SizeName::Far32)
    } else if word == b"far64".as_slice() {
        Class::Size(SizeName::Far64)
    } else {
        Class::Name
    }
}

/// A size, or another word.
#[tactic(auto, unfolding(crate::specs::Classes::size_class))]
fn size_class(word: &[u8]) -> Class
    ensures { result ≡ spec.size_class word.now }
{
    if word == b"byte".as_slice() {
        Class::Size(SizeName::Byte)
    } else if word == b"word".as_slice() {
        Class::Size(SizeName::Word)
    } else if word == b"dword".as_slice() {
        Class::Size(SizeName::Dword)
    } else if word == b"qword".as_slice() {
        Class::Size(SizeName::Qword)
    } else if word == b"tbyte".as_slice() || word == b"tword".as_slice() {
        Class::Size(SizeName::Tbyte)
    } else {
        long_size_class(word)
    }
}

/// A word of letters that is no register.
#[tactic(auto, unfolding(crate::specs::Classes::letters_class))]
fn letters_class(word: &[u8]) -> Class
    ensures { result ≡ spec.letters_class word.now }
{
    if is_skipped(word) {
        Class::Skipped
    } else if word == b"rel".as_slice() {
        Class::Rel
    } else {
        size_class(word)
    }
}

/// A register, if the word is one.
#[tactic(auto, unfolding(crate::specs::Classes::register_class))]
fn register_class(register: Option<Register>, word: &[u8]) -> Class
    ensures { result ≡ spec.register_class register word.now }
{
    match register {
        Some(r) => Class::Reg(r),
        None => letters_class(word),
    }
}

/// A register of the stack with this digit, from 0 to 7.
#[tactic(auto, unfolding(crate::specs::Classes::stack_class))]
fn stack_class(c: u8) -> Class
    ensures { result ≡ spec.stack_class c }
{
    if b'0' <= c && c <= b'7' {
        Class::Reg(Register::St(c - b'0'))
    } else {
        Class::Other
    }
}

/// A register, as `rax` and `st(1)`, or another word of letters.
#[tactic(auto, unfolding(crate::specs::Classes::word_class))]
fn word_class(word: &[u8]) -> Class
    ensures { result ≡ spec.word_class word.now }
{
    if byte_at(word, 2) == b'(' {
        stack_class(byte_at(word, 3))
    } else {
        register_class(register_named(word), word)
    }
}

/// What a word is.
#[tactic(auto, unfolding(crate::specs::Classes::class_of))]
pub(crate) fn class_of(word: &[u8]) -> Class
    ensures { result ≡ spec.class_of word.now }
{
    let c = byte_at(word, 0);
    if is_digit(c) {
        number_class(number_of_word(word))
    } else if is_name_byte(c) {
        word_class(word)
    } else {
        sign_class(c)
    }
}
