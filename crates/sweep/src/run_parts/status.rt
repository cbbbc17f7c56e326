//! How a run ends.

ghost use Rattle.std.specs.Prelude.{◌≡◌, ◌≤◌, ◌+◌, ◌++◌, length, codes, decimal};
ghost use Rattle.arrayvec.specs.ArrayVec.{array_vec_len};
ghost use Rattle.sweep.specs.RunParts.StatusLine as spec;
ghost use Rattle.sweep.specs.RunParts.Hexadecimal.{hex_number};

use crate::run_parts::hexadecimal::append_hexadecimal;
use decoder::DecodeError;
use itoa::Buffer;
use text_parts::text::{Text, append};

/// The status with which a run ends.
#[derive(Clone, Copy, PartialEq, Eq, Debug)]
pub enum Status {
    /// The command was carried out.
    Done,
    /// A word is not allowed, missing or too many: the first such word's number, from 1.
    Usage { word: u64 },
    /// No instruction is read at this offset.
    BadCode { offset: u64, error: DecodeError },
    /// The source failed.
    ReadFault,
    /// The output failed.
    WriteFault,
    /// There was not enough memory.
    Memory,
    /// The source has more bytes than this.
    TooLarge { limit: u64 },
    /// Code ends past the address space, at this address, which may need more than 64 bits.
    Wraps { end: u128 },
    /// The instruction of this number, from 0, does not reach its target.
    TooFar { at: u64, target: u64 },
    /// No gap of the region is as long as this many bytes; the longest has `largest`.
    RegionFull { len: u64, largest: u64 },
    /// There are this many instructions, more than are moved together.
    TooMany { count: u64 },
    /// The line of this number, from 1, is neither the text of an instruction nor a single byte.
    BadText { line: u64 },
}

/// Returns the exit number of a status.
pub fn status_number(status: &Status) -> u8
    ensures { result ≡ spec.status_number status.now }
{
    match status {
        Status::Done => 0,
        Status::Usage { .. } => 1,
        Status::BadCode { .. } => 2,
        Status::ReadFault => 3,
        Status::WriteFault => 4,
        Status::Memory => 5,
        Status::TooLarge { .. } => 6,
        Status::Wraps { .. } => 7,
        Status::TooFar { .. } => 8,
        Status::RegionFull { .. } => 9,
        Status::TooMany { .. } => 10,
        Status::BadText { .. } => 11,
    }
}

/// Appends a number in decimal digits and a text.
fn append_number(text: &mut Text, number: u64, back: &[u8])
    requires back { length back.now ≤ 30 }
    requires room { array_vec_len text.old ≤ 110 }
    ensures items { text.new.items ≡ text.old.items ++ decimal number ++ back.now }
    ensures len { array_vec_len text.new ≤ array_vec_len text.old + 50 }
{
    append(text, Buffer::new().format(number).as_bytes());
    append(text, back);
}

/// Returns a text, a number in decimal and a text.
fn with_number(front: &[u8], number: u64, back: &[u8]) -> Text
    requires front { length front.now ≤ 20 }
    requires back { length back.now ≤ 30 }
    ensures items { result.items ≡ front.now ++ decimal number ++ back.now }
    ensures len { array_vec_len result ≤ 70 }
{
    let mut text = plain(front);
    append_number(&mut text, number, back);
    text
}

/// A text that has no number.
fn plain(words: &[u8]) -> Text
    requires { length words.now ≤ 20 }
    ensures items { result.items ≡ words.now }
    ensures len { array_vec_len result ≤ 20 }
{
    let mut text = Text::new();
    append(&mut text, words);
    text
}

/// Appends a number in hexadecimal digits and a text.
fn append_hexadecimal_number(text: &mut Text, number: u128, back: &[u8])
    requires back { length back.now ≤ 26 }
    requires room { array_vec_len text.old ≤ 70 }
    ensures { text.new.items ≡ text.old.items ++ hex_number number ++ back.now }
{
    append_hexadecimal(text, number);
    append(text, back);
}

/// The line of an end past the address space.
fn wraps_line(end: u128) -> Text
    ensures { result.items ≡ codes "end 0x" ++ hex_number end ++ codes " passes the address space\n" }
{
    let mut text = plain(b"end 0x");
    append_hexadecimal_number(&mut text, end, b" passes the address space\n");
    text
}

/// The line of an instruction that does not reach its target.
fn too_far_line(at: u64, target: u64) -> Text
    ensures { result.items ≡ codes "instruction " ++ decimal at ++ codes " cannot reach 0x" ++ hex_number target ++ codes "\n" }
{
    let mut text = with_number(b"instruction ", at, b" cannot reach 0x");
    append_hexadecimal_number(&mut text, u128::from(target), b"\n");
    text
}

/// Returns the line of a region in which no gap is long enough.
fn region_full_line(len: u64, largest: u64) -> Text
    ensures { result.items ≡ codes "region full: need " ++ decimal len ++ codes ", largest " ++ decimal largest ++ codes "\n" }
{
    let mut text = with_number(b"region full: need ", len, b", largest ");
    append_number(&mut text, largest, b"\n");
    text
}

/// The end of the line of an offset at which no instruction is read.
#[tactic(auto, unfolding(crate::specs::RunParts::StatusLine::bad_code_end))]
fn bad_code_end(error: DecodeError) -> &'static [u8]
    ensures text { result.now ≡ spec.bad_code_end error }
    ensures short { length result.now ≤ 20 }
{
    match error {
        DecodeError::Invalid => b": invalid\n",
        DecodeError::TooShort => b": too short\n",
    }
}

/// Returns the line of a status for standard error, with its line feed; `Done` has none.
#[tactic(auto, unfolding(crate::specs::RunParts::StatusLine::status_line))]
pub fn status_line(status: &Status) -> Text
    ensures { result.items ≡ spec.status_line status.now }
{
    match status {
        Status::Done => plain(b""),
        Status::Usage { word } => with_number(b"usage: word ", *word, b"\n"),
        Status::BadCode { offset, error } => {
            with_number(b"bad code at ", *offset, bad_code_end(*error))
        }
        Status::ReadFault => plain(b"read fault\n"),
        Status::WriteFault => plain(b"write fault\n"),
        Status::Memory => plain(b"out of memory\n"),
        Status::TooLarge { limit } => with_number(b"input over ", *limit, b" bytes\n"),
        Status::Wraps { end } => wraps_line(*end),
        Status::TooFar { at, target } => too_far_line(*at, *target),
        Status::RegionFull { len, largest } => region_full_line(*len, *largest),
        Status::TooMany { count } => with_number(b"", *count, b" instructions are too many\n"),
        Status::BadText { line } => with_number(b"bad text in line ", *line, b"\n"),
    }
}
