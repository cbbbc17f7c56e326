//! Texts, which grow at their end.

ghost use Rattle.std.specs.Prelude.{◌≡◌};
ghost use Rattle.std.specs.Str.{IsAscii};

use arrayvec::ArrayVec;
pub use instruction_parts::append::{append, append_few};
use std::str::from_utf8;

/// The maximum number of bytes of an instruction's text.
pub const TEXT_LEN: usize = 160;

/// The text of an instruction: ASCII, at most `TEXT_LEN` bytes.
pub type Text = ArrayVec<u8, TEXT_LEN>;

/// Converts ASCII bytes, such as the text of an instruction, to a `str`.
pub fn ascii_str(bytes: &[u8]) -> &str
    requires { IsAscii bytes.now }
    ensures { result.now ≡ bytes.now }
{
    match from_utf8(bytes) {
        Ok(text) => text,
        Err(_) => unreachable!(),
    }
}
