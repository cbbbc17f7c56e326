//! Writing into a caller-provided buffer.

ghost use Rattle.std.specs.Prelude.{◌≡◌, ◌+◌, ◌<◌, ◌≤◌, ◌∷◌, ◌++◌, ◌^◌, length, drop, pos, Ok, Err};
ghost use Rattle.c_calls.specs.Answers as spec;

use crate::refusal::{Refusal, refusal_status};

/// Returns a number of bytes as the result of a call.
pub(crate) fn count_answer(n: usize) -> i32
    requires { n < 2 ^ 31 }
    ensures { result ≡ pos n }
{
    n as i32
}

/// Writes bytes at the start of a buffer.
pub(crate) fn write_front(out: &mut [u8], bytes: &[u8])
    requires { length bytes.now ≤ length out.old }
    ensures { out.new ≡ bytes.now ++ drop (length bytes.now) out.old }
{
    out[..bytes.len()].copy_from_slice(bytes);
}

/// Writes bytes if the buffer holds them, and returns how many there are.
#[tactic(auto, unfolding(crate::specs::Answers::bytes_within))]
pub(crate) fn put_bytes(out: &mut [u8], bytes: &[u8]) -> i32
    requires { length bytes.now < 2 ^ 31 }
    ensures said { result ≡ spec.count_or_refusal (spec.bytes_within (length out.old) (Ok bytes.now)) }
    ensures left { out.new ≡ spec.with_bytes out.old (spec.bytes_within (length out.old) (Ok bytes.now)) }
{
    if bytes.len() > out.len() {
        return refusal_status(Refusal::Room);
    }
    write_front(out, bytes);
    count_answer(bytes.len())
}

/// Writes a text and the byte 0 that ends it at the start of a buffer that holds both.
pub(crate) fn write_text(out: &mut [u8], text: &[u8])
    requires { length text.now < length out.old }
    ensures { out.new ≡ spec.with_text out.old (Ok text.now) }
{
    write_front(out, text);
    out[text.len()] = 0;
}

/// Writes a text and the byte 0 that ends it, if the buffer holds both, and returns how many bytes the text has.
#[tactic(auto, unfolding(crate::specs::Answers::text_within))]
pub(crate) fn put_text(out: &mut [u8], text: &[u8]) -> i32
    requires { length text.now < 2 ^ 31 }
    ensures said { result ≡ spec.count_or_refusal (spec.text_within (length out.old) (Ok text.now)) }
    ensures left { out.new ≡ spec.with_text out.old (spec.text_within (length out.old) (Ok text.now)) }
{
    if text.len() >= out.len() {
        return refusal_status(Refusal::Room);
    }
    write_text(out, text);
    count_answer(text.len())
}
