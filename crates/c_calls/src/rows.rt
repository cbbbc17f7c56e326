//! The rows of the table: names and notations.

ghost use Rattle.std.specs.Prelude.{◌≡◌, ◌<◌, length, IfSome, IsNone, ◌↔◌, ◌≤◌};
ghost use Rattle.c_calls.specs.Answers as spec;

use crate::buffers::put_text;
use crate::refusal::{Refusal, refusal_status};
use opcode_rows::ROWS;
use std::str::from_utf8;
use text_rows::row_lines::notation_of;
use x86_values::Code;

/// The code of a number, if it is one of the table.
pub(crate) fn code_numbered(n: u32) -> Option<Code>
    ensures row { IfSome result (λ code. (code.0 ≡ n) × (n < ROWS)) }
    ensures none { IsNone result → ROWS ≤ n }
{
    if n < u32::from(ROWS) {
        Some(Code(n as u16))
    } else {
        None
    }
}

/// Writes the name of a row, and returns its length in bytes.
#[tactic(auto, unfolding(crate::specs::Answers::name_answer, crate::specs::Answers::text_within))]
pub fn name(code: u32, out: &mut [u8]) -> i32
    ensures said { result ≡ spec.count_or_refusal (spec.text_within (length out.old) (spec.name_answer code)) }
    ensures left { out.new ≡ spec.with_text out.old (spec.text_within (length out.old) (spec.name_answer code)) }
{
    match code_numbered(code) {
        None => refusal_status(Refusal::Code),
        Some(code) => put_text(out, opcode_rows::name(code).as_bytes()),
    }
}

/// Writes the notation of a row, and returns its length in bytes.
#[tactic(auto, unfolding(crate::specs::Answers::notation_answer, crate::specs::Answers::text_within))]
pub fn notation(code: u32, out: &mut [u8]) -> i32
    ensures said { result ≡ spec.count_or_refusal (spec.text_within (length out.old) (spec.notation_answer code)) }
    ensures left { out.new ≡ spec.with_text out.old (spec.text_within (length out.old) (spec.notation_answer code)) }
{
    match code_numbered(code) {
        None => refusal_status(Refusal::Code),
        Some(code) => put_text(out, &notation_of(code)),
    }
}

/// Returns the code of the `n`-th row with a name.
pub fn code_of(name: &[u8], n: usize) -> i32
    ensures { spec.IsCodeNamed name.now n result }
{
    let Ok(name) = from_utf8(name) else {
        return refusal_status(Refusal::Name);
    };
    match opcode_rows::code_of(name, n) {
        Some(code) => i32::from(code.0),
        None => refusal_status(Refusal::Name),
    }
}
