//! The texts of registers.

ghost use Rattle.std.specs.Prelude.{◌≡◌, length, MatchResult, Ok, Err};
ghost use Rattle.c_calls.specs.Answers as said;
ghost use Rattle.c_calls.specs.Names as spec;
ghost use Rattle.c_calls.specs.Numbers.{prefix_numbered, style_numbered};

use crate::buffers::put_text;
use crate::numbers::{prefix_numbered, register_numbered, style_numbered};
use crate::refusal::{Refusal, refusal_status};
use text_parts::registers;
use text_parts::text::Text;
use x86_values::Register;

/// The text of a register that there may not be.
#[tactic(auto, unfolding(crate::specs::Names::shown_register))]
fn text_of(syntax: u32, register: Option<Register>) -> Result<Text, Refusal>
    ensures { MatchResult result (λ text. spec.shown_register (style_numbered syntax) register ≡ Ok text.items) (λ why. spec.shown_register (style_numbered syntax) register ≡ Err why) }
{
    let Some(style) = style_numbered(syntax) else {
        return Err(Refusal::Syntax);
    };
    let Some(register) = register else {
        return Err(Refusal::Register);
    };
    if register.is_named() {
        Ok(registers::register_text(style, register))
    } else {
        Err(Refusal::Register)
    }
}

/// The segment register that a prefix names.
fn segment_of(prefix: u8) -> Option<Register>
    ensures { result ≡ spec.segment_shown (prefix_numbered prefix) }
{
    match prefix_numbered(prefix) {
        Some(Some(segment)) => Some(Register::Seg(segment)),
        _ => None,
    }
}

/// Writes the text of the register with a class and a number.
#[tactic(auto, unfolding(crate::specs::Answers::text_within))]
pub fn register_text(syntax: u32, reg_class: u8, reg_number: u8, out: &mut [u8]) -> i32
    ensures said { result ≡ said.count_or_refusal (said.text_within (length out.old) (spec.register_answer syntax reg_class reg_number)) }
    ensures left { out.new ≡ said.with_text out.old (said.text_within (length out.old) (spec.register_answer syntax reg_class reg_number)) }
{
    match text_of(syntax, register_numbered(reg_class, reg_number)) {
        Ok(text) => put_text(out, &text),
        Err(why) => refusal_status(why),
    }
}

/// Writes the text of the segment register that a prefix names.
#[tactic(auto, unfolding(crate::specs::Answers::text_within))]
pub fn segment_text(syntax: u32, segment: u8, out: &mut [u8]) -> i32
    ensures said { result ≡ said.count_or_refusal (said.text_within (length out.old) (spec.segment_answer syntax segment)) }
    ensures left { out.new ≡ said.with_text out.old (said.text_within (length out.old) (spec.segment_answer syntax segment)) }
{
    match text_of(syntax, segment_of(segment)) {
        Ok(text) => put_text(out, &text),
        Err(why) => refusal_status(why),
    }
}
