//! The text of an instruction.

ghost use Rattle.std.specs.Prelude.{◌≡◌, ◌≤◌, length, [], IsTrue, Ok};
ghost use Rattle.opcode_rows.specs.Allowed.{is_well_formed};
ghost use Rattle.c_calls.specs.Answers as spec;

use crate::buffers::put_text;
use crate::flat::FlatInstr;
use crate::numbers::{bits_numbered, style_numbered};
use crate::refusal::{Refusal, refusal_status};
use crate::unflatten::instr_back_into;
use decoder::UNREAD;
use opcode_rows::well_formed;
use text_parts::style::Style;
use text_parts::text::Text;
use x86_values::{Bits, Instr};

/// Writes the text of a well-formed instruction in the AT&T style to an empty buffer.
// A function of its own, so that the other styles do not pay for its frame.
#[inline(never)]
fn append_att_text(out: &mut Text, bits: Bits, instr: &Instr)
    requires empty { out.old.items ≡ [] }
    requires well { IsTrue (is_well_formed instr.now) }
    ensures { out.new.items ≡ spec.style_text Style.Att bits instr.now }
{
    att_text::print_to(out, bits, instr);
}

/// Appends the text of a well-formed instruction in a style to none.
#[inline(always)]
pub(crate) fn append_style_text(out: &mut Text, style: Style, bits: Bits, instr: &Instr)
    requires empty { out.old.items ≡ [] }
    requires well { IsTrue (is_well_formed instr.now) }
    ensures { out.new.items ≡ spec.style_text style bits instr.now }
{
    match style {
        Style::Intel => intel_text::print_to(out, bits, instr),
        Style::Att => append_att_text(out, bits, instr),
        Style::Masm => masm_text::print_to(out, bits, instr),
    }
}

/// Writes the text of a well-formed instruction in a style and a terminating 0, if the buffer holds both, and returns how many bytes the text has.
#[inline(always)]
fn put_style_text(style: Style, bits: Bits, instr: &Instr, out: &mut [u8]) -> i32
    requires { IsTrue (is_well_formed instr.now) }
    ensures said { result ≡ spec.count_or_refusal (spec.text_within (length out.old) (Ok (spec.style_text style bits instr.now))) }
    ensures left { out.new ≡ spec.with_text out.old (spec.text_within (length out.old) (Ok (spec.style_text style bits instr.now))) }
{
    let mut text = Text::new();
    append_style_text(&mut text, style, bits, instr);
    put_text(out, &text)
}

/// Writes the text of an instruction in a style, and returns its length in bytes.
#[tactic(auto, unfolding(crate::specs::Answers::instr_text_of, crate::specs::Answers::text_within))]
pub fn text(bits: u32, syntax: u32, instr: &FlatInstr, out: &mut [u8]) -> i32
    ensures said { result ≡ spec.count_or_refusal (spec.text_within (length out.old) (spec.text_answer bits syntax instr.now)) }
    ensures left { out.new ≡ spec.with_text out.old (spec.text_within (length out.old) (spec.text_answer bits syntax instr.now)) }
{
    let Some(bits) = bits_numbered(bits) else {
        return refusal_status(Refusal::Mode);
    };
    let Some(style) = style_numbered(syntax) else {
        return refusal_status(Refusal::Syntax);
    };
    let mut read = UNREAD.instr;
    match instr_back_into(instr, &mut read) {
        None => refusal_status(Refusal::Instr),
        Some(()) if well_formed(&read) => put_style_text(style, bits, &read, out),
        Some(()) => refusal_status(Refusal::Form),
    }
}
