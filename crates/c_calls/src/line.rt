//! Reading an instruction and showing it.

ghost use Rattle.std.specs.Prelude.{◌≡◌};
ghost use Rattle.c_calls.specs.Numbers.{bits_numbered, style_numbered};
ghost use Rattle.c_calls.specs.Lines as spec;

use crate::buffers::write_text;
use crate::flat::FlatInstr;
use crate::flatten::flat_into;
use crate::numbers::{bits_numbered, style_numbered};
use crate::refusal::{Refusal, refusal_status};
use crate::texts::append_style_text;
use decoder::{DecodeError, UNREAD, decode_onto};
use text_parts::style::Style;
use text_parts::text::Text;
use x86_values::{Bits, Decoded};

/// Reads an instruction to a place and writes its text in a style, if the buffer holds it. After a refusal the place may hold anything.
#[inline(always)]
#[tactic(auto, unfolding(crate::specs::Lines::text_line_of))]
fn line_in(
    bits: Bits,
    style: Style,
    ip: u64,
    bytes: &[u8],
    place: &mut Decoded,
    out: &mut [u8],
) -> Result<(), Refusal>
    ensures { spec.IsLineIn bits style ip bytes.now out.old out.new (spec.line_text_at result place.new) }
{
    match decode_onto(bits, ip, bytes, place) {
        Ok(()) => {
            let mut text = Text::new();
            append_style_text(&mut text, style, bits, &place.instr);
            if text.len() >= out.len() {
                return Err(Refusal::Room);
            }
            write_text(out, &text);
            Ok(())
        }
        Err(DecodeError::TooShort) => Err(Refusal::TooShort),
        Err(DecodeError::Invalid) => Err(Refusal::Invalid),
    }
}

/// Reads an instruction to a place and writes its text, by the numbers of a mode and a style.
#[inline(always)]
fn line_by(
    bits: u32,
    syntax: u32,
    ip: u64,
    bytes: &[u8],
    place: &mut Decoded,
    out: &mut [u8],
) -> Result<(), Refusal>
    ensures { spec.IsLineBy (bits_numbered bits) (style_numbered syntax) ip bytes.now out.old out.new (spec.line_text_at result place.new) }
{
    let Some(bits) = bits_numbered(bits) else {
        return Err(Refusal::Mode);
    };
    let Some(style) = style_numbered(syntax) else {
        return Err(Refusal::Syntax);
    };
    line_in(bits, style, ip, bytes, place, out)
}

/// Decodes the instruction at the front of some bytes into a struct, writes its text, and returns its length.
pub fn line(
    bits: u32,
    syntax: u32,
    ip: u64,
    bytes: &[u8],
    instr: &mut FlatInstr,
    out: &mut [u8],
) -> i32
    ensures { spec.IsLine bits syntax ip bytes.now instr.old instr.new out.old out.new result }
{
    let mut decoded = UNREAD;
    match line_by(bits, syntax, ip, bytes, &mut decoded, out) {
        Ok(()) => {
            flat_into(&decoded, instr);
            i32::from(decoded.len)
        }
        Err(why) => refusal_status(why),
    }
}

/// Writes the text of the instruction at the front of some bytes, and returns the length of the instruction.
pub fn line_text(bits: u32, syntax: u32, ip: u64, bytes: &[u8], out: &mut [u8]) -> i32
    ensures { spec.IsLineText bits syntax ip bytes.now out.old out.new result }
{
    let mut decoded = UNREAD;
    match line_by(bits, syntax, ip, bytes, &mut decoded, out) {
        Ok(()) => i32::from(decoded.len),
        Err(why) => refusal_status(why),
    }
}
