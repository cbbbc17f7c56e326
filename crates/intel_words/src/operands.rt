//! Reading operands.

ghost use Rattle.std.specs.Prelude.{◌≡◌, option_map};
ghost use Rattle.intel_words.specs.ReadAddresses as spec;

use crate::addresses::{AddressFront, inside_into};
use crate::numbers::number_named;
use crate::registers::{register_named, segment_named};
use crate::scanning::{first, rest, split_word, word};
use crate::words::{OperandText, SizeName};
use x86_values::{Register, Segment};

/// The size of a size word.
#[tactic(auto, unfolding(crate::specs::ReadAddresses::size_named))]
fn size_named(name: &[u8]) -> Option<SizeName>
    ensures { result ≡ spec.size_named name.now }
{
    if name == b"dword".as_slice() {
        Some(SizeName::Dword)
    } else if name == b"qword".as_slice() {
        Some(SizeName::Qword)
    } else if name == b"byte".as_slice() {
        Some(SizeName::Byte)
    } else if name == b"word".as_slice() {
        Some(SizeName::Word)
    } else if name == b"xmmword".as_slice() {
        Some(SizeName::Xmmword)
    } else if name == b"ymmword".as_slice() {
        Some(SizeName::Ymmword)
    } else if name == b"tbyte".as_slice() {
        Some(SizeName::Tbyte)
    } else if name == b"far16".as_slice() {
        Some(SizeName::Far16)
    } else if name == b"far32".as_slice() {
        Some(SizeName::Far32)
    } else if name == b"far64".as_slice() {
        Some(SizeName::Far64)
    } else {
        None
    }
}

/// Writes an address after a segment, given the text of its brackets.
#[inline]
#[tactic(auto, unfolding(crate::specs::ReadAddresses::address_at))]
fn address_at_into(
    size: SizeName,
    seg: Option<Segment>,
    text: &[u8],
    out: &mut OperandText,
) -> Option<()>
    ensures { spec.address_at size seg text.now ≡ spec.written_operand result out.new }
{
    match seg {
        None => None,
        Some(seg) => if first(text) == b'[' {
            inside_into(
                AddressFront {
                    size,
                    seg: Some(seg),
                },
                rest(text),
                out,
            )
        } else {
            None
        },
    }
}

/// Writes the address of brackets with or without a segment.
// Each of these functions writes `out` where all is known: an operand that is handed on is copied.
#[tactic(auto, unfolding(crate::specs::ReadAddresses::address_in))]
fn address_into(size: SizeName, text: &[u8], out: &mut OperandText) -> Option<()>
    ensures { spec.address_in size text.now ≡ spec.written_operand result out.new }
{
    if first(text) == b'[' {
        return inside_into(AddressFront { size, seg: None }, rest(text), out);
    }
    let (name, after) = split_word(text);
    if first(after) == b':' {
        address_at_into(size, segment_named(name), rest(after), out)
    } else {
        None
    }
}

/// Writes an address after its size word.
#[inline]
#[tactic(auto, unfolding(crate::specs::ReadAddresses::sized_in))]
fn sized_into(size: Option<SizeName>, text: &[u8], out: &mut OperandText) -> Option<()>
    ensures { spec.sized_in size text.now ≡ spec.written_operand result out.new }
{
    match size {
        None => None,
        Some(size) => address_into(size, text, out),
    }
}

/// Writes the far pointer of a selector and an offset.
#[inline]
#[tactic(auto, unfolding(crate::specs::ReadAddresses::far_by))]
fn far_by_into(selector: Option<u64>, offset: Option<u64>, out: &mut OperandText) -> Option<()>
    ensures { spec.far_by selector offset ≡ spec.written_operand result out.new }
{
    match (selector, offset) {
        (Some(selector), Some(offset)) => {
            *out = OperandText::Far { selector, offset };
            Some(())
        }
        _ => None,
    }
}

/// Writes a number, if there is one.
#[inline]
fn number_into(number: Option<u64>, out: &mut OperandText) -> Option<()>
    ensures { option_map OperandText.Number number ≡ spec.written_operand result out.new }
{
    match number {
        None => None,
        Some(number) => {
            *out = OperandText::Number(number);
            Some(())
        }
    }
}

/// Writes a register, if there is one.
#[inline]
fn register_into(register: Option<Register>, out: &mut OperandText) -> Option<()>
    ensures { option_map OperandText.Reg register ≡ spec.written_operand result out.new }
{
    match register {
        None => None,
        Some(register) => {
            *out = OperandText::Reg(register);
            Some(())
        }
    }
}

/// Writes a register or a number.
#[inline]
#[tactic(auto, unfolding(crate::specs::ReadAddresses::plain_in))]
fn plain_into(name: &[u8], out: &mut OperandText) -> Option<()>
    ensures { spec.plain_in name.now ≡ spec.written_operand result out.new }
{
    if first(name) == b'0' {
        number_into(number_named(name), out)
    } else {
        register_into(register_named(name), out)
    }
}

/// Writes the operand of a text that is not empty. Most are registers and numbers, which are one word.
#[tactic(auto, unfolding(crate::specs::ReadAddresses::some_operand, crate::specs::ReadAddresses::far_in))]
fn some_operand_into(text: &[u8], out: &mut OperandText) -> Option<()>
    ensures { spec.some_operand text.now ≡ spec.written_operand result out.new }
{
    let (name, after) = split_word(text);
    if first(after) == b' ' {
        sized_into(size_named(name), rest(after), out)
    } else if first(text) == b'[' {
        address_into(SizeName::None, text, out)
    } else if first(after) == b':' {
        if first(text) == b'0' {
            far_by_into(number_named(name), number_named(word(rest(after))), out)
        } else {
            address_into(SizeName::None, text, out)
        }
    } else {
        plain_into(name, out)
    }
}

/// Writes the operand that a text stands for to `out`. If there is none, `out` may hold anything.
#[inline]
#[tactic(auto, unfolding(crate::specs::ReadAddresses::operand_in))]
pub fn operand_into(text: &[u8], out: &mut OperandText) -> Option<()>
    ensures { spec.operand_in text.now ≡ spec.written_operand result out.new }
{
    match text {
        [] => {
            *out = OperandText::Absent;
            Some(())
        }
        [_, _rest @ ..] => some_operand_into(text, out),
    }
}
