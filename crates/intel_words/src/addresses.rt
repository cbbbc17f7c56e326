//! Reads what is inside the brackets of an address.

ghost use Rattle.std.specs.Prelude.{◌≡◌, Some};
ghost use Rattle.intel_words.specs.Scanning as scanning;
ghost use Rattle.intel_words.specs.ReadRegisters as registers;
ghost use Rattle.intel_words.specs.ReadAddresses as spec;

use crate::numbers::{decimal_digit, number_named};
use crate::registers::register_named;
use crate::scanning::{first, rest, split_word, word};
use crate::words::{AddressText, Inside, OperandText, SignedText, SizeName, SumText};
use x86_values::{Register, Segment};

/// What stands in front of the brackets of an address.
#[derive(Clone, Copy)]
pub struct AddressFront {
    /// The size word.
    pub size: SizeName,
    /// The segment.
    pub seg: Option<Segment>,
}

/// A displacement of this sign.
#[inline]
#[tactic(auto, unfolding(crate::specs::ReadAddresses::signed_by))]
fn signed_by(negative: bool, number: Option<u64>) -> Option<Option<SignedText>>
    ensures { result ≡ spec.signed_by negative number }
{
    match number {
        None => None,
        Some(magnitude) => Some(Some(SignedText {
            negative,
            magnitude,
        })),
    }
}

/// A displacement with its sign, or the bracket that ends the address.
#[tactic(auto, unfolding(crate::specs::ReadAddresses::signed_in))]
fn signed_in(text: &[u8]) -> Option<Option<SignedText>>
    ensures { result ≡ spec.signed_in text.now }
{
    if first(text) == b']' {
        Some(None)
    } else if first(text) == b'+' {
        signed_by(false, number_named(word(rest(text))))
    } else if first(text) == b'-' {
        signed_by(true, number_named(word(rest(text))))
    } else {
        None
    }
}

/// Writes the address of registers, a scale and the displacement after them.
#[inline]
#[tactic(auto, unfolding(crate::specs::ReadAddresses::sum_with, crate::specs::ReadAddresses::address_by))]
fn sum_into(
    front: AddressFront,
    base: Option<Register>,
    index: Option<Register>,
    scale: Option<u8>,
    disp: Option<Option<SignedText>>,
    out: &mut OperandText,
) -> Option<()>
    ensures { spec.address_by front.size front.seg (spec.sum_with base index scale disp) ≡ spec.written_operand result out.new }
{
    match disp {
        None => None,
        Some(disp) => {
            *out = OperandText::Mem(AddressText {
                size: front.size,
                seg: front.seg,
                inside: Inside::Sum(SumText {
                    base,
                    index,
                    scale,
                    disp,
                }),
            });
            Some(())
        }
    }
}

/// Behind the star and the scale.
#[inline]
#[tactic(auto, unfolding(crate::specs::ReadAddresses::scaled_by, crate::specs::ReadAddresses::address_by))]
fn scaled_into(
    front: AddressFront,
    base: Option<Register>,
    index: Option<Register>,
    scale: Option<u8>,
    text: &[u8],
    out: &mut OperandText,
) -> Option<()>
    ensures { spec.address_by front.size front.seg (spec.scaled_by base index scale text.now) ≡ spec.written_operand result out.new }
{
    match scale {
        None => None,
        Some(scale) => sum_into(front, base, index, Some(scale), signed_in(text), out),
    }
}

/// Behind an index: its scale, and the displacement.
#[tactic(auto, unfolding(crate::specs::ReadAddresses::behind_index))]
fn behind_index_into(
    front: AddressFront,
    base: Option<Register>,
    index: Option<Register>,
    text: &[u8],
    out: &mut OperandText,
) -> Option<()>
    ensures { spec.address_by front.size front.seg (spec.behind_index base index text.now) ≡ spec.written_operand result out.new }
{
    if first(text) == b'*' {
        let scale = decimal_digit(first(rest(text)));
        scaled_into(front, base, index, scale, rest(rest(text)), out)
    } else {
        sum_into(front, base, index, None, signed_in(text), out)
    }
}

/// Reads an index after a base.
#[inline]
#[tactic(auto, unfolding(crate::specs::ReadAddresses::index_by, crate::specs::ReadAddresses::address_by))]
fn index_into(
    front: AddressFront,
    base: Option<Register>,
    index: Option<Register>,
    text: &[u8],
    out: &mut OperandText,
) -> Option<()>
    ensures { spec.address_by front.size front.seg (spec.index_by base index text.now) ≡ spec.written_operand result out.new }
{
    match index {
        None => None,
        Some(index) => behind_index_into(front, base, Some(index), text, out),
    }
}

/// Reads the second register, which follows a plus, and what is behind it.
#[inline]
fn second_into(
    front: AddressFront,
    base: Register,
    text: &[u8],
    out: &mut OperandText,
) -> Option<()>
    ensures { spec.address_by front.size front.seg (spec.index_by (Some base) (registers.register_named (scanning.word text.now)) (scanning.rest_behind text.now))
        ≡ spec.written_operand result out.new }
{
    let (name, after) = split_word(text);
    index_into(front, Some(base), register_named(name), after, out)
}

/// Reads what follows the first register: a star if it is an index, a plus and a second register if it is a base, or the displacement.
#[tactic(auto, unfolding(crate::specs::ReadAddresses::sum_by, crate::specs::ReadAddresses::address_by))]
fn registers_into(
    front: AddressFront,
    register: Option<Register>,
    text: &[u8],
    out: &mut OperandText,
) -> Option<()>
    ensures { spec.address_by front.size front.seg (spec.sum_by register text.now) ≡ spec.written_operand result out.new }
{
    match register {
        None => None,
        Some(r) => if first(text) == b'*' {
            behind_index_into(front, None, Some(r), text, out)
        } else if first(text) == b'+' && b'a' <= first(rest(text)) {
            second_into(front, r, rest(text), out)
        } else {
            sum_into(front, Some(r), None, None, signed_in(text), out)
        },
    }
}

/// Writes the address of what is inside its brackets, if that was read.
#[inline]
#[tactic(auto, unfolding(crate::specs::ReadAddresses::address_by))]
fn address_into(front: AddressFront, inside: Option<Inside>, out: &mut OperandText) -> Option<()>
    ensures { spec.address_by front.size front.seg inside ≡ spec.written_operand result out.new }
{
    match inside {
        None => None,
        Some(inside) => {
            *out = OperandText::Mem(AddressText {
                size: front.size,
                seg: front.seg,
                inside,
            });
            Some(())
        }
    }
}

/// A target that is relative to the instruction pointer.
#[inline]
#[tactic(auto, unfolding(crate::specs::ReadAddresses::rel_by))]
fn rel_by(eip: bool, target: Option<u64>) -> Option<Inside>
    ensures { result ≡ spec.rel_by eip target }
{
    match target {
        None => None,
        Some(target) => Some(Inside::Rel { eip, target }),
    }
}

/// Reads a target after `rel` or `rel32`.
#[inline]
#[tactic(auto, unfolding(crate::specs::ReadAddresses::relative_in))]
fn relative_in(name: &[u8], text: &[u8]) -> Option<Inside>
    ensures { result ≡ spec.relative_in name.now text.now }
{
    if name == b"rel".as_slice() {
        rel_by(false, number_named(word(text)))
    } else if name == b"rel32".as_slice() {
        rel_by(true, number_named(word(text)))
    } else {
        None
    }
}

/// Writes an address to `out`, given what stands in front of its brackets and the text after the opening one. If there is none, `out` may hold anything.
#[tactic(auto, unfolding(crate::specs::ReadAddresses::inside_in))]
pub fn inside_into(front: AddressFront, text: &[u8], out: &mut OperandText) -> Option<()>
    ensures { spec.address_by front.size front.seg (spec.inside_in text.now) ≡ spec.written_operand result out.new }
{
    let (name, after) = split_word(text);
    if first(after) == b' ' {
        address_into(front, relative_in(name, rest(after)), out)
    } else if first(text) == b']' {
        address_into(front, Some(Inside::Nothing), out)
    } else if first(text) == b'0' {
        address_into(front, number_named(name).map(Inside::Lone), out)
    } else {
        registers_into(front, register_named(name), after, out)
    }
}
