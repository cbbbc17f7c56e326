//! Tests of the words of a text before any instruction is made of them: whether a row can have them at all, and with which sizes.

ghost use Rattle.std.specs.Prelude.{◌≡◌, ◌<◌};
ghost use Rattle.instruction_parts.specs.Kinds.{method_of};
ghost use Rattle.intel_reader.specs.Operands.{number_of};
ghost use Rattle.intel_reader.specs.Possible as spec;

use crate::candidate::address_from;
use crate::operands::{OperandClass, class_of_register, flags_of_classes};
use instruction_parts::kinds::method_of_kind;
use instruction_parts::row_types::{OpKind, Row};
use instruction_parts::sizes::has_address_mark;
use intel_words::words::{AddressText, IntelWords, OperandText};
use plain_spelling::addresses::{displacement_suits, has_address_size, told_size, written_size};
use row_fit::tail_fits::kind_at;
use x86_values::{Bits, DispSize, same_bits};

/// The class of an operand.
#[tactic(auto, unfolding(crate::specs::Possible::text_class))]
fn class_of(text: &OperandText) -> OperandClass
    ensures { result ≡ spec.text_class text.now }
{
    match text {
        OperandText::Absent => OperandClass::Absent,
        OperandText::Reg(register) => class_of_register(*register),
        OperandText::Number(_) => OperandClass::Number,
        OperandText::Far { .. } => OperandClass::Pointer,
        OperandText::Mem(_) => OperandClass::Address,
    }
}

/// Returns, as flags, what the words require of a row in a mode.
pub fn asked_by(bits: Bits, words: &IntelWords) -> u64
    ensures { result ≡ number_of (spec.asked_by bits words.now) }
{
    flags_of_classes(
        bits,
        class_of(&words.ops[0]),
        class_of(&words.ops[1]),
        class_of(&words.ops[2]),
        class_of(&words.ops[3]),
    )
}

/// Whether an operand is an address.
#[tactic(auto, unfolding(crate::specs::Possible::is_address))]
fn is_address(text: &OperandText) -> bool
    ensures { result ≡ spec.is_address text.now }
{
    match text {
        OperandText::Mem(_) => true,
        _ => false,
    }
}

/// Returns whether some operand is an address.
#[tactic(auto, unfolding(crate::specs::Possible::has_address))]
pub fn has_address(words: &IntelWords) -> bool
    ensures { result ≡ spec.has_address words.now }
{
    is_address(&words.ops[0])
        || is_address(&words.ops[1])
        || is_address(&words.ops[2])
        || is_address(&words.ops[3])
}

/// Returns whether an instruction of the row with these words has an address size.
pub fn has_size(row: &Row, words: &IntelWords) -> bool
    ensures { result ≡ spec.has_size row.now words.now }
{
    has_address(words) || has_address_mark(row)
}

/// Whether an address size agrees with what an address shows.
#[tactic(auto, unfolding(crate::specs::Possible::text_agrees, plain_spelling::specs::Expressible::size_agrees))]
fn text_agrees(asize: Bits, text: &OperandText) -> bool
    ensures { result ≡ spec.text_agrees asize text.now }
{
    match text {
        OperandText::Mem(address) => {
            match told_size(address_from(Bits::B64, DispSize::D0, &address.inside)) {
                None => true,
                Some(size) => same_bits(size, asize),
            }
        }
        _ => true,
    }
}

/// Returns whether an instruction of the row with these words can have this address size.
#[tactic(auto, unfolding(crate::specs::Possible::size_allowed))]
pub fn size_allowed(bits: Bits, row: &Row, words: &IntelWords, asize: Option<Bits>) -> bool
    ensures { result ≡ spec.size_allowed bits row.now words.now asize }
{
    if has_size(row, words) {
        match asize {
            None => false,
            Some(a) => {
                has_address_size(bits, a)
                    && text_agrees(a, &words.ops[0])
                    && text_agrees(a, &words.ops[1])
                    && text_agrees(a, &words.ops[2])
                    && text_agrees(a, &words.ops[3])
            }
        }
    } else {
        asize.is_none()
    }
}

/// Whether an address by its words offers a displacement of this size to the operand of a kind.
// A function of its own, so that an operand that is no address costs a test alone.
#[inline(never)]
#[tactic(auto, unfolding(crate::specs::Possible::text_offers))]
fn address_offers(
    bits: Bits,
    asize: Option<Bits>,
    size: DispSize,
    kind: OpKind,
    address: &AddressText,
) -> bool
    ensures { result ≡ spec.text_offers bits asize size (method_of kind) (OperandText.Mem address.now) }
{
    let memory = address_from(asize.unwrap_or(bits), size, &address.inside);
    displacement_suits(
        written_size(bits, asize, memory),
        method_of_kind(kind),
        memory,
    )
}

/// Whether the address of operand `n`, if it is one, offers a displacement of this size.
#[inline]
#[tactic(auto, unfolding(crate::specs::Possible::text_offers))]
fn nth_offers(
    bits: Bits,
    row: &Row,
    words: &IntelWords,
    asize: Option<Bits>,
    size: DispSize,
    n: usize,
) -> bool
    requires { n < 4 }
    ensures { result ≡ spec.nth_offers bits row.now words.now asize size n }
{
    match &words.ops[n] {
        OperandText::Mem(address) => address_offers(bits, asize, size, kind_at(row, n), address),
        _ => true,
    }
}

/// Returns whether the addresses of an instruction of the row with these words can have this displacement size.
#[tactic(auto, unfolding(crate::specs::Possible::displacement_allowed))]
pub fn displacement_allowed(
    bits: Bits,
    row: &Row,
    words: &IntelWords,
    asize: Option<Bits>,
    size: DispSize,
) -> bool
    ensures { result ≡ spec.displacement_allowed bits row.now words.now asize size }
{
    nth_offers(bits, row, words, asize, size, 0)
        && nth_offers(bits, row, words, asize, size, 1)
        && nth_offers(bits, row, words, asize, size, 2)
        && nth_offers(bits, row, words, asize, size, 3)
}
