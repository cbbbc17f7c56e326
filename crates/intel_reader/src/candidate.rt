//! The one instruction that the words of a text can be of, by its row, its address size and its displacement size.

ghost use Rattle.std.specs.Prelude.{◌≡◌, ◌<◌};
ghost use Rattle.intel_reader.specs.Candidate as spec;

use instruction_parts::kinds::{Method, method_of_kind};
use instruction_parts::row_types::Row;
use intel_words::words::{Inside, IntelWords, OperandText, SignedText};
use row_fit::tail_fits::kind_at;
use x86_values::{Bits, Code, DispSize, Instr, Mem, Operand, Register, Segment, modulus, wrap};

/// A number by its sign and its distance from zero, modulo 2 to the address size.
#[tactic(auto, unfolding(crate::specs::Candidate::signed_number))]
fn signed_number(asize: Bits, negative: bool, magnitude: u64) -> u64
    ensures { result ≡ spec.signed_number asize negative magnitude }
{
    if negative {
        wrap(asize, modulus(asize).saturating_sub(u128::from(magnitude)))
    } else {
        magnitude
    }
}

/// The displacement beside a register; none is 0.
#[tactic(auto, unfolding(crate::specs::Candidate::displacement_from))]
fn displacement_from(asize: Bits, disp: Option<SignedText>) -> u64
    ensures { result ≡ spec.displacement_from asize disp }
{
    match disp {
        None => 0,
        Some(signed) => signed_number(asize, signed.negative, signed.magnitude),
    }
}

/// Returns the address whose text has these words inside its brackets.
#[tactic(auto, unfolding(crate::specs::Candidate::address_from))]
pub fn address_from(asize: Bits, disp_size: DispSize, inside: &Inside) -> Mem
    ensures { result ≡ spec.address_from asize disp_size inside.now }
{
    match inside {
        Inside::Nothing => Mem {
            base: None,
            index: None,
            scale: 1,
            disp_size,
            disp: 0,
        },
        Inside::Lone(disp) => Mem {
            base: None,
            index: None,
            scale: 1,
            disp_size,
            disp: *disp,
        },
        Inside::Rel { eip, target } => Mem {
            base: Some(if *eip { Register::Eip } else { Register::Rip }),
            index: None,
            scale: 1,
            disp_size,
            disp: *target,
        },
        Inside::Sum(sum) => Mem {
            base: sum.base,
            index: sum.index,
            scale: sum.scale.unwrap_or(1),
            disp_size,
            disp: displacement_from(asize, sum.disp),
        },
    }
}

/// Returns whether operand `n` of the row is a near target.
#[tactic(auto, unfolding(crate::specs::Operands::is_near))]
pub fn is_near_at(row: &Row, n: usize) -> bool
    requires { n < 4 }
    ensures { result ≡ spec.is_near_at row.now n }
{
    match method_of_kind(kind_at(row, n)) {
        Method::Near => true,
        _ => false,
    }
}

/// Writes the operand that these words stand for to its place. A number is a near target or an immediate.
#[inline]
#[tactic(auto, unfolding(crate::specs::Candidate::operand_from))]
fn operand_into(
    near: bool,
    asize: Bits,
    disp_size: DispSize,
    words: &OperandText,
    out: &mut Operand,
)
    ensures { out.new ≡ spec.operand_from near asize disp_size words.now }
{
    match words {
        OperandText::Absent => *out = Operand::Absent,
        OperandText::Reg(register) => *out = Operand::Reg(*register),
        OperandText::Number(x) => {
            if near {
                *out = Operand::Near(*x)
            } else {
                *out = Operand::Imm(*x)
            }
        }
        OperandText::Far { selector, offset } => {
            *out = Operand::Far {
                selector: (*selector % 0x1_0000) as u16,
                offset: (*offset % 0x1_0000_0000) as u32,
            }
        }
        OperandText::Mem(address) => {
            *out = Operand::Mem(address_from(asize, disp_size, &address.inside))
        }
    }
}

/// The segment in front of an address, else another.
#[inline]
#[tactic(auto, unfolding(crate::specs::Candidate::segment_or))]
fn segment_or(words: &OperandText, other: Option<Segment>) -> Option<Segment>
    ensures { result ≡ spec.segment_or words.now other }
{
    match words {
        OperandText::Mem(address) => address.seg,
        _ => other,
    }
}

/// Returns the segment before the first address, or the segment that is a separate word if there is no address.
#[inline]
#[tactic(auto, unfolding(crate::specs::Candidate::segment_from))]
fn segment_from(words: &IntelWords) -> Option<Segment>
    ensures { result ≡ spec.segment_from words.now }
{
    let last = segment_or(&words.ops[3], words.seg);
    let third = segment_or(&words.ops[2], last);
    let second = segment_or(&words.ops[1], third);
    segment_or(&words.ops[0], second)
}

/// Writes the operands that these words stand for to their places.
#[inline]
fn operands_into(
    row: &Row,
    words: &IntelWords,
    asize: Bits,
    disp_size: DispSize,
    ops: &mut [Operand; 4],
)
    ensures { ops.new ≡ spec.operands_from row.now words.now asize disp_size }
{
    let place = &mut ops[0];
    operand_into(is_near_at(row, 0), asize, disp_size, &words.ops[0], place);
    let place = &mut ops[1];
    operand_into(is_near_at(row, 1), asize, disp_size, &words.ops[1], place);
    let place = &mut ops[2];
    operand_into(is_near_at(row, 2), asize, disp_size, &words.ops[2], place);
    let place = &mut ops[3];
    operand_into(is_near_at(row, 3), asize, disp_size, &words.ops[3], place);
}

/// Writes the instruction that these words stand for with a row and its code, one of its address sizes, and one displacement size.
// Each operand is written to its place: operands that are handed on are copied.
#[tactic(auto, unfolding(crate::specs::Candidate::candidate))]
pub fn candidate_into(
    bits: Bits,
    row: &Row,
    code: Code,
    words: &IntelWords,
    asize: Option<Bits>,
    disp_size: DispSize,
    out: &mut Instr,
)
    ensures { out.new ≡ spec.candidate bits row.now code words.now asize disp_size }
{
    out.code = code;
    out.lock = words.lock;
    out.rep = words.rep;
    out.seg = segment_from(words);
    out.asize = asize;
    let size = asize.unwrap_or(bits);
    operands_into(row, words, size, disp_size, &mut out.ops);
}
