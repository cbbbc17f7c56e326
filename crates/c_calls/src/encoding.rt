//! Writing an instruction.

ghost use Rattle.std.specs.Prelude.{◌≡◌, ℕ, length, pos, Some};
ghost use Rattle.c_calls.specs.Numbers.{bits_numbered};
ghost use Rattle.c_calls.specs.Back.{instr_back};
ghost use Rattle.encoder.specs.Encoding.{encoding};
ghost use Rattle.x86_values.specs.Operands.{is_memory};
ghost use Rattle.c_calls.specs.Answers as spec;

use crate::buffers::put_bytes;
use crate::flat::{FlatInstr, FlatOperand};
use crate::numbers::bits_numbered;
use crate::refusal::{Refusal, refusal_status};
use crate::unflatten::instr_back_into;
use decoder::UNREAD;
use encoder::NoSpelling;
use x86_values::{Bits, Instr, Operand};

/// The number of the first of four tests that passes, 0 if none does.
fn first_place(a: bool, b: bool, c: bool, d: bool) -> u8
    ensures { result ≡ spec.first_place a b c d }
{
    if a {
        0
    } else if b {
        1
    } else if c {
        2
    } else if d {
        3
    } else {
        0
    }
}

/// The number of the first operand that is memory, 0 if none is.
fn memory_place(instr: &Instr) -> u8
    ensures { result ≡ spec.first_operand is_memory instr.now }
{
    let [a, b, c, d] = &instr.ops;
    first_place(a.is_memory(), b.is_memory(), c.is_memory(), d.is_memory())
}

/// Whether an operand can have a target: memory, which may be at RIP or EIP, or a near target.
fn may_have_target(op: &Operand) -> bool
    ensures { result ≡ spec.may_have_target op.now }
{
    matches!(op, Operand::Mem(_) | Operand::Near(_))
}

/// The number of the first operand that can have a target, 0 if none can.
fn target_place(instr: &Instr) -> u8
    ensures { result ≡ spec.first_operand spec.may_have_target instr.now }
{
    let [a, b, c, d] = &instr.ops;
    first_place(
        may_have_target(a),
        may_have_target(b),
        may_have_target(c),
        may_have_target(d),
    )
}

/// The operand that fails a condition, 0 if the condition is of the whole instruction.
fn failing_operand(instr: &Instr, why: NoSpelling) -> u8
    ensures { result ≡ spec.failing_operand instr.now why }
{
    match why {
        NoSpelling::OperandKind(n) | NoSpelling::Register(n) | NoSpelling::Immediate(n) => n,
        NoSpelling::Memory | NoSpelling::Displacement => memory_place(instr),
        NoSpelling::Target => target_place(instr),
        NoSpelling::Row | NoSpelling::Prefix | NoSpelling::AddressSize | NoSpelling::Length => 0,
    }
}

/// The refusal of an instruction that fails a condition.
pub(crate) fn no_spelling(instr: &Instr, why: NoSpelling) -> Refusal
    ensures { result ≡ spec.no_spelling instr.now why }
{
    Refusal::Spelling {
        why,
        operand: failing_operand(instr, why),
    }
}

/// How many bytes the instruction of a struct has, whose displacement has a width, or why it has none.
#[tactic(auto, unfolding(crate::specs::Answers::encoding_of))]
fn len_of(bits: u32, ip: u64, instr: &FlatInstr) -> Result<u8, Refusal>
    ensures { result ≡ spec.length_told (spec.sized_answer bits ip instr.now) }
{
    let Some(bits) = bits_numbered(bits) else {
        return Err(Refusal::Mode);
    };
    let mut read = UNREAD.instr;
    let Some(()) = instr_back_into(instr, &mut read) else {
        return Err(Refusal::Instr);
    };
    match encoder::encoded_len(bits, ip, &read) {
        Ok(len) => Ok(len),
        Err(why) => Err(no_spelling(&read, why)),
    }
}

/// Whether the width of an operand's displacement is left to the library.
fn is_open(op: &FlatOperand) -> bool
    ensures { result ≡ spec.has_open_width op.now }
{
    op.kind == 2 && op.disp_bits == 255
}

/// An operand with this width if it is left to the library.
fn with_width(width: u8, op: &FlatOperand) -> FlatOperand
    ensures { result ≡ spec.with_width width op.now }
{
    if is_open(op) {
        FlatOperand {
            disp_bits: width,
            ..*op
        }
    } else {
        *op
    }
}

/// A struct with this width if it is left to the library.
#[tactic(auto, unfolding(crate::specs::Answers::of_width))]
fn of_width(width: u8, f: &FlatInstr) -> FlatInstr
    ensures { result ≡ spec.of_width width f.now }
{
    FlatInstr {
        op0: with_width(width, &f.op0),
        op1: with_width(width, &f.op1),
        op2: with_width(width, &f.op2),
        op3: with_width(width, &f.op3),
        ..*f
    }
}

/// Whether the address of a struct has a displacement of this width.
fn has_width(bits: u32, ip: u64, f: &FlatInstr, width: u8) -> bool
    ensures { result ≡ spec.has_width (spec.sized_answer bits ip (spec.of_width width f.now)) }
{
    let sized = of_width(width, f);
    match len_of(bits, ip, &sized) {
        Ok(_) => true,
        Err(Refusal::Spelling { why, .. }) => !matches!(why, NoSpelling::Displacement),
        Err(_) => true,
    }
}

/// The shortest width of a displacement that the address of a struct has, in bits.
#[tactic(auto, unfolding(crate::specs::Answers::open_width))]
fn width_of(bits: u32, ip: u64, f: &FlatInstr) -> u8
    ensures { result ≡ spec.open_width bits ip f.now }
{
    if has_width(bits, ip, f, 0) {
        0
    } else if has_width(bits, ip, f, 8) {
        8
    } else if has_width(bits, ip, f, 16) {
        16
    } else if has_width(bits, ip, f, 32) {
        32
    } else {
        64
    }
}

/// A struct whose displacement has a width: its own, or the shortest if that is left to the library.
#[tactic(auto, using(crate::proofs::Widths::of_width_closed))]
pub(crate) fn with_displacement_size(bits: u32, ip: u64, f: &FlatInstr) -> FlatInstr
    ensures { result ≡ spec.with_displacement_size bits ip f.now }
{
    if is_open(&f.op0) || is_open(&f.op1) || is_open(&f.op2) || is_open(&f.op3) {
        of_width(width_of(bits, ip, f), f)
    } else {
        *f
    }
}

/// Writes the plain spelling of an instruction if the buffer holds it, and returns how many bytes it has.
#[inline(always)]
#[tactic(auto, unfolding(crate::specs::Answers::bytes_within))]
fn put_encoding(bits: Bits, ip: u64, instr: &Instr, out: &mut [u8]) -> i32
    ensures said { result ≡ spec.count_or_refusal (spec.bytes_within (length out.old) (spec.encoding_told instr.now (encoding bits ip instr.now))) }
    ensures left { out.new ≡ spec.with_bytes out.old (spec.bytes_within (length out.old) (spec.encoding_told instr.now (encoding bits ip instr.now))) }
    ensures read_back { (n : ℕ) → result ≡ pos n → spec.IsEncodedAt (Some bits) ip (Some instr.now) out.new n }
{
    match &encoder::encode(bits, ip, instr) {
        Ok(bytes) => put_bytes(out, bytes),
        Err(why) => refusal_status(no_spelling(instr, *why)),
    }
}

/// Encodes a struct whose displacement must first get a width. Such a struct stands for no instruction yet, so structs that stand for one never get
/// here.
#[cold]
#[inline(never)]
#[tactic(auto, unfolding(crate::specs::Answers::bytes_within, crate::specs::Answers::encoding_of))]
fn encode_sized(bits: u32, mode: Bits, ip: u64, f: &FlatInstr, out: &mut [u8]) -> i32
    requires { bits_numbered bits ≡ Some mode }
    ensures said { result ≡ spec.count_or_refusal (spec.bytes_within (length out.old) (spec.encode_answer bits ip f.now)) }
    ensures left { out.new ≡ spec.with_bytes out.old (spec.bytes_within (length out.old) (spec.encode_answer bits ip f.now)) }
    ensures read_back { (n : ℕ) → result ≡ pos n → spec.IsEncodedAt (Some mode) ip (instr_back (spec.with_displacement_size bits ip f.now)) out.new n }
{
    let mut read = UNREAD.instr;
    match instr_back_into(&with_displacement_size(bits, ip, f), &mut read) {
        Some(()) => put_encoding(mode, ip, &read, out),
        None => refusal_status(Refusal::Instr),
    }
}

/// Encodes an instruction at an address in its shortest form. Writes the bytes, and returns their number.
#[tactic(auto, unfolding(crate::specs::Answers::bytes_within, crate::specs::Answers::encoding_of))]
pub fn encode(bits: u32, ip: u64, instr: &FlatInstr, out: &mut [u8]) -> i32
    ensures said { result ≡ spec.count_or_refusal (spec.bytes_within (length out.old) (spec.encode_answer bits ip instr.now)) }
    ensures left { out.new ≡ spec.with_bytes out.old (spec.bytes_within (length out.old) (spec.encode_answer bits ip instr.now)) }
    ensures read_back { (n : ℕ) → result ≡ pos n → spec.IsEncodedAt (bits_numbered bits) ip (instr_back (spec.with_displacement_size bits ip instr.now)) out.new n }
{
    let Some(mode) = bits_numbered(bits) else {
        return refusal_status(Refusal::Mode);
    };
    let mut read = UNREAD.instr;
    match instr_back_into(instr, &mut read) {
        Some(()) => put_encoding(mode, ip, &read, out),
        None => encode_sized(bits, mode, ip, instr, out),
    }
}

/// Returns the length in bytes of the shortest encoding of an instruction at an address.
pub fn encoded_len(bits: u32, ip: u64, instr: &FlatInstr) -> i32
    ensures { result ≡ spec.count_or_refusal (spec.encode_answer bits ip instr.now) }
{
    match len_of(bits, ip, &with_displacement_size(bits, ip, instr)) {
        Ok(len) => i32::from(len),
        Err(why) => refusal_status(why),
    }
}
