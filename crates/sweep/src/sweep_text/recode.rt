//! The result of `recode` for an instruction: the bytes of its plain spelling, or the first condition that fails.

ghost use Rattle.std.specs.Prelude.{◌≡◌, ◌≤◌, ◌+◌, ◌++◌, decimal};
ghost use Rattle.arrayvec.specs.ArrayVec.{array_vec_len};
ghost use Rattle.x86_values.specs.Wrapping.{modulo_width};
ghost use Rattle.encoder.specs.Encoding.{answer_bytes};
ghost use Rattle.sweep.specs.SweepText.Recode as spec;

use crate::sweep_text::line::{CHUNK_LEN, Chunk, append_bytes};
use arrayvec::ArrayVec;
use encoder::{NoSpelling, encode};
use itoa::Buffer;
use text_parts::text::{TEXT_LEN, append};
use x86_values::{Bits, Instr, wrap};

/// The number of a cause: the conditions are counted from 1.
#[tactic(auto, unfolding(crate::specs::SweepText::Recode::cause_number))]
fn cause_number(why: NoSpelling) -> u8
    ensures { result ≡ spec.cause_number why }
{
    match why {
        NoSpelling::Row => 1,
        NoSpelling::OperandKind(_) => 2,
        NoSpelling::Register(_) => 3,
        NoSpelling::Memory => 4,
        NoSpelling::Displacement => 5,
        NoSpelling::Immediate(_) => 6,
        NoSpelling::Target => 7,
        NoSpelling::Prefix => 8,
        NoSpelling::AddressSize => 9,
        NoSpelling::Length => 10,
    }
}

/// The operand that a cause names.
#[tactic(auto, unfolding(crate::specs::SweepText::Recode::cause_operand))]
fn cause_operand(why: NoSpelling) -> Option<u8>
    ensures { result ≡ spec.cause_operand why }
{
    match why {
        NoSpelling::OperandKind(operand)
        | NoSpelling::Register(operand)
        | NoSpelling::Immediate(operand) => Some(operand),
        _ => None,
    }
}

/// Appends a space and the number of an operand, if there is one.
#[tactic(auto, unfolding(crate::specs::SweepText::Recode::operand_digits))]
fn append_operand(out: &mut Chunk, operand: Option<u8>)
    requires { array_vec_len out.old + 4 ≤ CHUNK_LEN }
    ensures items { out.new.items ≡ out.old.items ++ spec.operand_digits operand }
    ensures len { array_vec_len out.new ≤ array_vec_len out.old + 4 }
{
    if let Some(operand) = operand {
        append(out, b" ");
        append(out, Buffer::new().format(operand).as_bytes());
    }
}

/// Appends why there is no spelling: a sign, the number of the cause, and that of the operand that it names.
#[inline(never)]
#[tactic(auto, unfolding(crate::specs::SweepText::Recode::cause_text))]
fn append_cause(out: &mut Chunk, why: NoSpelling)
    requires { array_vec_len out.old + TEXT_LEN ≤ CHUNK_LEN }
    ensures items { out.new.items ≡ out.old.items ++ spec.cause_text why }
    ensures len { array_vec_len out.new ≤ array_vec_len out.old + TEXT_LEN }
{
    append(out, b"! ");
    append(out, Buffer::new().format(cause_number(why)).as_bytes());
    append_operand(out, cause_operand(why));
}

/// Appends the bytes of a spelling in hexadecimal digits, or why there is none.
#[inline]
fn append_spelling(out: &mut Chunk, spelling: &Result<ArrayVec<u8, 15>, NoSpelling>)
    requires { array_vec_len out.old + TEXT_LEN ≤ CHUNK_LEN }
    ensures items { out.new.items ≡ out.old.items ++ spec.spelling_text (answer_bytes spelling.now) }
    ensures len { array_vec_len out.new ≤ array_vec_len out.old + TEXT_LEN }
{
    match spelling {
        Ok(bytes) => append_bytes(out, bytes),
        Err(why) => append_cause(out, *why),
    }
}

/// Appends the bytes of the plain spelling of an instruction at an offset from an address, which wraps in the mode, or why there is none.
#[tactic(auto, unfolding(crate::specs::SweepText::Recode::recode_text))]
pub(crate) fn append_recoded(out: &mut Chunk, bits: Bits, base: u64, offset: usize, instr: &Instr)
    requires { array_vec_len out.old + TEXT_LEN ≤ CHUNK_LEN }
    ensures items { out.new.items ≡ out.old.items ++ spec.recode_text bits (base + offset) instr.now }
    ensures len { array_vec_len out.new ≤ array_vec_len out.old + TEXT_LEN }
{
    let address = wrap(bits, u128::from(base) + offset as u128);
    append_spelling(out, &encode(bits, address, instr));
}
