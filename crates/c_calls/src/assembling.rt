//! Reading Intel texts.

ghost use Rattle.std.specs.Prelude.{◌≡◌, Some, MatchResult, Ok, Err};
ghost use Rattle.encoder.specs.Encoding.{encoding};
ghost use Rattle.c_calls.specs.Assembling as spec;
ghost use Rattle.c_calls.specs.Back.{instr_back};
ghost use Rattle.c_calls.specs.Flat.{flat_instr};
ghost use Rattle.c_calls.specs.Numbers.{bits_numbered};

use crate::buffers::put_bytes;
use crate::flat::FlatInstr;
use crate::flatten::flat_decoded;
use crate::numbers::bits_numbered;
use crate::refusal::{Refusal, refusal_status};
use arrayvec::ArrayVec;
use encoder::encoded_len;
use intel_reader::TextError;
use x86_values::{Bits, Decoded, Instr};

/// Returns the bytes that a text stands for.
fn bytes_of(bits: u32, ip: u64, text: &[u8]) -> Result<ArrayVec<u8, 15>, Refusal>
    ensures { MatchResult result (λ bytes. spec.IsAssemblyBy (bits_numbered bits) ip text.now (Ok bytes.items)) (λ why. spec.IsAssemblyBy (bits_numbered bits) ip text.now (Err why)) }
{
    let Some(bits) = bits_numbered(bits) else {
        return Err(Refusal::Mode);
    };
    match intel_reader::assemble(bits, ip, text) {
        Ok(bytes) => Ok(bytes),
        Err(TextError::NoInstruction) => Err(Refusal::Text),
    }
}

/// Assembles an Intel text at an address. Writes the bytes, and returns their number.
#[tactic(auto, unfolding(crate::specs::Answers::bytes_within))]
pub fn assemble(bits: u32, ip: u64, text: &[u8], out: &mut [u8]) -> i32
    ensures { spec.IsAssembly bits ip text.now out.old out.new result }
{
    match bytes_of(bits, ip, text) {
        Ok(bytes) => put_bytes(out, &bytes),
        Err(why) => refusal_status(why),
    }
}

/// How many bytes the encoding of an instruction has, 0 without one.
fn length_or_zero(bits: Bits, ip: u64, instr: &Instr) -> u8
    ensures { result ≡ spec.length_or_zero (encoding bits ip instr.now) }
{
    match encoded_len(bits, ip, instr) {
        Ok(len) => len,
        Err(_) => 0,
    }
}

/// The struct of an instruction with the length of its encoding.
#[tactic(auto, unfolding(crate::specs::Flat::flat_instr))]
fn flat_encoded(bits: Bits, ip: u64, instr: Instr) -> FlatInstr
    ensures flat { result ≡ flat_instr instr (spec.length_or_zero (encoding bits ip instr)) }
    ensures back { instr_back result ≡ Some instr }
    ensures len { result.len ≡ spec.length_or_zero (encoding bits ip instr) }
{
    let len = length_or_zero(bits, ip, &instr);
    flat_decoded(&Decoded { instr, len })
}

/// Reads a text into a struct, in a mode.
fn read_into(bits: Bits, ip: u64, text: &[u8], instr: &mut FlatInstr) -> i32
    ensures { spec.IsTextReadIn bits ip text.now instr.old instr.new result }
{
    match intel_reader::read_intel(bits, ip, text) {
        Ok(read) => {
            *instr = flat_encoded(bits, ip, read);
            i32::from(instr.len)
        }
        Err(TextError::NoInstruction) => refusal_status(Refusal::Text),
    }
}

/// Reads an Intel text into a struct, and returns the length of the instruction's encoding in bytes.
pub fn read_intel(bits: u32, ip: u64, text: &[u8], instr: &mut FlatInstr) -> i32
    ensures { spec.IsTextRead bits ip text.now instr.old instr.new result }
{
    match bits_numbered(bits) {
        None => refusal_status(Refusal::Mode),
        Some(bits) => read_into(bits, ip, text, instr),
    }
}
