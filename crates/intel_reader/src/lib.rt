//! Intel texts, read as instructions: the exact inverse of the printer.
//!
//! A text stands for one instruction. Of all instructions with this text and a plain spelling of at most 15 bytes at the address, it is the one with
//! the shortest plain spelling, then with the lowest code, then with the lowest bytes.
#![tactic(auto)]

ghost use Rattle.std.specs.Prelude.{◌≡◌, ◌↔◌, IfOk, IsErr, IsTrue, Ok};
ghost use Rattle.opcode_rows.specs.Allowed.{is_well_formed};
ghost use Rattle.intel_text.specs.Text as printed;
ghost use Rattle.encoder.specs.Encoding.{encoding};
ghost use Rattle.intel_reader.specs.Assembled.{IsAssembled, AssemblesTo, IsFirst, IsNoText};
ghost use Rattle.intel_reader.specs.Choice.{assembly_of};

mod buckets;
mod candidate;
mod choice;
mod generated_buckets;
mod generated_operands;
pub mod laws;
mod lengths;
pub mod mnemonics;
mod operands;
mod possible;
mod size_words;
pub mod sizes;

use arrayvec::ArrayVec;
pub use choice::Found;
use choice::first_of;
use encoder::laws::{encodings_are_plain, plain_spelling_is_one, ten_conditions_are_exact};
use thiserror::Error;
use x86_values::{Bits, Instr};

/// Why a text cannot be read.
#[derive(Clone, Copy, PartialEq, Eq, Debug, Error)]
pub enum TextError {
    /// No instruction that has a plain spelling at the address has this text.
    #[error("no instruction has this text")]
    NoInstruction,
}

/// Returns the instruction that an Intel text stands for in a mode at an address.
///
/// `ip` is the address of the first byte; it wraps at the address size of the mode. The text must be exactly as the printer writes it: ASCII, lower
/// case, with the same spaces. Several instructions can have this text and a plain spelling of at most 15 bytes. The result is the one with the
/// shortest plain spelling, then with the lowest code, then with the lowest bytes. It is well-formed, so it can be printed. The call fails exactly if
/// there is no such instruction.
///
/// ```
/// let jump = read_intel(Bits::B64, 0x40_1000, b"jmp 0x401080")?;
/// ```
pub fn read_intel(bits: Bits, ip: u64, text: &[u8]) -> Result<Instr, TextError>
    ensures assembled { IfOk result (λ i. IsAssembled bits ip text.now i) }
    ensures none { IsErr result ↔ IsNoText bits ip text.now }
    ensures printed { IfOk result (λ i. printed.text bits i ≡ text.now) }
    ensures formed { IfOk result (λ i. IsTrue (is_well_formed i)) }
{
    match first_of(bits, ip, text) {
        Some(found) => Ok(found.instr),
        None => Err(TextError::NoInstruction),
    }
}

/// Returns the instruction that an Intel text stands for in a mode at an address, with the bytes of its plain spelling there: what [`read_intel`] and
/// [`assemble`] return. Errors are those of [`read_intel`].
pub fn read_with_bytes(bits: Bits, ip: u64, text: &[u8]) -> Result<Found, TextError>
    ensures assembled { IfOk result (λ f. IsFirst bits ip text.now (assembly_of f)) }
    ensures encoded { IfOk result (λ f. encoding bits ip f.instr ≡ Ok f.bytes.items) }
    ensures none { IsErr result ↔ IsNoText bits ip text.now }
{
    encodings_are_plain();
    ten_conditions_are_exact();
    plain_spelling_is_one();
    match first_of(bits, ip, text) {
        Some(found) => {
            // Four operands, as the proof has to know.
            let [_first, _second, _third, _fourth] = found.instr.ops;
            Ok(found)
        }
        None => Err(TextError::NoInstruction),
    }
}

/// Assembles an Intel text in a mode at an address. Returns the plain spelling, 1 to 15 bytes, of the instruction that [`read_intel`] returns. Errors
/// are those of [`read_intel`].
///
/// ```
/// let bytes = assemble(Bits::B64, 0x40_1000, b"add r12, rax")?;
/// println!(rt; "{}", hex::encode(rt.alloc(), &bytes)?)?; // 4901c4
/// ```
pub fn assemble(bits: Bits, ip: u64, text: &[u8]) -> Result<ArrayVec<u8, 15>, TextError>
    ensures assembled { IfOk result (λ bytes. AssemblesTo bits ip text.now bytes.items) }
    ensures none { IsErr result ↔ IsNoText bits ip text.now }
{
    match first_of(bits, ip, text) {
        Some(found) => Ok(found.bytes),
        None => Err(TextError::NoInstruction),
    }
}
