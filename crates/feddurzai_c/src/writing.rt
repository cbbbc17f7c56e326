//! Writing instructions, from structs and from texts.

ghost use Rattle.std.specs.Prelude.{length, pos, ℕ, ◌≡◌};
ghost use Rattle.c_calls.specs.Answers.{IsEncodedAt, bytes_within, count_or_refusal, encode_answer, with_bytes, with_displacement_size};
ghost use Rattle.c_calls.specs.Assembling.{IsAssembly, IsTextRead};
ghost use Rattle.c_calls.specs.Back.{instr_back};
ghost use Rattle.c_calls.specs.Jumps.{jump_answer};
ghost use Rattle.c_calls.specs.Numbers.{bits_numbered};

use c_calls::flat::FlatInstr;
use c_calls::{assembling, encoding, jump};

/// Writes the plain (shortest) spelling of an instruction at an address, and returns its number of bytes, 1 to 15.
///
/// `ip` is the address of the first byte, modulo 2 to the number of bits of the mode. The length in the struct is ignored. A displacement of the width 255 gets
/// the shortest width that its address has. The buffer is unchanged after the bytes. Refusals: `Mode`, `Instr`, `Spelling`, `Room`, the first that applies; the
/// buffer is then unchanged. `Spelling` has the first of the ten conditions of a plain spelling that fails, and the operand that fails it (Intel SDM volume 2,
/// 2.1 to 2.3).
#[unsafe(no_mangle)]
pub extern "C" fn feddurzai_encode(bits: u32, ip: u64, instr: &FlatInstr, out: &mut [u8]) -> i32
    ensures said { result ≡ count_or_refusal (bytes_within (length out.old) (encode_answer bits ip instr.now)) }
    ensures left { out.new ≡ with_bytes out.old (bytes_within (length out.old) (encode_answer bits ip instr.now)) }
    ensures read_back { (n : ℕ) → result ≡ pos n → IsEncodedAt (bits_numbered bits) ip (instr_back (with_displacement_size bits ip instr.now)) out.new n }
{
    encoding::encode(bits, ip, instr, out)
}

/// Returns the number of bytes of the plain (shortest) spelling of an instruction at an address, 1 to 15. The refusals are those of `feddurzai_encode`, without
/// `Room`.
#[unsafe(no_mangle)]
pub extern "C" fn feddurzai_encoded_len(bits: u32, ip: u64, instr: &FlatInstr) -> i32
    ensures { result ≡ count_or_refusal (encode_answer bits ip instr.now) }
{
    encoding::encoded_len(bits, ip, instr)
}

/// Assembles an Intel text at an address. Writes the bytes, and returns their number, 1 to 15.
///
/// `ip` is the address of the first byte; it wraps at the address size of the mode. The text must be one that `feddurzai_text` writes in Intel style,
/// without a terminating 0. Among the instructions with this text that have a plain spelling there, it is the one with the shortest spelling, then
/// the one with the lowest code, then the one with the lowest bytes. Refusals: `Mode`, `Text` exactly if there is none, `Room`, the first that
/// applies; the buffer does not change then.
#[unsafe(no_mangle)]
pub extern "C" fn feddurzai_assemble(bits: u32, ip: u64, text: &[u8], out: &mut [u8]) -> i32
    ensures { IsAssembly bits ip text.now out.old out.new result }
{
    assembling::assemble(bits, ip, text, out)
}

/// Reads an Intel text into a struct: the instruction whose bytes `feddurzai_assemble` writes. It returns their number, which is also the length in the struct.
///
/// Refusals: `Mode`, `Text`; the struct is then unchanged.
#[unsafe(no_mangle)]
pub extern "C" fn feddurzai_read_intel(
    bits: u32,
    ip: u64,
    text: &[u8],
    instr: &mut FlatInstr,
) -> i32
    ensures { IsTextRead bits ip text.now instr.old instr.new result }
{
    assembling::read_intel(bits, ip, text, instr)
}

/// Writes a jump to a target or a call of it, in a form, for the address `at`, and returns its number of bytes, at most 16.
///
/// Form 1 is a jump with an offset of 8 bits, 2 a jump with one of 32 bits (16 in 16-bit code), and 4 such a call. In 64-bit mode form 3 is a jump to any
/// address, which follows it, and 5 such a call, which returns to the end of the address (Intel SDM volume 2, CALL and JMP). Refusals: `Mode`, `Jump`,
/// `Spelling` if the target is out of reach or the mode has no such form, `Room`, the first that applies; the buffer is then unchanged.
#[unsafe(no_mangle)]
pub extern "C" fn feddurzai_jump(bits: u32, at: u64, target: u64, form: u32, out: &mut [u8]) -> i32
    ensures said { result ≡ count_or_refusal (bytes_within (length out.old) (jump_answer bits at target form)) }
    ensures left { out.new ≡ with_bytes out.old (bytes_within (length out.old) (jump_answer bits at target form)) }
{
    jump::jump(bits, at, target, form, out)
}
