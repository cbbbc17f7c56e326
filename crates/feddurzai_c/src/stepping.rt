//! The code of a single step.

ghost use Rattle.c_calls.specs.Numbers.{bits_numbered};
ghost use Rattle.c_calls.specs.StepCalls.{IsStepCall};
ghost use Rattle.c_calls.specs.Steps.{IsStep, IsStepLen};
ghost use Rattle.c_calls.specs.UnlistedSteps.{IsUnlistedStepSaid};

use c_calls::flat::FlatStep;
use c_calls::{step_calls, stepping, unlisted_step};
use std::alloc::Global;

/// Writes the code with which the instruction at the start of some bytes, whose address is `ip`, is stepped at another place: its image at `place`, which
/// reaches what the instruction reached, even if that is the instruction itself, and a jump back to the address after it. It returns the number of bytes, 1 to
/// 53.
///
/// `report` receives that number, the offset of the jump back, the number of bytes of the instruction and the offset from which on it has happened, also if the
/// buffer is too small; or the address of the refusal. The buffer is unchanged after the bytes, and after a refusal: `Mode`; `Invalid` or `TooShort`; `Wraps` if the code would end past the address
/// space, with that end modulo 2 to the 64; `TooFar` if the instruction cannot reach its target, with that; `Room`. `Memory` may replace any of those after
/// `TooShort`. The call allocates from the C library, and frees what it took.
#[unsafe(no_mangle)]
pub extern "C" fn feddurzai_step(
    alloc: Global,
    bits: u32,
    ip: u64,
    bytes: &[u8],
    place: u64,
    out: &mut [u8],
    report: &mut FlatStep,
) -> i32
    ensures { IsStep bits ip bytes.now place out.old out.new report.new result }
{
    stepping::step(alloc, bits, ip, bytes, place, out, report)
}

/// Returns how many bytes `feddurzai_step` writes at most for the instruction at the start of some bytes, at any place that is a multiple of 16 bytes after
/// `base`: 1 to 53. So many are reserved in a region with that base. Refusals: `Mode`, `Invalid`, `TooShort`.
#[unsafe(no_mangle)]
pub extern "C" fn feddurzai_step_len(bits: u32, ip: u64, bytes: &[u8], base: u64) -> i32
    ensures { IsStepLen (bits_numbered bits) ip bytes.now base result }
{
    stepping::step_len(bits, ip, bytes, base)
}

/// Writes the code with which the near CALL at the start of some bytes, whose address is `ip`, is stepped at another place, so that the called code sees the
/// CALL's own return address: PUSH of that address, in 64-bit mode also MOV of its high half, and a jump to the target. It returns the number of bytes, at
/// most 43.
///
/// `report` receives that number, the number of bytes of the CALL and those of the PUSH, also if the buffer is too small; its offset of a jump back is 0, since
/// there is none. Or it receives the address of the refusal. The buffer is unchanged after the bytes, and after a refusal: `Mode`; `Invalid` or `TooShort`;
/// `Form` if the instruction is no near CALL of the mode's own operand size, or one that no jump can stand for; `Wraps` and `TooFar` as for `feddurzai_step`;
/// `Room`. `Memory` may replace any of those after `Form`. The call allocates from the C library, and frees what it took.
#[unsafe(no_mangle)]
pub extern "C" fn feddurzai_step_call(
    alloc: Global,
    bits: u32,
    ip: u64,
    bytes: &[u8],
    place: u64,
    out: &mut [u8],
    report: &mut FlatStep,
) -> i32
    ensures { IsStepCall bits ip bytes.now place out.old out.new report.new result }
{
    step_calls::step_call(alloc, bits, ip, bytes, place, out, report)
}

/// Writes the code with which the instruction at the start of some bytes, whose address is `ip`, is stepped at another place, if the opcode table leaves it
/// out: its bytes at `place`, which refer to what they referred to, and a near jump back to the address after it. It returns the number of bytes, 4 to 20.
///
/// `report` receives that number, the length of the instruction, which is also the offset of the jump back and that from which on it has happened, also if the
/// buffer is too small; or the address of the refusal. The buffer is unchanged after the bytes, and after a refusal: `Mode`; `TooShort` if the bytes, fewer than
/// 15, end inside an encoding that is measured; `Invalid` if they begin with no such encoding, or with an instruction of the table; `Wraps` if the code would
/// end past the address space, with that end modulo 2 to the 64; `TooFar` if the instruction or the jump back does not reach its address, with that; `Room`.
#[unsafe(no_mangle)]
pub extern "C" fn feddurzai_step_unlisted(
    bits: u32,
    ip: u64,
    bytes: &[u8],
    place: u64,
    out: &mut [u8],
    report: &mut FlatStep,
) -> i32
    ensures { IsUnlistedStepSaid bits ip bytes.now place out.old out.new report.new result }
{
    unlisted_step::step_unlisted(bits, ip, bytes, place, out, report)
}
