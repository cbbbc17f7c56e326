//! Reading instructions.

ghost use Rattle.c_calls.specs.Answers.{IsDecoded};
ghost use Rattle.c_calls.specs.Lines.{IsLine, IsLineText};
ghost use Rattle.c_calls.specs.Many.{IsMany};
ghost use Rattle.c_calls.specs.Measuring.{IsShapeOf};
ghost use Rattle.c_calls.specs.Numbers.{bits_numbered};
ghost use Rattle.c_calls.specs.Offsets.{AreOffsetsOf};

use c_calls::flat::{FlatInstr, FlatOffsets, FlatShape};
use c_calls::{decoding, line, many, measuring, offsets};

/// Reads the instruction at the start of some bytes into a struct, and returns its length, 1 to 15.
///
/// `ip` is the address of the first byte, modulo 2 to the number of bits of the mode. Refusals: `Mode`, `Invalid`, `TooShort`; the struct is then unchanged
/// (Intel SDM volume 2, 2.1 to 2.3).
#[unsafe(no_mangle)]
pub extern "C" fn feddurzai_decode(bits: u32, ip: u64, bytes: &[u8], instr: &mut FlatInstr) -> i32
    ensures { IsDecoded (bits_numbered bits) ip bytes.now instr.old instr.new result }
{
    decoding::decode(bits, ip, bytes, instr)
}

/// Decodes many instructions: the items of a sweep over some bytes, as many as the buffer has structs for, 67,108,864 at most. It returns how many
/// bytes they take, and `count` receives the number of items.
///
/// An item is an instruction with its length. If none starts there, the item is a single byte: a struct of zeros with the length 1 and the code
/// 0xffff for `Invalid` or 0xfffe for `TooShort`. `ip` is the address of the first byte; addresses wrap at the address size of the mode. The buffer
/// does not change after the items. The refusal is `Mode`; it leaves the buffer and `count` unchanged.
#[unsafe(no_mangle)]
pub extern "C" fn feddurzai_decode_many(
    bits: u32,
    ip: u64,
    bytes: &[u8],
    instrs: &mut [FlatInstr],
    count: &mut usize,
) -> i32
    ensures { IsMany bits ip bytes.now instrs.old instrs.new count.old count.new result }
{
    many::decode_many(bits, ip, bytes, instrs, count)
}

/// Finds the parts of the instruction at the start of some bytes, and returns its length, 1 to 15. They do not depend on its address.
///
/// Refusals: `Mode`, `Invalid`, `TooShort`; the struct is then unchanged (Intel SDM volume 2, 2.1, figure 2-1).
#[unsafe(no_mangle)]
pub extern "C" fn feddurzai_offsets(bits: u32, bytes: &[u8], parts: &mut FlatOffsets) -> i32
    ensures { AreOffsetsOf (bits_numbered bits) bytes.now parts.old parts.new result }
{
    offsets::offsets(bits, bytes, parts)
}

/// Measures the instruction at the start of some bytes if the opcode table leaves it out, by its encoding format alone, and returns its length, 1 to 15.
///
/// Refusals: `Mode`; `TooShort` if the bytes, fewer than 15, end inside an encoding that is measured; `Invalid` if no such encoding starts there, or an
/// instruction of the table does. The struct is then unchanged (Intel SDM volume 2, 2.3, 2.7 and appendix A).
#[unsafe(no_mangle)]
pub extern "C" fn feddurzai_measure(bits: u32, bytes: &[u8], shape: &mut FlatShape) -> i32
    ensures { IsShapeOf (bits_numbered bits) bytes.now shape.old shape.new result }
{
    measuring::measure(bits, bytes, shape)
}

/// Reads the instruction at the start of some bytes into a struct, writes its text with a terminating 0, and returns its length, 1 to 15.
///
/// It does what `feddurzai_decode` and `feddurzai_text` do in two calls. Refusals: `Mode`, `Syntax`, `Invalid` or `TooShort`, `Room`, the first that applies;
/// struct and buffer are then unchanged (Intel SDM volume 2, 2.1 to 2.3).
#[unsafe(no_mangle)]
pub extern "C" fn feddurzai_line(
    bits: u32,
    syntax: u32,
    ip: u64,
    bytes: &[u8],
    instr: &mut FlatInstr,
    out: &mut [u8],
) -> i32
    ensures { IsLine bits syntax ip bytes.now instr.old instr.new out.old out.new result }
{
    line::line(bits, syntax, ip, bytes, instr, out)
}

/// Writes the text of the instruction at the start of some bytes with a terminating 0, and returns the length of the instruction: `feddurzai_line` without a
/// struct, with its refusals.
#[unsafe(no_mangle)]
pub extern "C" fn feddurzai_line_text(
    bits: u32,
    syntax: u32,
    ip: u64,
    bytes: &[u8],
    out: &mut [u8],
) -> i32
    ensures { IsLineText bits syntax ip bytes.now out.old out.new result }
{
    line::line_text(bits, syntax, ip, bytes, out)
}
