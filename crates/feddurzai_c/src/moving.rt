//! Moving code.

ghost use Rattle.c_calls.specs.Blocks.{IsBlocksMove};
ghost use Rattle.c_calls.specs.Moving.{IsMoveFollowing, IsMoveStaying};
ghost use Rattle.c_calls.specs.UnlistedMoves.{IsUnlistedMove};

use c_calls::flat::{FlatBlock, FlatBlocks, FlatMove, FlatMoved, FlatPlace};
use c_calls::{blocks, moving, unlisted_move};
use std::alloc::Global;

/// Moves code from the address `old` to the address `new`: every branch and every operand at RIP or EIP still reaches what it reached, or follows it if that is
/// moved too. It returns 0.
///
/// `out` receives the moved bytes, followed by the slots of far branches, and `map` an entry for each instruction. `report` receives the numbers of bytes and
/// of instructions, the number of bytes before the slots and the offset of the slots, also if a buffer is too small; or the numbers of the refusal. These are,
/// for `Invalid` and `TooShort` the offset, for `TooMany` (above 65,536) how many instructions there are, for `Wraps` the old or the new end modulo 2 to the
/// 64, for `TooFar` the number of the instruction, from 0, and its target. The other refusals are `Mode`, `TooLarge` above 1,048,576 bytes, `Memory` and
/// `Room`. Buffers are unchanged after what is written and after a refusal. For no bytes both ends are the new address. The call allocates from the C library,
/// and frees what it took.
#[unsafe(no_mangle)]
pub extern "C" fn feddurzai_move(
    alloc: Global,
    bits: u32,
    old: u64,
    bytes: &[u8],
    new: u64,
    out: &mut [u8],
    map: &mut [FlatMoved],
    report: &mut FlatMove,
) -> i32
    ensures { IsMoveFollowing bits old bytes.now new out.old out.new map.old map.new report.new result }
{
    moving::move_code(alloc, bits, old, bytes, new, out, map, report)
}

/// Moves code from the address `old` to the address `new` and keeps every target: each branch and each RIP or EIP operand reaches its old target,
/// also if that is one of the moved instructions. Result, report and refusals are those of `feddurzai_move`.
///
/// So a moved instruction does at its new place exactly what it did at the old one, even if it branches to itself, and a jump to the old end, placed
/// after some code, is a jump back.
#[unsafe(no_mangle)]
pub extern "C" fn feddurzai_move_outside(
    alloc: Global,
    bits: u32,
    old: u64,
    bytes: &[u8],
    new: u64,
    out: &mut [u8],
    map: &mut [FlatMoved],
    report: &mut FlatMove,
) -> i32
    ensures { IsMoveStaying bits old bytes.now new out.old out.new map.old map.new report.new result }
{
    moving::move_outside(alloc, bits, old, bytes, new, out, map, report)
}

/// Moves code as `feddurzai_move` does, also where the opcode table leaves out some of its instructions.
///
/// Such an instruction is moved whole: its bytes, with the number that is relative to the address after it set so that it refers to the same address,
/// or to the moved instruction that began there. Its form is `Near`.
///
/// Result and report are those of `feddurzai_move`. Refusals: `Mode`; `TooLarge`; `Invalid` or `TooShort` with the first offset at which neither an
/// instruction of the table nor one that is measured starts, where an XBEGIN with a 16-bit distance outside 16-bit mode counts as none; `TooMany`;
/// `Wraps` with the old end or else the new one; `TooFar`; `Room`. `Memory` may replace any of those after `TooLarge`. The call allocates from the C
/// library, and frees what it allocated.
#[unsafe(no_mangle)]
pub extern "C" fn feddurzai_move_unlisted(
    alloc: Global,
    bits: u32,
    old: u64,
    bytes: &[u8],
    new: u64,
    out: &mut [u8],
    map: &mut [FlatMoved],
    report: &mut FlatMove,
) -> i32
    ensures { IsUnlistedMove bits old bytes.now new out.old out.new map.old map.new report.new result }
{
    unlisted_move::move_unlisted(alloc, bits, old, bytes, new, out, map, report)
}

/// Moves several blocks of code at once, each to its own address. Each branch and each RIP or EIP operand still reaches its target, or follows it if
/// that is an instruction of any of the blocks. It returns 0.
///
/// A block has an old and a new address, and its bytes are the `len` bytes of `bytes` at `offset`; blocks may overlap there. A target follows the
/// instruction of the same block that starts there, otherwise the first one of another block. `out` receives the moved blocks one after another, each
/// with its slots. `places` receives for each block its end there, its number of bytes before the gap and its slots, and its number of instructions;
/// `map` receives an entry for each instruction, block by block. `report` receives the numbers of bytes and of instructions, also if a buffer is too
/// small, or the numbers of the refusal.
///
/// Refusals: `Mode`; `TooLarge` above 65,536 blocks or 1,048,576 bytes together. For the first block that cannot be decoded, with its number: `Block`
/// if it is not inside the bytes, `Wraps` if it ended past the address space, with this end modulo 2^64, `Invalid` or `TooShort` with the offset in
/// it. Then `TooMany` (above 65,536) with the number of instructions; `Wraps` with the new end past the address space and, in place of a block's
/// number, the number of blocks; `TooFar` with the block, the number of the instruction in it and its target; and `Room`. `Memory` may replace any of
/// those after `TooLarge`. Bytes of the buffers after the results, and all of them after a refusal, do not change. The call allocates from the C
/// library, and frees what it allocated.
#[unsafe(no_mangle)]
pub extern "C" fn feddurzai_move_blocks(
    alloc: Global,
    bits: u32,
    bytes: &[u8],
    blocks: &[FlatBlock],
    out: &mut [u8],
    places: &mut [FlatPlace],
    map: &mut [FlatMoved],
    report: &mut FlatBlocks,
) -> i32
    ensures { IsBlocksMove bits bytes.now blocks.now out.old out.new places.old places.new map.old map.new report.new result }
{
    blocks::move_blocks(alloc, bits, bytes, blocks, out, places, map, report)
}
