//! What control reaches.

ghost use Rattle.c_calls.specs.Flow.{IsFlow};
ghost use Rattle.c_calls.specs.FlowFrom.{IsFlowFrom, IsFlowUnlisted};

use c_calls::{flow, flow_from};
use std::alloc::Global;

/// Follows control from the first byte of some code, whose address is `base`, and returns how many offsets it reaches: `starts` receives their list in
/// ascending order, and `leaders` for each the first offset of its basic block.
///
/// From an instruction control goes to its end, unless it is a jump, a return or an undefined instruction, and to its near target, if it has one, as far as
/// there are bytes. Addresses are taken modulo 2 to the number of bits of the mode. Refusals: `Mode`, `TooLarge` above 1,048,576 bytes, `Memory`, and `Room` if
/// a buffer has fewer elements than there are reached offsets, which are no more than the bytes. Buffers are unchanged after the lists and after a refusal. The
/// call allocates from the C library, and frees what it took.
#[unsafe(no_mangle)]
pub extern "C" fn feddurzai_flow(
    alloc: Global,
    bits: u32,
    base: u64,
    bytes: &[u8],
    starts: &mut [u32],
    leaders: &mut [u32],
) -> i32
    ensures { IsFlow bits base bytes.now starts.old leaders.old starts.new leaders.new result }
{
    flow::flow(alloc, bits, base, bytes, starts, leaders)
}

/// Follows control from several first offsets of some code, whose first byte has the address `base`, and returns how many offsets it reaches. `starts` receives
/// their list in ascending order, `leaders` for each the first offset of its basic block, and `kinds` the flow of its instruction, or 0xff if none is read and
/// 0xfe if the bytes end before it does.
///
/// Control goes as in `feddurzai_flow`. A first offset at which there is no byte adds nothing, nor does one that is listed again. Each other one begins a basic
/// block. Refusals: `Mode`, `TooLarge` above 16,777,216 bytes, `Memory`, and `Room` if a buffer has fewer elements than there are reached offsets, which are no
/// more than the bytes. Buffers are unchanged after the lists and after a refusal. The call allocates from the C library, and frees what it took.
#[unsafe(no_mangle)]
pub extern "C" fn feddurzai_flow_from(
    alloc: Global,
    bits: u32,
    base: u64,
    bytes: &[u8],
    entries: &[u32],
    starts: &mut [u32],
    leaders: &mut [u32],
    kinds: &mut [u8],
) -> i32
    ensures { IsFlowFrom bits base bytes.now entries.now starts.old leaders.old kinds.old starts.new leaders.new kinds.new result }
{
    flow_from::flow_from(alloc, bits, base, bytes, entries, starts, leaders, kinds)
}

/// Follows control as `feddurzai_flow_from` does, and also through instructions that the opcode table leaves out, as far as `feddurzai_measure` measures them.
///
/// From such an instruction control goes to its end, and from XBEGIN also to its target, where an aborted transaction continues. Its kind is that of an
/// instruction after which control goes on, for XBEGIN that of a conditional branch. Refusals and buffers are those of `feddurzai_flow_from`.
#[unsafe(no_mangle)]
pub extern "C" fn feddurzai_flow_unlisted(
    alloc: Global,
    bits: u32,
    base: u64,
    bytes: &[u8],
    entries: &[u32],
    starts: &mut [u32],
    leaders: &mut [u32],
    kinds: &mut [u8],
) -> i32
    ensures { IsFlowUnlisted bits base bytes.now entries.now starts.old leaders.old kinds.old starts.new leaders.new kinds.new result }
{
    flow_from::flow_unlisted(alloc, bits, base, bytes, entries, starts, leaders, kinds)
}
