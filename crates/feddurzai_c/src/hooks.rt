//! Detours of functions, and what is seen of a function before one is made.

ghost use Rattle.c_calls.specs.Hooks.{IsDetourCall};
ghost use Rattle.c_calls.specs.Looking.{IsLook};
ghost use Rattle.c_calls.specs.Ruled.{IsRuledCall};

use c_calls::flat::{FlatDetour, FlatHook, FlatMovedStart, FlatView};
use c_calls::{hooks, ruled, sight};
use std::alloc::Global;

/// Makes a detour of the function whose bytes from its first one on, at the address `ip`, are `code`, to the replacement at the address `to`. `patch` receives
/// the bytes to write over its first ones, and `trampoline` those of the trampoline for the address `place`. It returns 0.
///
/// The jump of the patch is the first of these that reaches: the near jump of the mode; in 64-bit mode one to a relay at the end of the trampoline; 14 bytes
/// with the address. The instructions that it overwrites are moved to the trampoline, followed by a jump back unless control ends there. With `start` 0 a moved
/// branch to the function's own start goes to its moved first instruction, with 1 it goes to the replacement. Nothing else is written.
///
/// `report` receives the number of bytes that are overwritten, which is that of the patch, the number of bytes of the trampoline, the form of the jump (1, 2,
/// 3), and the offsets in the trampoline of the jump back, the slots and the relay, each the end of the trampoline if there is none; also if a buffer is too
/// small. Or it receives the numbers of the refusal. These are `Mode`, `Start` if `start` is neither, `TooLarge` above 1,048,576 bytes; `Invalid` or `TooShort`
/// with the offset, in the part to be overwritten, at which no instruction is read; `Small` with the numbers of bytes of the code and of the jump; `Ends` with
/// the offset of code that is no padding after an instruction that never continues; `Entered` with the offset from which control may enter what is overwritten,
/// after its first byte, and the offset that it enters; `Wraps` with the end of the trampoline modulo 2 to the 64; `TooFar` with the number of the instruction,
/// from 0, and its target; and `Room`. The first that applies is returned; `Memory` may replace any of those after `TooLarge`. Buffers are unchanged after what
/// is written and after a refusal. The call allocates from the C library, and frees what it took.
#[unsafe(no_mangle)]
pub extern "C" fn feddurzai_detour(
    alloc: Global,
    bits: u32,
    ip: u64,
    code: &[u8],
    to: u64,
    place: u64,
    start: u32,
    patch: &mut [u8],
    trampoline: &mut [u8],
    report: &mut FlatDetour,
) -> i32
    ensures { IsDetourCall bits ip code.now to place start patch.old patch.new trampoline.old trampoline.new report.new result }
{
    hooks::make_detour(
        alloc, bits, ip, code, to, place, start, patch, trampoline, report,
    )
}

/// Writes what is seen of the function whose bytes from its first one on, at the address `ip`, are `code`, and whose first `taken` bytes a hook overwrites.
/// It returns 0.
///
/// `entries` are further offsets at which control comes in; one past the end of the bytes adds nothing. `moved` are the offsets at which the instructions
/// begin that the hook moves. Control is followed from the first byte and from the entries, as in `feddurzai_flow_from`. Sight ends at the first reached
/// offset where no instruction is read (1), or an indirect jump (2), or where the code ends within an instruction or after one that goes on (3). Control
/// enters if it goes from a reached offset behind the overwritten bytes into them, after the first one, or from a moved instruction to where none begins;
/// with `start` 1 also if it goes to the start from behind them, but not by a call. An entry within the overwritten bytes after the first one is reported. If
/// sight ends, the first offset behind them is too that was not reached and is read as an instruction which enters them so. Of several the one from the least
/// offset is reported, with the least target.
///
/// Refusals: `Mode`, `Start` if `start` is neither 0 nor 1, `TooLarge` above 1,048,576 bytes, `Memory`. The struct is then unchanged. The call allocates from
/// the C library, and frees what it took.
#[unsafe(no_mangle)]
pub extern "C" fn feddurzai_look(
    alloc: Global,
    bits: u32,
    ip: u64,
    code: &[u8],
    entries: &[u32],
    taken: u64,
    moved: &[u32],
    start: u32,
    view: &mut FlatView,
) -> i32
    ensures { IsLook bits ip code.now entries.now taken moved.now start view.old view.new result }
{
    sight::look(alloc, bits, ip, code, entries, taken, moved, start, view)
}

/// Makes a detour under rules: as `feddurzai_detour` does, but an address at RIP or EIP stays the same even if it lies in what is overwritten; the
/// function is looked at as `feddurzai_look` does, and the detour is refused if control is seen to enter what it overwrites. It returns 0.
///
/// `entries` are further offsets at which control comes in. With `start` 0 a way back to the start from behind the overwritten bytes enters too, unless it is a
/// call. `rules` is the sum of 1, to refuse a function of which not everything is seen; 2, to let a near CALL that is the last moved instruction push its own
/// return address and jump, where it can, so that nothing jumps back; and 4, to refuse any other moved call, which hands an address in the trampoline to what
/// it calls. `moved` receives the offsets in the function at which the moved instructions begin, and those of their images in the trampoline, in order.
/// `report` receives the report of the detour, what is seen, the number of the moved instructions, and the offset of the first call that is moved as it is, or
/// else the number of bytes that are overwritten; also if a buffer is too small. After another refusal it has the numbers of that; the others are 0.
///
/// Refusals: those of `feddurzai_detour` before `Room`, `Start` also if `rules` is above 7; `Overlaps` if the trampoline would lie in the bytes of the function;
/// `Calls` with the offset of the call; `Entered` with the least entry within the overwritten bytes after the first one, as both offsets, or with the first
/// offset from which control enters them and the one that it enters; `Unseen` with the first offset at which sight ends and why (1, 2, 3 as in
/// `feddurzai_look`); and `Room`. The first that applies is returned; `Memory` may replace any of those after `TooLarge`. Buffers are unchanged after what is
/// written and after a refusal. The call allocates from the C library, and frees what it took.
#[unsafe(no_mangle)]
pub extern "C" fn feddurzai_detour_with(
    alloc: Global,
    bits: u32,
    ip: u64,
    code: &[u8],
    to: u64,
    place: u64,
    start: u32,
    rules: u32,
    entries: &[u32],
    patch: &mut [u8],
    trampoline: &mut [u8],
    moved: &mut [FlatMovedStart],
    report: &mut FlatHook,
) -> i32
    ensures { IsRuledCall bits ip code.now to place start rules entries.now patch.old patch.new trampoline.old trampoline.new moved.old moved.new
        report.new result }
{
    ruled::make_detour_with(
        alloc, bits, ip, code, to, place, start, rules, entries, patch, trampoline, moved, report,
    )
}
