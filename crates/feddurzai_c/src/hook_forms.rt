//! Further forms of detours: behind an ENDBR, and through padding; and how long a trampoline may become.

ghost use Rattle.c_calls.specs.Kept.{IsKeptCall};
ghost use Rattle.c_calls.specs.Padded.{IsPaddedCall};
ghost use Rattle.c_calls.specs.Lengths.{IsLengthCall};

use c_calls::flat::{FlatKept, FlatMovedStart, FlatPadded};
use c_calls::{kept, lengths, padded};
use std::alloc::Global;

/// Makes a detour under rules that keeps an ENDBR64 at the function's start in 64-bit mode, an ENDBR32 in 32-bit mode: the patch is for the byte behind it,
/// and the trampoline begins with it too. A function that begins with none gets the detour of `feddurzai_detour_with`. It returns 0.
///
/// `report` receives how many first bytes of the function are kept, 4 or 0, and the report of `feddurzai_detour_with` for the function behind them: its
/// offsets, and those that `moved` receives, count from the byte behind the kept ones, in the function and in the trampoline. After a refusal it has the
/// offset in the function from which the numbers of the refusal count. `ip`, `entries`, `place` and `trampoline` are about the whole function and the whole
/// trampoline.
///
/// Refusals: those of `feddurzai_detour_with`, first `Entered` if control is seen to enter the kept bytes after the first one, or with `start` 0 to go back to
/// the first one from behind them, but not by a call; `Overlaps` also if the kept bytes of the trampoline would lie in the function.
#[unsafe(no_mangle)]
pub extern "C" fn feddurzai_detour_endbr(
    alloc: Global,
    bits: u32,
    ip: u64,
    code: &[u8],
    to: u64,
    place: u64,
    start: u32,
    rules: u32,
    entries: &[u32],
    patch: &mut [u8],
    trampoline: &mut [u8],
    moved: &mut [FlatMovedStart],
    report: &mut FlatKept,
) -> i32
    ensures { IsKeptCall bits ip code.now to place start rules entries.now patch.old patch.new trampoline.old trampoline.new moved.old moved.new
        report.new result }
{
    kept::make_kept_detour(
        alloc, bits, ip, code, to, place, start, rules, entries, patch, trampoline, moved, report,
    )
}

/// Makes a detour under rules of a function that may be too small for the near jump, through the padding in front of it. `padding` are the bytes directly in
/// front of the function. `jump` receives the near jump, which goes over their last bytes, and `patch` a short jump to it. The other arguments are those of
/// `feddurzai_detour_with`. It returns 0.
///
/// `report` receives the report of `feddurzai_detour_with`, whose form is that of the near jump, and the number of bytes of the near jump. After a refusal it
/// has the numbers of that, and 1 if they are about the padding.
///
/// Refusals: `Mode`, `Start`, `TooLarge` above 1,048,576 bytes together; `Padding` with the numbers of bytes of the padding and of the near jump if the
/// padding is too short, or with the first offset in it at which no NOP and no INT3 begins; `Entered` with offsets from the first byte of the padding if control
/// is seen to go there; those of `feddurzai_detour` about what the short jump takes; `TooFar` with no numbers if the near jump reaches neither the replacement
/// nor a relay; those of `feddurzai_detour_with`; `Overlaps` also if the trampoline would lie in the padding; and `Room`. The first that applies is returned;
/// `Memory` may replace any of those after `TooLarge`.
#[unsafe(no_mangle)]
pub extern "C" fn feddurzai_detour_padding(
    alloc: Global,
    bits: u32,
    ip: u64,
    padding: &[u8],
    code: &[u8],
    to: u64,
    place: u64,
    start: u32,
    rules: u32,
    entries: &[u32],
    jump: &mut [u8],
    patch: &mut [u8],
    trampoline: &mut [u8],
    moved: &mut [FlatMovedStart],
    report: &mut FlatPadded,
) -> i32
    ensures { IsPaddedCall bits ip padding.now code.now to place start rules entries.now jump.old jump.new patch.old patch.new
        trampoline.old trampoline.new moved.old moved.new report.new result }
{
    padded::make_padded_detour(
        alloc, bits, ip, padding, code, to, place, start, rules, entries, jump, patch, trampoline,
        moved, report,
    )
}

/// Returns how many bytes are enough for the trampoline of `feddurzai_detour_with` at any place, by the function, the replacement and the rules: at most 400,
/// and 0 if there is no detour at any place. Room for it can be reserved before its place is known.
///
/// Refusals: `Mode`, `Start`, `TooLarge` above 1,048,576 bytes, `Memory`. The call allocates from the C library, and frees what it took.
#[unsafe(no_mangle)]
pub extern "C" fn feddurzai_detour_len(
    alloc: Global,
    bits: u32,
    ip: u64,
    code: &[u8],
    to: u64,
    start: u32,
    rules: u32,
) -> i32
    ensures { IsLengthCall bits ip code.now to start rules result }
{
    lengths::trampoline_len(alloc, bits, ip, code, to, start, rules)
}
