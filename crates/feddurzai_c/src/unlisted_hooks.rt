//! Calls that go on at instructions which the opcode table leaves out.

ghost use Rattle.c_calls.specs.UnlistedDetours.{IsUnlistedDetourCall};

use c_calls::flat::FlatDetour;
use c_calls::unlisted_detour;
use std::alloc::Global;

/// Makes a detour of a function as `feddurzai_detour` does, also where the opcode table leaves out some of its instructions.
///
/// An instruction without a row may be overwritten. It is moved whole: its bytes, with the number that is relative to the address after it set so that it
/// refers to the same address, or to the moved instruction that began there. Control is followed through such instructions, and from XBEGIN also to where an
/// aborted transaction continues; so a function whose loop has one is refused (`Entered`) if control enters what is overwritten.
///
/// Result, report and refusals are those of `feddurzai_detour`. An XBEGIN with a 16-bit distance outside 16-bit mode counts as no instruction in the part to
/// be overwritten. The call allocates from the C library, and frees what it took.
#[unsafe(no_mangle)]
pub extern "C" fn feddurzai_detour_unlisted(
    alloc: Global,
    bits: u32,
    ip: u64,
    code: &[u8],
    to: u64,
    place: u64,
    start: u32,
    patch: &mut [u8],
    trampoline: &mut [u8],
    report: &mut FlatDetour,
) -> i32
    ensures { IsUnlistedDetourCall bits ip code.now to place start patch.old patch.new trampoline.old trampoline.new report.new result }
{
    unlisted_detour::make_unlisted_detour(
        alloc, bits, ip, code, to, place, start, patch, trampoline, report,
    )
}
