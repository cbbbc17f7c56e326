//! Detours of functions, with the instructions that the opcode table leaves out.

ghost use Rattle.std.specs.Prelude.{◌≡◌};
ghost use Rattle.c_calls.specs.Numbers.{bits_numbered};
ghost use Rattle.c_calls.specs.Hooks as hook_spec;
ghost use Rattle.c_calls.specs.UnlistedDetours as spec;

use crate::flat::FlatDetour;
use crate::hooks::{HookRefusal, MOST, hook_report, put_hook, start_numbered};
use crate::numbers::bits_numbered;
use detour::{Detour, detour_unlisted};
use std::alloc::Global;

/// The detour of a function, by the numbers of a mode and of what becomes of its start.
fn unlisted_hook_of(
    alloc: Global,
    bits: u32,
    ip: u64,
    code: &[u8],
    to: u64,
    place: u64,
    start: u32,
) -> Result<Detour, HookRefusal>
    ensures { spec.IsUnlistedAnswerBy (bits_numbered bits) (hook_spec.start_numbered start) ip code.now to place result }
{
    let Some(bits) = bits_numbered(bits) else {
        return Err(HookRefusal::Mode);
    };
    let Some(start) = start_numbered(start) else {
        return Err(HookRefusal::Start);
    };
    if code.len() > MOST {
        return Err(HookRefusal::TooLarge);
    }
    match detour_unlisted(alloc, bits, ip, code, to, place, start) {
        Ok(made) => Ok(made),
        Err(cause) => Err(HookRefusal::NoDetour(cause)),
    }
}

/// Makes a detour of a function: a patch and a trampoline. Instructions that the opcode table leaves out are moved and followed too.
pub fn make_unlisted_detour(
    alloc: Global,
    bits: u32,
    ip: u64,
    code: &[u8],
    to: u64,
    place: u64,
    start: u32,
    patch: &mut [u8],
    trampoline: &mut [u8],
    report: &mut FlatDetour,
) -> i32
    ensures { spec.IsUnlistedDetourCall bits ip code.now to place start patch.old patch.new trampoline.old trampoline.new report.new result }
{
    let answer = unlisted_hook_of(alloc, bits, ip, code, to, place, start);
    *report = hook_report(&answer);
    put_hook(&answer, patch, trampoline)
}
