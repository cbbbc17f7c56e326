//! How long a trampoline may become, before its place is known.

ghost use Rattle.std.specs.Prelude.{◌≡◌};
ghost use Rattle.c_calls.specs.Numbers.{bits_numbered};
ghost use Rattle.c_calls.specs.Hooks.{start_numbered};
ghost use Rattle.c_calls.specs.Ruled as ruled_spec;
ghost use Rattle.c_calls.specs.Lengths as spec;

use crate::hooks::MOST;
use crate::numbers::bits_numbered;
use crate::refusal::{Refusal, refusal_status};
use crate::ruled::rules_numbered;
use detour::lengths::detour_len;
use std::alloc::Global;

/// A length, or why there is none.
fn length_of(
    alloc: Global,
    bits: u32,
    ip: u64,
    code: &[u8],
    to: u64,
    start: u32,
    rules: u32,
) -> Result<usize, Refusal>
    ensures { spec.IsLengthBy (bits_numbered bits) (ruled_spec.rules_numbered (start_numbered start) rules) ip code.now to result }
{
    let Some(bits) = bits_numbered(bits) else {
        return Err(Refusal::Mode);
    };
    let Some(rules) = rules_numbered(start, rules) else {
        return Err(Refusal::Start);
    };
    if code.len() > MOST {
        return Err(Refusal::TooLarge);
    }
    match detour_len(alloc, bits, ip, code, to, rules) {
        Ok(len) => Ok(len),
        Err(_) => Err(Refusal::Memory),
    }
}

/// Returns how many bytes are enough for the trampoline of a detour by rules, wherever it will be placed.
pub fn trampoline_len(
    alloc: Global,
    bits: u32,
    ip: u64,
    code: &[u8],
    to: u64,
    start: u32,
    rules: u32,
) -> i32
    ensures { spec.IsLengthCall bits ip code.now to start rules result }
{
    match length_of(alloc, bits, ip, code, to, start, rules) {
        Ok(len) => len as i32,
        Err(why) => refusal_status(why),
    }
}
