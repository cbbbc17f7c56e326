//! Detours of functions.

ghost use Rattle.std.specs.Prelude.{◌≡◌, length};
ghost use Rattle.c_calls.specs.Numbers.{bits_numbered};
ghost use Rattle.c_calls.specs.Hooks as spec;

use crate::buffers::write_front;
use crate::flat::FlatDetour;
use crate::numbers::bits_numbered;
use crate::refusal::{Refusal, refusal_status};
use decoder::DecodeError;
use detour::{Detour, DetourError, JumpForm, StartTarget, detour};
use std::alloc::Global;

/// How many bytes a function has at most.
pub(crate) const MOST: usize = 1_048_576;

/// Why no detour is made.
#[derive(Clone, Copy)]
pub(crate) enum HookRefusal {
    /// The mode is none.
    Mode,
    /// The number of what becomes of the function\'s own start is neither of the two.
    Start,
    /// There are more than 1,048,576 bytes.
    TooLarge,
    /// There is no detour, for this cause.
    NoDetour(DetourError),
    /// A buffer is too small.
    Room,
}

/// What becomes of the function's own start, by its number.
#[tactic(auto, unfolding(crate::specs::Hooks::start_numbered))]
pub(crate) fn start_numbered(n: u32) -> Option<StartTarget>
    ensures { result ≡ spec.start_numbered n }
{
    match n {
        0 => Some(StartTarget::Moved),
        1 => Some(StartTarget::Hooked),
        _ => None,
    }
}

/// Why there is no detour, by the refusals of all calls.
pub(crate) fn detour_refusal(why: DetourError) -> Refusal
    ensures { result ≡ spec.detour_refusal why }
{
    match why {
        DetourError::Memory => Refusal::Memory,
        DetourError::BadCode { error, .. } => match error {
            DecodeError::Invalid => Refusal::Invalid,
            DecodeError::TooShort => Refusal::TooShort,
        },
        DetourError::TooSmall { .. } => Refusal::Small,
        DetourError::Ends { .. } => Refusal::Ends,
        DetourError::Entered { .. } => Refusal::Entered,
        DetourError::Wraps { .. } => Refusal::Wraps,
        DetourError::TooFar { .. } => Refusal::TooFar,
    }
}

/// Why nothing is made, by the refusals of all calls.
fn hook_refusal(why: HookRefusal) -> Refusal
    ensures { result ≡ spec.hook_refusal why }
{
    match why {
        HookRefusal::Mode => Refusal::Mode,
        HookRefusal::Start => Refusal::Start,
        HookRefusal::TooLarge => Refusal::TooLarge,
        HookRefusal::NoDetour(cause) => detour_refusal(cause),
        HookRefusal::Room => Refusal::Room,
    }
}

/// No numbers.
pub(crate) const NOTHING: FlatDetour = FlatDetour {
    taken: 0,
    bytes: 0,
    jump_back: 0,
    slots_at: 0,
    relay_at: 0,
    at: 0,
    target: 0,
    form: 0,
};

/// The numbers of a cause.
pub(crate) fn cause_report(why: DetourError) -> FlatDetour
    ensures { result ≡ spec.cause_report why }
{
    match why {
        DetourError::Memory => NOTHING,
        DetourError::BadCode { at, .. } => FlatDetour { at, ..NOTHING },
        DetourError::TooSmall { len, need } => FlatDetour {
            at: len,
            target: need,
            ..NOTHING
        },
        DetourError::Ends { at } => FlatDetour { at, ..NOTHING },
        DetourError::Entered { from, target } => FlatDetour {
            at: from,
            target,
            ..NOTHING
        },
        DetourError::Wraps { end } => FlatDetour {
            target: (end % 0x1_0000_0000_0000_0000) as u64,
            ..NOTHING
        },
        DetourError::TooFar { at, target } => FlatDetour {
            at,
            target,
            ..NOTHING
        },
    }
}

/// The numbers of a refusal.
fn refusal_report(why: HookRefusal) -> FlatDetour
    ensures { result ≡ spec.refusal_report why }
{
    match why {
        HookRefusal::NoDetour(cause) => cause_report(cause),
        _ => NOTHING,
    }
}

/// The number of the form of a jump.
fn jump_number(form: JumpForm) -> u8
    ensures { result ≡ spec.jump_number form }
{
    match form {
        JumpForm::Near => 1,
        JumpForm::Relay => 2,
        JumpForm::Absolute => 3,
    }
}

/// The offset of a part, and the end if there is none.
fn offset_or(offset: Option<usize>, end: u64) -> u64
    ensures { result ≡ spec.offset_or offset end }
{
    match offset {
        Some(offset) => offset as u64,
        None => end,
    }
}

/// The offset of a jump back, and the end if there is none.
fn jump_back_or(offset: Option<u64>, end: u64) -> u64
    ensures { result ≡ spec.offset_or offset end }
{
    match offset {
        Some(offset) => offset,
        None => end,
    }
}

/// The numbers of a detour.
pub(crate) fn detour_report(d: &Detour) -> FlatDetour
    ensures { result ≡ spec.detour_report d.now }
{
    let bytes = d.trampoline().len() as u64;
    let parts = d.parts();
    FlatDetour {
        taken: d.taken() as u64,
        bytes,
        jump_back: jump_back_or(parts.jump_back, bytes),
        slots_at: offset_or(parts.slots, bytes),
        relay_at: offset_or(parts.relay, bytes),
        form: jump_number(d.form()),
        ..NOTHING
    }
}

/// Returns the report of a result.
pub(crate) fn hook_report(answer: &Result<Detour, HookRefusal>) -> FlatDetour
    ensures { result ≡ spec.hook_report answer.now }
{
    match answer {
        Ok(made) => detour_report(made),
        Err(why) => refusal_report(*why),
    }
}

/// The detour of a function, by the numbers of a mode and of what becomes of its start.
fn hook_of(
    alloc: Global,
    bits: u32,
    ip: u64,
    code: &[u8],
    to: u64,
    place: u64,
    start: u32,
) -> Result<Detour, HookRefusal>
    ensures { spec.IsDetourAnswerBy (bits_numbered bits) (spec.start_numbered start) ip code.now to place result }
{
    let Some(bits) = bits_numbered(bits) else {
        return Err(HookRefusal::Mode);
    };
    let Some(start) = start_numbered(start) else {
        return Err(HookRefusal::Start);
    };
    if code.len() > MOST {
        return Err(HookRefusal::TooLarge);
    }
    match detour(alloc, bits, ip, code, to, place, start) {
        Ok(made) => Ok(made),
        Err(cause) => Err(HookRefusal::NoDetour(cause)),
    }
}

/// Writes the patch and the trampoline, if both buffers are large enough.
#[tactic(auto, unfolding(crate::specs::Hooks::hook_within))]
pub(crate) fn put_hook(
    answer: &Result<Detour, HookRefusal>,
    patch: &mut [u8],
    trampoline: &mut [u8],
) -> i32
    ensures said { result ≡ spec.hook_said (spec.hook_within (length patch.old) (length trampoline.old) answer.now) }
    ensures patch { patch.new ≡ spec.patch_left patch.old (spec.hook_within (length patch.old) (length trampoline.old) answer.now) }
    ensures trampoline { trampoline.new ≡ spec.trampoline_left trampoline.old (spec.hook_within (length patch.old) (length trampoline.old) answer.now) }
{
    match answer {
        Ok(made) => {
            if made.patch().len() > patch.len() || made.trampoline().len() > trampoline.len() {
                return refusal_status(Refusal::Room);
            }
            write_front(patch, made.patch());
            write_front(trampoline, made.trampoline());
            0
        }
        Err(why) => refusal_status(hook_refusal(*why)),
    }
}

/// Makes a detour of a function: a patch and a trampoline.
pub fn make_detour(
    alloc: Global,
    bits: u32,
    ip: u64,
    code: &[u8],
    to: u64,
    place: u64,
    start: u32,
    patch: &mut [u8],
    trampoline: &mut [u8],
    report: &mut FlatDetour,
) -> i32
    ensures { spec.IsDetourCall bits ip code.now to place start patch.old patch.new trampoline.old trampoline.new report.new result }
{
    let answer = hook_of(alloc, bits, ip, code, to, place, start);
    *report = hook_report(&answer);
    put_hook(&answer, patch, trampoline)
}
