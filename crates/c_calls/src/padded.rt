//! Detours through the padding in front of a function.

ghost use Rattle.std.specs.Prelude.{◌≡◌, length, IfOk};
ghost use Rattle.c_calls.specs.Numbers.{bits_numbered};
ghost use Rattle.c_calls.specs.Hooks.{start_numbered};
ghost use Rattle.c_calls.specs.Ruled as ruled_spec;
ghost use Rattle.c_calls.specs.Padded as spec;

use crate::buffers::write_front;
use crate::flat::{FlatDetour, FlatHook, FlatMovedStart, FlatPadded};
use crate::hooks::{MOST, NOTHING};
use crate::numbers::bits_numbered;
use crate::refusal::{Refusal, refusal_status};
use crate::ruled::{NO_VIEW, rule_refusal, rule_report, rules_numbered, seen_report, write_moved};
use detour::{HookRules, PaddedDetour, PaddingError, detour_through_padding};
use std::alloc::Global;
use x86_values::Bits;

/// Why no detour is made through padding.
#[derive(Clone, Copy)]
pub(crate) enum PaddedRefusal {
    /// The mode is none.
    Mode,
    /// The number of what becomes of the function's own start is neither of the two, or the rules have a bit without a meaning.
    Start,
    /// The padding and the function have more than 1,048,576 bytes.
    TooLarge,
    /// There is no detour, for this cause.
    NoDetour(PaddingError),
    /// A buffer is too small.
    Room,
}

/// Why there is no detour, by the refusals of all calls.
fn padding_refusal(why: PaddingError) -> Refusal
    ensures { result ≡ spec.padding_refusal why }
{
    match why {
        PaddingError::TooShort { .. } | PaddingError::NotPadding { .. } => Refusal::Padding,
        PaddingError::Entered { .. } => Refusal::Entered,
        PaddingError::OutOfReach => Refusal::TooFar,
        PaddingError::Function(cause) => rule_refusal(cause),
        PaddingError::Overlaps => Refusal::Overlaps,
    }
}

/// Why nothing is made, by the refusals of all calls.
fn padded_refusal(why: PaddedRefusal) -> Refusal
    ensures { result ≡ spec.padded_refusal why }
{
    match why {
        PaddedRefusal::Mode => Refusal::Mode,
        PaddedRefusal::Start => Refusal::Start,
        PaddedRefusal::TooLarge => Refusal::TooLarge,
        PaddedRefusal::NoDetour(cause) => padding_refusal(cause),
        PaddedRefusal::Room => Refusal::Room,
    }
}

/// The numbers of a cause.
fn padding_report(why: PaddingError) -> FlatDetour
    ensures { result ≡ spec.padding_report why }
{
    match why {
        PaddingError::TooShort { len, need } => FlatDetour {
            at: len as u64,
            target: need as u64,
            ..NOTHING
        },
        PaddingError::NotPadding { at } => FlatDetour {
            at: at as u64,
            ..NOTHING
        },
        PaddingError::Entered { from, target } => FlatDetour {
            at: from as u64,
            target: target as u64,
            ..NOTHING
        },
        PaddingError::Function(cause) => rule_report(cause),
        PaddingError::OutOfReach | PaddingError::Overlaps => NOTHING,
    }
}

/// Whether a cause is about the padding or the jump in it: 1 if so, else 0.
fn about_padding(why: PaddingError) -> u64
    ensures { result ≡ spec.about_padding why }
{
    match why {
        PaddingError::Function(_) => 0,
        _ => 1,
    }
}

/// The numbers of a refusal, and whether it is about the padding.
fn refusal_numbers(why: PaddedRefusal) -> (FlatDetour, u64)
    ensures { result ≡ spec.refusal_numbers why }
{
    match why {
        PaddedRefusal::NoDetour(cause) => (padding_report(cause), about_padding(cause)),
        _ => (NOTHING, 0),
    }
}

/// Returns the report of a result.
fn padded_report(answer: &Result<PaddedDetour, PaddedRefusal>) -> FlatPadded
    ensures { result ≡ spec.padded_report answer.now }
{
    match answer {
        Ok(made) => FlatPadded {
            hook: seen_report(made.seen()),
            jump: made.jump().len() as u64,
            padding: 0,
        },
        Err(why) => {
            let (detour, padding) = refusal_numbers(*why);
            FlatPadded {
                hook: FlatHook {
                    detour,
                    view: NO_VIEW,
                    moved: 0,
                    call: 0,
                },
                jump: 0,
                padding,
            }
        }
    }
}

/// The detour of a function through its padding, in a mode and by rules.
fn padded_in(
    alloc: Global,
    bits: Bits,
    ip: u64,
    padding: &[u8],
    code: &[u8],
    to: u64,
    place: u64,
    entries: &[u32],
    rules: HookRules,
) -> Result<PaddedDetour, PaddedRefusal>
    ensures { spec.IsPaddedIn bits ip padding.now code.now to place entries.now rules result }
{
    if padding.len() > MOST || code.len() > MOST - padding.len() {
        return Err(PaddedRefusal::TooLarge);
    }
    match detour_through_padding(alloc, bits, ip, padding, code, to, place, entries, rules) {
        Ok(made) => Ok(made),
        Err(cause) => Err(PaddedRefusal::NoDetour(cause)),
    }
}

/// The detour of a function through its padding, by the numbers of a mode, of what becomes of its start, and of the rules.
fn padded_of(
    alloc: Global,
    bits: u32,
    ip: u64,
    padding: &[u8],
    code: &[u8],
    to: u64,
    place: u64,
    start: u32,
    rules: u32,
    entries: &[u32],
) -> Result<PaddedDetour, PaddedRefusal>
    ensures { spec.IsPaddedAnswerBy (bits_numbered bits) (ruled_spec.rules_numbered (start_numbered start) rules) ip padding.now code.now to place entries.now result }
{
    let Some(bits) = bits_numbered(bits) else {
        return Err(PaddedRefusal::Mode);
    };
    let Some(rules) = rules_numbered(start, rules) else {
        return Err(PaddedRefusal::Start);
    };
    padded_in(alloc, bits, ip, padding, code, to, place, entries, rules)
}

/// Writes the near jump, the patch, the trampoline and the moved instructions, if all four buffers are large enough.
#[tactic(auto, unfolding(crate::specs::Padded::padded_within))]
fn put_padded(
    answer: &Result<PaddedDetour, PaddedRefusal>,
    jump: &mut [u8],
    patch: &mut [u8],
    trampoline: &mut [u8],
    moved: &mut [FlatMovedStart],
) -> i32
    requires pairs { IfOk answer.now (λ made. length made.seen.detour.places ≡ length made.seen.detour.starts) }
    ensures said { result ≡ spec.padded_said (spec.padded_within (length jump.old) (length patch.old) (length trampoline.old) (length moved.old) answer.now) }
    ensures jump { jump.new ≡ spec.jump_left jump.old (spec.padded_within (length jump.old) (length patch.old) (length trampoline.old) (length moved.old) answer.now) }
    ensures patch { patch.new ≡ spec.patch_left patch.old (spec.padded_within (length jump.old) (length patch.old) (length trampoline.old) (length moved.old) answer.now) }
    ensures trampoline { trampoline.new ≡ spec.trampoline_left trampoline.old
        (spec.padded_within (length jump.old) (length patch.old) (length trampoline.old) (length moved.old) answer.now) }
    ensures moved { moved.new ≡ spec.moved_left moved.old (spec.padded_within (length jump.old) (length patch.old) (length trampoline.old) (length moved.old) answer.now) }
{
    match answer {
        Ok(made) => {
            let detour = &made.seen().detour;
            if made.jump().len() > jump.len()
                || made.patch().len() > patch.len()
                || made.trampoline().len() > trampoline.len()
                || detour.starts().len() > moved.len()
            {
                return refusal_status(Refusal::Room);
            }
            write_front(jump, made.jump());
            write_front(patch, made.patch());
            write_front(trampoline, made.trampoline());
            write_moved(moved, detour.starts(), detour.places());
            0
        }
        Err(why) => refusal_status(padded_refusal(*why)),
    }
}

/// Makes a detour of a function by rules through the padding in front of it: a near jump, a patch, a trampoline, and where the moved instructions lie.
pub fn make_padded_detour(
    alloc: Global,
    bits: u32,
    ip: u64,
    padding: &[u8],
    code: &[u8],
    to: u64,
    place: u64,
    start: u32,
    rules: u32,
    entries: &[u32],
    jump: &mut [u8],
    patch: &mut [u8],
    trampoline: &mut [u8],
    moved: &mut [FlatMovedStart],
    report: &mut FlatPadded,
) -> i32
    ensures { spec.IsPaddedCall bits ip padding.now code.now to place start rules entries.now jump.old jump.new patch.old patch.new
        trampoline.old trampoline.new moved.old moved.new report.new result }
{
    let answer = padded_of(
        alloc, bits, ip, padding, code, to, place, start, rules, entries,
    );
    *report = padded_report(&answer);
    put_padded(&answer, jump, patch, trampoline, moved)
}
