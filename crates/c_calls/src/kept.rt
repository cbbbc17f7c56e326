//! Detours that keep an ENDBR at the function's start.

ghost use Rattle.std.specs.Prelude.{◌≡◌, length, IfOk};
ghost use Rattle.c_calls.specs.Numbers.{bits_numbered};
ghost use Rattle.c_calls.specs.Hooks.{start_numbered};
ghost use Rattle.c_calls.specs.Ruled as ruled_spec;
ghost use Rattle.c_calls.specs.Kept as spec;

use crate::buffers::write_front;
use crate::flat::{FlatDetour, FlatHook, FlatKept, FlatMovedStart};
use crate::hooks::{MOST, NOTHING};
use crate::numbers::bits_numbered;
use crate::refusal::{Refusal, refusal_status};
use crate::ruled::{NO_VIEW, rule_refusal, rule_report, rules_numbered, seen_report, write_moved};
use detour::{HookRules, KeepError, KeptDetour, detour_keeping_endbr, kept_len};
use std::alloc::Global;
use x86_values::Bits;

/// Why no detour is made that keeps an ENDBR.
#[derive(Clone, Copy)]
pub(crate) enum KeptRefusal {
    /// The mode is none.
    Mode,
    /// The number of what becomes of the function's own start is neither of the two, or the rules have a bit without a meaning.
    Start,
    /// There are more than 1,048,576 bytes.
    TooLarge,
    /// There is no detour, for this cause.
    NoDetour(KeepError),
    /// A buffer is too small.
    Room,
}

/// Why there is no detour, by the refusals of all calls.
fn keep_refusal(why: KeepError) -> Refusal
    ensures { result ≡ spec.keep_refusal why }
{
    match why {
        KeepError::Head { .. } => Refusal::Entered,
        KeepError::Tail(cause) => rule_refusal(cause),
        KeepError::Overlaps => Refusal::Overlaps,
    }
}

/// Why nothing is made, by the refusals of all calls.
fn kept_refusal(why: KeptRefusal) -> Refusal
    ensures { result ≡ spec.kept_refusal why }
{
    match why {
        KeptRefusal::Mode => Refusal::Mode,
        KeptRefusal::Start => Refusal::Start,
        KeptRefusal::TooLarge => Refusal::TooLarge,
        KeptRefusal::NoDetour(cause) => keep_refusal(cause),
        KeptRefusal::Room => Refusal::Room,
    }
}

/// The numbers of a cause.
fn keep_report(why: KeepError) -> FlatDetour
    ensures { result ≡ spec.keep_report why }
{
    match why {
        KeepError::Head { from, target } => FlatDetour {
            at: from as u64,
            target: target as u64,
            ..NOTHING
        },
        KeepError::Tail(cause) => rule_report(cause),
        KeepError::Overlaps => NOTHING,
    }
}

/// The report of a refusal: its numbers, and from which offset they count.
fn refusal_report(why: KeptRefusal, kept: u64) -> FlatKept
    ensures { result ≡ spec.refusal_report why kept }
{
    let (detour, kept) = match why {
        KeptRefusal::NoDetour(cause) => match cause {
            KeepError::Tail(_) => (keep_report(cause), kept),
            _ => (keep_report(cause), 0),
        },
        _ => (NOTHING, 0),
    };
    FlatKept {
        hook: FlatHook {
            detour,
            view: NO_VIEW,
            moved: 0,
            call: 0,
        },
        kept,
    }
}

/// Returns the report of a result, by how many bytes would be kept.
fn kept_report(answer: &Result<KeptDetour, KeptRefusal>, kept: u64) -> FlatKept
    ensures { result ≡ spec.kept_report answer.now kept }
{
    match answer {
        Ok(made) => FlatKept {
            hook: seen_report(made.seen()),
            kept: made.kept() as u64,
        },
        Err(why) => refusal_report(*why, kept),
    }
}

/// How many first bytes of a function would be kept, by the number of a mode.
fn kept_by(bits: Option<Bits>, code: &[u8]) -> u64
    ensures { result ≡ spec.kept_by bits code.now }
{
    match bits {
        None => 0,
        Some(bits) => kept_len(bits, code) as u64,
    }
}

/// The detour of a function, in a mode and by rules.
fn kept_in(
    alloc: Global,
    bits: Bits,
    ip: u64,
    code: &[u8],
    to: u64,
    place: u64,
    entries: &[u32],
    rules: HookRules,
) -> Result<KeptDetour, KeptRefusal>
    ensures { spec.IsKeptIn bits ip code.now to place entries.now rules result }
{
    if code.len() > MOST {
        return Err(KeptRefusal::TooLarge);
    }
    match detour_keeping_endbr(alloc, bits, ip, code, to, place, entries, rules) {
        Ok(made) => Ok(made),
        Err(cause) => Err(KeptRefusal::NoDetour(cause)),
    }
}

/// The detour of a function, by the numbers of a mode, of what becomes of its start, and of the rules.
fn kept_of(
    alloc: Global,
    bits: Option<Bits>,
    ip: u64,
    code: &[u8],
    to: u64,
    place: u64,
    start: u32,
    rules: u32,
    entries: &[u32],
) -> Result<KeptDetour, KeptRefusal>
    ensures { spec.IsKeptAnswerBy bits (ruled_spec.rules_numbered (start_numbered start) rules) ip code.now to place entries.now result }
{
    let Some(bits) = bits else {
        return Err(KeptRefusal::Mode);
    };
    let Some(rules) = rules_numbered(start, rules) else {
        return Err(KeptRefusal::Start);
    };
    kept_in(alloc, bits, ip, code, to, place, entries, rules)
}

/// Writes the patch, the trampoline and the moved instructions, if all three buffers are large enough.
#[tactic(auto, unfolding(crate::specs::Kept::kept_within))]
fn put_kept(
    answer: &Result<KeptDetour, KeptRefusal>,
    patch: &mut [u8],
    trampoline: &mut [u8],
    moved: &mut [FlatMovedStart],
) -> i32
    requires pairs { IfOk answer.now (λ made. length made.seen.detour.places ≡ length made.seen.detour.starts) }
    ensures said { result ≡ spec.kept_said (spec.kept_within (length patch.old) (length trampoline.old) (length moved.old) answer.now) }
    ensures patch { patch.new ≡ spec.patch_left patch.old (spec.kept_within (length patch.old) (length trampoline.old) (length moved.old) answer.now) }
    ensures trampoline { trampoline.new ≡ spec.trampoline_left trampoline.old
        (spec.kept_within (length patch.old) (length trampoline.old) (length moved.old) answer.now) }
    ensures moved { moved.new ≡ spec.moved_left moved.old (spec.kept_within (length patch.old) (length trampoline.old) (length moved.old) answer.now) }
{
    match answer {
        Ok(made) => {
            let tail = &made.seen().detour;
            if made.patch().len() > patch.len()
                || made.trampoline().len() > trampoline.len()
                || tail.starts().len() > moved.len()
            {
                return refusal_status(Refusal::Room);
            }
            write_front(patch, made.patch());
            write_front(trampoline, made.trampoline());
            write_moved(moved, tail.starts(), tail.places());
            0
        }
        Err(why) => refusal_status(kept_refusal(*why)),
    }
}

/// Makes a detour of a function by rules that keeps an ENDBR at its start: a patch, a trampoline, and where the moved instructions lie.
pub fn make_kept_detour(
    alloc: Global,
    bits: u32,
    ip: u64,
    code: &[u8],
    to: u64,
    place: u64,
    start: u32,
    rules: u32,
    entries: &[u32],
    patch: &mut [u8],
    trampoline: &mut [u8],
    moved: &mut [FlatMovedStart],
    report: &mut FlatKept,
) -> i32
    ensures { spec.IsKeptCall bits ip code.now to place start rules entries.now patch.old patch.new trampoline.old trampoline.new moved.old moved.new
        report.new result }
{
    let bits = bits_numbered(bits);
    let answer = kept_of(alloc, bits, ip, code, to, place, start, rules, entries);
    *report = kept_report(&answer, kept_by(bits, code));
    put_kept(&answer, patch, trampoline, moved)
}
