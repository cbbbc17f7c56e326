//! Detours of functions that are refused if control is seen to enter what they overwrite, or is not seen everywhere.

ghost use Rattle.std.specs.Prelude.{◌≡◌, ◌≤◌, ◌<◌, ◌++◌, length, drop, IfOk};
ghost use Rattle.c_calls.specs.Numbers.{bits_numbered};
ghost use Rattle.c_calls.specs.Hooks.{start_numbered, offset_or};
ghost use Rattle.c_calls.specs.Ruled as spec;

use crate::buffers::write_front;
use crate::flat::{FlatDetour, FlatHook, FlatMovedStart, FlatView};
use crate::hooks::{MOST, NOTHING, cause_report, detour_refusal, detour_report, start_numbered};
use crate::numbers::bits_numbered;
use crate::refusal::{Refusal, refusal_status};
use crate::sight::{end_number, flat_view};
use detour::{HookRules, RuleError, SeenDetour, detour_with};
use std::alloc::Global;

/// Why no detour is made.
#[derive(Clone, Copy)]
pub(crate) enum RuledRefusal {
    /// The mode is none.
    Mode,
    /// The number of what becomes of the function's own start is neither of the two, or the rules have a bit without a meaning.
    Start,
    /// There are more than 1,048,576 bytes.
    TooLarge,
    /// There is no detour by the rules, for this cause.
    NoDetour(RuleError),
    /// A buffer is too small.
    Room,
}

/// Why the rules give no detour, by the refusals of all calls.
pub(crate) fn rule_refusal(why: RuleError) -> Refusal
    ensures { result ≡ spec.rule_refusal why }
{
    match why {
        RuleError::Detour(cause) => detour_refusal(cause),
        RuleError::Overlaps => Refusal::Overlaps,
        RuleError::Calls { .. } => Refusal::Calls,
        RuleError::Entered { .. } => Refusal::Entered,
        RuleError::Unseen { .. } => Refusal::Unseen,
    }
}

/// Why nothing is made, by the refusals of all calls.
fn ruled_refusal(why: RuledRefusal) -> Refusal
    ensures { result ≡ spec.ruled_refusal why }
{
    match why {
        RuledRefusal::Mode => Refusal::Mode,
        RuledRefusal::Start => Refusal::Start,
        RuledRefusal::TooLarge => Refusal::TooLarge,
        RuledRefusal::NoDetour(cause) => rule_refusal(cause),
        RuledRefusal::Room => Refusal::Room,
    }
}

/// Nothing seen.
pub(crate) const NO_VIEW: FlatView = FlatView {
    sight_at: 0,
    entered_from: 0,
    entered_target: 0,
    inside: 0,
    suspect_from: 0,
    suspect_target: 0,
    sight: 0,
    is_entered: 0,
    has_inside: 0,
    has_suspect: 0,
};

/// The numbers of a cause of the rules.
pub(crate) fn rule_report(why: RuleError) -> FlatDetour
    ensures { result ≡ spec.rule_report why }
{
    match why {
        RuleError::Detour(cause) => cause_report(cause),
        RuleError::Overlaps => NOTHING,
        RuleError::Calls { at } => FlatDetour {
            at: u64::from(at),
            ..NOTHING
        },
        RuleError::Entered { from, target } => FlatDetour {
            at: from as u64,
            target: target as u64,
            ..NOTHING
        },
        RuleError::Unseen { at, why: end } => FlatDetour {
            at: at as u64,
            target: u64::from(end_number(end)),
            ..NOTHING
        },
    }
}

/// The numbers of a refusal.
fn refusal_report(why: RuledRefusal) -> FlatDetour
    ensures { result ≡ spec.refusal_report why }
{
    match why {
        RuledRefusal::NoDetour(cause) => rule_report(cause),
        _ => NOTHING,
    }
}

/// The offset of a call, or the end of what is overwritten if there is none.
fn call_or(call: Option<u32>, end: u64) -> u64
    ensures { result ≡ offset_or call end }
{
    match call {
        Some(at) => u64::from(at),
        None => end,
    }
}

/// Returns the report of a detour with what was seen.
pub(crate) fn seen_report(seen: &SeenDetour) -> FlatHook
    ensures { result ≡ spec.seen_report seen.now }
{
    FlatHook {
        detour: detour_report(&seen.detour),
        view: flat_view(&seen.view),
        moved: seen.detour.starts().len() as u64,
        call: call_or(seen.detour.call(), seen.detour.taken() as u64),
    }
}

/// Returns the report of a result.
fn ruled_report(answer: &Result<SeenDetour, RuledRefusal>) -> FlatHook
    ensures { result ≡ spec.ruled_report answer.now }
{
    match answer {
        Ok(seen) => seen_report(seen),
        Err(why) => FlatHook {
            detour: refusal_report(*why),
            view: NO_VIEW,
            moved: 0,
            call: 0,
        },
    }
}

/// The rules, by the number of what becomes of the function's own start and the bits: 1 for whole sight, 2 for own return addresses, 4 for no calls.
#[tactic(auto, unfolding(crate::specs::Ruled::rules_numbered))]
pub(crate) fn rules_numbered(start: u32, rules: u32) -> Option<HookRules>
    ensures { result ≡ spec.rules_numbered (start_numbered start) rules }
{
    match start_numbered(start) {
        None => None,
        Some(start) => {
            if rules < 8 {
                Some(HookRules {
                    start,
                    whole: rules % 2 == 1,
                    returns: rules / 2 % 2 == 1,
                    calls: rules / 4 == 0,
                })
            } else {
                None
            }
        }
    }
}

/// The detour of a function by the rules, by the numbers of a mode, of what becomes of its start, and of the rules.
fn ruled_of(
    alloc: Global,
    bits: u32,
    ip: u64,
    code: &[u8],
    to: u64,
    place: u64,
    start: u32,
    rules: u32,
    entries: &[u32],
) -> Result<SeenDetour, RuledRefusal>
    ensures { spec.IsRuledAnswerBy (bits_numbered bits) (spec.rules_numbered (start_numbered start) rules) ip code.now to place entries.now result }
{
    let Some(bits) = bits_numbered(bits) else {
        return Err(RuledRefusal::Mode);
    };
    let Some(rules) = rules_numbered(start, rules) else {
        return Err(RuledRefusal::Start);
    };
    if code.len() > MOST {
        return Err(RuledRefusal::TooLarge);
    }
    match detour_with(alloc, bits, ip, code, to, place, entries, rules) {
        Ok(seen) => Ok(seen),
        Err(cause) => Err(RuledRefusal::NoDetour(cause)),
    }
}

/// Moved instruction `k`.
#[tactic(auto, unfolding(crate::specs::Ruled::moved_start))]
fn moved_start(starts: &[u32], places: &[u64], k: usize) -> FlatMovedStart
    requires start { k < length starts.now }
    requires place { k < length places.now }
    ensures { result ≡ spec.moved_start starts.now places.now k }
{
    FlatMovedStart {
        start: u64::from(starts[k]),
        place: places[k],
    }
}

/// Writes the moved instructions at the start of a buffer.
pub(crate) fn write_moved(room: &mut [FlatMovedStart], starts: &[u32], places: &[u64])
    requires fits { length starts.now ≤ length room.old }
    requires pairs { length places.now ≡ length starts.now }
    ensures { room.new ≡ spec.moved_starts starts.now places.now (length starts.now) ++ drop (length starts.now) room.old }
{
    'moved: for k in 0..starts.len() {
        room[k] = moved_start(starts, places, k);
    }
}

/// Writes the patch, the trampoline and the moved instructions, if all three buffers are large enough.
#[tactic(auto, unfolding(crate::specs::Ruled::ruled_within))]
fn put_ruled(
    answer: &Result<SeenDetour, RuledRefusal>,
    patch: &mut [u8],
    trampoline: &mut [u8],
    moved: &mut [FlatMovedStart],
) -> i32
    requires pairs { IfOk answer.now (λ seen. length seen.detour.places ≡ length seen.detour.starts) }
    ensures said { result ≡ spec.ruled_said (spec.ruled_within (length patch.old) (length trampoline.old) (length moved.old) answer.now) }
    ensures patch { patch.new ≡ spec.patch_left patch.old (spec.ruled_within (length patch.old) (length trampoline.old) (length moved.old) answer.now) }
    ensures trampoline { trampoline.new ≡ spec.trampoline_left trampoline.old
        (spec.ruled_within (length patch.old) (length trampoline.old) (length moved.old) answer.now) }
    ensures moved { moved.new ≡ spec.moved_left moved.old (spec.ruled_within (length patch.old) (length trampoline.old) (length moved.old) answer.now) }
{
    match answer {
        Ok(seen) => {
            let made = &seen.detour;
            if made.patch().len() > patch.len()
                || made.trampoline().len() > trampoline.len()
                || made.starts().len() > moved.len()
            {
                return refusal_status(Refusal::Room);
            }
            write_front(patch, made.patch());
            write_front(trampoline, made.trampoline());
            write_moved(moved, made.starts(), made.places());
            0
        }
        Err(why) => refusal_status(ruled_refusal(*why)),
    }
}

/// Makes a detour of a function, if control is not seen to enter what it overwrites: a patch, a trampoline, and where the moved instructions lie.
pub fn make_detour_with(
    alloc: Global,
    bits: u32,
    ip: u64,
    code: &[u8],
    to: u64,
    place: u64,
    start: u32,
    rules: u32,
    entries: &[u32],
    patch: &mut [u8],
    trampoline: &mut [u8],
    moved: &mut [FlatMovedStart],
    report: &mut FlatHook,
) -> i32
    ensures { spec.IsRuledCall bits ip code.now to place start rules entries.now patch.old patch.new trampoline.old trampoline.new moved.old moved.new
        report.new result }
{
    let answer = ruled_of(alloc, bits, ip, code, to, place, start, rules, entries);
    *report = ruled_report(&answer);
    put_ruled(&answer, patch, trampoline, moved)
}
