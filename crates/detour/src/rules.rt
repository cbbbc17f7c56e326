//! A detour by rules on what is seen of the function.

ghost use Rattle.std.specs.Prelude.{◌≡◌, ◌≤◌, length, IfOk};
ghost use Rattle.detour.specs.Rules as spec;
ghost use Rattle.detour.specs.Rules.{IsViewOver, IsRuled, IsRuledAnswer};
ghost use Rattle.detour.specs.declared.rules.RuleError.TheVariants as error;

use crate::error::DetourError;
use crate::making::detour_under;
use crate::parts::Detour;
use crate::ranges::overlaps;
use crate::start::{MoveRule, StartTarget};
use flow_graph::FlowError;
use flow_graph::hook_sight::{Passage, Sight, SightEnd, StartRule, View, look};
use std::alloc::Global;
use thiserror::Error;
use x86_values::Bits;

/// Why a function gets no detour by rules. If several causes hold, the first is reported. `Detour(DetourError::Memory)` can replace any of them.
///
/// Offsets count from the function's first byte.
#[derive(Clone, Copy, PartialEq, Eq, Debug, Error)]
pub enum RuleError {
    /// There is no detour, for this cause.
    #[error("{0}")]
    Detour(DetourError),
    /// The trampoline would lie in the given bytes of the function.
    #[error("the trampoline would lie in the code of the function")]
    Overlaps,
    /// The moved instruction that begins at this offset calls, and what it calls would get an address in the trampoline to return to.
    #[error("the call at offset {at:#x} would be made from the trampoline")]
    Calls { at: u32 },
    /// Control may go from the first offset to the second one, which would be overwritten. For an entry both are its own offset.
    #[error("control may come from offset {from:#x} to offset {target:#x}, which would be written over")]
    Entered { from: usize, target: usize },
    /// Whole sight was asked for, and sight ends at this offset.
    #[error("control cannot be followed at offset {at:#x}")]
    Unseen { at: usize, why: SightEnd },
}

impl From<DetourError> for RuleError {
    ghost from_gives = { λ why e. e ≡ error.Detour why };

    fn from(why: DetourError) -> RuleError {
        RuleError::Detour(why)
    }
}

/// What is required of a detour.
#[derive(Clone, Copy, PartialEq, Eq, Debug)]
pub struct HookRules {
    /// Where a moved branch goes whose target is the function's own first byte.
    pub start: StartTarget,
    /// Whether there is no detour where sight ends anywhere, since what is not seen may enter too.
    pub whole: bool,
    /// Whether a near CALL that is the last moved instruction pushes the address behind it in the function, and jumps: the called code sees the return
    /// address that it always saw, and returns into the function. With shadow stacks (CET) a RET to an address that no CALL pushed faults.
    pub returns: bool,
    /// Whether a moved call may hand an address in the trampoline to what it calls.
    pub calls: bool,
}

/// A detour, and what was seen of the function.
#[derive(Drop)]
pub struct SeenDetour {
    /// The detour.
    pub detour: Detour,
    /// What was seen of the function with the detour's patch over its first bytes.
    pub view: View,
}

/// Whether the trampoline of a detour at a place would lie in the given bytes of the function.
fn lies_in(bits: Bits, ip: u64, code: &[u8], place: u64, made: &Detour) -> bool
    ensures { result ≡ spec.lies_in bits ip code.now place made.now }
{
    overlaps(bits, ip, code.len(), place, made.trampoline().len())
}

/// The rule for control that comes back to the start, by what becomes of targets there.
pub(crate) fn rule_of(start: StartTarget) -> StartRule
    ensures { result ≡ spec.rule_of start }
{
    match start {
        StartTarget::Moved => StartRule::Closed,
        StartTarget::Hooked => StartRule::Open,
    }
}

/// What is seen of a function whose first bytes a detour overwrites.
fn view_over(
    alloc: Global,
    bits: Bits,
    ip: u64,
    code: &[u8],
    entries: &[u32],
    made: &Detour,
    start: StartTarget,
) -> Result<View, FlowError>
    requires { length code.now ≤ 1048576 }
    ensures { IfOk result (λ view. IsViewOver bits ip code.now entries.now start made.now view) }
{
    let taken = made.taken();
    let starts = made.starts();
    let rule = rule_of(start);
    look(alloc, bits, ip, code, entries, taken, starts, rule)
}

/// The cause that a moved call is against a detour, unless it is allowed.
fn call_refusal(allowed: bool, call: Option<u32>) -> Option<RuleError>
    ensures { result ≡ spec.call_refusal allowed call }
{
    if allowed {
        return None;
    }
    match call {
        None => None,
        Some(at) => Some(RuleError::Calls { at }),
    }
}

/// The cause that an entry is against a detour, if there is one within the overwritten bytes.
fn inside_refusal(inside: Option<usize>) -> Option<RuleError>
    ensures { result ≡ spec.inside_refusal inside }
{
    match inside {
        None => None,
        Some(entry) => Some(RuleError::Entered {
            from: entry,
            target: entry,
        }),
    }
}

/// The cause that a passage into the overwritten bytes is against a detour, if there is one.
fn entered_refusal(entered: Option<Passage>) -> Option<RuleError>
    ensures { result ≡ spec.entered_refusal entered }
{
    match entered {
        None => None,
        Some(Passage { from, target }) => Some(RuleError::Entered { from, target }),
    }
}

/// The cause that the end of sight is against a detour, if whole sight was asked for.
fn sight_refusal(whole: bool, sight: Sight) -> Option<RuleError>
    ensures { result ≡ spec.sight_refusal whole sight }
{
    match sight {
        Sight::Whole => None,
        Sight::Ends { at, why } => {
            if whole {
                Some(RuleError::Unseen { at, why })
            } else {
                None
            }
        }
    }
}

/// The first cause against a detour.
fn refusal_of(rules: HookRules, made: &Detour, view: &View) -> Option<RuleError>
    ensures { result ≡ spec.refusal_of rules made.now view.now }
{
    call_refusal(rules.calls, made.call()).or(inside_refusal(view.inside).or(entered_refusal(
        view.entered,
    ).or(sight_refusal(rules.whole, view.sight))))
}

/// The detour with what was seen, unless there is a cause against it.
fn judged(rules: HookRules, made: Detour, view: View) -> Result<SeenDetour, RuleError>
    ensures { result ≡ spec.judged_by (spec.refusal_of rules made view) made view }
{
    match refusal_of(rules, &made, &view) {
        None => Ok(SeenDetour { detour: made, view }),
        Some(why) => Err(why),
    }
}

/// What the rules say of a detour.
pub(crate) fn ruled(
    alloc: Global,
    bits: Bits,
    ip: u64,
    code: &[u8],
    place: u64,
    entries: &[u32],
    rules: HookRules,
    made: Detour,
) -> Result<SeenDetour, RuleError>
    requires { length code.now ≤ 1048576 }
    ensures { IsRuled bits ip code.now place entries.now rules made result }
{
    if lies_in(bits, ip, code, place, &made) {
        return Err(RuleError::Overlaps);
    }
    match view_over(alloc, bits, ip, code, entries, &made, rules.start) {
        Ok(view) => judged(rules, made, view),
        Err(FlowError::Memory) => Err(RuleError::Detour(DetourError::Memory)),
    }
}

/// Makes a detour under rules: the trampoline lies apart from the code, nothing that is seen of the function enters what is overwritten, and moved
/// instructions do what they did where they stood. Returns it with what was seen.
///
/// `code` is the function, at most 1,048,576 bytes from its first byte on, whose address is `ip`. `to` is the address of the replacement, and `place`
/// that of the trampoline. The jump, what it overwrites and the trampoline are those of [`detour`](crate::detour), with two differences. An address at
/// RIP or EIP stays the same even if it lies in the overwritten bytes: it may be the base of data, or be compared with a return address. If
/// `rules.returns` asks for it, a near CALL that is the last moved instruction pushes its own return address and jumps, if it can
/// ([`pushed_call`](block_encoder::pushed_calls::pushed_call) says when); then nothing jumps back.
///
/// Control is followed from the first byte and from `entries`: further offsets at which the function begins, as for [`look`](flow_graph::hook_sight::look), such as
/// targets of jump tables, landing pads, parts that a compiler moved away. Without `rules.whole`, the view says where sight ends, and the first suspect.
/// If targets at the start are moved (`StartTarget::Moved`), a loop from behind the overwritten bytes to the start is an entry as well: it would run
/// into the patch. Calls of the start are recursion, and reach the replacement.
///
/// Errors, in this order:
///
/// - `Detour`: there is no detour, for its cause.
/// - `Overlaps`: an address of the trampoline is one of the given bytes. Both ranges wrap at the address size of the mode.
/// - `Calls`: a moved call hands on an address in the trampoline, and `rules.calls` does not allow it.
/// - `Entered`: the least entry within the overwritten bytes after the first of them, with its offset twice; else the first offset from which
///   control goes into them, and where.
/// - `Unseen`: `rules.whole` asks for whole sight, and sight ends at this offset.
///
/// `Detour(DetourError::Memory)` can replace any of them.
///
/// ```
/// let (ip, to, place) = (0x40_1000, 0x50_0000, 0x60_0000);
/// let seen = detour_with(
///     rt.alloc(),
///     Bits::B64,
///     ip,
///     &FUNCTION,
///     to,
///     place,
///     &[],
///     HookRules {
///         start: StartTarget::Moved,
///         whole: true,
///         returns: true,
///         calls: false,
///     },
/// )?;
/// println!(rt; "{:?} {:?}", seen.view.sight, seen.detour.place_of(4))?; // Whole Some(4)
/// ```
pub fn detour_with(
    alloc: Global,
    bits: Bits,
    ip: u64,
    code: &[u8],
    to: u64,
    place: u64,
    entries: &[u32],
    rules: HookRules,
) -> Result<SeenDetour, RuleError>
    requires { length code.now ≤ 1048576 }
    ensures { IsRuledAnswer bits ip code.now to place entries.now rules result }
{
    let rule = MoveRule {
        start: rules.start,
        rip_stays: true,
        returns: rules.returns,
    };
    match detour_under(alloc, bits, ip, code, to, place, rule) {
        Ok(made) => ruled(alloc, bits, ip, code, place, entries, rules, made),
        Err(why) => Err(RuleError::Detour(why)),
    }
}
