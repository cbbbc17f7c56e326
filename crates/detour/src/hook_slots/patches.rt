//! What the patch of a new hook may not meet.

ghost use Rattle.std.specs.Prelude.{◌≡◌, find, option_map};
ghost use Rattle.detour.specs.HookSlots.State.{hook_place};
ghost use Rattle.detour.specs.HookSlots.Patches as spec;

use crate::hook_slots::making::Hook;
use crate::hook_slots::refusals::InstallError;
use crate::ranges::overlaps;
use x86_values::Bits;

/// The range of the trampolines in a mode, in slots of one size.
#[derive(Clone, Copy)]
pub(crate) struct SlotRange {
    pub(crate) bits: Bits,
    pub(crate) base: u64,
    pub(crate) size: u64,
    pub(crate) slot: u64,
}

/// What the patch of a new hook may meet.
#[derive(Clone, Copy)]
pub(crate) struct PatchRule {
    /// The range of the trampolines, which it may not meet.
    pub(crate) range: SlotRange,
    /// Whether it may lie over the patches of live hooks of the very same function.
    pub(crate) over: bool,
}

/// Returns whether `len` bytes at `ip` have an address in common with the patch of a hook.
fn meets_patch(bits: Bits, ip: u64, len: usize, hook: &Hook) -> bool
    ensures { result ≡ spec.meets_patch bits ip len hook.now }
{
    overlaps(bits, ip, len, hook.ip, hook.detour.patch().len())
}

/// Returns whether a live hook is in the way of a patch of `len` bytes at `ip`.
fn is_in_way(rule: PatchRule, ip: u64, len: usize, hook: &Hook) -> bool
    ensures { result ≡ spec.is_in_way rule ip len hook.now }
{
    !(rule.over && hook.ip == ip) && meets_patch(rule.range.bits, ip, len, hook)
}

/// Returns the place of the first live hook that is in the way of a patch of `len` bytes at `ip`.
fn first_in_way(rule: PatchRule, ip: u64, len: usize, live: &[Hook]) -> Option<u64>
    ensures { result ≡ option_map hook_place (find (spec.is_in_way rule ip len) live.now) }
{
    'hooks: for hook in live {
        if is_in_way(rule, ip, len, hook) {
            return Some(hook.place);
        }
    }
    None
}

/// Returns the first cause against a patch of `len` bytes at `ip`.
pub(crate) fn patch_refusal(
    rule: PatchRule,
    live: &[Hook],
    ip: u64,
    len: usize,
) -> Option<InstallError>
    ensures { result ≡ spec.patch_refusal rule live.now ip len }
{
    let range = rule.range;
    if overlaps(range.bits, ip, len, range.base, range.size as usize) {
        return Some(InstallError::InRange);
    }
    match first_in_way(rule, ip, len, live) {
        None => None,
        Some(place) => Some(InstallError::Patched { place }),
    }
}
