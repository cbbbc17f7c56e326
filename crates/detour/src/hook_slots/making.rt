//! A hook, and its place in the region.

ghost use Rattle.std.specs.Prelude.{◌≡◌, ◌<◌, ◌≤◌, Ok, IfOk, IfErr, length, take};
ghost use Rattle.code_region.specs.Keeping.{IsSound};
ghost use Rattle.detour.specs.Detours.{IsDetourAnswer};
ghost use Rattle.detour.specs.HookSlots.Installing.{IsHookAnswer, IsHookPlaced, IsForSlots, install_refusal, place_refusal as place_refusal_of};
ghost use Rattle.detour.specs.HookSlots.Keeping.{AreSpaced};

use crate::hook_slots::laws_below::laws_below;
use crate::hook_slots::layers::hooks_of;
use crate::hook_slots::patches::{PatchRule, patch_refusal};
use crate::hook_slots::refusals::InstallError;
use crate::{Detour, DetourError, StartTarget, detour};
use code_region::live_entries::LiveEntry;
use code_region::{PlaceError, Region};
use std::alloc::{AllocError, Global};
use x86_values::Bits;

/// A hook: calls of the function at `ip` go to the replacement at `to`, and the trampoline at `place` does what the function did.
#[derive(Drop)]
pub struct Hook {
    /// The address of the trampoline.
    pub place: u64,
    /// The address of the function.
    pub ip: u64,
    /// The address of the replacement.
    pub to: u64,
    /// What became of targets at the function's own start.
    pub start: StartTarget,
    /// How many live hooks of the same function lie under it: 0 for the first one.
    pub layer: u64,
    /// The patch, which goes over the function's first bytes, and the trampoline.
    pub detour: Detour,
    /// The bytes under the patch: the function's own, or those with the patches of the hooks under it. Writing them back undoes the patch.
    pub original: Vec<u8>,
}

impl LiveEntry for Hook {
    ghost use Rattle.std.specs.Prelude.{ℕ};
    ghost use Rattle.x86_values.specs.declared.Bits.{Bits};
    ghost use Rattle.detour.specs.HookSlots.State.{hook_place};
    ghost use Rattle.detour.specs.HookSlots.Keeping.{IsHookBlock};

    ghost Setting = { Bits × ℕ };

    ghost place_of = { hook_place };

    ghost len_in = { λ s hook. s.1 };

    ghost is_block_in = { λ s. IsHookBlock s.0 s.1 };

    fn place(&self) -> u64 {
        self.place
    }

    ghost block_place = { λ s hook block is. is.place };

    ghost block_len = { λ s hook block is. is.len };
}

/// A copy of some bytes.
fn copy_of(alloc: Global, bytes: &[u8]) -> Result<Vec<u8>, AllocError>
    ensures { IfOk result (λ copy. copy.items ≡ bytes.now) }
{
    let mut copy = Vec::with_capacity(alloc, bytes.len())?;
    copy.extend_from_slice(bytes)?;
    Ok(copy)
}

/// Why a function is not hooked, by why there is no detour.
fn detour_refusal(why: DetourError) -> InstallError
    ensures { result ≡ install_refusal why }
{
    match why {
        DetourError::Memory => InstallError::Memory,
        _ => InstallError::NoDetour { why },
    }
}

/// Returns the hook of a function with its trampoline at a place, if the trampoline fits a slot and the patch meets nothing.
fn hook_at(
    alloc: Global,
    rule: PatchRule,
    live: &[Hook],
    ip: u64,
    code: &[u8],
    to: u64,
    start: StartTarget,
    place: u64,
) -> Result<Hook, InstallError>
    requires { length code.now ≤ 1048576 }
    ensures { IsHookAnswer rule live.now ip code.now to start place result }
{
    let detour = match detour(alloc, rule.range.bits, ip, code, to, place, start) {
        Ok(detour) => detour,
        Err(why) => return Err(detour_refusal(why)),
    };
    let len = detour.trampoline().len() as u64;
    if len > rule.range.slot {
        return Err(InstallError::TooLong {
            len,
            slot: rule.range.slot,
        });
    }
    if let Some(why) = patch_refusal(rule, live, ip, detour.patch().len()) {
        return Err(why);
    }
    let Ok(original) = copy_of(alloc, &code[..detour.taken()]) else {
        return Err(InstallError::Memory);
    };
    Ok(Hook {
        place,
        ip,
        to,
        start,
        layer: hooks_of(live, ip) as u64,
        detour,
        original,
    })
}

/// Why a function is not hooked, by why its trampoline gets no slot.
fn place_refusal(why: PlaceError) -> InstallError
    requires { IsForSlots why }
    ensures { result ≡ place_refusal_of why }
{
    match why {
        PlaceError::TooManyBlocks { max } => InstallError::Full { max },
        _ => unreachable!(),
    }
}

/// Hooks a function, with its trampoline in a slot of the region, which it fills.
pub(crate) fn place_hook(
    alloc: Global,
    rule: PatchRule,
    region: &mut Region,
    live: &[Hook],
    ip: u64,
    code: &[u8],
    to: u64,
    start: StartTarget,
) -> Result<Hook, InstallError>
    requires size { length code.now ≤ 1048576 }
    requires sound { IsSound region.old }
    requires slots { AreSpaced rule.range.slot region.old }
    ensures { IsHookPlaced rule live.now region.old ip code.now to start result region.new }
{
    laws_below();
    let place = match region.place(rule.range.slot) {
        Ok(place) => place,
        Err(why) => return Err(place_refusal(why)),
    };
    match hook_at(alloc, rule, live, ip, code, to, start, place) {
        Ok(hook) => {
            region.fill(place, hook.detour.trampoline());
            Ok(hook)
        }
        Err(why) => {
            let _ = region.release(place);
            Err(why)
        }
    }
}
