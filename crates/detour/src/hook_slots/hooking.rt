//! Hooks that are live.

ghost use Rattle.std.specs.Prelude.{◌≡◌, ◌⊎◌, ◌≤◌, All, IfSome, IfOk, IfErr, OnErr, Err, Some, length};
ghost use Rattle.code_region.specs.State.{region_image};
ghost use Rattle.detour.specs.HookSlots.State.{no_hooks, hook_at};
ghost use Rattle.detour.specs.HookSlots.Opening.{make_refusal};
ghost use Rattle.detour.specs.HookSlots.Patches.{PatchesAreApart};
ghost use Rattle.detour.specs.HookSlots.Layers.{AreLayered};
ghost use Rattle.detour.specs.HookSlots.Installing.{IsInstalled, IsInstalledOver, IsInstalledBy};
ghost use Rattle.detour.specs.HookSlots.Removing.{remove_answer, after_removal};
ghost use Rattle.detour.specs.HookSlots.Holding.{HooksAreApart, AreDetours, HoldsHooks};

use crate::StartTarget;
use crate::hook_slots::laws_below::laws_below;
use crate::hook_slots::layers::covered_by;
use crate::hook_slots::making::{Hook, place_hook};
use crate::hook_slots::patches::{PatchRule, SlotRange};
use crate::hook_slots::refusals::{InstallError, MakeError, RemoveError};
use code_region::Region;
use code_region::live_entries::{insert_entry, remove_entry};
use move_goals::passes;
use std::alloc::Global;
use std::marker::Model;
use x86_values::Bits;

/// The unit of sizes, in bytes.
const UNIT: u64 = 16;

/// The greatest size of the range of slots, in bytes.
const MAX_SIZE: u64 = 1_048_576;

/// Hooks of functions, with their trampolines in a fixed range of addresses.
///
/// The range is divided into slots of one size. Each live hook takes the first free slot, which holds the trampoline of its detour. Every other byte
/// is CC (INT3). These calls write nothing to memory outside: the caller writes the range ([`image`](Hooks::image)) and the patches.
///
/// ```
/// let mut hooks = Hooks::make(rt.alloc(), Bits::B64, 0x60_0000, 4096, 64)?;
/// let (ip, to) = (0x40_1000, 0x50_0000);
/// let trampoline = hooks.install(rt.alloc(), ip, &FUNCTION, to, StartTarget::Moved)?;
/// println!(rt; "{trampoline:x} {}", hooks.live().len())?; // 600000 1
/// hooks.remove(trampoline)?;
/// ```
#[derive(Drop)]
pub struct Hooks {
    range: SlotRange,
    region: Region,
    live: Vec<Hook>,
}

impl Model for Hooks {
    ghost use Rattle.detour.specs.HookSlots.State.{HooksState};
    ghost use Rattle.detour.specs.HookSlots.Keeping.{AreHooksHeld};
    ghost use Rattle.std.specs.Prelude.{vec_capacity};

    ghost Value = { HooksState };

    ghost view = { λ h. record { bits = h.range.bits; slot = h.range.slot; region = h.region; hooks = h.live.items } };

    ghost invariant = { λ h. AreHooksHeld h.range h.region h.live.items (vec_capacity h.live) };
}

/// Why hooks are refused, if they are; memory is another matter.
#[tactic(auto, using(std::proofs::lemmas::Bool::Decides::nat_tests), unfolding(crate::specs::HookSlots::Opening::make_refusal))]
fn refusal_of(bits: Bits, base: u64, size: u64, slot: u64) -> Option<MakeError>
    ensures { result ≡ make_refusal bits base size slot }
{
    if size == 0 || size % UNIT != 0 || size > MAX_SIZE {
        return Some(MakeError::BadSize { size });
    }
    if slot == 0 || slot % UNIT != 0 || slot > size {
        return Some(MakeError::BadSlot { slot });
    }
    let end = u128::from(base) + u128::from(size);
    if passes(bits, end) {
        return Some(MakeError::Wraps { end });
    }
    None
}

impl Hooks {
    /// Makes an empty set of hooks for a mode. The trampolines lie in `size` bytes at the address `base`, in `size / slot` slots of `slot` bytes
    /// each. It allocates all memory for them.
    ///
    /// Errors, in this order: the size is 0, not a multiple of 16, or above 1,048,576; the slot size is 0, not a multiple of 16, or above the size;
    /// the range ends past the address space of the mode. Lack of memory can occur at any point.
    pub fn make(
        alloc: Global,
        bits: Bits,
        base: u64,
        size: u64,
        slot: u64,
    ) -> Result<Hooks, MakeError>
        ensures refused { IfSome (make_refusal bits base size slot) (λ refusal. result ≡ Err refusal) }
        ensures cause { IfErr result (λ error. (make_refusal bits base size slot ≡ Some error) ⊎ (error ≡ MakeError.Memory)) }
        ensures ok { IfOk result (λ hooks. hooks ≡ no_hooks bits base size slot) }
    {
        laws_below();
        if let Some(refusal) = refusal_of(bits, base, size, slot) {
            return Err(refusal);
        }
        let max = size / slot;
        let Ok(region) = Region::make(alloc, base, size, max) else {
            return Err(MakeError::Memory);
        };
        let Ok(live) = Vec::with_capacity(alloc, max as usize) else {
            return Err(MakeError::Memory);
        };
        let range = SlotRange {
            bits,
            base,
            size,
            slot,
        };
        Ok(Hooks {
            range,
            region,
            live,
        })
    }

    /// Returns the mode of the hooks.
    pub fn bits(&self) -> Bits
        ensures { result ≡ self.now.bits }
    {
        self.range.bits
    }

    /// Returns the size of a slot in bytes.
    pub fn slot(&self) -> u64
        ensures { result ≡ self.now.slot }
    {
        self.range.slot
    }

    /// Hooks a function, and returns the address of its trampoline, which identifies the hook.
    ///
    /// `code` is the function, from its first byte, whose address is `ip`. `to` is the address of the replacement. The detour is that of
    /// [`detour`](crate::detour), with its trampoline in the first free slot.
    ///
    /// Errors, in this order; each leaves the hooks unchanged: every slot is taken; there is no detour, for its cause; the trampoline is longer than
    /// a slot; the patch has an address in common with the range of the trampolines; it has one with the patch of a live hook, of which the first is
    /// named. Ranges of addresses wrap at the address size of the mode. Lack of memory can occur at any point.
    pub fn install(
        &mut self,
        alloc: Global,
        ip: u64,
        code: &[u8],
        to: u64,
        start: StartTarget,
    ) -> Result<u64, InstallError>
        requires { length code.now ≤ 1048576 }
        ensures { IsInstalled self.old ip code.now to start result self.new }
    {
        self.install_by(alloc, false, ip, code, to, start)
    }

    /// Hooks a function over its live hooks, if it has any. Returns the address of its trampoline, which identifies the hook.
    ///
    /// `code` is the function as its bytes are now, with the patches of its live hooks. The detour moves what they wrote: calls go to `to`, and the new
    /// trampoline does what the last hook before it did. The last hook made is the first to be removed.
    ///
    /// A live hook is one of this function if its `ip` is the very same number. Its patch may lie under the new one; all else is as for
    /// [`install`](Hooks::install), with the same errors in the same order. If no live hook is of this function, both do the same.
    ///
    /// ```
    /// let first = hooks.install(rt.alloc(), ip, &FUNCTION, to, StartTarget::Moved)?;
    /// let now = [0xE9, 0xFB, 0xEF, 0x0F, 0x00, 0xCC, 0x5D, 0xC3]; // its patch, and the rest
    /// let last = hooks.install_over(rt.alloc(), ip, &now, 0x51_0000, StartTarget::Moved)?;
    /// println!(rt; "{first:x} {last:x}")?; // 600000 600040
    /// println!(rt; "{:?}", hooks.remove(first).err())?; // Some(Covered { place: 6291456, by: 6291520 })
    /// ```
    pub fn install_over(
        &mut self,
        alloc: Global,
        ip: u64,
        code: &[u8],
        to: u64,
        start: StartTarget,
    ) -> Result<u64, InstallError>
        requires { length code.now ≤ 1048576 }
        ensures { IsInstalledOver self.old ip code.now to start result self.new }
    {
        self.install_by(alloc, true, ip, code, to, start)
    }

    /// Hooks a function, over its live hooks or not.
    fn install_by(
        &mut self,
        alloc: Global,
        over: bool,
        ip: u64,
        code: &[u8],
        to: u64,
        start: StartTarget,
    ) -> Result<u64, InstallError>
        requires { length code.now ≤ 1048576 }
        ensures { IsInstalledBy over self.old ip code.now to start result self.new }
    {
        laws_below();
        let rule = PatchRule {
            range: self.range,
            over,
        };
        let hook = place_hook(
            alloc,
            rule,
            &mut self.region,
            &self.live,
            ip,
            code,
            to,
            start,
        )?;
        let place = hook.place;
        insert_entry(&mut self.live, hook);
        Ok(place)
    }

    /// Removes the live hook whose trampoline starts at `place`, sets its bytes to CC, and returns the hook with the bytes that were under its patch.
    ///
    /// Errors; each leaves the hooks unchanged: no live trampoline starts there; later hooks of the same function lie over it, of which the last one,
    /// the one to be removed first, is named.
    pub fn remove(&mut self, place: u64) -> Result<Hook, RemoveError>
        ensures answer { result ≡ remove_answer self.old place }
        ensures state { self.new ≡ after_removal self.old place }
        ensures refused { OnErr result (self.new ≡ self.old) }
    {
        laws_below();
        if let Some(by) = covered_by(&self.live, place) {
            return Err(RemoveError::Covered { place, by });
        }
        match self.region.release(place) {
            Ok(()) => Ok(remove_entry(&mut self.live, place)),
            Err(_) => Err(RemoveError::NotTaken { place }),
        }
    }

    /// Returns the live hooks, in the order of their trampolines' addresses.
    ///
    /// No patch has an address in common with the range of the trampolines, nor with the patch of another function's hook. Hooks of one function, those
    /// with the same `ip`, lie over one another in the order of `layer`.
    pub fn live(&self) -> &[Hook]
        ensures hooks { result.now ≡ self.now.hooks }
        ensures apart { HooksAreApart self.now }
        ensures patches { PatchesAreApart self.now.bits self.now.region self.now.hooks }
        ensures layers { AreLayered self.now.hooks }
        ensures detours { AreDetours self.now }
    {
        laws_below();
        &self.live
    }

    /// Returns the bytes of the range: the trampolines of the live hooks, and CC elsewhere.
    pub fn image(&self) -> &[u8]
        ensures value { result.now ≡ region_image self.now.region }
        ensures hooks { HoldsHooks self.now result.now }
    {
        laws_below();
        self.region.image()
    }
}
