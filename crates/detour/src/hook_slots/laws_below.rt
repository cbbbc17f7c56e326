//! What the laws of the crates below say, for the proofs of this crate.

ghost use Rattle.detour.specs.HookSlots.LawsBelow.{HookLawsBelow};

use crate::hook_slots::making::Hook;

/// The laws of the crates below as one fact. It does nothing.
#[inline]
pub(crate) fn laws_below()
    ensures { HookLawsBelow }
{
    code_region::laws::sound_regions_keep_their_laws();
    code_region::live_entries::laws::placed_blocks_are_filled();
    code_region::live_entries::laws::entries_go_with_their_blocks::<Hook>();
}
