//! What the laws of the crates below say, for the proofs of this crate.

ghost use Rattle.step_slots.specs.LawsBelow.{StepLawsBelow};

use crate::slots::StepSlot;

/// The laws of the crates below as one fact. It does nothing.
#[inline]
pub(crate) fn laws_below()
    ensures { StepLawsBelow }
{
    move_goals::branch_forms::laws::codes_have_their_rows();
    move_goals::laws::plans_are_well_formed();
    block_encoder::laws::plans_lay_out_their_items();
    block_encoder::laws::items_reach_their_goals();
    block_encoder::laws::last_forms_bound_the_length();
    block_encoder::laws::near_jumps_are_encoded();
    code_region::laws::sound_regions_keep_their_laws();
    code_region::laws::places_are_gaps();
    code_region::live_entries::laws::placed_blocks_are_filled();
    code_region::live_entries::laws::entries_go_with_their_blocks::<StepSlot>();
}
