//! What the laws of the crates below say of the block of a CALL, for the proofs of this crate.

ghost use Rattle.step_slots.specs.CallsBelow.{CallLawsBelow};

/// The laws of the crates below as one fact. It does nothing.
#[inline]
pub(crate) fn calls_below()
    ensures { CallLawsBelow }
{
    branch_sizes::laws::images_are_short();
    branch_sizes::move_layout::laws::blocks_end_behind_their_slots();
    move_goals::branch_forms::laws::forms_are_fit();
    move_goals::laws::plans_are_well_formed();
    block_encoder::laws::plans_lay_out_their_items();
    block_encoder::laws::moved_blocks_keep_their_laws();
    block_encoder::pushed_calls::laws::return_addresses_are_pushed();
}
