//! What the laws of the crates below say, for the proofs of this crate.

ghost use Rattle.block_encoder.specs.LawsBelow.{MovedLawsBelow};

/// The laws of the crates below as one fact. It does nothing.
#[inline]
pub(crate) fn laws_below()
    ensures { MovedLawsBelow }
{
    opcode_rows::laws::rows_are_of_the_parts();
    encoder::laws::encodings_are_plain();
    encoder::laws::spelled_meets_conditions();
    branch_sizes::laws::blocks_have_all_items();
    branch_sizes::laws::images_are_short();
    branch_sizes::laws::totals_rise();
    move_goals::moved_targets::laws::near_addresses_are_reached();
    move_goals::moved_targets::laws::spellings_are_moved();
    move_goals::branch_forms::laws::codes_have_their_rows();
    move_goals::branch_forms::laws::pieces_have_their_lengths();
    move_goals::branch_forms::laws::forms_are_fit();
    move_goals::laws::first_numbers_pass();
    move_goals::laws::plans_are_well_formed();
    branch_sizes::move_layout::laws::blocks_end_behind_their_slots();
    branch_sizes::move_layout::laws::far_forms_have_slots();
}
