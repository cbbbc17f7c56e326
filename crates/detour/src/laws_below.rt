//! What the laws of the crates below say, for the proofs of this crate.

ghost use Rattle.detour.specs.LawsBelow.{DetourLawsBelow};

/// The laws of the crates below as one fact. It does nothing.
#[inline]
pub(crate) fn laws_below()
    ensures { DetourLawsBelow }
{
    operand_info::laws::well_formed_codes_are_in_the_table();
    encoder::laws::encodings_are_plain();
    decoder::reading_laws::bytes_have_one_reading();
    decoder::reading_laws::wrapped_addresses_read_alike();
    branch_sizes::laws::least_is_unique();
    move_goals::moved_targets::laws::spellings_are_moved();
    move_goals::branch_forms::laws::codes_have_their_rows();
    move_goals::branch_forms::laws::pieces_have_their_lengths();
    move_goals::laws::first_numbers_pass();
    move_goals::laws::plans_are_well_formed();
    block_encoder::laws::plans_lay_out_their_items();
    block_encoder::laws::moved_blocks_keep_their_laws();
    block_encoder::laws::near_jumps_are_encoded();
}
