//! What the laws of the crates below say, for the proofs of this crate.

ghost use Rattle.code_assembler.specs.LawsBelow.{AssemblerLawsBelow};

/// The laws of the crates below as one fact. It does nothing.
#[inline]
pub(crate) fn laws_below()
    ensures { AssemblerLawsBelow }
{
    encoder::laws::encodings_are_plain();
    branch_sizes::laws::totals_rise();
    branch_sizes::move_layout::laws::blocks_end_behind_their_slots();
    move_goals::moved_targets::laws::spellings_are_moved();
    move_goals::laws::first_numbers_pass();
    move_goals::laws::plans_are_well_formed();
    block_encoder::laws::plans_lay_out_their_items();
    block_encoder::laws::moved_blocks_keep_their_laws();
}
