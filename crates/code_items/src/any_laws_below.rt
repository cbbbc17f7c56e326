//! What the laws of the crates below say, for the proofs of this crate.

ghost use Rattle.code_items.specs.AnyLawsBelow.{AnyLawsBelow};

/// The laws of the crates below as one fact. It does nothing.
#[inline]
pub(crate) fn laws_below()
    ensures { AnyLawsBelow }
{
    branch_sizes::laws::blocks_have_all_items();
    move_goals::moved_targets::laws::spellings_are_moved();
    move_goals::branch_forms::laws::forms_are_fit();
    move_goals::laws::first_numbers_pass();
    move_goals::laws::plans_are_well_formed();
}
