//! What the laws of the crates below say, for the proofs of this crate.

ghost use Rattle.move_goals.specs.BranchForms.LawsBelow.{FormLawsBelow};

/// The laws of the crates below as one fact. It does nothing.
#[inline]
pub(crate) fn laws_below()
    ensures { FormLawsBelow }
{
    opcode_rows::laws::rows_are_of_the_parts();
    encoder::laws::spelled_meets_conditions();
    crate::moved_targets::laws::spellings_are_moved();
}
