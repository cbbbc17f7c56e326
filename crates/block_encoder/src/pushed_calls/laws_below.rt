//! What the laws of the crates below say, for the proofs of this crate.

ghost use Rattle.block_encoder.specs.PushedCalls.LawsBelow.{PushedLawsBelow};

/// The laws of the crates below as one fact. It does nothing.
#[inline]
pub(crate) fn laws_below()
    ensures { PushedLawsBelow }
{
    encoder::laws::encodings_are_plain();
    move_goals::moved_targets::laws::near_addresses_are_reached();
    move_goals::moved_targets::laws::spellings_are_moved();
}
