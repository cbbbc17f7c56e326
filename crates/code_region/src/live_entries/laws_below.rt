//! What the laws of the crate below say, for the proofs of this crate.

ghost use Rattle.code_region.specs.LiveEntries.LawsBelow.{RegionLaws};

/// The laws of regions as one fact. It does nothing.
#[inline]
pub(crate) fn laws_below()
    ensures { RegionLaws }
{
    crate::laws::sound_regions_keep_their_laws();
    crate::laws::places_are_gaps();
}
