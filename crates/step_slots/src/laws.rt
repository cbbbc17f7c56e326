//! What holds of all step slots.

ghost use Rattle.step_slots.specs.Facts.{LiveSlotFacts, ReservedFacts};
ghost use Rattle.step_slots.specs.UnlistedStep.{NumbersKeepTheirAddress};

use crate::laws_below::laws_below;

/// Slots keep their blocks in units of 16 bytes and disjoint, at the start and after each step.
#[inline]
pub fn slots_stay_apart()
    ensures { LiveSlotFacts }
{
    laws_below();
}

/// An instruction reserves 1 to 53 bytes, which are rounded up.
#[inline]
pub fn reserved_lengths_are_short()
    ensures { ReservedFacts }
{
    laws_below();
}

/// The number that `step_unlisted_at` writes for an instruction, 2 or 4 bytes long, refers to the address that the old number referred to: sign-extended and
/// added to the address after the instruction it comes to that.
#[inline]
pub fn numbers_keep_their_address()
    ensures { NumbersKeepTheirAddress }
{}
