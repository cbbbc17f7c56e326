//! What holds of every layout, as the contracts of functions that do nothing.

ghost use Rattle.branch_sizes.specs.MoveLayout.Facts.{EndFacts, SlotFacts};

/// A block ends after its slots, which start at a multiple of 8 after its images. Without slots it ends with its images.
#[inline]
pub fn blocks_end_behind_their_slots()
    ensures { EndFacts }
{
    crate::laws::blocks_have_all_items();
    crate::laws::totals_rise();
}

/// Each item of a far form has a slot of its block that holds its goal. There are no more slots than items.
#[inline]
pub fn far_forms_have_slots()
    ensures { SlotFacts }
{}
