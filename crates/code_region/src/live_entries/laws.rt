//! What holds of the live entries of a region.

ghost use Rattle.code_region.specs.LiveEntries.Facts.{EntryFacts, FillFacts};

use crate::live_entries::entries::LiveEntry;
use crate::live_entries::laws_below::laws_below;

/// A reserved block can be filled up to its rounded length and adds one to the block count. A release reports whether it found a block.
#[inline]
pub fn placed_blocks_are_filled()
    ensures { FillFacts }
{
    laws_below();
}

/// Entries correspond to the live blocks of their region, at the start and after each reservation and release. So they are sorted by address and
/// disjoint, and the image holds their bytes.
#[inline]
pub fn entries_go_with_their_blocks<T: LiveEntry>()
    ensures { EntryFacts T.place_of T.len_in T.is_block_in }
{
    laws_below();
}
