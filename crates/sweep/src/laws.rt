//! What holds of all streams.

ghost use Rattle.std.specs.Prelude.{ℕ, List, ◌++◌, length, All};
ghost use Rattle.x86_values.specs.declared.Bits.{Bits};
ghost use Rattle.opcode_rows.specs.Sweep.{Item, Sweeps};
ghost use Rattle.sweep.specs.Steps.{IsReady};
ghost use Rattle.sweep.specs.Facts.{ListingFacts};

use crate::run_parts::laws::told_bytes_are_read;

/// If 15 bytes of each of the first items of a sweep are known, they are its first items whatever follows. So the output does not depend on how the
/// input is cut.
pub fn seen_items_stay()
    ensures { (bits : Bits) (base : ℕ) (seen more : List ℕ) (items : List Item) (rest : List ℕ) → Sweeps bits base 0 seen items rest
        → All (IsReady (length seen)) items → Sweeps bits base 0 (seen ++ more) items (rest ++ more) }
{}

/// A listing whose source and sink do not fail reaches the end of its input, or reports that the input has too many bytes.
#[inline]
pub fn listings_come_to_their_end()
    ensures { ListingFacts }
{
    told_bytes_are_read();
}
