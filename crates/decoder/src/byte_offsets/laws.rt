//! What holds of the parts of all instructions.

ghost use Rattle.std.specs.Prelude.{◌≡◌, ℕ, List};
ghost use Rattle.x86_values.specs.declared.Bits.{Bits};
ghost use Rattle.decoder.specs.declared.byte_offsets.layout.ByteOffsets.{ByteOffsets};
ghost use Rattle.decoder.specs.ByteOffsets.Offsets.{AreOffsets};

use crate::laws::spellings_are_unique;

/// Some bytes have at most one correct answer of `offsets`.
pub fn offsets_are_unique()
    ensures { (bits : Bits) (ip : ℕ) (bytes : List ℕ) (offsets others : ByteOffsets)
        → AreOffsets bits ip bytes offsets → AreOffsets bits ip bytes others → offsets ≡ others }
{
    spellings_are_unique();
}
