//! What holds of all sweeps.

ghost use Rattle.std.specs.Prelude.{◌≡◌, ℕ, List};
ghost use Rattle.x86_values.specs.declared.Bits.{Bits};
ghost use Rattle.row_relation.specs.Spells.{Reading};
ghost use Rattle.opcode_rows.specs.Sweep.{Item, IsReadAt, IsSweep};
ghost use Rattle.sweep.specs.SweepText.Facts.{OneSweepFacts, SweptFacts};

use crate::sweep_text::reading::{item_len, read_at};
use decoder::reading_laws::bytes_have_one_reading;
use x86_values::Bits;

/// Some bytes at an offset have at most one reading.
pub fn readings_are_unique()
    ensures { (bits : Bits) (base offset : ℕ) (bytes : List ℕ) (reading other : Reading)
        → IsReadAt bits base offset bytes reading → IsReadAt bits base offset bytes other → reading ≡ other }
{
    bytes_have_one_reading();
}

/// Some bytes have at most one sweep.
pub fn sweeps_are_unique()
    ensures { (bits : Bits) (base : ℕ) (bytes : List ℕ) (items others : List Item)
        → IsSweep bits base bytes items → IsSweep bits base bytes others → items ≡ others }
{
    bytes_have_one_reading();
}

/// Sweeps of the same bytes agree, item by item and at their start.
#[inline]
pub fn sweeps_agree()
    ensures { OneSweepFacts }
{
    bytes_have_one_reading();
}

/// Items that are read one after another from the first byte on are the first items of the sweep, and at the end of the bytes all of them.
#[inline]
pub fn items_stand_in_turn()
    ensures { SweptFacts }
{}

/// All bytes have a sweep, for every address of their first byte. This function computes it.
pub fn all_bytes_have_a_sweep(bits: Bits, base: u64, bytes: &[u8])
    ensures { (items : List Item) × IsSweep bits base bytes.now items }
{
    let mut at = 0;
    while at < bytes.len() {
        let (_, rest) = bytes.split_at(at);
        at += item_len(&read_at(bits, base, at, rest));
    }
}
