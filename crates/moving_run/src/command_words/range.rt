//! The ranges of addresses in which slots are made.

ghost use Rattle.std.specs.Prelude.{◌≡◌, ◌≤◌, ◌^◌, ◌↔◌, IsTrue};
ghost use Rattle.x86_values.specs.Wrapping.{width};
ghost use Rattle.moving_run.specs.CommandWords.Ranges.{is_range, range_of, IsRange};

use std::marker::Model;
use x86_values::Bits;

/// A range of addresses for slots: 16 to 1,048,576 bytes, in units of 16, inside the address space of a mode.
#[derive(Clone, Copy)]
pub struct SlotRange {
    bits: Bits,
    base: u64,
    size: u64,
}

impl Model for SlotRange {
    ghost use Rattle.moving_run.specs.CommandWords.Ranges.{Range, IsRange};

    ghost Value = { Range };

    ghost view = { λ r. record { bits = r.bits; base = r.base; size = r.size } };

    ghost invariant = { λ r. IsRange (record { bits = r.bits; base = r.base; size = r.size }) };

    ghost inverse = { λ r. record { bits = r.bits; base = r.base; size = r.size } };
}

/// Whether an address is at most the end of the address space of a mode.
#[inline]
fn is_end(bits: Bits, end: u128) -> bool
    ensures { IsTrue result ↔ (end ≤ 2 ^ width bits) }
{
    match bits {
        Bits::B16 => end <= 1 << 16,
        Bits::B32 => end <= 1 << 32,
        Bits::B64 => end <= 1 << 64,
    }
}

/// Whether `size` bytes from `base` on are a range.
fn is_slot_range(bits: Bits, base: u64, size: u64) -> bool
    ensures { result ≡ is_range bits base size }
{
    size != 0
        && size % 16 == 0
        && size <= 1_048_576
        && is_end(bits, u128::from(base) + u128::from(size))
}

impl SlotRange {
    /// Returns the range of `size` bytes at the address `base`, if it is a valid range.
    #[tactic(auto, unfolding(crate::specs::CommandWords::Ranges::range_of))]
    pub fn new(bits: Bits, base: u64, size: u64) -> Option<SlotRange>
        ensures { result ≡ range_of bits base size }
    {
        if is_slot_range(bits, base, size) {
            Some(SlotRange { bits, base, size })
        } else {
            None
        }
    }

    /// Returns the mode.
    #[inline]
    pub fn bits(&self) -> Bits
        ensures value { result ≡ self.now.bits }
        ensures range { IsRange self.now }
    {
        self.bits
    }

    /// Returns the first address.
    #[inline]
    pub fn base(&self) -> u64
        ensures value { result ≡ self.now.base }
        ensures range { IsRange self.now }
    {
        self.base
    }

    /// Returns the size in bytes.
    #[inline]
    pub fn size(&self) -> u64
        ensures { result ≡ self.now.size }
    {
        self.size
    }
}
