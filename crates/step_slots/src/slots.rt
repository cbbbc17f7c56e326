//! The slots.

ghost use Rattle.std.specs.Prelude.{◌≡◌, ◌⊎◌, IfSome, IfOk, IfErr, OnErr, Ok, Err, Some};
ghost use Rattle.move_goals.specs.Items.{IsPlaced};
ghost use Rattle.code_region.specs.State.{region_image};
ghost use Rattle.code_region.specs.Releasing.{release_answer};
ghost use Rattle.step_slots.specs.State.{no_slots};
ghost use Rattle.step_slots.specs.Stepping.{slots_refusal, IsStepped, after_finish};
ghost use Rattle.step_slots.specs.Holding.{SlotsAreApart, HoldsSlots};

use crate::block::step_block;
use crate::laws_below::laws_below;
use crate::refusals::StepError;
use block_encoder::Placed;
use code_region::live_entries::{LiveEntry, insert_entry, remove_entry};
use code_region::{NotTaken, OpenError, Region};
use move_goals::passes;
use std::alloc::Global;
use std::marker::Model;
use x86_values::Bits;

/// The unit in which slots are handed out, in bytes.
const UNIT: u64 = 16;

/// The greatest size of the range of slots, in bytes.
const MAX_SIZE: u64 = 1_048_576;

/// The greatest number of live slots.
const MAX_BLOCKS: u64 = 65_536;

/// A live slot: the address of its block, and the instruction in it with its own address.
#[derive(Clone, Copy, PartialEq, Eq, Debug)]
pub struct StepSlot {
    pub place: u64,
    pub item: Placed,
}

impl LiveEntry for StepSlot {
    ghost use Rattle.std.specs.Prelude.{ℕ};
    ghost use Rattle.x86_values.specs.declared.Bits.{Bits};
    ghost use Rattle.step_slots.specs.State.{slot_place, slot_len};
    ghost use Rattle.step_slots.specs.Keeping.{IsSlotBlock};

    ghost Setting = { Bits × ℕ };

    ghost place_of = { slot_place };

    ghost len_in = { λ s. slot_len s.0 s.1 };

    ghost is_block_in = { λ s. IsSlotBlock s.0 s.1 };

    fn place(&self) -> u64 {
        self.place
    }

    ghost block_place = { λ s slot block is. is.place };

    ghost block_len = { λ s slot block is. is.len };
}

/// Slots for displaced single stepping in a fixed range of addresses.
///
/// Each live slot has a block of a multiple of 16 bytes, in the first gap that is long enough. The block holds the moved image of its instruction,
/// which keeps its target, and a jump back to the address after the original instruction. Every other byte is CC (INT3).
///
/// ```
/// let mut slots = StepSlots::make(rt.alloc(), Bits::B64, 0x50_0000, 4096, 16)?;
/// let place = step_code(&mut slots, rt.alloc(), 0x40_1000, &FUNCTION)?;
/// println!(rt; "{place:x} {}", slots.live().len())?; // 500000 1
/// slots.finish(place)?;
/// ```
#[derive(Drop)]
pub struct StepSlots {
    bits: Bits,
    base: u64,
    region: Region,
    live: Vec<StepSlot>,
}

impl Model for StepSlots {
    ghost use Rattle.step_slots.specs.State.{SlotState};
    ghost use Rattle.step_slots.specs.Keeping.{AreSlotsKept};
    ghost use Rattle.std.specs.Prelude.{◌≡◌, vec_capacity};

    ghost Value = { SlotState };

    ghost view = { λ s. record { bits = s.bits; region = s.region; slots = s.live.items } };

    ghost invariant = { λ s. (s.base ≡ s.region.base) × AreSlotsKept s.bits s.region s.live.items (vec_capacity s.live) };
}

/// Why slots are refused, if they are; memory is another matter.
#[tactic(auto, using(std::proofs::lemmas::Bool::Decides::nat_tests), unfolding(crate::specs::Stepping::slots_refusal))]
fn refusal_of(bits: Bits, base: u64, size: u64, max_blocks: u64) -> Option<OpenError>
    ensures { result ≡ slots_refusal bits base size max_blocks }
{
    if size == 0 || size % UNIT != 0 || size > MAX_SIZE {
        return Some(OpenError::BadSize { size });
    }
    if max_blocks == 0 || max_blocks > MAX_BLOCKS {
        return Some(OpenError::TooManyBlocks { max: max_blocks });
    }
    let end = u128::from(base) + u128::from(size);
    if passes(bits, end) {
        return Some(OpenError::Wraps { end });
    }
    None
}

impl StepSlots {
    /// Makes an empty set of slots for a mode, in `size` bytes at the address `base`, for up to `max_blocks` live slots. It allocates all memory for
    /// them.
    ///
    /// Errors, in this order: the size is 0, not a multiple of 16, or above 1,048,576; `max_blocks` is 0 or above 65,536; the range ends past the
    /// address space of the mode. Lack of memory can occur at any point.
    pub fn make(
        alloc: Global,
        bits: Bits,
        base: u64,
        size: u64,
        max_blocks: u64,
    ) -> Result<StepSlots, OpenError>
        ensures refused { IfSome (slots_refusal bits base size max_blocks) (λ refusal. result ≡ Err refusal) }
        ensures cause { IfErr result (λ error. (slots_refusal bits base size max_blocks ≡ Some error) ⊎ (error ≡ OpenError.Memory)) }
        ensures ok { IfOk result (λ slots. slots ≡ no_slots bits base size max_blocks) }
    {
        laws_below();
        if let Some(refusal) = refusal_of(bits, base, size, max_blocks) {
            return Err(refusal);
        }
        let Ok(region) = Region::make(alloc, base, size, max_blocks) else {
            return Err(OpenError::Memory);
        };
        let Ok(live) = Vec::with_capacity(alloc, max_blocks as usize) else {
            return Err(OpenError::Memory);
        };
        Ok(StepSlots {
            bits,
            base,
            region,
            live,
        })
    }

    /// Returns the mode of the slots.
    pub fn bits(&self) -> Bits
        ensures { result ≡ self.now.bits }
    {
        self.bits
    }

    /// Gives an instruction a slot, and returns the address of its block.
    ///
    /// The instruction was decoded, or could have been encoded, at its address.
    ///
    /// Errors, in this order; each leaves the slots unchanged: the maximum number of slots is live; no gap has the length that is reserved for the
    /// block, its maximum; the instruction cannot reach its target from the slot. Lack of memory can occur at any point.
    pub fn step(&mut self, alloc: Global, item: Placed) -> Result<u64, StepError>
        requires { IsPlaced self.old.bits item }
        ensures { IsStepped self.old item result self.new }
    {
        laws_below();
        let place = step_block(alloc, self.bits, self.base, &mut self.region, item)?;
        insert_entry(&mut self.live, StepSlot { place, item });
        Ok(place)
    }

    /// Releases the live slot whose block starts at `place`, and sets its bytes to CC.
    ///
    /// Fails exactly if no live slot starts there, and then changes nothing.
    pub fn finish(&mut self, place: u64) -> Result<(), NotTaken>
        ensures answer { result ≡ release_answer self.old.region place }
        ensures state { self.new ≡ after_finish self.old place }
        ensures refused { OnErr result (self.new ≡ self.old) }
    {
        laws_below();
        self.region.release(place)?;
        remove_entry(&mut self.live, place);
        Ok(())
    }

    /// Returns the live slots, in the order of addresses.
    pub fn live(&self) -> &[StepSlot]
        ensures slots { result.now ≡ self.now.slots }
        ensures apart { SlotsAreApart self.now }
    {
        laws_below();
        &self.live
    }

    /// Returns the bytes of the range: the blocks of the live slots, and CC elsewhere.
    pub fn image(&self) -> &[u8]
        ensures value { result.now ≡ region_image self.now.region }
        ensures slots { HoldsSlots self.now result.now }
    {
        laws_below();
        self.region.image()
    }
}
