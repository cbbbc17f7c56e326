//! What a moving gives.

ghost use Rattle.std.specs.Prelude.{◌≡◌};

use branch_sizes::Form;
use std::marker::Model;

/// Blocks after a move, as [`move_blocks`](crate::move_blocks) returns them.
#[derive(Drop)]
pub struct MovedBlocks {
    pub(crate) bytes: Vec<u8>,
    pub(crate) starts: Vec<u64>,
    pub(crate) forms: Vec<Form>,
    pub(crate) slots: Vec<u64>,
    pub(crate) ends: Vec<u64>,
}

impl Model for MovedBlocks {
    ghost use Rattle.block_encoder.specs.Moved.{MovedLists};
    ghost use Rattle.std.specs.Prelude.{⊤};

    ghost Value = { MovedLists };

    ghost view = { λ m. record { bytes = m.bytes.items; starts = m.starts.items; forms = m.forms.items; slots = m.slots.items; ends = m.ends.items } };

    ghost invariant = { λ m. ⊤ };
}

impl MovedBlocks {
    /// Returns the bytes of the blocks, one after another: the images, and in a block with slots a gap of at most 7 bytes CC and the slots.
    pub fn bytes(&self) -> &[u8]
        ensures { result.now ≡ self.now.bytes }
    {
        &self.bytes
    }

    /// Returns the new address of each item.
    pub fn starts(&self) -> &[u64]
        ensures { result.now ≡ self.now.starts }
    {
        &self.starts
    }

    /// Returns the form of each item.
    pub fn forms(&self) -> &[Form]
        ensures { result.now ≡ self.now.forms }
    {
        &self.forms
    }

    /// Returns the goals in the slots of all blocks, in order.
    pub fn slots(&self) -> &[u64]
        ensures { result.now ≡ self.now.slots }
    {
        &self.slots
    }

    /// Returns, for each block, the number of bytes up to its end.
    pub fn ends(&self) -> &[u64]
        ensures { result.now ≡ self.now.ends }
    {
        &self.ends
    }
}

/// One block after a move, as [`move_block`](crate::move_block) and [`move_outside`](crate::move_outside) return it.
#[derive(Drop)]
pub struct Moved {
    pub(crate) blocks: MovedBlocks,
}

impl Model for Moved {
    ghost use Rattle.block_encoder.specs.Moved.{MovedLists};
    ghost use Rattle.std.specs.Prelude.{⊤};

    ghost Value = { MovedLists };

    ghost view = { λ m. m.blocks };

    ghost invariant = { λ m. ⊤ };
}

impl Moved {
    /// Returns the bytes of the block: the images, and if it has slots a gap of at most 7 bytes CC and the slots.
    pub fn bytes(&self) -> &[u8]
        ensures { result.now ≡ self.now.bytes }
    {
        self.blocks.bytes()
    }

    /// Returns the new address of each item.
    pub fn starts(&self) -> &[u64]
        ensures { result.now ≡ self.now.starts }
    {
        self.blocks.starts()
    }

    /// Returns the form of each item.
    pub fn forms(&self) -> &[Form]
        ensures { result.now ≡ self.now.forms }
    {
        self.blocks.forms()
    }

    /// Returns the goals in the slots, in order.
    pub fn slots(&self) -> &[u64]
        ensures { result.now ≡ self.now.slots }
    {
        self.blocks.slots()
    }
}
