//! What a routine becomes.

ghost use Rattle.std.specs.Prelude.{◌≡◌, take};
ghost use Rattle.code_assembler.specs.Routine.{label_place};
ghost use Rattle.code_assembler.specs.Finished.{label_address, start_at};

use crate::label::Label;
use crate::lists::front_of;
use block_encoder::MovedBlocks;
use std::marker::Model;

/// The bytes of a routine at an address, as [`Assembler::finish`](crate::Assembler::finish) returns them.
#[derive(Drop)]
pub struct Assembled {
    pub(crate) bytes: Vec<u8>,
    pub(crate) moved: MovedBlocks,
    pub(crate) count: usize,
    pub(crate) labels: Vec<Option<u32>>,
}

impl Model for Assembled {
    ghost use Rattle.code_assembler.specs.Finished.{AssembledState};
    ghost use Rattle.std.specs.Prelude.{⊤};

    ghost Value = { AssembledState };

    ghost view = { λ a. record { bytes = a.bytes.items; moved = a.moved; count = a.count; labels = a.labels.items } };

    ghost invariant = { λ a. ⊤ };
}

/// Where the label of a number stands, if it has a place.
fn place_numbered(labels: &[Option<u32>], number: usize) -> Option<u32>
    ensures { result ≡ label_place labels.now number }
{
    match labels.get(number) {
        Some(place) => *place,
        None => None,
    }
}

/// Where a label stands, if it has a place.
pub(crate) fn place_of(labels: &[Option<u32>], label: u32) -> Option<u32>
    ensures { result ≡ label_place labels.now label }
{
    place_numbered(labels, label as usize)
}

/// The address of the item that a label precedes.
fn start_of(starts: &[u64], place: Option<u32>) -> Option<u64>
    ensures { result ≡ start_at starts.now place }
{
    match place {
        None => None,
        Some(k) => starts.get(k as usize).copied(),
    }
}

impl Assembled {
    /// Returns the bytes: the instructions and the data in order, and if a branch goes through a slot a gap of bytes CC and the slots. The gap has at most
    /// 7 bytes, and one more if a label stands at the end.
    pub fn bytes(&self) -> &[u8]
        ensures { result.now ≡ self.now.bytes }
    {
        &self.bytes
    }

    /// Returns the address of each item, in order: of each instruction and of each byte of data.
    pub fn starts(&self) -> &[u64]
        ensures { result.now ≡ take self.now.count self.now.moved.starts }
    {
        front_of(self.moved.starts(), self.count)
    }

    /// Returns the addresses in the slots, in order: the targets that no branch reaches from here.
    pub fn slots(&self) -> &[u64]
        ensures { result.now ≡ self.now.moved.slots }
    {
        self.moved.slots()
    }

    /// Returns the address of a label. A label at the end has the address behind the last item. There is no address if the label has no place, or if it
    /// follows the last of 65,536 items.
    pub fn address(&self, label: Label) -> Option<u64>
        ensures { result ≡ label_address self.now label.number }
    {
        start_of(self.moved.starts(), place_of(&self.labels, label.number))
    }

    /// Returns the address of the label before which so many were made, as [`Assembled::address`] does. There is none if no more labels were made.
    pub fn address_at(&self, number: usize) -> Option<u64>
        ensures { result ≡ label_address self.now number }
    {
        start_of(self.moved.starts(), place_numbered(&self.labels, number))
    }
}
