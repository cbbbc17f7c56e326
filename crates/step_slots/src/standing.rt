//! The block of an instruction at a place that the caller chooses.

ghost use Rattle.std.specs.Prelude.{◌≡◌, ◌<◌, ◌≤◌, ℕ, length, slice_index_or, IfOk, Ok};
ghost use Rattle.move_goals.specs.BranchForms.Images.{instrs_of};
ghost use Rattle.move_goals.specs.Items.{IsPlaced, no_instr};
ghost use Rattle.step_slots.specs.Block.{reserved_room};
ghost use Rattle.step_slots.specs.Done.{IsDoneAt, done_length, step_form};
ghost use Rattle.step_slots.specs.Standing.{IsStood, FitsReserved};

use crate::block::step_items;
use crate::laws_below::laws_below;
use block_encoder::{Moved, Placed, PlanError, last_len, move_few_outside};
use branch_sizes::Form;
use move_goals::branch_forms::{Image, image_of};
use move_goals::moved_targets::plain_length;
use std::alloc::Global;
use thiserror::Error;
use x86_values::{Bits, Instr};

/// Why an instruction has no block at an address.
#[derive(Clone, Copy, PartialEq, Eq, Debug, Error)]
pub enum StandError {
    /// There was not enough memory.
    #[error("out of memory")]
    Memory,
    /// The block would end at this address, which passes the address space of the mode.
    #[error("the block ends at {end:#x}, past the address space")]
    Wraps { end: u128 },
    /// The instruction does not reach its target from the place, which is this address.
    #[error("cannot reach {target:#x}")]
    TooFar { target: u64 },
}

/// Returns the first instruction of an image.
fn first_instr(image: Image) -> Instr
    ensures { result ≡ slice_index_or (instrs_of image) 0 no_instr }
{
    match image {
        Image::One(first) => first,
        Image::Two(first, _) => first,
        Image::Three(first, _, _) => first,
    }
}

/// Returns the block of an instruction at an address: its moved image, which keeps its target, and a jump back to the address after the original
/// instruction. The jump back is the second moved item, so its address is `starts()[1]`.
///
/// [`StepSlots::step`](crate::StepSlots::step) fills a slot with the same block; this function serves callers that manage addresses themselves. The
/// instruction was decoded, or could have been encoded, at its address.
///
/// Errors, in this order: the block would end past the address space of the mode; the instruction cannot reach its target from there. Lack of memory
/// can occur at any point.
pub fn step_at(alloc: Global, bits: Bits, item: Placed, place: u64) -> Result<Moved, StandError>
    requires { IsPlaced bits item }
    ensures answer { IsStood bits item place result }
    ensures starts { IfOk result (λ moved. length moved.starts ≡ 2) }
    ensures short { IfOk result (λ moved. length moved.bytes ≤ 53) }
    ensures fits { IfOk result (λ moved. FitsReserved bits item place moved.bytes) }
{
    laws_below();
    let items = step_items(bits, item);
    match move_few_outside(alloc, bits, &items, place) {
        Ok(moved) => Ok(moved),
        Err(PlanError::Memory) => Err(StandError::Memory),
        Err(PlanError::Wraps { end }) => Err(StandError::Wraps { end }),
        Err(PlanError::TooFar { target, .. }) => Err(StandError::TooFar { target }),
    }
}

/// Returns the number of bytes reserved for the block of an instruction: its maximum length at any address that is a multiple of 16 bytes after
/// `base`.
pub fn step_len(bits: Bits, item: Placed, base: u64) -> u64
    requires { IsPlaced bits item }
    ensures value { result ≡ reserved_room bits base item }
    ensures some { 0 < result }
    ensures short { result ≤ 53 }
{
    laws_below();
    let items = step_items(bits, item);
    last_len(bits, &items, base)
}

/// Returns the form of the instruction's image in its block.
fn image_form(moved: &Moved) -> Form
    ensures { result ≡ step_form moved.now }
{
    moved.forms().first().copied().unwrap_or(Form::Itself)
}

/// Returns the offset in a block from which its instruction has happened: the length of the first instruction of its image.
///
/// If a branch cannot reach its target in one instruction, jumps follow that one; a LOOP has already counted when they are reached. Before this
/// offset the instruction has not happened. `moved` must be the result of [`step_at`] for `item`.
pub fn done_len(bits: Bits, item: &Placed, moved: &Moved) -> u8
    ensures value { result ≡ done_length bits item.now.instr (step_form moved.now) }
    ensures done { (place : ℕ) → IsStood bits item.now place (Ok moved.now) → IsDoneAt bits item.now place moved.now result }
{
    move_goals::moved_targets::laws::spellings_are_moved();
    move_goals::branch_forms::laws::pieces_have_their_lengths();
    block_encoder::laws::moved_blocks_keep_their_laws();
    let form = image_form(moved);
    let first = first_instr(image_of(bits, &item.instr, form, 0, 0, 0));
    plain_length(bits, &first)
}
