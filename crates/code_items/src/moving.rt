//! Some code moved to another address.

ghost use Rattle.std.specs.Prelude.{◌≡◌, ◌≤◌, None, length};
ghost use Rattle.move_goals.specs.Items.{first_disorder, one_span};
ghost use Rattle.block_encoder.specs.Moved.{IsAnswer};
ghost use Rattle.block_encoder.specs.Planned.{as_moving};
ghost use Rattle.code_items.specs.Items as spec;
ghost use Rattle.code_items.specs.Moving.{IsCodeAnswer};

use crate::items::CodeItems;
use crate::reading::{ReadError, read_items};
use block_encoder::{Form, MoveError, Moved, PlanError, move_block, move_ordered_block};
use branch_sizes::MOST_ITEMS;
use branch_sizes::laws::blocks_have_all_items;
use decoder::DecodeError;
use move_goals::laws::first_numbers_pass;
use move_goals::passes;
use std::alloc::Global;
use std::marker::Model;
use thiserror::Error;
use x86_values::Bits;

/// Why code is not moved. If several causes hold, the first in the order `BadCode`, `TooMany`, `Wraps`, `TooFar` is reported. `Memory` can replace
/// any of them.
#[derive(Clone, Copy, PartialEq, Eq, Debug, Error)]
pub enum MoveCodeError {
    /// No instruction starts at this offset from the first byte, where the previous one ends.
    #[error("no instruction at offset {at:#x}: {error}")]
    BadCode { at: u64, error: DecodeError },
    /// There was not enough memory.
    #[error("out of memory")]
    Memory,
    /// There are this many instructions, more than 65,536.
    #[error("{count} instructions are too many")]
    TooMany { count: u64 },
    /// The old or the new end is this address, which passes the address space of the mode.
    #[error("end {end:#x} passes the address space")]
    Wraps { end: u128 },
    /// The instruction of this number, from 0, does not reach its goal, which is this address.
    #[error("instruction {at} cannot reach {target:#x}")]
    TooFar { at: u64, target: u64 },
}

/// Code after a move: the old instructions, and the new bytes and addresses.
#[derive(Drop)]
pub struct MovedCode {
    code: CodeItems,
    moved: Moved,
}

impl Model for MovedCode {
    ghost use Rattle.code_items.specs.Moving.{MovedItems, AreBeside};

    ghost Value = { MovedItems };

    ghost view = { λ m. record { code = m.code; moved = m.moved } };

    ghost invariant = { λ m. AreBeside m.code.items m.moved };
}

impl MovedCode {
    /// Returns the instructions as they were, with their old addresses.
    pub fn items(&self) -> &CodeItems
        ensures { result.now ≡ self.now.code }
    {
        &self.code
    }

    /// Returns the new bytes: the images of the instructions, and if there are slots a gap of at most 7 bytes CC and the slots.
    pub fn bytes(&self) -> &[u8]
        ensures { result.now ≡ self.now.moved.bytes }
    {
        self.moved.bytes()
    }

    /// Returns the new address of each instruction.
    pub fn starts(&self) -> &[u64]
        ensures starts { result.now ≡ self.now.moved.starts }
        ensures len { length result.now ≡ length self.now.code.items }
    {
        self.moved.starts()
    }

    /// Returns the form of each instruction.
    pub fn forms(&self) -> &[Form]
        ensures forms { result.now ≡ self.now.moved.forms }
        ensures len { length result.now ≡ length self.now.code.items }
    {
        self.moved.forms()
    }

    /// Returns the addresses in the slots, in order.
    pub fn slots(&self) -> &[u64]
        ensures { result.now ≡ self.now.moved.slots }
    {
        self.moved.slots()
    }
}

/// Returns the address after some code, if it exceeds the address space of the mode. Code without bytes has no end.
#[tactic(auto, unfolding(crate::specs::Items::old_pass))]
pub(crate) fn old_pass(bits: Bits, old: u64, bytes: &[u8]) -> Option<u128>
    ensures { result ≡ spec.old_pass bits old bytes.now }
{
    if bytes.is_empty() {
        return None;
    }
    let end = u128::from(old) + bytes.len() as u128;
    if passes(bits, end) { Some(end) } else { None }
}

/// Moves decoded instructions, as one block, to a new address with [`move_block`]. It returns `OldOrder` if the old code extends past the address
/// space.
pub fn move_items(alloc: Global, code: &CodeItems, new: u64) -> Result<Moved, MoveError>
    ensures { IsAnswer code.now.bits code.now.items (one_span code.now.items new) result }
{
    move_block(alloc, code.bits, &code.placed, new)
}

/// Moves decoded instructions, as one block, to a new address. They are at most 65,536, and in order.
fn move_ordered(alloc: Global, code: &CodeItems, new: u64) -> Result<Moved, PlanError>
    requires few { length code.now.items ≤ 65536 }
    requires order { first_disorder (one_span code.now.items new) code.now.items ≡ None }
    ensures { IsAnswer code.now.bits code.now.items (one_span code.now.items new) (as_moving result) }
{
    move_ordered_block(alloc, code.bits, &code.placed, new)
}

/// Decodes the code at address `old` and moves it to address `new`.
///
/// Every branch and every RIP or EIP operand still reaches its target, or follows the target if that is an instruction of the same code. Branches
/// take the forms of the least closed layout (docs/closed-layouts.md).
///
/// Errors, in this order: `BadCode`: no instruction starts at this offset; the first such offset is reported. `TooMany`: there are more than 65,536
/// instructions. `Wraps`: the old end, or else the new end, lies past the address space of the mode. `TooFar`: an instruction cannot reach its goal;
/// the first such instruction is reported. `Memory` can occur at any point.
///
/// ```
/// let moved = move_code(rt.alloc(), Bits::B64, 0x40_1000, &FUNCTION, 0x50_0000)?;
/// println!(rt; "{} bytes", moved.bytes().len())?; // 8 bytes
/// ```
pub fn move_code(
    alloc: Global,
    bits: Bits,
    old: u64,
    bytes: &[u8],
    new: u64,
) -> Result<MovedCode, MoveCodeError>
    ensures { IsCodeAnswer bits old bytes.now new result }
{
    first_numbers_pass();
    blocks_have_all_items();
    let code = match read_items(alloc, bits, old, bytes) {
        Ok(code) => code,
        Err(ReadError::BadCode { at, error }) => return Err(MoveCodeError::BadCode { at, error }),
        Err(ReadError::Memory) => return Err(MoveCodeError::Memory),
    };
    let count = code.len();
    if count > MOST_ITEMS {
        return Err(MoveCodeError::TooMany {
            count: count as u64,
        });
    }
    if let Some(end) = old_pass(bits, old, bytes) {
        return Err(MoveCodeError::Wraps { end });
    }
    match move_ordered(alloc, &code, new) {
        Ok(moved) => Ok(MovedCode { code, moved }),
        Err(PlanError::Memory) => Err(MoveCodeError::Memory),
        Err(PlanError::Wraps { end }) => Err(MoveCodeError::Wraps { end }),
        Err(PlanError::TooFar { at, target }) => Err(MoveCodeError::TooFar { at, target }),
    }
}
