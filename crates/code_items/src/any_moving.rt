//! Some code moved to another address, of which some instructions have no row.

ghost use Rattle.std.specs.Prelude.{◌≡◌, ◌≤◌, None, length};
ghost use Rattle.code_items.specs.AnyItems.{AnyAscend, AreAnySound};
ghost use Rattle.code_items.specs.AnyMoved.{IsAnyCodeAnswer};
ghost use Rattle.code_items.specs.AnyWriting as writing;
ghost use Rattle.code_items.specs.AnyWriting.{IsAnyMoveAnswer};

use crate::any_block::{MovedAnyBlock, move_by_plan};
use crate::any_items::{AnyItem, read_any_items};
use crate::any_laws_below::laws_below;
use crate::any_plan::any_plan;
use crate::moving::{MoveCodeError, old_pass};
use crate::reading::ReadError;
use block_encoder::{Form, PlanError};
use branch_sizes::MOST_ITEMS;
use std::alloc::Global;
use std::marker::Model;
use x86_values::Bits;

/// Code after a move, of which some instructions have no row: the old instructions, and the new bytes and addresses.
#[derive(Drop)]
pub struct MovedAnyCode {
    items: Vec<AnyItem>,
    block: MovedAnyBlock,
}

impl Model for MovedAnyCode {
    ghost use Rattle.code_items.specs.AnyMoved.{MovedAny};
    ghost use Rattle.code_items.specs.AnyMoved.{AreBesideAny};

    ghost Value = { MovedAny };

    ghost view = { λ m. record { items = m.items.items; bytes = m.block.bytes; starts = m.block.starts; forms = m.block.forms; slots = m.block.slots } };

    ghost invariant = { λ m. AreBesideAny m.items.items m.block };
}

impl MovedAnyCode {
    /// Returns the instructions as they were, with their old addresses.
    pub fn items(&self) -> &[AnyItem]
        ensures { result.now ≡ self.now.items }
    {
        &self.items
    }

    /// Returns the new bytes: of the instructions in order, and if there are slots a gap of at most 7 bytes CC and the slots.
    pub fn bytes(&self) -> &[u8]
        ensures { result.now ≡ self.now.bytes }
    {
        self.block.bytes()
    }

    /// Returns the new address of each instruction.
    pub fn starts(&self) -> &[u64]
        ensures starts { result.now ≡ self.now.starts }
        ensures len { length result.now ≡ length self.now.items }
    {
        self.block.starts()
    }

    /// Returns the form of each instruction. One without a row has one form, `Near`.
    pub fn forms(&self) -> &[Form]
        ensures forms { result.now ≡ self.now.forms }
        ensures len { length result.now ≡ length self.now.items }
    {
        self.block.forms()
    }

    /// Returns the addresses in the slots, in order.
    pub fn slots(&self) -> &[u64]
        ensures { result.now ≡ self.now.slots }
    {
        self.block.slots()
    }
}

/// Decodes the code at address `old` and moves it to address `new` like [`move_code`](crate::move_code), also where the opcode table leaves out some of
/// its instructions (`unlisted::measure`).
///
/// Such an instruction keeps its bytes. If it has a number that is relative to the address after it, that is set so that it refers to the same
/// address (memory at RIP or EIP, or where XBEGIN continues after an abort), or to the moved instruction that began at this address. All other
/// instructions are moved as by `move_code`. The branches take the forms of the least closed layout (docs/closed-layouts.md), in which an instruction
/// without a row has its own length.
///
/// Errors, in this order: `BadCode`: at this offset starts neither an instruction of the table nor one that is measured; the first such offset is
/// reported. An XBEGIN with a 16-bit distance outside 16-bit mode counts as none. `TooMany`: there are more than 65,536 instructions. `Wraps`: the old
/// end, or else the new end, lies past the address space of the mode. `TooFar`: an instruction cannot reach its goal; the first such instruction is
/// reported. `Memory` can occur at any point.
///
/// The format does not say what an instruction does: an undefined opcode raises its exception at the new place.
pub fn move_code_unlisted(
    alloc: Global,
    bits: Bits,
    old: u64,
    bytes: &[u8],
    new: u64,
) -> Result<MovedAnyCode, MoveCodeError>
    ensures { IsAnyCodeAnswer bits old bytes.now new result }
{
    let items = match read_any_items(alloc, bits, old, bytes) {
        Ok(items) => items,
        Err(ReadError::BadCode { at, error }) => return Err(MoveCodeError::BadCode { at, error }),
        Err(ReadError::Memory) => return Err(MoveCodeError::Memory),
    };
    let count = items.len();
    if count > MOST_ITEMS {
        return Err(MoveCodeError::TooMany {
            count: count as u64,
        });
    }
    if let Some(end) = old_pass(bits, old, bytes) {
        return Err(MoveCodeError::Wraps { end });
    }
    move_any(alloc, bits, items, new)
}

/// Returns the cause that stopped the plan, as one of moving code.
fn code_error(why: PlanError) -> MoveCodeError
    ensures { result ≡ writing.code_error_of why }
{
    match why {
        PlanError::Memory => MoveCodeError::Memory,
        PlanError::Wraps { end } => MoveCodeError::Wraps { end },
        PlanError::TooFar { at, target } => MoveCodeError::TooFar { at, target },
    }
}

/// Moves instructions, at most 65,536 whose addresses ascend, as one block to an address.
fn move_any(
    alloc: Global,
    bits: Bits,
    items: Vec<AnyItem>,
    new: u64,
) -> Result<MovedAnyCode, MoveCodeError>
    requires few { length items.items ≤ 65536 }
    requires ascend { AnyAscend items.items }
    requires sound { AreAnySound bits items.items }
    ensures { IsAnyMoveAnswer bits items.items new result }
{
    laws_below();
    let plan = match any_plan(alloc, bits, &items, new) {
        Ok(plan) => plan,
        Err(_) => return Err(MoveCodeError::Memory),
    };
    match move_by_plan(alloc, bits, &items, &plan) {
        Ok(block) => Ok(MovedAnyCode { items, block }),
        Err(why) => Err(code_error(why)),
    }
}
