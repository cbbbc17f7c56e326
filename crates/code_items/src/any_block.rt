//! Instructions of which some have no row, moved as one block.

ghost use Rattle.std.specs.Prelude.{◌≤◌, length};
ghost use Rattle.code_items.specs.AnyItems.{AreAnySound};
ghost use Rattle.code_items.specs.AnyPlan as plan_spec;
ghost use Rattle.code_items.specs.AnyPlan.{AreAnyGoals};
ghost use Rattle.code_items.specs.AnyMoved.{IsAnyPlanAnswer};
ghost use Rattle.code_items.specs.AnyWriting.{IsPlanOf};

use crate::any_items::AnyItem;
use crate::any_laws_below::laws_below;
use crate::any_plan::any_plan_with;
use crate::any_writing::{filler, stand_ins, write_items};
use block_encoder::{Form, MovedBlocks, PlanError, move_planned};
use branch_sizes::{Goal, Plan};
use std::alloc::Global;
use std::marker::Model;
use x86_values::Bits;

/// One block of moved instructions, of which some have no row: the new bytes and addresses.
#[derive(Drop)]
pub struct MovedAnyBlock {
    bytes: Vec<u8>,
    moved: MovedBlocks,
}

impl Model for MovedAnyBlock {
    ghost use Rattle.block_encoder.specs.Moved.{MovedLists};
    ghost use Rattle.std.specs.Prelude.{⊤};

    ghost Value = { MovedLists };

    ghost view = { λ m. record { bytes = m.bytes.items; starts = m.moved.starts; forms = m.moved.forms; slots = m.moved.slots; ends = m.moved.ends } };

    ghost invariant = { λ m. ⊤ };
}

impl MovedAnyBlock {
    ghost use Rattle.std.specs.Prelude.{◌≡◌};

    /// Returns the bytes of the block: of the instructions in order, and if there are slots a gap of at most 7 bytes CC and the slots.
    pub fn bytes(&self) -> &[u8]
        ensures { result.now ≡ self.now.bytes }
    {
        &self.bytes
    }

    /// Returns the new address of each instruction.
    pub fn starts(&self) -> &[u64]
        ensures { result.now ≡ self.now.starts }
    {
        self.moved.starts()
    }

    /// Returns the form of each instruction. One without a row has one form, `Near`.
    pub fn forms(&self) -> &[Form]
        ensures { result.now ≡ self.now.forms }
    {
        self.moved.forms()
    }

    /// Returns the addresses in the slots, in order.
    pub fn slots(&self) -> &[u64]
        ensures { result.now ≡ self.now.slots }
    {
        self.moved.slots()
    }
}

/// Moves instructions by a plan of them.
pub(crate) fn move_by_plan(
    alloc: Global,
    bits: Bits,
    items: &[AnyItem],
    plan: &Plan,
) -> Result<MovedAnyBlock, PlanError>
    requires sound { AreAnySound bits items.now }
    requires plan { IsPlanOf bits items.now plan.now }
    ensures { IsAnyPlanAnswer bits items.now plan.now result }
{
    laws_below();
    // NOP has an encoding in each mode.
    let Some(filler) = filler(bits) else {
        return Err(PlanError::Memory);
    };
    let Ok(stand_ins) = stand_ins(alloc, &filler, items) else {
        return Err(PlanError::Memory);
    };
    match move_planned(alloc, bits, &stand_ins, plan) {
        Ok(moved) => match write_items(alloc, bits, items, &stand_ins, plan, &moved) {
            Ok(bytes) => Ok(MovedAnyBlock { bytes, moved }),
            Err(_) => Err(PlanError::Memory),
        },
        Err(why) => Err(why),
    }
}

/// Moves instructions, of which some have no row, as one block to an address. Each has a goal of the caller's choice, as many as there are
/// instructions.
///
/// The instructions take the forms of the least closed layout (docs/closed-layouts.md); one without a row has its own length, and its bytes are those
/// that it had, but for the number that is relative to the address after it, which refers to the goal.
///
/// Errors: `Wraps`: the new end lies past the address space of the mode. `TooFar`: an instruction cannot reach its goal; the first such instruction is
/// reported. `Memory` can replace either.
pub fn move_any_block(
    alloc: Global,
    bits: Bits,
    items: &[AnyItem],
    goals: &[Goal],
    new: u64,
) -> Result<MovedAnyBlock, PlanError>
    requires few { length items.now ≤ 65536 }
    requires sound { AreAnySound bits items.now }
    requires goals { AreAnyGoals bits items.now goals.now }
    ensures { IsAnyPlanAnswer bits items.now (plan_spec.any_plan_with bits items.now (plan_spec.goal_in goals.now) new) result }
{
    match any_plan_with(alloc, bits, items, goals, new) {
        Ok(plan) => move_by_plan(alloc, bits, items, &plan),
        Err(_) => Err(PlanError::Memory),
    }
}
