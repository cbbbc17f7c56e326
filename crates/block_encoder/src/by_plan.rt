//! Moving blocks by a plan of them.

ghost use Rattle.std.specs.Prelude.{◌≡◌, length};
ghost use Rattle.move_goals.specs.Ready.{AreReady};
ghost use Rattle.block_encoder.specs.ByPlan.{IsPlanAnswer};
ghost use Rattle.block_encoder.specs.Planned as planned;
ghost use Rattle.block_encoder.specs.Written.{first_end_past};

use crate::error::{MoveError, PlanError};
use crate::laws_below::laws_below;
use crate::moved::MovedBlocks;
use crate::write::write_blocks;
use arrayvec::ArrayVec;
use branch_sizes::Plan;
use branch_sizes::move_layout::{BlockEnd, lay_out};
use move_goals::{Placed, passes};
use std::alloc::Global;
use x86_values::Bits;

/// The first new end that passes the address space of the mode.
fn first_new_pass(bits: Bits, ends: &[BlockEnd]) -> Option<u128>
    ensures { result ≡ first_end_past bits ends.now }
{
    laws_below();
    for end in ends {
        if passes(bits, end.end) {
            return Some(end.end);
        }
    }
    None
}

/// Returns an answer by a plan as one of [`move_blocks`](crate::move_blocks).
pub(crate) fn as_moving(answer: Result<MovedBlocks, PlanError>) -> Result<MovedBlocks, MoveError>
    ensures { result ≡ planned.as_moving answer }
{
    match answer {
        Ok(blocks) => Ok(blocks),
        Err(why) => Err(MoveError::from(why)),
    }
}

/// Moves the items of a plan, which gives the forms and the goal of each item, to their places in the least layout.
///
/// The plan alone decides where each item goes; old addresses do not matter.
///
/// Errors: `Wraps`: a new end lies past the address space of the mode; the first such end is reported. `TooFar`: an item cannot reach its goal; the
/// first such item is reported. `Memory` can replace either.
pub fn move_planned(
    alloc: Global,
    bits: Bits,
    items: &[Placed],
    plan: &Plan,
) -> Result<MovedBlocks, PlanError>
    requires { length plan.now.items ≡ length items.now }
    ensures { IsPlanAnswer bits items.now plan.now (planned.as_moving result) }
{
    move_with_ready(alloc, bits, items, plan, &[])
}

/// Moves the items of a plan like [`move_planned`], with the errors of [`move_blocks`](crate::move_blocks). `TooMany` and `OldOrder` do not occur.
pub fn move_by_plan(
    alloc: Global,
    bits: Bits,
    items: &[Placed],
    plan: &Plan,
) -> Result<MovedBlocks, MoveError>
    requires { length plan.now.items ≡ length items.now }
    ensures { IsPlanAnswer bits items.now plan.now result }
{
    as_moving(move_planned(alloc, bits, items, plan))
}

/// Moves the items of a plan like [`move_planned`]. The ready bytes of an item, which do not depend on its place, are written as they are: see
/// [`ready_bytes`](move_goals::ready_bytes). Without ready bytes an item is encoded.
///
/// Errors: those of [`move_planned`].
pub fn move_with_ready(
    alloc: Global,
    bits: Bits,
    items: &[Placed],
    plan: &Plan,
    ready: &[ArrayVec<u8, 15>],
) -> Result<MovedBlocks, PlanError>
    requires plan { length plan.now.items ≡ length items.now }
    requires ready { AreReady bits items.now ready.now }
    ensures { IsPlanAnswer bits items.now plan.now (planned.as_moving result) }
{
    laws_below();
    let laid = lay_out(alloc, plan)?;
    if let Some(end) = first_new_pass(bits, &laid.ends) {
        return Err(PlanError::Wraps { end });
    }
    write_blocks(alloc, bits, items, plan, &laid, ready)
}
