//! Moving from which every target stays.

ghost use Rattle.std.specs.Prelude.{◌≡◌, ◌≤◌, length};
ghost use Rattle.move_goals.specs.Items.{ArePlaced};
ghost use Rattle.block_encoder.specs.ByPlan.{IsOutsideAnswer};
ghost use Rattle.block_encoder.specs.Planned.{as_moving};

use crate::by_plan::move_planned;
use crate::error::{MoveError, PlanError};
use crate::moved::{Moved, MovedBlocks};
use branch_sizes::MOST_ITEMS;
use move_goals::{Placed, plan_outside};
use std::alloc::Global;
use x86_values::Bits;

/// Returns the one moved block, if blocks were moved.
fn one_block(answer: Result<MovedBlocks, PlanError>) -> Result<Moved, PlanError>
    ensures { result ≡ answer }
{
    match answer {
        Ok(blocks) => Ok(Moved { blocks }),
        Err(why) => Err(why),
    }
}

/// Returns an answer for one block as one of [`move_outside`].
fn one_as_moving(answer: Result<Moved, PlanError>) -> Result<Moved, MoveError>
    ensures { result ≡ as_moving answer }
{
    match answer {
        Ok(moved) => Ok(moved),
        Err(why) => Err(MoveError::from(why)),
    }
}

/// Moves instructions to a new address like [`move_outside`], for a caller that knows them to be at most 65,536.
///
/// Errors: `Wraps`: the new end lies past the address space of the mode. `TooFar`: an item cannot reach its target; the first such item is reported.
/// `Memory` can replace either.
pub fn move_few_outside(
    alloc: Global,
    bits: Bits,
    items: &[Placed],
    new_base: u64,
) -> Result<Moved, PlanError>
    requires placed { ArePlaced bits items.now }
    requires few { length items.now ≤ 65536 }
    ensures { IsOutsideAnswer bits items.now new_base (as_moving result) }
{
    let plan = plan_outside(alloc, bits, items, new_base)?;
    one_block(move_planned(alloc, bits, items, &plan))
}

/// Moves instructions to a new address, one after another, and keeps every target: a branch to one of them goes to its old address.
///
/// Each instruction was decoded, or could have been encoded, at its old address. The old addresses may lie in any order.
///
/// Errors: `TooMany`: there are more than 65,536 items. `Wraps`: the new end lies past the address space of the mode. `TooFar`: an item cannot reach
/// its target; the first such item is reported. `Memory` can replace any error after `TooMany`. `OldOrder` does not occur.
pub fn move_outside(
    alloc: Global,
    bits: Bits,
    items: &[Placed],
    new_base: u64,
) -> Result<Moved, MoveError>
    requires { ArePlaced bits items.now }
    ensures { IsOutsideAnswer bits items.now new_base result }
{
    if items.len() > MOST_ITEMS {
        return Err(MoveError::TooMany {
            count: items.len() as u64,
        });
    }
    one_as_moving(move_few_outside(alloc, bits, items, new_base))
}
