//! Moving blocks of few items whose old addresses are in order.

ghost use Rattle.std.specs.Prelude.{◌≡◌, ◌≤◌, None, length};
ghost use Rattle.move_goals.specs.Items as old;
ghost use Rattle.block_encoder.specs.Going.{GoToGoals};
ghost use Rattle.block_encoder.specs.Moved.{IsAnswer};
ghost use Rattle.block_encoder.specs.Planned.{as_moving};

use crate::by_plan::move_with_ready;
use crate::error::PlanError;
use crate::laws_below::laws_below;
use crate::moved::{Moved, MovedBlocks};
use branch_sizes::BlockSpan;
use move_goals::{Placed, first_old_pass, plan_with_ready, ready_bytes};
use std::alloc::Global;
use x86_values::Bits;

/// Moves blocks of code to new addresses like [`move_blocks`](crate::move_blocks), for a caller that knows the old code to be few instructions in
/// order.
///
/// There are at most 65,536 items. Each item that is not the first of its block begins at the old address where the one before it ends. So neither
/// `TooMany` nor `OldOrder` can occur; otherwise the answer is that of [`move_blocks`](crate::move_blocks).
///
/// Errors: `Wraps`: an old end, or else a new end, lies past the address space of the mode; the first such end is reported. `TooFar`: an item cannot
/// reach its goal; the first such item is reported. `Memory` can replace either.
pub fn move_ordered_blocks(
    alloc: Global,
    bits: Bits,
    items: &[Placed],
    spans: &[BlockSpan],
) -> Result<MovedBlocks, PlanError>
    requires spans { old.AreSpansOf items.now spans.now }
    requires placed { old.ArePlaced bits items.now }
    requires few { length items.now ≤ 65536 }
    requires order { old.first_disorder spans.now items.now ≡ None }
    ensures answer { IsAnswer bits items.now spans.now (as_moving result) }
    ensures goals { GoToGoals bits items.now spans.now (as_moving result) }
{
    laws_below();
    if let Some(end) = first_old_pass(bits, items, spans) {
        return Err(PlanError::Wraps { end });
    }
    let ready = ready_bytes(alloc, bits, items)?;
    let plan = plan_with_ready(alloc, bits, items, spans, &ready)?;
    move_with_ready(alloc, bits, items, &plan, &ready)
}

/// Moves one block of few instructions in order to a new address. The rules and errors are those of [`move_ordered_blocks`].
pub fn move_ordered_block(
    alloc: Global,
    bits: Bits,
    items: &[Placed],
    new_base: u64,
) -> Result<Moved, PlanError>
    requires placed { old.ArePlaced bits items.now }
    requires few { length items.now ≤ 65536 }
    requires order { old.first_disorder (old.one_span items.now new_base) items.now ≡ None }
    ensures { IsAnswer bits items.now (old.one_span items.now new_base) (as_moving result) }
{
    let count = items.len() as u32;
    match move_ordered_blocks(alloc, bits, items, &[BlockSpan { count, new_base }]) {
        Ok(blocks) => Ok(Moved { blocks }),
        Err(why) => Err(why),
    }
}
