//! Moving blocks.

ghost use Rattle.std.specs.Prelude.{◌≡◌};
ghost use Rattle.move_goals.specs.Items as old;
ghost use Rattle.block_encoder.specs.Going.{GoToGoals};
ghost use Rattle.block_encoder.specs.Moved.{IsAnswer};

use crate::by_plan::as_moving;
use crate::error::MoveError;
use crate::moved::{Moved, MovedBlocks};
use crate::ordered::move_ordered_blocks;
use branch_sizes::{BlockSpan, MOST_ITEMS};
use move_goals::{Placed, first_disorder};
use std::alloc::Global;
use x86_values::Bits;

/// Moves blocks of code to new addresses.
///
/// `items` are the instructions of all blocks in order; the first span owns the first of them, and so on. Each instruction was decoded, or could have
/// been encoded, at its old address. A branch or RIP operand whose target starts an instruction of the same block follows that instruction. Otherwise
/// it follows the first instruction of another block that starts there. Otherwise it keeps its target.
///
/// Branches take the forms of the least closed layout: no closed layout has an earlier form of any branch (docs/closed-layouts.md). A layout that is
/// not closed may have a shorter branch and still reach all goals. New ranges may overlap each other and old ranges. An empty block ends at its new
/// base.
///
/// Errors: `TooMany`: there are more than 65,536 items. `OldOrder`: an item, not the first of its block, does not begin where the previous one ended.
/// `Wraps`: an old end, or else a new end, lies past the address space of the mode; the first such end is reported. `TooFar`: an item cannot reach
/// its goal; the first such item is reported. `Memory` can replace any error after `OldOrder`.
///
/// The clause `answer` states that the blocks are those of the least layout. The clause `goals` states that the image of each item goes to the goal
/// of that item (`GoesToGoal`).
pub fn move_blocks(
    alloc: Global,
    bits: Bits,
    items: &[Placed],
    spans: &[BlockSpan],
) -> Result<MovedBlocks, MoveError>
    requires spans { old.AreSpansOf items.now spans.now }
    requires placed { old.ArePlaced bits items.now }
    ensures answer { IsAnswer bits items.now spans.now result }
    ensures goals { GoToGoals bits items.now spans.now result }
{
    if items.len() > MOST_ITEMS {
        return Err(MoveError::TooMany {
            count: items.len() as u64,
        });
    }
    if let Some(at) = first_disorder(items, spans) {
        return Err(MoveError::OldOrder { at: at as u64 });
    }
    as_moving(move_ordered_blocks(alloc, bits, items, spans))
}

/// Moves one block of code to a new address. The rules and errors are those of [`move_blocks`].
pub fn move_block(
    alloc: Global,
    bits: Bits,
    items: &[Placed],
    new_base: u64,
) -> Result<Moved, MoveError>
    requires { old.ArePlaced bits items.now }
    ensures { IsAnswer bits items.now (old.one_span items.now new_base) result }
{
    let Ok(count) = u32::try_from(items.len()) else {
        return Err(MoveError::TooMany {
            count: items.len() as u64,
        });
    };
    match move_blocks(alloc, bits, items, &[BlockSpan { count, new_base }]) {
        Ok(blocks) => Ok(Moved { blocks }),
        Err(why) => Err(why),
    }
}
