//! Moving blocks of code: the instructions at new addresses, each branch and each operand at RIP or EIP aimed at what it was aimed at, in the least
//! layout.
#![tactic(auto)]

mod blocks;
mod by_plan;
mod ends;
mod error;
mod image;
mod last;
pub mod laws;
mod laws_below;
mod moved;
mod ordered;
mod outside;
pub mod pushed_calls;
mod write;

pub use blocks::{move_block, move_blocks};
pub use branch_sizes::{BlockSpan, Form};
pub use by_plan::{move_by_plan, move_planned, move_with_ready};
pub use error::{MoveError, PlanError};
pub use last::last_len;
pub use move_goals::Placed;
pub use moved::{Moved, MovedBlocks};
pub use ordered::{move_ordered_block, move_ordered_blocks};
pub use outside::{move_few_outside, move_outside};
