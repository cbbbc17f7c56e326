//! Whole code as instructions: decoded one after another, each with its address, and moved to another address. The calls accept any bytes, modes and
//! addresses.
#![tactic(auto)]

mod any_block;
mod any_items;
pub mod any_laws;
mod any_laws_below;
mod any_moving;
mod any_plan;
mod any_writing;
mod items;
mod moving;
mod reading;

pub use any_block::{MovedAnyBlock, move_any_block};
pub use any_items::{AnyItem, UnlistedItem, item_ip, item_len, read_any, read_any_items};
pub use any_moving::{MovedAnyCode, move_code_unlisted};
pub use any_plan::{any_choices, any_target, is_any_branch};
pub use items::{CodeItem, CodeItems, CodeIter};
pub use moving::{MoveCodeError, MovedCode, move_code, move_items};
pub use reading::{ReadError, read_items};
