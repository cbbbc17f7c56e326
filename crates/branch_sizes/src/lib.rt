//! Branch displacement selection: which form each branch of some moved blocks takes.
#![tactic(auto)]

pub mod laws;
mod layout;
mod limits;
pub mod move_layout;
mod order;
mod plan;
mod sums;
mod suspects;
mod tables;
mod worklist;

pub use layout::{LayoutError, LeastLayout, least_choices, least_layout, places, reaches};
pub use plan::{BlockSpan, Branch, Choice, Form, Goal, MOST_ITEMS, Plan, Reach};
pub use sums::Sums;
