//! The moved instructions, the goals of their targets, and the plan that selects the forms of branches.
#![tactic(auto)]

pub mod branch_forms;
mod items;
pub mod laws;
pub mod moved_targets;
mod order;
mod outside;
mod plan;
mod ready;
mod starts;

pub use items::Placed;
pub use order::{first_disorder, first_old_pass, passes};
pub use outside::plan_outside;
pub use plan::{plan_for, plan_with_ready};
pub use ready::{ready_bytes, ready_of};
