//! Routines that are put together from instructions, data and labels: their bytes, with each branch at its label in the least layout.
#![tactic(auto)]

mod assembled;
mod error;
mod filling;
mod finishing;
mod generated_codes;
mod label;
mod laws_below;
mod lists;
mod near;
mod prepared;
mod routine;
mod stand_in;

pub use assembled::Assembled;
pub use error::{BuildError, FinishError};
pub use label::Label;
pub use prepared::{Prepared, prepared_from};
pub use routine::Assembler;
