//! The least layout of moved blocks, with the place and goal of each item and the slots after each block.

pub mod laws;
mod layout;
mod places;
mod slots;
mod tables;

pub use layout::{BlockEnd, Fragment, Layout, lay_out};
pub use slots::{block_end, is_far_form, next_multiple_of_8};
