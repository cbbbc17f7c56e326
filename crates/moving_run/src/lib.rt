//! The commands that move code: the input cut into blocks and read, the blocks moved, and the moved bytes or the map written.
#![tactic(auto)]

mod code;
pub mod command_words;
pub mod laws;
mod map;
mod moving;
pub mod slots_run;

pub use moving::{MovedCode, Wanted, move_code, move_input};
