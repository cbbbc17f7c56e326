//! The live entries of a region of code, one for each live block, by address.

mod commands;
mod entries;
pub mod laws;
mod laws_below;
mod order;

pub use commands::{Executor, run_commands};
pub use entries::LiveEntry;
pub use order::{insert_entry, remove_entry};
