//! The command that the words of a command line give.

mod commands;
mod count;
pub mod laws;
mod range;
mod words;

pub use commands::{BlockWords, Command, Through};
pub use count::SampleCount;
pub use range::SlotRange;
pub use words::command_of;
