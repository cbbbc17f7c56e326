//! The program's one call: it executes the command that the words of a command line give, between a source and two sinks.
#![tactic(auto)]

pub mod asm_run;
pub mod flow_run;
mod program;
mod rows;
pub mod sample_run;

pub use decoder::DecodeError;
pub use program::run;
pub use sweep::run_parts::{Status, status_number};
