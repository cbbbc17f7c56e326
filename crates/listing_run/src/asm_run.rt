//! The command that reads Intel texts: each line of the input is the text of an instruction or a single byte, and the bytes of all lines are written.

mod assembling;
mod code_lines;
mod code_of_line;
pub mod laws;

pub use assembling::assemble_code;
