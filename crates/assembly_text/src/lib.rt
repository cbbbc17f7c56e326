//! Routines as text: lines with labels, instructions and comments, put together and finished at an address.
#![tactic(auto)]

mod classes;
mod code;
mod constants;
mod data;
mod digits;
mod drafts;
mod kept;
mod known;
mod labels;
pub mod laws;
mod line;
mod names;
mod numbers;
mod origins;
mod padding;
mod placing;
mod plain;
mod readings;
mod round;
mod rounds;
mod sizing;
mod spellings;
mod statements;
mod text;
mod text_error;
mod text_labels;

pub use rounds::{Rules, assemble_code, assemble_code_by, assemble_code_with};
pub use text_error::{AssembleError, LineError};
pub use text_labels::{LabelLine, label_lines};
