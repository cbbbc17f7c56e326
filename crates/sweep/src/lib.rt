//! The sweep over code of any length, in memory of fixed size. It writes a line before it reads the next byte.
#![tactic(auto)]

mod error;
pub mod laws;
mod ready;
pub mod run_parts;
mod stream;
pub mod sweep_text;
mod window;

pub use crate::sweep_text::{Lines, Style, Style as Syntax};
pub use error::{ListError, StreamError};
pub use stream::{info_stream, list_stream, recode_stream, stream_lines};
