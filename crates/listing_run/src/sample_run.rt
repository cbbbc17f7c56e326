//! The command that shows the library at work on made code: it lists and moves the code, and reports the result in six numbers.

mod generator;
pub mod laws;
mod lines;
mod sampling;
mod summary;

pub use generator::{CODE_BASE, sample_code};
pub use sampling::sample;
pub use summary::{MOVED_BASE, Summary, summarize};
