//! What the commands of the program share: how a run ends and its line on standard error, reading a source to its end, and writing texts to a sink.

mod hexadecimal;
mod input;
pub mod laws;
mod output;
mod status;

pub use input::{CODE_LIMIT, WHOLE_LIMIT, read_whole};
pub use output::{make_room, put_all, say};
pub use status::{Status, status_line, status_number};
