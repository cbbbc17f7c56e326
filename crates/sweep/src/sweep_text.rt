//! The sweep over the bytes of code, and the lines for its items: listings, and information about each instruction.

mod info;
pub mod laws;
mod line;
mod lines;
mod reading;
mod recode;
mod texts;

pub use info::flow_name;
pub use line::{CHUNK_LEN, Chunk, LINE_LEN, append_address};
pub use lines::{Lines, append_line, stop_of};
pub use reading::{item_len, read_at, read_onto};
pub use text_parts::style::Style;
pub use text_parts::text::append;
