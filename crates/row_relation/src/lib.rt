//! Spellings of the rows of a table: their bytes, when they fit, and what they mean (Intel SDM volume 2, 2.1 to 2.3).
#![tactic(auto)]

mod bytes;
mod front;
pub mod laws;
pub mod plain_laws;

pub use bytes::{append_lead, append_plain_tail, append_tail, spelling_bytes};
pub use front::plain_front;
pub use instruction_parts::{ModRm, PrefixState, Sib, Spelling, Vex};
pub use plain_spelling::NoSpelling;
pub use row_fit::row_fits;
pub use row_meaning::{row_meaning, row_memory_size};
