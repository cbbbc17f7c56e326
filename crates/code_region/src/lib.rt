//! Places for moved code in a fixed range of addresses.
//!
//! A [`Region`] hands out places in units of 16 bytes, each at the front of the first gap by address that is long
//! enough. Live blocks never overlap, a released place is used again, and each byte that is not content is CC (INT3).
#![tactic(auto)]

mod blocks;
mod commands;
mod contents;
mod gaps;
pub mod laws;
pub mod live_entries;
mod refusals;

pub use blocks::{Region, open_refusal, round_up};
pub use commands::{Command, Reply, replay};
pub use contents::write_bytes;
pub use refusals::{FillError, NotTaken, OpenError, PlaceError};
