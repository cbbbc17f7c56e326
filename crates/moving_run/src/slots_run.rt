//! The command that makes slots for displaced single stepping: each instruction of the input gets one, and the range is written.

pub mod laws;
mod slotting;
mod stepping;

pub use slotting::slot_code;
