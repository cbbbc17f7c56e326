//! What a near CALL does at its old address, done from another place: its own return address is pushed, and a jump goes where the CALL goes.
//!
//! A CALL that is moved pushes an address of its new place, which the called code may read. [`pushed_call`] returns the instructions that push the
//! address after the CALL where it stood, and jump to its target.

mod generated_codes;
mod items;
mod jumps;
pub mod laws;
mod laws_below;
mod pushes;

pub use generated_codes::{CALL_RM16, JMP_RM16, MOV_RM32_IMM32, PUSH_IMM16};
pub use items::{PushedCall, pushed_call};
