//! The calls of the library for C: instructions of 16, 32 and 64-bit x86 are read, written, described and moved, through plain numbers, structs of numbers
//! and caller-provided buffers. `feddurzai_c` exports them, and documents each for a C programmer.
//!
//! Each call accepts any values. If a number is no mode, a struct is no instruction or a buffer is too small, it returns a number below zero. It writes
//! nothing beside what its contract states.
#![tactic(auto)]

pub mod assembling;
mod block_places;
pub mod blocks;
mod buffers;
mod code_len;
pub mod decoding;
pub mod effects;
pub mod encoding;
pub mod flat;
mod flatten;
pub mod flow;
pub mod flow_from;
pub mod format;
pub mod hooks;
pub mod info;
pub mod jump;
pub mod kept;
pub mod laws;
pub mod lengths;
pub mod line;
pub mod many;
pub mod measuring;
mod moved;
mod moved_blocks;
pub mod moving;
pub mod names;
mod numbers;
pub mod offsets;
pub mod padded;
pub mod pieces;
mod refusal;
pub mod region;
mod region_search;
pub mod routines;
pub mod row_operands;
pub mod rows;
pub mod ruled;
pub mod sight;
pub mod step_calls;
pub mod stepping;
pub mod texts;
mod unflatten;
pub mod unlisted_detour;
pub mod unlisted_move;
pub mod unlisted_step;
pub mod version;
