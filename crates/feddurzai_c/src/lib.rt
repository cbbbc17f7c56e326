//! The library for C: instructions of 16, 32 and 64-bit x86 are read, written, described and moved, through plain numbers, structs of numbers and
//! caller-provided buffers. `capi/feddurzai.h` documents the same for a C programmer.
//!
//! Each call accepts any values, since nothing checks a C caller. If a number is no mode, a struct is no instruction or a buffer is too small, it returns a
//! number below zero. It writes nothing beside what its contract states. A slice is passed as a pointer and then a length; the pointer may be null if the
//! length is 0.
//!
//! Each function is one call of `c_calls`, whose clauses it states again.
#![tactic(auto)]

mod flow;
mod hook_forms;
mod hooks;
mod information;
mod moving;
mod reading;
mod region;
mod routines;
mod rows;
mod stepping;
mod texts;
mod unlisted_hooks;
mod version;
mod writing;
