//! What an instruction touches besides the operands that it names: implied registers and memory, flags, and the CPUID features that it uses and needs
//! (Intel SDM volume 2, chapters 3 to 5: the operation, the flags affected and the feature flag of each instruction).
//!
//! crates/row_entries/data has the statements of the manual's pages, by name. docs/instruction-info.md explains how to read them, and what was
//! chosen.
#![tactic(auto)]

mod effect;
mod features;
mod flags;
mod generated_effects;
pub mod laws;
mod memory;
mod registers;
mod setting;

pub use effect::{
    AccessKind, ImpliedMemory, ImpliedRegister, NamedMemory, RegisterGroup, SegmentRule,
    implied_memory, implied_registers, repeats, stated_access, stated_size,
};
pub use features::{Features, features_of, needed_features, used_features};
pub use flags::{FlagSet, FlagUse, flags_of};
pub use memory::{MemoryUse, all_memory};
pub use registers::{RegisterUse, all_registers, all_uses, full_register};
