//! Hooks: detours whose trampolines lie in slots of one range of addresses.

mod commands;
mod hooking;
pub mod laws;
mod laws_below;
mod layers;
mod making;
mod patches;
mod refusals;

pub use commands::{HookCommand, HookReply, replay};
pub use hooking::Hooks;
pub use making::Hook;
pub use refusals::{InstallError, MakeError, RemoveError};
