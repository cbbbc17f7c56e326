//! Detours: a jump over the first bytes of a function, and a trampoline that does what these bytes did and continues after them.
#![tactic(auto)]

mod any_laws_below;
mod any_making;
mod any_taken;
mod any_trampoline;
mod calls;
mod entries;
mod error;
pub mod hook_slots;
mod jumps;
mod kept;
mod laws_below;
pub mod lengths;
mod making;
mod padding;
mod parts;
mod ranges;
mod rules;
mod start;
mod starts;
mod taken;
mod trampoline;
pub mod writes;

pub use any_making::detour_unlisted;
pub use error::DetourError;
pub use kept::{KeepError, KeptDetour, detour_keeping_endbr, kept_len};
pub use making::detour;
pub use padding::{PaddedDetour, PaddingError, detour_through_padding};
pub use parts::{Detour, JumpForm, Parts};
pub use rules::{HookRules, RuleError, SeenDetour, detour_with};
pub use start::StartTarget;
