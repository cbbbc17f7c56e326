//! Slots for displaced single stepping: in each an instruction of some program and the jump back to what followed it, in a range of addresses within
//! reach.
#![tactic(auto)]

mod block;
mod calling;
mod calls_below;
mod commands;
pub mod laws;
mod laws_below;
mod refusals;
mod slots;
mod standing;
mod unlisted_step;

pub use block_encoder::Placed;
pub use calling::{CallError, pushed_len, step_call_at};
pub use code_region::{NotTaken, OpenError};
pub use commands::{StepCommand, StepReply, replay};
pub use refusals::StepError;
pub use slots::{StepSlot, StepSlots};
pub use standing::{StandError, done_len, step_at, step_len};
pub use unlisted_step::{UnlistedStep, UnlistedStepError, step_unlisted_at};
