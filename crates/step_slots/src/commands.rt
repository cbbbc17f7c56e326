//! Commands to slots, and their replies.

ghost use Rattle.std.specs.Prelude.{◌≡◌, All, length};
ghost use Rattle.step_slots.specs.Running.{StepCommandFits, IsStepDone, IsStepRun, step_reply, finish_reply, still-fits};

use crate::refusals::StepError;
use crate::slots::StepSlots;
use block_encoder::Placed;
use code_region::NotTaken;
use code_region::live_entries::{Executor, run_commands};
use std::alloc::Global;

/// A command to a set of slots.
#[derive(Clone, Copy, PartialEq, Eq, Debug)]
pub enum StepCommand {
    /// Give the instruction a slot, as [`StepSlots::step`] does.
    Step { item: Placed },
    /// End the slot at `place`, as [`StepSlots::finish`] does.
    Finish { place: u64 },
}

/// The reply to a command.
#[derive(Clone, Copy, PartialEq, Eq, Debug)]
pub enum StepReply {
    /// A slot is live at `place`.
    Stepped { place: u64 },
    /// The instruction got no slot.
    Refused { why: StepError },
    /// The slot is live no more.
    Finished,
    /// No live slot starts at `place`.
    NotTaken { place: u64 },
}

/// Returns the reply for the result of a step.
fn reply_to_step(answer: Result<u64, StepError>) -> StepReply
    ensures { result ≡ step_reply answer }
{
    match answer {
        Ok(place) => StepReply::Stepped { place },
        Err(why) => StepReply::Refused { why },
    }
}

/// Returns the reply for the result of a finish.
fn reply_to_finish(answer: Result<(), NotTaken>) -> StepReply
    ensures { result ≡ finish_reply answer }
{
    match answer {
        Ok(()) => StepReply::Finished,
        Err(NotTaken { place }) => StepReply::NotTaken { place },
    }
}

impl Executor<StepCommand, StepReply> for StepSlots {
    ghost is_fit = { λ slots. StepCommandFits slots.bits };

    ghost is_done = { IsStepDone };

    fn execute(&mut self, alloc: Global, command: StepCommand) -> StepReply {
        match command {
            StepCommand::Step { item } => reply_to_step(self.step(alloc, item)),
            StepCommand::Finish { place } => reply_to_finish(self.finish(place)),
        }
    }

    ghost stays_fit = { still-fits };
}

/// Executes commands in order, and writes the reply to each.
///
/// `replies` must be as long as `commands`. Each instruction was decoded, or could have been encoded, at its address.
pub fn replay(
    slots: &mut StepSlots,
    alloc: Global,
    commands: &[StepCommand],
    replies: &mut [StepReply],
)
    requires room { length replies.old ≡ length commands.now }
    requires fit { All (StepCommandFits slots.old.bits) commands.now }
    ensures { IsStepRun slots.old commands.now replies.new slots.new }
{
    run_commands(slots, alloc, commands, replies);
}
