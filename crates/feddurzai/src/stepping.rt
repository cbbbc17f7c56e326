//! Slots for instructions that are read from bytes.

ghost use Rattle.feddurzai.specs.Stepping.{IsCodeStepped};

use decoder::{DecodeError, decode_in};
use std::alloc::Global;
use step_slots::{Placed, StepError, StepSlots};
use thiserror::Error;

/// Why the instruction at the front of some bytes gets no slot.
#[derive(Clone, Copy, PartialEq, Eq, Debug, Error)]
pub enum StepCodeError {
    /// The bytes begin with no instruction.
    #[error("no instruction: {0}")]
    BadCode(DecodeError),
    /// The instruction gets no slot.
    #[error("no slot: {0}")]
    Refused(StepError),
}

/// Gives the instruction at the front of some bytes a slot, and returns the address of its block.
///
/// `ip` is the address of the first byte; 15 bytes are enough. The instruction is decoded in the mode of the slots and passed to [`StepSlots::step`].
///
/// Errors leave the slots unchanged. The first error is that no instruction starts there.
pub fn step_code(
    slots: &mut StepSlots,
    alloc: Global,
    ip: u64,
    bytes: &[u8],
) -> Result<u64, StepCodeError>
    ensures { IsCodeStepped slots.old ip bytes.now result slots.new }
{
    let read = match decode_in(slots.bits(), ip, bytes) {
        Ok(read) => read,
        Err(error) => return Err(StepCodeError::BadCode(error)),
    };
    let item = Placed {
        ip,
        len: read.len,
        instr: read.instr,
    };
    match slots.step(alloc, item) {
        Ok(place) => Ok(place),
        Err(why) => Err(StepCodeError::Refused(why)),
    }
}
