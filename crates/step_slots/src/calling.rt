//! The block of a near CALL at a place that the caller chooses: it pushes the CALL's own return address, and jumps.

ghost use Rattle.std.specs.Prelude.{◌≡◌, ◌≤◌, length, IfOk};
ghost use Rattle.move_goals.specs.Items.{ArePlaced};
ghost use Rattle.block_encoder.specs.ByPlan.{IsOutsideAnswer};
ghost use Rattle.block_encoder.specs.Planned.{as_moving};
ghost use Rattle.block_encoder.specs.PushedCalls.Items.{items_in};
ghost use Rattle.step_slots.specs.Calling as spec;

use crate::calls_below::calls_below;
use block_encoder::pushed_calls::{PushedCall, pushed_call};
use block_encoder::{Moved, Placed, PlanError, move_few_outside};
use std::alloc::Global;
use thiserror::Error;
use x86_values::Bits;

/// Why a CALL has no block at an address that pushes its own return address.
#[derive(Clone, Copy, PartialEq, Eq, Debug, Error)]
pub enum CallError {
    /// There was not enough memory.
    #[error("out of memory")]
    Memory,
    /// The instruction is no near CALL, or none whose return address can be pushed apart from its jump.
    #[error("no near call whose return address can be pushed apart")]
    NotPushed,
    /// The block would end at this address, which passes the address space of the mode.
    #[error("the block ends at {end:#x}, past the address space")]
    Wraps { end: u128 },
    /// The jump does not reach its target from the place, which is this address.
    #[error("cannot reach {target:#x}")]
    TooFar { target: u64 },
}

/// The instructions that push and jump, moved to a place.
fn move_call(alloc: Global, bits: Bits, call: &PushedCall, place: u64) -> Result<Moved, PlanError>
    requires placed { ArePlaced bits (items_in call.now) }
    requires few { length (items_in call.now) ≤ 3 }
    ensures { IsOutsideAnswer bits (items_in call.now) place (as_moving result) }
{
    move_few_outside(alloc, bits, call.items(), place)
}

/// The answer for a CALL, by that for its instructions.
fn call_answer(moved: Result<Moved, PlanError>) -> Result<Moved, CallError>
    ensures { result ≡ spec.call_answer moved }
{
    match moved {
        Ok(moved) => Ok(moved),
        Err(PlanError::Memory) => Err(CallError::Memory),
        Err(PlanError::Wraps { end }) => Err(CallError::Wraps { end }),
        Err(PlanError::TooFar { target, .. }) => Err(CallError::TooFar { target }),
    }
}

/// Returns the block of a near CALL at an address, so that the called code sees the CALL's own return address: PUSH of that address (in 64-bit mode also
/// MOV of its high half) and the jump to the target. There is no jump back, since the called code returns to the original code.
///
/// The first item is the PUSH, which has [`pushed_len`] bytes. Before its end nothing has happened, and from there on the CALL must not be executed
/// again. [`pushed_call`] says which calls have such instructions, and what they do not do as CALL does.
///
/// Errors, in this order: the instruction is no such CALL; the block would end past the address space of the mode; the jump cannot reach its target
/// from there. Lack of memory can occur at any point after the first.
pub fn step_call_at(alloc: Global, bits: Bits, item: Placed, place: u64) -> Result<Moved, CallError>
    ensures answer { spec.IsCallStood bits item place result }
    ensures begins { IfOk result (λ moved. spec.BeginsWithPush bits place moved) }
    ensures short { IfOk result (λ moved. length moved.bytes ≤ 43) }
{
    calls_below();
    match pushed_call(bits, &item) {
        None => Err(CallError::NotPushed),
        Some(call) => call_answer(move_call(alloc, bits, &call, place)),
    }
}

/// Returns the length of the PUSH with which the block of [`step_call_at`] begins: 3 bytes in 16-bit mode, else 5.
pub fn pushed_len(bits: Bits) -> u8
    ensures { result ≡ spec.push_len bits }
{
    match bits {
        Bits::B16 => 3,
        _ => 5,
    }
}
