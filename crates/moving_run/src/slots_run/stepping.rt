//! A slot for each instruction of some code.

ghost use Rattle.std.specs.Prelude.{◌≡◌, ◌≤◌, length, Some, None};
ghost use Rattle.move_goals.specs.Items.{IsPlaced};
ghost use Rattle.moving_run.specs.SlotsRun.Slotted.{empty_slots};
ghost use Rattle.moving_run.specs.SlotsRun.Steps as spec;

use crate::command_words::SlotRange;
use std::alloc::Global;
use step_slots::laws::{reserved_lengths_are_short, slots_stay_apart};
use step_slots::{Placed, StepError, StepSlots};
use sweep::run_parts::Status;
use sweep::sweep_text::laws::items_stand_in_turn;
use sweep::sweep_text::read_at;
use x86_values::laws::wrapped_twice;
use x86_values::wrap;

/// Returns the status for the instruction of this number that gets no slot.
fn status_of(number: u64, why: StepError) -> Status
    ensures { result ≡ spec.step_status number why }
{
    match why {
        StepError::Full { len, largest } => Status::RegionFull { len, largest },
        StepError::TooManyBlocks { len, .. } => Status::RegionFull { len, largest: 0 },
        StepError::TooFar { target } => Status::TooFar { at: number, target },
        StepError::Memory => Status::Memory,
    }
}

/// Gives the instruction of this number a slot, or returns the status of the refusal. After a refusal there are no more slots.
fn step_next(
    alloc: Global,
    slots: &mut StepSlots,
    refused: Option<Status>,
    number: u64,
    item: Placed,
) -> Option<Status>
    requires { IsPlaced slots.old.bits item }
    ensures { spec.IsNextSlot slots.old refused number item result slots.new }
{
    if refused.is_some() {
        return refused;
    }
    match slots.step(alloc, item) {
        Ok(_) => None,
        Err(why) => Some(status_of(number, why)),
    }
}

/// Gives each instruction of some code, whose first byte has the address `base`, a slot. Otherwise it returns a status, for the first byte that
/// starts no instruction, or else for the first instruction that gets no slot.
pub fn step_all(
    alloc: Global,
    range: &SlotRange,
    base: u64,
    slots: &mut StepSlots,
    input: &[u8],
) -> Result<(), Status>
    requires empty { slots.old ≡ empty_slots range.now }
    requires short { length input.now ≤ 1048576 }
    ensures { spec.GoesThrough range.now base input.now result slots.new }
{
    wrapped_twice();
    items_stand_in_turn();
    slots_stay_apart();
    reserved_lengths_are_short();
    let bits = range.bits();
    let mut refused = None;
    let mut number: u64 = 0;
    let mut at: usize = 0;
    while at < input.len() {
        let (_, rest) = input.split_at(at);
        match read_at(bits, base, at, rest) {
            Ok(d) => {
                let ip = wrap(bits, u128::from(base) + at as u128);
                let item = Placed {
                    ip,
                    len: d.len,
                    instr: d.instr,
                };
                refused = step_next(alloc, slots, refused, number, item);
                number += 1;
                at += usize::from(d.len);
            }
            Err(error) => {
                return Err(Status::BadCode {
                    offset: at as u64,
                    error,
                });
            }
        }
    }
    match refused {
        None => Ok(()),
        Some(status) => Err(status),
    }
}
