//! Slots for the code of a source.

ghost use Rattle.std.specs.Prelude.{◌≡◌};
ghost use Rattle.byte_ports.specs.Ports.{Rose};
ghost use Rattle.sweep.specs.RunParts.Reads.{whole_limit, Takes, EndsAtFault};
ghost use Rattle.moving_run.specs.SlotsRun.Slotting.{SlotsAs, CompletesSlots};

use crate::command_words::SlotRange;
use crate::slots_run::laws::code_has_one_answer;
use crate::slots_run::stepping::step_all;
use byte_ports::{Sink, Source};
use std::alloc::Global;
use step_slots::StepSlots;
use step_slots::laws::{reserved_lengths_are_short, slots_stay_apart};
use sweep::run_parts::laws::told_bytes_are_read;
use sweep::run_parts::{Status, put_all, read_whole};

/// The greatest number of slots.
const MOST: u64 = 65_536;

/// Reads the source to its end as code of the range's mode whose first byte has the address `base`, gives each instruction a slot in the range, in
/// order and at its own address (which wraps), and writes the bytes of the range.
///
/// Statuses, in this order: `ReadFault`; `TooLarge` above 1,048,576 bytes; `BadCode` at the first byte of the sweep that starts no instruction; at
/// the first instruction that gets no slot, `RegionFull` if no gap has the reserved length, or else `TooFar`; `WriteFault`. `Memory` can occur at any
/// point. Nothing is written unless only `WriteFault` can still occur. At most 1,048,577 bytes are read, and nothing after `ReadFault`.
#[tactic(auto, unfolding(sweep::specs::RunParts::Reads::whole_limit))]
pub fn slot_code<S: Source, K: Sink>(
    alloc: Global,
    range: &SlotRange,
    base: u64,
    source: &mut S,
    out: &mut K,
) -> Status
    ensures answer { SlotsAs range.now base (S.left source.old) (S.left source.new) (K.held out.old) (K.held out.new)
        (Rose (S.faults source.old) (S.faults source.new)) (Rose (K.faults out.old) (K.faults out.new)) result }
    ensures complete { (Rose (S.faults source.old) (S.faults source.new) → ⊥) → (Rose (K.faults out.old) (K.faults out.new) → ⊥)
        → CompletesSlots range.now base (S.left source.old) result }
    ensures taken { Takes whole_limit (S.left source.old) (S.left source.new)
        × (result ≡ Status.ReadFault → EndsAtFault S.pull_gives S.left source.new) }
{
    told_bytes_are_read();
    code_has_one_answer();
    slots_stay_apart();
    reserved_lengths_are_short();
    let input = match read_whole(alloc, source) {
        Ok(input) => input,
        Err(unread) => return unread,
    };
    let mut slots = match StepSlots::make(alloc, range.bits(), range.base(), range.size(), MOST) {
        Ok(slots) => slots,
        Err(_) => return Status::Memory,
    };
    if let Err(status) = step_all(alloc, range, base, &mut slots, &input) {
        return status;
    }
    match put_all(out, slots.image()) {
        Ok(()) => Status::Done,
        Err(_) => Status::WriteFault,
    }
}
