//! Blocks with their bytes, refusals, and a list of commands.

ghost use Rattle.std.specs.Prelude.{◌≡◌, IfOk};
ghost use Rattle.x86_values.specs.declared.Bits.{Bits};
ghost use Rattle.move_goals.specs.Items.{IsPlaced};

use crate::tests::compare::{same, same_items};
use crate::tests::items::placed_bytes;
use std::alloc::Global;
use std::process::Abort;
use std::test::Fail;
use step_slots::{
    NotTaken, OpenError, Placed, StepCommand, StepError, StepReply, StepSlots, replay,
};
use x86_values::Bits;

/// Slots of 64-bit mode.
pub(crate) fn slots_of(
    alloc: Global,
    base: u64,
    size: u64,
    max: u64,
) -> Result<StepSlots, OpenError>
    ensures { IfOk result (λ slots. slots.bits ≡ Bits.B64) }
{
    StepSlots::make(alloc, Bits::B64, base, size, max)
}

pub(crate) fn step(slots: &mut StepSlots, alloc: Global, item: Placed) -> Result<u64, StepError>
    requires bits { slots.old.bits ≡ Bits.B64 }
    requires placed { IsPlaced Bits.B64 item }
    ensures { slots.new.bits ≡ Bits.B64 }
{
    slots.step(alloc, item)
}

pub(crate) fn finish(slots: &mut StepSlots, place: u64) -> Result<(), NotTaken>
    requires { slots.old.bits ≡ Bits.B64 }
    ensures { slots.new.bits ≡ Bits.B64 }
{
    slots.finish(place)
}

/// That a step of an instruction is answered so.
fn steps(
    rt: &impl Abort,
    alloc: Global,
    slots: &mut StepSlots,
    item: Placed,
    want: Result<u64, StepError>,
)
    requires bits { slots.old.bits ≡ Bits.B64 }
    requires placed { IsPlaced Bits.B64 item }
    ensures { slots.new.bits ≡ Bits.B64 }
{
    same(rt, "a step", &step(slots, alloc, item), &want);
}

/// That the finish of a slot is answered so.
fn finishes(rt: &impl Abort, slots: &mut StepSlots, place: u64, want: Result<(), NotTaken>)
    requires { slots.old.bits ≡ Bits.B64 }
    ensures { slots.new.bits ≡ Bits.B64 }
{
    same(rt, "a finish", &finish(slots, place), &want);
}

/// The bytes of NOP, the jump back from 2001, and CC to the next slot.
const FIRST: &[u8] = b"\x90\xe9\xfb\xef\xff\xff\xcc\xcc\xcc\xcc\xcc\xcc\xcc\xcc\xcc\xcc";

/// The slot where the jump back stands at 2011.
const SECOND: &[u8] = b"\x90\xe9\xeb\xef\xff\xff\xcc\xcc\xcc\xcc\xcc\xcc\xcc\xcc\xcc\xcc";

/// A slot that is free.
const FREE: &[u8] = &[0xCC; 16];

/// That a range of two slots has these bytes.
fn has_image(rt: &impl Abort, slots: &StepSlots, first: &[u8], second: &[u8]) {
    let image = slots.image();
    same(rt, "the size", &image.len(), &32);
    same(rt, "the first slot", &image.get(..16), &Some(first));
    same(rt, "the second slot", &image.get(16..), &Some(second));
}

/// Two steps of NOP at 1000 take both slots, and a third one finds none.
fn take_both(rt: &impl Abort, alloc: Global, slots: &mut StepSlots, nop: Placed)
    requires bits { slots.old.bits ≡ Bits.B64 }
    requires placed { IsPlaced Bits.B64 nop }
    ensures { slots.new.bits ≡ Bits.B64 }
{
    steps(rt, alloc, slots, nop, Ok(0x2000));
    steps(rt, alloc, slots, nop, Ok(0x2010));
    let many = StepError::TooManyBlocks { max: 2, len: 16 };
    steps(rt, alloc, slots, nop, Err(many));
    has_image(rt, slots, FIRST, SECOND);
}

/// The first slot is finished, and taken by a step of NOP at 1000.
fn take_first_again(rt: &impl Abort, alloc: Global, slots: &mut StepSlots, nop: Placed)
    requires bits { slots.old.bits ≡ Bits.B64 }
    requires placed { IsPlaced Bits.B64 nop }
    ensures { slots.new.bits ≡ Bits.B64 }
{
    finishes(rt, slots, 0x2000, Ok(()));
    has_image(rt, slots, FREE, SECOND);
    steps(rt, alloc, slots, nop, Ok(0x2000));
    has_image(rt, slots, FIRST, SECOND);
}

// Bytes by the manual's notation of NOP and JMP. The first slot is free when it is finished, and is taken again.
#[test]
fn two_slots_have_their_bytes(rt: HostRuntime) -> Result<(), Fail> {
    let nop = placed_bytes(rt.alloc(), 0x1000, "90")?;
    let mut slots = slots_of(rt.alloc(), 0x2000, 32, 2)?;
    take_both(&rt, rt.alloc(), &mut slots, nop);
    take_first_again(&rt, rt.alloc(), &mut slots, nop);
    let place = 0x2008;
    finishes(&rt, &mut slots, place, Err(NotTaken { place }));
    same(&rt, "live slots", &slots.live().len(), &2);
    Ok(())
}

/// What a step of an instruction at 1000 is answered in a range for one slot, and the bytes of the range.
fn stepped(
    alloc: Global,
    digits: &str,
    base: u64,
    size: u64,
) -> Result<(Result<u64, StepError>, Vec<u8>), Fail> {
    let item = placed_bytes(alloc, 0x1000, digits)?;
    let mut slots = slots_of(alloc, base, size, 1)?;
    let answer = step(&mut slots, alloc, item);
    let image = slots.image().to_vec(alloc)?;
    Ok((answer, image))
}

/// That bytes are those in hexadecimal digits, and CC behind them.
fn is_padded(rt: &impl Abort, alloc: Global, image: &[u8], digits: &str) -> Result<(), Fail> {
    let mut bytes = hex::decode(alloc, digits)?;
    bytes.resize(image.len(), 0xCC)?;
    same_items(rt, digits, image, &bytes);
    Ok(())
}

const FULL: Result<u64, StepError> = Err(StepError::Full {
    len: 32,
    largest: 16,
});

const FAR: Result<u64, StepError> = Err(StepError::TooFar { target: 0x1007 });

/// Reads what follows it.
const LOAD: &str = "488b0500000000";

/// That a step of an instruction at 1000 is answered so in a range of so many bytes for one slot, which has these bytes then.
fn is_stepped(
    rt: &impl Abort,
    alloc: Global,
    (digits, base, size): (&str, u64, u64),
    want: Result<u64, StepError>,
    bytes: &str,
) -> Result<(), Fail> {
    let (answer, image) = stepped(alloc, digits, base, size)?;
    same(rt, digits, &answer, &want);
    is_padded(rt, alloc, &image, bytes)
}

/// Instructions, each with the range's address and size, the answer and the bytes.
const STEPS: &[(&str, u64, u64, Result<u64, StepError>, &str)] = &[
    ("ebfe", 0x2000, 32, Ok(0x2000), "e9fbefffffe9f8efffff"),
    (
        "ebfe",
        0x7FFF_0000_0000,
        32,
        Ok(0x7FFF_0000_0000),
        "ff250a000000ff250c000000cccccccc00100000000000000210000000000000",
    ),
    ("ebfe", 0x2000, 16, FULL, ""),
    (LOAD, 0x8000_1010, 16, FULL, ""),
    (LOAD, 0x8000_1010, 32, FAR, ""),
];

// A JMP to itself goes to where it stood; a jump out of reach of 32 bits goes through a slot of 8 bytes.
#[test]
fn a_step_has_its_bytes_or_its_refusal(rt: HostRuntime) -> Result<(), Fail> {
    for (digits, base, size, want, bytes) in STEPS {
        let case = (*digits, *base, *size);
        is_stepped(&rt, rt.alloc(), case, *want, bytes)?;
    }
    Ok(())
}

/// Ranges, each with its mode, address, size and room for slots, and why it is refused, if it is.
const RANGES: &[(Bits, u64, u64, u64, Option<OpenError>)] = &[
    (
        Bits::B64,
        0x2000,
        8,
        1,
        Some(OpenError::BadSize { size: 8 }),
    ),
    (
        Bits::B64,
        0x2000,
        32,
        0,
        Some(OpenError::TooManyBlocks { max: 0 }),
    ),
    (
        Bits::B16,
        0xFFF0,
        32,
        1,
        Some(OpenError::Wraps { end: 0x1_0010 }),
    ),
    (Bits::B16, 0xFFE0, 32, 1, None),
    (
        Bits::B32,
        0xFFFF_FFF0,
        32,
        1,
        Some(OpenError::Wraps { end: 0x1_0000_0010 }),
    ),
    (Bits::B64, 0xFFFF_FFF0, 32, 65_536, None),
];

/// Why a range is refused, if it is.
fn refusal(alloc: Global, bits: Bits, base: u64, size: u64, max: u64) -> Option<OpenError> {
    StepSlots::make(alloc, bits, base, size, max).err()
}

#[test]
fn a_range_is_opened_or_refused(rt: HostRuntime) {
    for (bits, base, size, max, want) in RANGES {
        let found = refusal(rt.alloc(), *bits, *base, *size, *max);
        same(&rt, "the refusal", &found, want);
    }
}

/// What a range for one slot answers to two steps of NOP, two finishes and a step.
fn replies_to_five(alloc: Global) -> Result<[StepReply; 5], Fail> {
    let item = placed_bytes(alloc, 0x1000, "90")?;
    let commands = [
        StepCommand::Step { item },
        StepCommand::Step { item },
        StepCommand::Finish { place: 0x2000 },
        StepCommand::Finish { place: 0x2000 },
        StepCommand::Step { item },
    ];
    let mut replies = [StepReply::Finished; 5];
    let mut slots = slots_of(alloc, 0x2000, 16, 2)?;
    replay(&mut slots, alloc, &commands, &mut replies);
    Ok(replies)
}

const REPLIES: [StepReply; 5] = [
    StepReply::Stepped { place: 0x2000 },
    StepReply::Refused {
        why: StepError::Full {
            len: 16,
            largest: 0,
        },
    },
    StepReply::Finished,
    StepReply::NotTaken { place: 0x2000 },
    StepReply::Stepped { place: 0x2000 },
];

#[test]
fn commands_are_replayed_on_slots(rt: HostRuntime) -> Result<(), Fail> {
    let replies = replies_to_five(rt.alloc())?;
    same_items(&rt, "the replies", &replies, &REPLIES);
    Ok(())
}
