//! Long lists of steps and finishes, against a list of live slots that is kept apart.

ghost use Rattle.std.specs.Prelude.{◌≡◌, IfOk};
ghost use Rattle.x86_values.specs.declared.Bits.{Bits};
ghost use Rattle.move_goals.specs.Items.{IsPlaced};

use crate::tests::compare::{same, same_items};
use crate::tests::items::placed_at;
use crate::tests::slot_tests::{finish, slots_of, step};
use std::alloc::{AllocError, Global};
use std::process::Abort;
use std::test::Fail;
use step_slots::{NotTaken, Placed, StepError, StepSlots};

/// The range: 24 units of 16 bytes.
const BASE: u64 = 0x2000;

const UNITS: u64 = 24;

const SIZE: u64 = 16 * UNITS;

/// How many slots there may be.
const MOST: u64 = 12;

/// The address that is read by the instruction that reads one.
const READ: u64 = 0x1F00;

/// A live slot: its address, how many bytes it takes, and its first bytes.
#[derive(Clone, Copy, Drop)]
struct Live {
    place: u64,
    len: u64,
    bytes: [u8; 12],
}

/// The distance from one address to another in 4 bytes.
fn distance(from: u64, to: u64) -> [u8; 4] {
    let low = to.wrapping_sub(from) % 0x1_0000_0000;
    (low as u32).to_le_bytes()
}

/// The slot of NOP, and the jump back.
fn nop_slot(ip: u64, place: u64) -> Live {
    let [a, b, c, d] = distance(place.wrapping_add(6), ip.wrapping_add(1));
    let cc = 0xCC;
    Live {
        place,
        len: 16,
        bytes: [0x90, 0xE9, a, b, c, d, cc, cc, cc, cc, cc, cc],
    }
}

/// The slot of MOV from the address that is read, and the jump back. A far jump back would need 8 bytes more, which are kept free.
fn load_slot(ip: u64, place: u64) -> Live {
    let [a, b, c, d] = distance(place.wrapping_add(7), READ);
    let [e, f, g, h] = distance(place.wrapping_add(12), ip.wrapping_add(7));
    Live {
        place,
        len: 32,
        bytes: [0x48, 0x8B, 0x05, a, b, c, d, 0xE9, e, f, g, h],
    }
}

/// The slot of the instruction that reads, or of NOP.
fn slot_of(ip: u64, place: u64, reads: bool) -> Live {
    if reads {
        load_slot(ip, place)
    } else {
        nop_slot(ip, place)
    }
}

/// Whether no live slot stands over these bytes.
fn is_free(live: &[Live], place: u64, len: u64) -> bool {
    for slot in live {
        if slot.place < place.wrapping_add(len) && place < slot.place.wrapping_add(slot.len) {
            return false;
        }
    }
    true
}

/// The first address of so many free bytes.
fn first_free(live: &[Live], len: u64) -> Option<u64> {
    for unit in 0..UNITS {
        let place = BASE + 16 * unit;
        if place.wrapping_add(len) <= BASE + SIZE && is_free(live, place, len) {
            return Some(place);
        }
    }
    None
}

/// How many free bytes stand one behind another at most.
fn longest_free(live: &[Live]) -> u64 {
    let mut longest = 0u64;
    let mut run = 0u64;
    for unit in 0..UNITS {
        if is_free(live, BASE + 16 * unit, 16) {
            run = run.wrapping_add(16);
            longest = longest.max(run);
        } else {
            run = 0;
        }
    }
    longest
}

/// Where a slot of so many bytes goes, or why it goes nowhere.
fn answer_to_step(live: &[Live], len: u64) -> Result<u64, StepError> {
    if live.len() as u64 == MOST {
        return Err(StepError::TooManyBlocks { max: MOST, len });
    }
    match first_free(live, len) {
        Some(place) => Ok(place),
        None => Err(StepError::Full {
            len,
            largest: longest_free(live),
        }),
    }
}

/// Takes the slot away that starts at an address, if there is one.
fn take_away(live: &mut Vec<Live>, place: u64) -> Result<(), NotTaken> {
    for k in 0..live.len() {
        if live[k].place == place {
            live.swap_remove(k);
            return Ok(());
        }
    }
    Err(NotTaken { place })
}

/// The bytes of the range.
fn image_of(alloc: Global, live: &[Live]) -> Result<Vec<u8>, AllocError> {
    let mut image = vec![in alloc; 0xCC; SIZE as usize]?;
    for slot in live {
        let start = slot.place.wrapping_sub(BASE) as usize;
        for (k, byte) in slot.bytes.iter().enumerate() {
            if let Some(at) = image.get_mut(start.wrapping_add(k)) {
                *at = *byte;
            }
        }
    }
    Ok(image)
}

/// An instruction at an address: NOP, or the one that reads.
fn item_of(ip: u64, reads: bool) -> Result<Placed, Fail>
    ensures { IfOk result (λ item. IsPlaced Bits.B64 item) }
{
    if reads {
        let [a, b, c, d] = distance(ip.wrapping_add(7), READ);
        placed_at(ip, &[0x48, 0x8B, 0x05, a, b, c, d])
    } else {
        placed_at(ip, &[0x90])
    }
}

/// A command of a list: the finish of a slot, or a step of an instruction that reads or does not.
#[derive(Clone, Copy)]
enum Given {
    Finish { place: u64 },
    Step { ip: u64, reads: bool },
}

/// The command that a number stands for.
fn given_by(r: u64) -> Given {
    let n = r / 8;
    if r % 8 < 3 {
        Given::Finish {
            place: BASE + n % UNITS * 16,
        }
    } else {
        Given::Step {
            ip: 0x1000 + n % 0x400,
            reads: r % 8 == 7,
        }
    }
}

/// A finish is answered as the list has it.
fn is_finished(rt: &impl Abort, slots: &mut StepSlots, live: &mut Vec<Live>, place: u64)
    requires { slots.old.bits ≡ Bits.B64 }
    ensures { slots.new.bits ≡ Bits.B64 }
{
    let want = take_away(live, place);
    same(rt, "a finish", &finish(slots, place), &want);
}

/// A step is answered as the list has it.
fn is_stepped(
    rt: &impl Abort,
    alloc: Global,
    slots: &mut StepSlots,
    live: &mut Vec<Live>,
    ip: u64,
    reads: bool,
) -> Result<(), Fail>
    requires { slots.old.bits ≡ Bits.B64 }
    ensures { slots.new.bits ≡ Bits.B64 }
{
    let item = item_of(ip, reads)?;
    let want = answer_to_step(live, if reads { 32 } else { 16 });
    same(rt, "a step", &step(slots, alloc, item), &want);
    if let Ok(place) = want {
        live.push(slot_of(ip, place, reads))?;
    }
    Ok(())
}

/// A command is answered as the list has it.
fn is_done(
    rt: &impl Abort,
    alloc: Global,
    slots: &mut StepSlots,
    live: &mut Vec<Live>,
    given: Given,
) -> Result<(), Fail>
    requires { slots.old.bits ≡ Bits.B64 }
    ensures { slots.new.bits ≡ Bits.B64 }
{
    match given {
        Given::Finish { place } => {
            is_finished(rt, slots, live, place);
            Ok(())
        }
        Given::Step { ip, reads } => is_stepped(rt, alloc, slots, live, ip, reads),
    }
}

/// The range has the bytes of the live slots of the list.
fn has_slots(rt: &impl Abort, alloc: Global, slots: &StepSlots, live: &[Live]) -> Result<(), Fail> {
    let image = image_of(alloc, live)?;
    same_items(rt, "the bytes", slots.image(), &image);
    same(rt, "live slots", &slots.live().len(), &live.len());
    Ok(())
}

// The numbers are those of a linear congruential generator.
#[test]
fn slots_follow_a_plain_list(rt: HostRuntime) -> Result<(), Fail> {
    let mut slots = slots_of(rt.alloc(), BASE, SIZE, MOST)?;
    let mut live: Vec<Live> = Vec::new(rt.alloc());
    let mut x: u64 = 1;
    'commands: for _ in 0..4000 {
        x = x
            .wrapping_mul(6_364_136_223_846_793_005)
            .wrapping_add(1_442_695_040_888_963_407);
        is_done(&rt, rt.alloc(), &mut slots, &mut live, given_by(x >> 33))?;
        has_slots(&rt, rt.alloc(), &slots, &live)?;
    }
    Ok(())
}
