//! Reading many instructions in one call.

ghost use Rattle.std.specs.Prelude.{◌≡◌, ◌<◌, ◌^◌};
ghost use Rattle.decoder.specs.Answer.{reading_of};
ghost use Rattle.c_calls.specs.Numbers.{bits_numbered};
ghost use Rattle.c_calls.specs.Many as spec;

use crate::buffers::count_answer;
use crate::flat::FlatInstr;
use crate::flatten::{ABSENT, flat_into};
use crate::numbers::bits_numbered;
use crate::refusal::{Refusal, refusal_status};
use decoder::{DecodeError, UNREAD};
use sweep::sweep_text::laws::items_stand_in_turn;
use sweep::sweep_text::{item_len, read_onto};
use x86_values::{Bits, Decoded};

/// How many items one call gives at most.
const MOST_ITEMS: usize = 67_108_864;

/// What a sweep gave: how many items, and how many bytes they take.
#[derive(Clone, Copy)]
struct Swept {
    count: usize,
    taken: usize,
}

/// A single byte at which no instruction starts, by the code of the cause.
const fn single_byte(code: u16) -> FlatInstr
    ensures { result ≡ spec.single_byte code }
{
    FlatInstr {
        op0: ABSENT,
        op1: ABSENT,
        op2: ABSENT,
        op3: ABSENT,
        code,
        len: 1,
        lock: 0,
        rep: 0,
        segment: 0,
        asize: 0,
    }
}

/// Writes the struct of an item to its place.
#[inline(always)]
fn reading_into(reading: &Result<Decoded, DecodeError>, out: &mut FlatInstr)
    ensures { out.new ≡ spec.flat_reading (reading_of reading.now) }
{
    match reading {
        Ok(decoded) => flat_into(decoded, out),
        Err(DecodeError::TooShort) => *out = single_byte(0xfffe),
        Err(DecodeError::Invalid) => *out = single_byte(0xffff),
    }
}

/// Goes through some bytes item by item, and writes their structs as far as there are structs.
fn sweep_into(bits: Bits, ip: u64, bytes: &[u8], instrs: &mut [FlatInstr]) -> Swept
    ensures swept { spec.IsManyIn bits ip bytes.now instrs.old instrs.new result.count result.taken }
    ensures few { result.taken < 2 ^ 31 }
{
    items_stand_in_turn();
    let most = instrs.len().min(MOST_ITEMS);
    let mut reading = Ok(UNREAD);
    let mut count: usize = 0;
    let mut at: usize = 0;
    while at < bytes.len() && count < most {
        let (_, rest) = bytes.split_at(at);
        read_onto(bits, ip, at, rest, &mut reading);
        reading_into(&reading, &mut instrs[count]);
        at += item_len(&reading);
        count += 1;
    }
    Swept { count, taken: at }
}

/// Decodes consecutive items of some bytes, as many as there are structs for. Returns the number of bytes that these items take.
pub fn decode_many(
    bits: u32,
    ip: u64,
    bytes: &[u8],
    instrs: &mut [FlatInstr],
    count: &mut usize,
) -> i32
    ensures { spec.IsMany bits ip bytes.now instrs.old instrs.new count.old count.new result }
{
    match bits_numbered(bits) {
        None => refusal_status(Refusal::Mode),
        Some(bits) => {
            let swept = sweep_into(bits, ip, bytes, instrs);
            *count = swept.count;
            count_answer(swept.taken)
        }
    }
}
