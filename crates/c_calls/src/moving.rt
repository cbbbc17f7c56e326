//! Moving code.

ghost use Rattle.std.specs.Prelude.{◌≡◌, ◌≤◌, ◌++◌, length, drop};
ghost use Rattle.c_calls.specs.Moving as spec;

use crate::buffers::write_front;
use crate::flat::{FlatMove, FlatMoved};
use crate::moved::{MoveRefusal, MovedCode, Targets, moved_code};
use crate::refusal::{Refusal, refusal_status};
use block_encoder::Moved;
use decoder::DecodeError;
use std::alloc::Global;

/// Why nothing is moved, by the refusals of all calls.
pub(crate) fn refusal_of(why: MoveRefusal) -> Refusal
    ensures { result ≡ spec.refusal_of why }
{
    match why {
        MoveRefusal::Mode => Refusal::Mode,
        MoveRefusal::TooLarge => Refusal::TooLarge,
        MoveRefusal::BadCode { error, .. } => match error {
            DecodeError::Invalid => Refusal::Invalid,
            DecodeError::TooShort => Refusal::TooShort,
        },
        MoveRefusal::Memory => Refusal::Memory,
        MoveRefusal::TooMany { .. } => Refusal::TooMany,
        MoveRefusal::Wraps { .. } => Refusal::Wraps,
        MoveRefusal::TooFar { .. } => Refusal::TooFar,
        MoveRefusal::Room => Refusal::Room,
    }
}

/// No numbers.
pub(crate) const NOTHING: FlatMove = FlatMove {
    bytes: 0,
    count: 0,
    at: 0,
    address: 0,
    code_bytes: 0,
    slots_at: 0,
};

/// The numbers of a refusal.
pub(crate) fn refusal_report(why: MoveRefusal) -> FlatMove
    ensures { result ≡ spec.refusal_report why }
{
    match why {
        MoveRefusal::BadCode { at, .. } => FlatMove { at, ..NOTHING },
        MoveRefusal::TooMany { count } => FlatMove { count, ..NOTHING },
        MoveRefusal::Wraps { end } => FlatMove {
            address: (end % 0x1_0000_0000_0000_0000) as u64,
            ..NOTHING
        },
        MoveRefusal::TooFar { at, target } => FlatMove {
            at,
            address: target,
            ..NOTHING
        },
        _ => NOTHING,
    }
}

/// The offset of the first slot, and the number of bytes if there is none.
fn slots_offset(moved: &Moved) -> u64
    ensures { result ≡ spec.slots_offset moved.now }
{
    let slots = moved.slots().len() as u64;
    (moved.bytes().len() as u64).saturating_sub(8 * slots)
}

/// Returns the report of a result.
fn report_of(answer: &Result<MovedCode, MoveRefusal>) -> FlatMove
    ensures { result ≡ spec.report_of answer.now }
{
    match answer {
        Ok(m) => FlatMove {
            bytes: m.moved.bytes().len() as u64,
            count: m.entries.len() as u64,
            code_bytes: m.code_len,
            slots_at: slots_offset(&m.moved),
            ..NOTHING
        },
        Err(why) => refusal_report(*why),
    }
}

/// Writes entries at the start of a buffer.
pub(crate) fn write_entries(map: &mut [FlatMoved], entries: &[FlatMoved])
    requires { length entries.now ≤ length map.old }
    ensures { map.new ≡ entries.now ++ drop (length entries.now) map.old }
{
    map[..entries.len()].copy_from_slice(entries);
}

/// Writes the moved bytes and the map, if both buffers are large enough.
#[tactic(auto, unfolding(crate::specs::Moving::moved_within))]
fn put_moved(answer: &Result<MovedCode, MoveRefusal>, out: &mut [u8], map: &mut [FlatMoved]) -> i32
    ensures said { result ≡ spec.moved_said (spec.moved_within (length out.old) (length map.old) answer.now) }
    ensures bytes { out.new ≡ spec.bytes_left out.old (spec.moved_within (length out.old) (length map.old) answer.now) }
    ensures entries { map.new ≡ spec.entries_left map.old (spec.moved_within (length out.old) (length map.old) answer.now) }
{
    match answer {
        Ok(m) => {
            let bytes = m.moved.bytes();
            if bytes.len() > out.len() || m.entries.len() > map.len() {
                return refusal_status(Refusal::Room);
            }
            write_front(out, bytes);
            write_entries(map, &m.entries);
            0
        }
        Err(why) => refusal_status(refusal_of(*why)),
    }
}

/// Moves code, and leaves the moved bytes, the map and the report.
fn move_by(
    alloc: Global,
    targets: Targets,
    bits: u32,
    old: u64,
    bytes: &[u8],
    new: u64,
    out: &mut [u8],
    map: &mut [FlatMoved],
    report: &mut FlatMove,
) -> i32
    ensures { spec.IsMove targets bits old bytes.now new out.old out.new map.old map.new report.new result }
{
    let answer = moved_code(alloc, targets, bits, old, bytes, new);
    *report = report_of(&answer);
    put_moved(&answer, out, map)
}

/// Moves code to another address. A branch to a moved instruction follows it.
pub fn move_code(
    alloc: Global,
    bits: u32,
    old: u64,
    bytes: &[u8],
    new: u64,
    out: &mut [u8],
    map: &mut [FlatMoved],
    report: &mut FlatMove,
) -> i32
    ensures { spec.IsMoveFollowing bits old bytes.now new out.old out.new map.old map.new report.new result }
{
    move_by(
        alloc,
        Targets::Follow,
        bits,
        old,
        bytes,
        new,
        out,
        map,
        report,
    )
}

/// Moves code to another address. A branch to a moved instruction goes to its old address.
pub fn move_outside(
    alloc: Global,
    bits: u32,
    old: u64,
    bytes: &[u8],
    new: u64,
    out: &mut [u8],
    map: &mut [FlatMoved],
    report: &mut FlatMove,
) -> i32
    ensures { spec.IsMoveStaying bits old bytes.now new out.old out.new map.old map.new report.new result }
{
    move_by(
        alloc,
        Targets::Stay,
        bits,
        old,
        bytes,
        new,
        out,
        map,
        report,
    )
}
