//! Moving several blocks of code at once.

ghost use Rattle.std.specs.Prelude.{◌≡◌, ◌≤◌, ◌++◌, length, drop};
ghost use Rattle.c_calls.specs.Blocks as spec;

use crate::buffers::write_front;
use crate::flat::{FlatBlock, FlatBlocks, FlatMoved, FlatPlace};
use crate::moved_blocks::{BlocksRefusal, CodeBlocks, moved_blocks};
use crate::moving::write_entries;
use crate::refusal::{Refusal, refusal_status};
use decoder::DecodeError;
use std::alloc::Global;

/// Why nothing is moved, by the refusals of all calls.
fn blocks_refusal(why: BlocksRefusal) -> Refusal
    ensures { result ≡ spec.blocks_refusal why }
{
    match why {
        BlocksRefusal::Mode => Refusal::Mode,
        BlocksRefusal::TooLarge => Refusal::TooLarge,
        BlocksRefusal::Outside { .. } => Refusal::Block,
        BlocksRefusal::OldEnd { .. } | BlocksRefusal::Wraps { .. } => Refusal::Wraps,
        BlocksRefusal::BadCode { error, .. } => match error {
            DecodeError::Invalid => Refusal::Invalid,
            DecodeError::TooShort => Refusal::TooShort,
        },
        BlocksRefusal::Memory => Refusal::Memory,
        BlocksRefusal::TooMany { .. } => Refusal::TooMany,
        BlocksRefusal::TooFar { .. } => Refusal::TooFar,
        BlocksRefusal::Room => Refusal::Room,
    }
}

/// No numbers, and no block of this many.
fn no_blocks(block: u64) -> FlatBlocks
    ensures { result ≡ spec.no_blocks block }
{
    FlatBlocks {
        bytes: 0,
        count: 0,
        block,
        at: 0,
        address: 0,
    }
}

/// The numbers of a refusal of so many blocks.
fn refusal_report(n: u64, why: BlocksRefusal) -> FlatBlocks
    ensures { result ≡ spec.refusal_report n why }
{
    match why {
        BlocksRefusal::Outside { block } => no_blocks(block),
        BlocksRefusal::OldEnd { block, end } => FlatBlocks {
            address: (end % 0x1_0000_0000_0000_0000) as u64,
            ..no_blocks(block)
        },
        BlocksRefusal::BadCode { block, at, .. } => FlatBlocks {
            at,
            ..no_blocks(block)
        },
        BlocksRefusal::TooMany { count } => FlatBlocks {
            count,
            ..no_blocks(n)
        },
        BlocksRefusal::Wraps { end } => FlatBlocks {
            address: (end % 0x1_0000_0000_0000_0000) as u64,
            ..no_blocks(n)
        },
        BlocksRefusal::TooFar { block, at, target } => FlatBlocks {
            at,
            address: target,
            ..no_blocks(block)
        },
        _ => no_blocks(n),
    }
}

/// Returns the report of a result for `n` blocks.
fn blocks_report(n: u64, answer: &Result<CodeBlocks, BlocksRefusal>) -> FlatBlocks
    ensures { result ≡ spec.blocks_report n answer.now }
{
    match answer {
        Ok(m) => FlatBlocks {
            bytes: m.moved.bytes().len() as u64,
            count: m.entries.len() as u64,
            ..no_blocks(n)
        },
        Err(why) => refusal_report(n, *why),
    }
}

/// Writes places to the start of a buffer.
fn write_places(room: &mut [FlatPlace], places: &[FlatPlace])
    requires { length places.now ≤ length room.old }
    ensures { room.new ≡ places.now ++ drop (length places.now) room.old }
{
    room[..places.len()].copy_from_slice(places);
}

/// Writes the moved bytes, the places and the map, if the buffers hold them.
#[tactic(auto, unfolding(crate::specs::Blocks::blocks_within))]
fn put_blocks(
    answer: &Result<CodeBlocks, BlocksRefusal>,
    out: &mut [u8],
    places: &mut [FlatPlace],
    map: &mut [FlatMoved],
) -> i32
    ensures said { result ≡ spec.blocks_said (spec.blocks_within (length out.old) (length places.old) (length map.old) answer.now) }
    ensures bytes { out.new ≡ spec.bytes_left out.old (spec.blocks_within (length out.old) (length places.old) (length map.old) answer.now) }
    ensures places { places.new ≡ spec.places_left places.old (spec.blocks_within (length out.old) (length places.old) (length map.old) answer.now) }
    ensures entries { map.new ≡ spec.entries_left map.old (spec.blocks_within (length out.old) (length places.old) (length map.old) answer.now) }
{
    match answer {
        Ok(m) => {
            let bytes = m.moved.bytes();
            if bytes.len() > out.len()
                || m.places.len() > places.len()
                || m.entries.len() > map.len()
            {
                return refusal_status(Refusal::Room);
            }
            write_front(out, bytes);
            write_places(places, &m.places);
            write_entries(map, &m.entries);
            0
        }
        Err(why) => refusal_status(blocks_refusal(*why)),
    }
}

/// Moves several blocks of code at once, each to its own address.
pub fn move_blocks(
    alloc: Global,
    bits: u32,
    bytes: &[u8],
    blocks: &[FlatBlock],
    out: &mut [u8],
    places: &mut [FlatPlace],
    map: &mut [FlatMoved],
    report: &mut FlatBlocks,
) -> i32
    ensures { spec.IsBlocksMove bits bytes.now blocks.now out.old out.new places.old places.new map.old map.new report.new result }
{
    let answer = moved_blocks(alloc, bits, bytes, blocks);
    *report = blocks_report(blocks.len() as u64, &answer);
    put_blocks(&answer, out, places, map)
}
