//! Several blocks of code read and moved at once.

ghost use Rattle.std.specs.Prelude.{◌≡◌, ◌+◌, ◌≤◌, ◌^◌, ◌<◌, length, None, IfOk, MatchResult};
ghost use Rattle.branch_sizes.specs.Layout.{block_number};
ghost use Rattle.move_goals.specs.Items.{ArePlaced, AreSpansOf, first_disorder};
ghost use Rattle.c_calls.specs.Moving.{IsSourceRefusal};
ghost use Rattle.c_calls.specs.Blocks as spec;
ghost use Rattle.c_calls.specs.Numbers.{bits_numbered};

use crate::block_places::{InBlock, block_of, places_of};
use crate::flat::{FlatBlock, FlatMoved, FlatPlace};
use crate::moved::{MOST, MoveRefusal, code_end, entries_of, read_items};
use crate::numbers::bits_numbered;
use block_encoder::{BlockSpan, MovedBlocks, Placed, PlanError, move_ordered_blocks};
use branch_sizes::MOST_ITEMS;
use decoder::DecodeError;
use move_goals::passes;
use std::alloc::Global;
use x86_values::Bits;

/// How many blocks are moved together at most.
const MOST_BLOCKS: usize = 65_536;

/// Moved blocks, the new place of each of their instructions, and the place of each block.
#[derive(Drop)]
pub(crate) struct CodeBlocks {
    pub(crate) moved: MovedBlocks,
    pub(crate) entries: Vec<FlatMoved>,
    pub(crate) places: Vec<FlatPlace>,
}

/// Why blocks are not moved.
#[derive(Clone, Copy)]
pub(crate) enum BlocksRefusal {
    /// The mode is none.
    Mode,
    /// There are more than 65,536 blocks, or more than 1,048,576 bytes together.
    TooLarge,
    /// This block is not inside the bytes.
    Outside {
        block: u64,
    },
    /// This block ended at an address that passes the address space.
    OldEnd {
        block: u64,
        end: u128,
    },
    /// In this block no instruction is read at this offset.
    BadCode {
        block: u64,
        at: u64,
        error: DecodeError,
    },
    /// There was not enough memory.
    Memory,
    /// There are this many instructions, more than 65,536.
    TooMany {
        count: u64,
    },
    /// The new end of a block is this address, which passes the address space.
    Wraps {
        end: u128,
    },
    /// In this block the instruction of this number does not reach this address.
    TooFar {
        block: u64,
        at: u64,
        target: u64,
    },
    /// A buffer is too small.
    Room,
}

/// The instructions of some blocks one after another, and for each block their number and its new address.
#[derive(Drop)]
struct ReadBlocks {
    items: Vec<Placed>,
    spans: Vec<BlockSpan>,
}

/// How many bytes blocks have together.
fn total_len(blocks: &[FlatBlock]) -> u128
    requires { length blocks.now ≤ 65536 }
    ensures { result ≡ spec.total_len blocks.now }
{
    let mut total: u128 = 0;
    'each: for b in 0..blocks.len() {
        total += u128::from(blocks[b].len);
    }
    total
}

/// Why a block is not read, by why its code is not.
fn read_refusal(why: MoveRefusal, block: u64) -> BlocksRefusal
    ensures { result ≡ spec.read_refusal why block }
{
    match why {
        MoveRefusal::BadCode { at, error } => BlocksRefusal::BadCode { block, at, error },
        _ => BlocksRefusal::Memory,
    }
}

/// Reads the instructions of a block, the one of this number.
fn read_block(
    alloc: Global,
    bits: Bits,
    bytes: &[u8],
    block: FlatBlock,
    b: u64,
) -> Result<Vec<Placed>, BlocksRefusal>
    ensures { MatchResult result (λ items. spec.IsBlockRead bits bytes.now block items.items) (λ why. spec.IsBlockRefusal bits bytes.now block b why) }
{
    let behind = u128::from(block.offset) + u128::from(block.len);
    if behind > bytes.len() as u128 {
        return Err(BlocksRefusal::Outside { block: b });
    }
    let (_, rest) = bytes.split_at(block.offset as usize);
    let (code, _) = rest.split_at(block.len as usize);
    let end = code_end(block.old_ip, code, block.new_ip);
    if passes(bits, end) {
        return Err(BlocksRefusal::OldEnd { block: b, end });
    }
    match read_items(alloc, bits, block.old_ip, code) {
        Ok(items) => Ok(items),
        Err(why) => Err(read_refusal(why, b)),
    }
}

/// Reads the instructions of some blocks.
fn read_blocks(
    alloc: Global,
    bits: Bits,
    bytes: &[u8],
    blocks: &[FlatBlock],
) -> Result<ReadBlocks, BlocksRefusal>
    requires { spec.AreFew blocks.now }
    ensures { MatchResult result (λ r. spec.AreBlocksRead bits bytes.now blocks.now r.spans.items r.items.items) (λ why. spec.IsBlockUnread bits bytes.now blocks.now why) }
{
    let mut items = Vec::new(alloc);
    let mut spans = Vec::new(alloc);
    'each: for b in 0..blocks.len() {
        let block = blocks[b];
        let front = match read_block(alloc, bits, bytes, block, b as u64) {
            Ok(front) => front,
            Err(why) => return Err(why),
        };
        let span = BlockSpan {
            count: front.len() as u32,
            new_base: block.new_ip,
        };
        match spans.push(span) {
            Ok(()) => {}
            Err(_) => return Err(BlocksRefusal::Memory),
        }
        match items.extend_from_slice(&front) {
            Ok(()) => {}
            Err(_) => return Err(BlocksRefusal::Memory),
        }
    }
    Ok(ReadBlocks { items, spans })
}

/// The refusal of an instruction that does not reach its target.
fn too_far(spans: &[BlockSpan], k: u64, target: u64) -> BlocksRefusal
    ensures { result ≡ BlocksRefusal.TooFar (block_number spans.now k) (spec.number_in_block spans.now k) target }
{
    let InBlock { block, at } = block_of(spans, k);
    BlocksRefusal::TooFar { block, at, target }
}

/// Moves the instructions of blocks that were read.
fn move_read(
    alloc: Global,
    bits: Bits,
    items: &[Placed],
    spans: &[BlockSpan],
) -> Result<CodeBlocks, BlocksRefusal>
    requires spans { AreSpansOf items.now spans.now }
    requires placed { ArePlaced bits items.now }
    requires order { first_disorder spans.now items.now ≡ None }
    ensures { spec.IsBlocksAnswerOf bits spans.now items.now result }
{
    if items.len() > MOST_ITEMS {
        return Err(BlocksRefusal::TooMany {
            count: items.len() as u64,
        });
    }
    match move_ordered_blocks(alloc, bits, items, spans) {
        Ok(moved) => {
            let Ok(entries) = entries_of(alloc, items, moved.starts(), moved.forms()) else {
                return Err(BlocksRefusal::Memory);
            };
            let Ok(places) = places_of(alloc, bits, items, spans, &moved) else {
                return Err(BlocksRefusal::Memory);
            };
            Ok(CodeBlocks {
                moved,
                entries,
                places,
            })
        }
        Err(PlanError::Memory) => Err(BlocksRefusal::Memory),
        Err(PlanError::Wraps { end }) => Err(BlocksRefusal::Wraps { end }),
        Err(PlanError::TooFar { at, target }) => Err(too_far(spans, at, target)),
    }
}

/// Reads blocks of code and moves them, in a mode.
fn move_blocks_in(
    alloc: Global,
    bits: Bits,
    bytes: &[u8],
    blocks: &[FlatBlock],
) -> Result<CodeBlocks, BlocksRefusal>
    ensures { spec.IsBlocksAnswerIn bits bytes.now blocks.now result }
{
    if blocks.len() > MOST_BLOCKS {
        return Err(BlocksRefusal::TooLarge);
    }
    if total_len(blocks) > MOST as u128 {
        return Err(BlocksRefusal::TooLarge);
    }
    match read_blocks(alloc, bits, bytes, blocks) {
        Ok(read) => move_read(alloc, bits, &read.items, &read.spans),
        Err(why) => Err(why),
    }
}

/// Reads blocks of code and moves them.
pub(crate) fn moved_blocks(
    alloc: Global,
    bits: u32,
    bytes: &[u8],
    blocks: &[FlatBlock],
) -> Result<CodeBlocks, BlocksRefusal>
    ensures { spec.IsBlocksAnswer (bits_numbered bits) bytes.now blocks.now result }
{
    match bits_numbered(bits) {
        None => Err(BlocksRefusal::Mode),
        Some(bits) => move_blocks_in(alloc, bits, bytes, blocks),
    }
}
