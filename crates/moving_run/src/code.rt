//! The input cut into blocks, and the instructions of each.

ghost use Rattle.std.specs.Prelude.{◌≡◌, ◌≤◌, ◌+◌, ◌++◌, ◌∷◌, [], length, vec_len, IfOk, OnOk, MatchResult};
ghost use Rattle.moving_run.specs.Code.{next_block_bytes, left_by};
ghost use Rattle.moving_run.specs.Ends as end_spec;
ghost use Rattle.moving_run.specs.Read as spec;

use crate::command_words::BlockWords;
use branch_sizes::{BlockSpan, MOST_ITEMS};
use decoder::{DecodeError, UNREAD};
use move_goals::{Placed, passes};
use std::alloc::{AllocError, Global};
use sweep::sweep_text::laws::items_stand_in_turn;
use sweep::sweep_text::read_onto;
use thiserror::Error;
use x86_values::Bits;

/// The instructions of the blocks.
#[derive(Drop)]
pub struct Code {
    /// The first of them, as many as can be moved together. Each has its old address if no block exceeds the address space.
    pub items: Vec<Placed>,
    /// How many each block has, and its new base.
    pub spans: Vec<BlockSpan>,
    /// How many there are.
    pub count: u64,
}

/// Why the blocks cannot be decoded.
#[derive(Clone, Copy, PartialEq, Eq, Debug, Error)]
pub enum CodeError {
    /// No instruction is read at this offset of the input.
    #[error("bad code at {offset}: {error}")]
    BadCode { offset: u64, error: DecodeError },
    /// There was not enough memory.
    #[error("out of memory")]
    Memory,
}

impl From<AllocError> for CodeError {
    ghost use Rattle.moving_run.specs.declared.code.CodeError.TheVariants.{Memory};

    ghost from_gives = { λ _ e. e ≡ Memory };

    fn from(_e: AllocError) -> CodeError {
        CodeError::Memory
    }
}

/// Returns the bytes of a block at the front of some bytes, and the rest.
fn cut(len: Option<u64>, bytes: &[u8]) -> (&[u8], &[u8])
    ensures block { result.0.now ≡ next_block_bytes len bytes.now }
    ensures rest { result.1.now ≡ left_by len bytes.now }
{
    match len {
        Some(len) if len < bytes.len() as u64 => bytes.split_at(len as usize),
        _ => bytes.split_at(bytes.len()),
    }
}

/// The old end of a block that takes `len` bytes. That of an empty block is its new base.
fn end_of(word: &BlockWords, len: usize) -> u128
    ensures { result ≡ end_spec.block_end word.now len }
{
    if len == 0 {
        u128::from(word.new)
    } else {
        u128::from(word.old) + len as u128
    }
}

/// Returns the first old end of the blocks that exceeds the address space of the mode.
pub fn first_pass(bits: Bits, words: &[BlockWords], input: &[u8]) -> Option<u128>
    ensures { result ≡ end_spec.first_pass bits words.now input.now }
{
    let mut rest = input;
    for word in words {
        let (front, after) = cut(word.len, rest);
        let end = end_of(word, front.len());
        if passes(bits, end) {
            return Some(end);
        }
        rest = after;
    }
    None
}

/// Appends an instruction to others, if they are fewer than can be moved together.
fn keep(items: &mut Vec<Placed>, item: Placed) -> Result<(), AllocError>
    requires { vec_len items.old ≤ 65536 }
    ensures kept { OnOk result (items.new.items ≡ spec.first_items (items.old.items ++ item ∷ [])) }
    ensures few { OnOk result (vec_len items.new ≤ 65536) }
{
    if items.len() < MOST_ITEMS {
        items.push(item)?;
    }
    Ok(())
}

/// Decodes the instructions of a block, whose first byte is byte `start` of the input, appends them to `items`, and returns their number.
fn read_block(
    bits: Bits,
    base: u64,
    start: usize,
    bytes: &[u8],
    items: &mut Vec<Placed>,
) -> Result<u32, CodeError>
    requires short { start + length bytes.now ≤ 1048576 }
    requires few { vec_len items.old ≤ 65536 }
    ensures read { MatchResult result (λ count. spec.ReadsBlock bits base bytes.now items.old.items items.new.items count) (λ e. spec.IsBlockError bits base start bytes.now e) }
    ensures few { IfOk result (λ count. vec_len items.new ≤ 65536) }
{
    items_stand_in_turn();
    let mut count: u32 = 0;
    let mut at: usize = 0;
    let mut reading = Ok(UNREAD);
    while at < bytes.len() {
        let (_, rest) = bytes.split_at(at);
        read_onto(bits, base, at, rest, &mut reading);
        match &reading {
            Ok(d) => {
                let ip = base.wrapping_add(at as u64);
                keep(
                    items,
                    Placed {
                        ip,
                        len: d.len,
                        instr: d.instr,
                    },
                )?;
                count += 1;
                at += usize::from(d.len);
            }
            Err(error) => {
                let offset = (start + at) as u64;
                return Err(CodeError::BadCode {
                    offset,
                    error: *error,
                });
            }
        }
    }
    Ok(count)
}

/// Appends a block to others.
fn add_span(spans: &mut Vec<BlockSpan>, count: u32, new_base: u64) -> Result<(), AllocError>
    ensures { OnOk result (spans.new.items ≡ spans.old.items ++ record { count = count; new_base = new_base } ∷ []) }
{
    spans.push(BlockSpan { count, new_base })?;
    Ok(())
}

/// Cuts the input into blocks and decodes the instructions of each.
pub fn read_code(
    alloc: Global,
    bits: Bits,
    words: &[BlockWords],
    input: &[u8],
) -> Result<Code, CodeError>
    requires few { length words.now ≤ 16 }
    requires short { length input.now ≤ 1048576 }
    ensures { MatchResult result (λ code. spec.IsCode bits words.now input.now code) (λ e. spec.IsCodeError bits words.now input.now e) }
{
    let mut items = Vec::new(alloc);
    let mut spans = Vec::new(alloc);
    let mut count: u64 = 0;
    let mut rest = input;
    for word in words {
        let (block, after) = cut(word.len, rest);
        let start = input.len() - rest.len();
        let found = read_block(bits, word.old, start, block, &mut items)?;
        add_span(&mut spans, found, word.new)?;
        count += u64::from(found);
        rest = after;
    }
    Ok(Code {
        items,
        spans,
        count,
    })
}
