//! The places of moved blocks.

ghost use Rattle.std.specs.Prelude.{◌≡◌, ◌<◌, IfOk, length};
ghost use Rattle.branch_sizes.specs.Layout.{block_number, first_of_block};
ghost use Rattle.move_goals.specs.Items.{AreSpansOf};
ghost use Rattle.c_calls.specs.Blocks as spec;

use crate::code_len::code_len;
use crate::flat::FlatPlace;
use block_encoder::{BlockSpan, MovedBlocks, Placed};
use std::alloc::{AllocError, Global};
use x86_values::Bits;

/// An instruction of several blocks: the number of its block, and its number there.
#[derive(Clone, Copy)]
pub(crate) struct InBlock {
    pub(crate) block: u64,
    pub(crate) at: u64,
}

/// The block of the instruction of this number, and its number there.
pub(crate) fn block_of(spans: &[BlockSpan], k: u64) -> InBlock
    ensures block { result.block ≡ block_number spans.now k }
    ensures at { result.at ≡ spec.number_in_block spans.now k }
{
    let mut at = k;
    'each: for b in 0..spans.len() {
        let count = u64::from(spans[b].count);
        if at < count {
            return InBlock {
                block: b as u64,
                at,
            };
        }
        at -= count;
    }
    InBlock {
        block: spans.len() as u64,
        at,
    }
}

/// The place of a moved block, whose first instruction has this number.
#[tactic(auto, unfolding(crate::specs::Blocks::place_at))]
fn place_at(
    bits: Bits,
    items: &[Placed],
    spans: &[BlockSpan],
    moved: &MovedBlocks,
    b: usize,
    first: usize,
) -> FlatPlace
    requires block { b < length spans.now }
    requires spans { AreSpansOf items.now spans.now }
    requires first { first ≡ first_of_block spans.now b }
    requires starts { length moved.now.starts ≡ length items.now }
    requires forms { length moved.now.forms ≡ length items.now }
    requires ends { length moved.now.ends ≡ length spans.now }
    ensures { result ≡ spec.place_at bits spans.now items.now moved.now b }
{
    let span = spans[b];
    let count = span.count as usize;
    FlatPlace {
        end: moved.ends()[b],
        code_bytes: code_len(
            bits,
            items,
            first,
            count,
            span.new_base,
            moved.starts(),
            moved.forms(),
        ),
        count: u64::from(span.count),
    }
}

/// The places of moved blocks.
pub(crate) fn places_of(
    alloc: Global,
    bits: Bits,
    items: &[Placed],
    spans: &[BlockSpan],
    moved: &MovedBlocks,
) -> Result<Vec<FlatPlace>, AllocError>
    requires spans { AreSpansOf items.now spans.now }
    requires starts { length moved.now.starts ≡ length items.now }
    requires forms { length moved.now.forms ≡ length items.now }
    requires ends { length moved.now.ends ≡ length spans.now }
    ensures { IfOk result (λ list. list.items ≡ spec.places bits spans.now items.now moved.now (length spans.now)) }
{
    let mut list = Vec::new(alloc);
    let mut first: usize = 0;
    'each: for b in 0..spans.len() {
        list.push(place_at(bits, items, spans, moved, b, first))?;
        first += spans[b].count as usize;
    }
    Ok(list)
}
