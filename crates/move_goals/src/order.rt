//! Whether the items of each block were consecutive, and where they ended.

ghost use Rattle.std.specs.Prelude.{◌≡◌, ◌≤◌, ◌+◌, ◌-◌, ◌<◌, ◌==◌, if◌then◌else◌, length};
ghost use Rattle.move_goals.specs.Items as spec;

use crate::items::Placed;
use branch_sizes::BlockSpan;
use x86_values::{Bits, modulus};

/// Returns the address after an item, which may lie past the end of all addresses.
fn old_end(item: &Placed) -> u128
    ensures { result ≡ spec.old_end item.now }
{
    u128::from(item.ip) + u128::from(item.len)
}

/// Returns whether item `k` begins where the previous one ends.
fn follows(items: &[Placed], k: usize) -> bool
    requires later { 1 ≤ k }
    requires item { k < length items.now }
    ensures { result ≡ ((spec.item_at items.now k).ip == spec.old_end (spec.item_at items.now (k - 1))) }
{
    u128::from(items[k].ip) == old_end(&items[k - 1])
}

/// Returns the number of the first item that is not the first of its block and does not begin where the previous item ends.
pub fn first_disorder(items: &[Placed], spans: &[BlockSpan]) -> Option<usize>
    requires { spec.AreSpansOf items.now spans.now }
    ensures { result ≡ spec.first_disorder spans.now items.now }
{
    branch_sizes::laws::blocks_have_all_items();
    let mut start: usize = 0;
    for span in spans {
        let end = start + span.count as usize;
        'rest: for k in start + 1..end {
            if !follows(items, k) {
                return Some(k);
            }
        }
        start = end;
    }
    None
}

/// Returns whether an address exceeds the address space of a mode. The address just past the space is still a valid end.
pub fn passes(bits: Bits, end: u128) -> bool
    ensures { result ≡ spec.passes bits end }
{
    end > modulus(bits)
}

/// Returns the address after the last item of a block whose first item has the number `start`; the new base if the block is empty.
fn block_old_end(items: &[Placed], span: &BlockSpan, start: usize) -> u128
    requires { start + span.now.count ≤ length items.now }
    ensures { result ≡ (if span.now.count == 0 then span.now.new_base else spec.old_end (spec.item_at items.now (start + span.now.count - 1))) }
{
    if span.count == 0 {
        return u128::from(span.new_base);
    }
    old_end(&items[start + span.count as usize - 1])
}

/// Returns the first old end of a block that exceeds the address space of the mode. The old end of an empty block is its new base.
pub fn first_old_pass(bits: Bits, items: &[Placed], spans: &[BlockSpan]) -> Option<u128>
    requires { spec.AreSpansOf items.now spans.now }
    ensures { result ≡ spec.first_old_pass bits spans.now items.now }
{
    branch_sizes::laws::blocks_have_all_items();
    let mut start: usize = 0;
    for span in spans {
        let end = block_old_end(items, span, start);
        if passes(bits, end) {
            return Some(end);
        }
        start += span.count as usize;
    }
    None
}
