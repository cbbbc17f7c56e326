//! Which item began at an address.

ghost use Rattle.std.specs.Prelude.{◌≡◌, ◌-◌, ◌<◌, ◌≤◌, IfOk, length};
ghost use Rattle.move_goals.specs.Starts.{AreStartsBelow, Ascend, first_between, goal_between, goal_in};

use crate::items::Placed;
use branch_sizes::{BlockSpan, Goal};
use std::alloc::{AllocError, Global};
use std::collections::BTreeMap;

/// At each old address the number of the first item that began there.
pub(crate) type Starts = BTreeMap<u64, u32>;

/// The old starts of the items of several blocks, at most 65,536 items. Of one block there are none: it has no other block's items.
pub(crate) fn starts_of(
    alloc: Global,
    items: &[Placed],
    spans: &[BlockSpan],
) -> Result<Starts, AllocError>
    requires { length items.now ≤ 65536 }
    ensures { IfOk result (λ starts. 1 < length spans.now → AreStartsBelow items.now (length items.now) starts) }
{
    let mut starts = BTreeMap::new(alloc);
    if spans.len() < 2 {
        return Ok(starts);
    }
    'items: for k in 0..items.len() {
        let start = items[k].ip;
        if !starts.contains_key(&start) {
            starts.insert(start, k as u32)?;
        }
    }
    Ok(starts)
}

/// The item that began at an address among those from `from` on, below `to`, whose addresses ascend.
fn item_between(items: &[Placed], from: usize, to: usize, target: u64) -> Option<u32>
    requires few { length items.now ≤ 65536 }
    requires order { from ≤ to }
    requires end { to ≤ length items.now }
    requires ascend { Ascend items.now from to }
    ensures { result ≡ first_between items.now from to target }
{
    if from == to {
        return None;
    }
    // Most targets that no item has lie outside.
    let first = items[from].ip;
    if target < first {
        return None;
    }
    let last = items[to - 1].ip;
    if last < target {
        return None;
    }
    let mut low = from;
    let mut high = to;
    'halves: while low < high {
        let middle = low + (high - low) / 2;
        let start = items[middle].ip;
        if start == target {
            return Some(middle as u32);
        }
        if start < target {
            low = middle + 1;
        } else {
            high = middle;
        }
    }
    None
}

/// Returns the goal of a target: the item that starts there among those from `from` on, below `to`; or else the first item of all that starts there;
/// or else the address.
fn goal_between(items: &[Placed], starts: &Starts, from: usize, to: usize, target: u64) -> Goal
    requires few { length items.now ≤ 65536 }
    requires starts { to - from < length items.now → AreStartsBelow items.now (length items.now) starts.now }
    requires order { from ≤ to }
    requires end { to ≤ length items.now }
    requires ascend { Ascend items.now from to }
    ensures { result ≡ goal_between items.now from to target }
{
    if let Some(j) = item_between(items, from, to, target) {
        return Goal::Inside(j);
    }
    if to - from == items.len() {
        return Goal::Outside(target);
    }
    match starts.get(&target) {
        Some(j) => Goal::Inside(*j),
        None => Goal::Outside(target),
    }
}

/// The goal of an item among those from `from` on, below `to`, by its target.
pub(crate) fn goal_in(
    items: &[Placed],
    starts: &Starts,
    from: usize,
    to: usize,
    target: Option<u64>,
) -> Goal
    requires few { length items.now ≤ 65536 }
    requires starts { to - from < length items.now → AreStartsBelow items.now (length items.now) starts.now }
    requires order { from ≤ to }
    requires end { to ≤ length items.now }
    requires ascend { Ascend items.now from to }
    ensures { result ≡ goal_in items.now from to target }
{
    match target {
        None => Goal::None,
        Some(t) => goal_between(items, starts, from, to, t),
    }
}
