//! The plan of some moved blocks.

ghost use Rattle.std.specs.Prelude.{◌≡◌, ◌-◌, ◌<◌, ◌≤◌, None, IfOk, length};
ghost use Rattle.branch_sizes.specs.declared.plan.Goal.TheVariants.{None as Nowhere};
ghost use Rattle.move_goals.specs.BranchForms.Choices.{choices_of};
ghost use Rattle.move_goals.specs.MovedTargets.Independent.{IsIndependent};
ghost use Rattle.move_goals.specs.Items as old;
ghost use Rattle.move_goals.specs.Ready.{MayBeReady, AreReady};
ghost use Rattle.move_goals.specs.Plan as spec;
ghost use Rattle.move_goals.specs.Starts.{AreStartsBelow, Ascend};

use crate::branch_forms::{choices_of, choices_without_target};
use crate::items::Placed;
use crate::moved_targets::target_of;
use crate::ready::ready_of;
use crate::starts::{Starts, goal_in, starts_of};
use arrayvec::ArrayVec;
use branch_sizes::{BlockSpan, Branch, Goal, Plan};
use std::alloc::{AllocError, Global};
use x86_values::{Bits, Instr};

/// Returns the only form of an item with these ready bytes; it has no goal.
fn ready_branch(bits: Bits, instr: &Instr, ready: &[u8]) -> Branch
    requires some { 0 < length ready.now }
    requires ready { IsIndependent bits instr.now ready.now }
    ensures { result ≡ record { choices = record { items = choices_of bits instr.now }; goal = Nowhere } }
{
    crate::moved_targets::laws::spellings_are_moved();
    Branch {
        choices: choices_without_target(bits, instr, ready.len() as u8),
        goal: Goal::None,
    }
}

/// The forms and the goal of item `k`, which is one of a block of the items from `from` on, below `to`.
fn branch_between(
    bits: Bits,
    items: &[Placed],
    starts: &Starts,
    from: usize,
    to: usize,
    k: usize,
    ready: &[u8],
) -> Branch
    requires few { length items.now ≤ 65536 }
    requires ready { MayBeReady bits (old.item_at items.now k).instr ready.now }
    requires starts { to - from < length items.now → AreStartsBelow items.now (length items.now) starts.now }
    requires order { from ≤ to }
    requires end { to ≤ length items.now }
    requires ascend { Ascend items.now from to }
    requires item { k < length items.now }
    ensures { result ≡ spec.branch_between bits items.now from to k }
{
    let instr = &items[k].instr;
    if !ready.is_empty() {
        return ready_branch(bits, instr, ready);
    }
    Branch {
        choices: choices_of(bits, instr),
        goal: goal_in(items, starts, from, to, target_of(instr)),
    }
}

/// Returns the items of the plan of some moved blocks, some of which may have ready bytes.
fn branches_of(
    alloc: Global,
    bits: Bits,
    items: &[Placed],
    spans: &[BlockSpan],
    ready: &[ArrayVec<u8, 15>],
) -> Result<Vec<Branch>, AllocError>
    requires few { length items.now ≤ 65536 }
    requires ready { AreReady bits items.now ready.now }
    requires spans { old.AreSpansOf items.now spans.now }
    requires placed { old.ArePlaced bits items.now }
    requires order { old.first_disorder spans.now items.now ≡ None }
    ensures { IfOk result (λ branches. branches.items ≡ (spec.plan_for bits spans.now items.now).items) }
{
    branch_sizes::laws::blocks_have_all_items();
    let starts = starts_of(alloc, items, spans)?;
    let mut branches = Vec::with_capacity(alloc, items.len())?;
    let mut from: usize = 0;
    for span in spans {
        let to = from + span.count as usize;
        'items: for k in from..to {
            let bytes = ready_of(ready, k);
            branches.push(branch_between(bits, items, &starts, from, to, k, bytes))?;
        }
        from = to;
    }
    Ok(branches)
}

/// Returns the plan of some moved blocks: for each item its possible forms and its goal. It takes at most 65,536 items.
///
/// A target that starts an item of the same block follows that item. Otherwise it follows the first item of another block that starts there.
/// Otherwise it stays.
pub fn plan_for(
    alloc: Global,
    bits: Bits,
    items: &[Placed],
    spans: &[BlockSpan],
) -> Result<Plan, AllocError>
    requires few { length items.now ≤ 65536 }
    requires spans { old.AreSpansOf items.now spans.now }
    requires placed { old.ArePlaced bits items.now }
    requires order { old.first_disorder spans.now items.now ≡ None }
    ensures { IfOk result (λ plan. plan ≡ spec.plan_for bits spans.now items.now) }
{
    plan_with_ready(alloc, bits, items, spans, &[])
}

/// Returns the plan of some moved blocks, like [`plan_for`]. An item with ready bytes, which do not depend on its place, has no target, and its
/// length is the number of these bytes.
pub fn plan_with_ready(
    alloc: Global,
    bits: Bits,
    items: &[Placed],
    spans: &[BlockSpan],
    ready: &[ArrayVec<u8, 15>],
) -> Result<Plan, AllocError>
    requires few { length items.now ≤ 65536 }
    requires spans { old.AreSpansOf items.now spans.now }
    requires placed { old.ArePlaced bits items.now }
    requires order { old.first_disorder spans.now items.now ≡ None }
    requires ready { AreReady bits items.now ready.now }
    ensures { IfOk result (λ plan. plan ≡ spec.plan_for bits spans.now items.now) }
{
    crate::branch_forms::laws::forms_are_fit();
    let branches = branches_of(alloc, bits, items, spans, ready)?;
    Ok(Plan::of_blocks(Vec::from_slice(alloc, spans)?, branches))
}
