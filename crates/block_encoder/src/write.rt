//! The bytes of moved blocks.

ghost use Rattle.std.specs.Prelude.{◌≡◌, ◌<◌, ◌^◌, None, length};
ghost use Rattle.branch_sizes.specs.MoveLayout.Laid.{IsLaidLeast};
ghost use Rattle.move_goals.specs.Ready.{MayBeReady, AreReady};
ghost use Rattle.block_encoder.specs.ByPlan.{IsPlanAnswer};
ghost use Rattle.block_encoder.specs.Planned.{as_moving};
ghost use Rattle.block_encoder.specs.Written.{IsGoalAddress, IsFragmentOf, IsItemWritten, first_end_past};

use crate::ends::write_end;
use crate::error::PlanError;
use crate::image::write_image;
use crate::laws_below::laws_below;
use crate::moved::MovedBlocks;
use arrayvec::ArrayVec;
use branch_sizes::move_layout::{BlockEnd, Fragment, Layout};
use branch_sizes::{BlockSpan, Branch, Form, Goal, Plan};
use move_goals::moved_targets::laws::{
    without_target_all_is_reached, without_target_nothing_changes,
};
use move_goals::{Placed, ready_of};
use std::alloc::Global;
use x86_values::{Bits, Instr};

/// A goal as an address.
fn goal_address(goal: Goal, address: u128) -> u64
    requires { IsGoalAddress goal address }
    ensures { result ≡ address }
{
    match goal {
        Goal::None => 0,
        Goal::Inside(_) => address as u64,
        Goal::Outside(target) => target,
    }
}

/// Appends the bytes of item `k` in its fragment, or refuses it if it cannot reach its goal, which is this address.
#[inline(never)]
fn write_aimed(
    bits: Bits,
    k: usize,
    instr: &Instr,
    fragment: &Fragment,
    target: u64,
    bytes: &mut Vec<u8>,
) -> Result<(), PlanError>
    requires place { fragment.now.place < 2 ^ 64 }
    requires slot { fragment.now.slot < 2 ^ 64 }
    requires target { target ≡ fragment.now.goal }
    ensures { IsItemWritten bits instr.now fragment.now k bytes.old.items bytes.new.items result }
{
    if write_image(bits, instr, fragment, target, bytes)? {
        Ok(())
    } else {
        Err(PlanError::TooFar {
            at: k as u64,
            target,
        })
    }
}

/// Appends the bytes of item `k` in its fragment (its ready bytes, if it has some), or refuses it if it cannot reach its goal.
fn write_item(
    bits: Bits,
    k: usize,
    instr: &Instr,
    branch: &Branch,
    fragment: &Fragment,
    ready: &[u8],
    bytes: &mut Vec<u8>,
) -> Result<(), PlanError>
    requires fragment { IsFragmentOf branch.now fragment.now }
    requires ready { MayBeReady bits instr.now ready.now }
    ensures { IsItemWritten bits instr.now fragment.now k bytes.old.items bytes.new.items result }
{
    // Four operands, as the proof has to know.
    let [_first, _second, _third, _fourth] = instr.ops;
    let target = goal_address(branch.goal, fragment.goal);
    if !ready.is_empty() && matches!(fragment.form, Form::Itself) {
        without_target_nothing_changes();
        without_target_all_is_reached();
        bytes.extend_from_slice(ready)?;
        return Ok(());
    }
    write_aimed(bits, k, instr, fragment, target, bytes)
}

/// How many bytes of memory blocks take that end there.
fn byte_count(spans: &[BlockSpan], ends: &[BlockEnd]) -> usize {
    let mut count: usize = 0;
    for (span, end) in spans.iter().zip(ends.iter()) {
        let len = end.end.saturating_sub(u128::from(span.new_base));
        count = count.saturating_add(usize::try_from(len).unwrap_or(usize::MAX));
    }
    count
}

/// Writes blocks that are laid out.
pub(crate) fn write_blocks(
    alloc: Global,
    bits: Bits,
    items: &[Placed],
    plan: &Plan,
    laid: &Layout,
    ready: &[ArrayVec<u8, 15>],
) -> Result<MovedBlocks, PlanError>
    requires plan { length plan.now.items ≡ length items.now }
    requires ready { AreReady bits items.now ready.now }
    requires laid { IsLaidLeast plan.now laid.now }
    requires ends { first_end_past bits laid.now.ends.items ≡ None }
    ensures { IsPlanAnswer bits items.now plan.now (as_moving result) }
{
    laws_below();
    let spans = plan.spans();
    let branches = plan.items();
    let mut bytes = Vec::with_capacity(alloc, byte_count(spans, &laid.ends))?;
    let mut starts = Vec::with_capacity(alloc, items.len())?;
    let mut forms = Vec::with_capacity(alloc, items.len())?;
    let mut slots = Vec::with_capacity(alloc, laid.slots.len())?;
    let mut ends = Vec::with_capacity(alloc, spans.len())?;
    for b in 0..spans.len() {
        for _ in 0..spans[b].count {
            let k = starts.len();
            let fragment = &laid.fragments[k];
            let own = ready_of(ready, k);
            write_item(
                bits,
                k,
                &items[k].instr,
                &branches[k],
                fragment,
                own,
                &mut bytes,
            )?;
            starts.push(fragment.place as u64)?;
            forms.push(fragment.form)?;
        }
        let end = laid.ends[b];
        let first = slots.len();
        let goals = &laid.slots[first..first + end.slots];
        write_end(&end, goals, &mut bytes, &mut slots)?;
        ends.push(bytes.len() as u64)?;
    }
    Ok(MovedBlocks {
        bytes,
        starts,
        forms,
        slots,
        ends,
    })
}
