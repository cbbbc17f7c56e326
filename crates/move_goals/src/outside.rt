//! The plan of a block from which every target stays.

ghost use Rattle.std.specs.Prelude.{◌≡◌, ◌<◌, ◌≤◌, IfOk, length};
ghost use Rattle.move_goals.specs.Items.{ArePlaced};
ghost use Rattle.move_goals.specs.Plan as spec;

use crate::branch_forms::choices_of;
use crate::items::Placed;
use crate::moved_targets::target_of;
use branch_sizes::{Branch, Goal, Plan};
use std::alloc::{AllocError, Global};
use x86_values::Bits;

/// The goal of a target that stays.
fn kept_goal(target: Option<u64>) -> Goal
    ensures { result ≡ spec.kept_goal target }
{
    match target {
        None => Goal::None,
        Some(t) => Goal::Outside(t),
    }
}

/// The forms of item `k`, and its own target as its goal.
fn kept_branch(bits: Bits, items: &[Placed], k: usize) -> Branch
    requires { k < length items.now }
    ensures { result ≡ spec.branch_with bits items.now (spec.kept_goals items.now) k }
{
    let instr = &items[k].instr;
    Branch {
        choices: choices_of(bits, instr),
        goal: kept_goal(target_of(instr)),
    }
}

/// Returns the plan of one block at an address in which every target stays: for each item its possible forms, and its own target as the goal. It
/// takes at most 65,536 items.
pub fn plan_outside(
    alloc: Global,
    bits: Bits,
    items: &[Placed],
    new_base: u64,
) -> Result<Plan, AllocError>
    requires few { length items.now ≤ 65536 }
    requires placed { ArePlaced bits items.now }
    ensures { IfOk result (λ plan. plan ≡ spec.plan_outside bits items.now new_base) }
{
    crate::branch_forms::laws::forms_are_fit();
    let mut branches = Vec::with_capacity(alloc, items.len())?;
    'items: for k in 0..items.len() {
        branches.push(kept_branch(bits, items, k))?;
    }
    Ok(Plan::new(new_base, branches))
}
