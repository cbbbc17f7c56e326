//! The plan by which instructions are moved of which some have no row.

ghost use Rattle.std.specs.Prelude.{◌≡◌, ◌<◌, ◌≤◌, length, IfOk};
ghost use Rattle.unlisted.specs.Measured as measured;
ghost use Rattle.code_items.specs.AnyItems as items;
ghost use Rattle.code_items.specs.AnyItems.{AnyAscend, AreAnySound};
ghost use Rattle.code_items.specs.AnyPlan as spec;
ghost use Rattle.code_items.specs.AnyPlan.{AreAnyGoals};

use crate::any_items::{AnyItem, item_ip};
use crate::any_laws_below::laws_below;
use arrayvec::ArrayVec;
use branch_sizes::{Branch, Choice, Form, Goal, Plan, Reach};
use move_goals::branch_forms::choices_of;
use move_goals::moved_targets::target_of;
use operand_info::near_target;
use std::alloc::{AllocError, Global};
use unlisted::{Reference, Relative, Shape, target};
use x86_values::Bits;

/// Returns the address that an instruction refers to, if there is one: of a near branch its target, of an operand at RIP or EIP its address, and of an
/// instruction without a row what its relative number refers to.
#[tactic(auto, unfolding(crate::specs::AnyPlan::any_target))]
pub fn any_target(bits: Bits, item: &AnyItem) -> Option<u64>
    ensures { result ≡ spec.any_target bits item.now }
{
    match item {
        AnyItem::Listed(placed) => target_of(&placed.instr),
        AnyItem::Unlisted(own) => target(bits, own.ip, &own.shape),
    }
}

/// Whether a number refers to where a branch goes.
fn refers_to_branch(relative: Option<Relative>) -> bool
    ensures { result ≡ spec.refers_to_branch relative }
{
    match relative {
        None => false,
        Some(relative) => match relative.to {
            Reference::Rip => false,
            Reference::Eip => false,
            Reference::Branch => true,
        },
    }
}

/// Returns whether an instruction is a near branch or call, or XBEGIN: then what it refers to is where control goes. All others refer to memory.
pub fn is_any_branch(item: &AnyItem) -> bool
    ensures { result ≡ spec.is_any_branch item.now }
{
    match item {
        AnyItem::Listed(placed) => near_target(&placed.instr).is_some(),
        AnyItem::Unlisted(own) => refers_to_branch(own.shape.relative),
    }
}

/// The instruction that began at an address.
fn first_at(items: &[AnyItem], target: u64) -> Option<u32>
    requires few { length items.now ≤ 65536 }
    requires ascend { AnyAscend items.now }
    ensures { result ≡ spec.first_at items.now target }
{
    laws_below();
    let mut low = 0;
    let mut high = items.len();
    'halves: while low < high {
        let middle = low + (high - low) / 2;
        let start = item_ip(&items[middle]);
        if start == target {
            return Some(middle as u32);
        }
        if start < target {
            low = middle + 1;
        } else {
            high = middle;
        }
    }
    None
}

/// Where a target goes.
fn any_goal(items: &[AnyItem], target: Option<u64>) -> Goal
    requires few { length items.now ≤ 65536 }
    requires ascend { AnyAscend items.now }
    ensures { result ≡ spec.any_goal items.now target }
{
    match target {
        None => Goal::None,
        Some(target) => match first_at(items, target) {
            Some(j) => Goal::Inside(j),
            None => Goal::Outside(target),
        },
    }
}

/// What a number reaches.
#[tactic(auto, unfolding(crate::specs::AnyPlan::reference_reach))]
fn reference_reach(bits: Bits, to: Reference) -> Reach
    ensures { result ≡ spec.reference_reach bits to }
{
    match to {
        Reference::Rip => Reach::Signed32,
        Reference::Eip => Reach::Below(32),
        Reference::Branch => match bits {
            Bits::B64 => Reach::Signed32,
            Bits::B16 | Bits::B32 => Reach::Always,
        },
    }
}

/// What the number of an instruction reaches.
fn number_reach(bits: Bits, relative: Option<Relative>) -> Reach
    ensures { result ≡ spec.number_reach bits relative }
{
    match relative {
        None => Reach::Always,
        Some(relative) => reference_reach(bits, relative.to),
    }
}

/// The one form of an instruction without a row.
fn unlisted_choice(bits: Bits, shape: &Shape) -> Choice
    ensures { result ≡ spec.unlisted_choice bits shape.now }
{
    Choice {
        form: Form::Near,
        len: shape.len,
        reach: number_reach(bits, shape.relative),
    }
}

/// Returns the forms that an instruction may take when it is moved: one without a row has one, with its own length.
pub fn any_choices(bits: Bits, item: &AnyItem) -> ArrayVec<Choice, 3>
    ensures { result.items ≡ spec.any_choices bits item.now }
{
    match item {
        AnyItem::Listed(placed) => choices_of(bits, &placed.instr),
        AnyItem::Unlisted(own) => {
            let mut choices = ArrayVec::new();
            choices.push(unlisted_choice(bits, &own.shape));
            choices
        }
    }
}

/// The forms and the goal of instruction `k`.
fn any_branch_at(bits: Bits, items: &[AnyItem], k: usize) -> Branch
    requires few { length items.now ≤ 65536 }
    requires ascend { AnyAscend items.now }
    requires item { k < length items.now }
    ensures { result ≡ spec.any_branch_at bits items.now k }
{
    let item = &items[k];
    let choices = any_choices(bits, item);
    let goal = any_goal(items, any_target(bits, item));
    Branch { choices, goal }
}

/// The plan of one block at an address.
pub(crate) fn any_plan(
    alloc: Global,
    bits: Bits,
    items: &[AnyItem],
    new: u64,
) -> Result<Plan, AllocError>
    requires few { length items.now ≤ 65536 }
    requires ascend { AnyAscend items.now }
    requires sound { AreAnySound bits items.now }
    ensures { IfOk result (λ plan. plan ≡ spec.any_plan bits items.now new) }
{
    laws_below();
    let mut branches = Vec::with_capacity(alloc, items.len())?;
    'items: for k in 0..items.len() {
        branches.push(any_branch_at(bits, items, k))?;
    }
    Ok(Plan::new(new, branches))
}

/// The forms of instruction `k`, and a goal.
fn any_branch_with(bits: Bits, items: &[AnyItem], goals: &[Goal], k: usize) -> Branch
    requires item { k < length items.now }
    requires goal { k < length goals.now }
    ensures { result ≡ spec.any_branch_with bits items.now (spec.goal_in goals.now) k }
{
    Branch {
        choices: any_choices(bits, &items[k]),
        goal: goals[k],
    }
}

/// The plan of one block at an address, of instructions that have these goals.
pub(crate) fn any_plan_with(
    alloc: Global,
    bits: Bits,
    items: &[AnyItem],
    goals: &[Goal],
    new: u64,
) -> Result<Plan, AllocError>
    requires few { length items.now ≤ 65536 }
    requires sound { AreAnySound bits items.now }
    requires goals { AreAnyGoals bits items.now goals.now }
    ensures { IfOk result (λ plan. plan ≡ spec.any_plan_with bits items.now (spec.goal_in goals.now) new) }
{
    laws_below();
    let mut branches = Vec::with_capacity(alloc, items.len())?;
    'items: for k in 0..items.len() {
        branches.push(any_branch_with(bits, items, goals, k))?;
    }
    Ok(Plan::new(new, branches))
}
