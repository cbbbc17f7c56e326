//! The moved instructions and the jump back.

ghost use Rattle.std.specs.Prelude.{◌≡◌, ◌-◌, ◌<◌, ◌≤◌, ◌++◌, None, take, length, IfOk, IfSome};
ghost use Rattle.move_goals.specs.Items.{ArePlaced, first_below};
ghost use Rattle.move_goals.specs.Goals.{begins_at};
ghost use Rattle.move_goals.specs.Plan.{branch_with};
ghost use Rattle.move_goals.specs.Plan as plan;
ghost use Rattle.block_encoder.specs.ByPlan.{IsPlanAnswer};
ghost use Rattle.block_encoder.specs.Planned.{as_moving};
ghost use Rattle.block_encoder.specs.PushedCalls.Items.{items_if, items_in};
ghost use Rattle.detour.specs.Reading.{IsTakenFit};
ghost use Rattle.detour.specs.Trampoline as spec;

use crate::jumps::jump_back;
use crate::laws_below::laws_below;
use crate::start::{MoveRule, StartTarget};
use crate::taken::{Taken, first_end, moved_count};
use block_encoder::pushed_calls::{PushedCall, pushed_call};
use block_encoder::{MovedBlocks, PlanError, move_planned};
use branch_sizes::{Branch, Goal, Plan};
use move_goals::Placed;
use move_goals::branch_forms::choices_of;
use move_goals::moved_targets::target_of;
use operand_info::near_target;
use std::alloc::{AllocError, Global};
use x86_values::{Bits, Instr, wrap};

/// Returns what does a call that is the last taken instruction, if the rule asks for that and control continues after all of them.
#[tactic(auto, unfolding(crate::specs::Trampoline::pushed_last))]
pub(crate) fn pushed_last(rule: MoveRule, bits: Bits, taken: &Taken) -> Option<PushedCall>
    requires { IsTakenFit bits taken.now }
    ensures value { items_if result ≡ spec.pushed_last rule bits taken.now.items.items }
    ensures placed { IfSome result (λ call. ArePlaced bits (items_in call)) }
{
    if !rule.returns {
        return None;
    }
    match first_end(&taken.items) {
        Some(_) => None,
        None => match taken.items.get(taken.items.len().saturating_sub(1)) {
            None => None,
            Some(item) => pushed_call(bits, item),
        },
    }
}

/// Returns whether there is a jump back: control continues after the taken instructions, and no call has left.
pub(crate) fn goes_back(rule: MoveRule, bits: Bits, taken: &Taken) -> bool
    requires { IsTakenFit bits taken.now }
    ensures { result ≡ spec.goes_back rule bits taken.now.items.items }
{
    match first_end(&taken.items) {
        Some(_) => false,
        None => match pushed_last(rule, bits, taken) {
            Some(_) => false,
            None => true,
        },
    }
}

/// Returns the moved instructions, and the jump back if control continues after them.
fn items_and_back(
    alloc: Global,
    bits: Bits,
    ip: u64,
    taken: &Taken,
) -> Result<Vec<Placed>, AllocError>
    requires { IsTakenFit bits taken.now }
    ensures { IfOk result (λ items. items.items ≡ spec.block_by None bits ip taken.now.items.items) }
{
    let count = moved_count(&taken.items);
    let mut items = Vec::with_capacity(alloc, count + 1)?;
    items.extend_from_slice(&taken.items[..count])?;
    if first_end(&taken.items).is_none() {
        let back = wrap(bits, u128::from(ip) + taken.len as u128);
        items.push(jump_back(bits, back))?;
    }
    Ok(items)
}

/// Returns the instructions before the last taken one, and what does that one.
fn items_and_call(
    alloc: Global,
    taken: &Taken,
    call: &PushedCall,
) -> Result<Vec<Placed>, AllocError>
    ensures { IfOk result (λ items. items.items ≡ take (length taken.now.items.items - 1) taken.now.items.items ++ items_in call.now) }
{
    let before = taken.items.len().saturating_sub(1);
    let mut items = Vec::new(alloc);
    items.extend_from_slice(&taken.items[..before])?;
    items.extend_from_slice(call.items())?;
    Ok(items)
}

/// Returns the instructions of the trampoline: the moved ones, and the jump back or what does the call at the end.
#[tactic(auto, unfolding(crate::specs::Trampoline::block_items))]
pub(crate) fn block_items(
    alloc: Global,
    rule: MoveRule,
    bits: Bits,
    ip: u64,
    taken: &Taken,
    called: &Option<PushedCall>,
) -> Result<Vec<Placed>, AllocError>
    requires fit { IsTakenFit bits taken.now }
    requires called { items_if called.now ≡ spec.pushed_last rule bits taken.now.items.items }
    ensures { IfOk result (λ items. items.items ≡ spec.block_items rule bits ip taken.now.items.items) }
{
    match called {
        None => items_and_back(alloc, bits, ip, taken),
        Some(call) => items_and_call(alloc, taken, call),
    }
}

/// Returns how many of the first instructions of the trampoline may go to moved ones: all but the jump back.
pub(crate) fn follow_count(
    rule: MoveRule,
    bits: Bits,
    ip: u64,
    taken: &Taken,
    called: &Option<PushedCall>,
    items: &[Placed],
) -> usize
    requires fit { IsTakenFit bits taken.now }
    requires called { items_if called.now ≡ spec.pushed_last rule bits taken.now.items.items }
    requires items { items.now ≡ spec.block_items rule bits ip taken.now.items.items }
    ensures { result ≡ spec.follow_count rule bits ip taken.now.items.items }
{
    match called {
        None => moved_count(&taken.items),
        Some(_) => items.len(),
    }
}

/// The first of `count` instructions that began at an address.
fn item_at(items: &[Placed], count: usize, target: u64) -> Option<usize>
    requires { count ≤ length items.now }
    ensures value { result ≡ first_below (begins_at items.now target) count }
    ensures within { IfSome result (λ k. k < count) }
{
    laws_below();
    'items: for k in 0..count {
        if items[k].ip == target {
            return Some(k);
        }
    }
    None
}

/// The goal of the function's own start.
fn start_goal(start: StartTarget, target: u64) -> Goal
    ensures { result ≡ spec.start_goal start target }
{
    match start {
        StartTarget::Moved => Goal::Inside(0),
        StartTarget::Hooked => Goal::Outside(target),
    }
}

/// The goal of a target of a moved instruction.
fn goal_of_target(start: StartTarget, items: &[Placed], count: usize, target: u64) -> Goal
    requires within { count ≤ length items.now }
    requires few { length items.now ≤ 65536 }
    ensures { result ≡ spec.trampoline_goal start items.now count target }
{
    match item_at(items, count, target) {
        None => Goal::Outside(target),
        Some(0) => start_goal(start, target),
        Some(k) => Goal::Inside(k as u32),
    }
}

/// The goal of a moved instruction, by its target.
pub(crate) fn moved_goal(
    start: StartTarget,
    items: &[Placed],
    count: usize,
    target: Option<u64>,
) -> Goal
    requires within { count ≤ length items.now }
    requires few { length items.now ≤ 65536 }
    ensures { result ≡ spec.moved_goal start items.now count target }
{
    match target {
        None => Goal::None,
        Some(target) => goal_of_target(start, items, count, target),
    }
}

/// The goal of an instruction whose target stays.
pub(crate) fn kept_goal(target: Option<u64>) -> Goal
    ensures { result ≡ plan.kept_goal target }
{
    match target {
        None => Goal::None,
        Some(target) => Goal::Outside(target),
    }
}

/// Returns whether the target of an instruction stays, whatever lies there: addresses at RIP and EIP stay, and it is no near branch.
fn target_stays(rule: MoveRule, instr: &Instr) -> bool
    ensures { result ≡ spec.target_stays rule instr.now }
{
    rule.rip_stays && near_target(instr).is_none()
}

/// Returns the goal of instruction `k` of the trampoline. The first `count` of its instructions stand for moved ones, and the first `follow` may go to
/// these.
fn goal_at(rule: MoveRule, items: &[Placed], count: usize, follow: usize, k: usize) -> Goal
    requires within { count ≤ length items.now }
    requires few { length items.now ≤ 65536 }
    requires item { k < length items.now }
    ensures { result ≡ spec.trampoline_goal_at rule items.now count follow k }
{
    let instr = &items[k].instr;
    let target = target_of(instr);
    if k < follow && !target_stays(rule, instr) {
        moved_goal(rule.start, items, count, target)
    } else {
        kept_goal(target)
    }
}

/// Item `k` of the plan of the trampoline.
fn branch_at(
    bits: Bits,
    items: &[Placed],
    count: usize,
    follow: usize,
    rule: MoveRule,
    k: usize,
) -> Branch
    requires within { count ≤ length items.now }
    requires few { length items.now ≤ 65536 }
    requires item { k < length items.now }
    ensures { result ≡ branch_with bits items.now (spec.trampoline_goal_at rule items.now count follow) k }
{
    let goal = goal_at(rule, items, count, follow, k);
    Branch {
        choices: choices_of(bits, &items[k].instr),
        goal,
    }
}

/// The plan of the trampoline.
fn plan_at(
    alloc: Global,
    bits: Bits,
    items: &[Placed],
    count: usize,
    follow: usize,
    place: u64,
    rule: MoveRule,
) -> Result<Plan, AllocError>
    requires within { count ≤ length items.now }
    requires few { length items.now ≤ 65536 }
    requires placed { ArePlaced bits items.now }
    ensures { IfOk result (λ plan. plan ≡ spec.plan_at bits items.now count follow place rule) }
{
    laws_below();
    let mut branches = Vec::with_capacity(alloc, items.len())?;
    'items: for k in 0..items.len() {
        branches.push(branch_at(bits, items, count, follow, rule, k))?;
    }
    Ok(Plan::new(place, branches))
}

/// The instructions of the trampoline at a place, with gap and slots.
pub(crate) fn lay_trampoline(
    alloc: Global,
    bits: Bits,
    ip: u64,
    taken: &Taken,
    place: u64,
    rule: MoveRule,
) -> Result<MovedBlocks, PlanError>
    requires { IsTakenFit bits taken.now }
    ensures answer { IsPlanAnswer bits (spec.block_items rule bits ip taken.now.items.items)
        (spec.trampoline_plan bits ip taken.now.items.items place rule) (as_moving result) }
    ensures placed { IfOk result (λ _. ArePlaced bits (spec.block_items rule bits ip taken.now.items.items)) }
{
    laws_below();
    let called = pushed_last(rule, bits, taken);
    let items = block_items(alloc, rule, bits, ip, taken, &called)?;
    let count = moved_count(&taken.items);
    let follow = follow_count(rule, bits, ip, taken, &called, &items);
    let plan = plan_at(alloc, bits, &items, count, follow, place, rule)?;
    move_planned(alloc, bits, &items, &plan)
}
