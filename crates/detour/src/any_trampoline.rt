//! The moved instructions, of the table and without a row, and the jump back.

ghost use Rattle.std.specs.Prelude.{◌≡◌, ◌-◌, ◌<◌, ◌≤◌, ◌++◌, None, take, map, length, IfOk};
ghost use Rattle.move_goals.specs.Plan as plan;
ghost use Rattle.block_encoder.specs.PushedCalls.Items.{items_if, items_in};
ghost use Rattle.code_items.specs.AnyItems.{AreAnySound};
ghost use Rattle.detour.specs.Reading.{IsTakenFit};
ghost use Rattle.detour.specs.Taken as taken_spec;
ghost use Rattle.detour.specs.Trampoline as lines_spec;
ghost use Rattle.detour.specs.AnyTaken.{outline as outline_of};
ghost use Rattle.detour.specs.AnyReading.{IsAnyTakenFit};
ghost use Rattle.detour.specs.AnyTrampoline as spec;
ghost use Rattle.detour.specs.AnyMade.{IsAnyLaidAnswer};

use crate::any_taken::AnyTaken;
use crate::jumps::jump_back;
use crate::laws_below::laws_below;
use crate::start::MoveRule;
use crate::taken::{Taken, first_end, moved_count};
use crate::trampoline::{block_items, follow_count, kept_goal, moved_goal, pushed_last};
use block_encoder::PlanError;
use block_encoder::pushed_calls::PushedCall;
use branch_sizes::Goal;
use code_items::{AnyItem, MovedAnyBlock, any_target, is_any_branch, move_any_block};
use move_goals::Placed;
use std::alloc::{AllocError, Global};
use x86_values::{Bits, wrap};

/// The moved instructions, and the jump back if control continues after them.
fn moved_and_back(
    bits: Bits,
    ip: u64,
    mut items: Vec<AnyItem>,
    outline: &Taken,
) -> Result<Vec<AnyItem>, AllocError>
    requires fit { IsTakenFit bits outline.now }
    requires lines { outline.now.items.items ≡ outline_of bits items.items }
    ensures { IfOk result (λ block. block.items ≡ spec.any_block_by None bits ip items.items) }
{
    items.truncate(moved_count(&outline.items));
    if first_end(&outline.items).is_none() {
        let back = wrap(bits, u128::from(ip) + outline.len as u128);
        items.push(AnyItem::Listed(jump_back(bits, back)))?;
    }
    Ok(items)
}

/// Some instructions, and behind them some of the table.
fn with_listed(before: Vec<AnyItem>, pieces: &[Placed]) -> Result<Vec<AnyItem>, AllocError>
    ensures { IfOk result (λ all. all.items ≡ before.items ++ map spec.listed pieces.now) }
{
    let mut all = before;
    'pieces: for k in 0..pieces.len() {
        all.push(AnyItem::Listed(pieces[k]))?;
    }
    Ok(all)
}

/// The instructions before the last taken one, and what does that one.
fn moved_and_call(mut items: Vec<AnyItem>, call: &PushedCall) -> Result<Vec<AnyItem>, AllocError>
    ensures { IfOk result (λ block. block.items ≡ take (length items.items - 1) items.items ++ map spec.listed (items_in call.now)) }
{
    items.truncate(items.len().saturating_sub(1));
    with_listed(items, call.items())
}

/// The instructions of the trampoline: the moved ones, and the jump back or what does the call at the end.
#[tactic(auto, unfolding(crate::specs::AnyTrampoline::any_block_items))]
fn any_block_items(
    rule: MoveRule,
    bits: Bits,
    ip: u64,
    items: Vec<AnyItem>,
    outline: &Taken,
    called: &Option<PushedCall>,
) -> Result<Vec<AnyItem>, AllocError>
    requires fit { IsTakenFit bits outline.now }
    requires lines { outline.now.items.items ≡ outline_of bits items.items }
    requires called { items_if called.now ≡ lines_spec.pushed_last rule bits outline.now.items.items }
    ensures { IfOk result (λ block. block.items ≡ spec.any_block_items rule bits ip items.items) }
{
    match called {
        None => moved_and_back(bits, ip, items, outline),
        Some(call) => moved_and_call(items, call),
    }
}

/// Whether what an instruction refers to stays, whatever lies there.
fn any_target_stays(rule: MoveRule, item: &AnyItem) -> bool
    ensures { result ≡ spec.any_target_stays rule item.now }
{
    rule.rip_stays && !is_any_branch(item)
}

/// The goal of instruction `k` of the trampoline, whose instructions have these lines.
fn any_goal_at(
    rule: MoveRule,
    bits: Bits,
    lines: &[Placed],
    items: &[AnyItem],
    count: usize,
    follow: usize,
    k: usize,
) -> Goal
    requires within { count ≤ length lines.now }
    requires few { length lines.now ≤ 65536 }
    requires item { k < length items.now }
    ensures { result ≡ spec.any_trampoline_goal rule bits lines.now items.now count follow k }
{
    let item = &items[k];
    let target = any_target(bits, item);
    if k < follow && !any_target_stays(rule, item) {
        moved_goal(rule.start, lines, count, target)
    } else {
        kept_goal(target)
    }
}

/// The goals of all of them.
fn any_goals(
    alloc: Global,
    rule: MoveRule,
    bits: Bits,
    lines: &[Placed],
    items: &[AnyItem],
    count: usize,
    follow: usize,
) -> Result<Vec<Goal>, AllocError>
    requires within { count ≤ length lines.now }
    requires few { length lines.now ≤ 65536 }
    ensures { IfOk result (λ goals. goals.items ≡ spec.any_trampoline_goals rule bits lines.now items.now count follow) }
{
    let mut goals = Vec::with_capacity(alloc, items.len())?;
    'items: for k in 0..items.len() {
        goals.push(any_goal_at(rule, bits, lines, items, count, follow, k))?;
    }
    Ok(goals)
}

/// What is taken, moved: its outline, and the block.
#[derive(Drop)]
pub(crate) struct AnyLaid {
    pub(crate) outline: Taken,
    pub(crate) moved: MovedAnyBlock,
}

/// The instructions of the trampoline at a place, with gap and slots.
pub(crate) fn lay_any_trampoline(
    alloc: Global,
    bits: Bits,
    ip: u64,
    taken: AnyTaken,
    place: u64,
    rule: MoveRule,
) -> Result<AnyLaid, PlanError>
    requires { IsAnyTakenFit bits taken }
    ensures { IsAnyLaidAnswer bits ip taken place rule result }
{
    laws_below();
    let AnyTaken { items, outline } = taken;
    let called = pushed_last(rule, bits, &outline);
    let lines = block_items(alloc, rule, bits, ip, &outline, &called)?;
    let count = moved_count(&outline.items);
    let follow = follow_count(rule, bits, ip, &outline, &called, &lines);
    let block = any_block_items(rule, bits, ip, items, &outline, &called)?;
    let goals = any_goals(alloc, rule, bits, &lines, &block, count, follow)?;
    match move_any_block(alloc, bits, &block, &goals, place) {
        Ok(moved) => Ok(AnyLaid { outline, moved }),
        Err(why) => Err(why),
    }
}
