//! The least closed layout, by growth from a worklist over running sums.

ghost use Rattle.std.specs.Prelude.{◌≡◌, ◌↔◌, ◌+◌, ◌<◌, ◌≤◌, ◌^◌, ℕ, List, IsTrue, IfOk, OnOk, IsSome, IsNone, All, length, slice_index, slice_index_or, EachIndex};
ghost use Rattle.branch_sizes.specs.Plan.{plan_of, IsWellFormed};
ghost use Rattle.branch_sizes.specs.Tables.{plan_in};
ghost use Rattle.branch_sizes.specs.Layout.{first_layout, place, ReachesGoal, IsItemClosed, IsLayout, IsClosed, IsLeast, AreUnclosed, ArePlaces, AreBlocks, AreStarts, AreLengths, GrowsTo, room};

use crate::layout::{
    LayoutError, LeastLayout, block_numbers, image_len, places, reaches, reaches_from_both,
};
use crate::plan::{BlockSpan, Branch, Choice, Goal};
use crate::sums::Sums;
use crate::suspects::Suspects;
use crate::tables::Tables;
use std::alloc::{AllocError, Global};

/// The first item of each block.
fn block_starts(
    alloc: Global,
    spans: &[BlockSpan],
    items: &[Branch],
) -> Result<Vec<u32>, AllocError>
    requires { IsWellFormed (plan_of spans.now items.now) }
    ensures { IfOk result (λ starts. AreStarts (plan_of spans.now items.now) starts.items) }
{
    let mut starts = Vec::with_capacity(alloc, spans.len())?;
    let mut start: u32 = 0;
    for span in spans {
        starts.push(start)?;
        start += span.count;
    }
    Ok(starts)
}

/// The new base of a block.
fn new_base(span: &BlockSpan) -> u128
    ensures value { result ≡ span.now.new_base }
    ensures small { result < 2 ^ 64 }
{
    u128::from(span.new_base)
}

/// The place of item `k` in the layout whose lengths the sums have.
fn place_now(tables: &Tables, layout: &[u8], sums: &Sums, k: usize) -> u128
    requires lengths { AreLengths (plan_in tables.now) layout.now sums.now }
    requires item { k < length tables.now.items.now }
    ensures place { result ≡ place (plan_in tables.now) layout.now k }
    ensures small { result < 2 ^ 66 }
{
    let block = tables.blocks[k] as usize;
    let start = tables.starts[block] as usize;
    let before = sums.before(k) - sums.before(start);
    new_base(&tables.spans[block]) + u128::from(before)
}

/// Returns whether a choice of item `k`, at `from`, reaches the goal, which is at `at` if it is an item. `first` of the tables has the places in the
/// layout of first choices.
fn reaches_goal_from(
    tables: &Tables,
    k: usize,
    choice: &Choice,
    goal: Goal,
    from: u128,
    at: u128,
) -> bool
    requires item { k < length tables.now.items.now }
    requires inside { (j : ℕ) → goal ≡ Goal.Inside j → j < length tables.now.items.now }
    requires from { from < 2 ^ 66 }
    requires at { at < 2 ^ 66 }
    ensures { (layout : List ℕ) → from ≡ place (plan_in tables.now) layout k → ((j : ℕ) → goal ≡ Goal.Inside j → at ≡ place (plan_in tables.now) layout j)
        → (IsTrue result ↔ ReachesGoal (plan_in tables.now) layout k choice.now goal) }
{
    match goal {
        Goal::None => true,
        Goal::Outside(t) => reaches_from_both(choice, from, tables.first[k], u128::from(t)),
        Goal::Inside(j) => {
            let j = j as usize;
            if tables.blocks[j] == tables.blocks[k] {
                reaches(choice.reach, choice.len, from, at)
            } else {
                reaches_from_both(choice, from, tables.first[k], at)
                    && reaches_from_both(choice, from, tables.first[k], tables.first[j])
            }
        }
    }
}

/// The place of a goal that is an item, 0 for every other goal, in the layout whose lengths the sums have.
fn goal_place_now(tables: &Tables, layout: &[u8], sums: &Sums, goal: Goal) -> u128
    requires lengths { AreLengths (plan_in tables.now) layout.now sums.now }
    requires inside { (j : ℕ) → goal ≡ Goal.Inside j → j < length tables.now.items.now }
    ensures place { (j : ℕ) → goal ≡ Goal.Inside j → result ≡ place (plan_in tables.now) layout.now j }
    ensures small { result < 2 ^ 66 }
{
    match goal {
        Goal::Inside(j) => place_now(tables, layout, sums, j as usize),
        Goal::None | Goal::Outside(_) => 0,
    }
}

/// Whether a choice of item `k` reaches the goal, in the layout whose lengths the sums have.
fn reaches_goal_now(
    tables: &Tables,
    layout: &[u8],
    sums: &Sums,
    k: usize,
    choice: &Choice,
    goal: Goal,
) -> bool
    requires lengths { AreLengths (plan_in tables.now) layout.now sums.now }
    requires item { k < length tables.now.items.now }
    requires inside { (j : ℕ) → goal ≡ Goal.Inside j → j < length tables.now.items.now }
    ensures { IsTrue result ↔ ReachesGoal (plan_in tables.now) layout.now k choice.now goal }
{
    let from = place_now(tables, layout, sums, k);
    let at = goal_place_now(tables, layout, sums, goal);
    reaches_goal_from(tables, k, choice, goal, from, at)
}

/// Whether item `k` has its last choice or reaches its goal, in the layout whose lengths the sums have.
fn is_item_closed_now(tables: &Tables, layout: &[u8], sums: &Sums, k: usize) -> bool
    requires layout { IsLayout (plan_in tables.now) layout.now }
    requires lengths { AreLengths (plan_in tables.now) layout.now sums.now }
    requires item { k < length tables.now.items.now }
    ensures { IsTrue result ↔ IsItemClosed (plan_in tables.now) layout.now k }
{
    let item = &tables.items[k];
    let f = usize::from(layout[k]);
    f + 1 == item.choices.len()
        || reaches_goal_now(tables, layout, sums, k, &item.choices[f], item.goal)
}

/// The place of a goal that is an item, 0 for every other goal, by the places of all items.
fn goal_place_in(places: &[u128], goal: Goal) -> u128
    requires inside { (j : ℕ) → goal ≡ Goal.Inside j → j < length places.now }
    requires below { EachIndex places.now (λ i. slice_index places.now i < 2 ^ 66) }
    ensures place { (j : ℕ) → goal ≡ Goal.Inside j → result ≡ slice_index_or places.now j 0 }
    ensures small { result < 2 ^ 66 }
{
    match goal {
        Goal::Inside(j) => places[j as usize],
        Goal::None | Goal::Outside(_) => 0,
    }
}

/// Whether a choice of item `k` reaches the goal, in the layout that has these places.
fn reaches_goal_in(
    tables: &Tables,
    layout: &[u8],
    places: &[u128],
    k: usize,
    choice: &Choice,
    goal: Goal,
) -> bool
    requires places { ArePlaces (plan_in tables.now) layout.now places.now }
    requires below { EachIndex places.now (λ i. slice_index places.now i < 2 ^ 66) }
    requires item { k < length tables.now.items.now }
    requires inside { (j : ℕ) → goal ≡ Goal.Inside j → j < length tables.now.items.now }
    ensures { IsTrue result ↔ ReachesGoal (plan_in tables.now) layout.now k choice.now goal }
{
    reaches_goal_from(
        tables,
        k,
        choice,
        goal,
        places[k],
        goal_place_in(places, goal),
    )
}

/// Whether item `k` has its last choice or reaches its goal, in the layout that has these places.
#[inline]
fn is_item_closed_in(tables: &Tables, layout: &[u8], places: &[u128], k: usize) -> bool
    requires layout { IsLayout (plan_in tables.now) layout.now }
    requires places { ArePlaces (plan_in tables.now) layout.now places.now }
    requires below { EachIndex places.now (λ i. slice_index places.now i < 2 ^ 66) }
    requires item { k < length tables.now.items.now }
    ensures { IsTrue result ↔ IsItemClosed (plan_in tables.now) layout.now k }
{
    let item = &tables.items[k];
    let f = usize::from(layout[k]);
    f + 1 == item.choices.len()
        || reaches_goal_in(tables, layout, places, k, &item.choices[f], item.goal)
}

/// The items that are not closed in the layout that has these places.
fn unclosed_items(
    alloc: Global,
    tables: &Tables,
    layout: &[u8],
    places: &[u128],
) -> Result<Vec<u32>, AllocError>
    requires layout { IsLayout (plan_in tables.now) layout.now }
    requires places { ArePlaces (plan_in tables.now) layout.now places.now }
    requires below { EachIndex places.now (λ i. slice_index places.now i < 2 ^ 66) }
    ensures unclosed { IfOk result (λ unclosed. AreUnclosed (plan_in tables.now) layout.now unclosed.items) }
    ensures closed { IfOk result (λ unclosed. length unclosed.items ≡ 0 → IsClosed (plan_in tables.now) layout.now) }
{
    let mut unclosed = Vec::new(alloc);
    'items: for k in 0..tables.items.len() {
        if !is_item_closed_in(tables, layout, places, k) {
            unclosed.push(k as u32)?;
        }
    }
    Ok(unclosed)
}

/// Lets item `k` grow if it is not closed, and says by how many bytes it did.
fn grow_item(tables: &Tables, layout: &mut [u8], sums: &mut Sums, k: usize) -> Option<u8>
    requires layout { IsLayout (plan_in tables.now) layout.old }
    requires lengths { AreLengths (plan_in tables.now) layout.old sums.old }
    requires item { k < length tables.now.items.now }
    ensures lengths { AreLengths (plan_in tables.now) layout.new sums.new }
    ensures grows { GrowsTo (plan_in tables.now) layout.old layout.new }
    ensures less { IsSome result → room (plan_in tables.now) layout.new < room (plan_in tables.now) layout.old }
    ensures closed { IsNone result → (layout.new ≡ layout.old) × IsItemClosed (plan_in tables.now) layout.old k }
{
    if is_item_closed_now(tables, layout, sums, k) {
        return None;
    }
    let item = &tables.items[k];
    let f = layout[k];
    let by = image_len(item, f + 1) - image_len(item, f);
    layout[k] = f + 1;
    sums.grow(k, by);
    Some(by)
}

/// Lets item `k` grow if it is not closed, with a note of what that may drive apart, and says whether it did.
fn grow_and_note(
    tables: &Tables,
    layout: &mut [u8],
    sums: &mut Sums,
    suspects: &mut Suspects,
    k: usize,
) -> Result<bool, AllocError>
    requires layout { IsLayout (plan_in tables.now) layout.old }
    requires lengths { AreLengths (plan_in tables.now) layout.old sums.old }
    ensures few { length suspects.new.queue.items ≤ length suspects.old.queue.items + 300 }
    ensures lengths { AreLengths (plan_in tables.now) layout.new sums.new }
    ensures grows { GrowsTo (plan_in tables.now) layout.old layout.new }
    ensures less { IfOk result (λ grew. IsTrue grew → room (plan_in tables.now) layout.new < room (plan_in tables.now) layout.old) }
    ensures closed { IfOk result (λ grew. (IsTrue grew → ⊥) → k < length tables.now.items.now → (layout.new ≡ layout.old) × IsItemClosed (plan_in tables.now) layout.old k) }
    ensures idle { IfOk result (λ grew. (IsTrue grew → ⊥) → suspects.new.queue ≡ suspects.old.queue) }
{
    if k >= tables.items.len() {
        return Ok(false);
    }
    match grow_item(tables, layout, sums, k) {
        None => Ok(false),
        Some(by) => {
            suspects.note(tables, layout, k, by)?;
            Ok(true)
        }
    }
}

/// Lets the suspects grow that are not closed, and those that this makes suspects, until none is left.
fn settle(
    tables: &Tables,
    layout: &mut [u8],
    sums: &mut Sums,
    suspects: &mut Suspects,
) -> Result<(), AllocError>
    requires layout { IsLayout (plan_in tables.now) layout.old }
    requires lengths { AreLengths (plan_in tables.now) layout.old sums.old }
    ensures lengths { AreLengths (plan_in tables.now) layout.new sums.new }
    ensures grows { GrowsTo (plan_in tables.now) layout.old layout.new }
{
    'suspects: loop {
        'queue: while let Some(k) = suspects.pop() {
            grow_and_note(tables, layout, sums, suspects, k)?;
        }
        let Some(k) = suspects.over_limit() else {
            break
        };
        if !grow_and_note(tables, layout, sums, suspects, k)? {
            break;
        }
    }
    Ok(())
}

/// Grows each of the unclosed items that is not closed when its turn comes, and adds the items that this drives apart. The first one grows.
fn grow_unclosed(
    tables: &Tables,
    layout: &mut [u8],
    sums: &mut Sums,
    suspects: &mut Suspects,
    unclosed: &[u32],
) -> Result<(), AllocError>
    requires layout { IsLayout (plan_in tables.now) layout.old }
    requires lengths { AreLengths (plan_in tables.now) layout.old sums.old }
    requires unclosed { AreUnclosed (plan_in tables.now) layout.old unclosed.now }
    requires some { 0 < length unclosed.now }
    ensures lengths { OnOk result (AreLengths (plan_in tables.now) layout.new sums.new) }
    ensures grows { OnOk result (GrowsTo (plan_in tables.now) layout.old layout.new) }
    ensures less { OnOk result (room (plan_in tables.now) layout.new < room (plan_in tables.now) layout.old) }
{
    'turns: for n in 0..unclosed.len() {
        if grow_and_note(tables, layout, sums, suspects, unclosed[n] as usize)? {
            settle(tables, layout, sums, suspects)?;
        }
    }
    Ok(())
}

/// The lengths of the first choices.
fn first_lengths(
    alloc: Global,
    spans: &[BlockSpan],
    items: &[Branch],
) -> Result<Vec<u8>, AllocError>
    requires { IsWellFormed (plan_of spans.now items.now) }
    ensures lengths { IfOk result (λ lens. AreLengths (plan_of spans.now items.now) (first_layout (plan_of spans.now items.now)) lens.items) }
    ensures fit { IfOk result (λ lens. All (λ n. (1 ≤ n) × (n ≤ 15)) lens.items) }
{
    let mut lens = Vec::with_capacity(alloc, items.len())?;
    'lengths: for k in 0..items.len() {
        lens.push(image_len(&items[k], 0))?;
    }
    Ok(lens)
}

/// The running sums of the lengths of the first choices.
fn first_sums(alloc: Global, tables: &Tables) -> Result<Sums, LayoutError>
    ensures { IfOk result (λ sums. AreLengths (plan_in tables.now) (first_layout (plan_in tables.now)) sums) }
{
    let lengths = first_lengths(alloc, tables.spans, tables.items)?;
    Sums::make(alloc, &lengths)
}

/// Lets what is not closed grow until all is, and gives the places of the images then.
fn grow_until_closed(
    alloc: Global,
    tables: &Tables,
    layout: &mut [u8],
    sums: &mut Sums,
    suspects: &mut Suspects,
) -> Result<Vec<u128>, AllocError>
    requires layout { layout.old ≡ first_layout (plan_in tables.now) }
    requires lengths { AreLengths (plan_in tables.now) layout.old sums.old }
    ensures least { OnOk result (IsLeast (plan_in tables.now) layout.new) }
    ensures places { IfOk result (λ places. ArePlaces (plan_in tables.now) layout.new places.items) }
    ensures below { IfOk result (λ places. EachIndex places.items (λ k. slice_index places.items k < 2 ^ 66)) }
{
    let mut now = Vec::from_slice(alloc, tables.first)?;
    'passes: loop {
        let unclosed = unclosed_items(alloc, tables, layout, &now)?;
        if unclosed.is_empty() {
            break;
        }
        grow_unclosed(tables, layout, sums, suspects, &unclosed)?;
        now = places(alloc, tables.spans, tables.items, layout)?;
    }
    Ok(now)
}

/// The least closed layout of the plan of some tables.
fn least_of(alloc: Global, tables: &Tables) -> Result<LeastLayout, LayoutError>
    ensures least { IfOk result (λ least. IsLeast (plan_in tables.now) least.choices.items) }
    ensures places { IfOk result (λ least. ArePlaces (plan_in tables.now) least.choices.items least.places.items) }
    ensures below { IfOk result (λ least. EachIndex least.places.items (λ k. slice_index least.places.items k < 2 ^ 66)) }
{
    let mut choices = vec![in alloc; 0u8; tables.items.len()]?;
    let mut sums = first_sums(alloc, tables)?;
    let mut suspects = Suspects::make(alloc, tables, &choices)?;
    let places = grow_until_closed(alloc, tables, &mut choices, &mut sums, &mut suspects)?;
    Ok(LeastLayout { choices, places })
}

/// The places of the first choices.
fn first_places(
    alloc: Global,
    spans: &[BlockSpan],
    items: &[Branch],
) -> Result<Vec<u128>, AllocError>
    requires { IsWellFormed (plan_of spans.now items.now) }
    ensures places { IfOk result (λ places. ArePlaces (plan_of spans.now items.now) (first_layout (plan_of spans.now items.now)) places.items) }
    ensures below { IfOk result (λ places. EachIndex places.items (λ k. slice_index places.items k < 2 ^ 66)) }
{
    let layout = vec![in alloc; 0u8; items.len()]?;
    places(alloc, spans, items, &layout)
}

/// The least closed layout: from the first choices on, what is not closed grows until all is.
pub(crate) fn grown_from_first(
    alloc: Global,
    spans: &[BlockSpan],
    items: &[Branch],
) -> Result<LeastLayout, LayoutError>
    requires { IsWellFormed (plan_of spans.now items.now) }
    ensures least { IfOk result (λ least. IsLeast (plan_of spans.now items.now) least.choices.items) }
    ensures places { IfOk result (λ least. ArePlaces (plan_of spans.now items.now) least.choices.items least.places.items) }
    ensures below { IfOk result (λ least. EachIndex least.places.items (λ k. slice_index least.places.items k < 2 ^ 66)) }
{
    let blocks = block_numbers(alloc, spans, items)?;
    let starts = block_starts(alloc, spans, items)?;
    let first = first_places(alloc, spans, items)?;
    let tables = Tables {
        spans,
        items,
        blocks: &blocks,
        starts: &starts,
        first: &first,
    };
    least_of(alloc, &tables)
}
