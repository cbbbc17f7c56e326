//! The place of everything in the least layout.

ghost use Rattle.std.specs.Prelude.{◌≡◌, ◌++◌, ◌+◌, ◌<◌, ◌^◌, IfOk, OnOk, length};
ghost use Rattle.branch_sizes.specs.Layout.{first_of_block};
ghost use Rattle.branch_sizes.specs.MoveLayout.Laid as spec;
ghost use Rattle.branch_sizes.specs.MoveLayout.Slots.{fragment_over, IsNumbering};
ghost use Rattle.branch_sizes.specs.MoveLayout.Tables.{plan_in, AreFragments, AreEnds};

use crate::move_layout::places::{choice_of, goal_of, images_end_of};
use crate::move_layout::slots::{block_end, is_far_form, next_multiple_of_8, slot_number};
use crate::move_layout::tables::Tables;
use crate::{Form, LayoutError, Plan, Reach, least_choices};
use std::alloc::{AllocError, Global};
use std::collections::BTreeMap;

/// A piece of moved code as an assembler lays it out: the place of an item, and its goal. Addresses are whole numbers and do not wrap.
#[derive(Clone, Copy, PartialEq, Eq, Debug)]
pub struct Fragment {
    /// The form that it takes.
    pub form: Form,
    /// The bytes of its image.
    pub len: u8,
    /// What that form reaches.
    pub reach: Reach,
    /// The address of its image.
    pub place: u128,
    /// The address of its goal, 0 without one.
    pub goal: u128,
    /// The address of the slot that a far form goes through, 0 for every other form.
    pub slot: u128,
}

/// The end of a block.
#[derive(Clone, Copy, PartialEq, Eq, Debug)]
pub struct BlockEnd {
    /// The address after its images.
    pub images: u128,
    /// How many slots it has.
    pub slots: usize,
    /// The address after the block with its gap and its slots.
    pub end: u128,
}

/// A layout: the place of each item, the end of each block, and the goals in the slots of all blocks in order.
#[derive(Drop)]
pub struct Layout {
    pub fragments: Vec<Fragment>,
    pub ends: Vec<BlockEnd>,
    pub slots: Vec<u128>,
}

/// Returns where item `k` lies in a block whose slots begin at `start`. `goals` are the goals in the slots of the items before it, and `numbers`
/// their numbers. A new far goal is added to both.
fn fragment_of(
    tables: &Tables,
    k: usize,
    start: u128,
    numbers: &mut BTreeMap<u128, usize>,
    goals: &mut Vec<u128>,
) -> Result<Fragment, AllocError>
    requires item { k < length tables.now.items.now }
    requires start { start < 2 ^ 68 }
    requires numbering { IsNumbering numbers.old goals.old.items }
    ensures fragment { IfOk result (λ fragment. fragment ≡ fragment_over (plan_in tables.now) tables.now.layout.now k start goals.new.items) }
    ensures goals { OnOk result (goals.new.items ≡ spec.with_goal goals.old.items (spec.is_far_at (plan_in tables.now) tables.now.layout.now k) (spec.goal_address (plan_in tables.now) tables.now.layout.now k)) }
    ensures numbering { OnOk result (IsNumbering numbers.new goals.new.items) }
{
    let choice = choice_of(tables, k);
    let goal = goal_of(tables, k);
    let slot = if is_far_form(choice.form) {
        start + 8 * slot_number(numbers, goals, goal)? as u128
    } else {
        0
    };
    Ok(Fragment {
        form: choice.form,
        len: choice.len,
        reach: choice.reach,
        place: tables.places[k],
        goal,
        slot,
    })
}

/// Lays out block `b` after the blocks before it: adds its items to `fragments` and its slots to `slots`, and returns where it ends.
fn lay_block(
    alloc: Global,
    tables: &Tables,
    b: usize,
    fragments: &mut Vec<Fragment>,
    slots: &mut Vec<u128>,
) -> Result<BlockEnd, AllocError>
    requires block { b < length tables.now.spans.now }
    requires fragments { AreFragments (plan_in tables.now) tables.now.layout.now (first_of_block tables.now.spans.now b) fragments.old.items }
    ensures fragments { OnOk result (AreFragments (plan_in tables.now) tables.now.layout.now (first_of_block tables.now.spans.now (b + 1)) fragments.new.items) }
    ensures slots { OnOk result (slots.new.items ≡ slots.old.items ++ spec.slots_of (plan_in tables.now) tables.now.layout.now b) }
    ensures end { IfOk result (λ end. end ≡ spec.end_at (plan_in tables.now) tables.now.layout.now b) }
{
    crate::laws::blocks_have_all_items();
    crate::laws::totals_rise();
    let images = images_end_of(tables, b, fragments.len());
    let start = next_multiple_of_8(images);
    let mut goals = Vec::new(alloc);
    let mut numbers = BTreeMap::new(alloc);
    'items: for _ in 0..tables.spans[b].count {
        let fragment = fragment_of(tables, fragments.len(), start, &mut numbers, &mut goals)?;
        fragments.push(fragment)?;
    }
    slots.extend_from_slice(&goals)?;
    let count = goals.len();
    Ok(BlockEnd {
        images,
        slots: count,
        end: block_end(images, start, count),
    })
}

/// Lays out all blocks.
fn lay_blocks(alloc: Global, tables: &Tables) -> Result<Layout, AllocError>
    ensures { IfOk result (λ laid. spec.IsLaid (plan_in tables.now) tables.now.layout.now laid) }
{
    crate::laws::blocks_have_all_items();
    let mut fragments = Vec::with_capacity(alloc, tables.items.len())?;
    let mut ends = Vec::with_capacity(alloc, tables.spans.len())?;
    let mut slots = Vec::new(alloc);
    'spans: for b in 0..tables.spans.len() {
        let end = lay_block(alloc, tables, b, &mut fragments, &mut slots)?;
        ends.push(end)?;
    }
    Ok(Layout {
        fragments,
        ends,
        slots,
    })
}

/// Returns the least layout of a plan. The only error is lack of memory.
pub fn lay_out(alloc: Global, plan: &Plan) -> Result<Layout, LayoutError>
    ensures { IfOk result (λ laid. spec.IsLaidLeast plan.now laid) }
{
    let least = least_choices(alloc, plan)?;
    let tables = Tables {
        spans: plan.spans(),
        items: plan.items(),
        layout: &least.choices,
        places: &least.places,
    };
    Ok(lay_blocks(alloc, &tables)?)
}
