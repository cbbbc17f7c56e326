//! The choice of an item, the address of its goal, and the end of a block's images.

ghost use Rattle.std.specs.Prelude.{◌≡◌, ◌<◌, ◌^◌, length};
ghost use Rattle.branch_sizes.specs.Layout.{item_choice, first_of_block};
ghost use Rattle.branch_sizes.specs.MoveLayout.Laid.{goal_address, images_end};
ghost use Rattle.branch_sizes.specs.MoveLayout.Tables.{plan_in};

use crate::move_layout::tables::Tables;
use crate::{Choice, Goal};

/// The choice of item `k`.
pub(crate) fn choice_of(tables: &Tables, k: usize) -> Choice
    requires { k < length tables.now.items.now }
    ensures { result ≡ item_choice (plan_in tables.now) tables.now.layout.now k }
{
    tables.items[k].choices[usize::from(tables.layout[k])]
}

/// The address of the goal of item `k`, 0 without one.
pub(crate) fn goal_of(tables: &Tables, k: usize) -> u128
    requires { k < length tables.now.items.now }
    ensures { result ≡ goal_address (plan_in tables.now) tables.now.layout.now k }
{
    match tables.items[k].goal {
        Goal::None => 0,
        Goal::Inside(j) => tables.places[j as usize],
        Goal::Outside(t) => u128::from(t),
    }
}

/// Returns the address after the images of block `b`, whose first item is item `first`.
pub(crate) fn images_end_of(tables: &Tables, b: usize, first: usize) -> u128
    requires block { b < length tables.now.spans.now }
    requires first { first ≡ first_of_block tables.now.spans.now b }
    ensures value { result ≡ images_end (plan_in tables.now) tables.now.layout.now b }
    ensures small { result < 2 ^ 67 }
{
    crate::laws::blocks_have_all_items();
    crate::laws::totals_rise();
    let span = tables.spans[b];
    if span.count == 0 {
        return u128::from(span.new_base);
    }
    let last = first + span.count as usize - 1;
    tables.places[last] + u128::from(choice_of(tables, last).len)
}
