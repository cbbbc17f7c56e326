//! A plan with a layout of it.

ghost use Rattle.std.specs.Prelude.{◌<◌, ◌^◌, slice_index, EachIndex};
ghost use Rattle.branch_sizes.specs.Plan.{plan_of, IsWellFormed};
ghost use Rattle.branch_sizes.specs.Layout.{IsLayout, ArePlaces};

use crate::{BlockSpan, Branch};

/// A plan, the number of each item's choice in a layout, and the place of each item in it.
#[derive(Clone, Copy)]
pub(crate) struct Tables<'a> {
    pub(crate) spans: &'a [BlockSpan],
    pub(crate) items: &'a [Branch],
    pub(crate) layout: &'a [u8],
    pub(crate) places: &'a [u128],
    ghost plan: { IsWellFormed (plan_of spans.now items.now) },
    ghost right_layout: { IsLayout (plan_of spans.now items.now) layout.now },
    ghost right_places: { ArePlaces (plan_of spans.now items.now) layout.now places.now },
    ghost small_places: { EachIndex places.now (λ k. slice_index places.now k < 2 ^ 66) },
}
