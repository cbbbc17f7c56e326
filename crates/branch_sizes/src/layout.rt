//! The least closed layout, and what a layout is made of: reach, places and forms.

ghost use Rattle.std.specs.Prelude.{◌≡◌, ◌↔◌, ◌+◌, ◌<◌, ◌≤◌, ◌^◌, ℕ, IsTrue, IfOk, OnOk, OnErr, length, slice_index, slice_index_or, EachIndex};
ghost use Rattle.branch_sizes.specs.Plan.{plan_of, no_choice, no_branch, IsWellFormed};
ghost use Rattle.branch_sizes.specs.Layout.{Reaches, ReachesFromBoth, IsLayout, IsLeast, ArePlaces, AreBlocks, forms_of, AreLeastForms};

use crate::plan::{BlockSpan, Branch, Choice, Form, Plan, Reach};
use crate::worklist;
use std::alloc::{AllocError, Global};
use thiserror::Error;

/// 2 to the number of bits that an address may have.
pub(crate) fn end_of_space(bits: u8) -> u128
    requires { bits < 64 }
    ensures { result ≡ 2 ^ bits }
{
    1 << bits
}

/// Whether an address is below 2 to a number of bits.
fn is_below(address: u128, bits: u8) -> bool
    requires { address < 2 ^ 96 }
    ensures { IsTrue result ↔ (address < 2 ^ bits) }
{
    bits >= 96 || address < 1 << bits
}

/// Returns whether an image of `len` bytes at a place reaches a goal. A place may lie past the end of the address space.
#[inline]
pub fn reaches(reach: Reach, len: u8, place: u128, goal: u128) -> bool
    requires place { place < 2 ^ 66 }
    requires goal { goal < 2 ^ 66 }
    ensures { IsTrue result ↔ Reaches reach len place goal }
{
    let end = place + u128::from(len);
    match reach {
        Reach::Always => true,
        Reach::Signed8 => end <= goal + 128 && goal < end + 128,
        Reach::Signed32 => end <= goal + 0x8000_0000 && goal < end + 0x8000_0000,
        Reach::Below(bits) => is_below(goal, bits),
        Reach::BridgeBelow { bits, inner } => {
            is_below(goal, bits) && is_below(place + u128::from(inner), bits)
        }
    }
}

/// Whether a choice reaches a goal from each of two places.
pub(crate) fn reaches_from_both(choice: &Choice, place: u128, first: u128, goal: u128) -> bool
    requires place { place < 2 ^ 66 }
    requires first { first < 2 ^ 66 }
    requires goal { goal < 2 ^ 66 }
    ensures { IsTrue result ↔ ReachesFromBoth choice.now place first goal }
{
    reaches(choice.reach, choice.len, place, goal) && reaches(choice.reach, choice.len, first, goal)
}

/// The number of the block of each item.
pub(crate) fn block_numbers(
    alloc: Global,
    spans: &[BlockSpan],
    items: &[Branch],
) -> Result<Vec<u32>, AllocError>
    requires { IsWellFormed (plan_of spans.now items.now) }
    ensures { IfOk result (λ blocks. AreBlocks (plan_of spans.now items.now) blocks.items) }
{
    let mut blocks = Vec::with_capacity(alloc, items.len())?;
    for (b, span) in spans.iter().enumerate() {
        for _ in 0..span.count {
            blocks.push(b as u32)?;
        }
    }
    Ok(blocks)
}

/// The length of an item's image under one of its choices.
pub(crate) fn image_len(item: &Branch, f: u8) -> u8
    requires { f < length item.now.choices.items }
    ensures { result ≡ (slice_index_or item.now.choices.items f no_choice).len }
{
    item.choices[usize::from(f)].len
}

/// Returns the place of each item in a layout, which gives the number of each item's choice. A place is the address of the item's image and may lie
/// past the end of the address space. The only error is lack of memory.
pub fn places(
    alloc: Global,
    spans: &[BlockSpan],
    items: &[Branch],
    layout: &[u8],
) -> Result<Vec<u128>, AllocError>
    requires plan { IsWellFormed (plan_of spans.now items.now) }
    requires layout { IsLayout (plan_of spans.now items.now) layout.now }
    ensures places { IfOk result (λ places. ArePlaces (plan_of spans.now items.now) layout.now places.items) }
    ensures below { IfOk result (λ places. EachIndex places.items (λ i. slice_index places.items i < 2 ^ 66)) }
{
    let mut places = Vec::with_capacity(alloc, items.len())?;
    let mut k: usize = 0;
    for span in spans {
        let mut at = u128::from(span.new_base);
        for _ in 0..span.count {
            places.push(at)?;
            at += u128::from(image_len(&items[k], layout[k]));
            k += 1;
        }
    }
    Ok(places)
}

/// The forms of a layout.
pub(crate) fn chosen_forms(
    alloc: Global,
    items: &[Branch],
    layout: &[u8],
) -> Result<Vec<Form>, AllocError>
    requires len { length layout.now ≡ length items.now }
    requires valid { (k : ℕ) → k < length items.now → slice_index layout.now k < length (slice_index_or items.now k no_branch).choices.items }
    ensures { IfOk result (λ forms. forms.items ≡ forms_of items.now layout.now) }
{
    let mut forms = Vec::with_capacity(alloc, items.len())?;
    for (k, f) in layout.iter().enumerate() {
        forms.push(items[k].choices[usize::from(*f)].form)?;
    }
    Ok(forms)
}

/// Why no layout is returned.
#[derive(Clone, Copy, Debug, PartialEq, Eq, Error)]
pub enum LayoutError {
    /// The allocator had no memory left.
    #[error("out of memory")]
    Memory,
}

impl From<AllocError> for LayoutError {
    /// The only refusal is lack of memory.
    fn from(_e: AllocError) -> LayoutError {
        LayoutError::Memory
    }
}

/// The least closed layout of a plan, with the place of each image.
#[derive(Drop)]
pub struct LeastLayout {
    /// The number of each item's choice.
    pub choices: Vec<u8>,
    /// The address of each item's image, which may lie past the end of the address space.
    pub places: Vec<u128>,
}

/// Returns the choices of the least closed layout of a plan, item by item, and the places of the images. [`least_layout`] returns the forms of these
/// choices. The only error is `Memory`.
pub fn least_choices(alloc: Global, plan: &Plan) -> Result<LeastLayout, LayoutError>
    ensures least { IfOk result (λ least. IsLeast plan.now least.choices.items) }
    ensures places { IfOk result (λ least. ArePlaces plan.now least.choices.items least.places.items) }
    ensures below { IfOk result (λ least. EachIndex least.places.items (λ k. slice_index least.places.items k < 2 ^ 66)) }
{
    worklist::grown_from_first(alloc, plan.spans(), plan.items())
}

/// Sets `forms` to the forms of the least closed layout of a plan, item by item.
///
/// A layout is closed if each item has its last choice, or a choice that reaches its goal under each of these assumptions. A goal in its own block:
/// both items at their places. An address that stays: the item at its place, and at its place in the layout of first choices. An item of another
/// block: both at their places, both at their places in the layout of first choices, and each at its place with the other at its first one. The least
/// closed layout has, at each item, the earliest choice that any closed layout has there.
///
/// The only error is `Memory`; it leaves `forms` unchanged.
pub fn least_layout(alloc: Global, plan: &Plan, forms: &mut Vec<Form>) -> Result<(), LayoutError>
    ensures ok { OnOk result (AreLeastForms plan.now forms.new.items) }
    ensures err { OnErr result (forms.new.items ≡ forms.old.items) }
{
    let least = least_choices(alloc, plan)?;
    *forms = chosen_forms(alloc, plan.items(), &least.choices)?;
    Ok(())
}
