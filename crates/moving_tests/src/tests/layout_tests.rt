//! Places, slots and ends of worked layouts.

ghost use Rattle.std.specs.Prelude.{◌≡◌, ◌<◌, ◌≤◌, ◌∷◌, [], IsTrue, IfOk, length};
ghost use Rattle.std.specs.List.{list_all};
ghost use Rattle.branch_sizes.specs.Plan.{is_fit_branch, is_fit_goal};

use crate::tests::compare::{same, same_items};
use arrayvec::ArrayVec;
use branch_sizes::move_layout::{BlockEnd, Fragment, Layout, lay_out};
use branch_sizes::{BlockSpan, Branch, Choice, Form, Goal, Plan, Reach};
use std::alloc::{AllocError, Global};
use std::process::Abort;
use std::test::Fail;

/// An item of one choice that reaches every goal.
fn item(form: Form, len: u8, goal: Goal) -> Branch
    requires one { 1 ≤ len }
    requires most { len ≤ 15 }
    ensures choices { result.choices.items ≡ record { form = form; len = len; reach = Reach.Always } ∷ [] }
    ensures goal { result.goal ≡ goal }
{
    let mut choices = ArrayVec::new();
    choices.push(Choice {
        form,
        len,
        reach: Reach::Always,
    });
    Branch { choices, goal }
}

/// Where such an item stands.
fn fragment(form: Form, len: u8, place: u128, goal: u128, slot: u128) -> Fragment {
    Fragment {
        form,
        len,
        reach: Reach::Always,
        place,
        goal,
        slot,
    }
}

/// The end of a block's images, how many slots it has, and its end.
fn block_end(images: u128, slots: usize, end: u128) -> BlockEnd {
    BlockEnd { images, slots, end }
}

/// That a layout has these fragments.
fn has_fragments(rt: &impl Abort, laid: &Layout, want: &[Fragment]) {
    same_items(rt, "fragments", &laid.fragments, want);
}

/// That the blocks of a layout have these ends.
fn has_ends(rt: &impl Abort, laid: &Layout, want: &[BlockEnd]) {
    same_items(rt, "ends", &laid.ends, want);
}

/// That the slots of a layout have these goals.
fn has_slots(rt: &impl Abort, laid: &Layout, want: &[u128]) {
    same_items(rt, "slots", &laid.slots, want);
}

/// A far item to 0x9000 and a second one, from 0x1003 on.
fn two_from_1003(alloc: Global, form: Form, to: Goal) -> Result<Layout, Fail>
    requires { IsTrue (is_fit_goal 2 1 to) }
{
    let far = item(Form::Far, 6, Goal::Outside(0x9000));
    let items = vec![in alloc; far, item(form, 6, to)]?;
    Ok(lay_out(alloc, &Plan::new(0x1003, items))?)
}

/// That the second of two items, with this form, goes to this address by this slot, that all slots have these goals, and
/// that the block ends here.
fn has_second(
    rt: &impl Abort,
    laid: &Layout,
    (form, goal, slot): (Form, u128, u128),
    slots: &[u128],
    end: u128,
) {
    let first = fragment(Form::Far, 6, 0x1003, 0x9000, 0x1010);
    let second = fragment(form, 6, 0x1009, goal, slot);
    has_fragments(rt, laid, &[first, second]);
    has_ends(rt, laid, &[block_end(0x100f, slots.len(), end)]);
    has_slots(rt, laid, slots);
}

/// That the second of two items from 0x1003 on goes to a goal in this form, at this address and by this slot.
fn goes_to(
    rt: &impl Abort,
    alloc: Global,
    to: Goal,
    second: (Form, u128, u128),
    slots: &[u128],
    end: u128,
) -> Result<(), Fail>
    requires { IsTrue (is_fit_goal 2 1 to) }
{
    let laid = two_from_1003(alloc, second.0, to)?;
    has_second(rt, &laid, second, slots, end);
    Ok(())
}

#[test]
fn two_items_have_their_fragments(rt: HostRuntime) -> Result<(), Fail> {
    let alloc = rt.alloc();
    let second = (Form::Far, 0x9000, 0x1010);
    goes_to(&rt, alloc, Goal::Outside(0x9000), second, &[0x9000], 0x1018)?;
    let (second, slots) = ((Form::FarBridge, 0x9001, 0x1018), &[0x9000, 0x9001]);
    goes_to(&rt, alloc, Goal::Outside(0x9001), second, slots, 0x1020)?;
    let (second, slots) = ((Form::Far, 0x1003, 0x1018), &[0x9000, 0x1003]);
    goes_to(&rt, alloc, Goal::Inside(0), second, slots, 0x1020)?;
    let second = (Form::Near, 0x1009, 0);
    goes_to(&rt, alloc, Goal::Inside(1), second, &[0x9000], 0x1018)
}

/// A block of so many items at an address.
fn span(count: u32, new_base: u64) -> BlockSpan
    ensures { result.count ≡ count }
{
    BlockSpan { count, new_base }
}

/// A block without items, one without slots, and two with a slot each for the same goal.
fn four_blocks(alloc: Global) -> Result<Layout, Fail> {
    let spans = vec![in alloc;
        span(0, 0x2001),
        span(1, 0x3000),
        span(1, 0x4005),
        span(1, 0x5008),
    ]?;
    let items = vec![in alloc;
        item(Form::Itself, 3, Goal::None),
        item(Form::Far, 8, Goal::Outside(0x9000)),
        item(Form::Far, 6, Goal::Outside(0x9000)),
    ]?;
    Ok(lay_out(alloc, &Plan::of_blocks(spans, items))?)
}

#[test]
fn blocks_have_their_ends(rt: HostRuntime) -> Result<(), Fail> {
    let laid = four_blocks(rt.alloc())?;
    let fragments = [
        fragment(Form::Itself, 3, 0x3000, 0, 0),
        fragment(Form::Far, 8, 0x4005, 0x9000, 0x4010),
        fragment(Form::Far, 6, 0x5008, 0x9000, 0x5010),
    ];
    has_fragments(&rt, &laid, &fragments);
    let ends = [
        block_end(0x2001, 0, 0x2001),
        block_end(0x3003, 0, 0x3003),
        block_end(0x400d, 1, 0x4018),
        block_end(0x500e, 1, 0x5018),
    ];
    has_ends(&rt, &laid, &ends);
    has_slots(&rt, &laid, &[0x9000, 0x9000]);
    Ok(())
}

#[test]
fn no_item_ends_where_it_begins(rt: HostRuntime) -> Result<(), Fail> {
    let laid = lay_out(rt.alloc(), &Plan::new(0x1003, Vec::new(rt.alloc())))?;
    has_fragments(&rt, &laid, &[]);
    has_ends(&rt, &laid, &[block_end(0x1003, 0, 0x1003)]);
    has_slots(&rt, &laid, &[]);
    Ok(())
}

/// Far items, each with a goal of its own.
fn far_items(alloc: Global, count: u32) -> Result<Vec<Branch>, AllocError>
    requires { count ≤ 65536 }
    ensures len { IfOk result (λ items. length items.items ≡ count) }
    ensures fit { IfOk result (λ items. IsTrue (list_all (is_fit_branch count) items.items)) }
{
    let mut items = Vec::with_capacity(alloc, count as usize)?;
    'items: for i in 0..count {
        items.push(item(Form::Far, 6, Goal::Outside(u64::from(i))))?;
    }
    Ok(items)
}

/// That a layout ends with this fragment.
fn is_last(rt: &impl Abort, laid: &Layout, want: Fragment) {
    let last = laid.fragments.last().copied();
    same(rt, "the last fragment", &last, &Some(want));
}

#[test]
fn each_goal_has_its_slot(rt: HostRuntime) -> Result<(), Fail> {
    let items = far_items(rt.alloc(), 65536)?;
    let laid = lay_out(rt.alloc(), &Plan::new(0, items))?;
    same(&rt, "slots", &laid.slots.len(), &65536);
    is_last(&rt, &laid, fragment(Form::Far, 6, 393210, 65535, 917496));
    Ok(())
}
