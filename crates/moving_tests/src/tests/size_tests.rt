//! The least layout of worked plans, long chains among them, and sums of lengths.

ghost use Rattle.std.specs.Prelude.{◌≡◌, ◌<◌, ◌≤◌, ◌∷◌, [], IsTrue, IfOk, length};
ghost use Rattle.std.specs.List.{list_all};
ghost use Rattle.branch_sizes.specs.Plan.{is_fit_branch};

use crate::tests::compare::{same, same_items};
use arrayvec::ArrayVec;
use branch_sizes::{BlockSpan, Branch, Choice, Form, Goal, Plan, Reach, Sums, least_layout};
use std::alloc::{AllocError, Global};
use std::test::Fail;

/// A branch of two or five bytes.
fn short_or_near(goal: Goal) -> Branch
    ensures choices { result.choices.items ≡ record { form = Form.Short; len = 2; reach = Reach.Signed8 }
        ∷ record { form = Form.Near; len = 5; reach = Reach.Signed32 } ∷ [] }
    ensures goal { result.goal ≡ goal }
{
    let mut choices = ArrayVec::new();
    choices.push(Choice {
        form: Form::Short,
        len: 2,
        reach: Reach::Signed8,
    });
    choices.push(Choice {
        form: Form::Near,
        len: 5,
        reach: Reach::Signed32,
    });
    Branch { choices, goal }
}

/// An instruction of the given length that is no branch.
fn plain(len: u8) -> Branch
    requires one { 1 ≤ len }
    requires most { len ≤ 15 }
    ensures choices { result.choices.items ≡ record { form = Form.Itself; len = len; reach = Reach.Always } ∷ [] }
    ensures goal { result.goal ≡ Goal.None }
{
    let mut choices = ArrayVec::new();
    choices.push(Choice {
        form: Form::Itself,
        len,
        reach: Reach::Always,
    });
    Branch {
        choices,
        goal: Goal::None,
    }
}

#[test]
fn sums_follow_growth(rt: HostRuntime) -> Result<(), Fail> {
    let mut sums = Sums::make(rt.alloc(), &[2, 5, 1])?;
    let (none, two) = (sums.before(0), sums.before(2));
    sums.grow(0, 3);
    let (grown, all) = (sums.before(2), sums.before(3));
    same(&rt, "the sums", &(none, two, grown, all), &(0, 7, 10, 11));
    Ok(())
}

/// The forms of a branch in a first block, and of a branch and an instruction in a second one.
fn forms_of_two_blocks(alloc: Global) -> Result<Vec<Form>, Fail> {
    let spans = vec![in alloc;
        BlockSpan {
            count: 1,
            new_base: 0x5002
        },
        BlockSpan {
            count: 2,
            new_base: 0x5080
        },
    ]?;
    let items = vec![in alloc;
        short_or_near(Goal::Inside(2)),
        short_or_near(Goal::Outside(0x1101)),
        plain(1),
    ]?;
    let mut forms = Vec::new(alloc);
    least_layout(alloc, &Plan::of_blocks(spans, items), &mut forms)?;
    Ok(forms)
}

// A branch in the second block grows and moves the goal of one in the first out of reach.
#[test]
fn a_branch_grows_for_another_block(rt: HostRuntime) -> Result<(), Fail> {
    let forms = forms_of_two_blocks(rt.alloc())?;
    let want = &[Form::Near, Form::Near, Form::Itself];
    same_items(&rt, "the forms", &forms, want);
    Ok(())
}

/// A plan's shape.
#[derive(Clone, Copy)]
enum Shape {
    /// Each branch goes 64 items on, and the last of them goes far away: one growth at the end makes each branch in
    /// front of it grow.
    Chain,
    /// All but two items are branches that go far away, in front of an instruction and a branch to it.
    TargetMovesToo,
}

/// Item `i` of a plan of `count` items.
fn item(shape: Shape, i: u32, count: u32) -> Branch
    requires least { 64 ≤ count }
    requires most { count ≤ 65536 }
    requires item { i < count }
    ensures { IsTrue (is_fit_branch count result) }
{
    match shape {
        Shape::Chain => {
            if i < count - 64 {
                short_or_near(Goal::Inside(i + 64))
            } else if i == count - 2 {
                short_or_near(Goal::Outside(0x100_0000))
            } else {
                plain(2)
            }
        }
        Shape::TargetMovesToo => {
            if i < count - 2 {
                short_or_near(Goal::Outside(0x100_0000))
            } else if i == count - 2 {
                plain(1)
            } else {
                short_or_near(Goal::Inside(count - 2))
            }
        }
    }
}

/// The items of a plan.
fn items_of(alloc: Global, shape: Shape, count: u32) -> Result<Vec<Branch>, AllocError>
    requires least { 64 ≤ count }
    requires most { count ≤ 65536 }
    ensures len { IfOk result (λ items. length items.items ≡ count) }
    ensures fit { IfOk result (λ items. IsTrue (list_all (is_fit_branch count) items.items)) }
{
    let mut items = Vec::with_capacity(alloc, count as usize)?;
    'items: for i in 0..count {
        items.push(item(shape, i, count))?;
    }
    Ok(items)
}

/// How often a form is among some.
fn count_of(forms: &[Form], form: Form) -> usize {
    forms.iter().filter(|f| **f == form).count()
}

/// How many items a layout makes near and how many short, and how many it has, from a base on.
fn counts_of(
    alloc: Global,
    shape: Shape,
    count: u32,
    base: u64,
) -> Result<(usize, usize, usize), Fail> {
    if !(64..=65536).contains(&count) {
        return Err(Fail::new("there are 64 to 65536 items"));
    }
    let items = items_of(alloc, shape, count)?;
    let mut forms = Vec::new(alloc);
    least_layout(alloc, &Plan::new(base, items), &mut forms)?;
    let (near, short) = (count_of(&forms, Form::Near), count_of(&forms, Form::Short));
    Ok((forms.len(), near, short))
}

#[test]
fn long_plans_have_their_least_layout(rt: HostRuntime) -> Result<(), Fail> {
    for (shape, count, base, near, short) in &[
        (Shape::Chain, 65536, 0, 65473, 0),
        (Shape::Chain, 1024, 0, 961, 0),
        (Shape::TargetMovesToo, 64, 0x5000, 62, 1),
    ] {
        let counts = counts_of(rt.alloc(), *shape, *count, *base)?;
        let want = (*count as usize, *near, *short);
        same(&rt, "the counts", &counts, &want);
    }
    Ok(())
}

/// The forms of no item, which take the place of those that stood there before.
fn forms_of_none(alloc: Global) -> Result<Vec<Form>, Fail> {
    let mut forms = vec![in alloc; Form::Far]?;
    least_layout(alloc, &Plan::new(0, Vec::new(alloc)), &mut forms)?;
    Ok(forms)
}

/// The forms of one branch.
fn forms_of_one(alloc: Global) -> Result<Vec<Form>, Fail> {
    let items = vec![in alloc; short_or_near(Goal::Outside(0x1000))]?;
    let mut forms = vec![in alloc; Form::Far]?;
    least_layout(alloc, &Plan::new(0, items), &mut forms)?;
    Ok(forms)
}

#[test]
fn no_item_and_one_branch_have_their_forms(rt: HostRuntime) -> Result<(), Fail> {
    same_items(&rt, "the forms", &forms_of_none(rt.alloc())?, &[]);
    same_items(&rt, "the forms", &forms_of_one(rt.alloc())?, &[Form::Near]);
    Ok(())
}
