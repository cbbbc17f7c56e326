//! How long a block may become.

ghost use Rattle.std.specs.Prelude.{◌≡◌, ◌<◌, ◌≤◌, length, unwrap_or};
ghost use Rattle.arrayvec.specs.ArrayVec.{array_vec_len};
ghost use Rattle.move_goals.specs.MovedTargets.Targets.{target_of};
ghost use Rattle.move_goals.specs.Items.{ArePlaced, IsPlaced, item_at};
ghost use Rattle.branch_sizes.specs.MoveLayout.Laid.{with_goal};
ghost use Rattle.block_encoder.specs.Last as spec;

use crate::laws_below::laws_below;
use arrayvec::ArrayVec;
use branch_sizes::Choice;
use branch_sizes::move_layout::{block_end, is_far_form, next_multiple_of_8};
use move_goals::Placed;
use move_goals::branch_forms::choices_of;
use move_goals::moved_targets::target_of;
use x86_values::{Bits, Instr};

/// The last of the forms that an instruction may take.
fn last_choice(bits: Bits, item: &Placed) -> Choice
    requires { IsPlaced bits item.now }
    ensures { result ≡ spec.last_choice bits item.now.instr }
{
    laws_below();
    let choices = choices_of(bits, &item.instr);
    choices[choices.len() - 1]
}

/// The last of the forms that item `k` may take.
fn last_choice_at(bits: Bits, items: &[Placed], k: usize) -> Choice
    requires item { k < length items.now }
    requires placed { IsPlaced bits (item_at items.now k) }
    ensures { result ≡ spec.last_choice bits (item_at items.now k).instr }
{
    last_choice(bits, &items[k])
}

/// The target of item `k`, 0 without one.
fn kept_target(items: &[Placed], k: usize) -> u64
    requires { k < length items.now }
    ensures { result ≡ unwrap_or (target_of (item_at items.now k).instr) 0 }
{
    target_of(&items[k].instr).unwrap_or(0)
}

/// Adds the goal of a far form to others, unless it is among them.
fn add_goal(goals: &mut ArrayVec<u64, 2>, far: bool, goal: u64)
    requires { array_vec_len goals.old < 2 }
    ensures { goals.new.items ≡ with_goal goals.old.items far goal }
{
    if far && !goals.contains(&goal) {
        goals.push(goal);
    }
}

/// Returns an upper bound, in bytes, for one or two instructions moved to an address by [`move_outside`](crate::move_outside): each in its last form,
/// with the gap and the slots.
pub fn last_len(bits: Bits, items: &[Placed], new_base: u64) -> u64
    requires few { length items.now ≤ 2 }
    requires placed { ArePlaced bits items.now }
    ensures value { result ≡ spec.last_len bits items.now new_base }
    ensures small { result ≤ 53 }
{
    laws_below();
    let mut images = u128::from(new_base);
    let mut goals: ArrayVec<u64, 2> = ArrayVec::new();
    'items: for k in 0..items.len() {
        let choice = last_choice_at(bits, items, k);
        images += u128::from(choice.len);
        add_goal(&mut goals, is_far_form(choice.form), kept_target(items, k));
    }
    let end = block_end(images, next_multiple_of_8(images), goals.len());
    (end - u128::from(new_base)) as u64
}
