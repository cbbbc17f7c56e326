//! The slots of a block: the goals of its far forms.

ghost use Rattle.std.specs.Prelude.{◌≡◌, ◌+◌, ◌*◌, ◌<◌, ◌^◌, ◌==◌, if◌then◌else◌, true, IfOk, OnOk, length};
ghost use Rattle.branch_sizes.specs.MoveLayout.Laid.{has_far_form, next_eighth, with_goal};
ghost use Rattle.branch_sizes.specs.MoveLayout.Slots.{place_among, IsNumbering};

use crate::Form;
use std::alloc::AllocError;
use std::collections::BTreeMap;

/// Returns whether a form goes through a slot.
pub fn is_far_form(form: Form) -> bool
    ensures { result ≡ has_far_form form }
{
    matches!(form, Form::Far | Form::FarBridge)
}

/// Returns the least multiple of 8 that is not below a number.
pub fn next_multiple_of_8(n: u128) -> u128
    requires { n < 2 ^ 67 }
    ensures value { result ≡ next_eighth n }
    ensures small { result < 2 ^ 68 }
{
    (n + 7) / 8 * 8
}

/// Returns the end of a block: the end of its slots, which begin at `start`, or the end of its images if it has no slots.
pub fn block_end(images: u128, start: u128, count: usize) -> u128
    requires { start < 2 ^ 68 }
    ensures { result ≡ (if count == 0 then images else start + 8 * count) }
{
    if count == 0 {
        return images;
    }
    start + 8 * count as u128
}

/// The number of a goal's slot, the next one if no slot has the goal.
pub(crate) fn slot_number(
    numbers: &mut BTreeMap<u128, usize>,
    goals: &mut Vec<u128>,
    goal: u128,
) -> Result<usize, AllocError>
    requires { IsNumbering numbers.old goals.old.items }
    ensures goals { OnOk result (goals.new.items ≡ with_goal goals.old.items true goal) }
    ensures number { IfOk result (λ n. n ≡ place_among goals.new.items goal) }
    ensures numbering { OnOk result (IsNumbering numbers.new goals.new.items) }
{
    match numbers.get(&goal) {
        Some(number) => Ok(*number),
        None => {
            let number = goals.len();
            numbers.insert(goal, number)?;
            goals.push(goal)?;
            Ok(number)
        }
    }
}
