//! What holds of the goals of moved items and of their plans, as the contracts of functions that do nothing.

ghost use Rattle.move_goals.specs.Facts.{FirstFacts, PlanFacts};

/// The properties of the first number below a bound that passes a test.
#[inline]
pub fn first_numbers_pass()
    ensures { FirstFacts }
{}

/// The plan of well-placed items is well formed.
#[inline]
pub fn plans_are_well_formed()
    ensures { PlanFacts }
{
    crate::branch_forms::laws::forms_are_fit();
}
