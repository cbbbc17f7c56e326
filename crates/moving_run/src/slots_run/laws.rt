//! What holds of all code whose instructions are given slots.

ghost use Rattle.moving_run.specs.SlotsRun.Facts.{SlotsAnswerFacts};

use crate::laws::inputs_are_read_in_one_way;
use branch_sizes::laws::least_is_unique;
use code_region::laws::places_are_gaps;
use sweep::sweep_text::laws::sweeps_agree;

/// Some code has exactly one answer: the same refusal, or slots.
#[inline]
pub fn code_has_one_answer()
    ensures { SlotsAnswerFacts }
{
    least_is_unique();
    places_are_gaps();
    sweeps_agree();
    inputs_are_read_in_one_way();
}
