//! What holds of all code that is moved.

ghost use Rattle.moving_run.specs.Facts.{InputFacts, PlacedFacts, MovingAnswerFacts, ReadBackFacts};

use block_encoder::laws::moved_blocks_keep_their_laws;
use branch_sizes::laws::least_is_unique;
use sweep::sweep_text::laws::sweeps_agree;

/// Some input decodes to exactly one list of instructions, and has one first bad byte or none.
#[inline]
pub fn inputs_are_read_in_one_way()
    ensures { InputFacts }
{
    sweeps_agree();
}

/// The instructions of some input are well placed, and correspond to the items of its sweep.
#[inline]
pub fn instructions_are_placed()
    ensures { PlacedFacts }
{}

/// Some input has exactly one answer: the same refusal, or moved blocks.
#[inline]
pub fn inputs_have_one_answer()
    ensures { MovingAnswerFacts }
{
    sweeps_agree();
    least_is_unique();
}

/// Moved blocks decode as they were encoded: each image lies at its place and goes to the goal of its instruction.
#[inline]
pub fn moved_blocks_are_read_back()
    ensures { ReadBackFacts }
{
    moved_blocks_keep_their_laws();
}
