//! What holds of moved code of which some instructions have no row, as the contracts of functions that do nothing.

ghost use Rattle.code_items.specs.AnyStanding.{AllStandAt, AllStandIn, NumbersReferToGoals, OneStands};

use crate::any_laws_below::laws_below;
use decoder::reading_laws::bytes_have_one_reading;
use unlisted::laws::{answers_are_unique, measured_bytes_are_not_read};

/// At the front of some bytes stands at most one instruction, of the table or without a row.
#[inline]
pub fn one_instruction_stands_there()
    ensures { OneStands }
{
    bytes_have_one_reading();
    answers_are_unique();
    measured_bytes_are_not_read();
}

/// Each instruction of moved code stands at its place, with the bytes of its image, or with its own bytes but for the number.
#[inline]
pub fn moved_instructions_stand_at_their_places()
    ensures { AllStandAt }
{
    laws_below();
}

/// So does each instruction of a block that is moved with goals of the caller's choice.
#[inline]
pub fn instructions_of_blocks_stand_at_their_places()
    ensures { AllStandIn }
{
    laws_below();
}

/// The number of an instruction without a row refers from its new place to its goal: sign-extended and added to the address after the instruction it
/// comes to that.
#[inline]
pub fn numbers_refer_to_their_goals()
    ensures { NumbersReferToGoals }
{}
