//! What the laws of the crates below say where some instructions have no row, for the proofs of this crate.

ghost use Rattle.detour.specs.AnyLawsBelow.{DetourAnyLaws};

use crate::laws_below::laws_below;

/// The laws of the crates below as one fact. It does nothing.
#[inline]
pub(crate) fn any_laws_below()
    ensures { DetourAnyLaws }
{
    laws_below();
    code_items::any_laws::one_instruction_stands_there();
    code_items::any_laws::instructions_of_blocks_stand_at_their_places();
}
