//! What holds of the instructions that push a return address and jump, as the contracts of functions that do nothing.

ghost use Rattle.block_encoder.specs.PushedCalls.Facts.{PushedCodeFacts, PushFacts, JumpedFacts};

use crate::pushed_calls::laws_below::laws_below;

/// The codes belong to their rows: 68 with an immediate, C7 /0 at operand size 32, and FF /2 and FF /4.
#[inline]
pub fn codes_have_their_rows()
    ensures { PushedCodeFacts }
{}

/// The instructions that push a return address have the same bytes at every address, and leave that address at the top of the stack.
#[inline]
pub fn return_addresses_are_pushed()
    ensures { PushFacts }
{
    laws_below();
}

/// The jump goes where the CALL goes: it has the same target, or names the same memory.
#[inline]
pub fn jumps_go_where_calls_go()
    ensures { JumpedFacts }
{}
