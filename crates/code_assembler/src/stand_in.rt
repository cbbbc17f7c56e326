//! What stands for a byte of data while the layout is chosen.

ghost use Rattle.std.specs.Prelude.{◌≡◌};
ghost use Rattle.move_goals.specs.Items.{IsPlaced};
ghost use Rattle.code_assembler.specs.StandIn as spec;

use crate::generated_codes::NOP;
use crate::laws_below::laws_below;
use move_goals::Placed;
use move_goals::moved_targets::plain_length;
use x86_values::{Bits, Code, Instr, Operand, Rep};

/// NOP.
#[tactic(auto, unfolding(crate::specs::StandIn::nop))]
fn nop() -> Instr
    ensures { result ≡ spec.nop }
{
    Instr {
        code: Code(NOP),
        lock: false,
        rep: Rep::None,
        seg: None,
        asize: None,
        ops: [Operand::Absent; 4],
    }
}

/// NOP as an item.
pub(crate) fn stand_in(bits: Bits) -> Placed
    ensures value { result ≡ spec.stand_in bits }
    ensures placed { IsPlaced bits result }
{
    laws_below();
    let instr = nop();
    Placed {
        ip: 0,
        len: plain_length(bits, &instr),
        instr,
    }
}
