//! The front that the plain spelling of an instruction has.

ghost use Rattle.std.specs.Prelude.{◌≡◌, ◌<◌, IsTrue};
ghost use Rattle.row_fit.specs.Fits.{vex_in_range};
ghost use Rattle.row_fit.specs.Sound.{sound};
ghost use Rattle.plain_spelling.specs.PlainFront.{plain_front_of};
ghost use Rattle.plain_spelling.specs.Expressible.{each_operand, register_suits};

use instruction_parts::PrefixState;
use instruction_parts::row_types::Row;
use plain_spelling::front;
use x86_values::{Bits, Instr};

/// Returns the front of the plain spelling of an instruction of the row: its prefixes, VEX, map and opcode byte, as the fields of the instruction
/// require them (Intel SDM volume 2, 2.1 to 2.3).
///
/// Each register operand must be one that its kind can name in the mode; the other conditions of a plain spelling need not hold. `used` is the number
/// of bytes before the opcode byte, 0 to 15.
pub fn plain_front(bits: Bits, row: &Row, instr: &Instr) -> PrefixState
    requires sound { IsTrue (sound row.now) }
    requires registers { IsTrue (each_operand (register_suits bits row.now instr.now)) }
    ensures value { result ≡ plain_front_of bits row.now instr.now }
    ensures vex { IsTrue (vex_in_range result.vex) }
    ensures small { result.used < 16 }
{
    let [_first, _second, _third, _fourth] = instr.ops;
    front::plain_front(bits, row, instr)
}
