//! What follows the opcode byte, written.

ghost use Rattle.std.specs.Prelude.{◌≡◌, IsTrue, IfOk, IfErr, Some, None};
ghost use Rattle.row_fit.specs.Sound.{sound};
ghost use Rattle.plain_spelling.specs.Expressible.{first_failed_condition as failing};
ghost use Rattle.plain_spelling.specs.Parts.{ArePartsOf};
ghost use Rattle.plain_spelling.specs.PlainTail.{plain_tail as tail_of};

use instruction_parts::Spelling;
use instruction_parts::row_types::Row;
use plain_spelling::NoSpelling;
use plain_spelling::conditions::first_failed_condition;
use plain_spelling::parts::{PlainParts, plain_parts};
use plain_spelling::tail::plain_tail;
use x86_values::{Bits, Instr};

/// Writes the plain spelling of an instruction of a row from the opcode byte on, like `write_operands`, from the parts of the plain spelling, which
/// include the address.
pub fn write_tail(
    bits: Bits,
    row: &Row,
    instr: &Instr,
    parts: &PlainParts,
) -> Result<Spelling, NoSpelling>
    requires sound { IsTrue (sound row.now) }
    requires parts { ArePartsOf bits row.now instr.now parts.now }
    ensures ok { IfOk result (λ s. (failing bits parts.now.ip row.now instr.now ≡ None) × (s ≡ tail_of bits parts.now.ip row.now instr.now)) }
    ensures err { IfErr result (λ why. failing bits parts.now.ip row.now instr.now ≡ Some why) }
{
    match first_failed_condition(bits, row, instr, parts) {
        Some(why) => Err(why),
        None => Ok(plain_tail(bits, row, instr, parts)),
    }
}

/// Returns the plain spelling of an instruction of a row at an address from the opcode byte on, with no prefixes and no VEX (Intel SDM volume 2,
/// 2.1.3 to 2.1.5, 2.2.1 and 2.3.5 to 2.3.12).
///
/// The error is the first condition that fails, in this order: operands, registers, addresses, displacements, immediates, targets, prefixes, address
/// size. A target counts from the end of the whole plain spelling, including its prefixes and VEX.
pub fn write_operands(bits: Bits, ip: u64, row: &Row, instr: &Instr) -> Result<Spelling, NoSpelling>
    requires { IsTrue (sound row.now) }
    ensures ok { IfOk result (λ s. (failing bits ip row.now instr.now ≡ None) × (s ≡ tail_of bits ip row.now instr.now)) }
    ensures err { IfErr result (λ why. failing bits ip row.now instr.now ≡ Some why) }
{
    let parts = plain_parts(bits, ip, row, instr);
    write_tail(bits, row, instr, &parts)
}
