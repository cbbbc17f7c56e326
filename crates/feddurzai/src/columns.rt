//! What the row of an instruction says of it.

ghost use Rattle.std.specs.Prelude.{◌≡◌, ◌<◌, IsTrue};
ghost use Rattle.opcode_rows.specs.Allowed.{is_well_formed};
ghost use Rattle.operand_info.specs.ByCode as spec;

use operand_info::laws::well_formed_codes_are_in_the_table;
use operand_info::{Access, Flow, access_of, flow_of, memory_size};
use x86_values::Instr;

/// Returns where control goes after a well-formed instruction: [`flow_of`] of its code. Every decoded instruction is well-formed.
#[inline]
pub fn flow_of_instr(instr: &Instr) -> Flow
    requires { IsTrue (is_well_formed instr.now) }
    ensures { result ≡ spec.flow_of instr.now.code.0 }
{
    well_formed_codes_are_in_the_table();
    flow_of(instr.code)
}

/// Returns the access of a well-formed instruction to operand `n`, 0 to 3: [`access_of`] of its code.
#[inline]
pub fn access_of_instr(instr: &Instr, n: usize) -> Access
    requires form { IsTrue (is_well_formed instr.now) }
    requires number { n < 4 }
    ensures { result ≡ spec.access_of instr.now.code.0 n }
{
    well_formed_codes_are_in_the_table();
    access_of(instr.code, n)
}

/// Returns the size in bytes of the memory operand of a well-formed instruction, 0 to 32: [`memory_size`] of its code. It is 0 if there is none, or
/// if its size is unknown.
#[inline]
pub fn memory_size_of_instr(instr: &Instr) -> u8
    requires { IsTrue (is_well_formed instr.now) }
    ensures { result ≡ spec.memory_size instr.now.code.0 }
{
    well_formed_codes_are_in_the_table();
    memory_size(instr.code)
}
