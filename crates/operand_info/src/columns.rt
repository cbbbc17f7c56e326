//! The columns of a row: its flow, the access of its operands, and the size of its memory operand.

ghost use Rattle.std.specs.Prelude.{◌≡◌, ◌<◌, slice_get, Some};
ghost use Rattle.operand_info.specs.Lines.{columns};
ghost use Rattle.operand_info.specs.ByCode as spec;

use crate::generated_columns::COLUMNS;
use opcode_rows::ROWS;
use x86_values::Code;

/// Where control goes after an instruction.
#[derive(Clone, Copy, PartialEq, Eq, Debug)]
pub enum Flow {
    /// To the next instruction.
    Next,
    /// To a target that the instruction holds: JMP to an offset or a far pointer.
    UnconditionalBranch,
    /// To a target in a register or in memory: the other JMPs.
    IndirectBranch,
    /// To a target that the instruction holds, or to the next instruction: Jcc, JRCXZ, LOOP, LOOPE, LOOPNE.
    ConditionalBranch,
    /// Back, to a target on the stack or in registers: RET, IRET, SYSRET, SYSEXIT.
    Return,
    /// To a procedure that the instruction or the system names, and later to the next instruction: CALL to an offset or a far pointer, SYSCALL,
    /// SYSENTER.
    Call,
    /// To a procedure whose address is in a register or in memory, and later to the next instruction: the other CALLs.
    IndirectCall,
    /// To the handler of an interrupt: INT, INT1, INT3, INTO.
    Interrupt,
    /// To the handler of the exception #UD: UD1, UD2.
    Exception,
}

/// What an instruction does to the whole of an operand. A partial or conditional write counts as a read and a write.
#[derive(Clone, Copy, PartialEq, Eq, Debug)]
pub enum Access {
    /// Nothing: it is a hint, or only its address is used, or there is no such operand.
    None,
    Read,
    Write,
    ReadWrite,
}

/// The columns of a row: its flow, the access to its four operands, and the size of its memory operand in bytes.
#[derive(Clone, Copy)]
pub struct Columns {
    pub flow: Flow,
    pub op0: Access,
    pub op1: Access,
    pub op2: Access,
    pub op3: Access,
    pub memory: u8,
}

/// The line of a code.
#[inline]
fn line_at(code: Code) -> Columns
    requires { code.0 < ROWS }
    ensures { slice_get columns code.0 ≡ Some result }
{
    COLUMNS[code.0 as usize]
}

/// The columns of the row of a code.
#[inline]
fn columns_at(code: Code) -> Columns
    requires { code.0 < ROWS }
    ensures flow { result.flow ≡ spec.flow_of code.0 }
    ensures first { result.op0 ≡ spec.access_of code.0 0 }
    ensures second { result.op1 ≡ spec.access_of code.0 1 }
    ensures third { result.op2 ≡ spec.access_of code.0 2 }
    ensures fourth { result.op3 ≡ spec.access_of code.0 3 }
    ensures memory { result.memory ≡ spec.memory_size code.0 }
{
    line_at(code)
}

/// Returns where control goes after an instruction with a code below `ROWS`.
#[inline]
pub fn flow_of(code: Code) -> Flow
    requires { code.0 < ROWS }
    ensures { result ≡ spec.flow_of code.0 }
{
    columns_at(code).flow
}

/// Returns what an instruction with a code below `ROWS` does to operand `n`, 0 to 3; `None` if it has no such operand.
#[inline]
pub fn access_of(code: Code, n: usize) -> Access
    requires code { code.0 < ROWS }
    requires number { n < 4 }
    ensures { result ≡ spec.access_of code.0 n }
{
    let columns = columns_at(code);
    match n {
        0 => columns.op0,
        1 => columns.op1,
        2 => columns.op2,
        _ => columns.op3,
    }
}

/// Returns the size in bytes of the memory operand of a code below `ROWS`, 0 to 32. It is 0 if there is no memory operand or its size is unknown.
#[inline]
pub fn memory_size(code: Code) -> u8
    requires { code.0 < ROWS }
    ensures { result ≡ spec.memory_size code.0 }
{
    columns_at(code).memory
}
