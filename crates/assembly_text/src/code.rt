//! What a line stands for.

ghost use Rattle.std.specs.Prelude.{◌≡◌, None, Ok};
ghost use Rattle.encoder.specs.Encoding.{encoding};
ghost use Rattle.assembly_text.specs.Known.{IsFor};

use code_assembler::{Prepared, prepared_from};
use intel_reader::Found;
use x86_values::{Bits, Instr};

/// What the text of a line stands for.
#[derive(Clone, Copy)]
pub(crate) enum Code {
    /// An instruction.
    Plain(Instr),
    /// An instruction that goes to the name at a place of the text.
    Named(usize, Instr),
    /// Several instructions, of which each has another size of its address.
    Unsized,
    /// No instruction.
    Nothing,
}

/// What the text of a line stands for, and its instruction as it is prepared for a mode, if it is.
#[derive(Drop)]
pub(crate) struct PreparedCode {
    pub(crate) code: Code,
    pub(crate) ready: Option<Prepared>,
}

/// What a text stands for, without anything prepared.
pub(crate) fn unprepared(code: Code) -> PreparedCode
    ensures code { result.code ≡ code }
    ensures ready { result.ready ≡ None }
{
    PreparedCode { code, ready: None }
}

/// What a text stands for, with its instruction prepared for a mode if it has an encoding.
pub(crate) fn prepared(bits: Bits, code: Code) -> PreparedCode
    ensures code { result.code ≡ code }
    ensures ready { IsFor bits result.code result.ready }
{
    match &code {
        Code::Plain(instr) | Code::Named(_, instr) => PreparedCode {
            code,
            ready: Prepared::new(bits, instr).ok(),
        },
        Code::Unsized | Code::Nothing => unprepared(code),
    }
}

/// An instruction that was read with its bytes at an address, prepared for a mode.
pub(crate) fn found_code(bits: Bits, ip: u64, found: Found) -> PreparedCode
    requires { encoding bits ip found.instr ≡ Ok found.bytes.items }
    ensures code { result.code ≡ Code.Plain found.instr }
    ensures ready { IsFor bits result.code result.ready }
{
    let instr = found.instr;
    PreparedCode {
        code: Code::Plain(instr),
        ready: prepared_from(bits, ip, &instr, found.bytes),
    }
}
