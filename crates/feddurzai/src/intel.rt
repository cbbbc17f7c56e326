//! An instruction with the mode in which it is shown.

ghost use Rattle.std.specs.Prelude.{IsTrue, Some};
ghost use Rattle.std.specs.Fmt.{styled_text};
ghost use Rattle.opcode_rows.specs.Allowed.{is_well_formed};
ghost use Rattle.intel_text.specs.Text.{text};

use intel_text::print;
use std::fmt;
use text_parts::text::ascii_str;
use x86_values::{Bits, Instr};

/// Shows a well-formed instruction in the Intel style, in a mode: what it writes is the text of `print_intel`.
///
/// The text is ASCII, so the only failure is one of what it is written to. The contract cannot say so: std's `write_str` says nothing of its failures.
///
/// ```
/// let read = decode_in(Bits::B64, 0x40_1000, b"\x48\x89\xe5\xc3")?;
/// let instr = read.instr;
/// let text = Intel {
///     bits: Bits::B64,
///     instr,
/// };
/// println!(rt; "{} bytes: {text}", read.len)?; // 3 bytes: mov rbp, rsp
/// ```
#[derive(Clone, Copy, PartialEq, Eq, Debug)]
pub struct Intel {
    pub bits: Bits,
    pub instr: Instr,
    ghost formed: { IsTrue (is_well_formed instr) },
}

impl fmt::Display for Intel {
    ghost output = { λ x. Some (text x.bits x.instr) };

    ghost styled_output = { λ x spec. Some (styled_text spec (text x.bits x.instr)) };

    fn fmt<W: fmt::Write>(&self, f: &mut fmt::Formatter<W>) -> fmt::Result {
        let text = print(self.bits, &self.instr);
        f.pad(ascii_str(text.as_slice()))
    }
}
