//! Decodes some bytes. A line of the input has a mode and the bytes in hexadecimal, such as `64 f00100`. The output has after ` -> ` the length and
//! the Intel text of the instruction at their front, at address 0, or why there is none.

ghost use Rattle.std.specs.Prelude.{IfOk, IsTrue};
ghost use Rattle.opcode_rows.specs.Allowed.{is_well_formed};

use decoder::{DecodeError, decode};
use intel_text::print;
use std::str::from_utf8;
use x86_values::{Bits, Decoded};

/// What is read in a mode.
fn read(bits: Bits, bytes: &[u8]) -> Result<Decoded, DecodeError>
    ensures { IfOk result (λ d. IsTrue (is_well_formed d.instr)) }
{
    match bits {
        Bits::B16 => decode::<16>(0, bytes),
        Bits::B32 => decode::<32>(0, bytes),
        Bits::B64 => decode::<64>(0, bytes),
    }
}

/// Returns the mode that a word names, or 64 for any other word.
fn mode_of(word: &str) -> Bits {
    match word {
        "16" => Bits::B16,
        "32" => Bits::B32,
        _ => Bits::B64,
    }
}

/// Writes a line and what its bytes decode to.
fn tell(rt: &HostRuntime, line: &str, bits: Bits, bytes: &[u8]) -> anyhow::Result<()> {
    match read(bits, bytes) {
        Ok(d) => {
            let text = print(bits, &d.instr);
            println!(rt; "{line} -> {} {}", d.len, from_utf8(text.as_slice())?)?;
        }
        Err(DecodeError::Invalid) => println!(rt; "{line} -> invalid")?,
        Err(DecodeError::TooShort) => println!(rt; "{line} -> too short")?,
    }
    Ok(())
}

/// Writes what is read of the lines of standard input.
pub fn tell_lines(rt: &HostRuntime) -> anyhow::Result<()> {
    for line in rt.lines(rt.alloc()) {
        let line = line?;
        let text = line.as_str();
        if let Some((mode, digits)) = text.split_once(' ') {
            let bytes = hex::decode(rt.alloc(), digits)?;
            tell(rt, text, mode_of(mode), &bytes)?;
        }
    }
    Ok(())
}
