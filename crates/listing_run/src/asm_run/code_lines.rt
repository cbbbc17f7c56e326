//! The bytes of lines, one after another.

ghost use Rattle.std.specs.Prelude.{◌≡◌, ◌<◌, ◌≤◌, ◌∷◌, length, IfOk, IfErr};
ghost use Rattle.listing_run.specs.AsmRun.Lines.{lines_in};
ghost use Rattle.listing_run.specs.AsmRun.Assembling.{IsCodeOf, IsTextRefusal};

use crate::asm_run::code_of_line::code_of_line;
use std::alloc::Global;
use sweep::run_parts::Status;
use x86_values::{Bits, wrap};

/// The first line of some bytes without its line feed, and what follows that.
fn first_line(bytes: &[u8]) -> (&[u8], &[u8])
    requires { 0 < length bytes.now }
    ensures lines { lines_in bytes.now ≡ result.0.now ∷ lines_in result.1.now }
    ensures less { length result.1.now < length bytes.now }
{
    for at in 0..bytes.len() {
        if bytes[at] == b'\n' {
            let (line, rest) = bytes.split_at(at);
            let (_, behind) = rest.split_at(1);
            return (line, behind);
        }
    }
    bytes.split_at(bytes.len())
}

/// Returns the bytes of the lines of a text whose first byte has the address `base`, or the status: the first line that is neither the text of an
/// instruction nor a single byte, or lack of memory.
pub fn code_of_lines(alloc: Global, bits: Bits, base: u64, input: &[u8]) -> Result<Vec<u8>, Status>
    requires short { length input.now ≤ 1048576 }
    ensures code { IfOk result (λ code. IsCodeOf bits base input.now code.items) }
    ensures refused { IfErr result (λ status. IsTextRefusal bits base input.now status) }
{
    let mut code = Vec::new(alloc);
    let mut number: u64 = 0;
    let mut rest = input;
    while !rest.is_empty() {
        let (line, behind) = first_line(rest);
        number += 1;
        let ip = wrap(bits, u128::from(base) + code.len() as u128);
        let Some(bytes) = code_of_line(bits, ip, line) else {
            return Err(Status::BadText { line: number });
        };
        match code.extend_from_slice(&bytes) {
            Ok(()) => rest = behind,
            Err(_) => return Err(Status::Memory),
        }
    }
    Ok(code)
}
