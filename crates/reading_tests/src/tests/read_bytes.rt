//! Instructions for tests, from their bytes.

ghost use Rattle.std.specs.Prelude.{IfOk, IsTrue};
ghost use Rattle.opcode_rows.specs.Allowed.{is_well_formed};

use decoder::{DecodeError, decode};
use std::alloc::Global;
use std::test::Fail;
use x86_values::{Bits, Decoded};

/// What stands at the front of bytes, at an address.
pub(crate) fn read_at(bits: Bits, ip: u64, bytes: &[u8]) -> Result<Decoded, DecodeError>
    ensures { IfOk result (λ d. IsTrue (is_well_formed d.instr)) }
{
    match bits {
        Bits::B16 => decode::<16>(ip, bytes),
        Bits::B32 => decode::<32>(ip, bytes),
        Bits::B64 => decode::<64>(ip, bytes),
    }
}

/// The instruction that bytes in hexadecimal are, at an address.
pub(crate) fn read(alloc: Global, bits: Bits, ip: u64, digits: &str) -> Result<Decoded, Fail>
    ensures { IfOk result (λ d. IsTrue (is_well_formed d.instr)) }
{
    let bytes = hex::decode(alloc, digits)?;
    let decoded = read_at(bits, ip, &bytes)?;
    if usize::from(decoded.len) != bytes.len() {
        return Err(Fail::new("the instruction ends before the bytes do"));
    }
    Ok(decoded)
}
