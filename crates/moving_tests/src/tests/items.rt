//! Instructions of 64-bit mode at their old addresses, for tests.

ghost use Rattle.std.specs.Prelude.{IfOk};
ghost use Rattle.x86_values.specs.declared.Bits.{Bits};
ghost use Rattle.move_goals.specs.Items.{ArePlaced, IsPlaced};

use decoder::decode;
use encoder::encode;
use encoder::laws::encodings_are_plain;
use move_goals::Placed;
use std::alloc::Global;
use std::test::Fail;
use x86_values::{Bits, Instr};

/// An instruction at its old address, if some bytes spell it there.
fn placed(ip: u64, len: u8, instr: Instr) -> Result<Placed, Fail>
    ensures { IfOk result (λ item. IsPlaced Bits.B64 item) }
{
    if len < 1 || len > 15 {
        return Err(Fail::new("an instruction has 1 to 15 bytes"));
    }
    let _bytes = encode(Bits::B64, ip, &instr)?;
    encodings_are_plain();
    Ok(Placed { ip, len, instr })
}

/// The instruction at the front of bytes at an address.
pub(crate) fn placed_at(ip: u64, bytes: &[u8]) -> Result<Placed, Fail>
    ensures { IfOk result (λ item. IsPlaced Bits.B64 item) }
{
    let decoded = decode::<64>(ip, bytes)?;
    placed(ip, decoded.len, decoded.instr)
}

/// The instruction that bytes in hexadecimal are at an address.
pub(crate) fn placed_bytes(alloc: Global, ip: u64, digits: &str) -> Result<Placed, Fail>
    ensures { IfOk result (λ item. IsPlaced Bits.B64 item) }
{
    let bytes = hex::decode(alloc, digits)?;
    placed_at(ip, &bytes)
}

/// The instructions that some bytes in hexadecimal are, each at its address.
pub(crate) fn all_placed(alloc: Global, all: &[(u64, &str)]) -> Result<Vec<Placed>, Fail>
    ensures { IfOk result (λ items. ArePlaced Bits.B64 items.items) }
{
    let mut items = Vec::with_capacity(alloc, all.len())?;
    'items: for (ip, digits) in all {
        items.push(placed_bytes(alloc, *ip, digits)?)?;
    }
    Ok(items)
}
