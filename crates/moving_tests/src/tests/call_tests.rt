//! Calls that push their own return addresses, elsewhere, with bytes worked out manually from the manual's encodings of PUSH, MOV and JMP.

use crate::tests::compare::same;
use decoder::decode_in;
use move_goals::Placed;
use std::alloc::Global;
use std::process::Abort;
use std::test::Fail;
use step_slots::step_call_at;
use x86_values::Bits;

/// A CALL elsewhere: the mode, its address and its bytes, the place, and the bytes there or why there are none.
type Call = (Bits, u64, &'static str, u64, &'static str);

const CALLS: &[Call] = &[
    // call 0x401015: push 0x401005, mov dword [rsp+4], 0, and jmp 0x401015
    (
        Bits::B64,
        0x40_1000,
        "e810000000",
        0x50_0000,
        "6805104000c744240400000000e90310f0ff",
    ),
    // through a slot, with a gap of five bytes before it
    (
        Bits::B64,
        0x1000,
        "e8fb0f0000",
        0x7f00_0000_0000,
        "6805100000c744240400000000ff2505000000cccccccccc0020000000000000",
    ),
    // a low half that PUSH extends with ones, and a high half: call rax at 7fff80000000
    (
        Bits::B64,
        0x7fff_8000_0000,
        "ffd0",
        0x50_0000,
        "6802000080c7442404ff7f0000ffe0",
    ),
    // call [rsp+8], [rsp] and [rsp+78] are raised by 8, the last to a displacement of four bytes
    (
        Bits::B64,
        0x1000,
        "ff542408",
        0x2000,
        "6804100000c744240400000000ff642410",
    ),
    (
        Bits::B64,
        0x1000,
        "ff1424",
        0x2000,
        "6803100000c744240400000000ff642408",
    ),
    (
        Bits::B64,
        0x1000,
        "ff542478",
        0x2000,
        "6804100000c744240400000000ffa42480000000",
    ),
    // call [rsp+rax*8-16] has an index
    (
        Bits::B64,
        0x1000,
        "ff54c4f0",
        0x2000,
        "6804100000c744240400000000ffa4c4f8ffffff",
    ),
    // call [rip+10] keeps its address, 1016
    (
        Bits::B64,
        0x1000,
        "ff1510000000",
        0x2000,
        "6806100000c744240400000000ff2503f0ffff",
    ),
    // call fs:[rbx+8] keeps its segment and is not raised
    (
        Bits::B64,
        0x1000,
        "64ff5308",
        0x2000,
        "6804100000c74424040000000064ff6308",
    ),
    // in 32 and 16-bit mode, [esp+4] raised by 4
    (
        Bits::B32,
        0x1000,
        "e8fb0f0000",
        0x1800,
        "6805100000e9f6070000",
    ),
    (Bits::B32, 0x1000, "ff542404", 0x1800, "6804100000ff642408"),
    (Bits::B16, 0x1000, "e8fd0f", 0x1800, "680310e9fa07"),
    // no CALL, a far one, one of another operand size, and through the stack pointer or below it
    (Bits::B64, 0x1000, "90", 0x2000, NO_CALL),
    (Bits::B64, 0x1000, "ff18", 0x2000, NO_CALL),
    (Bits::B32, 0x1000, "66ffd0", 0x2000, NO_CALL),
    (Bits::B64, 0x1000, "ffd4", 0x2000, NO_CALL),
    (Bits::B64, 0x1000, "ff5424f8", 0x2000, NO_CALL),
    // a displacement that does not hold eight more
    (Bits::B64, 0x1000, "ff9424f8ffff7f", 0x2000, NO_CALL),
    // past the last address, and an operand out of reach
    (
        Bits::B16,
        0x1000,
        "ffd0",
        0xfffc,
        "the block ends at 0x10001, past the address space",
    ),
    (
        Bits::B64,
        0x1000,
        "ff1500000000",
        0x7f00_0000_0000,
        "cannot reach 0x1006",
    ),
];

/// Why there is no block.
const NO_CALL: &str = "no near call whose return address can be pushed apart";

/// The bytes of a CALL elsewhere in hexadecimal, or why there are none.
fn called(alloc: Global, bits: Bits, ip: u64, digits: &str, place: u64) -> Result<String, Fail> {
    let bytes = hex::decode(alloc, digits)?;
    let decoded = decode_in(bits, ip, &bytes)?;
    let item = Placed {
        ip,
        len: decoded.len,
        instr: decoded.instr,
    };
    match step_call_at(alloc, bits, item, place) {
        Ok(moved) => Ok(hex::encode(alloc, moved.bytes())?),
        Err(why) => Ok(format!(in alloc; "{why}")?),
    }
}

/// That a CALL elsewhere has these bytes.
fn becomes(rt: &impl Abort, found: &String, want: &str) {
    same(rt, "a call elsewhere", &found.as_str(), &want);
}

#[test]
fn calls_push_their_own_return_addresses(rt: HostRuntime) -> Result<(), Fail> {
    for (bits, ip, digits, place, want) in CALLS {
        let found = called(rt.alloc(), *bits, *ip, digits, *place)?;
        becomes(&rt, &found, want);
    }
    Ok(())
}
