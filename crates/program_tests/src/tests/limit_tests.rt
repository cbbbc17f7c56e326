//! What is refused, and that nothing is written then.

use crate::tests::outcomes::{outcome_of, wrote};
use crate::tests::runs::{Outcome, run_command};
use std::alloc::{AllocError, Global};
use std::test::Fail;

#[test]
fn code_that_is_refused_leaves_nothing(rt: HostRuntime) -> Result<(), Fail> {
    let cases = &[
        (
            "move 64 1000 80001001",
            "488b0500000000",
            8,
            "instruction 0 cannot reach 0x1007\n",
        ),
        ("move 64 0 0", "900f04", 2, "bad code at 1: invalid\n"),
        ("move 64 0 0", "900f", 2, "bad code at 1: too short\n"),
        (
            "move 64 0 ffffffffffffffff",
            "9090",
            7,
            "end 0x10000000000000001 passes the address space\n",
        ),
        (
            "move 64 ffffffffffffffff 0",
            "9090",
            7,
            "end 0x10000000000000001 passes the address space\n",
        ),
        (
            "move 32 0 ffffffff",
            "9090",
            7,
            "end 0x100000001 passes the address space\n",
        ),
        (
            "move 16 0 ffff",
            "9090",
            7,
            "end 0x10001 passes the address space\n",
        ),
        (
            "move 16 ffff 0",
            "9090",
            7,
            "end 0x10001 passes the address space\n",
        ),
        (
            "slots 64 1000 2000 10",
            "9090",
            9,
            "region full: need 16, largest 0\n",
        ),
        // 7 bytes and a jump that may have to go through 8 more
        (
            "slots 64 1000 80001010 10",
            "488b0500000000",
            9,
            "region full: need 32, largest 16\n",
        ),
        (
            "slots 64 1000 80001010 20",
            "488b0500000000",
            8,
            "instruction 0 cannot reach 0x1007\n",
        ),
        (
            "slots 64 1000 80001010 30",
            "90488b0500000000",
            8,
            "instruction 1 cannot reach 0x1008\n",
        ),
        // the first that is refused decides, and bad code comes before it
        (
            "slots 64 1000 80001010 20",
            "488b05000000009090",
            8,
            "instruction 0 cannot reach 0x1007\n",
        ),
        (
            "slots 64 1000 2000 10",
            "90900f04",
            2,
            "bad code at 2: invalid\n",
        ),
        (
            "slots 64 1000 80001010 20",
            "488b05000000000f",
            2,
            "bad code at 7: too short\n",
        ),
    ];
    for (command, digits, number, line) in cases {
        let ran = outcome_of(rt.alloc(), command, digits)?;
        wrote(&rt, &ran, (*number, "", line), command, digits)?;
    }
    Ok(())
}

/// The message for an input with more bytes than are read.
const LARGE: &str = "input over 1048576 bytes\n";

/// How many bytes there are, for a message.
fn byte_count(alloc: Global, count: usize) -> Result<String, AllocError> {
    format!(in alloc; "with {count} bytes")
}

/// What a command gives for so many equal bytes.
fn outcome_of_many(alloc: Global, command: &str, byte: u8, count: usize) -> Result<Outcome, Fail> {
    let input = vec![in alloc; byte; count]?;
    Ok(run_command(alloc, command, &input)?)
}

#[test]
fn inputs_have_their_limits(rt: HostRuntime) -> Result<(), Fail> {
    let cases = &[
        (
            "move 64 0 0",
            0x90,
            65_537,
            10,
            "65537 instructions are too many\n",
        ),
        ("move 64 0 0", 0x90, 1_048_577, 6, LARGE),
        ("slots 64 0 1000 10", 0x90, 1_048_577, 6, LARGE),
        ("flow 64 0", 0xc3, 1_048_577, 6, LARGE),
        ("asm 64 0", b'\n', 1_048_577, 6, LARGE),
        // prefixes without an instruction behind them
        ("move 64 0 0", 0x66, 65_536, 2, "bad code at 0: invalid\n"),
        ("map 64 0 0", 0x66, 65_536, 2, "bad code at 0: invalid\n"),
        // one byte past the last address
        (
            "move 16 0 ff00",
            0x90,
            257,
            7,
            "end 0x10001 passes the address space\n",
        ),
    ];
    for (command, byte, count, number, line) in cases {
        let ran = outcome_of_many(rt.alloc(), command, *byte, *count)?;
        let case = byte_count(rt.alloc(), *count)?;
        wrote(&rt, &ran, (*number, "", line), command, &case)?;
    }
    Ok(())
}
