//! What a stream leaves where a port fails at a call, or has too little room.

use crate::tests::outcomes::{all_leave, outcome_between, wrote};
use crate::tests::runs::{Ports, WHOLE};
use std::alloc::{AllocError, Global};
use std::test::Fail;

const ROOM: usize = 16_384;

const LIST: &str = "list 64 0 intel";

const INFO: &str = "info 64 0";

const RECODE: &str = "recode 64 0 64 0";

const ASM: &str = "asm 64 0";

const UNREAD: &str = "read fault\n";

const UNWRITTEN: &str = "write fault\n";

/// A line of the listing.
const NOP: &str = "0000000000000000 90                             nop\n";

/// A line and 8 bytes of the next one.
const FRONT: &str = "0000000000000000 90                             nop\n00000000";

/// The texts `nop` and `ret`.
const TEXTS: &str = "6e6f700a7265740a";

/// The text `nop` and a line that is none.
const BAD_TEXTS: &str = "6e6f700a6e6f0a";

#[test]
fn a_fault_of_a_port_leaves_what_it_should(rt: HostRuntime) -> Result<(), Fail> {
    let cases = &[
        (LIST, "90", [1, 0, 0], ROOM, 3, "", UNREAD),
        (LIST, "9090", [2, 0, 0], ROOM, 3, "", UNREAD),
        (LIST, "9090", [0, 1, 0], ROOM, 4, "", UNWRITTEN),
        (LIST, "90", [0, 1, 1], ROOM, 4, "", ""),
        (LIST, "90", [0, 2, 0], ROOM, 0, NOP, ""),
        (LIST, "90", [0, 6, 0], ROOM, 0, NOP, ""),
        // an output with less room takes a part and then fails
        (LIST, "9090", [0, 0, 1], 60, 4, FRONT, ""),
        (INFO, "900f04", [2, 0, 0], ROOM, 3, "", UNREAD),
        (
            INFO,
            "900f04",
            [0, 0, 0],
            18,
            4,
            "0000000000000000 N",
            UNWRITTEN,
        ),
        (INFO, "90", [0, 1, 0], ROOM, 4, "", UNWRITTEN),
        (INFO, "0f04", [0, 0, 1], ROOM, 2, "", ""),
        (
            INFO,
            "0f04",
            [0, 1, 0],
            ROOM,
            2,
            "",
            "bad code at 0: invalid\n",
        ),
        // a bad line is told before the output is asked
        (ASM, TEXTS, [2, 0, 0], ROOM, 3, "", UNREAD),
        (
            ASM,
            BAD_TEXTS,
            [0, 1, 0],
            ROOM,
            11,
            "",
            "bad text in line 2\n",
        ),
        // what reads nothing does not ask its source
        ("rows", "", [1, 1, 0], ROOM, 4, "", UNWRITTEN),
        ("rows", "", [1, 0, 0], 15, 4, "0 00 /r add\n1 o", UNWRITTEN),
        ("--version", "", [1, 1, 1], ROOM, 4, "", ""),
    ];
    all_leave(&rt, rt.alloc(), cases)
}

const NOPS: &str = "90909090909090909090909090909090";

/// NOP, a byte at which no instruction is read, and more of NOP.
const BROKEN: &str = "90069090909090909090909090909090";

/// Two lines of the listing.
const TWO: &str =
    "0000000000000000 90                             nop\n0000000000000001 90                             nop\n";

/// What NOP does.
const NEXT: &str = "0000000000000000 Next\n";

/// The byte of NOP.
const BYTE: &str = "0000000000000000 90\n";

const BAD: &str = "bad code at 1: invalid\n";

/// A source that gives a byte a call, and fails at this call.
fn slow_ports(pull: u64) -> Ports {
    Ports {
        pull,
        is_slow: true,
        ..WHOLE
    }
}

/// The call at which a source fails, for a message.
fn at_call(alloc: Global, pull: u64) -> Result<String, AllocError> {
    format!(in alloc; "at {pull}")
}

// The lines of the items of which 15 bytes were read stand where the source fails at a call, a byte a call.
#[test]
fn lines_are_written_before_more_is_read(rt: HostRuntime) -> Result<(), Fail> {
    let cases = &[
        (LIST, NOPS, 1, 3, "", UNREAD),
        (LIST, NOPS, 15, 3, "", UNREAD),
        (LIST, NOPS, 16, 3, NOP, UNREAD),
        (LIST, NOPS, 17, 3, TWO, UNREAD),
        (INFO, NOPS, 16, 3, NEXT, UNREAD),
        (RECODE, NOPS, 16, 3, BYTE, UNREAD),
        (INFO, BROKEN, 16, 3, NEXT, UNREAD),
        (INFO, BROKEN, 17, 2, NEXT, BAD),
        (RECODE, BROKEN, 17, 2, BYTE, BAD),
    ];
    for (command, digits, pull, number, out, err) in cases {
        let ran = outcome_between(rt.alloc(), command, digits, &slow_ports(*pull))?;
        let at = at_call(rt.alloc(), *pull)?;
        wrote(&rt, &ran, (*number, out, err), command, &at)?;
    }
    Ok(())
}
