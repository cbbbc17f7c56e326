//! What a command over moved code, slots or flow leaves where a port fails at a call, or has too little room.

use crate::tests::outcomes::{all_leave, outcome_between, wrote_bytes};
use crate::tests::runs::{Ports, WHOLE};
use std::test::Fail;

const ROOM: usize = 256;

const UNREAD: &str = "read fault\n";

const UNWRITTEN: &str = "write fault\n";

const BAD: &str = "bad code at 0: invalid\n";

/// A line of flow and the first byte of a second one.
const FRONT: &str = "0000000000000000 0000000000000000 Next\n0";

/// What the command states of one made instruction.
const ONE: &str = "instructions 1\nbytes 7\ntext 78\nmoved 7\ngrown 0\nsum 824\n";

#[test]
fn a_fault_of_a_port_leaves_what_it_should(rt: HostRuntime) -> Result<(), Fail> {
    let cases = &[
        ("move 64 1000 2000", "ebfe", [1, 0, 0], ROOM, 3, "", UNREAD),
        (
            "move 64 1000 2000",
            "ebfe",
            [0, 1, 0],
            ROOM,
            4,
            "",
            UNWRITTEN,
        ),
        ("move 64 0 0", "0f04", [0, 0, 1], ROOM, 2, "", ""),
        ("move 64 0 0", "0f04", [0, 1, 0], ROOM, 2, "", BAD),
        ("map 64 0 0", "90", [0, 1, 0], ROOM, 4, "", UNWRITTEN),
        (
            "slots 64 1000 2000 10",
            "90",
            [2, 0, 0],
            ROOM,
            3,
            "",
            UNREAD,
        ),
        ("flow 64 0", "90", [1, 0, 0], ROOM, 3, "", UNREAD),
        ("flow 64 0", "90c3", [2, 0, 0], ROOM, 3, "", UNREAD),
        // room for one line and the front of the second
        ("flow 64 0", "90c3", [0, 0, 0], 40, 4, FRONT, UNWRITTEN),
        // what reads nothing does not ask its source
        ("sample 1", "", [1, 0, 1], ROOM, 0, ONE, ""),
        ("sample 1", "", [0, 1, 0], ROOM, 4, "", UNWRITTEN),
        ("sample 0", "", [1, 1, 1], ROOM, 1, "", ""),
    ];
    all_leave(&rt, rt.alloc(), cases)
}

// The first bytes of what was to be written stand where there is no room for all. The lines of `asm` are nop and ret.
#[test]
fn an_output_with_little_room_takes_a_part(rt: HostRuntime) -> Result<(), Fail> {
    let cases = &[
        ("slots 64 1000 2000 10", "90", 3, "90e9fb"),
        ("move 64 1000 7fff00000000", "7410", 5, "7506ff2500"),
        ("asm 64 0", "6e6f700a7265740a", 1, "90"),
    ];
    for (command, digits, room, out) in cases {
        let ports = Ports {
            room: *room,
            ..WHOLE
        };
        let ran = outcome_between(rt.alloc(), command, digits, &ports)?;
        let wanted = (4, *out, UNWRITTEN);
        wrote_bytes(&rt, rt.alloc(), &ran, wanted, command, digits)?;
    }
    Ok(())
}
