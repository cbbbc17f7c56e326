//! The code of a single step.

use crate::c_tests::compare::{answers, are, wrote};
use crate::c_tests::empty::NO_STEP;
use c_calls::stepping::{step, step_len};

/// `call 0x2000` at 1000.
const CALL: &[u8] = b"\xe8\xfb\x0f\0\0";

/// A room of nine bytes as it was.
const UNTOUCHED: &[u8] = &[0xaa; 9];

/// A step of what stands at 1000: the mode, the bytes and the place; the answer, the numbers of bytes and of the jump back, an address that is not
/// reached, the number of the instruction's bytes, and the offset at which it has happened; and the room.
type Step = (u32, &'static [u8], u64, i32, [u64; 5], &'static [u8]);

const STEPS: &[Step] = &[
    // E8 and the distance, and a jump back to 1005
    (
        64,
        CALL,
        0x1800,
        10,
        [10, 5, 0, 5, 5],
        b"\xe8\xfb\x07\0\0\xe9\xfb\xf7\xff\xff\xaa\xaa",
    ),
    // through a slot, the jump back through another, and the slots
    (
        64,
        CALL,
        0x7f00_0000_0000,
        32,
        [32, 6, 0, 5, 6],
        b"\xff\x15\x0a\0\0\0\xff\x25\x0c\0\0\0\xcc\xcc\xcc\xcc\0\x20\0\0\0\0\0\0\x05\x10\0\0\0\0\0\0",
    ),
    // a jump to itself, which goes back to where it stood
    (
        64,
        b"\xeb\xfe",
        0x1080,
        10,
        [10, 5, 0, 2, 5],
        b"\xe9\x7b\xff\xff\xff\xe9\x78\xff\xff\xff\xaa\xaa",
    ),
    // `loop 0x1010`: E2 over a jump to 2009, and a jump; the loop has counted after 2 of its 9 bytes; and a jump back to 1002
    (
        64,
        b"\xe2\x0e",
        0x2000,
        14,
        [14, 9, 0, 2, 2],
        b"\xe2\x02\xeb\x05\xe9\x07\xf0\xff\xff\xe9\xf4\xef\xff\xff\xaa\xaa",
    ),
    // no mode, no instruction, and none that is whole
    (17, CALL, 0x1800, -1, [0, 0, 0, 0, 0], UNTOUCHED),
    (64, b"\x06", 0x1800, -7, [0, 0, 0, 0, 0], UNTOUCHED),
    (64, &[], 0x1800, -8, [0, 0, 0, 0, 0], UNTOUCHED),
    // `nop` and a jump of 3 bytes pass the last address of 16-bit code
    (16, b"\x90", 0xfffe, -13, [0, 0, 0x10002, 0, 0], UNTOUCHED),
    // `mov eax, [rip]` cannot reach from there
    (
        64,
        b"\x8b\x05\0\0\0\0",
        0x7f00_0000_0000,
        -14,
        [0, 0, 0x1006, 0, 0],
        UNTOUCHED,
    ),
    // a room for one byte less
    (64, CALL, 0x1800, -6, [10, 5, 0, 5, 5], UNTOUCHED),
];

#[test]
fn steps_are_made(rt: HostRuntime) {
    for (bits, code, place, want, numbers, room) in STEPS {
        let mut out = [0xaa; 32];
        let out = &mut out[..room.len().min(32)];
        let mut report = NO_STEP;
        let answer = step(rt.alloc(), *bits, 0x1000, code, *place, out, &mut report);
        let found = [
            report.bytes,
            report.back_at,
            report.address,
            report.len as u64,
            report.done_at as u64,
        ];
        are(&rt, "a step", &found, numbers);
        wrote(&rt, "its room", answer, out, *want, room);
    }
}

/// How many bytes are reserved for a step of what stands at 1000, or why none: the mode, the bytes and the answer.
const RESERVED: &[(u32, &[u8], i32)] = &[
    (64, CALL, 32),
    (17, CALL, -1),
    (64, b"\x06", -7),
    (64, b"\xe8", -8),
];

#[test]
fn steps_tell_their_length(rt: HostRuntime) {
    for (bits, code, want) in RESERVED {
        let len = step_len(*bits, 0x1000, code, 0x1800);
        answers(&rt, "the bytes of a step", len, *want);
    }
}
