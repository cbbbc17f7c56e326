//! Tables of functions, with how many bytes are enough for the trampoline of each, and of patches, with their writes. The answers are worked out manually.

use crate::detours::compare::{are_bytes, same};
use feddurzai::hooks::{
    HookRules, MAX_TRAMPOLINE, StartTarget, Write, detour, detour_len, writes_of,
};
use feddurzai::values::Bits;
use std::alloc::Global;
use std::process::Abort;
use std::test::Fail;

/// A function as hexadecimal digits at 1000, its replacement, and whether a call at the end pushes its own return address.
#[derive(Clone, Copy)]
struct Case {
    bits: Bits,
    code: &'static str,
    to: u64,
    returns: bool,
}

/// A function of 64-bit mode whose replacement is at 5000.
const NEAR: Case = Case {
    bits: Bits::B64,
    code: "",
    to: 0x5000,
    returns: false,
};

/// One whose replacement is out of reach.
const FAR: Case = Case {
    to: 0x7000_0000_0000,
    ..NEAR
};

/// Such functions of 32-bit and 16-bit mode.
const NEAR_32: Case = Case {
    bits: Bits::B32,
    ..NEAR
};

const NEAR_16: Case = Case {
    bits: Bits::B16,
    ..NEAR
};

/// push rbp; mov rbp, rsp; mov eax, edi; pop rbp; ret
const FRAME: &str = "554889e589f85dc3";

/// ret and NOPs up to 7 bytes
const RET: &str = "c39066900f1f00";

/// A call out of the code; ret
const CALL: &str = "e800010000c3";

/// Functions with the length that is enough.
const LENGTHS: &[(Case, usize)] = &[
    // 6 bytes are taken; the jump back may go through a slot: 6 bytes, 7 of gap and 8
    (
        Case {
            code: FRAME,
            ..NEAR
        },
        27,
    ),
    // the relay has 14 more
    (Case { code: FRAME, ..FAR }, 41),
    // no jump back
    (Case { code: RET, ..NEAR }, 1),
    (Case { code: RET, ..FAR }, 15),
    // je to 3; three NOPs: je through a slot is jne over a jump, 2 and 6 bytes, and there are two slots
    (
        Case {
            code: "7401909090",
            ..NEAR
        },
        40,
    ),
    // a call through a slot has 6 bytes, and there are two slots
    (Case { code: CALL, ..NEAR }, 35),
    // push has 5 bytes, mov 8, the jump through a slot 6
    (
        Case {
            code: CALL,
            returns: true,
            ..NEAR
        },
        34,
    ),
    // thirteen NOPs; mov rax, imm64: the jump of 14 bytes takes 23, and that is more than 5 with a relay
    (
        Case {
            code: "9090909090909090909090909048b80000000000000000",
            ..FAR
        },
        44,
    ),
    // nothing can be taken: too few bytes, one that starts no instruction, and code behind a ret
    (Case { code: "c3", ..NEAR }, 0),
    (
        Case {
            code: "9090069090",
            ..NEAR
        },
        0,
    ),
    (
        Case {
            code: "c34889c890",
            ..FAR
        },
        0,
    ),
    // 32-bit mode: push ebp; mov ebp, esp; sub esp, 8; the jump back always reaches
    (
        Case {
            code: "5589e583ec08",
            ..NEAR_32
        },
        11,
    ),
    // 16-bit mode, where the jump has 3 bytes: mov ax, 1234
    (
        Case {
            code: "b83412",
            ..NEAR_16
        },
        6,
    ),
    // loop to itself, at most with a jump over a near jump, 7 bytes; a NOP
    (
        Case {
            code: "e2fe90",
            ..NEAR_16
        },
        11,
    ),
];

/// The length for a case.
fn length_of(alloc: Global, case: &Case) -> Result<usize, Fail> {
    let code = hex::decode(alloc, case.code)?;
    let rules = HookRules {
        start: StartTarget::Moved,
        whole: true,
        returns: case.returns,
        calls: true,
    };
    Ok(detour_len(alloc, case.bits, 0x1000, &code, case.to, rules)?)
}

#[test]
fn lengths_are_known_before_places(rt: HostRuntime) -> Result<(), Fail> {
    for (case, len) in LENGTHS {
        let found = length_of(rt.alloc(), case)?;
        same(&rt, case.code, &found, len);
    }
    same(&rt, "the greatest", &MAX_TRAMPOLINE, &400);
    Ok(())
}

/// That some writes have these offsets and bytes, as hexadecimal digits.
fn are_writes(
    rt: &impl Abort,
    alloc: Global,
    of: &str,
    writes: [Write<'_>; 3],
    want: [(usize, &str); 3],
) -> Result<(), Fail> {
    for k in 0..3 {
        same(rt, of, &writes[k].offset, &want[k].0);
        are_bytes(rt, alloc, of, writes[k].bytes, want[k].1)?;
    }
    Ok(())
}

#[test]
fn the_first_byte_is_last(rt: HostRuntime) -> Result<(), Fail> {
    let alloc = rt.alloc();
    let code = b"\x55\x48\x89\xe5\x89\xf8\x5d\xc3";
    let made = detour(
        alloc,
        Bits::B64,
        0x1000,
        code,
        0x5000,
        0x9000,
        StartTarget::Moved,
    )?;
    let patch = [(0, "cc"), (1, "fb3f0000cc"), (0, "e9")];
    are_writes(&rt, alloc, "the patch", made.writes(), patch)?;
    let old = [(0, "cc"), (1, "4889e589f8"), (0, "55")];
    are_writes(&rt, alloc, "the old bytes", writes_of(&code[..6]), old)?;
    let one = [(0, "cc"), (1, ""), (0, "c3")];
    are_writes(&rt, alloc, "one byte", writes_of(b"\xc3"), one)?;
    let none = [(0, ""), (0, ""), (0, "")];
    are_writes(&rt, alloc, "no byte", writes_of(&[]), none)
}
