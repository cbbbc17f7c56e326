//! Tables of small functions that are hooked through the padding in front of them. The answers are worked out manually.

use crate::detours::compare::{are_bytes, same};
use crate::detours::rule_tests::{Case, WHOLE, WHOLE_16, WHOLE_32, rules_of};
use feddurzai::hooks::{
    DetourError, PaddedDetour, PaddingError, RuleError, SightEnd, detour_through_padding,
};
use std::alloc::Global;
use std::test::Fail;

/// Hooks the function of a case behind some padding, with its replacement at an address.
fn padded_hook(
    alloc: Global,
    padding: &str,
    case: &Case,
    to: u64,
) -> Result<Result<PaddedDetour, PaddingError>, Fail> {
    let padding = hex::decode(alloc, padding)?;
    let code = hex::decode(alloc, case.code)?;
    if padding.len() > 64 || code.len() > 64 {
        return Err(Fail::new("the code of a case is short"));
    }
    Ok(detour_through_padding(
        alloc,
        case.bits,
        case.ip,
        &padding,
        &code,
        to,
        case.place,
        case.entries,
        rules_of(case),
    ))
}

/// Five of INT3
const INT3S: &str = "cccccccccc";

/// mov eax, edi; ret
const MOVE: Case = Case {
    code: "89f8c3",
    ..WHOLE
};

/// mov eax, edi; ret; and a cold part, jmp to the last byte of the padding
const COLD: &str = "89f8c3ebfa";

/// Where the replacement is out of reach
const FAR: u64 = 0x7000_0000_0000;

/// Functions that get a detour: the padding, the function, the replacement, the jump in the padding, the patch, the trampoline.
const PADDED: &[(&str, Case, u64, &str, &str, &str)] = &[
    // jmp from FFB to 5000; jump back from 9002 to 1002
    (INT3S, MOVE, 0x5000, "e900400000", "ebf9", "89f8e9fb7fffff"),
    // nop dword [rax+rax] and int3; xor eax, eax; ret
    (
        "0f1f440000cc",
        Case {
            code: "31c0c3",
            ..WHOLE
        },
        0x5000,
        "e900400000",
        "ebf9",
        "31c0e9fb7fffff",
    ),
    // ret and a NOP
    (
        INT3S,
        Case {
            code: "c390",
            ..WHOLE
        },
        0x5000,
        "e900400000",
        "ebf9",
        "c3",
    ),
    // mov rax, rcx; ret
    (
        INT3S,
        Case {
            code: "4889c8c3",
            ..WHOLE
        },
        0x5000,
        "e900400000",
        "ebf9cc",
        "4889c8e9fb7fffff",
    ),
    // a call of the first byte of the padding
    (
        INT3S,
        Case {
            code: "e8f6ffffffc3",
            ..WHOLE
        },
        0x5000,
        "e900400000",
        "ebf9cccccc",
        "e8f67fffffe9fb7fffff",
    ),
    // a cold part that is no entry
    (
        INT3S,
        Case {
            code: COLD,
            ..WHOLE
        },
        0x5000,
        "e900400000",
        "ebf9",
        "89f8e9fb7fffff",
    ),
    // the relay stands at 9007
    (
        INT3S,
        MOVE,
        FAR,
        "e907800000",
        "ebf9",
        "89f8e9fb7fffffff25000000000000000000700000",
    ),
    // the trampoline just before the padding
    (
        INT3S,
        Case {
            place: 0xFF4,
            ..MOVE
        },
        0x5000,
        "e900400000",
        "ebf9",
        "89f8e907000000",
    ),
    // 32-bit: two of inc eax; ret
    (
        "9090909090",
        Case {
            code: "4040c3",
            ..WHOLE_32
        },
        0x5000,
        "e900400000",
        "ebf9",
        "4040e9fb7fffff",
    ),
    // 16-bit: two of inc ax; ret
    (
        "909090",
        Case {
            code: "4040c3",
            ..WHOLE_16
        },
        0x5000,
        "e90040",
        "ebfb",
        "4040e9fd7f",
    ),
    // at address 0, with the padding at the end of the address space
    (
        "909090",
        Case {
            ip: 0,
            code: "4040c3",
            ..WHOLE_16
        },
        0x5000,
        "e90050",
        "ebfb",
        "4040e9fd6f",
    ),
];

#[test]
fn small_functions_are_hooked_through_padding(rt: HostRuntime) -> Result<(), Fail> {
    for (padding, case, to, jump, patch, trampoline) in PADDED {
        let made = padded_hook(rt.alloc(), padding, case, *to)??;
        are_bytes(&rt, rt.alloc(), case.code, made.jump(), jump)?;
        are_bytes(&rt, rt.alloc(), case.code, made.patch(), patch)?;
        are_bytes(&rt, rt.alloc(), case.code, made.trampoline(), trampoline)?;
        same(&rt, case.code, &made.seen().view.entered, &None);
    }
    Ok(())
}

/// Functions that are refused: the padding, the function, the replacement, the cause.
const REFUSED: &[(&str, Case, u64, PaddingError)] = &[
    (
        "cccccccc",
        MOVE,
        0x5000,
        PaddingError::TooShort { len: 4, need: 5 },
    ),
    (
        "9090",
        Case {
            code: "4040c3",
            ..WHOLE_16
        },
        0x5000,
        PaddingError::TooShort { len: 2, need: 3 },
    ),
    // a RET before the padding, and a prefix alone at its end
    (
        "c3cccccccccc",
        MOVE,
        0x5000,
        PaddingError::NotPadding { at: 0 },
    ),
    (
        "cccccccc66",
        MOVE,
        0x5000,
        PaddingError::NotPadding { at: 4 },
    ),
    // mov eax, edi; jmp into the padding
    (
        INT3S,
        Case {
            code: "89f8ebfa",
            ..WHOLE
        },
        0x5000,
        PaddingError::Entered { from: 7, target: 3 },
    ),
    // jmp to its last byte, and to its first one
    (
        INT3S,
        Case {
            code: "ebfd",
            ..WHOLE
        },
        0x5000,
        PaddingError::Entered { from: 5, target: 4 },
    ),
    (
        INT3S,
        Case {
            code: "ebf9",
            ..WHOLE
        },
        0x5000,
        PaddingError::Entered { from: 5, target: 0 },
    ),
    // a call of its second byte
    (
        INT3S,
        Case {
            code: "e8f7ffffffc3",
            ..WHOLE
        },
        0x5000,
        PaddingError::Entered { from: 5, target: 1 },
    ),
    // the cold part as an entry
    (
        INT3S,
        Case {
            code: COLD,
            entries: &[3],
            ..WHOLE
        },
        0x5000,
        PaddingError::Entered { from: 8, target: 4 },
    ),
    (
        INT3S,
        Case {
            code: "c3",
            ..WHOLE
        },
        0x5000,
        PaddingError::Function(RuleError::Detour(DetourError::TooSmall { len: 1, need: 2 })),
    ),
    (
        INT3S,
        Case {
            code: "c355",
            ..WHOLE
        },
        0x5000,
        PaddingError::Function(RuleError::Detour(DetourError::Ends { at: 1 })),
    ),
    // two NOPs; jmp to the second one, and to the first one
    (
        INT3S,
        Case {
            code: "9090ebfd",
            ..WHOLE
        },
        0x5000,
        PaddingError::Function(RuleError::Detour(DetourError::Entered { from: 2, target: 1 })),
    ),
    (
        INT3S,
        Case {
            code: "9090ebfc",
            ..WHOLE
        },
        0x5000,
        PaddingError::Function(RuleError::Entered { from: 2, target: 0 }),
    ),
    // two NOPs; an instruction that the table does not have
    (
        INT3S,
        Case {
            code: "909062f17c4828c1",
            ..WHOLE
        },
        0x5000,
        PaddingError::Function(RuleError::Unseen {
            at: 2,
            why: SightEnd::NotRead,
        }),
    ),
    // replacement and trampoline far away
    (
        INT3S,
        Case { place: FAR, ..MOVE },
        FAR,
        PaddingError::OutOfReach,
    ),
    // the trampoline in the function, and in the padding
    (
        INT3S,
        Case {
            place: 0x1002,
            ..MOVE
        },
        0x5000,
        PaddingError::Function(RuleError::Overlaps),
    ),
    (
        INT3S,
        Case {
            place: 0xFF9,
            ..MOVE
        },
        0x5000,
        PaddingError::Overlaps,
    ),
];

#[test]
fn functions_are_refused_a_detour_through_padding(rt: HostRuntime) -> Result<(), Fail> {
    for (padding, case, to, why) in REFUSED {
        let found = match padded_hook(rt.alloc(), padding, case, *to)? {
            Ok(made) => Ok(made.jump().len()),
            Err(why) => Err(why),
        };
        same(&rt, case.code, &found, &Err(*why));
    }
    Ok(())
}
