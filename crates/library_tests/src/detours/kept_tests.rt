//! Tables of functions that begin with an ENDBR, which their hooks keep. The answers are worked out manually.

use crate::detours::compare::{are_bytes, same};
use crate::detours::rule_tests::{Case, WHOLE, WHOLE_16, WHOLE_32, rules_of};
use feddurzai::decoding::DecodeError;
use feddurzai::hooks::{
    DetourError, KeepError, KeptDetour, RuleError, StartTarget, detour_keeping_endbr,
};
use std::alloc::Global;
use std::test::Fail;

/// Hooks the function of a case, with its replacement at 5000.
fn kept_hook(alloc: Global, case: &Case) -> Result<Result<KeptDetour, KeepError>, Fail> {
    let code = hex::decode(alloc, case.code)?;
    if code.len() > 64 {
        return Err(Fail::new("the code of a case is short"));
    }
    Ok(detour_keeping_endbr(
        alloc,
        case.bits,
        case.ip,
        &code,
        0x5000,
        case.place,
        case.entries,
        rules_of(case),
    ))
}

/// endbr64; push rbp; mov rbp, rsp; mov eax, edi; pop rbp; ret
const FRAME: &str = "f30f1efa554889e589f85dc3";

/// endbr64; cmp byte [rdi], 0; je to 14; inc rdi; jmp to 4; ret
const LOOP_BEHIND: &str = "f30f1efa803f00740548ffc7ebf6c3";

/// Such a loop whose jmp goes to the first byte
const LOOP_OVER: &str = "f30f1efa803f00740548ffc7ebf2c3";

/// endbr64; dec ecx; jne to 4; ret
const SMALL_LOOP: &str = "f30f1efaffc975fcc3";

/// 32-bit: endbr32; push ebp; mov ebp, esp; mov eax, edi; pop ebp; ret
const FRAME_32: &str = "f30f1efb5589e589f85dc3";

/// Functions that get a detour: how many bytes stay, the patch, the trampoline.
const KEPT: &[(Case, usize, &str, &str)] = &[
    // jmp from 1004 to 5000; jump back from 900A to 100A
    (
        Case {
            code: FRAME,
            ..WHOLE
        },
        4,
        "e9f73f0000cc",
        "f30f1efa554889e589f8e9fb7fffff",
    ),
    // entries at both ends of the ENDBR
    (
        Case {
            code: FRAME,
            entries: &[4, 0],
            ..WHOLE
        },
        4,
        "e9f73f0000cc",
        "f30f1efa554889e589f8e9fb7fffff",
    ),
    // just before the function
    (
        Case {
            code: FRAME,
            place: 0xFF1,
            ..WHOLE
        },
        4,
        "e9f73f0000cc",
        "f30f1efa554889e589f8e90a000000",
    ),
    // a loop that is moved stays in the trampoline
    (
        Case {
            code: SMALL_LOOP,
            ..WHOLE
        },
        4,
        "e9f73f0000",
        "f30f1efaffc975fcc3",
    ),
    // loops that come to the replacement, as is asked: je from 9007 to 100E, jump back from 900D to 1009
    (
        Case {
            code: LOOP_OVER,
            start: StartTarget::Hooked,
            ..WHOLE
        },
        4,
        "e9f73f0000",
        "f30f1efa803f000f840180ffffe9f77fffff",
    ),
    (
        Case {
            code: LOOP_BEHIND,
            start: StartTarget::Hooked,
            ..WHOLE
        },
        4,
        "e9f73f0000",
        "f30f1efa803f000f840180ffffe9f77fffff",
    ),
    (
        Case {
            code: FRAME_32,
            ..WHOLE_32
        },
        4,
        "e9f73f0000",
        "f30f1efb5589e589f8e9fb7fffff",
    ),
    // no ENDBR: in 32-bit mode ENDBR64, which is taken; in 16-bit mode either; a function that begins with another instruction
    (
        Case {
            code: "f30f1efa55c3",
            ..WHOLE_32
        },
        0,
        "e9fb3f0000",
        "f30f1efa55e9fb7fffff",
    ),
    (
        Case {
            code: "f30f1efbc3",
            ..WHOLE_16
        },
        0,
        "e9fd3fcc",
        "f30f1efbe9fd7f",
    ),
    (
        Case {
            code: "5589e589f8c3",
            ..WHOLE_32
        },
        0,
        "e9fb3f0000",
        "5589e589f8e9fb7fffff",
    ),
];

#[test]
fn an_endbr_stays_at_the_function_and_in_the_trampoline(rt: HostRuntime) -> Result<(), Fail> {
    for (case, kept, patch, trampoline) in KEPT {
        let made = kept_hook(rt.alloc(), case)??;
        same(&rt, case.code, &made.kept(), kept);
        are_bytes(&rt, rt.alloc(), case.code, made.patch(), patch)?;
        are_bytes(&rt, rt.alloc(), case.code, made.trampoline(), trampoline)?;
        same(&rt, case.code, &made.seen().view.entered, &None);
    }
    Ok(())
}

/// Functions that are refused, each with its cause.
const REFUSED: &[(Case, KeepError)] = &[
    // loops to the first byte, and to the one behind the ENDBR
    (
        Case {
            code: LOOP_OVER,
            ..WHOLE
        },
        KeepError::Head {
            from: 12,
            target: 0,
        },
    ),
    (
        Case {
            code: LOOP_BEHIND,
            ..WHOLE
        },
        KeepError::Tail(RuleError::Entered { from: 8, target: 0 }),
    ),
    // a moved jump into the ENDBR
    (
        Case {
            code: "f30f1efaebfc909090",
            ..WHOLE
        },
        KeepError::Head { from: 4, target: 2 },
    ),
    // entries within the ENDBR come first, and within the overwritten bytes behind it
    (
        Case {
            code: "f30f1efa06",
            entries: &[3, 1],
            ..WHOLE
        },
        KeepError::Head { from: 1, target: 1 },
    ),
    (
        Case {
            code: FRAME,
            entries: &[5],
            ..WHOLE
        },
        KeepError::Tail(RuleError::Entered { from: 1, target: 1 }),
    ),
    // 06 is PUSH ES, which 64-bit mode does not have
    (
        Case {
            code: "f30f1efa06",
            ..WHOLE
        },
        KeepError::Tail(RuleError::Detour(DetourError::BadCode {
            at: 0,
            error: DecodeError::Invalid,
        })),
    ),
    (
        Case {
            code: "f30f1efa55c3",
            ..WHOLE
        },
        KeepError::Tail(RuleError::Detour(DetourError::TooSmall { len: 2, need: 5 })),
    ),
    // the trampoline at the last byte, and its last byte over the first one: the part behind the ENDBR stands apart from the tail
    (
        Case {
            code: FRAME,
            place: 0x100B,
            ..WHOLE
        },
        KeepError::Overlaps,
    ),
    (
        Case {
            code: FRAME,
            place: 0xFF2,
            ..WHOLE
        },
        KeepError::Overlaps,
    ),
    (
        Case {
            code: FRAME,
            place: 0xFFA,
            ..WHOLE
        },
        KeepError::Tail(RuleError::Overlaps),
    ),
    // no address is left behind the ENDBR of the trampoline
    (
        Case {
            code: FRAME,
            place: 0xFFFF_FFFF_FFFF_FFFE,
            ..WHOLE
        },
        KeepError::Tail(RuleError::Detour(DetourError::Wraps {
            end: 0x1_0000_0000_0000_0002,
        })),
    ),
];

#[test]
fn functions_whose_endbr_is_entered_are_refused(rt: HostRuntime) -> Result<(), Fail> {
    for (case, why) in REFUSED {
        let found = match kept_hook(rt.alloc(), case)? {
            Ok(made) => Ok(made.kept()),
            Err(why) => Err(why),
        };
        same(&rt, case.code, &found, &Err(*why));
    }
    Ok(())
}
