//! Detours of functions with instructions that the opcode table leaves out, worked out from the formats of EVEX, of XBEGIN and of the near JMP.

use crate::detours::compare::{are_bytes, same};
use feddurzai::decoding::DecodeError;
use feddurzai::hooks::{Detour, DetourError, StartTarget, detour, detour_unlisted};
use feddurzai::values::Bits;
use std::alloc::Global;
use std::process::Abort;
use std::test::Fail;

/// A function as hexadecimal digits at its address, the replacement, and where the trampoline will stand.
#[derive(Clone, Copy)]
struct Case {
    bits: Bits,
    ip: u64,
    code: &'static str,
    to: u64,
    place: u64,
    start: StartTarget,
}

/// A function of 64-bit mode at 1000 whose replacement is at 5000 and whose trampoline will stand at 9000.
const NEAR: Case = Case {
    bits: Bits::B64,
    ip: 0x1000,
    code: "",
    to: 0x5000,
    place: 0x9000,
    start: StartTarget::Moved,
};

/// vpxord zmm0, zmm0, [rip+10], which is 101A; ret.
const VPXORD: &str = "62f17d48ef0510000000c3";

/// mov rax, [rdi]; mov rcx, rax; vmovaps zmm0, zmm1; jmp to the second instruction; ret.
const LOOP: &str = "488b074889c162f17c4828c1ebf5c3";

/// The detour of a case.
fn detour_of(alloc: Global, case: &Case) -> Result<Result<Detour, DetourError>, Fail> {
    let code = hex::decode(alloc, case.code)?;
    if code.len() > 64 {
        return Err(Fail::new("the code of a case is short"));
    }
    Ok(detour_unlisted(
        alloc, case.bits, case.ip, &code, case.to, case.place, case.start,
    ))
}

/// That a case has a detour with this patch and trampoline, as hexadecimal digits.
fn is_made(
    rt: &impl Abort,
    alloc: Global,
    case: &Case,
    patch: &str,
    trampoline: &str,
) -> Result<(), Fail> {
    let made = detour_of(alloc, case)??;
    are_bytes(rt, alloc, case.code, made.patch(), patch)?;
    are_bytes(rt, alloc, case.code, made.trampoline(), trampoline)
}

/// That a case has no detour for this cause.
fn is_refused(rt: &impl Abort, alloc: Global, case: &Case, why: &DetourError) -> Result<(), Fail> {
    match detour_of(alloc, case)? {
        Ok(_) => Err(Fail::new("a case has no detour")),
        Err(found) => {
            same(rt, case.code, &found, why);
            Ok(())
        }
    }
}

/// Functions, each with its patch and its trampoline.
const DETOURS: &[(Case, &str, &str)] = &[
    // the number refers to 101A from 900A
    (
        Case {
            code: VPXORD,
            ..NEAR
        },
        "e9fb3f0000cccccccccc",
        "62f17d48ef051080ffffe9fb7fffff",
    ),
    // nop; vmovdqu64 zmm0, [itself]: the number follows the moved instruction
    (
        Case {
            code: "9062f1fe486f05f6ffffffc3",
            ..NEAR
        },
        "e9fb3f0000cccccccccccc",
        "9062f1fe486f05f6ffffffe9fb7fffff",
    ),
    // vmovdqu64 zmm0, [itself]: the start, moved or not
    (
        Case {
            code: "62f1fe486f05f6ffffffc3",
            ..NEAR
        },
        "e9fb3f0000cccccccccc",
        "62f1fe486f05f6ffffffe9fb7fffff",
    ),
    (
        Case {
            code: "62f1fe486f05f6ffffffc3",
            start: StartTarget::Hooked,
            ..NEAR
        },
        "e9fb3f0000cccccccccc",
        "62f1fe486f05f67fffffe9fb7fffff",
    ),
    // xbegin 1007; nop; ret: an aborted transaction continues at 1007
    (
        Case {
            code: "c7f80100000090c3",
            ..NEAR
        },
        "e9fb3f0000cc",
        "c7f80180ffffe9fb7fffff",
    ),
    // the same in 16-bit mode, with a distance of 16 bits: xbegin 104
    (
        Case {
            bits: Bits::B16,
            ip: 0x100,
            code: "c7f8000090c3",
            to: 0x200,
            place: 0x300,
            ..NEAR
        },
        "e9fd00cc",
        "c7f800fee9fdfd",
    ),
    // a replacement far away: the near jump goes to a relay behind the trampoline, at 900F
    (
        Case {
            code: VPXORD,
            to: 0x7fff_0000_0000,
            ..NEAR
        },
        "e90a800000cccccccccc",
        "62f17d48ef051080ffffe9fb7fffffff250000000000000000ff7f0000",
    ),
];

/// Functions without a detour, each with its cause.
const REFUSALS: &[(Case, DetourError)] = &[
    // the loop behind an EVEX goes to offset 3
    (
        Case { code: LOOP, ..NEAR },
        DetourError::Entered {
            from: 12,
            target: 3,
        },
    ),
    // xbegin 1001: into the middle of itself
    (
        Case {
            code: "c7f8fbffffffc3",
            ..NEAR
        },
        DetourError::Entered { from: 0, target: 1 },
    ),
    // ret; vmovaps zmm0, zmm1: no padding
    (
        Case {
            code: "c362f17c4828c1c3",
            ..NEAR
        },
        DetourError::Ends { at: 1 },
    ),
    // nop; 06, which no format has in 64-bit mode
    (
        Case {
            code: "900690909090c3",
            ..NEAR
        },
        DetourError::BadCode {
            at: 1,
            error: DecodeError::Invalid,
        },
    ),
    // xbegin with a distance of 16 bits, which has no form elsewhere
    (
        Case {
            code: "66c7f8000090c3",
            ..NEAR
        },
        DetourError::BadCode {
            at: 0,
            error: DecodeError::Invalid,
        },
    ),
    // shl al, 1 by /6; ret
    (
        Case {
            code: "d0f0c3",
            ..NEAR
        },
        DetourError::TooSmall { len: 3, need: 5 },
    ),
    // 101A is out of reach from the trampoline
    (
        Case {
            code: VPXORD,
            place: 0x7fff_0000_9000,
            ..NEAR
        },
        DetourError::TooFar {
            at: 0,
            target: 0x101a,
        },
    ),
];

#[test]
fn functions_without_rows_get_their_detours(rt: HostRuntime) -> Result<(), Fail> {
    for (case, patch, trampoline) in DETOURS {
        is_made(&rt, rt.alloc(), case, patch, trampoline)?;
    }
    Ok(())
}

#[test]
fn functions_without_rows_are_refused(rt: HostRuntime) -> Result<(), Fail> {
    for (case, why) in REFUSALS {
        is_refused(&rt, rt.alloc(), case, why)?;
    }
    Ok(())
}

/// `detour` reads no instruction without a row, and follows none.
#[test]
fn a_detour_of_listed_instructions_stops_there(rt: HostRuntime) -> Result<(), Fail> {
    let alloc = rt.alloc();
    let code = hex::decode(alloc, LOOP)?;
    if code.len() > 64 {
        return Err(Fail::new("the code of a case is short"));
    }
    let made = detour(
        alloc,
        Bits::B64,
        0x1000,
        &code,
        0x5000,
        0x9000,
        StartTarget::Moved,
    )?;
    are_bytes(&rt, alloc, LOOP, made.patch(), "e9fb3f0000cc")
}
