//! Tables of functions, with the patch and the trampoline that each has, or why it has none.

use crate::detours::compare::{are_bytes, same};
use feddurzai::decoding::DecodeError;
use feddurzai::hooks::{Detour, DetourError, JumpForm, Parts, StartTarget, detour};
use feddurzai::values::Bits;
use std::alloc::Global;
use std::process::Abort;
use std::test::Fail;

/// A function as hexadecimal digits at its address, the replacement, and where the trampoline will stand.
#[derive(Clone, Copy)]
struct Case {
    bits: Bits,
    ip: u64,
    code: &'static str,
    to: u64,
    place: u64,
    start: StartTarget,
}

/// A function of 64-bit mode at 1000 whose replacement is at 5000 and whose trampoline will stand at 9000.
const NEAR: Case = Case {
    bits: Bits::B64,
    ip: 0x1000,
    code: "",
    to: 0x5000,
    place: 0x9000,
    start: StartTarget::Moved,
};

/// Such a function of 32-bit mode.
const NEAR_32: Case = Case {
    bits: Bits::B32,
    ..NEAR
};

/// Such a function of 64-bit mode where recursion comes to the replacement.
const HOOKED: Case = Case {
    start: StartTarget::Hooked,
    ..NEAR
};

/// A function of 16-bit mode at 100 whose replacement is at 200 and whose trampoline will stand at 300.
const NEAR_16: Case = Case {
    bits: Bits::B16,
    ip: 0x100,
    to: 0x200,
    place: 0x300,
    ..NEAR
};

/// Such a function where recursion comes to the replacement.
const HOOKED_16: Case = Case {
    start: StartTarget::Hooked,
    ..NEAR_16
};

/// The detour of a case.
fn detour_of(alloc: Global, case: &Case) -> Result<Result<Detour, DetourError>, Fail> {
    let code = hex::decode(alloc, case.code)?;
    if code.len() > 64 {
        return Err(Fail::new("the code of a case is short"));
    }
    Ok(detour(
        alloc, case.bits, case.ip, &code, case.to, case.place, case.start,
    ))
}

/// That a case has a detour of this form with this patch and trampoline, as hexadecimal digits. It answers the parts.
fn is_made(
    rt: &impl Abort,
    alloc: Global,
    case: &Case,
    form: JumpForm,
    patch: &str,
    trampoline: &str,
) -> Result<Parts, Fail> {
    let made = detour_of(alloc, case)??;
    are_bytes(rt, alloc, case.code, made.patch(), patch)?;
    are_bytes(rt, alloc, case.code, made.trampoline(), trampoline)?;
    same(rt, case.code, &made.form(), &form);
    same(rt, case.code, &made.taken(), &made.patch().len());
    Ok(made.parts())
}

/// Functions, each with its patch and its trampoline.
const DETOURS: &[(Case, &str, &str)] = &[
    // push rbp; mov rbp, rsp; sub rsp, 20: the last is taken for one byte of it
    (
        Case {
            code: "554889e54883ec20c3",
            ..NEAR
        },
        "e9fb3f0000cccccc",
        "554889e54883ec20e9fb7fffff",
    ),
    // call [rip+2006], at 3010: an operand that stays where it is
    (
        Case {
            code: "4883ec08ff15062000004883c408c3",
            ..NEAR
        },
        "e9fb3f0000cccccccccc",
        "4883ec08ff1506a0ffffe9fb7fffff",
    ),
    // jne behind xor eax, eax: its target is taken, and follows it
    (
        Case {
            code: "750231c090c3",
            ..NEAR
        },
        "e9fb3f0000",
        "750231c090e9fb7fffff",
    ),
    // mov eax, ecx; dec ecx; jne to the start, which the trampoline keeps, or not
    (
        Case {
            code: "89c8ffc975fac3",
            ..NEAR
        },
        "e9fb3f0000cc",
        "89c8ffc975fae9fb7fffff",
    ),
    (
        Case {
            code: "89c8ffc975fac3",
            ..HOOKED
        },
        "e9fb3f0000cc",
        "89c8ffc90f85f67fffffe9f77fffff",
    ),
    // call to the start
    (
        Case {
            code: "e8fbffffffc3",
            ..NEAR
        },
        "e9fb3f0000",
        "e8fbffffffe9fb7fffff",
    ),
    (
        Case {
            code: "e8fbffffffc3",
            ..HOOKED
        },
        "e9fb3f0000",
        "e8fb7fffffe9fb7fffff",
    ),
    // ret, with NOP of one, two and three bytes or INT3 behind it: no jump back
    (
        Case {
            code: "c39066900f1f00",
            ..NEAR
        },
        "e9fb3f0000cccc",
        "c3",
    ),
    (
        Case {
            code: "c3cccccccc31c0",
            ..NEAR
        },
        "e9fb3f0000",
        "c3",
    ),
    // 32-bit mode: push ebp; mov ebp, esp; sub esp, 8; and a call of what follows it, which stays
    (
        Case {
            code: "5589e583ec08c3",
            ..NEAR_32
        },
        "e9fb3f0000cc",
        "5589e583ec08e9fb7fffff",
    ),
    (
        Case {
            code: "e80000000058c3",
            ..NEAR_32
        },
        "e9fb3f0000",
        "e80080ffffe9fb7fffff",
    ),
    // 16-bit mode, where the jump has 3 bytes: mov ax, 1234; and loop to itself, as a bridge where its target stays
    (
        Case {
            code: "b83412c3",
            ..NEAR_16
        },
        "e9fd00",
        "b83412e9fdfd",
    ),
    (
        Case {
            code: "e2fe90c3",
            ..NEAR_16
        },
        "e9fd00",
        "e2fe90e9fdfd",
    ),
    (
        Case {
            code: "e2fe90c3",
            ..HOOKED_16
        },
        "e9fd00",
        "e202eb03e9f9fd90e9f8fd",
    ),
];

// Offsets of 32 bits count from the end of their instruction: from 1005 to 5000 there are 3FFB bytes, and from 900D back to 1008 there are -8005.
#[test]
fn code_goes_to_the_trampoline_and_back(rt: HostRuntime) -> Result<(), Fail> {
    for (case, patch, trampoline) in DETOURS {
        is_made(&rt, rt.alloc(), case, JumpForm::Near, patch, trampoline)?;
    }
    Ok(())
}

/// push rbp; mov rbp, rsp; sub rsp, 20; mov [rbp-8], rdi; xor eax, eax; ret
const LONG: &str = "554889e54883ec2048897df831c0c3";

/// A far replacement of [`LONG`] behind a near trampoline.
const RELAYED: Case = Case {
    code: LONG,
    to: 0x7FFF_0000_0000,
    ..NEAR
};

/// A far replacement of [`LONG`] behind a far trampoline.
const ABSOLUTE: Case = Case {
    code: LONG,
    to: 0x7FFE_0000_0000,
    place: 0x7FFF_0000_1000,
    ..NEAR
};

/// Where the jump back and the relay of [`RELAYED`] stand.
const RELAYED_PARTS: Parts = Parts {
    jump_back: Some(8),
    slots: None,
    relay: Some(13),
};

/// Where the jump back and the slot of [`ABSOLUTE`] stand.
const ABSOLUTE_PARTS: Parts = Parts {
    jump_back: Some(14),
    slots: Some(24),
    relay: None,
};

// A far replacement behind a near trampoline has a relay, `FF 25` over its address.
#[test]
fn a_far_replacement_has_a_relay(rt: HostRuntime) -> Result<(), Fail> {
    let patch = "e908800000cccccc";
    let trampoline = "554889e54883ec20e9fb7fffffff250000000000000000ff7f0000";
    let form = JumpForm::Relay;
    let parts = is_made(&rt, rt.alloc(), &RELAYED, form, patch, trampoline)?;
    same(&rt, "the parts", &parts, &RELAYED_PARTS);
    Ok(())
}

// A far trampoline leaves the jump of 14 bytes, and its jump back goes through a slot at the next multiple of 8.
#[test]
fn a_far_trampoline_has_a_slot(rt: HostRuntime) -> Result<(), Fail> {
    let patch = "ff250000000000000000fe7f0000";
    let trampoline = "554889e54883ec2048897df831c0ff2504000000cccccccc0e10000000000000";
    let form = JumpForm::Absolute;
    let parts = is_made(&rt, rt.alloc(), &ABSOLUTE, form, patch, trampoline)?;
    same(&rt, "the parts", &parts, &ABSOLUTE_PARTS);
    Ok(())
}

/// Code at the place that is near, each with the reason for which it has no detour.
const REFUSED_NEAR: &[(&str, DetourError)] = &[
    // 06 is PUSH ES, which 64-bit mode does not have; REX.W and 89 without their ModRM byte
    (
        "06",
        DetourError::BadCode {
            at: 0,
            error: DecodeError::Invalid,
        },
    ),
    (
        "909006",
        DetourError::BadCode {
            at: 2,
            error: DecodeError::Invalid,
        },
    ),
    (
        "554889",
        DetourError::BadCode {
            at: 1,
            error: DecodeError::TooShort,
        },
    ),
    // a bad byte is told before other code behind ret, which is told before a branch into the part
    (
        "c331c006",
        DetourError::BadCode {
            at: 3,
            error: DecodeError::Invalid,
        },
    ),
    ("55c3", DetourError::TooSmall { len: 2, need: 5 }),
    ("c331c0", DetourError::TooSmall { len: 3, need: 5 }),
    ("c331c09090ebfa", DetourError::Ends { at: 1 }),
    ("c39031c090", DetourError::Ends { at: 2 }),
    // xor eax, eax; add eax, edi; dec edi; jg to the add: a loop that enters what is taken
    (
        "31c001f8ffcf7ffac3",
        DetourError::Entered { from: 6, target: 2 },
    ),
    // je into the middle of mov eax, 90909090; jmp to the NOP behind it, which is not moved
    (
        "7401b890909090c3",
        DetourError::Entered { from: 0, target: 3 },
    ),
    ("eb00909090c3", DetourError::Entered { from: 0, target: 2 }),
];

/// Functions elsewhere, each with the reason for which it has no detour.
const REFUSALS: &[(Case, DetourError)] = &[
    // 14 bytes are needed where neither replacement nor trampoline is near
    (
        Case {
            to: 0x7FFE_0000_0000,
            place: 0x7FFF_0000_0000,
            code: "554889e54883ec20c3",
            ..NEAR
        },
        DetourError::TooSmall { len: 9, need: 14 },
    ),
    // mov rax, [rip]
    (
        Case {
            place: 0x7FFF_0000_0000,
            code: "488b0500000000c3",
            ..NEAR
        },
        DetourError::TooFar {
            at: 0,
            target: 0x1007,
        },
    ),
    // eight bytes, a jump of 6, and a slot at the next multiple of 8
    (
        Case {
            place: 0xFFFF_FFFF_FFFF_FFFC,
            code: "554889e54883ec20c3",
            ..NEAR
        },
        DetourError::Wraps {
            end: 0x1_0000_0000_0000_0018,
        },
    ),
];

/// Why a case has no detour.
fn refusal_of(alloc: Global, case: &Case) -> Result<Option<DetourError>, Fail> {
    match detour_of(alloc, case)? {
        Ok(_) => Ok(None),
        Err(why) => Ok(Some(why)),
    }
}

#[test]
fn refusals_in_their_order(rt: HostRuntime) -> Result<(), Fail> {
    for (code, refusal) in REFUSED_NEAR {
        let case = Case {
            code: *code,
            ..NEAR
        };
        let found = refusal_of(rt.alloc(), &case)?;
        same(&rt, code, &found, &Some(*refusal));
    }
    for (case, refusal) in REFUSALS {
        let found = refusal_of(rt.alloc(), case)?;
        same(&rt, case.code, &found, &Some(*refusal));
    }
    Ok(())
}
