//! Hooks that are made, removed and made again, with the bytes of their range worked out from the manual, and what is refused.

use crate::detours::compare::{are_bytes, same};
use feddurzai::hooks::{
    DetourError, Hook, HookCommand, HookReply, Hooks, InstallError, MakeError, RemoveError,
    StartTarget, replay,
};
use feddurzai::values::Bits;
use std::alloc::{AllocError, Global};
use std::process::Abort;
use std::test::Fail;

/// A function as hexadecimal digits at its address, and the replacement.
#[derive(Clone, Copy)]
struct Function {
    ip: u64,
    code: &'static str,
    to: u64,
}

/// Hooks a function.
fn install(
    hooks: &mut Hooks,
    alloc: Global,
    function: &Function,
) -> Result<Result<u64, InstallError>, Fail> {
    let code = hex::decode(alloc, function.code)?;
    if code.len() > 64 {
        return Err(Fail::new("the code of a case is short"));
    }
    Ok(hooks.install(alloc, function.ip, &code, function.to, StartTarget::Moved))
}

/// The hexadecimal digits of a range with these trampolines in its slots, and CC elsewhere.
fn range_digits(alloc: Global, slot: u64, trampolines: &[&str]) -> Result<String, AllocError> {
    let mut digits = String::new(alloc);
    for trampoline in trampolines {
        digits.push_str(trampoline)?;
        for _ in trampoline.len() / 2..slot as usize {
            digits.push_str("cc")?;
        }
    }
    Ok(digits)
}

/// That a range has these trampolines in its slots, as hexadecimal digits, and CC elsewhere.
fn has_slots(
    rt: &impl Abort,
    alloc: Global,
    hooks: &Hooks,
    slot: u64,
    trampolines: &[&str],
) -> Result<(), Fail> {
    let digits = range_digits(alloc, slot, trampolines)?;
    are_bytes(rt, alloc, "the range", hooks.image(), &digits)
}

/// A function that is hooked, and what is wanted of it: the place of its trampoline, what goes over it, and the trampoline.
#[derive(Clone, Copy)]
struct Hooked {
    function: Function,
    place: u64,
    patch: &'static str,
    trampoline: &'static str,
}

/// Two functions in a mode, and a range with two slots for their trampolines.
#[derive(Clone, Copy)]
struct Case {
    bits: Bits,
    base: u64,
    size: u64,
    slot: u64,
    one: Hooked,
    two: Hooked,
}

/// A case of each mode.
const CASES: &[Case] = &[
    // push rbp; mov rbp, rsp; sub rsp, 20: and a loop to its start, which stays in the trampoline; back from 900D to 1008, and from 902B to 1106
    Case {
        bits: Bits::B64,
        base: 0x9000,
        size: 64,
        slot: 32,
        one: Hooked {
            function: Function {
                ip: 0x1000,
                code: "554889e54883ec20c3",
                to: 0x5000,
            },
            place: 0x9000,
            patch: "e9fb3f0000cccccc",
            trampoline: "554889e54883ec20e9fb7fffff",
        },
        two: Hooked {
            function: Function {
                ip: 0x1100,
                code: "89c8ffc975fac3",
                to: 0x5000,
            },
            place: 0x9020,
            patch: "e9fb3e0000cc",
            trampoline: "89c8ffc975fae9db80ffff",
        },
    },
    // push ebp; mov ebp, esp; sub esp, 8: and a call of what follows it, from 9015 to 1105; back from 900B to 1006, and from 901A to 1105
    Case {
        bits: Bits::B32,
        base: 0x9000,
        size: 32,
        slot: 16,
        one: Hooked {
            function: Function {
                ip: 0x1000,
                code: "5589e583ec08c3",
                to: 0x5000,
            },
            place: 0x9000,
            patch: "e9fb3f0000cc",
            trampoline: "5589e583ec08e9fb7fffff",
        },
        two: Hooked {
            function: Function {
                ip: 0x1100,
                code: "e80000000058c3",
                to: 0x5000,
            },
            place: 0x9010,
            patch: "e9fb3e0000",
            trampoline: "e8f080ffffe9eb80ffff",
        },
    },
    // mov ax, 1234 twice: the jumps have 3 bytes; back from 306 to 103, and from 316 to 123
    Case {
        bits: Bits::B16,
        base: 0x300,
        size: 32,
        slot: 16,
        one: Hooked {
            function: Function {
                ip: 0x100,
                code: "b83412c3",
                to: 0x200,
            },
            place: 0x300,
            patch: "e9fd00",
            trampoline: "b83412e9fdfd",
        },
        two: Hooked {
            function: Function {
                ip: 0x120,
                code: "b83412c3",
                to: 0x200,
            },
            place: 0x310,
            patch: "e9dd00",
            trampoline: "b83412e90dfe",
        },
    },
];

/// Hooks a function, which gets this place.
fn is_installed(
    rt: &impl Abort,
    alloc: Global,
    hooks: &mut Hooks,
    wanted: &Hooked,
) -> Result<(), Fail> {
    let place = install(hooks, alloc, &wanted.function)?;
    same(rt, "the place", &place, &Ok(wanted.place));
    Ok(())
}

/// The functions of a case are hooked one after the other.
fn both_installed(
    rt: &impl Abort,
    alloc: Global,
    hooks: &mut Hooks,
    case: &Case,
) -> Result<(), Fail> {
    let (one, two) = (&case.one, &case.two);
    has_slots(rt, alloc, hooks, case.slot, &["", ""])?;
    is_installed(rt, alloc, hooks, one)?;
    has_slots(rt, alloc, hooks, case.slot, &[one.trampoline, ""])?;
    is_installed(rt, alloc, hooks, two)?;
    has_slots(
        rt,
        alloc,
        hooks,
        case.slot,
        &[one.trampoline, two.trampoline],
    )
}

/// That what was taken of a function are its first bytes, as many as its patch has.
fn is_taken(rt: &impl Abort, alloc: Global, taken: &[u8], wanted: &Hooked) -> Result<(), Fail> {
    let digits = hex::encode(alloc, taken)?;
    let want = wanted.function.code.get(..wanted.patch.len());
    same(rt, "its first bytes", &Some(digits.as_str()), &want);
    Ok(())
}

/// A live hook has its place, its function and what goes over that.
fn is_hooked(rt: &impl Abort, alloc: Global, hook: &Hook, wanted: &Hooked) -> Result<(), Fail> {
    let want = (wanted.place, wanted.function.ip);
    same(rt, "place and address", &(hook.place, hook.ip), &want);
    are_bytes(rt, alloc, "the patch", hook.detour.patch(), wanted.patch)?;
    is_taken(rt, alloc, &hook.original, wanted)
}

/// A third function is refused if no slot is free, before its code is looked at.
fn no_slot_is_free(
    rt: &impl Abort,
    alloc: Global,
    hooks: &mut Hooks,
    function: Function,
) -> Result<(), Fail> {
    let none = Function {
        code: "",
        ..function
    };
    let refused = install(hooks, alloc, &none)?;
    let full = InstallError::Full { max: 2 };
    same(rt, "the refusal", &refused, &Err(full));
    Ok(())
}

/// The address of a hook that is removed, how many bytes it has of its function, and how many its detour takes.
fn removed(hooks: &mut Hooks, place: u64) -> Result<(u64, usize, usize), RemoveError> {
    let gone = hooks.remove(place)?;
    Ok((gone.ip, gone.original.len(), gone.detour.taken()))
}

/// The first of two hooks is removed once, and its slot is CC again, and the first to be free.
fn is_removed(rt: &impl Abort, alloc: Global, hooks: &mut Hooks, case: &Case) -> Result<(), Fail> {
    let place = case.one.place;
    let gone = removed(hooks, place);
    let taken = case.one.patch.len() / 2;
    let want = Ok((case.one.function.ip, taken, taken));
    same(rt, "the hook", &gone, &want);
    has_slots(rt, alloc, hooks, case.slot, &["", case.two.trampoline])?;
    same(rt, "live hooks", &hooks.live().len(), &1);
    let gone = removed(hooks, place);
    same(rt, "no hook", &gone, &Err(RemoveError::NotTaken { place }));
    Ok(())
}

/// The first of two hooks is removed, and its function is hooked again at the same place.
fn removed_and_made_again(
    rt: &impl Abort,
    alloc: Global,
    hooks: &mut Hooks,
    case: &Case,
) -> Result<(), Fail> {
    let (one, two) = (&case.one, &case.two);
    no_slot_is_free(rt, alloc, hooks, one.function)?;
    is_removed(rt, alloc, hooks, case)?;
    is_installed(rt, alloc, hooks, one)?;
    has_slots(
        rt,
        alloc,
        hooks,
        case.slot,
        &[one.trampoline, two.trampoline],
    )
}

/// The two live hooks of a case are those that are wanted.
fn both_are_live(rt: &impl Abort, alloc: Global, hooks: &Hooks, case: &Case) -> Result<(), Fail> {
    match hooks.live() {
        [first, second] => {
            is_hooked(rt, alloc, first, &case.one)?;
            is_hooked(rt, alloc, second, &case.two)
        }
        _ => Err(Fail::new("two hooks are live")),
    }
}

/// The functions of a case are hooked, and the first again.
fn is_done(rt: &impl Abort, alloc: Global, case: &Case) -> Result<(), Fail> {
    let mut hooks = Hooks::make(alloc, case.bits, case.base, case.size, case.slot)?;
    both_installed(rt, alloc, &mut hooks, case)?;
    both_are_live(rt, alloc, &hooks, case)?;
    removed_and_made_again(rt, alloc, &mut hooks, case)
}

#[test]
fn hooks_made_and_removed(rt: HostRuntime) -> Result<(), Fail> {
    for case in CASES {
        is_done(&rt, rt.alloc(), case)?;
    }
    Ok(())
}

/// Sizes of ranges and slots, each with the reason for which there are no hooks.
const SIZES: &[(u64, u64, MakeError)] = &[
    (0, 0, MakeError::BadSize { size: 0 }),
    (24, 16, MakeError::BadSize { size: 24 }),
    (1_048_592, 16, MakeError::BadSize { size: 1_048_592 }),
    (64, 0, MakeError::BadSlot { slot: 0 }),
    (64, 24, MakeError::BadSlot { slot: 24 }),
    (64, 80, MakeError::BadSlot { slot: 80 }),
    (64, 64, MakeError::Wraps { end: 0x1_0000_0010 }),
];

/// Why no hooks are made of such a range and slot, if none are.
fn refusal(alloc: Global, size: u64, slot: u64) -> Option<MakeError> {
    Hooks::make(alloc, Bits::B32, 0xFFFF_FFD0, size, slot).err()
}

#[test]
fn ranges_refused(rt: HostRuntime) {
    for (size, slot, want) in SIZES {
        let found = refusal(rt.alloc(), *size, *slot);
        same(&rt, "the refusal", &found, &Some(*want));
    }
}

/// That a function is not hooked, and the three slots stay as they were.
fn is_refused(
    rt: &impl Abort,
    alloc: Global,
    hooks: &mut Hooks,
    function: &Function,
    refusal: InstallError,
) -> Result<(), Fail> {
    let refused = install(hooks, alloc, function)?;
    same(rt, "the refusal", &refused, &Err(refusal));
    has_slots(rt, alloc, hooks, 16, &["", "", ""])
}

/// push rbp; mov rbp, rsp; sub rsp, 20; ret
const NEAR: Function = Function {
    ip: 0x1000,
    code: "554889e54883ec20c3",
    to: 0x5000,
};

/// Functions, each with the reason for which it is not hooked. The range of the trampolines is 9000 to 902F.
const REFUSED: &[(Function, InstallError)] = &[
    // a relay behind the eight bytes and the jump back, 27 bytes in all
    (
        Function {
            to: 0x7FFF_0000_0000,
            ..NEAR
        },
        InstallError::TooLong { len: 27, slot: 16 },
    ),
    (
        Function {
            code: "55c3",
            ..NEAR
        },
        InstallError::NoDetour {
            why: DetourError::TooSmall { len: 2, need: 5 },
        },
    ),
    // the same at the first address of the range: its patch would lie there, which is asked last
    (
        Function {
            ip: 0x9000,
            to: 0x7FFF_0000_0000,
            ..NEAR
        },
        InstallError::TooLong { len: 27, slot: 16 },
    ),
    (Function { ip: 0x9000, ..NEAR }, InstallError::InRange),
];

#[test]
fn hooks_refused(rt: HostRuntime) -> Result<(), Fail> {
    let mut hooks = Hooks::make(rt.alloc(), Bits::B64, 0x9000, 48, 16)?;
    for (function, refusal) in REFUSED {
        is_refused(&rt, rt.alloc(), &mut hooks, function, *refusal)?;
    }
    let place = install(&mut hooks, rt.alloc(), &NEAR)?;
    same(&rt, "the place", &place, &Ok(0x9000));
    Ok(())
}

/// mov ax, 1234: the patch has three bytes.
const SHORT: Function = Function {
    ip: 0x100,
    code: "b83412c3",
    to: 0x200,
};

/// Addresses of three functions, each with the place of its trampoline.
const THREE: &[(u64, u64)] = &[(0x100, 0x300), (0x104, 0x310), (0xFFFE, 0x320)];

/// Hooks of three functions in 16-bit mode: patches at 100 to 102, at 104 to 106, and at FFFE, FFFF and 0. The range is 300 to 33F.
fn three_hooked(rt: &impl Abort, alloc: Global) -> Result<Hooks, Fail> {
    let mut hooks = Hooks::make(alloc, Bits::B16, 0x300, 64, 16)?;
    for (ip, want) in THREE {
        let place = install(&mut hooks, alloc, &Function { ip: *ip, ..SHORT })?;
        same(rt, "the place", &place, &Ok(*want));
    }
    Ok(hooks)
}

/// Addresses of a fourth function, each with what its install answers.
const FOURTH: &[(u64, Result<u64, InstallError>)] = &[
    // just before 100, and just behind 106
    (0xFD, Ok(0x330)),
    (0x107, Ok(0x330)),
    // one byte of the first patch, all of it, and its last byte with the first one of the second patch
    (0xFE, Err(InstallError::Patched { place: 0x300 })),
    (0x100, Err(InstallError::Patched { place: 0x300 })),
    (0x102, Err(InstallError::Patched { place: 0x300 })),
    (0x103, Err(InstallError::Patched { place: 0x310 })),
    // 1_0100 is 100 in 16-bit mode
    (0x1_0100, Err(InstallError::Patched { place: 0x300 })),
    // the third patch goes on at 0
    (0x0, Err(InstallError::Patched { place: 0x320 })),
    (0x1, Ok(0x330)),
    // just before and behind the range, and one byte in it
    (0x2FD, Ok(0x330)),
    (0x340, Ok(0x330)),
    (0x2FE, Err(InstallError::InRange)),
    (0x33F, Err(InstallError::InRange)),
];

/// What the install of a fourth function answers; if it is hooked, its hook is removed again.
fn fourth(alloc: Global, hooks: &mut Hooks, ip: u64) -> Result<Result<u64, InstallError>, Fail> {
    let answer = install(hooks, alloc, &Function { ip, ..SHORT })?;
    if let Ok(place) = answer {
        hooks.remove(place)?;
    }
    Ok(answer)
}

#[test]
fn patches_apart(rt: HostRuntime) -> Result<(), Fail> {
    let mut hooks = three_hooked(&rt, rt.alloc())?;
    for (ip, want) in FOURTH {
        let answer = fourth(rt.alloc(), &mut hooks, *ip)?;
        same(&rt, "the answer", &answer, want);
    }
    Ok(())
}

/// Hooks a function over its live hooks.
fn install_over(
    hooks: &mut Hooks,
    alloc: Global,
    function: &Function,
) -> Result<Result<u64, InstallError>, Fail> {
    let code = hex::decode(alloc, function.code)?;
    if code.len() > 64 {
        return Err(Fail::new("the code of a case is short"));
    }
    Ok(hooks.install_over(alloc, function.ip, &code, function.to, StartTarget::Moved))
}

/// Hooks of one function over one another, each with the bytes of the function before it. From the second one on they move the jump of the one before:
/// from 9010 to 5000, and from 9020 to 6000.
const STACK: &[Hooked] = &[
    Hooked {
        function: NEAR,
        place: 0x9000,
        patch: "e9fb3f0000cccccc",
        trampoline: "554889e54883ec20e9fb7fffff",
    },
    Hooked {
        function: Function {
            ip: 0x1000,
            code: "e9fb3f0000ccccccc3",
            to: 0x6000,
        },
        place: 0x9010,
        patch: "e9fb4f0000",
        trampoline: "e9ebbfffff",
    },
    Hooked {
        function: Function {
            ip: 0x1000,
            code: "e9fb4f0000ccccccc3",
            to: 0x7000,
        },
        place: 0x9020,
        patch: "e9fb5f0000",
        trampoline: "e9dbcfffff",
    },
];

/// The hooks of the stack are made, each over those before.
fn stacked(rt: &impl Abort, alloc: Global) -> Result<Hooks, Fail> {
    let mut hooks = Hooks::make(alloc, Bits::B64, 0x9000, 64, 16)?;
    for wanted in STACK {
        let place = install_over(&mut hooks, alloc, &wanted.function)?;
        same(rt, "the place", &place, &Ok(wanted.place));
    }
    Ok(hooks)
}

/// That the hooks of the stack are live, and how many lie under each.
fn are_stacked(rt: &impl Abort, alloc: Global, hooks: &Hooks) -> Result<(), Fail> {
    let trampolines = &[
        STACK[0].trampoline,
        STACK[1].trampoline,
        STACK[2].trampoline,
        "",
    ];
    has_slots(rt, alloc, hooks, 16, trampolines)?;
    match hooks.live() {
        [one, two, three] => {
            is_hooked(rt, alloc, one, &STACK[0])?;
            is_hooked(rt, alloc, two, &STACK[1])?;
            is_hooked(rt, alloc, three, &STACK[2])?;
            same(
                rt,
                "the layers",
                &(one.layer, two.layer, three.layer),
                &(0, 1, 2),
            );
            Ok(())
        }
        _ => Err(Fail::new("three hooks are live")),
    }
}

/// Functions beside the stack, whose first patch is at 1000 to 1007, each with the reason for which it is not hooked over its live hooks.
const REFUSED_OVER: &[(Function, InstallError)] = &[
    (
        Function { ip: 0xFF9, ..NEAR },
        InstallError::Patched { place: 0x9000 },
    ),
    // the later patches end at 1004
    (
        Function { ip: 0x1005, ..NEAR },
        InstallError::Patched { place: 0x9000 },
    ),
    (Function { ip: 0x903F, ..NEAR }, InstallError::InRange),
];

/// Removals in order, each with what it answers.
const REMOVALS: &[(u64, Result<(), RemoveError>)] = &[
    (
        0x9000,
        Err(RemoveError::Covered {
            place: 0x9000,
            by: 0x9020,
        }),
    ),
    (
        0x9010,
        Err(RemoveError::Covered {
            place: 0x9010,
            by: 0x9020,
        }),
    ),
    (0x9020, Ok(())),
    (
        0x9000,
        Err(RemoveError::Covered {
            place: 0x9000,
            by: 0x9010,
        }),
    ),
    (0x9010, Ok(())),
    (0x9000, Ok(())),
    (0x9000, Err(RemoveError::NotTaken { place: 0x9000 })),
];

/// What a removal answers.
fn removal(hooks: &mut Hooks, place: u64) -> Result<(), RemoveError> {
    hooks.remove(place)?;
    Ok(())
}

#[test]
fn hooks_over_hooks(rt: HostRuntime) -> Result<(), Fail> {
    let mut hooks = stacked(&rt, rt.alloc())?;
    are_stacked(&rt, rt.alloc(), &hooks)?;
    for (function, refusal) in REFUSED_OVER {
        let refused = install_over(&mut hooks, rt.alloc(), function)?;
        same(&rt, "the refusal", &refused, &Err(*refusal));
    }
    let refused = install(&mut hooks, rt.alloc(), &STACK[2].function)?;
    same(
        &rt,
        "the refusal",
        &refused,
        &Err(InstallError::Patched { place: 0x9000 }),
    );
    for (place, want) in REMOVALS {
        same(&rt, "the removal", &removal(&mut hooks, *place), want);
    }
    has_slots(&rt, rt.alloc(), &hooks, 16, &["", "", "", ""])
}

/// A second patch over a function may not reach the patch of another one: push rbp; mov rbp, rsp; sub rsp, 20 with four bytes of 20, 11 bytes.
const LONGER: Function = Function {
    code: "554889e54881ec20000000c3",
    ..NEAR
};

#[test]
fn other_functions_kept_apart(rt: HostRuntime) -> Result<(), Fail> {
    let mut hooks = Hooks::make(rt.alloc(), Bits::B64, 0x9000, 64, 16)?;
    let one = install(&mut hooks, rt.alloc(), &NEAR)?;
    same(&rt, "the place", &one, &Ok(0x9000));
    let next = Function { ip: 0x1008, ..NEAR };
    let two = install_over(&mut hooks, rt.alloc(), &next)?;
    same(&rt, "the place", &two, &Ok(0x9010));
    let refused = install_over(&mut hooks, rt.alloc(), &LONGER)?;
    same(
        &rt,
        "the refusal",
        &refused,
        &Err(InstallError::Patched { place: 0x9010 }),
    );
    Ok(())
}

/// What hooks answer to an install, two removals, the install twice, and another one twice.
fn replies_to_seven(alloc: Global, hooks: &mut Hooks) -> [HookReply; 7] {
    let code = [0x31, 0xC0, 0xFF, 0xC0, 0x90, 0xC3];
    let install = HookCommand::Install {
        ip: 0x1000,
        code: &code,
        to: 0x5000,
        start: StartTarget::Moved,
    };
    let other = HookCommand::Install {
        ip: 0x1010,
        code: &code,
        to: 0x5000,
        start: StartTarget::Moved,
    };
    let remove = HookCommand::Remove { place: 0x9000 };
    let commands = [install, remove, remove, install, install, other, other];
    let mut replies = [HookReply::Removed; 7];
    replay(hooks, alloc, &commands, &mut replies);
    replies
}

const REPLIES: [HookReply; 7] = [
    HookReply::Installed { place: 0x9000 },
    HookReply::Removed,
    HookReply::NotTaken { place: 0x9000 },
    HookReply::Installed { place: 0x9000 },
    HookReply::Refused {
        why: InstallError::Patched { place: 0x9000 },
    },
    HookReply::Installed { place: 0x9010 },
    HookReply::Refused {
        why: InstallError::Full { max: 2 },
    },
];

#[test]
fn commands_in_order(rt: HostRuntime) -> Result<(), Fail> {
    let mut hooks = Hooks::make(rt.alloc(), Bits::B64, 0x9000, 32, 16)?;
    let replies = replies_to_seven(rt.alloc(), &mut hooks);
    same(&rt, "the replies", &replies, &REPLIES);
    let trampolines = &["31c0ffc090e9fb7fffff", "31c0ffc090e9fb7fffff"];
    has_slots(&rt, rt.alloc(), &hooks, 16, trampolines)
}
