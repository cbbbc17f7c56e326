//! Tables of functions that are hooked by rules, with what is seen of each, or why it is refused. The answers are worked out manually.

use crate::detours::compare::{are_bytes, same};
use feddurzai::decoding::DecodeError;
use feddurzai::hooks::{
    Detour, DetourError, HookRules, Passage, RuleError, SeenDetour, Sight, SightEnd, StartTarget,
    View, detour, detour_with,
};
use feddurzai::values::Bits;
use std::alloc::Global;
use std::fmt::Debug;
use std::process::Abort;
use std::test::Fail;

/// A function as hexadecimal digits at its address, where the trampoline will stand, its further entries, and the rules.
#[derive(Clone, Copy)]
pub(crate) struct Case {
    pub(crate) bits: Bits,
    pub(crate) ip: u64,
    pub(crate) code: &'static str,
    pub(crate) place: u64,
    pub(crate) start: StartTarget,
    pub(crate) entries: &'static [u32],
    pub(crate) whole: bool,
    pub(crate) returns: bool,
    pub(crate) calls: bool,
}

/// The rules of a case.
pub(crate) fn rules_of(case: &Case) -> HookRules {
    HookRules {
        start: case.start,
        whole: case.whole,
        returns: case.returns,
        calls: case.calls,
    }
}

/// A function of 64-bit mode at 1000 whose trampoline will stand at 9000, of which all is to be seen.
pub(crate) const WHOLE: Case = Case {
    bits: Bits::B64,
    ip: 0x1000,
    code: "",
    place: 0x9000,
    start: StartTarget::Moved,
    entries: &[],
    whole: true,
    returns: false,
    calls: true,
};

/// Such a function of which as much is seen as can be.
const PART: Case = Case {
    whole: false,
    ..WHOLE
};

/// Such functions of 32-bit mode.
pub(crate) const WHOLE_32: Case = Case {
    bits: Bits::B32,
    ..WHOLE
};

const PART_32: Case = Case {
    whole: false,
    ..WHOLE_32
};

/// Such functions of 16-bit mode.
pub(crate) const WHOLE_16: Case = Case {
    bits: Bits::B16,
    ..WHOLE
};

const PART_16: Case = Case {
    whole: false,
    ..WHOLE_16
};

/// Hooks the function of a case, with its replacement at 5000.
fn hooked(alloc: Global, case: &Case) -> Result<Result<SeenDetour, RuleError>, Fail> {
    let code = hex::decode(alloc, case.code)?;
    if code.len() > 64 {
        return Err(Fail::new("the code of a case is short"));
    }
    Ok(detour_with(
        alloc,
        case.bits,
        case.ip,
        &code,
        0x5000,
        case.place,
        case.entries,
        rules_of(case),
    ))
}

/// What is seen of the function of a case, or why it is refused.
fn seen_of(alloc: Global, case: &Case) -> Result<Result<View, RuleError>, Fail> {
    match hooked(alloc, case)? {
        Ok(seen) => Ok(Ok(seen.view)),
        Err(why) => Ok(Err(why)),
    }
}

/// mov rax, [rdi]; mov rcx, rax; vmovaps zmm0, zmm1, which has no row; jmp to 3; ret
const NO_ROW: &str = "488b074889c162f17c4828c1ebf5c3";

/// mov rax, [rdi]; jmp [rax*8+2000]; inc rdi; jmp to 3; ret
const TABLE: &str = "488b07ff24c50020000048ffc7ebf4c3";

/// cmp byte [rdi], 0; je to 10; inc rdi; jmp to the start; ret
const LOOP: &str = "803f00740548ffc7ebf6c3";

/// mov rax, rcx; mov rcx, rdx; ret
const TWO_MOVES: &str = "4889c84889d1c3";

/// Five NOPs; ret; and a cold part, jmp to 1, which no one names
const COLD: &str = "9090909090c3ebf9";

/// jmp rax; NOPs; jmp to the start
const BEHIND: &str = "ffe0909090ebf9";

/// ret and NOPs up to 7 bytes: its trampoline is one byte
const RET: &str = "c39066900f1f00";

/// 16-bit: three of inc ax; loop to the start; ret
const LOOP_16: &str = "404040e2fbc3";

/// 16-bit: jmp [bx]; a NOP; jmp to 2
const TABLE_16: &str = "ff2790ebfd";

/// 32-bit: five NOPs; 62 with a register, which is no BOUND; jmp to 1
const NO_ROW_32: &str = "909090909062c0ebf8";

/// Functions that get a detour, with how far control is seen and the first suspect.
const ALLOWED: &[(Case, Sight, Option<Passage>)] = &[
    // behind an instruction without a row nothing is seen, and a jump there would enter
    (
        Case {
            code: NO_ROW,
            ..PART
        },
        Sight::Ends {
            at: 6,
            why: SightEnd::NotRead,
        },
        Some(Passage {
            from: 12,
            target: 3,
        }),
    ),
    // so would one behind a jump by a table
    (
        Case {
            code: TABLE,
            ..PART
        },
        Sight::Ends {
            at: 3,
            why: SightEnd::IndirectJump,
        },
        Some(Passage {
            from: 13,
            target: 3,
        }),
    ),
    // a loop to the start comes to the replacement, as is asked
    (
        Case {
            code: LOOP,
            start: StartTarget::Hooked,
            ..WHOLE
        },
        Sight::Whole,
        None,
    ),
    (
        Case {
            code: TWO_MOVES,
            ..WHOLE
        },
        Sight::Whole,
        None,
    ),
    // entries at the first byte, behind what is overwritten, at the end and past it
    (
        Case {
            code: TWO_MOVES,
            entries: &[0, 7, 100, 6],
            ..WHOLE
        },
        Sight::Whole,
        None,
    ),
    // an entry in the midst of what comes behind
    (
        Case {
            code: "9090909090b8c3000000c3",
            entries: &[6],
            ..WHOLE
        },
        Sight::Whole,
        None,
    ),
    // a cold part that is no entry is not seen, and no suspect where all is seen
    (
        Case {
            code: COLD,
            ..WHOLE
        },
        Sight::Whole,
        None,
    ),
    (Case { code: COLD, ..PART }, Sight::Whole, None),
    // a jump back to the start is a suspect if loops stay in the trampoline
    (
        Case {
            code: BEHIND,
            ..PART
        },
        Sight::Ends {
            at: 0,
            why: SightEnd::IndirectJump,
        },
        Some(Passage { from: 5, target: 0 }),
    ),
    (
        Case {
            code: BEHIND,
            start: StartTarget::Hooked,
            ..PART
        },
        Sight::Ends {
            at: 0,
            why: SightEnd::IndirectJump,
        },
        None,
    ),
    // mov rax, rcx; mov rcx, rdx; a call of the start, which is recursion; ret
    (
        Case {
            code: "4889c84889d1e8f5ffffffc3",
            ..WHOLE
        },
        Sight::Whole,
        None,
    ),
    // call rax; int3; jmp out of the code
    (
        Case {
            code: "ffd0cce900010000",
            ..WHOLE
        },
        Sight::Whole,
        None,
    ),
    // a trampoline of one byte just before the code, and just after it
    (
        Case {
            code: RET,
            place: 0xFFF,
            ..WHOLE
        },
        Sight::Whole,
        None,
    ),
    (
        Case {
            code: RET,
            place: 0x1007,
            ..WHOLE
        },
        Sight::Whole,
        None,
    ),
    // 32-bit mode: push esi; call out of the code; add esi, 2000; ret
    (
        Case {
            code: "56e80001000081c600200000c3",
            ..WHOLE_32
        },
        Sight::Whole,
        None,
    ),
    (
        Case {
            code: NO_ROW_32,
            ..PART_32
        },
        Sight::Ends {
            at: 5,
            why: SightEnd::NotRead,
        },
        Some(Passage { from: 7, target: 1 }),
    ),
    // mov eax, ecx; NOPs, where the code ends
    (
        Case {
            code: "89c8909090",
            ..PART_32
        },
        Sight::Ends {
            at: 4,
            why: SightEnd::Ended,
        },
        None,
    ),
    // 16-bit mode: three of inc ax; a call of the start; ret
    (
        Case {
            code: "404040e8faffc3",
            ..WHOLE_16
        },
        Sight::Whole,
        None,
    ),
    (
        Case {
            code: TABLE_16,
            ..PART_16
        },
        Sight::Ends {
            at: 0,
            why: SightEnd::IndirectJump,
        },
        Some(Passage { from: 3, target: 2 }),
    ),
    // over the end of the address space, with the trampoline just behind the last byte, which is at 3
    (
        Case {
            ip: 0xFFFE,
            code: LOOP_16,
            place: 4,
            start: StartTarget::Hooked,
            ..WHOLE_16
        },
        Sight::Whole,
        None,
    ),
];

#[test]
fn functions_are_hooked_where_nothing_enters(rt: HostRuntime) -> Result<(), Fail> {
    for (case, sight, suspect) in ALLOWED {
        let found = seen_of(rt.alloc(), case)?;
        let view = View {
            sight: *sight,
            entered: None,
            inside: None,
            suspect: *suspect,
        };
        same(&rt, case.code, &found, &Ok(view));
    }
    Ok(())
}

/// Functions that are refused, each with its cause.
const REFUSED: &[(Case, RuleError)] = &[
    // sight ends at the instruction without a row, and whole sight was asked for
    (
        Case {
            code: NO_ROW,
            ..WHOLE
        },
        RuleError::Unseen {
            at: 6,
            why: SightEnd::NotRead,
        },
    ),
    // NOPs in its place: the detour itself is refused
    (
        Case {
            code: "488b074889c1909090909090ebf5c3",
            ..PART
        },
        RuleError::Detour(DetourError::Entered {
            from: 12,
            target: 3,
        }),
    ),
    // sight ends at the jump by a table
    (
        Case {
            code: TABLE,
            ..WHOLE
        },
        RuleError::Unseen {
            at: 3,
            why: SightEnd::IndirectJump,
        },
    ),
    // the first target of the table as an entry: what it reaches enters, which comes before the end of sight
    (
        Case {
            code: TABLE,
            entries: &[10],
            ..PART
        },
        RuleError::Entered {
            from: 13,
            target: 3,
        },
    ),
    (
        Case {
            code: TABLE,
            entries: &[10],
            ..WHOLE
        },
        RuleError::Entered {
            from: 13,
            target: 3,
        },
    ),
    // a loop to the start would come to the replacement
    (
        Case { code: LOOP, ..PART },
        RuleError::Entered { from: 8, target: 0 },
    ),
    // entries within the overwritten bytes, the least one first
    (
        Case {
            code: TWO_MOVES,
            entries: &[6, 3],
            ..PART
        },
        RuleError::Entered { from: 3, target: 3 },
    ),
    (
        Case {
            code: TWO_MOVES,
            entries: &[3, 4, 1],
            ..PART
        },
        RuleError::Entered { from: 1, target: 1 },
    ),
    // the cold part as an entry
    (
        Case {
            code: COLD,
            entries: &[6],
            ..PART
        },
        RuleError::Entered { from: 6, target: 1 },
    ),
    // with an entry within the overwritten bytes, which comes before it
    (
        Case {
            code: COLD,
            entries: &[6, 2],
            ..PART
        },
        RuleError::Entered { from: 2, target: 2 },
    ),
    (
        Case {
            code: BEHIND,
            ..WHOLE
        },
        RuleError::Unseen {
            at: 0,
            why: SightEnd::IndirectJump,
        },
    ),
    // the trampoline at the first byte, and at the last one
    (
        Case {
            code: RET,
            place: 0x1000,
            ..PART
        },
        RuleError::Overlaps,
    ),
    (
        Case {
            code: RET,
            place: 0x1006,
            ..PART
        },
        RuleError::Overlaps,
    ),
    // its last bytes over the first ones; the entry comes after it
    (
        Case {
            code: TWO_MOVES,
            place: 0xFFC,
            entries: &[3],
            ..PART
        },
        RuleError::Overlaps,
    ),
    // 06 is PUSH ES, which 64-bit mode does not have: no detour comes first
    (
        Case {
            code: "06",
            place: 0x1000,
            entries: &[3],
            ..WHOLE
        },
        RuleError::Detour(DetourError::BadCode {
            at: 0,
            error: DecodeError::Invalid,
        }),
    ),
    (
        Case {
            code: "55c3",
            ..PART
        },
        RuleError::Detour(DetourError::TooSmall { len: 2, need: 5 }),
    ),
    (
        Case {
            code: NO_ROW_32,
            ..WHOLE_32
        },
        RuleError::Unseen {
            at: 5,
            why: SightEnd::NotRead,
        },
    ),
    // the jump behind it as an entry
    (
        Case {
            code: NO_ROW_32,
            entries: &[7],
            ..WHOLE_32
        },
        RuleError::Entered { from: 7, target: 1 },
    ),
    // six NOPs; jle to 3
    (
        Case {
            code: "9090909090907efbc3",
            ..PART_32
        },
        RuleError::Detour(DetourError::Entered { from: 6, target: 3 }),
    ),
    // the code ends behind an instruction that goes on, and within one
    (
        Case {
            code: "89c8909090",
            ..WHOLE_32
        },
        RuleError::Unseen {
            at: 4,
            why: SightEnd::Ended,
        },
    ),
    (
        Case {
            code: "9090909090e8",
            ..WHOLE_32
        },
        RuleError::Unseen {
            at: 5,
            why: SightEnd::Ended,
        },
    ),
    // call rax and NOPs: the call is moved as it is; it comes before an entry
    (
        Case {
            code: "ffd0909090c3",
            entries: &[1],
            returns: true,
            calls: false,
            ..PART
        },
        RuleError::Calls { at: 0 },
    ),
    // 32-bit mode: push esi; a call of a thunk, which pushes its own return address only if that is asked for
    (
        Case {
            calls: false,
            ..THUNK
        },
        RuleError::Calls { at: 1 },
    ),
    // 16-bit mode
    (
        Case {
            code: LOOP_16,
            ..PART_16
        },
        RuleError::Entered { from: 3, target: 0 },
    ),
    (
        Case {
            code: TABLE_16,
            ..WHOLE_16
        },
        RuleError::Unseen {
            at: 0,
            why: SightEnd::IndirectJump,
        },
    ),
    // over the end of the address space, with the trampoline at the last byte
    (
        Case {
            ip: 0xFFFE,
            code: LOOP_16,
            place: 3,
            start: StartTarget::Hooked,
            ..WHOLE_16
        },
        RuleError::Overlaps,
    ),
];

#[test]
fn functions_are_refused_in_order(rt: HostRuntime) -> Result<(), Fail> {
    for (case, why) in REFUSED {
        let found = seen_of(rt.alloc(), case)?;
        same(&rt, case.code, &found, &Err(*why));
    }
    Ok(())
}

/// 32-bit mode: push esi; call of a thunk out of the code; add esi, 2000; ret
const THUNK: Case = Case {
    code: "56e80001000081c600200000c3",
    ..WHOLE_32
};

/// Two NOPs; a call of the start; ret
const RECURSION: Case = Case {
    code: "9090e8f9ffffffc3",
    returns: true,
    calls: false,
    ..WHOLE
};

/// Functions with the bytes of their trampolines, and the first call that is moved as it is.
const TRAMPOLINES: &[(Case, &str, Option<u32>)] = &[
    // push rbx; lea rbx, [rip-7], which is its own address and stays; jump back
    (
        Case {
            code: "53488d1df9ffffff5bc3",
            ..WHOLE
        },
        "53488d1df97fffffe9fb7fffff",
        None,
    ),
    // push esi; push 1006; jmp 1106
    (
        Case {
            returns: true,
            calls: false,
            ..THUNK
        },
        "566806100000e9fb80ffff",
        None,
    ),
    // push esi; call 1106; jump back
    (THUNK, "56e80081ffffe9fb7fffff", Some(1)),
    // sub rsp, 8; push 1009; mov dword [rsp+4], 0; jmp 1109
    (
        Case {
            code: "4883ec08e8000100004883c408c3",
            returns: true,
            calls: false,
            ..WHOLE
        },
        "4883ec086809100000c744240400000000e9f380ffff",
        None,
    ),
    // two NOPs; push 1007; mov dword [rsp+4], 0; jmp to the first NOP, or to the function
    (RECURSION, "90906807100000c744240400000000e9ecffffff", None),
    (
        Case {
            start: StartTarget::Hooked,
            ..RECURSION
        },
        "90906807100000c744240400000000e9ec7fffff",
        None,
    ),
];

#[test]
fn moved_instructions_do_what_they_did(rt: HostRuntime) -> Result<(), Fail> {
    for (case, trampoline, call) in TRAMPOLINES {
        let seen = hooked(rt.alloc(), case)??;
        let made = &seen.detour;
        are_bytes(&rt, rt.alloc(), case.code, made.trampoline(), trampoline)?;
        same(&rt, case.code, &made.call(), call);
    }
    Ok(())
}

/// je to 8; mov rax, rcx; mov rcx, rdx; ret
const SKIP: Case = Case {
    code: "74064889c84889d1c3",
    ..WHOLE
};

/// loop to itself; a NOP; ret
const SPIN: Case = Case {
    ip: 0x100,
    code: "e2fe90c3",
    place: 0x300,
    start: StartTarget::Hooked,
    ..WHOLE_16
};

/// That the numbers that were found are those that are wanted.
fn same_items<T: PartialEq + Debug>(rt: &impl Abort, of: &str, found: &[T], want: &[T]) {
    assert_eq!(rt; found, want, "{of}");
}

/// That the second of two moved instructions begins at these offsets of the function and of the trampoline, and that none begins at the others.
fn is_placed(rt: &impl Abort, made: &Detour, start: u32, place: u64, no_start: u32, no_place: u64) {
    same_items(rt, "the starts", made.starts(), &[0, start]);
    same_items(rt, "the places", made.places(), &[0, place]);
    same(rt, "the place", &made.place_of(start), &Some(place));
    same(rt, "the start", &made.start_of(place), &Some(start));
    same(rt, "no place", &made.place_of(no_start), &None);
    same(rt, "no start", &made.start_of(no_place), &None);
}

// The branch has 6 bytes in the trampoline, from 9006 to 1008, and the jump back goes from 900E to 1005.
#[test]
fn moved_instructions_have_places(rt: HostRuntime) -> Result<(), Fail> {
    let seen = hooked(rt.alloc(), &SKIP)??;
    let made = &seen.detour;
    are_bytes(&rt, rt.alloc(), "the patch", made.patch(), "e9fb3f0000")?;
    let trampoline = "0f840280ffff4889c8e9f77fffff";
    are_bytes(
        &rt,
        rt.alloc(),
        "the trampoline",
        made.trampoline(),
        trampoline,
    )?;
    is_placed(&rt, made, 2, 6, 5, 9);
    Ok(())
}

// The loop is a bridge of 7 bytes.
#[test]
fn a_bridge_moves_what_follows(rt: HostRuntime) -> Result<(), Fail> {
    let code = [0xE2, 0xFE, 0x90, 0xC3];
    let made = detour(
        rt.alloc(),
        SPIN.bits,
        SPIN.ip,
        &code,
        0x200,
        SPIN.place,
        SPIN.start,
    )?;
    is_placed(&rt, &made, 2, 7, 7, 2);
    Ok(())
}
