//! What is seen of functions whose first bytes a hook overwrites. The answers are worked out manually.

use crate::tests::compare::same;
use flow_graph::hook_sight::{Passage, Sight, SightEnd, StartRule, View, look};
use std::alloc::Global;
use std::process::Abort;
use std::test::Fail;
use x86_values::Bits;

/// A function at 1000 as hexadecimal digits, its further entries, how many bytes are overwritten, where the moved instructions begin, and the rule for
/// the start.
#[derive(Clone, Copy)]
struct Case {
    bits: Bits,
    ip: u64,
    code: &'static str,
    entries: &'static [u32],
    taken: usize,
    moved: &'static [u32],
    start: StartRule,
}

/// A function of 64-bit mode whose start is closed.
const CASE: Case = Case {
    bits: Bits::B64,
    ip: 0x1000,
    code: "",
    entries: &[],
    taken: 5,
    moved: &[0],
    start: StartRule::Closed,
};

/// Such a function of 32-bit mode.
const CASE_32: Case = Case {
    bits: Bits::B32,
    ..CASE
};

/// Such a function of 16-bit mode, of which three bytes are overwritten.
const CASE_16: Case = Case {
    bits: Bits::B16,
    taken: 3,
    moved: &[0, 1, 2],
    ..CASE
};

/// All is seen, and nothing enters.
const WHOLE: View = View {
    sight: Sight::Whole,
    entered: None,
    inside: None,
    suspect: None,
};

/// That this is seen of a function.
fn is_seen(rt: &impl Abort, alloc: Global, case: &Case, view: &View) -> Result<(), Fail> {
    let code = hex::decode(alloc, case.code)?;
    if code.len() > 32 {
        return Err(Fail::new("the code of a case is short"));
    }
    let found = look(
        alloc,
        case.bits,
        case.ip,
        &code,
        case.entries,
        case.taken,
        case.moved,
        case.start,
    )?;
    same(rt, case.code, &found, view);
    Ok(())
}

/// Functions of 64-bit mode whose first five bytes or more are overwritten.
const FUNCTIONS: &[(Case, View)] = &[
    // mov rax, [rdi]; mov rcx, rax; vmovaps zmm0, zmm1, which has no row; jmp to 3; ret
    (
        Case {
            code: "488b074889c162f17c4828c1ebf5c3",
            taken: 6,
            moved: &[0, 3],
            ..CASE
        },
        View {
            sight: Sight::Ends {
                at: 6,
                why: SightEnd::NotRead,
            },
            suspect: Some(Passage {
                from: 12,
                target: 3,
            }),
            ..WHOLE
        },
    ),
    // NOPs in place of that: all is seen, and the jump enters
    (
        Case {
            code: "488b074889c1909090909090ebf5c3",
            taken: 6,
            moved: &[0, 3],
            ..CASE
        },
        View {
            entered: Some(Passage {
                from: 12,
                target: 3,
            }),
            ..WHOLE
        },
    ),
    // mov rax, [rdi]; jmp [rax*8+2000]; inc rdi; jmp to 3; ret
    (
        Case {
            code: "488b07ff24c50020000048ffc7ebf4c3",
            taken: 10,
            moved: &[0, 3],
            ..CASE
        },
        View {
            sight: Sight::Ends {
                at: 3,
                why: SightEnd::IndirectJump,
            },
            suspect: Some(Passage {
                from: 13,
                target: 3,
            }),
            ..WHOLE
        },
    ),
    // the first target of its table
    (
        Case {
            code: "488b07ff24c50020000048ffc7ebf4c3",
            entries: &[10],
            taken: 10,
            moved: &[0, 3],
            ..CASE
        },
        View {
            sight: Sight::Ends {
                at: 3,
                why: SightEnd::IndirectJump,
            },
            entered: Some(Passage {
                from: 13,
                target: 3,
            }),
            ..WHOLE
        },
    ),
    // NOPs in place of the jump by the table
    (
        Case {
            code: "488b079090909090909048ffc7ebf4c3",
            moved: &[0, 3, 4],
            ..CASE
        },
        View {
            entered: Some(Passage {
                from: 13,
                target: 3,
            }),
            ..WHOLE
        },
    ),
    // cmp byte [rdi], 0; je to 10; inc rdi; jmp to the start; ret
    (
        Case {
            code: "803f00740548ffc7ebf6c3",
            moved: &[0, 3],
            ..CASE
        },
        View {
            entered: Some(Passage { from: 8, target: 0 }),
            ..WHOLE
        },
    ),
    // the same loop where the start is open to it
    (
        Case {
            code: "803f00740548ffc7ebf6c3",
            moved: &[0, 3],
            start: StartRule::Open,
            ..CASE
        },
        WHOLE,
    ),
    // push rbx; lea rbx, [rip-7]; ret
    (
        Case {
            code: "53488d1df9ffffffc3",
            taken: 8,
            moved: &[0, 1],
            ..CASE
        },
        WHOLE,
    ),
    // mov rax, rcx; mov rcx, rdx; ret, with an entry at the second one
    (
        Case {
            code: "4889c84889d1c3",
            entries: &[6, 3],
            taken: 6,
            moved: &[0, 3],
            ..CASE
        },
        View {
            inside: Some(3),
            ..WHOLE
        },
    ),
    // entries at the first byte, at the end and past it, and one behind
    (
        Case {
            code: "4889c84889d1c3",
            entries: &[0, 7, 100, 6],
            taken: 6,
            moved: &[0, 3],
            ..CASE
        },
        WHOLE,
    ),
    // two entries within, the lesser one in the midst of an instruction
    (
        Case {
            code: "4889c84889d1c3",
            entries: &[3, 4, 1],
            taken: 6,
            moved: &[0, 3],
            ..CASE
        },
        View {
            inside: Some(1),
            ..WHOLE
        },
    ),
    // five NOPs; ret; and a cold part, jmp to 1, which no one names
    (
        Case {
            code: "9090909090c3ebf9",
            moved: &[0, 1, 2, 3, 4],
            ..CASE
        },
        WHOLE,
    ),
    // the cold part as an entry
    (
        Case {
            code: "9090909090c3ebf9",
            entries: &[6],
            moved: &[0, 1, 2, 3, 4],
            ..CASE
        },
        View {
            entered: Some(Passage { from: 6, target: 1 }),
            ..WHOLE
        },
    ),
    // jmp rax; NOPs; jmp to the start
    (
        Case {
            code: "ffe0909090ebf9",
            ..CASE
        },
        View {
            sight: Sight::Ends {
                at: 0,
                why: SightEnd::IndirectJump,
            },
            suspect: Some(Passage { from: 5, target: 0 }),
            ..WHOLE
        },
    ),
    // the start is open to it
    (
        Case {
            code: "ffe0909090ebf9",
            start: StartRule::Open,
            ..CASE
        },
        View {
            sight: Sight::Ends {
                at: 0,
                why: SightEnd::IndirectJump,
            },
            ..WHOLE
        },
    ),
    // a call of the start in its place
    (
        Case {
            code: "ffe0909090e8f6ffffffc3",
            ..CASE
        },
        View {
            sight: Sight::Ends {
                at: 0,
                why: SightEnd::IndirectJump,
            },
            ..WHOLE
        },
    ),
    // control runs off the code: mov eax, ecx; NOPs
    (
        Case {
            code: "89c8909090",
            moved: &[0, 2, 3, 4],
            ..CASE
        },
        View {
            sight: Sight::Ends {
                at: 4,
                why: SightEnd::Ended,
            },
            ..WHOLE
        },
    ),
    // the code ends within a call
    (
        Case {
            code: "9090909090e8",
            moved: &[0, 1, 2, 3, 4],
            ..CASE
        },
        View {
            sight: Sight::Ends {
                at: 5,
                why: SightEnd::Ended,
            },
            ..WHOLE
        },
    ),
    // call rax; int3; jmp out of the code
    (
        Case {
            code: "ffd0cce900010000",
            taken: 8,
            moved: &[0, 2, 3],
            ..CASE
        },
        WHOLE,
    ),
    // no code
    (Case { code: "", ..CASE }, WHOLE),
];

#[test]
fn functions_are_seen(rt: HostRuntime) -> Result<(), Fail> {
    for (case, view) in FUNCTIONS {
        is_seen(&rt, rt.alloc(), case, view)?;
    }
    Ok(())
}

/// Functions of 32 and 16-bit mode.
const OTHER_MODES: &[(Case, View)] = &[
    // push esi; call out of the code; add esi, 2000; ret
    (
        Case {
            code: "56e80001000081c600200000c3",
            taken: 6,
            moved: &[0, 1],
            ..CASE_32
        },
        WHOLE,
    ),
    // six NOPs; jle to 3; ret
    (
        Case {
            code: "9090909090907efbc3",
            moved: &[0, 1, 2, 3, 4],
            ..CASE_32
        },
        View {
            entered: Some(Passage { from: 6, target: 3 }),
            ..WHOLE
        },
    ),
    // jmp to 3, over a byte and into the next instruction; ret there
    (
        Case {
            code: "eb01b8c3c3c3c3c3",
            taken: 7,
            ..CASE_32
        },
        View {
            entered: Some(Passage { from: 0, target: 3 }),
            ..WHOLE
        },
    ),
    // where an instruction is moved too
    (
        Case {
            code: "eb01b8c3c3c3c3c3",
            taken: 7,
            moved: &[0, 3],
            ..CASE_32
        },
        WHOLE,
    ),
    // jmp 8:0, a far pointer
    (
        Case {
            code: "ea000000000800",
            taken: 7,
            ..CASE_32
        },
        WHOLE,
    ),
    // 62 with a register is no BOUND; the jump behind it goes to 1
    (
        Case {
            code: "909090909062c0ebf8",
            moved: &[0, 1, 2, 3, 4],
            ..CASE_32
        },
        View {
            sight: Sight::Ends {
                at: 5,
                why: SightEnd::NotRead,
            },
            suspect: Some(Passage { from: 7, target: 1 }),
            ..WHOLE
        },
    ),
    // three of inc ax; a call of the start; ret
    (
        Case {
            code: "404040e8faffc3",
            ..CASE_16
        },
        WHOLE,
    ),
    // loop to the start in its place
    (
        Case {
            code: "404040e2fbc3",
            ..CASE_16
        },
        View {
            entered: Some(Passage { from: 3, target: 0 }),
            ..WHOLE
        },
    ),
    // at the end of the address space
    (
        Case {
            ip: 0xFFFE,
            code: "404040e2fbc3",
            ..CASE_16
        },
        View {
            entered: Some(Passage { from: 3, target: 0 }),
            ..WHOLE
        },
    ),
    // the start is open to it
    (
        Case {
            code: "404040e2fbc3",
            start: StartRule::Open,
            ..CASE_16
        },
        WHOLE,
    ),
    // jmp [bx]; a jump to 2
    (
        Case {
            code: "ff2790ebfd",
            moved: &[0, 2],
            ..CASE_16
        },
        View {
            sight: Sight::Ends {
                at: 0,
                why: SightEnd::IndirectJump,
            },
            suspect: Some(Passage { from: 3, target: 2 }),
            ..WHOLE
        },
    ),
];

#[test]
fn functions_of_other_modes_are_seen(rt: HostRuntime) -> Result<(), Fail> {
    for (case, view) in OTHER_MODES {
        is_seen(&rt, rt.alloc(), case, view)?;
    }
    Ok(())
}
