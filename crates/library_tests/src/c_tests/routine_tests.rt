//! Routines as text.

use crate::c_tests::compare::{are, gave, wrote};
use crate::c_tests::empty::{NO_LABEL, NO_ROUTINE};
use c_calls::flat::{FlatLabel, FlatRoutine};
use c_calls::routines::{assemble_code, assemble_code_near};
use std::process::Abort;

/// That a label has this address, place, length of its name, line, and flag.
fn is_label(rt: &impl Abort, label: &FlatLabel, want: &[u64]) {
    let found = [
        label.address,
        label.offset,
        label.len,
        label.line,
        label.has_address as u64,
    ];
    are(rt, "the label", &found, want);
}

/// That a report has these numbers.
fn is_report(
    rt: &impl Abort,
    of: &str,
    answer: i32,
    report: &FlatRoutine,
    want: i32,
    numbers: &[u64],
) {
    let found = [
        report.bytes,
        report.slots,
        report.labels,
        report.line,
        report.column,
        report.at,
        report.address,
    ];
    gave(rt, of, answer, &found, want, numbers);
}

// A loop with a name of the caller, and a label at its end.
#[test]
fn a_routine_is_assembled(rt: HostRuntime) {
    let (mut code, mut labels) = ([0xaa; 11], [NO_LABEL; 3]);
    let mut report = NO_ROUTINE;
    let text = b"next: dec ecx\n jne next\n  call puts\n end:";
    let answer = assemble_code(
        rt.alloc(),
        64,
        0x40_1000,
        text,
        b"puts = 0x401180",
        &mut code,
        &mut labels,
        &mut report,
    );
    is_report(&rt, "the loop", answer, &report, 0, &[9, 0, 2, 0, 0, 0, 0]);
    let want = b"\xff\xc9\x75\xfc\xe8\x77\x01\0\0\xaa\xaa";
    wrote(&rt, "the bytes", answer, &code, 0, want);
    is_label(&rt, &labels[0], &[0x40_1000, 0, 4, 1, 1]);
    is_label(&rt, &labels[1], &[0x40_1009, 37, 3, 4, 1]);
    is_label(&rt, &labels[2], &[9, 9, 9, 9, 9]);
}

/// A text that is refused, with its status, its line and its column.
type Refused = (&'static [u8], i32, u64, u64);

const REFUSED: &[Refused] = &[
    (b"ret\n  mvo eax, 1", -16, 2, 3),
    (b"x: inc [rbx]", -35, 1, 4),
    (b"db 256", -36, 1, 1),
    (b"jmp there", -37, 1, 1),
    (b"x: nop\n x: nop", -38, 2, 2),
    (b"nop\n jz: nop", -43, 2, 2),
];

#[test]
fn a_refused_line_is_named(rt: HostRuntime) {
    for (text, want, line, column) in REFUSED {
        let mut code = [0xaa; 3];
        let mut report = NO_ROUTINE;
        let answer = assemble_code(
            rt.alloc(),
            64,
            0,
            text,
            b"",
            &mut code,
            &mut [],
            &mut report,
        );
        is_report(
            &rt,
            "a text",
            answer,
            &report,
            *want,
            &[0, 0, 0, *line, *column, 0, 0],
        );
        wrote(&rt, "no bytes", answer, &code, *want, &[0xaa; 3]);
    }
}

// Behind three items an operand out of reach, which the first byte would reach; and two bytes at the last address.
#[test]
fn an_item_is_named_by_its_line(rt: HostRuntime) {
    let mut report = NO_ROUTINE;
    let text = b"nop\n db 1, 2\nx: lea rax, [rel 0x1007]";
    let answer = assemble_code(
        rt.alloc(),
        64,
        0x8000_1000,
        text,
        b"",
        &mut [],
        &mut [],
        &mut report,
    );
    let far = [0, 0, 0, 3, 4, 3, 0x1007];
    is_report(&rt, "an operand out of reach", answer, &report, -14, &far);
    let answer = assemble_code(
        rt.alloc(),
        64,
        u64::MAX,
        b"nop\n nop",
        b"",
        &mut [],
        &mut [],
        &mut report,
    );
    is_report(&rt, "the end", answer, &report, -13, &[0, 0, 0, 2, 2, 0, 1]);
}

// A jump whose target is in reach of the first byte, and not of its own place.
#[test]
fn a_slot_is_refused(rt: HostRuntime) {
    let mut code = [0xaa; 16];
    let mut report = NO_ROUTINE;
    let text = b"nop\n jmp back";
    let answer = assemble_code(
        rt.alloc(),
        64,
        0x8000_0000,
        text,
        b"back = 5",
        &mut code,
        &mut [],
        &mut report,
    );
    is_report(&rt, "a slot", answer, &report, 0, &[16, 1, 0, 0, 0, 0, 0]);
    let want = b"\x90\xff\x25\x01\0\0\0\xcc\x05\0\0\0\0\0\0\0";
    wrote(&rt, "the bytes", answer, &code, 0, want);
    let answer = assemble_code_near(
        rt.alloc(),
        64,
        0x8000_0000,
        text,
        b"back = 5",
        &mut code,
        &mut [],
        &mut report,
    );
    let far = [0, 0, 0, 2, 2, 1, 5];
    is_report(&rt, "no slot", answer, &report, -14, &far);
    wrote(&rt, "no bytes", answer, &code, -14, want);
}
