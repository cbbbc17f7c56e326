//! The size words that an address may have, by the operands of the manual's instructions.

use crate::tests::compare::same_of;
use intel_reader::sizes::{SizeSet, sizes_of_address};
use intel_words::pieces::TextPieces;
use intel_words::words::SizeName;
use std::process::Abort;
use x86_values::Bits;

/// Each size word.
const EACH: [SizeName; 11] = [
    SizeName::None,
    SizeName::Byte,
    SizeName::Word,
    SizeName::Dword,
    SizeName::Qword,
    SizeName::Tbyte,
    SizeName::Xmmword,
    SizeName::Ymmword,
    SizeName::Far16,
    SizeName::Far32,
    SizeName::Far64,
];

/// That a set has these size words and no others.
fn has_exactly(rt: &impl Abort, set: SizeSet, want: &[SizeName], case: &str) {
    for size in &EACH {
        same_of(rt, &set.has(*size), &want.contains(size), &(case, *size));
    }
}

/// That operand `n` of a text in 64-bit mode may have these size words.
fn may_have(rt: &impl Abort, head: &str, operands: [&str; 3], n: usize, want: &[SizeName]) {
    let [first, second, third] = operands;
    let pieces = TextPieces {
        head: head.as_bytes(),
        first: first.as_bytes(),
        second: second.as_bytes(),
        third: third.as_bytes(),
        fourth: b"",
    };
    has_exactly(rt, sizes_of_address(Bits::B64, &pieces, n), want, head);
}

#[test]
fn an_address_has_the_sizes_of_its_rows(rt: HostRuntime) {
    let at = "[rbp-0x68]";
    let whole = &[
        SizeName::Byte,
        SizeName::Word,
        SizeName::Dword,
        SizeName::Qword,
    ];
    let far = &[SizeName::Far16, SizeName::Far32, SizeName::Far64];
    // a register beside the address tells its size
    may_have(&rt, "mov", ["rdi", at, ""], 1, &[SizeName::Qword]);
    may_have(&rt, "lock add", [at, "cx", ""], 0, &[SizeName::Word]);
    may_have(&rt, "movss", ["xmm0", at, ""], 1, &[SizeName::Dword]);
    may_have(&rt, "movdqa", ["xmm0", at, ""], 1, &[SizeName::Xmmword]);
    may_have(&rt, "imul", ["eax", at, "0x5"], 1, &[SizeName::Dword]);
    // or does not
    may_have(
        &rt,
        "movzx",
        ["eax", at, ""],
        1,
        &[SizeName::Byte, SizeName::Word],
    );
    may_have(&rt, "mov", ["fs:[rbx]", "0x5", ""], 0, whole);
    may_have(&rt, "callf", [at, "", ""], 0, far);
    may_have(
        &rt,
        "fld",
        [at, "", ""],
        0,
        &[SizeName::Dword, SizeName::Qword, SizeName::Tbyte],
    );
    // rows of both lengths of vectors may name a register of either
    may_have(
        &rt,
        "vmovdqa",
        ["ymm0", at, ""],
        1,
        &[SizeName::Xmmword, SizeName::Ymmword],
    );
    // no memory is read
    may_have(&rt, "lea", ["rdi", at, ""], 1, &[SizeName::None]);
    // no such instruction
    may_have(&rt, "lea", [at, "rdi", ""], 0, &[]);
    may_have(&rt, "rdi", [at, "", ""], 0, &[]);
}

#[test]
fn a_text_that_does_not_tell_has_all_sizes(rt: HostRuntime) {
    for (head, first, second, n) in &[
        ("mov", "rdi", "[rbx]", 0),
        ("mov", "rdi", "[rbx]", 4),
        ("mov", "rdi", "qword [rbx]", 1),
        ("mov", "rdi, rdi", "[rbx]", 1),
        ("mov", "", "[rbx]", 1),
        ("mov ", "rdi", "[rbx]", 1),
        ("lock", "[rbx]", "", 0),
        ("jecxz", "[rbx]", "", 0),
    ] {
        may_have(&rt, head, [*first, *second, ""], *n, &EACH);
    }
}
