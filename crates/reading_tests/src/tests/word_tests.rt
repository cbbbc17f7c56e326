//! Texts as the manual's assembler syntax has them, and what they say.

use crate::tests::compare::same_value;
use intel_words::reading::read_words;
use intel_words::words::{
    AddressText, Inside, IntelWords, NamedWords, OperandText, SignedText, SizeName, SumText,
};
use std::process::Abort;
use x86_values::{Bits, Register, Rep, Segment};

/// Words without prefix words.
fn plain(ops: [OperandText; 4]) -> IntelWords {
    IntelWords {
        lock: false,
        rep: Rep::None,
        seg: None,
        asize: None,
        osize: None,
        ops,
    }
}

/// Registers and a displacement in brackets.
fn sum(
    base: Option<Register>,
    index: Option<Register>,
    scale: Option<u8>,
    disp: Option<SignedText>,
) -> Inside {
    Inside::Sum(SumText {
        base,
        index,
        scale,
        disp,
    })
}

/// An address.
fn address(size: SizeName, seg: Option<Segment>, inside: Inside) -> OperandText {
    OperandText::Mem(AddressText { size, seg, inside })
}

/// An address relative to RIP or EIP.
fn rel(eip: bool, target: u64) -> Inside {
    Inside::Rel { eip, target }
}

/// A register.
fn reg(register: Register) -> OperandText {
    OperandText::Reg(register)
}

const NONE: OperandText = OperandText::Absent;

/// That a text is read as this name and these words.
fn says(rt: &impl Abort, text: &str, name: &str, words: IntelWords) {
    let want = NamedWords {
        name: name.as_bytes(),
        words,
    };
    same_value(rt, &read_words(text.as_bytes()), &Some(want), text);
}

#[test]
fn operands_are_read(rt: HostRuntime) {
    let minus_8 = Some(SignedText {
        negative: true,
        magnitude: 8,
    });
    let plus_16 = Some(SignedText {
        negative: false,
        magnitude: 16,
    });
    let far = OperandText::Far {
        selector: 8,
        offset: 16,
    };
    let of_fs = sum(Some(Register::RAX), Some(Register::RBX), Some(4), minus_8);
    let at_fs = address(SizeName::Dword, Some(Segment::Fs), of_fs);
    let at_rip = address(SizeName::None, None, rel(false, 0x1007));
    let at_eip = address(SizeName::Word, None, rel(true, 0x1007));
    let lone = Inside::Lone(0xFFFF_FFFF_0000_0000);
    let at_lone = address(SizeName::Byte, None, lone);
    let of_bx = sum(Some(Register::BX), Some(Register::SI), None, plus_16);
    let at_bx = address(SizeName::Byte, None, of_bx);
    let of_ymm = sum(None, Some(Register::YMM2), Some(8), None);
    let at_ymm = address(SizeName::Dword, None, of_ymm);
    let of_esp = sum(Some(Register::ESP), None, None, None);
    let at_esp = address(SizeName::Far32, None, of_esp);
    let (five, thirty_two) = (OperandText::Number(5), OperandText::Number(0x20));
    let cases = [
        ("nop", "nop", [NONE, NONE, NONE, NONE]),
        ("push rbp", "push", [reg(Register::RBP), NONE, NONE, NONE]),
        (
            "mov ah, r13b",
            "mov",
            [reg(Register::AH), reg(Register::R13B), NONE, NONE],
        ),
        (
            "sub rsp, 0x20",
            "sub",
            [reg(Register::RSP), thirty_two, NONE, NONE],
        ),
        ("callf 0x8:0x10", "callf", [far, NONE, NONE, NONE]),
        (
            "mov eax, dword fs:[rax+rbx*4-0x8]",
            "mov",
            [reg(Register::EAX), at_fs, NONE, NONE],
        ),
        (
            "lea rcx, [rel 0x1007]",
            "lea",
            [reg(Register::RCX), at_rip, NONE, NONE],
        ),
        (
            "mov word [rel32 0x1007], 0x5",
            "mov",
            [at_eip, five, NONE, NONE],
        ),
        (
            "mov al, byte [0xffffffff00000000]",
            "mov",
            [reg(Register::AL), at_lone, NONE, NONE],
        ),
        (
            "mov byte [bx+si+0x10], dil",
            "mov",
            [at_bx, reg(Register::DIL), NONE, NONE],
        ),
        (
            "vgatherdps ymm1, dword [ymm2*8], ymm3",
            "vgatherdps",
            [reg(Register::YMM1), at_ymm, reg(Register::YMM3), NONE],
        ),
        ("jmpf far32 [esp]", "jmpf", [at_esp, NONE, NONE, NONE]),
        (
            "vblendvps xmm0, xmm15, xmm2, xmm10",
            "vblendvps",
            [
                reg(Register::XMM0),
                reg(Register::XMM15),
                reg(Register::XMM2),
                reg(Register::XMM10),
            ],
        ),
    ];
    for (text, name, ops) in &cases {
        says(&rt, text, name, plain(*ops));
    }
}

#[test]
fn prefix_words_are_read(rt: HostRuntime) {
    let none = plain([NONE, NONE, NONE, NONE]);
    let cases = [
        (
            "repne gs a32 scasb",
            IntelWords {
                rep: Rep::F2,
                seg: Some(Segment::Gs),
                asize: Some(Bits::B32),
                ..none
            },
        ),
        (
            "lock rep es a16 o64 scasb",
            IntelWords {
                lock: true,
                rep: Rep::F3,
                seg: Some(Segment::Es),
                asize: Some(Bits::B16),
                osize: Some(Bits::B64),
                ..none
            },
        ),
        (
            "o16 scasb",
            IntelWords {
                osize: Some(Bits::B16),
                ..none
            },
        ),
    ];
    for (text, words) in &cases {
        says(&rt, text, "scasb", *words);
    }
}

#[test]
fn other_texts_are_refused(rt: HostRuntime) {
    for text in &[
        "mov eax, 0x",
        "mov eax, 0X5",
        "mov eax, 0xA",
        "mov eax, 0x05",
        "mov eax, 0x10000000000000000",
        "mov eax, 5",
        "mov EAX, ebx",
        "mov r16, rax",
        "mov r7d, eax",
        "mov xmm16, xmm0",
        "mov eax, [eax+]",
        "mov eax, [rel eax]",
        "mov eax, pointer [eax]",
        "mov eax, hs:[eax]",
        "mov  eax, ecx",
    ] {
        same_value(&rt, &read_words(text.as_bytes()), &None, text);
    }
}
