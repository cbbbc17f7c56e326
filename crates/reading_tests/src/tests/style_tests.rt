//! Texts that assemblers of each style write of the same instruction.

use crate::tests::compare::same_text;
use crate::tests::read_bytes::read;
use arrayvec::ArrayVec;
use std::alloc::Global;
use std::process::Abort;
use std::str::from_utf8;
use std::test::Fail;
use x86_values::Bits;

/// A text of at most 160 bytes.
type Text = ArrayVec<u8, 160>;

/// The texts of an instruction as Intel's, Microsoft's and the GNU assembler write it.
fn texts_of(alloc: Global, bits: Bits, digits: &str) -> Result<[Text; 3], Fail> {
    let instr = read(alloc, bits, 0, digits)?.instr;
    Ok([
        intel_text::print(bits, &instr),
        masm_text::print(bits, &instr),
        att_text::print(bits, &instr),
    ])
}

fn is_text(rt: &impl Abort, found: &Text, want: &str) -> Result<(), Fail> {
    same_text(rt, from_utf8(found.as_slice())?, want, want);
    Ok(())
}

#[test]
fn each_style_has_its_text(rt: HostRuntime) -> Result<(), Fail> {
    let cases = &[
        (
            Bits::B64,
            "48895c2410",
            "mov qword [rsp+0x10], rbx",
            "mov qword ptr [rsp+10h], rbx",
            "movq %rbx, 0x10(%rsp)",
        ),
        (
            Bits::B64,
            "ff10",
            "call qword [rax]",
            "call qword ptr [rax]",
            "callq *(%rax)",
        ),
        (
            Bits::B32,
            "9a100000000800",
            "callf 0x8:0x10",
            "callf 8h:10h",
            "callf $0x8, $0x10",
        ),
        (
            Bits::B64,
            "f0658305fe0f0000ff",
            "lock add dword gs:[rel 0x1007], 0xffffffff",
            "lock add dword ptr gs:[1007h], 0ffffffffh",
            "lock addl $0xffffffff, %gs:0x1007(%rip)",
        ),
        (
            Bits::B64,
            "d820",
            "fsub dword [rax]",
            "fsub dword ptr [rax]",
            "fsubs (%rax)",
        ),
        (
            Bits::B64,
            "0fb647f8",
            "movzx eax, byte [rdi-0x8]",
            "movzx eax, byte ptr [rdi-8h]",
            "movzbl -0x8(%rdi), %eax",
        ),
        (
            Bits::B64,
            "c4e2719800",
            "vfmadd132ps xmm0, xmm1, xmmword [rax]",
            "vfmadd132ps xmm0, xmm1, xmmword ptr [rax]",
            "vfmadd132ps (%rax), %xmm1, %xmm0",
        ),
    ];
    for (bits, digits, intel, masm, att) in cases {
        let [in_intel, in_masm, in_att] = texts_of(rt.alloc(), *bits, digits)?;
        is_text(&rt, &in_intel, intel)?;
        is_text(&rt, &in_masm, masm)?;
        is_text(&rt, &in_att, att)?;
    }
    Ok(())
}
