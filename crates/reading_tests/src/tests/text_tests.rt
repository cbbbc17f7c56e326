//! Bytes that Intel texts stand for, by the manual's notation; those of the function's frame are what the GNU assembler writes.

use crate::tests::compare::{same_text, same_value};
use intel_reader::{TextError, assemble, read_intel};
use std::alloc::Global;
use std::process::Abort;
use std::test::Fail;
use x86_values::Bits;

/// That a text at an address stands for bytes in hexadecimal digits.
fn stands_for(
    rt: &impl Abort,
    alloc: Global,
    bits: Bits,
    ip: u64,
    text: &str,
    digits: &str,
) -> Result<(), Fail> {
    let bytes = assemble(bits, ip, text.as_bytes())?;
    let found = hex::encode(alloc, &bytes)?;
    same_text(rt, found.as_str(), digits, text);
    Ok(())
}

#[test]
fn texts_stand_for_their_shortest_bytes(rt: HostRuntime) -> Result<(), Fail> {
    let cases = &[
        (Bits::B64, 0x401000, "push rbp", "55"),
        (Bits::B64, 0x401001, "mov rbp, rsp", "4889e5"),
        (Bits::B64, 0x401004, "sub rsp, 0x20", "4883ec20"),
        (Bits::B64, 0x401008, "call 0x402003", "e8f60f0000"),
        (Bits::B64, 0x40100D, "leave", "c9"),
        (Bits::B64, 0x40100E, "ret", "c3"),
        // the shortest of several, and of equally short ones the row that stands first
        (Bits::B64, 0, "add eax, 0x5", "83c005"),
        (Bits::B64, 0, "mov eax, ecx", "89c8"),
        (Bits::B64, 0, "xchg eax, eax", "87c0"),
        (Bits::B64, 0, "jmp 0x0", "ebfe"),
        (
            Bits::B64,
            0,
            "mov rax, qword [rel 0x1007]",
            "488b0500100000",
        ),
        (Bits::B64, 0, "mov eax, dword [rbp-0x8]", "8b45f8"),
        // other modes
        (Bits::B16, 0, "mov ax, word [bx+si]", "8b00"),
        (Bits::B32, 0, "callf 0x8:0x10", "9a100000000800"),
        (Bits::B32, 0, "jecxz 0x10", "e30e"),
    ];
    for (bits, ip, text, digits) in cases {
        stands_for(&rt, rt.alloc(), *bits, *ip, text, digits)?;
    }
    Ok(())
}

#[test]
fn texts_that_nothing_prints_are_refused(rt: HostRuntime) {
    for text in &["mov  eax, ecx", "add eax, 0X5", "add eax, 0x05", ""] {
        let read = read_intel(Bits::B64, 0, text.as_bytes());
        same_value(&rt, &read, &Err(TextError::NoInstruction), text);
    }
}
