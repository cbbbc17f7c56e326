//! Intel texts, a line each, and the bytes that they stand for.

use crate::tests::outcomes::{wrote, wrote_bytes};
use crate::tests::runs::run_command;
use std::alloc::{AllocError, Global};
use std::test::Fail;

/// The texts of a function's frame.
const FRAME: &str = "push rbp\nmov rbp, rsp\nsub rsp, 0x20\ncall 0x402003\nleave\nret\n";

#[test]
fn lines_have_their_bytes(rt: HostRuntime) -> Result<(), Fail> {
    let cases = &[
        ("asm 64 0", "", ""),
        ("asm 64 401000", FRAME, "554889e54883ec20e8f60f0000c9c3"),
        // the shortest spelling, and of equally short ones the row that stands first
        ("asm 64 0", "add eax, 0x5\n", "83c005"),
        ("asm 64 0", "mov eax, ecx\n", "89c8"),
        ("asm 64 0", "xchg eax, eax\n", "87c0"),
        ("asm 64 0", "jmp 0x0\n", "ebfe"),
        // bytes behind the last line feed are one more line
        ("asm 64 0", "nop", "90"),
        ("asm 64 0", "nop\nret", "90c3"),
        ("asm 64 0", "db 0x66\n", "66"),
        ("asm 64 0", "db 0x0\ndb 0xf\ndb 0x10\ndb 0xff", "000f10ff"),
        // a line stands behind the bytes of those before it
        ("asm 64 10", "nop\njmp 0x11\n", "90ebfe"),
        ("asm 32 10", "db 0xf\njmp 0x11\n", "0febfe"),
        // and its address wraps in the mode
        ("asm 16 ffff", "nop\njmp 0x0\n", "90ebfe"),
        ("asm 32 ffffffff", "nop\njmp 0x0\n", "90ebfe"),
        ("asm 64 ffffffffffffffff", "nop\njmp 0x0\n", "90ebfe"),
        ("asm 16 0", "mov ax, word [bx+si]\n", "8b00"),
        ("asm 32 0", "mov eax, dword [bx+si]\n", "678b00"),
        ("asm 64 0", "mov rax, qword [rel 0x7]\n", "488b0500000000"),
    ];
    for (command, lines, digits) in cases {
        let ran = run_command(rt.alloc(), command, lines.as_bytes())?;
        wrote_bytes(&rt, rt.alloc(), &ran, (0, digits, ""), command, lines)?;
    }
    Ok(())
}

/// The message for a line that is no text, by its number.
fn bad_text(alloc: Global, at: u64) -> Result<String, AllocError> {
    format!(in alloc; "bad text in line {at}\n")
}

#[test]
fn the_first_line_that_is_no_text_is_told(rt: HostRuntime) -> Result<(), Fail> {
    let cases = &[
        ("nop\nmov  eax, ecx\n", 2),
        ("mov  eax, ecx\nnop\n", 1),
        ("\n", 1),
        ("nop\n\nnop\n", 2),
        ("nop\r\n", 1),
        ("db 0x0f\n", 1),
        ("db 0x100\n", 1),
        ("db 0xFF\n", 1),
        ("db 0x\n", 1),
        ("db 66\n", 1),
        ("nop\nret\nnonsense", 3),
        ("nop \n", 1),
        ("NOP\n", 1),
    ];
    for (lines, at) in cases {
        let told = bad_text(rt.alloc(), *at)?;
        let ran = run_command(rt.alloc(), "asm 64 0", lines.as_bytes())?;
        wrote(&rt, &ran, (11, "", &told), "asm 64 0", lines)?;
    }
    Ok(())
}
