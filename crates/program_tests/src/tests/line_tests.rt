//! Lines of listings, of what instructions do and of their bytes in another mode, by the manual's notation and as other disassemblers write them.

use crate::tests::outcomes::{Case, all_write, case_of, lines_of, outcome_of, wrote};
use crate::tests::runs::{Outcome, run_command};
use std::alloc::{AllocError, Global};
use std::process::Abort;
use std::str::from_utf8;
use std::test::Fail;

/// The texts of a listing's lines, behind the addresses and the 30 places of the bytes.
fn texts_of(alloc: Global, bits: &str, listing: &str) -> Result<String, AllocError> {
    let column = match bits {
        "16" => 36,
        "32" => 40,
        _ => 48,
    };
    let mut texts = String::new(alloc);
    for line in listing.lines() {
        texts.push_str(line.get(column..).unwrap_or("no text"))?;
        texts.push_str("\n")?;
    }
    Ok(texts)
}

/// The texts of the lines that a run of a command wrote, behind which stands what it said.
fn texts_told(alloc: Global, command: &str, ran: &Outcome) -> Result<String, Fail> {
    let bits = command.split(' ').nth(1).unwrap_or("no mode");
    let mut found = texts_of(alloc, bits, from_utf8(&ran.out)?)?;
    found.push_str(from_utf8(&ran.err)?)?;
    Ok(found)
}

/// That a command over code ends well and writes lines of these texts.
fn tells(rt: &impl Abort, alloc: Global, case: &Case) -> Result<(), Fail> {
    let ran = outcome_of(alloc, case.command, case.digits)?;
    let found = texts_told(alloc, case.command, &ran)?;
    let texts = lines_of(alloc, case.wanted)?;
    assert_eq!(rt;
        (ran.number, found.as_str()),
        (0, texts.as_str()),
        "{} {}",
        case.command,
        case.digits
    );
    Ok(())
}

/// That each command of a table writes lines of its texts, which slashes part.
fn all_tell(rt: &impl Abort, alloc: Global, table: &str) -> Result<(), Fail> {
    for line in table.lines() {
        if let Some(case) = case_of(line)? {
            tells(rt, alloc, &case)?;
        }
    }
    Ok(())
}

/// Commands, code, and the texts of its items.
const TEXTS: &str = "
# prefixes
list 64 0 intel | 66 | db 0x66
list 64 0 intel | 6690 | nop
list 64 0 intel | 486690 | nop
list 64 0 intel | 88e0 | mov al, ah
list 64 0 intel | 4088e0 | mov al, spl
list 32 0 intel | c500 | lds eax, [eax]
list 64 0 intel | f00100 | lock add dword [rax], eax
list 64 0 intel | f001c0 | db 0xf0 / add eax, eax
list 64 0 intel | f088 | db 0xf0 / db 0x88
list 64 0 intel | 0f | db 0xf
# addresses
list 16 0 intel | 8b00 | mov ax, word [bx+si]
list 16 0 intel | 678b00 | mov ax, word [eax]
list 32 0 intel | 678b00 | mov eax, dword [bx+si]
list 64 0 intel | 642e8b00 | mov eax, dword fs:[rax]
list 64 0 intel | f2f390 | pause
list 64 0 intel | f3f290 | repne nop
list 64 0 intel | 74fe4989c0 | je 0x0 / mov r8, rax
list 64 1000 intel | 488b0500000000 | mov rax, qword [rel 0x1007]
list 64 1000 att | 488b0500000000 | movq 0x1007(%rip), %rax
list 64 1000 masm | 488b0500000000 | mov rax, qword ptr [1007h]
# sizes
list 64 0 intel | 0fb607 | movzx eax, byte [rdi]
list 64 0 att | 0fb607 | movzbl (%rdi), %eax
list 64 0 masm | 0fb607 | movzx eax, byte ptr [rdi]
list 64 0 intel | ff10 | call qword [rax]
list 64 0 att | ff10 | callq *(%rax)
list 64 0 masm | ff10 | call qword ptr [rax]
list 64 0 intel | d820 | fsub dword [rax]
list 64 0 att | d820 | fsubs (%rax)
list 64 0 masm | d820 | fsub dword ptr [rax]
list 32 0 intel | 9a100000000800 | callf 0x8:0x10
list 32 0 att | 9a100000000800 | callf $0x8, $0x10
list 32 0 masm | 9a100000000800 | callf 8h:10h
# numbers
list 32 0 intel | 83c0ff | add eax, 0xffffffff
list 32 0 att | 83c0ff | add $0xffffffff, %eax
list 32 0 masm | 83c0ff | add eax, 0ffffffffh
list 64 0 intel | 48895c2410 | mov qword [rsp+0x10], rbx
list 64 0 att | 48895c2410 | movq %rbx, 0x10(%rsp)
list 64 0 masm | 48895c2410 | mov qword ptr [rsp+10h], rbx
# single bytes
list 16 0 intel | 0f | db 0xf
list 16 0 att | 0f | .byte 0xf
list 16 0 masm | 0f | db 0fh
list 64 0 intel | 66 | db 0x66
list 64 0 att | 66 | .byte 0x66
list 64 0 masm | 66 | db 66h
# an instruction has at most fifteen bytes
list 64 0 intel | 666666666666666666666666666666 | db 0x66 / db 0x66 / db 0x66 / db 0x66 / db 0x66 / db 0x66 / db 0x66 / db 0x66 / db 0x66 / db 0x66 / db 0x66 / db 0x66 / db 0x66 / db 0x66 / db 0x66
list 64 0 intel | 666666666666666666666666666690 | nop
list 64 0 intel | 66666666666666666666666666666690 | db 0x66 / nop
";

#[test]
fn items_have_their_texts(rt: HostRuntime) -> Result<(), Fail> {
    all_tell(&rt, rt.alloc(), TEXTS)
}

/// Commands, code, and the lines of its items.
const LINES: &str = "
list 64 7ffac46acda4 intel | 48895c2410 | 00007ffac46acda4 48895c2410                     mov qword [rsp+0x10], rbx
list 64 401000 intel | 55c3 | 0000000000401000 55                             push rbp / 0000000000401001 c3                             ret
list 64 400000 intel | 488b05fa760000 | 0000000000400000 488b05fa760000                 mov rax, qword [rel 0x407701]
list 16 ffff intel | 9090 | ffff 90                             nop / 0000 90                             nop
list 64 0 intel | - | -
info 64 401000 | 554889e54883ec20e8f60f0000c9c3 | 0000000000401000 Next r / 0000000000401001 Next w r / 0000000000401004 Next rw r / 0000000000401008 Call r -> 0x402003 / 000000000040100d Next / 000000000040100e Return
info 16 FFFE | ebfe90 | fffe UnconditionalBranch r -> 0xfffe / 0000 Next
info 64 0 | 488b0501000000 | 0000000000000000 Next w r m8 @ 0x8
info 64 0 | 678b05f8ffffff | 0000000000000000 Next w r m4 @ 0xffffffff
info 64 0 | 488d040b | 0000000000000000 Next w n
info 64 0 | e2fe | 0000000000000000 ConditionalBranch r -> 0x0
info 64 0 | 01048b | 0000000000000000 Next rw r m4
info 64 0 | ff10 | 0000000000000000 IndirectCall r m8
info 64 0 | ff2500000000 | 0000000000000000 IndirectBranch r m8 @ 0x6
info 64 0 | c5fc1000 | 0000000000000000 Next w r m32
info 64 0 | cc0f0b0f05 | 0000000000000000 Interrupt / 0000000000000001 Exception / 0000000000000003 Call
info 64 0 | 0fae00 | 0000000000000000 Next w
info 32 0 | 9a100000000800 | 00000000 Call r
info 16 0 | 8b00 | 0000 Next w r m2
info 64 0 | - | -
recode 64 0 32 0 | 4088e0 | 0000000000000000 ! 3 1
recode 64 0 32 0 | 8b00 | 0000000000000000 ! 4
recode 32 0 64 0 | 40 | 00000000 ! 1
recode 64 0 64 0 | 66eb7f | 0000000000000000 ! 7
recode 64 0 64 0 | c4e17858c1 | 0000000000000000 c5f858c1
recode 64 0 64 0 | 486690 | 0000000000000000 90
recode 64 1000 16 0 | 01c04801c0 | 0000000000001000 6601c0 / 0000000000001002 ! 1
recode 32 0 16 0 | f0f22e8184984433221178563412 | 00000000 ! 10
recode 64 0 64 0 | - | -
--version | 90 | feddurzai 0.2.0 / integer, x87, MMX, SSE to SSE4.2, AVX, AVX2, BMI, FMA, F16C, AES, PCLMULQDQ
";

#[test]
fn streams_have_their_lines(rt: HostRuntime) -> Result<(), Fail> {
    all_write(&rt, rt.alloc(), LINES)
}

const NEXT: &str = "0000000000000000 Next\n";

#[test]
fn bad_code_ends_a_stream(rt: HostRuntime) -> Result<(), Fail> {
    let cases = &[
        ("info 64 0", "900f04", NEXT, "bad code at 1: invalid\n"),
        ("info 64 0", "900f", NEXT, "bad code at 1: too short\n"),
        ("info 64 0", "480f0490", "", "bad code at 0: invalid\n"),
        (
            "recode 64 0 64 0",
            "900f04",
            "0000000000000000 90\n",
            "bad code at 1: invalid\n",
        ),
    ];
    for (command, digits, lines, told) in cases {
        let ran = outcome_of(rt.alloc(), command, digits)?;
        wrote(&rt, &ran, (2, lines, told), command, digits)?;
    }
    Ok(())
}

/// That a command answers this number for an input, and writes so many bytes.
fn writes_len(
    rt: &impl Abort,
    alloc: Global,
    command: &str,
    input: &[u8],
    wanted: (u8, usize),
) -> Result<(), Fail> {
    let ran = run_command(alloc, command, input)?;
    assert_eq!(rt; (ran.number, ran.out.len()), wanted, "{command}");
    Ok(())
}

/// So many equal bytes, and behind NOP code that is bad.
fn long_input(alloc: Global, byte: u8, count: usize) -> Result<Vec<u8>, AllocError> {
    let mut input = vec![in alloc; byte; count]?;
    if byte == 0x90 {
        input.push(0x06)?;
        input.push(0x90)?;
    }
    Ok(input)
}

// 2,000 lines of 22 bytes stand before the code that is bad; prefixes without an instruction behind them have a line of 56 bytes each, or end a stream.
#[test]
fn long_inputs_have_their_lines(rt: HostRuntime) -> Result<(), Fail> {
    let cases = &[
        ("info 64 0", 0x90, 2000, 2, 44_000),
        ("list 64 0 intel", 0x66, 65_536, 0, 3_670_016),
        ("info 64 0", 0x66, 65_536, 2, 0),
        ("recode 64 0 32 0", 0x66, 65_536, 2, 0),
    ];
    for (command, byte, count, number, len) in cases {
        let input = long_input(rt.alloc(), *byte, *count)?;
        writes_len(&rt, rt.alloc(), command, &input, (*number, *len))?;
    }
    Ok(())
}

/// That the listing of the table begins with these lines.
fn begins_with(rt: &impl Abort, text: &str, lines: &str) {
    assert_eq!(rt; text.get(..lines.len()), Some(lines));
}

/// That the listing of the table has this line for the row of this number.
fn has_line(rt: &impl Abort, text: &str, number: usize, line: &str) {
    assert_eq!(rt; text.lines().nth(number), Some(line));
}

/// The lines of the first rows.
const FIRST_ROWS: &str = "0 00 /r add
1 o16 01 /r add
2 o32 01 /r add
3 REX.W + 01 /r add
4 02 /r add
";

/// Other rows, each with its number.
const ROW_LINES: &[(usize, &str)] = &[
    (120, "120 o64 50+ro push"),
    (210, "210 REX.W + 81 /0 id add"),
    (290, "290 NF3 90 nop"),
    (1610, "1610 VEX.128.0F.WIG 77 vzeroupper"),
    (1913, "1913 VEX.256.66.0F3A.W1 00 /r ib vpermq"),
];

#[test]
fn the_table_has_a_line_for_each_row(rt: HostRuntime) -> Result<(), Fail> {
    let ran = run_command(rt.alloc(), "rows", &[0x90])?;
    let text = from_utf8(&ran.out)?;
    assert_eq!(rt; (ran.number, text.lines().count()), (0, 2083));
    begins_with(&rt, text, FIRST_ROWS);
    for (number, line) in ROW_LINES {
        has_line(&rt, text, *number, line);
    }
    Ok(())
}
