//! Routines as text. The bytes are those of GNU as for the same lines.

use crate::tests::compare::same;
use assembly_text::{Rules, assemble_code, assemble_code_by, assemble_code_with};
use std::alloc::Global;
use std::test::Fail;
use x86_values::Bits;

/// The bytes of a text as hexadecimal digits, or why there are none.
fn made(alloc: Global, bits: Bits, base: u64, text: &str) -> Result<String, Fail> {
    match assemble_code(alloc, bits, base, text.as_bytes()) {
        Ok(made) => Ok(hex::encode(alloc, made.bytes())?),
        Err(why) => Ok(format!(in alloc; "{why}")?),
    }
}

/// A text: its mode, its address, its lines, and its bytes or why there are none.
type Case = (Bits, u64, &'static str, &'static str);

const CASES: &[Case] = &[
    (Bits::B64, 0, "", ""),
    (Bits::B64, 0x40_1000, " ; nothing \n\t\r\n# at all", ""),
    // a loop
    (
        Bits::B64,
        0x40_1000,
        "xor eax, eax\nagain: add eax, ecx\n dec ecx # down\n\tjne again\n ret ; done",
        "31c001c8ffc975fac3",
    ),
    // an operand at RIP, a jump over, a call back
    (
        Bits::B64,
        0x1000,
        "lea rax, [rel table]\njmp over\ntable:\nret\nover: call table",
        "488d0502000000eb01c3e8faffffff",
    ),
    // a branch on a counter, names with other letters, a label at the end that is not used
    (
        Bits::B32,
        0,
        "jecxz past\nnop\n.L$x@1: jmp .L$x@1\npast: ret\nend_2:",
        "e30390ebfec3",
    ),
    // a label at the end
    (Bits::B64, 0x1000, "jmp end\nnop\nend:", "eb0190"),
    // what is read as it stands is no name
    (Bits::B64, 0, "x: jmp rax", "ffe0"),
    // other names, numbers, sums, cases and blanks
    (
        Bits::B64,
        0x1000,
        "JZ 0x1000\nCMOVNAE rax,RBX\nsetnz\tal\nsal eax, 3\nmov eax, 0b101\nmov ecx, 10+5-3\nmov al, 0FFh\nrepz cmpsb",
        "74fe480f42c30f95c0c1e003b805000000b90c000000b0fff3a6",
    ),
    // numbers below 0
    (
        Bits::B64,
        0,
        "push -1\nmov rax, -1\nadd eax, -8\nmov al, -1\nimul eax, ecx, -3",
        "6aff48c7c0ffffffff83c0f8b0ff6bc1fd",
    ),
    // addresses
    (
        Bits::B64,
        0,
        "mov eax,[rbx]\nmov eax, dword ptr [8+rax*4+rbx]\nlea rax,[rbp]\nmov eax, [rbx+rsp]\nmov eax, [4*rax]\nmov rax,[fs:28h]\ncmp byte ptr [rax-1], -1",
        "8b038b448308488d45008b041c8b04850000000064488b0425280000008078ffff",
    ),
    // data
    (
        Bits::B64,
        0,
        "movzx eax, byte ptr [table]\nret\ntable: db 1, -1, 'a,b', \"it's\"\nDW 'abc', 1234h\ndd 10+2\ndq -1",
        "0fb60501000000c301ff612c62697427736162630034120c000000ffffffffffffffff",
    ),
    // labels as numbers: in data, as immediates and in addresses
    (
        Bits::B64,
        0x40_1000,
        "jmp [table+rax*8]\none: mov eax, table\n push one\n cmp rax, two+1\ntwo: ret\ntable: dq one, two-1\n dd end-table, 'one'\n dw two-one, 7\nend:",
        "ff24c518104000b8181040006807104000483d18104000c3071040000000000016104000000000001c0000006f6e650010000700",
    ),
    (
        Bits::B64,
        0x40_1000,
        "mov eax, [table+4]\n lea rcx, [rip+table-1]\n mov ecx, end-table\n jmp table+2\ntable: db 1,2,3\nend:",
        "8b0512000000488d0d06000000b903000000eb02010203",
    ),
    (
        Bits::B32,
        0x1000,
        "mov eax, [table]\nmov byte ptr [ebx+table+1], 5\ntable: dd table",
        "a10c100000c6830d100000050c100000",
    ),
    (
        Bits::B16,
        0x100,
        "mov dx, msg\nmov ah, 9\nint 21h\nret\nmsg: db 'Hi$'",
        "ba0801b409cd21c3486924",
    ),
    (
        Bits::B64,
        0x40_1000,
        "nop\nmov al, here\nhere:",
        "line 2, column 1: the address of a label does not fit",
    ),
    (
        Bits::B64,
        0x40_1000,
        "db 1\nhere: dw here",
        "line 2, column 7: the address of a label does not fit",
    ),
    (
        Bits::B64,
        0x40_1000,
        "here: frob here",
        "line 1, column 7: no instruction has this text",
    ),
    // a number that is 128 if it takes one byte, and 125 if it takes four
    (
        Bits::B64,
        0x40_1000,
        "from: cmp ecx, 131-end+from\nend:",
        "the addresses of the labels do not settle",
    ),
    // alignment: NOPs behind code, zeros behind data
    (
        Bits::B64,
        0x40_1000,
        "align 8\nret\nALIGN 16 ; up\nagain:\n ret\n db 1\n align 4\n align 8\nend: dd end",
        "c3660f1f840000000000660f1f440000c30100000000000018104000",
    ),
    (
        Bits::B16,
        0,
        "ret\nalign 16\nret",
        "c30f1f40000f1f40000f1f40000f1f00c3",
    ),
    (
        Bits::B64,
        0,
        "nop\n align 3",
        "line 2, column 2: an alignment is a power of two from 1 to 4096",
    ),
    (
        Bits::B64,
        0,
        "mov [rbx], 5",
        "line 1, column 1: the address needs a size",
    ),
    // one size has an instruction, also beside a number below 0; several have; none has, also for two addresses
    (
        Bits::B64,
        0,
        "add rcx,[rsp+8]\ncmpxchg16b [rdi]\nlea rax,[rbx]\nvmovaps ymm1,[rax]\nimul eax,[rbx],-3",
        "48034c2408480fc70f488d03c5fc28086b03fd",
    ),
    (
        Bits::B64,
        0,
        "ret\nfld [rax]",
        "line 2, column 1: the address needs a size",
    ),
    (
        Bits::B64,
        0,
        "cmp [rbx], -1",
        "line 1, column 1: the address needs a size",
    ),
    (
        Bits::B64,
        0,
        "ret\nbt [rax], cl",
        "line 2, column 1: no instruction has this text",
    ),
    (
        Bits::B64,
        0,
        "mov [rax], [rbx]",
        "line 1, column 1: no instruction has this text",
    ),
    (
        Bits::B64,
        0,
        "db 1\ndb 256",
        "line 2, column 1: no number of this size, and no string",
    ),
    (
        Bits::B64,
        0,
        " here:\t mov rax+1, rbx",
        "line 1, column 9: no instruction has this text",
    ),
    // unknown names in sums, in addresses and in data
    (
        Bits::B64,
        0x40_1000,
        "nop\nx: mov eax, foo+8",
        "line 2, column 4: no line has a label of this name",
    ),
    (
        Bits::B64,
        0x40_1000,
        "mov eax, [rbx+x-foo]\nx:",
        "line 1, column 1: no line has a label of this name",
    ),
    (
        Bits::B64,
        0x40_1000,
        "x: dd 1, x-foo",
        "line 1, column 4: no line has a label of this name",
    ),
    (
        Bits::B64,
        0x40_1000,
        "db 'foo', 1, foo+bar",
        "line 1, column 1: no line has a label of this name",
    ),
    (
        Bits::B64,
        0x40_1000,
        "frob foo+8",
        "line 1, column 1: no instruction has this text",
    ),
    (
        Bits::B64,
        0x40_1000,
        "mov eax, foo bar",
        "line 1, column 1: no instruction has this text",
    ),
    (
        Bits::B64,
        0x40_1000,
        "inc [foo+8]",
        "line 1, column 1: the address needs a size",
    ),
    (
        Bits::B64,
        0x40_1000,
        "db foo, 256",
        "line 1, column 1: no number of this size, and no string",
    ),
    // operands in the other order, the shorter of two
    (
        Bits::B64,
        0,
        "test eax, [rbx]\nTEST R8B,[rbp+4]\ntest [rbx], eax\nxchg eax, [rbx]\nlock xchg r9, [rsp]\nXCHG EAX,EDX\nXchg r8, rax\nXCHG rax,R8",
        "85034484450485038703f04c870c249249904990",
    ),
    (
        Bits::B64,
        0x40_1000,
        "test eax, [rel x]\nx: ret",
        "850500000000c3",
    ),
    // operands that are left out
    (
        Bits::B64,
        0,
        "imul eax, 5\nimul rcx, -300\nimul rax, rbx\nimul dx, 7\nshl eax\nsar qword ptr [rax]\nrol cl\nSAL r8d",
        "6bc0054869c9d4feffff480fafc3666bd207d1e048d138d0c141d1e0",
    ),
    (
        Bits::B32,
        0,
        "aam\naad\npush [eax]\npop [ebx+4]\ncall [ecx]\njmp [edx*4]",
        "d40ad50aff308f4304ff11ff249500000000",
    ),
    (
        Bits::B64,
        0,
        "push [rax]\npop [rbx+8]\ncall [rcx]",
        "ff308f4308ff11",
    ),
    // registers of the stack, with and without brackets
    (
        Bits::B64,
        0,
        "fld st(1)\nfadd st(0), st(1)\nFADD ST, ST(2)\nfadd st(3)\nfmul st(4), st\nfsub\nfsubp\nfdivrp st(2)\nfdivp st(5), st\nfcom\nfcomp st(6)\nfucom\nfxch\nfxch st(7)",
        "d9c1d8c1d8c2d8c3dcccdee9dee9def2defdd8d1d8dedde1d9c9d9cf",
    ),
    (
        Bits::B64,
        0,
        "fucomi\nfcomip st(1)\nfucomip st, st(2)\nfcmovnbe st, st(3)\nfstp st\nfld st(7)",
        "dbe9dff1dfeadbd3ddd8d9c7",
    ),
    (
        Bits::B64,
        0,
        "fld st(8)",
        "line 1, column 1: no instruction has this text",
    ),
    // refusals, the first line first
    (
        Bits::B64,
        0,
        "nop\njmp there\nfrob",
        "line 2, column 1: no line has a label of this name",
    ),
    (
        Bits::B64,
        0,
        "nop\n\nfrob eax",
        "line 3, column 1: no instruction has this text",
    ),
    (
        Bits::B64,
        0,
        "a: nop\nb:\na: ret",
        "line 3, column 1: label 0 has a place already",
    ),
    // a label is no register, no mnemonic by any of its names, and no prefix
    (
        Bits::B64,
        0,
        "nop\n  Rax: nop",
        "line 2, column 3: a label is no register, no word of an operand, no mnemonic and no prefix",
    ),
    (
        Bits::B64,
        0,
        "jNAE: nop",
        "line 1, column 1: a label is no register, no word of an operand, no mnemonic and no prefix",
    ),
    (
        Bits::B32,
        0,
        " lock: jecxz lock",
        "line 1, column 2: a label is no register, no word of an operand, no mnemonic and no prefix",
    ),
    (
        Bits::B32,
        0,
        "jump: setup: jecxz jump",
        "line 1, column 7: no instruction has this text",
    ),
    (Bits::B32, 0, "setup: jecxz setup", "e3fe"),
    (
        Bits::B16,
        0xffff,
        "nop\nnop",
        "line 2, column 1: end 0x10001 passes the address space",
    ),
    // the first item out of reach, by its line: the first byte of the routine would reach it
    (
        Bits::B64,
        0x8000_1000,
        "nop\ndb 'abc'\n\nx: lea rax, [rel 0x1007]\nlea rcx, [rel 0x1007]",
        "line 4, column 4: instruction 4 cannot reach 0x1007",
    ),
    // the last line with an item; the label behind it counts as a byte
    (
        Bits::B16,
        0xfffc,
        "nop\n\nx: db 1, 2, 3, 4, 5\nend: ; the end\n",
        "line 3, column 4: end 0x10003 passes the address space",
    ),
];

#[test]
fn texts_have_their_bytes(rt: HostRuntime) -> Result<(), Fail> {
    for (bits, base, text, want) in CASES {
        let found = made(rt.alloc(), *bits, *base, text)?;
        same(&rt, text, &found.as_str(), want);
    }
    Ok(())
}

/// Names, a text with them in 64-bit mode, and its bytes or why there are none.
type NamedCase = (&'static str, &'static str, &'static str);

const NAMED_CASES: &[NamedCase] = &[
    (
        "puts = 0x401180 ; a call\n\n Size=3*1+20h-20h+21",
        "",
        "line 3 of the names is no name with a number",
    ),
    (
        "puts = 0x401180 ; a call\n\n Size=20h-8\nSize = 1",
        "mov edi, Size-1\nlea rax, [rel puts]\ncall puts\ndb 'Size', Size\npush size",
        "line 5, column 1: no line has a label of this name",
    ),
    (
        "puts = 0x401180 ; a call\n\n Size=20h-8\nSize = 1",
        "mov edi, Size-1\nlea rax, [rel puts]\ncall puts\ndb 'Size', Size",
        "bf17000000488d0574010000e86f01000053697a6518",
    ),
    (
        "rax = 1",
        "",
        "line 1 of the names is no name with a number",
    ),
    ("x", "", "line 1 of the names is no name with a number"),
];

/// The bytes of a text with names as hexadecimal digits, or why there are none.
fn named(alloc: Global, names: &str, text: &str) -> Result<String, Fail> {
    match assemble_code_with(
        alloc,
        Bits::B64,
        0x40_1000,
        names.as_bytes(),
        text.as_bytes(),
    ) {
        Ok(made) => Ok(hex::encode(alloc, made.bytes())?),
        Err(why) => Ok(format!(in alloc; "{why}")?),
    }
}

#[test]
fn names_have_their_numbers(rt: HostRuntime) -> Result<(), Fail> {
    for (names, text, want) in NAMED_CASES {
        let found = named(rt.alloc(), names, text)?;
        same(&rt, text, &found.as_str(), want);
    }
    Ok(())
}

/// A text at 0x8000_0000 with the name of the address 5, which only the first byte reaches; and its bytes without slots, or why there are none.
const NEAR_CASES: &[(&str, &str)] = &[
    ("jmp back\n ret", "e900000080c3"),
    (
        "nop\n jmp back",
        "line 2, column 2: instruction 1 cannot reach 0x5",
    ),
    // the first of two; each byte of data is an item
    (
        "db 1, 2\nx: jrcxz x\n call back\njmp back",
        "line 3, column 2: instruction 3 cannot reach 0x5",
    ),
    ("x: inc [rbx]", "line 1, column 4: the address needs a size"),
];

/// The bytes of a text without slots as hexadecimal digits, or why there are none.
fn near(alloc: Global, text: &str) -> Result<String, Fail> {
    let rules = Rules {
        names: b"back = 5",
        slots: false,
    };
    match assemble_code_by(alloc, Bits::B64, 0x8000_0000, &rules, text.as_bytes()) {
        Ok(made) => Ok(hex::encode(alloc, made.bytes())?),
        Err(why) => Ok(format!(in alloc; "{why}")?),
    }
}

#[test]
fn slots_are_refused(rt: HostRuntime) -> Result<(), Fail> {
    for (text, want) in NEAR_CASES {
        let found = near(rt.alloc(), text)?;
        same(&rt, text, &found.as_str(), want);
    }
    Ok(())
}
