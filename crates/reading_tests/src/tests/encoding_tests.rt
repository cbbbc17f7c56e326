//! Bytes of instructions by the manual's notation, and refusals of each kind.

use crate::tests::compare::{same_of, same_text, same_value};
use encoder::{encode, encoded_len};
use opcode_rows::{ROWS, code_of};
use plain_spelling::NoSpelling;
use std::alloc::Global;
use std::process::Abort;
use std::test::Fail;
use x86_values::{Bits, Code, DispSize, Instr, Mem, Operand, Register, Rep, Segment};

const ABSENT: Operand = Operand::Absent;

/// An instruction without prefixes, with addresses of 64 bits where it has one.
fn instr(code: Code, first: Operand, second: Operand) -> Instr {
    let is_at = first.is_memory() || second.is_memory();
    Instr {
        code,
        ops: [first, second, ABSENT, ABSENT],
        lock: false,
        rep: Rep::None,
        seg: None,
        asize: if is_at { Some(Bits::B64) } else { None },
    }
}

/// The `n`-th row of a name with two operands; no row where there is none.
fn two(name: &str, n: usize, first: Operand, second: Operand) -> Instr {
    instr(code_of(name, n).unwrap_or(Code(0xFFFF)), first, second)
}

const AL: Operand = Operand::Reg(Register::AL);

const SIL: Operand = Operand::Reg(Register::SIL);

const SPL: Operand = Operand::Reg(Register::SPL);

const R8B: Operand = Operand::Reg(Register::R8B);

const AH: Operand = Operand::Reg(Register::AH);

const CH: Operand = Operand::Reg(Register::CH);

const DH: Operand = Operand::Reg(Register::DH);

const AX: Operand = Operand::Reg(Register::AX);

const EAX: Operand = Operand::Reg(Register::EAX);

const ECX: Operand = Operand::Reg(Register::ECX);

const EBX: Operand = Operand::Reg(Register::EBX);

const R8D: Operand = Operand::Reg(Register::R8D);

const RAX: Operand = Operand::Reg(Register::RAX);

const RCX: Operand = Operand::Reg(Register::RCX);

const R9: Operand = Operand::Reg(Register::R9);

/// Registers that there are not.
const NO_HIGH: Operand = Operand::Reg(Register::High8(255));

const NO_R32: Operand = Operand::Reg(Register::R32(16));

/// The address in RAX.
const PLAIN: Mem = Mem {
    base: Some(Register::RAX),
    index: None,
    scale: 1,
    disp: 0,
    disp_size: DispSize::D0,
};

const AT_RAX: Operand = Operand::Mem(PLAIN);

const AT_RSP_16: Operand = Operand::Mem(Mem {
    base: Some(Register::RSP),
    disp: 16,
    disp_size: DispSize::D8,
    ..PLAIN
});

const AT_RBP: Operand = Operand::Mem(Mem {
    base: Some(Register::RBP),
    disp_size: DispSize::D8,
    ..PLAIN
});

const AT_RIP_1010: Operand = Operand::Mem(Mem {
    base: Some(Register::Rip),
    disp: 0x1010,
    disp_size: DispSize::D32,
    ..PLAIN
});

/// RBP without a displacement, which no bytes say.
const BARE: Operand = Operand::Mem(Mem {
    base: Some(Register::RBP),
    ..PLAIN
});

/// A displacement of more than a byte in a byte.
const WIDE: Operand = Operand::Mem(Mem {
    base: Some(Register::RBP),
    disp: 0x80,
    disp_size: DispSize::D8,
    ..PLAIN
});

const AT_XMM0: Operand = Operand::Mem(Mem {
    base: Some(Register::XMM0),
    ..PLAIN
});

/// An address out of reach of RIP.
const FAR: Operand = Operand::Mem(Mem {
    base: Some(Register::Rip),
    disp: 0x1_8000_0000_0000,
    disp_size: DispSize::D32,
    ..PLAIN
});

/// RAX and RCX times 3, which is no scale.
const SCALED: Operand = Operand::Mem(Mem {
    index: Some(Register::RCX),
    scale: 3,
    ..PLAIN
});

/// VGATHERDPS of XMM registers at RAX with an index, and a mask.
fn gather(destination: u8, index: Option<Register>, mask: Register) -> Instr {
    let address = Operand::Mem(Mem { index, ..PLAIN });
    let first = Operand::Reg(Register::Xmm(destination));
    let mut given = two("vgatherdps", 0, first, address);
    given.ops[2] = Operand::Reg(mask);
    given
}

/// That an instruction of 64-bit mode at 1000 has these bytes, in hexadecimal digits, and so many.
fn has_bytes(rt: &impl Abort, alloc: Global, given: &Instr, digits: &str) -> Result<(), Fail> {
    let bytes = encode(Bits::B64, 0x1000, given)?;
    let found = hex::encode(alloc, &bytes)?;
    same_text(rt, found.as_str(), digits, digits);
    has_length(rt, given, bytes.len(), digits)
}

/// That an instruction of 64-bit mode at 1000 has so many bytes.
fn has_length(rt: &impl Abort, given: &Instr, want: usize, digits: &str) -> Result<(), Fail> {
    let len = encoded_len(Bits::B64, 0x1000, given)?;
    same_value(rt, &(len as usize), &want, digits);
    Ok(())
}

// Bytes of 64-bit mode at address 1000.
#[test]
fn instructions_have_their_bytes(rt: HostRuntime) -> Result<(), Fail> {
    let cases = &[
        ("nop", 0, ABSENT, ABSENT, "90"),
        ("add", 2, EAX, ECX, "01c8"),
        ("add", 2, R8D, ECX, "4101c8"),
        ("add", 3, RAX, R9, "4c01c8"),
        ("add", 1, AX, AX, "6601c0"),
        ("add", 0, AL, DH, "00f0"),
        ("add", 0, AL, SIL, "4000f0"),
        ("add", 2, AT_RSP_16, EBX, "015c2410"),
        ("add", 2, AT_RBP, EBX, "015d00"),
        ("add", 2, AT_RIP_1010, EBX, "011d0a000000"),
        ("add", 18, EAX, Operand::Imm(0xFFFF_FF80), "83c080"),
    ];
    for (name, n, first, second, digits) in cases {
        let given = two(name, *n, *first, *second);
        has_bytes(&rt, rt.alloc(), &given, digits)?;
    }
    let gathered = gather(0, Some(Register::XMM2), Register::XMM1);
    has_bytes(&rt, rt.alloc(), &gathered, "c4e271920410")
}

/// Why an instruction at 1000 has no bytes, if it has none.
fn refusal(bits: Bits, given: &Instr) -> Option<NoSpelling> {
    encode(bits, 0x1000, given).err()
}

/// Why an instruction at 1000 has no length, if it has none.
fn refusal_of_length(bits: Bits, given: &Instr) -> Option<NoSpelling> {
    encoded_len(bits, 0x1000, given).err()
}

/// That an instruction is refused, for this cause.
fn is_refused(rt: &impl Abort, bits: Bits, given: &Instr, want: NoSpelling) {
    same_of(rt, &refusal(bits, given), &Some(want), given);
    same_of(rt, &refusal_of_length(bits, given), &Some(want), given);
}

// One refusal of each kind that a code, a register, an address, a displacement, a target and a prefix can have.
#[test]
fn instructions_without_bytes_are_refused(rt: HostRuntime) {
    let (b32, b64) = (Bits::B32, Bits::B64);
    let mut locked = two("add", 2, EAX, ECX);
    locked.lock = true;
    let mut unsized_address = two("add", 2, AT_RAX, ECX);
    unsized_address.asize = None;
    is_refused(&rt, b64, &instr(Code(0xFFFF), EAX, ECX), NoSpelling::Row);
    is_refused(&rt, b64, &instr(Code(ROWS), EAX, ECX), NoSpelling::Row);
    is_refused(&rt, b32, &two("add", 3, RAX, RCX), NoSpelling::Row);
    is_refused(&rt, b32, &two("add", 2, R8D, EAX), NoSpelling::Register(0));
    is_refused(&rt, b64, &unsized_address, NoSpelling::AddressSize);
    is_refused(&rt, b64, &locked, NoSpelling::Prefix);
    let cases = &[
        ("add", 2, EAX, Operand::Imm(1), NoSpelling::OperandKind(1)),
        ("add", 2, EAX, ABSENT, NoSpelling::OperandKind(1)),
        ("add", 2, EAX, NO_R32, NoSpelling::Register(1)),
        ("mov", 0, AH, SPL, NoSpelling::Register(0)),
        ("add", 0, R8B, DH, NoSpelling::Register(1)),
        ("add", 0, DH, NO_HIGH, NoSpelling::Register(0)),
        ("add", 0, AL, NO_HIGH, NoSpelling::Register(1)),
        ("shl", 8, CH, R8B, NoSpelling::Register(1)),
        ("add", 2, SCALED, EAX, NoSpelling::Memory),
        ("add", 2, AT_XMM0, ECX, NoSpelling::Memory),
        ("add", 2, BARE, ECX, NoSpelling::Displacement),
        ("add", 2, WIDE, ECX, NoSpelling::Displacement),
        ("add", 18, EAX, Operand::Imm(0x80), NoSpelling::Immediate(1)),
        ("add", 2, FAR, ECX, NoSpelling::Target),
    ];
    for (name, n, first, second, want) in cases {
        is_refused(&rt, b64, &two(name, *n, *first, *second), *want);
    }
}

const XMM1: Option<Register> = Some(Register::XMM1);

const XMM2: Option<Register> = Some(Register::XMM2);

// Of a gather's registers those that are vector registers are compared; each of another class fails as its own operand.
#[test]
fn gathers_without_bytes_are_refused(rt: HostRuntime) {
    let cases = &[
        (0, None, Register::XMM1, NoSpelling::Memory),
        (0, Some(Register::RCX), Register::XMM1, NoSpelling::Memory),
        (0, XMM2, Register::Rip, NoSpelling::Register(2)),
        (3, XMM2, Register::Rip, NoSpelling::Register(2)),
        (1, XMM2, Register::Seg(Segment::Cs), NoSpelling::Register(2)),
        (4, XMM2, Register::AH, NoSpelling::Register(2)),
        (0, None, Register::Xmm(16), NoSpelling::Register(2)),
        (2, XMM2, Register::XMM1, NoSpelling::Register(0)),
        (1, XMM2, Register::XMM1, NoSpelling::Register(0)),
        (0, XMM1, Register::XMM1, NoSpelling::Register(0)),
    ];
    for (destination, index, mask, want) in cases {
        let given = gather(*destination, *index, *mask);
        is_refused(&rt, Bits::B64, &given, *want);
    }
}
