//! Registers, modes and operands as the manual's tables have them.

use crate::tests::compare::{same_of, same_value};
use x86_values::{
    Bits, Code, DispSize, Instr, Mem, Operand, Register, Rep, mode_of, same, same_bits,
    same_register, wrap,
};

/// The memory at RSP plus 16.
const AT_RSP_16: Mem = Mem {
    base: Some(Register::RSP),
    index: None,
    scale: 1,
    disp: 16,
    disp_size: DispSize::D8,
};

/// `mov` of a register and the memory at RSP plus 16, at some place of the table.
fn load(register: Register) -> Instr {
    Instr {
        code: Code(7),
        ops: [
            Operand::Reg(register),
            Operand::Mem(AT_RSP_16),
            Operand::Absent,
            Operand::Absent,
        ],
        lock: false,
        rep: Rep::None,
        seg: None,
        asize: Some(Bits::B64),
    }
}

#[test]
fn equal_values_alone_are_the_same(rt: HostRuntime) {
    let (rbx, ebx) = (Register::RBX, Register::EBX);
    for (other, want) in [(rbx, true), (ebx, false)] {
        same_of(&rt, &same(&load(rbx), &load(other)), &want, &other);
        same_of(&rt, &same_register(rbx, other), &want, &other);
    }
    for (other, want) in [(Bits::B32, true), (Bits::B64, false)] {
        same_of(&rt, &same_bits(Bits::B32, other), &want, &other);
    }
    let instr = load(rbx);
    same_value(&rt, &instr.op_count(), &2, "how many operands");
    let memory = &Some(AT_RSP_16);
    same_value(&rt, &instr.ops[1].memory(), memory, "operand 1");
    same_value(&rt, &instr.memory_operand(), memory, "the memory operand");
    same_value(&rt, &instr.ops[1].is_memory(), &true, "memory");
    same_value(&rt, &instr.ops[3].is_absent(), &true, "no operand");
}

#[test]
fn addresses_wrap_in_each_mode(rt: HostRuntime) {
    same_value(&rt, &mode_of::<16>(), &Bits::B16, "16");
    same_value(&rt, &mode_of::<32>(), &Bits::B32, "32");
    same_value(&rt, &mode_of::<64>(), &Bits::B64, "64");
    for (bits, x, want) in &[
        (Bits::B16, 0x1_0002, 2),
        (Bits::B32, 0xFFFF_FFFF, 0xFFFF_FFFF),
        (Bits::B32, 0x1_0000_0005, 5),
        (Bits::B64, 0x1_0000_0000_0000_0009, 9),
    ] {
        same_of(&rt, &wrap(*bits, *x), want, x);
    }
}

// AH to BH are four registers, R15 is the last general one, and there is no ST(8).
#[test]
fn registers_have_the_numbers_and_bytes_of_their_names(rt: HostRuntime) {
    for (register, number, bytes) in &[
        (Register::BL, 3, 1),
        (Register::SPL, 4, 1),
        (Register::R8B, 8, 1),
        (Register::BH, 3, 1),
        (Register::SI, 6, 2),
        (Register::R9W, 9, 2),
        (Register::ESP, 4, 4),
        (Register::R10D, 10, 4),
        (Register::RDI, 7, 8),
        (Register::R15, 15, 8),
        (Register::GS, 5, 2),
        (Register::CR8, 8, 8),
        (Register::DR7, 7, 8),
        (Register::ST2, 2, 10),
        (Register::MM1, 1, 8),
        (Register::XMM15, 15, 16),
        (Register::YMM12, 12, 32),
        (Register::Rip, 0, 8),
    ] {
        same_of(&rt, &register.number(), number, register);
        same_of(&rt, &register.size(), bytes, register);
        same_of(&rt, &register.is_named(), &true, register);
    }
    for register in &[Register::High8(4), Register::R64(16), Register::St(8)] {
        same_of(&rt, &register.is_named(), &false, register);
    }
}
