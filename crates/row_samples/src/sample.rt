//! An instruction of a row, made from the kinds of its operands.

use instruction_parts::row_types::{LBit, OpKind, Place, Row, Size};
use instruction_parts::sizes::has_address_mark;
use instruction_parts::{File, Method, file_of_kind, fixed_number_of_kind, method_of_kind};
use x86_values::{Bits, Code, DispSize, Instr, Mem, Operand, Register, Rep, Segment};

/// The general register of a size with a number.
fn general_register(size: Bits, number: u8) -> Register {
    match size {
        Bits::B16 => Register::R16(number),
        Bits::B32 => Register::R32(number),
        Bits::B64 => Register::R64(number),
    }
}

/// Returns the operand size that a row names, or 32 if it names none.
fn row_size(row: &Row) -> Bits {
    match row.size {
        Size::O16 => Bits::B16,
        Size::O64 => Bits::B64,
        _ => Bits::B32,
    }
}

/// The size of general registers that follow W.
fn size_by_w(row: &Row) -> Bits {
    match row.size {
        Size::W1 | Size::O64 => Bits::B64,
        _ => Bits::B32,
    }
}

/// A segment register by its number; 1, CS, is no destination of a move.
fn segment(number: u8) -> Segment {
    match number {
        0 => Segment::Es,
        1 => Segment::Cs,
        2 => Segment::Ss,
        3 => Segment::Ds,
        4 => Segment::Fs,
        _ => Segment::Gs,
    }
}

/// The register of a file with a number of 0 to 7.
fn register(bits: Bits, row: &Row, file: File, number: u8) -> Register {
    match file {
        File::Byte => Register::Low8(number),
        File::Word => Register::R16(number),
        File::Dword => Register::R32(number),
        File::Qword => Register::R64(number),
        File::OperandSize => general_register(row_size(row), number),
        File::WordOrDword => match row.size {
            Size::O16 => Register::R16(number),
            _ => Register::R32(number),
        },
        File::ByW => general_register(size_by_w(row), number),
        File::Native => match bits {
            Bits::B64 => Register::R64(number),
            _ => Register::R32(number),
        },
        File::Segment => Register::Seg(segment(number)),
        File::Control => Register::Cr(number),
        File::Debug => Register::Dr(number),
        File::Stack => Register::St(number),
        File::Mmx => Register::Mm(number),
        File::Xmm => Register::Xmm(number),
        File::Vector => match row.l {
            LBit::L256 => Register::Ymm(number),
            _ => Register::Xmm(number),
        },
    }
}

/// The address size of the sample: the mode's, but 32 for a gather in 16-bit mode, which has no 16-bit addressing.
fn address_size(bits: Bits, row: &Row) -> Bits {
    match bits {
        Bits::B16
            if row
                .ops
                .iter()
                .any(|kind| method_of_kind(*kind) == Method::Gather) => { Bits::B32 }
        _ => bits,
    }
}

/// The address in BX, EBX or RBX.
fn at_base(asize: Bits, index: Option<Register>) -> Operand {
    Operand::Mem(Mem {
        base: Some(general_register(asize, 3)),
        index,
        scale: 1,
        disp: 0,
        disp_size: DispSize::D0,
    })
}

/// An absolute address of the address size.
fn absolute(asize: Bits) -> Operand {
    let disp_size = match asize {
        Bits::B16 => DispSize::D16,
        Bits::B32 => DispSize::D32,
        Bits::B64 => DispSize::D64,
    };
    Operand::Mem(Mem {
        base: None,
        index: None,
        scale: 1,
        disp: 0x10,
        disp_size,
    })
}

/// An operand of a kind. Registers of different fields have different numbers; an operand that may be memory is a register.
fn operand(bits: Bits, row: &Row, kind: OpKind) -> Operand {
    let asize = address_size(bits, row);
    let named = |number: u8| Operand::Reg(register(bits, row, file_of_kind(kind), number));
    match method_of_kind(kind) {
        Method::Nothing => Operand::Absent,
        Method::ModRmReg | Method::OpcodeLow => named(2),
        Method::RegisterOrMemory => match row.place {
            Place::Memory => at_base(asize, None),
            _ => named(1),
        },
        Method::RegisterOnly | Method::AnyMode => named(1),
        Method::MemoryOnly => at_base(asize, None),
        Method::Vvvv => named(3),
        Method::LastByte => named(4),
        Method::Gather => at_base(asize, Some(register(bits, row, file_of_kind(kind), 5))),
        Method::Offset => absolute(asize),
        Method::AsWritten | Method::Extended | Method::One => Operand::Imm(1),
        Method::Near => Operand::Near(0x1000),
        Method::Pointer => Operand::Far {
            selector: 8,
            offset: 0x10,
        },
        Method::Fixed => named(fixed_number_of_kind(kind)),
    }
}

/// An instruction of the row in a mode, at address 0x1000.
pub fn sample(bits: Bits, code: Code, row: &Row) -> Instr {
    let [first, second, third, fourth] = row.ops;
    let ops = [
        operand(bits, row, first),
        operand(bits, row, second),
        operand(bits, row, third),
        operand(bits, row, fourth),
    ];
    let has_address = has_address_mark(row) || ops.iter().any(|op| op.is_memory());
    Instr {
        code,
        ops,
        lock: false,
        rep: Rep::None,
        seg: None,
        asize: if has_address {
            Some(address_size(bits, row))
        } else {
            None
        },
    }
}
