//! Registers by their numbers, and what an instruction requires of each field.

ghost use Rattle.std.specs.Prelude.{◌≡◌, ◌<◌};
ghost use Rattle.x86_values.specs.declared.Operand.TheVariants.{Reg, Mem as Memory};
ghost use Rattle.instruction_parts.specs.Kinds.{method_of};
ghost use Rattle.plain_spelling.specs.PlainFront as spec;
ghost use Rattle.plain_spelling.specs.Asked.{AreBelow, AreWith, AreAskedOf};

use crate::addresses::displacement_count;
use instruction_parts::kinds::{Method, method_of_kind};
use instruction_parts::row_types::{OpKind, Row};
use x86_values::{Instr, Mem, Operand, Register};

/// Returns the number that encodes a register. AH, CH, DH and BH have 4 to 7 (Intel SDM volume 2, 2.1.5 and 3.1.1.1).
#[inline(always)]
#[tactic(auto, unfolding(crate::specs::PlainFront::register_number))]
pub fn register_number(register: Register) -> u16
    ensures value { result ≡ spec.register_number register }
    ensures small { result < 260 }
{
    match register {
        Register::Low8(n) => n as u16,
        Register::High8(n) => 4 + n as u16,
        Register::R16(n) => n as u16,
        Register::R32(n) => n as u16,
        Register::R64(n) => n as u16,
        Register::Seg(segment) => segment as u16,
        Register::Cr(n) => n as u16,
        Register::Dr(n) => n as u16,
        Register::St(n) => n as u16,
        Register::Mm(n) => n as u16,
        Register::Xmm(n) => n as u16,
        Register::Ymm(n) => n as u16,
        Register::Eip => 0,
        Register::Rip => 0,
    }
}

/// Returns the number of a register, or 0 if there is none.
#[inline]
fn number_or_zero(register: Option<Register>) -> u16
    ensures value { result ≡ spec.number_or_zero register }
    ensures small { result < 260 }
{
    match register {
        None => 0,
        Some(register) => register_number(register),
    }
}

/// The numbers that an instruction requires in the fields of its spelling, and the length of its displacement; each is 0 if no operand requires one.
#[derive(Clone, Copy)]
pub struct Asked {
    /// Of ModRM.reg.
    pub reg: u16,
    /// Of r/m, of the SIB's base or of the register in the opcode byte.
    pub rm: u16,
    /// Of the SIB's index.
    pub index: u16,
    /// Of vvvv.
    pub vvvv: u16,
    /// Of the opcode byte.
    pub opcode: u16,
    /// How many bytes the displacement has.
    pub displacement: u16,
}

/// The numbers, with that of a register operand that is read so.
#[inline(always)]
#[tactic(auto, unfolding(crate::specs::PlainFront::number_in_reg, crate::specs::PlainFront::number_in_rm, crate::specs::PlainFront::number_in_index, crate::specs::PlainFront::number_in_vvvv, crate::specs::PlainFront::number_in_opcode, crate::specs::PlainTail::displacement_read))]
fn with_register(method: Method, register: Register, rest: Asked) -> Asked
    requires { AreBelow 60000 rest }
    ensures added { AreWith method (Reg register) rest result }
{
    let n = register_number(register);
    match method {
        Method::ModRmReg => Asked {
            reg: n + rest.reg,
            ..rest
        },
        Method::RegisterOrMemory
        | Method::RegisterOnly
        | Method::MemoryOnly
        | Method::AnyMode
        | Method::Gather => Asked {
            rm: n + rest.rm,
            ..rest
        },
        Method::OpcodeLow => Asked {
            rm: n + rest.rm,
            opcode: n + rest.opcode,
            ..rest
        },
        Method::Vvvv => Asked {
            vvvv: n + rest.vvvv,
            ..rest
        },
        _ => rest,
    }
}

/// The numbers, with those of base, index and displacement of a memory operand that is read so.
#[inline(always)]
#[tactic(auto, unfolding(crate::specs::PlainFront::number_in_reg, crate::specs::PlainFront::number_in_rm, crate::specs::PlainFront::number_in_index, crate::specs::PlainFront::number_in_vvvv, crate::specs::PlainFront::number_in_opcode, crate::specs::PlainTail::displacement_read))]
fn with_memory(method: Method, memory: Mem, rest: Asked) -> Asked
    requires { AreBelow 60000 rest }
    ensures added { AreWith method (Memory memory) rest result }
{
    let index = number_or_zero(memory.index) + rest.index;
    let displacement = displacement_count(memory.disp_size) as u16 + rest.displacement;
    match method {
        Method::RegisterOrMemory
        | Method::RegisterOnly
        | Method::MemoryOnly
        | Method::AnyMode
        | Method::Gather => Asked {
            rm: number_or_zero(memory.base) + rest.rm,
            index,
            displacement,
            ..rest
        },
        Method::OpcodeLow => Asked {
            rm: number_or_zero(memory.base) + rest.rm,
            index,
            ..rest
        },
        Method::Offset => Asked {
            index,
            displacement,
            ..rest
        },
        _ => Asked { index, ..rest },
    }
}

/// Returns the numbers, with those that one more operand requires, which is read in place.
#[inline(always)]
#[tactic(auto, unfolding(crate::specs::PlainFront::number_in_reg, crate::specs::PlainFront::number_in_rm, crate::specs::PlainFront::number_in_index, crate::specs::PlainFront::number_in_vvvv, crate::specs::PlainFront::number_in_opcode, crate::specs::PlainTail::displacement_read))]
fn with_operand(kind: OpKind, operand: &Operand, rest: Asked) -> Asked
    requires { AreBelow 60000 rest }
    ensures added { AreWith (method_of kind) operand.now rest result }
{
    match *operand {
        Operand::Reg(register) => with_register(method_of_kind(kind), register, rest),
        Operand::Mem(memory) => with_memory(method_of_kind(kind), memory, rest),
        _ => rest,
    }
}

/// Returns the numbers that an instruction requires, over all operands.
#[inline(always)]
pub fn numbers_asked(row: &Row, instr: &Instr) -> Asked
    ensures { AreAskedOf row.now instr.now result }
{
    let [k0, k1, k2, k3] = row.ops;
    let [_first, _second, _third, _fourth] = instr.ops;
    let none = Asked {
        reg: 0,
        rm: 0,
        index: 0,
        vvvv: 0,
        opcode: 0,
        displacement: 0,
    };
    let fourth = with_operand(k3, &instr.ops[3], none);
    let third = with_operand(k2, &instr.ops[2], fourth);
    let second = with_operand(k1, &instr.ops[1], third);
    with_operand(k0, &instr.ops[0], second)
}

/// Whether an operand is SPL, BPL, SIL or DIL.
#[tactic(auto, unfolding(crate::specs::PlainFront::is_low_byte_of_rex))]
fn is_low_byte_of_rex(operand: &Operand) -> bool
    ensures { result ≡ spec.is_low_byte_of_rex operand.now }
{
    match *operand {
        Operand::Reg(Register::Low8(n)) => 4 <= n && n < 8,
        _ => false,
    }
}

/// Returns whether some operand is SPL, BPL, SIL or DIL, which require a REX.
#[inline(always)]
pub fn asks_low_byte(instr: &Instr) -> bool
    ensures { result ≡ spec.asks_low_byte instr.now.ops }
{
    // Four operands, as the proof has to know; each is read where it lies.
    let [_first, _second, _third, _fourth] = instr.ops;
    is_low_byte_of_rex(&instr.ops[0])
        || is_low_byte_of_rex(&instr.ops[1])
        || is_low_byte_of_rex(&instr.ops[2])
        || is_low_byte_of_rex(&instr.ops[3])
}
