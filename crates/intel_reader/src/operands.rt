//! The operands that rows take, distinguished by classes.

ghost use Rattle.std.specs.Prelude.{◌≡◌, ℕ, ◌<◌, ◌^◌, if◌then◌else◌, Some, [], slice_get};
ghost use Rattle.x86_values.specs.declared.Bits.{Bits};
ghost use Rattle.instruction_parts.specs.declared.row_types.Row.{Row};
ghost use Rattle.opcode_rows.specs.Table.{table};
ghost use Rattle.intel_reader.specs.declared.operands.OperandClass.{OperandClass};
ghost use Rattle.intel_reader.specs.Buckets.{order};
ghost use Rattle.intel_reader.specs.Operands as spec;

use crate::buckets::code_at;
use crate::generated_operands::OPERANDS;
use opcode_rows::ROWS;
use x86_values::{Bits, Code, Register};

/// What the text of an operand shows, as far as it distinguishes rows.
#[derive(Clone, Copy)]
pub enum OperandClass {
    /// There is no such operand.
    Absent,
    /// AL, AX, EAX or RAX, which some opcodes fix.
    Al,
    /// Another register of 8 bits.
    Byte,
    Ax,
    /// Another general register of 16 bits.
    Word,
    Eax,
    /// Another general register of 32 bits.
    Dword,
    Rax,
    /// Another general register of 64 bits.
    Qword,
    /// A vector register of 128 bits.
    Xmm,
    /// Any other register.
    Other,
    /// An immediate or a near target.
    Number,
    /// A far pointer.
    Pointer,
    /// An address.
    Address,
}

/// One class or another.
#[inline]
fn one_of(first: bool, a: OperandClass, b: OperandClass) -> OperandClass
    ensures { result ≡ (if first then a else b) }
{
    if first { a } else { b }
}

/// Returns the class of a register.
#[tactic(auto, unfolding(crate::specs::Operands::class_of_register))]
pub fn class_of_register(register: Register) -> OperandClass
    ensures { result ≡ spec.class_of_register register }
{
    match register {
        Register::Low8(n) => one_of(n == 0, OperandClass::Al, OperandClass::Byte),
        Register::High8(_) => OperandClass::Byte,
        Register::R16(n) => one_of(n == 0, OperandClass::Ax, OperandClass::Word),
        Register::R32(n) => one_of(n == 0, OperandClass::Eax, OperandClass::Dword),
        Register::R64(n) => one_of(n == 0, OperandClass::Rax, OperandClass::Qword),
        Register::Xmm(_) => OperandClass::Xmm,
        _ => OperandClass::Other,
    }
}

/// The flag of a class.
#[tactic(auto, unfolding(crate::specs::Operands::one_class, crate::specs::Operands::number_of))]
fn flag_of_class(class: OperandClass) -> u64
    ensures value { result ≡ spec.number_of (spec.one_class class []) }
    ensures small { result < 2 ^ 14 }
{
    match class {
        OperandClass::Absent => 0x1,
        OperandClass::Al => 0x2,
        OperandClass::Byte => 0x4,
        OperandClass::Ax => 0x8,
        OperandClass::Word => 0x10,
        OperandClass::Eax => 0x20,
        OperandClass::Dword => 0x40,
        OperandClass::Rax => 0x80,
        OperandClass::Qword => 0x100,
        OperandClass::Xmm => 0x200,
        OperandClass::Other => 0x400,
        OperandClass::Number => 0x800,
        OperandClass::Pointer => 0x1000,
        OperandClass::Address => 0x2000,
    }
}

/// The flag of a mode.
#[tactic(auto, unfolding(crate::specs::Operands::one_mode, crate::specs::Operands::number_of))]
fn flag_of_mode(bits: Bits) -> u64
    ensures value { result ≡ spec.number_of (spec.one_mode bits []) }
    ensures small { result < 8 }
{
    match bits {
        Bits::B16 => 1,
        Bits::B32 => 2,
        Bits::B64 => 4,
    }
}

/// Returns, as flags, what [`takes`] requires of a row in a mode for operands of these four classes.
pub fn flags_of_classes(
    bits: Bits,
    a: OperandClass,
    b: OperandClass,
    c: OperandClass,
    d: OperandClass,
) -> u64
    ensures { result ≡ spec.number_of (spec.asked_flags bits a b c d) }
{
    let fourth = flag_of_class(d);
    let third = flag_of_class(c) + 0x4000 * fourth;
    let second = flag_of_class(b) + 0x4000 * third;
    let first = flag_of_class(a) + 0x4000 * second;
    flag_of_mode(bits) + 8 * first
}

/// The flags of the row of a code.
fn flags_of(code: Code) -> u64
    requires { code.0 < ROWS }
    ensures { slice_get spec.row_numbers code.0 ≡ Some result }
{
    OPERANDS[code.0 as usize]
}

/// Returns whether the row of a code exists in a mode and takes operands of four classes, given as the flags of [`flags_of_classes`].
fn takes(code: Code, asked: u64) -> bool
    requires { code.0 < ROWS }
    ensures { (bits : Bits) (a b c d : OperandClass) (row : Row) → asked ≡ spec.number_of (spec.asked_flags bits a b c d)
        → slice_get table code.0 ≡ Some row → result ≡ spec.takes bits row a b c d }
{
    flags_of(code) & asked == asked
}

/// Returns whether the row of the code at an index exists in a mode and takes operands of four classes, given as the flags of [`flags_of_classes`].
pub fn takes_at(index: u16, asked: u64) -> bool
    requires { index < ROWS }
    ensures { (bits : Bits) (a b c d : OperandClass) (code : ℕ) (row : Row) → asked ≡ spec.number_of (spec.asked_flags bits a b c d)
        → slice_get order index ≡ Some code → slice_get table code ≡ Some row → result ≡ spec.takes bits row a b c d }
{
    takes(code_at(index), asked)
}
