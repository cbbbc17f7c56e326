//! What a row does besides its operands, as the generated tables hold it.

ghost use Rattle.std.specs.Prelude.{◌≡◌, ◌<◌, ◌≤◌, ◌+◌, length, slice_get, Some};
ghost use Rattle.instruction_info.specs.Effects as spec;

use crate::generated_effects::{
    EFFECT_COUNT, EFFECT_INDEXES, EFFECTS, IMPLIED_MEMORY, IMPLIED_REGISTERS, MEMORY_COUNT,
    REGISTER_COUNT,
};
use opcode_rows::ROWS;
use x86_values::Code;

/// An access to a register or to memory. A mask, a comparison, or a repeat prefix with a counter of 0 can prevent a conditional access.
#[derive(Clone, Copy, PartialEq, Eq, Debug)]
pub enum AccessKind {
    Read,
    Write,
    ReadWrite,
    ConditionalRead,
    ConditionalWrite,
    ConditionalReadWrite,
    /// It is read, and under a condition written.
    ReadConditionalWrite,
}

/// The class of an implied register, or the size that selects it: the operand size of the row, the address size, the stack size (that of the mode),
/// or 64 bits in 64-bit mode and 32 elsewhere.
#[derive(Clone, Copy, PartialEq, Eq)]
pub enum RegisterGroup {
    Low8,
    High8,
    R16,
    R32,
    R64,
    Operand,
    Address,
    Stack,
    Wide,
    Segment,
    Control,
    X87,
    Xmm,
    Ymm,
}

/// A register that no operand names.
#[derive(Clone, Copy, PartialEq, Eq)]
pub struct ImpliedRegister {
    pub group: RegisterGroup,
    pub number: u8,
    pub access: AccessKind,
}

/// The segment of implied memory: DS unless a prefix names another, always ES, or SS.
#[derive(Clone, Copy, PartialEq, Eq)]
pub enum SegmentRule {
    Data,
    Extra,
    Stack,
}

/// Memory that no operand names. It begins at the base, plus AL if `al` is set; if it lies below the base, it ends there. It has `count` units
/// (`count64` in 64-bit mode) of `unit` bytes each, or of the operand size if `unit` is 0.
#[derive(Clone, Copy, PartialEq, Eq)]
pub struct ImpliedMemory {
    pub segment: SegmentRule,
    pub group: RegisterGroup,
    pub number: u8,
    pub al: bool,
    pub below: bool,
    pub unit: u8,
    pub count: u8,
    pub count64: u8,
    pub access: AccessKind,
}

/// The access to the memory operand: as the columns say; a write, if the columns say more because of a register form; or a conditional read or write,
/// if a mask selects elements.
#[derive(Clone, Copy, PartialEq, Eq)]
pub enum NamedMemory {
    AsOperand,
    Write,
    ConditionalRead,
    ConditionalWrite,
}

/// What a row does besides its operands: its flags by kind, its features, the features of the form without memory if a row has both forms, its ranges
/// in the lists of implied registers and memory, whether a repeat prefix repeats it, and the size and access of the memory operand if the columns do
/// not give them.
#[derive(Clone, Copy)]
pub struct Effect {
    pub read: u32,
    pub written: u32,
    pub cleared: u32,
    pub set: u32,
    pub undefined: u32,
    pub kept: u32,
    pub features: u64,
    pub register_features: u64,
    pub first_register: u16,
    pub registers: u16,
    pub first_memory: u16,
    pub memories: u16,
    pub repeats: bool,
    pub size: u16,
    pub named: NamedMemory,
}

/// Which effect the row of a code has.
#[inline]
fn index_at(code: Code) -> u16
    requires { code.0 < ROWS }
    ensures place { slice_get spec.indexes code.0 ≡ Some result }
    ensures within { result < EFFECT_COUNT }
{
    EFFECT_INDEXES[code.0 as usize]
}

/// The effect of an index.
#[inline]
fn effect_in(index: u16) -> Effect
    requires { index < EFFECT_COUNT }
    ensures { slice_get spec.effects index ≡ Some result }
{
    EFFECTS[index as usize]
}

/// Returns the effect of the row of a code. Its registers and memory lie in their lists.
#[inline]
pub fn effect_at(code: Code) -> Effect
    requires { code.0 < ROWS }
    ensures effect { result ≡ spec.effect_of code.0 }
    ensures registers { result.first_register + result.registers ≤ REGISTER_COUNT }
    ensures memory { result.first_memory + result.memories ≤ MEMORY_COUNT }
    ensures few_registers { result.registers ≤ 26 }
    ensures few_memories { result.memories ≤ 3 }
{
    effect_in(index_at(code))
}

/// Returns whether a repeat prefix repeats the instructions of a code below `ROWS`.
#[inline]
pub fn repeats(code: Code) -> bool
    requires { code.0 < ROWS }
    ensures { result ≡ (spec.effect_of code.0).repeats }
{
    effect_at(code).repeats
}

/// Returns the size in bytes of the memory operand of a code below `ROWS` if its kind gives none, and 0 otherwise.
#[inline]
pub fn stated_size(code: Code) -> u16
    requires { code.0 < ROWS }
    ensures { result ≡ (spec.effect_of code.0).size }
{
    effect_at(code).size
}

/// Returns the access to the memory operand of a code below `ROWS`.
#[inline]
pub fn stated_access(code: Code) -> NamedMemory
    requires { code.0 < ROWS }
    ensures { result ≡ (spec.effect_of code.0).named }
{
    effect_at(code).named
}

/// The implied registers of all effects.
#[inline]
fn register_list() -> &'static [ImpliedRegister; REGISTER_COUNT as usize]
    ensures list { result.now ≡ spec.register_list }
    ensures count { length result.now ≡ REGISTER_COUNT }
{
    &IMPLIED_REGISTERS
}

/// The implied memory of all effects.
#[inline]
fn memory_list() -> &'static [ImpliedMemory; MEMORY_COUNT as usize]
    ensures list { result.now ≡ spec.memory_list }
    ensures count { length result.now ≡ MEMORY_COUNT }
{
    &IMPLIED_MEMORY
}

/// Returns the registers that the row of a code below `ROWS` implies, in the order of its line.
#[inline]
pub fn implied_registers(code: Code) -> &'static [ImpliedRegister]
    requires { code.0 < ROWS }
    ensures value { result.now ≡ spec.registers_of code.0 }
    ensures few { length result.now ≤ 26 }
{
    let effect = effect_at(code);
    let first = effect.first_register as usize;
    &register_list()[first..first + effect.registers as usize]
}

/// Returns the memory that the row of a code below `ROWS` implies, in the order of its line.
#[inline]
pub fn implied_memory(code: Code) -> &'static [ImpliedMemory]
    requires { code.0 < ROWS }
    ensures value { result.now ≡ spec.implied_memory_of code.0 }
    ensures few { length result.now ≤ 3 }
{
    let effect = effect_at(code);
    let first = effect.first_memory as usize;
    &memory_list()[first..first + effect.memories as usize]
}
