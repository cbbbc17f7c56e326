//! The registers that an instruction touches.

ghost use Rattle.std.specs.Prelude.{◌≡◌, ◌<◌, ◌≤◌, ◌+◌, [], ◌++◌, IsTrue, Bool, Some, length, slice_get};
ghost use Rattle.arrayvec.specs.ArrayVec.{array_vec_len};
ghost use Rattle.opcode_rows.specs.Allowed.{is_well_formed};
ghost use Rattle.opcode_rows.specs.Table.{table};
ghost use Rattle.operand_info.specs.Operands as operands;
ghost use Rattle.instruction_info.specs.Memory.{all_memory};
ghost use Rattle.instruction_info.specs.Settings.{setting_of};
ghost use Rattle.instruction_info.specs.Registers as spec;

use crate::effect::{AccessKind, ImpliedRegister, RegisterGroup, implied_registers};
use crate::features::has_memory;
use crate::memory::{MemoryUse, push_all_memory};
use crate::setting::{Setting, done, general_register, register_in, setting_by};
use arrayvec::ArrayVec;
use instruction_parts::row_types::{Class, Map, Row, RowKind};
use opcode_rows::{ROWS, row_of};
use operand_info::laws::well_formed_codes_are_in_the_table;
use operand_info::{Access, access_of};
use x86_values::{Bits, Instr, Operand, Register, Segment};

/// A register that an instruction touches, and its access.
#[derive(Clone, Copy, PartialEq, Eq, Debug)]
pub struct RegisterUse {
    pub reg: Register,
    pub access: AccessKind,
}

/// AL, which is read.
impl Default for RegisterUse {
    fn default() -> RegisterUse {
        RegisterUse {
            reg: Register::Low8(0),
            access: AccessKind::Read,
        }
    }
}

/// At most 32 uses of registers.
type Uses = ArrayVec<RegisterUse, 32>;

/// Returns the widest register that contains a register: RAX for AL, AH, AX and EAX, YMM1 for XMM1, RIP for EIP, and any other register itself. Two
/// registers overlap if their widest registers are equal. (MMX registers alias the x87 stack; this function keeps them apart.)
pub fn full_register(reg: Register) -> Register
    ensures { result ≡ spec.full_register reg }
{
    match reg {
        Register::Low8(n)
        | Register::High8(n)
        | Register::R16(n)
        | Register::R32(n)
        | Register::R64(n) => Register::R64(n),
        Register::Xmm(n) | Register::Ymm(n) => Register::Ymm(n),
        Register::Eip | Register::Rip => Register::Rip,
        other => other,
    }
}

/// Whether a row is that of MOVSS or MOVSD into a vector register: F3 0F 10 and F2 0F 10.
#[inline]
fn loads_scalar(row: &Row) -> bool
    ensures { result ≡ spec.loads_scalar (Some row.now) }
{
    match (row.kind, row.map, row.class) {
        (RowKind::Legacy, Map::M0f, Class::F3 | Class::F2) => row.opcode == 0x10,
        _ => false,
    }
}

/// Returns whether the form of an instruction with a row writes an operand that the columns give as read and written. MOVSS and MOVSD from memory write 0 to the
/// rest of their destination, which a move between registers keeps (Intel SDM volume 2, MOVSS and MOVSD).
#[inline]
#[tactic(auto, unfolding(crate::specs::Registers::replaces))]
fn replaces(instr: &Instr, row: &Row) -> bool
    requires { slice_get table instr.now.code.0 ≡ Some row.now }
    ensures { result ≡ spec.replaces instr.now }
{
    loads_scalar(row) && has_memory(instr)
}

/// The access that an operand has, in a form that replaces its destination or keeps a part of it.
#[inline]
fn operand_access(replaced: bool, access: Access) -> AccessKind
    ensures { result ≡ spec.operand_access replaced access }
{
    match access {
        Access::None | Access::Read => AccessKind::Read,
        Access::Write => AccessKind::Write,
        Access::ReadWrite if replaced => AccessKind::Write,
        Access::ReadWrite => AccessKind::ReadWrite,
    }
}

/// Appends a register operand with its access, if it has one.
#[inline]
#[tactic(auto, unfolding(operand_info::specs::Operands::operand_use, crate::specs::Registers::named_uses))]
fn push_named_register(uses: &mut Uses, replaced: bool, reg: Register, access: Access)
    requires { array_vec_len uses.old < 32 }
    ensures items { uses.new.items ≡ uses.old.items ++ spec.named_uses replaced (operands.operand_use reg access) }
    ensures len { array_vec_len uses.new ≡ array_vec_len uses.old + length (operands.operand_use reg access) }
    ensures few { array_vec_len uses.new ≤ array_vec_len uses.old + 1 }
{
    match access {
        Access::None => {}
        _ => uses.push(RegisterUse {
            reg,
            access: operand_access(replaced, access),
        }),
    }
}

/// Appends a register of an address, which is read.
#[inline]
#[tactic(auto, unfolding(crate::specs::Registers::named_uses))]
fn push_address(uses: &mut Uses, reg: Option<Register>)
    requires { array_vec_len uses.old < 32 }
    ensures items { (replaced : Bool) → uses.new.items ≡ uses.old.items ++ spec.named_uses replaced (operands.address_use reg) }
    ensures len { array_vec_len uses.new ≡ array_vec_len uses.old + length (operands.address_use reg) }
    ensures few { array_vec_len uses.new ≤ array_vec_len uses.old + 1 }
{
    match reg {
        None => {}
        Some(reg) => uses.push(RegisterUse {
            reg,
            access: AccessKind::Read,
        }),
    }
}

/// Appends the registers of an operand.
#[inline]
#[tactic(auto, unfolding(operand_info::specs::Operands::uses_of, crate::specs::Registers::named_uses))]
fn push_operand(uses: &mut Uses, replaced: bool, operand: &Operand, access: Access)
    requires { array_vec_len uses.old ≤ 30 }
    ensures items { uses.new.items ≡ uses.old.items ++ spec.named_uses replaced (operands.uses_of operand.now access) }
    ensures len { array_vec_len uses.new ≡ array_vec_len uses.old + length (operands.uses_of operand.now access) }
    ensures few { array_vec_len uses.new ≤ array_vec_len uses.old + 2 }
{
    match operand {
        Operand::Reg(reg) => push_named_register(uses, replaced, *reg, access),
        Operand::Mem(m) => {
            push_address(uses, m.base);
            push_address(uses, m.index);
        }
        _ => {}
    }
}

/// Appends the registers of operand `n`.
#[inline]
#[tactic(auto, unfolding(operand_info::specs::Operands::uses_at))]
fn push_operand_at(uses: &mut Uses, replaced: bool, instr: &Instr, n: usize)
    requires code { instr.now.code.0 < ROWS }
    requires number { n < 4 }
    requires room { array_vec_len uses.old ≤ 30 }
    ensures items { uses.new.items ≡ uses.old.items ++ spec.named_uses replaced (operands.uses_at instr.now n) }
    ensures len { array_vec_len uses.new ≡ array_vec_len uses.old + length (operands.uses_at instr.now n) }
    ensures few { array_vec_len uses.new ≤ array_vec_len uses.old + 2 }
{
    push_operand(uses, replaced, &instr.ops[n], access_of(instr.code, n))
}

/// Appends the registers that operands name.
#[inline]
fn push_named(uses: &mut Uses, replaced: bool, instr: &Instr)
    requires code { instr.now.code.0 < ROWS }
    requires room { array_vec_len uses.old ≤ 24 }
    ensures items { uses.new.items ≡ uses.old.items ++ spec.named_uses replaced (operands.uses instr.now) }
    ensures len { array_vec_len uses.new ≡ array_vec_len uses.old + length (operands.uses instr.now) }
{
    push_operand_at(uses, replaced, instr, 0);
    push_operand_at(uses, replaced, instr, 1);
    push_operand_at(uses, replaced, instr, 2);
    push_operand_at(uses, replaced, instr, 3);
}

/// Returns whether a segment register is used in an address: in 64-bit mode only FS and GS (Intel SDM volume 1, 3.4.2.1).
#[inline]
fn counts(bits: Bits, segment: Segment) -> bool
    ensures { result ≡ spec.counts bits segment }
{
    match (bits, segment) {
        (Bits::B64, Segment::Fs | Segment::Gs) => true,
        (Bits::B64, _) => false,
        _ => true,
    }
}

/// Returns the access to the segment register of memory with a given access: it is read, conditionally if the whole access is conditional.
#[inline]
fn segment_access(access: AccessKind) -> AccessKind
    ensures { result ≡ spec.segment_access access }
{
    match access {
        AccessKind::ConditionalRead
        | AccessKind::ConditionalWrite
        | AccessKind::ConditionalReadWrite => AccessKind::ConditionalRead,
        _ => AccessKind::Read,
    }
}

/// Appends the segment register of some memory, if it is used.
#[inline]
fn push_segment(uses: &mut Uses, bits: Bits, memory: &MemoryUse)
    requires { array_vec_len uses.old < 32 }
    ensures items { uses.new.items ≡ uses.old.items ++ spec.segment_use bits memory.now }
    ensures room { array_vec_len uses.new ≤ array_vec_len uses.old + 1 }
{
    if counts(bits, memory.segment) {
        uses.push(RegisterUse {
            reg: Register::Seg(memory.segment),
            access: segment_access(memory.access),
        })
    }
}

/// Appends the segment registers of some memory.
#[tactic(auto, unfolding(crate::specs::Registers::segment_uses))]
fn push_segments(uses: &mut Uses, bits: Bits, memory: &[MemoryUse])
    requires { array_vec_len uses.old + length memory.now ≤ 32 }
    ensures items { uses.new.items ≡ uses.old.items ++ spec.segment_uses bits memory.now }
    ensures room { array_vec_len uses.new ≤ array_vec_len uses.old + length memory.now }
{
    match memory {
        [] => {}
        [m, rest @ ..] => {
            push_segment(uses, bits, m);
            push_segments(uses, bits, rest)
        }
    }
}

/// Whether a mode has a register of a group: XMM8 and YMM8 on are those of 64-bit mode.
#[inline]
fn is_there(bits: Bits, group: RegisterGroup, n: u8) -> bool
    ensures { result ≡ spec.is_there bits group n }
{
    match (bits, group) {
        (Bits::B64, _) => true,
        (_, RegisterGroup::Xmm | RegisterGroup::Ymm) => n < 8,
        _ => true,
    }
}

/// Appends an implied register, if the mode has it.
#[inline]
fn push_register(uses: &mut Uses, setting: &Setting, one: &ImpliedRegister)
    requires { array_vec_len uses.old < 32 }
    ensures items { uses.new.items ≡ uses.old.items ++ spec.implied_use setting.now one.now }
    ensures room { array_vec_len uses.new ≤ array_vec_len uses.old + 1 }
{
    if is_there(setting.bits, one.group, one.number) {
        uses.push(RegisterUse {
            reg: register_in(setting, one.group, one.number),
            access: done(setting, one.access),
        })
    }
}

/// Appends implied registers.
#[tactic(auto, unfolding(crate::specs::Registers::implied_uses))]
fn push_registers(uses: &mut Uses, setting: &Setting, implied: &[ImpliedRegister])
    requires { array_vec_len uses.old + length implied.now ≤ 32 }
    ensures items { uses.new.items ≡ uses.old.items ++ spec.implied_uses setting.now implied.now }
    ensures room { array_vec_len uses.new ≤ array_vec_len uses.old + length implied.now }
{
    match implied {
        [] => {}
        [one, rest @ ..] => {
            push_register(uses, setting, one);
            push_registers(uses, setting, rest)
        }
    }
}

/// Appends the counter of a repeat prefix (CX, ECX or RCX by the address size) if one repeats the instruction: it is read, and written if it was not
/// 0.
#[inline]
fn push_counter(uses: &mut Uses, setting: &Setting)
    requires { array_vec_len uses.old < 32 }
    ensures { uses.new.items ≡ uses.old.items ++ spec.counter_use setting.now }
{
    if setting.repeated {
        uses.push(RegisterUse {
            reg: general_register(setting.address, 1),
            access: AccessKind::ReadConditionalWrite,
        })
    }
}

/// Appends all registers that a well-formed instruction touches to none, where its row, its setting and all memory that it touches are given.
#[inline]
#[tactic(auto, using(crate::proofs::FewUses::few_uses), unfolding(crate::specs::Registers::all_registers))]
fn push_all_registers(
    uses: &mut Uses,
    bits: Bits,
    instr: &Instr,
    row: &Row,
    setting: &Setting,
    memory: &[MemoryUse],
)
    requires well { IsTrue (is_well_formed instr.now) }
    requires code { instr.now.code.0 < ROWS }
    requires row { slice_get table instr.now.code.0 ≡ Some row.now }
    requires setting { setting.now ≡ setting_of bits instr.now }
    requires memory { memory.now ≡ all_memory bits instr.now }
    requires empty { uses.old.items ≡ [] }
    ensures { uses.new.items ≡ spec.all_registers bits instr.now }
{
    push_named(uses, replaces(instr, row), instr);
    push_segments(uses, bits, memory);
    push_registers(uses, setting, implied_registers(instr.code));
    push_counter(uses, setting);
}

/// Fills two empty lists with all that a well-formed instruction touches in a mode: the memory that `all_memory` returns, and the registers that
/// `all_registers` returns. It takes less time than both calls, and copies no list.
#[inline]
pub fn all_uses(
    bits: Bits,
    instr: &Instr,
    memory: &mut ArrayVec<MemoryUse, 4>,
    registers: &mut ArrayVec<RegisterUse, 32>,
)
    requires well { IsTrue (is_well_formed instr.now) }
    requires no_memory { memory.old.items ≡ [] }
    requires no_registers { registers.old.items ≡ [] }
    ensures memory { memory.new.items ≡ all_memory bits instr.now }
    ensures registers { registers.new.items ≡ spec.all_registers bits instr.now }
{
    well_formed_codes_are_in_the_table();
    let row = row_of(instr.code);
    let setting = setting_by(bits, instr, &row);
    push_all_memory(memory, bits, &setting, instr);
    push_all_registers(registers, bits, instr, &row, &setting, memory.as_slice());
}

/// Returns the registers that a well-formed instruction touches in a mode; at most 32.
///
/// In this order: the registers that its operands name, as `used_registers` returns them, except that MOVSS and MOVSD from memory write their
/// destination and do not read it; the segment registers of the memory that `all_memory` returns (in 64-bit mode only FS and GS); implied registers;
/// and the counter of a repeat prefix. A register that is touched in two ways occurs twice.
///
/// ```
/// let push = decode_in(Bits::B64, 0x40_1000, b"\x55")?;
/// for used in all_registers(Bits::B64, &push.instr).iter() {
///     println!(rt; "{:?} {:?}", used.reg, used.access)?; // R64(5) Read, R64(4) ReadWrite
/// }
/// ```
pub fn all_registers(bits: Bits, instr: &Instr) -> ArrayVec<RegisterUse, 32>
    requires { IsTrue (is_well_formed instr.now) }
    ensures { result.items ≡ spec.all_registers bits instr.now }
{
    let mut memory = ArrayVec::new();
    let mut registers = ArrayVec::new();
    all_uses(bits, instr, &mut memory, &mut registers);
    registers
}
