//! What determines the implied registers and addresses of an instruction.

ghost use Rattle.std.specs.Prelude.{◌≡◌, ◌<◌, slice_get, Some};
ghost use Rattle.opcode_rows.specs.Table.{table};
ghost use Rattle.instruction_info.specs.Settings as spec;

use crate::effect::{AccessKind, RegisterGroup, repeats};
use instruction_parts::row_types::{Row, Size};
use opcode_rows::{ROWS, row_of};
use x86_values::{Bits, Code, Instr, Register, Rep, Segment};

/// The mode (which is also the stack size), the operand and address sizes, the effective segment prefix, and whether a repeat prefix repeats the
/// instruction.
#[derive(Clone, Copy)]
pub struct Setting {
    pub bits: Bits,
    pub operand: Bits,
    pub address: Bits,
    pub seg: Option<Segment>,
    pub repeated: bool,
}

/// Returns the operand size that a row requires, or 32 if it requires none.
#[inline]
fn operand_size(size: Size) -> Bits
    ensures { result ≡ spec.named_operand_size size }
{
    match size {
        Size::O16 => Bits::B16,
        Size::O64 | Size::W1 => Bits::B64,
        _ => Bits::B32,
    }
}

/// Whether there is a repeat prefix.
#[inline]
fn has_repeat(rep: Rep) -> bool
    ensures { result ≡ spec.has_repeat rep }
{
    match rep {
        Rep::None => false,
        _ => true,
    }
}

/// Returns the setting of an instruction in a mode, whose row is given. An instruction without an address size has that of the mode.
#[inline]
#[tactic(auto, unfolding(crate::specs::Settings::setting_of))]
pub fn setting_by(bits: Bits, instr: &Instr, row: &Row) -> Setting
    requires code { instr.now.code.0 < ROWS }
    requires row { slice_get table instr.now.code.0 ≡ Some row.now }
    ensures { result ≡ spec.setting_of bits instr.now }
{
    Setting {
        bits,
        operand: operand_size(row.size),
        address: instr.asize.unwrap_or(bits),
        seg: instr.seg,
        repeated: has_repeat(instr.rep) && repeats(instr.code),
    }
}

/// Returns the setting of an instruction in a mode.
#[inline]
pub fn setting_of(bits: Bits, instr: &Instr) -> Setting
    requires { instr.now.code.0 < ROWS }
    ensures { result ≡ spec.setting_of bits instr.now }
{
    setting_by(bits, instr, &row_of(instr.code))
}

/// Returns the general register with a size and a number.
#[inline]
pub fn general_register(size: Bits, n: u8) -> Register
    ensures { result ≡ spec.register_of_size size n }
{
    match size {
        Bits::B16 => Register::R16(n),
        Bits::B32 => Register::R32(n),
        Bits::B64 => Register::R64(n),
    }
}

/// The general register of 64 bits in 64-bit mode, and else of 32.
#[inline]
fn wide(bits: Bits, n: u8) -> Register
    ensures { result ≡ spec.wide bits n }
{
    match bits {
        Bits::B64 => Register::R64(n),
        _ => Register::R32(n),
    }
}

/// The segment register of a number, GS from 5 on.
#[inline]
fn segment_of(n: u8) -> Segment
    ensures { result ≡ spec.segment_of_number n }
{
    match n {
        0 => Segment::Es,
        1 => Segment::Cs,
        2 => Segment::Ss,
        3 => Segment::Ds,
        4 => Segment::Fs,
        _ => Segment::Gs,
    }
}

/// Returns the register of a group by its number.
#[tactic(auto, unfolding(crate::specs::Settings::register_in))]
pub fn register_in(setting: &Setting, group: RegisterGroup, n: u8) -> Register
    ensures { result ≡ spec.register_in setting.now group n }
{
    match group {
        RegisterGroup::Low8 => Register::Low8(n),
        RegisterGroup::High8 => Register::High8(n),
        RegisterGroup::R16 => Register::R16(n),
        RegisterGroup::R32 => Register::R32(n),
        RegisterGroup::R64 => Register::R64(n),
        RegisterGroup::Operand => general_register(setting.operand, n),
        RegisterGroup::Address => general_register(setting.address, n),
        RegisterGroup::Stack => general_register(setting.bits, n),
        RegisterGroup::Wide => wide(setting.bits, n),
        RegisterGroup::Segment => Register::Seg(segment_of(n)),
        RegisterGroup::Control => Register::Cr(n),
        RegisterGroup::X87 => Register::St(n),
        RegisterGroup::Xmm => Register::Xmm(n),
        RegisterGroup::Ymm => Register::Ymm(n),
    }
}

/// Returns the conditional form of an access.
#[inline]
pub fn conditional(access: AccessKind) -> AccessKind
    ensures { result ≡ spec.conditional access }
{
    match access {
        AccessKind::Read => AccessKind::ConditionalRead,
        AccessKind::Write => AccessKind::ConditionalWrite,
        AccessKind::ReadWrite | AccessKind::ReadConditionalWrite => {
            AccessKind::ConditionalReadWrite
        }
        other => other,
    }
}

/// Returns the access under a repeat prefix, whose counter may be 0.
#[inline]
pub fn done(setting: &Setting, access: AccessKind) -> AccessKind
    ensures { result ≡ spec.done setting.now access }
{
    if setting.repeated {
        conditional(access)
    } else {
        access
    }
}
