//! Properties of each operand kind: where the operand is read from, which registers it names, how much memory it has.

ghost use Rattle.std.specs.Prelude.{◌≡◌};
ghost use Rattle.instruction_parts.specs.Kinds.{method_of, file_of, memory_width, immediate_width, fixed_number, IsShort};

use crate::row_types::OpKind;

/// Where an operand is read from.
#[derive(Clone, Copy)]
pub enum Method {
    /// There is no operand.
    Nothing,
    /// A register by ModRM.reg.
    ModRmReg,
    /// A register or memory by r/m.
    RegisterOrMemory,
    /// A register by r/m, with mod 3.
    RegisterOnly,
    /// Memory by r/m, with another mod.
    MemoryOnly,
    /// A register by r/m, whatever mod is.
    AnyMode,
    /// A register by the low three bits of the opcode byte.
    OpcodeLow,
    /// A register by VEX.vvvv.
    Vvvv,
    /// A register by the upper four bits of the last byte.
    LastByte,
    /// Memory by r/m, whose index is a vector register.
    Gather,
    /// Memory at an absolute address after the opcode byte.
    Offset,
    /// An immediate as encoded.
    AsWritten,
    /// An immediate, sign-extended to the operand size.
    Extended,
    /// A code offset from the next address.
    Near,
    /// A far pointer: the offset, then the selector.
    Pointer,
    /// A register that the opcode fixes.
    Fixed,
    /// The constant 1.
    One,
}

/// The registers that a kind names.
#[derive(Clone, Copy)]
pub enum File {
    Byte,
    Word,
    Dword,
    Qword,
    /// General registers of operand size.
    OperandSize,
    /// General registers of 16 bits at operand size 16, else of 32.
    WordOrDword,
    /// General registers of 64 bits if W is 1, else of 32.
    ByW,
    /// General registers of 64 bits in 64-bit mode, else of 32.
    Native,
    Segment,
    Control,
    Debug,
    Stack,
    Mmx,
    Xmm,
    /// YMM registers on rows with L 256, else XMM registers.
    Vector,
}

/// The number of bytes that a kind has in memory or in the immediates.
#[derive(Clone, Copy)]
pub enum Width {
    Zero,
    Bytes(u8),
    OperandSize,
    TwiceOperandSize,
    WordOrDword,
    ByW,
    Vector,
    HalfVector,
    QuarterVector,
    EighthVector,
    PointerOfSize,
}

/// Returns where an operand is read from.
///
/// Inlined, it is one look-up in a table.
#[inline(always)]
#[tactic(auto, unfolding(crate::specs::Kinds::method_of))]
pub fn method_of_kind(kind: OpKind) -> Method
    ensures { result ≡ method_of kind }
{
    match kind {
        OpKind::Absent => Method::Nothing,
        OpKind::Gb
        | OpKind::Gw
        | OpKind::Gd
        | OpKind::Gv
        | OpKind::Gy
        | OpKind::Sw
        | OpKind::Cn
        | OpKind::Dn
        | OpKind::Pq
        | OpKind::Vx
        | OpKind::Vo => Method::ModRmReg,
        OpKind::Zb | OpKind::Zv => Method::OpcodeLow,
        OpKind::By | OpKind::Hx | OpKind::Ho => Method::Vvvv,
        OpKind::Rv | OpKind::Ry | OpKind::Nq | OpKind::Ux | OpKind::StI => Method::RegisterOnly,
        OpKind::Rm => Method::AnyMode,
        OpKind::M
        | OpKind::Mb
        | OpKind::Mw
        | OpKind::Md
        | OpKind::Mq
        | OpKind::Mt
        | OpKind::Mv
        | OpKind::Mx
        | OpKind::Mo
        | OpKind::Ma
        | OpKind::Mp
        | OpKind::Mf => Method::MemoryOnly,
        OpKind::Ob | OpKind::Ov => Method::Offset,
        OpKind::Ib | OpKind::Iw | OpKind::Iv => Method::AsWritten,
        OpKind::Ibs | OpKind::Iz => Method::Extended,
        OpKind::Jb | OpKind::Jz => Method::Near,
        OpKind::Ap => Method::Pointer,
        OpKind::Lx => Method::LastByte,
        OpKind::GatherX | OpKind::GatherL => Method::Gather,
        OpKind::RaxAny
        | OpKind::EaxZ
        | OpKind::Al
        | OpKind::Ax
        | OpKind::Cl
        | OpKind::Dx
        | OpKind::Es
        | OpKind::Cs
        | OpKind::Ss
        | OpKind::Ds
        | OpKind::Fs
        | OpKind::Gs
        | OpKind::St
        | OpKind::Xmm0 => Method::Fixed,
        OpKind::One => Method::One,
        _ => Method::RegisterOrMemory,
    }
}

/// Returns the registers that a kind names.
#[inline(always)]
#[tactic(auto, unfolding(crate::specs::Kinds::file_of))]
pub fn file_of_kind(kind: OpKind) -> File
    ensures { result ≡ file_of kind }
{
    match kind {
        OpKind::Eb | OpKind::Gb | OpKind::Zb | OpKind::Ob | OpKind::Al | OpKind::Cl => File::Byte,
        OpKind::Ew | OpKind::Gw | OpKind::Ax | OpKind::Dx => File::Word,
        OpKind::Eq => File::Qword,
        OpKind::Ev
        | OpKind::Gv
        | OpKind::Zv
        | OpKind::Rv
        | OpKind::Xv
        | OpKind::Ov
        | OpKind::RaxAny => File::OperandSize,
        OpKind::Ez | OpKind::EaxZ => File::WordOrDword,
        OpKind::Ey | OpKind::Gy | OpKind::By | OpKind::Ry => File::ByW,
        OpKind::Rm => File::Native,
        OpKind::Sw | OpKind::Es | OpKind::Cs | OpKind::Ss | OpKind::Ds | OpKind::Fs | OpKind::Gs =>
            File::Segment,
        OpKind::Cn => File::Control,
        OpKind::Dn => File::Debug,
        OpKind::Pq | OpKind::Qd | OpKind::Qq | OpKind::Nq => File::Mmx,
        OpKind::Vx | OpKind::Hx | OpKind::Lx | OpKind::Ux | OpKind::Wx | OpKind::GatherL =>
            File::Vector,
        OpKind::Vo
        | OpKind::Ho
        | OpKind::Wo
        | OpKind::Wb
        | OpKind::Ww
        | OpKind::Wd
        | OpKind::Wq
        | OpKind::Wh
        | OpKind::W4
        | OpKind::W8
        | OpKind::GatherX
        | OpKind::Xmm0 => File::Xmm,
        OpKind::St | OpKind::StI => File::Stack,
        _ => File::Dword,
    }
}

/// Returns the number of bytes that an operand has in memory.
#[tactic(auto, unfolding(crate::specs::Kinds::memory_width))]
pub fn memory_width_of_kind(kind: OpKind) -> Width
    ensures value { result ≡ memory_width kind }
    ensures short { IsShort result }
{
    match kind {
        OpKind::Eb | OpKind::Kb | OpKind::Mb | OpKind::Ob | OpKind::Wb => Width::Bytes(1),
        OpKind::Ew | OpKind::Xv | OpKind::Kw | OpKind::Mw | OpKind::Ww => Width::Bytes(2),
        OpKind::Ed | OpKind::Md | OpKind::Qd | OpKind::Wd => Width::Bytes(4),
        OpKind::Eq | OpKind::Mq | OpKind::Qq | OpKind::Wq => Width::Bytes(8),
        OpKind::Ev | OpKind::Mv | OpKind::Ov => Width::OperandSize,
        OpKind::Ez => Width::WordOrDword,
        OpKind::Ey | OpKind::GatherX | OpKind::GatherL => Width::ByW,
        OpKind::Mt => Width::Bytes(10),
        OpKind::Mx | OpKind::Wx => Width::Vector,
        OpKind::Mo | OpKind::Wo => Width::Bytes(16),
        OpKind::Ma => Width::TwiceOperandSize,
        OpKind::Wh => Width::HalfVector,
        OpKind::W4 => Width::QuarterVector,
        OpKind::W8 => Width::EighthVector,
        _ => Width::Zero,
    }
}

/// Returns the number of bytes of the immediates that belong to an operand.
#[tactic(auto, unfolding(crate::specs::Kinds::immediate_width))]
pub fn immediate_width_of_kind(kind: OpKind) -> Width
    ensures value { result ≡ immediate_width kind }
    ensures short { IsShort result }
{
    match kind {
        OpKind::Ib | OpKind::Ibs | OpKind::Jb | OpKind::Lx => Width::Bytes(1),
        OpKind::Iw => Width::Bytes(2),
        OpKind::Iz | OpKind::Jz => Width::WordOrDword,
        OpKind::Iv => Width::OperandSize,
        OpKind::Ap => Width::PointerOfSize,
        _ => Width::Zero,
    }
}

/// Returns the number of the register that a fixed operand names.
#[tactic(auto, unfolding(crate::specs::Kinds::fixed_number))]
pub fn fixed_number_of_kind(kind: OpKind) -> u8
    ensures { result ≡ fixed_number kind }
{
    match kind {
        OpKind::Cl | OpKind::Cs => 1,
        OpKind::Dx | OpKind::Ss => 2,
        OpKind::Ds => 3,
        OpKind::Fs => 4,
        OpKind::Gs => 5,
        _ => 0,
    }
}
