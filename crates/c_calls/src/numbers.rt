//! Modes, styles, registers and other words as numbers, and back.

ghost use Rattle.std.specs.Prelude.{◌≡◌, ◌==◌, if◌then◌else◌};
ghost use Rattle.c_calls.specs.Numbers as spec;

use text_parts::style::Style;
use x86_values::{Bits, DispSize, Register, Rep, Segment};

/// The mode of so many bits.
#[tactic(auto, unfolding(crate::specs::Numbers::bits_numbered))]
pub(crate) fn bits_numbered(n: u32) -> Option<Bits>
    ensures { result ≡ spec.bits_numbered n }
{
    match n {
        16 => Some(Bits::B16),
        32 => Some(Bits::B32),
        64 => Some(Bits::B64),
        _ => None,
    }
}

/// The address size of a number.
#[tactic(auto, unfolding(crate::specs::Numbers::asize_numbered))]
pub(crate) fn asize_numbered(n: u8) -> Option<Option<Bits>>
    ensures { result ≡ spec.asize_numbered n }
{
    match n {
        0 => Some(None),
        16 => Some(Some(Bits::B16)),
        32 => Some(Some(Bits::B32)),
        64 => Some(Some(Bits::B64)),
        _ => None,
    }
}

/// The number of bits of a displacement.
pub(crate) fn disp_number(size: DispSize) -> u8
    ensures { result ≡ spec.disp_number size }
{
    match size {
        DispSize::D0 => 0,
        DispSize::D8 => 8,
        DispSize::D16 => 16,
        DispSize::D32 => 32,
        DispSize::D64 => 64,
    }
}

/// The size of a displacement of so many bits.
#[tactic(auto, unfolding(crate::specs::Numbers::disp_numbered))]
pub(crate) fn disp_numbered(n: u8) -> Option<DispSize>
    ensures { result ≡ spec.disp_numbered n }
{
    match n {
        0 => Some(DispSize::D0),
        8 => Some(DispSize::D8),
        16 => Some(DispSize::D16),
        32 => Some(DispSize::D32),
        64 => Some(DispSize::D64),
        _ => None,
    }
}

/// The style of a number: 0 Intel, 1 AT&T, 2 MASM.
#[tactic(auto, unfolding(crate::specs::Numbers::style_numbered))]
pub(crate) fn style_numbered(n: u32) -> Option<Style>
    ensures { result ≡ spec.style_numbered n }
{
    match n {
        0 => Some(Style::Intel),
        1 => Some(Style::Att),
        2 => Some(Style::Masm),
        _ => None,
    }
}

/// LOCK or not, by its number.
#[tactic(auto, unfolding(crate::specs::Numbers::lock_numbered))]
pub(crate) fn lock_numbered(n: u8) -> Option<bool>
    ensures { result ≡ spec.lock_numbered n }
{
    match n {
        0 => Some(false),
        1 => Some(true),
        _ => None,
    }
}

/// The byte of a repeat prefix, 0 without one.
pub(crate) fn rep_number(rep: Rep) -> u8
    ensures { result ≡ spec.rep_number rep }
{
    match rep {
        Rep::None => 0,
        Rep::F2 => 0xf2,
        Rep::F3 => 0xf3,
    }
}

/// The repeat prefix of a number.
#[tactic(auto, unfolding(crate::specs::Numbers::rep_numbered))]
pub(crate) fn rep_numbered(n: u8) -> Option<Rep>
    ensures { result ≡ spec.rep_numbered n }
{
    match n {
        0 => Some(Rep::None),
        0xf2 => Some(Rep::F2),
        0xf3 => Some(Rep::F3),
        _ => None,
    }
}

/// The number of a segment prefix, 0 without one.
pub(crate) fn prefix_number(segment: Option<Segment>) -> u8
    ensures { result ≡ spec.prefix_number segment }
{
    match segment {
        None => 0,
        Some(Segment::Es) => 1,
        Some(Segment::Cs) => 2,
        Some(Segment::Ss) => 3,
        Some(Segment::Ds) => 4,
        Some(Segment::Fs) => 5,
        Some(Segment::Gs) => 6,
    }
}

/// The segment prefix of a number.
#[tactic(auto, unfolding(crate::specs::Numbers::prefix_numbered))]
pub(crate) fn prefix_numbered(n: u8) -> Option<Option<Segment>>
    ensures { result ≡ spec.prefix_numbered n }
{
    match n {
        0 => Some(None),
        1 => Some(Some(Segment::Es)),
        2 => Some(Some(Segment::Cs)),
        3 => Some(Some(Segment::Ss)),
        4 => Some(Some(Segment::Ds)),
        5 => Some(Some(Segment::Fs)),
        6 => Some(Some(Segment::Gs)),
        _ => None,
    }
}

/// The number of a register's class, 1 to 14.
pub(crate) fn class_number(register: Register) -> u8
    ensures { result ≡ spec.class_number register }
{
    match register {
        Register::Low8(_) => 1,
        Register::High8(_) => 2,
        Register::R16(_) => 3,
        Register::R32(_) => 4,
        Register::R64(_) => 5,
        Register::Seg(_) => 6,
        Register::Cr(_) => 7,
        Register::Dr(_) => 8,
        Register::St(_) => 9,
        Register::Mm(_) => 10,
        Register::Xmm(_) => 11,
        Register::Ymm(_) => 12,
        Register::Eip => 13,
        Register::Rip => 14,
    }
}

/// The segment register of an encoded number.
#[tactic(auto, unfolding(crate::specs::Numbers::segment_register))]
fn segment_numbered(n: u8) -> Option<Register>
    ensures { result ≡ spec.segment_register n }
{
    match n {
        0 => Some(Register::ES),
        1 => Some(Register::CS),
        2 => Some(Register::SS),
        3 => Some(Register::DS),
        4 => Some(Register::FS),
        5 => Some(Register::GS),
        _ => None,
    }
}

/// A register that is the only one of its class.
fn lone(register: Register, n: u8) -> Option<Register>
    ensures { result ≡ (if n == 0 then Some register else None) }
{
    if n == 0 { Some(register) } else { None }
}

/// The register of a class and a number.
#[tactic(auto, unfolding(crate::specs::Numbers::register_numbered))]
pub(crate) fn register_numbered(class: u8, n: u8) -> Option<Register>
    ensures { result ≡ spec.register_numbered class n }
{
    match class {
        1 => Some(Register::Low8(n)),
        2 => Some(Register::High8(n)),
        3 => Some(Register::R16(n)),
        4 => Some(Register::R32(n)),
        5 => Some(Register::R64(n)),
        6 => segment_numbered(n),
        7 => Some(Register::Cr(n)),
        8 => Some(Register::Dr(n)),
        9 => Some(Register::St(n)),
        10 => Some(Register::Mm(n)),
        11 => Some(Register::Xmm(n)),
        12 => Some(Register::Ymm(n)),
        13 => lone(Register::Eip, n),
        14 => lone(Register::Rip, n),
        _ => None,
    }
}

/// The register of a class and a number, none if both are 0.
#[tactic(auto, unfolding(crate::specs::Numbers::base_numbered))]
pub(crate) fn base_numbered(class: u8, n: u8) -> Option<Option<Register>>
    ensures { result ≡ spec.base_numbered class n }
{
    if class == 0 {
        if n == 0 { Some(None) } else { None }
    } else {
        match register_numbered(class, n) {
            None => None,
            Some(register) => Some(Some(register)),
        }
    }
}
