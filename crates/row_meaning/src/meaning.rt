//! What a fitting spelling means.

ghost use Rattle.std.specs.Prelude.{◌≡◌, ◌<◌, ◌≤◌, ◌+◌, length, Option, None, Some};
ghost use Rattle.row_meaning.specs.Meaning as spec;
ghost use Rattle.instruction_parts.specs.declared.row_types.Row.{Row};
ghost use Rattle.instruction_parts.specs.Bytes as bytes;
ghost use Rattle.instruction_parts.specs.Sizes.{state_size};

use crate::numbers::sign_extended;
use instruction_parts::kinds::File;
use instruction_parts::row_types::{LBit, Row};
use instruction_parts::sizes::{bit_w, state_size};
use instruction_parts::spelling::{ModRm, PrefixState};
use row_fit::tail_fits::{is_displacement_alone, with_high_bit};
use x86_values::{Bits, DispSize, Mem, Register, Segment, wrap};

/// The segment register of a number.
#[tactic(auto, unfolding(crate::specs::Meaning::segment_numbered))]
fn segment_numbered(n: u8) -> Segment
    ensures { result ≡ spec.segment_numbered n }
{
    match n {
        0 => Segment::Es,
        1 => Segment::Cs,
        2 => Segment::Ss,
        3 => Segment::Ds,
        4 => Segment::Fs,
        _ => Segment::Gs,
    }
}

/// Returns the general register of a size with a number.
#[tactic(auto, unfolding(crate::specs::Meaning::general_register))]
pub fn general_register(size: Bits, n: u8) -> Register
    ensures { result ≡ spec.general_register size n }
{
    match size {
        Bits::B16 => Register::R16(n),
        Bits::B32 => Register::R32(n),
        Bits::B64 => Register::R64(n),
    }
}

/// A byte register.
#[tactic(auto, unfolding(crate::specs::Meaning::byte_register))]
fn byte_register(rex: Option<u8>, n: u8) -> Register
    ensures { result ≡ spec.byte_register rex n }
{
    match rex {
        Some(_) => Register::Low8(n),
        None => {
            if n < 4 {
                Register::Low8(n)
            } else {
                Register::High8(n - 4)
            }
        }
    }
}

/// A vector register by the row's L.
#[tactic(auto, unfolding(crate::specs::Meaning::vector))]
fn vector(l: LBit, n: u8) -> Register
    ensures { result ≡ spec.vector l n }
{
    match l {
        LBit::L256 => Register::Ymm(n),
        _ => Register::Xmm(n),
    }
}

/// 16 at size 16, else 32.
fn word_or_dword(size: Bits) -> Bits
    ensures { result ≡ spec.word_or_dword size }
{
    match size {
        Bits::B16 => Bits::B16,
        _ => Bits::B32,
    }
}

/// Returns 64 if W is 1, else 32.
fn size_by_w(w: bool) -> Bits
    ensures { result ≡ spec.size_by_w w }
{
    if w { Bits::B64 } else { Bits::B32 }
}

/// 64 in 64-bit mode, else 32.
fn native_size(bits: Bits) -> Bits
    ensures { result ≡ spec.native_size bits }
{
    match bits {
        Bits::B64 => Bits::B64,
        _ => Bits::B32,
    }
}

/// Returns the register of a file with a number.
#[inline(always)]
pub fn register_of(bits: Bits, row: &Row, state: &PrefixState, file: File, n: u8) -> Register
    ensures { result ≡ spec.register_of bits row.now state.now file n }
{
    register_of_size(bits, state_size(bits, row, state), row.l, state, file, n)
}

/// Returns the register of a file with a number, given the operand size and the row's L.
#[inline(always)]
#[tactic(auto, unfolding(crate::specs::Meaning::register_of))]
pub fn register_of_size(
    bits: Bits,
    size: Bits,
    l: LBit,
    state: &PrefixState,
    file: File,
    n: u8,
) -> Register
    ensures { (row : Row) → spec.HasSizes bits state.now size l row → result ≡ spec.register_of bits row state.now file n }
{
    match file {
        File::Byte => byte_register(state.rex, n),
        File::Word => Register::R16(n),
        File::Dword => Register::R32(n),
        File::Qword => Register::R64(n),
        File::OperandSize => general_register(size, n),
        File::WordOrDword => general_register(word_or_dword(size), n),
        File::ByW => general_register(size_by_w(bit_w(bits, state)), n),
        File::Native => general_register(native_size(bits), n),
        File::Segment => Register::Seg(segment_numbered(n % 8)),
        File::Control => Register::Cr(n),
        File::Debug => Register::Dr(n),
        File::Stack => Register::St(n % 8),
        File::Mmx => Register::Mm(n % 8),
        File::Xmm => Register::Xmm(n),
        File::Vector => vector(l, n),
    }
}

/// Returns the displacement size of a number of bytes.
#[inline(always)]
#[tactic(auto, unfolding(crate::specs::Meaning::disp_size_of))]
pub fn disp_size_of(n: usize) -> DispSize
    ensures { result ≡ spec.disp_size_of n }
{
    match n {
        0 => DispSize::D0,
        1 => DispSize::D8,
        2 => DispSize::D16,
        4 => DispSize::D32,
        _ => DispSize::D64,
    }
}

/// The base of a 16-bit address.
#[tactic(auto, unfolding(crate::specs::Meaning::base_16))]
fn base_16(rm: u8) -> Register
    ensures { result ≡ spec.base_16 rm }
{
    match rm {
        0 => Register::R16(3),
        1 => Register::R16(3),
        2 => Register::R16(5),
        3 => Register::R16(5),
        4 => Register::R16(6),
        5 => Register::R16(7),
        6 => Register::R16(5),
        _ => Register::R16(3),
    }
}

/// Returns its index, if the address is a sum.
#[tactic(auto, unfolding(crate::specs::Meaning::index_16))]
fn index_16(rm: u8) -> Option<Register>
    ensures { result ≡ spec.index_16 rm }
{
    match rm {
        0 => Some(Register::R16(6)),
        1 => Some(Register::R16(7)),
        2 => Some(Register::R16(6)),
        3 => Some(Register::R16(7)),
        _ => None,
    }
}

/// Returns an address in 16-bit addressing.
#[tactic(auto, unfolding(crate::specs::Meaning::memory_16))]
pub fn memory_16(m: ModRm, disp: &[u8]) -> Mem
    requires { length disp.now ≤ 8 }
    ensures { result ≡ spec.memory_16 m disp.now }
{
    if is_displacement_alone(Bits::B16, m, None) {
        Mem {
            base: None,
            index: None,
            scale: 1,
            disp: sign_extended(Bits::B16, disp),
            disp_size: DispSize::D16,
        }
    } else {
        Mem {
            base: Some(base_16(m.rm)),
            index: index_16(m.rm),
            scale: 1,
            disp: sign_extended(Bits::B16, disp),
            disp_size: disp_size_of(disp.len()),
        }
    }
}

/// Returns the sum of an address and a sign-extended distance, modulo 2 to a size.
#[inline(always)]
pub fn target(size: Bits, next: u64, distance: &[u8]) -> u64
    requires { length distance.now ≤ 8 }
    ensures { result ≡ spec.target_of size next distance.now }
{
    wrap(
        size,
        next as u128 + sign_extended(Bits::B64, distance) as u128,
    )
}

/// Returns an address without base and index.
#[inline(always)]
#[tactic(auto, unfolding(crate::specs::Meaning::ip_or_absolute))]
pub fn ip_or_absolute(bits: Bits, asize: Bits, next: u64, disp: &[u8]) -> Mem
    requires { length disp.now ≤ 8 }
    ensures { result ≡ spec.ip_or_absolute bits asize next disp.now }
{
    match bits {
        Bits::B64 => Mem {
            base: Some(match asize {
                Bits::B64 => Register::Rip,
                _ => Register::Eip,
            }),
            index: None,
            scale: 1,
            disp: target(asize, next, disp),
            disp_size: DispSize::D32,
        },
        _ => Mem {
            base: None,
            index: None,
            scale: 1,
            disp: sign_extended(asize, disp),
            disp_size: DispSize::D32,
        },
    }
}
