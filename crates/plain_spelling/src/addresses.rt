//! How an address is encoded: the base, index and scale of a ModRM and SIB, their displacements, and the fields of the plain encoding (Intel SDM
//! volume 2, tables 2-1 to 2-3 and 2-5).

ghost use Rattle.std.specs.Prelude.{◌≡◌, ◌≤◌};
ghost use Rattle.row_meaning.specs.Meaning as meaning;
ghost use Rattle.plain_spelling.specs.Addresses as spec;
ghost use Rattle.plain_spelling.specs.Expressible.{told_size};

use crate::forms::is_scale;
use crate::numbers::{is_extended_of, is_of_width};
use crate::registers::register_number;
use instruction_parts::counting::{is_16, is_64};
use instruction_parts::kinds::{File, Method};
use instruction_parts::row_types::{LBit, Row};
use instruction_parts::sizes::size_bytes;
use instruction_parts::spelling::Sib;
use x86_values::{Bits, DispSize, Mem, Register, same_bits, same_register};

/// How ModRM encodes an address.
#[derive(Clone, Copy)]
pub enum AddressForm {
    /// Relative to RIP or EIP, of this size (2.2.1.6).
    Relative(Bits),
    /// A displacement without a register.
    Alone,
    /// A register or a sum of two in 16-bit addressing, by the number of its first register (table 2-1).
    Short(u8),
    /// Base, index or both in 32 or 64-bit addressing (tables 2-2 and 2-3).
    Wide,
}

/// The values of ModRM.mod, ModRM.rm and the SIB.
#[derive(Clone, Copy)]
pub struct AddressFields {
    pub mode3: u8,
    pub rm: u8,
    pub sib: Option<Sib>,
}

/// Returns the number of registers in a mode: 16 in 64-bit mode, else 8 (Intel SDM volume 2, 2.2.1.2).
#[tactic(auto, unfolding(crate::specs::Addresses::register_count))]
pub fn register_count(bits: Bits) -> u16
    ensures value { result ≡ spec.register_count bits }
    ensures small { result ≤ 16 }
{
    match bits {
        Bits::B64 => 16,
        _ => 8,
    }
}

/// Returns whether an address size exists in the mode: the default one, or the one under 67 (Intel SDM volume 2, 2.1.1, group 4).
#[tactic(auto, unfolding(crate::specs::Addresses::has_address_size))]
pub fn has_address_size(bits: Bits, asize: Bits) -> bool
    ensures { result ≡ spec.has_address_size bits asize }
{
    match (bits, asize) {
        (Bits::B64, Bits::B16) => false,
        (Bits::B64, _) => true,
        (_, Bits::B64) => false,
        _ => true,
    }
}

/// The size of a general register; the others have none.
#[inline(always)]
#[tactic(auto, unfolding(crate::specs::Addresses::general_size))]
fn general_size(register: Register) -> Option<Bits>
    ensures { result ≡ spec.general_size register }
{
    match register {
        Register::R16(_) => Some(Bits::B16),
        Register::R32(_) => Some(Bits::B32),
        Register::R64(_) => Some(Bits::B64),
        _ => None,
    }
}

/// Returns the size of a general register, if it is one.
fn general_size_if(register: Option<Register>) -> Option<Bits>
    ensures { result ≡ spec.general_size_if register }
{
    match register {
        None => None,
        Some(register) => general_size(register),
    }
}

/// The address size of RIP and EIP.
#[tactic(auto, unfolding(crate::specs::Addresses::pointer_size))]
fn pointer_size(register: Register) -> Option<Bits>
    ensures { result ≡ spec.pointer_size register }
{
    match register {
        Register::Rip => Some(Bits::B64),
        Register::Eip => Some(Bits::B32),
        _ => None,
    }
}

/// The address size that the general registers of an address show.
#[tactic(auto, unfolding(crate::specs::Addresses::shown_size))]
fn shown_size(memory: Mem) -> Option<Bits>
    ensures { result ≡ spec.shown_size memory }
{
    match general_size_if(memory.base) {
        Some(size) => Some(size),
        None => general_size_if(memory.index),
    }
}

/// Returns the address size that an address shows by a general register, RIP or EIP.
#[inline(always)]
#[tactic(auto, unfolding(crate::specs::Expressible::told_size))]
pub fn told_size(memory: Mem) -> Option<Bits>
    ensures { result ≡ told_size memory }
{
    match memory.base {
        None => shown_size(memory),
        Some(register) => match pointer_size(register) {
            Some(size) => Some(size),
            None => shown_size(memory),
        },
    }
}

/// Returns the address size of an encoded address: the one that its general registers show, or else the instruction's, or else the mode's.
#[inline(always)]
#[tactic(auto, unfolding(crate::specs::Addresses::written_size))]
pub fn written_size(bits: Bits, asize: Option<Bits>, memory: Mem) -> Bits
    ensures { result ≡ spec.written_size bits asize memory }
{
    match shown_size(memory) {
        Some(size) => size,
        None => match asize {
            Some(size) => size,
            None => bits,
        },
    }
}

/// Returns the form that a base and an index require.
#[tactic(auto, unfolding(crate::specs::Addresses::form_of))]
pub fn form_of(base: Option<Register>, index: Option<Register>) -> AddressForm
    ensures { result ≡ spec.form_of base index }
{
    match base {
        None => match index {
            None => AddressForm::Alone,
            Some(_) => AddressForm::Wide,
        },
        Some(Register::Rip) => AddressForm::Relative(Bits::B64),
        Some(Register::Eip) => AddressForm::Relative(Bits::B32),
        Some(Register::R16(n)) => AddressForm::Short(n),
        Some(_) => AddressForm::Wide,
    }
}

/// The field rm of a lone register of 16-bit addressing: SI, DI, BP, BX.
#[tactic(auto, unfolding(crate::specs::Addresses::rm_of_one))]
fn rm_of_one(base: u8) -> Option<u8>
    ensures { result ≡ spec.rm_of_one base }
{
    match base {
        6 => Some(4),
        7 => Some(5),
        5 => Some(6),
        3 => Some(7),
        _ => None,
    }
}

/// The field rm of a sum: BX or BP, and SI or DI.
#[tactic(auto, unfolding(crate::specs::Addresses::rm_of_two))]
fn rm_of_two(base: u8, index: u8) -> Option<u8>
    ensures { result ≡ spec.rm_of_two base index }
{
    if base == 3 {
        if index == 6 {
            Some(0)
        } else if index == 7 {
            Some(1)
        } else {
            None
        }
    } else if base == 5 {
        if index == 6 {
            Some(2)
        } else if index == 7 {
            Some(3)
        } else {
            None
        }
    } else {
        None
    }
}

/// Returns the field rm of 16-bit addressing, given the number of the first register and the optional second register.
#[tactic(auto, unfolding(crate::specs::Addresses::rm_of_short))]
fn rm_of_short(base: u8, index: Option<Register>) -> Option<u8>
    ensures { result ≡ spec.rm_of_short base index }
{
    match index {
        None => rm_of_one(base),
        Some(Register::R16(index)) => rm_of_two(base, index),
        Some(_) => None,
    }
}

/// Returns whether a register is a general register of an address size that the mode has.
#[inline(always)]
#[tactic(auto, unfolding(crate::specs::Addresses::is_address_register))]
pub fn is_address_register(bits: Bits, asize: Bits, register: Register) -> bool
    ensures { result ≡ spec.is_address_register bits asize register }
{
    (match general_size(register) {
        None => false,
        Some(size) => same_bits(size, asize),
    }) && register_number(register) < register_count(bits)
}

/// Whether a base is none, or a register of the address size.
#[tactic(auto, unfolding(crate::specs::Addresses::is_base))]
fn is_base(bits: Bits, asize: Bits, base: Option<Register>) -> bool
    ensures { result ≡ spec.is_base bits asize base }
{
    match base {
        None => true,
        Some(register) => is_address_register(bits, asize, register),
    }
}

/// Whether an index is none, or a register of the address size other than number 4 (table 2-3).
#[tactic(auto, unfolding(crate::specs::Addresses::is_index))]
fn is_index(bits: Bits, asize: Bits, index: Option<Register>) -> bool
    ensures { result ≡ spec.is_index bits asize index }
{
    match index {
        None => true,
        Some(register) => is_address_register(bits, asize, register)
            && !(register_number(register) == 4),
    }
}

/// Whether a scale is one of a SIB, or 1 without an index.
#[tactic(auto, unfolding(crate::specs::Addresses::scale_suits))]
fn scale_suits(index: Option<Register>, scale: u8) -> bool
    ensures { result ≡ spec.scale_suits index scale }
{
    match index {
        None => scale == 1,
        Some(_) => is_scale(scale),
    }
}

/// Whether an address size is 32 or 64 and one of the mode.
#[tactic(auto, unfolding(crate::specs::Addresses::is_wide_size))]
fn is_wide_size(bits: Bits, asize: Bits) -> bool
    ensures { result ≡ spec.is_wide_size bits asize }
{
    has_address_size(bits, asize) && !is_16(asize)
}

/// Whether base, index and scale are a shape of 32 and 64-bit addressing.
#[tactic(auto, unfolding(crate::specs::Addresses::is_wide_shape))]
fn is_wide_shape(bits: Bits, memory: Mem) -> bool
    ensures { result ≡ spec.is_wide_shape bits memory }
{
    match shown_size(memory) {
        None => false,
        Some(asize) => {
            is_wide_size(bits, asize)
                && is_base(bits, asize, memory.base)
                && is_index(bits, asize, memory.index)
                && scale_suits(memory.index, memory.scale)
        }
    }
}

/// Returns whether ModRM can encode base, index and scale: RIP and EIP without an index and in 64-bit mode, 16-bit addressing elsewhere.
#[tactic(auto, unfolding(crate::specs::Addresses::is_shape))]
fn is_shape(bits: Bits, memory: Mem) -> bool
    ensures { result ≡ spec.is_shape bits memory }
{
    match form_of(memory.base, memory.index) {
        AddressForm::Relative(_) => is_64(bits) && memory.index.is_none() && memory.scale == 1,
        AddressForm::Alone => memory.scale == 1,
        AddressForm::Short(n) => !is_64(bits)
            && rm_of_short(n, memory.index).is_some()
            && memory.scale == 1,
        AddressForm::Wide => is_wide_shape(bits, memory),
    }
}

/// The vector register of a row with a number.
#[tactic(auto, unfolding(row_meaning::specs::Meaning::vector))]
fn vector(l: LBit, n: u8) -> Register
    ensures { result ≡ meaning.vector l n }
{
    match l {
        LBit::L256 => Register::Ymm(n),
        _ => Register::Xmm(n),
    }
}

/// The vector register of a file with a number: XMM, or the row's vector.
#[tactic(auto, unfolding(crate::specs::Addresses::index_named))]
fn index_named(row: &Row, file: File, n: u8) -> Register
    ensures { result ≡ spec.index_named row.now file n }
{
    match file {
        File::Xmm => Register::Xmm(n),
        _ => vector(row.l, n),
    }
}

/// Whether the index of a gather is a vector register of its kind, with a number of the mode.
#[tactic(auto, unfolding(crate::specs::Addresses::is_vector_index))]
fn is_vector_index(bits: Bits, row: &Row, file: File, index: Option<Register>) -> bool
    ensures { result ≡ spec.is_vector_index bits row.now file index }
{
    match index {
        None => false,
        Some(register) => {
            let n = register_number(register);
            n < register_count(bits) && same_register(register, index_named(row, file, n as u8))
        }
    }
}

/// Whether the base of a gather is none, or a general register of 32 or 64-bit addressing.
#[tactic(auto, unfolding(crate::specs::Addresses::is_gather_base))]
fn is_gather_base(bits: Bits, base: Option<Register>) -> bool
    ensures { result ≡ spec.is_gather_base bits base }
{
    match base {
        None => true,
        Some(register) => match general_size(register) {
            None => false,
            Some(asize) => {
                is_wide_size(bits, asize) && is_address_register(bits, asize, register)
            }
        },
    }
}

/// Whether base, index and scale are an address of a gather (2.3.12).
#[tactic(auto, unfolding(crate::specs::Addresses::is_gather_shape))]
fn is_gather_shape(bits: Bits, row: &Row, file: File, memory: Mem) -> bool
    ensures { result ≡ spec.is_gather_shape bits row.now file memory }
{
    is_gather_base(bits, memory.base)
        && is_vector_index(bits, row, file, memory.index)
        && is_scale(memory.scale)
}

/// Returns whether base, index and scale suit an operand with this method.
#[tactic(auto, unfolding(crate::specs::Addresses::shape_suits))]
pub fn shape_suits(bits: Bits, row: &Row, method: Method, file: File, memory: Mem) -> bool
    ensures { result ≡ spec.shape_suits bits row.now method file memory }
{
    match method {
        Method::Gather => is_gather_shape(bits, row, file, memory),
        Method::Offset => { memory.base.is_none() && memory.index.is_none() && memory.scale == 1 }
        _ => is_shape(bits, memory),
    }
}

/// Returns the number of bytes of a displacement.
#[tactic(auto, unfolding(crate::specs::Addresses::displacement_count))]
pub fn displacement_count(size: DispSize) -> u8
    ensures value { result ≡ spec.displacement_count size }
    ensures small { result ≤ 8 }
{
    match size {
        DispSize::D0 => 0,
        DispSize::D8 => 1,
        DispSize::D16 => 2,
        DispSize::D32 => 4,
        DispSize::D64 => 8,
    }
}

/// Whether an address by base and index offers a displacement of n bytes (tables 2-2 and 2-3).
#[tactic(auto, unfolding(crate::specs::Addresses::wide_offers))]
fn wide_offers(base: Option<Register>, n: u8) -> bool
    ensures { result ≡ spec.wide_offers base n }
{
    match base {
        None => n == 4,
        Some(register) => n == 1 || n == 4 || (n == 0 && !(register_number(register) % 8 == 5)),
    }
}

/// Whether 16-bit addressing offers a displacement of n bytes (table 2-1).
#[tactic(auto, unfolding(crate::specs::Addresses::short_offers))]
fn short_offers(rm: Option<u8>, n: u8) -> bool
    ensures { result ≡ spec.short_offers rm n }
{
    n == 1
        || n == 2
        || (n == 0
            && (match rm {
                None => true,
                Some(rm) => !(rm == 6),
            }))
}

/// Whether an address by ModRM offers a displacement of n bytes.
#[tactic(auto, unfolding(crate::specs::Addresses::form_offers))]
fn form_offers(asize: Bits, memory: Mem, n: u8) -> bool
    ensures { result ≡ spec.form_offers asize memory n }
{
    match form_of(memory.base, memory.index) {
        AddressForm::Relative(_) => n == 4,
        AddressForm::Alone => n == (if is_16(asize) { 2 } else { 4 }),
        AddressForm::Short(base) => short_offers(rm_of_short(base, memory.index), n),
        AddressForm::Wide => wide_offers(memory.base, n),
    }
}

/// Whether an operand that is read so offers a displacement of n bytes.
#[tactic(auto, unfolding(crate::specs::Addresses::offers))]
fn offers(asize: Bits, method: Method, memory: Mem, n: u8) -> bool
    ensures { result ≡ spec.offers asize method memory n }
{
    match method {
        Method::Gather => wide_offers(memory.base, n),
        Method::Offset => n == size_bytes(asize),
        _ => form_offers(asize, memory, n),
    }
}

/// Whether the displacement is a value of its bytes at the address size; at RIP and EIP it is an address.
#[tactic(auto, unfolding(crate::specs::Addresses::is_displacement))]
fn is_displacement(asize: Bits, memory: Mem) -> bool
    ensures { result ≡ spec.is_displacement asize memory }
{
    match form_of(memory.base, memory.index) {
        AddressForm::Relative(size) => is_of_width(size, memory.disp),
        _ => is_extended_of(displacement_count(memory.disp_size), asize, memory.disp),
    }
}

/// Returns whether the shape allows the displacement's size, and the value fits it.
#[tactic(auto, unfolding(crate::specs::Addresses::displacement_suits))]
pub fn displacement_suits(asize: Bits, method: Method, memory: Mem) -> bool
    ensures { result ≡ spec.displacement_suits asize method memory }
{
    offers(asize, method, memory, displacement_count(memory.disp_size))
        && is_displacement(asize, memory)
}

/// Returns whether an operand with this method, if it is memory, is encoded by ModRM without a gather index.
#[inline(always)]
pub fn is_by_modrm(method: Method) -> bool
    ensures { result ≡ spec.is_by_modrm method }
{
    match method {
        Method::RegisterOrMemory | Method::MemoryOnly => true,
        _ => false,
    }
}

/// Whether the base is a general register of 64 bits, and there is no index.
#[inline(always)]
fn is_sole_base(base: Option<Register>, index: Option<Register>) -> bool
    ensures { result ≡ spec.is_sole_base base index }
{
    match (base, index) {
        (Some(Register::R64(_)), None) => true,
        _ => false,
    }
}

/// Returns whether the address is a lone 64-bit base in 64-bit mode with a displacement that it allows.
///
/// Most addresses are of this form, and this one test decides all conditions on them.
#[inline(always)]
#[tactic(auto, unfolding(crate::specs::Addresses::is_based))]
pub fn is_based(bits: Bits, memory: &Mem) -> bool
    ensures { result ≡ spec.is_based bits memory.now }
{
    let count = displacement_count(memory.disp_size);
    is_64(bits)
        && is_sole_base(memory.base, memory.index)
        && is_base(bits, Bits::B64, memory.base)
        && memory.scale == 1
        && wide_offers(memory.base, count)
        && is_extended_of(count, Bits::B64, memory.disp)
}

/// The field mod by the bytes of a displacement beside a register: none, one, or the full length (2.1.5).
#[tactic(auto, unfolding(crate::specs::Addresses::mode_of_count))]
fn mode_of_count(n: u8) -> u8
    ensures { result ≡ spec.mode_of_count n }
{
    if n == 0 {
        0
    } else if n == 1 {
        1
    } else {
        2
    }
}

/// The field scale of a SIB.
#[tactic(auto, unfolding(crate::specs::Addresses::scale_field))]
fn scale_field(scale: u8) -> u8
    ensures { result ≡ spec.scale_field scale }
{
    if scale == 1 {
        0
    } else if scale == 2 {
        1
    } else if scale == 4 {
        2
    } else {
        3
    }
}

/// The field base of a SIB, 5 without a base.
#[tactic(auto, unfolding(crate::specs::Addresses::base_bits))]
fn base_bits(base: Option<Register>) -> u8
    ensures { result ≡ spec.base_bits base }
{
    match base {
        None => 5,
        Some(register) => (register_number(register) % 8) as u8,
    }
}

/// The field index of a SIB, 4 without an index.
#[tactic(auto, unfolding(crate::specs::Addresses::index_bits))]
fn index_bits(index: Option<Register>) -> u8
    ensures { result ≡ spec.index_bits index }
{
    match index {
        None => 4,
        Some(register) => (register_number(register) % 8) as u8,
    }
}

/// The plain SIB: its scale is 0 without an index.
#[tactic(auto, unfolding(crate::specs::Addresses::plain_sib))]
fn plain_sib(memory: Mem) -> Sib
    ensures { result ≡ spec.plain_sib memory }
{
    Sib {
        scale: match memory.index {
            None => 0,
            Some(_) => scale_field(memory.scale),
        },
        index: index_bits(memory.index),
        base: base_bits(memory.base),
    }
}

/// Whether an address of base and index needs a SIB: with an index, without a base, and with a base whose low three bits are 4.
#[tactic(auto, unfolding(crate::specs::Addresses::wide_needs_sib))]
fn wide_needs_sib(memory: Mem) -> bool
    ensures { result ≡ spec.wide_needs_sib memory }
{
    memory.index.is_some() || memory.base.is_none() || base_bits(memory.base) == 4
}

/// The fields in 32 and 64-bit addressing; without a base mod is 0.
#[tactic(auto, unfolding(crate::specs::Addresses::wide_fields))]
fn wide_fields(memory: Mem) -> AddressFields
    ensures { result ≡ spec.wide_fields memory }
{
    let mode3 = match memory.base {
        None => 0,
        Some(_) => mode_of_count(displacement_count(memory.disp_size)),
    };
    if wide_needs_sib(memory) {
        AddressFields {
            mode3,
            rm: 4,
            sib: Some(plain_sib(memory)),
        }
    } else {
        AddressFields {
            mode3,
            rm: base_bits(memory.base),
            sib: None,
        }
    }
}

/// Returns the fields of a displacement alone: rm 6 in 16-bit addressing, rm 5 in 32-bit modes, and a SIB in 64-bit mode, where rm 5 is relative.
#[tactic(auto, unfolding(crate::specs::Addresses::alone_fields))]
fn alone_fields(bits: Bits, asize: Bits, memory: Mem) -> AddressFields
    ensures { result ≡ spec.alone_fields bits asize memory }
{
    if is_16(asize) {
        AddressFields {
            mode3: 0,
            rm: 6,
            sib: None,
        }
    } else if is_64(bits) {
        AddressFields {
            mode3: 0,
            rm: 4,
            sib: Some(plain_sib(memory)),
        }
    } else {
        AddressFields {
            mode3: 0,
            rm: 5,
            sib: None,
        }
    }
}

/// Returns a number, or 0 if there is none.
fn or_zero(n: Option<u8>) -> u8
    ensures { result ≡ spec.or_zero n }
{
    match n {
        None => 0,
        Some(n) => n,
    }
}

/// Returns the plain fields of an address of this address size.
#[inline(always)]
#[tactic(auto, unfolding(crate::specs::Addresses::address_fields))]
pub fn address_fields(bits: Bits, asize: Bits, memory: Mem) -> AddressFields
    ensures { result ≡ spec.address_fields bits asize memory }
{
    match form_of(memory.base, memory.index) {
        AddressForm::Relative(_) => AddressFields {
            mode3: 0,
            rm: 5,
            sib: None,
        },
        AddressForm::Alone => alone_fields(bits, asize, memory),
        AddressForm::Short(base) => AddressFields {
            mode3: mode_of_count(displacement_count(memory.disp_size)),
            rm: or_zero(rm_of_short(base, memory.index)),
            sib: None,
        },
        AddressForm::Wide => wide_fields(memory),
    }
}
