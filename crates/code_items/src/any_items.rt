//! The instructions of some code, of the table and without a row.

ghost use Rattle.std.specs.Prelude.{◌≡◌, ◌<◌, ◌≤◌, length, take, IsTrue, IfOk, MatchResult};
ghost use Rattle.unlisted.specs.Measured as measured;
ghost use Rattle.code_items.specs.AnyItems as spec;
ghost use Rattle.code_items.specs.AnyItems.{HasAnyItems, IsAnyAnswer, IsAnyReadRefusal, IsUnlistedAnswer};

use crate::reading::ReadError;
use arrayvec::ArrayVec;
use decoder::reading_laws::wrapped_addresses_read_alike;
use decoder::{DecodeError, decode_in};
use instruction_parts::append::append_few;
use move_goals::Placed;
use std::alloc::Global;
use unlisted::{Reference, Relative, Shape, measure};
use x86_values::laws::wrapped_twice;
use x86_values::{Bits, wrap};

/// An instruction of some code that the opcode table leaves out.
#[derive(Drop)]
pub struct UnlistedItem {
    /// The address of its first byte.
    pub ip: u64,
    /// Its length, its kind, and its number that is relative to the address after it.
    pub shape: Shape,
    /// Its bytes.
    pub bytes: ArrayVec<u8, 15>,
}

/// An instruction of some code.
#[derive(Drop)]
pub enum AnyItem {
    /// One of the table.
    Listed(Placed),
    /// One that the table leaves out.
    Unlisted(UnlistedItem),
}

/// Returns the address of the first byte of an instruction.
pub fn item_ip(item: &AnyItem) -> u64
    ensures { result ≡ spec.item_ip item.now }
{
    match item {
        AnyItem::Listed(placed) => placed.ip,
        AnyItem::Unlisted(own) => own.ip,
    }
}

/// Returns the length of an instruction, 1 to 15 bytes if it was read.
pub fn item_len(item: &AnyItem) -> u8
    ensures { result ≡ spec.item_len item.now }
{
    match item {
        AnyItem::Listed(placed) => placed.len,
        AnyItem::Unlisted(own) => own.shape.len,
    }
}

/// The size of the address that a number refers to.
pub(crate) fn reference_size(bits: Bits, to: Reference) -> Bits
    ensures { result ≡ measured.reference_size bits to }
{
    match to {
        Reference::Rip => Bits::B64,
        Reference::Eip => Bits::B32,
        Reference::Branch => bits,
    }
}

/// Whether an instruction with such a number can be moved.
fn is_movable(bits: Bits, relative: Option<Relative>) -> bool
    ensures { result ≡ spec.is_movable bits relative }
{
    match relative {
        None => true,
        Some(relative) => {
            relative.len == 4 || matches!(reference_size(bits, relative.to), Bits::B16)
        }
    }
}

/// The instruction with a shape at the front of some bytes.
fn unlisted_with(ip: u64, bytes: &[u8], shape: Shape) -> UnlistedItem
    requires some { shape.len ≤ 15 }
    requires within { shape.len ≤ length bytes.now }
    ensures ip { result.ip ≡ ip }
    ensures shape { result.shape ≡ shape }
    ensures bytes { result.bytes.items ≡ take shape.len bytes.now }
{
    let mut own = ArrayVec::new();
    append_few(&mut own, &bytes[..usize::from(shape.len)]);
    UnlistedItem {
        ip,
        shape,
        bytes: own,
    }
}

/// The instruction without a row at the front of some bytes, if one is measured there that can be moved.
fn unlisted_item(bits: Bits, ip: u64, bytes: &[u8]) -> Option<UnlistedItem>
    ensures { IsUnlistedAnswer bits ip bytes.now result }
{
    match measure(bits, bytes) {
        Ok(shape) => {
            if is_movable(bits, shape.relative) {
                Some(unlisted_with(ip, bytes, shape))
            } else {
                None
            }
        }
        Err(_) => None,
    }
}

/// Decodes the instruction at the front of some bytes like `decode_in`, and measures it if the opcode table leaves it out (`unlisted::measure`).
///
/// `ip` is its address. The error is the decoder's. An XBEGIN with a 16-bit distance outside 16-bit mode counts as no instruction.
pub fn read_any(bits: Bits, ip: u64, bytes: &[u8]) -> Result<AnyItem, DecodeError>
    ensures answer { IsAnyAnswer bits ip bytes.now result }
    ensures formed { IfOk result (λ item. IsTrue (spec.is_any_formed item)) }
{
    match decode_in(bits, ip, bytes) {
        Ok(read) => Ok(AnyItem::Listed(Placed {
            ip,
            len: read.len,
            instr: read.instr,
        })),
        Err(error) => match unlisted_item(bits, ip, bytes) {
            Some(item) => Ok(AnyItem::Unlisted(item)),
            None => Err(error),
        },
    }
}

/// Decodes all instructions of some code like [`read_items`](crate::read_items), and measures those that the opcode table leaves out
/// (`unlisted::measure`).
///
/// `ip` is the address of the first byte. Addresses wrap at the address size of the mode.
///
/// Errors: `BadCode` reports the first offset at which neither starts; its error is the decoder's. An XBEGIN with a 16-bit distance outside 16-bit mode
/// counts as none. `Memory` can occur at any point.
pub fn read_any_items(
    alloc: Global,
    bits: Bits,
    ip: u64,
    bytes: &[u8],
) -> Result<Vec<AnyItem>, ReadError>
    ensures { MatchResult result (λ list. HasAnyItems bits ip bytes.now list.items) (λ why. IsAnyReadRefusal bits ip bytes.now why) }
{
    wrapped_twice();
    let mut items = Vec::new(alloc);
    let mut at: usize = 0;
    while at < bytes.len() {
        let address = wrap(bits, u128::from(ip) + at as u128);
        let (_, rest) = bytes.split_at(at);
        match read_any(bits, address, rest) {
            Ok(item) => {
                at += usize::from(item_len(&item));
                match items.push(item) {
                    Ok(()) => {}
                    Err(_) => return Err(ReadError::Memory),
                }
            }
            Err(error) => {
                return Err(ReadError::BadCode {
                    at: at as u64,
                    error,
                });
            }
        }
    }
    Ok(items)
}
