//! The items of some bytes, in order.

ghost use Rattle.std.specs.Prelude.{◌≡◌, length, IsTrue};
ghost use Rattle.std.specs.Result.{ForOk};
ghost use Rattle.opcode_rows.specs.Allowed.{is_well_formed};

use crate::DecodeError;
use crate::by_mode::decode_in;
use x86_values::{Bits, Decoded, wrap};

/// An instruction among some bytes, or a single byte that starts none.
#[derive(Clone, Copy, PartialEq, Eq, Debug)]
pub struct Item<'a> {
    /// The address of the first byte.
    pub ip: u64,
    /// The bytes: those of the instruction, or the single one.
    pub bytes: &'a [u8],
    /// The instruction, or why none is read.
    pub reading: Result<Decoded, DecodeError>,
    ghost formed: { ForOk reading (λ d. IsTrue (is_well_formed d.instr)) },
}

/// Iterates over some bytes item by item. If an instruction starts at the current byte, the item is that instruction and the next item follows it.
/// Otherwise the item is a single byte.
///
/// ```
/// // push rbp, a byte that starts no instruction in 64-bit mode, ret
/// for item in Items::new(Bits::B64, 0x40_1000, b"\x55\x06\xc3") {
///     match item.reading {
///         Ok(read) => println!(rt; "{:x} {}", item.ip, read.len)?, // 401000 1, 401002 1
///         Err(why) => println!(rt; "{:x} {why}", item.ip)?,
///     }
/// }
/// ```
#[derive(Clone, Copy, Debug)]
pub struct Items<'a> {
    /// The mode.
    pub bits: Bits,
    /// The address of the next byte, taken modulo 2 to the number of bits of the mode.
    pub ip: u64,
    /// The bytes that are left.
    pub bytes: &'a [u8],
}

impl<'a> Items<'a> {
    /// Makes an iterator over the items of some bytes. The first byte has the address `ip`.
    pub fn new(bits: Bits, ip: u64, bytes: &'a [u8]) -> Self
        ensures mode { result.bits ≡ bits }
        ensures address { result.ip ≡ ip }
        ensures bytes { result.bytes.now ≡ bytes.now }
    {
        Items { bits, ip, bytes }
    }
}

impl<'a> Iterator for Items<'a> {
    ghost use Rattle.std.specs.Iterator.{at_most};
    ghost use Rattle.decoder.specs.Items.{GivesItem};

    type Item = Item<'a>;

    ghost next_gives = { GivesItem };

    ghost remaining = { λ s. at_most (length s.bytes.now) };

    /// Returns the next item: an instruction, or a single byte if none starts there.
    fn next(&mut self) -> Option<Item<'a>> {
        if self.bytes.is_empty() {
            return None;
        }
        let ip = wrap(self.bits, u128::from(self.ip));
        let reading = decode_in(self.bits, ip, self.bytes);
        let len = match reading {
            Ok(decoded) => decoded.len as usize,
            Err(_) => 1,
        };
        let (bytes, rest) = self.bytes.split_at(len);
        self.ip = wrap(self.bits, u128::from(ip) + len as u128);
        self.bytes = rest;
        Some(Item { ip, bytes, reading })
    }
}
