//! A decoder for consecutive instructions.

ghost use Rattle.std.specs.Prelude.{◌≡◌, ◌+◌, ◌<◌, ◌≤◌, ◌↔◌, List, length, drop, IsTrue, IfOk, Err};
ghost use Rattle.x86_values.specs.Wrapping.{modulo_width};
ghost use Rattle.prefixes.specs.Answer.{is_mode, mode_of};
ghost use Rattle.opcode_rows.specs.Allowed.{is_well_formed};
ghost use Rattle.opcode_rows.specs.Reading.{IsRead};
ghost use Rattle.decoder.specs.Answer.{reading_of, length_of, IsOnlyReading};
ghost use Rattle.decoder.specs.Cursor.{Cursor};

use crate::DecodeError;
use crate::reading::decode;
use prefixes::mode_of;
use std::marker::Model;
use x86_values::{Decoded, wrap};

/// Decodes consecutive instructions of some bytes. `BITS` is the mode: 16, 32 or 64.
///
/// ```
/// let mut decoder = Decoder::<64>::new(b"\x55\xe8\xf6\x0f\x00\x00", 0x40_1000);
/// let push = decoder.decode()?;
/// let call = decoder.decode()?;
/// println!(rt; "{} {} {:x}", push.len, call.len, decoder.ip())?; // 1 5 401006
/// ```
#[derive(Drop)]
pub struct Decoder<'a, const BITS: u32> {
    bytes: &'a [u8],
    ip: u64,
    position: usize,
}

impl<'a, const BITS: u32> Model for Decoder<'a, BITS> {
    ghost Value = { Cursor };

    ghost view = { λ d. record { bytes = d.bytes.now; ip = d.ip; position = d.position } };

    ghost invariant = { λ d. d.position ≤ length d.bytes.now };
}

impl<'a, const BITS: u32> Decoder<'a, BITS> {
    /// Makes a decoder at the first byte, whose address is `ip`.
    pub fn new(bytes: &'a [u8], ip: u64) -> Self
        ensures { result ≡ record { bytes = bytes.now; ip = ip; position = 0 } }
    {
        Decoder {
            bytes,
            ip,
            position: 0,
        }
    }

    /// Returns the offset of the next byte to decode.
    #[inline]
    pub fn position(&self) -> usize
        ensures value { result ≡ self.now.position }
        ensures within { result ≤ length self.now.bytes }
    {
        self.position
    }

    /// Returns the address of the next byte to decode. Addresses wrap at the address size of the mode.
    #[inline]
    pub fn ip(&self) -> u64
        ensures { result ≡ modulo_width (mode_of BITS) (self.now.ip + self.now.position) }
    {
        let address = self.position as u128 + u128::from(self.ip);
        wrap(mode_of::<BITS>(), address)
    }

    /// Returns whether bytes remain.
    #[inline]
    pub fn can_decode(&self) -> bool
        ensures { IsTrue result ↔ (self.now.position < length self.now.bytes) }
    {
        self.position < self.bytes.len()
    }

    /// Moves to offset `p`, which must be at most the number of bytes.
    #[inline]
    pub fn set_position(&mut self, p: usize)
        requires { p ≤ length self.old.bytes }
        ensures { self.new ≡ record self.old { position = p } }
    {
        self.position = p;
    }

    /// Skips `n` bytes, which must be there.
    #[inline]
    pub fn skip(&mut self, n: usize)
        requires { self.old.position + n ≤ length self.old.bytes }
        ensures { self.new ≡ record self.old { position = self.old.position + n } }
    {
        self.position += n;
    }

    /// Decodes the instruction at the current position, and advances by its length.
    ///
    /// The address of the instruction is [`ip`](Self::ip). After an error the position does not change. At the end of the bytes the error is
    /// `TooShort`; otherwise results and errors are those of `decode`.
    pub fn decode(&mut self) -> Result<Decoded, DecodeError>
        requires { IsTrue (is_mode BITS) }
        ensures reading { IsRead (mode_of BITS) (self.old.ip + self.old.position)
            (drop self.old.position self.old.bytes) (reading_of result) }
        ensures moved { self.new ≡ record self.old { position = self.old.position + length_of result } }
        ensures length { IfOk result
            (λ d. (0 < d.len) × (d.len ≤ 15) × (self.old.position + d.len ≤ length self.old.bytes)) }
        ensures form { IfOk result (λ d. IsTrue (is_well_formed d.instr)) }
        ensures alone { IfOk result
            (λ d. IsOnlyReading (mode_of BITS) (self.old.ip + self.old.position) (drop self.old.position self.old.bytes) d) }
        ensures end { self.old.position ≡ length self.old.bytes → result ≡ Err DecodeError.TooShort }
    {
        let (_, rest) = self.bytes.split_at(self.position);
        let address = wrap(
            mode_of::<BITS>(),
            u128::from(self.ip) + self.position as u128,
        );
        let answer = decode::<BITS>(address, rest);
        if let Ok(decoded) = answer {
            self.position += decoded.len as usize;
        }
        answer
    }
}
