//! Some code read into its instructions.

ghost use Rattle.std.specs.Prelude.{MatchResult};
ghost use Rattle.code_items.specs.Items.{HasItems, IsReadRefusal};

use crate::items::CodeItems;
use decoder::reading_laws::wrapped_addresses_read_alike;
use decoder::{DecodeError, decode_in};
use move_goals::Placed;
use std::alloc::Global;
use thiserror::Error;
use x86_values::laws::wrapped_twice;
use x86_values::{Bits, wrap};

/// Why code is not decoded into instructions.
#[derive(Clone, Copy, PartialEq, Eq, Debug, Error)]
pub enum ReadError {
    /// No instruction starts at this offset from the first byte, where the previous one ends.
    #[error("no instruction at offset {at:#x}: {error}")]
    BadCode { at: u64, error: DecodeError },
    /// There was not enough memory.
    #[error("out of memory")]
    Memory,
}

/// Decodes all instructions of some code, one after another, each with its address (Intel SDM volume 2, 2.1 to 2.3).
///
/// `ip` is the address of the first byte. Addresses wrap at the address size of the mode.
///
/// Errors: `BadCode` reports the first offset at which no instruction starts. `Memory` can occur at any point.
///
/// ```
/// let items = read_items(rt.alloc(), Bits::B64, 0x40_1000, &FUNCTION)?;
/// println!(rt; "{} instructions", items.len())?; // 5 instructions
/// ```
pub fn read_items(alloc: Global, bits: Bits, ip: u64, bytes: &[u8]) -> Result<CodeItems, ReadError>
    ensures { MatchResult result (λ list. HasItems bits ip bytes.now list) (λ why. IsReadRefusal bits ip bytes.now why) }
{
    wrapped_twice();
    let mut placed = Vec::new(alloc);
    let mut at: usize = 0;
    while at < bytes.len() {
        let address = wrap(bits, u128::from(ip) + at as u128);
        let (_, rest) = bytes.split_at(at);
        match decode_in(bits, address, rest) {
            Ok(read) => {
                let item = Placed {
                    ip: address,
                    len: read.len,
                    instr: read.instr,
                };
                match placed.push(item) {
                    Ok(()) => {}
                    Err(_) => return Err(ReadError::Memory),
                }
                at += usize::from(read.len);
            }
            Err(error) => {
                return Err(ReadError::BadCode {
                    at: at as u64,
                    error,
                });
            }
        }
    }
    Ok(CodeItems { bits, placed })
}
