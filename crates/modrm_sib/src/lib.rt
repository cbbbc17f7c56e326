//! What follows the opcode byte, read: ModRM, SIB, displacement and immediates
//! (Intel SDM volume 2, 2.1.3 to 2.1.5).
#![tactic(auto)]

ghost use Rattle.std.specs.Prelude.{◌≡◌, ◌<◌, ◌≤◌, ◌+◌, IsTrue, length, drop, IfSome, IsNone, IfOk};
ghost use Rattle.instruction_parts.specs.Front.{front_of, Known};
ghost use Rattle.prefixes.specs.Answer.{is_mode, mode_of};
ghost use Rattle.row_fit.specs.Sound.{sound};
ghost use Rattle.modrm_sib.specs.Answer.{ReadsNothingShort};
ghost use Rattle.modrm_sib.specs.Parts.{KnownToFit, TellsLengths};
ghost use Rattle.row_meaning.specs.Given.{has_one_immediate};
ghost use Rattle.instruction_parts.specs.Sizes.{state_size};
ghost use Rattle.row_relation.specs.RowReading.{RowReads, RowReadsNothing, RowCanGoOn};

mod ends;
mod known;
pub mod laws;
mod parts;
mod read;
mod write;

use instruction_parts::PrefixState;
use instruction_parts::row_types::Row;
use known::read_known_tail;
pub use parts::{modrm_of_byte, sib_of_byte};
use prefixes::mode_of;
use row_meaning::operands;
use thiserror::Error;
pub use write::{write_operands, write_tail};
use x86_values::{Bits, Code, Decoded};

/// Why no tail of a row is read from some bytes.
#[derive(Clone, Copy, PartialEq, Eq, Debug, Error)]
pub enum TailError {
    /// The bytes end, and more bytes can complete a spelling of the row.
    #[error("the bytes end before the operands do")]
    Ended,
    /// No bytes that begin so are a spelling of the row.
    #[error("the row has no operands that are spelled so")]
    Forbidden,
}

/// Reads an instruction of a row whose front these bytes have, in a mode that is known at run time. Returns it with its length in bytes.
///
/// `state` is the front of `bytes`; `ip` is the address of the first byte. The length can exceed 15: the caller checks the limit of an instruction.
#[inline]
pub fn read_row(
    bits: Bits,
    ip: u64,
    state: &PrefixState,
    code: Code,
    row: &Row,
    bytes: &[u8],
) -> Result<Decoded, TailError>
    requires sound { IsTrue (sound row.now) }
    requires front { front_of bits bytes.now ≡ Known state.now }
    ensures ok { IfOk result (λ d. RowReads bits ip code row.now bytes.now d) }
    ensures len { IfOk result (λ d. (0 < d.len) × (d.len < 64) × (d.len ≤ length bytes.now)) }
    ensures ended { result ≡ Err TailError.Ended
        → RowReadsNothing bits row.now bytes.now × RowCanGoOn bits row.now bytes.now }
    ensures forbidden { result ≡ Err TailError.Forbidden
        → RowReadsNothing bits row.now bytes.now × (RowCanGoOn bits row.now bytes.now → ⊥) }
{
    let mut decoded = UNREAD;
    match read_row_into(bits, ip, state, code, row, bytes, &mut decoded) {
        Ok(()) => Ok(decoded),
        Err(error) => Err(error),
    }
}

/// The value of an instruction that has not been read.
pub const UNREAD: Decoded = Decoded {
    instr: operands::UNREAD,
    len: 0,
};

/// Reads the tail of a row like [`read_row`], and writes the instruction to `out`. After an error `out` holds no instruction.
#[inline(always)]
pub fn read_row_into(
    bits: Bits,
    ip: u64,
    state: &PrefixState,
    code: Code,
    row: &Row,
    bytes: &[u8],
    out: &mut Decoded,
) -> Result<(), TailError>
    requires sound { IsTrue (sound row.now) }
    requires front { front_of bits bytes.now ≡ Known state.now }
    ensures ok { IfOk result (λ _. RowReads bits ip code row.now bytes.now out.new) }
    ensures len { IfOk result (λ _. (0 < out.new.len) × (out.new.len < 64) × (out.new.len ≤ length bytes.now)) }
    ensures ended { result ≡ Err TailError.Ended
        → RowReadsNothing bits row.now bytes.now × RowCanGoOn bits row.now bytes.now }
    ensures forbidden { result ≡ Err TailError.Forbidden
        → RowReadsNothing bits row.now bytes.now × (RowCanGoOn bits row.now bytes.now → ⊥) }
{
    let (_, tail) = bytes.split_at(state.used as usize + 1);
    read::read_tail(bits, ip, state, code, row, tail, out)
}

/// Reads the tail of a row like [`read_row_into`]. The row must fit the state and the ModRM byte, and at most one of its operands may have bytes of
/// the immediates. Returns None if the bytes do not begin with an instruction of the row of at most 15 bytes; then the contents of `out` are
/// unspecified.
///
/// `size` is the operand size of the row under the prefixes; `immediates` is the number of bytes of its immediates.
#[inline(always)]
pub fn read_fitting_into(
    bits: Bits,
    ip: u64,
    state: &PrefixState,
    code: Code,
    row: &Row,
    size: Bits,
    immediates: u8,
    bytes: &[u8],
    out: &mut Decoded,
) -> Option<()>
    requires sound { IsTrue (sound row.now) }
    requires one { IsTrue (has_one_immediate row.now) }
    requires size { size ≡ state_size bits row.now state.now }
    requires known { TellsLengths bits row.now state.now immediates }
    requires fitting { KnownToFit bits row.now state.now (drop (state.now.used + 1) bytes.now) }
    requires front { front_of bits bytes.now ≡ Known state.now }
    ensures some { IfSome result (λ _. RowReads bits ip code row.now bytes.now out.new) }
    ensures len { IfSome result (λ _. (0 < out.new.len) × (out.new.len ≤ 15) × (out.new.len ≤ length bytes.now)) }
    ensures none { IsNone result → ReadsNothingShort bits ip code row.now bytes.now }
{
    let (_, tail) = bytes.split_at(state.used as usize + 1);
    read_known_tail(bits, ip, state, code, row, size, immediates, tail, out)
}

/// Reads an instruction of a row whose front these bytes have. Returns it with its length in bytes.
///
/// `BITS` is 16, 32 or 64. `state` is the front of `bytes`, as `read_prefixes` returns it; `ip` is the address of the first byte. The length can
/// exceed 15: the caller checks the limit of an instruction.
///
/// Errors: `Ended` occurs exactly if the bytes end inside the tail and some longer tail fits the row. `Forbidden` occurs exactly if no tail that
/// begins like this fits (Intel SDM volume 2, 2.1.3 to 2.1.5, 2.2.1 and 2.3.5 to 2.3.12).
pub fn read_operands<const BITS: u32>(
    ip: u64,
    state: &PrefixState,
    code: Code,
    row: &Row,
    bytes: &[u8],
) -> Result<Decoded, TailError>
    requires mode { IsTrue (is_mode BITS) }
    requires sound { IsTrue (sound row.now) }
    requires front { front_of (mode_of BITS) bytes.now ≡ Known state.now }
    ensures ok { IfOk result (λ d. RowReads (mode_of BITS) ip code row.now bytes.now d) }
    ensures len { IfOk result (λ d. (0 < d.len) × (d.len < 64) × (d.len ≤ length bytes.now)) }
    ensures ended { result ≡ Err TailError.Ended
        → RowReadsNothing (mode_of BITS) row.now bytes.now × RowCanGoOn (mode_of BITS) row.now bytes.now }
    ensures forbidden { result ≡ Err TailError.Forbidden
        → RowReadsNothing (mode_of BITS) row.now bytes.now × (RowCanGoOn (mode_of BITS) row.now bytes.now → ⊥) }
{
    read_row(mode_of::<BITS>(), ip, state, code, row, bytes)
}
