//! Reading instructions from bytes (Intel SDM volume 2, 2.1 to 2.3). `laws` has that no bytes have two spellings.
#![tactic(auto)]

mod bare;
mod by_mode;
pub mod byte_offsets;
mod cell;
mod cursor;
mod found;
mod generated_bare_rows;
mod items;
mod reading;
pub mod reading_laws;

pub use by_mode::{decode_in, decode_onto, read_at};
pub use cursor::Decoder;
pub use items::{Item, Items};
pub use modrm_sib::UNREAD;
pub use opcode_rows::unique_spelling::laws;
pub use reading::{decode, decode_counted};
use thiserror::Error;

/// Why bytes do not decode to an instruction.
#[derive(Clone, Copy, PartialEq, Eq, Debug, Error)]
pub enum DecodeError {
    /// No instruction starts here, whatever bytes follow.
    #[error("no instruction begins with these bytes")]
    Invalid,
    /// The bytes, fewer than 15, begin with no instruction; they end before their opcode byte, or more bytes can complete one.
    #[error("the bytes end before an instruction does")]
    TooShort,
}
