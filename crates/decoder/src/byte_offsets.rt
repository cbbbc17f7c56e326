//! Where the parts of an instruction lie in its bytes: prefixes, opcode, ModRM, SIB, displacement and each immediate (Intel SDM volume 2, 2.1).

pub mod laws;
mod layout;
mod parts;
mod tail;

pub use layout::{ByteOffsets, Part};
pub use parts::offsets;
