//! The lengths of instructions without a row of the opcode table, by their encoding formats alone (Intel SDM volume 2, 2.3, 2.7 and appendix A; AMD64
//! manual volume 3, chapter 1 and appendix A, for XOP and 3DNow!).
//!
//! [`measure`] returns how long such an instruction is, where control goes after it, and where a number in it is relative to the address after it. That
//! is enough to step over an instruction, or to copy it. Whether the opcode is defined is not checked: the format determines the length.
#![tactic(auto)]

mod code;
mod encodings;
mod formats;
pub mod laws;
mod measuring;
mod moved;

pub use code::{CodeBytes, Follow};
pub use measuring::{measure, target};
pub use moved::{bytes_at, number_to, reference_size};
use thiserror::Error;

/// The kind of an instruction without a row, by its encoding.
#[derive(Clone, Copy, PartialEq, Eq, Debug)]
pub enum Kind {
    /// An EVEX: 62 and three more bytes before the opcode byte (Intel SDM volume 2, 2.7).
    Evex,
    /// A VEX with an opcode byte of the mask registers.
    Mask,
    /// Any other VEX (Intel SDM volume 2, 2.3).
    Vex,
    /// An XOP: 8F and two more bytes before the opcode byte (AMD64 manual volume 3, chapter 1).
    Xop,
    /// 3DNow!: 0F 0F with a suffix in place of an opcode byte, or 0F 0E (AMD64 manual volume 3, appendix A).
    Now3d,
    /// No such prefix: an opcode byte of the one-byte map, or after 0F, 0F 38 or 0F 3A (Intel SDM volume 2, appendix A).
    Legacy,
}

/// What a number of an instruction, added to the address after the instruction, is the address of.
#[derive(Clone, Copy, PartialEq, Eq, Debug)]
pub enum Reference {
    /// Memory at RIP (Intel SDM volume 2, 2.2.1.6).
    Rip,
    /// Memory at EIP: in 64-bit mode after a 67.
    Eip,
    /// The target of a branch: where an aborted transaction continues (XBEGIN), or where JKZD and JKNZD go.
    Branch,
}

/// Where control goes after an instruction without a row, by its opcode. It is also known of an opcode that no processor has.
#[derive(Clone, Copy, PartialEq, Eq, Debug)]
pub enum ShapeFlow {
    /// To the next instruction.
    Next,
    /// To the address that its number refers to, or to the next instruction: XBEGIN, whose target an aborted transaction continues at (Intel SDM volume 2,
    /// XBEGIN); JKZD and JKNZD (Intel Xeon Phi coprocessor instruction set reference).
    Branch,
    /// Back, to an address that was saved: RSM, UIRET, ERETS, ERETU (Intel SDM volume 2).
    Return,
    /// To code that its bytes do not name, or to the next instruction. VMLAUNCH, VMRESUME and VMRUN enter a guest, and go on if they fail, VMRUN also when
    /// the guest is left (Intel SDM volume 3, chapter 31; AMD64 manual volume 3). ENCLU enters or leaves an enclave by EENTER, EEXIT and ERESUME, and
    /// GETSEC an authenticated code module (Intel SDM volume 2). XABORT goes to the target of XBEGIN, and on where there is no transaction. SEAMRET
    /// (Intel Trust Domain CPU architectural extensions) and SKINIT (AMD64 manual volume 3) leave.
    Elsewhere,
    /// To the handler of the exception #UD: UD0 (Intel SDM volume 2, UD).
    Exception,
}

/// A number in an instruction that is relative to the address after the instruction.
#[derive(Clone, Copy, PartialEq, Eq, Debug)]
pub struct Relative {
    /// What it refers to.
    pub to: Reference,
    /// The offset of its first byte in the instruction.
    pub at: u8,
    /// How many bytes it has: 4; 2 in an XBEGIN with 16-bit operands and in a near JKZD or JKNZD of 16-bit mode; 1 in a short JKZD or JKNZD.
    pub len: u8,
    /// The number, sign-extended to 64 bits.
    pub distance: u64,
}

/// The shape of an instruction without a row.
#[derive(Clone, Copy, PartialEq, Eq, Debug)]
pub struct Shape {
    /// How many bytes it has: 1 to 15.
    pub len: u8,
    /// Its kind.
    pub kind: Kind,
    /// Where control goes after it.
    pub flow: ShapeFlow,
    /// Its number that is relative to the address after it, if there is one.
    pub relative: Option<Relative>,
}

/// Why bytes are not measured.
#[derive(Clone, Copy, PartialEq, Eq, Debug, Error)]
pub enum MeasureError {
    /// The bytes, fewer than 15, end inside an encoding that is measured, as far as they show, and they begin with no instruction of the table.
    #[error("the bytes end inside an instruction")]
    Ended,
    /// They begin with no encoding that is measured, or with an instruction of the table.
    #[error("the bytes begin with no instruction that is measured")]
    Unknown,
}
