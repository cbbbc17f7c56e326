//! The plain spelling of an instruction, and why an instruction has none (Intel SDM volume 2, 2.1 to 2.3).
#![tactic(auto)]

mod address_sizes;
pub mod addresses;
pub mod conditions;
pub mod forms;
pub mod front;
mod gathers;
pub mod numbers;
pub mod parts;
pub mod registers;
pub mod tail;

use thiserror::Error;

/// Why an instruction has no plain spelling in a mode at an address: the first of ten conditions that fails.
///
/// Operand numbers are 0 to 3.
#[derive(Clone, Copy, PartialEq, Eq, Debug, Error)]
pub enum NoSpelling {
    /// The code is no row of the table, or its row does not exist in the mode.
    #[error("the code is no row of the table that exists in the mode")]
    Row,
    /// An operand has a variant that its kind does not allow.
    #[error("operand {0} is none that its kind allows")]
    OperandKind(u8),
    /// A register that the operand's kind cannot name in the mode, AH to BH beside a register that needs a REX, or two vector registers
    /// of a gather with one number (operand 0).
    #[error("operand {0} is a register that cannot stand there")]
    Register(u8),
    /// Base, index and scale are no address of the mode.
    #[error("base, index and scale are no address of the mode")]
    Memory,
    /// The address has no displacement of this size, or the displacement is no value of its size.
    #[error("the address has no such displacement")]
    Displacement,
    /// An immediate is no value of its written size.
    #[error("operand {0} is an immediate that its size does not hold")]
    Immediate(u8),
    /// A near, RIP or EIP target is out of reach of its offset.
    #[error("the target is out of reach")]
    Target,
    /// LOCK or a repeat prefix is not allowed.
    #[error("LOCK or the repeat prefix is not allowed")]
    Prefix,
    /// The address size is absent or given needlessly, is none of the mode, or is not that of the operand.
    #[error("the address size is not that of the instruction")]
    AddressSize,
    /// The plain spelling has more than 15 bytes.
    #[error("the instruction would take more than 15 bytes")]
    Length,
}
