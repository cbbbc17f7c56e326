//! What an instruction does: where control goes after it, what it reads and writes, and the addresses that it names (Intel SDM volume 2, chapters 3
//! to 5, the operand encoding and the operation of each instruction).
#![tactic(auto)]

mod columns;
mod generated_columns;
pub mod laws;
mod registers;
mod targets;

pub use columns::{Access, Flow, access_of, flow_of, memory_size};
pub use registers::{RegUse, used_registers};
pub use targets::{ip_operand, near_target};
