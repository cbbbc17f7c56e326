//! What a fitting spelling means: the operands of an instruction (Intel SDM volume 2, 2.1 to 2.3).
#![tactic(auto)]

pub mod given;
pub mod meaning;
mod memory_size;
pub mod numbers;
pub mod operands;

pub use memory_size::row_memory_size;
pub use operands::row_meaning;
