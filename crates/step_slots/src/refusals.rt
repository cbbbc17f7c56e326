//! Why an instruction is not stepped.

use thiserror::Error;

/// Why an instruction gets no slot.
#[derive(Clone, Copy, PartialEq, Eq, Debug, Error)]
pub enum StepError {
    /// There was not enough memory.
    #[error("out of memory")]
    Memory,
    /// The maximum number of slots is live; the new slot would take `len` bytes.
    #[error("all {max} slots are live")]
    TooManyBlocks { max: u64, len: u64 },
    /// No gap has `len` bytes, those of the slot; the longest has `largest`.
    #[error("no gap of {len} bytes: the largest has {largest}")]
    Full { len: u64, largest: u64 },
    /// The instruction does not reach its target, which is this address.
    #[error("cannot reach {target:#x}")]
    TooFar { target: u64 },
}
