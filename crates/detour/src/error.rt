//! Why there is no detour.

ghost use Rattle.std.specs.Prelude.{◌≡◌};
ghost use Rattle.detour.specs.declared.error.DetourError.TheVariants as why;

use decoder::DecodeError;
use std::alloc::{AllocError, AllocFailed};
use thiserror::Error;

/// Why a function gets no detour. If several causes hold, the first after `Memory` is reported. `Memory` can replace any of them.
///
/// Offsets count from the function's first byte.
#[derive(Clone, Copy, PartialEq, Eq, Debug, Error)]
pub enum DetourError {
    /// There was not enough memory.
    #[error("out of memory")]
    Memory,
    /// At this offset, in the part to be taken, no instruction begins.
    #[error("no instruction begins at offset {at:#x}: {error}")]
    BadCode { at: u64, error: DecodeError },
    /// The code has `len` bytes of instructions, and the jump has `need`.
    #[error("{len} bytes are too few for a jump of {need}")]
    TooSmall { len: u64, need: u64 },
    /// At this offset, in the part to be taken, code that is no padding follows an instruction that never goes on.
    #[error("the code ends before offset {at:#x}, where other code stands")]
    Ends { at: u64 },
    /// Control may go from the first offset to the second one, which lies in the overwritten part after its first byte.
    #[error("code at offset {from:#x} goes to offset {target:#x}, which would be written over")]
    Entered { from: u64, target: u64 },
    /// The trampoline passes the address space of the mode: it ends at this address.
    #[error("end {end:#x} passes the address space")]
    Wraps { end: u128 },
    /// The instruction of this number, from 0, does not reach its target from the trampoline, which is this address.
    #[error("instruction {at} cannot reach {target:#x}")]
    TooFar { at: u64, target: u64 },
}

impl From<AllocError> for DetourError {
    ghost from_gives = { λ _ e. e ≡ why.Memory };

    fn from(_e: AllocError) -> DetourError {
        DetourError::Memory
    }
}

impl<T: Drop> From<AllocFailed<T>> for DetourError {
    ghost from_gives = { λ _ e. e ≡ why.Memory };

    fn from(_e: AllocFailed<T>) -> DetourError {
        DetourError::Memory
    }
}
