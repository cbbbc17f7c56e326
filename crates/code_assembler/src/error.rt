//! Why a routine is not built.

ghost use Rattle.std.specs.Prelude.{◌≡◌};
ghost use Rattle.code_assembler.specs.declared.error.BuildError.TheVariants as build;
ghost use Rattle.code_assembler.specs.declared.error.FinishError.TheVariants as finish;
ghost use Rattle.block_encoder.specs.declared.error.PlanError.TheVariants as plan_error;
ghost use Rattle.code_assembler.specs.Finished as spec;

use block_encoder::PlanError;
use encoder::NoSpelling;
use std::alloc::{AllocError, AllocFailed};
use thiserror::Error;

/// Why a label or an instruction is not added. If several causes hold, the first in the order of the variants after `Memory` is reported.
#[derive(Clone, Copy, PartialEq, Eq, Debug, Error)]
pub enum BuildError {
    /// There was not enough memory. No other cause holds.
    #[error("out of memory")]
    Memory,
    /// There are 65,536 labels already, or there would be more than 65,536 instructions and bytes of data.
    #[error("more than 65,536 labels or instructions")]
    TooMany,
    /// The routine has no label of this number: it is one of another routine.
    #[error("the routine has no label {label}")]
    Unknown { label: u32 },
    /// The label of this number has a place already.
    #[error("label {label} has a place already")]
    PlacedTwice { label: u32 },
    /// The instruction is no near branch, and has no operand at RIP or EIP.
    #[error("the instruction goes nowhere")]
    NoTarget,
    /// The instruction has no encoding in this mode, for this cause.
    #[error("the instruction has no encoding: {why}")]
    NotEncoded { why: NoSpelling },
}

impl From<AllocError> for BuildError {
    ghost from_gives = { λ _ e. e ≡ build.Memory };

    fn from(_e: AllocError) -> BuildError {
        BuildError::Memory
    }
}

impl<T: Drop> From<AllocFailed<T>> for BuildError {
    ghost from_gives = { λ _ e. e ≡ build.Memory };

    fn from(_e: AllocFailed<T>) -> BuildError {
        BuildError::Memory
    }
}

/// Why a routine has no bytes. If several causes hold, the first in the order of the variants after `Memory` is reported. `Memory` can replace `Wraps` and
/// `TooFar`.
#[derive(Clone, Copy, PartialEq, Eq, Debug, Error)]
pub enum FinishError {
    /// There was not enough memory.
    #[error("out of memory")]
    Memory,
    /// The label of this instruction has no place, or follows the last of 65,536 items. Instructions and bytes of data are counted from 0.
    #[error("the label of instruction {at} has no instruction behind it")]
    Unplaced { at: usize },
    /// The routine passes the address space of the mode: it ends at this address, where a label at its end counts as one byte.
    #[error("end {end:#x} passes the address space")]
    Wraps { end: u128 },
    /// The instruction of this number does not reach its target, which is this address. Instructions and bytes of data are counted from 0.
    #[error("instruction {at} cannot reach {target:#x}")]
    TooFar { at: u64, target: u64 },
}

impl From<AllocError> for FinishError {
    ghost from_gives = { λ _ e. e ≡ finish.Memory };

    fn from(_e: AllocError) -> FinishError {
        FinishError::Memory
    }
}

impl<T: Drop> From<AllocFailed<T>> for FinishError {
    ghost from_gives = { λ _ e. e ≡ finish.Memory };

    fn from(_e: AllocFailed<T>) -> FinishError {
        FinishError::Memory
    }
}

impl From<PlanError> for FinishError {
    ghost from_gives = { λ why e. e ≡ spec.finish_error_of why };

    fn from(why: PlanError) -> FinishError {
        match why {
            PlanError::Memory => FinishError::Memory,
            PlanError::Wraps { end } => FinishError::Wraps { end },
            PlanError::TooFar { at, target } => FinishError::TooFar { at, target },
        }
    }
}
