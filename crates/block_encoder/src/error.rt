//! Why blocks are not moved.

ghost use Rattle.std.specs.Prelude.{◌≡◌};
ghost use Rattle.block_encoder.specs.declared.error.MoveError.TheVariants as why;
ghost use Rattle.block_encoder.specs.declared.error.PlanError.TheVariants as plan_error;
ghost use Rattle.block_encoder.specs.Planned as planned;

use branch_sizes::LayoutError;
use std::alloc::{AllocError, AllocFailed};
use thiserror::Error;

/// Why blocks are not moved. If several causes hold, the first in the order `TooMany`, `OldOrder`, `Wraps`, `TooFar` is reported. `Memory` can
/// replace any error after `OldOrder`.
#[derive(Clone, Copy, PartialEq, Eq, Debug, Error)]
pub enum MoveError {
    /// There was not enough memory.
    #[error("out of memory")]
    Memory,
    /// There are this many items, more than 65,536.
    #[error("{count} instructions are too many")]
    TooMany { count: u64 },
    /// The item with this number, from 0, is not the first of its block and does not begin where the previous one ended.
    #[error("instruction {at} does not begin where the one before it ends")]
    OldOrder { at: u64 },
    /// A block passes the address space of the mode: its old or its new end is this address.
    #[error("end {end:#x} passes the address space")]
    Wraps { end: u128 },
    /// The item of this number, from 0, does not reach its goal, which is this address.
    #[error("instruction {at} cannot reach {target:#x}")]
    TooFar { at: u64, target: u64 },
}

impl From<AllocError> for MoveError {
    ghost from_gives = { λ _ e. e ≡ why.Memory };

    fn from(_e: AllocError) -> MoveError {
        MoveError::Memory
    }
}

impl From<LayoutError> for MoveError {
    ghost from_gives = { λ _ e. e ≡ why.Memory };

    fn from(_e: LayoutError) -> MoveError {
        MoveError::Memory
    }
}

impl<T: Drop> From<AllocFailed<T>> for MoveError {
    ghost from_gives = { λ _ e. e ≡ why.Memory };

    fn from(_e: AllocFailed<T>) -> MoveError {
        MoveError::Memory
    }
}

/// Why blocks are not moved by a call that requires few items in order, or by a plan: the cases of [`MoveError`] that are left then. If both `Wraps`
/// and `TooFar` hold, `Wraps` is reported. `Memory` can replace either.
#[derive(Clone, Copy, PartialEq, Eq, Debug, Error)]
pub enum PlanError {
    /// There was not enough memory.
    #[error("out of memory")]
    Memory,
    /// A block passes the address space of the mode: its old or its new end is this address.
    #[error("end {end:#x} passes the address space")]
    Wraps { end: u128 },
    /// The item of this number, from 0, does not reach its goal, which is this address.
    #[error("instruction {at} cannot reach {target:#x}")]
    TooFar { at: u64, target: u64 },
}

impl From<AllocError> for PlanError {
    ghost from_gives = { λ _ e. e ≡ plan_error.Memory };

    fn from(_e: AllocError) -> PlanError {
        PlanError::Memory
    }
}

impl From<LayoutError> for PlanError {
    ghost from_gives = { λ _ e. e ≡ plan_error.Memory };

    fn from(_e: LayoutError) -> PlanError {
        PlanError::Memory
    }
}

impl<T: Drop> From<AllocFailed<T>> for PlanError {
    ghost from_gives = { λ _ e. e ≡ plan_error.Memory };

    fn from(_e: AllocFailed<T>) -> PlanError {
        PlanError::Memory
    }
}

impl From<PlanError> for MoveError {
    ghost from_gives = { λ cause e. e ≡ planned.move_error_of cause };

    fn from(cause: PlanError) -> MoveError {
        match cause {
            PlanError::Memory => MoveError::Memory,
            PlanError::Wraps { end } => MoveError::Wraps { end },
            PlanError::TooFar { at, target } => MoveError::TooFar { at, target },
        }
    }
}
