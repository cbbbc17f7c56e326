//! Why there are no hooks, why a function is not hooked, and why a hook is not removed.

use crate::DetourError;
use thiserror::Error;

/// Why a set of hooks is not made.
#[derive(Clone, Copy, PartialEq, Eq, Debug, Error)]
pub enum MakeError {
    /// The size of the range in bytes is 0, no multiple of 16, or above 1,048,576.
    #[error("a range of {size} bytes: the size is a multiple of 16 from 16 to 1048576")]
    BadSize { size: u64 },
    /// The size of a slot in bytes is 0, no multiple of 16, or above that of the range.
    #[error("slots of {slot} bytes: the size is a multiple of 16 up to that of the range")]
    BadSlot { slot: u64 },
    /// The range would end at `end`, which passes the address space of the mode.
    #[error("the range ends at {end:#x}, past the address space")]
    Wraps { end: u128 },
    /// There is no memory for the bytes and the hooks.
    #[error("out of memory")]
    Memory,
}

/// Why a function is not hooked.
#[derive(Clone, Copy, PartialEq, Eq, Debug, Error)]
pub enum InstallError {
    /// There was not enough memory.
    #[error("out of memory")]
    Memory,
    /// Each of the `max` slots has a hook.
    #[error("all {max} slots are taken")]
    Full { max: u64 },
    /// There is no detour, for this cause, which is not `Memory`.
    #[error("{why}")]
    NoDetour { why: DetourError },
    /// The trampoline has `len` bytes, and a slot has `slot`.
    #[error("a trampoline of {len} bytes: a slot has {slot}")]
    TooLong { len: u64, slot: u64 },
    /// The patch has an address in common with the range of the trampolines.
    #[error("the patch would lie in the range of the trampolines")]
    InRange,
    /// The patch has an address in common with that of a live hook. The trampoline of the first such hook starts at `place`.
    #[error("the patch would overlap that of the hook at {place:#x}")]
    Patched { place: u64 },
}

/// Why a hook is not removed.
#[derive(Clone, Copy, PartialEq, Eq, Debug, Error)]
pub enum RemoveError {
    /// No trampoline of a live hook starts at `place`.
    #[error("no trampoline of a live hook starts at {place:#x}")]
    NotTaken { place: u64 },
    /// Later hooks of the same function lie over the one at `place`. The last of them, which is to be removed first, is at `by`.
    #[error("the hook at {by:#x} lies over the one at {place:#x}")]
    Covered { place: u64, by: u64 },
}
