//! Why a region, a place or a release is refused.

use thiserror::Error;

/// Why a region is not made.
#[derive(Clone, Copy, PartialEq, Eq, Debug, Error)]
pub enum OpenError {
    /// The size in bytes is 0, no multiple of 16, or above 1,048,576.
    #[error("a region of {size} bytes: the size is a multiple of 16 from 16 to 1048576")]
    BadSize { size: u64 },
    /// The greatest number of live blocks is 0 or above 65,536.
    #[error("room for {max} blocks: a region holds from 1 to 65536")]
    TooManyBlocks { max: u64 },
    /// The region would end at `end`, which passes the address space of 2 to the 64th bytes.
    #[error("the region ends at {end}, past the address space")]
    Wraps { end: u128 },
    /// There is no memory for the bytes and the blocks.
    #[error("out of memory")]
    Memory,
}

/// Why no block is reserved.
#[derive(Clone, Copy, PartialEq, Eq, Debug, Error)]
pub enum PlaceError {
    /// The length is 0.
    #[error("no place for a length of 0")]
    Empty,
    /// The maximum number of blocks is live.
    #[error("all {max} blocks are live")]
    TooManyBlocks { max: u64 },
    /// No gap has `len` bytes, the length rounded up to a multiple of 16; the longest has `largest`.
    #[error("no gap of {len} bytes: the largest has {largest}")]
    Full { len: u64, largest: u64 },
}

/// Why a block is not filled.
#[derive(Clone, Copy, PartialEq, Eq, Debug, Error)]
pub enum FillError {
    /// No live block starts at `place`.
    #[error("no live block at {place:#x}")]
    NotLive { place: u64 },
    /// The live block has only `limit` bytes.
    #[error("the block has only {limit} bytes")]
    TooLong { limit: u64 },
}

/// No live block starts at `place`.
#[derive(Clone, Copy, PartialEq, Eq, Debug, Error)]
#[error("no live block at {place:#x}")]
pub struct NotTaken {
    pub place: u64,
}
