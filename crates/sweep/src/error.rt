//! Why a stream ends before its input does.

use decoder::DecodeError;
use thiserror::Error;

/// Why a listing ends before its input does.
#[derive(Clone, Copy, PartialEq, Eq, Debug, Error)]
pub enum ListError {
    /// The source failed.
    #[error("read fault")]
    ReadFault,
    /// The sink failed.
    #[error("write fault")]
    WriteFault,
    /// The source gives more than `limit` bytes.
    #[error("more than {limit} bytes")]
    TooLarge { limit: u64 },
}

/// Why a stream whose lines are for instructions only ends before its input does.
#[derive(Clone, Copy, PartialEq, Eq, Debug, Error)]
pub enum StreamError {
    /// The source failed.
    #[error("read fault")]
    ReadFault,
    /// The sink failed.
    #[error("write fault")]
    WriteFault,
    /// The source gives more than `limit` bytes.
    #[error("more than {limit} bytes")]
    TooLarge { limit: u64 },
    /// No instruction is read at this offset.
    #[error("bad code at {offset}: {error}")]
    BadCode { offset: u64, error: DecodeError },
}
