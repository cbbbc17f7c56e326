//! Reading a source to its end.

ghost use Rattle.std.specs.Prelude.{◌≡◌, ◌<◌, ◌≤◌, ℕ, List, [], length, IfOk, IfErr, OnOk, IsErrOf};
ghost use Rattle.byte_ports.specs.Ports.{Rose, with_front};
ghost use Rattle.sweep.specs.RunParts.Reads.{whole_limit, ReadsAll, ReadsPiece, ReadsTooMany, IsUnread, Takes, EndsAtFault};

use crate::run_parts::status::Status;
use byte_ports::{Failed, Source};
use std::alloc::Global;
use thiserror::Error;

/// The maximum number of bytes that a command reads if it takes its whole input at once.
pub const WHOLE_LIMIT: u32 = 1_048_576;

/// The maximum number of bytes that a command reads if it streams code.
pub const CODE_LIMIT: u32 = 16_777_216;

/// Why a source was not read to its end.
#[derive(Clone, Copy, PartialEq, Eq, Debug, Error)]
enum ReadError {
    /// The source failed.
    #[error("read fault")]
    Fault,
    /// There was not enough memory.
    #[error("out of memory")]
    Memory,
    /// The source has more bytes than the limit.
    #[error("too many bytes")]
    TooLarge,
}

/// Reads a piece of at most `room` bytes after the previous ones, and returns its length. 0 is the end.
fn read_piece<S: Source>(
    source: &mut S,
    chunk: &mut [u8],
    room: usize,
    input: &mut Vec<u8>,
) -> Result<usize, ReadError>
    requires chunk { 0 < length chunk.old }
    requires room { 0 < room }
    ensures ok { IfOk result (λ n. ReadsPiece (S.left source.old) (S.left source.new) input.old.items input.new.items n) }
    ensures within { IfOk result (λ n. n ≤ room) }
    ensures fault { IsErrOf result ReadError.Fault → Rose (S.faults source.old) (S.faults source.new) }
    ensures last { IsErrOf result ReadError.Fault → EndsAtFault S.pull_gives S.left source.new }
    ensures taken { (piece : List ℕ) × ((S.left source.old ≡ with_front piece (S.left source.new)) × (length piece ≤ room)) }
    ensures no_more { IsErrOf result ReadError.TooLarge → ⊥ }
    ensures later { S.faults source.old ≤ S.faults source.new }
{
    let end = room.min(chunk.len());
    let count = match source.pull(&mut chunk[..end]) {
        Ok(count) => count,
        Err(Failed) => return Err(ReadError::Fault),
    };
    match input.extend_from_slice(&chunk[..count]) {
        Ok(()) => Ok(count),
        Err(_) => Err(ReadError::Memory),
    }
}

/// Reads a source to its end, a chunk at a time, into an empty buffer.
fn read_chunks<S: Source>(
    source: &mut S,
    limit: u32,
    chunk: &mut [u8],
    input: &mut Vec<u8>,
) -> Result<(), ReadError>
    requires chunk { 0 < length chunk.old }
    requires empty { input.old.items ≡ [] }
    ensures ok { OnOk result (ReadsAll limit (S.left source.old) (S.left source.new) input.new.items) }
    ensures fault { IsErrOf result ReadError.Fault → Rose (S.faults source.old) (S.faults source.new) }
    ensures last { IsErrOf result ReadError.Fault → EndsAtFault S.pull_gives S.left source.new }
    ensures taken { Takes limit (S.left source.old) (S.left source.new) }
    ensures too_large { IsErrOf result ReadError.TooLarge → ReadsTooMany limit (S.left source.old) (S.left source.new) input.new.items }
    ensures later { S.faults source.old ≤ S.faults source.new }
{
    let limit = limit as usize;
    while input.len() <= limit {
        let room = limit + 1 - input.len();
        let count = read_piece(source, chunk, room, input)?;
        if count == 0 {
            return Ok(());
        }
    }
    Err(ReadError::TooLarge)
}

/// Reads a source of at most `limit` bytes to its end. In any case it reads at most one byte more.
///
/// `Fault` occurs only if the source failed; then the source is not read again. `TooLarge` occurs only if one byte more than the limit was read.
/// `Memory` can occur at any point.
fn read_all<S: Source>(alloc: Global, source: &mut S, limit: u32) -> Result<Vec<u8>, ReadError>
    ensures ok { IfOk result (λ input. ReadsAll limit (S.left source.old) (S.left source.new) input.items) }
    ensures fault { IsErrOf result ReadError.Fault → Rose (S.faults source.old) (S.faults source.new) }
    ensures last { IsErrOf result ReadError.Fault → EndsAtFault S.pull_gives S.left source.new }
    ensures taken { Takes limit (S.left source.old) (S.left source.new) }
    ensures too_large { IsErrOf result ReadError.TooLarge → (bytes : List ℕ) × ReadsTooMany limit (S.left source.old) (S.left source.new) bytes }
    ensures later { S.faults source.old ≤ S.faults source.new }
{
    let mut chunk = [0; 16384];
    let mut input = Vec::new(alloc);
    read_chunks(source, limit, &mut chunk, &mut input)?;
    Ok(input)
}

/// Reads a source of at most [`WHOLE_LIMIT`] bytes to its end, or returns a status. In any case it reads at most one byte more than the limit.
///
/// `ReadFault` occurs only if the source failed; then the source is not read again. `TooLarge` occurs only if one byte more than the limit was read.
/// `Memory` can occur at any point.
#[tactic(auto, unfolding(crate::specs::RunParts::Reads::whole_limit))]
pub fn read_whole<S: Source>(alloc: Global, source: &mut S) -> Result<Vec<u8>, Status>
    ensures ok { IfOk result (λ input. ReadsAll whole_limit (S.left source.old) (S.left source.new) input.items) }
    ensures unread { IfErr result (λ status. IsUnread (S.left source.old) (S.left source.new) (Rose (S.faults source.old) (S.faults source.new)) status) }
    ensures last { IsErrOf result Status.ReadFault → EndsAtFault S.pull_gives S.left source.new }
    ensures taken { Takes whole_limit (S.left source.old) (S.left source.new) }
    ensures later { S.faults source.old ≤ S.faults source.new }
{
    match read_all(alloc, source, WHOLE_LIMIT) {
        Ok(input) => Ok(input),
        Err(ReadError::Fault) => Err(Status::ReadFault),
        Err(ReadError::Memory) => Err(Status::Memory),
        Err(ReadError::TooLarge) => Err(Status::TooLarge {
            limit: u64::from(WHOLE_LIMIT),
        }),
    }
}
