// Ports in memory.
ghost use Rattle.std.specs.Prelude.{◌≡◌, [], IfOk, Some};
ghost use Rattle.byte_ports.specs.Memory.{Held, PullsFront, PutsWithinRoom};

use crate::failed::Failed;
use crate::fault_count::after_fault;
use crate::ports::{Sink, Source};
use std::alloc::Global;
use std::marker::Model;
use thiserror::Error;

/// Bytes in memory as a source. It never fails.
#[derive(Drop)]
pub struct MemSource<'a> {
    bytes: &'a [u8],
}

impl<'a> Model for MemSource<'a> {
    ghost use Rattle.std.specs.Prelude.{List, ℕ};

    ghost Value = { List ℕ };

    ghost view = { λ s. s.bytes.now };
}

impl<'a> MemSource<'a> {
    /// Makes a source of these bytes.
    pub fn new(bytes: &'a [u8]) -> MemSource<'a>
        ensures { result ≡ bytes.now }
    {
        MemSource { bytes }
    }
}

impl<'a> Source for MemSource<'a> {
    ghost left = { λ s. Some s };

    ghost faults = { λ _. 0 };

    ghost pull_gives = { PullsFront };

    fn pull(&mut self, into: &mut [u8]) -> Result<usize, Failed> {
        let count = into.len().min(self.bytes.len());
        let (front, rest) = self.bytes.split_at(count);
        into[..count].copy_from_slice(front);
        self.bytes = rest;
        Ok(count)
    }
}

/// Why no sink in memory was made.
#[derive(Clone, Copy, PartialEq, Eq, Debug, Error)]
pub enum MakeError {
    /// There is no memory for its buffer.
    #[error("out of memory")]
    Memory,
}

/// A sink in memory with a fixed capacity in bytes.
#[derive(Drop)]
pub struct MemSink {
    bytes: Vec<u8>,
    room: usize,
    faults: u64,
}

impl Model for MemSink {
    ghost use Rattle.std.specs.Prelude.{◌-◌, ◌≤◌, vec_len, vec_capacity};
    ghost use Rattle.byte_ports.specs.Memory.{Held};

    ghost Value = { Held };

    ghost view = { λ s. record { bytes = s.bytes.items; free = s.room - vec_len s.bytes; faults = s.faults } };

    ghost invariant = { λ s. (vec_len s.bytes ≤ s.room) × (s.room ≤ vec_capacity s.bytes) };
}

impl MemSink {
    /// Makes an empty sink with a capacity of `room` bytes. It allocates all memory at once and never again.
    pub fn new(alloc: Global, room: usize) -> Result<MemSink, MakeError>
        ensures { IfOk result (λ s. s ≡ record { bytes = []; free = room; faults = 0 }) }
    {
        let bytes = Vec::with_capacity(alloc, room).map_err(|_| MakeError::Memory)?;
        Ok(MemSink {
            bytes,
            room,
            faults: 0,
        })
    }

    /// Returns the bytes that it has received.
    #[inline]
    pub fn bytes(&self) -> &[u8]
        ensures { result.now ≡ self.now.bytes }
    {
        &self.bytes
    }
}

impl Sink for MemSink {
    ghost held = { λ s. Some s.bytes };

    ghost faults = { λ s. s.faults };

    ghost put_gives = { PutsWithinRoom };

    fn put(&mut self, piece: &[u8]) -> Result<usize, Failed> {
        let count = piece.len().min(self.room - self.bytes.len());
        if count == 0 && !piece.is_empty() {
            self.faults = after_fault(self.faults);
            return Err(Failed);
        }
        match self.bytes.extend_from_slice(&piece[..count]) {
            Ok(()) => Ok(count),
            Err(_) => unreachable!(),
        }
    }
}
