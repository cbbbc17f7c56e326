// Ports over the readers and writers of std. They tell no bytes.
ghost use Rattle.std.specs.Prelude.{◌≡◌, None};

use crate::failed::Failed;
use crate::fault_count::after_fault;
use crate::ports::{Sink, Source};
use std::io::{Read, Write};

/// A reader as a source. Each error of the reader is a fault.
#[derive(Drop)]
pub struct ReaderSource<R> {
    inner: R,
    pub(crate) faults: u64,
}

impl<R: Read> ReaderSource<R> {
    /// Makes a source over `inner` whose count of faults is 0.
    pub fn new(inner: R) -> ReaderSource<R>
        ensures { ⟦<ReaderSource<R> as Source>⟧.faults result ≡ 0 }
    {
        ReaderSource { inner, faults: 0 }
    }
}

impl<R: Read> Source for ReaderSource<R> {
    ghost left = { λ _. None };

    ghost faults = { λ s. s.faults };

    fn pull(&mut self, into: &mut [u8]) -> Result<usize, Failed> {
        match self.inner.read(into) {
            Ok(count) => Ok(count),
            Err(_) => {
                self.faults = after_fault(self.faults);
                Err(Failed)
            }
        }
    }
}

/// A writer as a sink. Each error of the writer is a fault. A writer that accepts nothing of a non-empty piece is a fault too.
#[derive(Drop)]
pub struct WriterSink<W> {
    inner: W,
    pub(crate) faults: u64,
}

impl<W: Write> WriterSink<W> {
    /// Makes a sink over `inner` whose count of faults is 0.
    pub fn new(inner: W) -> WriterSink<W>
        ensures { ⟦<WriterSink<W> as Sink>⟧.faults result ≡ 0 }
    {
        WriterSink { inner, faults: 0 }
    }
}

impl<W: Write> Sink for WriterSink<W> {
    ghost held = { λ _. None };

    ghost faults = { λ s. s.faults };

    fn put(&mut self, piece: &[u8]) -> Result<usize, Failed> {
        match self.inner.write(piece) {
            Ok(count) if count > 0 || piece.is_empty() => Ok(count),
            _ => {
                self.faults = after_fault(self.faults);
                Err(Failed)
            }
        }
    }
}
