// A sink that only counts.
ghost use Rattle.std.specs.Prelude.{◌≡◌, ◌+◌, ◌%◌, ◌^◌, sum, None};
ghost use Rattle.byte_ports.specs.Memory.{CountsAll};

use crate::failed::Failed;
use crate::ports::Sink;
use std::marker::Model;

/// A sink that accepts every byte and keeps only the number and the sum of the bytes, each modulo 2^64. It never fails. For tests and measurements.
#[derive(Drop)]
pub struct CountSink {
    count: u64,
    sum: u64,
}

impl Model for CountSink {
    ghost use Rattle.byte_ports.specs.Memory.{Counts};

    ghost Value = { Counts };

    ghost view = { λ s. record { count = s.count; total = s.sum } };
}

impl CountSink {
    /// Makes a sink that has received nothing.
    pub fn new() -> CountSink
        ensures { result ≡ record { count = 0; total = 0 } }
    {
        CountSink { count: 0, sum: 0 }
    }

    /// Returns the number of bytes, modulo 2^64.
    #[inline]
    pub fn count(&self) -> u64
        ensures { result ≡ self.now.count }
    {
        self.count
    }

    /// Returns the sum of the bytes, modulo 2^64.
    #[inline]
    pub fn sum(&self) -> u64
        ensures { result ≡ self.now.total }
    {
        self.sum
    }
}

/// A sum and these bytes, modulo 2^64.
fn with_bytes(start: u64, piece: &[u8]) -> u64
    ensures { result ≡ (start + sum piece.now) % 2 ^ 64 }
{
    let mut total = start;
    for byte in piece {
        total = total.wrapping_add(u64::from(*byte));
    }
    total
}

impl Sink for CountSink {
    ghost held = { λ _. None };

    ghost faults = { λ _. 0 };

    ghost put_gives = { CountsAll };

    fn put(&mut self, piece: &[u8]) -> Result<usize, Failed> {
        self.count = self.count.wrapping_add(piece.len() as u64);
        self.sum = with_bytes(self.sum, piece);
        Ok(piece.len())
    }
}
