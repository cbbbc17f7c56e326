// A source that gives a byte at a time.
ghost use Rattle.std.specs.Prelude.{◌≡◌, take, drop};

use crate::failed::Failed;
use crate::ports::Source;

/// A source for tests that requests at most one byte of its inner source in each call.
#[derive(Drop)]
pub struct SlowSource<S> {
    inner: S,
}

impl<S: Source> SlowSource<S> {
    ghost use Rattle.byte_ports.specs.Slow.{slow_inner};

    /// Makes a slow source over `inner`.
    pub fn new(inner: S) -> SlowSource<S>
        ensures { slow_inner result ≡ inner }
    {
        SlowSource { inner }
    }
}

impl<S: Source> Source for SlowSource<S> {
    ghost left = { λ s. S.left s.inner };

    ghost faults = { λ s. S.faults s.inner };

    // The inner source is asked with the first place of the buffer alone, and the rest of the buffer stays.
    ghost pull_gives = { λ s buffer result t filled.
        S.pull_gives s.inner (take 1 buffer) result t.inner (take 1 filled) × (drop 1 filled ≡ drop 1 buffer) };

    fn pull(&mut self, into: &mut [u8]) -> Result<usize, Failed> {
        let count = into.len().min(1);
        self.inner.pull(&mut into[..count])
    }
}
