// A port that fails at listed calls.
ghost use Rattle.std.specs.Prelude.{◌≡◌, ◌≤◌, Err, MatchBool};
ghost use Rattle.byte_ports.specs.Ports.{next_count};
ghost use Rattle.byte_ports.specs.FailAt.{fails_next, faults_with};

use crate::failed::Failed;
use crate::ports::{Sink, Source};
use arrayvec::ArrayVec;

/// A port for tests. It fails at the calls with the listed numbers, counted from 1, and passes every other call to the inner port, which may fail
/// too. After call 2^64 - 1 only the inner port can fail.
#[derive(Drop)]
pub struct FailAt<P> {
    inner: P,
    calls: ArrayVec<u64, 8>,
    made: u64,
}

impl<P> FailAt<P> {
    ghost use Rattle.byte_ports.specs.Failing.{inner_of, calls_of, made_of};

    /// Makes a port over `inner` that fails at the calls with these numbers.
    pub fn new(inner: P, calls: ArrayVec<u64, 8>) -> FailAt<P>
        ensures inner { inner_of result ≡ inner }
        ensures calls { calls_of result ≡ calls.items }
        ensures made { made_of result ≡ 0 }
    {
        FailAt {
            inner,
            calls,
            made: 0,
        }
    }

    /// Returns the inner port.
    #[inline]
    pub fn inner(&self) -> &P
        ensures { result.now ≡ inner_of self.now }
    {
        &self.inner
    }
}

/// Counts a call, and returns whether its number is listed.
#[tactic(auto, unfolding(crate::specs::FailAt::fails_next, crate::specs::Ports::last_count))]
fn is_next_listed(calls: &[u64], made: &mut u64) -> bool
    ensures answer { result ≡ fails_next calls.now made.old }
    ensures counted { made.new ≡ next_count made.old }
    ensures later { made.old ≤ made.new }
{
    if *made == u64::MAX {
        return false;
    }
    *made += 1;
    calls.contains(made)
}

impl<S: Source> Source for FailAt<S> {
    ghost left = { λ f. S.left f.inner };

    ghost faults = { λ f. faults_with (S.faults f.inner) f.calls.items f.made };

    ghost pull_gives = { λ f buffer result g filled. MatchBool (fails_next f.calls.items f.made)
        ((result ≡ Err record {}) × (g.inner ≡ f.inner) × (filled ≡ buffer))
        (S.pull_gives f.inner buffer result g.inner filled)
        × (g.calls.items ≡ f.calls.items) × (g.made ≡ next_count f.made) };

    fn pull(&mut self, into: &mut [u8]) -> Result<usize, Failed> {
        if is_next_listed(&self.calls, &mut self.made) {
            return Err(Failed);
        }
        self.inner.pull(into)
    }
}

impl<K: Sink> Sink for FailAt<K> {
    ghost held = { λ f. K.held f.inner };

    ghost faults = { λ f. faults_with (K.faults f.inner) f.calls.items f.made };

    ghost put_gives = { λ f piece result g. MatchBool (fails_next f.calls.items f.made)
        ((result ≡ Err record {}) × (g.inner ≡ f.inner))
        (K.put_gives f.inner piece result g.inner)
        × (g.calls.items ≡ f.calls.items) × (g.made ≡ next_count f.made) };

    fn put(&mut self, piece: &[u8]) -> Result<usize, Failed> {
        if is_next_listed(&self.calls, &mut self.made) {
            return Err(Failed);
        }
        self.inner.put(piece)
    }
}
