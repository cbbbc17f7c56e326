// What gives bytes and what takes them.
ghost use Rattle.std.specs.Prelude.{◌≡◌, ◌<◌, ◌≤◌, ℕ, List, [], length, take, Option, Result, IfOk, IfSome, OnErr};
ghost use Rattle.byte_ports.specs.declared.failed.Failed.{Failed};
ghost use Rattle.byte_ports.specs.Ports.{HasCause, with_front, with_back};

use crate::failed::Failed;

/// A source of bytes.
pub trait Source {
    /// The bytes that are left, or None if they are unknown.
    ghost left: { Self → Option (List ℕ) };

    /// How often it has failed. It never falls.
    ghost faults: { Self → ℕ };

    /// What a call may do: the source and the buffer before it, its result, and both after it.
    ghost pull_gives: { Self → List ℕ → Result ℕ Failed → Self → List ℕ → Type 0 } = { λ _ _ _ _ _. Unit {0} };

    /// Writes the next bytes to the front of `into`, and returns their number, at most the length of `into`. 0 for a non-empty buffer is the end of
    /// the input. After `Failed` no byte was read.
    fn pull(&mut self, into: &mut [u8]) -> Result<usize, Failed>
        ensures within { IfOk result (λ n. n ≤ length into.new) }
        ensures taken { IfOk result (λ n. left self.old ≡ with_front (take n into.new) (left self.new)) }

        // The end is told only where no byte is left.
        ensures end { IfOk result (λ n. n ≡ 0 → 0 < length into.new → IfSome (left self.old) (λ bytes. bytes ≡ [])) }
        ensures none_taken { OnErr result (left self.new ≡ left self.old) }
        ensures cause { HasCause (faults self.old) (faults self.new) result }
        ensures gives { pull_gives self.old into.old result self.new into.new };
}

/// A sink for bytes.
pub trait Sink {
    /// The bytes that it holds, or None if they are unknown.
    ghost held: { Self → Option (List ℕ) };

    /// How often it has failed. It never falls.
    ghost faults: { Self → ℕ };

    /// What a call may do: the sink before it, the piece, the result, and the sink after it.
    ghost put_gives: { Self → List ℕ → Result ℕ Failed → Self → Type 0 } = { λ _ _ _ _. Unit {0} };

    /// Appends the first bytes of `piece`, and returns their number: at least 1 for a non-empty piece. After `Failed` nothing of the piece was
    /// written.
    fn put(&mut self, piece: &[u8]) -> Result<usize, Failed>
        ensures within { IfOk result (λ n. n ≤ length piece.now) }
        ensures progress { IfOk result (λ n. 0 < length piece.now → 0 < n) }
        ensures taken { IfOk result (λ n. held self.new ≡ with_back (held self.old) (take n piece.now)) }
        ensures none_taken { OnErr result (held self.new ≡ held self.old) }
        ensures cause { HasCause (faults self.old) (faults self.new) result }
        ensures gives { put_gives self.old piece.now result self.new };
}
