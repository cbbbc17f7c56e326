//! How many instructions are made.

ghost use Rattle.std.specs.Prelude.{◌≡◌, ◌≤◌};
ghost use Rattle.moving_run.specs.CommandWords.Counts.{count_word};

use std::marker::Model;

/// A number of instructions for `sample`: 1 to 65,536.
#[derive(Clone, Copy)]
pub struct SampleCount {
    count: u32,
}

impl Model for SampleCount {
    ghost use Rattle.std.specs.Prelude.{ℕ};
    ghost use Rattle.moving_run.specs.CommandWords.Counts.{IsCount};

    ghost Value = { ℕ };

    ghost view = { λ c. c.count };

    ghost invariant = { λ c. IsCount c.count };

    ghost inverse = { λ count. record { count = count } };
}

impl SampleCount {
    /// Returns the number if it is 1 to 65,536.
    #[tactic(auto, unfolding(crate::specs::CommandWords::Counts::count_word))]
    pub fn new(count: u64) -> Option<SampleCount>
        ensures { result ≡ count_word count }
    {
        if count != 0 && count <= 65_536 {
            Some(SampleCount {
                count: count as u32,
            })
        } else {
            None
        }
    }

    /// Returns the number.
    #[inline]
    pub fn get(&self) -> u32
        ensures value { result ≡ self.now }
        ensures few { result ≤ 65536 }
    {
        self.count
    }
}
