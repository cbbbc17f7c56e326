//! Running sums of lengths.

ghost use Rattle.std.specs.Prelude.{◌≡◌, ◌+◌, ◌<◌, ◌≤◌, IfOk, All, length, take, sum, slice_index, slice_set};

use crate::layout::LayoutError;
use std::alloc::{AllocError, Global};
use std::marker::Model;

/// Lengths with fast prefix sums: finding a sum and growing a length each take as many steps as the count has bits.
///
/// The last `count` numbers of `tree` are the lengths. Each other number, except number 0, is the sum of two others: number `u` is the sum of `2 * u`
/// and `2 * u + 1`.
#[derive(Drop)]
pub struct Sums {
    count: usize,
    tree: Vec<u32>,
}

impl Model for Sums {
    ghost use Rattle.std.specs.Prelude.{List, ℕ, drop};
    ghost use Rattle.branch_sizes.specs.SumTree.{IsSumTree};

    ghost Value = { List ℕ };

    ghost view = { λ s. drop s.count s.tree.items };

    ghost invariant = { λ s. IsSumTree s.count s.tree.items };
}

impl Sums {
    /// Makes the sums of these lengths: at most 65,536 lengths of 1 to 15 each. The only error is `Memory`.
    pub fn make(alloc: Global, lens: &[u8]) -> Result<Sums, LayoutError>
        requires few { length lens.now ≤ 65536 }
        requires lengths { All (λ n. (1 ≤ n) × (n ≤ 15)) lens.now }
        ensures { IfOk result (λ sums. sums ≡ lens.now) }
    {
        let count = lens.len();
        let mut tree = vec![in alloc; 0u32; count]?;
        'leaves: for len in lens {
            tree.push(u32::from(*len)).map_err(AllocError::from)?;
        }
        'nodes: for u in (1..count).rev() {
            let left = tree[2 * u];
            let right = tree[2 * u + 1];
            tree[u] = left + right;
        }
        Ok(Sums { count, tree })
    }

    /// Returns the sum of the first `i` lengths. `i` is at most their count.
    #[inline]
    pub fn before(&self, i: usize) -> u64
        requires { i ≤ length self.now }
        ensures { result ≡ sum (take i self.now) }
    {
        let mut from = self.count;
        let mut to = self.count + i;
        let mut sum = 0u64;
        'levels: while from < to {
            if from % 2 == 1 {
                sum += u64::from(self.tree[from]);
                from += 1;
            }
            if to % 2 == 1 {
                to -= 1;
                sum += u64::from(self.tree[to]);
            }
            from /= 2;
            to /= 2;
        }
        sum
    }

    /// Adds `by` to length `i`, counted from 0, which stays at most 15. The other lengths do not change.
    #[inline]
    pub fn grow(&mut self, i: usize, by: u8)
        requires below { i < length self.old }
        requires fits { slice_index self.old i + by ≤ 15 }
        ensures { self.new ≡ slice_set self.old i (slice_index self.old i + by) }
    {
        let mut node = self.count + i;
        'levels: while node > 0 {
            self.tree[node] += u32::from(by);
            node /= 2;
        }
    }
}
