//! What a client keeps for a live block.

ghost use Rattle.std.specs.Prelude.{◌≡◌, ℕ};
ghost use Rattle.code_region.specs.State.{LiveBlock};

/// What a client keeps for each live block of a region.
pub trait LiveEntry {
    /// What its block depends on beside the entry.
    ghost Setting: { Type 0 };

    /// The address of its block.
    ghost place_of: { Self → ℕ };

    /// How many bytes its block takes.
    ghost len_in: { Setting → Self → ℕ };

    /// A live block is that of the entry.
    ghost is_block_in: { Setting → Self → LiveBlock → Type 0 };

    /// Returns the address of its block.
    fn place(&self) -> u64
        ensures { result ≡ place_of self.now };

    /// Its block starts there.
    ghost block_place: { (s : Setting) (x : Self) (b : LiveBlock) → is_block_in s x b → b.place ≡ place_of x };

    /// Its block takes so many bytes.
    ghost block_len: { (s : Setting) (x : Self) (b : LiveBlock) → is_block_in s x b → b.len ≡ len_in s x };
}
