//! Who knows the symbols of a program.

ghost use Rattle.std.specs.Prelude.{◌≡◌, ℕ, None, Option, option_map};

/// A symbol at an address, or in front of it.
#[derive(Clone, Copy, Debug)]
pub struct Symbol<'a> {
    /// The name, any bytes.
    pub name: &'a [u8],
    /// The offset of the address from the symbol's start. It follows the name unless it is 0.
    pub offset: u64,
}

/// A resolver of symbols: what a debugger or a linker knows of the addresses of a program.
pub trait Symbols {
    ghost use Rattle.text_options.specs.Answers.{Answer, answer};

    /// The symbol of each address, or None if there is none.
    ghost names: { Self → ℕ → Option Answer };

    /// Returns the symbol of an address.
    fn find(&self, address: u64) -> Option<Symbol<'_>>
        ensures { option_map answer result ≡ names self.now address };
}

/// A resolver that knows no symbol.
#[derive(Clone, Copy, Debug)]
pub struct NoSymbols;

impl Symbols for NoSymbols {
    ghost names = { λ _ _. None };

    fn find(&self, _address: u64) -> Option<Symbol<'_>> {
        None
    }
}
