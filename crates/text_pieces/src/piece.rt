//! The pieces of a text.

ghost use Rattle.std.specs.Prelude.{◌≡◌, ◌≤◌, ◌+◌, [], ◌∷◌, ◌++◌, length};

use std::marker::Model;
use text_parts::text::Text;

/// What a number of an operand is there for.
#[derive(Clone, Copy, PartialEq, Eq, Debug)]
pub enum Role {
    /// A constant.
    Immediate,
    /// The displacement beside a base or an index.
    Displacement,
    /// The scale of an index.
    Scale,
    /// The target of a near branch.
    Target,
    /// The address of an operand with neither base nor index, or relative to RIP or EIP.
    Address,
    /// The selector of a far pointer.
    Selector,
    /// The offset of a far pointer.
    Offset,
}

/// A number of an operand.
///
/// `value` is the operand's number: for a displacement with a minus in front it is the whole displacement, extended to 64 bits, and the digits show
/// its distance from zero. `width` is its size in bytes: that of the address for displacements and addresses, 1 for a scale, 2 for a selector, 2 or 4
/// for an offset, 1 or 2 for an immediate whose row says so, and else that of the operand size.
#[derive(Clone, Copy, PartialEq, Eq, Debug)]
pub struct Number {
    pub value: u64,
    pub width: u8,
    pub role: Role,
}

/// What a piece of a text is.
#[derive(Clone, Copy, PartialEq, Eq, Debug)]
pub enum Kind {
    /// A word of a prefix, such as `lock` or `a32`.
    Prefix,
    /// The name of the instruction.
    Mnemonic,
    /// A register, also one of a segment in front of an address; in AT&T with its `%`.
    Register,
    /// A word of a memory operand that is no register: `dword`, `ptr`, `far32`, `rel`.
    Keyword,
    /// A number, with `0x` in front or `h` behind.
    Number(Number),
    /// `+`, `-` or `*` of an address, `$` and `*` in front of an operand in AT&T.
    Operator,
    /// A comma, a colon, a bracket or a parenthesis.
    Punctuation,
    /// A space.
    Space,
}

/// A piece of a text: the bytes from `start` up to `end`, which is not included.
///
/// `operand` is the number of the operand that it belongs to, 0 to 3 in the manual's order, in all styles. Prefixes, the name and what separates
/// operands have none.
#[derive(Clone, Copy, PartialEq, Eq, Debug)]
pub struct Piece {
    pub start: u8,
    pub end: u8,
    pub operand: Option<u8>,
    pub kind: Kind,
}

/// A piece of nothing.
impl Default for Piece {
    fn default() -> Piece {
        Piece {
            start: 0,
            end: 0,
            operand: None,
            kind: Kind::Space,
        }
    }
}

/// The maximum number of pieces of a text.
pub const PIECES: usize = 40;

/// The pieces of a text, in their order: at most `PIECES`.
///
/// It is an array and a count, so that to make it empty takes one write.
#[derive(Drop)]
pub struct Pieces {
    places: [Piece; PIECES],
    count: usize,
}

impl Model for Pieces {
    ghost use Rattle.std.specs.Prelude.{◌≤◌, take};
    ghost use Rattle.text_pieces.specs.PieceList.{PieceList};

    ghost Value = { PieceList };

    ghost view = { λ p. record { items = take p.count p.places } };

    ghost invariant = { λ p. p.count ≤ 40 };
}

impl Pieces {
    /// No pieces.
    #[inline]
    pub fn new() -> Pieces
        ensures { result.items ≡ [] }
    {
        Pieces {
            places: [Piece::default(); PIECES],
            count: 0,
        }
    }

    /// Removes all pieces.
    #[inline]
    pub fn clear(&mut self)
        ensures { self.new.items ≡ [] }
    {
        self.count = 0;
    }

    /// Adds a piece at the end.
    #[inline(always)]
    pub(crate) fn push(&mut self, piece: Piece)
        requires { length self.old.items + 1 ≤ PIECES }
        ensures { self.new.items ≡ self.old.items ++ piece ∷ [] }
    {
        let count = self.count;
        self.places[count] = piece;
        self.count = count + 1;
    }

    /// Returns the pieces.
    #[inline]
    pub fn as_slice(&self) -> &[Piece]
        ensures items { result.now ≡ self.now.items }
        ensures few { length result.now ≤ 40 }
    {
        &self.places[..self.count]
    }
}

impl Default for Pieces {
    ghost is_default = { λ p. p.items ≡ [] };

    fn default() -> Pieces {
        Pieces::new()
    }
}

/// A text and its pieces. `Printed::default()` is empty; one can be used for many instructions.
#[derive(Drop, Default)]
pub struct Printed {
    pub text: Text,
    pub pieces: Pieces,
}
