//! What the pieces in front say of a piece.

ghost use Rattle.std.specs.Prelude.{◌≡◌};
ghost use Rattle.text_options.specs.Parts as spec;

use text_pieces::piece::Kind;

/// What a piece follows.
#[derive(Clone, Copy)]
pub enum Behind {
    /// Nothing, or a piece that says nothing of the next one.
    Other,
    /// The name of the instruction.
    Name,
    /// A register.
    Register,
    /// A comma, a colon, a bracket or a parenthesis.
    Mark,
    /// A word of a size.
    SizeWord,
    /// The word in front of an address that is relative to the instruction pointer.
    RelativeWord,
}

/// Returns what the next piece follows. A keyword inside brackets is the word of a relative address; any other is of a size.
#[tactic(auto, unfolding(crate::specs::Parts::after))]
pub fn after(behind: Behind, kind: Kind) -> Behind
    ensures { result ≡ spec.after behind kind }
{
    match kind {
        Kind::Mnemonic => Behind::Name,
        Kind::Register => Behind::Register,
        Kind::Punctuation => Behind::Mark,
        Kind::Keyword => match behind {
            Behind::Mark => Behind::RelativeWord,
            _ => Behind::SizeWord,
        },
        _ => Behind::Other,
    }
}
