//! Letters in upper case.

ghost use Rattle.std.specs.Prelude.{◌≡◌, ◌++◌, replicate, OnOk};
ghost use Rattle.text_options.specs.Kept.{Kept};
ghost use Rattle.text_options.specs.Spelling as spec;

use crate::options::Letters;
use std::alloc::AllocError;
use text_pieces::piece::Kind;

/// Spaces, as many as a column can be away.
static SPACES: [u8; 256] = [b' '; 256];

/// Returns so many spaces.
pub fn spaces(n: u8) -> &'static [u8]
    ensures { result.now ≡ replicate n 32 }
{
    &SPACES[..usize::from(n)]
}

/// A small letter up to a last one as its capital, and any other byte as it is.
#[inline]
#[tactic(auto, unfolding(crate::specs::Spelling::capital))]
fn capital(last: u8, c: u8) -> u8
    ensures { result ≡ spec.capital last c }
{
    if b'a' <= c && c <= last { c - 32 } else { c }
}

/// Appends bytes, each small letter up to a last one as its capital. Under `Err` some of them may be appended.
#[tactic(auto, using(crate::proofs::Kept::kept_rules))]
pub fn append_capitals(out: &mut Vec<u8>, last: u8, characters: &[u8]) -> Result<(), AllocError>
    ensures done { OnOk result (out.new.items ≡ out.old.items ++ spec.capitals last characters.now) }
    ensures kept { Kept out.old.items out.new.items }
{
    for c in characters {
        out.push(capital(last, *c))?;
    }
    Ok(())
}

/// Whether a piece of this kind is in upper case.
#[tactic(auto, unfolding(crate::specs::Spelling::is_upper))]
fn is_upper(letters: Letters, kind: Kind) -> bool
    ensures { result ≡ spec.is_upper letters kind }
{
    match letters {
        Letters::Lower => false,
        Letters::UpperNames => match kind {
            Kind::Prefix | Kind::Mnemonic => true,
            _ => false,
        },
        Letters::UpperRegisters => match kind {
            Kind::Register => true,
            _ => false,
        },
        Letters::UpperKeywords => match kind {
            Kind::Keyword => true,
            _ => false,
        },
        Letters::Upper => match kind {
            Kind::Prefix | Kind::Mnemonic | Kind::Register | Kind::Keyword => true,
            _ => false,
        },
    }
}

/// Appends the characters of a piece of this kind. Under `Err` some of them may be appended.
#[tactic(auto, unfolding(crate::specs::Spelling::spelled), using(crate::proofs::Kept::kept_rules))]
pub fn append_spelled(
    out: &mut Vec<u8>,
    letters: Letters,
    kind: Kind,
    characters: &[u8],
) -> Result<(), AllocError>
    ensures done { OnOk result (out.new.items ≡ out.old.items ++ spec.spelled letters kind characters.now) }
    ensures kept { Kept out.old.items out.new.items }
{
    if is_upper(letters, kind) {
        append_capitals(out, b'z', characters)
    } else {
        out.extend_from_slice(characters)
    }
}
