//! Reading the names of registers.

ghost use Rattle.std.specs.Prelude.{◌≡◌};
ghost use Rattle.intel_words.specs.ReadRegisters as spec;

use crate::numbers::decimal_in;
use crate::scanning::{first, rest};
use x86_values::{Register, Segment};

/// Returns the segment with this first letter.
#[inline]
#[tactic(auto, unfolding(crate::specs::ReadRegisters::segment_by))]
fn segment_by(a: u8) -> Option<Segment>
    ensures { result ≡ spec.segment_by a }
{
    match a {
        b'e' => Some(Segment::Es),
        b'c' => Some(Segment::Cs),
        b's' => Some(Segment::Ss),
        b'd' => Some(Segment::Ds),
        b'f' => Some(Segment::Fs),
        b'g' => Some(Segment::Gs),
        _ => None,
    }
}

/// Returns the segment with this name.
#[inline]
#[tactic(auto, unfolding(crate::specs::ReadRegisters::segment_of_word))]
pub fn segment_named(name: &[u8]) -> Option<Segment>
    ensures { result ≡ spec.segment_of_word name.now }
{
    match name {
        [a, b] => if *b == b's' { segment_by(*a) } else { None },
        _ => None,
    }
}

/// `a`, `c`, `d` or `b`: one of the first four registers.
#[inline]
#[tactic(auto, unfolding(crate::specs::ReadRegisters::letter_number))]
fn letter_number(a: u8) -> Option<u8>
    ensures { result ≡ spec.letter_number a }
{
    match a {
        b'a' => Some(0),
        b'c' => Some(1),
        b'd' => Some(2),
        b'b' => Some(3),
        _ => None,
    }
}

/// `ax`, `cx`, `dx`, `bx`, `sp`, `bp`, `si` or `di`.
#[inline]
#[tactic(auto, unfolding(crate::specs::ReadRegisters::word_number))]
fn word_number(a: u8, b: u8) -> Option<u8>
    ensures { result ≡ spec.word_number a b }
{
    match b {
        b'x' => letter_number(a),
        b'p' => match a {
            b's' => Some(4),
            b'b' => Some(5),
            _ => None,
        },
        b'i' => match a {
            b's' => Some(6),
            b'd' => Some(7),
            _ => None,
        },
        _ => None,
    }
}

/// The number of one of eight registers.
#[inline]
#[tactic(auto, unfolding(crate::specs::ReadRegisters::below_8))]
fn below_8(number: Option<u8>) -> Option<u8>
    ensures { result ≡ spec.below_8 number }
{
    match number {
        None => None,
        Some(n) => if n < 8 { Some(n) } else { None },
    }
}

/// The number of one of R8 to R15.
#[inline]
#[tactic(auto, unfolding(crate::specs::ReadRegisters::from_8))]
fn from_8(number: Option<u8>) -> Option<u8>
    ensures { result ≡ spec.from_8 number }
{
    match number {
        None => None,
        Some(n) => if 8 <= n { Some(n) } else { None },
    }
}

/// SPL, BPL, SIL or DIL, by the number of SP, BP, SI or DI.
#[inline]
#[tactic(auto, unfolding(crate::specs::ReadRegisters::pointer_byte))]
fn pointer_byte(number: Option<u8>) -> Option<Register>
    ensures { result ≡ spec.pointer_byte number }
{
    match number {
        None => None,
        Some(n) => if 4 <= n {
            Some(Register::Low8(n))
        } else {
            None
        },
    }
}

/// A name of two letters.
#[tactic(auto, unfolding(crate::specs::ReadRegisters::two_letters))]
fn two_letters(a: u8, b: u8) -> Option<Register>
    ensures { result ≡ spec.two_letters a b }
{
    match b {
        b'l' => letter_number(a).map(Register::Low8),
        b'h' => letter_number(a).map(Register::High8),
        b's' => segment_by(a).map(Register::Seg),
        _ => word_number(a, b).map(Register::R16),
    }
}

/// Returns the register of a name of letters without the `e` or `r` of a larger register, given what follows its first letter.
#[tactic(auto, unfolding(crate::specs::ReadRegisters::register_of_letters))]
fn register_of_letters(a: u8, more: &[u8]) -> Option<Register>
    ensures { result ≡ spec.register_of_letters a more.now }
{
    match more {
        [b] => two_letters(a, *b),
        [b, c] => if *c == b'l' {
            pointer_byte(word_number(a, *b))
        } else {
            None
        },
        _ => None,
    }
}

/// Returns the register of a name that begins with `e`, given the rest.
#[tactic(auto, unfolding(crate::specs::ReadRegisters::e_named))]
fn e_named(more: &[u8]) -> Option<Register>
    ensures { result ≡ spec.e_named more.now }
{
    match more {
        [a] => if *a == b's' {
            Some(Register::Seg(Segment::Es))
        } else {
            None
        },
        [a, b] => if *a == b'i' && *b == b'p' {
            Some(Register::Eip)
        } else {
            word_number(*a, *b).map(Register::R32)
        },
        _ => None,
    }
}

/// R8 to R15 by the letter of its size.
#[inline]
#[tactic(auto, unfolding(crate::specs::ReadRegisters::sized_by))]
fn sized_by(letter: u8, number: Option<u8>) -> Option<Register>
    ensures { result ≡ spec.sized_by letter number }
{
    match letter {
        b'b' => number.map(Register::Low8),
        b'w' => number.map(Register::R16),
        b'd' => number.map(Register::R32),
        _ => None,
    }
}

/// Returns the register of a name that begins with `r`, given the rest.
#[tactic(auto, unfolding(crate::specs::ReadRegisters::r_named))]
fn r_named(more: &[u8]) -> Option<Register>
    ensures { result ≡ spec.r_named more.now }
{
    match more {
        [_] => from_8(decimal_in(more)).map(Register::R64),
        [a, b] => if b'a' <= *a {
            if *a == b'i' && *b == b'p' {
                Some(Register::Rip)
            } else {
                word_number(*a, *b).map(Register::R64)
            }
        } else if b'a' <= *b {
            sized_by(*b, from_8(decimal_in(&[*a])))
        } else {
            from_8(decimal_in(more)).map(Register::R64)
        },
        [a, b, c] => sized_by(*c, from_8(decimal_in(&[*a, *b]))),
        _ => None,
    }
}

/// Reads the number after `mm`.
#[inline]
#[tactic(auto, unfolding(crate::specs::ReadRegisters::vector_number))]
fn vector_number(text: &[u8]) -> Option<u8>
    ensures { result ≡ spec.vector_number text.now }
{
    if first(text) == b'm' && first(rest(text)) == b'm' {
        decimal_in(rest(rest(text)))
    } else {
        None
    }
}

/// Returns the register whose name has this first letter and these bytes after it.
#[tactic(auto, unfolding(crate::specs::ReadRegisters::register_from))]
fn register_from(a: u8, more: &[u8]) -> Option<Register>
    ensures { result ≡ spec.register_from a more.now }
{
    if a == b'r' {
        r_named(more)
    } else if a == b'e' {
        e_named(more)
    } else if a == b'x' {
        vector_number(more).map(Register::Xmm)
    } else if a == b'y' {
        vector_number(more).map(Register::Ymm)
    } else if a == b'm' && first(more) == b'm' {
        below_8(decimal_in(rest(more))).map(Register::Mm)
    } else if a == b's' && first(more) == b't' {
        below_8(decimal_in(rest(more))).map(Register::St)
    } else if a == b'c' && first(more) == b'r' {
        decimal_in(rest(more)).map(Register::Cr)
    } else if a == b'd' && first(more) == b'r' {
        below_8(decimal_in(rest(more))).map(Register::Dr)
    } else {
        register_of_letters(a, more)
    }
}

/// Returns the register with this name.
#[tactic(auto, unfolding(crate::specs::ReadRegisters::register_named))]
pub fn register_named(name: &[u8]) -> Option<Register>
    ensures { result ≡ spec.register_named name.now }
{
    match name {
        [] => None,
        [a, more @ ..] => register_from(*a, more),
    }
}
