//! Reading the words in front of the name.

ghost use Rattle.std.specs.Prelude.{◌≡◌};
ghost use Rattle.intel_words.specs.Scanning.{word, rest_behind};
ghost use Rattle.intel_words.specs.ReadRegisters as registers;
ghost use Rattle.intel_words.specs.ReadWords as spec;

use crate::registers::segment_named;
use crate::scanning::{cut_behind_word, skip_if};
use x86_values::{Bits, Rep, Segment};

/// The words before a name, the name, and the text behind it.
#[derive(Clone, Copy)]
pub struct Prefixes<'t> {
    pub lock: bool,
    pub rep: Rep,
    pub seg: Option<Segment>,
    pub asize: Option<Bits>,
    pub osize: Option<Bits>,
    pub name: &'t [u8],
    pub behind: &'t [u8],
}

/// Whether a word is that of LOCK.
#[inline]
#[tactic(auto, unfolding(crate::specs::ReadWords::is_lock))]
fn is_lock(name: &[u8]) -> bool
    ensures { result ≡ spec.is_lock name.now }
{
    name == b"lock".as_slice()
}

/// The repeat prefix of a word.
#[inline]
#[tactic(auto, unfolding(crate::specs::ReadWords::repeat_prefix_of))]
fn repeat_named(name: &[u8]) -> Rep
    ensures { result ≡ spec.repeat_prefix_of name.now }
{
    if name == b"repne".as_slice() {
        Rep::F2
    } else if name == b"rep".as_slice() {
        Rep::F3
    } else {
        Rep::None
    }
}

/// Whether there is a repeat prefix.
#[inline]
#[tactic(auto, unfolding(crate::specs::ReadWords::is_repeat_prefix))]
fn is_repeat(rep: Rep) -> bool
    ensures { result ≡ spec.is_repeat_prefix rep }
{
    match rep {
        Rep::None => false,
        Rep::F2 | Rep::F3 => true,
    }
}

/// The size of two digits.
#[inline]
#[tactic(auto, unfolding(crate::specs::ReadWords::size_by))]
fn size_by(b: u8, c: u8) -> Option<Bits>
    ensures { result ≡ spec.size_by b c }
{
    if b == b'1' && c == b'6' {
        Some(Bits::B16)
    } else if b == b'3' && c == b'2' {
        Some(Bits::B32)
    } else if b == b'6' && c == b'4' {
        Some(Bits::B64)
    } else {
        None
    }
}

/// Returns the size after a letter.
#[inline]
#[tactic(auto, unfolding(crate::specs::ReadWords::size_behind))]
fn size_behind(letter: u8, name: &[u8]) -> Option<Bits>
    ensures { result ≡ spec.size_behind letter name.now }
{
    match name {
        [a, b, c] => if *a == letter { size_by(*b, *c) } else { None },
        _ => None,
    }
}

/// Reads the words before the name.
#[tactic(auto, unfolding(crate::specs::ReadWords::behind_lock, crate::specs::ReadWords::behind_repeat, crate::specs::ReadWords::behind_segment, crate::specs::ReadWords::behind_size_word))]
pub fn read_prefixes(text: &[u8]) -> Prefixes
    ensures lock { result.lock ≡ spec.is_lock (word text.now) }
    ensures rep { result.rep ≡ spec.repeat_prefix_of (word (spec.behind_lock text.now)) }
    ensures seg { result.seg ≡ registers.segment_of_word (word (spec.behind_repeat (spec.behind_lock text.now))) }
    ensures asize { result.asize ≡ spec.size_behind 97 (word (spec.behind_segment (spec.behind_repeat (spec.behind_lock text.now)))) }
    ensures osize { result.osize ≡ spec.size_behind 111 (word (spec.behind_size_word 97 (spec.behind_segment (spec.behind_repeat (spec.behind_lock text.now))))) }
    ensures name { result.name.now ≡ word (spec.behind_size_word 111 (spec.behind_size_word 97 (spec.behind_segment (spec.behind_repeat (spec.behind_lock text.now))))) }
    ensures behind { result.behind.now ≡ rest_behind (spec.behind_size_word 111 (spec.behind_size_word 97 (spec.behind_segment (spec.behind_repeat (spec.behind_lock text.now))))) }
{
    let from = cut_behind_word(text);
    let lock = is_lock(from.word);
    let from = skip_if(lock, from);
    let rep = repeat_named(from.word);
    let from = skip_if(is_repeat(rep), from);
    let seg = segment_named(from.word);
    let from = skip_if(seg.is_some(), from);
    let asize = size_behind(b'a', from.word);
    let from = skip_if(asize.is_some(), from);
    let osize = size_behind(b'o', from.word);
    let from = skip_if(osize.is_some(), from);
    Prefixes {
        lock,
        rep,
        seg,
        asize,
        osize,
        name: from.word,
        behind: from.behind,
    }
}
