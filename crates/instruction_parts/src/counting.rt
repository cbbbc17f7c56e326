//! What a list of prefix bytes counts for.

ghost use Rattle.std.specs.Prelude.{◌≡◌, ◌<◌};
ghost use Rattle.std.specs.List.{list_any};
ghost use Rattle.instruction_parts.specs.Counting as spec;
ghost use Rattle.instruction_parts.specs.Front as front;

use x86_values::{Bits, Rep, Segment};

/// Returns whether a byte is F2 or F3.
#[inline]
pub fn is_repeat(b: u8) -> bool
    ensures { result ≡ spec.is_repeat b }
{
    b == 0xF2 || b == 0xF3
}

/// Returns whether a byte is a segment prefix.
#[inline]
#[tactic(auto, unfolding(crate::specs::Counting::is_segment))]
pub fn is_segment(b: u8) -> bool
    ensures { result ≡ spec.is_segment b }
{
    b == 0x26 || b == 0x2E || b == 0x36 || b == 0x3E || b == 0x64 || b == 0x65
}

/// Returns whether a byte is one of the eleven legacy prefixes.
#[inline]
#[tactic(auto, unfolding(crate::specs::Counting::is_legacy_prefix))]
pub fn is_legacy_prefix(b: u8) -> bool
    ensures { result ≡ spec.is_legacy_prefix b }
{
    b == 0xF0 || is_repeat(b) || is_segment(b) || b == 0x66 || b == 0x67
}

/// Returns whether a byte is 40 to 4F, a REX in 64-bit mode.
#[inline]
pub fn is_rex(b: u8) -> bool
    ensures { result ≡ spec.is_rex b }
{
    b / 16 == 4
}

/// Returns whether the mode is 64.
#[inline]
pub fn is_64(bits: Bits) -> bool
    ensures { result ≡ spec.is_64 bits }
{
    match bits {
        Bits::B64 => true,
        _ => false,
    }
}

/// Returns whether a size is 16.
#[inline]
pub fn is_16(bits: Bits) -> bool
    ensures { result ≡ spec.is_16 bits }
{
    match bits {
        Bits::B16 => true,
        _ => false,
    }
}

/// Returns whether a size is 32.
#[inline]
pub fn is_32(bits: Bits) -> bool
    ensures { result ≡ spec.is_32 bits }
{
    match bits {
        Bits::B32 => true,
        _ => false,
    }
}

/// Returns whether a byte is a prefix in the mode.
#[inline]
#[tactic(auto, unfolding(crate::specs::Counting::is_prefix))]
pub fn is_prefix(bits: Bits, b: u8) -> bool
    ensures { result ≡ spec.is_prefix bits b }
{
    is_legacy_prefix(b) || (is_64(bits) && is_rex(b))
}

/// Returns whether LOCK occurs.
#[inline]
#[tactic(auto, unfolding(crate::specs::Counting::has_lock))]
pub fn has_lock(prefixes: &[u8]) -> bool
    ensures { result ≡ spec.has_lock prefixes.now }
{
    prefixes.iter().any(|b| *b == 0xF0)
}

/// Returns whether 66 occurs.
#[inline]
#[tactic(auto, unfolding(crate::specs::Counting::has_66))]
pub fn has_66(prefixes: &[u8]) -> bool
    ensures { result ≡ spec.has_66 prefixes.now }
{
    prefixes.iter().any(|b| *b == 0x66)
}

/// Returns whether 67 occurs.
#[inline]
#[tactic(auto, unfolding(crate::specs::Counting::has_67))]
pub fn has_67(prefixes: &[u8]) -> bool
    ensures { result ≡ spec.has_67 prefixes.now }
{
    prefixes.iter().any(|b| *b == 0x67)
}

/// The last of F2 and F3.
fn last_repeat(prefixes: &[u8]) -> Option<u8>
    ensures { result ≡ spec.last_where spec.is_repeat prefixes.now }
{
    prefixes.iter().rev().copied().find(|b| is_repeat(*b))
}

/// Returns the effective repeat prefix: the last F2 or F3.
#[inline]
#[tactic(auto, unfolding(crate::specs::Counting::counting_repeat))]
pub fn counting_repeat(prefixes: &[u8]) -> Rep
    ensures { result ≡ spec.counting_repeat prefixes.now }
{
    match last_repeat(prefixes) {
        Some(b) => { if b == 0xF2 { Rep::F2 } else { Rep::F3 } }
        None => Rep::None,
    }
}

/// Returns the segment that a prefix byte names.
#[inline]
#[tactic(auto, unfolding(crate::specs::Counting::segment_named))]
pub fn segment_named(b: u8) -> Segment
    ensures { result ≡ spec.segment_named b }
{
    match b {
        0x26 => Segment::Es,
        0x2E => Segment::Cs,
        0x36 => Segment::Ss,
        0x3E => Segment::Ds,
        0x64 => Segment::Fs,
        _ => Segment::Gs,
    }
}

/// The last segment prefix.
fn last_segment(prefixes: &[u8]) -> Option<u8>
    ensures { result ≡ spec.last_where spec.is_segment prefixes.now }
{
    prefixes.iter().rev().copied().find(|b| is_segment(*b))
}

/// The last of FS and GS.
fn last_fs_or_gs(prefixes: &[u8]) -> Option<u8>
    ensures { result ≡ spec.last_where spec.is_fs_or_gs prefixes.now }
{
    prefixes
        .iter()
        .rev()
        .copied()
        .find(|b| *b == 0x64 || *b == 0x65)
}

/// The byte of the counting segment prefix.
fn counting_segment_byte(bits: Bits, prefixes: &[u8]) -> Option<u8>
    ensures { result ≡ spec.counting_segment_byte bits prefixes.now }
{
    match bits {
        Bits::B64 => match last_fs_or_gs(prefixes) {
            Some(b) => Some(b),
            None => last_segment(prefixes),
        },
        _ => last_segment(prefixes),
    }
}

/// Returns the effective segment prefix.
#[inline]
#[tactic(auto, unfolding(crate::specs::Counting::counting_segment))]
pub fn counting_segment(bits: Bits, prefixes: &[u8]) -> Option<Segment>
    ensures { result ≡ spec.counting_segment bits prefixes.now }
{
    match counting_segment_byte(bits, prefixes) {
        Some(b) => Some(segment_named(b)),
        None => None,
    }
}

/// Returns the effective REX: the last prefix byte, if it is a REX and the mode is 64.
#[inline]
#[tactic(auto, unfolding(crate::specs::Counting::counting_rex))]
pub fn counting_rex(bits: Bits, prefixes: &[u8]) -> Option<u8>
    ensures { result ≡ spec.counting_rex bits prefixes.now }
{
    match bits {
        Bits::B64 => match prefixes {
            [.., last] if is_rex(*last) => Some(*last),
            _ => None,
        },
        _ => None,
    }
}

/// Whether F2 or F3 occurs.
fn has_repeat(prefixes: &[u8]) -> bool
    ensures { result ≡ list_any spec.is_repeat prefixes.now }
{
    prefixes.iter().any(|b| is_repeat(*b))
}

/// Returns whether a prefix before a VEX makes it invalid.
#[inline]
#[tactic(auto, unfolding(crate::specs::Front::forbids_vex))]
pub fn forbids_vex(bits: Bits, prefixes: &[u8]) -> bool
    ensures { result ≡ front.forbids_vex bits prefixes.now }
{
    has_lock(prefixes)
        || has_66(prefixes)
        || has_repeat(prefixes)
        || counting_rex(bits, prefixes).is_some()
}
