//! The words of prefixes as GNU writes them, in the order of the bytes.

ghost use Rattle.std.specs.Prelude.{◌≡◌, ◌++◌, OnOk};
ghost use Rattle.text_options.specs.Kept.{Kept};
ghost use Rattle.text_options.specs.GnuPrefixes as spec;

use crate::options::Letters;
use crate::spelling::append_spelled;
use arrayvec::ArrayVec;
use std::alloc::AllocError;
use text_parts::registers::segment_name;
use text_pieces::piece::Kind;
use x86_values::{Bits, Instr, Rep, Segment, same_bits};

/// What a byte in front of the opcode is.
#[derive(Clone, Copy)]
pub enum Prefix {
    /// 66.
    OperandSize,
    /// 67.
    AddressSize,
    /// F0.
    Lock,
    /// F2.
    RepeatF2,
    /// F3.
    RepeatF3,
    /// 26, 2E, 36, 3E, 64 or 65.
    Segment(Segment),
    /// No prefix of these.
    No,
}

/// What each prefix does to an instruction. Where it has an effect that the text shows elsewhere, it has no word.
#[derive(Clone, Copy)]
pub struct Effects {
    pub bits: Bits,
    /// 66 has an effect.
    pub operand_size: bool,
    /// 67 has one.
    pub address_size: bool,
    /// The segment is shown by memory.
    pub segment: bool,
    /// F2 is part of the opcode.
    pub f2: bool,
    /// F3 is part of the opcode.
    pub f3: bool,
    /// F3 is called `rep`.
    pub repeats: bool,
    /// F2 is called `bnd`.
    pub bnd: bool,
    /// DS is called `notrack`.
    pub notrack: bool,
    /// The bits of REX have an effect.
    pub w: bool,
    pub r: bool,
    pub x: bool,
    pub b: bool,
    /// REX changes the register of a byte.
    pub byte: bool,
}

/// Returns what a byte is.
#[tactic(auto, unfolding(crate::specs::GnuPrefixes::prefix_of))]
pub fn prefix_of(byte: u8) -> Prefix
    ensures { result ≡ spec.prefix_of byte }
{
    match byte {
        0x66 => Prefix::OperandSize,
        0x67 => Prefix::AddressSize,
        0xF0 => Prefix::Lock,
        0xF2 => Prefix::RepeatF2,
        0xF3 => Prefix::RepeatF3,
        0x26 => Prefix::Segment(Segment::Es),
        0x2E => Prefix::Segment(Segment::Cs),
        0x36 => Prefix::Segment(Segment::Ss),
        0x3E => Prefix::Segment(Segment::Ds),
        0x64 => Prefix::Segment(Segment::Fs),
        0x65 => Prefix::Segment(Segment::Gs),
        _ => Prefix::No,
    }
}

/// Whether two prefixes are of the same kind, so that the later one counts.
#[tactic(auto, unfolding(crate::specs::GnuPrefixes::is_alike))]
fn is_alike(a: Prefix, b: Prefix) -> bool
    ensures { result ≡ spec.is_alike a b }
{
    match a {
        Prefix::OperandSize => matches!(b, Prefix::OperandSize),
        Prefix::AddressSize => matches!(b, Prefix::AddressSize),
        Prefix::Lock => matches!(b, Prefix::Lock),
        Prefix::RepeatF2 => matches!(b, Prefix::RepeatF2),
        Prefix::RepeatF3 => matches!(b, Prefix::RepeatF3),
        Prefix::Segment(_) => matches!(b, Prefix::Segment(_)),
        Prefix::No => matches!(b, Prefix::No),
    }
}

/// Whether bytes begin with prefixes of which one is of a kind.
#[tactic(auto, unfolding(crate::specs::GnuPrefixes::has_prefix))]
pub fn has_prefix(kind: Prefix, bytes: &[u8]) -> bool
    ensures { result ≡ spec.has_prefix kind bytes.now }
{
    match bytes {
        [] => false,
        [byte, rest @ ..] => match prefix_of(*byte) {
            Prefix::No => false,
            other => is_alike(kind, other) || has_prefix(kind, rest),
        },
    }
}

/// The word of 66 where it has no effect.
#[inline]
#[tactic(auto, unfolding(crate::specs::GnuPrefixes::operand_size_word))]
fn operand_size_word(bits: Bits) -> &'static [u8]
    ensures { result.now ≡ spec.operand_size_word bits }
{
    match bits {
        Bits::B16 => b"data32",
        _ => b"data16",
    }
}

/// The word of 67 where it has no effect.
#[inline]
#[tactic(auto, unfolding(crate::specs::GnuPrefixes::address_size_word))]
fn address_size_word(bits: Bits) -> &'static [u8]
    ensures { result.now ≡ spec.address_size_word bits }
{
    match bits {
        Bits::B32 => b"addr16",
        _ => b"addr32",
    }
}

/// The word of a prefix that is not the last of its kind, or has no effect.
#[tactic(auto, unfolding(crate::specs::GnuPrefixes::idle_word))]
fn idle_word(bits: Bits, prefix: Prefix) -> &'static [u8]
    ensures { result.now ≡ spec.idle_word bits prefix }
{
    match prefix {
        Prefix::OperandSize => operand_size_word(bits),
        Prefix::AddressSize => address_size_word(bits),
        Prefix::Lock => b"lock",
        Prefix::RepeatF2 => b"repnz",
        Prefix::RepeatF3 => b"repz",
        Prefix::Segment(s) => segment_name(s),
        Prefix::No => b"",
    }
}

/// Whether a prefix that is the last of its kind has no word.
#[tactic(auto, unfolding(crate::specs::GnuPrefixes::is_shown))]
fn is_shown(effects: &Effects, prefix: Prefix) -> bool
    ensures { result ≡ spec.is_shown effects.now prefix }
{
    match prefix {
        Prefix::OperandSize => effects.operand_size,
        Prefix::AddressSize => effects.address_size,
        Prefix::RepeatF2 => effects.f2,
        Prefix::RepeatF3 => effects.f3,
        Prefix::Segment(_) => effects.segment,
        _ => false,
    }
}

/// Whether a segment is DS.
#[inline]
#[tactic(auto, unfolding(crate::specs::GnuPrefixes::is_data_segment))]
fn is_data_segment(s: Segment) -> bool
    ensures { result ≡ spec.is_data_segment s }
{
    matches!(s, Segment::Ds)
}

/// The word of a prefix that is the last of its kind, and that nothing else shows.
#[tactic(auto, unfolding(crate::specs::GnuPrefixes::last_word))]
fn last_word(effects: &Effects, prefix: Prefix) -> &'static [u8]
    ensures { result.now ≡ spec.last_word effects.now prefix }
{
    match prefix {
        Prefix::RepeatF2 => { if effects.bnd { b"bnd" } else { b"repnz" } }
        Prefix::RepeatF3 => { if effects.repeats { b"rep" } else { b"repz" } }
        Prefix::Segment(s) => {
            if effects.notrack && is_data_segment(s) {
                b"notrack"
            } else {
                segment_name(s)
            }
        }
        _ => idle_word(effects.bits, prefix),
    }
}

/// The word of a prefix, empty if it has none.
#[tactic(auto, unfolding(crate::specs::GnuPrefixes::word_of))]
fn word_of(effects: &Effects, prefix: Prefix, is_last: bool) -> &'static [u8]
    ensures { result.now ≡ spec.word_of effects.now prefix is_last }
{
    if is_last {
        if is_shown(effects, prefix) {
            b""
        } else {
            last_word(effects, prefix)
        }
    } else {
        idle_word(effects.bits, prefix)
    }
}

/// Appends a word and a space, unless it is empty. Under `Err` a part of it may be appended.
#[tactic(auto, unfolding(crate::specs::GnuPrefixes::spelled_word), using(crate::proofs::Kept::kept_rules))]
fn append_word(out: &mut Vec<u8>, letters: Letters, word: &[u8]) -> Result<(), AllocError>
    ensures done { OnOk result (out.new.items ≡ out.old.items ++ spec.spelled_word letters word.now) }
    ensures kept { Kept out.old.items out.new.items }
{
    match word {
        [] => Ok(()),
        _ => {
            append_spelled(out, letters, Kind::Prefix, word)?;
            out.extend_from_slice(b" ")
        }
    }
}

/// The names of REX, by its low four bits.
const REX_NAMES: [&str; 16] = [
    "rex", "rex.B", "rex.X", "rex.XB", "rex.R", "rex.RB", "rex.RX", "rex.RXB", "rex.W", "rex.WB",
    "rex.WX", "rex.WXB", "rex.WR", "rex.WRB", "rex.WRX", "rex.WRXB",
];

/// The name of a REX byte.
#[tactic(auto, unfolding(crate::specs::GnuPrefixes::rex_name))]
fn rex_name(byte: u8) -> &'static [u8]
    ensures { result.now ≡ spec.rex_name byte }
{
    match REX_NAMES.get((byte % 16) as usize) {
        None => b"",
        Some(name) => name.as_bytes(),
    }
}

/// Whether a REX byte has a bit without effect, or no bit and no effect.
#[tactic(auto, unfolding(crate::specs::GnuPrefixes::rex_is_idle))]
fn rex_is_idle(effects: &Effects, byte: u8) -> bool
    ensures { result ≡ spec.rex_is_idle effects.now byte }
{
    byte / 8 % 2 == 1 && !effects.w
        || byte / 4 % 2 == 1 && !effects.r
        || byte / 2 % 2 == 1 && !effects.x
        || byte % 2 == 1 && !effects.b
        || byte % 16 == 0 && !effects.byte
}

/// Whether a byte behind the other prefixes is REX.
#[inline]
#[tactic(auto, unfolding(crate::specs::GnuPrefixes::is_rex))]
fn is_rex(bits: Bits, byte: u8) -> bool
    ensures { result ≡ spec.is_rex bits byte }
{
    match bits {
        Bits::B64 => byte / 16 == 4,
        _ => false,
    }
}

/// The word of the byte behind the other prefixes: that of REX, if it has no effect, and else nothing.
#[tactic(auto, unfolding(crate::specs::GnuPrefixes::rex_word))]
fn rex_word(effects: &Effects, byte: u8) -> &'static [u8]
    ensures { result.now ≡ spec.rex_word effects.now byte }
{
    if is_rex(effects.bits, byte) && rex_is_idle(effects, byte) {
        rex_name(byte)
    } else {
        b""
    }
}

/// Appends the words of the prefixes that bytes begin with, each with a space behind it. Under `Err` a part of them may be appended.
#[tactic(auto, unfolding(crate::specs::GnuPrefixes::words), using(crate::proofs::Kept::kept_rules))]
pub fn append_words(
    out: &mut Vec<u8>,
    letters: Letters,
    effects: &Effects,
    bytes: &[u8],
) -> Result<(), AllocError>
    ensures done { OnOk result (out.new.items ≡ out.old.items ++ spec.words letters effects.now bytes.now) }
    ensures kept { Kept out.old.items out.new.items }
{
    match bytes {
        [] => Ok(()),
        [byte, rest @ ..] => match prefix_of(*byte) {
            Prefix::No => append_word(out, letters, rex_word(effects, *byte)),
            prefix => {
                append_word(
                    out,
                    letters,
                    word_of(effects, prefix, !has_prefix(prefix, rest)),
                )?;
                append_words(out, letters, effects, rest)
            }
        },
    }
}

/// The byte of a segment.
#[inline]
#[tactic(auto, unfolding(crate::specs::GnuPrefixes::segment_byte))]
fn segment_byte(s: Segment) -> u8
    ensures { result ≡ spec.segment_byte s }
{
    match s {
        Segment::Es => 0x26,
        Segment::Cs => 0x2E,
        Segment::Ss => 0x36,
        Segment::Ds => 0x3E,
        Segment::Fs => 0x64,
        Segment::Gs => 0x65,
    }
}

/// Returns the prefixes that an instruction itself has, as bytes: LOCK, F2 or F3, the segment, and 67.
#[tactic(auto, unfolding(crate::specs::GnuPrefixes::own_prefixes, crate::specs::GnuPrefixes::lock_bytes, crate::specs::GnuPrefixes::repeat_bytes, crate::specs::GnuPrefixes::segment_bytes, crate::specs::GnuPrefixes::address_bytes))]
pub fn own_prefixes(bits: Bits, instr: &Instr) -> ArrayVec<u8, 4>
    ensures { result.items ≡ spec.own_prefixes bits instr.now }
{
    let mut bytes: ArrayVec<u8, 4> = ArrayVec::new();
    if instr.lock {
        bytes.push(0xF0);
    }
    match instr.rep {
        Rep::None => {}
        Rep::F2 => bytes.push(0xF2),
        Rep::F3 => bytes.push(0xF3),
    }
    match instr.seg {
        None => {}
        Some(s) => bytes.push(segment_byte(s)),
    }
    match instr.asize {
        None => {}
        Some(size) => {
            if !same_bits(size, bits) {
                bytes.push(0x67);
            }
        }
    }
    bytes
}
