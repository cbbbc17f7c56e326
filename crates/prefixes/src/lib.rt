//! The front of an instruction, read and written: prefixes, escape bytes, VEX and the opcode byte (Intel SDM volume 2, 2.1.1, 2.2.1, 2.3.5).
#![tactic(auto)]

ghost use Rattle.std.specs.Prelude.{◌≡◌, ◌<◌, ◌≤◌, ◌+◌, ℕ, IsTrue, IfSome, List, [], None, is_some, if◌then◌else◌, length, take_while, ◌∷◌, min};
ghost use Rattle.instruction_parts.specs.Front as front;
ghost use Rattle.instruction_parts.specs.Front.{Known};
ghost use Rattle.x86_values.specs.declared.Bits.{Bits};
ghost use Rattle.prefixes.specs.Simple as simple;
ghost use Rattle.instruction_parts.specs.Counting as counting;
ghost use Rattle.instruction_parts.specs.Bytes.{state_from};
ghost use Rattle.instruction_parts.specs.declared.spelling.PrefixState.{PrefixState};
ghost use Rattle.prefixes.specs.Answer.{is_mode, mode_of, answer_of, answer_within_15, answer_in};

use instruction_parts::bytes::state_into;
use instruction_parts::counting::{forbids_vex, is_64, is_prefix, is_rex};
use instruction_parts::sizes::bit_of_byte;
use instruction_parts::{PrefixState, Vex};

pub mod laws;
mod write;

use instruction_parts::row_types::Map;
use thiserror::Error;
pub use write::{append_front, write_prefixes};
pub use x86_values::mode_of;
use x86_values::{Bits, Rep};

/// Why bytes have no front.
#[derive(Clone, Copy, PartialEq, Eq, Debug, Error)]
pub enum PrefixError {
    /// The bytes, 14 at most, end before their opcode byte, and nothing that is forbidden was met.
    #[error("the bytes end before an opcode byte")]
    Ended,
    /// No opcode byte can follow: the map number of a VEX is invalid, a VEX follows 66, F2, F3, F0 or an effective REX, 62 is the opcode byte in
    /// 64-bit mode, 0F follows the escape byte 0F, or 15 bytes hold no opcode byte.
    #[error("no opcode byte can follow these prefixes")]
    Forbidden,
}

/// The length of the run of prefix bytes at the front.
#[inline(always)]
fn run_len(bits: Bits, bytes: &[u8]) -> usize
    ensures { result ≡ length (take_while (counting.is_prefix bits) bytes.now) }
{
    bytes.iter().take_while(|b| is_prefix(bits, **b)).count()
}

/// The length of the run of prefix bytes at the front, counted within the first 15 bytes.
#[inline(always)]
fn bounded_run_len(bits: Bits, bytes: &[u8]) -> usize
    ensures { result ≡ min 15 (length (front.prefix_run bits bytes.now)) }
{
    let end = bytes.len().min(15);
    run_len(bits, &bytes[..end])
}

/// The map that the number in a three-byte VEX names.
#[tactic(auto, unfolding(instruction_parts::specs::Front::map_numbered))]
fn map_numbered(n: u8) -> Option<Map>
    ensures { result ≡ front.map_numbered n }
{
    match n {
        1 => Some(Map::M0f),
        2 => Some(Map::M0f38),
        3 => Some(Map::M0f3a),
        _ => None,
    }
}

/// The VEX of two bytes whose second byte is b.
#[tactic(auto, unfolding(instruction_parts::specs::Front::short_vex))]
fn short_vex(b: u8) -> Vex
    ensures { result ≡ front.short_vex b }
{
    Vex {
        three: false,
        r: !bit_of_byte(7, b),
        x: false,
        b: false,
        w: false,
        l: bit_of_byte(2, b),
        map: Map::M0f,
        vvvv: 15 - b / 8 % 16,
        pp: b % 4,
    }
}

/// The VEX of three bytes whose second and third bytes are b and c, with this map.
#[tactic(auto, unfolding(instruction_parts::specs::Front::long_vex))]
fn long_vex(map: Map, b: u8, c: u8) -> Vex
    ensures { result ≡ front.long_vex map b c }
{
    Vex {
        three: true,
        r: !bit_of_byte(7, b),
        x: !bit_of_byte(6, b),
        b: !bit_of_byte(5, b),
        w: bit_of_byte(7, c),
        l: bit_of_byte(2, c),
        map,
        vvvv: 15 - c / 8 % 16,
        pp: c % 4,
    }
}

/// Behind the prefixes and the bytes of a lead: the opcode byte, or the end.
#[inline(always)]
#[tactic(auto, unfolding(instruction_parts::specs::Front::opcode_front))]
fn opcode_front(
    bits: Bits,
    prefixes: &[u8],
    lead: u8,
    vex: Option<Vex>,
    map: Map,
    bytes: &[u8],
    out: &mut PrefixState,
) -> Result<(), PrefixError>
    requires few { length prefixes.now < 16 }
    requires lead { lead < 4 }
    ensures { answer_in result out.new ≡ answer_of (front.opcode_front bits prefixes.now lead vex map bytes.now) }
{
    match bytes.split_first() {
        None => Err(PrefixError::Ended),
        Some((opcode, _)) => {
            state_into(
                bits,
                prefixes,
                prefixes.len() as u8 + lead,
                vex,
                map,
                *opcode,
                out,
            );
            Ok(())
        }
    }
}

/// Behind the prefixes and C5.
#[tactic(auto, unfolding(instruction_parts::specs::Front::short_vex_front))]
fn short_vex_front(
    bits: Bits,
    prefixes: &[u8],
    bytes: &[u8],
    out: &mut PrefixState,
) -> Result<(), PrefixError>
    requires { length prefixes.now < 16 }
    ensures { answer_in result out.new ≡ answer_of (front.short_vex_front bits prefixes.now bytes.now) }
{
    match bytes.split_first() {
        None => Err(PrefixError::Ended),
        Some((b, rest)) => opcode_front(
            bits,
            prefixes,
            2,
            Some(short_vex(*b)),
            Map::M0f,
            rest,
            out,
        ),
    }
}

/// Behind the prefixes, C4 and a byte with this map.
#[tactic(auto, unfolding(instruction_parts::specs::Front::third_byte_front))]
fn third_byte_front(
    bits: Bits,
    prefixes: &[u8],
    b: u8,
    map: Option<Map>,
    bytes: &[u8],
    out: &mut PrefixState,
) -> Result<(), PrefixError>
    requires { length prefixes.now < 16 }
    ensures { answer_in result out.new ≡ answer_of (front.third_byte_front bits prefixes.now b map bytes.now) }
{
    match map {
        None => Err(PrefixError::Forbidden),
        Some(map) => match bytes.split_first() {
            None => Err(PrefixError::Ended),
            Some((c, rest)) => {
                opcode_front(
                    bits,
                    prefixes,
                    3,
                    Some(long_vex(map, b, *c)),
                    map,
                    rest,
                    out,
                )
            }
        },
    }
}

/// Behind the prefixes and C4.
#[tactic(auto, unfolding(instruction_parts::specs::Front::long_vex_front))]
fn long_vex_front(
    bits: Bits,
    prefixes: &[u8],
    bytes: &[u8],
    out: &mut PrefixState,
) -> Result<(), PrefixError>
    requires { length prefixes.now < 16 }
    ensures { answer_in result out.new ≡ answer_of (front.long_vex_front bits prefixes.now bytes.now) }
{
    match bytes.split_first() {
        None => Err(PrefixError::Ended),
        Some((b, rest)) => third_byte_front(bits, prefixes, *b, map_numbered(*b % 32), rest, out),
    }
}

/// Behind the prefixes and C4 or C5 that is a VEX.
#[tactic(auto, unfolding(instruction_parts::specs::Front::vex_front))]
fn vex_front(
    bits: Bits,
    prefixes: &[u8],
    lead: u8,
    bytes: &[u8],
    out: &mut PrefixState,
) -> Result<(), PrefixError>
    requires { length prefixes.now < 16 }
    ensures { answer_in result out.new ≡ answer_of (front.vex_front bits prefixes.now lead bytes.now) }
{
    if forbids_vex(bits, prefixes) {
        Err(PrefixError::Forbidden)
    } else if lead == 0xC5 {
        short_vex_front(bits, prefixes, bytes, out)
    } else {
        long_vex_front(bits, prefixes, bytes, out)
    }
}

/// Behind the prefixes and 0F.
#[inline(always)]
#[tactic(auto, unfolding(instruction_parts::specs::Front::escape_front))]
fn escape_front(
    bits: Bits,
    prefixes: &[u8],
    bytes: &[u8],
    out: &mut PrefixState,
) -> Result<(), PrefixError>
    requires { length prefixes.now < 16 }
    ensures { answer_in result out.new ≡ answer_of (front.escape_front bits prefixes.now bytes.now) }
{
    match bytes.split_first() {
        None => Err(PrefixError::Ended),
        Some((b, rest)) => {
            if *b == 0x38 {
                opcode_front(bits, prefixes, 2, None, Map::M0f38, rest, out)
            } else if *b == 0x3A {
                opcode_front(bits, prefixes, 2, None, Map::M0f3a, rest, out)
            } else if *b == 0x0F {
                Err(PrefixError::Forbidden)
            } else {
                opcode_front(bits, prefixes, 1, None, Map::M0f, bytes, out)
            }
        }
    }
}

/// Behind the prefixes, at C4 or C5.
#[inline(never)]
#[tactic(auto, unfolding(instruction_parts::specs::Front::vex_or_opcode_front))]
fn vex_or_opcode_front(
    bits: Bits,
    prefixes: &[u8],
    lead: u8,
    bytes: &[u8],
    whole: &[u8],
    out: &mut PrefixState,
) -> Result<(), PrefixError>
    requires few { length prefixes.now < 16 }
    requires whole { whole.now ≡ lead ∷ bytes.now }
    ensures { answer_in result out.new ≡ answer_of (front.vex_or_opcode_front bits prefixes.now lead bytes.now) }
{
    match bits {
        Bits::B64 => vex_front(bits, prefixes, lead, bytes, out),
        _ => match bytes.split_first() {
            None => Err(PrefixError::Ended),
            Some((b, _)) => {
                if *b / 64 == 3 {
                    vex_front(bits, prefixes, lead, bytes, out)
                } else {
                    opcode_front(bits, prefixes, 0, None, Map::One, whole, out)
                }
            }
        },
    }
}

/// Behind the prefixes.
#[inline(always)]
#[tactic(auto, unfolding(instruction_parts::specs::Front::lead_front))]
fn lead_front(
    bits: Bits,
    prefixes: &[u8],
    bytes: &[u8],
    out: &mut PrefixState,
) -> Result<(), PrefixError>
    requires { length prefixes.now < 16 }
    ensures { answer_in result out.new ≡ answer_of (front.lead_front bits prefixes.now bytes.now) }
{
    match bytes.split_first() {
        None => Err(PrefixError::Ended),
        Some((b, rest)) => {
            if *b == 0xC4 || *b == 0xC5 {
                vex_or_opcode_front(bits, prefixes, *b, rest, bytes, out)
            } else if *b == 0x0F {
                escape_front(bits, prefixes, rest, out)
            } else if is_64(bits) && *b == 0x62 {
                Err(PrefixError::Forbidden)
            } else {
                opcode_front(bits, prefixes, 0, None, Map::One, bytes, out)
            }
        }
    }
}

/// The front of bytes of any length, given the length of their run of prefixes.
#[inline(always)]
fn long_front(bits: Bits, bytes: &[u8], n: usize, out: &mut PrefixState) -> Result<(), PrefixError>
    requires run { n ≡ length (front.prefix_run bits bytes.now) }
    requires few { n < 15 }
    requires within { n ≤ length bytes.now }
    ensures { answer_in result out.new ≡ answer_of (front.long_front bits bytes.now) }
{
    let (prefixes, rest) = bytes.split_at(n);
    lead_front(bits, prefixes, rest, out)
}

/// Forbids a front if 15 bytes were read without an opcode byte; `used` bytes precede it, if there is one.
#[inline(always)]
fn within_15_bytes(
    given: usize,
    used: u8,
    answer: Result<(), PrefixError>,
) -> Result<(), PrefixError>
    ensures { (out : PrefixState) → out.used ≡ used
        → answer_in result out ≡ answer_within_15 given (answer_in answer out) }
{
    match answer {
        Ok(()) => {
            if used >= 15 {
                Err(PrefixError::Forbidden)
            } else {
                Ok(())
            }
        }
        Err(PrefixError::Ended) => {
            if given >= 15 {
                Err(PrefixError::Forbidden)
            } else {
                Err(PrefixError::Ended)
            }
        }
        Err(PrefixError::Forbidden) => Err(PrefixError::Forbidden),
    }
}

/// The value of a front that has not been read.
pub const NO_FRONT: PrefixState = PrefixState {
    used: 0,
    size66: false,
    addr67: false,
    lock: false,
    rep: Rep::None,
    seg: None,
    rex: None,
    vex: None,
    map: Map::One,
    opcode: 0,
};

/// Reads the front of the bytes in a mode that is known at run time. Results and errors are those of [`read_prefixes`].
#[inline]
pub fn read_front(bits: Bits, bytes: &[u8]) -> Result<PrefixState, PrefixError>
    ensures { result ≡ answer_of (front.front_of bits bytes.now) }
{
    let mut state = NO_FRONT;
    match read_front_into(bits, bytes, &mut state) {
        Ok(()) => Ok(state),
        Err(error) => Err(error),
    }
}

/// Returns whether a byte is a prefix. Most opcode bytes are in a range without prefixes.
#[inline(always)]
fn is_prefix_byte(bits: Bits, b: u8) -> bool
    ensures { result ≡ counting.is_prefix bits b }
{
    if b >= 0x68 && b < 0xF0 {
        false
    } else {
        is_prefix(bits, b)
    }
}

/// What follows the prefixes of a front with neither VEX nor second escape byte.
#[derive(Clone, Copy)]
struct SimpleLead {
    /// The number of escape bytes: 0 or 1.
    escapes: u8,
    map: Map,
    opcode: u8,
}

/// A bit for each of the 64 bytes from `64 * n`: it is set for an opcode byte by itself.
#[inline(always)]
#[tactic(auto, unfolding(crate::specs::Simple::lone_opcodes))]
fn lone_opcodes(bits: Bits, n: u8) -> u64
    ensures { result ≡ simple.lone_opcodes bits n }
{
    match n {
        0 => 0xBFBF_BFBF_FFFF_FFFF,
        1 => {
            if is_64(bits) {
                0xFFFF_FF0B_FFFF_0000
            } else {
                0xFFFF_FF0F_FFFF_FFFF
            }
        }
        2 => 0xFFFF_FFFF_FFFF_FFFF,
        _ => 0xFFF2_FFFF_FFFF_FFCF,
    }
}

/// Returns whether a byte is an opcode byte by itself: it is no prefix, not 62 in 64-bit mode, and cannot begin a VEX.
#[inline(always)]
fn is_lone_opcode(bits: Bits, b: u8) -> bool
    ensures { result ≡ simple.is_lone_opcode bits b }
{
    (lone_opcodes(bits, b / 64) >> (b % 64)) % 2 == 1
}

/// The opcode byte behind 0F, if it is no second escape byte.
#[inline(always)]
#[tactic(auto, unfolding(crate::specs::Simple::is_escaped, instruction_parts::specs::Front::escape_front, instruction_parts::specs::Front::opcode_front))]
fn escaped_lead(bytes: &[u8]) -> Option<SimpleLead>
    ensures when { is_some result ≡ simple.is_escaped bytes.now }
    ensures lead { IfSome result (λ l. (bits : Bits) (prefixes : List ℕ) → front.escape_front bits prefixes bytes.now
        ≡ Known (state_from bits prefixes (length prefixes + l.escapes) None l.map l.opcode)) }
    ensures few { IfSome result (λ l. l.escapes < 2) }
{
    match bytes.split_first() {
        None => None,
        Some((b, _)) => {
            if *b == 0x38 || *b == 0x3A || *b == 0x0F {
                None
            } else {
                Some(SimpleLead {
                    escapes: 1,
                    map: Map::M0f,
                    opcode: *b,
                })
            }
        }
    }
}

/// The opcode byte at the front of bytes, also behind 0F; None if they begin with a prefix, a VEX or two escape bytes, or have no opcode byte.
#[inline(always)]
#[tactic(auto, unfolding(crate::specs::Simple::is_simple_lead, instruction_parts::specs::Front::lead_front, instruction_parts::specs::Front::opcode_front))]
fn simple_lead(bits: Bits, bytes: &[u8]) -> Option<SimpleLead>
    ensures when { is_some result ≡ simple.is_simple_lead bits bytes.now }
    ensures run { IfSome result (λ _. front.prefix_run bits bytes.now ≡ []) }
    ensures lead { IfSome result (λ l. (prefixes : List ℕ) → front.lead_front bits prefixes bytes.now
        ≡ Known (state_from bits prefixes (length prefixes + l.escapes) None l.map l.opcode)) }
    ensures few { IfSome result (λ l. l.escapes < 2) }
{
    match bytes.split_first() {
        None => None,
        Some((b, rest)) => {
            if *b == 0x0F {
                escaped_lead(rest)
            } else if is_lone_opcode(bits, *b) {
                Some(SimpleLead {
                    escapes: 0,
                    map: Map::One,
                    opcode: *b,
                })
            } else {
                None
            }
        }
    }
}

/// The first byte, if it is a REX.
#[inline(always)]
#[tactic(auto, unfolding(crate::specs::Simple::has_rex))]
fn leading_rex(bits: Bits, bytes: &[u8]) -> Option<u8>
    ensures when { is_some result ≡ simple.has_rex bits bytes.now }
    ensures rex { IfSome result (λ rex. simple.IsLeadingRex bits bytes.now rex) }
{
    match bytes.split_first() {
        None => None,
        Some((b, _)) => {
            if is_64(bits) && is_rex(*b) {
                Some(*b)
            } else {
                None
            }
        }
    }
}

/// The number of bytes of a REX, if there is one.
#[inline(always)]
fn rex_len(rex: Option<u8>) -> u8
    ensures { result ≡ if is_some rex then 1 else 0 }
{
    match rex {
        None => 0,
        Some(_) => 1,
    }
}

/// Returns the front of bytes with no prefix or a REX alone, before an opcode byte alone or behind 0F; None for any other bytes.
// Most fronts are such. All their other fields are constants, and the code behind a call is compiled with them.
#[inline(always)]
pub fn simple_front(bits: Bits, bytes: &[u8]) -> Option<PrefixState>
    ensures when { is_some result ≡ simple.is_simple bits bytes.now }
    ensures front { IfSome result (λ state. front.front_of bits bytes.now ≡ Known state) }
{
    let rex = leading_rex(bits, bytes);
    let run = rex_len(rex);
    let (_, rest) = bytes.split_at(run as usize);
    match simple_lead(bits, rest) {
        None => None,
        Some(lead) => Some(PrefixState {
            used: run + lead.escapes,
            rex,
            map: lead.map,
            opcode: lead.opcode,
            ..NO_FRONT
        }),
    }
}

/// The front of bytes, given the length of their run of prefixes.
#[inline(always)]
fn front_behind(
    bits: Bits,
    bytes: &[u8],
    n: usize,
    out: &mut PrefixState,
) -> Result<(), PrefixError>
    requires run { n ≡ length (front.prefix_run bits bytes.now) }
    requires few { n < 15 }
    ensures { answer_in result out.new ≡ answer_of (front.front_of bits bytes.now) }
{
    let answer = long_front(bits, bytes, n, out);
    within_15_bytes(bytes.len(), out.used, answer)
}

/// Returns the front of bytes after any prefixes.
#[inline(never)]
fn front_of_run(bits: Bits, bytes: &[u8], out: &mut PrefixState) -> Result<(), PrefixError>
    ensures { answer_in result out.new ≡ answer_of (front.front_of bits bytes.now) }
{
    let n = bounded_run_len(bits, bytes);
    if n >= 15 {
        Err(PrefixError::Forbidden)
    } else {
        front_behind(bits, bytes, n, out)
    }
}

/// Reads the front like [`read_front`], but writes it to `out`, which saves copies.
// Most instructions have no prefix or a REX alone: neither takes a pass over the prefixes.
#[inline(always)]
pub fn read_front_into(bits: Bits, bytes: &[u8], out: &mut PrefixState) -> Result<(), PrefixError>
    ensures { answer_in result out.new ≡ answer_of (front.front_of bits bytes.now) }
{
    if let Some((first, rest)) = bytes.split_first() {
        if is_64(bits) && is_rex(*first) {
            if let Some((second, _)) = rest.split_first() {
                if !is_prefix_byte(bits, *second) {
                    return front_behind(bits, bytes, 1, out);
                }
            }
        } else if !is_prefix_byte(bits, *first) {
            return front_behind(bits, bytes, 0, out);
        }
    }
    front_of_run(bits, bytes, out)
}

/// Reads the front of the bytes: what they determine up to and including the opcode byte. `BITS` is the mode: 16, 32 or 64.
///
/// It reads only the bytes of the front, and outside 64-bit mode also the byte after a C4 or C5. It does not check ModRM and the use of vvvv.
/// [`PrefixError`] says exactly when it fails.
#[inline]
pub fn read_prefixes<const BITS: u32>(bytes: &[u8]) -> Result<PrefixState, PrefixError>
    requires { IsTrue (is_mode BITS) }
    ensures { result ≡ answer_of (front.front_of (mode_of BITS) bytes.now) }
{
    read_front(mode_of::<BITS>(), bytes)
}
