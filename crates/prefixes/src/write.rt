//! The bytes of a plain front, written.

ghost use Rattle.std.specs.Prelude.{◌≡◌, ◌<◌, ◌≤◌, ◌+◌, ◌++◌, IsTrue};
ghost use Rattle.arrayvec.specs.ArrayVec.{array_vec_len};
ghost use Rattle.row_fit.specs.Fits.{vex_in_range};
ghost use Rattle.plain_spelling.specs.PlainTail as spec;
ghost use Rattle.prefixes.specs.Written.{front_written};

use arrayvec::ArrayVec;
use instruction_parts::PrefixState;
use instruction_parts::row_types::Row;
use row_relation::append_lead;
use x86_values::{Bits, Rep, Segment};

/// Appends a byte if it is needed.
fn append_if(out: &mut ArrayVec<u8, 15>, needed: bool, byte: u8)
    requires { array_vec_len out.old < 15 }
    ensures items { out.new.items ≡ out.old.items ++ spec.byte_if needed byte }
    ensures one_more { array_vec_len out.new ≤ array_vec_len out.old + 1 }
{
    if needed {
        out.push(byte);
    }
}

/// The prefix byte of a segment.
fn segment_byte(segment: Segment) -> u8
    ensures { result ≡ spec.segment_byte segment }
{
    match segment {
        Segment::Es => 0x26,
        Segment::Cs => 0x2E,
        Segment::Ss => 0x36,
        Segment::Ds => 0x3E,
        Segment::Fs => 0x64,
        Segment::Gs => 0x65,
    }
}

/// Appends a segment prefix.
fn append_segment(out: &mut ArrayVec<u8, 15>, segment: Option<Segment>)
    requires { array_vec_len out.old < 15 }
    ensures items { out.new.items ≡ out.old.items ++ spec.segment_prefix segment }
    ensures one_more { array_vec_len out.new ≤ array_vec_len out.old + 1 }
{
    match segment {
        None => {}
        Some(segment) => out.push(segment_byte(segment)),
    }
}

/// Appends a repeat prefix.
fn append_repeat(out: &mut ArrayVec<u8, 15>, rep: Rep)
    requires { array_vec_len out.old < 15 }
    ensures items { out.new.items ≡ out.old.items ++ spec.repeat_prefix rep }
    ensures one_more { array_vec_len out.new ≤ array_vec_len out.old + 1 }
{
    match rep {
        Rep::None => {}
        Rep::F2 => out.push(0xF2),
        Rep::F3 => out.push(0xF3),
    }
}

/// Appends a REX.
fn append_rex(out: &mut ArrayVec<u8, 15>, rex: Option<u8>)
    requires { array_vec_len out.old < 15 }
    ensures items { out.new.items ≡ out.old.items ++ spec.rex_prefix rex }
    ensures one_more { array_vec_len out.new ≤ array_vec_len out.old + 1 }
{
    match rex {
        None => {}
        Some(rex) => out.push(rex),
    }
}

/// Appends the prefixes of a plain front.
#[tactic(auto, unfolding(plain_spelling::specs::PlainTail::prefixes_of))]
fn append_prefixes(out: &mut ArrayVec<u8, 15>, state: &PrefixState)
    requires { array_vec_len out.old + 6 ≤ 15 }
    ensures items { out.new.items ≡ out.old.items ++ spec.prefixes_of state.now }
    ensures six_more { array_vec_len out.new ≤ array_vec_len out.old + 6 }
{
    append_segment(out, state.seg);
    append_if(out, state.size66, 0x66);
    append_if(out, state.addr67, 0x67);
    append_if(out, state.lock, 0xF0);
    append_repeat(out, state.rep);
    append_rex(out, state.rex);
}

/// Appends the bytes before the opcode byte of a plain front, like [`write_prefixes`]. The list may already have at most six bytes.
#[inline(always)]
#[tactic(auto, unfolding(crate::specs::Written::front_written))]
pub fn append_front(out: &mut ArrayVec<u8, 15>, row: &Row, state: &PrefixState)
    requires vex { IsTrue (vex_in_range state.now.vex) }
    requires room { array_vec_len out.old ≤ 6 }
    ensures { out.new.items ≡ out.old.items ++ front_written row.now state.now }
{
    append_prefixes(out, state);
    append_lead(out, row.map, state.vex);
}

/// Returns the bytes before the opcode byte of the plain front of an instruction of the row: the legacy prefixes in ascending order, the REX, and the
/// VEX or the escape bytes of the map (Intel SDM volume 2, 2.1.1, 2.1.2, 2.2.1 and 2.3.5).
///
/// `state` is the result of `plain_front` for the instruction in the mode; only the range of its VEX is required.
pub fn write_prefixes(bits: Bits, row: &Row, state: &PrefixState) -> ArrayVec<u8, 15>
    requires { IsTrue (vex_in_range state.now.vex) }
    ensures { result.items ≡ front_written row.now state.now }
{
    // No part of the proof: the bytes of a front are the same in every mode.
    let _bits = bits;
    let mut out = ArrayVec::new();
    append_front(&mut out, row, state);
    out
}
