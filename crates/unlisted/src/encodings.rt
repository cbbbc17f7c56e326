//! The encodings without a row, read part by part. Each function goes on behind `used` bytes of an instruction.

ghost use Rattle.std.specs.Prelude.{◌≡◌, ◌≤◌, ◌+◌, length, take_while};
ghost use Rattle.instruction_parts.specs.Counting.{is_prefix};
ghost use Rattle.row_fit.specs.Fits.{displacement_bytes};
ghost use Rattle.unlisted.specs.Encodings as spec;
ghost use Rattle.unlisted.specs.Formats.{legacy};

use crate::formats::{
    Lead, ModRmBytes, Tail, allows, distance_bytes, has_modrm, lead_of, legacy, map_of,
    one_byte_tail, stands, tail_flow, two_byte_tail, vector_tail,
};
use crate::{Kind, MeasureError, Reference, Relative, Shape, ShapeFlow};
use instruction_parts::counting::{forbids_vex, has_67, is_64, is_prefix};
use instruction_parts::sizes::{address_size, bit_of_byte};
use instruction_parts::{ModRm, Sib};
use modrm_sib::{modrm_of_byte, sib_of_byte};
use row_fit::tail_fits::{displacement_bytes, needs_sib};
use row_meaning::numbers::sign_extended;
use x86_values::Bits;

/// The number of an instruction that stands in these bytes.
#[tactic(auto, unfolding(crate::specs::Encodings::relative_of))]
fn relative_of(reference: Option<Reference>, at: u8, disp: &[u8]) -> Option<Relative>
    requires { length disp.now ≤ 8 }
    ensures { result ≡ spec.relative_of reference at disp.now }
{
    match reference {
        None => None,
        Some(to) => Some(Relative {
            to,
            at,
            len: disp.len() as u8,
            distance: sign_extended(Bits::B64, disp),
        }),
    }
}

/// The displacement and the immediates that end an instruction.
#[tactic(auto, unfolding(crate::specs::Encodings::found, crate::specs::Encodings::ended))]
fn read_end(
    kind: Kind,
    flow: ShapeFlow,
    reference: Option<Reference>,
    disp_len: u8,
    imm_len: u8,
    used: u8,
    bytes: &[u8],
) -> Result<Shape, MeasureError>
    requires few { used + length bytes.now ≤ 15 }
    requires short { disp_len ≤ 8 }
    ensures { result ≡ spec.found (spec.End kind flow reference disp_len imm_len) used bytes.now }
{
    let behind = disp_len as usize + imm_len as usize;
    if behind <= bytes.len() {
        let (disp, _) = bytes.split_at(disp_len as usize);
        Ok(Shape {
            len: used + behind as u8,
            kind,
            flow,
            relative: relative_of(reference, used, disp),
        })
    } else {
        Err(MeasureError::Ended)
    }
}

/// What memory by ModRM refers to, if its displacement is relative.
#[tactic(auto, unfolding(crate::specs::Encodings::memory_reference))]
fn memory_reference(bits: Bits, asize: Bits, m: ModRm) -> Option<Reference>
    ensures { result ≡ spec.memory_reference bits asize m }
{
    if is_64(bits) && m.mode3 == 0 && m.rm == 5 {
        Some(if is_64(asize) {
            Reference::Rip
        } else {
            Reference::Eip
        })
    } else {
        None
    }
}

/// The number of bytes of the displacement: at most 8.
fn displacement_len(asize: Bits, m: ModRm, sib: Option<Sib>) -> u8
    ensures value { result ≡ displacement_bytes asize m sib }
    ensures small { result ≤ 8 }
{
    displacement_bytes(asize, m, sib)
}

/// Behind ModRM and SIB.
#[tactic(auto, unfolding(crate::specs::Encodings::end_step))]
fn read_displacement(
    bits: Bits,
    asize: Bits,
    tail: Tail,
    flow: ShapeFlow,
    m: ModRm,
    sib: Option<Sib>,
    used: u8,
    bytes: &[u8],
) -> Result<Shape, MeasureError>
    requires { used + length bytes.now ≤ 15 }
    ensures { result ≡ spec.found (spec.end_step bits asize tail flow m sib) used bytes.now }
{
    let reference = memory_reference(bits, asize, m);
    let len = displacement_len(asize, m, sib);
    let immediates = tail.immediates;
    read_end(tail.kind, flow, reference, len, immediates, used, bytes)
}

/// Behind ModRM.
#[tactic(auto, unfolding(crate::specs::Encodings::found, crate::specs::Encodings::address_step))]
fn read_address(
    bits: Bits,
    asize: Bits,
    tail: Tail,
    flow: ShapeFlow,
    m: ModRm,
    used: u8,
    bytes: &[u8],
) -> Result<Shape, MeasureError>
    requires { used + length bytes.now ≤ 15 }
    ensures { result ≡ spec.found (spec.address_step bits asize tail flow m) used bytes.now }
{
    if needs_sib(asize, m) {
        match bytes.split_first() {
            None => Err(MeasureError::Ended),
            Some((b, rest)) => read_displacement(
                bits,
                asize,
                tail,
                flow,
                m,
                Some(sib_of_byte(*b)),
                used + 1,
                rest,
            ),
        }
    } else {
        read_displacement(bits, asize, tail, flow, m, None, used, bytes)
    }
}

/// The distance that ends a branch.
fn read_branch(kind: Kind, distance: u8, used: u8, bytes: &[u8]) -> Result<Shape, MeasureError>
    requires few { used + length bytes.now ≤ 15 }
    requires short { distance ≤ 8 }
    ensures { result ≡ spec.found (spec.branch_end kind distance) used bytes.now }
{
    let reference = Some(Reference::Branch);
    read_end(kind, ShapeFlow::Branch, reference, distance, 0, used, bytes)
}

/// Behind a ModRM byte.
#[tactic(auto, unfolding(crate::specs::Encodings::found, crate::specs::Encodings::modrm_step))]
fn read_modrm(
    bits: Bits,
    prefixes: &[u8],
    tail: Tail,
    b: u8,
    used: u8,
    bytes: &[u8],
) -> Result<Shape, MeasureError>
    requires { used + length bytes.now ≤ 15 }
    ensures { result ≡ spec.found (spec.modrm_step bits prefixes.now tail b) used bytes.now }
{
    if allows(tail.modrm, b) {
        match distance_bytes(bits, prefixes, tail.flow) {
            Some(distance) => read_branch(tail.kind, distance, used, bytes),
            None => {
                let asize = address_size(bits, has_67(prefixes));
                let flow = tail_flow(prefixes, tail.flow, b);
                read_address(bits, asize, tail, flow, modrm_of_byte(b), used, bytes)
            }
        }
    } else {
        Err(MeasureError::Unknown)
    }
}

/// Behind an opcode byte with a format.
#[tactic(auto, unfolding(crate::specs::Encodings::found, crate::specs::Encodings::tail_step))]
fn read_tail(
    bits: Bits,
    prefixes: &[u8],
    tail: Tail,
    used: u8,
    bytes: &[u8],
) -> Result<Shape, MeasureError>
    requires { used + length bytes.now ≤ 15 }
    ensures { result ≡ spec.found (spec.tail_step bits prefixes.now tail) used bytes.now }
{
    if has_modrm(tail.modrm) {
        match bytes.split_first() {
            None => Err(MeasureError::Ended),
            Some((b, rest)) => read_modrm(bits, prefixes, tail, *b, used + 1, rest),
        }
    } else {
        match distance_bytes(bits, prefixes, tail.flow) {
            Some(distance) => read_branch(tail.kind, distance, used, bytes),
            None => {
                let flow = tail_flow(prefixes, tail.flow, 0);
                read_end(tail.kind, flow, None, 0, tail.immediates, used, bytes)
            }
        }
    }
}

/// Behind an opcode byte, which may have no format.
#[tactic(auto, unfolding(crate::specs::Encodings::found, crate::specs::Encodings::opcode_step))]
fn read_optional(
    bits: Bits,
    prefixes: &[u8],
    tail: Option<Tail>,
    used: u8,
    bytes: &[u8],
) -> Result<Shape, MeasureError>
    requires { used + length bytes.now ≤ 15 }
    ensures { result ≡ spec.found (spec.opcode_step bits prefixes.now tail) used bytes.now }
{
    match tail {
        None => Err(MeasureError::Unknown),
        Some(tail) => read_tail(bits, prefixes, tail, used, bytes),
    }
}

/// The opcode byte of an EVEX, a VEX or an XOP of a map.
#[tactic(auto, unfolding(crate::specs::Encodings::found, crate::specs::Encodings::vector_step))]
fn read_vector(
    bits: Bits,
    prefixes: &[u8],
    lead: Lead,
    map: u8,
    used: u8,
    bytes: &[u8],
) -> Result<Shape, MeasureError>
    requires { used + length bytes.now ≤ 15 }
    ensures { result ≡ spec.found (spec.vector_step bits prefixes.now lead map) used bytes.now }
{
    match bytes.split_first() {
        None => Err(MeasureError::Ended),
        Some((opcode, rest)) => {
            let tail = vector_tail(lead, map, *opcode);
            read_optional(bits, prefixes, tail, used + 1, rest)
        }
    }
}

/// One byte of any value, then the opcode byte.
#[tactic(auto, unfolding(crate::specs::Encodings::found))]
fn skip_byte(
    bits: Bits,
    prefixes: &[u8],
    lead: Lead,
    map: u8,
    used: u8,
    bytes: &[u8],
) -> Result<Shape, MeasureError>
    requires { used + length bytes.now ≤ 15 }
    ensures { result ≡ spec.found (spec.Byte (λ _. spec.vector_step bits prefixes.now lead map)) used bytes.now }
{
    match bytes.split_first() {
        None => Err(MeasureError::Ended),
        Some((_, rest)) => read_vector(bits, prefixes, lead, map, used + 1, rest),
    }
}

/// The bytes of an EVEX behind the one with the map.
#[tactic(auto, unfolding(crate::specs::Encodings::found, crate::specs::Encodings::evex_step))]
fn read_evex(
    bits: Bits,
    prefixes: &[u8],
    map: u8,
    used: u8,
    bytes: &[u8],
) -> Result<Shape, MeasureError>
    requires { used + length bytes.now ≤ 15 }
    ensures { result ≡ spec.found (spec.Byte (spec.evex_step bits prefixes.now map)) used bytes.now }
{
    match bytes.split_first() {
        None => Err(MeasureError::Ended),
        Some((b, rest)) => {
            if bit_of_byte(2, *b) {
                skip_byte(bits, prefixes, Lead::Evex, map, used + 1, rest)
            } else {
                Err(MeasureError::Unknown)
            }
        }
    }
}

/// Behind the byte with the map.
#[tactic(auto, unfolding(crate::specs::Encodings::map_step))]
fn read_map(
    bits: Bits,
    prefixes: &[u8],
    lead: Lead,
    map: u8,
    used: u8,
    bytes: &[u8],
) -> Result<Shape, MeasureError>
    requires { used + length bytes.now ≤ 15 }
    ensures { result ≡ spec.found (spec.map_step bits prefixes.now lead map) used bytes.now }
{
    match lead {
        Lead::Evex => read_evex(bits, prefixes, map, used, bytes),
        Lead::Vex2 => read_vector(bits, prefixes, lead, map, used, bytes),
        Lead::Vex3 | Lead::Xop => skip_byte(bits, prefixes, lead, map, used, bytes),
    }
}

/// Behind 62, C5, C4 or 8F.
#[tactic(auto, unfolding(crate::specs::Encodings::found, crate::specs::Encodings::led_step, crate::specs::Encodings::payload_step))]
fn read_led(
    bits: Bits,
    prefixes: &[u8],
    lead: Lead,
    used: u8,
    bytes: &[u8],
) -> Result<Shape, MeasureError>
    requires { used + length bytes.now ≤ 15 }
    ensures { result ≡ spec.found (spec.led_step bits prefixes.now lead) used bytes.now }
{
    if forbids_vex(bits, prefixes) {
        return Err(MeasureError::Unknown);
    }
    match bytes.split_first() {
        None => Err(MeasureError::Ended),
        Some((b, rest)) => {
            if stands(bits, lead, *b) {
                read_map(bits, prefixes, lead, map_of(lead, *b), used + 1, rest)
            } else {
                Err(MeasureError::Unknown)
            }
        }
    }
}

/// An opcode byte of any value behind 0F 38 or 0F 3A.
#[tactic(auto, unfolding(crate::specs::Encodings::found))]
fn read_any_opcode(
    bits: Bits,
    prefixes: &[u8],
    immediates: u8,
    used: u8,
    bytes: &[u8],
) -> Result<Shape, MeasureError>
    requires { used + length bytes.now ≤ 15 }
    ensures { result ≡ spec.found (spec.Byte (λ _. spec.tail_step bits prefixes.now (legacy ModRmBytes.Any immediates))) used bytes.now }
{
    match bytes.split_first() {
        None => Err(MeasureError::Ended),
        Some((_, rest)) => {
            let tail = legacy(ModRmBytes::Any, immediates);
            read_tail(bits, prefixes, tail, used + 1, rest)
        }
    }
}

/// Behind 0F.
#[tactic(auto, unfolding(crate::specs::Encodings::found, crate::specs::Encodings::escape_step))]
fn read_escape(bits: Bits, prefixes: &[u8], used: u8, bytes: &[u8]) -> Result<Shape, MeasureError>
    requires { used + length bytes.now ≤ 15 }
    ensures { result ≡ spec.found (spec.Byte (spec.escape_step bits prefixes.now)) used bytes.now }
{
    match bytes.split_first() {
        None => Err(MeasureError::Ended),
        Some((b, rest)) => {
            if *b == 0x38 {
                read_any_opcode(bits, prefixes, 0, used + 1, rest)
            } else if *b == 0x3A {
                read_any_opcode(bits, prefixes, 1, used + 1, rest)
            } else {
                let tail = two_byte_tail(prefixes, *b);
                read_optional(bits, prefixes, tail, used + 1, rest)
            }
        }
    }
}

/// Behind a byte that leads no EVEX, VEX or XOP.
#[tactic(auto, unfolding(crate::specs::Encodings::plain_step))]
fn read_plain(
    bits: Bits,
    prefixes: &[u8],
    b: u8,
    used: u8,
    bytes: &[u8],
) -> Result<Shape, MeasureError>
    requires { used + length bytes.now ≤ 15 }
    ensures { result ≡ spec.found (spec.plain_step bits prefixes.now b) used bytes.now }
{
    if b == 0x0F {
        read_escape(bits, prefixes, used, bytes)
    } else {
        let tail = one_byte_tail(bits, prefixes, b);
        read_optional(bits, prefixes, tail, used, bytes)
    }
}

/// Behind the prefixes.
#[tactic(auto, unfolding(crate::specs::Encodings::found, crate::specs::Encodings::front_step, crate::specs::Encodings::lead_step))]
fn read_front(bits: Bits, prefixes: &[u8], used: u8, bytes: &[u8]) -> Result<Shape, MeasureError>
    requires { used + length bytes.now ≤ 15 }
    ensures { result ≡ spec.found (spec.front_step bits prefixes.now) used bytes.now }
{
    match bytes.split_first() {
        None => Err(MeasureError::Ended),
        Some((b, rest)) => match lead_of(*b) {
            None => read_plain(bits, prefixes, *b, used + 1, rest),
            Some(lead) => read_led(bits, prefixes, lead, used + 1, rest),
        },
    }
}

/// The length of the run of prefix bytes at the front.
fn run_len(bits: Bits, bytes: &[u8]) -> usize
    ensures { result ≡ length (take_while (is_prefix bits) bytes.now) }
{
    bytes.iter().take_while(|b| is_prefix(bits, **b)).count()
}

/// What bytes are that hold no more than an instruction.
fn read_short(bits: Bits, bytes: &[u8]) -> Result<Shape, MeasureError>
    requires { length bytes.now ≤ 15 }
    ensures { result ≡ spec.found_in bits bytes.now }
{
    let n = run_len(bits, bytes);
    let (prefixes, rest) = bytes.split_at(n);
    read_front(bits, prefixes, n as u8, rest)
}

/// What the bytes are by the formats alone.
#[tactic(auto, unfolding(crate::specs::Encodings::format_of, crate::specs::Encodings::within_15))]
pub(crate) fn format_of(bits: Bits, bytes: &[u8]) -> Result<Shape, MeasureError>
    ensures { result ≡ spec.format_of bits bytes.now }
{
    let given = bytes.len();
    let end = given.min(15);
    match read_short(bits, &bytes[..end]) {
        Ok(shape) => Ok(shape),
        Err(MeasureError::Unknown) => Err(MeasureError::Unknown),
        Err(MeasureError::Ended) => {
            if given >= 15 {
                Err(MeasureError::Unknown)
            } else {
                Err(MeasureError::Ended)
            }
        }
    }
}
