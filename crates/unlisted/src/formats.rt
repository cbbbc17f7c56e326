//! What follows an opcode byte, by the formats alone (Intel SDM volume 2, 2.3, 2.7 and appendix A; AMD64 manual volume 3, chapter 1 and appendix A).

ghost use Rattle.std.specs.Prelude.{◌≡◌, ◌≤◌, IfSome};
ghost use Rattle.instruction_parts.specs.Front as front;
ghost use Rattle.unlisted.specs.Formats as spec;

use crate::{Kind, ShapeFlow};
use instruction_parts::counting::{counting_repeat, counting_rex, has_66, is_16, is_64};
use instruction_parts::sizes::{bit_of_byte, bit_of_rex};
use row_fit::fits::{is_no_repeat, is_repeat_f2, is_repeat_f3};
use x86_values::{Bits, Rep};

/// Which ModRM bytes a format has.
#[derive(Clone, Copy)]
pub(crate) enum ModRmBytes {
    /// None.
    No,
    /// Any byte.
    Any,
    /// Those with this number in the field reg.
    Reg(u8),
    /// Those from the first to the second.
    Between(u8, u8),
    /// E0, E1, E4 and E5, which do nothing after DB.
    X87NoOps,
}

/// Where control goes behind an opcode byte.
#[derive(Clone, Copy)]
pub(crate) enum TailFlow {
    /// This one for each ModRM byte, and no branch.
    Always(ShapeFlow),
    /// A branch with a distance of one byte.
    ShortBranch,
    /// A branch whose distance has the operand size.
    NearBranch,
    /// By the ModRM byte after 0F 01.
    System,
}

/// What follows an opcode byte: ModRM with SIB and displacement, or none, then immediates; or the distance of a branch.
#[derive(Clone, Copy)]
pub(crate) struct Tail {
    pub(crate) kind: Kind,
    pub(crate) modrm: ModRmBytes,
    pub(crate) flow: TailFlow,
    /// How many bytes of immediates there are.
    pub(crate) immediates: u8,
}

/// The first byte of an encoding with more bytes before the opcode byte: 62, C5, C4 and 8F.
#[derive(Clone, Copy)]
pub(crate) enum Lead {
    Evex,
    Vex2,
    Vex3,
    Xop,
}

/// Whether a byte is between two others.
#[tactic(auto, unfolding(crate::specs::Formats::within))]
fn within(least: u8, most: u8, b: u8) -> bool
    ensures { result ≡ spec.within least most b }
{
    least <= b && b <= most
}

/// Whether the top two bits of a byte are 11.
fn top_two_set(b: u8) -> bool
    ensures { result ≡ front.top_two_set b }
{
    b / 64 == 3
}

/// How many bytes a word or doubleword of the operand size has: 2 or 4.
#[tactic(auto, unfolding(crate::specs::Formats::word_bytes))]
fn word_bytes(bits: Bits, prefixes: &[u8]) -> u8
    ensures value { result ≡ spec.word_bytes bits prefixes.now }
    ensures small { result ≤ 8 }
{
    if bit_of_rex(3, counting_rex(bits, prefixes)) {
        4
    } else if has_66(prefixes) {
        if is_16(bits) { 4 } else { 2 }
    } else if is_16(bits) {
        2
    } else {
        4
    }
}

/// Whether a ModRM byte belongs to a format.
#[tactic(auto, unfolding(crate::specs::Formats::allows))]
pub(crate) fn allows(modrm: ModRmBytes, b: u8) -> bool
    ensures { result ≡ spec.allows modrm b }
{
    match modrm {
        ModRmBytes::No => false,
        ModRmBytes::Any => true,
        ModRmBytes::Reg(reg) => b / 8 % 8 == reg,
        ModRmBytes::Between(least, most) => within(least, most, b),
        ModRmBytes::X87NoOps => within(0xE0, 0xE1, b) || within(0xE4, 0xE5, b),
    }
}

/// Whether a format has a ModRM byte.
#[tactic(auto, unfolding(crate::specs::Formats::has_modrm))]
pub(crate) fn has_modrm(modrm: ModRmBytes) -> bool
    ensures { result ≡ spec.has_modrm modrm }
{
    match modrm {
        ModRmBytes::No => false,
        _ => true,
    }
}

/// These ModRM bytes and so many bytes of immediates, after which control continues.
fn tail_of(kind: Kind, modrm: ModRmBytes, immediates: u8) -> Tail
    ensures { result ≡ spec.tail_of kind modrm immediates }
{
    Tail {
        kind,
        modrm,
        flow: TailFlow::Always(ShapeFlow::Next),
        immediates,
    }
}

/// The tail of a legacy instruction, after which control continues.
pub(crate) fn legacy(modrm: ModRmBytes, immediates: u8) -> Tail
    ensures { result ≡ spec.legacy modrm immediates }
{
    tail_of(Kind::Legacy, modrm, immediates)
}

/// The tail of a legacy instruction with any flow.
fn flowing(flow: TailFlow, modrm: ModRmBytes, immediates: u8) -> Tail
    ensures { result ≡ spec.flowing flow modrm immediates }
{
    Tail {
        kind: Kind::Legacy,
        modrm,
        flow,
        immediates,
    }
}

/// The x87 instructions that have a second encoding, FFREEP, and those that do nothing on today's processors.
#[tactic(auto, unfolding(crate::specs::Formats::x87_tail))]
fn x87_tail(b: u8) -> Option<Tail>
    ensures { result ≡ spec.x87_tail b }
{
    if b == 0xD9 {
        Some(legacy(ModRmBytes::Between(0xD8, 0xDF), 0))
    } else if b == 0xDB {
        Some(legacy(ModRmBytes::X87NoOps, 0))
    } else if b == 0xDC {
        Some(legacy(ModRmBytes::Between(0xD0, 0xDF), 0))
    } else if b == 0xDD {
        Some(legacy(ModRmBytes::Between(0xC8, 0xCF), 0))
    } else if b == 0xDE {
        Some(legacy(ModRmBytes::Between(0xD0, 0xD7), 0))
    } else if b == 0xDF {
        Some(legacy(ModRmBytes::Between(0xC0, 0xDF), 0))
    } else {
        None
    }
}

/// The tails of XABORT, XBEGIN and SALC.
#[tactic(auto, unfolding(crate::specs::Formats::single_tail))]
fn single_tail(bits: Bits, b: u8) -> Option<Tail>
    ensures { result ≡ spec.single_tail bits b }
{
    if b == 0xC6 {
        let flow = TailFlow::Always(ShapeFlow::Elsewhere);
        Some(flowing(flow, ModRmBytes::Between(0xF8, 0xF8), 1))
    } else if b == 0xC7 {
        let modrm = ModRmBytes::Between(0xF8, 0xF8);
        Some(flowing(TailFlow::NearBranch, modrm, 0))
    } else if b == 0xD6 && !is_64(bits) {
        Some(legacy(ModRmBytes::No, 0))
    } else {
        x87_tail(b)
    }
}

/// The tail of an opcode byte of the one-byte map.
#[tactic(auto, unfolding(crate::specs::Formats::one_byte_tail))]
pub(crate) fn one_byte_tail(bits: Bits, prefixes: &[u8], b: u8) -> Option<Tail>
    ensures { result ≡ spec.one_byte_tail bits prefixes.now b }
{
    if within(0xD0, 0xD3, b) {
        Some(legacy(ModRmBytes::Reg(6), 0))
    } else if within(0xC0, 0xC1, b) {
        Some(legacy(ModRmBytes::Reg(6), 1))
    } else if b == 0xF6 {
        Some(legacy(ModRmBytes::Reg(1), 1))
    } else if b == 0xF7 {
        Some(legacy(ModRmBytes::Reg(1), word_bytes(bits, prefixes)))
    } else {
        single_tail(bits, b)
    }
}

/// Whether an opcode byte after 0F has a ModRM byte and no immediates, and control continues.
#[tactic(auto, unfolding(crate::specs::Formats::is_group))]
fn is_group(b: u8) -> bool
    ensures { result ≡ spec.is_group b }
{
    b == 0x0D
        || within(0x18, 0x1F, b)
        || b == 0x79
        || b == 0xAE
        || b == 0xB7
        || b == 0xBF
        || b == 0xC7
}

/// Whether nothing follows an opcode byte after 0F, and control continues: BSWAP and WBNOINVD.
#[tactic(auto, unfolding(crate::specs::Formats::is_bare))]
fn is_bare(prefixes: &[u8], b: u8) -> bool
    ensures { result ≡ spec.is_bare prefixes.now b }
{
    within(0xC8, 0xCF, b) || (b == 0x09 && is_repeat_f3(counting_repeat(prefixes)))
}

/// The tail of an opcode byte after 0F from which control may go elsewhere: the group 01, UD0, RSM and GETSEC.
#[tactic(auto, unfolding(crate::specs::Formats::control_tail))]
fn control_tail(b: u8) -> Option<Tail>
    ensures { result ≡ spec.control_tail b }
{
    if b == 0x01 {
        Some(flowing(TailFlow::System, ModRmBytes::Any, 0))
    } else if b == 0xFF {
        let flow = TailFlow::Always(ShapeFlow::Exception);
        Some(flowing(flow, ModRmBytes::Any, 0))
    } else if b == 0xAA {
        let flow = TailFlow::Always(ShapeFlow::Return);
        Some(flowing(flow, ModRmBytes::No, 0))
    } else if b == 0x37 {
        let flow = TailFlow::Always(ShapeFlow::Elsewhere);
        Some(flowing(flow, ModRmBytes::No, 0))
    } else {
        None
    }
}

/// How many bytes of immediates follow 0F 78: two with 66 or F2 (EXTRQ, INSERTQ), else none (VMREAD).
#[tactic(auto, unfolding(crate::specs::Formats::extract_immediates))]
fn extract_immediates(prefixes: &[u8]) -> u8
    ensures { result ≡ spec.extract_immediates prefixes.now }
{
    if has_66(prefixes) || is_repeat_f2(counting_repeat(prefixes)) {
        2
    } else {
        0
    }
}

/// The tail of an opcode byte after 0F, other than 38 and 3A.
#[tactic(auto, unfolding(crate::specs::Formats::two_byte_tail))]
pub(crate) fn two_byte_tail(prefixes: &[u8], b: u8) -> Option<Tail>
    ensures { result ≡ spec.two_byte_tail prefixes.now b }
{
    if is_group(b) {
        Some(legacy(ModRmBytes::Any, 0))
    } else if is_bare(prefixes, b) {
        Some(legacy(ModRmBytes::No, 0))
    } else if b == 0x0E {
        Some(tail_of(Kind::Now3d, ModRmBytes::No, 0))
    } else if b == 0x0F {
        Some(tail_of(Kind::Now3d, ModRmBytes::Any, 1))
    } else if b == 0x78 {
        Some(legacy(ModRmBytes::Any, extract_immediates(prefixes)))
    } else if b == 0x2B && !is_no_repeat(counting_repeat(prefixes)) {
        Some(legacy(ModRmBytes::Any, 0))
    } else {
        control_tail(b)
    }
}

/// The encoding that a byte after the prefixes leads, if it has more bytes before its opcode byte.
#[tactic(auto, unfolding(crate::specs::Formats::lead_of))]
pub(crate) fn lead_of(b: u8) -> Option<Lead>
    ensures { result ≡ spec.lead_of b }
{
    if b == 0x62 {
        Some(Lead::Evex)
    } else if b == 0xC5 {
        Some(Lead::Vex2)
    } else if b == 0xC4 {
        Some(Lead::Vex3)
    } else if b == 0x8F {
        Some(Lead::Xop)
    } else {
        None
    }
}

/// The number of the opcode map, from the byte after the first.
#[tactic(auto, unfolding(crate::specs::Formats::map_of))]
pub(crate) fn map_of(lead: Lead, p: u8) -> u8
    ensures { result ≡ spec.map_of lead p }
{
    match lead {
        Lead::Evex => p % 8,
        Lead::Vex2 => 1,
        Lead::Vex3 | Lead::Xop => p % 32,
    }
}

/// Whether the byte after the first has the fixed bits and a map of the format.
#[tactic(auto, unfolding(crate::specs::Formats::stands))]
pub(crate) fn stands(bits: Bits, lead: Lead, p: u8) -> bool
    ensures { result ≡ spec.stands bits lead p }
{
    match lead {
        Lead::Evex => (is_64(bits) || top_two_set(p))
            && !bit_of_byte(3, p)
            && (within(1, 3, p % 8) || within(5, 6, p % 8)),
        Lead::Vex2 => is_64(bits) || top_two_set(p),
        Lead::Vex3 => (is_64(bits) || top_two_set(p)) && within(0, 3, p % 32),
        Lead::Xop => within(8, 10, p % 32),
    }
}

/// Whether an opcode byte of map 0F has an immediate byte after a VEX or EVEX.
#[tactic(auto, unfolding(crate::specs::Formats::has_immediate))]
fn has_immediate(opcode: u8) -> bool
    ensures { result ≡ spec.has_immediate opcode }
{
    within(0x70, 0x73, opcode) || opcode == 0xC2 || within(0xC4, 0xC6, opcode)
}

/// How many bytes of immediates follow a VEX or EVEX of a map.
#[tactic(auto, unfolding(crate::specs::Formats::vector_immediates))]
fn vector_immediates(map: u8, opcode: u8) -> u8
    ensures { result ≡ spec.vector_immediates map opcode }
{
    if map == 3 || (map == 1 && has_immediate(opcode)) {
        1
    } else {
        0
    }
}

/// Whether a VEX has an opcode byte of the mask registers.
#[tactic(auto, unfolding(crate::specs::Formats::is_mask))]
fn is_mask(map: u8, opcode: u8) -> bool
    ensures { result ≡ spec.is_mask map opcode }
{
    if map == 1 {
        within(0x41, 0x4B, opcode) || within(0x90, 0x93, opcode) || within(0x98, 0x99, opcode)
    } else {
        map == 3 && within(0x30, 0x33, opcode)
    }
}

/// JKZD and JKNZD, the branches by a mask register, with a near or a short distance.
#[tactic(auto, unfolding(crate::specs::Formats::mask_branch))]
fn mask_branch(map: u8, opcode: u8) -> Option<TailFlow>
    ensures { result ≡ spec.mask_branch map opcode }
{
    if map == 1 && within(0x84, 0x85, opcode) {
        Some(TailFlow::NearBranch)
    } else if map == 0 && within(0x74, 0x75, opcode) {
        Some(TailFlow::ShortBranch)
    } else {
        None
    }
}

/// The tail of an opcode byte after a VEX that is no such branch: 77 of map 0F has no ModRM byte.
#[tactic(auto, unfolding(crate::specs::Formats::vex_map_tail))]
fn vex_map_tail(map: u8, opcode: u8) -> Tail
    ensures { result ≡ spec.vex_map_tail map opcode }
{
    if map == 1 && opcode == 0x77 {
        tail_of(Kind::Vex, ModRmBytes::No, 0)
    } else {
        let kind = if is_mask(map, opcode) {
            Kind::Mask
        } else {
            Kind::Vex
        };
        tail_of(kind, ModRmBytes::Any, vector_immediates(map, opcode))
    }
}

/// The tail of an opcode byte after a VEX: map 0 has the short branches alone.
#[tactic(auto, unfolding(crate::specs::Formats::vex_tail))]
fn vex_tail(map: u8, opcode: u8) -> Option<Tail>
    ensures { result ≡ spec.vex_tail map opcode }
{
    match mask_branch(map, opcode) {
        Some(flow) => Some(Tail {
            kind: Kind::Vex,
            modrm: ModRmBytes::No,
            flow,
            immediates: 0,
        }),
        None => {
            if map == 0 {
                None
            } else {
                Some(vex_map_tail(map, opcode))
            }
        }
    }
}

/// How many bytes of immediates an XOP of a map has.
#[tactic(auto, unfolding(crate::specs::Formats::xop_immediates))]
fn xop_immediates(map: u8) -> u8
    ensures { result ≡ spec.xop_immediates map }
{
    if map == 8 {
        1
    } else if map == 9 {
        0
    } else {
        4
    }
}

/// The tail of an opcode byte after an EVEX, a VEX or an XOP of a map.
#[tactic(auto, unfolding(crate::specs::Formats::vector_tail))]
pub(crate) fn vector_tail(lead: Lead, map: u8, opcode: u8) -> Option<Tail>
    ensures { result ≡ spec.vector_tail lead map opcode }
{
    match lead {
        Lead::Evex => {
            let immediates = vector_immediates(map, opcode);
            Some(tail_of(Kind::Evex, ModRmBytes::Any, immediates))
        }
        Lead::Vex2 | Lead::Vex3 => vex_tail(map, opcode),
        Lead::Xop => Some(tail_of(Kind::Xop, ModRmBytes::Any, xop_immediates(map))),
    }
}

/// Whether 0F 01 with this ModRM byte is UIRET, ERETS or ERETU.
#[tactic(auto, unfolding(crate::specs::Formats::is_system_return))]
fn is_system_return(rep: Rep, b: u8) -> bool
    ensures { result ≡ spec.is_system_return rep b }
{
    (b == 0xCA && !is_no_repeat(rep)) || (b == 0xEC && is_repeat_f3(rep))
}

/// Whether 0F 01 with this ModRM byte is VMLAUNCH, VMRESUME, ENCLU, VMRUN, SKINIT or SEAMRET.
#[tactic(auto, unfolding(crate::specs::Formats::is_system_leap))]
fn is_system_leap(prefixes: &[u8], b: u8) -> bool
    ensures { result ≡ spec.is_system_leap prefixes.now b }
{
    within(0xC2, 0xC3, b) || within(0xD7, 0xD8, b) || b == 0xDE || (b == 0xCD && has_66(prefixes))
}

/// Where control goes after 0F 01 with this ModRM byte.
#[tactic(auto, unfolding(crate::specs::Formats::system_flow))]
fn system_flow(prefixes: &[u8], b: u8) -> ShapeFlow
    ensures { result ≡ spec.system_flow prefixes.now b }
{
    if is_system_return(counting_repeat(prefixes), b) {
        ShapeFlow::Return
    } else if is_system_leap(prefixes, b) {
        ShapeFlow::Elsewhere
    } else {
        ShapeFlow::Next
    }
}

/// Where control goes after an instruction, by its ModRM byte where it depends on that.
#[tactic(auto, unfolding(crate::specs::Formats::tail_flow))]
pub(crate) fn tail_flow(prefixes: &[u8], flow: TailFlow, b: u8) -> ShapeFlow
    ensures { result ≡ spec.tail_flow prefixes.now flow b }
{
    match flow {
        TailFlow::Always(flow) => flow,
        TailFlow::ShortBranch | TailFlow::NearBranch => ShapeFlow::Branch,
        TailFlow::System => system_flow(prefixes, b),
    }
}

/// How many bytes the distance of a branch has: 1, 2 or 4.
#[tactic(auto, unfolding(crate::specs::Formats::distance_bytes))]
pub(crate) fn distance_bytes(bits: Bits, prefixes: &[u8], flow: TailFlow) -> Option<u8>
    ensures value { result ≡ spec.distance_bytes bits prefixes.now flow }
    ensures small { IfSome result (λ n. n ≤ 8) }
{
    match flow {
        TailFlow::Always(_) | TailFlow::System => None,
        TailFlow::ShortBranch => Some(1),
        TailFlow::NearBranch => Some(word_bytes(bits, prefixes)),
    }
}
