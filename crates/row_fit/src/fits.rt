//! When a spelling fits a row.

ghost use Rattle.std.specs.Prelude.{◌≡◌, ◌<◌, ◌+◌, Option, false};
ghost use Rattle.std.specs.List.{list_all};
ghost use Rattle.row_fit.specs.Fits as spec;
ghost use Rattle.instruction_parts.specs.Kinds.{method_of};
ghost use Rattle.row_fit.specs.Sound.{has_modrm_rule};

use instruction_parts::counting::{forbids_vex, is_16, is_32, is_64, is_prefix};
use instruction_parts::kinds::{Method, method_of_kind};
use instruction_parts::row_types::{
    Class, LBit, Map, ModRmRule, OpKind, Place, Plus, Row, Size, WBit,
};
use instruction_parts::sizes::{bit_w, exists_in, is_vex_row, state_size};
use instruction_parts::spelling::{ModRm, PrefixState, Vex};
use x86_values::{Bits, Rep};

/// Returns whether the map is the one-byte map.
pub fn is_map_one(map: Map) -> bool
    ensures { result ≡ spec.is_map_one map }
{
    match map {
        Map::One => true,
        _ => false,
    }
}

/// Returns whether two maps are equal.
pub fn same_map(a: Map, b: Map) -> bool
    ensures { result ≡ spec.same_map a b }
{
    match (a, b) {
        (Map::One, Map::One) => true,
        (Map::M0f, Map::M0f) => true,
        (Map::M0f38, Map::M0f38) => true,
        (Map::M0f3a, Map::M0f3a) => true,
        _ => false,
    }
}

/// Returns whether there is no effective repeat prefix.
pub fn is_no_repeat(rep: Rep) -> bool
    ensures { result ≡ spec.is_no_repeat rep }
{
    match rep {
        Rep::None => true,
        _ => false,
    }
}

/// Returns whether F3 is effective.
pub fn is_repeat_f3(rep: Rep) -> bool
    ensures { result ≡ spec.is_repeat_f3 rep }
{
    match rep {
        Rep::F3 => true,
        _ => false,
    }
}

/// Returns whether F2 is effective.
pub fn is_repeat_f2(rep: Rep) -> bool
    ensures { result ≡ spec.is_repeat_f2 rep }
{
    match rep {
        Rep::F2 => true,
        _ => false,
    }
}

/// Whether an operand of the kind is read by r/m whatever mod is.
// This and the three tests below name their kinds, and do not ask for the method: that is a jump by table for each operand that is read.
#[inline]
#[tactic(auto, unfolding(instruction_parts::specs::Kinds::method_of))]
fn is_any_mode_kind(kind: OpKind) -> bool
    ensures { result ≡ spec.is_any_mode (method_of kind) }
{
    match kind {
        OpKind::Rm => true,
        _ => false,
    }
}

/// Whether an operand of the kind is read from vvvv.
#[inline]
#[tactic(auto, unfolding(instruction_parts::specs::Kinds::method_of))]
fn is_vvvv_kind(kind: OpKind) -> bool
    ensures { result ≡ spec.is_vvvv (method_of kind) }
{
    match kind {
        OpKind::By | OpKind::Hx | OpKind::Ho => true,
        _ => false,
    }
}

/// Whether the kind is a gather.
#[inline]
#[tactic(auto, unfolding(instruction_parts::specs::Kinds::method_of))]
fn is_gather_kind(kind: OpKind) -> bool
    ensures { result ≡ spec.is_gather (method_of kind) }
{
    match kind {
        OpKind::GatherX | OpKind::GatherL => true,
        _ => false,
    }
}

/// Whether an operand of the kind has an absolute address.
#[inline]
#[tactic(auto, unfolding(instruction_parts::specs::Kinds::method_of))]
fn is_offset_kind(kind: OpKind) -> bool
    ensures { result ≡ spec.is_offset (method_of kind) }
{
    match kind {
        OpKind::Ob | OpKind::Ov => true,
        _ => false,
    }
}

/// Returns whether instructions of the row have a ModRM byte (Intel SDM volume 2, 2.1.3).
#[inline]
pub fn has_modrm(row: &Row) -> bool
    ensures { result ≡ has_modrm_rule row.now.modrm }
{
    !matches!(row.modrm, ModRmRule::No)
}

/// Returns whether the row reads ModRM.mod.
#[tactic(auto, unfolding(crate::specs::Fits::reads_mode))]
pub fn reads_mode(row: &Row) -> bool
    ensures { result ≡ spec.reads_mode row.now }
{
    !row.ops.iter().any(|kind| is_any_mode_kind(*kind))
}

/// Returns whether some operand of the row is read from vvvv.
pub fn reads_vvvv(row: &Row) -> bool
    ensures { result ≡ spec.reads_by spec.is_vvvv row.now }
{
    row.ops.iter().any(|kind| is_vvvv_kind(*kind))
}

/// Returns whether the row is a gather.
pub fn reads_gather(row: &Row) -> bool
    ensures { result ≡ spec.reads_by spec.is_gather row.now }
{
    row.ops.iter().any(|kind| is_gather_kind(*kind))
}

/// Returns whether the row has an absolute address.
pub fn reads_offset(row: &Row) -> bool
    ensures { result ≡ spec.reads_by spec.is_offset row.now }
{
    row.ops.iter().any(|kind| is_offset_kind(*kind))
}

/// Returns whether each prefix byte is a prefix in the mode.
#[tactic(auto, unfolding(crate::specs::Fits::prefixes_fit))]
pub fn prefixes_fit(bits: Bits, prefixes: &[u8]) -> bool
    ensures { result ≡ spec.prefixes_fit bits prefixes.now }
{
    prefixes.iter().all(|b| is_prefix(bits, *b))
}

/// The prefix class on legacy rows.
#[tactic(auto, unfolding(crate::specs::Fits::legacy_class_fits))]
fn legacy_class_fits(class: Class, state: &PrefixState) -> bool
    ensures { result ≡ spec.legacy_class_fits class state.now }
{
    match class {
        Class::Any => true,
        Class::Np => !state.size66 && is_no_repeat(state.rep),
        Class::Nfx => is_no_repeat(state.rep),
        Class::Nf3 => !is_repeat_f3(state.rep),
        Class::P66 => state.size66 && is_no_repeat(state.rep),
        Class::F3 => is_repeat_f3(state.rep),
        Class::F2 => is_repeat_f2(state.rep),
    }
}

/// The prefix class on VEX rows, which names the value of pp.
#[tactic(auto, unfolding(crate::specs::Fits::vex_class_fits))]
fn vex_class_fits(class: Class, v: Vex) -> bool
    ensures { result ≡ spec.vex_class_fits class v }
{
    match class {
        Class::Np => v.pp == 0,
        Class::P66 => v.pp == 1,
        Class::F3 => v.pp == 2,
        Class::F2 => v.pp == 3,
        _ => false,
    }
}

/// Returns whether 66, F2 and F3 meet the row's class.
#[tactic(auto, unfolding(crate::specs::Fits::class_fits))]
pub fn class_fits(row: &Row, state: &PrefixState) -> bool
    ensures { result ≡ spec.class_fits row.now state.now }
{
    match state.vex {
        None => legacy_class_fits(row.class, state),
        Some(v) => vex_class_fits(row.class, v),
    }
}

/// Returns whether the row accepts this operand size and W.
#[tactic(auto, unfolding(crate::specs::Fits::size_fits))]
fn size_fits(bits: Bits, size: Size, operand_size: Bits, w: bool) -> bool
    ensures { result ≡ spec.size_fits bits size operand_size w }
{
    match size {
        Size::None => true,
        Size::O16 => is_16(operand_size),
        Size::O32 => is_32(operand_size),
        Size::O64 => is_64(operand_size),
        Size::O32or64 => !is_16(operand_size),
        Size::W0 => !w,
        Size::W1 => w,
    }
}

/// Whether the row names W in place of an operand size.
fn takes_w_as_size(size: Size) -> bool
    ensures { result ≡ spec.takes_w_as_size size }
{
    match size {
        Size::W0 => true,
        Size::W1 => true,
        _ => false,
    }
}

/// W of the notation, as a VEX stores it.
#[tactic(auto, unfolding(crate::specs::Fits::w_fits))]
fn w_fits(row: &Row, v: Vex) -> bool
    ensures { result ≡ spec.w_fits row.now v }
{
    takes_w_as_size(row.size)
        || match row.w {
            WBit::W0 => !v.w,
            WBit::W1 => v.w,
            _ => true,
        }
}

/// L of the notation.
#[tactic(auto, unfolding(crate::specs::Fits::l_fits))]
fn l_fits(l: LBit, v: Vex) -> bool
    ensures { result ≡ spec.l_fits l v }
{
    match l {
        LBit::L128 => !v.l,
        LBit::L256 => v.l,
        LBit::Lz => !v.l,
        _ => true,
    }
}

/// Returns whether operand size, W and L meet the row.
#[tactic(auto, unfolding(crate::specs::Fits::sizes_fit))]
pub fn sizes_fit(bits: Bits, row: &Row, state: &PrefixState) -> bool
    ensures { result ≡ spec.sizes_fit bits row.now state.now }
{
    size_fits(
        bits,
        row.size,
        state_size(bits, row, state),
        bit_w(bits, state),
    ) && match state.vex {
        None => true,
        Some(v) => w_fits(row, v) && l_fits(row.l, v),
    }
}

/// Returns whether vvvv is 0 if the row does not use it.
#[tactic(auto, unfolding(crate::specs::Fits::vvvv_fits))]
pub fn vvvv_fits(row: &Row, state: &PrefixState) -> bool
    ensures { result ≡ spec.vvvv_fits row.now state.now }
{
    match state.vex {
        None => true,
        Some(v) => v.vvvv == 0 || reads_vvvv(row),
    }
}

/// Returns whether the conditions that depend on the state alone hold.
#[inline(always)]
#[tactic(auto, unfolding(crate::specs::Fits::state_fits))]
pub fn state_fits(bits: Bits, row: &Row, state: &PrefixState) -> bool
    ensures { result ≡ spec.state_fits bits row.now state.now }
{
    exists_in(bits, row)
        && class_fits(row, state)
        && sizes_fit(bits, row, state)
        && vvvv_fits(row, state)
}

/// Returns whether there is a ModRM whose mod selects memory.
pub fn mode_is_memory(m: Option<ModRm>) -> bool
    ensures { result ≡ spec.has_memory_mode m }
{
    match m {
        None => false,
        Some(m) => m.mode3 < 3,
    }
}

/// Whether there is a ModRM whose reg is 0.
fn reg_is_zero(m: Option<ModRm>) -> bool
    ensures { result ≡ spec.has_reg_zero m }
{
    match m {
        None => false,
        Some(m) => m.reg == 0,
    }
}

/// Returns whether the top two bits after C4 or C5 are 11, or the mode is 64.
#[tactic(auto, unfolding(crate::specs::Fits::is_vex_of_mode))]
fn is_vex_of_mode(bits: Bits, v: Vex) -> bool
    ensures { result ≡ spec.is_vex_of_mode bits v }
{
    is_64(bits) || (!v.r && (if v.three { !v.x } else { v.vvvv < 8 }))
}

/// Returns whether the byte can be an opcode byte of a map in a mode.
#[tactic(auto, unfolding(crate::specs::Fits::is_opcode))]
fn is_opcode(bits: Bits, map: Map, b: u8) -> bool
    ensures { result ≡ spec.is_opcode bits map b }
{
    match map {
        Map::One => !is_prefix(bits, b) && !(b == 0x0F) && !(is_64(bits) && b == 0x62),
        Map::M0f => !(b == 0x0F) && !(b == 0x38) && !(b == 0x3A),
        _ => true,
    }
}

/// Returns whether the opcode byte allows this ModRM.
#[tactic(auto, unfolding(crate::specs::Fits::opcode_allows))]
pub fn opcode_allows(bits: Bits, map: Map, b: u8, m: Option<ModRm>) -> bool
    ensures { result ≡ spec.opcode_allows bits map b m }
{
    match map {
        Map::One => {
            (!(b == 0xC4 || b == 0xC5) || (!is_64(bits) && mode_is_memory(m)))
                && (!(b == 0x62) || mode_is_memory(m))
                && (!(b == 0x8F) || reg_is_zero(m))
        }
        _ => true,
    }
}

/// A legacy row's opcode byte is taken as one.
#[tactic(auto, unfolding(crate::specs::Fits::opcode_is_kept))]
fn opcode_is_kept(bits: Bits, map: Map, opcode: u8, m: Option<ModRm>) -> bool
    ensures { result ≡ spec.opcode_is_kept bits map opcode m }
{
    is_opcode(bits, map, opcode) && opcode_allows(bits, map, opcode, m)
}

/// Returns whether VEX occurs exactly on VEX rows, with the row's map, and at an allowed position.
#[tactic(auto, unfolding(crate::specs::Fits::vex_fits))]
pub fn vex_fits(
    bits: Bits,
    row: &Row,
    prefixes: &[u8],
    vex: Option<Vex>,
    opcode: u8,
    m: Option<ModRm>,
) -> bool
    ensures { result ≡ spec.vex_fits bits row.now prefixes.now vex opcode m }
{
    match vex {
        None => !is_vex_row(row) && opcode_is_kept(bits, row.map, opcode, m),
        Some(v) => {
            is_vex_row(row)
                && same_map(v.map, row.map)
                && !forbids_vex(bits, prefixes)
                && is_vex_of_mode(bits, v)
        }
    }
}

/// The opcode byte, or one of eight with an added register.
#[tactic(auto, unfolding(crate::specs::Fits::opcode_fits))]
fn opcode_fits(row: &Row, opcode: u8) -> bool
    ensures { result ≡ spec.opcode_fits row.now opcode }
{
    match row.plus {
        Plus::Register => row.opcode <= opcode && (opcode as u16) < row.opcode as u16 + 8,
        _ => opcode == row.opcode,
    }
}

/// A fixed ModRM byte, or one of eight with an added stack number.
fn is_fixed_byte(plus: Plus, b: u8, m: ModRm) -> bool
    ensures { result ≡ spec.is_fixed_byte plus b m }
{
    let high = m.mode3 as u16 * 64 + m.reg as u16 * 8;
    match plus {
        Plus::Stack => high == b as u16,
        _ => high + m.rm as u16 == b as u16,
    }
}

/// Returns whether ModRM occurs exactly on the rows that have one, with the digit or the fixed byte.
#[tactic(auto, unfolding(crate::specs::Fits::modrm_rule_fits))]
fn modrm_rule_fits(plus: Plus, rule: ModRmRule, m: Option<ModRm>) -> bool
    ensures { result ≡ spec.modrm_rule_fits plus rule m }
{
    match rule {
        ModRmRule::No => m.is_none(),
        ModRmRule::Any => m.is_some(),
        ModRmRule::Digit(d) => match m {
            None => false,
            Some(m) => m.reg == d,
        },
        ModRmRule::Fixed(b) => match m {
            None => false,
            Some(m) => is_fixed_byte(plus, b, m),
        },
    }
}

/// The limit to register or memory.
#[tactic(auto, unfolding(crate::specs::Fits::place_allows))]
fn place_allows(place: Place, m: ModRm) -> bool
    ensures { result ≡ spec.place_allows place m }
{
    match place {
        Place::Any => true,
        Place::Memory => m.mode3 < 3,
        Place::Register => m.mode3 == 3,
    }
}

/// Returns the limit that an operand's kind sets.
#[inline]
fn place_of_kind(kind: OpKind) -> Place
    ensures { result ≡ spec.place_of (method_of kind) }
{
    match method_of_kind(kind) {
        Method::RegisterOnly => Place::Register,
        Method::MemoryOnly | Method::Gather => Place::Memory,
        _ => Place::Any,
    }
}

/// The limits of the kinds.
fn kinds_allow(row: &Row, m: ModRm) -> bool
    ensures { result ≡ list_all (λ kind. spec.place_allows (spec.place_of (method_of kind)) m) row.now.ops }
{
    row.ops
        .iter()
        .all(|kind| place_allows(place_of_kind(*kind), m))
}

/// The limit of the row, and of each of its kinds.
#[tactic(auto, unfolding(crate::specs::Fits::place_fits))]
fn place_fits(row: &Row, m: Option<ModRm>) -> bool
    ensures { result ≡ spec.place_fits row.now m }
{
    match m {
        None => true,
        Some(m) => place_allows(row.place, m) && kinds_allow(row, m),
    }
}

/// Returns whether the opcode byte and ModRM meet the row.
#[inline(always)]
#[tactic(auto, unfolding(crate::specs::Fits::opcode_and_modrm_fit))]
pub fn opcode_and_modrm_fit(row: &Row, opcode: u8, m: Option<ModRm>) -> bool
    ensures { result ≡ spec.opcode_and_modrm_fit row.now opcode m }
{
    opcode_fits(row, opcode) && modrm_rule_fits(row.plus, row.modrm, m) && place_fits(row, m)
}
