//! What the parts of a spelling up to the opcode byte say (Intel SDM volume 2, 2.1 and 2.3.5).

ghost use Rattle.std.specs.Prelude.{◌≡◌, ◌<◌, ◌+◌, length};
ghost use Rattle.instruction_parts.specs.Bytes as spec;

use crate::counting::{
    counting_repeat, counting_rex, counting_segment, has_66, has_67, has_lock, is_64, is_rex,
};
use crate::row_types::{Map, Row};
use crate::spelling::{PrefixState, Spelling, Vex};
use x86_values::{Bits, Rep};

/// Returns the length in bytes of the VEX, or of the map's escape bytes if there is none.
#[inline]
#[tactic(auto, unfolding(crate::specs::Bytes::lead_bytes, crate::specs::Bytes::vex_bytes))]
pub fn lead_len(map: Map, vex: Option<Vex>) -> u8
    ensures value { result ≡ length (spec.lead_bytes map vex) }
    ensures short { result < 4 }
{
    match vex {
        None => match map {
            Map::One => 0,
            Map::M0f => 1,
            Map::M0f38 => 2,
            Map::M0f3a => 2,
        },
        Some(v) => if v.three { 3 } else { 2 },
    }
}

/// The map of a spelling.
fn spelled_map(map: Map, vex: Option<Vex>) -> Map
    ensures { result ≡ spec.spelled_map map vex }
{
    match vex {
        None => map,
        Some(v) => v.map,
    }
}

/// Writes to `out` the state that prefixes, VEX, map and opcode byte determine.
// Most instructions have no prefix or a REX alone: neither takes a pass over the prefixes.
#[inline(always)]
pub fn state_into(
    bits: Bits,
    prefixes: &[u8],
    used: u8,
    vex: Option<Vex>,
    map: Map,
    opcode: u8,
    out: &mut PrefixState,
)
    ensures { out.new ≡ spec.state_from bits prefixes.now used vex map opcode }
{
    match prefixes.split_first() {
        None => *out = state_of_rex(None, used, vex, map, opcode),
        Some((b, rest)) => {
            if rest.len() == 0 && is_64(bits) && is_rex(*b) {
                *out = state_of_rex(Some(*b), used, vex, map, opcode);
            } else {
                state_behind(bits, prefixes, used, vex, map, opcode, out);
            }
        }
    }
}

/// The state of a front in which a REX is the only prefix, or there is none.
#[inline(always)]
fn state_of_rex(rex: Option<u8>, used: u8, vex: Option<Vex>, map: Map, opcode: u8) -> PrefixState
    ensures { result ≡ spec.state_of_rex rex used vex map opcode }
{
    PrefixState {
        used,
        size66: false,
        addr67: false,
        lock: false,
        rep: Rep::None,
        seg: None,
        rex,
        vex,
        map,
        opcode,
    }
}

/// Writes the state of a front after any prefixes to `out`.
#[inline(never)]
#[tactic(auto, unfolding(crate::specs::Bytes::state_from))]
fn state_behind(
    bits: Bits,
    prefixes: &[u8],
    used: u8,
    vex: Option<Vex>,
    map: Map,
    opcode: u8,
    out: &mut PrefixState,
)
    ensures { out.new ≡ spec.state_from bits prefixes.now used vex map opcode }
{
    *out = PrefixState {
        size66: has_66(prefixes),
        addr67: has_67(prefixes),
        lock: has_lock(prefixes),
        rep: counting_repeat(prefixes),
        seg: counting_segment(bits, prefixes),
        ..state_of_rex(counting_rex(bits, prefixes), used, vex, map, opcode)
    };
}

/// Returns the state of a spelling of the row.
#[inline]
#[tactic(auto, unfolding(crate::specs::Bytes::state_of, crate::specs::Bytes::front_bytes))]
pub fn state_of(bits: Bits, row: &Row, s: &Spelling) -> PrefixState
    ensures { result ≡ spec.state_of bits row.now s.now }
{
    let prefixes = s.prefixes.as_slice();
    let used = prefixes.len() as u8 + lead_len(row.map, s.vex);
    let map = spelled_map(row.map, s.vex);
    let mut state = state_of_rex(None, used, s.vex, map, s.opcode);
    state_into(bits, prefixes, used, s.vex, map, s.opcode, &mut state);
    state
}
