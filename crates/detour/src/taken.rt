//! The instructions that are taken.

ghost use Rattle.std.specs.Prelude.{◌≡◌, ◌+◌, ◌*◌, ◌<◌, ◌≤◌, drop, length, IsTrue, IfOk, IfSome};
ghost use Rattle.move_goals.specs.Items as old;
ghost use Rattle.detour.specs.Reading.{IsItemRead, IsFront, AreCoded, IsFrontAnswer};
ghost use Rattle.detour.specs.Taken as spec;
ghost use Rattle.opcode_rows.specs.declared.generated_spots.TheConstants.{ROWS};

use crate::error::DetourError;
use crate::laws_below::laws_below;
use decoder::decode_in;
use decoder::reading_laws::wrapped_addresses_read_alike;
use flow_graph::goes_on;
use move_goals::Placed;
use opcode_rows::name;
use operand_info::flow_of;
use operand_info::laws::well_formed_codes_are_in_the_table;
use std::alloc::Global;
use x86_values::{Bits, wrap};

/// The instruction at an offset of some code.
pub(crate) fn read_item(
    bits: Bits,
    ip: u64,
    code: &[u8],
    offset: usize,
) -> Result<Placed, DetourError>
    requires { offset < length code.now }
    ensures { IsItemRead bits ip code.now offset result }
{
    well_formed_codes_are_in_the_table();
    wrapped_addresses_read_alike();
    let at = wrap(bits, u128::from(ip) + offset as u128);
    match decode_in(bits, at, &code[offset..]) {
        Ok(decoded) => Ok(Placed {
            ip: at,
            len: decoded.len,
            instr: decoded.instr,
        }),
        Err(error) => Err(DetourError::BadCode {
            at: offset as u64,
            error,
        }),
    }
}

/// The first instructions of a function, with how many bytes they have together.
#[derive(Drop)]
pub(crate) struct Taken {
    pub(crate) items: Vec<Placed>,
    pub(crate) len: usize,
}

/// The first instructions of some code, as few as have `need` bytes.
pub(crate) fn take(
    alloc: Global,
    bits: Bits,
    ip: u64,
    code: &[u8],
    need: usize,
) -> Result<Taken, DetourError>
    requires need { need ≤ 15 }
    ensures { IsFrontAnswer bits ip code.now need result }
{
    let mut items = Vec::new(alloc);
    let mut len = 0;
    'items: while len < need {
        if len == code.len() {
            return Err(DetourError::TooSmall {
                len: len as u64,
                need: need as u64,
            });
        }
        let item = read_item(bits, ip, code, len)?;
        len += usize::from(item.len);
        items.push(item)?;
    }
    Ok(Taken { items, len })
}

/// Returns whether control may continue after an instruction.
fn item_goes_on(item: &Placed) -> bool
    requires { item.now.instr.code.0 < ROWS }
    ensures { result ≡ spec.item_goes_on item.now }
{
    goes_on(flow_of(item.instr.code))
}

/// Returns whether an instruction only fills space after code: NOP of any length, or INT3.
#[tactic(auto, unfolding(crate::specs::Taken::is_padding))]
pub(crate) fn is_padding(item: &Placed) -> bool
    requires { item.now.instr.code.0 < ROWS }
    ensures { result ≡ spec.is_padding item.now }
{
    let name = name(item.instr.code);
    name == "nop" || name == "int3"
}

/// Returns the number of the first instruction after which control does not continue.
#[tactic(auto, unfolding(crate::specs::Taken::first_end))]
pub(crate) fn first_end(items: &[Placed]) -> Option<usize>
    requires { AreCoded items.now }
    ensures value { result ≡ spec.first_end items.now }
    ensures within { IfSome result (λ k. k < length items.now) }
{
    laws_below();
    'items: for k in 0..items.len() {
        if !item_goes_on(&items[k]) {
            return Some(k);
        }
    }
    None
}

/// Returns how many of some instructions are moved: those up to the first after which control does not continue.
pub(crate) fn moved_count(items: &[Placed]) -> usize
    requires { AreCoded items.now }
    ensures value { result ≡ spec.moved_count items.now }
    ensures within { result ≤ length items.now }
{
    match first_end(items) {
        Some(k) => k + 1,
        None => items.len(),
    }
}

/// The offset at which instruction `k` begins.
pub(crate) fn offset_at(items: &[Placed], k: usize) -> usize
    requires within { k ≤ length items.now }
    requires few { length items.now ≤ 65536 }
    ensures value { result ≡ spec.offset_at items.now k }
    ensures small { result ≤ 255 * k }
{
    let mut offset = 0;
    'items: for j in 0..k {
        offset += usize::from(items[j].len);
    }
    offset
}

/// Returns the number of the first instruction that is no padding, after one that does not continue.
#[tactic(auto, unfolding(crate::specs::Taken::first_code_behind))]
pub(crate) fn first_code_behind(items: &[Placed]) -> Option<usize>
    requires { AreCoded items.now }
    ensures value { result ≡ spec.first_code_behind items.now }
    ensures within { IfSome result (λ k. k < length items.now) }
{
    laws_below();
    let moved = moved_count(items);
    'items: for k in moved..items.len() {
        if !is_padding(&items[k]) {
            return Some(k);
        }
    }
    None
}
