//! Whether control elsewhere in a function enters what is taken.

ghost use Rattle.std.specs.Prelude.{◌≡◌, ◌<◌, ◌≤◌, ◌↔◌, length, IsTrue, IfOk};
ghost use Rattle.flow_graph.specs.Control.{code_bytes_with};
ghost use Rattle.flow_graph.specs.Graphs.{IsFlowGraph};
ghost use Rattle.detour.specs.Reading.{AreCoded, IsTakenFit};
ghost use Rattle.detour.specs.Taken.{taken_bytes};
ghost use Rattle.detour.specs.Entries.{IsMovedStart, IsEntry, IsNextEntry, IsTargetEntry, IsEntryFrom, IsEntryAnswer};

use crate::taken::{Taken, moved_count, offset_at};
use flow_graph::laws::one_entry_is_the_first_byte;
use flow_graph::{FlowError, FlowGraph, Follow, exits_following, flow_graph_following};
use move_goals::Placed;
use std::alloc::Global;
use x86_values::Bits;

/// Whether one of the moved instructions begins at an offset.
fn is_moved_start(items: &[Placed], q: usize) -> bool
    requires coded { AreCoded items.now }
    requires few { length items.now ≤ 65536 }
    ensures { IsTrue result ↔ IsMovedStart items.now q }
{
    let count = moved_count(items);
    'items: for k in 0..count {
        if offset_at(items, k) == q {
            return true;
        }
    }
    false
}

/// Whether control that goes from an offset to another one enters what is taken.
fn enters(taken: &Taken, p: usize, q: usize) -> bool
    requires coded { AreCoded taken.now.items.items }
    requires few { length taken.now.items.items ≤ 65536 }
    requires len { taken.now.len ≡ taken_bytes taken.now.items.items }
    ensures { IsTrue result ↔ IsEntry taken.now.items.items p q }
{
    if q == 0 || q >= taken.len {
        return false;
    }
    if p >= taken.len {
        return true;
    }
    is_moved_start(&taken.items, p) && !is_moved_start(&taken.items, q)
}

/// The end of an instruction at an offset, if control goes on there and enters what is taken.
fn entered_next(taken: &Taken, p: usize, next: u8) -> Option<usize>
    requires coded { AreCoded taken.now.items.items }
    requires few { length taken.now.items.items ≤ 65536 }
    requires len { taken.now.len ≡ taken_bytes taken.now.items.items }
    requires inside { p ≤ 1048576 }
    ensures { IsNextEntry taken.now.items.items p next result }
{
    if next == 0 {
        return None;
    }
    let end = p + usize::from(next);
    if enters(taken, p, end) {
        Some(end)
    } else {
        None
    }
}

/// The target of an instruction at an offset, if control goes there and enters what is taken.
fn entered_target(taken: &Taken, p: usize, target: Option<usize>) -> Option<usize>
    requires coded { AreCoded taken.now.items.items }
    requires few { length taken.now.items.items ≤ 65536 }
    requires len { taken.now.len ≡ taken_bytes taken.now.items.items }
    ensures { IsTargetEntry taken.now.items.items p target result }
{
    match target {
        None => None,
        Some(q) => { if enters(taken, p, q) { Some(q) } else { None } }
    }
}

/// The offset in what is taken that is entered from an offset of some code, if one is.
fn entry_from(
    follow: Follow,
    bits: Bits,
    ip: u64,
    code: &[u8],
    taken: &Taken,
    p: usize,
) -> Option<usize>
    requires inside { p < length code.now }
    requires size { length code.now ≤ 1048576 }
    requires fit { IsTakenFit bits taken.now }
    ensures { IsEntryFrom (code_bytes_with follow bits ip code.now) taken.now.items.items p result }
{
    let exits = exits_following(follow, bits, ip, code, p);
    match entered_next(taken, p, exits.next) {
        Some(end) => Some(end),
        None => entered_target(taken, p, exits.target),
    }
}

/// The flow graph of some code from its first byte, through the instructions that `follow` names.
fn graph_following(
    alloc: Global,
    follow: Follow,
    bits: Bits,
    ip: u64,
    code: &[u8],
) -> Result<FlowGraph, FlowError>
    requires { length code.now ≤ 1048576 }
    ensures { IfOk result (λ graph. IsFlowGraph (code_bytes_with follow bits ip code.now) graph) }
{
    one_entry_is_the_first_byte();
    flow_graph_following(alloc, follow, bits, ip, code, &[0])
}

/// The first offset from which what is taken is entered, and the offset that is, where control goes through the instructions that `follow` names.
pub(crate) fn first_entry(
    alloc: Global,
    follow: Follow,
    bits: Bits,
    ip: u64,
    code: &[u8],
    taken: &Taken,
) -> Result<Option<(u32, usize)>, FlowError>
    requires size { length code.now ≤ 1048576 }
    requires fit { IsTakenFit bits taken.now }
    ensures { IfOk result (λ entry. IsEntryAnswer (code_bytes_with follow bits ip code.now) taken.now.items.items entry) }
{
    let graph = graph_following(alloc, follow, bits, ip, code)?;
    let starts = graph.starts();
    'starts: for k in 0..starts.len() {
        if let Some(target) = entry_from(follow, bits, ip, code, taken, starts[k] as usize) {
            return Ok(Some((starts[k], target)));
        }
    }
    Ok(None)
}
