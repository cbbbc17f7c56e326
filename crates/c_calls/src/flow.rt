//! What control reaches.

ghost use Rattle.std.specs.Prelude.{◌≡◌, ◌<◌, ◌≤◌, ◌++◌, ◌^◌, length, drop, pos, Ok, Err};
ghost use Rattle.c_calls.specs.Numbers.{bits_numbered};
ghost use Rattle.c_calls.specs.Flow as spec;

use crate::buffers::count_answer;
use crate::numbers::bits_numbered;
use crate::refusal::{Refusal, refusal_status};
use flow_graph::{FlowError, FlowGraph, flow_graph_in};
use std::alloc::Global;

/// How many bytes of code are followed together at most.
const MOST: usize = 1_048_576;

/// What control reaches in some code.
fn graph_of(alloc: Global, bits: u32, base: u64, bytes: &[u8]) -> Result<FlowGraph, Refusal>
    ensures { spec.IsGraphAnswer (bits_numbered bits) base bytes.now result }
{
    let Some(bits) = bits_numbered(bits) else {
        return Err(Refusal::Mode);
    };
    if bytes.len() > MOST {
        return Err(Refusal::TooLarge);
    }
    match flow_graph_in(alloc, bits, base, bytes) {
        Ok(graph) => Ok(graph),
        Err(FlowError::Memory) => Err(Refusal::Memory),
    }
}

/// Writes numbers at the start of a buffer.
pub(crate) fn write_numbers(out: &mut [u32], numbers: &[u32])
    requires { length numbers.now ≤ length out.old }
    ensures { out.new ≡ numbers.now ++ drop (length numbers.now) out.old }
{
    out[..numbers.len()].copy_from_slice(numbers);
}

/// Writes the lists of a graph if both buffers hold them, and returns how many offsets are reached.
#[tactic(auto, unfolding(crate::specs::Flow::graph_within))]
fn put_graph(graph: &FlowGraph, starts: &mut [u32], leaders: &mut [u32]) -> i32
    requires few { length graph.now.starts < 2 ^ 31 }
    requires len { length graph.now.leaders ≡ length graph.now.starts }
    ensures said { result ≡ spec.graph_said (spec.graph_within (length starts.old) (length leaders.old) (Ok graph.now)) }
    ensures starts { starts.new ≡ spec.starts_left starts.old (spec.graph_within (length starts.old) (length leaders.old) (Ok graph.now)) }
    ensures leaders { leaders.new ≡ spec.leaders_left leaders.old (spec.graph_within (length starts.old) (length leaders.old) (Ok graph.now)) }
{
    let count = graph.starts().len();
    if count > starts.len() || count > leaders.len() {
        return refusal_status(Refusal::Room);
    }
    write_numbers(starts, graph.starts());
    write_numbers(leaders, graph.leaders());
    count_answer(count)
}

/// Writes the offsets that control reaches from the first byte of some code, with their leaders. Returns their number.
pub fn flow(
    alloc: Global,
    bits: u32,
    base: u64,
    bytes: &[u8],
    starts: &mut [u32],
    leaders: &mut [u32],
) -> i32
    ensures { spec.IsFlow bits base bytes.now starts.old leaders.old starts.new leaders.new result }
{
    match graph_of(alloc, bits, base, bytes) {
        Ok(graph) => put_graph(&graph, starts, leaders),
        Err(why) => refusal_status(why),
    }
}
