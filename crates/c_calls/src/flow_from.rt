//! What control reaches from several first offsets, and what is read there.

ghost use Rattle.std.specs.Prelude.{◌≡◌, ◌<◌, ◌≤◌, ◌++◌, ◌^◌, length, map, drop, Ok};
ghost use Rattle.c_calls.specs.Numbers.{bits_numbered};
ghost use Rattle.c_calls.specs.FlowFrom as spec;

use crate::buffers::count_answer;
use crate::flow::write_numbers;
use crate::info::flow_number;
use crate::numbers::bits_numbered;
use crate::refusal::{Refusal, refusal_status};
use decoder::DecodeError;
use flow_graph::{FlowError, FlowGraph, Follow, flow_graph_following};
use operand_info::Flow;
use std::alloc::Global;

/// How many bytes of code are followed together at most.
const MOST: usize = 16_777_216;

/// What control reaches in some code from its first offsets.
fn graph_from(
    alloc: Global,
    follow: Follow,
    bits: u32,
    base: u64,
    bytes: &[u8],
    entries: &[u32],
) -> Result<FlowGraph, Refusal>
    ensures { spec.IsGraphFromAnswer follow (bits_numbered bits) base bytes.now entries.now result }
{
    let Some(bits) = bits_numbered(bits) else {
        return Err(Refusal::Mode);
    };
    if bytes.len() > MOST {
        return Err(Refusal::TooLarge);
    }
    match flow_graph_following(alloc, follow, bits, base, bytes, entries) {
        Ok(graph) => Ok(graph),
        Err(FlowError::Memory) => Err(Refusal::Memory),
    }
}

/// The flow of the instruction at a start, or the number of the cause that none is read: 0xfe for `TooShort` and 0xff for `Invalid`.
fn kind_number(flow: Result<Flow, DecodeError>) -> u8
    ensures { result ≡ spec.flow_kind_number flow }
{
    match flow {
        Ok(flow) => flow_number(flow),
        Err(DecodeError::TooShort) => 0xfe,
        Err(DecodeError::Invalid) => 0xff,
    }
}

/// Writes what is read at the starts at the start of a buffer.
fn write_kinds(out: &mut [u8], flows: &[Result<Flow, DecodeError>])
    requires { length flows.now ≤ length out.old }
    ensures { out.new ≡ map spec.flow_kind_number flows.now ++ drop (length flows.now) out.old }
{
    'kinds: for k in 0..flows.len() {
        out[k] = kind_number(flows[k]);
    }
}

/// Writes the lists of a graph if all three buffers hold them, and returns how many offsets are reached.
#[tactic(auto, unfolding(crate::specs::FlowFrom::graph_within))]
fn put_graph(graph: &FlowGraph, starts: &mut [u32], leaders: &mut [u32], kinds: &mut [u8]) -> i32
    requires few { length graph.now.starts < 2 ^ 31 }
    requires leaders_len { length graph.now.leaders ≡ length graph.now.starts }
    requires flows_len { length graph.now.flows ≡ length graph.now.starts }
    ensures said { result ≡ spec.graph_said (spec.graph_within (length starts.old) (length leaders.old) (length kinds.old) (Ok graph.now)) }
    ensures starts { starts.new ≡ spec.starts_left starts.old (spec.graph_within (length starts.old) (length leaders.old) (length kinds.old) (Ok graph.now)) }
    ensures leaders { leaders.new ≡ spec.leaders_left leaders.old (spec.graph_within (length starts.old) (length leaders.old) (length kinds.old) (Ok graph.now)) }
    ensures kinds { kinds.new ≡ spec.kinds_left kinds.old (spec.graph_within (length starts.old) (length leaders.old) (length kinds.old) (Ok graph.now)) }
{
    let count = graph.starts().len();
    if count > starts.len() || count > leaders.len() || count > kinds.len() {
        return refusal_status(Refusal::Room);
    }
    write_numbers(starts, graph.starts());
    write_numbers(leaders, graph.leaders());
    write_kinds(kinds, graph.flows());
    count_answer(count)
}

/// Writes the offsets that control reaches from several entry offsets through the instructions that are followed, with their leaders and the flow of the
/// instruction at each. Returns their number.
fn flow_following(
    alloc: Global,
    follow: Follow,
    bits: u32,
    base: u64,
    bytes: &[u8],
    entries: &[u32],
    starts: &mut [u32],
    leaders: &mut [u32],
    kinds: &mut [u8],
) -> i32
    ensures { spec.IsFlowFollowing follow bits base bytes.now entries.now starts.old leaders.old kinds.old starts.new leaders.new kinds.new result }
{
    match graph_from(alloc, follow, bits, base, bytes, entries) {
        Ok(graph) => put_graph(&graph, starts, leaders, kinds),
        Err(why) => refusal_status(why),
    }
}

/// Writes the offsets that control reaches from several entry offsets, with their leaders and the flow of the instruction at each. Returns their
/// number.
pub fn flow_from(
    alloc: Global,
    bits: u32,
    base: u64,
    bytes: &[u8],
    entries: &[u32],
    starts: &mut [u32],
    leaders: &mut [u32],
    kinds: &mut [u8],
) -> i32
    ensures { spec.IsFlowFrom bits base bytes.now entries.now starts.old leaders.old kinds.old starts.new leaders.new kinds.new result }
{
    flow_following(
        alloc,
        Follow::Listed,
        bits,
        base,
        bytes,
        entries,
        starts,
        leaders,
        kinds,
    )
}

/// Writes what [`flow_from`] writes, where control also goes through instructions that the opcode table leaves out.
pub fn flow_unlisted(
    alloc: Global,
    bits: u32,
    base: u64,
    bytes: &[u8],
    entries: &[u32],
    starts: &mut [u32],
    leaders: &mut [u32],
    kinds: &mut [u8],
) -> i32
    ensures { spec.IsFlowUnlisted bits base bytes.now entries.now starts.old leaders.old kinds.old starts.new leaders.new kinds.new result }
{
    flow_following(
        alloc,
        Follow::Unlisted,
        bits,
        base,
        bytes,
        entries,
        starts,
        leaders,
        kinds,
    )
}
