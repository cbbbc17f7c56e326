//! Writing the lines of a flow graph to a sink.

ghost use Rattle.std.specs.Prelude.{◌≡◌, ◌≤◌, ◌+◌, ◌++◌, ℕ, List, length, OnOk, OnErr};
ghost use Rattle.arrayvec.specs.ArrayVec.{array_vec_len};
ghost use Rattle.byte_ports.specs.Ports.{HasCause};
ghost use Rattle.flow_graph.specs.Control.{code_bytes};
ghost use Rattle.flow_graph.specs.Graphs.{IsFlowGraph};
ghost use Rattle.sweep.specs.RunParts.Writing.{HoldsFront, Moves};
ghost use Rattle.listing_run.specs.FlowRun.Flowing.{WritesFlow, WritesFlowFront};
ghost use Rattle.listing_run.specs.FlowRun.Lines as spec;

use byte_ports::{Failed, Sink};
use decoder::DecodeError;
use flow_graph::FlowGraph;
use operand_info::Flow;
use sweep::run_parts::laws::held_texts_arrive;
use sweep::run_parts::{make_room, put_all};
use sweep::sweep_text::{CHUNK_LEN, Chunk, LINE_LEN, append, append_address, flow_name};
use x86_values::Bits;

/// The word for the flow of an instruction, or for why none is read.
#[tactic(auto, unfolding(crate::specs::FlowRun::Lines::flow_word))]
fn flow_word(flow: Result<Flow, DecodeError>) -> &'static [u8]
    ensures word { result.now ≡ spec.flow_word flow }
    ensures short { length result.now ≤ 19 }
{
    match flow {
        Ok(flow) => flow_name(flow),
        Err(DecodeError::TooShort) => b"too short",
        Err(DecodeError::Invalid) => b"invalid",
    }
}

/// Appends the line of a reached offset.
#[tactic(auto, unfolding(crate::specs::FlowRun::Lines::flow_line))]
fn append_flow_line(
    pending: &mut Chunk,
    bits: Bits,
    base: u64,
    start: usize,
    leader: usize,
    word: &[u8],
)
    requires word { length word.now ≤ 19 }
    requires room { array_vec_len pending.old + LINE_LEN ≤ CHUNK_LEN }
    ensures { pending.new.items ≡ pending.old.items ++ spec.flow_line bits base start leader word.now }
{
    append_address(pending, bits, base, start);
    append(pending, b" ");
    append_address(pending, bits, base, leader);
    append(pending, b" ");
    append(pending, word);
    append(pending, b"\n");
}

/// Writes the line of a reached offset, or holds it back.
fn write_flow_line<K: Sink>(
    bits: Bits,
    base: u64,
    start: u32,
    leader: u32,
    flow: Result<Flow, DecodeError>,
    pending: &mut Chunk,
    out: &mut K,
) -> Result<(), Failed>
    ensures ok { OnOk result (Moves (K.held out.old) (K.held out.new) pending.old.items pending.new.items
        (spec.flow_line bits base start leader (spec.flow_word flow))) }
    ensures err { OnErr result (HoldsFront (K.held out.old) (K.held out.new) pending.old.items) }
    ensures cause { HasCause (K.faults out.old) (K.faults out.new) result }
{
    make_room(pending, out)?;
    append_flow_line(
        pending,
        bits,
        base,
        start as usize,
        leader as usize,
        flow_word(flow),
    );
    Ok(())
}

/// Writes a line for each offset of a graph: its address, the address of its leader, and the flow of its instruction or why none starts there.
pub fn write_flow<K: Sink>(
    bits: Bits,
    base: u64,
    graph: &FlowGraph,
    out: &mut K,
) -> Result<(), Failed>
    ensures ok { OnOk result ((bytes : List ℕ) → IsFlowGraph (code_bytes bits base bytes) graph.now
        → WritesFlow bits base bytes (K.held out.old) (K.held out.new)) }
    ensures err { OnErr result ((bytes : List ℕ) → IsFlowGraph (code_bytes bits base bytes) graph.now
        → WritesFlowFront bits base bytes (K.held out.old) (K.held out.new)) }
    ensures cause { HasCause (K.faults out.old) (K.faults out.new) result }
{
    held_texts_arrive();
    let starts = graph.starts();
    let leaders = graph.leaders();
    let flows = graph.flows();
    let mut pending = Chunk::new();
    for k in 0..starts.len() {
        write_flow_line(
            bits,
            base,
            starts[k],
            leaders[k],
            flows[k],
            &mut pending,
            out,
        )?;
    }
    put_all(out, &pending)
}
