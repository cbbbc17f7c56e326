//! What control reaches in the code of a source.

ghost use Rattle.std.specs.Prelude.{◌≡◌};
ghost use Rattle.byte_ports.specs.Ports.{Rose};
ghost use Rattle.sweep.specs.RunParts.Reads.{whole_limit, Takes, EndsAtFault};
ghost use Rattle.listing_run.specs.FlowRun.Flowing.{FlowsAs, CompletesFlow};

use crate::flow_run::lines::write_flow;
use byte_ports::{Sink, Source};
use flow_graph::flow_graph_in;
use std::alloc::Global;
use sweep::run_parts::laws::told_bytes_are_read;
use sweep::run_parts::{Status, read_whole};
use x86_values::Bits;

/// Reads the source to its end as code whose first byte has the address `base`, and writes a line for each offset that control reaches from the first
/// byte, in ascending order. A line has the address, the address of the leader of its basic block, and the flow of the instruction, or `invalid` or
/// `too short` if none starts there.
///
/// Statuses, in this order: `ReadFault`; `TooLarge` above 1,048,576 bytes; `WriteFault`. `Memory` can occur at any point before the first write.
/// Nothing is written unless only `WriteFault` can still occur. At most 1,048,577 bytes are read, and nothing after `ReadFault`.
#[tactic(auto, unfolding(sweep::specs::RunParts::Reads::whole_limit))]
pub fn flow_code<S: Source, K: Sink>(
    alloc: Global,
    bits: Bits,
    base: u64,
    source: &mut S,
    out: &mut K,
) -> Status
    ensures answer { FlowsAs bits base (S.left source.old) (S.left source.new) (K.held out.old) (K.held out.new)
        (Rose (S.faults source.old) (S.faults source.new)) (Rose (K.faults out.old) (K.faults out.new)) result }
    ensures complete { (Rose (S.faults source.old) (S.faults source.new) → ⊥) → (Rose (K.faults out.old) (K.faults out.new) → ⊥)
        → CompletesFlow (S.left source.old) result }
    ensures taken { Takes whole_limit (S.left source.old) (S.left source.new)
        × (result ≡ Status.ReadFault → EndsAtFault S.pull_gives S.left source.new) }
{
    told_bytes_are_read();
    let input = match read_whole(alloc, source) {
        Ok(input) => input,
        Err(unread) => return unread,
    };
    let graph = match flow_graph_in(alloc, bits, base, &input) {
        Ok(graph) => graph,
        Err(_) => return Status::Memory,
    };
    match write_flow(bits, base, &graph, out) {
        Ok(()) => Status::Done,
        Err(_) => Status::WriteFault,
    }
}
