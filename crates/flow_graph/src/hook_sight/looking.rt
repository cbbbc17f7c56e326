//! The one call: what is seen.

ghost use Rattle.std.specs.Prelude.{◌≡◌, ◌≤◌, [], ◌∷◌, ◌++◌, length, IfOk};
ghost use Rattle.flow_graph.specs.Control.{code_bytes};
ghost use Rattle.flow_graph.specs.Graphs.{IsFlowGraphFrom};
ghost use Rattle.flow_graph.specs.HookSight.Entries.{part_of};
ghost use Rattle.flow_graph.specs.HookSight.Views.{IsView};

use crate::hook_sight::answers::{StartRule, View};
use crate::hook_sight::ends::first_end;
use crate::hook_sight::passages::{first_inside, first_passage};
use crate::hook_sight::suspects::suspect_by_sight;
use crate::{FlowError, FlowGraph, flow_graph_from};
use std::alloc::{AllocError, Global};
use x86_values::Bits;

/// The first byte and the entries.
fn first_offsets(alloc: Global, entries: &[u32]) -> Result<Vec<u32>, AllocError>
    ensures { IfOk result (λ firsts. firsts.items ≡ 0 ∷ entries.now) }
{
    let mut firsts = Vec::new(alloc);
    firsts.push(0)?;
    firsts.extend_from_slice(entries)?;
    Ok(firsts)
}

/// What control reaches from the first byte and from the entries.
fn graph_of(
    alloc: Global,
    bits: Bits,
    ip: u64,
    code: &[u8],
    entries: &[u32],
) -> Result<FlowGraph, FlowError>
    requires { length code.now ≤ 1048576 }
    ensures { IfOk result (λ graph. IsFlowGraphFrom (code_bytes bits ip code.now) (0 ∷ entries.now) graph) }
{
    let firsts = first_offsets(alloc, entries)?;
    flow_graph_from(alloc, bits, ip, code, &firsts)
}

/// What is seen, by what control reaches.
fn view_of(
    bits: Bits,
    ip: u64,
    code: &[u8],
    entries: &[u32],
    taken: usize,
    moved: &[u32],
    start: StartRule,
    graph: &FlowGraph,
) -> View
    requires size { length code.now ≤ 1048576 }
    requires graph { IsFlowGraphFrom (code_bytes bits ip code.now) (0 ∷ entries.now) graph.now }
    ensures { IsView (code_bytes bits ip code.now) entries.now (part_of taken moved.now start) result }
{
    let starts = graph.starts();
    let flows = graph.flows();
    let sight = first_end(bits, ip, code, starts, flows);
    let entered = first_passage(bits, ip, code, taken, moved, start, starts);
    let inside = first_inside(entries, taken, code.len());
    let suspect = suspect_by_sight(bits, ip, code, taken, moved, start, starts, sight);
    View {
        sight,
        entered,
        inside,
        suspect,
    }
}

/// Returns what is seen of a function whose first `taken` bytes a hook overwrites: how far control can be followed, and whether it enters those bytes.
///
/// `code` is the function, at most 1,048,576 bytes from its first byte on, whose address is `ip`; addresses wrap at the address size of the mode.
/// `entries` are further offsets at which it begins: targets of jump tables, landing pads, parts that a compiler moved away. One past the end of the
/// code adds nothing. `moved` are the offsets at which the instructions begin that the hook moves to its trampoline.
///
/// - **Sight.** Control is followed from the first byte and from each entry. Sight ends at the first reached offset where no instruction is read, or an
///   indirect jump, or where the code ends although control continues. If it is whole, nothing else in the code can go on from what was reached.
/// - **Entered.** The first reached offset from which control goes into the overwritten bytes after the first of them. From a moved instruction it may
///   go to another one. If `start` is `Closed`, control from behind those bytes to the start counts too, unless it is a call.
/// - **Inside.** The least entry within the overwritten bytes after the first of them.
/// - **Suspect.** If sight is not whole, the first offset after the overwritten bytes that was not reached but is read as a branch or call which would
///   enter them so. It may be data.
///
/// The only error is `Memory`.
///
/// ```
/// // mov rax, [rdi]; mov rcx, rax; an instruction that the table does not have; jmp to the second one; ret
/// let code = b"\x48\x8b\x07\x48\x89\xc1\x62\xf1\x7c\x48\x28\xc1\xeb\xf5\xc3";
/// let view = look(
///     rt.alloc(),
///     Bits::B64,
///     0x40_1000,
///     code,
///     &[],
///     6,
///     &[0, 3],
///     StartRule::Closed,
/// )?;
/// println!(rt; "{:?}", view.sight)?; // Ends { at: 6, why: NotRead }
/// println!(rt; "{:?}", view.suspect)?; // Some(Passage { from: 12, target: 3 })
/// ```
pub fn look(
    alloc: Global,
    bits: Bits,
    ip: u64,
    code: &[u8],
    entries: &[u32],
    taken: usize,
    moved: &[u32],
    start: StartRule,
) -> Result<View, FlowError>
    requires { length code.now ≤ 1048576 }
    ensures { IfOk result (λ view. IsView (code_bytes bits ip code.now) entries.now (part_of taken moved.now start) view) }
{
    let graph = graph_of(alloc, bits, ip, code, entries)?;
    Ok(view_of(bits, ip, code, entries, taken, moved, start, &graph))
}
