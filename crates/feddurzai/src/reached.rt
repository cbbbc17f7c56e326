//! What control reaches in code of any length.

ghost use Rattle.std.specs.Prelude.{MatchResult};
ghost use Rattle.flow_graph.specs.Control.{code_bytes, code_bytes_with};
ghost use Rattle.flow_graph.specs.Graphs.{IsFlowGraph, IsFlowGraphFrom};
ghost use Rattle.feddurzai.specs.Reached.{IsGraphRefusal, IsGraphFromRefusal};

use flow_graph::{FlowError, FlowGraph, Follow, flow_graph_following, flow_graph_in};
use std::alloc::Global;
use thiserror::Error;
use x86_values::Bits;

/// How many bytes of code are followed together at most, from their first byte.
const MOST: usize = 1_048_576;

/// How many bytes of code are followed together at most, from several first offsets.
const MOST_FROM: usize = 16_777_216;

/// Why there is no graph of some code.
#[derive(Clone, Copy, PartialEq, Eq, Debug, Error)]
pub enum CodeGraphError {
    /// There are this many bytes, more than 1,048,576, or from several first offsets more than 16,777,216.
    #[error("{len} bytes are too many")]
    TooLarge { len: u64 },
    /// There was not enough memory.
    #[error("out of memory")]
    Memory,
}

/// Returns the flow graph of some code whose first byte has the address `base`, like [`flow_graph_in`]. It fails above 1,048,576 bytes.
///
/// ```
/// let code = b"\x74\x01\x90\xc3"; // je 0x401003; nop; ret
/// let graph = graph_of_code(rt.alloc(), Bits::B64, 0x40_1000, code)?;
/// println!(rt; "{:?} {:?}", graph.starts(), graph.leaders())?; // [0, 2, 3] [0, 2, 3]
/// ```
pub fn graph_of_code(
    alloc: Global,
    bits: Bits,
    base: u64,
    bytes: &[u8],
) -> Result<FlowGraph, CodeGraphError>
    ensures { MatchResult result (λ graph. IsFlowGraph (code_bytes bits base bytes.now) graph) (λ why. IsGraphRefusal bytes.now why) }
{
    if bytes.len() > MOST {
        return Err(CodeGraphError::TooLarge {
            len: bytes.len() as u64,
        });
    }
    match flow_graph_in(alloc, bits, base, bytes) {
        Ok(graph) => Ok(graph),
        Err(FlowError::Memory) => Err(CodeGraphError::Memory),
    }
}

/// Returns what control reaches from several entry offsets of some code whose first byte has the address `base`, like
/// [`flow_graph_from`](flow_graph::flow_graph_from). An offset past the end of the code adds nothing. It fails above 16,777,216 bytes.
pub fn graph_of_code_from(
    alloc: Global,
    bits: Bits,
    base: u64,
    bytes: &[u8],
    entries: &[u32],
) -> Result<FlowGraph, CodeGraphError>
    ensures { MatchResult result (λ graph. IsFlowGraphFrom (code_bytes bits base bytes.now) entries.now graph) (λ why. IsGraphFromRefusal bytes.now why) }
{
    graph_of_code_following(alloc, Follow::Listed, bits, base, bytes, entries)
}

/// Returns what control reaches from several entry offsets, like [`graph_of_code_from`], through the instructions that `follow` names. With
/// [`Follow::Unlisted`] control also goes through instructions that the opcode table leaves out, as far as `measure` returns their shape, and from
/// XBEGIN also to its target.
pub fn graph_of_code_following(
    alloc: Global,
    follow: Follow,
    bits: Bits,
    base: u64,
    bytes: &[u8],
    entries: &[u32],
) -> Result<FlowGraph, CodeGraphError>
    ensures { MatchResult result (λ graph. IsFlowGraphFrom (code_bytes_with follow bits base bytes.now) entries.now graph) (λ why. IsGraphFromRefusal bytes.now why) }
{
    if bytes.len() > MOST_FROM {
        return Err(CodeGraphError::TooLarge {
            len: bytes.len() as u64,
        });
    }
    match flow_graph_following(alloc, follow, bits, base, bytes, entries) {
        Ok(graph) => Ok(graph),
        Err(FlowError::Memory) => Err(CodeGraphError::Memory),
    }
}
