//! The offsets that control reaches, and their leaders.

ghost use Rattle.std.specs.Prelude.{◌≤◌, length, IsTrue, IfOk};
ghost use Rattle.prefixes.specs.Answer.{is_mode, mode_of};
ghost use Rattle.flow_graph.specs.Control.{code_bytes, code_bytes_with};
ghost use Rattle.flow_graph.specs.Graphs.{IsFlowGraph, IsFlowGraphFrom};

use crate::blocks::{Blocks, blocks_of};
use crate::exits::Follow;
use crate::laws::one_entry_is_the_first_byte;
use crate::walk::walk_all;
use decoder::DecodeError;
use operand_info::Flow;
use prefixes::mode_of;
use std::alloc::{AllocError, Global};
use std::marker::Model;
use thiserror::Error;
use x86_values::Bits;

/// Why there is no graph.
#[derive(Clone, Copy, Debug, PartialEq, Eq, Error)]
pub enum FlowError {
    /// The allocator had no memory left.
    #[error("out of memory")]
    Memory,
}

impl From<AllocError> for FlowError {
    fn from(_e: AllocError) -> FlowError {
        FlowError::Memory
    }
}

/// The offsets that control reaches from the first byte of some code, or from several entry offsets, each with the leader of its basic block and the
/// flow of its instruction.
///
/// From an instruction control goes to its end, unless it is a jump, a return or an undefined instruction, and to its near target if it has one, as
/// far as the code has bytes. From a byte that starts no instruction it goes nowhere. [`flow_graph_following`] can also go through instructions without
/// a row.
///
/// A reached offset is a follower if it is no entry, exactly one reached instruction leads to it, that instruction ends there, and control goes
/// nowhere else from it. The other reached offsets are leaders. A basic block is a leader and the followers after it.
#[derive(Drop)]
pub struct FlowGraph {
    blocks: Blocks,
}

impl Model for FlowGraph {
    ghost use Rattle.std.specs.Prelude.{◌≡◌, length};
    ghost use Rattle.flow_graph.specs.Graphs.{Graph};

    ghost Value = { Graph };

    ghost view = { λ g. record { starts = g.blocks.starts.items; leaders = g.blocks.leaders.items; flows = g.blocks.flows.items } };

    ghost invariant = { λ g. (length g.blocks.leaders.items ≡ length g.blocks.starts.items)
        × (length g.blocks.flows.items ≡ length g.blocks.starts.items) };
}

impl FlowGraph {
    ghost use Rattle.std.specs.Prelude.{◌≡◌, length};

    /// Returns the reached offsets, in ascending order.
    pub fn starts(&self) -> &[u32]
        ensures { result.now ≡ self.now.starts }
    {
        &self.blocks.starts
    }

    /// Returns the leader of each reached offset, in the same order.
    pub fn leaders(&self) -> &[u32]
        ensures leaders { result.now ≡ self.now.leaders }
        ensures len { length result.now ≡ length self.now.starts }
    {
        &self.blocks.leaders
    }

    /// Returns, for each reached offset in the same order, the flow of its instruction, or why no instruction starts there.
    pub fn flows(&self) -> &[Result<Flow, DecodeError>]
        ensures flows { result.now ≡ self.now.flows }
        ensures len { length result.now ≡ length self.now.starts }
    {
        &self.blocks.flows
    }
}

/// Returns the flow graph of at most 1,048,576 bytes of code.
///
/// `BITS` is the mode: 16, 32 or 64. `base` is the address of the first byte. Addresses wrap at the address size of the mode. It decodes each reached
/// offset once. The only error is `Memory`.
pub fn flow_graph<const BITS: u32>(
    alloc: Global,
    base: u64,
    bytes: &[u8],
) -> Result<FlowGraph, FlowError>
    requires mode { IsTrue (is_mode BITS) }
    requires few { length bytes.now ≤ 1048576 }
    ensures { IfOk result (λ graph. IsFlowGraph (code_bytes (mode_of BITS) base bytes.now) graph) }
{
    flow_graph_in(alloc, mode_of::<BITS>(), base, bytes)
}

/// Returns the flow graph of some code in a mode that is known at run time. The only error is that of [`flow_graph`].
pub fn flow_graph_in(
    alloc: Global,
    bits: Bits,
    base: u64,
    bytes: &[u8],
) -> Result<FlowGraph, FlowError>
    requires { length bytes.now ≤ 1048576 }
    ensures { IfOk result (λ graph. IsFlowGraph (code_bytes bits base bytes.now) graph) }
{
    one_entry_is_the_first_byte();
    flow_graph_from(alloc, bits, base, bytes, &[0])
}

/// Returns what control reaches from several entry offsets, such as the starts of functions, of at most 16,777,216 bytes of code.
///
/// `base` is the address of the first byte. An offset past the end of the code adds nothing; order and repetition do not matter. An entry is always a
/// leader. The only error is `Memory`.
pub fn flow_graph_from(
    alloc: Global,
    bits: Bits,
    base: u64,
    bytes: &[u8],
    entries: &[u32],
) -> Result<FlowGraph, FlowError>
    requires { length bytes.now ≤ 16777216 }
    ensures { IfOk result (λ graph. IsFlowGraphFrom (code_bytes bits base bytes.now) entries.now graph) }
{
    flow_graph_following(alloc, Follow::Listed, bits, base, bytes, entries)
}

/// Returns what control reaches from several entry offsets, like [`flow_graph_from`], through the instructions that `follow` names.
///
/// With [`Follow::Unlisted`] control also goes through instructions without a row (`unlisted::measure`): to the end of each, and from XBEGIN also to its
/// target. The flow of XBEGIN is `ConditionalBranch`, that of every other such instruction `Next`. The only error is `Memory`.
pub fn flow_graph_following(
    alloc: Global,
    follow: Follow,
    bits: Bits,
    base: u64,
    bytes: &[u8],
    entries: &[u32],
) -> Result<FlowGraph, FlowError>
    requires { length bytes.now ≤ 16777216 }
    ensures { IfOk result (λ graph. IsFlowGraphFrom (code_bytes_with follow bits base bytes.now) entries.now graph) }
{
    let walk = walk_all(alloc, follow, bits, base, bytes, entries)?;
    let blocks = blocks_of(alloc, &walk.marks, &walk.flows)?;
    Ok(FlowGraph { blocks })
}
