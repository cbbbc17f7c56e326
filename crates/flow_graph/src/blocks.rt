//! The lists of what was marked.

ghost use Rattle.std.specs.Prelude.{◌≡◌, ◌+◌, ◌<◌, ◌≤◌, ℕ, length, slice_index, IfOk, OnOk};
ghost use Rattle.flow_graph.specs.Marks.{AreChained, LeaderByMarks, AreMarkedBelow};
ghost use Rattle.flow_graph.specs.Told.{AreFlowsOf};

use crate::walk::LEADER;
use decoder::DecodeError;
use operand_info::Flow;
use std::alloc::{AllocError, Global};

/// Returns the leader of an offset, given the leaders of the offsets before it.
fn leader_of(marks: &[u8], leaders: &[u32], offset: usize) -> u32
    requires few { length marks.now ≤ 16777216 }
    requires chained { AreChained marks.now }
    requires inside { offset < length marks.now }
    requires len { length leaders.now ≡ offset }
    requires before { (q : ℕ) → q < offset → 0 < slice_index marks.now q → LeaderByMarks marks.now (slice_index leaders.now q) q }
    ensures { 0 < slice_index marks.now offset → LeaderByMarks marks.now result offset }
{
    let mark = marks[offset];
    if mark > LEADER {
        leaders[offset + 1 - usize::from(mark)]
    } else {
        offset as u32
    }
}

/// Offsets in ascending order, their leaders, and what is read there.
#[derive(Drop)]
pub(crate) struct Blocks {
    pub(crate) starts: Vec<u32>,
    pub(crate) leaders: Vec<u32>,
    pub(crate) flows: Vec<Result<Flow, DecodeError>>,
}

impl Blocks {
    /// Appends an offset to the list, if it is marked.
    fn add(
        &mut self,
        marks: &[u8],
        flows: &[Result<Flow, DecodeError>],
        offset: usize,
        leader: u32,
    ) -> Result<(), AllocError>
        requires few { length marks.now ≤ 16777216 }
        requires inside { offset < length marks.now }
        requires leader { 0 < slice_index marks.now offset → LeaderByMarks marks.now leader offset }
        requires before { AreMarkedBelow marks.now offset self.old.starts.items self.old.leaders.items }
        requires flows { AreFlowsOf flows.now self.old.starts.items self.old.flows.items }
        requires each { length flows.now ≡ length marks.now }
        ensures listed { OnOk result (AreMarkedBelow marks.now (offset + 1) self.new.starts.items self.new.leaders.items) }
        ensures flows { OnOk result (AreFlowsOf flows.now self.new.starts.items self.new.flows.items) }
    {
        if marks[offset] > 0 {
            self.starts.push(offset as u32)?;
            self.leaders.push(leader)?;
            self.flows.push(flows[offset])?;
        }
        Ok(())
    }
}

/// Lists the marked offsets. The leader of a follower is known when its turn comes, since its predecessor has a lower offset.
pub(crate) fn blocks_of(
    alloc: Global,
    marks: &[u8],
    flows: &[Result<Flow, DecodeError>],
) -> Result<Blocks, AllocError>
    requires few { length marks.now ≤ 16777216 }
    requires chained { AreChained marks.now }
    requires each { length flows.now ≡ length marks.now }
    ensures listed { IfOk result (λ blocks. AreMarkedBelow marks.now (length marks.now) blocks.starts.items blocks.leaders.items) }
    ensures flows { IfOk result (λ blocks. AreFlowsOf flows.now blocks.starts.items blocks.flows.items) }
{
    let mut blocks = Blocks {
        starts: Vec::new(alloc),
        leaders: Vec::new(alloc),
        flows: Vec::new(alloc),
    };
    let mut leaders = Vec::with_capacity(alloc, marks.len())?;
    'offsets: for offset in 0..marks.len() {
        let leader = leader_of(marks, &leaders, offset);
        leaders.push(leader)?;
        blocks.add(marks, flows, offset, leader)?;
    }
    Ok(blocks)
}
