//! The walk along control from the first offsets, which marks what it reaches.

ghost use Rattle.std.specs.Prelude.{◌≡◌, ◌+◌, ◌<◌, ◌≤◌, ℕ, List, length, slice_index, IfOk, OnOk};
ghost use Rattle.flow_graph.specs.Control.{code_bytes_with};
ghost use Rattle.flow_graph.specs.Marks.{marks_after, order_after, AreMarks};
ghost use Rattle.flow_graph.specs.Told.{AreTold, MarkedAreTold};
ghost use Rattle.flow_graph.specs.Walks as spec;
ghost use Rattle.flow_graph.specs.Walks.{entered_marks, entered_order, next_marks, next_order, IsStarted, IsTreated, IsWalk};

use crate::exits::{Exits, Follow, stop_at};
use decoder::DecodeError;
use operand_info::Flow;
use std::alloc::{AllocError, Global};
use x86_values::Bits;

/// The mark of an offset that control reaches, unless it follows an instruction of `n` bytes, whose mark is `n` more.
pub(crate) const LEADER: u8 = 1;

/// Returns the mark that the end of an instruction gets on the first arrival from there.
fn mark_of_end(exits: Exits) -> u8
    requires { exits.next ≤ 15 }
    ensures { result ≡ spec.mark_of_end exits.target exits.next }
{
    match exits.target {
        None => LEADER + exits.next,
        Some(_) => LEADER,
    }
}

/// The reached offsets: a mark for each byte, 0 if it is not reached; what starts there; and the offsets in the order of the first arrivals.
#[derive(Drop)]
pub(crate) struct Walk {
    pub(crate) marks: Vec<u8>,
    /// For each byte; meaningless for a byte that is not reached.
    pub(crate) flows: Vec<Result<Flow, DecodeError>>,
    order: Vec<u32>,
}

impl Walk {
    /// Starts a walk at the entries, in their order.
    fn start(alloc: Global, count: usize, entries: &[u32]) -> Result<Walk, AllocError>
        requires few { count ≤ 16777216 }
        ensures entered { IfOk result (λ walk. IsStarted entries.now count (length entries.now) walk.marks.items walk.order.items) }
        ensures flows { IfOk result (λ walk. length walk.flows.items ≡ count) }
    {
        let mut walk = Walk {
            marks: vec![in alloc; 0u8; count]?,
            flows: vec![in alloc; Err(DecodeError::Invalid); count]?,
            order: Vec::new(alloc),
        };
        'entries: for entry in entries {
            walk.enter(*entry as usize)?;
        }
        Ok(walk)
    }

    /// Arrives at an offset, whose mark is `first` if it is the first time.
    fn arrive(&mut self, offset: usize, first: u8) -> Result<(), AllocError>
        requires inside { offset < length self.old.marks.items }
        requires few { length self.old.marks.items ≤ 16777216 }
        ensures marks { OnOk result (self.new.marks.items ≡ marks_after self.old.marks.items offset first) }
        ensures order { OnOk result (self.new.order.items ≡ order_after self.old.marks.items self.old.order.items offset) }
        ensures flows { OnOk result (self.new.flows.items ≡ self.old.flows.items) }
    {
        if self.marks[offset] == 0 {
            self.marks[offset] = first;
            self.order.push(offset as u32)?;
        } else {
            self.marks[offset] = LEADER;
        }
        Ok(())
    }

    /// Arrives at a first offset, if there is a byte.
    fn enter(&mut self, entry: usize) -> Result<(), AllocError>
        requires few { length self.old.marks.items ≤ 16777216 }
        ensures marks { OnOk result (self.new.marks.items ≡ entered_marks self.old.marks.items entry) }
        ensures order { OnOk result (self.new.order.items ≡ entered_order self.old.marks.items self.old.order.items entry) }
        ensures flows { OnOk result (self.new.flows.items ≡ self.old.flows.items) }
    {
        if entry < self.marks.len() {
            self.arrive(entry, LEADER)?;
        }
        Ok(())
    }

    /// Continues from an offset to the end of its instruction, if control goes there.
    fn go_on(&mut self, offset: usize, exits: Exits) -> Result<(), AllocError>
        requires inside { 0 < exits.next → offset + exits.next < length self.old.marks.items }
        requires few { length self.old.marks.items ≤ 16777216 }
        requires short { exits.next ≤ 15 }
        ensures marks { OnOk result (self.new.marks.items ≡ next_marks self.old.marks.items offset exits) }
        ensures order { OnOk result (self.new.order.items ≡ next_order self.old.marks.items self.old.order.items offset exits) }
        ensures flows { OnOk result (self.new.flows.items ≡ self.old.flows.items) }
    {
        if exits.next > 0 {
            self.arrive(offset + usize::from(exits.next), mark_of_end(exits))?;
        }
        Ok(())
    }

    /// Goes along all edges from the offset whose turn it is.
    fn follow(
        &mut self,
        follow: Follow,
        bits: Bits,
        base: u64,
        bytes: &[u8],
        turn: usize,
    ) -> Result<(), AllocError>
        requires few { length bytes.now ≤ 16777216 }
        requires len { length self.old.marks.items ≡ length bytes.now }
        requires told { AreTold (code_bytes_with follow bits base bytes.now) self.old.order.items turn self.old.flows.items }
        requires turn { turn < length self.old.order.items }
        requires inside { slice_index self.old.order.items turn < length bytes.now }
        ensures walk { OnOk result ((entries : List ℕ)
            → IsWalk (code_bytes_with follow bits base bytes.now) entries self.old.marks.items self.old.order.items
            (IsTreated (code_bytes_with follow bits base bytes.now) self.old.order.items turn)
            → IsWalk (code_bytes_with follow bits base bytes.now) entries self.new.marks.items self.new.order.items
            (IsTreated (code_bytes_with follow bits base bytes.now) self.new.order.items (turn + 1))) }
        ensures told { OnOk result (AreTold (code_bytes_with follow bits base bytes.now) self.new.order.items (turn + 1) self.new.flows.items) }
    {
        let offset = self.order[turn] as usize;
        let stop = stop_at(follow, bits, base, bytes, offset);
        self.flows[offset] = stop.flow;
        self.go_on(offset, stop.exits)?;
        if let Some(target) = stop.exits.target {
            self.arrive(target, LEADER)?;
        }
        Ok(())
    }
}

/// Marks what control reaches from the first offsets.
pub(crate) fn walk_all(
    alloc: Global,
    follow: Follow,
    bits: Bits,
    base: u64,
    bytes: &[u8],
    entries: &[u32],
) -> Result<Walk, AllocError>
    requires { length bytes.now ≤ 16777216 }
    ensures marks { IfOk result (λ walk. AreMarks (code_bytes_with follow bits base bytes.now) entries.now walk.marks.items) }
    ensures told { IfOk result (λ walk. MarkedAreTold (code_bytes_with follow bits base bytes.now) walk.marks.items walk.flows.items) }
{
    let mut walk = Walk::start(alloc, bytes.len(), entries)?;
    let mut turn = 0;
    'turns: while turn < walk.order.len() {
        walk.follow(follow, bits, base, bytes, turn)?;
        turn += 1;
    }
    Ok(walk)
}
