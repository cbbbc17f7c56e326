//! The bytes of a routine.

ghost use Rattle.std.specs.Prelude.{◌≡◌, ◌≤◌, ◌<◌, ◌+◌, ◌++◌, [], ◌∷◌, length, IfOk, IsTrue, None};
ghost use Rattle.std.specs.List.{list_any};
ghost use Rattle.move_goals.specs.BranchForms.Choices.{choices_of};
ghost use Rattle.move_goals.specs.MovedTargets.Targets.{target_of};
ghost use Rattle.move_goals.specs.Items.{ArePlaced, item_at, one_span};
ghost use Rattle.move_goals.specs.Plan as plan;
ghost use Rattle.move_goals.specs.Plan.{branch_with, plan_with};
ghost use Rattle.move_goals.specs.Ready.{MayBeReady, AreReady};
ghost use Rattle.code_assembler.specs.Routine as spec;
ghost use Rattle.code_assembler.specs.Routine.{routine_goals};
ghost use Rattle.code_assembler.specs.Routine.{with_byte, HasAdded};
ghost use Rattle.code_assembler.specs.Finished as finished;
ghost use Rattle.code_assembler.specs.Finished.{IsFinished, IsLaidAnswer, IsMade};

use crate::assembled::{Assembled, place_of};
use crate::error::FinishError;
use crate::filling::{cut_end, put_data};
use crate::laws_below::laws_below;
use crate::lists::{longer, longer_ready};
use crate::routine::{Assembler, MOST};
use crate::stand_in::stand_in;
use arrayvec::ArrayVec;
use block_encoder::{MovedBlocks, PlanError, move_with_ready};
use branch_sizes::{Branch, Choice, Goal, Plan};
use move_goals::branch_forms::{choices_of, choices_without_target};
use move_goals::moved_targets::laws::spellings_are_moved;
use move_goals::moved_targets::{independent_bytes, target_of};
use move_goals::{Placed, ready_of};
use std::alloc::{AllocError, Global};
use x86_values::{Bits, Instr};

/// What the added byte is where a label stands at the end: one of those between the code and its slots.
const END: u8 = 0xCC;

/// Whether a label follows `count` items.
fn is_behind(count: usize, place: Option<u32>) -> bool
    ensures { result ≡ spec.is_behind count place }
{
    match place {
        None => false,
        Some(k) => k as usize == count,
    }
}

/// Whether some label follows `count` items.
fn is_some_behind(labels: &[Option<u32>], count: usize) -> bool
    ensures { result ≡ list_any (spec.is_behind count) labels.now }
{
    labels.iter().any(|place| is_behind(count, *place))
}

/// Whether some label stands at the end of `count` items, and there is room for one more.
#[tactic(auto, using(std::proofs::lemmas::Bool::Decides::nat_tests))]
fn has_end_label(labels: &[Option<u32>], count: usize) -> bool
    ensures value { result ≡ spec.has_end_label labels.now count }
    ensures few { IsTrue result → count < 65536 }
{
    if count < MOST {
        is_some_behind(labels, count)
    } else {
        false
    }
}

/// Whether an item goes to no label, or to one that precedes one of `count` items.
fn is_aimed(labels: &[Option<u32>], count: usize, aim: Option<u32>) -> bool
    ensures { result ≡ spec.is_aimed labels.now count aim }
{
    match aim {
        None => true,
        Some(label) => match place_of(labels, label) {
            None => false,
            Some(k) => (k as usize) < count,
        },
    }
}

/// The first item whose label precedes none of `count`.
#[tactic(auto, unfolding(crate::specs::Routine::first_unplaced))]
fn first_unplaced(labels: &[Option<u32>], aims: &[Option<u32>], count: usize) -> Option<usize>
    requires { length aims.now ≤ count }
    ensures { result ≡ spec.first_unplaced labels.now aims.now count }
{
    laws_below();
    'aims: for k in 0..aims.len() {
        if !is_aimed(labels, count, aims[k]) {
            return Some(k);
        }
    }
    None
}

/// The goal of a target that stays.
fn kept_goal(target: Option<u64>) -> Goal
    ensures { result ≡ plan.kept_goal target }
{
    match target {
        None => Goal::None,
        Some(target) => Goal::Outside(target),
    }
}

/// The instruction where a label stands, else another goal.
fn stand_goal(count: usize, place: Option<u32>, other: Goal) -> Goal
    ensures { result ≡ spec.stand_goal count place other }
{
    match place {
        None => other,
        Some(k) => {
            if (k as usize) < count {
                Goal::Inside(k)
            } else {
                other
            }
        }
    }
}

/// The goal of an instruction's own target. One that has ready bytes has no target.
#[inline]
fn own_goal(bits: Bits, instr: &Instr, ready: &[u8]) -> Goal
    requires { MayBeReady bits instr.now ready.now }
    ensures { result ≡ plan.kept_goal (target_of instr.now) }
{
    if ready.is_empty() {
        kept_goal(target_of(instr))
    } else {
        Goal::None
    }
}

/// The goal of an instruction, which has these ready bytes: the one that its label precedes, or its own target.
fn aim_goal(
    bits: Bits,
    labels: &[Option<u32>],
    count: usize,
    item: &Placed,
    aim: Option<u32>,
    ready: &[u8],
) -> Goal
    requires { MayBeReady bits item.now.instr ready.now }
    ensures { result ≡ spec.aim_goal labels.now count item.now aim }
{
    let own = own_goal(bits, &item.instr, ready);
    match aim {
        None => own,
        Some(label) => stand_goal(count, place_of(labels, label), own),
    }
}

/// Returns the forms of an instruction. One that has ready bytes, which do not depend on its place, has one form.
#[inline]
fn forms_of(bits: Bits, instr: &Instr, ready: &[u8]) -> ArrayVec<Choice, 3>
    requires { MayBeReady bits instr.now ready.now }
    ensures { result.items ≡ choices_of bits instr.now }
{
    if ready.is_empty() {
        return choices_of(bits, instr);
    }
    spellings_are_moved();
    choices_without_target(bits, instr, ready.len() as u8)
}

/// Item `k` of the plan.
fn branch_at(
    bits: Bits,
    labels: &[Option<u32>],
    aims: &[Option<u32>],
    items: &[Placed],
    k: usize,
    ready: &[u8],
) -> Branch
    requires item { k < length items.now }
    requires aim { k < length aims.now }
    requires ready { MayBeReady bits (item_at items.now k).instr ready.now }
    ensures { result ≡ branch_with bits items.now (routine_goals labels.now aims.now items.now) k }
{
    let item = &items[k];
    Branch {
        choices: forms_of(bits, &item.instr, ready),
        goal: aim_goal(bits, labels, items.len(), item, aims[k], ready),
    }
}

/// The plan of a routine.
fn plan_at(
    alloc: Global,
    bits: Bits,
    labels: &[Option<u32>],
    aims: &[Option<u32>],
    items: &[Placed],
    ready: &[ArrayVec<u8, 15>],
    base: u64,
) -> Result<Plan, AllocError>
    requires aimed { length aims.now ≡ length items.now }
    requires few { length items.now ≤ 65536 }
    requires placed { ArePlaced bits items.now }
    requires ready { AreReady bits items.now ready.now }
    ensures { IfOk result (λ plan. plan ≡ plan_with bits (one_span items.now base) items.now (routine_goals labels.now aims.now items.now)) }
{
    laws_below();
    let mut branches = Vec::with_capacity(alloc, items.len())?;
    'items: for k in 0..items.len() {
        branches.push(branch_at(bits, labels, aims, items, k, ready_of(ready, k)))?;
    }
    Ok(Plan::new(base, branches))
}

/// A copy of the places of labels.
fn copy_of(alloc: Global, labels: &[Option<u32>]) -> Result<Vec<Option<u32>>, AllocError>
    ensures { IfOk result (λ copy. copy.items ≡ labels.now) }
{
    let mut copy = Vec::with_capacity(alloc, labels.len())?;
    copy.extend_from_slice(labels)?;
    Ok(copy)
}

/// The bytes of moved items with their data. Callers added `count` of the items.
fn finished_bytes(
    alloc: Global,
    moved: &MovedBlocks,
    filled: &[Option<u8>],
    base: u64,
    count: usize,
) -> Result<Vec<u8>, AllocError>
    ensures { IfOk result (λ bytes. bytes.items ≡ finished.finished_bytes moved.now filled.now base count) }
{
    let mut bytes = Vec::with_capacity(alloc, moved.bytes().len())?;
    bytes.extend_from_slice(moved.bytes())?;
    put_data(&mut bytes, moved.starts(), base, filled);
    cut_end(&mut bytes, count < filled.len(), moved.slots());
    Ok(bytes)
}

/// What a move of a routine gives, with its data and the places of its labels.
fn assembled_of(
    alloc: Global,
    moved: Result<MovedBlocks, PlanError>,
    filled: &[Option<u8>],
    labels: Vec<Option<u32>>,
    base: u64,
    count: usize,
) -> Result<Assembled, FinishError>
    ensures { IsMade moved filled.now labels.items base count result }
{
    match moved {
        Ok(moved) => {
            let bytes = finished_bytes(alloc, &moved, filled, base, count)?;
            Ok(Assembled {
                bytes,
                moved,
                count,
                labels,
            })
        }
        Err(why) => Err(FinishError::from(why)),
    }
}

impl Assembler {
    /// Returns the bytes of the routine with its first byte at the address `base`, in the least layout: short branches unless one does not reach, and no
    /// branch longer than that makes it. A branch on a counter that does not reach goes over a jump. In 64-bit mode a branch to an address that is out of
    /// reach goes through a slot of eight bytes behind the code; [`Assembler::finish_near`] refuses it.
    ///
    /// The bytes decode at `base` to the instructions in order, each of which goes to its label or its own target; data stands where it was added. The
    /// routine can be finished again, at another address too.
    ///
    /// A label at the end has the address behind the last item, which must be one of the address space. Only behind 65,536 items has it none.
    ///
    /// Errors, in this order, by the numbers of items from 0: `Unplaced` names the first instruction whose label has no place or no address; `Wraps`: the
    /// end lies past the address space of the mode, where a label at the end counts as one byte more; `TooFar` names the first instruction that does not
    /// reach its target. `Memory` can replace the last two.
    pub fn finish(&self, alloc: Global, base: u64) -> Result<Assembled, FinishError>
        ensures { IsFinished self.now base result }
    {
        let count = self.items.len();
        if has_end_label(&self.labels, count) {
            self.finish_ended(alloc, base)
        } else {
            self.finish_plain(alloc, base)
        }
    }

    /// The bytes of a routine without a label at its end.
    fn finish_plain(&self, alloc: Global, base: u64) -> Result<Assembled, FinishError>
        ensures { IsLaidAnswer self.now base (length self.now.items) result }
    {
        laws_below();
        match first_unplaced(&self.labels, &self.aims, self.items.len()) {
            Some(at) => Err(FinishError::Unplaced { at }),
            None => self.finish_placed(alloc, base, self.items.len()),
        }
    }

    /// The bytes of a routine with a label at its end.
    fn finish_ended(&self, alloc: Global, base: u64) -> Result<Assembled, FinishError>
        requires { length self.now.items < 65536 }
        ensures { IsLaidAnswer (with_byte self.now 0xCC) base (length self.now.items) result }
    {
        laws_below();
        match first_unplaced(&self.labels, &self.aims, self.items.len() + 1) {
            Some(at) => Err(FinishError::Unplaced { at }),
            None => self.finish_longer(alloc, base),
        }
    }

    /// The bytes of a routine with a label at its end, in which each label that is gone to has a place.
    fn finish_longer(&self, alloc: Global, base: u64) -> Result<Assembled, FinishError>
        requires few { length self.now.items < 65536 }
        requires stand { let t = with_byte self.now 0xCC in spec.first_unplaced t.labels t.aims (length t.items) ≡ None }
        ensures { IsLaidAnswer (with_byte self.now 0xCC) base (length self.now.items) result }
    {
        let whole = self.with_end(alloc)?;
        let count = self.items.len();
        whole.finish_placed(alloc, base, count)
    }

    /// The routine with a byte behind it.
    fn with_end(&self, alloc: Global) -> Result<Assembler, AllocError>
        requires { length self.now.items < 65536 }
        ensures { IfOk result (λ whole. whole ≡ with_byte self.now 0xCC) }
    {
        let item = stand_in(self.bits);
        let last = independent_bytes(self.bits, &item.instr);
        let items = longer(alloc, &self.items, item)?;
        let aims = longer(alloc, &self.aims, None)?;
        let filled = longer(alloc, &self.filled, Some(END))?;
        let labels = copy_of(alloc, &self.labels)?;
        let ready = longer_ready(alloc, &self.ready, last)?;
        Ok(Assembler {
            bits: self.bits,
            items,
            aims,
            filled,
            labels,
            ready,
        })
    }

    /// The bytes of a routine in which each label that is gone to precedes an item. At most its last item was added for labels at the end.
    fn finish_placed(
        &self,
        alloc: Global,
        base: u64,
        count: usize,
    ) -> Result<Assembled, FinishError>
        requires stand { spec.first_unplaced self.now.labels self.now.aims (length self.now.items) ≡ None }
        requires added { HasAdded self.now count }
        ensures { IsLaidAnswer self.now base count result }
    {
        laws_below();
        let plan = plan_at(
            alloc,
            self.bits,
            &self.labels,
            &self.aims,
            &self.items,
            &self.ready,
            base,
        )?;
        let labels = copy_of(alloc, &self.labels)?;
        let moved = move_with_ready(alloc, self.bits, &self.items, &plan, &self.ready);
        assembled_of(alloc, moved, &self.filled, labels, base, count)
    }
}
