//! The bytes of a routine without slots.

ghost use Rattle.std.specs.Prelude.{◌≡◌};
ghost use Rattle.code_assembler.specs.Routine.{aim_at};
ghost use Rattle.code_assembler.specs.Near as spec;
ghost use Rattle.code_assembler.specs.Near.{IsFinishedNear};

use crate::assembled::Assembled;
use crate::error::FinishError;
use crate::laws_below::laws_below;
use crate::routine::Assembler;
use branch_sizes::Form;
use branch_sizes::move_layout::is_far_form;
use move_goals::Placed;
use move_goals::moved_targets::target_of;
use std::alloc::Global;

/// The first of some forms that goes through a slot.
fn first_far(forms: &[Form]) -> Option<usize>
    ensures { result ≡ spec.first_far forms.now }
{
    forms.iter().position(|form| is_far_form(*form))
}

/// The label to which an item goes, if it goes to one.
fn aim_of(aims: &[Option<u32>], at: usize) -> Option<u32>
    ensures { result ≡ aim_at aims.now at }
{
    match aims.get(at) {
        Some(aim) => *aim,
        None => None,
    }
}

/// The target of an item, wherever the routine lies. It is 0 without one.
fn own_target(items: &[Placed], at: usize) -> u64
    ensures { result ≡ spec.own_target items.now at }
{
    match items.get(at) {
        Some(item) => target_of(&item.instr).unwrap_or(0),
        None => 0,
    }
}

/// The address to which an item goes: that of its label, or its own target. It is 0 if the item goes nowhere.
fn address_aimed(aims: &[Option<u32>], items: &[Placed], made: &Assembled, at: usize) -> u64
    ensures { result ≡ spec.address_aimed aims.now items.now made.now at }
{
    match aim_of(aims, at) {
        None => own_target(items, at),
        Some(label) => made.address_at(label as usize).unwrap_or(0),
    }
}

impl Assembler {
    /// Returns the bytes of the routine with its first byte at the address `base`, as [`Assembler::finish`] does, if no branch goes through a slot. So there is
    /// nothing behind the code and the data.
    ///
    /// Errors: those of [`Assembler::finish`], then `TooFar`, which names the first branch that would go through a slot, and its target.
    pub fn finish_near(&self, alloc: Global, base: u64) -> Result<Assembled, FinishError>
        ensures { IsFinishedNear self.now base result }
    {
        laws_below();
        let made = match self.finish(alloc, base) {
            Ok(made) => made,
            Err(why) => return Err(why),
        };
        match first_far(made.moved.forms()) {
            None => Ok(made),
            Some(at) => Err(FinishError::TooFar {
                at: at as u64,
                target: address_aimed(&self.aims, &self.items, &made, at),
            }),
        }
    }
}
