//! The block of a step, and its place in the region.

ghost use Rattle.std.specs.Prelude.{◌≡◌, ◌≤◌, ◌+◌, ◌<◌, ◌^◌};
ghost use Rattle.x86_values.specs.Wrapping.{width};
ghost use Rattle.code_region.specs.Keeping.{IsSound};
ghost use Rattle.code_region.specs.Laws.{AreInUnits};
ghost use Rattle.move_goals.specs.Items.{IsPlaced};
ghost use Rattle.step_slots.specs.Block as spec;
ghost use Rattle.step_slots.specs.Stepping.{IsBlockStepped, IsOfLength, IsOfReach, place_refusal_of, move_refusal_of};

use crate::laws_below::laws_below;
use crate::refusals::StepError;
use block_encoder::{Placed, PlanError, last_len, move_few_outside};
use code_region::{PlaceError, Region, round_up};
use move_goals::branch_forms::{Action, near_code};
use move_goals::moved_targets::plain_length;
use std::alloc::Global;
use x86_values::{Bits, Code, Instr, Operand, Rep, wrap};

/// A JMP with an offset of the mode's own operand size.
#[tactic(auto, unfolding(crate::specs::Block::jump_to, move_goals::specs::BranchForms::Images::branch_to))]
pub(crate) fn jump_to(bits: Bits, target: u64) -> Instr
    ensures { result ≡ spec.jump_to bits target }
{
    let none = Operand::Absent;
    Instr {
        code: Code(near_code(Action::Jump, bits)),
        ops: [Operand::Near(target), none, none, none],
        lock: false,
        rep: Rep::None,
        seg: None,
        asize: None,
    }
}

/// Returns the jump to an address, as an instruction that lies there.
fn jump_at(bits: Bits, back: u64) -> Placed
    ensures { result ≡ spec.jump_at bits back }
{
    let instr = jump_to(bits, back);
    let len = plain_length(bits, &instr);
    Placed {
        ip: back,
        len,
        instr,
    }
}

/// Returns an instruction, and the jump back to the address after it.
pub(crate) fn step_items(bits: Bits, item: Placed) -> [Placed; 2]
    ensures { result ≡ spec.step_items bits item }
{
    let back = wrap(bits, u128::from(item.ip) + u128::from(item.len));
    [item, jump_at(bits, back)]
}

/// Why a step is refused, by why it gets no place; `len` is the rounded length of its block.
fn place_refusal(why: PlaceError, len: u64) -> StepError
    requires { IsOfLength why }
    ensures { result ≡ place_refusal_of why len }
{
    match why {
        PlaceError::TooManyBlocks { max } => StepError::TooManyBlocks { max, len },
        PlaceError::Full { len, largest } => StepError::Full { len, largest },
        PlaceError::Empty => unreachable!(),
    }
}

/// Why a step is refused, by why its block is not moved.
fn move_refusal(why: PlanError) -> StepError
    requires { IsOfReach why }
    ensures { result ≡ move_refusal_of why }
{
    match why {
        PlanError::TooFar { target, .. } => StepError::TooFar { target },
        PlanError::Memory => StepError::Memory,
        PlanError::Wraps { .. } => unreachable!(),
    }
}

/// Places the block of an instruction in a region that starts at `base`, and fills it.
pub(crate) fn step_block(
    alloc: Global,
    bits: Bits,
    base: u64,
    region: &mut Region,
    item: Placed,
) -> Result<u64, StepError>
    requires placed { IsPlaced bits item }
    requires base { base ≡ region.old.base }
    requires inside { region.old.base + region.old.size ≤ 2 ^ width bits }
    requires sound { IsSound region.old }
    requires units { AreInUnits region.old }
    ensures { IsBlockStepped bits region.old item result region.new }
{
    laws_below();
    let items = step_items(bits, item);
    let len = last_len(bits, &items, base);
    let place = match region.place(len) {
        Ok(place) => place,
        Err(why) => return Err(place_refusal(why, round_up(len))),
    };
    match move_few_outside(alloc, bits, &items, place) {
        Ok(moved) => {
            region.fill(place, moved.bytes());
            Ok(place)
        }
        Err(why) => {
            let _ = region.release(place);
            Err(move_refusal(why))
        }
    }
}
