//! The images of a moved instruction.

ghost use Rattle.std.specs.Prelude.{◌≡◌, ◌<◌, ℕ, [], ◌∷◌};
ghost use Rattle.x86_values.specs.declared.Bits.{Bits};
ghost use Rattle.branch_sizes.specs.declared.plan.Form.TheVariants.{Short, Near};
ghost use Rattle.move_goals.specs.BranchForms.Images as spec;

use crate::branch_forms::branch::{
    Action, RelativeBranch, branch_of, far_code, near_code, opposite_condition, short_code,
};
use crate::moved_targets::{plain_length, with_target};
use branch_sizes::Form;
use x86_values::{Bits, Code, DispSize, Instr, Mem, Operand, Register, Rep, wrap};

/// The instructions that a moved instruction becomes, in order.
#[derive(Clone, Copy)]
pub enum Image {
    One(Instr),
    Two(Instr, Instr),
    Three(Instr, Instr, Instr),
}

/// An instruction of one operand without prefixes that it keeps.
fn bare(code: u16, asize: Option<Bits>, operand: Operand) -> Instr
    ensures { result ≡ spec.bare code asize operand }
{
    Instr {
        code: Code(code),
        lock: false,
        rep: Rep::None,
        seg: None,
        asize,
        ops: [operand, Operand::Absent, Operand::Absent, Operand::Absent],
    }
}

/// Returns a relative branch to a target.
#[tactic(auto, unfolding(crate::specs::BranchForms::Images::branch_to))]
pub fn branch_to(code: u16, asize: Option<Bits>, target: u64) -> Instr
    ensures { result ≡ spec.branch_to code asize target }
{
    bare(code, asize, Operand::Near(target))
}

/// Returns CALL or JMP through the slot at an address, relative to RIP.
#[tactic(auto, unfolding(crate::specs::BranchForms::Images::through_slot))]
pub fn through_slot(code: u16, slot: u64) -> Instr
    ensures { result ≡ spec.through_slot code slot }
{
    let operand = Mem {
        base: Some(Register::Rip),
        index: None,
        scale: 1,
        disp_size: DispSize::D32,
        disp: slot,
    };
    bare(code, Some(Bits::B64), Operand::Mem(operand))
}

/// The address size that a branch keeps: that of a branch on a counter, which says how wide the counter is.
#[tactic(auto, unfolding(crate::specs::BranchForms::Images::counter_size))]
pub(crate) fn counter_size(action: Action, asize: Option<Bits>) -> Option<Bits>
    ensures { result ≡ spec.counter_size action asize }
{
    match action {
        Action::Count(_) => asize,
        _ => None,
    }
}

/// The branch with an offset of 8 bits.
#[tactic(auto, unfolding(crate::specs::BranchForms::Images::short_branch))]
fn short_branch(branch: RelativeBranch, asize: Option<Bits>, target: u64) -> Instr
    ensures { result ≡ spec.short_branch branch asize target }
{
    let code = short_code(branch.action, branch.size);
    branch_to(code, counter_size(branch.action, asize), target)
}

/// The short jump of a bridge, of the operand size that is the mode's own.
#[tactic(auto, unfolding(crate::specs::BranchForms::Images::skip))]
fn skip(bits: Bits, target: u64) -> Instr
    ensures { result ≡ spec.skip bits target }
{
    branch_to(short_code(Action::Jump, bits), None, target)
}

/// The near jump of a bridge, of the operand size of the branch.
#[tactic(auto, unfolding(crate::specs::BranchForms::Images::bridge_jump))]
fn bridge_jump(branch: RelativeBranch, target: u64) -> Instr
    ensures { result ≡ spec.bridge_jump branch target }
{
    branch_to(near_code(Action::Jump, branch.size), None, target)
}

/// Returns the number of bytes before the near jump of a bridge: the branch, and the short jump over what follows.
#[tactic(auto, unfolding(crate::specs::BranchForms::Images::bridge_inner))]
pub fn bridge_inner(bits: Bits, branch: RelativeBranch, asize: Option<Bits>) -> u8
    ensures value { result ≡ spec.bridge_inner bits branch asize }
    ensures small { result < 128 }
{
    plain_length(bits, &short_branch(branch, asize, 0)) + plain_length(bits, &skip(bits, 0))
}

/// A bridge at a place: the branch goes over the short jump, which goes over the last instruction.
#[tactic(auto, unfolding(crate::specs::BranchForms::Images::bridge))]
fn bridge(bits: Bits, branch: RelativeBranch, asize: Option<Bits>, place: u64, last: Instr) -> Image
    ensures { spec.instrs_of result ≡ spec.bridge bits branch asize place last }
{
    let onto = u128::from(place) + u128::from(bridge_inner(bits, branch, asize));
    let over = onto + u128::from(plain_length(bits, &last));
    let first = short_branch(branch, asize, wrap(bits, onto));
    Image::Three(first, skip(bits, wrap(bits, over)), last)
}

/// A branch on the other condition, over a jump through a slot.
#[tactic(auto, unfolding(crate::specs::BranchForms::Images::far_image))]
fn far_condition(bits: Bits, branch: RelativeBranch, place: u64, condition: u8, slot: u64) -> Image
    ensures { spec.instrs_of result ≡ spec.far_image bits branch place (Action.Condition condition) slot }
{
    let last = through_slot(far_code(Action::Jump), slot);
    let code = short_code(
        Action::Condition(opposite_condition(condition)),
        branch.size,
    );
    let onto = u128::from(place) + u128::from(plain_length(bits, &branch_to(code, None, 0)));
    let over = onto + u128::from(plain_length(bits, &last));
    Image::Two(branch_to(code, None, wrap(bits, over)), last)
}

/// A far branch: it goes through a slot, and one on a condition goes over that on the other condition.
#[tactic(auto, unfolding(crate::specs::BranchForms::Images::far_image))]
fn far_image(bits: Bits, branch: RelativeBranch, place: u64, slot: u64) -> Image
    ensures { spec.instrs_of result ≡ spec.far_image bits branch place branch.action slot }
{
    match branch.action {
        Action::Condition(condition) => far_condition(bits, branch, place, condition, slot),
        action => Image::One(through_slot(far_code(action), slot)),
    }
}

/// The image of a relative branch in a form at a place, with its goal and the address of its slot.
#[tactic(auto, unfolding(crate::specs::BranchForms::Images::branch_image))]
fn branch_image(
    bits: Bits,
    instr: &Instr,
    branch: RelativeBranch,
    form: Form,
    place: u64,
    goal: u64,
    slot: u64,
) -> Image
    ensures { spec.instrs_of result ≡ spec.branch_image bits instr.now branch form place goal slot }
{
    let asize = instr.asize;
    match form {
        Form::Itself => Image::One(with_target(instr, goal)),
        Form::Short => Image::One(short_branch(branch, asize, goal)),
        Form::Near => {
            let code = near_code(branch.action, branch.size);
            Image::One(branch_to(code, None, goal))
        }
        Form::Far => far_image(bits, branch, place, slot),
        Form::Bridge => bridge(bits, branch, asize, place, bridge_jump(branch, goal)),
        Form::FarBridge => {
            let last = through_slot(far_code(Action::Jump), slot);
            bridge(bits, branch, asize, place, last)
        }
    }
}

/// Returns the image of an instruction in the short form with a goal. It is one instruction at every place. An instruction that is no relative branch
/// is its own image.
pub fn short_image(instr: &Instr, goal: u64) -> Instr
    ensures { (bits : Bits) (place slot : ℕ) → spec.image_of bits instr.now Short place goal slot ≡ result ∷ [] }
{
    match branch_of(instr) {
        None => with_target(instr, goal),
        Some(branch) => short_branch(branch, instr.asize, goal),
    }
}

/// Returns the image of an instruction in the near form with a goal, like [`short_image`] for the short form.
pub fn near_image(instr: &Instr, goal: u64) -> Instr
    ensures { (bits : Bits) (place slot : ℕ) → spec.image_of bits instr.now Near place goal slot ≡ result ∷ [] }
{
    match branch_of(instr) {
        None => with_target(instr, goal),
        Some(branch) => branch_to(near_code(branch.action, branch.size), None, goal),
    }
}

/// Returns the image of an instruction in a form at a place, with a goal. A far form goes through the 8-byte slot at an address.
///
/// `form` must be one of the instruction's choices. A branch keeps no segment and no repeat prefix.
#[tactic(auto, unfolding(crate::specs::BranchForms::Images::image_of))]
pub fn image_of(bits: Bits, instr: &Instr, form: Form, place: u64, goal: u64, slot: u64) -> Image
    ensures { spec.instrs_of result ≡ spec.image_of bits instr.now form place goal slot }
{
    match branch_of(instr) {
        None => Image::One(with_target(instr, goal)),
        Some(branch) => branch_image(bits, instr, branch, form, place, goal, slot),
    }
}
