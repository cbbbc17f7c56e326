//! The forms that a moved instruction may take.

ghost use Rattle.std.specs.Prelude.{◌≡◌, ◌≤◌, ◌++◌, [], ◌∷◌, None, length, map};
ghost use Rattle.move_goals.specs.BranchForms.Branches.{branch_of};
ghost use Rattle.move_goals.specs.BranchForms.Choices as spec;
ghost use Rattle.branch_sizes.specs.declared.plan.Form.TheVariants.{Itself};
ghost use Rattle.branch_sizes.specs.declared.plan.Reach.TheVariants.{Always};
ghost use Rattle.move_goals.specs.MovedTargets.Targets.{target_of, plain_length};

use crate::branch_forms::branch::{Action, RelativeBranch, branch_of};
use crate::branch_forms::form_lengths::branch_length;
use crate::branch_forms::image::bridge_inner;
use crate::branch_forms::laws_below::laws_below;
use crate::moved_targets::plain_length;
use arrayvec::ArrayVec;
use branch_sizes::{Choice, Form, Reach};
use x86_values::{Bits, Instr, width};

/// What a form with an offset of the operand size reaches.
#[tactic(auto, unfolding(crate::specs::BranchForms::Choices::near_reach))]
fn near_reach(bits: Bits, size: Bits) -> Reach
    ensures { result ≡ spec.near_reach bits size }
{
    match bits {
        Bits::B64 => Reach::Signed32,
        _ => Reach::Below(width(size)),
    }
}

/// What a bridge reaches.
#[tactic(auto, unfolding(crate::specs::BranchForms::Choices::bridge_reach))]
fn bridge_reach(bits: Bits, size: Bits, inner: u8) -> Reach
    ensures { result ≡ spec.bridge_reach bits size inner }
{
    match bits {
        Bits::B64 => Reach::Signed32,
        _ => Reach::BridgeBelow {
            bits: width(size),
            inner,
        },
    }
}

/// What a form of a relative branch reaches.
#[tactic(auto, unfolding(crate::specs::BranchForms::Choices::form_reach))]
fn form_reach(bits: Bits, branch: RelativeBranch, asize: Option<Bits>, form: Form) -> Reach
    ensures { result ≡ spec.form_reach bits branch asize form }
{
    match form {
        Form::Short => Reach::Signed8,
        Form::Near => near_reach(bits, branch.size),
        Form::Bridge => bridge_reach(bits, branch.size, bridge_inner(bits, branch, asize)),
        _ => Reach::Always,
    }
}

/// The choice of a form by a relative branch.
fn branch_choice(bits: Bits, instr: &Instr, branch: RelativeBranch, form: Form) -> Choice
    requires { branch_of instr.now ≡ Some branch }
    ensures { result ≡ spec.branch_choice bits instr.now branch form }
{
    Choice {
        form,
        len: branch_length(bits, instr, branch, form),
        reach: form_reach(bits, branch, instr.asize, form),
    }
}

/// The choices of a relative branch: its forms in every mode, and the last one in 64-bit mode.
fn choices_with(
    bits: Bits,
    instr: &Instr,
    branch: RelativeBranch,
    forms: &[Form],
    last: Form,
) -> ArrayVec<Choice, 3>
    requires branch { branch_of instr.now ≡ Some branch }
    requires few { length forms.now ≤ 2 }
    ensures { result.items ≡ map (spec.branch_choice bits instr.now branch) (forms.now ++ spec.in_64 bits last) }
{
    let mut choices = ArrayVec::new();
    for form in forms {
        choices.push(branch_choice(bits, instr, branch, *form));
    }
    if let Bits::B64 = bits {
        choices.push(branch_choice(bits, instr, branch, last));
    }
    choices
}

/// The choices of a relative branch: one on a counter has no near form, but a bridge onto a near jump; what is near stays near.
#[tactic(auto, unfolding(crate::specs::BranchForms::Choices::branch_forms))]
fn branch_choices(bits: Bits, instr: &Instr, branch: RelativeBranch) -> ArrayVec<Choice, 3>
    requires { branch_of instr.now ≡ Some branch }
    ensures { result.items ≡ map (spec.branch_choice bits instr.now branch) (spec.branch_forms bits branch.action branch.is_short) }
{
    match branch.action {
        Action::Count(_) => choices_with(
            bits,
            instr,
            branch,
            &[Form::Short, Form::Bridge],
            Form::FarBridge,
        ),
        _ if branch.is_short => choices_with(
            bits,
            instr,
            branch,
            &[Form::Short, Form::Near],
            Form::Far,
        ),
        _ => choices_with(bits, instr, branch, &[Form::Near], Form::Far),
    }
}

/// Returns one choice, the instruction itself.
#[inline]
fn alone(len: u8) -> ArrayVec<Choice, 3>
    ensures { result.items ≡ record { form = Itself; len = len; reach = Always } ∷ [] }
{
    let mut choices = ArrayVec::new();
    choices.push(Choice {
        form: Form::Itself,
        len,
        reach: Reach::Always,
    });
    choices
}

/// The choice of what is no relative branch.
#[inline]
fn own_choice(bits: Bits, instr: &Instr) -> ArrayVec<Choice, 3>
    requires { branch_of instr.now ≡ None }
    ensures { result.items ≡ spec.choices_by bits instr.now None }
{
    laws_below();
    alone(plain_length(bits, instr))
}

/// Returns the forms of an instruction without a target whose plain spelling has this many bytes.
pub fn choices_without_target(bits: Bits, instr: &Instr, len: u8) -> ArrayVec<Choice, 3>
    requires untargeted { target_of instr.now ≡ None }
    requires len { len ≡ plain_length bits instr.now }
    ensures { result.items ≡ spec.choices_of bits instr.now }
{
    laws_below();
    alone(len)
}

/// Returns the forms that an instruction can take at a new place, from the first to the last, with their lengths in bytes and what they reach. An
/// instruction that is no relative branch has one form.
#[tactic(auto, unfolding(crate::specs::BranchForms::Choices::choices_of))]
pub fn choices_of(bits: Bits, instr: &Instr) -> ArrayVec<Choice, 3>
    ensures { result.items ≡ spec.choices_of bits instr.now }
{
    match branch_of(instr) {
        None => own_choice(bits, instr),
        Some(branch) => branch_choices(bits, instr, branch),
    }
}
