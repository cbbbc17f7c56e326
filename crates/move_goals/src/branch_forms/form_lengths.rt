//! How many bytes the images of a moved instruction have.

ghost use Rattle.std.specs.Prelude.{◌≡◌, ◌≤◌, Some};
ghost use Rattle.move_goals.specs.BranchForms.Branches as branches;
ghost use Rattle.move_goals.specs.BranchForms.Images as images;
ghost use Rattle.move_goals.specs.BranchForms.Lengths as spec;

use crate::branch_forms::branch::{Action, RelativeBranch};
use crate::branch_forms::image::counter_size;
use crate::branch_forms::laws_below::laws_below;
use crate::moved_targets::plain_length;
use branch_sizes::Form;
use x86_values::{Bits, Instr};

/// 66 precedes a branch for an operand size of 16 or 32 bits that is not the mode's own.
fn size_byte(bits: Bits, size: Bits) -> u8
    ensures value { result ≡ spec.size_byte bits size }
    ensures small { result ≤ 1 }
{
    match (bits, size) {
        (Bits::B16, Bits::B32) | (Bits::B32, Bits::B16) | (Bits::B64, Bits::B16) => 1,
        _ => 0,
    }
}

/// Returns the number of 67 prefixes: 1 if the address size is not the mode's.
fn address_byte(bits: Bits, asize: Option<Bits>) -> u8
    ensures value { result ≡ spec.address_byte bits asize }
    ensures small { result ≤ 1 }
{
    match (bits, asize) {
        (_, None) => 0,
        (Bits::B16, Some(Bits::B16)) => 0,
        (Bits::B32, Some(Bits::B32)) => 0,
        (Bits::B64, Some(Bits::B64)) => 0,
        _ => 1,
    }
}

/// Returns the number of bytes of an offset of the operand size: in 64-bit mode four. In 16-bit mode a branch that only 64-bit mode has counts as one
/// of 16 bits.
fn offset_bytes(bits: Bits, size: Bits) -> u8
    ensures value { result ≡ spec.offset_bytes bits size }
    ensures small { result ≤ 4 }
{
    match (bits, size) {
        (Bits::B16, Bits::B16 | Bits::B64) | (Bits::B32, Bits::B16) => 2,
        _ => 4,
    }
}

/// A branch with an offset of the operand size.
fn near_bytes(bits: Bits, action: Action, size: Bits) -> u8
    ensures value { result ≡ spec.near_bytes bits action size }
    ensures small { result ≤ 7 }
{
    match action {
        Action::Condition(_) => 2 + size_byte(bits, size) + offset_bytes(bits, size),
        _ => 1 + size_byte(bits, size) + offset_bytes(bits, size),
    }
}

/// Returns the number of bytes of a branch with an 8-bit offset. A CALL has none; its own code is used.
fn short_bytes(bits: Bits, action: Action, size: Bits, asize: Option<Bits>) -> u8
    ensures value { result ≡ spec.short_bytes bits action size asize }
    ensures small { result ≤ 7 }
{
    match action {
        Action::Call => near_bytes(bits, Action::Call, size),
        _ => 2 + size_byte(bits, size) + address_byte(bits, asize),
    }
}

/// CALL or JMP through a slot.
fn slot_bytes(bits: Bits) -> u8
    ensures value { result ≡ spec.slot_bytes bits }
    ensures small { result ≤ 7 }
{
    6 + address_byte(bits, Some(Bits::B64))
}

/// Returns the number of bytes of the image of a relative branch in a form, for every place and goal.
pub(crate) fn branch_length(bits: Bits, instr: &Instr, branch: RelativeBranch, form: Form) -> u8
    requires { branches.branch_of instr.now ≡ Some branch }
    ensures { result ≡ images.form_length bits instr.now form }
{
    laws_below();
    let asize = counter_size(branch.action, instr.asize);
    let short = short_bytes(bits, branch.action, branch.size, asize);
    match form {
        Form::Itself => plain_length(bits, instr),
        Form::Short => short,
        Form::Near => near_bytes(bits, branch.action, branch.size),
        Form::Far => match branch.action {
            Action::Condition(_) => short + slot_bytes(bits),
            _ => slot_bytes(bits),
        },
        Form::Bridge => short + 2 + near_bytes(bits, Action::Jump, branch.size),
        Form::FarBridge => short + 2 + slot_bytes(bits),
    }
}
