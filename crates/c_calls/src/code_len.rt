//! The end of moved code.

ghost use Rattle.std.specs.Prelude.{◌≡◌, ◌+◌, ◌<◌, ◌≤◌, length};
ghost use Rattle.move_goals.specs.BranchForms.Images.{form_length, instrs_of, pieces_length};
ghost use Rattle.c_calls.specs.Moving as spec;

use block_encoder::{Form, Placed};
use move_goals::branch_forms::{Image, image_of};
use move_goals::moved_targets::plain_length;
use x86_values::{Bits, Instr};

/// How many bytes the instructions of an image have.
fn image_len(bits: Bits, image: &Image) -> u64
    ensures value { result ≡ pieces_length bits (instrs_of image.now) }
    ensures small { result < 192 }
{
    match image {
        Image::One(a) => u64::from(plain_length(bits, a)),
        Image::Two(a, b) => u64::from(plain_length(bits, a)) + u64::from(plain_length(bits, b)),
        Image::Three(a, b, c) => {
            u64::from(plain_length(bits, a))
                + u64::from(plain_length(bits, b))
                + u64::from(plain_length(bits, c))
        }
    }
}

/// How many bytes the image of an instruction in a form has, at any place.
#[tactic(auto, unfolding(move_goals::specs::BranchForms::Images::form_length))]
pub(crate) fn form_len(bits: Bits, instr: &Instr, form: Form) -> u64
    ensures value { result ≡ form_length bits instr.now form }
    ensures small { result < 192 }
{
    image_len(bits, &image_of(bits, instr, form, 0, 0, 0))
}

/// How many bytes `count` moved instructions from number `first` on have, which move to `new`: those up to the end of the image of the last one.
#[tactic(auto, unfolding(crate::specs::Moving::code_len))]
pub(crate) fn code_len(
    bits: Bits,
    items: &[Placed],
    first: usize,
    count: usize,
    new: u64,
    starts: &[u64],
    forms: &[Form],
) -> u64
    requires within { first + count ≤ length items.now }
    requires starts { length starts.now ≡ length items.now }
    requires forms { length forms.now ≡ length items.now }
    ensures { result ≡ spec.code_len bits items.now first count new starts.now forms.now }
{
    if count == 0 {
        return 0;
    }
    let last = first + count - 1;
    let offset = starts[last].saturating_sub(new);
    offset.wrapping_add(form_len(bits, &items[last].instr, forms[last]))
}
