//! The bytes of one moved instruction.

ghost use Rattle.std.specs.Prelude.{◌≡◌, ◌+◌, ◌^◌, ◌<◌, ◌≤◌, [], ◌∷◌, IfOk, IfSome, MatchBool};
ghost use Rattle.encoder.specs.Encoding.{encoding};
ghost use Rattle.move_goals.specs.BranchForms.Images.{instrs_of};
ghost use Rattle.block_encoder.specs.Bytes.{bytes_from, fragment_bytes};
ghost use Rattle.block_encoder.specs.Moved as moved;
ghost use Rattle.block_encoder.specs.Written.{IsPieceAppended, AreAppended, IsFragmentWritten};

use branch_sizes::move_layout::Fragment;
use branch_sizes::{Form, Reach, reaches};
use encoder::encode;
use move_goals::branch_forms::{Image, image_of, near_image, short_image};
use move_goals::moved_targets::{target_reach, with_target};
use std::alloc::AllocError;
use x86_values::laws::wrapped_twice;
use x86_values::{Bits, Instr, wrap};

/// What an instruction in a fragment reaches.
fn fragment_reach(instr: &Instr, form: Form, reach: Reach) -> Reach
    ensures { result ≡ moved.fragment_reach instr.now form reach }
{
    match form {
        Form::Itself => target_reach(instr),
        _ => reach,
    }
}

/// Appends the plain spelling of an instruction at an address, which wraps at the address size of the mode. Returns the address after it, or `None`
/// if the instruction has no plain spelling there.
fn append_piece(
    bits: Bits,
    at: u128,
    instr: &Instr,
    bytes: &mut Vec<u8>,
) -> Result<Option<u128>, AllocError>
    requires { at < 2 ^ 66 }
    ensures piece { IfOk result (λ next. IsPieceAppended (encoding bits at instr.now) at bytes.old.items bytes.new.items next) }
    ensures near { IfOk result (λ next. IfSome next (λ n. n ≤ at + 15)) }
{
    wrapped_twice();
    match encode(bits, wrap(bits, at), instr) {
        Ok(piece) => {
            bytes.extend_from_slice(&piece)?;
            Ok(Some(at + piece.len() as u128))
        }
        Err(_) => Ok(None),
    }
}

/// Appends the plain spellings of an image at an address. `false`: one of them has none there, and those before it may be appended.
fn append_image(
    bits: Bits,
    at: u128,
    image: &Image,
    bytes: &mut Vec<u8>,
) -> Result<bool, AllocError>
    requires { at < 2 ^ 65 }
    ensures { IfOk result (λ done. AreAppended (bytes_from bits at (instrs_of image.now)) bytes.old.items bytes.new.items done) }
{
    match image {
        Image::One(a) => Ok(append_piece(bits, at, a, bytes)?.is_some()),
        Image::Two(a, b) => {
            let Some(at) = append_piece(bits, at, a, bytes)? else {
                return Ok(false);
            };
            Ok(append_piece(bits, at, b, bytes)?.is_some())
        }
        Image::Three(a, b, c) => {
            let Some(at) = append_piece(bits, at, a, bytes)? else {
                return Ok(false);
            };
            let Some(at) = append_piece(bits, at, b, bytes)? else {
                return Ok(false);
            };
            Ok(append_piece(bits, at, c, bytes)?.is_some())
        }
    }
}

/// Appends the plain spellings of an image of several instructions in its fragment. Returns `false` if one of them has none there; those before it
/// may be appended. It is a separate function, so that other images need no space for three instructions.
#[inline(never)]
fn append_several(
    bits: Bits,
    instr: &Instr,
    fragment: &Fragment,
    goal: u64,
    bytes: &mut Vec<u8>,
) -> Result<bool, AllocError>
    requires place { fragment.now.place < 2 ^ 64 }
    requires slot { fragment.now.slot < 2 ^ 64 }
    requires goal { goal ≡ fragment.now.goal }
    ensures { IfOk result (λ done. AreAppended (fragment_bytes bits instr.now fragment.now) bytes.old.items bytes.new.items done) }
{
    let image = image_of(
        bits,
        instr,
        fragment.form,
        fragment.place as u64,
        goal,
        fragment.slot as u64,
    );
    append_image(bits, fragment.place, &image, bytes)
}

/// Appends the plain spelling of an instruction that is the whole image of another one in its fragment. `false`: it has none there.
fn append_single(
    bits: Bits,
    fragment: &Fragment,
    image: &Instr,
    bytes: &mut Vec<u8>,
) -> Result<bool, AllocError>
    requires { fragment.now.place < 2 ^ 64 }
    ensures { IfOk result (λ done. AreAppended (bytes_from bits fragment.now.place (image.now ∷ [])) bytes.old.items bytes.new.items done) }
{
    Ok(append_piece(bits, fragment.place, image, bytes)?.is_some())
}

/// Appends the plain spellings of the image of an instruction in its fragment. `false`: one of them has none there, and those before it may be appended.
fn append_fragment(
    bits: Bits,
    instr: &Instr,
    fragment: &Fragment,
    goal: u64,
    bytes: &mut Vec<u8>,
) -> Result<bool, AllocError>
    requires place { fragment.now.place < 2 ^ 64 }
    requires slot { fragment.now.slot < 2 ^ 64 }
    requires goal { goal ≡ fragment.now.goal }
    ensures { IfOk result (λ done. AreAppended (fragment_bytes bits instr.now fragment.now) bytes.old.items bytes.new.items done) }
{
    match fragment.form {
        Form::Itself => append_single(bits, fragment, &with_target(instr, goal), bytes),
        Form::Short => append_single(bits, fragment, &short_image(instr, goal), bytes),
        Form::Near => append_single(bits, fragment, &near_image(instr, goal), bytes),
        Form::Far | Form::Bridge | Form::FarBridge => {
            append_several(bits, instr, fragment, goal, bytes)
        }
    }
}

/// Appends the bytes of an instruction in its fragment, aimed at its goal. `false`: it does not reach the goal, and some of its bytes may be appended.
pub(crate) fn write_image(
    bits: Bits,
    instr: &Instr,
    fragment: &Fragment,
    goal: u64,
    bytes: &mut Vec<u8>,
) -> Result<bool, AllocError>
    requires place { fragment.now.place < 2 ^ 64 }
    requires slot { fragment.now.slot < 2 ^ 64 }
    requires goal { goal ≡ fragment.now.goal }
    ensures { IfOk result (λ reached. MatchBool reached (IsFragmentWritten bits instr.now fragment.now bytes.old.items bytes.new.items) (moved.IsFragmentReached bits instr.now fragment.now → ⊥)) }
{
    let reach = fragment_reach(instr, fragment.form, fragment.reach);
    if !reaches(reach, fragment.len, fragment.place, u128::from(goal)) {
        return Ok(false);
    }
    append_fragment(bits, instr, fragment, goal, bytes)
}
