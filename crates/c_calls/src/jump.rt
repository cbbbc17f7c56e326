//! Jumps and calls of a wanted form.

ghost use Rattle.std.specs.Prelude.{◌≡◌, ◌++◌, ◌≤◌, ◌+◌, length, MatchResult, Ok, Err};
ghost use Rattle.arrayvec.specs.ArrayVec.{array_vec_len};
ghost use Rattle.c_calls.specs.Answers as said;
ghost use Rattle.c_calls.specs.Jumps as spec;

use crate::buffers::put_bytes;
use crate::encoding::no_spelling;
use crate::numbers::bits_numbered;
use crate::refusal::{Refusal, refusal_status};
use arrayvec::ArrayVec;
use encoder::encode;
use instruction_parts::append::append_few;
use move_goals::branch_forms::{Action, branch_to, far_code, near_code, short_code, through_slot};
use plain_spelling::numbers::push_low_bytes;
use x86_values::{Bits, Instr, wrap};

/// The form of a jump or a call.
#[derive(Clone, Copy)]
pub(crate) enum JumpForm {
    /// A jump with an offset of 8 bits.
    ShortJump,
    /// A jump with an offset of 16 or 32 bits.
    NearJump,
    /// A jump to the address that follows it.
    FarJump,
    /// A call with an offset of 16 or 32 bits.
    NearCall,
    /// A call of the address that follows it, after a jump over that.
    FarCall,
}

/// The bytes of a form: an instruction, followed by at most ten.
type JumpBytes = ArrayVec<u8, 32>;

/// The form of a number.
#[tactic(auto, unfolding(crate::specs::Jumps::jump_numbered))]
fn jump_numbered(n: u32) -> Option<JumpForm>
    ensures { result ≡ spec.jump_numbered n }
{
    match n {
        1 => Some(JumpForm::ShortJump),
        2 => Some(JumpForm::NearJump),
        3 => Some(JumpForm::FarJump),
        4 => Some(JumpForm::NearCall),
        5 => Some(JumpForm::FarCall),
        _ => None,
    }
}

/// The instruction of a form at an address.
#[tactic(auto, unfolding(crate::specs::Jumps::jump_instr))]
fn jump_instr(bits: Bits, at: u64, target: u64, form: JumpForm) -> Instr
    ensures { result ≡ spec.jump_instr bits at target form }
{
    match form {
        JumpForm::ShortJump => branch_to(short_code(Action::Jump, bits), None, target),
        JumpForm::NearJump => branch_to(near_code(Action::Jump, bits), None, target),
        JumpForm::FarJump => through_slot(
            far_code(Action::Jump),
            wrap(Bits::B64, u128::from(at) + 6),
        ),
        JumpForm::NearCall => branch_to(near_code(Action::Call, bits), None, target),
        JumpForm::FarCall => through_slot(
            far_code(Action::Call),
            wrap(Bits::B64, u128::from(at) + 8),
        ),
    }
}

/// Appends what follows the instruction of a form.
#[tactic(auto, unfolding(crate::specs::Jumps::behind_jump))]
fn append_behind(bytes: &mut JumpBytes, target: u64, form: JumpForm)
    requires { array_vec_len bytes.old ≤ 15 }
    ensures { bytes.new.items ≡ bytes.old.items ++ spec.behind_jump target form }
{
    match form {
        JumpForm::FarJump => push_low_bytes(bytes, 8, target),
        JumpForm::FarCall => {
            append_few(bytes, &[0xeb, 0x08]);
            push_low_bytes(bytes, 8, target);
        }
        _ => {}
    }
}

/// The bytes of a form at an address.
fn jump_bytes(bits: Bits, at: u64, target: u64, form: JumpForm) -> Result<JumpBytes, Refusal>
    ensures { MatchResult result (λ bytes. spec.jump_bytes bits at target form ≡ Ok bytes.items) (λ why. spec.jump_bytes bits at target form ≡ Err why) }
{
    let instr = jump_instr(bits, at, target, form);
    match encode(bits, at, &instr) {
        Ok(first) => {
            let mut bytes = JumpBytes::new();
            append_few(&mut bytes, &first);
            append_behind(&mut bytes, target, form);
            Ok(bytes)
        }
        Err(why) => Err(no_spelling(&instr, why)),
    }
}

/// The bytes of a form, by the numbers of a mode and a form.
fn jump_of(bits: u32, at: u64, target: u64, form: u32) -> Result<JumpBytes, Refusal>
    ensures { MatchResult result (λ bytes. spec.jump_answer bits at target form ≡ Ok bytes.items) (λ why. spec.jump_answer bits at target form ≡ Err why) }
{
    let Some(bits) = bits_numbered(bits) else {
        return Err(Refusal::Mode);
    };
    let Some(form) = jump_numbered(form) else {
        return Err(Refusal::Jump);
    };
    jump_bytes(bits, at, target, form)
}

/// Writes a jump or a call of the given form, and returns its length in bytes.
#[tactic(auto, unfolding(crate::specs::Answers::bytes_within))]
pub fn jump(bits: u32, at: u64, target: u64, form: u32, out: &mut [u8]) -> i32
    ensures said { result ≡ said.count_or_refusal (said.bytes_within (length out.old) (spec.jump_answer bits at target form)) }
    ensures left { out.new ≡ said.with_bytes out.old (said.bytes_within (length out.old) (spec.jump_answer bits at target form)) }
{
    match jump_of(bits, at, target, form) {
        Ok(bytes) => put_bytes(out, &bytes),
        Err(why) => refusal_status(why),
    }
}
