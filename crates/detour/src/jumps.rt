//! The jumps of a detour.

ghost use Rattle.std.specs.Prelude.{◌≡◌, ◌≤◌, length, IfSome};
ghost use Rattle.detour.specs.Jumps as spec;
ghost use Rattle.detour.specs.Jumps.{IsNearAnswer};
ghost use Rattle.detour.specs.Trampoline as trampoline;

use arrayvec::ArrayVec;
use encoder::encode;
use move_goals::Placed;
use move_goals::branch_forms::{Action, branch_to, near_code};
use move_goals::moved_targets::plain_length;
use plain_spelling::numbers::push_low_bytes;
use x86_values::{Bits, Instr};

/// How many bytes the near jump of 64-bit mode has.
pub(crate) const NEAR_LEN: usize = 5;

/// How many bytes a jump has that is followed by its address.
pub(crate) const ABSOLUTE_LEN: usize = 14;

/// A JMP with an offset of the mode's own operand size.
#[tactic(auto, unfolding(crate::specs::Jumps::near_jump_to))]
fn jump_to(bits: Bits, target: u64) -> Instr
    ensures { result ≡ spec.near_jump_to bits target }
{
    branch_to(near_code(Action::Jump, bits), None, target)
}

/// Returns a jump to an address, as an instruction that lies there.
pub(crate) fn jump_back(bits: Bits, back: u64) -> Placed
    ensures { result ≡ trampoline.jump_back bits back }
{
    let instr = jump_to(bits, back);
    let len = plain_length(bits, &instr);
    Placed {
        ip: back,
        len,
        instr,
    }
}

/// The bytes of the near jump from an address to another, if it reaches that.
pub(crate) fn near_jump(bits: Bits, at: u64, target: u64) -> Option<ArrayVec<u8, 15>>
    ensures answer { IsNearAnswer bits at target result }
    ensures short { IfSome result (λ bytes. length bytes.items ≤ 15) }
{
    match encode(bits, at, &jump_to(bits, target)) {
        Ok(bytes) => Some(bytes),
        Err(_) => None,
    }
}

/// Returns the jump through the eight bytes after it, which hold an address.
#[tactic(auto, unfolding(crate::specs::Jumps::absolute_jump))]
pub(crate) fn absolute_jump(target: u64) -> ArrayVec<u8, 15>
    ensures value { result.items ≡ spec.absolute_jump target }
    ensures short { length result.items ≡ 14 }
{
    let mut bytes = ArrayVec::new();
    bytes.push(0xFF);
    bytes.push(0x25);
    bytes.push(0);
    bytes.push(0);
    bytes.push(0);
    bytes.push(0);
    push_low_bytes(&mut bytes, 8, target);
    bytes
}
