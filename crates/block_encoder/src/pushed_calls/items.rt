//! The instructions that push a return address and jump, as items to be moved.

ghost use Rattle.std.specs.Prelude.{◌≡◌, ◌≤◌, length, IfSome};
ghost use Rattle.move_goals.specs.Items.{IsPlaced, ArePlaced};
ghost use Rattle.block_encoder.specs.PushedCalls.Items as spec;

use crate::pushed_calls::jumps::jump_of;
use crate::pushed_calls::laws::return_addresses_are_pushed;
use crate::pushed_calls::laws_below::laws_below;
use crate::pushed_calls::pushes::{high_half_of, push_of};
use encoder::encode;
use move_goals::Placed;
use move_goals::moved_targets::plain_length;
use operand_info::near_target;
use x86_values::{Bits, Instr, wrap};

/// The instructions that do what a near CALL does at its old address, in order. They can be moved to any address from which the jump reaches its target.
///
/// They keep the flags and all registers that CALL keeps. Between the first and the last of them the stack has the return address, or half of it, and
/// control is not yet at the target.
#[derive(Clone, Copy)]
pub enum PushedCall {
    /// PUSH and JMP, in 16 and 32-bit mode.
    Two([Placed; 2]),
    /// PUSH of the low half, MOV of the high half and JMP, in 64-bit mode.
    Three([Placed; 3]),
}

impl PushedCall {
    /// Returns the items, in order.
    pub fn items(&self) -> &[Placed]
        ensures { result.now ≡ spec.items_in self.now }
    {
        match self {
            PushedCall::Two(items) => items,
            PushedCall::Three(items) => items,
        }
    }
}

/// An instruction at an address, as long as its plain spelling.
fn item_of(bits: Bits, ip: u64, instr: Instr) -> Placed
    ensures { result ≡ spec.item_of bits ip instr }
{
    let len = plain_length(bits, &instr);
    Placed { ip, len, instr }
}

/// The item of an instruction that has an encoding at an address.
#[tactic(auto, unfolding(crate::specs::PushedCalls::Items::encoded_item))]
fn encoded_item(bits: Bits, ip: u64, instr: Instr) -> Option<Placed>
    ensures value { result ≡ spec.encoded_item bits ip instr }
    ensures placed { IfSome result (λ item. IsPlaced bits item) }
{
    laws_below();
    match encode(bits, ip, &instr) {
        Ok(_bytes) => Some(item_of(bits, ip, instr)),
        Err(_) => None,
    }
}

/// The item of a jump: a near one stands at its target, any other one at the address of the CALL.
fn jump_item(bits: Bits, ip: u64, jump: Option<Instr>) -> Option<Placed>
    ensures value { result ≡ spec.jump_item bits ip jump }
    ensures placed { IfSome result (λ item. IsPlaced bits item) }
{
    match jump {
        None => None,
        Some(jump) => encoded_item(bits, near_target(&jump).unwrap_or(ip), jump),
    }
}

/// What pushes a return address, with a jump behind it.
fn with_jump(bits: Bits, ip: u64, back: u64, jump: Placed) -> PushedCall
    ensures { spec.items_in result ≡ spec.with_jump bits ip back jump }
{
    let push = item_of(bits, ip, push_of(bits, back));
    match bits {
        Bits::B64 => {
            let high = item_of(bits, ip, high_half_of(back));
            PushedCall::Three([push, high, jump])
        }
        _ => PushedCall::Two([push, jump]),
    }
}

/// Returns the instructions that do from any address what a near CALL does at its old one: they push the address after the CALL and jump where it goes
/// (Intel SDM volume 2, CALL). A RIP or EIP operand keeps its target; the displacement of an operand at ESP or RSP is raised by the bytes pushed.
///
/// A return address modulo 2 to the number of bits of the mode is pushed, in 64-bit mode as `push imm32` and `mov dword [rsp+4], imm32`. Neither changes
/// a flag. The jump reads its operand after the push; CALL reads it before. So an operand that overlaps the pushed bytes is read differently; one that shows
/// this by its own displacement from the stack pointer is refused. In 16-bit mode an operand at ESP is raised as if SP does not wrap.
///
/// Returns None, which means that only the CALL itself does it, for
/// - anything but a near CALL of the mode's own operand size: a far CALL, or one with a prefix 66 outside 64-bit mode;
/// - a CALL through SP, ESP or RSP itself, or through memory below it: the push changes both;
/// - a CALL whose jump has no encoding, as where a displacement does not hold what it is raised to.
///
/// With shadow stacks (CET) a RET to an address that no CALL pushed faults.
#[tactic(auto, unfolding(crate::specs::PushedCalls::Items::pushed_items))]
pub fn pushed_call(bits: Bits, item: &Placed) -> Option<PushedCall>
    ensures value { spec.items_if result ≡ spec.pushed_items bits item.now }
    ensures placed { IfSome result (λ call. ArePlaced bits (spec.items_in call)) }
    ensures few { IfSome result (λ call. length (spec.items_in call) ≤ 3) }
{
    return_addresses_are_pushed();
    let back = wrap(bits, u128::from(item.ip) + u128::from(item.len));
    match jump_item(bits, item.ip, jump_of(bits, &item.instr)) {
        None => None,
        Some(jump) => Some(with_jump(bits, item.ip, back, jump)),
    }
}
