//! Moved instructions that hand an address in the trampoline to what they call.

ghost use Rattle.std.specs.Prelude.{◌≡◌, ◌<◌, ◌≤◌, length, IfSome};
ghost use Rattle.detour.specs.Calls as spec;
ghost use Rattle.detour.specs.Reading.{AreCoded, IsTakenFit};
ghost use Rattle.opcode_rows.specs.declared.generated_spots.TheConstants.{ROWS};

use crate::laws_below::laws_below;
use crate::start::MoveRule;
use crate::taken::{Taken, moved_count, offset_at};
use crate::trampoline::pushed_last;
use move_goals::Placed;
use opcode_rows::name;
use x86_values::Bits;

/// Returns whether an instruction is a CALL, near or far: it pushes the address behind it. (SYSCALL leaves it in RCX, for the system alone.)
#[tactic(auto, unfolding(crate::specs::Calls::calls))]
fn calls(item: &Placed) -> bool
    requires { item.now.instr.code.0 < ROWS }
    ensures { result ≡ spec.calls item.now }
{
    let name = name(item.instr.code);
    name == "call" || name == "callf"
}

/// Returns the number of the first call among the first `count` instructions.
#[tactic(auto, unfolding(crate::specs::Calls::first_call))]
fn first_call(items: &[Placed], count: usize) -> Option<usize>
    requires coded { AreCoded items.now }
    requires inside { count ≤ length items.now }
    ensures value { result ≡ spec.first_call items.now count }
    ensures within { IfSome result (λ k. k < count) }
{
    laws_below();
    'items: for k in 0..count {
        if calls(&items[k]) {
            return Some(k);
        }
    }
    None
}

/// Returns how many of the taken instructions are moved as they are: all that are moved, or all but the last one, if that is a call which pushes its own
/// return address.
fn call_count(rule: MoveRule, bits: Bits, taken: &Taken) -> usize
    requires { IsTakenFit bits taken.now }
    ensures value { result ≡ spec.call_count rule bits taken.now.items.items }
    ensures within { result ≤ length taken.now.items.items }
{
    match pushed_last(rule, bits, taken) {
        None => moved_count(&taken.items),
        Some(_) => taken.items.len().saturating_sub(1),
    }
}

/// Returns the offset of the first call that is moved as it is, and so hands an address in the trampoline to what it calls.
pub(crate) fn call_in(rule: MoveRule, bits: Bits, taken: &Taken) -> Option<u32>
    requires { IsTakenFit bits taken.now }
    ensures { result ≡ spec.call_in rule bits taken.now.items.items }
{
    let count = call_count(rule, bits, taken);
    match first_call(&taken.items, count) {
        None => None,
        Some(k) => Some(offset_at(&taken.items, k) as u32),
    }
}
