//! How long a trampoline may become, before its place is known.

ghost use Rattle.std.specs.Prelude.{◌≡◌, ◌<◌, ◌≤◌, ◌^◌, if◌then◌else◌, false, None, length, unwrap_or, IfOk};
ghost use Rattle.detour.specs.declared.error.DetourError.TheVariants.{Memory};
ghost use Rattle.detour.specs.Jumps.{IsOutOfReach};
ghost use Rattle.detour.specs.LengthLaws.{LengthLawsBelow};
ghost use Rattle.detour.specs.Lengths as spec;
ghost use Rattle.detour.specs.Lengths.{IsTakenLength, IsFarLength, IsDetourLength, IsLengthFor, IsEnough, IsEnoughPlain, AreWithin};
ghost use Rattle.detour.specs.Reading.{IsTakenFit};
ghost use Rattle.detour.specs.Trampoline as trampoline;

use crate::error::DetourError;
use crate::jumps::{ABSOLUTE_LEN, NEAR_LEN, near_jump};
use crate::laws_below::laws_below;
use crate::making::take_whole;
use crate::rules::HookRules;
use crate::start::MoveRule;
use crate::taken::Taken;
use crate::trampoline::{block_items, pushed_last};
use branch_sizes::Choice;
use branch_sizes::move_layout::is_far_form;
use move_goals::Placed;
use move_goals::branch_forms::choices_of;
use std::alloc::{AllocError, Global};
use x86_values::{Bits, wrap};

/// No trampoline is longer, in bytes: of any function, at any place, in any mode and by any rules. It is 25 units of 16 bytes.
pub const MAX_TRAMPOLINE: usize = 400;

/// What the laws of the crates below say of lengths, as one fact. It does nothing.
#[inline]
fn length_laws()
    ensures { LengthLawsBelow }
{
    laws_below();
    encoder::laws::spelled_meets_conditions();
    move_goals::branch_forms::laws::forms_are_fit();
    block_encoder::pushed_calls::laws::return_addresses_are_pushed();
}

/// Returns the most bytes of an image that takes one of some forms.
fn greatest_len(choices: &[Choice]) -> u8
    ensures { result ≡ spec.greatest_length choices.now }
{
    let mut greatest = 0;
    for choice in choices {
        greatest = greatest.max(choice.len);
    }
    greatest
}

/// Returns whether one of the forms goes through a slot.
fn may_be_far(choices: &[Choice]) -> bool
    ensures { result ≡ spec.may_be_far choices.now }
{
    choices.iter().any(|choice| is_far_form(choice.form))
}

/// Returns how many slots an instruction of some forms may need, 0 or 1.
fn slots_for(choices: &[Choice]) -> usize
    ensures { result ≡ (if spec.may_be_far choices.now then 1 else 0) }
{
    if may_be_far(choices) { 1 } else { 0 }
}

/// Returns the most bytes of a gap and so many slots.
fn slots_len(count: usize) -> usize
    requires { count ≤ 65536 }
    ensures { result ≡ spec.slots_length count }
{
    if count == 0 { 0 } else { 7 + 8 * count }
}

/// Returns the most bytes of the block of some instructions.
#[tactic(auto, unfolding(crate::specs::Lengths::block_length))]
fn block_len(bits: Bits, items: &[Placed]) -> usize
    requires { length items.now ≤ 65536 }
    ensures value { result ≡ spec.block_length bits items.now }
    ensures small { result < 2 ^ 32 }
{
    let mut images = 0;
    let mut slots = 0;
    'items: for k in 0..items.len() {
        let choices = choices_of(bits, &items[k].instr);
        images += usize::from(greatest_len(&choices));
        slots += slots_for(&choices);
    }
    images + slots_len(slots)
}

/// Returns the most bytes of the block of what is taken.
fn moved_len(
    alloc: Global,
    bits: Bits,
    ip: u64,
    taken: &Taken,
    rule: MoveRule,
) -> Result<usize, AllocError>
    requires { IsTakenFit bits taken.now }
    ensures value { IfOk result (λ n. n ≡ spec.block_length bits (trampoline.block_items rule bits ip taken.now.items.items)) }
    ensures small { IfOk result (λ n. n < 2 ^ 32) }
{
    laws_below();
    let called = pushed_last(rule, bits, taken);
    let items = block_items(alloc, rule, bits, ip, taken, &called)?;
    Ok(block_len(bits, &items))
}

/// Returns that there is no length, if nothing is taken for any cause except lack of memory.
fn no_len_for(why: DetourError) -> Result<Option<usize>, AllocError>
    ensures none { IfOk result (λ len. (len ≡ None) × (why ≡ Memory → ⊥)) }
    ensures small { IfOk result (λ len. unwrap_or len 0 < 2 ^ 32) }
{
    match why {
        DetourError::Memory => Err(AllocError),
        _ => Ok(None),
    }
}

/// Returns the most bytes of the block of what a jump of `need` bytes takes, if it takes anything.
fn taken_len(
    alloc: Global,
    bits: Bits,
    ip: u64,
    code: &[u8],
    need: usize,
    rule: MoveRule,
) -> Result<Option<usize>, AllocError>
    requires { need ≤ 15 }
    ensures value { IfOk result (λ len. IsTakenLength bits ip code.now need rule len) }
    ensures small { IfOk result (λ len. unwrap_or len 0 < 2 ^ 32) }
{
    match take_whole(alloc, bits, ip, code, need) {
        Ok(taken) => Ok(Some(moved_len(alloc, bits, ip, &taken, rule)?)),
        Err(why) => no_len_for(why),
    }
}

/// Returns a length with that of a relay, if there is one.
fn with_relay(len: Option<usize>) -> usize
    requires { unwrap_or len 0 < 2 ^ 32 }
    ensures { result ≡ spec.with_relay len }
{
    match len {
        None => 0,
        Some(len) => len + ABSOLUTE_LEN,
    }
}

/// Returns the greater length of the two jumps that cross any distance.
fn far_len(
    alloc: Global,
    bits: Bits,
    ip: u64,
    code: &[u8],
    to: u64,
    rule: MoveRule,
) -> Result<usize, AllocError>
    requires { IsOutOfReach bits ip to }
    ensures { IfOk result (λ n. IsFarLength bits ip code.now to rule n) }
{
    let near = taken_len(alloc, bits, ip, code, NEAR_LEN, rule)?;
    let far = taken_len(alloc, bits, ip, code, ABSOLUTE_LEN, rule)?;
    Ok(with_relay(near).max(far.unwrap_or(0)))
}

/// Returns the length that is enough for the trampoline of a detour under a rule, at any place.
fn len_under(
    alloc: Global,
    bits: Bits,
    ip: u64,
    code: &[u8],
    to: u64,
    rule: MoveRule,
) -> Result<usize, AllocError>
    ensures { IfOk result (λ n. IsDetourLength bits ip code.now to rule n) }
{
    match near_jump(bits, ip, to) {
        None => far_len(alloc, bits, ip, code, to, rule),
        Some(jump) => {
            let len = taken_len(alloc, bits, ip, code, jump.len(), rule)?;
            Ok(len.unwrap_or(0))
        }
    }
}

/// Returns how many bytes are enough for the trampoline of a detour by rules, wherever it will be placed: its caller can reserve them first, and then knows
/// the place that [`detour_with`](crate::detour_with) asks for.
///
/// `code`, `ip` and `to` are those of `detour_with`, and so are the rules, of which only `returns` counts. The length is that of the block of what is taken,
/// with each image in its longest form, 7 bytes of gap and 8 of a slot for each image that may need one. If the near jump reaches `to`, what it takes counts.
/// Otherwise (in 64-bit mode) it is the larger of two lengths: for what a jump to a relay takes, with the 14 bytes of the relay; and for what the jump of 14
/// bytes takes. It is at most [`MAX_TRAMPOLINE`], and 0 if nothing can be taken: then there is no detour at any place.
///
/// If `rules.returns` is false, it is enough for the trampoline of [`detour`](crate::detour) too. The only error is lack of memory.
///
/// ```
/// let (ip, to) = (0x40_1000, 0x50_0000);
/// let rules = HookRules {
///     start: StartTarget::Moved,
///     whole: true,
///     returns: true,
///     calls: false,
/// };
/// let room = detour_len(rt.alloc(), Bits::B64, ip, &FUNCTION, to, rules)?;
/// println!(rt; "{room}")?; // 27
/// ```
pub fn detour_len(
    alloc: Global,
    bits: Bits,
    ip: u64,
    code: &[u8],
    to: u64,
    rules: HookRules,
) -> Result<usize, AllocError>
    ensures exact { IfOk result (λ n. IsLengthFor bits ip code.now to rules n) }
    ensures enough { IfOk result (λ n. IsEnough bits ip code.now to rules n) }
    ensures plain { rules.returns ≡ false → IfOk result (λ n. IsEnoughPlain bits ip code.now to n) }
    ensures short { IfOk result (λ n. n ≤ MAX_TRAMPOLINE) }
{
    length_laws();
    let rule = MoveRule {
        start: rules.start,
        rip_stays: true,
        returns: rules.returns,
    };
    let to = wrap(bits, u128::from(to));
    len_under(alloc, bits, ip, code, to, rule)
}

/// No trampoline of a detour has more than [`MAX_TRAMPOLINE`] bytes.
pub fn trampolines_are_short()
    ensures { AreWithin MAX_TRAMPOLINE }
{
    length_laws();
}
