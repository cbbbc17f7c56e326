//! Making a detour of a function of which some instructions have no row.

ghost use Rattle.std.specs.Prelude.{◌≡◌, ◌≤◌, ◌<◌, ◌^◌, true, None, Ok, length, IfOk, IfErr};
ghost use Rattle.x86_values.specs.Wrapping.{modulo_width, width};
ghost use Rattle.detour.specs.declared.error.DetourError.TheVariants.{Memory};
ghost use Rattle.detour.specs.Detours as parts_spec;
ghost use Rattle.detour.specs.Reading.{AreCoded};
ghost use Rattle.detour.specs.Starts as starts_spec;
ghost use Rattle.detour.specs.Taken as taken_spec;
ghost use Rattle.detour.specs.Taken.{taken_bytes};
ghost use Rattle.detour.specs.Made.{IsFarJump, IsPutTogether};
ghost use Rattle.detour.specs.AnyReading.{IsAnyTakenFit};
ghost use Rattle.detour.specs.AnyDetours.{IsAnyRelay, IsAnyRelayBehind, IsAnyJumpOf, IsAnyAnswerTo, IsAnyDetourAnswer};
ghost use Rattle.detour.specs.AnyMade.{IsAnyWholeTaken, IsAnyDetourLaid};

use crate::any_laws_below::any_laws_below;
use crate::any_taken::{AnyTaken, take_any};
use crate::any_trampoline::lay_any_trampoline;
use crate::calls::call_in;
use crate::entries::first_entry;
use crate::error::DetourError;
use crate::jumps::{NEAR_LEN, near_jump};
use crate::laws_below::laws_below;
use crate::making::{
    Jump, far_jump, move_refusal, no_relay_behind, no_relay_for, patch_of, relay_behind,
    trampoline_of,
};
use crate::parts::{Detour, JumpForm, Parts};
use crate::start::{MoveRule, StartTarget};
use crate::starts::{MovedStarts, places_to, starts_to};
use crate::taken::{Taken, first_code_behind, moved_count, offset_at};
use crate::trampoline::goes_back;
use code_items::MovedAnyBlock;
use flow_graph::{FlowError, Follow};
use move_goals::Placed;
use move_goals::laws::first_numbers_pass;
use std::alloc::{AllocError, Global};
use x86_values::{Bits, wrap};

/// Returns the instructions that a jump of `need` bytes replaces, if only padding follows one that does not continue.
fn take_any_whole(
    alloc: Global,
    bits: Bits,
    ip: u64,
    code: &[u8],
    need: usize,
) -> Result<AnyTaken, DetourError>
    requires { need ≤ 15 }
    ensures { IsAnyWholeTaken bits ip code.now need result }
{
    let taken = take_any(alloc, bits, ip, code, need)?;
    match first_code_behind(&taken.outline.items) {
        Some(k) => Err(DetourError::Ends {
            at: offset_at(&taken.outline.items, k) as u64,
        }),
        None => Ok(taken),
    }
}

/// Returns the address of a relay after the trampoline of the replaced instructions, if there is one in the address space.
fn any_relay_of(
    alloc: Global,
    bits: Bits,
    ip: u64,
    taken: AnyTaken,
    place: u64,
    rule: MoveRule,
) -> Result<Option<u64>, DetourError>
    requires { IsAnyTakenFit bits taken }
    ensures relay { IfOk result (λ relay. IsAnyRelayBehind bits ip place rule (Ok taken.items.items) relay) }
    ensures refused { IfErr result (λ why. why ≡ Memory) }
{
    match lay_any_trampoline(alloc, bits, ip, taken, place, rule) {
        Ok(laid) => Ok(relay_behind(place, laid.moved.bytes().len())),
        Err(why) => no_relay_behind(why),
    }
}

/// Returns the address of a relay after the trampoline of a near jump, if there is one in the address space.
fn any_relay_address(
    alloc: Global,
    bits: Bits,
    ip: u64,
    code: &[u8],
    place: u64,
    rule: MoveRule,
) -> Result<Option<u64>, DetourError>
    ensures relay { IfOk result (λ relay. IsAnyRelay bits ip code.now place rule relay) }
    ensures refused { IfErr result (λ why. why ≡ Memory) }
{
    match take_any_whole(alloc, bits, ip, code, NEAR_LEN) {
        Ok(taken) => any_relay_of(alloc, bits, ip, taken, place, rule),
        Err(why) => no_relay_for(why),
    }
}

/// The first jump from the function to the replacement that reaches it.
fn any_jump_for(
    alloc: Global,
    bits: Bits,
    ip: u64,
    code: &[u8],
    to: u64,
    place: u64,
    rule: MoveRule,
) -> Result<Jump, DetourError>
    requires { to < 2 ^ width bits }
    ensures jump { IfOk result (λ jump. IsAnyJumpOf bits ip code.now to place rule jump.form jump.bytes.items jump.relay) }
    ensures short { IfOk result (λ jump. length jump.bytes.items ≤ 15) }
    ensures refused { IfErr result (λ why. why ≡ Memory) }
{
    laws_below();
    match near_jump(bits, ip, to) {
        Some(bytes) => Ok(Jump {
            form: JumpForm::Near,
            bytes,
            relay: None,
        }),
        None => match any_relay_address(alloc, bits, ip, code, place, rule) {
            Ok(relay) => Ok(far_jump(bits, ip, to, relay)),
            Err(_) => Err(DetourError::Memory),
        },
    }
}

/// Returns where the parts of a trampoline lie.
#[tactic(auto, unfolding(crate::specs::Detours::parts_of))]
fn any_parts_of(place: u64, back: bool, moved: &MovedAnyBlock, relay: Option<u64>) -> Parts
    requires { back ≡ true → 0 < length moved.now.starts }
    ensures { result ≡ parts_spec.parts_of back place moved.now relay }
{
    let starts = moved.starts();
    let slots = moved.slots().len();
    Parts {
        jump_back: if back {
            Some(starts[starts.len() - 1].saturating_sub(place))
        } else {
            None
        },
        slots: if slots > 0 {
            Some(moved.bytes().len().saturating_sub(slots.saturating_mul(8)))
        } else {
            None
        },
        relay: if relay.is_some() {
            Some(moved.bytes().len())
        } else {
            None
        },
    }
}

/// Where the moved instructions begin, in the function and in the trampoline at a place.
fn any_moved_starts(
    alloc: Global,
    place: u64,
    items: &[Placed],
    moved: &MovedAnyBlock,
) -> Result<MovedStarts, AllocError>
    requires coded { AreCoded items.now }
    requires few { length items.now ≤ 65536 }
    requires within { taken_spec.moved_count items.now ≤ length moved.now.starts }
    ensures starts { IfOk result (λ m. m.starts.items ≡ starts_spec.starts_of items.now) }
    ensures places { IfOk result (λ m. m.places.items ≡ starts_spec.places_of items.now place moved.now) }
{
    let count = moved_count(items);
    let starts = starts_to(alloc, items, count)?;
    let places = places_to(alloc, moved.starts(), place, count)?;
    Ok(MovedStarts { starts, places })
}

/// The patch, the trampoline and its parts, of what is taken and moved.
fn put_any_together(
    alloc: Global,
    to: u64,
    place: u64,
    back: bool,
    call: Option<u32>,
    jump: &Jump,
    outline: &Taken,
    moved: &MovedAnyBlock,
) -> Result<Detour, DetourError>
    requires len { outline.now.len ≡ taken_bytes outline.now.items.items }
    requires fits { length jump.now.bytes.items ≤ outline.now.len }
    requires coded { AreCoded outline.now.items.items }
    requires back { back ≡ true → 0 < length moved.now.starts }
    requires few { length outline.now.items.items ≤ 65536 }
    requires within { taken_spec.moved_count outline.now.items.items ≤ length moved.now.starts }
    ensures parts { IfOk result (λ d. IsPutTogether to place back call jump.now outline.now moved.now d) }
    ensures refused { IfErr result (λ why. why ≡ Memory) }
{
    let parts = any_parts_of(place, back, moved, jump.relay);
    let Ok(starts) = any_moved_starts(alloc, place, &outline.items, moved) else {
        return Err(DetourError::Memory);
    };
    let Ok(patch) = patch_of(alloc, &jump.bytes, outline.len) else {
        return Err(DetourError::Memory);
    };
    match trampoline_of(alloc, moved.bytes(), jump.relay, to) {
        Ok(trampoline) => Ok(Detour {
            form: jump.form,
            taken: outline.len,
            parts,
            patch,
            trampoline,
            moved: starts,
            call,
        }),
        Err(_) => Err(DetourError::Memory),
    }
}

/// The detour by a jump over what it takes, which nothing else enters.
fn lay_any_detour(
    alloc: Global,
    bits: Bits,
    ip: u64,
    to: u64,
    place: u64,
    rule: MoveRule,
    jump: &Jump,
    taken: AnyTaken,
) -> Result<Detour, DetourError>
    requires fit { IsAnyTakenFit bits taken }
    requires fits { length jump.now.bytes.items ≤ taken.outline.len }
    ensures { IsAnyDetourLaid bits ip to place rule jump.now taken result }
{
    first_numbers_pass();
    let back = goes_back(rule, bits, &taken.outline);
    let call = call_in(rule, bits, &taken.outline);
    match lay_any_trampoline(alloc, bits, ip, taken, place, rule) {
        Ok(laid) => put_any_together(
            alloc,
            to,
            place,
            back,
            call,
            jump,
            &laid.outline,
            &laid.moved,
        ),
        Err(why) => Err(move_refusal(why)),
    }
}

/// The detour by the first jump that reaches.
fn any_detour_by(
    alloc: Global,
    bits: Bits,
    ip: u64,
    code: &[u8],
    to: u64,
    place: u64,
    rule: MoveRule,
    jump: &Jump,
) -> Result<Detour, DetourError>
    requires size { length code.now ≤ 1048576 }
    requires jump { IsAnyJumpOf bits ip code.now to place rule jump.now.form jump.now.bytes.items jump.now.relay }
    requires short { length jump.now.bytes.items ≤ 15 }
    ensures { IsAnyAnswerTo bits ip code.now to place rule result }
{
    any_laws_below();
    let taken = match take_any_whole(alloc, bits, ip, code, jump.bytes.len()) {
        Ok(taken) => taken,
        Err(why) => return Err(why),
    };
    match first_entry(alloc, Follow::Unlisted, bits, ip, code, &taken.outline) {
        Ok(None) => lay_any_detour(alloc, bits, ip, to, place, rule, jump, taken),
        Ok(Some((from, target))) => Err(DetourError::Entered {
            from: u64::from(from),
            target: target as u64,
        }),
        Err(FlowError::Memory) => Err(DetourError::Memory),
    }
}

/// Makes a detour under a rule for the targets of moved instructions.
fn any_detour_under(
    alloc: Global,
    bits: Bits,
    ip: u64,
    code: &[u8],
    to: u64,
    place: u64,
    rule: MoveRule,
) -> Result<Detour, DetourError>
    requires { length code.now ≤ 1048576 }
    ensures { IsAnyAnswerTo bits ip code.now (modulo_width bits to) place rule result }
{
    let to = wrap(bits, u128::from(to));
    match any_jump_for(alloc, bits, ip, code, to, place, rule) {
        Ok(jump) => any_detour_by(alloc, bits, ip, code, to, place, rule, &jump),
        Err(_) => Err(DetourError::Memory),
    }
}

/// Makes a detour of a function like [`detour`](crate::detour), also where the opcode table leaves out some of its instructions (`unlisted::measure`).
///
/// An instruction without a row may be taken. It is moved whole: its bytes, with the number that is relative to the address after it set so that it
/// refers to the same address, or to a moved instruction that began there, as any other target. Control is followed through such instructions, from
/// XBEGIN also to where an aborted transaction continues. So a function whose loop has one is hooked if nothing enters the overwritten part, and refused
/// (`Entered`) if something does.
///
/// Everything else is as for `detour`, with the same errors in the same order. An XBEGIN with a 16-bit distance outside 16-bit mode counts as no
/// instruction where it would be taken.
///
/// The format does not say what an instruction does: an undefined opcode raises its exception at the new place.
pub fn detour_unlisted(
    alloc: Global,
    bits: Bits,
    ip: u64,
    code: &[u8],
    to: u64,
    place: u64,
    start: StartTarget,
) -> Result<Detour, DetourError>
    requires { length code.now ≤ 1048576 }
    ensures { IsAnyDetourAnswer bits ip code.now to place start result }
{
    let rule = MoveRule {
        start,
        rip_stays: false,
        returns: false,
    };
    any_detour_under(alloc, bits, ip, code, to, place, rule)
}
