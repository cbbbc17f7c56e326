//! Making a detour.

ghost use Rattle.std.specs.Prelude.{◌≡◌, ◌≤◌, ◌<◌, ◌++◌, ◌^◌, true, None, Ok, length, IfOk, IfErr};
ghost use Rattle.x86_values.specs.Wrapping.{modulo_width, width};
ghost use Rattle.detour.specs.declared.error.DetourError.TheVariants.{Memory};
ghost use Rattle.detour.specs.Detours as spec;
ghost use Rattle.detour.specs.Detours.{IsRelay, IsRelayBehind, IsJumpOf, IsAnswerTo, IsDetourAnswer, relay_bytes};
ghost use Rattle.block_encoder.specs.declared.error.PlanError.TheVariants as plan_error;
ghost use Rattle.detour.specs.Calls as calls_spec;
ghost use Rattle.detour.specs.Trampoline as trampoline_spec;
ghost use Rattle.detour.specs.Trampoline.{IsTrampoline};
ghost use Rattle.detour.specs.Made.{IsWholeTaken, IsFarJump, IsPutTogether, IsDetourLaid, detour_error_of};
ghost use Rattle.detour.specs.Reading.{AreCoded, IsTakenFit};
ghost use Rattle.detour.specs.Taken.{taken_bytes};
ghost use Rattle.detour.specs.Taken as taken_spec;

use crate::calls::call_in;
use crate::entries::first_entry;
use crate::error::DetourError;
use crate::jumps::{ABSOLUTE_LEN, NEAR_LEN, absolute_jump, near_jump};
use crate::laws_below::laws_below;
use crate::parts::{Detour, JumpForm, Parts};
use crate::start::{MoveRule, StartTarget};
use crate::starts::moved_starts;
use crate::taken::{Taken, first_code_behind, offset_at, take};
use crate::trampoline::{goes_back, lay_trampoline};
use arrayvec::ArrayVec;
use block_encoder::{MovedBlocks, PlanError};
use flow_graph::{FlowError, Follow};
use move_goals::Placed;
use move_goals::laws::first_numbers_pass;
use std::alloc::{AllocError, Global};
use x86_values::{Bits, wrap};

/// The refusal of a moving.
pub(crate) fn move_refusal(why: PlanError) -> DetourError
    ensures { result ≡ detour_error_of why }
{
    match why {
        PlanError::Memory => DetourError::Memory,
        PlanError::Wraps { end } => DetourError::Wraps { end },
        PlanError::TooFar { at, target } => DetourError::TooFar { at, target },
    }
}

/// Returns the instructions that a jump of `need` bytes replaces, if only padding follows one that does not continue.
pub(crate) fn take_whole(
    alloc: Global,
    bits: Bits,
    ip: u64,
    code: &[u8],
    need: usize,
) -> Result<Taken, DetourError>
    requires { need ≤ 15 }
    ensures { IsWholeTaken bits ip code.now need result }
{
    let taken = take(alloc, bits, ip, code, need)?;
    match first_code_behind(&taken.items) {
        Some(k) => Err(DetourError::Ends {
            at: offset_at(&taken.items, k) as u64,
        }),
        None => Ok(taken),
    }
}

/// Returns the address of a relay after `len` bytes at a place, if it ends inside the address space.
#[tactic(auto, unfolding(crate::specs::Detours::relay_behind))]
pub(crate) fn relay_behind(place: u64, len: usize) -> Option<u64>
    ensures { result ≡ spec.relay_behind place len }
{
    let end = u128::from(place) + len as u128;
    if end + ABSOLUTE_LEN as u128 <= 1 << 64 {
        Some(end as u64)
    } else {
        None
    }
}

/// Returns that there is no relay, if the instructions are refused for any cause except lack of memory.
pub(crate) fn no_relay_for(why: DetourError) -> Result<Option<u64>, DetourError>
    ensures none { IfOk result (λ relay. (relay ≡ None) × (why ≡ Memory → ⊥)) }
    ensures refused { IfErr result (λ error. error ≡ Memory) }
{
    match why {
        DetourError::Memory => Err(DetourError::Memory),
        _ => Ok(None),
    }
}

/// Returns that there is no relay, if the move is refused for any cause except lack of memory.
pub(crate) fn no_relay_behind(why: PlanError) -> Result<Option<u64>, DetourError>
    ensures none { IfOk result (λ relay. (relay ≡ None) × (why ≡ plan_error.Memory → ⊥)) }
    ensures refused { IfErr result (λ error. error ≡ Memory) }
{
    match why {
        PlanError::Memory => Err(DetourError::Memory),
        _ => Ok(None),
    }
}

/// Returns the address of a relay after the trampoline of the replaced instructions, if there is one in the address space.
fn relay_of(
    alloc: Global,
    bits: Bits,
    ip: u64,
    taken: &Taken,
    place: u64,
    rule: MoveRule,
) -> Result<Option<u64>, DetourError>
    requires { IsTakenFit bits taken.now }
    ensures relay { IfOk result (λ relay. IsRelayBehind bits ip place rule (Ok taken.now.items.items) relay) }
    ensures refused { IfErr result (λ why. why ≡ Memory) }
{
    match lay_trampoline(alloc, bits, ip, taken, place, rule) {
        Ok(moved) => Ok(relay_behind(place, moved.bytes().len())),
        Err(why) => no_relay_behind(why),
    }
}

/// Returns the address of a relay after the trampoline of a near jump, if there is one in the address space.
fn relay_address(
    alloc: Global,
    bits: Bits,
    ip: u64,
    code: &[u8],
    place: u64,
    rule: MoveRule,
) -> Result<Option<u64>, DetourError>
    ensures relay { IfOk result (λ relay. IsRelay bits ip code.now place rule relay) }
    ensures refused { IfErr result (λ why. why ≡ Memory) }
{
    match take_whole(alloc, bits, ip, code, NEAR_LEN) {
        Ok(taken) => relay_of(alloc, bits, ip, &taken, place, rule),
        Err(why) => no_relay_for(why),
    }
}

/// A jump: its form, its bytes, and the address of its relay.
#[derive(Drop)]
pub(crate) struct Jump {
    pub(crate) form: JumpForm,
    pub(crate) bytes: ArrayVec<u8, 15>,
    pub(crate) relay: Option<u64>,
}

/// The jump to a relay that reaches it, else the one that is followed by its address.
pub(crate) fn far_jump(bits: Bits, ip: u64, to: u64, relay: Option<u64>) -> Jump
    ensures jump { IsFarJump bits ip to relay result }
    ensures short { length result.bytes.items ≤ 15 }
{
    if let Some(address) = relay {
        if let Some(bytes) = near_jump(bits, ip, address) {
            return Jump {
                form: JumpForm::Relay,
                bytes,
                relay: Some(address),
            };
        }
    }
    Jump {
        form: JumpForm::Absolute,
        bytes: absolute_jump(to),
        relay: None,
    }
}

/// The first jump from the function to the replacement that reaches it.
fn jump_for(
    alloc: Global,
    bits: Bits,
    ip: u64,
    code: &[u8],
    to: u64,
    place: u64,
    rule: MoveRule,
) -> Result<Jump, DetourError>
    requires { to < 2 ^ width bits }
    ensures jump { IfOk result (λ jump. IsJumpOf bits ip code.now to place rule jump.form jump.bytes.items jump.relay) }
    ensures short { IfOk result (λ jump. length jump.bytes.items ≤ 15) }
    ensures refused { IfErr result (λ why. why ≡ Memory) }
{
    laws_below();
    match near_jump(bits, ip, to) {
        Some(bytes) => Ok(Jump {
            form: JumpForm::Near,
            bytes,
            relay: None,
        }),
        None => match relay_address(alloc, bits, ip, code, place, rule) {
            Ok(relay) => Ok(far_jump(bits, ip, to, relay)),
            Err(_) => Err(DetourError::Memory),
        },
    }
}

/// The patch: the jump, and CC up to the end of what is taken.
#[tactic(auto, unfolding(crate::specs::Detours::patch_of))]
pub(crate) fn patch_of(alloc: Global, jump: &[u8], len: usize) -> Result<Vec<u8>, AllocError>
    requires { length jump.now ≤ len }
    ensures { IfOk result (λ patch. patch.items ≡ spec.patch_of jump.now len) }
{
    let mut patch = Vec::with_capacity(alloc, len)?;
    patch.extend_from_slice(jump)?;
    patch.resize(len, 0xCC)?;
    Ok(patch)
}

/// The trampoline: the moved block, and the relay to the replacement if there is one.
pub(crate) fn trampoline_of(
    alloc: Global,
    block: &[u8],
    relay: Option<u64>,
    to: u64,
) -> Result<Vec<u8>, AllocError>
    ensures { IfOk result (λ bytes. bytes.items ≡ block.now ++ relay_bytes relay to) }
{
    let mut bytes = Vec::new(alloc);
    bytes.extend_from_slice(block)?;
    if let Some(_address) = relay {
        bytes.extend_from_slice(&absolute_jump(to))?;
    }
    Ok(bytes)
}

/// Returns where the parts of a trampoline lie.
#[tactic(auto, unfolding(crate::specs::Detours::parts_of))]
fn parts_of(place: u64, back: bool, moved: &MovedBlocks, relay: Option<u64>) -> Parts
    requires { back ≡ true → 0 < length moved.now.starts }
    ensures { result ≡ spec.parts_of back place moved.now relay }
{
    let starts = moved.starts();
    let slots = moved.slots().len();
    Parts {
        jump_back: if back {
            Some(starts[starts.len() - 1].saturating_sub(place))
        } else {
            None
        },
        slots: if slots > 0 {
            Some(moved.bytes().len().saturating_sub(slots.saturating_mul(8)))
        } else {
            None
        },
        relay: if relay.is_some() {
            Some(moved.bytes().len())
        } else {
            None
        },
    }
}

/// The patch, the trampoline and its parts, of what is taken and moved.
fn put_together(
    alloc: Global,
    to: u64,
    place: u64,
    back: bool,
    call: Option<u32>,
    jump: &Jump,
    taken: &Taken,
    moved: &MovedBlocks,
) -> Result<Detour, DetourError>
    requires len { taken.now.len ≡ taken_bytes taken.now.items.items }
    requires fits { length jump.now.bytes.items ≤ taken.now.len }
    requires coded { AreCoded taken.now.items.items }
    requires back { back ≡ true → 0 < length moved.now.starts }
    requires few { length taken.now.items.items ≤ 65536 }
    requires within { taken_spec.moved_count taken.now.items.items ≤ length moved.now.starts }
    ensures parts { IfOk result (λ d. IsPutTogether to place back call jump.now taken.now moved.now d) }
    ensures refused { IfErr result (λ why. why ≡ Memory) }
{
    let parts = parts_of(place, back, moved, jump.relay);
    let Ok(starts) = moved_starts(alloc, place, &taken.items, moved) else {
        return Err(DetourError::Memory);
    };
    let Ok(patch) = patch_of(alloc, &jump.bytes, taken.len) else {
        return Err(DetourError::Memory);
    };
    match trampoline_of(alloc, moved.bytes(), jump.relay, to) {
        Ok(trampoline) => Ok(Detour {
            form: jump.form,
            taken: taken.len,
            parts,
            patch,
            trampoline,
            moved: starts,
            call,
        }),
        Err(_) => Err(DetourError::Memory),
    }
}

/// The detour by a jump over what it takes, of what that is moved to.
pub(crate) fn lay_over(
    alloc: Global,
    bits: Bits,
    ip: u64,
    to: u64,
    place: u64,
    rule: MoveRule,
    jump: &Jump,
    taken: &Taken,
    moved: &MovedBlocks,
) -> Result<Detour, DetourError>
    requires fit { IsTakenFit bits taken.now }
    requires fits { length jump.now.bytes.items ≤ taken.now.len }
    requires block { IsTrampoline bits ip taken.now.items.items place rule moved.now }
    ensures parts { IfOk result (λ d. IsPutTogether to place (trampoline_spec.goes_back rule bits taken.now.items.items)
        (calls_spec.call_in rule bits taken.now.items.items) jump.now taken.now moved.now d) }
    ensures refused { IfErr result (λ why. why ≡ Memory) }
{
    first_numbers_pass();
    let back = goes_back(rule, bits, taken);
    let call = call_in(rule, bits, taken);
    put_together(alloc, to, place, back, call, jump, taken, moved)
}

/// The detour by a jump over what it takes, which nothing else enters.
fn lay_detour(
    alloc: Global,
    bits: Bits,
    ip: u64,
    to: u64,
    place: u64,
    rule: MoveRule,
    jump: &Jump,
    taken: &Taken,
) -> Result<Detour, DetourError>
    requires fit { IsTakenFit bits taken.now }
    requires fits { length jump.now.bytes.items ≤ taken.now.len }
    ensures { IsDetourLaid bits ip to place rule jump.now taken.now result }
{
    match lay_trampoline(alloc, bits, ip, taken, place, rule) {
        Ok(moved) => lay_over(alloc, bits, ip, to, place, rule, jump, taken, &moved),
        Err(why) => Err(move_refusal(why)),
    }
}

/// The detour by the first jump that reaches.
fn detour_by(
    alloc: Global,
    bits: Bits,
    ip: u64,
    code: &[u8],
    to: u64,
    place: u64,
    rule: MoveRule,
    jump: &Jump,
) -> Result<Detour, DetourError>
    requires size { length code.now ≤ 1048576 }
    requires jump { IsJumpOf bits ip code.now to place rule jump.now.form jump.now.bytes.items jump.now.relay }
    requires short { length jump.now.bytes.items ≤ 15 }
    ensures { IsAnswerTo bits ip code.now to place rule result }
{
    laws_below();
    let taken = match take_whole(alloc, bits, ip, code, jump.bytes.len()) {
        Ok(taken) => taken,
        Err(why) => return Err(why),
    };
    match first_entry(alloc, Follow::Listed, bits, ip, code, &taken) {
        Ok(None) => lay_detour(alloc, bits, ip, to, place, rule, jump, &taken),
        Ok(Some((from, target))) => Err(DetourError::Entered {
            from: u64::from(from),
            target: target as u64,
        }),
        Err(FlowError::Memory) => Err(DetourError::Memory),
    }
}

/// Makes a detour under a rule for the targets of moved instructions.
pub(crate) fn detour_under(
    alloc: Global,
    bits: Bits,
    ip: u64,
    code: &[u8],
    to: u64,
    place: u64,
    rule: MoveRule,
) -> Result<Detour, DetourError>
    requires { length code.now ≤ 1048576 }
    ensures { IsAnswerTo bits ip code.now (modulo_width bits to) place rule result }
{
    let to = wrap(bits, u128::from(to));
    match jump_for(alloc, bits, ip, code, to, place, rule) {
        Ok(jump) => detour_by(alloc, bits, ip, code, to, place, rule, &jump),
        Err(_) => Err(DetourError::Memory),
    }
}

/// Makes a detour of a function: a patch that jumps to a replacement, and a trampoline that does what the overwritten instructions did and continues
/// after them.
///
/// `code` is the function, from its first byte, whose address is `ip`. `to` is the address of the replacement. `place` is the address of the
/// trampoline. `ip` and `to` wrap at the address size of the mode.
///
/// The jump is the first of these that reaches: the near jump of the mode; in 64-bit mode, the near jump to a relay after the trampoline; a jump of
/// 14 bytes through an address that follows it. The detour takes the fewest first instructions that cover the jump. After an instruction that does
/// not continue (RET, JMP, UD2) it takes only padding: NOP of any length, and INT3. The patch replaces them.
///
/// The trampoline has the moved instructions without the padding, then a jump back to the first byte after them unless the last one does not
/// continue, all in the least layout, then gap, slots and relay. A branch or RIP operand whose target is a moved instruction follows it (for the
/// first instruction as `start` says); every other target stays.
///
/// Errors, in this order: a byte of the overwritten part starts no instruction; the code ends before that part does; code that is not padding follows
/// an instruction that does not continue; control may enter the overwritten part after its first byte, or goes from a moved instruction to a byte
/// that starts none; the instructions cannot be moved. `Memory` can replace any of them.
///
/// ```
/// let (ip, to, place) = (0x40_1000, 0x50_0000, 0x60_0000);
/// let made = detour(
///     rt.alloc(),
///     Bits::B64,
///     ip,
///     &FUNCTION,
///     to,
///     place,
///     StartTarget::Moved,
/// )?;
/// println!(rt; "{}", hex::encode(rt.alloc(), made.patch())?)?; // e9fbef0f00cc
/// println!(rt; "{}", hex::encode(rt.alloc(), made.trampoline())?)?; // 554889e589f8e9fb0fe0ff
/// ```
pub fn detour(
    alloc: Global,
    bits: Bits,
    ip: u64,
    code: &[u8],
    to: u64,
    place: u64,
    start: StartTarget,
) -> Result<Detour, DetourError>
    requires { length code.now ≤ 1048576 }
    ensures { IsDetourAnswer bits ip code.now to place start result }
{
    let rule = MoveRule {
        start,
        rip_stays: false,
        returns: false,
    };
    detour_under(alloc, bits, ip, code, to, place, rule)
}
