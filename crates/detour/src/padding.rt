//! A detour through the padding in front of a function.

ghost use Rattle.std.specs.Prelude.{◌≡◌, ◌+◌, ◌-◌, ◌<◌, ◌≤◌, ◌++◌, ◌^◌, [], false, length, IfOk, IfSome, Ok};
ghost use Rattle.x86_values.specs.Wrapping.{width};
ghost use Rattle.detour.specs.Padding as spec;
ghost use Rattle.detour.specs.Padding.{IsPaddingAnswer, IsPaddingPassage, IsFreePadding, IsTakenShort, IsThrough, IsPaddingDetour};
ghost use Rattle.detour.specs.PaddingParts.{IsPaddingAt, IsShortTaken, IsRelayJump, IsPaddingJumpAnswer, IsPaddedAnswer, IsPaddingRefusal};
ghost use Rattle.detour.specs.Reading.{IsTakenFit};
ghost use Rattle.detour.specs.declared.padding.PaddingError.TheVariants as error;

use crate::entries::first_entry;
use crate::error::DetourError;
use crate::jumps::near_jump;
use crate::laws_below::laws_below;
use crate::making::{Jump, lay_over, move_refusal, relay_behind, take_whole};
use crate::parts::{Detour, JumpForm};
use crate::ranges::overlaps;
use crate::rules::{HookRules, RuleError, SeenDetour, ruled};
use crate::start::MoveRule;
use crate::taken::{Taken, is_padding, read_item};
use crate::trampoline::lay_trampoline;
use arrayvec::ArrayVec;
use flow_graph::hook_sight::{Passage, StartRule, look};
use flow_graph::{FlowError, Follow};
use move_goals::Placed;
use plain_spelling::numbers::distance;
use std::alloc::{AllocError, Global};
use std::marker::Model;
use thiserror::Error;
use x86_values::{Bits, wrap};

/// How many bytes a short jump has.
const SHORT_LEN: usize = 2;

/// The only cause that can come at any point.
const NO_MEMORY: PaddingError = PaddingError::Function(RuleError::Detour(DetourError::Memory));

/// Why a function gets no detour through padding. If several causes hold, the first in the order of
/// [`detour_through_padding`](crate::detour_through_padding) is reported. `Function(RuleError::Detour(DetourError::Memory))` can replace any of them.
#[derive(Clone, Copy, PartialEq, Eq, Debug, Error)]
pub enum PaddingError {
    /// The padding has `len` bytes, and the near jump has `need`.
    #[error("{len} bytes of padding are too few for a jump of {need}")]
    TooShort { len: usize, need: usize },
    /// At this offset, counted from the first byte of the padding, no padding instruction begins.
    #[error("no padding begins at offset {at:#x}")]
    NotPadding { at: usize },
    /// Control may go from the first offset, in the function, to the second one, in the padding. Both count from the first byte of the padding.
    #[error("control may come from offset {from:#x} to offset {target:#x} of the padding")]
    Entered { from: usize, target: usize },
    /// The near jump reaches neither the replacement nor a relay behind the trampoline.
    #[error("no near jump reaches the replacement or a relay")]
    OutOfReach,
    /// The function gets no detour by a short jump, for this cause. Its offsets count from the function's first byte.
    #[error("{0}")]
    Function(RuleError),
    /// The trampoline would lie in the padding.
    #[error("the trampoline would lie in the padding")]
    Overlaps,
}

impl From<RuleError> for PaddingError {
    ghost from_gives = { λ why e. e ≡ error.Function why };

    fn from(why: RuleError) -> PaddingError {
        PaddingError::Function(why)
    }
}

/// A detour whose patch lies in two places: over the function's first bytes, and over the last bytes of the padding in front of it.
#[derive(Drop)]
pub struct PaddedDetour {
    near: ArrayVec<u8, 15>,
    seen: SeenDetour,
}

impl Model for PaddedDetour {
    ghost use Rattle.detour.specs.Padding.{PaddedState};
    ghost use Rattle.std.specs.Prelude.{⊤};

    ghost Value = { PaddedState };

    ghost view = { λ d. record { near = d.near.items; seen = d.seen } };

    ghost invariant = { λ d. ⊤ };
}

impl PaddedDetour {
    /// Returns the bytes that replace the last ones of the padding: a near jump, which ends where the function begins. Write it before the patch.
    pub fn jump(&self) -> &[u8]
        ensures { result.now ≡ self.now.near }
    {
        &self.near
    }

    /// Returns the bytes that replace the first ones of the function: the short jump, then CC up to the end of the replaced part.
    pub fn patch(&self) -> &[u8]
        ensures { result.now ≡ self.now.seen.detour.patch }
    {
        self.seen.detour.patch()
    }

    /// Returns the bytes of the trampoline: the moved instructions and the jump back, then, if needed, gap, slots and relay.
    pub fn trampoline(&self) -> &[u8]
        ensures { result.now ≡ self.now.seen.detour.trampoline }
    {
        self.seen.detour.trampoline()
    }

    /// Returns the detour, and what was seen of the function. Its form is that of the jump in the padding, and its patch the one at the function.
    pub fn seen(&self) -> &SeenDetour
        ensures { result.now ≡ self.now.seen }
    {
        &self.seen
    }
}

/// How many bytes the near jump of a mode has.
fn near_len(bits: Bits) -> usize
    ensures { result ≡ spec.near_len bits }
{
    match bits {
        Bits::B16 => 3,
        Bits::B32 | Bits::B64 => 5,
    }
}

/// How far the near jump is from behind the short one, that far below 256.
fn short_offset(bits: Bits) -> u8
    ensures { result ≡ 0xFE - spec.near_len bits }
{
    match bits {
        Bits::B16 => 0xFB,
        Bits::B32 | Bits::B64 => 0xF9,
    }
}

/// The short jump to the near jump.
fn short_jump(bits: Bits) -> ArrayVec<u8, 15>
    ensures { result.items ≡ spec.short_jump bits }
{
    let mut bytes = ArrayVec::new();
    bytes.push(0xEB);
    bytes.push(short_offset(bits));
    bytes
}

/// The padding instruction at an offset of the padding, if one begins there.
fn padding_at(bits: Bits, base: u64, padding: &[u8], offset: usize) -> Option<Placed>
    requires { offset < length padding.now }
    ensures { IsPaddingAt bits base padding.now offset result }
{
    match read_item(bits, base, padding, offset) {
        Ok(item) => { if is_padding(&item) { Some(item) } else { None } }
        Err(_) => None,
    }
}

/// The first offset of the padding at which no padding instruction begins, if there is one.
fn first_other(bits: Bits, base: u64, padding: &[u8]) -> Option<usize>
    ensures { IsPaddingAnswer bits base padding.now result }
{
    let mut offset = 0;
    'offset: while offset < padding.len() {
        match padding_at(bits, base, padding, offset) {
            Some(item) => offset += usize::from(item.len),
            None => return Some(offset),
        }
    }
    None
}

/// The padding and the function behind it.
fn whole_code(alloc: Global, padding: &[u8], code: &[u8]) -> Result<Vec<u8>, AllocError>
    ensures { IfOk result (λ whole. whole.items ≡ padding.now ++ code.now) }
{
    let mut whole = Vec::new(alloc);
    whole.extend_from_slice(padding)?;
    whole.extend_from_slice(code)?;
    Ok(whole)
}

/// The function's first byte and its entries, counted from the first byte of `len` bytes of padding.
fn whole_entries(alloc: Global, len: u32, entries: &[u32]) -> Result<Vec<u32>, AllocError>
    ensures { IfOk result (λ whole. whole.items ≡ spec.whole_entries len entries.now) }
{
    let shifted: Vec<u32> = entries
        .iter()
        .map(|entry| entry.saturating_add(len))
        .collect(alloc)?;
    let mut whole = Vec::new(alloc);
    whole.push(len)?;
    whole.extend_from_slice(&shifted)?;
    Ok(whole)
}

/// How control first goes from the function into the padding, as far as it is seen.
fn seen_in_padding(
    alloc: Global,
    bits: Bits,
    ip: u64,
    padding: &[u8],
    code: &[u8],
    entries: &[u32],
) -> Result<Option<Passage>, FlowError>
    requires { length padding.now + length code.now ≤ 1048576 }
    ensures { IfOk result (λ passage. IsPaddingPassage bits ip padding.now code.now entries.now passage) }
{
    let len = padding.len();
    let base = distance(bits, len as u64, ip);
    let whole = whole_code(alloc, padding, code)?;
    let entries = whole_entries(alloc, len as u32, entries)?;
    let view = look(
        alloc,
        bits,
        base,
        &whole,
        &entries,
        len,
        &[],
        StartRule::Closed,
    )?;
    Ok(view.entered)
}

/// Why the padding cannot be used: it has no room for the near jump, is no padding, or is seen to be entered.
fn padding_refusal(
    alloc: Global,
    bits: Bits,
    ip: u64,
    padding: &[u8],
    code: &[u8],
    entries: &[u32],
) -> Option<PaddingError>
    requires { length padding.now + length code.now ≤ 1048576 }
    ensures { IsPaddingRefusal bits ip padding.now code.now entries.now result }
{
    let need = near_len(bits);
    if padding.len() < need {
        return Some(PaddingError::TooShort {
            len: padding.len(),
            need,
        });
    }
    let base = distance(bits, padding.len() as u64, ip);
    if let Some(at) = first_other(bits, base, padding) {
        return Some(PaddingError::NotPadding { at });
    }
    match seen_in_padding(alloc, bits, ip, padding, code, entries) {
        Ok(None) => None,
        Ok(Some(Passage { from, target })) => Some(PaddingError::Entered { from, target }),
        Err(FlowError::Memory) => Some(NO_MEMORY),
    }
}

/// The instructions that the short jump takes, if nothing else enters them.
fn take_short(alloc: Global, bits: Bits, ip: u64, code: &[u8]) -> Result<Taken, DetourError>
    requires { length code.now ≤ 1048576 }
    ensures { IsShortTaken bits ip code.now result }
{
    let taken = match take_whole(alloc, bits, ip, code, SHORT_LEN) {
        Ok(taken) => taken,
        Err(why) => return Err(why),
    };
    match first_entry(alloc, Follow::Listed, bits, ip, code, &taken) {
        Ok(None) => Ok(taken),
        Ok(Some((from, target))) => Err(DetourError::Entered {
            from: u64::from(from),
            target: target as u64,
        }),
        Err(FlowError::Memory) => Err(DetourError::Memory),
    }
}

/// The near jump to a relay, if it reaches that.
fn relay_jump(bits: Bits, at: u64, address: u64) -> Option<Jump>
    ensures answer { IsRelayJump bits at address result }
{
    match near_jump(bits, at, address) {
        Some(bytes) => Some(Jump {
            form: JumpForm::Relay,
            bytes,
            relay: Some(address),
        }),
        None => None,
    }
}

/// The near jump to the replacement if it reaches that, else the one to a relay.
fn padding_jump(bits: Bits, at: u64, to: u64, behind: Option<u64>) -> Option<Jump>
    requires { to < 2 ^ width bits }
    ensures { IsPaddingJumpAnswer bits at to behind result }
{
    laws_below();
    match near_jump(bits, at, to) {
        Some(bytes) => Some(Jump {
            form: JumpForm::Near,
            bytes,
            relay: None,
        }),
        None => match behind {
            Some(address) => relay_jump(bits, at, address),
            None => None,
        },
    }
}

/// What is made: the near jump, and the detour by the short one.
#[derive(Drop)]
pub(crate) struct Through {
    near: ArrayVec<u8, 15>,
    made: Detour,
}

/// Makes the near jump, and the detour by the short one.
fn make_through(
    alloc: Global,
    bits: Bits,
    ip: u64,
    code: &[u8],
    to: u64,
    place: u64,
    rule: MoveRule,
) -> Result<Through, PaddingError>
    requires size { length code.now ≤ 1048576 }
    requires to { to < 2 ^ width bits }
    ensures { IsPaddedAnswer bits ip code.now to place rule result }
{
    laws_below();
    let taken = match take_short(alloc, bits, ip, code) {
        Ok(taken) => taken,
        Err(why) => return Err(PaddingError::Function(RuleError::Detour(why))),
    };
    let moved = match lay_trampoline(alloc, bits, ip, &taken, place, rule) {
        Ok(moved) => moved,
        Err(why) => return Err(PaddingError::Function(RuleError::Detour(move_refusal(why)))),
    };
    let at = distance(bits, near_len(bits) as u64, ip);
    let behind = relay_behind(place, moved.bytes().len());
    let Some(Jump { form, bytes, relay }) = padding_jump(bits, at, to, behind) else {
        return Err(PaddingError::OutOfReach);
    };
    let over = Jump {
        form,
        bytes: short_jump(bits),
        relay,
    };
    match lay_over(alloc, bits, ip, to, place, rule, &over, &taken, &moved) {
        Ok(made) => Ok(Through { near: bytes, made }),
        Err(_) => Err(NO_MEMORY),
    }
}

/// The detour of a function behind padding that can be used.
fn behind_padding(
    alloc: Global,
    bits: Bits,
    ip: u64,
    padding: &[u8],
    code: &[u8],
    to: u64,
    place: u64,
    entries: &[u32],
    rules: HookRules,
) -> Result<PaddedDetour, PaddingError>
    requires { length padding.now + length code.now ≤ 1048576 }
    ensures { IsThrough bits ip padding.now code.now to place entries.now rules result }
{
    let rule = MoveRule {
        start: rules.start,
        rip_stays: true,
        returns: rules.returns,
    };
    let to = wrap(bits, u128::from(to));
    let Through { near, made } = match make_through(alloc, bits, ip, code, to, place, rule) {
        Ok(through) => through,
        Err(why) => return Err(why),
    };
    let seen = match ruled(alloc, bits, ip, code, place, entries, rules, made) {
        Ok(seen) => seen,
        Err(why) => return Err(PaddingError::Function(why)),
    };
    let base = distance(bits, padding.len() as u64, ip);
    let len = seen.detour.trampoline().len();
    if overlaps(bits, base, padding.len(), place, len) {
        return Err(PaddingError::Overlaps);
    }
    Ok(PaddedDetour { near, seen })
}

/// Makes a detour by rules of a function that may be too small for the near jump, if there is padding in front of it: a short jump of 2 bytes over the
/// function's first bytes goes to a near jump over the last bytes of the padding, which goes to the replacement.
///
/// `padding` are the bytes directly in front of the function, and `code` is the function; together they have at most 1,048,576 bytes. The caller says
/// that the padding belongs to no function. The other arguments are those of [`detour_with`](crate::detour_with); `ip` is the address of the function.
///
/// The near jump has 5 bytes, or 3 in 16-bit code, and ends where the function begins: [`jump`](PaddedDetour::jump) goes over the last bytes of the
/// padding. In 64-bit mode it goes to a relay behind the trampoline if it does not reach the replacement. The short jump takes the fewest first
/// instructions of the function that have 2 bytes. They are moved to the trampoline as `detour_with` moves them.
///
/// Errors, in this order:
///
/// - `TooShort`: the padding has fewer bytes than the near jump.
/// - `NotPadding`: from the first byte of the padding on, this offset is the first at which no NOP of any length and no INT3 begins.
/// - `Entered`: control that is seen from the function's first byte and the entries goes into the padding: the first such offset, and where. A call of
///   the first byte of the padding does not count, as it is one of the function.
/// - `Function(Detour(..))`: the first instructions cannot be taken, are entered elsewhere, or cannot be moved, as for [`detour`](crate::detour).
/// - `OutOfReach`: the near jump reaches neither the replacement nor a relay.
/// - `Function`: the other causes of `detour_with`, in its order.
/// - `Overlaps`: an address of the trampoline is one of the padding. Both ranges wrap at the address size of the mode.
///
/// `Function(RuleError::Detour(DetourError::Memory))` can replace any of them.
///
/// ```
/// // five bytes of padding; then mov eax, edi; ret
/// let (padding, code) = (b"\xcc\xcc\xcc\xcc\xcc", b"\x89\xf8\xc3");
/// let rules = HookRules {
///     start: StartTarget::Moved,
///     whole: true,
///     returns: false,
///     calls: false,
/// };
/// let (ip, to, place) = (0x40_1000, 0x50_0000, 0x60_0000);
/// let made = detour_through_padding(
///     rt.alloc(),
///     Bits::B64,
///     ip,
///     padding,
///     code,
///     to,
///     place,
///     &[],
///     rules,
/// )?;
/// println!(rt; "{}", hex::encode(rt.alloc(), made.jump())?)?; // e900f00f00
/// println!(rt; "{}", hex::encode(rt.alloc(), made.patch())?)?; // ebf9
/// println!(rt; "{}", hex::encode(rt.alloc(), made.trampoline())?)?; // 89f8e9fb0fe0ff
/// ```
pub fn detour_through_padding(
    alloc: Global,
    bits: Bits,
    ip: u64,
    padding: &[u8],
    code: &[u8],
    to: u64,
    place: u64,
    entries: &[u32],
    rules: HookRules,
) -> Result<PaddedDetour, PaddingError>
    requires { length padding.now + length code.now ≤ 1048576 }
    ensures { IsPaddingDetour bits ip padding.now code.now to place entries.now rules result }
{
    match padding_refusal(alloc, bits, ip, padding, code, entries) {
        None => behind_padding(alloc, bits, ip, padding, code, to, place, entries, rules),
        Some(why) => Err(why),
    }
}
