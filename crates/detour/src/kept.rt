//! A detour that keeps an ENDBR at the function's start.

ghost use Rattle.std.specs.Prelude.{◌≡◌, ◌≤◌, ◌++◌, true, false, length, IfOk};
ghost use Rattle.detour.specs.Kept as spec;
ghost use Rattle.detour.specs.Kept.{IsHeadPassage, IsTailAnswer, IsBehind, IsKeptBy, IsKeptAnswer, tail_entries};
ghost use Rattle.detour.specs.declared.kept.KeepError.TheVariants as error;

use crate::error::DetourError;
use crate::parts::Detour;
use crate::ranges::overlaps;
use crate::rules::{HookRules, RuleError, SeenDetour, detour_with, rule_of};
use crate::start::StartTarget;
use flow_graph::FlowError;
use flow_graph::hook_sight::{Passage, look};
use std::alloc::{AllocError, Global};
use std::marker::Model;
use thiserror::Error;
use x86_values::{Bits, wrap};

/// How many bytes an ENDBR has.
const ENDBR_LEN: usize = 4;

/// Why a function gets no detour that keeps its ENDBR. If several causes hold, the first is reported. `Tail(RuleError::Detour(DetourError::Memory))` can
/// replace any of them.
#[derive(Clone, Copy, PartialEq, Eq, Debug, Error)]
pub enum KeepError {
    /// Control may go from the first offset to the second one, which lies in the ENDBR: after its first byte, or at its first byte from behind it. For an
    /// entry both are its own offset. Offsets count from the function's first byte.
    #[error("control may come from offset {from:#x} to offset {target:#x}, in the ENDBR that is kept")]
    Head { from: usize, target: usize },
    /// The rest of the function gets no detour, for this cause. Its offsets count from the byte after the ENDBR; without one, from the function's first
    /// byte.
    #[error("{0}")]
    Tail(RuleError),
    /// The trampoline, which begins with the ENDBR, would lie in the given bytes of the function.
    #[error("the trampoline would lie in the code of the function")]
    Overlaps,
}

impl From<RuleError> for KeepError {
    ghost from_gives = { λ why e. e ≡ error.Tail why };

    fn from(why: RuleError) -> KeepError {
        KeepError::Tail(why)
    }
}

/// A detour whose patch lies behind the ENDBR of the function, if it has one, and whose trampoline begins with that ENDBR.
#[derive(Drop)]
pub struct KeptDetour {
    kept: usize,
    seen: SeenDetour,
    trampoline: Vec<u8>,
}

impl Model for KeptDetour {
    ghost use Rattle.detour.specs.Kept.{KeptState};
    ghost use Rattle.std.specs.Prelude.{⊤};

    ghost Value = { KeptState };

    ghost view = { λ d. record { kept = d.kept; seen = d.seen; trampoline = d.trampoline.items } };

    ghost invariant = { λ d. ⊤ };
}

impl KeptDetour {
    /// Returns how many first bytes of the function stay as they are: the 4 of an ENDBR, or 0. The patch goes to this offset in the function.
    pub fn kept(&self) -> usize
        ensures { result ≡ self.now.kept }
    {
        self.kept
    }

    /// Returns the bytes that replace those of the function from the offset [`kept`](KeptDetour::kept) on: the jump, then CC up to the end of the replaced
    /// part.
    pub fn patch(&self) -> &[u8]
        ensures { result.now ≡ self.now.seen.detour.patch }
    {
        self.seen.detour.patch()
    }

    /// Returns the bytes of the whole trampoline: the kept bytes, then the trampoline of [`seen`](KeptDetour::seen).
    pub fn trampoline(&self) -> &[u8]
        ensures { result.now ≡ self.now.trampoline }
    {
        &self.trampoline
    }

    /// Returns the detour of the function behind the kept bytes, and what was seen there. All its offsets in the function count from the byte behind the
    /// kept ones, and all its offsets in the trampoline too.
    pub fn seen(&self) -> &SeenDetour
        ensures { result.now ≡ self.now.seen }
    {
        &self.seen
    }
}

/// Whether some code begins with the ENDBR of the mode.
#[tactic(auto, unfolding(crate::specs::Kept::has_endbr))]
fn has_endbr(bits: Bits, code: &[u8]) -> bool
    ensures { result ≡ spec.has_endbr bits code.now }
{
    match bits {
        Bits::B16 => false,
        Bits::B32 => code.starts_with(&[0xF3, 0x0F, 0x1E, 0xFB]),
        Bits::B64 => code.starts_with(&[0xF3, 0x0F, 0x1E, 0xFA]),
    }
}

/// Returns how many first bytes of a function stay as they are if its ENDBR is kept: 4 if it begins with the ENDBR of the mode, else 0.
pub fn kept_len(bits: Bits, code: &[u8]) -> usize
    ensures { result ≡ spec.kept_len bits code.now }
{
    if has_endbr(bits, code) { ENDBR_LEN } else { 0 }
}

/// How control first goes into the kept bytes, as far as it is seen.
fn head_passage(inside: Option<usize>, entered: Option<Passage>) -> Option<Passage>
    ensures { result ≡ spec.head_passage inside entered }
{
    match inside {
        None => entered,
        Some(entry) => Some(Passage {
            from: entry,
            target: entry,
        }),
    }
}

/// How control first goes into the kept bytes of a function, as far as it is seen.
fn seen_in_head(
    alloc: Global,
    bits: Bits,
    ip: u64,
    code: &[u8],
    entries: &[u32],
    start: StartTarget,
) -> Result<Option<Passage>, FlowError>
    requires { length code.now ≤ 1048576 }
    ensures { IfOk result (λ passage. IsHeadPassage bits ip code.now entries.now start passage) }
{
    let rule = rule_of(start);
    let view = look(alloc, bits, ip, code, entries, ENDBR_LEN, &[0], rule)?;
    Ok(head_passage(view.inside, view.entered))
}

/// The entries, counted from the byte behind the kept ones.
fn entries_behind(alloc: Global, entries: &[u32]) -> Result<Vec<u32>, AllocError>
    ensures { IfOk result (λ behind. behind.items ≡ tail_entries entries.now) }
{
    entries
        .iter()
        .map(|entry| entry.saturating_sub(4))
        .collect(alloc)
}

/// The detour of the function behind the kept bytes.
fn tail_with(
    alloc: Global,
    bits: Bits,
    ip: u64,
    code: &[u8],
    to: u64,
    place: u64,
    entries: &[u32],
    rules: HookRules,
) -> Result<SeenDetour, RuleError>
    requires size { length code.now ≤ 1048576 }
    requires kept { 4 ≤ length code.now }
    ensures { IsTailAnswer bits ip code.now to place entries.now rules result }
{
    let Some(place) = place.checked_add(ENDBR_LEN as u64) else {
        return Err(RuleError::Detour(DetourError::Wraps {
            end: u128::from(place) + ENDBR_LEN as u128,
        }));
    };
    let Ok(entries) = entries_behind(alloc, entries) else {
        return Err(RuleError::Detour(DetourError::Memory));
    };
    let ip = wrap(bits, u128::from(ip) + ENDBR_LEN as u128);
    detour_with(
        alloc,
        bits,
        ip,
        &code[ENDBR_LEN..],
        to,
        place,
        &entries,
        rules,
    )
}

/// The whole trampoline: the kept bytes, and behind them the one of the detour.
fn trampoline_behind(alloc: Global, kept: &[u8], made: &Detour) -> Result<Vec<u8>, AllocError>
    ensures { IfOk result (λ bytes. bytes.items ≡ kept.now ++ made.now.trampoline) }
{
    let mut bytes = Vec::new(alloc);
    bytes.extend_from_slice(kept)?;
    bytes.extend_from_slice(made.trampoline())?;
    Ok(bytes)
}

/// The detour of a function behind its ENDBR, with that in front of the trampoline.
fn behind_endbr(
    alloc: Global,
    bits: Bits,
    ip: u64,
    code: &[u8],
    to: u64,
    place: u64,
    entries: &[u32],
    rules: HookRules,
) -> Result<KeptDetour, KeepError>
    requires size { length code.now ≤ 1048576 }
    requires kept { 4 ≤ length code.now }
    requires endbr { spec.has_endbr bits code.now ≡ true }
    ensures { IsBehind bits ip code.now to place entries.now rules result }
{
    let seen = match tail_with(alloc, bits, ip, code, to, place, entries, rules) {
        Ok(seen) => seen,
        Err(why) => return Err(KeepError::Tail(why)),
    };
    let Ok(trampoline) = trampoline_behind(alloc, &code[..ENDBR_LEN], &seen.detour) else {
        return Err(KeepError::Tail(RuleError::Detour(DetourError::Memory)));
    };
    if overlaps(bits, ip, code.len(), place, trampoline.len()) {
        return Err(KeepError::Overlaps);
    }
    Ok(KeptDetour {
        kept: ENDBR_LEN,
        seen,
        trampoline,
    })
}

/// The detour of a function that begins with an ENDBR.
fn keeping(
    alloc: Global,
    bits: Bits,
    ip: u64,
    code: &[u8],
    to: u64,
    place: u64,
    entries: &[u32],
    rules: HookRules,
) -> Result<KeptDetour, KeepError>
    requires size { length code.now ≤ 1048576 }
    requires kept { 4 ≤ length code.now }
    requires endbr { spec.has_endbr bits code.now ≡ true }
    ensures { IsKeptBy true bits ip code.now to place entries.now rules result }
{
    match seen_in_head(alloc, bits, ip, code, entries, rules.start) {
        Ok(None) => behind_endbr(alloc, bits, ip, code, to, place, entries, rules),
        Ok(Some(Passage { from, target })) => Err(KeepError::Head { from, target }),
        Err(FlowError::Memory) => Err(KeepError::Tail(RuleError::Detour(DetourError::Memory))),
    }
}

/// The detour of a function that does not.
fn keeping_none(
    alloc: Global,
    bits: Bits,
    ip: u64,
    code: &[u8],
    to: u64,
    place: u64,
    entries: &[u32],
    rules: HookRules,
) -> Result<KeptDetour, KeepError>
    requires size { length code.now ≤ 1048576 }
    requires endbr { spec.has_endbr bits code.now ≡ false }
    ensures { IsKeptBy false bits ip code.now to place entries.now rules result }
{
    let seen = match detour_with(alloc, bits, ip, code, to, place, entries, rules) {
        Ok(seen) => seen,
        Err(why) => return Err(KeepError::Tail(why)),
    };
    let Ok(trampoline) = trampoline_behind(alloc, &[], &seen.detour) else {
        return Err(KeepError::Tail(RuleError::Detour(DetourError::Memory)));
    };
    Ok(KeptDetour {
        kept: 0,
        seen,
        trampoline,
    })
}

/// Makes a detour by rules that keeps an ENDBR at the function's start, so that calls through pointers keep working where indirect-branch tracking is on.
///
/// If `code` begins with the ENDBR of the mode (ENDBR64 `F3 0F 1E FA` in 64-bit mode, ENDBR32 `F3 0F 1E FB` in 32-bit mode), its 4 bytes stay, the patch
/// goes behind them, and the trampoline begins with them too: both can be reached through a pointer. The rest of the function gets the detour of
/// [`detour_with`](crate::detour_with) at `ip + 4`, with its trampoline at `place + 4` and the entries counted from there; an entry in the ENDBR counts
/// as the byte behind it. If `code` does not begin so, the detour and the errors are those of `detour_with`.
///
/// The arguments are those of `detour_with`: `ip`, `entries` and `place` are about the whole function and the whole trampoline. In the answer, what
/// [`seen`](KeptDetour::seen) and the error `Tail` say counts from the byte behind the kept ones.
///
/// Errors, in this order:
///
/// - `Head`: the least entry in the ENDBR after its first byte, with its offset twice; else the first offset from which control goes there, and where.
///   If targets at the start are moved (`StartTarget::Moved`), a loop to the ENDBR's first byte is an entry as well: it would run into the patch. Calls
///   of the start are recursion, and reach the replacement.
/// - `Tail`: the rest of the function gets no detour, for the cause that `detour_with` reports. If `place + 4` is above the last address of 64 bits,
///   that is `Wraps`, with this end.
/// - `Overlaps`: an address of the whole trampoline is one of the given bytes. Both ranges wrap at the address size of the mode.
///
/// `Tail(RuleError::Detour(DetourError::Memory))` can replace any of them.
///
/// ```
/// // endbr64; push rbp; mov rbp, rsp; mov eax, edi; pop rbp; ret
/// let code = b"\xf3\x0f\x1e\xfa\x55\x48\x89\xe5\x89\xf8\x5d\xc3";
/// let rules = HookRules {
///     start: StartTarget::Moved,
///     whole: true,
///     returns: false,
///     calls: false,
/// };
/// let (ip, to, place) = (0x40_1000, 0x50_0000, 0x60_0000);
/// let made = detour_keeping_endbr(rt.alloc(), Bits::B64, ip, code, to, place, &[], rules)?;
/// println!(rt; "{}", made.kept())?; // 4
/// println!(rt; "{}", hex::encode(rt.alloc(), made.patch())?)?; // e9f7ef0f00cc
/// println!(rt; "{}", hex::encode(rt.alloc(), made.trampoline())?)?; // f30f1efa554889e589f8e9fb0fe0ff
/// ```
pub fn detour_keeping_endbr(
    alloc: Global,
    bits: Bits,
    ip: u64,
    code: &[u8],
    to: u64,
    place: u64,
    entries: &[u32],
    rules: HookRules,
) -> Result<KeptDetour, KeepError>
    requires { length code.now ≤ 1048576 }
    ensures { IsKeptAnswer bits ip code.now to place entries.now rules result }
{
    if has_endbr(bits, code) {
        keeping(alloc, bits, ip, code, to, place, entries, rules)
    } else {
        keeping_none(alloc, bits, ip, code, to, place, entries, rules)
    }
}
