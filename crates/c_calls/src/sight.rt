//! What is seen of a function whose first bytes a hook overwrites.

ghost use Rattle.std.specs.Prelude.{◌≡◌};
ghost use Rattle.c_calls.specs.Looking as spec;
ghost use Rattle.c_calls.specs.Numbers.{bits_numbered};

use crate::flat::FlatView;
use crate::numbers::bits_numbered;
use crate::refusal::{Refusal, refusal_status};
use flow_graph::FlowError;
use flow_graph::hook_sight::{Passage, Sight, SightEnd, StartRule, View};
use std::alloc::Global;

/// How many bytes a function has at most.
const MOST: usize = 1_048_576;

/// The rule for the start, by its number.
#[tactic(auto, unfolding(crate::specs::Looking::rule_numbered))]
fn rule_numbered(n: u32) -> Option<StartRule>
    ensures { result ≡ spec.rule_numbered n }
{
    match n {
        0 => Some(StartRule::Open),
        1 => Some(StartRule::Closed),
        _ => None,
    }
}

/// The number of the cause that ends sight.
pub(crate) fn end_number(why: SightEnd) -> u8
    ensures { result ≡ spec.end_number why }
{
    match why {
        SightEnd::NotRead => 1,
        SightEnd::IndirectJump => 2,
        SightEnd::Ended => 3,
    }
}

/// The number of the cause that ends sight, 0 if it is whole.
fn sight_number(sight: Sight) -> u8
    ensures { result ≡ spec.sight_number sight }
{
    match sight {
        Sight::Whole => 0,
        Sight::Ends { why, .. } => end_number(why),
    }
}

/// The offset where sight ends, 0 if it is whole.
fn sight_offset(sight: Sight) -> u64
    ensures { result ≡ spec.sight_offset sight }
{
    match sight {
        Sight::Whole => 0,
        Sight::Ends { at, .. } => at as u64,
    }
}

/// Where a passage comes from, 0 if there is none.
fn from_or_0(passage: Option<Passage>) -> u64
    ensures { result ≡ spec.from_or_0 passage }
{
    match passage {
        None => 0,
        Some(passage) => passage.from as u64,
    }
}

/// Where a passage goes, 0 if there is none.
fn target_or_0(passage: Option<Passage>) -> u64
    ensures { result ≡ spec.target_or_0 passage }
{
    match passage {
        None => 0,
        Some(passage) => passage.target as u64,
    }
}

/// 1 if there is a passage, else 0.
fn has_passage(passage: Option<Passage>) -> u8
    ensures { result ≡ spec.has_passage passage }
{
    match passage {
        None => 0,
        Some(_) => 1,
    }
}

/// An offset, 0 if there is none.
fn offset_or_0(offset: Option<usize>) -> u64
    ensures { result ≡ spec.offset_or_0 offset }
{
    match offset {
        None => 0,
        Some(offset) => offset as u64,
    }
}

/// 1 if there is an offset, else 0.
fn has_offset(offset: Option<usize>) -> u8
    ensures { result ≡ spec.has_offset offset }
{
    match offset {
        None => 0,
        Some(_) => 1,
    }
}

/// A view as a flat struct.
pub(crate) fn flat_view(view: &View) -> FlatView
    ensures { result ≡ spec.flat_view view.now }
{
    FlatView {
        sight_at: sight_offset(view.sight),
        entered_from: from_or_0(view.entered),
        entered_target: target_or_0(view.entered),
        inside: offset_or_0(view.inside),
        suspect_from: from_or_0(view.suspect),
        suspect_target: target_or_0(view.suspect),
        sight: sight_number(view.sight),
        is_entered: has_passage(view.entered),
        has_inside: has_offset(view.inside),
        has_suspect: has_passage(view.suspect),
    }
}

/// What is seen of a function, by the numbers of a mode and of a rule for its start.
fn view_of(
    alloc: Global,
    bits: u32,
    ip: u64,
    code: &[u8],
    entries: &[u32],
    taken: u64,
    moved: &[u32],
    start: u32,
) -> Result<View, Refusal>
    ensures { spec.IsViewAnswer (bits_numbered bits) (spec.rule_numbered start) ip code.now entries.now taken moved.now result }
{
    let Some(bits) = bits_numbered(bits) else {
        return Err(Refusal::Mode);
    };
    let Some(start) = rule_numbered(start) else {
        return Err(Refusal::Start);
    };
    if code.len() > MOST {
        return Err(Refusal::TooLarge);
    }
    match flow_graph::hook_sight::look(
        alloc,
        bits,
        ip,
        code,
        entries,
        taken as usize,
        moved,
        start,
    ) {
        Ok(view) => Ok(view),
        Err(FlowError::Memory) => Err(Refusal::Memory),
    }
}

/// Writes what is seen, and returns 0 or the refusal.
fn put_view(answer: &Result<View, Refusal>, view: &mut FlatView) -> i32
    ensures said { result ≡ spec.look_said answer.now }
    ensures left { view.new ≡ spec.view_left view.old answer.now }
{
    match answer {
        Ok(found) => {
            *view = flat_view(found);
            0
        }
        Err(why) => refusal_status(*why),
    }
}

/// Writes what is seen of a function whose first `taken` bytes a hook overwrites, and returns 0.
pub fn look(
    alloc: Global,
    bits: u32,
    ip: u64,
    code: &[u8],
    entries: &[u32],
    taken: u64,
    moved: &[u32],
    start: u32,
    view: &mut FlatView,
) -> i32
    ensures { spec.IsLook bits ip code.now entries.now taken moved.now start view.old view.new result }
{
    let answer = view_of(alloc, bits, ip, code, entries, taken, moved, start);
    put_view(&answer, view)
}
