//! What was not reached and might go into what is overwritten.

ghost use Rattle.std.specs.Prelude.{◌≡◌, ◌+◌, ◌<◌, ◌≤◌, ◌↔◌, ℕ, length, IsTrue};
ghost use Rattle.std.specs.List.{Contains};
ghost use Rattle.std.specs.List.Sorted.{IsStrictlyIncreasing};
ghost use Rattle.flow_graph.specs.Control.{code_bytes};
ghost use Rattle.flow_graph.specs.HookSight.Entries.{part_of, IsLeast, IsFirstPassage};
ghost use Rattle.flow_graph.specs.HookSight.Suspects.{IsSuspect, IsSuspected, IsCursor, IsAt};

use crate::hook_sight::answers::{Passage, Sight, StartRule};
use crate::hook_sight::passages::passage_from;
use x86_values::Bits;

/// Whether a place of the list has this offset.
fn is_at(starts: &[u32], next: usize, p: usize) -> bool
    ensures { IsTrue result ↔ IsAt starts.now next p }
{
    next < starts.len() && starts[next] as usize == p
}

/// How many offsets of the list are at most this one, given how many are less.
fn count_to(starts: &[u32], next: usize, p: usize) -> usize
    requires ascending { IsStrictlyIncreasing starts.now }
    requires cursor { IsCursor starts.now next p }
    ensures { IsCursor starts.now result (p + 1) }
{
    if is_at(starts, next, p) {
        next + 1
    } else {
        next
    }
}

/// The least offset to which what is read at an offset goes and so enters what is overwritten, if the offset is after that and was not reached.
fn suspect_from(
    bits: Bits,
    ip: u64,
    code: &[u8],
    taken: usize,
    moved: &[u32],
    start: StartRule,
    starts: &[u32],
    next: usize,
    p: usize,
) -> Option<usize>
    requires inside { p < length code.now }
    requires size { length code.now ≤ 1048576 }
    requires ascending { IsStrictlyIncreasing starts.now }
    requires cursor { IsCursor starts.now next p }
    ensures { IsLeast (IsSuspect (Contains starts.now) (code_bytes bits ip code.now) (part_of taken moved.now start) p) result }
{
    if p < taken {
        return None;
    }
    if is_at(starts, next, p) {
        return None;
    }
    passage_from(bits, ip, code, taken, moved, start, p)
}

/// The first offset after what is overwritten that is not in the list, which has ascending order, and from which control would enter what is
/// overwritten, and where.
fn first_suspect(
    bits: Bits,
    ip: u64,
    code: &[u8],
    taken: usize,
    moved: &[u32],
    start: StartRule,
    starts: &[u32],
) -> Option<Passage>
    requires size { length code.now ≤ 1048576 }
    requires ascending { IsStrictlyIncreasing starts.now }
    ensures { IsFirstPassage (IsSuspect (Contains starts.now) (code_bytes bits ip code.now) (part_of taken moved.now start)) result }
{
    let mut next = 0;
    'offsets: for p in 0..code.len() {
        if let Some(target) = suspect_from(bits, ip, code, taken, moved, start, starts, next, p) {
            return Some(Passage { from: p, target });
        }
        next = count_to(starts, next, p);
    }
    None
}

/// The first suspect, if sight is not whole.
pub(crate) fn suspect_by_sight(
    bits: Bits,
    ip: u64,
    code: &[u8],
    taken: usize,
    moved: &[u32],
    start: StartRule,
    starts: &[u32],
    sight: Sight,
) -> Option<Passage>
    requires size { length code.now ≤ 1048576 }
    requires ascending { IsStrictlyIncreasing starts.now }
    ensures { IsSuspected (Contains starts.now) (code_bytes bits ip code.now) (part_of taken moved.now start) sight result }
{
    match sight {
        Sight::Whole => None,
        Sight::Ends { .. } => first_suspect(bits, ip, code, taken, moved, start, starts),
    }
}
