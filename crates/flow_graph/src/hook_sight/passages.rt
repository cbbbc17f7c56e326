//! Whether control goes into what is overwritten.

ghost use Rattle.std.specs.Prelude.{◌≡◌, ◌<◌, ◌≤◌, ◌↔◌, ℕ, length, IsTrue};
ghost use Rattle.std.specs.List.{All, Contains};
ghost use Rattle.std.specs.List.Sorted.{IsStrictlyIncreasing};
ghost use Rattle.flow_graph.specs.Control.{code_bytes};
ghost use Rattle.flow_graph.specs.HookSight.Entries as spec;
ghost use Rattle.flow_graph.specs.HookSight.Entries.{part_of, IsCallAt, GoesInside, GoesBack, IsEntry, IsEntryOf, IsPassage, IsLeast, IsFirstPassage, Enters, IsInside};

use crate::exits_at;
use crate::hook_sight::answers::{Passage, StartRule};
use decoder::read_at;
use decoder::reading_laws::bytes_have_one_reading;
use operand_info::laws::well_formed_codes_are_in_the_table;
use operand_info::{Flow, flow_of};
use x86_values::Bits;

/// Whether an offset is one of some.
fn is_among(offsets: &[u32], q: usize) -> bool
    ensures { IsTrue result ↔ Contains offsets.now q }
{
    'places: for k in 0..offsets.len() {
        if offsets[k] as usize == q {
            return true;
        }
    }
    false
}

/// Whether an instruction with this flow is a call that names its target.
#[tactic(auto, unfolding(crate::specs::HookSight::Entries::is_call))]
fn is_call(flow: Flow) -> bool
    ensures { result ≡ spec.is_call flow }
{
    match flow {
        Flow::Call => true,
        Flow::Next
        | Flow::UnconditionalBranch
        | Flow::IndirectBranch
        | Flow::ConditionalBranch
        | Flow::Return
        | Flow::IndirectCall
        | Flow::Interrupt
        | Flow::Exception => false,
    }
}

/// Whether a call that names its target is read at an offset of some code.
fn is_call_at(bits: Bits, ip: u64, code: &[u8], p: usize) -> bool
    requires inside { p < length code.now }
    ensures { IsTrue result ↔ IsCallAt (code_bytes bits ip code.now) p }
{
    bytes_have_one_reading();
    well_formed_codes_are_in_the_table();
    match read_at(bits, ip, p, &code[p..]) {
        Ok(decoded) => is_call(flow_of(decoded.instr.code)),
        Err(_) => false,
    }
}

/// Whether control that goes from an offset to another one goes into what is overwritten, after its first byte.
fn goes_inside(taken: usize, moved: &[u32], p: usize, q: usize) -> bool
    ensures { IsTrue result ↔ GoesInside taken moved.now p q }
{
    if q == 0 || q >= taken {
        return false;
    }
    if p >= taken {
        return true;
    }
    is_among(moved, p) && !is_among(moved, q)
}

/// Whether control that goes from an offset to another one goes back to the start, where that is closed to it.
fn goes_back(
    bits: Bits,
    ip: u64,
    code: &[u8],
    taken: usize,
    start: StartRule,
    p: usize,
    q: usize,
) -> bool
    requires inside { p < length code.now }
    ensures { IsTrue result ↔ GoesBack (code_bytes bits ip code.now) taken start p q }
{
    if q != 0 || p < taken {
        return false;
    }
    match start {
        StartRule::Open => false,
        StartRule::Closed => !is_call_at(bits, ip, code, p),
    }
}

/// Whether control that goes from an offset to another one enters what is overwritten.
fn is_entry(
    bits: Bits,
    ip: u64,
    code: &[u8],
    taken: usize,
    moved: &[u32],
    start: StartRule,
    p: usize,
    q: usize,
) -> bool
    requires inside { p < length code.now }
    ensures { IsTrue result ↔ IsEntry (code_bytes bits ip code.now) (part_of taken moved.now start) p q }
{
    goes_inside(taken, moved, p, q) || goes_back(bits, ip, code, taken, start, p, q)
}

/// The offset to which control may go from another one, if it goes to one and so enters what is overwritten.
fn entry_of(
    bits: Bits,
    ip: u64,
    code: &[u8],
    taken: usize,
    moved: &[u32],
    start: StartRule,
    p: usize,
    to: Option<usize>,
) -> Option<usize>
    requires inside { p < length code.now }
    ensures { IsEntryOf (code_bytes bits ip code.now) (part_of taken moved.now start) p to result }
{
    match to {
        None => None,
        Some(q) => {
            if is_entry(bits, ip, code, taken, moved, start, p, q) {
                Some(q)
            } else {
                None
            }
        }
    }
}

/// The end of an instruction of so many bytes at an offset; none for no bytes.
fn end_exit(p: usize, next: u8) -> Option<usize>
    requires { p ≤ 1048576 }
    ensures { result ≡ spec.end_exit p next }
{
    if next > 0 {
        Some(p + usize::from(next))
    } else {
        None
    }
}

/// The lesser of two offsets, as far as they are there.
fn lesser(a: Option<usize>, b: Option<usize>) -> Option<usize>
    ensures { result ≡ spec.lesser a b }
{
    match a {
        None => b,
        Some(x) => match b {
            None => Some(x),
            Some(y) => { if y < x { Some(y) } else { Some(x) } }
        },
    }
}

/// The least offset to which control goes from an offset of some code and so enters what is overwritten, if there is one.
pub(crate) fn passage_from(
    bits: Bits,
    ip: u64,
    code: &[u8],
    taken: usize,
    moved: &[u32],
    start: StartRule,
    p: usize,
) -> Option<usize>
    requires inside { p < length code.now }
    requires size { length code.now ≤ 1048576 }
    ensures { IsLeast (IsPassage (code_bytes bits ip code.now) (part_of taken moved.now start) p) result }
{
    let exits = exits_at(bits, ip, code, p);
    let end = entry_of(
        bits,
        ip,
        code,
        taken,
        moved,
        start,
        p,
        end_exit(p, exits.next),
    );
    let target = entry_of(bits, ip, code, taken, moved, start, p, exits.target);
    lesser(end, target)
}

/// The first of some offsets, given in ascending order, from which control enters what is overwritten, and where.
pub(crate) fn first_passage(
    bits: Bits,
    ip: u64,
    code: &[u8],
    taken: usize,
    moved: &[u32],
    start: StartRule,
    starts: &[u32],
) -> Option<Passage>
    requires size { length code.now ≤ 1048576 }
    requires inside { All (λ p. p < length code.now) starts.now }
    requires ascending { IsStrictlyIncreasing starts.now }
    ensures { IsFirstPassage (Enters (Contains starts.now) (code_bytes bits ip code.now) (part_of taken moved.now start)) result }
{
    'places: for k in 0..starts.len() {
        let from = starts[k] as usize;
        if let Some(target) = passage_from(bits, ip, code, taken, moved, start, from) {
            return Some(Passage { from, target });
        }
    }
    None
}

/// The entry at a place of the list, if it lies within what is overwritten, after its first byte, and the code has a byte there.
fn inside_at(entries: &[u32], taken: usize, count: usize, k: usize) -> Option<usize>
    requires { k < length entries.now }
    ensures { spec.IsInsideAt entries.now taken count k result }
{
    let entry = entries[k] as usize;
    if 0 < entry && entry < taken && entry < count {
        Some(entry)
    } else {
        None
    }
}

/// The least entry within what is overwritten, after its first byte, at which the code has a byte.
pub(crate) fn first_inside(entries: &[u32], taken: usize, count: usize) -> Option<usize>
    ensures { IsLeast (IsInside entries.now taken count) result }
{
    let mut first = None;
    'places: for k in 0..entries.len() {
        first = lesser(first, inside_at(entries, taken, count, k));
    }
    first
}
