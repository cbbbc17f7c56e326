//! Where sight ends.

ghost use Rattle.std.specs.Prelude.{◌≡◌, ◌<◌, ◌≤◌, ℕ, length, slice_index};
ghost use Rattle.std.specs.List.{All, Contains};
ghost use Rattle.std.specs.List.Sorted.{IsStrictlyIncreasing};
ghost use Rattle.flow_graph.specs.Control.{code_bytes};
ghost use Rattle.flow_graph.specs.Told.{Tells, told_at};
ghost use Rattle.flow_graph.specs.HookSight.Sight as spec;
ghost use Rattle.flow_graph.specs.HookSight.Sight.{IsEndAt, IsSight};

use crate::hook_sight::answers::{Sight, SightEnd};
use crate::{exits_at, goes_on};
use decoder::DecodeError;
use decoder::reading_laws::bytes_have_one_reading;
use operand_info::Flow;
use x86_values::Bits;

/// Whether an instruction with this flow jumps to an address in a register or in memory.
#[tactic(auto, unfolding(crate::specs::HookSight::Sight::is_indirect_jump))]
fn is_indirect_jump(flow: Flow) -> bool
    ensures { result ≡ spec.is_indirect_jump flow }
{
    match flow {
        Flow::IndirectBranch => true,
        Flow::Next
        | Flow::UnconditionalBranch
        | Flow::ConditionalBranch
        | Flow::Return
        | Flow::Call
        | Flow::IndirectCall
        | Flow::Interrupt
        | Flow::Exception => false,
    }
}

/// Why sight ends at an instruction with this flow, if it does. `next` is the length of the instruction if control goes to its end and the code has a
/// byte there, else 0.
fn end_by_flow(flow: Flow, next: u8) -> Option<SightEnd>
    ensures { result ≡ spec.end_by_flow flow next }
{
    if is_indirect_jump(flow) {
        return Some(SightEnd::IndirectJump);
    }
    if goes_on(flow) && next == 0 {
        Some(SightEnd::Ended)
    } else {
        None
    }
}

/// Why sight ends where this is read, if it does.
fn end_by_told(told: Result<Flow, DecodeError>, next: u8) -> Option<SightEnd>
    ensures { result ≡ spec.end_by_told told next }
{
    match told {
        Ok(flow) => end_by_flow(flow, next),
        Err(DecodeError::Invalid) => Some(SightEnd::NotRead),
        Err(DecodeError::TooShort) => Some(SightEnd::Ended),
    }
}

/// Why sight ends at an offset of some code, if it does.
fn end_at(
    bits: Bits,
    ip: u64,
    code: &[u8],
    p: usize,
    told: Result<Flow, DecodeError>,
) -> Option<SightEnd>
    requires inside { p < length code.now }
    requires size { length code.now ≤ 1048576 }
    requires told { Tells (code_bytes bits ip code.now) p told }
    ensures { IsEndAt (code_bytes bits ip code.now) p result }
{
    bytes_have_one_reading();
    let exits = exits_at(bits, ip, code, p);
    end_by_told(told, exits.next)
}

/// The first of some offsets at which sight ends, given in ascending order with what is read there.
pub(crate) fn first_end(
    bits: Bits,
    ip: u64,
    code: &[u8],
    starts: &[u32],
    flows: &[Result<Flow, DecodeError>],
) -> Sight
    requires size { length code.now ≤ 1048576 }
    requires inside { All (λ p. p < length code.now) starts.now }
    requires ascending { IsStrictlyIncreasing starts.now }
    requires each { length flows.now ≡ length starts.now }
    requires told { (k : ℕ) → k < length starts.now → Tells (code_bytes bits ip code.now) (slice_index starts.now k) (told_at flows.now k) }
    ensures { IsSight (Contains starts.now) (code_bytes bits ip code.now) result }
{
    'places: for k in 0..starts.len() {
        let at = starts[k] as usize;
        if let Some(why) = end_at(bits, ip, code, at, flows[k]) {
            return Sight::Ends { at, why };
        }
    }
    Sight::Whole
}
