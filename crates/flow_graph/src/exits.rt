//! Where control goes after an instruction.

ghost use Rattle.std.specs.Prelude.{◌≡◌, ◌+◌, ◌<◌, ◌≤◌, length, Some, Err, IsTrue, IfSome};
ghost use Rattle.decoder.specs.Answer.{reading_of};
ghost use Rattle.opcode_rows.specs.Allowed.{is_well_formed};
ghost use Rattle.flow_graph.specs.Control as control;
ghost use Rattle.flow_graph.specs.Control.{code_bytes, code_bytes_with, IsReadIn};
ghost use Rattle.flow_graph.specs.Exits as spec;
ghost use Rattle.flow_graph.specs.Exits.{AreExits};
ghost use Rattle.flow_graph.specs.Told.{Tells};
ghost use Rattle.operand_info.specs.ByCode as columns;

use decoder::reading_laws::bytes_have_one_reading;
use decoder::{DecodeError, read_at};
use operand_info::laws::well_formed_codes_are_in_the_table;
use operand_info::{Flow, flow_of, near_target};
use plain_spelling::numbers::distance;
use unlisted::laws::answers_are_unique;
use unlisted::{Reference, Relative, Shape, measure};
use x86_values::{Bits, Decoded, Instr, wrap};

/// Which instructions control is followed through.
#[derive(Clone, Copy, PartialEq, Eq, Debug)]
pub enum Follow {
    /// Those of the table. Control goes nowhere from a byte at which none of them starts.
    Listed,
    /// Those of the table, and those without a row as far as [`measure`] returns their shape. Control goes to the end of such an instruction, and from
    /// XBEGIN also to its target, where an aborted transaction continues.
    Unlisted,
}

/// Where control goes after an instruction, as far as the code has bytes.
#[derive(Clone, Copy)]
pub struct Exits {
    /// The length of the instruction if control goes to its end, else 0.
    pub next: u8,
    /// The offset of its target, if that is not its end.
    pub target: Option<usize>,
}

/// What is read at an offset.
#[derive(Clone, Copy)]
pub(crate) struct Stop {
    /// The flow of the instruction, or why none is read.
    pub(crate) flow: Result<Flow, DecodeError>,
    pub(crate) exits: Exits,
}

/// Returns whether control can continue after an instruction with this flow. It cannot after a jump, a return or an undefined instruction.
#[tactic(auto, unfolding(crate::specs::Control::goes_on))]
pub fn goes_on(flow: Flow) -> bool
    ensures { result ≡ control.goes_on flow }
{
    match flow {
        Flow::Next | Flow::ConditionalBranch | Flow::Call | Flow::IndirectCall | Flow::Interrupt =>
            true,
        Flow::UnconditionalBranch | Flow::IndirectBranch | Flow::Return | Flow::Exception => false,
    }
}

/// Whether control may go to the near target of an instruction.
#[tactic(auto, unfolding(crate::specs::Control::goes_to_target))]
fn goes_to_target(flow: Flow) -> bool
    ensures { result ≡ control.goes_to_target flow }
{
    match flow {
        Flow::UnconditionalBranch | Flow::ConditionalBranch | Flow::Call => true,
        Flow::Next
        | Flow::IndirectBranch
        | Flow::Return
        | Flow::IndirectCall
        | Flow::Interrupt
        | Flow::Exception => false,
    }
}

/// How far the target to which control may go follows the first byte.
#[tactic(auto, unfolding(crate::specs::Exits::target_offset))]
fn target_offset(bits: Bits, base: u64, flow: Flow, instr: &Instr) -> Option<u64>
    ensures { result ≡ spec.target_offset bits base flow instr.now }
{
    if goes_to_target(flow) {
        match near_target(instr) {
            Some(target) => Some(distance(bits, base, target)),
            None => None,
        }
    } else {
        None
    }
}

/// Returns the length of an instruction if control goes to its end, and that lies inside the code.
#[tactic(auto, unfolding(crate::specs::Exits::next_exit))]
fn next_exit(goes_on: bool, target: Option<u64>, end: usize, len: u8, count: usize) -> u8
    ensures value { result ≡ spec.next_exit goes_on target end len count }
    ensures short { result ≤ len }
{
    let is_target = match target {
        Some(target) => target == end as u64,
        None => false,
    };
    if (goes_on || is_target) && end < count {
        len
    } else {
        0
    }
}

/// Returns the target if it is not the end of the instruction and lies inside the code.
#[tactic(auto, unfolding(crate::specs::Exits::target_exit))]
fn target_exit(target: Option<u64>, end: usize, count: usize) -> Option<usize>
    ensures value { result ≡ spec.target_exit target end count }
    ensures inside { IfSome result (λ q. q < count) }
{
    match target {
        Some(target) if target != end as u64 && target < count as u64 => Some(target as usize),
        _ => None,
    }
}

/// Returns where control goes from an instruction at an offset.
fn exits_of(
    bits: Bits,
    base: u64,
    bytes: &[u8],
    offset: usize,
    flow: Flow,
    decoded: &Decoded,
) -> Exits
    requires inside { offset < length bytes.now }
    requires few { length bytes.now ≤ 16777216 }
    requires flow { flow ≡ columns.flow_of decoded.now.instr.code.0 }
    ensures value { result ≡ spec.exits_of (code_bytes bits base bytes.now) offset decoded.now }
    ensures short { result.next ≤ decoded.now.len }
    ensures inside { IfSome result.target (λ q. q < length bytes.now) }
{
    let end = offset + usize::from(decoded.len);
    let target = target_offset(bits, base, flow, &decoded.instr);
    Exits {
        next: next_exit(goes_on(flow), target, end, decoded.len, bytes.len()),
        target: target_exit(target, end, bytes.len()),
    }
}

/// The flow of an instruction without a row, by its relative number. XBEGIN continues at its end, or after an abort at its target.
#[tactic(auto, unfolding(crate::specs::Control::shape_flow))]
fn shape_flow(relative: Option<Relative>) -> Flow
    ensures { result ≡ control.shape_flow relative }
{
    match relative {
        Some(relative) => match relative.to {
            Reference::Branch => Flow::ConditionalBranch,
            Reference::Rip | Reference::Eip => Flow::Next,
        },
        None => Flow::Next,
    }
}

/// How far the target of an instruction without a row, to which control may go, follows the first byte.
#[tactic(auto, unfolding(crate::specs::Exits::shape_target))]
fn shape_target(bits: Bits, base: u64, offset: usize, shape: &Shape) -> Option<u64>
    ensures { result ≡ spec.shape_target bits base offset shape.now }
{
    if goes_to_target(shape_flow(shape.relative)) {
        let ip = wrap(bits, u128::from(base) + offset as u128);
        match unlisted::target(bits, ip, shape) {
            Some(target) => Some(distance(bits, base, target)),
            None => None,
        }
    } else {
        None
    }
}

/// Returns where control goes from an instruction without a row at an offset.
fn exits_of_shape(bits: Bits, base: u64, bytes: &[u8], offset: usize, shape: &Shape) -> Exits
    requires inside { offset < length bytes.now }
    requires few { length bytes.now ≤ 16777216 }
    ensures value { result ≡ spec.exits_of_shape (code_bytes bits base bytes.now) offset shape.now }
    ensures short { result.next ≤ shape.now.len }
    ensures inside { IfSome result.target (λ q. q < length bytes.now) }
{
    let end = offset + usize::from(shape.len);
    let goal = shape_target(bits, base, offset, shape);
    Exits {
        next: next_exit(true, goal, end, shape.len, bytes.len()),
        target: target_exit(goal, end, bytes.len()),
    }
}

/// What is read at an offset from which control goes nowhere.
fn dead_end(error: DecodeError) -> Stop
    ensures flow { result.flow ≡ Err error }
    ensures exits { result.exits ≡ spec.no_exits }
{
    Stop {
        flow: Err(error),
        exits: Exits {
            next: 0,
            target: None,
        },
    }
}

/// Returns what stands at an offset at which the table reads nothing, where instructions without a row are followed.
fn measured_stop(bits: Bits, base: u64, bytes: &[u8], offset: usize, error: DecodeError) -> Stop
    requires inside { offset < length bytes.now }
    requires few { length bytes.now ≤ 16777216 }
    requires reads { IsReadIn (code_bytes bits base bytes.now) offset (reading_of (Err error)) }
    ensures told { Tells (code_bytes_with Follow.Unlisted bits base bytes.now) offset result.flow }
    ensures exits { AreExits (code_bytes_with Follow.Unlisted bits base bytes.now) offset result.exits }
    ensures short { result.exits.next ≤ 15 }
    ensures inside { IfSome result.exits.target (λ q. q < length bytes.now) }
{
    bytes_have_one_reading();
    answers_are_unique();
    match measure(bits, &bytes[offset..]) {
        Ok(shape) => Stop {
            flow: Ok(shape_flow(shape.relative)),
            exits: exits_of_shape(bits, base, bytes, offset, &shape),
        },
        Err(_) => dead_end(error),
    }
}

/// Returns what stands at an offset at which the table reads nothing.
fn unread_stop(
    follow: Follow,
    bits: Bits,
    base: u64,
    bytes: &[u8],
    offset: usize,
    error: DecodeError,
) -> Stop
    requires inside { offset < length bytes.now }
    requires few { length bytes.now ≤ 16777216 }
    requires reads { IsReadIn (code_bytes bits base bytes.now) offset (reading_of (Err error)) }
    ensures told { Tells (code_bytes_with follow bits base bytes.now) offset result.flow }
    ensures exits { AreExits (code_bytes_with follow bits base bytes.now) offset result.exits }
    ensures short { result.exits.next ≤ 15 }
    ensures inside { IfSome result.exits.target (λ q. q < length bytes.now) }
{
    bytes_have_one_reading();
    match follow {
        Follow::Listed => dead_end(error),
        Follow::Unlisted => measured_stop(bits, base, bytes, offset, error),
    }
}

/// Returns what starts at an offset, and where control goes from it.
pub(crate) fn stop_at(follow: Follow, bits: Bits, base: u64, bytes: &[u8], offset: usize) -> Stop
    requires inside { offset < length bytes.now }
    requires few { length bytes.now ≤ 16777216 }
    ensures told { Tells (code_bytes_with follow bits base bytes.now) offset result.flow }
    ensures exits { AreExits (code_bytes_with follow bits base bytes.now) offset result.exits }
    ensures short { result.exits.next ≤ 15 }
    ensures inside { IfSome result.exits.target (λ q. q < length bytes.now) }
{
    bytes_have_one_reading();
    well_formed_codes_are_in_the_table();
    match read_at(bits, base, offset, &bytes[offset..]) {
        Ok(decoded) => {
            let flow = flow_of(decoded.instr.code);
            Stop {
                flow: Ok(flow),
                exits: exits_of(bits, base, bytes, offset, flow, &decoded),
            }
        }
        Err(error) => unread_stop(follow, bits, base, bytes, offset, error),
    }
}

/// Returns where control goes from the instruction at an offset of some code: to its end, to its near target, to both, or nowhere, as far as the code
/// has bytes. It goes nowhere if no instruction starts there.
///
/// `base` is the address of the first byte. Addresses wrap at the address size of the mode.
pub fn exits_at(bits: Bits, base: u64, bytes: &[u8], offset: usize) -> Exits
    requires inside { offset < length bytes.now }
    requires few { length bytes.now ≤ 1048576 }
    ensures exits { AreExits (code_bytes bits base bytes.now) offset result }
    ensures short { result.next ≤ 15 }
    ensures inside { IfSome result.target (λ q. q < length bytes.now) }
{
    stop_at(Follow::Listed, bits, base, bytes, offset).exits
}

/// Returns where control goes from the instruction at an offset of some code like [`exits_at`], also from those that `follow` names: from one without a
/// row to its end, and from XBEGIN to its target too.
pub fn exits_following(follow: Follow, bits: Bits, base: u64, bytes: &[u8], offset: usize) -> Exits
    requires inside { offset < length bytes.now }
    requires few { length bytes.now ≤ 1048576 }
    ensures exits { AreExits (code_bytes_with follow bits base bytes.now) offset result }
    ensures short { result.next ≤ 15 }
    ensures inside { IfSome result.target (λ q. q < length bytes.now) }
{
    stop_at(follow, bits, base, bytes, offset).exits
}
