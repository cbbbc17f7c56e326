//! Routines as text.

ghost use Rattle.std.specs.Prelude.{◌≡◌, ◌++◌, ◌≤◌, length, drop, IfOk};
ghost use Rattle.code_assembler.specs.Finished.{label_address};
ghost use Rattle.c_calls.specs.Numbers.{bits_numbered};
ghost use Rattle.c_calls.specs.Routines as spec;

use crate::buffers::write_front;
use crate::flat::{FlatLabel, FlatRoutine};
use crate::numbers::bits_numbered;
use crate::refusal::{Refusal, refusal_status};
use assembly_text::{AssembleError, LabelLine, LineError, Rules, assemble_code_by, label_lines};
use code_assembler::{Assembled, BuildError, FinishError};
use std::alloc::{AllocError, Global};
use x86_values::Bits;

/// What a text became, and its labels.
#[derive(Drop)]
pub(crate) struct TextRoutine {
    pub(crate) made: Assembled,
    pub(crate) labels: Vec<FlatLabel>,
}

/// Why a text became nothing.
#[derive(Clone, Copy)]
pub(crate) enum RoutineRefusal {
    /// The mode is none.
    Mode,
    /// The text has no bytes, for this cause.
    NoRoutine(AssembleError),
    /// A buffer is too small.
    Room,
}

/// A label with its address.
#[tactic(auto, unfolding(crate::specs::Routines::flat_label))]
fn flat_label(address: Option<u64>, label: &LabelLine) -> FlatLabel
    ensures { result ≡ spec.flat_label address label.now }
{
    FlatLabel {
        address: address.unwrap_or(0),
        offset: label.offset,
        len: label.len,
        line: label.line,
        has_address: u8::from(address.is_some()),
    }
}

/// The labels of a text, by what it became.
fn labels_of(alloc: Global, made: &Assembled, text: &[u8]) -> Result<Vec<FlatLabel>, AllocError>
    ensures { IfOk result (λ labels. labels.items ≡ spec.labels_of made.now text.now) }
{
    let lines = label_lines(alloc, text)?;
    let mut labels = Vec::with_capacity(alloc, lines.len())?;
    'each: for k in 0..lines.len() {
        labels.push(flat_label(made.address_at(k), &lines[k]))?;
    }
    Ok(labels)
}

/// Why a routine adds nothing, by the refusals of all calls.
fn build_refusal(why: BuildError) -> Refusal
    ensures { result ≡ spec.build_refusal why }
{
    match why {
        BuildError::Memory => Refusal::Memory,
        BuildError::TooMany => Refusal::TooMany,
        BuildError::Unknown { .. } => Refusal::Unknown,
        BuildError::PlacedTwice { .. } => Refusal::Twice,
        BuildError::NoTarget => Refusal::Text,
        BuildError::NotEncoded { why } => Refusal::Spelling { why, operand: 0 },
    }
}

/// Why a line adds nothing, by the refusals of all calls.
fn line_refusal(why: LineError) -> Refusal
    ensures { result ≡ spec.line_refusal why }
{
    match why {
        LineError::NotCode => Refusal::Text,
        LineError::SizeNeeded => Refusal::Size,
        LineError::NotData => Refusal::Data,
        LineError::UnknownName => Refusal::Unknown,
        LineError::Refused { why } => build_refusal(why),
        LineError::DoesNotFit => Refusal::Unfit,
        LineError::BadAlignment => Refusal::Alignment,
        LineError::BadLabel => Refusal::Label,
    }
}

/// Why a routine has no bytes, by the refusals of all calls.
fn finish_refusal(why: FinishError) -> Refusal
    ensures { result ≡ spec.finish_refusal why }
{
    match why {
        FinishError::Memory => Refusal::Memory,
        FinishError::Unplaced { .. } => Refusal::Unplaced,
        FinishError::Wraps { .. } => Refusal::Wraps,
        FinishError::TooFar { .. } => Refusal::TooFar,
    }
}

/// Why a text has no bytes, by the refusals of all calls.
fn text_refusal(why: AssembleError) -> Refusal
    ensures { result ≡ spec.text_refusal why }
{
    match why {
        AssembleError::NoMemory => Refusal::Memory,
        AssembleError::AtName { .. } => Refusal::NameLine,
        AssembleError::TooManyLabels => Refusal::Labels,
        AssembleError::AtLine { why, .. } => line_refusal(why),
        AssembleError::Unfinished { why, .. } => finish_refusal(why),
        AssembleError::Unsettled => Refusal::Unsettled,
    }
}

/// Why nothing is written, by the refusals of all calls.
fn routine_refusal(why: RoutineRefusal) -> Refusal
    ensures { result ≡ spec.routine_refusal why }
{
    match why {
        RoutineRefusal::Mode => Refusal::Mode,
        RoutineRefusal::NoRoutine(cause) => text_refusal(cause),
        RoutineRefusal::Room => Refusal::Room,
    }
}

/// No numbers.
const NOTHING: FlatRoutine = FlatRoutine {
    bytes: 0,
    slots: 0,
    labels: 0,
    line: 0,
    column: 0,
    at: 0,
    address: 0,
};

/// The numbers of why a routine has no bytes.
fn finish_report(why: FinishError) -> FlatRoutine
    ensures { result ≡ spec.finish_report why }
{
    match why {
        FinishError::Memory => NOTHING,
        FinishError::Unplaced { at } => FlatRoutine {
            at: at as u64,
            ..NOTHING
        },
        FinishError::Wraps { end } => FlatRoutine {
            address: (end % 0x1_0000_0000_0000_0000) as u64,
            ..NOTHING
        },
        FinishError::TooFar { at, target } => FlatRoutine {
            at,
            address: target,
            ..NOTHING
        },
    }
}

/// The numbers of why a text has no bytes.
fn text_report(why: AssembleError) -> FlatRoutine
    ensures { result ≡ spec.text_report why }
{
    match why {
        AssembleError::NoMemory | AssembleError::TooManyLabels | AssembleError::Unsettled => {
            NOTHING
        }
        AssembleError::AtName { number } => FlatRoutine {
            line: number,
            ..NOTHING
        },
        AssembleError::AtLine { number, column, .. } => FlatRoutine {
            line: number,
            column,
            ..NOTHING
        },
        AssembleError::Unfinished {
            number,
            column,
            why,
        } => FlatRoutine {
            line: number,
            column,
            ..finish_report(why)
        },
    }
}

/// The numbers of a refusal.
fn refusal_report(why: RoutineRefusal) -> FlatRoutine
    ensures { result ≡ spec.refusal_report why }
{
    match why {
        RoutineRefusal::NoRoutine(cause) => text_report(cause),
        _ => NOTHING,
    }
}

/// Returns the report of a result.
fn routine_report(answer: &Result<TextRoutine, RoutineRefusal>) -> FlatRoutine
    ensures { result ≡ spec.routine_report answer.now }
{
    match answer {
        Ok(routine) => FlatRoutine {
            bytes: routine.made.bytes().len() as u64,
            slots: routine.made.slots().len() as u64,
            labels: routine.labels.len() as u64,
            ..NOTHING
        },
        Err(why) => refusal_report(*why),
    }
}

/// What a text becomes by some rules, in a mode.
fn routine_in(
    alloc: Global,
    bits: Bits,
    base: u64,
    rules: &Rules<'_>,
    text: &[u8],
) -> Result<TextRoutine, RoutineRefusal>
    ensures { spec.IsRoutineIn rules.now.slots bits base rules.now.names.now text.now result }
{
    match assemble_code_by(alloc, bits, base, rules, text) {
        Ok(made) => match labels_of(alloc, &made, text) {
            Ok(labels) => Ok(TextRoutine { made, labels }),
            Err(_) => Err(RoutineRefusal::NoRoutine(AssembleError::NoMemory)),
        },
        Err(cause) => Err(RoutineRefusal::NoRoutine(cause)),
    }
}

/// What a text becomes by some rules, and the number of a mode.
fn routine_of(
    alloc: Global,
    bits: u32,
    base: u64,
    rules: &Rules<'_>,
    text: &[u8],
) -> Result<TextRoutine, RoutineRefusal>
    ensures { spec.IsRoutineAnswer rules.now.slots (bits_numbered bits) base rules.now.names.now text.now result }
{
    match bits_numbered(bits) {
        None => Err(RoutineRefusal::Mode),
        Some(bits) => routine_in(alloc, bits, base, rules, text),
    }
}

/// Writes labels to the start of a buffer.
fn write_labels(room: &mut [FlatLabel], labels: &[FlatLabel])
    requires { length labels.now ≤ length room.old }
    ensures { room.new ≡ labels.now ++ drop (length labels.now) room.old }
{
    room[..labels.len()].copy_from_slice(labels);
}

/// Writes the bytes and the labels, if both buffers are large enough.
#[tactic(auto, unfolding(crate::specs::Routines::routine_within))]
fn put_routine(
    answer: &Result<TextRoutine, RoutineRefusal>,
    code: &mut [u8],
    labels: &mut [FlatLabel],
) -> i32
    ensures said { result ≡ spec.routine_said (spec.routine_within (length code.old) (length labels.old) answer.now) }
    ensures bytes { code.new ≡ spec.bytes_left code.old (spec.routine_within (length code.old) (length labels.old) answer.now) }
    ensures labels { labels.new ≡ spec.labels_left labels.old (spec.routine_within (length code.old) (length labels.old) answer.now) }
{
    match answer {
        Ok(routine) => {
            let bytes = routine.made.bytes();
            if bytes.len() > code.len() || routine.labels.len() > labels.len() {
                return refusal_status(Refusal::Room);
            }
            write_front(code, bytes);
            write_labels(labels, &routine.labels);
            0
        }
        Err(why) => refusal_status(routine_refusal(*why)),
    }
}

/// Assembles a routine as text by some rules.
fn assemble_by(
    alloc: Global,
    bits: u32,
    base: u64,
    rules: &Rules<'_>,
    text: &[u8],
    code: &mut [u8],
    labels: &mut [FlatLabel],
    report: &mut FlatRoutine,
) -> i32
    ensures { spec.IsRoutineCallBy rules.now.slots bits base text.now rules.now.names.now code.old code.new labels.old labels.new report.new result }
{
    let answer = routine_of(alloc, bits, base, rules, text);
    *report = routine_report(&answer);
    put_routine(&answer, code, labels)
}

/// Assembles a routine as text at an address, with numbers for the caller's names: its bytes and its labels with their addresses.
pub fn assemble_code(
    alloc: Global,
    bits: u32,
    base: u64,
    text: &[u8],
    names: &[u8],
    code: &mut [u8],
    labels: &mut [FlatLabel],
    report: &mut FlatRoutine,
) -> i32
    ensures { spec.IsRoutineCall bits base text.now names.now code.old code.new labels.old labels.new report.new result }
{
    let rules = Rules { names, slots: true };
    assemble_by(alloc, bits, base, &rules, text, code, labels, report)
}

/// Assembles a routine as text as [`assemble_code`] does, without slots: a branch that would need one is refused.
pub fn assemble_code_near(
    alloc: Global,
    bits: u32,
    base: u64,
    text: &[u8],
    names: &[u8],
    code: &mut [u8],
    labels: &mut [FlatLabel],
    report: &mut FlatRoutine,
) -> i32
    ensures { spec.IsNearRoutineCall bits base text.now names.now code.old code.new labels.old labels.new report.new result }
{
    let rules = Rules {
        names,
        slots: false,
    };
    assemble_by(alloc, bits, base, &rules, text, code, labels, report)
}
