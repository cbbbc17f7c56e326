//! The code of a single step: an instruction at another place, and the jump back to what followed it.

ghost use Rattle.std.specs.Prelude.{◌≡◌, length, IfOk, Err};
ghost use Rattle.move_goals.specs.Items.{IsPlaced};
ghost use Rattle.c_calls.specs.Answers as answers;
ghost use Rattle.c_calls.specs.Numbers.{bits_numbered};
ghost use Rattle.c_calls.specs.Steps as spec;

use crate::buffers::{count_answer, put_bytes};
use crate::flat::FlatStep;
use crate::numbers::bits_numbered;
use crate::refusal::{Refusal, refusal_status};
use block_encoder::{Moved, Placed};
use decoder::{DecodeError, decode_in};
use std::alloc::Global;
use step_slots::{StandError, done_len, step_at};
use x86_values::Bits;

/// The code of a step, how many bytes its instruction had, and how many bytes of the code have run when that has happened.
#[derive(Drop)]
pub(crate) struct StepCode {
    pub(crate) moved: Moved,
    pub(crate) len: u8,
    pub(crate) done: u8,
}

/// Why there is no code of a step.
#[derive(Clone, Copy)]
pub(crate) enum StepRefusal {
    /// The mode is none.
    Mode,
    /// No instruction is read.
    BadCode(DecodeError),
    /// The instruction has no code at the place.
    NotStood(StandError),
}

/// Why no instruction is read, by the refusals of all calls.
pub(crate) fn code_refusal(why: DecodeError) -> Refusal
    ensures { result ≡ spec.code_refusal why }
{
    match why {
        DecodeError::Invalid => Refusal::Invalid,
        DecodeError::TooShort => Refusal::TooShort,
    }
}

/// Why there is no code of a step, by the refusals of all calls.
fn step_refusal(why: StepRefusal) -> Refusal
    ensures { result ≡ spec.step_refusal why }
{
    match why {
        StepRefusal::Mode => Refusal::Mode,
        StepRefusal::BadCode(why) => code_refusal(why),
        StepRefusal::NotStood(why) => match why {
            StandError::Memory => Refusal::Memory,
            StandError::Wraps { .. } => Refusal::Wraps,
            StandError::TooFar { .. } => Refusal::TooFar,
        },
    }
}

/// The instruction at the front of some bytes, with its address.
pub(crate) fn item_in(bits: Bits, ip: u64, bytes: &[u8]) -> Result<Placed, DecodeError>
    ensures answer { spec.IsItem bits ip bytes.now result }
    ensures placed { IfOk result (λ item. IsPlaced bits item) }
{
    match decode_in(bits, ip, bytes) {
        Ok(decoded) => Ok(Placed {
            ip,
            len: decoded.len,
            instr: decoded.instr,
        }),
        Err(why) => Err(why),
    }
}

/// The code of a step, in a mode.
fn step_in(
    alloc: Global,
    bits: Bits,
    ip: u64,
    bytes: &[u8],
    place: u64,
) -> Result<StepCode, StepRefusal>
    ensures { spec.IsStepCodeIn bits ip bytes.now place result }
{
    match item_in(bits, ip, bytes) {
        Ok(item) => match step_at(alloc, bits, item, place) {
            Ok(moved) => {
                let done = done_len(bits, &item, &moved);
                Ok(StepCode {
                    moved,
                    len: item.len,
                    done,
                })
            }
            Err(why) => Err(StepRefusal::NotStood(why)),
        },
        Err(why) => Err(StepRefusal::BadCode(why)),
    }
}

/// The code of a step.
fn step_code(
    alloc: Global,
    bits: u32,
    ip: u64,
    bytes: &[u8],
    place: u64,
) -> Result<StepCode, StepRefusal>
    ensures { spec.IsStepCode (bits_numbered bits) ip bytes.now place result }
{
    match bits_numbered(bits) {
        None => Err(StepRefusal::Mode),
        Some(bits) => step_in(alloc, bits, ip, bytes, place),
    }
}

/// No numbers.
pub(crate) const NOTHING: FlatStep = FlatStep {
    bytes: 0,
    back_at: 0,
    address: 0,
    len: 0,
    done_at: 0,
};

/// The offset of the jump back, in the code at a place.
fn back_offset(moved: &Moved, place: u64) -> u64
    requires { length moved.now.starts ≡ 2 }
    ensures { result ≡ spec.back_offset moved.now place }
{
    moved.starts()[1].saturating_sub(place)
}

/// The numbers of a refusal.
fn refusal_report(why: StepRefusal) -> FlatStep
    ensures { result ≡ spec.refusal_report why }
{
    match why {
        StepRefusal::NotStood(StandError::Wraps { end }) => FlatStep {
            address: (end % 0x1_0000_0000_0000_0000) as u64,
            ..NOTHING
        },
        StepRefusal::NotStood(StandError::TooFar { target }) => FlatStep {
            address: target,
            ..NOTHING
        },
        _ => NOTHING,
    }
}

/// Returns the report of a result for a place.
fn report_of(answer: &Result<StepCode, StepRefusal>, place: u64) -> FlatStep
    requires { IfOk answer.now (λ code. spec.IsShortStep code) }
    ensures { result ≡ spec.step_report place answer.now }
{
    match answer {
        Ok(code) => FlatStep {
            bytes: code.moved.bytes().len() as u64,
            back_at: back_offset(&code.moved, place),
            len: code.len,
            done_at: code.done,
            ..NOTHING
        },
        Err(why) => refusal_report(*why),
    }
}

/// Writes the code if the buffer is large enough, and returns its length in bytes.
#[tactic(auto, unfolding(crate::specs::Answers::bytes_within))]
fn put_step(answer: &Result<StepCode, StepRefusal>, out: &mut [u8]) -> i32
    requires { IfOk answer.now (λ code. spec.IsShortStep code) }
    ensures said { result ≡ answers.count_or_refusal (answers.bytes_within (length out.old) (spec.step_bytes answer.now)) }
    ensures left { out.new ≡ answers.with_bytes out.old (answers.bytes_within (length out.old) (spec.step_bytes answer.now)) }
{
    match answer {
        Ok(code) => put_bytes(out, code.moved.bytes()),
        Err(why) => refusal_status(step_refusal(*why)),
    }
}

/// Writes code that executes, at another address, the instruction at the front of some bytes. Returns the length of that code in bytes.
pub fn step(
    alloc: Global,
    bits: u32,
    ip: u64,
    bytes: &[u8],
    place: u64,
    out: &mut [u8],
    report: &mut FlatStep,
) -> i32
    ensures { spec.IsStep bits ip bytes.now place out.old out.new report.new result }
{
    let answer = step_code(alloc, bits, ip, bytes, place);
    *report = report_of(&answer, place);
    put_step(&answer, out)
}

/// How many bytes are reserved for such code, in a mode.
fn step_len_in(bits: Bits, ip: u64, bytes: &[u8], base: u64) -> i32
    ensures { spec.IsStepLenIn bits ip bytes.now base result }
{
    match item_in(bits, ip, bytes) {
        Ok(item) => count_answer(step_slots::step_len(bits, item, base) as usize),
        Err(why) => refusal_status(code_refusal(why)),
    }
}

/// Returns an upper bound, in bytes, for the code that [`step`] writes for an instruction at any address that is a multiple of 16 bytes after a base.
pub fn step_len(bits: u32, ip: u64, bytes: &[u8], base: u64) -> i32
    ensures { spec.IsStepLen (bits_numbered bits) ip bytes.now base result }
{
    match bits_numbered(bits) {
        None => refusal_status(Refusal::Mode),
        Some(bits) => step_len_in(bits, ip, bytes, base),
    }
}
