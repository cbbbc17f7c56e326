//! The code of a single step of a CALL that pushes the CALL's own return address.

ghost use Rattle.std.specs.Prelude.{◌≡◌, length, IfOk};
ghost use Rattle.c_calls.specs.Answers as answers;
ghost use Rattle.c_calls.specs.Numbers.{bits_numbered};
ghost use Rattle.c_calls.specs.StepCalls as spec;

use crate::buffers::put_bytes;
use crate::flat::FlatStep;
use crate::numbers::bits_numbered;
use crate::refusal::{Refusal, refusal_status};
use crate::stepping::{NOTHING, code_refusal, item_in};
use block_encoder::Moved;
use decoder::DecodeError;
use std::alloc::Global;
use step_slots::{CallError, pushed_len, step_call_at};
use x86_values::Bits;

/// The code of a CALL, how many bytes the CALL had, and how many bytes its PUSH has.
#[derive(Drop)]
pub(crate) struct CallCode {
    pub(crate) moved: Moved,
    pub(crate) len: u8,
    pub(crate) done: u8,
}

/// Why there is no code of a CALL.
#[derive(Clone, Copy)]
pub(crate) enum CallRefusal {
    /// The mode is none.
    Mode,
    /// No instruction is read.
    BadCode(DecodeError),
    /// The instruction is no such CALL, or has no code at the place.
    NotStood(CallError),
}

/// Why there is no code of a CALL, by the refusals of all calls.
fn call_refusal(why: CallRefusal) -> Refusal
    ensures { result ≡ spec.call_refusal why }
{
    match why {
        CallRefusal::Mode => Refusal::Mode,
        CallRefusal::BadCode(why) => code_refusal(why),
        CallRefusal::NotStood(why) => match why {
            CallError::Memory => Refusal::Memory,
            CallError::NotPushed => Refusal::Form,
            CallError::Wraps { .. } => Refusal::Wraps,
            CallError::TooFar { .. } => Refusal::TooFar,
        },
    }
}

/// The code of a CALL, in a mode.
fn call_in(
    alloc: Global,
    bits: Bits,
    ip: u64,
    bytes: &[u8],
    place: u64,
) -> Result<CallCode, CallRefusal>
    ensures { spec.IsCallCodeIn bits ip bytes.now place result }
{
    match item_in(bits, ip, bytes) {
        Ok(item) => match step_call_at(alloc, bits, item, place) {
            Ok(moved) => Ok(CallCode {
                moved,
                len: item.len,
                done: pushed_len(bits),
            }),
            Err(why) => Err(CallRefusal::NotStood(why)),
        },
        Err(why) => Err(CallRefusal::BadCode(why)),
    }
}

/// The code of a CALL.
fn call_code(
    alloc: Global,
    bits: u32,
    ip: u64,
    bytes: &[u8],
    place: u64,
) -> Result<CallCode, CallRefusal>
    ensures { spec.IsCallCode (bits_numbered bits) ip bytes.now place result }
{
    match bits_numbered(bits) {
        None => Err(CallRefusal::Mode),
        Some(bits) => call_in(alloc, bits, ip, bytes, place),
    }
}

/// The numbers of a refusal.
fn refusal_report(why: CallRefusal) -> FlatStep
    ensures { result ≡ spec.refusal_report why }
{
    match why {
        CallRefusal::NotStood(CallError::Wraps { end }) => FlatStep {
            address: (end % 0x1_0000_0000_0000_0000) as u64,
            ..NOTHING
        },
        CallRefusal::NotStood(CallError::TooFar { target }) => FlatStep {
            address: target,
            ..NOTHING
        },
        _ => NOTHING,
    }
}

/// Returns the report of a result. There is no jump back.
fn report_of(answer: &Result<CallCode, CallRefusal>) -> FlatStep
    requires { IfOk answer.now (λ code. spec.IsShortCall code) }
    ensures { result ≡ spec.call_report answer.now }
{
    match answer {
        Ok(code) => FlatStep {
            bytes: code.moved.bytes().len() as u64,
            len: code.len,
            done_at: code.done,
            ..NOTHING
        },
        Err(why) => refusal_report(*why),
    }
}

/// Writes the code if the buffer is large enough, and returns its length in bytes.
#[tactic(auto, unfolding(crate::specs::Answers::bytes_within))]
fn put_call(answer: &Result<CallCode, CallRefusal>, out: &mut [u8]) -> i32
    requires { IfOk answer.now (λ code. spec.IsShortCall code) }
    ensures said { result ≡ answers.count_or_refusal (answers.bytes_within (length out.old) (spec.call_bytes answer.now)) }
    ensures left { out.new ≡ answers.with_bytes out.old (answers.bytes_within (length out.old) (spec.call_bytes answer.now)) }
{
    match answer {
        Ok(code) => put_bytes(out, code.moved.bytes()),
        Err(why) => refusal_status(call_refusal(*why)),
    }
}

/// Writes code that executes, at another address, the near CALL at the front of some bytes, and pushes the return address of the CALL where it stood.
/// Returns the length of that code in bytes.
pub fn step_call(
    alloc: Global,
    bits: u32,
    ip: u64,
    bytes: &[u8],
    place: u64,
    out: &mut [u8],
    report: &mut FlatStep,
) -> i32
    ensures { spec.IsStepCall bits ip bytes.now place out.old out.new report.new result }
{
    let answer = call_code(alloc, bits, ip, bytes, place);
    *report = report_of(&answer);
    put_call(&answer, out)
}
