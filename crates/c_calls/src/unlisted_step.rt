//! The code of a single step of an instruction that the opcode table leaves out.

ghost use Rattle.std.specs.Prelude.{◌≡◌, ◌≤◌, length, IfOk, Err};
ghost use Rattle.c_calls.specs.Answers as answers;
ghost use Rattle.c_calls.specs.Numbers.{bits_numbered};
ghost use Rattle.c_calls.specs.UnlistedSteps as spec;

use crate::buffers::put_bytes;
use crate::flat::FlatStep;
use crate::numbers::bits_numbered;
use crate::refusal::{Refusal, refusal_status};
use step_slots::{UnlistedStep, UnlistedStepError, step_unlisted_at};
use unlisted::MeasureError;
use x86_values::Bits;

/// Why there is no code of a step of an instruction without a row.
#[derive(Clone, Copy)]
pub(crate) enum UnlistedRefusal {
    /// The mode is none.
    Mode,
    /// The instruction has no code at the place.
    NotStood(UnlistedStepError),
}

/// Why there is no code of a step, by the refusals of all calls.
fn unlisted_refusal(why: UnlistedRefusal) -> Refusal
    ensures { result ≡ spec.unlisted_refusal why }
{
    match why {
        UnlistedRefusal::Mode => Refusal::Mode,
        UnlistedRefusal::NotStood(why) => match why {
            UnlistedStepError::NotMeasured(why) => match why {
                MeasureError::Ended => Refusal::TooShort,
                MeasureError::Unknown => Refusal::Invalid,
            },
            UnlistedStepError::Wraps { .. } => Refusal::Wraps,
            UnlistedStepError::TooFar { .. } => Refusal::TooFar,
        },
    }
}

/// The code of a step of an instruction without a row, in a mode.
fn unlisted_code_in(
    bits: Bits,
    ip: u64,
    bytes: &[u8],
    place: u64,
) -> Result<UnlistedStep, UnlistedRefusal>
    ensures answer { spec.IsUnlistedCodeIn bits ip bytes.now place result }
    ensures short { IfOk result (λ code. length code.bytes.items ≤ 20) }
{
    match step_unlisted_at(bits, ip, bytes, place) {
        Ok(code) => Ok(code),
        Err(why) => Err(UnlistedRefusal::NotStood(why)),
    }
}

/// The code of a step of an instruction without a row.
fn unlisted_code(
    bits: u32,
    ip: u64,
    bytes: &[u8],
    place: u64,
) -> Result<UnlistedStep, UnlistedRefusal>
    ensures answer { spec.IsUnlistedCode (bits_numbered bits) ip bytes.now place result }
    ensures short { IfOk result (λ code. length code.bytes.items ≤ 20) }
{
    match bits_numbered(bits) {
        None => Err(UnlistedRefusal::Mode),
        Some(bits) => unlisted_code_in(bits, ip, bytes, place),
    }
}

/// No numbers.
const NOTHING: FlatStep = FlatStep {
    bytes: 0,
    back_at: 0,
    address: 0,
    len: 0,
    done_at: 0,
};

/// The numbers of a refusal.
fn refusal_report(why: UnlistedRefusal) -> FlatStep
    ensures { result ≡ spec.refusal_report why }
{
    match why {
        UnlistedRefusal::NotStood(UnlistedStepError::Wraps { end }) => FlatStep {
            address: (end % 0x1_0000_0000_0000_0000) as u64,
            ..NOTHING
        },
        UnlistedRefusal::NotStood(UnlistedStepError::TooFar { target }) => FlatStep {
            address: target,
            ..NOTHING
        },
        _ => NOTHING,
    }
}

/// Returns the report of a result.
fn report_of(answer: &Result<UnlistedStep, UnlistedRefusal>) -> FlatStep
    requires { IfOk answer.now (λ code. length code.bytes.items ≤ 20) }
    ensures { result ≡ spec.unlisted_report answer.now }
{
    match answer {
        Ok(code) => FlatStep {
            bytes: code.bytes.len() as u64,
            back_at: u64::from(code.len),
            len: code.len,
            done_at: code.len,
            ..NOTHING
        },
        Err(why) => refusal_report(*why),
    }
}

/// Writes the code if the buffer is large enough, and returns its length in bytes.
#[tactic(auto, unfolding(crate::specs::Answers::bytes_within))]
fn put_code(answer: &Result<UnlistedStep, UnlistedRefusal>, out: &mut [u8]) -> i32
    requires { IfOk answer.now (λ code. length code.bytes.items ≤ 20) }
    ensures said { result ≡ answers.count_or_refusal (answers.bytes_within (length out.old) (spec.unlisted_bytes answer.now)) }
    ensures left { out.new ≡ answers.with_bytes out.old (answers.bytes_within (length out.old) (spec.unlisted_bytes answer.now)) }
{
    match answer {
        Ok(code) => put_bytes(out, &code.bytes),
        Err(why) => refusal_status(unlisted_refusal(*why)),
    }
}

/// Writes code that executes, at another address, the instruction at the front of some bytes, if the opcode table leaves it out. Returns the length of
/// that code in bytes.
pub fn step_unlisted(
    bits: u32,
    ip: u64,
    bytes: &[u8],
    place: u64,
    out: &mut [u8],
    report: &mut FlatStep,
) -> i32
    ensures { spec.IsUnlistedStepSaid bits ip bytes.now place out.old out.new report.new result }
{
    let answer = unlisted_code(bits, ip, bytes, place);
    *report = report_of(&answer);
    put_code(&answer, out)
}
