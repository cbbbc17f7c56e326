//! Instructions that are read with the addresses of labels in place of their names.

ghost use Rattle.std.specs.Prelude.{◌≡◌, ◌-◌, IfOk, length};
ghost use Rattle.assembly_text.specs.Readings.{lowered as lowered_text};
ghost use Rattle.assembly_text.specs.Placing as spec;

use crate::code::Code;
use crate::drafts::{Draft, is_relative};
use crate::kept::no_kept;
use crate::line::lowered;
use crate::names::{behind_word, named_text};
use crate::numbers::{freed_behind, placed_behind};
use crate::readings::spelled_code;
use crate::round::{Round, zeroed};
use crate::statements::{Statement, statement_of};
use crate::text_error::LineError;
use move_goals::moved_targets::target_of;
use std::alloc::{AllocError, Global};
use x86_values::Bits;

/// Whether a text stands for an instruction, which goes to its name if it has one.
#[tactic(auto, unfolding(crate::specs::Placing::is_whole))]
pub(crate) fn is_whole(code: &Code) -> bool
    ensures { result ≡ spec.is_whole code.now }
{
    match code {
        Code::Plain(_) => true,
        Code::Named(_, instr) => target_of(instr).is_some(),
        Code::Unsized => false,
        Code::Nothing => false,
    }
}

/// Whether a text stands for no instruction.
#[tactic(auto, unfolding(crate::specs::Placing::is_nothing))]
pub(crate) fn is_nothing(code: &Code) -> bool
    ensures { result ≡ spec.is_nothing code.now }
{
    match code {
        Code::Nothing => true,
        _ => false,
    }
}

/// Where the operands of a text in lower case begin.
fn operands_at(low: &[u8]) -> usize
    ensures { result ≡ spec.operands_at low.now }
{
    low.len().saturating_sub(behind_word(named_text(low)).len())
}

/// The text of an instruction with addresses in place of the names of labels in its operands.
pub(crate) fn placed_text(
    alloc: Global,
    round: &Round<'_, '_, '_>,
    text: &[u8],
) -> Result<Vec<u8>, AllocError>
    ensures { IfOk result (λ out. out.items ≡ spec.placed_text (spec.view_of round.now) text.now) }
{
    let low = lowered(alloc, text)?;
    placed_behind(alloc, round, operands_at(&low), text)
}

/// An operand with an address in place of a name: relative if it was with the name.
#[tactic(auto, unfolding(crate::specs::Placing::placed_part))]
fn placed_part(bits: Bits, named: &Option<Draft>, part: &Option<Draft>) -> Option<Draft>
    ensures { result ≡ spec.placed_part bits named.now part.now }
{
    match named {
        None => *part,
        Some(d) => match part {
            None => None,
            Some(e) => Some(Draft {
                rel: e.rel || (d.name.is_some() && is_relative(bits, d)),
                ..*e
            }),
        },
    }
}

/// What a text says with addresses, by what it says with names.
#[tactic(auto, unfolding(crate::specs::Placing::placed_statement))]
fn placed_statement(bits: Bits, named: &Statement, s: &Statement) -> Statement
    ensures { result ≡ spec.placed_statement bits named.now s.now }
{
    Statement {
        first: placed_part(bits, &named.first, &s.first),
        second: placed_part(bits, &named.second, &s.second),
        third: placed_part(bits, &named.third, &s.third),
        fourth: placed_part(bits, &named.fourth, &s.fourth),
        closed: s.closed,
    }
}

/// What a text stands for with addresses in place of names.
#[tactic(auto, using(crate::proofs::Spelling::spelled_by))]
pub(crate) fn placed_code(
    alloc: Global,
    bits: Bits,
    base: u64,
    text: &[u8],
    placed: &[u8],
) -> Result<Code, AllocError>
    ensures { IfOk result (λ code. spec.IsPlacedCode bits base text.now placed.now code) }
{
    let named = lowered(alloc, text)?;
    let low = lowered(alloc, placed)?;
    let statement = placed_statement(bits, &statement_of(&named), &statement_of(&low));
    let mut kept = no_kept(alloc, bits, base, 0)?;
    spelled_code(alloc, &mut kept, bits, base, &low, &statement)
}

/// Whether this is an instruction that goes to no name.
#[tactic(auto, unfolding(crate::specs::Placing::is_nameless))]
fn is_nameless(code: &Code) -> bool
    ensures { result ≡ spec.is_nameless code.now }
{
    match code {
        Code::Plain(_) => true,
        Code::Unsized => true,
        _ => false,
    }
}

/// Whether a text stands for an instruction with 0 as the address of each label.
pub(crate) fn is_unfit(
    alloc: Global,
    bits: Bits,
    round: &Round<'_, '_, '_>,
    text: &[u8],
) -> Result<bool, AllocError>
    ensures { IfOk result (λ unfit. spec.IsUnfit bits (spec.view_of round.now) text.now unfit) }
{
    let placed = placed_text(alloc, &zeroed(round), text)?;
    let code = placed_code(alloc, bits, round.base, text, &placed)?;
    Ok(is_nameless(&code))
}

/// The text of an instruction with 0 in place of each name in its operands.
fn freed_text(alloc: Global, text: &[u8]) -> Result<Vec<u8>, AllocError>
    ensures { IfOk result (λ out. out.items ≡ spec.freed_text text.now) }
{
    let low = lowered(alloc, text)?;
    freed_behind(alloc, operands_at(&low), text)
}

/// Why a text stands for no instruction, by what it stands for with 0 in place of each name.
#[tactic(auto, unfolding(crate::specs::Placing::refusal_of))]
fn refusal_of(code: &Code) -> LineError
    ensures { result ≡ spec.refusal_of code.now }
{
    match code {
        Code::Nothing => LineError::NotCode,
        Code::Unsized => LineError::SizeNeeded,
        _ => LineError::UnknownName,
    }
}

/// Why a text stands for no instruction: whether it has an unknown name.
pub(crate) fn unknown_in(
    alloc: Global,
    bits: Bits,
    base: u64,
    text: &[u8],
) -> Result<LineError, AllocError>
    ensures { IfOk result (λ why. spec.IsUnknown bits base text.now why) }
{
    let other = freed_text(alloc, text)?;
    let code = placed_code(alloc, bits, base, text, &other)?;
    Ok(refusal_of(&code))
}
