//! Routines as text.

ghost use Rattle.std.specs.Prelude.{◌≡◌, ◌<◌, IfOk, MatchOption, MatchResult, length};
ghost use Rattle.code_assembler.specs.Finished.{label_address};
ghost use Rattle.assembly_text.specs.Known.{AreKnown};
ghost use Rattle.assembly_text.specs.Placing.{view_of};
ghost use Rattle.assembly_text.specs.declared.text_error.AssembleError.TheVariants.{Unfinished};
ghost use Rattle.assembly_text.specs.Origins.{place_by_cause};
ghost use Rattle.assembly_text.specs.Rounds as spec;

use crate::known::{Known, no_known};
use crate::labels::labels_in;
use crate::origins::{Built, place_of};
use crate::round::Round;
use crate::text::named_routine;
use crate::text_error::AssembleError;
use code_assembler::{Assembled, Assembler, FinishError};
use std::alloc::{AllocError, Global};
use x86_values::Bits;

/// How many rounds there are at most.
const MOST_ROUNDS: usize = 16;

/// The address of a label of a routine, if it has one.
fn address_of(routine: &Assembler, made: &Assembled, label: usize) -> Option<u64>
    requires { label < length routine.now.labels }
    ensures { result ≡ label_address made.now label }
{
    match routine.label_at(label) {
        Some(found) => made.address(found),
        None => None,
    }
}

/// The addresses of the labels of a routine; for a label without one that of the routine.
fn places_of(
    alloc: Global,
    routine: &Assembler,
    base: u64,
    made: &Assembled,
) -> Result<Vec<u64>, AllocError>
    ensures { IfOk result (λ places. places.items ≡ spec.places_of made.now base routine.now) }
{
    let count = routine.label_count();
    let mut places = Vec::with_capacity(alloc, count)?;
    'labels: for k in 0..count {
        places.push(address_of(routine, made, k).unwrap_or(base))?;
    }
    Ok(places)
}

/// Why a routine has no bytes, with the place of it in the text.
fn unfinished(built: &Built, why: FinishError) -> AssembleError
    ensures { result ≡ (let place = place_by_cause built.now.origins.lines.items (length built.now.routine.items) why in Unfinished place.0 place.1 why) }
{
    let (number, column) = place_of(built, why);
    AssembleError::Unfinished {
        number,
        column,
        why,
    }
}

/// The bytes of a routine, with slots or without.
fn finish_by(
    alloc: Global,
    slots: bool,
    routine: &Assembler,
    base: u64,
) -> Result<Assembled, FinishError>
    ensures { spec.IsFinishedBy slots routine.now base result }
{
    if slots {
        routine.finish(alloc, base)
    } else {
        routine.finish_near(alloc, base)
    }
}

/// What a round gives, with the addresses of the labels unless it is the last.
fn one_round(
    alloc: Global,
    slots: bool,
    bits: Bits,
    round: &Round<'_, '_, '_>,
    known: &mut Known,
) -> Result<(Assembled, Option<Vec<u64>>), AssembleError>
    requires { AreKnown known.old }
    ensures told { MatchResult result
        (λ done. MatchOption done.1 (spec.IsLastRound slots bits (view_of round.now) done.0) (λ next. spec.IsOtherRound slots bits (view_of round.now) done.0 next.items))
        (λ why. spec.IsNoRound slots bits (view_of round.now) why) }
    ensures known { AreKnown known.new }
{
    let built = match named_routine(alloc, bits, round, known) {
        Ok(built) => built,
        Err(why) => return Err(why),
    };
    let made = match finish_by(alloc, slots, &built.routine, round.base) {
        Ok(made) => made,
        Err(why) => return Err(unfinished(&built, why)),
    };
    if !built.trace.placed {
        return Ok((made, None));
    }
    let next = match places_of(alloc, &built.routine, round.base, &made) {
        Ok(next) => next,
        Err(_) => return Err(AssembleError::NoMemory),
    };
    if next.as_slice() == round.places {
        return Ok((made, None));
    }
    Ok((made, Some(next)))
}

/// The rules by which a text is assembled.
#[derive(Clone, Copy, PartialEq, Eq, Debug)]
pub struct Rules<'a> {
    /// The caller's names with their numbers, as in [`assemble_code_with`].
    pub names: &'a [u8],
    /// Whether a branch in 64-bit mode may go through a slot of eight bytes behind the code, if its target is out of reach.
    pub slots: bool,
}

/// Returns the bytes of a routine as text, like [`assemble_code_with`], by rules from the caller.
///
/// Where the rules allow no slots there is nothing behind the code and the data, and a branch to an address that is out of reach is refused.
///
/// ```
/// let rules = Rules {
///     names: b"start = 0x10",
///     slots: false,
/// };
/// let text = b"dec ecx\n jmp start";
/// if let Err(why) = assemble_code_by(rt.alloc(), Bits::B64, 0x8000_000a, &rules, text) {
///     println!(rt; "{why}")?; // line 2, column 2: instruction 1 cannot reach 0x10
/// }
/// ```
///
/// Errors: those of [`assemble_code_with`]. Without slots `Unfinished` has what [`Assembler::finish_near`](code_assembler::Assembler::finish_near) says: `TooFar`
/// names the first branch that does not reach its target.
pub fn assemble_code_by(
    alloc: Global,
    bits: Bits,
    base: u64,
    rules: &Rules<'_>,
    text: &[u8],
) -> Result<Assembled, AssembleError>
    ensures exact { spec.IsAnswerBy rules.now.slots bits base rules.now.names.now text.now result }
    ensures settled { IfOk result (λ a. spec.IsSettledBy rules.now.slots bits base rules.now.names.now text.now a) }
{
    let labels = match labels_in(alloc, text) {
        Ok(labels) => labels,
        Err(_) => return Err(AssembleError::NoMemory),
    };
    let mut known = match no_known(alloc, bits, base, text.len()) {
        Ok(known) => known,
        Err(_) => return Err(AssembleError::NoMemory),
    };
    let mut places = Vec::new(alloc);
    let mut left = MOST_ROUNDS;
    'rounds: while left > 0 {
        let round = Round {
            base,
            names: rules.names,
            labels: &labels,
            places: &places,
        };
        let (made, next) = match one_round(alloc, rules.slots, bits, &round, &mut known) {
            Ok(done) => done,
            Err(why) => return Err(why),
        };
        match next {
            None => return Ok(made),
            Some(more) => places = more,
        }
        left -= 1;
    }
    Err(AssembleError::Unsettled)
}

/// Returns the bytes of a routine as text, like [`assemble_code`], with numbers in place of names from the caller.
///
/// Each line of `names` is a name, `=` and a number, or has nothing but a comment. The name is no word of an operand, as a register is. Where no quote is open,
/// its number takes its place in the lines of `text`, before these are read; labels keep their names. Of two lines of one name the first counts, and a name of
/// the caller comes before a label.
///
/// ```
/// let names = b"puts = 0x401180\nSIZE = 24";
/// let text = b"mov edi, SIZE-1\n call puts\n ret";
/// let made = assemble_code_with(rt.alloc(), Bits::B64, 0x40_1000, names, text)?;
/// println!(rt; "{}", hex::encode(rt.alloc(), made.bytes())?)?; // bf17000000e876010000c3
/// ```
///
/// Branches may go through slots; [`assemble_code_by`] takes rules that allow none.
///
/// Errors: `AtName`: the first line of `names` that is neither; then those of [`assemble_code`].
pub fn assemble_code_with(
    alloc: Global,
    bits: Bits,
    base: u64,
    names: &[u8],
    text: &[u8],
) -> Result<Assembled, AssembleError>
    ensures exact { spec.IsNamedAnswer bits base names.now text.now result }
    ensures settled { IfOk result (λ a. spec.IsSettled bits base names.now text.now a) }
{
    let rules = Rules { names, slots: true };
    assemble_code_by(alloc, bits, base, &rules, text)
}

/// Returns the bytes of a routine as text, with its first byte at the address `base`.
///
/// A line feed ends each line. A line is, in this order and each optional: a label, which is a name and a colon; an instruction or data; and a comment from
/// `;` or `#` on. A name has letters, digits, `_`, `.`, `$` and `@`, and begins with no digit.
///
/// An instruction is an Intel text as `read_intel` reads it at `base`, or such a text with a name in place of the number to which a near branch or an operand
/// at RIP or EIP goes. Otherwise it is read as people write it: in any case and with any blanks, with the manual's other names, numbers in other notations and
/// sums, and addresses with their terms in any order. The size of an address may be left out where just one size has an instruction.
///
/// Data is `db`, `dw`, `dd` or `dq` with numbers and strings, which commas separate. A name of a label in data, or in a line that is no instruction otherwise, stands
/// for the address of the label. `align` and a power of two up to 4096 fills up to a multiple of that: with zeros after data, else with NOPs. A text with either
/// is assembled again with the addresses that it gave, until it gives the same ones.
///
/// ```
/// let text =
///     b"CMP EDI, 3\n jnb none\n movzx eax, byte ptr [table]\n ret\nnone: xor eax,eax\n ret\ntable: db 7, 2Ah, 'A'";
/// let made = assemble_code(rt.alloc(), Bits::B64, 0x40_1000, text)?;
/// println!(rt; "{}", hex::encode(rt.alloc(), made.bytes())?)?; // 83ff0373080fb60504000000c331c0c3072a41
/// ```
///
/// Errors: `TooManyLabels`; `AtLine` names the first line that is refused, and why; `Unfinished`: the routine has no bytes, as
/// [`Assembler::finish`](code_assembler::Assembler::finish) says, with the line of the item in question; `Unsettled`: it never gave the same addresses again in 16 rounds. `NoMemory` can replace each.
pub fn assemble_code(
    alloc: Global,
    bits: Bits,
    base: u64,
    text: &[u8],
) -> Result<Assembled, AssembleError>
    ensures { spec.IsTextAnswer bits base text.now result }
{
    assemble_code_with(alloc, bits, base, b"", text)
}
