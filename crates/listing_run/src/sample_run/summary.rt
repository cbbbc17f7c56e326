//! Made code, listed and moved, in numbers.

ghost use Rattle.std.specs.Prelude.{◌≡◌, ◌≤◌, List, length, sum, MatchResult};
ghost use Rattle.sweep.specs.SweepText.Listing.{listing};
ghost use Rattle.x86_values.specs.declared.Bits.TheVariants.{B64};
ghost use Rattle.text_parts.specs.declared.style.Style.TheVariants.{Intel};
ghost use Rattle.opcode_rows.specs.Sweep.{IsSweep, Item};
ghost use Rattle.listing_run.specs.SampleRun.Generator.{sample_base};
ghost use Rattle.listing_run.specs.SampleRun.Sample as spec;

use crate::sample_run::generator::{CODE_BASE, sample_code};
use crate::sample_run::laws::{made_code_has_instructions_alone, made_code_reaches_its_targets};
use branch_sizes::Form;
use move_goals::Placed;
use move_goals::branch_forms::choices_of;
use moving_run::command_words::BlockWords;
use moving_run::laws::instructions_are_placed;
use moving_run::move_input;
use std::alloc::Global;
use sweep::run_parts::Status;
use sweep::sweep_text::laws::items_stand_in_turn;
use sweep::sweep_text::{Chunk, Lines, Style, append_line, item_len, read_at};
use x86_values::{Bits, Instr};

/// The address to which made code is moved.
pub const MOVED_BASE: u64 = 0x1040_0000;

/// The numbers that `sample` reports about made code.
#[derive(Clone, Copy)]
pub struct Summary {
    /// How many instructions were made.
    pub instructions: u32,
    /// How many bytes they have.
    pub bytes: usize,
    /// How many bytes their listing in the Intel style has.
    pub text: u64,
    /// The number of bytes at the new address.
    pub moved: usize,
    /// How many have another form there than their first.
    pub grown: u64,
    /// The sum of the moved bytes.
    pub sum: u128,
}

/// How many bytes the listing of some code has.
fn listing_len(code: &[u8]) -> u64
    requires { length code.now ≤ 1048576 }
    ensures { (items : List Item) × (IsSweep B64 sample_base code.now items × (result ≡ length (listing B64 sample_base Intel items))) }
{
    items_stand_in_turn();
    let lines = Lines::Listing {
        syntax: Style::Intel,
    };
    let mut line = Chunk::new();
    let mut text = 0;
    let mut at = 0;
    while at < code.len() {
        let (_, rest) = code.split_at(at);
        let reading = read_at(Bits::B64, CODE_BASE, at, rest);
        let (item, _) = rest.split_at(item_len(&reading));
        append_line(&mut line, Bits::B64, CODE_BASE, lines, at, item, &reading);
        text += line.len() as u64;
        line.clear();
        at += item.len();
    }
    text
}

/// Returns the form of an instruction that comes first.
fn first_form(instr: &Instr) -> Form
    ensures { result ≡ spec.first_form instr.now }
{
    match choices_of(Bits::B64, instr).first() {
        Some(choice) => choice.form,
        None => Form::Itself,
    }
}

/// How many instructions have another form than their first.
fn grown_count(items: &[Placed], forms: &[Form]) -> u64
    requires { length forms.now ≡ length items.now }
    ensures { result ≡ spec.grown_count items.now forms.now }
{
    let mut count = 0;
    for k in 0..items.len() {
        if forms[k] != first_form(&items[k].instr) {
            count += 1;
        }
    }
    count
}

/// The sum of some bytes.
fn sum_of(bytes: &[u8]) -> u128
    ensures { result ≡ sum bytes.now }
{
    let mut sum = 0;
    for byte in bytes {
        sum += u128::from(*byte);
    }
    sum
}

/// Makes some instructions, lists them in the Intel style at 400000, moves them to 10400000 in 64-bit mode, and returns numbers about the result. It
/// can fail only for lack of memory: made code consists of instructions, and each reaches its target from its new place.
pub fn summarize(alloc: Global, count: u32) -> Result<Summary, Status>
    requires { count ≤ 65536 }
    ensures { MatchResult result (λ s. spec.IsSample count s) (λ status. status ≡ Status.Memory) }
{
    made_code_has_instructions_alone();
    made_code_reaches_its_targets();
    instructions_are_placed();
    let Ok(code) = sample_code(alloc, count) else {
        return Err(Status::Memory);
    };
    let block = BlockWords {
        old: CODE_BASE,
        new: MOVED_BASE,
        len: None,
    };
    match move_input(alloc, Bits::B64, &[block], &code) {
        Ok(moved) => Ok(Summary {
            instructions: count,
            bytes: code.len(),
            text: listing_len(&code),
            moved: moved.blocks.bytes().len(),
            grown: grown_count(&moved.items, moved.blocks.forms()),
            sum: sum_of(moved.blocks.bytes()),
        }),
        Err(status) => Err(status),
    }
}
