//! Some code read and moved.

ghost use Rattle.std.specs.Prelude.{◌≡◌, ◌+◌, ◌≤◌, ◌^◌, ◌<◌, length, None, IfOk, MatchResult};
ghost use Rattle.move_goals.specs.Items.{ArePlaced, first_disorder, one_span};
ghost use Rattle.block_encoder.specs.Planned.{as_moving};
ghost use Rattle.c_calls.specs.Moving as spec;
ghost use Rattle.c_calls.specs.Numbers.{bits_numbered};

use crate::code_len::code_len;
use crate::flat::FlatMoved;
use crate::numbers::bits_numbered;
use block_encoder::{Form, Moved, Placed, PlanError, move_few_outside, move_ordered_block};
use branch_sizes::MOST_ITEMS;
use decoder::{DecodeError, decode_in};
use move_goals::passes;
use std::alloc::{AllocError, Global};
use x86_values::Bits;

/// How many bytes of code are moved together at most.
pub(crate) const MOST: usize = 1_048_576;

/// What becomes of a target that is one of the instructions that are moved.
#[derive(Clone, Copy)]
pub(crate) enum Targets {
    /// It goes with that instruction.
    Follow,
    /// Targets stay.
    Stay,
}

/// Moved code, and the new place of each of its instructions.
#[derive(Drop)]
pub(crate) struct MovedCode {
    pub(crate) moved: Moved,
    pub(crate) code_len: u64,
    pub(crate) entries: Vec<FlatMoved>,
}

/// Why code is not moved.
#[derive(Clone, Copy)]
pub(crate) enum MoveRefusal {
    /// The mode is none.
    Mode,
    /// There are more than 1,048,576 bytes.
    TooLarge,
    /// No instruction is read at this offset.
    BadCode { at: u64, error: DecodeError },
    /// There was not enough memory.
    Memory,
    /// There are this many instructions, more than 65,536.
    TooMany { count: u64 },
    /// The old or the new end is this address, which passes the address space.
    Wraps { end: u128 },
    /// The instruction of this number does not reach this address.
    TooFar { at: u64, target: u64 },
    /// A buffer is too small.
    Room,
}

/// The number of a form, 0 to 5.
pub(crate) fn form_number(form: Form) -> u8
    ensures { result ≡ spec.form_number form }
{
    match form {
        Form::Itself => 0,
        Form::Short => 1,
        Form::Near => 2,
        Form::Far => 3,
        Form::Bridge => 4,
        Form::FarBridge => 5,
    }
}

/// Reads the instructions of some code, each with its address.
pub(crate) fn read_items(
    alloc: Global,
    bits: Bits,
    base: u64,
    bytes: &[u8],
) -> Result<Vec<Placed>, MoveRefusal>
    requires { base + length bytes.now ≤ 2 ^ 64 }
    ensures { MatchResult result (λ items. spec.AreInstructionsOf bits base bytes.now items.items) (λ why. spec.IsSourceRefusal bits base bytes.now why) }
{
    let mut items = Vec::new(alloc);
    let mut at: usize = 0;
    while at < bytes.len() {
        let ip = base + at as u64;
        let (_, rest) = bytes.split_at(at);
        match decode_in(bits, ip, rest) {
            Ok(read) => {
                let item = Placed {
                    ip,
                    len: read.len,
                    instr: read.instr,
                };
                match items.push(item) {
                    Ok(()) => {}
                    Err(_) => return Err(MoveRefusal::Memory),
                }
                at += usize::from(read.len);
            }
            Err(error) => {
                return Err(MoveRefusal::BadCode {
                    at: at as u64,
                    error,
                });
            }
        }
    }
    Ok(items)
}

/// The entry of an instruction.
#[tactic(auto, unfolding(crate::specs::Moving::entry_at))]
fn entry_at(items: &[Placed], starts: &[u64], forms: &[Form], k: usize) -> FlatMoved
    requires item { k < length items.now }
    requires start { k < length starts.now }
    requires form { k < length forms.now }
    ensures { result ≡ spec.entry_at items.now starts.now forms.now k }
{
    FlatMoved {
        old_ip: items[k].ip,
        new_ip: starts[k],
        len: items[k].len,
        form: form_number(forms[k]),
    }
}

/// The entries of moved instructions.
pub(crate) fn entries_of(
    alloc: Global,
    items: &[Placed],
    starts: &[u64],
    forms: &[Form],
) -> Result<Vec<FlatMoved>, AllocError>
    requires starts { length starts.now ≡ length items.now }
    requires forms { length forms.now ≡ length items.now }
    ensures { IfOk result (λ list. list.items ≡ spec.entries items.now starts.now forms.now (length items.now)) }
{
    let mut list = Vec::new(alloc);
    'entries: for k in 0..items.len() {
        list.push(entry_at(items, starts, forms, k))?;
    }
    Ok(list)
}

/// Moves instructions as one block.
fn relocate(
    alloc: Global,
    targets: Targets,
    bits: Bits,
    items: &[Placed],
    new: u64,
) -> Result<Moved, PlanError>
    requires placed { ArePlaced bits items.now }
    requires few { length items.now ≤ 65536 }
    requires order { first_disorder (one_span items.now new) items.now ≡ None }
    ensures { spec.IsRelocated targets bits items.now new (as_moving result) }
{
    match targets {
        Targets::Follow => move_ordered_block(alloc, bits, items, new),
        Targets::Stay => move_few_outside(alloc, bits, items, new),
    }
}

/// Moves instructions that were read.
fn move_items(
    alloc: Global,
    targets: Targets,
    bits: Bits,
    items: &[Placed],
    new: u64,
) -> Result<MovedCode, MoveRefusal>
    requires placed { ArePlaced bits items.now }
    requires order { first_disorder (one_span items.now new) items.now ≡ None }
    ensures { spec.IsItemsAnswer targets bits items.now new result }
{
    if items.len() > MOST_ITEMS {
        return Err(MoveRefusal::TooMany {
            count: items.len() as u64,
        });
    }
    match relocate(alloc, targets, bits, items, new) {
        Ok(moved) => match entries_of(alloc, items, moved.starts(), moved.forms()) {
            Ok(entries) => {
                let count = items.len();
                let code_len = code_len(bits, items, 0, count, new, moved.starts(), moved.forms());
                Ok(MovedCode {
                    moved,
                    code_len,
                    entries,
                })
            }
            Err(_) => Err(MoveRefusal::Memory),
        },
        Err(PlanError::Memory) => Err(MoveRefusal::Memory),
        Err(PlanError::Wraps { end }) => Err(MoveRefusal::Wraps { end }),
        Err(PlanError::TooFar { at, target }) => Err(MoveRefusal::TooFar { at, target }),
    }
}

/// The address after the old code. No bytes are an empty block, whose old end is its new base.
pub(crate) fn code_end(old: u64, bytes: &[u8], new: u64) -> u128
    ensures { result ≡ spec.moved_end old bytes.now new }
{
    if bytes.is_empty() {
        return u128::from(new);
    }
    u128::from(old) + bytes.len() as u128
}

/// Reads some code and moves it, in a mode.
fn move_in(
    alloc: Global,
    targets: Targets,
    bits: Bits,
    old: u64,
    bytes: &[u8],
    new: u64,
) -> Result<MovedCode, MoveRefusal>
    ensures { spec.IsMoveAnswerIn targets bits old bytes.now new result }
{
    if bytes.len() > MOST {
        return Err(MoveRefusal::TooLarge);
    }
    let end = code_end(old, bytes, new);
    if passes(bits, end) {
        return Err(MoveRefusal::Wraps { end });
    }
    match read_items(alloc, bits, old, bytes) {
        Ok(items) => move_items(alloc, targets, bits, &items, new),
        Err(why) => Err(why),
    }
}

/// Reads some code and moves it.
pub(crate) fn moved_code(
    alloc: Global,
    targets: Targets,
    bits: u32,
    old: u64,
    bytes: &[u8],
    new: u64,
) -> Result<MovedCode, MoveRefusal>
    ensures { spec.IsMoveAnswer targets (bits_numbered bits) old bytes.now new result }
{
    match bits_numbered(bits) {
        None => Err(MoveRefusal::Mode),
        Some(bits) => move_in(alloc, targets, bits, old, bytes, new),
    }
}
