//! The bytes of moved instructions of which some have no row.
//!
//! The mover writes instructions of the table alone. For each other one it is handed a filler, an instruction without a target, and the bytes of the
//! filler are replaced afterwards. The layout does not depend on fillers: it is that of the plan, which has the lengths of the instructions themselves.

ghost use Rattle.std.specs.Prelude.{◌≡◌, ◌<◌, ◌≤◌, ◌+◌, ◌++◌, length, take, drop, IfOk, IfSome};
ghost use Rattle.plain_spelling.specs.Values as values;
ghost use Rattle.unlisted.specs.Measured.{StandsInside};
ghost use Rattle.move_goals.specs.BranchForms.Images as images;
ghost use Rattle.block_encoder.specs.ByPlan.{IsMovedBy};
ghost use Rattle.code_items.specs.AnyItems.{IsAnySound, AreAnySound};
ghost use Rattle.code_items.specs.AnyMoved as spec;
ghost use Rattle.code_items.specs.AnyWriting as writing;
ghost use Rattle.code_items.specs.AnyWriting.{IsFiller, AreStandIns, IsPlanOf};

use crate::any_items::{AnyItem, reference_size};
use crate::any_laws_below::laws_below;
use arrayvec::ArrayVec;
use block_encoder::MovedBlocks;
use branch_sizes::{Form, Goal, Plan};
use decoder::decode_in;
use instruction_parts::append::append_few;
use move_goals::Placed;
use move_goals::branch_forms::{Image, image_of};
use move_goals::moved_targets::{independent_bytes, plain_length};
use plain_spelling::numbers::{distance, push_low_bytes};
use std::alloc::{AllocError, Global};
use unlisted::Relative;
use x86_values::{Bits, Instr, wrap};

/// NOP, which has one byte in every mode.
const NOP: [u8; 1] = [0x90];

/// The filler of a mode.
pub(crate) fn filler(bits: Bits) -> Option<Instr>
    ensures { IfSome result (λ i. IsFiller bits i) }
{
    match decode_in(bits, 0, &NOP) {
        Ok(read) => {
            // Four operands, as the proof has to know.
            let [_first, _second, _third, _fourth] = read.instr.ops;
            if independent_bytes(bits, &read.instr).is_empty() {
                None
            } else {
                Some(read.instr)
            }
        }
        Err(_) => None,
    }
}

/// What stands for an instruction in the plan.
fn stand_in(filler: &Instr, item: &AnyItem) -> Placed
    ensures { result ≡ writing.stand_in filler.now item.now }
{
    match item {
        AnyItem::Listed(placed) => *placed,
        AnyItem::Unlisted(own) => Placed {
            ip: own.ip,
            len: own.shape.len,
            instr: *filler,
        },
    }
}

/// The items that are handed to the mover.
pub(crate) fn stand_ins(
    alloc: Global,
    filler: &Instr,
    items: &[AnyItem],
) -> Result<Vec<Placed>, AllocError>
    ensures { IfOk result (λ list. list.items ≡ writing.stand_ins filler.now items.now) }
{
    let mut list = Vec::with_capacity(alloc, items.len())?;
    for item in items {
        list.push(stand_in(filler, item))?;
    }
    Ok(list)
}

/// The number with which an instruction of `len` bytes at a place refers to a goal.
#[tactic(auto, unfolding(crate::specs::AnyMoved::number_to))]
fn number_to(bits: Bits, place: u64, len: u8, goal: u64, relative: &Relative) -> u64
    ensures { result ≡ spec.number_to bits place len goal relative.now }
{
    let end = wrap(Bits::B64, u128::from(place) + u128::from(len));
    distance(reference_size(bits, relative.to), end, goal)
}

/// The bytes of an instruction with another number.
fn with_number(own: &[u8], relative: &Relative, number: u64) -> ArrayVec<u8, 15>
    requires short { length own.now ≤ 15 }
    requires inside { relative.now.at + relative.now.len ≤ length own.now }
    ensures { result.items ≡ take relative.now.at own.now ++ (values.low_bytes relative.now.len number ++ drop (relative.now.at + relative.now.len) own.now) }
{
    let at = usize::from(relative.at);
    let end = at + usize::from(relative.len);
    let mut bytes = ArrayVec::new();
    append_few(&mut bytes, &own[..at]);
    push_low_bytes(&mut bytes, relative.len, number);
    append_few(&mut bytes, &own[end..]);
    bytes
}

/// The bytes of an instruction without a row at a place, with a goal.
#[tactic(auto, unfolding(crate::specs::AnyMoved::own_bytes_at))]
fn own_bytes_at(
    bits: Bits,
    place: u64,
    goal: u64,
    own: &[u8],
    relative: Option<Relative>,
) -> ArrayVec<u8, 15>
    requires short { length own.now ≤ 15 }
    requires inside { StandsInside (length own.now) relative }
    ensures { result.items ≡ spec.own_bytes_at bits place (length own.now) goal relative own.now }
{
    match relative {
        None => {
            let mut bytes = ArrayVec::new();
            append_few(&mut bytes, own);
            bytes
        }
        Some(relative) => {
            let number = number_to(bits, place, own.len() as u8, goal, &relative);
            with_number(own, &relative, number)
        }
    }
}

/// Appends the bytes of an instruction at a place, whose stand-in was moved to these bytes.
fn push_bytes(
    bits: Bits,
    item: &AnyItem,
    image: &[u8],
    place: u64,
    goal: u64,
    out: &mut Vec<u8>,
) -> Result<(), AllocError>
    requires { IsAnySound bits item.now }
    ensures { IfOk result (λ _. out.new.items ≡ out.old.items ++ writing.bytes_for bits item.now image.now place goal) }
{
    match item {
        AnyItem::Listed(_) => out.extend_from_slice(image),
        AnyItem::Unlisted(own) => {
            let bytes = own_bytes_at(bits, place, goal, &own.bytes, own.shape.relative);
            out.extend_from_slice(&bytes)
        }
    }
}

/// How many bytes an instruction has in a form.
#[tactic(auto, unfolding(move_goals::specs::BranchForms::Images::form_length))]
fn form_len(bits: Bits, instr: &Instr, form: Form) -> usize
    ensures { result ≡ images.form_length bits instr.now form }
{
    match image_of(bits, instr, form, 0, 0, 0) {
        Image::One(a) => usize::from(plain_length(bits, &a)),
        Image::Two(a, b) => {
            usize::from(plain_length(bits, &a)) + usize::from(plain_length(bits, &b))
        }
        Image::Three(a, b, c) => {
            usize::from(plain_length(bits, &a))
                + usize::from(plain_length(bits, &b))
                + usize::from(plain_length(bits, &c))
        }
    }
}

/// A goal as an address, where the instructions stand at these places.
fn goal_address(starts: &[u64], goal: Goal) -> u64
    ensures { result ≡ writing.goal_by starts.now goal }
{
    match goal {
        Goal::None => 0,
        Goal::Inside(j) => match starts.get(j as usize) {
            Some(start) => *start,
            None => 0,
        },
        Goal::Outside(target) => target,
    }
}

/// Returns the bytes of moved instructions, by what their stand-ins were moved to.
pub(crate) fn write_items(
    alloc: Global,
    bits: Bits,
    items: &[AnyItem],
    stand_ins: &[Placed],
    plan: &Plan,
    moved: &MovedBlocks,
) -> Result<Vec<u8>, AllocError>
    requires sound { AreAnySound bits items.now }
    requires standing { AreStandIns items.now stand_ins.now }
    requires plan { IsPlanOf bits items.now plan.now }
    requires moved { IsMovedBy bits stand_ins.now plan.now moved.now }
    ensures { IfOk result (λ out. (h : IsMovedBy bits stand_ins.now plan.now moved.now) → out.items ≡ spec.any_block_bytes bits items.now plan.now h.layout) }
{
    laws_below();
    let starts = moved.starts();
    let forms = moved.forms();
    let branches = plan.items();
    let mut rest = moved.bytes();
    let mut out = Vec::with_capacity(alloc, rest.len())?;
    'items: for k in 0..items.len() {
        let len = form_len(bits, &stand_ins[k].instr, forms[k]);
        let (image, behind) = rest.split_at(len);
        let goal = goal_address(starts, branches[k].goal);
        push_bytes(bits, &items[k], image, starts[k], goal, &mut out)?;
        rest = behind;
    }
    out.extend_from_slice(rest)?;
    Ok(out)
}
