//! Moving the code of a source.

ghost use Rattle.std.specs.Prelude.{◌≡◌, ◌≤◌, length, OnOk, OnErr, MatchResult};
ghost use Rattle.byte_ports.specs.Ports.{HasCause, Rose, with_back};
ghost use Rattle.sweep.specs.RunParts.Reads.{whole_limit, Takes, EndsAtFault};
ghost use Rattle.sweep.specs.RunParts.Writing.{HoldsFront};
ghost use Rattle.moving_run.specs.Moving as spec;

use crate::code::{Code, CodeError, first_pass, read_code};
use crate::command_words::BlockWords;
use crate::laws::{inputs_have_one_answer, moved_blocks_are_read_back};
use crate::map::write_map;
use block_encoder::{MovedBlocks, PlanError, move_ordered_blocks};
use branch_sizes::MOST_ITEMS;
use branch_sizes::laws::blocks_have_all_items;
use byte_ports::{Failed, Sink, Source};
use move_goals::Placed;
use std::alloc::Global;
use sweep::run_parts::laws::told_bytes_are_read;
use sweep::run_parts::{Status, put_all, read_whole};
use x86_values::Bits;

/// What is written of moved code.
#[derive(Clone, Copy)]
pub enum Wanted {
    /// The bytes of the moved blocks, one after another.
    MovedBytes,
    /// A line for each instruction: its old and its new address and its form.
    MapLines,
}

/// The instructions of some code, and the blocks to which they were moved.
#[derive(Drop)]
pub struct MovedCode {
    pub items: Vec<Placed>,
    pub blocks: MovedBlocks,
}

/// Cuts the input into blocks of code of a mode and moves them, or returns a status: `BadCode`, `TooMany`, `Wraps` or `TooFar` in this order, as
/// [`move_code`] does, and `Memory` at any point.
pub fn move_input(
    alloc: Global,
    bits: Bits,
    words: &[BlockWords],
    input: &[u8],
) -> Result<MovedCode, Status>
    requires few { length words.now ≤ 16 }
    requires short { length input.now ≤ 1048576 }
    ensures { MatchResult result (λ m. spec.MovesInput bits words.now input.now m.items.items m.blocks) (λ status. spec.IsMovingRefusal bits words.now input.now status) }
{
    blocks_have_all_items();
    let Code {
        items,
        spans,
        count,
    } = match read_code(alloc, bits, words, input) {
        Ok(code) => code,
        Err(CodeError::BadCode { offset, error }) => return Err(Status::BadCode { offset, error }),
        Err(CodeError::Memory) => return Err(Status::Memory),
    };
    if count > MOST_ITEMS as u64 {
        return Err(Status::TooMany { count });
    }
    if let Some(end) = first_pass(bits, words, input) {
        return Err(Status::Wraps { end });
    }
    match move_ordered_blocks(alloc, bits, &items, &spans) {
        Ok(moved) => Ok(MovedCode {
            items,
            blocks: moved,
        }),
        Err(PlanError::Wraps { end }) => Err(Status::Wraps { end }),
        Err(PlanError::TooFar { at, target }) => Err(Status::TooFar { at, target }),
        Err(PlanError::Memory) => Err(Status::Memory),
    }
}

/// Writes what is wanted of moved blocks.
fn write_wanted<K: Sink>(
    wanted: Wanted,
    bits: Bits,
    items: &[Placed],
    blocks: &MovedBlocks,
    out: &mut K,
) -> Result<(), Failed>
    requires starts { length blocks.now.starts ≡ length items.now }
    requires forms { length blocks.now.forms ≡ length items.now }
    ensures ok { OnOk result (K.held out.new ≡ with_back (K.held out.old) (spec.wanted_text wanted bits items.now blocks.now)) }
    ensures err { OnErr result (HoldsFront (K.held out.old) (K.held out.new) (spec.wanted_text wanted bits items.now blocks.now)) }
    ensures cause { HasCause (K.faults out.old) (K.faults out.new) result }
{
    match wanted {
        Wanted::MovedBytes => put_all(out, blocks.bytes()),
        Wanted::MapLines => write_map(bits, items, blocks.starts(), blocks.forms(), out),
    }
}

/// Reads the source to its end, cuts it into blocks of code of a mode, moves them, and writes the wanted output.
///
/// Each block has an old and a new base, which are addresses of the mode. Each block but the last has a length. Statuses, in this order: `ReadFault`;
/// `TooLarge` above 1,048,576 bytes; `BadCode` at the first byte of a block's sweep that starts no instruction; `TooMany` above 65,536 instructions;
/// `Wraps`; `TooFar`; `WriteFault`. `Memory` can occur at any point. Nothing is written unless only `WriteFault` can still occur. At most 1,048,577
/// bytes are read, and nothing after `ReadFault`.
#[tactic(auto, unfolding(sweep::specs::RunParts::Reads::whole_limit))]
pub fn move_code<S: Source, K: Sink>(
    alloc: Global,
    wanted: Wanted,
    bits: Bits,
    words: &[BlockWords],
    source: &mut S,
    out: &mut K,
) -> Status
    requires few { length words.now ≤ 16 }
    ensures answer { spec.MovesAs wanted bits words.now (S.left source.old) (S.left source.new) (K.held out.old) (K.held out.new)
        (Rose (S.faults source.old) (S.faults source.new)) (Rose (K.faults out.old) (K.faults out.new)) result }
    ensures complete { (Rose (S.faults source.old) (S.faults source.new) → ⊥) → (Rose (K.faults out.old) (K.faults out.new) → ⊥)
        → spec.CompletesMoving wanted bits words.now (S.left source.old) result }
    ensures taken { Takes whole_limit (S.left source.old) (S.left source.new)
        × (result ≡ Status.ReadFault → EndsAtFault S.pull_gives S.left source.new) }
{
    told_bytes_are_read();
    inputs_have_one_answer();
    moved_blocks_are_read_back();
    let input = match read_whole(alloc, source) {
        Ok(input) => input,
        Err(unread) => return unread,
    };
    let moved = match move_input(alloc, bits, words, &input) {
        Ok(moved) => moved,
        Err(status) => return status,
    };
    match write_wanted(wanted, bits, &moved.items, &moved.blocks, out) {
        Ok(()) => Status::Done,
        Err(_) => Status::WriteFault,
    }
}
