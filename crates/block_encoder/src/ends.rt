//! The bytes after the images of a block: the gap, and the slots.

ghost use Rattle.std.specs.Prelude.{◌≡◌, ◌++◌, ◌^◌, ◌<◌, length, slice_index, EachIndex, OnOk};
ghost use Rattle.plain_spelling.specs.Values.{low_bytes};
ghost use Rattle.block_encoder.specs.Bytes.{slot_bytes};
ghost use Rattle.block_encoder.specs.Written.{gap_behind};

use arrayvec::ArrayVec;
use branch_sizes::move_layout::BlockEnd;
use plain_spelling::numbers::append_low_bytes;
use std::alloc::AllocError;

/// Appends the gap between the images and the slots, bytes of CC.
#[tactic(auto, unfolding(crate::specs::Written::gap_behind))]
fn write_gap(end: &BlockEnd, bytes: &mut Vec<u8>) -> Result<(), AllocError>
    requires { end.now.images < 2 ^ 66 }
    ensures { OnOk result (bytes.new.items ≡ bytes.old.items ++ gap_behind end.now.images end.now.slots) }
{
    if end.slots == 0 {
        return Ok(());
    }
    let start = (end.images + 7) / 8 * 8;
    let gap = [0xCC; 8];
    bytes.extend_from_slice(&gap[..(start - end.images) as usize])
}

/// Appends a slot with a goal in it, the lowest byte first.
fn write_slot(goal: u64, bytes: &mut Vec<u8>) -> Result<(), AllocError>
    ensures { OnOk result (bytes.new.items ≡ bytes.old.items ++ low_bytes 8 goal) }
{
    let mut slot = ArrayVec::new();
    append_low_bytes(&mut slot, 8, goal);
    bytes.extend_from_slice(&slot)
}

/// Appends the gap and the slots of a block, and notes the goals in the slots.
pub(crate) fn write_end(
    end: &BlockEnd,
    goals: &[u128],
    bytes: &mut Vec<u8>,
    slots: &mut Vec<u64>,
) -> Result<(), AllocError>
    requires images { end.now.images < 2 ^ 66 }
    requires goals { EachIndex goals.now (λ i. slice_index goals.now i < 2 ^ 64) }
    ensures bytes { OnOk result (bytes.new.items ≡ bytes.old.items ++ (gap_behind end.now.images end.now.slots ++ slot_bytes goals.now)) }
    ensures slots { OnOk result (slots.new.items ≡ slots.old.items ++ goals.now) }
{
    write_gap(end, bytes)?;
    'goals: for i in 0..goals.len() {
        let goal = goals[i] as u64;
        write_slot(goal, bytes)?;
        slots.push(goal)?;
    }
    Ok(())
}
