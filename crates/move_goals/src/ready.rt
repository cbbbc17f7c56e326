//! The bytes of items without a target, which stay as they are.

ghost use Rattle.std.specs.Prelude.{◌≡◌, IfOk, length};
ghost use Rattle.move_goals.specs.Ready as spec;

use crate::items::Placed;
use crate::moved_targets::independent_bytes;
use arrayvec::ArrayVec;
use std::alloc::{AllocError, Global};
use x86_values::Bits;

/// Returns the plain spelling's bytes for each item without a target, which are the same at every place, and no bytes for each other item.
pub fn ready_bytes(
    alloc: Global,
    bits: Bits,
    items: &[Placed],
) -> Result<Vec<ArrayVec<u8, 15>>, AllocError>
    ensures { IfOk result (λ ready. spec.AreReady bits items.now ready.items) }
{
    let mut ready = Vec::with_capacity(alloc, items.len())?;
    'items: for k in 0..items.len() {
        ready.push(independent_bytes(bits, &items[k].instr))?;
    }
    Ok(ready)
}

/// Returns the ready bytes of item `k`; none if it has none.
#[inline]
pub fn ready_of(ready: &[ArrayVec<u8, 15>], k: usize) -> &[u8]
    ensures { result.now ≡ spec.ready_at ready.now k }
{
    if k < ready.len() {
        return &ready[k];
    }
    &[]
}
