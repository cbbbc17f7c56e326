//! Bytes that do not depend on their address.

ghost use Rattle.std.specs.Prelude.{◌≡◌, ◌<◌, length};
ghost use Rattle.move_goals.specs.MovedTargets.Independent as spec;

use crate::moved_targets::laws::without_target_encoded_alike;
use crate::moved_targets::target_of;
use arrayvec::ArrayVec;
use encoder::encode;
use x86_values::{Bits, Instr};

/// Returns the bytes, 1 to 15, of the plain spelling of an instruction without a target. They are the same at every address. Returns None if it has a
/// target or no plain spelling.
pub fn independent_bytes(bits: Bits, instr: &Instr) -> ArrayVec<u8, 15>
    ensures value { result.items ≡ spec.independent_bytes bits instr.now }
    ensures everywhere { 0 < length result.items → spec.IsIndependent bits instr.now result.items }
{
    // Four operands, as the proof has to know.
    let [_first, _second, _third, _fourth] = instr.ops;
    without_target_encoded_alike();
    if target_of(instr).is_some() {
        return ArrayVec::new();
    }
    match encode(bits, 0, instr) {
        Ok(bytes) => bytes,
        Err(_) => ArrayVec::new(),
    }
}
