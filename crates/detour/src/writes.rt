//! The order in which a patch is written over code that other processors may run.

ghost use Rattle.std.specs.Prelude.{◌≡◌, ℕ, ◌<◌, ◌≤◌, List, [], ◌∷◌, length, take, map};
ghost use Rattle.x86_values.specs.declared.Bits.{Bits as Mode};
ghost use Rattle.detour.specs.declared.start.MoveRule.{MoveRule as Rule};
ghost use Rattle.detour.specs.Detours.{IsDetour};
ghost use Rattle.detour.specs.Writes as spec;
ghost use Rattle.detour.specs.Writes.{IsSafeOrder, IsPatchSafe, write_state};

use crate::laws_below::laws_below;
use crate::parts::Detour;

/// INT3, one byte, which stops each processor that runs it.
const INT3: [u8; 1] = [0xCC];

/// One of the writes that put bytes over the first ones of a function.
#[derive(Clone, Copy, PartialEq, Eq, Debug)]
pub struct Write<'a> {
    /// The offset of the first of the bytes, from the first byte of the function.
    pub offset: usize,
    /// The bytes. There may be none.
    pub bytes: &'a [u8],
}

/// Returns as many bytes INT3 as are asked for, one at most.
fn stop_bytes(count: usize) -> &'static [u8]
    requires { count ≤ 1 }
    ensures { result.now ≡ take count (0xCC ∷ []) }
{
    &INT3[..count]
}

/// Returns the writes that put `bytes` over the first bytes of a function, in order: INT3 over the first byte, the other bytes after it, then the first
/// byte.
///
/// At each moment all bytes are old, or the first one is INT3, or all are new: after each write, and in the midst of one, whichever of its bytes are there
/// already. A processor that runs the function must see the writes in this order, so between two of them the caller serializes each processor. One that runs
/// INT3 traps, and the handler of that trap sends it back to the function's first byte.
///
/// The bytes that a patch replaced, written in this order, remove it again. For no bytes, each write has none, at offset 0.
///
/// ```
/// for write in writes_of(b"\xe9\xfb\xef\x0f\x00") {
///     println!(rt; "{} {:?}", write.offset, write.bytes)?; // 0 [204], 1 [251, 239, 15, 0], 0 [233]
/// }
/// ```
pub fn writes_of(bytes: &[u8]) -> [Write<'_>; 3]
    ensures exact { map write_state result ≡ spec.writes_of bytes.now }
    ensures order { 0 < length bytes.now → (code : List ℕ) → length bytes.now ≤ length code → IsSafeOrder code bytes.now }
{
    let count = bytes.len().min(1);
    let (first, others) = bytes.split_at(count);
    let stop = Write {
        offset: 0,
        bytes: stop_bytes(count),
    };
    let behind = Write {
        offset: count,
        bytes: others,
    };
    let start = Write {
        offset: 0,
        bytes: first,
    };
    [stop, behind, start]
}

impl Detour {
    /// Returns the writes that put the patch over the function, in order: INT3 over the first byte, the other bytes of the patch, then its first byte.
    ///
    /// [`writes_of`] says what a processor finds that runs the function at the same time. A patch has one byte at least. To remove it, write the bytes that
    /// it replaced, the first [`taken`](Detour::taken) of the function, by `writes_of`.
    pub fn writes(&self) -> [Write<'_>; 3]
        ensures exact { map write_state result ≡ spec.writes_of self.now.patch }
        ensures order { (bits : Mode) (ip : ℕ) (code : List ℕ) (to place : ℕ) (rule : Rule) → IsDetour bits ip code to place rule self.now
            → IsPatchSafe code self.now.patch }
    {
        laws_below();
        writes_of(&self.patch)
    }
}
