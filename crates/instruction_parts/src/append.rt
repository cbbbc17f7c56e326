//! Appending bytes that fit.

ghost use Rattle.std.specs.Prelude.{◌≡◌, ◌≤◌, ◌+◌, ◌++◌, length};
ghost use Rattle.arrayvec.specs.ArrayVec.{array_vec_len};

use arrayvec::ArrayVec;

/// Appends bytes.
#[inline]
pub fn append<const N: usize>(out: &mut ArrayVec<u8, N>, bytes: &[u8])
    requires { array_vec_len out.old + length bytes.now ≤ N }
    ensures { out.new.items ≡ out.old.items ++ bytes.now }
{
    match out.try_extend_from_slice(bytes) {
        Ok(()) => {}
        Err(_) => unreachable!(),
    }
}

/// Appends a few bytes one by one. In place of a copy with a test of the space this saves machine instructions.
#[inline(always)]
pub fn append_few<const N: usize>(out: &mut ArrayVec<u8, N>, bytes: &[u8])
    requires { array_vec_len out.old + length bytes.now ≤ N }
    ensures { out.new.items ≡ out.old.items ++ bytes.now }
{
    for b in bytes {
        out.push(*b);
    }
}
