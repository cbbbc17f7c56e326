//! Lists that grow where there is room.

ghost use Rattle.std.specs.Prelude.{◌≡◌, ◌<◌, ◌≤◌, ◌+◌, ◌++◌, [], ◌∷◌, IfOk, Some, length, map, take, replicate, vec_len, vec_capacity};

use arrayvec::ArrayVec;
use std::alloc::{AllocError, Global};

/// Appends to a vector that has room.
pub(crate) fn append<T: Drop>(list: &mut Vec<T>, value: T)
    requires { vec_len list.old < vec_capacity list.old }
    ensures { list.new.items ≡ list.old.items ++ value ∷ [] }
{
    list.push_reserved(value);
}

/// Fills a vector up that has room.
#[tactic(auto, using(crate::proofs::Longer::replicate_more))]
pub(crate) fn fill<T: Drop + Copy>(list: &mut Vec<T>, count: usize, value: T)
    requires { vec_len list.old + count ≤ vec_capacity list.old }
    ensures { list.new.items ≡ list.old.items ++ replicate count value }
{
    'values: for _k in 0..count {
        list.push_reserved(value);
    }
}

/// A copy of ready bytes.
#[inline]
pub(crate) fn copy_of_ready(ready: &ArrayVec<u8, 15>) -> ArrayVec<u8, 15>
    ensures { result ≡ ready.now }
{
    let mut copy = ArrayVec::new();
    match copy.try_extend_from_slice(ready.as_slice()) {
        Ok(()) => copy,
        // It does not happen: there is room for as many bytes.
        Err(_) => ArrayVec::new(),
    }
}

/// Fills a vector of ready bytes up that has room.
#[tactic(auto, using(crate::proofs::Longer::replicate_more))]
pub(crate) fn fill_ready(list: &mut Vec<ArrayVec<u8, 15>>, count: usize, ready: &ArrayVec<u8, 15>)
    requires { vec_len list.old + count ≤ vec_capacity list.old }
    ensures { list.new.items ≡ list.old.items ++ replicate count ready.now }
{
    'values: for _k in 0..count {
        list.push_reserved(copy_of_ready(ready));
    }
}

/// Appends bytes of data to a vector that has room.
#[tactic(auto, using(crate::proofs::Longer::bytes_more))]
pub(crate) fn append_bytes(list: &mut Vec<Option<u8>>, bytes: &[u8])
    requires { vec_len list.old + length bytes.now ≤ vec_capacity list.old }
    ensures { list.new.items ≡ list.old.items ++ map Some bytes.now }
{
    'bytes: for k in 0..bytes.len() {
        list.push_reserved(Some(bytes[k]));
    }
}

/// A copy of a list with one element more.
pub(crate) fn longer<T: Copy + Drop>(
    alloc: Global,
    list: &[T],
    last: T,
) -> Result<Vec<T>, AllocError>
    ensures { IfOk result (λ copy. copy.items ≡ list.now ++ last ∷ []) }
{
    let mut copy = Vec::with_capacity(alloc, list.len().saturating_add(1))?;
    copy.extend_from_slice(list)?;
    copy.push(last)?;
    Ok(copy)
}

/// A copy of the ready bytes of some items, with those of one item more.
pub(crate) fn longer_ready(
    alloc: Global,
    list: &[ArrayVec<u8, 15>],
    last: ArrayVec<u8, 15>,
) -> Result<Vec<ArrayVec<u8, 15>>, AllocError>
    ensures { IfOk result (λ copy. copy.items ≡ list.now ++ last ∷ []) }
{
    let mut copy = Vec::with_capacity(alloc, list.len().saturating_add(1))?;
    'items: for k in 0..list.len() {
        copy.push(copy_of_ready(&list[k]))?;
    }
    copy.push(last)?;
    Ok(copy)
}

/// The first of some numbers, as many as there are.
pub(crate) fn front_of(numbers: &[u64], count: usize) -> &[u64]
    ensures { result.now ≡ take count numbers.now }
{
    if count < numbers.len() {
        &numbers[..count]
    } else {
        numbers
    }
}
