//! The codes of the opcode table by the names of their rows.

ghost use Rattle.std.specs.Prelude.{◌≡◌, ℕ, ◌+◌, ◌<◌, ◌≤◌, Some, slice_get};
ghost use Rattle.intel_reader.specs.Buckets.{bucket_of, order, starts};
ghost use Rattle.opcode_rows.specs.Table.{name_of};

use crate::generated_buckets::{ORDER, STARTS};
use opcode_rows::ROWS;
use x86_values::Code;

/// Consecutive indices into the codes in the order of their names: from the first one up to the end, which is excluded.
#[derive(Clone, Copy)]
pub struct Indices {
    pub first: u16,
    pub end: u16,
}

/// The bucket of a name.
fn bucket(name: &[u8]) -> u16
    ensures bucket { result ≡ bucket_of name.now }
    ensures below { result < 1024 }
{
    let mut bucket = 0;
    for byte in name {
        bucket = (bucket * 31 + *byte as u16) % 1024;
    }
    bucket
}

/// Returns the start of a bucket.
fn start_at(bucket: u16) -> u16
    requires { bucket < 1025 }
    ensures start { slice_get starts bucket ≡ Some result }
    ensures within { result ≤ ROWS }
{
    STARTS[bucket as usize]
}

/// Returns indices that include every code whose row has this name, a mnemonic in lower case, and few others.
pub fn indices_of(name: &[u8]) -> Indices
    ensures within { result.end ≤ ROWS }
    ensures found { (code : ℕ) → code < ROWS → name_of code ≡ name.now → (k : ℕ) × (result.first ≤ k) × (k < result.end) × (slice_get order k ≡ Some code) }
{
    let bucket = bucket(name);
    Indices {
        first: start_at(bucket),
        end: start_at(bucket + 1),
    }
}

/// Returns the code at an index.
pub fn code_at(index: u16) -> Code
    requires { index < ROWS }
    ensures at { slice_get order index ≡ Some result.0 }
    ensures below { result.0 < ROWS }
{
    Code(ORDER[index as usize])
}
