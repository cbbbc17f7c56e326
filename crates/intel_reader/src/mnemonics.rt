//! The mnemonics of the table.

ghost use Rattle.std.specs.Prelude.{◌≡◌, ℕ, ◌<◌, true, false, Some, slice_get};
ghost use Rattle.opcode_rows.specs.Table.{name_of};
ghost use Rattle.intel_reader.specs.Buckets.{order};
ghost use Rattle.intel_reader.specs.Mnemonics as spec;

use crate::buckets::{code_at, indices_of};
use crate::choice::is_counter_word;
use opcode_rows::{ROWS, name as name_of_row};

/// Whether the code at an index in the order by names has this name.
fn is_named_at(index: u16, name: &[u8]) -> bool
    requires { index < ROWS }
    ensures named { result ≡ true → spec.is_named_below ROWS name.now ≡ true }
    ensures other { result ≡ false → (code : ℕ) → code < ROWS → slice_get order index ≡ Some code → name_of code ≡ name.now → ⊥ }
{
    let code = code_at(index);
    name_of_row(code).as_bytes() == name
}

/// Returns whether a name is a mnemonic of the table as the printer writes it, in lower case and without prefixes: `jecxz` is one, `jz` is none, since the
/// printer writes `je`.
pub fn is_mnemonic(name: &[u8]) -> bool
    ensures { result ≡ spec.is_mnemonic name.now }
{
    let indices = indices_of(name);
    for index in indices.first..indices.end {
        if is_named_at(index, name) {
            return true;
        }
    }
    is_counter_word(name)
}
