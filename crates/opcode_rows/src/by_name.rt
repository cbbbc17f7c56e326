//! The rows of a name.

ghost use Rattle.std.specs.Prelude.{◌≡◌, ◌<◌, ◌≤◌, ◌↔◌, IfSome, IsNone};
ghost use Rattle.opcode_rows.specs.Table.{name_of};
ghost use Rattle.opcode_rows.specs.ByName.{rows_named, rows_named_before};

use crate::ROWS;
use x86_values::Code;

/// Returns the code of the `n`-th row with a name, from 0, in the order of codes; None exactly if the name has at most `n` rows.
///
/// The name is a mnemonic in lower case, as [`name`](crate::name) returns it.
///
/// ```
/// if let Some(code) = code_of("imul", 0) {
///     println!(rt; "{} {}", name(code), from_utf8(&notation_of(code))?)?; // imul o16 69 /r iw
/// }
/// ```
pub fn code_of(name: &str, n: usize) -> Option<Code>
    ensures row { IfSome result (λ code. code.0 < ROWS) }
    ensures named { IfSome result (λ code. name_of code.0 ≡ name.now) }
    ensures order { IfSome result (λ code. rows_named_before name.now code.0 ≡ n) }
    ensures none { IsNone result ↔ (rows_named name.now ≤ n) }
{
    let mut passed = 0;
    for code in 0..ROWS {
        if crate::name(Code(code)) == name {
            if passed == n {
                return Some(Code(code));
            }
            passed += 1;
        }
    }
    None
}
