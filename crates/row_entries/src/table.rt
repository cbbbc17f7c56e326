//! The rows of the entries beside those of the table.

ghost use Rattle.std.specs.Prelude.{◌≡◌, ◌<◌, ◌≤◌, ◌↔◌, IsTrue, IsOk, IsNone, map};
ghost use Rattle.opcode_rows.specs.Table.{name_of};
ghost use Rattle.row_entries.specs.Rows.{view};
ghost use Rattle.row_entries.specs.Text.{in_small_letters};
ghost use Rattle.row_entries.specs.Table.{IsRowOf, AreRowsFrom, AreRows};

use crate::rows::NamedRow;
use crate::same::same_row;
use crate::text::is_small_of;
use opcode_rows::{ROWS, name, row_of};
use x86_values::Code;

/// Whether a name in capital letters is that of a code below `ROWS`.
fn is_name(capitals: &[u8], code: u16) -> bool
    requires { code < ROWS }
    ensures { IsTrue result ↔ (in_small_letters capitals.now ≡ name_of code) }
{
    is_small_of(name(Code(code)).as_bytes(), capitals)
}

/// Whether a row of an entry is that of a code below `ROWS`, field by field, and has its name.
fn is_row_at(row: &NamedRow, code: u16) -> bool
    requires { code < ROWS }
    ensures { IsTrue result ↔ IsRowOf (view row.now) code }
{
    same_row(&row.row, &row_of(Code(code))) && is_name(row.name, code)
}

/// Returns the first code from `at` on whose row is not the next of some rows; None if these are the rest of the table.
fn first_difference(rows: &[NamedRow], at: u16) -> Option<u16>
    requires { at ≤ ROWS }
    ensures { IsNone result ↔ AreRowsFrom (map view rows.now) at }
{
    match rows {
        [] => if at < ROWS { Some(at) } else { None },
        [row, rest @ ..] => if at < ROWS && is_row_at(row, at) {
            first_difference(rest, at + 1)
        } else {
            Some(at)
        },
    }
}

/// Compares rows, in the order of the table, with its rows and names. It is proved to return Ok exactly if there are as many rows as in the table and
/// each is the row of its code, with its name. If they differ it returns a code at which they differ, the first one; no clause pins that number.
pub fn compare(rows: &[NamedRow]) -> Result<(), u16>
    ensures { IsOk result ↔ AreRows (map view rows.now) }
{
    match first_difference(rows, 0) {
        None => Ok(()),
        Some(at) => Err(at),
    }
}
