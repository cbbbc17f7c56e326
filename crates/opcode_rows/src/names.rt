//! The names of the rows, in the lists that hold them.

ghost use Rattle.std.specs.Prelude.{◌≡◌, ◌<◌, ◌≤◌, length, map};
ghost use Rattle.opcode_rows.specs.Table.{name_of};
ghost use Rattle.opcode_rows.specs.Table as spec;
ghost use Rattle.opcode_rows.specs.NameLines as lines;

use crate::generated_names::{
    ADDED_NAMES, NAMES_FROM_0, NAMES_FROM_512, NAMES_FROM_1024, NAMES_FROM_1536,
};
use crate::generated_spots::{ADDED_ROWS, ROWS, VERSION1_ROWS};

/// The names of the rows with the codes below 1,536, 512 a line.
static LINES: [[&str; 512]; 3] = [NAMES_FROM_0, NAMES_FROM_512, NAMES_FROM_1024];

/// The name of a row with a code below 1,536.
#[inline]
pub(crate) fn early_name(code: u16) -> &'static str
    requires { code < 1536 }
    ensures { result.now ≡ name_of code }
{
    names_in_line((code / 512) as usize)[(code % 512) as usize]
}

/// The name of a row with a code from 1,536 on.
#[inline(never)]
pub(crate) fn later_name(code: u16) -> &'static str
    requires behind { 1536 ≤ code }
    requires within { code < ROWS }
    ensures { result.now ≡ name_of code }
{
    if code < VERSION1_ROWS {
        names_from_1536()[(code % 512) as usize]
    } else {
        added_name(code)
    }
}

/// The name of a row of version 2.
fn added_name(code: u16) -> &'static str
    requires behind { VERSION1_ROWS ≤ code }
    requires within { code < ROWS }
    ensures { result.now ≡ name_of code }
{
    added_names()[(code - VERSION1_ROWS) as usize]
}

/// The names of line `n`: the rows with the codes from `512 * n` on.
#[inline]
fn names_in_line(n: usize) -> &'static [&'static str; 512]
    requires { n < 3 }
    ensures names { map (λ name. name.now) result.now ≡ lines.names_in_line n }
    ensures count { length result.now ≡ 512 }
{
    &early_lines()[n]
}

/// The names of the rows with the codes below 1,536, line by line.
#[inline]
fn early_lines() -> &'static [[&'static str; 512]; 3]
    ensures { map (map (λ name. name.now)) result.now ≡ lines.early_lines }
{
    &LINES
}

/// The names of the rows of version 1 with the codes from 1,536 on.
fn names_from_1536() -> &'static [&'static str; 433]
    ensures names { map (λ name. name.now) result.now ≡ spec.names_from_1536 }
    ensures count { length result.now ≡ 433 }
{
    &NAMES_FROM_1536
}

/// The names of the rows of version 2, by code from `VERSION1_ROWS` on.
fn added_names() -> &'static [&'static str; ADDED_ROWS as usize]
    ensures names { map (λ name. name.now) result.now ≡ spec.added_names }
    ensures count { length result.now ≡ ADDED_ROWS }
{
    &ADDED_NAMES
}
