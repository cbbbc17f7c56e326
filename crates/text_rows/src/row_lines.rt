//! The table printed: one line a row, with its code, its notation and its name.

pub mod laws;

ghost use Rattle.std.specs.Prelude.{◌≡◌, ◌<◌, ◌≤◌, ◌+◌, ◌∷◌, ◌++◌, [], length, IsTrue, Some, slice_get, decimal};
ghost use Rattle.row_notation.specs.Shape.{is_proper, shape};
ghost use Rattle.row_notation.specs.Notation.{notation};
ghost use Rattle.opcode_rows.specs.Table.{table, name_of};
ghost use Rattle.text_rows.specs.RowLines.Lines as spec;

use arrayvec::ArrayVec;
use instruction_parts::row_types::Row;
use itoa::Buffer;
use opcode_rows::{ROWS, name, row_of};
use row_notation::write_notation;
use text_parts::text::append;
use x86_values::Code;

/// The row of a code, which makes a proper shape.
fn proper_row(code: Code) -> Row
    requires { code.0 < ROWS }
    ensures row { slice_get table code.0 ≡ Some result }
    ensures proper { IsTrue (is_proper (shape result)) }
{
    row_of(code)
}

/// Returns the notation of the row of a code below `ROWS`.
#[tactic(auto, unfolding(crate::specs::RowLines::Lines::notation_at))]
pub fn notation_of(code: Code) -> ArrayVec<u8, 64>
    requires { code.0 < ROWS }
    ensures { result.items ≡ spec.notation_at code.0 }
{
    write_notation(&proper_row(code))
}

/// Returns the line of a code below `ROWS`: the code in decimal, the row's notation and its name, separated by spaces and followed by a line feed.
#[tactic(auto, unfolding(crate::specs::RowLines::Lines::row_line))]
pub fn row_line(code: Code) -> ArrayVec<u8, 128>
    requires { code.0 < ROWS }
    ensures { result.items ≡ spec.row_line code.0 }
{
    let mut line = ArrayVec::new();
    append(&mut line, Buffer::new().format(code.0).as_bytes());
    append(&mut line, b" ");
    append(&mut line, notation_of(code).as_slice());
    append(&mut line, b" ");
    append(&mut line, name(code).as_bytes());
    append(&mut line, b"\n");
    line
}
