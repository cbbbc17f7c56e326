//! What holds of the shapes and the notations of all rows.
ghost use Rattle.std.specs.Prelude.{◌≡◌, ◌<◌, ℕ, IsTrue, slice_get, Some, Ok};
ghost use Rattle.instruction_parts.specs.declared.row_types.Row.{Row};
ghost use Rattle.row_notation.specs.Shape.{is_proper, shape};
ghost use Rattle.opcode_rows.specs.Table.{table};

use crate::row_lines::notation_of;
use instruction_parts::row_types::RowShape;
use opcode_rows::ROWS;
use row_notation::{NotationFault, read_notation};
use x86_values::Code;

/// Each row of the table makes a proper shape, so it has a notation.
pub fn rows_have_proper_shapes()
    ensures { (code : ℕ) (row : Row) → slice_get table code ≡ Some row → IsTrue (is_proper (shape row)) }
{}

/// Reading the notation of a row returns the shape of the row.
pub fn notation_is_read_back(code: Code) -> Result<RowShape, NotationFault>
    requires { code.0 < ROWS }
    ensures { (row : Row) → slice_get table code.0 ≡ Some row → result ≡ Ok (shape row) }
{
    read_notation(notation_of(code).as_slice())
}
