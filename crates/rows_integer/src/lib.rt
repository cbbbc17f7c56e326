//! The integer rows of the opcode table, by index and by cell: the one-byte map, map 0F and map 0F38 (Intel SDM volume 2, appendix A).
#![tactic(auto)]

mod generated_table;
pub mod laws;

ghost use Rattle.instruction_parts.specs.declared.row_types.RowKind.TheVariants.{Legacy};
ghost use Rattle.std.specs.Prelude.{◌≡◌, ◌<◌, length, slice_get, Some};
ghost use Rattle.instruction_parts.specs.Cells.{cell_of};
ghost use Rattle.instruction_parts.specs.Lists.{IsListOf};
ghost use Rattle.rows_integer.specs.Table.{table, spans};

pub use generated_table::ROWS;
use generated_table::{FLAT_ROWS, SPANS};
use instruction_parts::row_lists::RowList;
use instruction_parts::row_types::{Map, Row, RowKind};

/// The rows as one list, by index and by cell.
#[inline]
pub fn list() -> RowList
    ensures { IsListOf Legacy table spans ROWS result }
{
    RowList::new(RowKind::Legacy, &FLAT_ROWS, &SPANS)
}

/// How many of these rows stand at an opcode byte of a map. A row that adds a register to its opcode byte stands at eight.
#[inline]
pub fn cell_len(map: Map, opcode: u8) -> u16
    ensures { result ≡ length (cell_of table Legacy map opcode) }
{
    list().cell_len(map, opcode)
}

/// The `i`-th row of those that stand at an opcode byte of a map, from 0, in the table's order.
#[inline]
pub fn cell_row(map: Map, opcode: u8, i: u16) -> Row
    requires { i < length (cell_of table Legacy map opcode) }
    ensures { slice_get (cell_of table Legacy map opcode) i ≡ Some result }
{
    list().cell_row(map, opcode, i)
}
