//! The opcode table: the rows of all crates in one order, by code and by cell (Intel SDM volume 2, appendix A).
//!
//! It grows only at its end. The rows of version 1 have the codes below `VERSION1_ROWS`, and those of version 2 (FMA, F16C, AES, PCLMULQDQ) follow
//! them. `laws` states that nothing else changed with them.
#![tactic(auto)]

mod by_name;
mod form;
mod generated_cells;
mod generated_names;
mod generated_spots;
pub mod laws;
mod names;
mod spot;
pub mod unique_spelling;

ghost use Rattle.std.specs.Prelude.{◌≡◌, ◌+◌, ◌<◌, ◌≤◌, ◌↔◌, length, map, slice_get, Some, IfSome, IsNone};
ghost use Rattle.instruction_parts.specs.Cells.{map_index, cell_span, IsRunOf};
ghost use Rattle.opcode_rows.specs.Table.{part_table, spots, table, name_of, cell, table_spans};

pub use by_name::code_of;
pub use form::well_formed;
use generated_cells::{LEGACY_SPANS, VEX_SPANS};
use generated_spots::SPOTS;
pub use generated_spots::{ROWS, VERSION1_ROWS};
use instruction_parts::row_lists::{Span, span_in};
use instruction_parts::row_types::{Map, Row, RowKind};
use names::{early_name, later_name};
use spot::{Part, Spot};
use std::sync::ledger::Ledger;
use step_count::Steps;
use x86_values::Code;

/// Returns the row of a code below `ROWS`. It counts as one step.
#[inline]
pub fn row<L: Ledger>(code: Code, steps: &mut Steps<L>) -> Row
    requires { code.0 < ROWS }
    ensures row { slice_get table code.0 ≡ Some result }
    ensures step { steps.new ≡ steps.old + 1 }
{
    steps.tick();
    row_of(code)
}

/// Returns the row of a code below `ROWS`, without counting a step.
#[inline]
pub fn row_of(code: Code) -> Row
    requires { code.0 < ROWS }
    ensures { slice_get table code.0 ≡ Some result }
{
    common_row(spot_at(code.0))
}

/// Returns the mnemonic of a code below `ROWS`, in lower case: 1 to 16 letters and digits.
///
/// It is the manual's name without a condition alias: `je`, not `jz`.
pub fn name(code: Code) -> &'static str
    requires { code.0 < ROWS }
    ensures name { result.now ≡ name_of code.0 }
    ensures short { length result.now ≤ 16 }
{
    if code.0 < 1536 {
        early_name(code.0)
    } else {
        later_name(code.0)
    }
}

/// Returns the code of the first row at an opcode byte of a kind and map; None exactly if there is no row. The rows of the cell have consecutive
/// codes from it on, as many as [`cell_len`] returns. A row that adds a register to its opcode byte belongs to eight cells.
pub fn first_of(kind: RowKind, map: Map, opcode: u8) -> Option<Code>
    ensures run { IfSome result (λ first. IsRunOf table kind map opcode first.0 (length (cell kind map opcode))) }
    ensures within { IfSome result (λ first. first.0 + length (cell kind map opcode) ≤ ROWS) }
    ensures none { IsNone result ↔ (length (cell kind map opcode) ≡ 0) }
{
    let span = span_at(kind, map, opcode);
    if span.count == 0 {
        None
    } else {
        Some(Code(span.first))
    }
}

/// Returns the number of rows at an opcode byte of a kind and map.
pub fn cell_len(kind: RowKind, map: Map, opcode: u8) -> u16
    ensures { result ≡ length (cell kind map opcode) }
{
    span_at(kind, map, opcode).count
}

/// The row of a code, without a step.
#[inline]
fn row_at(code: Code) -> Row
    requires { code.0 < ROWS }
    ensures { slice_get table code.0 ≡ Some result }
{
    spot_row(spot_at(code.0))
}

/// Returns where the row of a code lies.
#[inline]
fn spot_at(code: u16) -> Spot
    requires { code < ROWS }
    ensures { slice_get spots code ≡ Some result }
{
    SPOTS[code as usize]
}

/// Returns the row at a spot.
#[inline]
fn spot_row(spot: Spot) -> Row
    requires { spot.at < length (part_table spot.part) }
    ensures { slice_get (part_table spot.part) spot.at ≡ Some result }
{
    match spot.part {
        Part::Integer => rows_integer::list().row_at(spot.at as usize),
        Part::X87 => rows_x87::list().row_at(spot.at as usize),
        Part::Sse => rows_sse::list().row_at(spot.at as usize),
        Part::Vex => rows_vex::list().row_at(spot.at as usize),
    }
}

/// Returns the row at a spot, by a call.
#[inline(never)]
fn any_row(spot: Spot) -> Row
    requires { spot.at < length (part_table spot.part) }
    ensures { slice_get (part_table spot.part) spot.at ≡ Some result }
{
    spot_row(spot)
}

/// Returns the row at a spot, and tests first for the integer rows, which are most frequent.
#[inline]
fn common_row(spot: Spot) -> Row
    requires { spot.at < length (part_table spot.part) }
    ensures { slice_get (part_table spot.part) spot.at ≡ Some result }
{
    match spot.part {
        Part::Integer => rows_integer::list().row_at(spot.at as usize),
        _ => any_row(spot),
    }
}

/// Returns where the rows of a cell lie: the code of the first, and their number.
fn span_at(kind: RowKind, map: Map, opcode: u8) -> Span
    ensures { cell_span (table_spans kind) (map_index map) opcode ≡ Some result }
{
    span_in(kind_spans(kind), map, opcode)
}

/// Returns where the rows of each cell of a kind lie.
fn kind_spans(kind: RowKind) -> &'static [[Span; 256]; 4]
    ensures { result.now ≡ table_spans kind }
{
    match kind {
        RowKind::Legacy => &LEGACY_SPANS,
        RowKind::Vex => &VEX_SPANS,
    }
}
