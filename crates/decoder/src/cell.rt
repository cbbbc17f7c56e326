//! The rows of an opcode byte, and the error that they determine.

ghost use Rattle.std.specs.Prelude.{◌≡◌, ◌+◌, ◌≤◌, is_some, Err};
ghost use Rattle.instruction_parts.specs.Front.{front_of, Known};
ghost use Rattle.row_relation.specs.Spells.{IsReading, SpellsNothing};
ghost use Rattle.instruction_parts.specs.RowFields.Holds.{is_vex};
ghost use Rattle.opcode_rows.specs.Table.{table};
ghost use Rattle.decoder.specs.Answer.{reading_of};
ghost use Rattle.decoder.specs.Cells.{CellIs, cell_count};

use crate::DecodeError;
use instruction_parts::PrefixState;
use instruction_parts::row_types::RowKind;
use modrm_sib::{TailError, read_row};
use opcode_rows::{ROWS, cell_len, first_of, row};
use std::sync::ledger::Ledger;
use step_count::Steps;
use x86_values::{Bits, Code};

/// The most bytes of an instruction (Intel SDM volume 2, 2.3.11).
pub(crate) const LONGEST: usize = 15;

/// The rows of one opcode byte: the code of the first, and their number.
#[derive(Clone, Copy)]
pub(crate) struct Cell {
    first: u16,
    len: u16,
}

/// Returns the kind of the rows after a front.
#[inline]
fn kind_of(state: &PrefixState) -> RowKind
    ensures { is_vex result ≡ is_some state.now.vex }
{
    match state.vex {
        None => RowKind::Legacy,
        Some(_) => RowKind::Vex,
    }
}

/// The rows that have the kind, the map and the opcode byte of a front.
#[inline]
pub(crate) fn cell_of(state: &PrefixState) -> Cell
    ensures within { result.first + result.len ≤ ROWS }
    ensures rows { CellIs table state.now result.first (result.first + result.len) }
    ensures count { result.len ≡ cell_count state.now }
{
    let kind = kind_of(state);
    let opcode = state.opcode;
    match first_of(kind, state.map, opcode) {
        None => Cell { first: 0, len: 0 },
        Some(first) => Cell {
            first: first.0,
            len: cell_len(kind, state.map, opcode),
        },
    }
}

/// Returns why bytes with a known front begin with no instruction, by the rows of its cell: whether more bytes can complete one. Each row is a step.
#[cold]
#[inline(never)]
pub(crate) fn error_of<L: Ledger>(
    bits: Bits,
    ip: u64,
    state: &PrefixState,
    bytes: &[u8],
    cell: Cell,
    steps: &mut Steps<L>,
) -> DecodeError
    requires within { cell.first + cell.len ≤ ROWS }
    requires rows { CellIs table state.now cell.first (cell.first + cell.len) }
    requires front { front_of bits bytes.now ≡ Known state.now }
    requires nothing { SpellsNothing table bits ip bytes.now }
    ensures reading { IsReading table bits ip bytes.now (reading_of (Err result)) }
    ensures steps { steps.new ≤ steps.old + cell.len }
{
    let mut goes_on = false;
    for n in 0..cell.len {
        let code = Code(cell.first + n);
        let row = row(code, steps);
        match read_row(bits, ip, state, code, &row, bytes) {
            Ok(_) => {}
            Err(TailError::Ended) => goes_on = true,
            Err(TailError::Forbidden) => {}
        }
    }
    if goes_on && bytes.len() < LONGEST {
        DecodeError::TooShort
    } else {
        DecodeError::Invalid
    }
}
