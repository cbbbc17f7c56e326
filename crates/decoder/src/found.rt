//! The one row whose conditions hold, and what it reads.

ghost use Rattle.std.specs.Prelude.{◌≡◌, ◌+◌, ◌<◌, ◌≤◌, length, slice_get, MatchOption, Some, IfSome, IsNone, IsTrue};
ghost use Rattle.instruction_parts.specs.Front.{front_of, Known};
ghost use Rattle.prefixes.specs.Answer.{is_mode, mode_of};
ghost use Rattle.row_relation.specs.Spells.{ReadsAs, SpellsNothing};
ghost use Rattle.row_relation.specs.RowReading.{RowReads};
ghost use Rattle.instruction_parts.specs.declared.row_types.Row.{Row};
ghost use Rattle.instruction_parts.specs.RowFields.Holds.{holds};
ghost use Rattle.opcode_rows.specs.UniqueSpelling.FieldsOf.{fields_of};
ghost use Rattle.opcode_rows.specs.Table.{table};
ghost use Rattle.opcode_rows.specs.Allowed.{is_well_formed};
ghost use Rattle.decoder.specs.Bare as bare;
ghost use Rattle.decoder.specs.Cells.{RowIsLate};

use crate::bare::{BareRow, bare_row, immediates_at, is_bare_front};
use crate::cell::LONGEST;
use handler_tables::find_front;
use instruction_parts::PrefixState;
use instruction_parts::sizes::state_size;
use modrm_sib::{read_fitting_into, read_row_into};
use opcode_rows::{ROWS, row};
use prefixes::mode_of;
use std::sync::ledger::Ledger;
use step_count::Steps;
use x86_values::{Bits, Code, Decoded};

/// Writes to `out` the instruction at the front of bytes with a known front, or returns None if there is none. The one row whose conditions hold for
/// the front and the byte after it reads the instruction.
#[inline(always)]
pub(crate) fn read_found<const BITS: u32, L: Ledger>(
    ip: u64,
    state: &PrefixState,
    bytes: &[u8],
    out: &mut Decoded,
    steps: &mut Steps<L>,
) -> Option<()>
    requires mode { IsTrue (is_mode BITS) }
    requires front { front_of (mode_of BITS) bytes.now ≡ Known state.now }
    ensures reading { MatchOption result
        (SpellsNothing table (mode_of BITS) ip bytes.now)
        (λ _. ReadsAs table (mode_of BITS) ip bytes.now out.new.instr out.new.len) }
    ensures length { IfSome result
        (λ _. (0 < out.new.len) × (out.new.len ≤ 15) × (out.new.len ≤ length bytes.now)) }
    ensures form { IfSome result (λ _. IsTrue (is_well_formed out.new.instr)) }
    ensures most { steps.new ≤ steps.old + 12 }
    ensures least { IfSome result (λ _. steps.old + 3 ≤ steps.new) }
{
    let bits = mode_of::<BITS>();
    match find_front::<BITS, L>(state, byte_behind(state, bytes), steps) {
        None => None,
        Some(code) => read_by_code(bits, ip, state, code, bytes, out, steps),
    }
}

/// Returns the byte after the opcode byte.
#[inline]
fn byte_behind(state: &PrefixState, bytes: &[u8]) -> Option<u8>
    ensures { result ≡ slice_get bytes.now (state.now.used + 1) }
{
    bytes.get(state.used as usize + 1).copied()
}

/// Reads by the row of a code, whose conditions hold for the nine fields of the front and the byte after it. If no condition is left open, none is
/// tested.
// Which it is, is known before the row is looked up: so where nothing is asked the row need not stand in memory.
#[inline(always)]
fn read_by_code<L: Ledger>(
    bits: Bits,
    ip: u64,
    state: &PrefixState,
    code: Code,
    bytes: &[u8],
    out: &mut Decoded,
    steps: &mut Steps<L>,
) -> Option<()>
    requires front { front_of bits bytes.now ≡ Known state.now }
    requires code { code.0 < ROWS }
    requires holding { (row : Row) → slice_get table code.0 ≡ Some row
        → IsTrue (holds bits row (fields_of state.now (slice_get bytes.now (state.now.used + 1)))) }
    ensures some { IfSome result (λ _. (row : Row) → slice_get table code.0 ≡ Some row → RowReads bits ip code row bytes.now out.new) }
    ensures len { IfSome result (λ _. (0 < out.new.len) × (out.new.len ≤ 15) × (out.new.len ≤ length bytes.now)) }
    ensures none { IsNone result → (row : Row) → slice_get table code.0 ≡ Some row → RowIsLate bits row bytes.now }
    ensures step { steps.new ≡ steps.old + 1 }
{
    let known = bare_row(code);
    if known.bare && is_bare_front(bits, state) {
        read_bare(bits, ip, state, code, known, bytes, out, steps)
    } else {
        read_copied(bits, ip, state, code, bytes, out, steps)
    }
}

/// Reads by a row without further conditions.
#[inline(always)]
fn read_bare<L: Ledger>(
    bits: Bits,
    ip: u64,
    state: &PrefixState,
    code: Code,
    known: BareRow,
    bytes: &[u8],
    out: &mut Decoded,
    steps: &mut Steps<L>,
) -> Option<()>
    requires front { front_of bits bytes.now ≡ Known state.now }
    requires code { code.0 < ROWS }
    requires holding { (row : Row) → slice_get table code.0 ≡ Some row
        → IsTrue (holds bits row (fields_of state.now (slice_get bytes.now (state.now.used + 1)))) }
    requires known { slice_get bare.bare_rows code.0 ≡ Some known }
    requires bare { IsTrue known.bare }
    requires start { IsTrue (bare.is_bare_front bits state.now) }
    ensures some { IfSome result (λ _. (row : Row) → slice_get table code.0 ≡ Some row → RowReads bits ip code row bytes.now out.new) }
    ensures len { IfSome result (λ _. (0 < out.new.len) × (out.new.len ≤ 15) × (out.new.len ≤ length bytes.now)) }
    ensures none { IsNone result → (row : Row) → slice_get table code.0 ≡ Some row → RowIsLate bits row bytes.now }
    ensures step { steps.new ≡ steps.old + 1 }
{
    let row = row(code, steps);
    let size = state_size(bits, &row, state);
    let immediates = immediates_at(size, known);
    read_fitting_into(bits, ip, state, code, &row, size, immediates, bytes, out)
}

/// A copy of a front.
// Field by field: so LLVM need not keep the front itself in memory.
#[inline(always)]
pub(crate) fn copy_of(state: &PrefixState) -> PrefixState
    ensures { result ≡ state.now }
{
    PrefixState {
        used: state.used,
        size66: state.size66,
        addr67: state.addr67,
        lock: state.lock,
        rep: state.rep,
        seg: state.seg,
        rex: state.rex,
        vex: state.vex,
        map: state.map,
        opcode: state.opcode,
    }
}

/// Reads by a row like [`read_asked`], from a copy of the front.
#[inline(always)]
fn read_copied<L: Ledger>(
    bits: Bits,
    ip: u64,
    state: &PrefixState,
    code: Code,
    bytes: &[u8],
    out: &mut Decoded,
    steps: &mut Steps<L>,
) -> Option<()>
    requires front { front_of bits bytes.now ≡ Known state.now }
    requires code { code.0 < ROWS }
    ensures some { IfSome result (λ _. (row : Row) → slice_get table code.0 ≡ Some row → RowReads bits ip code row bytes.now out.new) }
    ensures len { IfSome result (λ _. (0 < out.new.len) × (out.new.len ≤ 15) × (out.new.len ≤ length bytes.now)) }
    ensures none { IsNone result → (row : Row) → slice_get table code.0 ≡ Some row → RowIsLate bits row bytes.now }
    ensures step { steps.new ≡ steps.old + 1 }
{
    let state = copy_of(state);
    read_asked(bits, ip, &state, code, bytes, out, steps)
}

/// Reads by a row, and tests all its conditions.
#[cold]
#[inline(never)]
fn read_asked<L: Ledger>(
    bits: Bits,
    ip: u64,
    state: &PrefixState,
    code: Code,
    bytes: &[u8],
    out: &mut Decoded,
    steps: &mut Steps<L>,
) -> Option<()>
    requires front { front_of bits bytes.now ≡ Known state.now }
    requires code { code.0 < ROWS }
    ensures some { IfSome result (λ _. (row : Row) → slice_get table code.0 ≡ Some row → RowReads bits ip code row bytes.now out.new) }
    ensures len { IfSome result (λ _. (0 < out.new.len) × (out.new.len ≤ 15) × (out.new.len ≤ length bytes.now)) }
    ensures none { IsNone result → (row : Row) → slice_get table code.0 ≡ Some row → RowIsLate bits row bytes.now }
    ensures step { steps.new ≡ steps.old + 1 }
{
    let row = row(code, steps);
    match read_row_into(bits, ip, state, code, &row, bytes, out) {
        Ok(()) => {
            if out.len as usize <= LONGEST {
                return Some(());
            }
            None
        }
        Err(_) => None,
    }
}
