//! Routines as text.

ghost use Rattle.c_calls.specs.Routines.{IsNearRoutineCall, IsRoutineCall};

use c_calls::flat::{FlatLabel, FlatRoutine};
use c_calls::routines;
use std::alloc::Global;

/// Assembles a routine as text: instructions, labels, data and comments, a line each. The first byte lies at the address `base`.
///
/// A line is, in this order and each optional: a label, which is a name and a colon; an instruction or data; and a comment from `;` or `#` on. An instruction
/// is an Intel text as people write it. A branch, or an operand at RIP or EIP, can name a label. A branch is short unless its label is out of reach, and none
/// is longer than the others make it. `names` has a line for each name with a number: `puts = 0x401180`. `docs/assembler.md` describes the texts.
///
/// Writes the bytes to the start of `code`, and the labels in the order of their lines to the start of `labels`. Returns 0. The report has the numbers of bytes
/// and labels also if a buffer is too small.
///
/// Refusals, in this order: mode; the first bad line of `names`; too many labels; the first line of the text that is refused, with its column; then what no
/// single line is the cause of: a label without an address, an end that passes the address space, an instruction that does not reach its target; a buffer that
/// is too small. `No memory` can replace each but the first. A buffer is unchanged then. The call allocates from the C library, and frees what it took.
#[unsafe(no_mangle)]
pub extern "C" fn feddurzai_assemble_code(
    alloc: Global,
    bits: u32,
    base: u64,
    text: &[u8],
    names: &[u8],
    code: &mut [u8],
    labels: &mut [FlatLabel],
    report: &mut FlatRoutine,
) -> i32
    ensures { IsRoutineCall bits base text.now names.now code.old code.new labels.old labels.new report.new result }
{
    routines::assemble_code(alloc, bits, base, text, names, code, labels, report)
}

/// Assembles a routine as text as [`feddurzai_assemble_code`] does, without slots: in 64-bit mode a branch to an address that is out of reach is refused.
///
/// Refusals: those of [`feddurzai_assemble_code`]. An instruction that does not reach its target is then also the first branch that would go through a slot.
#[unsafe(no_mangle)]
pub extern "C" fn feddurzai_assemble_code_near(
    alloc: Global,
    bits: u32,
    base: u64,
    text: &[u8],
    names: &[u8],
    code: &mut [u8],
    labels: &mut [FlatLabel],
    report: &mut FlatRoutine,
) -> i32
    ensures { IsNearRoutineCall bits base text.now names.now code.old code.new labels.old labels.new report.new result }
{
    routines::assemble_code_near(alloc, bits, base, text, names, code, labels, report)
}
