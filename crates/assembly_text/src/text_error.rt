//! Why a text has no bytes.

use code_assembler::{BuildError, FinishError};
use thiserror::Error;

/// Why a line adds nothing.
#[derive(Clone, Copy, PartialEq, Eq, Debug, Error)]
pub enum LineError {
    /// The line is not the text of an instruction.
    #[error("no instruction has this text")]
    NotCode,
    /// The line is the text of several instructions, of which each has another size of its address: no operand tells which.
    #[error("the address needs a size")]
    SizeNeeded,
    /// A line of data has what is no number that fits, and no string.
    #[error("no number of this size, and no string")]
    NotData,
    /// No line has a label of the name.
    #[error("no line has a label of this name")]
    UnknownName,
    /// The routine refuses the line: there are too many items, the label is placed by an earlier line, or the instruction has no encoding.
    #[error("{why}")]
    Refused { why: BuildError },
    /// The line names a label whose address, or a sum with it, does not fit there.
    #[error("the address of a label does not fit")]
    DoesNotFit,
    /// What follows `align` is no power of two from 1 to 4096.
    #[error("an alignment is a power of two from 1 to 4096")]
    BadAlignment,
    /// The label of the line is a word of an operand, as `rax`, a mnemonic or a prefix, in any case.
    #[error("a label is no register, no word of an operand, no mnemonic and no prefix")]
    BadLabel,
}

/// Why a text has no bytes. The first line that is refused is reported.
#[derive(Clone, Copy, PartialEq, Eq, Debug, Error)]
pub enum AssembleError {
    /// There was not enough memory.
    #[error("out of memory")]
    NoMemory,
    /// The line of this number among the caller's names, from 1, is no name with a number.
    #[error("line {number} of the names is no name with a number")]
    AtName {
        number: u64,
    },
    /// There are more than 65,536 labels.
    #[error("more than 65,536 labels")]
    TooManyLabels,
    /// The line of this number is refused at this column, both from 1. Columns count bytes.
    #[error("line {number}, column {column}: {why}")]
    AtLine {
        number: u64,
        column: u64,
        why: LineError,
    },
    /// The routine has no bytes. The line of this number added the item that does not reach its target, or whose label has no place; if the end passes the
    /// address space, the last item. Its column is that of what it says besides its label. Both are from 1, and 0 where no item is the cause.
    #[error("line {number}, column {column}: {why}")]
    Unfinished {
        number: u64,
        column: u64,
        why: FinishError,
    },
    /// The labels did not have the addresses with which the lines were read, in none of 16 rounds.
    #[error("the addresses of the labels do not settle")]
    Unsettled,
}
