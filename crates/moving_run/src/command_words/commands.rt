//! The commands of the program.

use crate::command_words::count::SampleCount;
use crate::command_words::range::SlotRange;
use arrayvec::ArrayVec;
use text_parts::style::Style;
use x86_values::Bits;

/// A command of the command line, with its values.
#[derive(Drop)]
pub enum Command {
    /// The help text.
    Help,
    /// The name and version.
    Version,
    /// The listing of the input as code of a mode, whose first byte has the address `base`, in a style.
    List {
        bits: Bits,
        base: u64,
        syntax: Style,
    },
    /// What each instruction of the input does, the input being code of a mode whose first byte has the address `base`.
    Info {
        bits: Bits,
        base: u64,
    },
    /// The bytes of each instruction in the mode `to`, with the first byte at the address `new_base`. The input is code of a mode whose first byte
    /// has the address `base`.
    Recode {
        bits: Bits,
        base: u64,
        to: Bits,
        new_base: u64,
    },
    /// What control reaches from the first byte of the input, the input being code of a mode whose first byte has the address
    /// `base`.
    Flow {
        bits: Bits,
        base: u64,
    },
    /// The bytes of the input's lines, each of them the Intel text of an instruction or a single byte, as code of a mode whose first byte
    /// has the address `base`.
    Asm {
        bits: Bits,
        base: u64,
    },
    /// The bytes of the input, which is code of a mode whose first byte has the address `old`, moved to the address `new`.
    Move {
        bits: Bits,
        old: u64,
        new: u64,
    },
    /// The new address and the form of each instruction of the input in the same move.
    Map {
        bits: Bits,
        old: u64,
        new: u64,
    },
    /// The bytes of the input, cut into 1 to 16 blocks of code of a mode, moved. Every block but the last has a length.
    Blocks {
        bits: Bits,
        blocks: ArrayVec<BlockWords, 16>,
    },
    /// The range of slots, after each instruction of the input got one, the input being code of the range's mode whose first byte has the
    /// address `old`.
    Slots {
        old: u64,
        range: SlotRange,
    },
    /// The lines of the table's rows.
    Rows,
    /// The numbers of so many instructions that are made, listed and moved.
    Sample {
        count: SampleCount,
    },
    /// The word of this number, from 1, is not allowed, missing or too many.
    Wrong {
        word: u64,
    },
}

/// A block of code as its words give it: the old address of the first byte, the new address, and the number of input bytes. The last block takes the
/// rest of the input.
#[derive(Clone, Copy, Default)]
pub struct BlockWords {
    pub old: u64,
    pub new: u64,
    pub len: Option<u64>,
}

/// A command that reads code, or makes it, known by its name alone. Its words begin with `BITS BASE`. Their values are known only after all words are
/// read, as a `Command`.
#[derive(Clone, Copy)]
pub enum Through {
    List,
    Info,
    Recode,
    Flow,
    Asm,
    Move,
    Map,
    Slots,
}
