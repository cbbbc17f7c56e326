//! The texts of instructions, registers and features.

ghost use Rattle.std.specs.Prelude.{length, ◌≡◌};
ghost use Rattle.c_calls.specs.Answers.{count_or_refusal, text_answer, text_within, with_text};
ghost use Rattle.c_calls.specs.Effects.{feature_answer};
ghost use Rattle.c_calls.specs.Names.{register_answer, segment_answer};
ghost use Rattle.c_calls.specs.Formatting.{IsFormat, format_answer, format_code_answer};
ghost use Rattle.c_calls.specs.Pieces.{pieces_left, pieces_said, shown_answer, shown_within, text_left};

use c_calls::flat::{FlatInstr, FlatOptions, FlatPiece};
use c_calls::{effects, format, names, pieces, texts};
use std::alloc::Global;

/// Writes the text of an instruction in a style, ASCII, with a terminating 0, and returns the length of the text, at most 160.
///
/// The style is 0 for Intel, 1 for AT&T, 2 for MASM. The buffer is unchanged after the terminating 0. Refusals: `Mode`, `Syntax`, `Instr`, `Form`, `Room`, the
/// first that applies; the buffer is then unchanged.
#[unsafe(no_mangle)]
pub extern "C" fn feddurzai_text(bits: u32, syntax: u32, instr: &FlatInstr, out: &mut [u8]) -> i32
    ensures said { result ≡ count_or_refusal (text_within (length out.old) (text_answer bits syntax instr.now)) }
    ensures left { out.new ≡ with_text out.old (text_within (length out.old) (text_answer bits syntax instr.now)) }
{
    texts::text(bits, syntax, instr, out)
}

/// Writes the text of an instruction in a style, with a terminating 0, and the pieces of the text, and returns how many pieces there are, at most 40.
///
/// The text is that of `feddurzai_text`. The pieces cover it without a gap: the first starts at 0, each at the end of the one before it, and the last ends
/// where the text does. Both buffers are unchanged after what is written. Refusals: `Mode`, `Syntax`, `Instr`, `Form`, `Room` if either buffer is too small, the
/// first that applies; both buffers are then unchanged.
#[unsafe(no_mangle)]
pub extern "C" fn feddurzai_pieces(
    bits: u32,
    syntax: u32,
    instr: &FlatInstr,
    text: &mut [u8],
    out: &mut [FlatPiece],
) -> i32
    ensures said { result ≡ pieces_said (shown_within (length text.old) (length out.old) (shown_answer bits syntax instr.now)) }
    ensures text { text.new ≡ text_left text.old (shown_within (length text.old) (length out.old) (shown_answer bits syntax instr.now)) }
    ensures pieces { out.new ≡ pieces_left out.old (shown_within (length text.old) (length out.old) (shown_answer bits syntax instr.now)) }
{
    pieces::pieces(bits, syntax, instr, text, out)
}

/// Writes the text of an instruction in a style as options say, with a terminating 0, and returns the length of the text. It allocates.
///
/// `end` is the address of the next instruction, which counts where an operand at RIP is written with its distance. The name, if it has bytes, is the symbol of
/// the near target or the address that the instruction names, which lies so many bytes after the symbol. Refusals: `Mode`, `Syntax`, `Options`, `Instr`, `Form`,
/// `Memory`, `TooLarge` from 2 ^ 31 bytes on, `Room`; the buffer is then unchanged.
#[unsafe(no_mangle)]
pub extern "C" fn feddurzai_format(
    alloc: Global,
    bits: u32,
    syntax: u32,
    options: &FlatOptions,
    instr: &FlatInstr,
    end: u64,
    name: &[u8],
    offset: u64,
    out: &mut [u8],
) -> i32
    ensures { IsFormat out.old out.new result (format_answer bits syntax options.now instr.now end name.now offset) }
{
    format::format(alloc, bits, syntax, options, instr, end, name, offset, out)
}

/// Writes the text of an instruction as `feddurzai_format` does, with the bytes that it was read from. GNU's names show prefixes that have no effect, and all of
/// them in their order. With no bytes the text is that of `feddurzai_format`. Refusals: those of `feddurzai_format`.
#[unsafe(no_mangle)]
pub extern "C" fn feddurzai_format_code(
    alloc: Global,
    bits: u32,
    syntax: u32,
    options: &FlatOptions,
    code: &[u8],
    instr: &FlatInstr,
    end: u64,
    name: &[u8],
    offset: u64,
    out: &mut [u8],
) -> i32
    ensures { IsFormat out.old out.new result
        (format_code_answer bits syntax options.now code.now instr.now end name.now offset) }
{
    format::format_code(
        alloc, bits, syntax, options, code, instr, end, name, offset, out,
    )
}

/// Writes the name of a register in a style, ASCII, with a terminating 0, and returns the length of the name, at most 6.
///
/// The register is given by its class and its number in the class. Refusals: `Syntax`, `Register` if there is none, `Room`, the first that applies; the buffer
/// is then unchanged (Intel SDM volume 1, 3.4).
#[unsafe(no_mangle)]
pub extern "C" fn feddurzai_register_text(
    syntax: u32,
    reg_class: u8,
    reg_number: u8,
    out: &mut [u8],
) -> i32
    ensures said { result ≡ count_or_refusal (text_within (length out.old) (register_answer syntax reg_class reg_number)) }
    ensures left { out.new ≡ with_text out.old (text_within (length out.old) (register_answer syntax reg_class reg_number)) }
{
    names::register_text(syntax, reg_class, reg_number, out)
}

/// Writes the name of the segment register of a prefix, 1 to 6 for ES, CS, SS, DS, FS and GS, with a terminating 0, and returns the length of the name, 2 or 3.
///
/// Refusals: `Syntax`, `Register` for any other number, `Room`, the first that applies; the buffer is then unchanged (Intel SDM volume 2, 2.1.1).
#[unsafe(no_mangle)]
pub extern "C" fn feddurzai_segment_text(syntax: u32, segment: u8, out: &mut [u8]) -> i32
    ensures said { result ≡ count_or_refusal (text_within (length out.old) (segment_answer syntax segment)) }
    ensures left { out.new ≡ with_text out.old (text_within (length out.old) (segment_answer syntax segment)) }
{
    names::segment_text(syntax, segment, out)
}

/// Writes the name of a CPUID feature, ASCII, with a terminating 0, and returns the length of the name, at most 10. The feature is given by its bit in the sets
/// of features (Intel SDM volume 2, CPUID).
///
/// Refusals: `Name` if no feature has this bit, `Room`; the buffer is then unchanged.
#[unsafe(no_mangle)]
pub extern "C" fn feddurzai_feature_name(bit: u32, out: &mut [u8]) -> i32
    ensures said { result ≡ count_or_refusal (text_within (length out.old) (feature_answer bit)) }
    ensures left { out.new ≡ with_text out.old (text_within (length out.old) (feature_answer bit)) }
{
    effects::feature_name(bit, out)
}
