//! The rows of the table.

ghost use Rattle.std.specs.Prelude.{length, ◌≡◌};
ghost use Rattle.c_calls.specs.Answers.{IsCodeNamed, count_or_refusal, name_answer, notation_answer, text_within, with_text};
ghost use Rattle.c_calls.specs.Info.{access_number};
ghost use Rattle.c_calls.specs.RowOperands.{access_left, kind_answer};
ghost use Rattle.c_calls.specs.RowColumns.{access_of};

use c_calls::{row_operands, rows};

/// Writes the name of a row, a mnemonic in lower case of 1 to 16 bytes, with a terminating 0, and returns the length of the name.
///
/// Refusals: `Code` if there is no such row, `Room`.
#[unsafe(no_mangle)]
pub extern "C" fn feddurzai_name(code: u32, out: &mut [u8]) -> i32
    ensures said { result ≡ count_or_refusal (text_within (length out.old) (name_answer code)) }
    ensures left { out.new ≡ with_text out.old (text_within (length out.old) (name_answer code)) }
{
    rows::name(code, out)
}

/// Writes the notation of a row as the manual has it, such as `REX.W + 81 /0 id`, with a terminating 0, and returns the length of the notation, at most 64
/// (Intel SDM volume 2, 3.1.1).
///
/// Refusals: `Code` if there is no such row, `Room`.
#[unsafe(no_mangle)]
pub extern "C" fn feddurzai_notation(code: u32, out: &mut [u8]) -> i32
    ensures said { result ≡ count_or_refusal (text_within (length out.old) (notation_answer code)) }
    ensures left { out.new ≡ with_text out.old (text_within (length out.old) (notation_answer code)) }
{
    rows::notation(code, out)
}

/// Writes the word of the kind of a row's operand, ASCII, with a terminating 0, and its access, 0 to 3 as in `feddurzai_info`. It returns the length of the
/// word, at most 5: 0 for an operand that the row does not have.
///
/// The operands have the numbers 0 to 3. The words are the manual's, such as `Eb` and `Gv`: how an operand is addressed, and its type. Z is a register by the
/// opcode, and a fixed register has its name (Intel SDM volume 2, A.2). Refusals: `Code`, `Name` for any other number, `Room`, the first that applies; word and
/// access are then unchanged.
#[unsafe(no_mangle)]
pub extern "C" fn feddurzai_row_operand(
    code: u32,
    index: u32,
    access: &mut u8,
    kind: &mut [u8],
) -> i32
    ensures said { result ≡ count_or_refusal (text_within (length kind.old) (kind_answer code index)) }
    ensures left { kind.new ≡ with_text kind.old (text_within (length kind.old) (kind_answer code index)) }
    ensures access { access.new ≡ access_left access.old (text_within (length kind.old) (kind_answer code index)) (access_number (access_of code index)) }
{
    row_operands::row_operand(code, index, access, kind)
}

/// Returns the code of the `n`-th row of a name, from 0, in the order of the codes. The name is a mnemonic in lower case without a terminating 0.
///
/// The refusal is `Name`, exactly if the name has no more than `n` rows or is not UTF-8.
#[unsafe(no_mangle)]
pub extern "C" fn feddurzai_code_of(name: &[u8], n: usize) -> i32
    ensures { IsCodeNamed name.now n result }
{
    rows::code_of(name, n)
}
