//! What holds of all texts of code.

ghost use Rattle.listing_run.specs.AsmRun.Facts.{AssemblyAnswerFacts};

use opcode_rows::laws::rows_are_counted;

/// A text has exactly one answer: its bytes, or the number of its first bad line.
#[inline]
pub fn texts_have_one_answer()
    ensures { AssemblyAnswerFacts }
{
    rows_are_counted();
}
