//! The lines of a summary.

ghost use Rattle.std.specs.Prelude.{◌≡◌, ◌≤◌, ◌+◌, ◌++◌, ◌∷◌, [], length};
ghost use Rattle.arrayvec.specs.ArrayVec.{array_vec_len};
ghost use Rattle.listing_run.specs.SampleRun.Sample as spec;

use crate::sample_run::summary::Summary;
use arrayvec::ArrayVec;
use itoa::{Buffer, Integer};
use sweep::sweep_text::append;

/// The text of a summary: six lines, each with a word and a number.
pub type SummaryText = ArrayVec<u8, 384>;

/// Appends a line.
fn append_line<I: Integer>(text: &mut SummaryText, word: &[u8], number: I)
    requires { array_vec_len text.old + length word.now + 42 ≤ 384 }
    ensures items { text.new.items ≡ text.old.items ++ (word.now ++ (32 ∷ (I.text number ++ 10 ∷ []))) }
    ensures len { array_vec_len text.new ≤ array_vec_len text.old + length word.now + 42 }
{
    append(text, word);
    append(text, b" ");
    append(text, Buffer::new().format(number).as_bytes());
    append(text, b"\n");
}

/// Returns the lines of a summary.
#[tactic(auto, unfolding(crate::specs::SampleRun::Sample::summary_text))]
pub fn summary_text(summary: &Summary) -> SummaryText
    ensures { result.items ≡ spec.summary_text summary.now }
{
    let mut text = SummaryText::new();
    append_line(&mut text, b"instructions", summary.instructions);
    append_line(&mut text, b"bytes", summary.bytes);
    append_line(&mut text, b"text", summary.text);
    append_line(&mut text, b"moved", summary.moved);
    append_line(&mut text, b"grown", summary.grown);
    append_line(&mut text, b"sum", summary.sum);
    text
}
