//! Where the labels of a text stand in it.

ghost use Rattle.std.specs.Prelude.{◌≡◌, ◌+◌, ◌++◌, ◌<◌, ◌≤◌, ◌^◌, length, IfOk};
ghost use Rattle.assembly_text.specs.TextLabels as spec;

use crate::line::{first_line, label_of, shown, shown_column};
use std::alloc::{AllocError, Global};

/// Where a label stands in a text.
#[derive(Clone, Copy, PartialEq, Eq, Debug)]
pub struct LabelLine {
    /// The number of its line, from 1.
    pub line: u64,
    /// The offset of the first byte of its name in the text.
    pub offset: u64,
    /// How many bytes its name has.
    pub len: u64,
}

/// Appends the label of a line, if it has one.
#[tactic(auto, unfolding(crate::specs::TextLabels::label_at))]
fn put_label(
    labels: &mut Vec<LabelLine>,
    number: u64,
    offset: u64,
    line: &[u8],
) -> Result<(), AllocError>
    requires { offset + length line.now < 2 ^ 64 }
    ensures { IfOk result (λ _. labels.new.items ≡ labels.old.items ++ spec.label_at number offset line.now) }
{
    let text = shown(line);
    if let Some(name) = label_of(text) {
        labels.push(LabelLine {
            line: number,
            offset: offset + (shown_column(line) - 1) as u64,
            len: name.len() as u64,
        })?;
    }
    Ok(())
}

/// Returns where the labels of a routine as text stand, in the order of the lines.
///
/// If [`assemble_code`](crate::assemble_code) accepts the text, `address_at` of what it returns has the address of each by its number here, from 0.
///
/// ```
/// let text = b"again: dec ecx\n jne again\n done: ret";
/// let made = assemble_code(rt.alloc(), Bits::B64, 0x40_1000, text)?;
/// let labels = label_lines(rt.alloc(), text)?;
/// for (number, label) in labels.iter().enumerate() {
///     println!(rt; "{} {:?}", label.line, made.address_at(number))?; // 1 Some(4198400), then 3 Some(4198404)
/// }
/// ```
pub fn label_lines(alloc: Global, text: &[u8]) -> Result<Vec<LabelLine>, AllocError>
    ensures { IfOk result (λ labels. labels.items ≡ spec.label_lines text.now) }
{
    let mut labels = Vec::new(alloc);
    let mut rest = text;
    let mut number: u64 = 1;
    let mut offset: u64 = 0;
    'lines: while !rest.is_empty() {
        let (line, behind, _) = first_line(rest);
        put_label(&mut labels, number, offset, line)?;
        number += 1;
        offset += line.len() as u64 + 1;
        rest = behind;
    }
    Ok(labels)
}
