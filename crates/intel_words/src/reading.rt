//! Reading the words of an Intel text.

ghost use Rattle.std.specs.Prelude.{◌≡◌, ℕ, List, IsTrue, MatchOption};
ghost use Rattle.x86_values.specs.declared.Bits.{Bits};
ghost use Rattle.x86_values.specs.declared.Instr.{Instr};
ghost use Rattle.instruction_parts.specs.declared.row_types.Row.{Row};
ghost use Rattle.text_parts.specs.declared.style.Style.TheVariants.{Intel};
ghost use Rattle.text_parts.specs.Layout.{bracket_layout};
ghost use Rattle.text_parts.specs.PrefixWords.{name_text};
ghost use Rattle.intel_words.specs.Printable.{is_printable};
ghost use Rattle.intel_words.specs.Words.{words_of};
ghost use Rattle.intel_words.specs.ReadWords as spec;

use crate::operands::operand_into;
use crate::prefixes::read_prefixes;
use crate::scanning::{rest, split_operand};
use crate::words::{IntelWords, NamedWords, OperandText};
use x86_values::Rep;

/// Words of which nothing has been read.
pub const NO_WORDS: IntelWords = IntelWords {
    lock: false,
    rep: Rep::None,
    seg: None,
    asize: None,
    osize: None,
    ops: [OperandText::Absent; 4],
};

/// Writes the operands of a text after the name and a space to their places. If there are none, these may hold anything.
#[inline]
#[tactic(auto, unfolding(crate::specs::ReadWords::operands_in, crate::specs::ReadWords::four))]
fn operands_into(text: &[u8], ops: &mut [OperandText; 4]) -> Option<()>
    ensures { spec.operands_in text.now ≡ spec.written_operands result ops.new }
{
    let (first, text) = split_operand(text);
    operand_into(first, &mut ops[0])?;
    let (second, text) = split_operand(text);
    operand_into(second, &mut ops[1])?;
    let (third, text) = split_operand(text);
    operand_into(third, &mut ops[2])?;
    let (fourth, _) = split_operand(text);
    operand_into(fourth, &mut ops[3])?;
    Some(())
}

/// Writes the words of a text that has the form of an Intel text to `words`, and returns its name. If the text has no such form, `words` may hold anything.
///
/// It does what [`read_words`] does, and copies no words.
pub fn read_words_into<'t>(text: &'t [u8], words: &mut IntelWords) -> Option<&'t [u8]>
    ensures printed { (bits : Bits) → (row : Row) → (name : List ℕ) → (instr : Instr) → IsTrue (is_printable bits row name instr)
        → bracket_layout Intel bits row name instr ≡ text.now
        → MatchOption result ⊥ (λ read. (read.now ≡ name_text bits name instr) × (words.new ≡ words_of bits row name instr)) }
{
    let prefixes = read_prefixes(text);
    words.lock = prefixes.lock;
    words.rep = prefixes.rep;
    words.seg = prefixes.seg;
    words.asize = prefixes.asize;
    words.osize = prefixes.osize;
    match operands_into(rest(prefixes.behind), &mut words.ops) {
        None => None,
        Some(()) => Some(prefixes.name),
    }
}

/// Returns the words of a text that has the form of an Intel text. It allocates nothing.
///
/// Printed text reads back as the words that it was printed from. Text that nothing prints may be refused, or may have words too.
pub fn read_words<'t>(text: &'t [u8]) -> Option<NamedWords<'t>>
    ensures printed { (bits : Bits) → (row : Row) → (name : List ℕ) → (instr : Instr) → IsTrue (is_printable bits row name instr)
        → bracket_layout Intel bits row name instr ≡ text.now
        → MatchOption result ⊥ (λ read. (read.name.now ≡ name_text bits name instr) × (read.words ≡ words_of bits row name instr)) }
{
    let mut words = NO_WORDS;
    match read_words_into(text, &mut words) {
        None => None,
        Some(name) => Some(NamedWords { name, words }),
    }
}
