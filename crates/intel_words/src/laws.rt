//! What holds of all Intel texts that are printed.

ghost use Rattle.std.specs.Prelude.{◌≡◌, List, ℕ, IsTrue};
ghost use Rattle.x86_values.specs.declared.Bits.{Bits};
ghost use Rattle.x86_values.specs.declared.Instr.{Instr};
ghost use Rattle.instruction_parts.specs.declared.row_types.Row.{Row};
ghost use Rattle.text_parts.specs.declared.style.Style.TheVariants.{Intel};
ghost use Rattle.text_parts.specs.Layout.{bracket_layout};
ghost use Rattle.intel_words.specs.Printable.{is_printable};
ghost use Rattle.intel_words.specs.Words.{words_of};

/// A text determines its words: two instructions with the same text have the same words, whatever their rows and names are.
#[inline]
pub fn texts_show_words()
    ensures { (bits : Bits) (row other : Row) (name another : List ℕ) (i j : Instr) → IsTrue (is_printable bits row name i)
        → IsTrue (is_printable bits other another j) → bracket_layout Intel bits row name i ≡ bracket_layout Intel bits other another j
        → words_of bits row name i ≡ words_of bits other another j }
{}
