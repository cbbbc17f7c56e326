//! What holds of plain spellings of one row, as the contracts of functions that do nothing.

ghost use Rattle.std.specs.Prelude.{◌≡◌, ℕ, length, IsTrue};
ghost use Rattle.x86_values.specs.declared.Bits.{Bits};
ghost use Rattle.x86_values.specs.declared.Instr.{Instr};
ghost use Rattle.instruction_parts.specs.declared.row_types.Row.{Row};
ghost use Rattle.instruction_parts.specs.declared.spelling.Spelling.{Spelling};
ghost use Rattle.row_fit.specs.Fits.{fits};
ghost use Rattle.row_fit.specs.Sound.{Sound};
ghost use Rattle.row_meaning.specs.Meaning.{meaning};
ghost use Rattle.plain_spelling.specs.PlainTail.{plain_spelling};
ghost use Rattle.plain_spelling.specs.Expressible.{Suits};
ghost use Rattle.plain_spelling.specs.Writable.{Writable};
ghost use Rattle.row_relation.specs.IsPlain.{IsPlain};

/// If an instruction meets the conditions on everything except the length, the constructed spelling is plain.
pub fn constructed_spelling_is_plain()
    ensures { (bits : Bits) (ip : ℕ) (row : Row) (i : Instr)
        → Sound row → Writable bits row → length i.ops ≡ 4 → Suits bits ip row i → IsPlain bits ip row (plain_spelling bits ip row i) }
{}

/// A fitting plain spelling that means an instruction at an address is the constructed one, so there is at most one.
pub fn plain_spelling_is_constructed()
    ensures { (bits : Bits) (ip : ℕ) (row : Row) (s : Spelling) (i : Instr)
        → Sound row → Writable bits row → IsTrue (fits bits row s) → IsPlain bits ip row s → meaning bits ip i.code row s ≡ i
        → s ≡ plain_spelling bits ip row i }
{}
