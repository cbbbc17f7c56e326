//! What holds of all Intel texts.

ghost use Rattle.std.specs.Prelude.{◌≡◌, ℕ, List};
ghost use Rattle.x86_values.specs.declared.Bits.{Bits};
ghost use Rattle.x86_values.specs.declared.DispSize.{DispSize};
ghost use Rattle.intel_reader.specs.Assembled.{Assembly, IsCandidate};
ghost use Rattle.intel_reader.specs.Candidate.{HasSize};

use intel_words::laws::texts_show_words;

/// Two instructions that have plain spellings at one address in one mode are equal if they agree in code, Intel text, address size and, if they have
/// an address, displacement size.
pub fn texts_tell_apart()
    ensures { (bits : Bits) (ip : ℕ) (text : List ℕ) (a b : Assembly) (size : DispSize) → IsCandidate bits ip text a → IsCandidate bits ip text b
        → a.instr.code ≡ b.instr.code → a.instr.asize ≡ b.instr.asize → HasSize size a.instr → HasSize size b.instr → a.instr ≡ b.instr }
{
    texts_show_words();
}
