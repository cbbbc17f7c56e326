//! Laws of the front, as the contracts of functions that do nothing.

ghost use Rattle.std.specs.Prelude.{◌≡◌, ℕ, List, ◌∷◌, ◌++◌, length, IsTrue};
ghost use Rattle.x86_values.specs.declared.Bits.{Bits};
ghost use Rattle.x86_values.specs.declared.Instr.{Instr};
ghost use Rattle.instruction_parts.specs.declared.row_types.Row.{Row};
ghost use Rattle.instruction_parts.specs.declared.spelling.Spelling.{Spelling};
ghost use Rattle.instruction_parts.specs.Bytes.{tail_bytes};
ghost use Rattle.instruction_parts.specs.Front.{front_of, Known};
ghost use Rattle.row_fit.specs.Fits.{fits};
ghost use Rattle.row_fit.specs.Sound.{Sound};
ghost use Rattle.plain_spelling.specs.PlainFront.{plain_front_of};
ghost use Rattle.plain_spelling.specs.Expressible.{Suits};
ghost use Rattle.plain_spelling.specs.Writable.{Writable};
ghost use Rattle.prefixes.specs.Written.{front_written, with_opcode};

/// The bytes of the plain front of an instruction, followed by the opcode byte and the tail of any fitting spelling of its row, read as the plain
/// front with that opcode byte: the same LOCK, repeat prefix, segment, sizes and register bits.
pub fn written_front_is_read_back()
    ensures { (bits : Bits) (ip : ℕ) (row : Row) (i : Instr) (s : Spelling) (rest : List ℕ)
        → Sound row → Writable bits row → Suits bits ip row i → length i.ops ≡ 4 → IsTrue (fits bits row s)
        → front_of bits (front_written row (plain_front_of bits row i) ++ (s.opcode ∷ (tail_bytes s ++ rest)))
        ≡ Known (with_opcode (plain_front_of bits row i) s.opcode) }
{}
