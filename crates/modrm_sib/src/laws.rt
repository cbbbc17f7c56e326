//! Laws of what follows the opcode byte, as the contracts of functions that do nothing.

ghost use Rattle.std.specs.Prelude.{◌≡◌, ℕ, List, ◌∷◌, ◌++◌, length};
ghost use Rattle.x86_values.specs.declared.Bits.{Bits};
ghost use Rattle.x86_values.specs.declared.Instr.{Instr};
ghost use Rattle.instruction_parts.specs.declared.row_types.Row.{Row};
ghost use Rattle.instruction_parts.specs.Bytes.{bytes_of, tail_bytes};
ghost use Rattle.row_fit.specs.Sound.{Sound};
ghost use Rattle.row_relation.specs.RowReading.{RowReads};
ghost use Rattle.plain_spelling.specs.PlainFront.{plain_front_of};
ghost use Rattle.plain_spelling.specs.PlainTail.{plain_spelling, plain_tail};
ghost use Rattle.plain_spelling.specs.Expressible.{Suits};
ghost use Rattle.plain_spelling.specs.Writable.{Writable};
ghost use Rattle.prefixes.specs.Written.{front_written};

/// The plain front of an instruction and its written tail, whatever follows them, are read by the row as that instruction if the conditions on the
/// instruction hold.
pub fn written_tail_is_read_back()
    ensures { (bits : Bits) (ip : ℕ) (row : Row) (i : Instr) (rest : List ℕ)
        → Sound row → Writable bits row → Suits bits ip row i → length i.ops ≡ 4
        → RowReads bits ip i.code row
        (front_written row (plain_front_of bits row i) ++ ((plain_tail bits ip row i).opcode ∷ (tail_bytes (plain_tail bits ip row i) ++ rest)))
        (record { instr = i; len = length (bytes_of row (plain_spelling bits ip row i)) }) }
{}
