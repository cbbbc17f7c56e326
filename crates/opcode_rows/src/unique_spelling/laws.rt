//! What holds of the fitting spellings of all rows.
ghost use Rattle.std.specs.Prelude.{◌≡◌, ℕ, List, ◌++◌, IsTrue, slice_get, Some};
ghost use Rattle.x86_values.specs.declared.Bits.{Bits};
ghost use Rattle.instruction_parts.specs.declared.row_types.Row.{Row};
ghost use Rattle.instruction_parts.specs.declared.spelling.Spelling.{Spelling};
ghost use Rattle.instruction_parts.specs.Bytes.{bytes_of, state_of, tail_bytes};
ghost use Rattle.row_fit.specs.Fits.{fits};
ghost use Rattle.instruction_parts.specs.RowFields.Holds.{holds};
ghost use Rattle.opcode_rows.specs.Table.{table};
ghost use Rattle.opcode_rows.specs.UniqueSpelling.FieldsOf.{fields_of, first_byte};

/// If a spelling fits a row of the table, the row's conditions hold for the nine fields of the spelling's prefixes, VEX, opcode byte and the byte
/// after it, whatever follows the spelling.
pub fn fitting_rows_hold()
    ensures { (bits : Bits) (code : ℕ) (row : Row) (s : Spelling) (rest : List ℕ)
        → slice_get table code ≡ Some row → IsTrue (fits bits row s)
        → IsTrue (holds bits row (fields_of (state_of bits row s) (first_byte (tail_bytes s ++ rest)))) }
{}

/// In each mode, two fitting spellings of rows of the table that begin the same bytes are the same spelling of the same row, with the same rest. So
/// bytes have at most one row and one spelling, and no fitting spelling is a proper prefix of another.
pub fn spellings_are_unique()
    ensures { (bits : Bits) (j k : ℕ) (q r : Row) (s t : Spelling) (rest others : List ℕ)
        → slice_get table j ≡ Some q → slice_get table k ≡ Some r → IsTrue (fits bits q s) → IsTrue (fits bits r t)
        → bytes_of q s ++ rest ≡ bytes_of r t ++ others
        → (j ≡ k) × (s ≡ t) × (rest ≡ others) }
{}
