//! What holds of the whole table.
ghost use Rattle.std.specs.Prelude.{◌≡◌, ◌<◌, ◌≤◌, ◌↔◌, ℕ, Bool, List, false, IsTrue, length, slice_get, Some};
ghost use Rattle.std.specs.List.{list_all};
ghost use Rattle.x86_values.specs.declared.Bits.{Bits};
ghost use Rattle.x86_values.specs.declared.Instr.{Instr};
ghost use Rattle.instruction_parts.specs.declared.row_types.Row.{Row};
ghost use Rattle.instruction_parts.specs.declared.row_types.RowKind.{RowKind};
ghost use Rattle.instruction_parts.specs.declared.row_types.Map.{Map};
ghost use Rattle.row_fit.specs.Sound.{sound};
ghost use Rattle.plain_spelling.specs.Writable.{writable};
ghost use Rattle.instruction_parts.specs.declared.row_fields.Fields.{Fields};
ghost use Rattle.instruction_parts.specs.RowFields.Holds.{RowsAreApart};
ghost use Rattle.instruction_parts.specs.Cells.{IsRunOf, stands_in_cell};
ghost use Rattle.row_relation.specs.Spells.{ReadsAs, Reading, Invalid, IsReading};
ghost use Rattle.version1_rows.specs.Table.{table as first_rows, names as first_names};
ghost use Rattle.opcode_rows.specs.Table.{part_table, table, name_of, cell};
ghost use Rattle.opcode_rows.specs.Order.{opcode_number, LiesAt, HasOneCode};
ghost use Rattle.opcode_rows.specs.Allowed.{is_well_formed};
ghost use Rattle.opcode_rows.specs.Kept.{opcodes_are_kept};
ghost use Rattle.opcode_rows.specs.Words.{is_name, has_one_long_kind};
ghost use Rattle.opcode_rows.specs.Versions.{version1, version1_names, is_added_cell, names_added_cell, AreOfOneVersion};
ghost use Rattle.opcode_rows.specs.declared.spot.Part.{Part};
ghost use Rattle.opcode_rows.specs.declared.generated_spots.TheConstants.{ROWS, VERSION1_ROWS};

/// The table has `ROWS` rows.
pub fn rows_are_counted()
    ensures { length table ≡ ROWS }
{}

/// Each row of each of the four parts occurs in the table at exactly one code.
pub fn each_row_has_one_code()
    ensures { (part : Part) (at : ℕ) (row : Row) → slice_get (part_table part) at ≡ Some row → HasOneCode part at row }
{}

/// The table has no other rows than those of the four parts: a property of every row of each part is a property of every row of the table.
#[inline]
pub fn rows_are_of_the_parts()
    ensures { (test : Row → Bool) → ((part : Part) → IsTrue (list_all test (part_table part)))
        → (code : ℕ) (row : Row) → slice_get table code ≡ Some row → IsTrue (test row) }
{}

/// The codes of one version ascend by kind, map and opcode byte. The codes of one part's rows ascend in the order of its list, also within an opcode
/// byte.
pub fn codes_ascend()
    ensures by_opcode { (j k : ℕ) (q r : Row) → j < k → AreOfOneVersion j k → slice_get table j ≡ Some q → slice_get table k ≡ Some r
        → opcode_number q ≤ opcode_number r }
    ensures in_part { (j k : ℕ) (part : Part) (a b : ℕ) → j < k → LiesAt part a j → LiesAt part b k → a < b }
{}

/// Every row is sound.
pub fn rows_are_sound()
    ensures { (code : ℕ) (row : Row) → slice_get table code ≡ Some row → IsTrue (sound row) }
{}

/// Every row has plain spellings in each mode in which it exists.
pub fn rows_are_writable()
    ensures { (code : ℕ) (row : Row) → slice_get table code ≡ Some row → IsTrue (writable row) }
{}

/// In each mode and for all values of the nine fields, at most one row's conditions hold.
pub fn rows_are_apart()
    ensures { (bits : Bits) (f : Fields) → f.opcode < 256 → RowsAreApart bits table f }
{}

/// The rows of each cell have consecutive codes.
pub fn cells_are_runs()
    ensures { (kind : RowKind) (m : Map) (op : ℕ) → op < 256 → (first : ℕ) × IsRunOf table kind m op first (length (cell kind m op)) }
{}

/// In each mode in which a legacy row exists, its opcode bytes are read as opcode bytes: none is a prefix, an escape byte or, in 64-bit mode, the
/// byte 62.
pub fn opcodes_are_kept_in_each_mode()
    ensures { (bits : Bits) (code : ℕ) (row : Row) → slice_get table code ≡ Some row → IsTrue (opcodes_are_kept bits row) }
{}

/// At most one operand of a row can be memory or a far pointer.
pub fn rows_have_one_long_operand()
    ensures { (code : ℕ) (row : Row) → slice_get table code ≡ Some row → IsTrue (has_one_long_kind row) }
{}

/// Each name has 1 to 16 bytes, each a lower-case letter or a digit.
pub fn names_are_words()
    ensures { (code : ℕ) → code < ROWS → IsTrue (is_name (name_of code)) }
{}

/// The code of a well-formed instruction is below `ROWS`.
#[inline]
pub fn well_formed_codes_are_in_the_table()
    ensures { (i : Instr) → IsTrue (is_well_formed i) → i.code.0 < ROWS }
{}

/// The first `VERSION1_ROWS` rows and their names are those of version 1, as `version1_rows` keeps them.
pub fn version1_is_kept()
    ensures rows { version1 ≡ first_rows }
    ensures names { version1_names ≡ first_names }
{}

/// The cells that version 2 fills contain exactly the rows from `VERSION1_ROWS` on.
pub fn versions_have_their_cells()
    ensures { (code : ℕ) (row : Row) (kind : RowKind) (m : Map) (op : ℕ)
        → slice_get table code ≡ Some row → IsTrue (stands_in_cell kind m op row)
        → IsTrue (is_added_cell kind m op) ↔ (VERSION1_ROWS ≤ code) }
{}

/// Bytes that version 1 reads still read the same. A reading differs from that of version 1 only if the front of the bytes, up to the opcode byte,
/// names a cell that version 2 fills; there version 1 reads no instruction, whatever follows.
pub fn readings_are_kept()
    ensures read { (bits : Bits) (ip : ℕ) (bytes : List ℕ) (instr : Instr) (len : ℕ)
        → ReadsAs version1 bits ip bytes instr len → ReadsAs table bits ip bytes instr len }
    ensures elsewhere { (bits : Bits) (ip : ℕ) (bytes : List ℕ) (reading : Reading)
        → names_added_cell bits bytes ≡ false
        → IsReading version1 bits ip bytes reading ↔ IsReading table bits ip bytes reading }
    ensures there { (bits : Bits) (ip : ℕ) (bytes : List ℕ)
        → IsTrue (names_added_cell bits bytes) → IsReading version1 bits ip bytes Invalid }
{}
