//! Laws of the definitions, as the contracts of functions that do nothing.

ghost use Rattle.std.specs.Prelude.{◌≡◌, ℕ, false, List, ◌++◌, IsTrue};
ghost use Rattle.x86_values.specs.declared.Bits.{Bits};
ghost use Rattle.instruction_parts.specs.declared.row_types.Row.{Row};
ghost use Rattle.instruction_parts.specs.declared.spelling.Spelling.{Spelling};
ghost use Rattle.instruction_parts.specs.declared.spelling.PrefixState.{PrefixState};
ghost use Rattle.row_fit.specs.Fits.{fits, Fits, are_bytes};
ghost use Rattle.row_fit.specs.FrontParts.{Parted, OpcodeAt};
ghost use Rattle.instruction_parts.specs.Front.{long_front, Known, Forbidden};
ghost use Rattle.instruction_parts.specs.Bytes.{bytes_of, state_of};
ghost use Rattle.instruction_parts.specs.Sizes.{exists_in, is_vex_row};
ghost use Rattle.row_fit.specs.Fits.{opcode_fits};
ghost use Rattle.row_fit.specs.Sound.{sound, Sound, begins_nothing};

/// The front of the bytes of a fitting spelling, whatever follows them, is the spelling's own state.
pub fn front_is_state()
    ensures { (bits : Bits) (row : Row) (s : Spelling) (rest : List ℕ)
        → IsTrue (fits bits row s) → long_front bits (bytes_of row s ++ rest) ≡ Known (state_of bits row s) }
{}

/// A fitting spelling meets each of the eleven conditions.
pub fn fits_each_condition()
    ensures { (bits : Bits) (row : Row) (s : Spelling) → IsTrue (fits bits row s) → Fits bits row s }
{}

/// Bytes with a known front are prefixes, a VEX or escape bytes, the opcode byte, and a rest.
pub fn front_has_parts()
    ensures { (bits : Bits) (bytes : List ℕ) (f : PrefixState)
        → IsTrue (are_bytes bytes) → long_front bits bytes ≡ Known f → Parted bits bytes f }
{}

/// Fitting spellings that begin the same bytes have one state: one VEX, one map, one opcode byte.
pub fn bytes_fix_state()
    ensures { (bits : Bits) (row other_row : Row) (s other : Spelling) (rest other_rest : List ℕ)
        → IsTrue (fits bits row s) → IsTrue (fits bits other_row other)
        → bytes_of row s ++ rest ≡ bytes_of other_row other ++ other_rest
        → state_of bits row s ≡ state_of bits other_row other }
{}

/// Fitting spellings of one row that begin the same bytes are equal, with the same rest.
pub fn one_spelling_of_a_row()
    ensures { (bits : Bits) (row : Row) (s other : Spelling) (rest other_rest : List ℕ)
        → IsTrue (fits bits row s) → IsTrue (fits bits row other)
        → bytes_of row s ++ rest ≡ bytes_of row other ++ other_rest
        → (s ≡ other) × (rest ≡ other_rest) }
{}

/// A known front stays the same, whatever follows the bytes.
pub fn known_front_stays()
    ensures { (bits : Bits) (bytes more : List ℕ) (f : PrefixState)
        → long_front bits bytes ≡ Known f → long_front bits (bytes ++ more) ≡ Known f }
{}

/// A forbidden front stays forbidden, whatever follows the bytes.
pub fn forbidden_front_stays()
    ensures { (bits : Bits) (bytes more : List ℕ)
        → long_front bits bytes ≡ Forbidden → long_front bits (bytes ++ more) ≡ Forbidden }
{}

/// The byte after the bytes that a known front has used is its opcode byte.
pub fn opcode_byte_is_behind_front()
    ensures { (bits : Bits) (bytes : List ℕ) (f : PrefixState)
        → long_front bits bytes ≡ Known f → OpcodeAt bytes f }
{}

/// A sound row meets each of the nine conditions.
pub fn sound_each_condition()
    ensures { (row : Row) → IsTrue (sound row) → Sound row }
{}

/// In a mode in which a sound legacy row exists, its opcode byte is no prefix and no escape byte of its map.
pub fn opcode_of_sound_row_begins_nothing()
    ensures { (bits : Bits) (row : Row) (opcode : ℕ)
        → IsTrue (sound row) → is_vex_row row ≡ false → IsTrue (exists_in bits row) → IsTrue (opcode_fits row opcode)
        → IsTrue (begins_nothing bits row.map opcode) }
{}
