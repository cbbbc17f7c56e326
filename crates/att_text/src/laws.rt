//! What holds of the whole table.

ghost use Rattle.std.specs.Prelude.{IsTrue};
ghost use Rattle.std.specs.List.{list_all};
ghost use Rattle.opcode_rows.specs.Parts.{integer_rows, x87_rows, sse_rows, vex_rows};
ghost use Rattle.att_text.specs.Names.{is_integer, is_x87, has_no_letter_by_size};

/// On integer rows, a name takes a letter for the size of its memory operand. MMX, SSE and VEX rows take no letter; x87 rows have letters of their
/// own.
pub fn letters_stand_on_integer_and_x87_rows()
    ensures integer { IsTrue (list_all is_integer integer_rows) }
    ensures x87 { IsTrue (list_all is_x87 x87_rows) }
    ensures sse { IsTrue (list_all has_no_letter_by_size sse_rows) }
    ensures vex { IsTrue (list_all has_no_letter_by_size vex_rows) }
{}
