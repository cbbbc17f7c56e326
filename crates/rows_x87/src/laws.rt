//! What holds of these rows.
ghost use Rattle.std.specs.Prelude.{◌<◌};
ghost use Rattle.x86_values.specs.declared.Bits.{Bits};
ghost use Rattle.instruction_parts.specs.declared.row_fields.Fields.{Fields};
ghost use Rattle.instruction_parts.specs.RowFields.Holds.{RowsAreApart};
ghost use Rattle.rows_x87.specs.Table.{table};

/// In each mode and on all values of the nine fields, two rows whose conditions hold are one row.
pub fn rows_are_apart()
    ensures { (bits : Bits) (f : Fields) → f.opcode < 256 → RowsAreApart bits table f }
{}
