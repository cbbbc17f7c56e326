//! What holds of the whole table.

ghost use Rattle.std.specs.Prelude.{◌≡◌, ◌<◌, ℕ, slice_get, Some, IsTrue};
ghost use Rattle.instruction_parts.specs.declared.row_types.Row.{Row};
ghost use Rattle.instruction_parts.specs.Kinds.{method_of};
ghost use Rattle.row_fit.specs.Fits.{kind_at};
ghost use Rattle.opcode_rows.specs.Table.{table};
ghost use Rattle.operand_info.specs.declared.columns.Access.TheVariants.{Read};
ghost use Rattle.operand_info.specs.Columns.{has_direct_target};
ghost use Rattle.operand_info.specs.ByCode.{flow_of, access_of};
ghost use Rattle.operand_info.specs.Laws.{is_constant, goes_to_operand};

pub use opcode_rows::laws::well_formed_codes_are_in_the_table;

/// Constant operands are read and never written.
pub fn constants_are_read()
    ensures { (code n : ℕ) (row : Row) → slice_get table code ≡ Some row → n < 4
        → IsTrue (is_constant (method_of (kind_at row n))) → access_of code n ≡ Read }
{}

/// The branches and calls whose flow names a direct target are exactly those that hold one.
pub fn direct_flows_hold_their_target()
    ensures { (code : ℕ) (row : Row) → slice_get table code ≡ Some row
        → has_direct_target row ≡ goes_to_operand (flow_of code) row }
{}
