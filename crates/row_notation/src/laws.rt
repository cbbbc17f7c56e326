//! Laws of the notation, as the contracts of functions that do nothing.

ghost use Rattle.std.specs.Prelude.{◌≡◌, ℕ, List};
ghost use Rattle.instruction_parts.specs.declared.row_types.RowShape.{RowShape};
ghost use Rattle.row_notation.specs.Texts.{IsTextOf};

/// A text is the notation of at most one shape.
pub fn one_shape_of_a_text()
    ensures { (text : List ℕ) (s t : RowShape) → IsTextOf text s → IsTextOf text t → s ≡ t }
{}
